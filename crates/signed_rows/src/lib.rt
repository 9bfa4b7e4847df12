// The rows of a signed meter one after another: the median of their figures by the hashes of the key there, and a source's rows added or
// taken away.
#![tactic(auto)]

ghost use Rattle.std.specs.Prelude.{◌≡◌, ◌≤◌, ◌<◌, ◌^◌, length, pos};
ghost use Rattle.std.specs.Result.{result_unwrap_or};
ghost use Rattle.answer.specs.Refusals.{status};
ghost use Rattle.answer.specs.Order.{earliest};
ghost use Rattle.geometry.specs.Geometry.{RowIn, RowsIn};
ghost use Rattle.geometry.specs.Geometry as geometry;
ghost use Rattle.meter_keys.specs.Keys.{HashesIn};
ghost use Rattle.meter_memory.specs.Rows.{row_of, map_rows, of_rows};
ghost use Rattle.signed_median.specs.Median as median_spec;
ghost use Rattle.signed_row.specs.Row.{source_status, source_combined};
ghost use Rattle.signed_row.specs.Hashes.{read_by, figure_by, hash_status, hash_figure};

use answer::{Refusal, first};
use meter_memory::row_at;
use signed_median::median;

// The counter of a hash's slot in row r, times the hash's sign.
fn read_at(w: usize, memory: &[u8], r: usize, hash: usize) -> Result<i64, Refusal>
    requires fact_1 { RowIn w r (length memory.now) }
    requires fact_2 { hash < 2 ^ 32 }
    ensures status_value { status result ≡ (read_by w hash (row_of w memory.now r)).status }
    ensures value_value { result_unwrap_or result (pos 0) ≡ figure_by w hash (row_of w memory.now r) }
{
    let h = hash as u32;
    let c = signed_row::read_row(row_at(w, memory, r), w, hash::scaled(h, w))?;
    let sign = signed_number::times(hash::sign(h), c.value.minus);
    Ok(signed_number::to_int(sign, c.value.magnitude))
}

// The median of the rows' figures, and which of the rows' refusals comes first, if any. A row that is refused has the figure 0: the median is
// promised then too, so the two stand side by side.
#[derive(Clone, Copy, Debug, PartialEq, Eq)]
pub struct Figure {
    pub status: Result<(), Refusal>,
    pub value: i64,
}

// What an estimate reads of the rows.
pub fn read_rows(d: usize, w: usize, memory: &[u8], hashes: &[usize; 8]) -> Figure
    requires fact_1 { 1 ≤ d }
    requires fact_2 { RowsIn d w (length memory.now) }
    requires fact_3 { HashesIn d hashes.now }
    ensures status_value { status result.status ≡ earliest (of_rows (hash_status w hashes.now) (geometry.stride w) d 0 memory.now) }
    ensures value_value { result.value ≡ median_spec.median (of_rows (hash_figure w hashes.now) (geometry.stride w) d 0 memory.now) }
{
    let mut values = [0i64; 8];
    let mut taken = Ok(());
    // r is the row's number too.
    for r in 0..d {
        let f = read_at(w, memory, r, hashes[r]);
        values[r] = f.unwrap_or(0);
        taken = first(taken, f.and(Ok(())));
    }
    Figure {
        status: taken,
        value: median(values, d),
    }
}

// Whether every row takes a source's times a sign.
pub fn combine_status(
    minus: bool,
    d: usize,
    w: usize,
    memory: &[u8],
    source: &[u8],
) -> Result<(), Refusal>
    requires fact_1 { RowsIn d w (length memory.now) }
    requires fact_2 { length source.now ≡ length memory.now }
    ensures { status result ≡ earliest (of_rows (source_status minus w source.now) (geometry.stride w) d 0 memory.now) }
{
    let mut taken = Ok(());
    for r in 0..d {
        let next = signed_row::combine_status(minus, row_at(w, memory, r), row_at(w, source, r), w);
        taken = first(taken, next);
    }
    taken
}

// A source's rows times a sign united with a meter's, every one of which takes it.
pub fn combine_rows(minus: bool, d: usize, w: usize, memory: &mut [u8], source: &[u8])
    requires rows_in_1 { RowsIn d w (length memory.old) }
    requires rows_in_2 { length source.now ≡ length memory.old }
    requires memory_value { earliest (of_rows (source_status minus w source.now) (geometry.stride w) d 0 memory.old) ≡ 0 }
    ensures { memory.new ≡ map_rows (source_combined minus w source.now) (geometry.stride w) d 0 memory.old }
{
    let stride = geometry::stride(w);
    for r in 0..d {
        let start = r * stride;
        let end = start + stride;
        signed_row::combine_row(minus, &mut memory[start..end], row_at(w, source, r), w);
    }
}
