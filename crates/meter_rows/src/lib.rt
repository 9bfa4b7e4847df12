// The rows of a meter one after another: reading counters by the slots of the rows, the widest level and unions.
#![tactic(auto)]

ghost use Rattle.std.specs.Prelude.{◌≡◌, ◌≤◌, length};
ghost use Rattle.geometry.specs.Geometry.{RowsIn};
ghost use Rattle.geometry.specs.Geometry as geometry;
ghost use Rattle.answer.specs.Order.{earliest};
ghost use Rattle.answer.specs.Refusals.{status};
ghost use Rattle.meter_memory.specs.Rows.{map_rows, of_rows, least, largest};
ghost use Rattle.meter_row.specs.Row.{row_status, row_level};
ghost use Rattle.meter_row.specs.Slots.{SlotsIn, slot_status, slot_value};
ghost use Rattle.meter_union.specs.Union.{source_status, source_added};

use answer::Refusal;
use meter_memory::row_at;
use meter_row::{Found, value_of};

// The first status of the counters of a slot in each row, and their least value.
pub fn read_rows(d: usize, w: usize, memory: &[u8], slots: &[usize; 8]) -> Found
    requires fact_1 { 1 ≤ d }
    requires fact_2 { RowsIn d w (length memory.now) }
    requires fact_3 { SlotsIn d w slots.now }
    ensures status_value { status result.status ≡ earliest (of_rows (slot_status w slots.now) (geometry.stride w) d 0 memory.now) }
    ensures value_value { result.value ≡ least (of_rows (slot_value w slots.now) (geometry.stride w) d 0 memory.now) }
{
    let c = meter_row::read_row(row_at(w, memory, 0), w, slots[0]);
    let mut status = c.and(Ok(()));
    let mut value = value_of(c);
    // r is the row's number, as in every loop below.
    for r in 1..d {
        let c = meter_row::read_row(row_at(w, memory, r), w, slots[r]);
        status = answer::first(status, c.and(Ok(())));
        value = value.min(value_of(c));
    }
    Found { status, value }
}

// The first status of a meter's groups, and their largest level.
pub fn widest_rows(d: usize, w: usize, memory: &[u8]) -> Found
    requires { RowsIn d w (length memory.now) }
    ensures status_value { status result.status ≡ earliest (of_rows (row_status w) (geometry.stride w) d 0 memory.now) }
    ensures value_value { result.value ≡ largest (of_rows (row_level w) (geometry.stride w) d 0 memory.now) }
{
    let mut status = Ok(());
    let mut value = 0u64;
    for r in 0..d {
        let c = meter_row::widest_row(row_at(w, memory, r), w);
        status = answer::first(status, c.status);
        value = value.max(c.value);
    }
    Found { status, value }
}

// Whether every row takes a source's.
pub fn unite_status(d: usize, w: usize, memory: &[u8], source: &[u8]) -> Result<(), Refusal>
    requires fact_1 { RowsIn d w (length memory.now) }
    requires fact_2 { length source.now ≡ length memory.now }
    ensures { status result ≡ earliest (of_rows (source_status w source.now) (geometry.stride w) d 0 memory.now) }
{
    let mut status = Ok(());
    for r in 0..d {
        let next = meter_union::unite_status(row_at(w, memory, r), row_at(w, source, r), w);
        status = answer::first(status, next);
    }
    status
}

// A source's rows added into a meter's.
pub fn unite_rows(d: usize, w: usize, memory: &mut [u8], source: &[u8])
    requires fact_1 { RowsIn d w (length memory.old) }
    requires fact_2 { length source.now ≡ length memory.old }
    ensures { memory.new ≡ map_rows (source_added w source.now) (geometry.stride w) d 0 memory.old }
{
    let stride = geometry::stride(w);
    for r in 0..d {
        let start = r * stride;
        let end = start + stride;
        meter_union::unite_row(&mut memory[start..end], row_at(w, source, r), w);
    }
}
