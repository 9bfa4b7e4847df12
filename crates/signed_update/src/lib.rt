// An update in the rows of a signed meter, by the hashes of the key there. Every row is tried before any is written.
#![tactic(auto)]

ghost use Rattle.std.specs.Prelude.{◌≡◌, true, ◌/◌, ◌<◌, ◌^◌, length, IfOk};
ghost use Rattle.answer.specs.Refusals.{status};
ghost use Rattle.geometry.specs.Geometry.{valid_width, RowIn, RowsIn};
ghost use Rattle.geometry.specs.Geometry as geometry;
ghost use Rattle.meter_keys.specs.Keys.{HashesIn};
ghost use Rattle.hash.specs.Hash.{slot_of};
ghost use Rattle.group.specs.Results.{outcome_of};
ghost use Rattle.meter_memory.specs.Rows.{row_of, group_at};
ghost use Rattle.signed_number.specs.Number.{integer};
ghost use Rattle.signed_row.specs.Hashes.{added_by, stored_by, tried_status, Added, added_if};

use answer::{Refusal, first};
use group::Group;
use meter_memory::row_at;

// What an amount, times the sign of a hash, leaves in the group of the hash's slot in row r. Stores nothing.
fn add_at(
    w: usize,
    memory: &[u8],
    r: usize,
    hash: usize,
    minus: bool,
    magnitude: u32,
) -> Result<Group, Refusal>
    requires fact_1 { RowIn w r (length memory.now) }
    requires fact_2 { hash < 2 ^ 32 }
    ensures { outcome_of (group_at w (row_of w memory.now r) (slot_of hash w / 8)) result ≡ added_by w hash (integer minus magnitude) (row_of w memory.now r) }
{
    let h = hash as u32;
    let sign = signed_number::times(hash::sign(h), minus);
    signed_row::add_in_row(row_at(w, memory, r), w, hash::scaled(h, w), sign, magnitude)
}

// An amount added in the group of each row: the groups that it leaves in the rows. Stores nothing. Of rows that refuse it the refusal that comes
// first is handed back, so each is tried.
fn try_rows(
    d: usize,
    w: usize,
    memory: &[u8],
    hashes: &[usize; 8],
    minus: bool,
    magnitude: u32,
) -> Result<[Group; 8], Refusal>
    requires fact_1 { RowsIn d w (length memory.now) }
    requires fact_2 { HashesIn d hashes.now }
    ensures status_value { status result ≡ tried_status d w hashes.now (integer minus magnitude) memory.now }
    ensures added { IfOk result (Added d w memory.now hashes.now (integer minus magnitude)) }
{
    let none = Group {
        counts: [0u8; 8],
        merge: 0,
    };
    let mut groups = [none; 8];
    let mut taken = Ok(());
    // r is the row's number too.
    for r in 0..d {
        match add_at(w, memory, r, hashes[r], minus, magnitude) {
            Ok(g) => groups[r] = g,
            Err(why) => taken = first(taken, Err(why)),
        }
    }
    taken?;
    Ok(groups)
}

// A group stored in a row, where a hash's slot is.
fn store_at(row: &mut [u8], w: usize, hash: usize, x: Group)
    requires fact_1 { valid_width w ≡ true }
    requires fact_2 { length row.old ≡ geometry.stride w }
    requires fact_3 { hash < 2 ^ 32 }
    ensures { row.new ≡ stored_by w hash x row.old }
{
    meter_row::update_row(row, w, hash::scaled(hash as u32, w), x);
}

// An update of each row, once every row is known to take it.
pub fn update_rows(
    d: usize,
    w: usize,
    memory: &mut [u8],
    hashes: &[usize; 8],
    minus: bool,
    magnitude: u32,
) -> Result<(), Refusal>
    requires fact_1 { RowsIn d w (length memory.old) }
    requires fact_2 { HashesIn d hashes.now }
    ensures value { status result ≡ tried_status d w hashes.now (integer minus magnitude) memory.old }
    ensures memory_after { memory.new ≡ added_if (status result) d w hashes.now (integer minus magnitude) memory.old }
{
    let groups = try_rows(d, w, memory, hashes, minus, magnitude)?;
    let stride = geometry::stride(w);
    for r in 0..d {
        let a = r * stride;
        let e = a + stride;
        store_at(&mut memory[a..e], w, hashes[r], groups[r]);
    }
    Ok(())
}
