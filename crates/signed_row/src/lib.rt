// One row of a signed meter: what an estimate reads of it, what an update leaves in a group of it, and a source's row added to it or
// taken away.
#![tactic(auto)]

ghost use Rattle.std.specs.Prelude.{◌≡◌, Bool, true, cond, ◌/◌, ◌<◌, ◌^◌, length, IfOk};
ghost use Rattle.answer.specs.Refusals.{status};
ghost use Rattle.geometry.specs.Geometry.{valid_width};
ghost use Rattle.geometry.specs.Geometry as geometry;
ghost use Rattle.meter_memory.specs.Rows.{group_at};
ghost use Rattle.meter_memory.specs.Pairs.{pairs_status, pair_groups, pair_row};
ghost use Rattle.meter_runs.specs.Runs.{InRows, run_status, RunTaken};
ghost use Rattle.group.specs.Results.{outcome_of};
ghost use Rattle.signed_number.specs.Number.{integer};
ghost use Rattle.signed_group.specs.Group.{read, combined};
ghost use Rattle.signed_group.specs.Results.{reading_of};
ghost use Rattle.signed_row.specs.Row.{added_in};

use answer::{Refusal, first};
use group::Group;
use meter_memory::{load, store};
use meter_runs::eight_unmerged;
use signed_group::Counter;

// The counter of a slot.
pub fn read_row(row: &[u8], w: usize, slot: usize) -> Result<Counter, Refusal>
    requires fact_1 { valid_width w ≡ true }
    requires fact_2 { length row.now ≡ geometry.stride w }
    requires fact_3 { slot < w }
    ensures value { reading_of result ≡ read (group_at w row.now (slot / 8)) slot }
    ensures magnitude_bound { IfOk result (λ c. c.value.magnitude < 2 ^ 63) }
{
    signed_group::counter(load(row, w, slot / 8), slot)
}

// What an amount leaves in the group of a slot. Stores nothing.
pub fn add_in_row(
    row: &[u8],
    w: usize,
    slot: usize,
    minus: bool,
    magnitude: u32,
) -> Result<Group, Refusal>
    requires fact_1 { valid_width w ≡ true }
    requires fact_2 { length row.now ≡ geometry.stride w }
    requires fact_3 { slot < w }
    ensures { outcome_of (group_at w row.now (slot / 8)) result ≡ added_in w row.now slot (integer minus magnitude) }
{
    signed_group::add(load(row, w, slot / 8), slot, minus, magnitude)
}

// Whether n groups of a row take those of a source row times a sign, the first of which is group `start`. Most do, and then nothing else is
// looked at.
fn groups_status(
    minus: bool,
    row: &[u8],
    source: &[u8],
    w: usize,
    start: usize,
    n: usize,
) -> Result<(), Refusal>
    requires { InRows w n start row.now source.now }
    ensures { status result ≡ run_status (combined minus) w source.now row.now n start }
{
    let mut taken = Ok(());
    for g in start..start + n {
        let next = signed_group::combine_status(minus, load(row, w, g), load(source, w, g));
        if next.is_err() {
            taken = first(taken, next);
        }
    }
    taken
}

// Whether eight groups are unmerged in both rows and hold no minus zero, so that a row takes those of a source row with either sign.
fn clean_eight(row: &[u8], source: &[u8], w: usize, first: usize) -> bool
    requires { InRows w 8 first row.now source.now }
    ensures { result ≡ true → (minus : Bool) → run_status (combined minus) w source.now row.now 8 first ≡ 0 }
{
    if !eight_unmerged(row, source, w, first) {
        return false;
    }
    let start = 8 * first;
    let end = start + 64;
    signed_side::clean(&row[start..end], &source[start..end])
}

// Whether a row takes a source row times a sign. Only a row of 32 slots has groups left after its eights.
pub fn combine_status(minus: bool, row: &[u8], source: &[u8], w: usize) -> Result<(), Refusal>
    requires fact_1 { valid_width w ≡ true }
    requires fact_2 { length row.now ≡ geometry.stride w }
    requires fact_3 { length source.now ≡ geometry.stride w }
    ensures { status result ≡ pairs_status (combined minus) w source.now row.now }
{
    let mut taken = Ok(());
    for e in 0..w / 64 {
        if !clean_eight(row, source, w, 8 * e) {
            taken = first(taken, groups_status(minus, row, source, w, 8 * e, 8));
        }
    }
    first(
        taken,
        groups_status(minus, row, source, w, w / 64 * 8, w / 8 % 8),
    )
}

// n groups of a source row times a sign united with those of a row one by one, the first of which is group `first`. Each is taken.
fn combine_groups(minus: bool, row: &mut [u8], source: &[u8], w: usize, first: usize, n: usize)
    requires fact_1 { InRows w n first row.old source.now }
    requires fact_2 { RunTaken (combined minus) w source.now row.old n first }
    ensures { row.new ≡ pair_groups (combined minus) w source.now n first row.old }
{
    for g in first..first + n {
        let x = signed_group::combine_clean(minus, load(row, w, g), load(source, w, g));
        store(row, w, g, x);
    }
}

// Eight of them side by side, if none is merged in either row and the sums are unmerged again. Otherwise nothing is stored.
fn combine_side(minus: bool, row: &mut [u8], source: &[u8], w: usize, first: usize) -> bool
    requires { InRows w 8 first row.old source.now }
    ensures { row.new ≡ cond result (pair_groups (combined minus) w source.now 8 first row.old) row.old }
{
    if !eight_unmerged(row, source, w, first) {
        return false;
    }
    let start = 8 * first;
    let end = start + 64;
    signed_side::combine(minus, &mut row[start..end], &source[start..end])
}

// A source row times a sign united with a row that takes it. Only a row of 32 slots has groups left after its eights.
pub fn combine_row(minus: bool, row: &mut [u8], source: &[u8], w: usize)
    requires w_value_1 { valid_width w ≡ true }
    requires w_value_2 { length row.old ≡ geometry.stride w }
    requires w_value_3 { length source.now ≡ geometry.stride w }
    requires row_value { pairs_status (combined minus) w source.now row.old ≡ 0 }
    ensures { row.new ≡ pair_row (combined minus) w source.now row.old }
{
    for e in 0..w / 64 {
        if !combine_side(minus, row, source, w, 8 * e) {
            combine_groups(minus, row, source, w, 8 * e, 8);
        }
    }
    combine_groups(minus, row, source, w, w / 64 * 8, w / 8 % 8);
}
