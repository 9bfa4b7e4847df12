// One row of a meter: what an estimate and the widest level read of it, and an update in it.
#![tactic(auto)]

ghost use Rattle.std.specs.Prelude.{◌≡◌, true, cond, ◌/◌, ◌<◌, eqb, length, IfOk};
ghost use Rattle.geometry.specs.Geometry.{valid_width};
ghost use Rattle.geometry.specs.Geometry as geometry;
ghost use Rattle.meter_memory.specs.Rows.{group_at, with_group};
ghost use Rattle.answer.specs.Answers.{answer_of, told};
ghost use Rattle.answer.specs.Refusals.{status};
ghost use Rattle.group.specs.Group.{read};
ghost use Rattle.group.specs.Results.{reading_of};
ghost use Rattle.meter_row.specs.Row.{widest_status, widest_row, added_in, added_row};

use answer::{Refusal, first};
use group::{Counter, Group};
use meter_memory::{load, store};

// The first refusal of all that was looked at, if any, and a number made of it, also of what was refused.
#[derive(Clone, Copy)]
pub struct Found {
    pub status: Result<(), Refusal>,
    pub value: u64,
}

impl Found {
    // The number, where nothing is refused.
    pub fn figure(self) -> Result<u64, Refusal>
        ensures answer { told result ≡ answer_of (status self.status) self.value }
        ensures status_value { status result ≡ status self.status }
        ensures value { IfOk result (λ v. v ≡ self.value) }
    {
        match self.status {
            Ok(()) => Ok(self.value),
            Err(refusal) => Err(refusal),
        }
    }
}

// The counter of a slot.
#[tactic(auto, using(crate::proofs::Slots::counts_in, crate::proofs::Slots::merge_in))]
pub fn read_row(row: &[u8], w: usize, slot: usize) -> Result<Counter, Refusal>
    requires fact_1 { valid_width w ≡ true }
    requires fact_2 { length row.now ≡ geometry.stride w }
    requires fact_3 { slot < w }
    ensures { reading_of result ≡ read (group_at w row.now (slot / 8)) slot }
{
    group::counter(load(row, w, slot / 8), slot)
}

// The value of a counter that was read, and 0 of one that was not.
pub fn value_of(c: Result<Counter, Refusal>) -> u64
    ensures { result ≡ (reading_of c).value }
{
    c.map_or(0, |c| c.value)
}

// An update of a row: the group of a slot stored.
#[tactic(auto, using(crate::proofs::Slots::counts_in, crate::proofs::Slots::merge_in))]
pub fn update_row(row: &mut [u8], w: usize, slot: usize, x: Group)
    requires fact_1 { valid_width w ≡ true }
    requires fact_2 { length row.old ≡ geometry.stride w }
    requires fact_3 { slot < w }
    ensures { row.new ≡ with_group w row.old (slot / 8) x }
{
    store(row, w, slot / 8, x);
}

// An amount added in the group of a slot, if the group takes it; the group's status, and the value of the counter that is left.
#[tactic(auto, using(crate::proofs::Slots::counts_in, crate::proofs::Slots::merge_in))]
pub fn update_one(row: &mut [u8], w: usize, slot: usize, amount: u32) -> Found
    requires fact_1 { valid_width w ≡ true }
    requires fact_2 { length row.old ≡ geometry.stride w }
    requires fact_3 { slot < w }
    ensures status_value { status result.status ≡ (added_in w row.old slot amount).status }
    ensures value_value { result.value ≡ (read (added_in w row.old slot amount).group slot).value }
    ensures row_after { row.new ≡ cond (eqb (status result.status) 0) (added_row w row.old slot amount) row.old }
{
    let x = load(row, w, slot / 8);
    if let Some(k) = group::add_in_place(x, slot, amount) {
        let counts = k.counts;
        let kept = Group {
            counts,
            merge: x.merge,
        };
        update_row(row, w, slot, kept);
        return Found {
            status: Ok(()),
            value: k.value,
        };
    }
    match group::add_widening(x, slot, amount) {
        Ok(g) => {
            let value = value_of(group::counter(g, slot));
            update_row(row, w, slot, g);
            Found {
                status: Ok(()),
                value,
            }
        }
        Err(refusal) => Found {
            status: Err(refusal),
            value: value_of(group::counter(x, slot)),
        },
    }
}

// The first status of a row's groups, and their largest level.
pub fn widest_row(row: &[u8], w: usize) -> Found
    requires fact_1 { valid_width w ≡ true }
    requires fact_2 { length row.now ≡ geometry.stride w }
    ensures status_value { status result.status ≡ widest_status w row.now }
    ensures value_value { result.value ≡ widest_row w row.now }
{
    let mut status = Ok(());
    let mut value = 0u64;
    for &merge in &row[w..] {
        match group::widest(merge) {
            Ok(level) => value = value.max(level),
            Err(refusal) => status = first(status, Err(refusal)),
        }
    }
    Found { status, value }
}
