// What a group's calls compute of its count bytes, taken as one number, and its merge byte: the counter of a slot, additions, another
// value in a counter, and whether the counters of two groups fit one.
#![tactic(auto)]

ghost use Rattle.std.specs.Prelude.{◌≡◌, true, ◌+◌, ◌/◌, ◌%◌, ◌^◌, ◌<◌, ◌≤◌, ltb, is_some, IfSome, Ok};
ghost use Rattle.group_layout.specs.Layout.{layout, valid, level_of};
ghost use Rattle.group_block.specs.Block.{cap, block, counter_at};
ghost use Rattle.group_block.specs.Block as block_spec;
ghost use Rattle.group_block.specs.Change as change_spec;
ghost use Rattle.group_block.specs.Passed.{summed};
ghost use Rattle.group_block.specs.Sum as sum_spec;
ghost use Rattle.group_sums.specs.Sums as spec;

use group_block::{Counter, Ordinary, Packed};
use group_levels::{formed, level_at, most, place, put, twins, value_at};

// The counter that a slot is in.
pub fn counter_at(word: u64, merge: u8, slot: usize) -> Counter
    requires fact_1 { valid 3 merge ≡ true }
    requires fact_2 { slot < 8 }
    ensures { result ≡ counter_at (block 3 word merge) slot }
{
    let level = level_at(merge, slot);
    let at = place(level, slot);
    Counter {
        value: value_at(word, level, at),
        level,
    }
}

// The count bytes, taken as one number, after an addition that its counter holds, and the counter's value then.
#[derive(Clone, Copy)]
pub struct InPlace {
    pub word: u64,
    pub value: u64,
}

// An amount added to the counter that a slot is in, if the counter holds the sum. The layout stays.
pub fn add_in_place(word: u64, merge: u8, slot: usize, amount: u32) -> Option<InPlace>
    requires fact_1 { valid 3 merge ≡ true }
    requires fact_2 { slot < 8 }
    ensures held_value { is_some result ≡ spec.holds_at word merge slot amount }
    ensures stays { IfSome result (λ sum. spec.Stays word merge slot amount sum.word sum.value) }
{
    let level = level_at(merge, slot);
    let at = place(level, slot);
    let before = value_at(word, level, at);
    let room = most(level) - before;
    if room < amount as u64 {
        return None;
    }
    let sum = word + ((amount as u64) << at);
    let value = before + amount as u64;
    Some(InPlace { word: sum, value })
}

// The sum of the two counters of this level side by side at a place.
fn twin_sum(word: u64, level: u32, place: usize) -> u64
    requires fact_1 { level ≤ 2 }
    requires fact_2 { place < 64 }
    ensures value { result ≡ word / 2 ^ place % cap (level + 1) % cap level + word / 2 ^ place % cap (level + 1) / cap level }
    ensures upper_bound { result < 2 ^ 33 }
{
    let both = value_at(word, level + 1, place);
    group_block::low_word(level, both) + group_block::high_word(level, both)
}

// An amount added to a counter that cannot hold the sum, where the counter beside it has the same level and one counter of the next
// level holds the sum of both.
fn widened(word: u64, merge: u8, level: u32, slot: usize, amount: u32) -> Option<Packed>
    requires fact_1 { valid 3 merge ≡ true }
    requires fact_2 { level ≤ 2 }
    requires fact_3 { slot < 8 }
    requires fact_4 { cap level ≤ (counter_at (block 3 word merge) slot).value + amount }
    ensures { IfSome result (λ p. Ok p ≡ summed (sum_spec.add (block 3 word merge) slot amount)) }
{
    let at = place(level + 1, slot);
    if !twins(merge, level, at / 8) {
        return None;
    }
    let sum = twin_sum(word, level, at) + amount as u64;
    if most(level + 1) < sum {
        return None;
    }
    Some(Packed {
        word: put(word, level + 1, at, sum),
        merge: formed(merge, level, at / 8),
    })
}

// An amount added to a counter, of this level, that does not hold the sum. The group is not one counter, so it has space left.
pub fn add_widening(word: u64, merge: u8, level: u32, slot: usize, amount: u32) -> Packed
    requires fact_1 { valid 3 merge ≡ true }
    requires fact_2 { slot < 8 }
    requires fact_3 { level ≡ level_of (layout 3 merge) slot }
    requires fact_4 { level ≤ 2 }
    requires fact_5 { spec.NotHeld word merge slot amount }
    ensures { Ok result ≡ summed (sum_spec.add (block 3 word merge) slot amount) }
{
    if let Some(wider) = widened(word, merge, level, slot, amount) {
        return wider;
    }
    group_block::add::<Ordinary>(3, word, merge, slot, amount as u64).unwrap()
}

// Whether the sum of all counters of two groups is below 2 ^ 64. It is where neither group is one counter.
pub fn sum_fits(word: u64, merge: u8, other_word: u64, other_merge: u8) -> bool
    ensures { result ≡ ltb (block_spec.total (block 3 word merge) + block_spec.total (block 3 other_word other_merge)) (2 ^ 64) }
{
    if ((merge | other_merge) >> 3) & 1 == 0 {
        return true;
    }
    let room = u64::MAX - group_block::total::<Ordinary>(3, word, merge);
    group_block::total::<Ordinary>(3, other_word, other_merge) <= room
}

// The count bytes, taken as one number, with another value in the counter that a slot is in.
pub fn with_value(word: u64, merge: u8, slot: usize, value: u64) -> u64
    requires fact_1 { valid 3 merge ≡ true }
    requires fact_2 { slot < 8 }
    ensures { result ≡ block_spec.number_of (change_spec.change (block 3 word merge) slot value) }
{
    let level = level_at(merge, slot);
    let at = place(level, slot);
    put(word, level, at, value & most(level))
}
