// What a signed group's calls compute of its count bytes, taken as one number, and its merge byte: whether a counter is minus zero,
// every counter with the other sign, the counter of a slot, and an addition that its counter holds.
#![tactic(auto)]

ghost use Rattle.std.specs.Prelude.{◌≡◌, true, ◌+◌, ◌-◌, ◌<◌, ◌≤◌, ◌^◌, ltb, ◌+ℤ◌, nat_abs, is_some, IfSome};
ghost use Rattle.group_layout.specs.Layout.{layout, valid, level_of};
ghost use Rattle.group_block.specs.Block.{cap, number_of, all_clean, counter_value};
ghost use Rattle.signed_number.specs.Number.{integer_of, signed_of};
ghost use Rattle.signed_block.specs.Signed.{signed, sign_bits, sign_read, times_block};
ghost use Rattle.signed_block.specs.Signed as sign_spec;
ghost use Rattle.signed_block.specs.Passed.{signed_block};
ghost use Rattle.signed_words.specs.Words as spec;

use group_levels::{exchange, most, place};
use signed_block::{top, total, value};
use signed_number::{Signed, plus};

// The sign bits of a group's counters. Merge bit k is clear where slot k is the last of its counter.
fn tops(merge: u8) -> u64
    requires { valid 3 merge ≡ true }
    ensures { result ≡ spec.tops (layout 3 merge) }
{
    (((127 ^ merge) as u64 * 4432676798593) & 282578800148737) * 128 + 9223372036854775808
}

// Of these sign bits those of counters whose magnitude is not 0: what a magnitude and the largest one add up to passes the largest.
fn nonzero(word: u64, merge: u8) -> u64
    requires { valid 3 merge ≡ true }
    ensures { result ≡ spec.nonzero (layout 3 merge) word }
{
    let signs = tops(merge);
    let rest = signs ^ 18446744073709551615;
    ((word & rest) + rest) & signs
}

// Whether no counter is minus zero: no sign bit is set where the magnitude is 0.
pub fn no_minus_zero(word: u64, merge: u8) -> bool
    requires { valid 3 merge ≡ true }
    ensures { result ≡ all_clean signed (layout 3 merge) word }
{
    (nonzero(word, merge) ^ tops(merge)) & word == 0
}

// The count bytes, taken as one number, with the other sign in every counter that is not 0.
fn negated(word: u64, merge: u8) -> u64
    requires fact_1 { valid 3 merge ≡ true }
    requires fact_2 { all_clean signed (layout 3 merge) word ≡ true }
    ensures { result ≡ number_of (times_block true (signed_block 3 word merge)) }
{
    word ^ nonzero(word, merge)
}

// The count bytes, taken as one number, with every counter times a sign.
pub fn times_sign(minus: bool, word: u64, merge: u8) -> u64
    requires fact_1 { valid 3 merge ≡ true }
    requires fact_2 { all_clean signed (layout 3 merge) word ≡ true }
    ensures { result ≡ number_of (times_block minus (signed_block 3 word merge)) }
{
    if minus {
        return negated(word, merge);
    }
    word
}

// Whether the sum of all counters of a group and of all of another times a sign has a magnitude below 2 ^ 63. It has where neither
// group is one counter.
pub fn sum_fits(minus: bool, word: u64, merge: u8, other_word: u64, other_merge: u8) -> bool
    ensures { result ≡ spec.sum_fits minus word merge other_word other_merge }
{
    if ((merge | other_merge) >> 3) & 1 == 0 {
        return true;
    }
    let other = total(3, other_word, other_merge);
    let signed = Signed {
        minus: minus != other.minus,
        magnitude: other.magnitude,
    };
    plus(total(3, word, merge), signed).magnitude < 9223372036854775808
}

// A counter's value and level.
#[derive(Clone, Copy, Debug, PartialEq, Eq)]
pub struct Counter {
    pub value: Signed,
    pub level: u32,
}

// The counter that a slot is in.
pub fn counter_at(word: u64, merge: u8, slot: usize) -> Counter
    requires fact_1 { valid 3 merge ≡ true }
    requires fact_2 { slot < 8 }
    requires fact_3 { all_clean signed (layout 3 merge) word ≡ true }
    ensures value_value { result.value ≡ signed_of (counter_value (signed_block 3 word merge) slot) }
    ensures level_value { result.level ≡ level_of (layout 3 merge) slot }
    ensures level_bound { result.level ≤ 3 }
    ensures magnitude_bound { result.value.magnitude < sign_spec.top result.level }
{
    let c = group_sums::counter_at(word, merge, slot);
    Counter {
        value: value(c.level, c.value),
        level: c.level,
    }
}

// The value of a counter, raised by what its sign bit is worth: no value is below 1 then.
fn raised(top: u64, bits: u64) -> u64
    requires fact_1 { bits < top + top }
    requires fact_2 { top ≤ 2 ^ 63 }
    ensures { result ≡ spec.raised top bits }
{
    if bits < top {
        return top + bits;
    }
    top - (bits - top)
}

// The bits of a counter, by its value raised so.
fn lowered(top: u64, raised: u64) -> u64
    requires fact_1 { 0 < raised }
    requires fact_2 { top ≤ 2 ^ 63 }
    ensures { result ≡ spec.lowered top raised }
{
    if raised < top {
        return top + (top - raised);
    }
    raised - top
}

// How much may be added to a raised value, or taken from it, if no more than `most` and no less than 1 is to be left.
fn room(raised: u64, most: u64, minus: bool) -> u64
    requires fact_1 { 0 < raised }
    requires fact_2 { raised ≤ most }
    ensures { result ≡ spec.room raised most minus }
{
    if minus { raised - 1 } else { most - raised }
}

fn moved(raised: u64, amount: Signed) -> u64
    requires { amount.magnitude ≤ spec.room raised (2 ^ 64 - 1) amount.minus }
    ensures { result ≡ spec.moved raised amount }
{
    if amount.minus {
        raised - amount.magnitude
    } else {
        raised + amount.magnitude
    }
}

// An amount added to a counter of a level: the bits, if the counter holds the sum. No branch is taken by signs, which are as good as random.
fn add_to(level: u32, bits: u64, amount: Signed) -> Option<u64>
    requires fact_1 { level ≤ 3 }
    requires fact_2 { bits < cap level }
    ensures held_value { is_some result ≡ ltb (nat_abs (sign_read level bits +ℤ integer_of amount)) (sign_spec.top level) }
    ensures bits_value { IfSome result (λ b. b ≡ sign_bits level (sign_read level bits +ℤ integer_of amount)) }
{
    let sign = top(level);
    let before = raised(sign, bits);
    if room(before, most(level), amount.minus) < amount.magnitude {
        return None;
    }
    Some(lowered(sign, moved(before, amount)))
}

// An amount added to the counter that a slot is in: the count bytes, taken as one number, if the counter holds the sum. The layout stays.
pub fn add_in_place(word: u64, merge: u8, slot: usize, amount: Signed) -> Option<u64>
    requires fact_1 { valid 3 merge ≡ true }
    requires fact_2 { slot < 8 }
    requires fact_3 { all_clean signed (layout 3 merge) word ≡ true }
    ensures held_value { is_some result ≡ spec.holds_at word merge slot (integer_of amount) }
    ensures stays { IfSome result (spec.Stays word merge slot (integer_of amount)) }
{
    let c = group_sums::counter_at(word, merge, slot);
    let bits = add_to(c.level, c.value, amount)?;
    Some(exchange(word, c.level, place(c.level, slot), c.value, bits))
}
