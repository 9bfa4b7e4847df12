// An amount added to a counter of a signed group that does not hold the sum.
#![tactic(auto)]

ghost use Rattle.std.specs.Prelude.{◌≡◌, false, ◌^◌, ◌<◌, ◌≤◌, IfSome, Ok};
ghost use Rattle.group_block.specs.Sum as sum_spec;
ghost use Rattle.signed_number.specs.Number.{integer_of, signed_of};
ghost use Rattle.signed_block.specs.Passed.{signed_block, signed_summed, SignedSane};
ghost use Rattle.signed_words.specs.Words.{holds_at};
ghost use Rattle.signed_widening.specs.Widening.{twin_sum, Past};

use group_block::{Packed, high_word, low_word};
use group_levels::{formed, level_at, place, put, twins, value_at};
use signed_block::{SignedMeter, bits, top, value};
use signed_number::{Signed, plus};

// The sum of the two counters of this level side by side at a place.
fn twin_sum(word: u64, level: u32, place: usize) -> Signed
    requires fact_1 { level ≤ 2 }
    requires fact_2 { place < 64 }
    ensures value { result ≡ signed_of (twin_sum word level place) }
    ensures magnitude_bound { result.magnitude < 2 ^ 32 }
{
    let both = value_at(word, level + 1, place);
    plus(
        value(level, low_word(level, both)),
        value(level, high_word(level, both)),
    )
}

// The sum where the counter beside has the same level and one counter of the next level holds what both and the amount add up to.
fn widened(word: u64, merge: u8, level: u32, slot: usize, amount: Signed) -> Option<Packed>
    requires fact_1 { SignedSane 3 word merge }
    requires fact_2 { level ≤ 2 }
    requires fact_3 { slot < 8 }
    requires fact_4 { amount.magnitude < 2 ^ 63 }
    requires fact_5 { Past word merge level slot (integer_of amount) }
    ensures { IfSome result (λ p. Ok p ≡ signed_summed (sum_spec.add (signed_block 3 word merge) slot (integer_of amount))) }
{
    let at = place(level + 1, slot);
    if !twins(merge, level, at / 8) {
        return None;
    }
    let sum = plus(twin_sum(word, level, at), amount);
    if top(level + 1) <= sum.magnitude {
        return None;
    }
    Some(Packed {
        word: put(word, level + 1, at, bits(level + 1, sum)),
        merge: formed(merge, level, at / 8),
    })
}

// The sum. Most counters that widen have one of their own level beside them; the recursion is for the rest.
pub fn add_widening(word: u64, merge: u8, slot: usize, amount: Signed) -> Result<Packed, Signed>
    requires fact_1 { SignedSane 3 word merge }
    requires fact_2 { slot < 8 }
    requires fact_3 { amount.magnitude < 2 ^ 63 }
    requires fact_4 { holds_at word merge slot (integer_of amount) ≡ false }
    ensures { result ≡ signed_summed (sum_spec.add (signed_block 3 word merge) slot (integer_of amount)) }
{
    let level = level_at(merge, slot);
    if level < 3 {
        if let Some(wider) = widened(word, merge, level, slot, amount) {
            return Ok(wider);
        }
    }
    group_block::add::<SignedMeter>(3, word, merge, slot, amount)
}
