// A group of a signed meter: eight slots whose counters are sign and magnitude, and their merge byte.
#![tactic(auto)]

ghost use Rattle.std.specs.Prelude.{◌≡◌, ◌<◌, ◌^◌, IfOk, IsTrue};
ghost use Rattle.answer.specs.Refusals.{status};
ghost use Rattle.group.specs.declared.Group.{Group};
ghost use Rattle.group.specs.Group.{settle};
ghost use Rattle.group.specs.Results.{outcome_of};
ghost use Rattle.group_block.specs.Sum.{SumOf};
ghost use Rattle.signed_number.specs.Number.{integer};
ghost use Rattle.signed_block.specs.Signed.{signed};
ghost use Rattle.signed_block.specs.Passed.{signed_summed};
ghost use Rattle.signed_group.specs.Group.{bad_group, read, added, bad_pair, combined};
ghost use Rattle.signed_group.specs.Results.{reading_of};

use answer::{Refusal, first};
use group::{Group, is_valid, settled};
use group_block::Packed;
use little_endian::number_of;
use signed_number::Signed;
use signed_widening::add_widening;
pub use signed_words::Counter;
use signed_words::{add_in_place, counter_at, no_minus_zero, sum_fits, times_sign};

// Why a group is refused: its merge byte is not valid, or a counter is minus zero.
pub fn bad_group(g: Group) -> Result<(), Refusal>
    ensures { status result ≡ bad_group g }
{
    if !is_valid(g.merge) {
        return Err(Refusal::InvalidContent);
    }
    if !no_minus_zero(number_of(g.counts), g.merge) {
        return Err(Refusal::MinusZero);
    }
    Ok(())
}

// The counter that a slot is in.
pub fn counter(g: Group, slot: usize) -> Result<Counter, Refusal>
    ensures value { reading_of result ≡ read g slot }
    ensures magnitude_bound { IfOk result (λ c. c.value.magnitude < 2 ^ 63) }
{
    bad_group(g)?;
    Ok(counter_at(number_of(g.counts), g.merge, slot % 8))
}

// The group that an addition or a union left, if a counter holds the sum.
fn outcome(s: Result<Packed, Signed>) -> Result<Group, Refusal>
    ensures { (g : Group) (x : SumOf signed 3) → s ≡ signed_summed x → outcome_of g result ≡ settle g x }
{
    match s {
        Ok(block) => Ok(settled(block)),
        Err(_) => Err(Refusal::CounterFull),
    }
}

// An amount added to the counter that a slot is in.
pub fn add(g: Group, slot: usize, minus: bool, magnitude: u32) -> Result<Group, Refusal>
    ensures { outcome_of g result ≡ added g slot (integer minus magnitude) }
{
    bad_group(g)?;
    let word = number_of(g.counts);
    let k = slot % 8;
    let amount = Signed {
        minus,
        magnitude: magnitude as u64,
    };
    if let Some(sum) = add_in_place(word, g.merge, k, amount) {
        return Ok(settled(Packed {
            word: sum,
            merge: g.merge,
        }));
    }
    outcome(add_widening(word, g.merge, k, amount))
}

// Whether two groups are not merged and no slot is minus zero. Of most groups that is so, and no more is asked of them.
fn clean_pair(target: Group, source: Group) -> bool
    ensures { IsTrue result → bad_pair target source ≡ 0 }
{
    if target.merge | source.merge != 0 {
        return false;
    }
    no_minus_zero(number_of(target.counts), 0) && no_minus_zero(number_of(source.counts), 0)
}

// Why either of two groups is refused: 5 in either comes before 13 in either.
fn bad_pair(target: Group, source: Group) -> Result<(), Refusal>
    ensures { status result ≡ bad_pair target source }
{
    if clean_pair(target, source) {
        return Ok(());
    }
    first(bad_group(target), bad_group(source))
}

// Whether a target takes a source times a sign.
pub fn combine_status(minus: bool, target: Group, source: Group) -> Result<(), Refusal>
    ensures { status result ≡ (combined minus target source).status }
{
    bad_pair(target, source)?;
    let word = number_of(target.counts);
    let source_word = number_of(source.counts);
    if sum_fits(minus, word, target.merge, source_word, source.merge) {
        return Ok(());
    }
    Err(Refusal::CounterFull)
}

// A source group times a sign united with a target, neither of which is refused: added to it or, with a minus, taken away from it. Where no
// counter holds the sum, the target as it was.
pub fn combine_clean(minus: bool, target: Group, source: Group) -> Group
    requires { bad_pair target source ≡ 0 }
    ensures { result ≡ (combined minus target source).group }
{
    let word = number_of(target.counts);
    let source_word = times_sign(minus, number_of(source.counts), source.merge);
    let united = signed_union::unite(word, target.merge, source_word, source.merge);
    outcome(united).unwrap_or(target)
}
