// A group of eight slots: its counters, its merge byte and its layout code.
#![tactic(auto)]

ghost use Rattle.std.specs.Prelude.{◌≡◌, false};
ghost use Rattle.answer.specs.Answers.{told};
ghost use Rattle.answer.specs.Refusals.{status};
ghost use Rattle.group_layout.specs.Layout.{valid};
ghost use Rattle.group.specs.Group.{read, holds, added, united_groups, widest_of, changed};
ghost use Rattle.group.specs.Results.{reading_of, outcome_of};
ghost use Rattle.group.specs.Stored.{stored, kept};

use answer::Refusal;
pub use group_block::Counter;
use group_block::Packed;
use group_levels::{level_at, widest_level};
use group_sums::{sum_fits, with_value};
use little_endian::{bytes_of, number_of};

// Eight count bytes and their merge byte.
#[derive(Clone, Copy)]
pub struct Group {
    pub counts: [u8; 8],
    pub merge: u8,
}

// Whether a merge byte is one of the 26 valid ones.
pub fn is_valid(merge: u8) -> bool
    ensures { result ≡ valid 3 merge }
{
    group_levels::is_valid(merge)
}

// The counter that a slot is in.
#[tactic(auto, unfolding(answer::specs::Refusals::number, crate::specs::Group::read, crate::specs::Group::reading, crate::specs::Group::decode))]
pub fn counter(g: Group, slot: usize) -> Result<Counter, Refusal>
    ensures { reading_of result ≡ read g slot }
{
    if !is_valid(g.merge) {
        return Err(Refusal::InvalidContent);
    }
    Ok(group_sums::counter_at(number_of(g.counts), g.merge, slot % 8))
}

// The group of the count bytes and merge bits that an addition or a union left.
#[tactic(auto, unfolding(crate::specs::Stored::stored))]
pub fn settled(s: Packed) -> Group
    ensures { result ≡ (stored s).group }
{
    Group {
        counts: bytes_of(s.word),
        merge: s.merge,
    }
}

// The count bytes after an addition that its counter holds, and the counter's value then.
#[derive(Clone, Copy)]
pub struct Kept {
    pub counts: [u8; 8],
    pub value: u64,
}

// An amount added to the counter that a slot is in, if the counter holds the sum. The layout stays and no other counter changes.
#[tactic(auto, unfolding(crate::specs::Group::decode), using(crate::proofs::Laws::holds_invalid, crate::proofs::Laws::holds_valid, crate::proofs::Results::kept_none))]
pub fn add_in_place(g: Group, slot: usize, amount: u32) -> Option<Kept>
    ensures { result ≡ kept g slot amount }
{
    if !is_valid(g.merge) {
        return None;
    }
    let sum = group_sums::add_in_place(number_of(g.counts), g.merge, slot % 8, amount)?;
    Some(Kept {
        counts: bytes_of(sum.word),
        value: sum.value,
    })
}

// An amount added to a counter that does not hold the sum. Only the counter of a whole group can be full.
pub fn add_widening(g: Group, slot: usize, amount: u32) -> Result<Group, Refusal>
    requires { holds g slot amount ≡ false }
    ensures { outcome_of g result ≡ added g slot amount }
{
    if !is_valid(g.merge) {
        return Err(Refusal::InvalidContent);
    }
    let word = number_of(g.counts);
    let k = slot % 8;
    let level = level_at(g.merge, k);
    if level == 3 {
        return Err(Refusal::CounterFull);
    }
    Ok(settled(group_sums::add_widening(word, g.merge, level, k, amount)))
}

// An amount added to the counter that a slot is in.
#[tactic(auto, using(crate::proofs::Results::not_kept, crate::proofs::Results::kept_added))]
pub fn add(g: Group, slot: usize, amount: u32) -> Result<Group, Refusal>
    ensures { outcome_of g result ≡ added g slot amount }
{
    if let Some(sum) = add_in_place(g, slot, amount) {
        let counts = sum.counts;
        return Ok(Group {
            counts,
            merge: g.merge,
        });
    }
    add_widening(g, slot, amount)
}

// Whether a target takes a source.
#[tactic(auto, unfolding(answer::specs::Refusals::number, answer::specs::Refusals::status, crate::specs::Group::decode, group_block::specs::Block::cap, crate::specs::Stored::stored), using(crate::proofs::Laws::united_invalid, crate::proofs::Laws::united_source_invalid, crate::proofs::Laws::united_full, crate::proofs::Laws::united_status))]
pub fn unite_status(target: Group, source: Group) -> Result<(), Refusal>
    ensures { status result ≡ (united_groups target source).status }
{
    if !is_valid(target.merge) || !is_valid(source.merge) {
        return Err(Refusal::InvalidContent);
    }
    let target_word = number_of(target.counts);
    let source_word = number_of(source.counts);
    if sum_fits(target_word, target.merge, source_word, source.merge) {
        return Ok(());
    }
    Err(Refusal::CounterFull)
}

// A source group united with a target.
#[tactic(auto, unfolding(crate::specs::Group::decode, group_block::specs::Block::cap, crate::specs::Stored::stored), using(crate::proofs::Laws::united_taken, crate::proofs::Laws::united_stored, crate::proofs::Results::status_ok))]
pub fn unite(target: Group, source: Group) -> Result<Group, Refusal>
    ensures { outcome_of target result ≡ united_groups target source }
{
    unite_status(target, source)?;
    let word = number_of(target.counts);
    let source_word = number_of(source.counts);
    let united = group_union::unite(3, word, target.merge, source_word, source.merge);
    Ok(settled(united.unwrap()))
}

// The largest level of a group's counters.
#[tactic(auto, unfolding(answer::specs::Refusals::number, answer::specs::Answers::told, crate::specs::Group::widest_of))]
pub fn widest(merge: u8) -> Result<u64, Refusal>
    ensures { told result ≡ widest_of merge }
{
    if !is_valid(merge) {
        return Err(Refusal::InvalidContent);
    }
    Ok(widest_level(merge) as u64)
}

// Another value in the counter that a slot is in: of the value the bits that the counter holds. The layout stays.
#[tactic(auto, unfolding(answer::specs::Refusals::number, crate::specs::Group::changed, crate::specs::Group::decode))]
pub fn change(g: Group, slot: usize, value: u64) -> Result<Group, Refusal>
    ensures { outcome_of g result ≡ changed g slot value }
{
    if !is_valid(g.merge) {
        return Err(Refusal::InvalidContent);
    }
    let word = with_value(number_of(g.counts), g.merge, slot % 8, value);
    Ok(Group {
        counts: bytes_of(word),
        merge: g.merge,
    })
}
