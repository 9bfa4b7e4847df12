// The head of a feed: the depth and the width of the meter that its records are for.
#![tactic(auto)]

ghost use Rattle.std.specs.Prelude.{◌≡◌};
ghost use Rattle.answer.specs.Refusals.{status};
ghost use Rattle.feed_head.specs.Head.{head_depth, head_width, bad_geometry, headed};
ghost use Rattle.feed_head.specs.Results.{head_answer};

use answer::{Answer, Refusal};
use word::{Fault, Kind};

// The depth and the width that a head's payload gives.
pub fn head_depth(payload: u64) -> usize
    ensures { result ≡ head_depth payload }
{
    (payload % 16) as usize
}

pub fn head_width(payload: u64) -> usize
    ensures { result ≡ head_width payload }
{
    1 << (payload / 16 % 32)
}

// A geometry that a meter can have.
fn check_geometry(payload: u64) -> Result<(), Refusal>
    ensures { status result ≡ bad_geometry payload }
{
    if !geometry::valid_depth(head_depth(payload)) {
        return Err(Refusal::InvalidDepth);
    }
    if !geometry::valid_width(head_width(payload)) {
        return Err(Refusal::InvalidWidth);
    }
    Ok(())
}

// The payload of a head that is sound.
fn check_head(words: &[u32]) -> Result<u64, Fault>
    ensures { head_answer result ≡ headed words.now }
{
    word::below(words, 0, Kind::Head, 512)?;
    let payload = word::payload(words, 0) as u64;
    match check_geometry(payload) {
        Ok(()) => Ok(payload),
        Err(refusal) => Err(Fault {
            refusal,
            position: 0,
        }),
    }
}

// The head of a feed. The value of an accepted head is its payload.
pub fn head(words: &[u32]) -> Answer
    ensures { result ≡ headed words.now }
{
    match check_head(words) {
        Ok(payload) => answer::accepted(payload),
        Err(fault) => answer::refused_at(fault.refusal.number(), fault.position as u64),
    }
}
