// Words of images and feeds: the top four bits of a word are its kind and the low 28 its payload. A reader goes from word to word and
// stops at the first that is faulty.
#![tactic(auto)]

ghost use Rattle.std.specs.Prelude.{◌≡◌, ◌*◌, ◌^◌, ◌<◌};
ghost use Rattle.std.specs.Int.Bits.{bit_xor};
ghost use Rattle.answer.specs.Refusals.{number};
ghost use Rattle.word.specs.Kinds.{code};
ghost use Rattle.word.specs.Step.{step};
ghost use Rattle.word.specs.Word as spec;

use answer::Refusal;

// The kinds of words, of images and of feeds, each with its number in a word's top four bits.
#[derive(Clone, Copy, Debug, PartialEq, Eq)]
pub enum Kind {
    Head = 1,
    Layout = 2,
    Count = 3,
    End = 4,
    Update = 5,
    Query = 6,
    Key = 7,
    Amount = 8,
}

impl Kind {
    pub fn code(self) -> u32
        ensures { result ≡ code self }
    {
        self as u32
    }
}

// How many payloads there are. A number of words counts by its remainder by this.
pub const PAYLOADS: usize = 1 << 28;

// What is wrong with the first faulty word, and its position.
#[derive(Clone, Copy, Debug, PartialEq, Eq)]
pub struct Fault {
    pub refusal: Refusal,
    pub position: usize,
}

// The payload of the word at a position, or 0.
pub fn payload(words: &[u32], p: usize) -> u32
    ensures value { result ≡ spec.payload words.now p }
    ensures upper_bound { result < 2 ^ 28 }
{
    if p < words.len() {
        return words[p] & 0x0fff_ffff;
    }
    0
}

// Whether a word is there and has the kind that is due.
#[tactic(auto, unfolding(crate::specs::Word::is_due))]
pub fn is_due(words: &[u32], p: usize, kind: u32) -> bool
    ensures { result ≡ spec.is_due words.now p kind }
{
    if p < words.len() {
        return words[p] >> 28 == kind;
    }
    false
}

// The position after a word of a kind whose payload passes a test, or what the failed test refuses.
#[tactic(auto, unfolding(crate::specs::Word::tested, answer::specs::Refusals::number), using(crate::proofs::Laws::due_in))]
pub fn tested(
    words: &[u32],
    p: usize,
    kind: Kind,
    holds: bool,
    refusal: Refusal,
) -> Result<usize, Fault>
    ensures { step result ≡ spec.tested words.now p (code kind) holds (number refusal) }
{
    if !is_due(words, p, kind.code()) {
        return Err(Fault {
            refusal: Refusal::BadWord,
            position: p,
        });
    }
    if !holds {
        return Err(Fault {
            refusal,
            position: p,
        });
    }
    Ok(p + 1)
}

// The position after a word of a kind with a payload below a limit. The kind is tested first: the compiled code then checks
// the position and reads the word once.
#[tactic(auto, unfolding(crate::specs::Word::below, answer::specs::Refusals::number), using(crate::proofs::Laws::not_due))]
pub fn below(words: &[u32], p: usize, kind: Kind, limit: u32) -> Result<usize, Fault>
    ensures { step result ≡ spec.below words.now p (code kind) limit }
{
    if !is_due(words, p, kind.code()) {
        return Err(Fault {
            refusal: Refusal::BadWord,
            position: p,
        });
    }
    tested(
        words,
        p,
        kind,
        payload(words, p) < limit,
        Refusal::BadPayload,
    )
}

// The bits in which a word differs from the word of a kind with payload 0: its payload, if it is of that kind, and else bits above any
// payload too. Words tested one after another with no exit between them are tested by this.
pub fn differing_bits(word: u32, kind: u32) -> u32
    ensures { kind < 2 ^ 4 → result ≡ bit_xor word (kind * 2 ^ 28) }
{
    word ^ (kind << 28)
}
