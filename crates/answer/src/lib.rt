// Document 01's numbers of refusals, and answers made of them.
#![tactic(auto)]

ghost use Rattle.std.specs.Prelude.{◌≡◌};
ghost use Rattle.answer.specs.Answers as spec;
ghost use Rattle.answer.specs.Answers.{told, done};
ghost use Rattle.answer.specs.Refusals.{number, status};
ghost use Rattle.answer.specs.Order as order_spec;

// The numbers, as the C interface hands them out.
pub const INVALID_DEPTH: u8 = 1;

pub const INVALID_WIDTH: u8 = 2;

pub const WRONG_LENGTH: u8 = 3;

pub const INVALID_KEY_LENGTH: u8 = 4;

// A merge byte, or what is kept beside a meter, that is not valid.
pub const INVALID_CONTENT: u8 = 5;

pub const COUNTER_FULL: u8 = 6;

pub const TOO_FEW_WORDS: u8 = 7;

pub const BAD_WORD: u8 = 8;

pub const BAD_PAYLOAD: u8 = 9;

pub const OTHER_METER: u8 = 10;

pub const ZERO_THRESHOLD: u8 = 11;

pub const EVEN_DEPTH: u8 = 12;

// A counter of a signed meter that holds minus zero.
pub const MINUS_ZERO: u8 = 13;

// Why a call is refused. The refusals stand in checking order.
#[derive(Clone, Copy, Debug, PartialEq, Eq, PartialOrd, Ord)]
pub enum Refusal {
    InvalidDepth,
    InvalidWidth,
    EvenDepth,
    WrongLength,
    InvalidKeyLength,
    InvalidContent,
    MinusZero,
    ZeroThreshold,
    CounterFull,
    TooFewWords,
    BadWord,
    BadPayload,
    OtherMeter,
}

impl Refusal {
    // Document 01's number.
    #[tactic(auto, unfolding(crate::specs::Refusals::number))]
    pub fn number(self) -> u8
        ensures { result ≡ number self }
    {
        match self {
            Refusal::InvalidDepth => INVALID_DEPTH,
            Refusal::InvalidWidth => INVALID_WIDTH,
            Refusal::EvenDepth => EVEN_DEPTH,
            Refusal::WrongLength => WRONG_LENGTH,
            Refusal::InvalidKeyLength => INVALID_KEY_LENGTH,
            Refusal::InvalidContent => INVALID_CONTENT,
            Refusal::MinusZero => MINUS_ZERO,
            Refusal::ZeroThreshold => ZERO_THRESHOLD,
            Refusal::CounterFull => COUNTER_FULL,
            Refusal::TooFewWords => TOO_FEW_WORDS,
            Refusal::BadWord => BAD_WORD,
            Refusal::BadPayload => BAD_PAYLOAD,
            Refusal::OtherMeter => OTHER_METER,
        }
    }
}

// What a call answers as the C interface hands it out: document 01's number, place and figure.
#[derive(Clone, Copy)]
pub struct Answer {
    pub status: u8,
    pub position: u64,
    pub value: u64,
}

pub fn accepted(value: u64) -> Answer
    ensures { result ≡ spec.accepted value }
{
    Answer {
        status: 0,
        position: 0,
        value,
    }
}

pub fn refused_at(status: u8, position: u64) -> Answer
    ensures { result ≡ spec.refused_at status position }
{
    Answer {
        status,
        position,
        value: 0,
    }
}

pub fn refused(status: u8) -> Answer
    ensures { result ≡ spec.refused status }
{
    refused_at(status, 0)
}

// The answer by the result of a call: its figure, or 0 where it has none.
impl From<Result<u64, Refusal>> for Answer {
    ghost from_gives = { λ r a. a ≡ told r };

    #[tactic(auto, unfolding(crate::specs::Answers::told))]
    fn from(result_of: Result<u64, Refusal>) -> Answer {
        match result_of {
            Ok(value) => accepted(value),
            Err(r) => refused(r.number()),
        }
    }
}

impl From<Result<(), Refusal>> for Answer {
    ghost from_gives = { λ r a. a ≡ done r };

    #[tactic(auto, unfolding(crate::specs::Answers::done))]
    fn from(result_of: Result<(), Refusal>) -> Answer {
        match result_of {
            Ok(()) => accepted(0),
            Err(why) => refused(why.number()),
        }
    }
}

// Of two results the one whose refusal comes first in checking order.
pub fn first(a: Result<(), Refusal>, b: Result<(), Refusal>) -> Result<(), Refusal>
    ensures { status result ≡ order_spec.earlier (status a) (status b) }
{
    let Err(x) = a else {
        return b;
    };
    let Err(y) = b else {
        return a;
    };
    if x <= y { a } else { b }
}

// An answer as a host takes it: place and figure written where it wants them, and the number.
pub fn give(a: Answer, place: &mut u64, figure: &mut u64) -> u32
    ensures value { result ≡ a.status }
    ensures place_after { place.new ≡ a.position }
    ensures figure_after { figure.new ≡ a.value }
{
    *place = a.position;
    *figure = a.value;
    a.status as u32
}
