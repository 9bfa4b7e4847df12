// A signed meter in lent memory: clearing, updates, estimates, and sources added and taken away. Every call takes any depth, width, memory
// and key, and gives its figure or why it is refused. A refused call leaves the memory as it was.
#![tactic(auto)]

ghost use Rattle.std.specs.Prelude.{◌≡◌};
ghost use Rattle.answer.specs.Answers.{done};
ghost use Rattle.answer.specs.Refusals.{status};
ghost use Rattle.signed.specs.Signed.{bad_parity, bad_shape, bad_call, cleared, updated, estimated, signed_told, combined_meters, united, subtracted};

use answer::{Refusal, first};
use geometry::check_key;
use hash::Hash;
use meter::whole;
use meter_keys::key_hashes;
use signed_number::Signed;

// What an estimate answers as the C interface hands it out: document 01's number, place and figure.
#[derive(Clone, Copy, Debug, PartialEq, Eq)]
pub struct SignedAnswer {
    pub status: u8,
    pub position: u64,
    pub value: i64,
}

// The answer by the result of an estimate.
impl From<Result<i64, Refusal>> for SignedAnswer {
    ghost from_gives = { λ r a. a ≡ signed_told r };

    #[tactic(auto, unfolding(crate::specs::Signed::signed_told))]
    fn from(estimate: Result<i64, Refusal>) -> Self {
        match estimate {
            Ok(value) => SignedAnswer {
                status: 0,
                position: 0,
                value,
            },
            Err(why) => SignedAnswer {
                status: why.number(),
                position: 0,
                value: 0,
            },
        }
    }
}

// Whether rows of a depth have a middle one.
fn check_parity(d: usize) -> Result<(), Refusal>
    ensures { status result ≡ bad_parity d }
{
    if d % 2 == 1 {
        return Ok(());
    }
    Err(Refusal::EvenDepth)
}

// Whether a depth, a width and the length of a memory are those of a signed meter.
fn check_shape(d: usize, w: usize, bytes: usize) -> Result<(), Refusal>
    ensures { status result ≡ bad_shape d w bytes }
{
    first(geometry::check_shape(d, w, bytes), check_parity(d))
}

// What a call that has a key tests before any group is read.
fn check_call(d: usize, w: usize, memory: &[u8], key: &[u8]) -> Result<(), Refusal>
    ensures { status result ≡ bad_call d w memory.now key.now }
{
    check_shape(d, w, memory.len())?;
    check_key(key.len())
}

// Clears a meter. Reads no byte of it.
pub fn clear(d: usize, w: usize, memory: &mut [u8]) -> Result<(), Refusal>
    ensures value { done result ≡ (cleared d w memory.old).answer }
    ensures memory_after { memory.new ≡ (cleared d w memory.old).memory }
{
    check_shape(d, w, memory.len())?;
    meter::fill(memory);
    Ok(())
}

// Adds an amount, times each row's sign for the key, to the key's counter in each row. Stores in no row before every row is known to take it.
pub fn update(d: usize, w: usize, memory: &mut [u8], key: &[u8], amount: i32) -> Result<(), Refusal>
    ensures value { done result ≡ (updated d w memory.old key.now amount).answer }
    ensures memory_after { memory.new ≡ (updated d w memory.old key.now amount).memory }
{
    check_call(d, w, memory, key)?;
    let hashes = key_hashes(Hash::start(), whole(key), d);
    let a = Signed::from(amount);
    signed_update::update_rows(d, w, memory, &hashes, a.minus, a.magnitude as u32)
}

// The median of the rows' figures.
pub fn estimate(d: usize, w: usize, memory: &[u8], key: &[u8]) -> Result<i64, Refusal>
    ensures { signed_told result ≡ estimated d w memory.now key.now }
{
    check_call(d, w, memory, key)?;
    let hashes = key_hashes(Hash::start(), whole(key), d);
    let f = signed_rows::read_rows(d, w, memory, &hashes);
    f.status.and(Ok(f.value))
}

// Unites a source meter of the same depth and width, times a sign, with a meter. The source is only read.
fn combine(minus: bool, d: usize, w: usize, memory: &mut [u8], source: &[u8]) -> Result<(), Refusal>
    ensures value { done result ≡ (combined_meters minus d w memory.old source.now).answer }
    ensures memory_after { memory.new ≡ (combined_meters minus d w memory.old source.now).memory }
{
    check_shape(d, w, memory.len())?;
    if source.len() != memory.len() {
        return Err(Refusal::WrongLength);
    }
    let taken = signed_rows::combine_status(minus, d, w, memory, source);
    taken?;
    signed_rows::combine_rows(minus, d, w, memory, source);
    Ok(())
}

// Adds a source meter into a meter.
pub fn unite(d: usize, w: usize, memory: &mut [u8], source: &[u8]) -> Result<(), Refusal>
    ensures value { done result ≡ (united d w memory.old source.now).answer }
    ensures memory_after { memory.new ≡ (united d w memory.old source.now).memory }
{
    combine(false, d, w, memory, source)
}

// Takes a source meter away from a meter.
pub fn subtract(d: usize, w: usize, memory: &mut [u8], source: &[u8]) -> Result<(), Refusal>
    ensures value { done result ≡ (subtracted d w memory.old source.now).answer }
    ensures memory_after { memory.new ≡ (subtracted d w memory.old source.now).memory }
{
    combine(true, d, w, memory, source)
}
