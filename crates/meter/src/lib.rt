// A meter in lent memory: clearing, updates, estimates, the widest level and unions. Every call takes any depth, width, memory and
// key, and gives its figure or why it is refused. A refused call leaves the memory as it was. `update_checked`, `update_reading`
// and `estimate_checked` are for callers that have made the tests before them.
#![tactic(auto)]

ghost use Rattle.std.specs.Prelude.{◌≡◌, length, replicate, IfOk};
ghost use Rattle.answer.specs.Answers.{told, done};
ghost use Rattle.answer.specs.Refusals.{status};
ghost use Rattle.meter.specs.Meter.{cleared, bad_call, updated, estimated};
ghost use Rattle.meter.specs.Meter as spec;

use answer::Refusal;
use geometry::{check_key, check_shape};
use hash::Hash;
use meter_keys::{key_slots, row_slot};

// Every byte 0: a meter, or what is kept beside one.
pub fn fill(memory: &mut [u8])
    ensures { memory.new ≡ replicate (length memory.old) 0 }
{
    memory.fill(0);
}

// Clears a meter. Reads no byte of it.
pub fn clear(d: usize, w: usize, memory: &mut [u8]) -> Result<(), Refusal>
    ensures value { done result ≡ (cleared d w memory.old).answer }
    ensures memory_after { memory.new ≡ (cleared d w memory.old).memory }
{
    check_shape(d, w, memory.len())?;
    fill(memory);
    Ok(())
}

// What a call that has a key tests before any group is read.
fn check_call(d: usize, w: usize, memory: &[u8], key: &[u8]) -> Result<(), Refusal>
    ensures { status result ≡ bad_call d w memory.now key.now }
{
    check_shape(d, w, memory.len())?;
    check_key(key.len())
}

// A whole slice, lent anew. A slice that is handed on is copied as one value of 16 bytes right after its two halves were stored, which
// stalls the processor; of one that is lent anew the halves are passed each by itself.
pub fn whole(bytes: &[u8]) -> &[u8]
    ensures { result.now ≡ bytes.now }
{
    &bytes[0..bytes.len()]
}

// An update whose geometry and key length have passed; the estimate that it leaves.
pub fn update_reading(
    d: usize,
    w: usize,
    memory: &mut [u8],
    key: &[u8],
    amount: u32,
) -> Result<u64, Refusal>
    requires { bad_call d w memory.old key.now ≡ 0 }
    ensures status_value { status result ≡ (updated d w memory.old key.now amount).answer.status }
    ensures memory_after { memory.new ≡ (updated d w memory.old key.now amount).memory }
    ensures value_value { IfOk result (λ v. v ≡ (estimated d w memory.new key.now).value) }
{
    let bytes = whole(key);
    if d == 1 {
        let slot = row_slot(Hash::start(), w, bytes, 0);
        let one = meter_row::update_one(memory, w, slot, amount);
        return one.figure();
    }
    let slots = key_slots(Hash::start(), w, bytes, d);
    let all = meter_update::update_rows(d, w, memory, &slots, amount);
    all.figure()
}

// An update whose geometry and key length have passed.
pub fn update_checked(
    d: usize,
    w: usize,
    memory: &mut [u8],
    key: &[u8],
    amount: u32,
) -> Result<(), Refusal>
    requires { bad_call d w memory.old key.now ≡ 0 }
    ensures value { done result ≡ (updated d w memory.old key.now amount).answer }
    ensures memory_after { memory.new ≡ (updated d w memory.old key.now amount).memory }
{
    update_reading(d, w, memory, key, amount)?;
    Ok(())
}

// Adds an amount to the key's counter in each row. Stores in no row before every row is known to take it.
pub fn update(d: usize, w: usize, memory: &mut [u8], key: &[u8], amount: u32) -> Result<(), Refusal>
    ensures value { done result ≡ (updated d w memory.old key.now amount).answer }
    ensures memory_after { memory.new ≡ (updated d w memory.old key.now amount).memory }
{
    check_call(d, w, memory, key)?;
    update_checked(d, w, memory, key, amount)
}

// An estimate whose geometry and key length have passed.
pub fn estimate_checked(d: usize, w: usize, memory: &[u8], key: &[u8]) -> Result<u64, Refusal>
    requires { bad_call d w memory.now key.now ≡ 0 }
    ensures { told result ≡ estimated d w memory.now key.now }
{
    let bytes = whole(key);
    if d == 1 {
        let c = meter_row::read_row(memory, w, row_slot(Hash::start(), w, bytes, 0))?;
        return Ok(c.value);
    }
    let slots = key_slots(Hash::start(), w, bytes, d);
    let found = meter_rows::read_rows(d, w, memory, &slots);
    found.figure()
}

// The least value of the key's counters.
pub fn estimate(d: usize, w: usize, memory: &[u8], key: &[u8]) -> Result<u64, Refusal>
    ensures { told result ≡ estimated d w memory.now key.now }
{
    check_call(d, w, memory, key)?;
    estimate_checked(d, w, memory, key)
}

// The largest level of any counter in a meter.
pub fn widest(d: usize, w: usize, memory: &[u8]) -> Result<u64, Refusal>
    ensures { told result ≡ spec.widest d w memory.now }
{
    check_shape(d, w, memory.len())?;
    let level = meter_rows::widest_rows(d, w, memory);
    level.figure()
}

// Adds a source meter of the same depth and width into a meter. The source is only read.
pub fn unite(d: usize, w: usize, memory: &mut [u8], source: &[u8]) -> Result<(), Refusal>
    ensures value { done result ≡ (spec.united d w memory.old source.now).answer }
    ensures memory_after { memory.new ≡ (spec.united d w memory.old source.now).memory }
{
    check_shape(d, w, memory.len())?;
    if source.len() != memory.len() {
        return Err(Refusal::WrongLength);
    }
    meter_rows::unite_status(d, w, memory, source)?;
    meter_rows::unite_rows(d, w, memory, source);
    Ok(())
}
