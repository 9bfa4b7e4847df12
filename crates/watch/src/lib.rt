// A watch list of heavy keys beside a meter: clearing it, updates through it, taking a key off. Every call takes any bytes, and says why it is
// refused, if it is. A refused call leaves the memory and the list as they were.
#![tactic(auto)]

ghost use Rattle.std.specs.Prelude.{◌≡◌};
ghost use Rattle.answer.specs.Answers.{done};
ghost use Rattle.watch.specs.Watch.{list_cleared, watched, removed};

use answer::{Refusal, first};
use watch_checks::{check_arguments, check_content, check_lines, check_list};
use watch_sound::usage_of;

// Clears a list. Reads no byte of it.
pub fn clear(list: &mut [u8]) -> Result<(), Refusal>
    ensures value { done result ≡ (list_cleared list.old).answer }
    ensures list_after { list.new ≡ (list_cleared list.old).memory }
{
    check_list(list)?;
    meter::fill(list);
    Ok(())
}

// Updates a meter, and notes the estimate that the update leaves in the list. Both are tested before either is written. Where the list is
// broken or the threshold 0, an estimate says whether 5 of the meter's groups applies, which comes before 11; 6 comes after both.
pub fn update(
    d: usize,
    w: usize,
    memory: &mut [u8],
    list: &mut [u8],
    key: &[u8],
    amount: u32,
    threshold: u64,
) -> Result<(), Refusal>
    ensures value { done result ≡ (watched d w memory.old list.old key.now amount threshold).answer }
    ensures memory_after { memory.new ≡ (watched d w memory.old list.old key.now amount threshold).memory }
    ensures list_after { list.new ≡ (watched d w memory.old list.old key.now amount threshold).list }
{
    check_lines(d, w, memory, list, key)?;
    let found = usage_of(list);
    let content = check_content(found.sound, threshold);
    if content.is_err() {
        let asked = meter::estimate_checked(d, w, memory, key);
        return first(asked.and(Ok(())), content);
    }
    let left = meter::update_reading(d, w, memory, key, amount)?;
    watch_places::note(list, found.places, key, left, threshold);
    Ok(())
}

// Takes a key off a list.
pub fn remove(list: &mut [u8], key: &[u8]) -> Result<(), Refusal>
    ensures value { done result ≡ (removed list.old key.now).answer }
    ensures list_after { list.new ≡ (removed list.old key.now).memory }
{
    check_arguments(list, key)?;
    let found = usage_of(list);
    if !found.sound {
        return Err(Refusal::InvalidContent);
    }
    watch_places::take_off(list, found.places, key);
    Ok(())
}
