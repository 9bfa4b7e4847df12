// What the calls of a watch list test of their arguments and of a list's content: numbers 1 to 5 and 11.
#![tactic(auto)]

ghost use Rattle.std.specs.Prelude.{◌≡◌, [], ◌∷◌, length};
ghost use Rattle.answer.specs.Numbers.{invalid_content};
ghost use Rattle.answer.specs.Refusals.{status};
ghost use Rattle.answer.specs.Order as order;
ghost use Rattle.answer.specs.Order.{unless, first_of};
ghost use Rattle.geometry.specs.Checks.{bad_key};
ghost use Rattle.watch_checks.specs.Checks.{bad_list, bad_threshold, bad_lines};

use answer::Refusal;
use geometry::{check_key, check_shape};

// The bytes of a list.
const LIST_SIZE: usize = 4673;

// Line 3 of a list.
#[tactic(auto, unfolding(answer::specs::Refusals::status, answer::specs::Refusals::number))]
pub fn check_list(list: &[u8]) -> Result<(), Refusal>
    ensures { status result ≡ bad_list list.now }
{
    if list.len() != LIST_SIZE {
        return Err(Refusal::WrongLength);
    }
    Ok(())
}

// Lines 5 and 11: of a list, by whether it is sound, and of a threshold.
pub fn check_content(sound: bool, threshold: u64) -> Result<(), Refusal>
    ensures { status result ≡ order.earlier (unless sound invalid_content) (bad_threshold threshold) }
{
    if !sound {
        return Err(Refusal::InvalidContent);
    }
    if threshold < 1 {
        return Err(Refusal::ZeroThreshold);
    }
    Ok(())
}

// Lines 3 and 4 of a list and a key.
pub fn check_arguments(list: &[u8], key: &[u8]) -> Result<(), Refusal>
    ensures { status result ≡ first_of (bad_list list.now ∷ bad_key (length key.now) ∷ []) }
{
    check_list(list)?;
    check_key(key.len())
}

// Lines 1 to 4 of an update through a list.
pub fn check_lines(
    d: usize,
    w: usize,
    memory: &[u8],
    list: &[u8],
    key: &[u8],
) -> Result<(), Refusal>
    ensures { status result ≡ bad_lines d w memory.now list.now key.now }
{
    check_shape(d, w, memory.len())?;
    check_arguments(list, key)
}
