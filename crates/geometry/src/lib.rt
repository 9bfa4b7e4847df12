// The geometry of a meter, and the tests of a call's own arguments.
#![tactic(auto)]

ghost use Rattle.std.specs.Prelude.{◌≡◌, true};
ghost use Rattle.answer.specs.Refusals.{status};
ghost use Rattle.geometry.specs.Geometry.{valid_depth, valid_width};
ghost use Rattle.geometry.specs.Geometry as geometry;
ghost use Rattle.geometry.specs.Checks.{bad_key, bad_shape};

use answer::Refusal;

// The logarithm of the largest width of a row, 16,384.
pub const LARGEST_LOG: u32 = 14;

pub const MAX_WIDTH: usize = 1 << LARGEST_LOG;

#[tactic(auto, unfolding(crate::specs::Geometry::valid_depth))]
pub fn valid_depth(d: usize) -> bool
    ensures { result ≡ valid_depth d }
{
    (1..=8).contains(&d)
}

// Whether a width is a power of two in range.
pub fn valid_width(w: usize) -> bool
    ensures { result ≡ valid_width w }
{
    (32..=MAX_WIDTH).contains(&w) && w.is_power_of_two()
}

// The bytes of a row.
pub fn stride(w: usize) -> usize
    requires { valid_width w ≡ true }
    ensures { result ≡ geometry.stride w }
{
    w + w / 8
}

// Whether a depth, a width and the length of a memory are those of a meter.
pub fn check_shape(d: usize, w: usize, bytes: usize) -> Result<(), Refusal>
    ensures { status result ≡ bad_shape d w bytes }
{
    if !valid_depth(d) {
        return Err(Refusal::InvalidDepth);
    }
    if !valid_width(w) {
        return Err(Refusal::InvalidWidth);
    }
    if bytes != d * stride(w) {
        return Err(Refusal::WrongLength);
    }
    Ok(())
}

// Whether a key has a length that is taken.
#[tactic(auto, unfolding(answer::specs::Refusals::status, answer::specs::Refusals::number))]
pub fn check_key(bytes: usize) -> Result<(), Refusal>
    ensures { status result ≡ bad_key bytes }
{
    if !(1..=64).contains(&bytes) {
        return Err(Refusal::InvalidKeyLength);
    }
    Ok(())
}
