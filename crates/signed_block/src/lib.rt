// The counters of a signed meter: sign and magnitude. group_block adds to their blocks and unites them.
#![tactic(auto)]

ghost use Rattle.std.specs.Prelude.{◌≡◌, true, cond, ◌≤◌, ◌<◌};
ghost use Rattle.group_block.specs.Block.{cap};
ghost use Rattle.signed_number.specs.Number.{integer_of, signed_of};
ghost use Rattle.signed_block.specs.Signed.{signed, sign_bits, sign_read, not_minus_zero};
ghost use Rattle.signed_block.specs.Signed as spec;
ghost use Rattle.group_block.specs.Block as block_spec;
ghost use Rattle.signed_block.specs.Passed.{signed_block, Canonical};
ghost use Rattle.signed_block.specs.Counters.{signed_coded};

use group_block::MeterKind;
use group_levels::most;
use signed_number::{Signed, plus};

// The sign bit of a counter of a level.
pub fn top(level: u32) -> u64
    requires { level ≤ 3 }
    ensures { result ≡ spec.top level }
{
    (most(level) >> 1) + 1
}

// The value of a counter of a level, by its bits.
pub fn value(level: u32, bits: u64) -> Signed
    requires fact_1 { level ≤ 3 }
    requires fact_2 { bits < cap level }
    ensures result_value { integer_of result ≡ sign_read level bits }
    ensures magnitude_bound { result.magnitude < spec.top level }
    ensures canonical { not_minus_zero level bits ≡ true → Canonical result }
{
    let sign = top(level);
    Signed {
        minus: bits >= sign,
        magnitude: bits & (sign - 1),
    }
}

// The sign bit of a counter of a level, if it is set.
fn sign_bit(level: u32, minus: bool) -> u64
    requires { level ≤ 3 }
    ensures { result ≡ cond minus (spec.top level) 0 }
{
    (minus as u64) << ((8u32 << level) - 1)
}

// The bits of a value in a counter of a level that holds it.
pub fn bits(level: u32, value: Signed) -> u64
    requires fact_1 { level ≤ 3 }
    requires fact_2 { value.magnitude < spec.top level }
    requires fact_3 { Canonical value }
    ensures { result ≡ sign_bits level (integer_of value) }
{
    sign_bit(level, value.minus) + value.magnitude
}

// The signed meter.
pub struct SignedMeter;

impl MeterKind for SignedMeter {
    type Figure = Signed;

    ghost kind = { signed };

    ghost means = { λ s. integer_of s };

    ghost made = { λ v. signed_of v };

    fn read(level: u32, bits: u64) -> Signed {
        value(level, bits)
    }

    fn bits(level: u32, value: Signed) -> u64 {
        bits(level, value)
    }

    fn holds(level: u32, value: Signed) -> bool {
        value.magnitude < top(level)
    }

    fn plus(a: Signed, b: Signed) -> Signed {
        plus(a, b)
    }

    ghost laws = { signed_coded };
}

// The sum of a block's counters, and that it fits a counter of the block's level.
pub fn total(level: u32, word: u64, merge: u8) -> Signed
    requires { (level ≤ 3) × (word < cap level) }
    ensures result_value { integer_of result ≡ block_spec.total (signed_block level word merge) }
    ensures magnitude_bound { result.magnitude < spec.top level }
{
    group_block::total::<SignedMeter>(level, word, merge)
}
