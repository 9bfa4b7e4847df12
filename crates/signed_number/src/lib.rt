// Integers as sign and magnitude, as the counters of a signed meter hold them.
#![tactic(auto)]

ghost use Rattle.std.specs.Prelude.{◌≡◌, cond, ℕ, ◌+◌, ◌≤◌, ◌<◌, ◌^◌, ltb, ◌+ℤ◌, nat_abs};
ghost use Rattle.std.specs.Bool.{beq};
ghost use Rattle.std.proofs.Math.IntN.{sub_ℕ};
ghost use Rattle.signed_number.specs.Number.{times_sign, integer, integer_of, signed_of};

#[derive(Clone, Copy, Debug, PartialEq, Eq)]
pub struct Signed {
    pub minus: bool,
    pub magnitude: u64,
}

// An amount by its sign and its magnitude.
impl From<i32> for Signed {
    ghost from_gives = { λ amount s. (s ≡ signed_of amount) × (s.magnitude ≤ 2 ^ 31) };

    fn from(amount: i32) -> Self {
        Signed {
            minus: amount < 0,
            magnitude: u64::from(amount.unsigned_abs()),
        }
    }
}

// The integer of a sign and a magnitude.
pub fn to_int(minus: bool, magnitude: u64) -> i64
    requires { magnitude < 2 ^ 63 }
    ensures { result ≡ integer minus magnitude }
{
    let value = magnitude as i64;
    if minus { -value } else { value }
}

// A sign times a sign.
pub fn times(sign: bool, minus: bool) -> bool
    ensures { (m : ℕ) → integer result m ≡ times_sign sign (integer minus m) }
{
    sign != minus
}

// A sign and a magnitude with zero as plus.
pub fn canonical(minus: bool, magnitude: u64) -> Signed
    ensures { result ≡ signed_of (integer minus magnitude) }
{
    Signed {
        minus: if magnitude == 0 { false } else { minus },
        magnitude,
    }
}

// The sign of a sum: that of the larger magnitude. It is computed and not chosen, so that no branch is taken by signs, which are as good as
// random.
fn sum_sign(a: Signed, b: Signed) -> bool
    ensures { result ≡ cond (ltb a.magnitude b.magnitude) b.minus a.minus }
{
    let less = a.magnitude < b.magnitude;
    let differ = a.minus != b.minus;
    a.minus != (differ & less)
}

// The magnitude of a sum. Both cases are computed, so that no branch is taken by signs, which are as good as random.
fn sum_magnitude(a: Signed, b: Signed) -> u64
    requires { a.magnitude + b.magnitude < 2 ^ 64 }
    ensures { result ≡ cond (beq a.minus b.minus) (a.magnitude + b.magnitude) (nat_abs (sub_ℕ a.magnitude b.magnitude)) }
{
    let sum = a.magnitude + b.magnitude;
    let apart = a.magnitude.abs_diff(b.magnitude);
    if a.minus == b.minus {
        return sum;
    }
    apart
}

// Two integers added.
pub fn plus(a: Signed, b: Signed) -> Signed
    requires { a.magnitude + b.magnitude < 2 ^ 64 }
    ensures value { result ≡ signed_of (integer_of a +ℤ integer_of b) }
    ensures magnitude_bound { result.magnitude ≤ a.magnitude + b.magnitude }
{
    canonical(sum_sign(a, b), sum_magnitude(a, b))
}
