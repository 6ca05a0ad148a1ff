//! Rounding to whole millionths.
ghost use Rattle.std.specs.Prelude.{◌≡◌, ℕ, ◌^◌, ◌*◌, ◌≤◌, pos, ◌≤ℤ◌, unsigned_abs};
ghost use Rattle.rrd_fixed.specs.Rounding as spec;

/// Returns the quotient `a / b`, rounded down. Divides 64 bits if both fit.
pub(crate) fn floor(a: i128, b: i128) -> i128
    requires { pos 1 ≤ℤ b }
    ensures { result ≡ spec.floor_of a b }
{
    match (i64::try_from(a), i64::try_from(b)) {
        (Ok(a), Ok(b)) => a.div_euclid(b) as i128,
        _ => a.div_euclid(b),
    }
}

/// Returns the whole number nearest to `a / b`; a half rounds up.
///
/// `a` is at most 10^32 in size, `b` is from 1 to 10^10. No bound on the size of the quotient is exceeded by rounding.
pub fn near(a: i128, b: i128) -> i128
    requires positive { pos 1 ≤ℤ b }
    requires small { b ≤ℤ pos (10 ^ 10) }
    requires bounded { unsigned_abs a ≤ 10 ^ 32 }
    ensures value { result ≡ spec.near a b }
    ensures limit { (t : ℕ) → unsigned_abs a ≤ unsigned_abs b * t → unsigned_abs result ≤ t }
{
    floor(2 * a + b, 2 * b)
}
