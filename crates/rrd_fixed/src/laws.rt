//! Theorems on texts.
//!
//! The theorem is public only for readers of the contracts: no other crate calls the function.
//!
//! A theorem is a function without a body: a call gives the prover the theorem at the call site, and does nothing at
//! run time.
ghost use Rattle.std.specs.Prelude.{◌≡◌, ◌^◌, ◌<◌, ℕ, ℤ, pos, ◌*ℤ◌, unsigned_abs, true, false, decimal};
ghost use Rattle.rrd_fixed.specs.Reading.{number_of, whole_of};
ghost use Rattle.rrd_fixed.specs.Text.{signed_text, whole_text};

/// Theorem: the text of a number, read again, gives the number.
///
/// The theorem holds for whole numbers below 2^64, for units below 10^20 in size as numbers without a point, and for
/// millionths below 10^26 in size, which are 20 digits before the point, as numbers with a point.
pub fn texts_are_read_back()
    ensures whole { (n : ℕ) → n < 2 ^ 64 → whole_of (decimal n) ≡ Some n }
    ensures units { (z : ℤ) → unsigned_abs z < 10 ^ 20
        → number_of (whole_text z) ≡ Some (record { millionths = z *ℤ pos (10 ^ 6); point = false }) }
    ensures millionths { (z : ℤ) → unsigned_abs z < 10 ^ 26
        → number_of (signed_text z) ≡ Some (record { millionths = z; point = true }) }
{}
