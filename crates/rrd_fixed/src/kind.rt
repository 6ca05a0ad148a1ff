//! The types of data sources.
ghost use Rattle.std.specs.Prelude.{◌≡◌, ◌≤ℤ◌, ℤ, true};
ghost use Rattle.rrd_fixed.specs.Rate.{IsAccepted};

use crate::Raw;

/// The type of a data source, which decides how values become rates (rrdcreate, "DS").
#[derive(Clone, Copy, Debug, PartialEq, Eq)]
pub enum Kind {
    /// The value is the rate.
    Gauge,
    /// The value is a count that rises, and wraps at 2^32 or 2^64.
    Counter,
    /// The value is a count that rises and falls.
    Derive,
    /// The value is the count since the sample before.
    Absolute,
}

// The maximum size of a value of a GAUGE or an ABSOLUTE, in millionths: below 10^18 units.
const MAX_MILLIONTHS: i128 = 999_999_999_999_999_999_999_999;

impl Kind {
    // Returns the minimum and the maximum value that a data source of this type accepts, in units for COUNTER and
    // DERIVE and in millionths for GAUGE and ABSOLUTE.
    pub(crate) fn range(self) -> (i128, i128)
        ensures good { (value : ℤ) → result.0 ≤ℤ value → value ≤ℤ result.1 → IsAccepted self (Raw.Known value) }
        ensures bad { (value : ℤ) → IsAccepted self (Raw.Known value) → (result.0 ≤ℤ value) × (value ≤ℤ result.1) }
    {
        match self {
            Kind::Counter => (0, u64::MAX as i128),
            Kind::Derive => (i64::MIN as i128, i64::MAX as i128),
            Kind::Gauge | Kind::Absolute => (-MAX_MILLIONTHS, MAX_MILLIONTHS),
        }
    }

    /// Returns whether a data source of this type accepts a raw value.
    ///
    /// The value is in units for COUNTER and DERIVE, and in millionths for GAUGE and ABSOLUTE, as `admit` returns it.
    /// An unknown value is always accepted.
    pub fn accepts(self, raw: Raw) -> bool
        ensures good { result ≡ true → IsAccepted self raw }
        ensures bad { IsAccepted self raw → result ≡ true }
    {
        let Raw::Known(value) = raw else {
            return true;
        };
        let (least, greatest) = self.range();
        least <= value && value <= greatest
    }
}
