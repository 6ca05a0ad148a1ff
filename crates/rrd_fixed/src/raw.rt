//! Raw values, as data sources report them.
ghost use Rattle.std.specs.Prelude.{◌≡◌};
ghost use Rattle.rrd_fixed.specs.declared.raw.Raw.TheVariants.{Unknown};

/// The last value that a data source reported.
#[derive(Clone, Copy, Debug, PartialEq, Eq)]
pub enum Raw {
    /// No value: `U`.
    Unknown,
    /// The value, in units for COUNTER and DERIVE, and in millionths for GAUGE and ABSOLUTE.
    Known(i128),
}

impl Default for Raw {
    /// Returns no value. Short lists hold it in places that are not in use.
    fn default() -> Self
        ensures { result ≡ Unknown }
    {
        Raw::Unknown
    }
}
