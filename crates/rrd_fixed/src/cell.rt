//! Rates and consolidated values.
ghost use Rattle.std.specs.Prelude.{◌≡◌};
ghost use Rattle.rrd_fixed.specs.declared.cell.Cell.TheVariants.{Unknown};

/// A rate or a consolidated value, in millionths: known, or unknown.
///
/// A known value is from `-TOP` to `TOP`; `TOP` is (2^64 - 1) * 10^6.
#[derive(Clone, Copy, Debug, PartialEq, Eq)]
pub enum Cell {
    /// The value is unknown, or too little of it is known: `nan`.
    Unknown,
    /// The value in millionths.
    Known(i128),
}

impl Default for Cell {
    /// Returns the unknown value. Short lists hold it in places that are not in use.
    fn default() -> Self
        ensures { result ≡ Unknown }
    {
        Cell::Unknown
    }
}
