//! The consolidation functions of an archive.

/// The function that consolidates steps into a row of an archive (rrdcreate, "RRA").
#[derive(Clone, Copy, Debug, PartialEq, Eq)]
pub enum Function {
    /// The average of the known steps.
    Average,
    /// The minimum of the known steps.
    Min,
    /// The maximum of the known steps.
    Max,
    /// The last known step.
    Last,
}
