//! The request of a resize.

/// The direction of a resize (rrdresize).
#[derive(Clone, Copy, Debug, PartialEq, Eq)]
pub enum Change {
    /// `GROW`: unknown rows are added before the oldest row.
    Grow,
    /// `SHRINK`: the oldest rows are removed.
    Shrink,
}
