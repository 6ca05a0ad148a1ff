//! Spans of bytes.

/// The bytes of a file from `start` on, up to `end`.
#[derive(Clone, Copy, PartialEq, Eq, Debug, Drop)]
pub struct Span {
    /// The first byte.
    pub start: usize,
    /// The byte after the last one.
    pub end: usize,
}
