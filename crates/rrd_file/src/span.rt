//! Spans of the bytes of a file: where an update may have changed them.
ghost use Rattle.std.specs.Prelude.{◌≡◌, ◌+◌, ◌<◌, ◌^◌};

/// A span of the bytes of a file. If its end is not above its start, it has no bytes.
#[derive(Clone, Copy, Debug, Drop, PartialEq, Eq)]
pub struct Span {
    /// The offset of the first byte.
    pub start: usize,
    /// The offset after the last byte.
    pub end: usize,
}

impl Span {
    /// Returns the span that is `count` bytes later in a longer list of bytes.
    pub(crate) fn later_by(self, count: usize) -> Span
        requires start { self.start + count < 2 ^ 64 }
        requires end { self.end + count < 2 ^ 64 }
        ensures { result ≡ record { start = self.start + count; end = self.end + count } }
    {
        Span {
            start: self.start + count,
            end: self.end + count,
        }
    }
}
