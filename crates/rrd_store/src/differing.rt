//! Finds where the bytes of two files differ.
ghost use Rattle.std.specs.Prelude.{◌≡◌, ◌<◌, ◌≤◌, IfSome, IsTrue, length, slice_index, ℕ};
ghost use Rattle.std.specs.List.{All};
ghost use Rattle.rrd_file.specs.Spans.{AgreesOutside, IsBeside};

use rrd_file::Span;
use std::alloc::Global;

/// The number of bytes that are compared at once. A span begins and ends where these blocks do.
const BLOCK: usize = 256;

// Checks whether both files have the same bytes in a block of the new one.
fn agree(old: &[u8], new: &[u8], block: Span) -> bool
    requires { block.end ≤ length new.now }
    ensures { IsTrue result → (k : ℕ) → block.start ≤ k → k < block.end → (k < length old.now) × (slice_index old.now k ≡ slice_index new.now k) }
{
    block.start <= block.end
        && block.end <= old.len()
        && old[block.start..block.end] == new[block.start..block.end]
}

// Adds a span, unless it is empty.
fn push_some(spans: &mut Vec<Span>, span: Span) -> Option<()>
    ensures { IfSome result (λ _. (k : ℕ) → All (IsBeside k) spans.new.items → All (IsBeside k) spans.old.items × IsBeside k span) }
{
    if span.start < span.end {
        spans.push(span).ok()?;
    }
    Some(())
}

/// Returns spans outside which the bytes of a file are the same as in an old one. Returns `None` if memory runs out.
pub(crate) fn differing(alloc: Global, old: &[u8], new: &[u8]) -> Option<Vec<Span>>
    ensures { IfSome result (λ spans. AgreesOutside spans.items old.now new.now) }
{
    let mut spans = Vec::new(alloc);
    // The last blocks that differ, which grow while the next block differs too.
    let mut last = Span { start: 0, end: 0 };
    let mut start = 0;
    while start < new.len() {
        let block = Span {
            start,
            end: start + BLOCK.min(new.len() - start),
        };
        if !agree(old, new, block) {
            if last.end != block.start {
                push_some(&mut spans, last)?;
                last.start = block.start;
            }
            last.end = block.end;
        }
        start = block.end;
    }
    push_some(&mut spans, last)?;
    Some(spans)
}
