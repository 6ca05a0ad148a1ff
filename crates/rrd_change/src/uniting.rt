//! Spans that overlap or adjoin become one.
ghost use Rattle.std.specs.Prelude.{◌↔◌, ℕ, IfOk};
ghost use Rattle.rrd_change.specs.Spans.{IsIn};

use crate::Span;
use std::alloc::Global;
use std::io;

/// Returns the spans of the same bytes in the order of the bytes: those that overlap or adjoin are one span.
///
/// # Errors
///
/// Memory ran out.
pub(crate) fn united(alloc: Global, spans: &[Span]) -> io::Result<Vec<Span>>
    ensures { IfOk result (λ all. (k : ℕ) → IsIn k all.items ↔ IsIn k spans.now) }
{
    let mut sorted = Vec::from_slice(alloc, spans)?;
    sorted.sort_unstable_by_key(|span| span.start);
    let mut all = Vec::new(alloc);
    let mut last = Span { start: 0, end: 0 };
    for number in 0..sorted.len() {
        let next = sorted[number];
        if last.start <= next.start && next.start <= last.end {
            last.end = last.end.max(next.end);
        } else {
            all.push(last)?;
            last = next;
        }
    }
    all.push(last)?;
    Ok(all)
}
