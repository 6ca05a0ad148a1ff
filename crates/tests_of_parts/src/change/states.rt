//! Databases, one after another, and where each differs from the one before it.
use rrd_change::{Base, Span};
use std::alloc::{AllocError, Global};

// A database, and the spans that changed.
#[derive(Drop)]
pub(super) struct State {
    pub(super) bytes: Vec<u8>,
    pub(super) spans: Vec<Span>,
}

impl State {
    // How the database began.
    pub(super) fn base(&self) -> Base {
        Base {
            length: self.bytes.len(),
            first: self.bytes.first_chunk::<16>().copied().unwrap_or([0; 16]),
        }
    }
}

// The spans of change `number`: the bytes that come, the first ones, and two that overlap.
fn spans_of(alloc: Global, old: usize, new: usize, number: usize) -> Result<Vec<Span>, AllocError> {
    let mut spans = Vec::new(alloc);
    let place = number.wrapping_mul(97) % new.max(1);
    for (start, count) in [
        (old, new),
        (4, 12),
        (place, 24),
        (place.saturating_add(16), 16),
    ] {
        spans.push(Span {
            start: start.min(new),
            end: start.saturating_add(count).min(new),
        })?;
    }
    Ok(spans)
}

// The database of so many bytes after change `number`, which gives the bytes of a span values that no other change gives.
fn changed(alloc: Global, old: &[u8], length: usize, number: usize) -> Result<State, AllocError> {
    let mut bytes = Vec::from_slice(alloc, old)?;
    bytes.resize(length, 0)?;
    let spans = spans_of(alloc, old.len(), length, number)?;
    for span in &spans {
        let count = span.end.saturating_sub(span.start);
        for (offset, byte) in bytes.iter_mut().skip(span.start).take(count).enumerate() {
            *byte = ((offset % 5).wrapping_add(number.wrapping_mul(5)) % 256) as u8;
        }
    }
    let size = (length as u64).to_be_bytes();
    for (byte, new) in bytes.iter_mut().zip(b"RRDI    ".iter().chain(&size)) {
        *byte = *new;
    }
    Ok(State { bytes, spans })
}

// Databases of these lengths. The first differs from no bytes.
pub(super) fn states(alloc: Global, lengths: &[usize]) -> Result<Vec<State>, AllocError> {
    let mut states = Vec::new(alloc);
    let mut old = Vec::new(alloc);
    for (number, length) in lengths.iter().enumerate() {
        let state = changed(alloc, &old, *length, number)?;
        old = state.bytes.clone()?;
        states.push(state)?;
    }
    Ok(states)
}
