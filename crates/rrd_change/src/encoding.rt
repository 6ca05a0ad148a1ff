//! Encodes changes for a log.
ghost use Rattle.std.specs.Prelude.{◌≡◌, ◌+◌, ◌++◌, ◌≤◌, ◌<◌, length, OnOk};
ghost use Rattle.std.specs.Int.{w64, to_be_bytes};
ghost use Rattle.std.specs.List.{flat_map};
ghost use Rattle.rrd_change.specs.Changes.{change_bytes, front_bytes, head_bytes, piece_bytes};
ghost use Rattle.rrd_change.specs.Spans.{AreSpans, change_of, pieces_of};

use crate::Span;
use crate::checksum::{SEED, mix_bytes};
use std::alloc::Global;
use std::io::{self, Error, ErrorKind};

// Appends one piece of a change.
fn push_piece(buffer: &mut Vec<u8>, start: usize, bytes: &[u8]) -> io::Result<()>
    ensures { OnOk result (buffer.new.items ≡ buffer.old.items ++ piece_bytes (record { start = start; bytes = bytes.now })) }
{
    buffer.extend_from_slice(&start.to_be_bytes())?;
    buffer.extend_from_slice(&bytes.len().to_be_bytes())?;
    buffer.extend_from_slice(bytes)?;
    Ok(())
}

// Appends the pieces of a change.
fn push_pieces(buffer: &mut Vec<u8>, bytes: &[u8], spans: &[Span]) -> io::Result<()>
    ensures ok { OnOk result (buffer.new.items ≡ buffer.old.items ++ flat_map piece_bytes (pieces_of bytes.now spans.now)) }
    ensures within { OnOk result (AreSpans (length bytes.now) spans.now) }
{
    for number in 0..spans.len() {
        let span = spans[number];
        if bytes.len() < span.end || span.end < span.start {
            return Err(Error::from(ErrorKind::InvalidInput));
        }
        push_piece(buffer, span.start, &bytes[span.start..span.end])?;
    }
    Ok(())
}

// Returns the numbers with which a change begins.
fn front(tail: usize, at: usize, count: usize, pieces: usize, size: usize) -> [u8; 40]
    ensures { result ≡ front_bytes tail at count pieces size }
{
    let mut front = [0; 40];
    front[..8].copy_from_slice(&at.to_be_bytes());
    front[8..16].copy_from_slice(&tail.to_be_bytes());
    front[16..24].copy_from_slice(&count.to_be_bytes());
    front[24..32].copy_from_slice(&pieces.to_be_bytes());
    front[32..].copy_from_slice(&size.to_be_bytes());
    front
}

/// The number of bytes of a change's head.
pub(crate) const HEAD_SIZE: usize = 48;

/// Returns the head of a change, of which `body` are the pieces: the numbers with which it begins, and its checksum.
pub(crate) fn head(tail: usize, at: usize, pieces: usize, size: usize, body: &[u8]) -> [u8; 48]
    ensures { result ≡ head_bytes tail at pieces size body.now }
{
    let front = front(tail, at, body.len(), pieces, size);
    let sum = mix_bytes(mix_bytes(SEED, &front), body);
    let mut head = [0; HEAD_SIZE];
    head[..40].copy_from_slice(&front);
    head[40..].copy_from_slice(&sum.to_be_bytes());
    head
}

/// Appends the bytes of a change, which puts these spans of `bytes` into a database, at byte `at` of a file, in the log that
/// begins at byte `tail`. The database then has `size` bytes.
///
/// # Errors
///
/// A span is not within `bytes`, or memory ran out.
pub(crate) fn push_change(
    alloc: Global,
    buffer: &mut Vec<u8>,
    tail: usize,
    at: usize,
    size: usize,
    bytes: &[u8],
    spans: &[Span],
) -> io::Result<()>
    ensures ok { OnOk result (buffer.new.items ≡ buffer.old.items ++ change_bytes tail at (change_of size bytes.now spans.now)) }
    ensures within { OnOk result (AreSpans (length bytes.now) spans.now) }
{
    let mut body = Vec::new(alloc);
    push_pieces(&mut body, bytes, spans)?;
    buffer.extend_from_slice(&head(tail, at, spans.len(), size, &body))?;
    buffer.extend_from_slice(&body)?;
    Ok(())
}
