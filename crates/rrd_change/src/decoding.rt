//! Reads the changes of a log, and lays them over a database.
ghost use Rattle.std.specs.Prelude.{◌≡◌, ◌+◌, ◌++◌, ◌<◌, ◌≤◌, ℕ, IsTrue, OnOk, drop, false, length, slice_index, take};
ghost use Rattle.std.specs.Int.{w64, from_be_bytes};
ghost use Rattle.rrd_change.specs.Changes.{all_laid, read_change, spelled_pieces};
ghost use Rattle.rrd_change.specs.Read.{HasPieces, IsHead, IsLaid, spans_of};

use crate::Span;
use crate::encoding::{HEAD_SIZE, head};
use std::io;

// The number of bytes before those of a piece.
const PIECE_HEAD: usize = 16;

/// What the head of a change says.
#[derive(Clone, Copy, Drop)]
pub(crate) struct Head {
    /// The number of bytes that follow the head.
    pub length: usize,
    /// The number of pieces.
    pub pieces: usize,
    /// The length of the database after the change.
    pub size: usize,
}

/// Reads the number of eight bytes.
pub(crate) fn number_at(bytes: &[u8], at: usize) -> usize
    requires { at + 8 ≤ length bytes.now }
    ensures { result ≡ from_be_bytes w64 (take 8 (drop at bytes.now)) }
{
    let mut word = [0; 8];
    word.copy_from_slice(&bytes[at..at + 8]);
    usize::from_be_bytes(word)
}

// Checks whether bytes are this number of pieces, each of which ends at byte `end` of the database or before it.
fn are_pieces(bytes: &[u8], count: usize, end: usize) -> bool
    ensures yes { IsTrue result → HasPieces count end bytes.now }
    ensures no { result ≡ false → HasPieces count end bytes.now → ⊥ }
{
    let mut at = 0;
    for _ in 0..count {
        if bytes.len() - at < PIECE_HEAD {
            return false;
        }
        let start = number_at(bytes, at);
        let size = number_at(bytes, at + 8);
        if bytes.len() - at - PIECE_HEAD < size || end < size || end - size < start {
            return false;
        }
        at += PIECE_HEAD + size;
    }
    at == bytes.len()
}

/// Reads the head of the change with which bytes begin: those from byte `at` of a file with a log from byte `tail` on. Returns
/// `None` if no right and complete change is there.
pub(crate) fn read_head(bytes: &[u8], tail: usize, at: usize) -> Option<Head>
    ensures { IsHead result (read_change tail at bytes.now) bytes.now }
{
    if bytes.len() < HEAD_SIZE {
        return None;
    }
    let length = number_at(bytes, 16);
    let pieces = number_at(bytes, 24);
    let size = number_at(bytes, 32);
    if bytes.len() - HEAD_SIZE < length || size < 16 || tail < size {
        return None;
    }
    let body = &bytes[HEAD_SIZE..HEAD_SIZE + length];
    let is_right = bytes.starts_with(&head(tail, at, pieces, size, body));
    if !is_right || !are_pieces(body, pieces, size) {
        return None;
    }
    Some(Head {
        length,
        pieces,
        size,
    })
}

// Lays pieces over a database, and notes their spans.
#[tactic(auto, using(crate::proofs::Spelling::left_head))]
fn lay_pieces(
    database: &mut [u8],
    bytes: &[u8],
    count: usize,
    spans: &mut Vec<Span>,
) -> io::Result<()>
    requires { HasPieces count (length database.old) bytes.now }
    ensures laid { OnOk result ((k : ℕ) → slice_index database.new k ≡ all_laid (spelled_pieces count bytes.now) k (slice_index database.old k)) }
    ensures spans { OnOk result (spans.new.items ≡ spans.old.items ++ spans_of (spelled_pieces count bytes.now)) }
{
    let mut at = 0;
    for _ in 0..count {
        let start = number_at(bytes, at);
        let end = start + number_at(bytes, at + 8);
        spans.push(Span { start, end })?;
        at += PIECE_HEAD;
        database[start..end].copy_from_slice(&bytes[at..at + (end - start)]);
        at += end - start;
    }
    Ok(())
}

/// Lays a change with this head over a database, and notes the spans of its pieces, which are `bytes`.
pub(crate) fn lay_change(
    database: &mut [u8],
    bytes: &[u8],
    head: Head,
    spans: &mut Vec<Span>,
) -> io::Result<()>
    requires few { head.size ≤ length database.old }
    requires has { HasPieces head.pieces head.size bytes.now }
    ensures laid { OnOk result (IsLaid (record { size = head.size; pieces = spelled_pieces head.pieces bytes.now }) database.old database.new) }
    ensures spans { OnOk result (spans.new.items ≡ spans.old.items ++ spans_of (spelled_pieces head.pieces bytes.now)) }
{
    let (inside, behind) = database.split_at_mut(head.size);
    behind.fill(0);
    lay_pieces(inside, bytes, head.pieces, spans)
}
