//! The buffer of bytes that were read and wait to be taken.
ghost use Rattle.std.specs.Prelude.{◌≡◌, ◌+◌, ◌-◌, ◌++◌, ◌<◌, ◌≤◌, [], IfOk, OnErr, drop, length, slice_range, take, vec_len};
ghost use Rattle.rrd_file.specs.Names.{Consumes, IsAtEnd, Keeps, prepend_known};

use rrd_fixed::{ReadFault, read_some};
use std::alloc::{AllocError, Global};
use std::io::Read;
use std::marker::Model;

/// The size of the buffer, in bytes: 128 cells. The bytes of a file are in memory already, so a larger buffer saves no
/// call of the system, and this one stays where the processor has it at hand.
pub(super) const ROOM: usize = 2_048;

/// At most 2,048 bytes that were read and not taken. Contracts see their list.
#[derive(Drop)]
pub(crate) struct Waiting {
    // The bytes from `from` to before `end` wait.
    bytes: Vec<u8>,
    from: usize,
    end: usize,
}

impl Model for Waiting {
    ghost use Rattle.std.specs.Prelude.{List, ℕ, slice_range};
    ghost use Rattle.rrd_file.specs.Reader.Waiting.{IsWaiting};

    ghost Value = { List ℕ };

    ghost view = { λ w. slice_range w.bytes.items w.from w.end };

    ghost invariant = { λ w. IsWaiting w.bytes.items w.from w.end };
}

impl Waiting {
    /// Creates an empty buffer.
    ///
    /// # Errors
    /// - `AllocError`: memory runs out.
    pub(crate) fn new(alloc: Global) -> Result<Waiting, AllocError>
        ensures { IfOk result (λ waiting. waiting ≡ []) }
    {
        let mut bytes = Vec::with_capacity(alloc, ROOM)?;
        bytes.resize(ROOM, 0)?;
        Ok(Waiting {
            bytes,
            from: 0,
            end: 0,
        })
    }

    /// Returns how many bytes wait.
    pub(crate) fn len(&self) -> usize
        ensures count { result ≡ length self.now }
        ensures few { result ≤ ROOM }
    {
        self.end - self.from
    }

    /// Returns the first `size` bytes.
    pub(crate) fn front(&self, size: usize) -> &[u8]
        requires { size ≤ length self.now }
        ensures front { result.now ≡ take size self.now }
        ensures size { length result.now ≡ size }
    {
        &self.bytes[self.from..self.from + size]
    }

    /// Skips the first `size` bytes.
    pub(crate) fn skip(&mut self, size: usize)
        requires { size ≤ length self.old }
        ensures { self.new ≡ drop size self.old }
    {
        self.from += size;
    }

    /// Takes the first bytes, as many as `piece` has.
    pub(crate) fn take(&mut self, piece: &mut [u8])
        requires { length piece.old ≤ length self.old }
        ensures taken { self.old ≡ piece.new ++ self.new }
        ensures size { length piece.new ≡ length piece.old }
    {
        let end = self.from + piece.len();
        piece.copy_from_slice(&self.bytes[self.from..end]);
        self.from = end;
    }

    /// Reads once after the waiting bytes, and returns how many bytes were read: 0 only at the end.
    pub(crate) fn fill<R: Read>(&mut self, reader: &mut R) -> Result<usize, ReadFault>
        requires { length self.old < ROOM }
        ensures keeps { Keeps (prepend_known self.old (R.remaining reader.old))
            (prepend_known self.new (R.remaining reader.new)) }
        ensures count { IfOk result (λ n. length self.new ≡ length self.old + n) }
        ensures few { IfOk result (λ n. n ≤ ROOM) }
        ensures err { OnErr result (self.new ≡ self.old) }
        ensures end { IfOk result (λ n. n ≡ 0 → IsAtEnd (R.remaining reader.new)) }
    {
        move_to_front(&mut self.bytes, self.from, self.end);
        self.end -= self.from;
        self.from = 0;
        let count = read_behind(reader, &mut self.bytes, self.end)?;
        self.end += count;
        Ok(count)
    }
}

// Moves the bytes from `from` to before `end` to the front of the buffer.
fn move_to_front(bytes: &mut Vec<u8>, from: usize, end: usize)
    requires ordered { from ≤ end }
    requires within { end ≤ vec_len bytes.old }
    ensures front { slice_range bytes.new.items 0 (end - from) ≡ slice_range bytes.old.items from end }
    ensures size { vec_len bytes.new ≡ vec_len bytes.old }
{
    bytes.copy_within(from..end, 0);
}

// Reads once into the buffer behind the bytes before `end`, and returns how many bytes were read.
fn read_behind<R: Read>(reader: &mut R, bytes: &mut Vec<u8>, end: usize) -> Result<usize, ReadFault>
    requires { end ≤ vec_len bytes.old }
    ensures front { slice_range bytes.new.items 0 end ≡ slice_range bytes.old.items 0 end }
    ensures size { vec_len bytes.new ≡ vec_len bytes.old }
    ensures few { IfOk result (λ n. end + n ≤ vec_len bytes.new) }
    ensures came { IfOk result (λ n. Consumes (R.remaining reader.old) (R.remaining reader.new)
        (slice_range bytes.new.items end (end + n))) }
    ensures at_end { IfOk result (λ n. n ≡ 0 → end < vec_len bytes.old → IsAtEnd (R.remaining reader.new)) }
    ensures err { OnErr result (Keeps (R.remaining reader.old) (R.remaining reader.new)) }
{
    read_some(reader, &mut bytes[end..])
}
