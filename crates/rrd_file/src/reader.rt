//! A reader of the pieces of an input.
ghost use Rattle.std.specs.Prelude.{◌≡◌, ◌+◌, ◌^◌, ◌<◌, ◌≤◌, [], IfErr, IfOk, IfSome, OnOk, false, length, take, true};
ghost use Rattle.rrd_file.specs.Names.{Consumes, Keeps};
ghost use Rattle.rrd_file.specs.Words.{FindsEnd, IsCut, ReadsPiece, left};
ghost use Rattle.rrd_file.specs.declared.fault.FileFault.TheVariants.{Read as ReadFault};

use crate::FileFault;
use crate::layout::SOURCE_SIZE;
use crate::writer::MAX_PIECE_SIZE;
use std::alloc::{AllocError, Global};
use std::io::Read;
use std::marker::Model;
use waiting::{ROOM, Waiting};

mod waiting;

/// A reader with a buffer of 2,048 bytes.
///
/// Contracts see the bytes that were read and not taken, the bytes that the reader has left, and the offset of the next
/// piece.
#[derive(Drop)]
pub(crate) struct PieceReader<R: Read + Drop> {
    reader: R,
    waiting: Waiting,
    // The number of bytes that were read in all.
    came: u64,
}

impl<R: Read + Drop> Model for PieceReader<R> {
    ghost use Rattle.std.specs.Prelude.{◌-◌, ◌≤◌, length};
    ghost use Rattle.rrd_file.specs.Reader.{Input};

    ghost Value = { Input };

    ghost view = { λ p. record { waiting = p.waiting; behind = R.remaining p.reader; at = p.came - length p.waiting } };

    ghost invariant = { λ p. length p.waiting ≤ p.came };
}

impl<R: Read + Drop> PieceReader<R> {
    /// Creates a reader of all bytes of `reader`.
    ///
    /// # Errors
    /// - `AllocError`: memory for the buffer runs out.
    pub(crate) fn new(alloc: Global, reader: R) -> Result<PieceReader<R>, AllocError>
        ensures { IfOk result (λ input. input ≡ record { waiting = []; behind = R.remaining reader; at = 0 }) }
    {
        Ok(PieceReader {
            reader,
            waiting: Waiting::new(alloc)?,
            came: 0,
        })
    }

    /// Returns the offset of the next piece.
    pub(crate) fn at(&self) -> u64
        ensures { result ≡ self.now.at }
    {
        self.came - self.waiting.len() as u64
    }

    // Reads more bytes after the waiting ones, and returns how many: 0 only at the end. Fails before the offset could
    // pass 2^64.
    //
    // Never inlined: most pieces wait already, and what takes them stays small.
    #[inline(never)]
    fn more(&mut self) -> Result<usize, FileFault>
        requires { length self.old.waiting < ROOM }
        ensures keeps { OnOk result (Keeps (left self.old) (left self.new)) }
        ensures at { OnOk result (self.new.at ≡ self.old.at) }
        ensures count { IfOk result (λ n. length self.new.waiting ≡ length self.old.waiting + n) }
        ensures more { IfOk result (λ n. FindsEnd n self.new) }
        ensures err { IfErr result (λ fault. fault ≡ ReadFault) }
    {
        if self.came > u64::MAX - ROOM as u64 {
            return Err(FileFault::Read);
        }
        let Ok(count) = self.waiting.fill(&mut self.reader) else {
            return Err(FileFault::Read);
        };
        self.came += count as u64;
        Ok(count)
    }

    /// Returns how many bytes were read and wait to be taken.
    pub(crate) fn waiting(&self) -> usize
        ensures { result ≡ length self.now.waiting }
    {
        self.waiting.len()
    }

    /// Waits until `size` bytes are there, at most those of the largest piece.
    pub(crate) fn wait_for(&mut self, size: usize) -> Result<(), FileFault>
        requires { size ≤ SOURCE_SIZE }
        ensures keeps { OnOk result (Keeps (left self.old) (left self.new)) }
        ensures at { OnOk result (self.new.at ≡ self.old.at) }
        ensures enough { OnOk result (size ≤ length self.new.waiting) }
        ensures cut { IfErr result (λ fault. IsCut self.old size fault) }
    {
        while self.waiting.len() < size {
            if self.more()? == 0 {
                return Err(FileFault::Truncated { at: self.came });
            }
        }
        Ok(())
    }

    /// Waits until `size` bytes are there, at most 1,024, or the input ends.
    pub(crate) fn gather(&mut self, size: usize) -> Result<(), FileFault>
        requires { size ≤ MAX_PIECE_SIZE }
        ensures keeps { OnOk result (Keeps (left self.old) (left self.new)) }
        ensures at { OnOk result (self.new.at ≡ self.old.at) }
        ensures more { OnOk result (length self.old.waiting ≤ length self.new.waiting) }
        ensures err { IfErr result (λ fault. fault ≡ ReadFault) }
    {
        while self.waiting.len() < size {
            if self.more()? == 0 {
                return Ok(());
            }
        }
        Ok(())
    }

    /// Returns the first `size` waiting bytes.
    pub(crate) fn front(&self, size: usize) -> &[u8]
        requires { size ≤ length self.now.waiting }
        ensures front { result.now ≡ take size self.now.waiting }
        ensures size { length result.now ≡ size }
    {
        self.waiting.front(size)
    }

    /// Skips the first `size` waiting bytes.
    pub(crate) fn skip(&mut self, size: usize)
        requires { size ≤ length self.old.waiting }
        ensures consumed { Consumes (left self.old) (left self.new) (take size self.old.waiting) }
        ensures advanced { self.new.at ≡ self.old.at + size }
        ensures bounded { self.new.at < 2 ^ 64 }
    {
        self.waiting.skip(size);
    }

    /// Fills `piece` with the next bytes, at most those of the largest piece.
    // Always inlined: each caller has a constant length, for which the copy takes a few instructions.
    #[inline(always)]
    pub(crate) fn piece(&mut self, piece: &mut [u8]) -> Result<(), FileFault>
        requires { length piece.old ≤ SOURCE_SIZE }
        ensures read { ReadsPiece self.old piece.new self.new result }
        ensures size { length piece.new ≡ length piece.old }
    {
        self.wait_for(piece.len())?;
        self.waiting.take(piece);
        Ok(())
    }

    /// Returns whether the input has ended.
    pub(crate) fn is_at_end(&mut self) -> Result<bool, FileFault>
        ensures ended { IfOk result (λ ended. ended ≡ true → IfSome (left self.old) (λ rest. rest ≡ [])) }
        ensures more { IfOk result (λ ended. ended ≡ false → IfSome (left self.old) (λ rest. 0 < length rest)) }
        ensures err { IfErr result (λ fault. fault ≡ ReadFault) }
    {
        if self.waiting.len() > 0 {
            return Ok(false);
        }
        Ok(self.more()? == 0)
    }
}
