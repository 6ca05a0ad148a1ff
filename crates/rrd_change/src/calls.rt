//! The calls of a file that is changed.
ghost use Rattle.std.specs.Prelude.{◌+◌, ◌≤◌, ◌%◌, length, IfOk};
ghost use Rattle.rrd_change.specs.Views.{Counts, Does, FailsToSize, FailsToWrite, FailsToWritePage, FailsToWriteWhole, IsSynced, IsUnsynced, Reads, Sizes, Stays, View, Writes, WritesPage, WritesWhole};

use std::io;

/// The setting for syncs of a file.
#[derive(Clone, Copy, PartialEq, Eq, Debug, Drop)]
pub enum Syncs {
    /// The steps of a change are stored in their order: a change outlives power failures.
    Ordered,
    /// Nothing is synced: a change outlives kills only.
    Never,
}

/// Reads and writes the bytes of a file that is changed.
///
/// A kill leaves what the calls before the kill left, and of the call that the kill interrupts what an error of that
/// call may leave. These clauses assume three things about the system: a kill cuts neither a write within one sector
/// ([`Bytes::write_whole`]) or of the first page ([`Bytes::write_page`]) nor a change of the length ([`Bytes::set_len`]); a
/// power failure leaves all of a write within one sector, or nothing, if the file had bytes there before; and a sync that
/// ends well stores what was written since the last sync that failed.
pub trait Bytes {
    // What is known of the file.
    ghost view: { Self → View };

    /// Returns the length of the file in bytes.
    ///
    /// # Errors
    ///
    /// The system does not report the length.
    fn len(&mut self) -> io::Result<usize>
        ensures { Does Counts Stays result (view self.old) (view self.new) };

    /// Reads `count` bytes, of which the first is byte `at`, in place of what `into` has.
    ///
    /// # Errors
    ///
    /// The file has fewer bytes, a read failed, or memory ran out. `into` may then have any bytes.
    fn read(&mut self, at: usize, count: usize, into: &mut Vec<u8>) -> io::Result<()>
        ensures { Does (λ _. Reads at count into.new.items) Stays result (view self.old) (view self.new) };

    /// Writes bytes from byte `at` on, and returns the number of bytes that were written: perhaps not all.
    ///
    /// # Errors
    ///
    /// The file may then have any bytes there. If `at` is the end of the file or later, it has the first part of the
    /// bytes, perhaps none.
    fn write(&mut self, at: usize, bytes: &[u8]) -> io::Result<usize>
        ensures few { IfOk result (λ n. n ≤ length bytes.now) }
        ensures does { Does (Writes at bytes.now) (FailsToWrite at bytes.now) result (view self.old) (view self.new) };

    /// Writes bytes from byte `at` on that lie within one sector.
    ///
    /// # Errors
    ///
    /// The file then has all of the bytes, or none.
    fn write_whole(&mut self, at: usize, bytes: &[u8]) -> io::Result<()>
        requires { at % 512 + length bytes.now ≤ 512 }
        ensures { Does (λ _. WritesWhole at bytes.now) (FailsToWriteWhole at bytes.now) result (view self.old) (view self.new) };

    /// Writes the first bytes of the file, at most a page.
    ///
    /// # Errors
    ///
    /// The file then has all of the bytes, or none.
    fn write_page(&mut self, bytes: &[u8]) -> io::Result<()>
        requires { length bytes.now ≤ 4096 }
        ensures { Does (λ _. WritesPage bytes.now) (FailsToWritePage bytes.now) result (view self.old) (view self.new) };

    /// Sets the length of the file to `count` bytes: truncates the file, or appends zeros.
    ///
    /// # Errors
    ///
    /// The file is then as it was, or has that length.
    fn set_len(&mut self, count: usize) -> io::Result<()>
        ensures { Does (λ _. Sizes count) (FailsToSize count) result (view self.old) (view self.new) };

    /// Returns after the disk has stored all bytes that were written.
    ///
    /// # Errors
    ///
    /// The disk may have stored any part of the bytes, and a later sync that ends well need not store the rest.
    fn sync(&mut self) -> io::Result<()>
        ensures { Does (λ _. IsSynced) IsUnsynced result (view self.old) (view self.new) };
}
