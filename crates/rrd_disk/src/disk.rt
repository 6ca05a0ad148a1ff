//! The calls of the system on a file.
ghost use Rattle.std.specs.Prelude.{◌≡◌, ◌∷◌, IsTrue, List, length, take, IfOk, OnErr, OnOk};
ghost use Rattle.std.specs.Io.{ReadsAtMost};
ghost use Rattle.rrd_disk.specs.Calls.{opened, seen};
ghost use Rattle.rrd_disk.specs.Locks.{is_guarded, locked};
ghost use Rattle.rrd_disk.specs.declared.disk.Opening.TheVariants.{Read};
ghost use Rattle.rrd_disk.specs.Events.{Event, Got, Measured, Put, PutFailed, SizeFailed, Sized, Streamed, SyncFailed, Synced};

use std::alloc::Global;
use std::io;

/// The purpose for which a file is opened.
#[derive(Clone, Copy, Debug, PartialEq, Eq)]
pub enum Opening {
    /// Reads the file.
    Read,
    /// Reads and writes the file.
    Write,
    /// Reads and writes the file, and creates the file if there is none.
    Make,
}

/// A lock on an open file.
#[derive(Clone, Copy, Debug, PartialEq, Eq)]
pub enum Lock {
    /// Other programs may hold a shared lock too.
    Shared,
    /// No other program holds a lock.
    Own,
}

/// The result of a try to lock a file.
#[derive(Clone, Copy, Debug, PartialEq, Eq)]
pub enum LockResult {
    /// The open file holds the lock.
    Taken,
    /// The file system has no locks.
    NoLocks,
}

/// The kind of a file.
#[derive(Clone, Copy, Debug, PartialEq, Eq)]
pub enum Kind {
    /// A file that keeps its bytes.
    Regular,
    /// A directory.
    Directory,
    /// A pipe without a name, such as a shell makes for `|`. To open such a pipe never waits.
    Pipe,
    /// A pipe with a name, a device or a socket. To open one may wait for another program.
    Other,
}

/// The facts that the system reports of a file.
#[derive(Clone, Copy, Debug, PartialEq, Eq)]
pub struct Facts {
    /// The kind of the file.
    pub kind: Kind,
    /// The length of the file in bytes.
    pub length: u64,
    /// The device that has the file.
    pub device: u64,
    /// The number of the file on its device. No two files have both numbers in common.
    pub inode: u64,
}

/// An open file, which is closed when the value is dropped.
pub trait DiskFile: Drop {
    /// Releases the lock, also for the other handles of the same open file, and for the processes that share them.
    ///
    /// # Errors
    ///
    /// The lock stays until the last handle is closed.
    fn unlock(&self) -> io::Result<()>;
}

/// A system that has the file of one run, with the record of the calls on the file. The system is made for the path of
/// the file: code above it cannot name another file.
///
/// Each call notes what the call did and what the system answered. A reader of the theorems has to believe that the
/// bodies of an `impl` make the calls that they note.
///
/// A signal may make any call fail with the kind `Interrupted`. Each error is one of the system's, and its kind says why
/// the call failed.
pub trait Disk {
    // The calls so far, the newest first.
    ghost events: { Self → List Event };

    /// The open file.
    type File: DiskFile;

    /// The open pipe, if the file is a pipe.
    type Pipe: Drop;

    /// Returns the allocator for the bytes of files.
    fn alloc(&self) -> Global;

    /// Opens the file. Returns `None` if there is no file, or no directory for a new one.
    ///
    /// No standard stream of the process is the open file: the numbers 0 to 2 are for the streams, even if they are
    /// closed.
    ///
    /// # Errors
    ///
    /// The file cannot be opened for that purpose.
    fn open(&mut self, opening: Opening) -> io::Result<Option<Self::File>>
        ensures ok { IfOk result (λ file. events self.new ≡ opened opening file ∷ events self.old) }
        ensures err { OnErr result (events self.new ≡ events self.old) };

    /// Opens the file for reading, if it is a pipe. Returns `None` if there is no file.
    ///
    /// # Errors
    ///
    /// The file is no pipe, or cannot be opened.
    fn open_pipe(&mut self) -> io::Result<Option<Self::Pipe>>
        ensures ok { IfOk result (λ pipe. events self.new ≡ opened Read pipe ∷ events self.old) }
        ensures err { OnErr result (events self.new ≡ events self.old) };

    /// Tries once to lock an open file, without waiting. If the open file holds a lock, the call turns that lock into the
    /// other one. If the call fails, this open file holds no lock.
    ///
    /// If nobody else holds a lock, the call turns a shared lock into the run's own in one step, in which nobody else can
    /// lock the file: flock(2) does so on Linux since version 4.1.
    ///
    /// # Errors
    ///
    /// - `WouldBlock` if another program holds a lock that excludes this one.
    /// - Any other error if the file could not be locked, for a reason other than that the file system has no locks.
    fn try_lock(&mut self, file: &Self::File, lock: Lock) -> io::Result<LockResult>
        ensures ok { IfOk result (λ taken. events self.new ≡ locked lock taken ∷ events self.old) }
        ensures err { OnErr result (events self.new ≡ events self.old) };

    /// Returns the facts that the system reports of an open file.
    ///
    /// # Errors
    ///
    /// The system does not report the facts.
    fn facts(&mut self, file: &Self::File) -> io::Result<Facts>
        ensures ok { IfOk result (λ facts. events self.new ≡ Measured facts.length ∷ events self.old) }
        ensures err { OnErr result (events self.new ≡ events self.old) };

    /// Returns the facts that the system reports of the file at the path, without opening the file. Returns `None` if there
    /// is no file.
    ///
    /// # Errors
    ///
    /// The system does not report the facts.
    fn facts_at(&mut self) -> io::Result<Option<Facts>>
        ensures ok { IfOk result (λ facts. events self.new ≡ seen facts (events self.old)) }
        ensures err { OnErr result (events self.new ≡ events self.old) };

    /// Checks whether there is a directory for the file, or something else in its place. Returns `false` only if there is
    /// nothing, or if the path names no file.
    fn has_directory(&self) -> bool;

    /// Reads bytes from byte `at` on by one call, and returns the number of bytes that were read: 0 at the end of the file.
    ///
    /// # Errors
    ///
    /// The read failed.
    fn read_at(&mut self, file: &Self::File, bytes: &mut [u8], at: u64) -> io::Result<usize>
        ensures bound { ReadsAtMost result bytes.new }
        ensures ok { IfOk result (λ n. events self.new ≡ Got at (length bytes.old) (take n bytes.new) ∷ events self.old) }
        ensures err { OnErr result (events self.new ≡ events self.old) };

    /// Reads the next bytes of a pipe by one call, and returns the number of bytes that were read: 0 at the end.
    ///
    /// # Errors
    ///
    /// The read failed.
    fn read_pipe(&mut self, pipe: &mut Self::Pipe, bytes: &mut [u8]) -> io::Result<usize>
        ensures bound { ReadsAtMost result bytes.new }
        ensures ok { OnOk result (events self.new ≡ Streamed ∷ events self.old) }
        ensures err { OnErr result (events self.new ≡ events self.old) };

    /// Writes bytes from byte `at` on by one call, and returns the number of bytes that were written. The last lock in the
    /// record, since the last opening of the file, is the run's own, or the file system has no locks.
    ///
    /// # Errors
    ///
    /// The write failed. A first part of the bytes may have been written all the same.
    fn write_at(&mut self, file: &Self::File, bytes: &[u8], at: u64) -> io::Result<usize>
        requires { IsTrue (is_guarded (events self.old)) }
        ensures ok { IfOk result (λ n. events self.new ≡ Put at bytes.now n ∷ events self.old) }
        ensures err { OnErr result (events self.new ≡ PutFailed at bytes.now ∷ events self.old) };

    /// Sets the length of the file to `length` bytes: truncates the file, or appends zeros. The record has a lock as for
    /// [`Disk::write_at`].
    ///
    /// # Errors
    ///
    /// The file is as it was, or has that length.
    fn set_length(&mut self, file: &Self::File, length: u64) -> io::Result<()>
        requires { IsTrue (is_guarded (events self.old)) }
        ensures ok { OnOk result (events self.new ≡ Sized length ∷ events self.old) }
        ensures err { OnErr result (events self.new ≡ SizeFailed length ∷ events self.old) };

    /// Returns after the disk has stored all bytes that were written.
    ///
    /// # Errors
    ///
    /// The disk may have stored any part of the bytes.
    fn sync(&mut self, file: &Self::File) -> io::Result<()>
        ensures ok { OnOk result (events self.new ≡ Synced ∷ events self.old) }
        ensures err { OnErr result (events self.new ≡ SyncFailed ∷ events self.old) };

    /// Waits for `milliseconds`, and returns how many milliseconds have passed since the pause before, or since the opening.
    fn pause(&self, milliseconds: u64) -> u64;
}
