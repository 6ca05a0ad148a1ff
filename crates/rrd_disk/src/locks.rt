//! The advisory lock on an open file.
ghost use Rattle.std.specs.Prelude.{◌≡◌, ◌+◌, ◌≤◌, ◌∷◌, IfOk, IfSome, OnErr, OnOk};
ghost use Rattle.rrd_disk.specs.Calls.{Rests};
ghost use Rattle.rrd_disk.specs.Locks.{GuardsFor, IsTurned, locked};
ghost use Rattle.rrd_disk.specs.declared.disk.Lock.TheVariants.{Own};

use crate::{Disk, DiskFile, Lock, LockResult, Noted, Record, Settings};
use std::io::{self, Error, ErrorKind};

/// The longest pause between two tries, in milliseconds. It is short, because nobody wakes a run whose lock is free again.
const MAX_PAUSE: u64 = 5;

/// The pauses between the tries, in milliseconds: each pause is twice as long as the pause before, up to 5.
#[derive(Drop)]
pub(crate) struct Pauses {
    left: u64,
    next: u64,
}

impl Pauses {
    /// Creates pauses of `milliseconds` in all, at most [`Settings::MAX_WAIT`].
    pub(crate) fn within(milliseconds: u64) -> Pauses {
        Pauses {
            left: milliseconds.min(Settings::MAX_WAIT),
            next: 1,
        }
    }

    // Returns the next pause. Returns `None` if the time is over.
    fn take(&mut self) -> Option<u64>
        ensures over { result ≡ None → self.old.left ≡ 0 }
        ensures rest { IfSome result (λ pause. self.new.left + pause ≡ self.old.left) }
    {
        if self.left == 0 {
            return None;
        }
        let pause = self.next.min(self.left);
        self.left -= pause;
        self.next = self.next.saturating_mul(2).min(MAX_PAUSE);
        Some(pause)
    }

    // Counts what a pause took in all, of which it was to take `asked` milliseconds.
    fn count(&mut self, asked: u64, taken: u64)
        ensures { self.new.left ≤ self.old.left }
    {
        self.left = self.left.saturating_sub(taken.saturating_sub(asked));
    }
}

/// An open file, and the lock that this run holds on it, if the file system has locks.
///
/// The lock is released when the value is dropped. To close the file would not be enough: a process that was forked in
/// the meantime has the file open too, and would hold the lock for as long as that process lives.
pub(crate) struct LockedFile<F: DiskFile> {
    file: F,
    // The lock that the run asked for last.
    lock: Lock,
    lock_result: LockResult,
}

impl<F: DiskFile> LockedFile<F> {
    /// Returns the open file.
    pub(crate) fn file(&self) -> &F {
        &self.file
    }

    /// Returns the open file for a change.
    ///
    /// # Errors
    ///
    /// The run shares the lock with others, who read the file.
    pub(crate) fn file_to_change(&self) -> io::Result<&F>
        ensures { OnOk result (self.now.lock ≡ Own) }
    {
        match self.lock {
            Lock::Own => Ok(&self.file),
            Lock::Shared => Err(Error::from(ErrorKind::PermissionDenied)),
        }
    }

    /// Checks whether this run holds the lock. Without the lock another program may be changing the file.
    pub(crate) fn is_locked(&self) -> bool {
        self.lock_result == LockResult::Taken
    }
}

impl<F: DiskFile> Drop for LockedFile<F> {
    fn drop(self) {
        let LockedFile {
            file,
            lock: _lock,
            lock_result,
        } = self;
        if lock_result == LockResult::Taken {
            let _unlocked = file.unlock();
        }
    }
}

// Checks whether an error of a lock says that the file system has no locks.
//
// Linux answers `ENOSYS` if it is built without locks of files (`CONFIG_FILE_LOCKING`), and so does Lustre if it is
// mounted without the option `flock`. `EOPNOTSUPP` is the answer for an operation that a file system lacks. Both have the
// kind `Unsupported`. `EINVAL` (`InvalidInput`) is the answer of POSIX (fcntl, `F_SETLK`) for a file that does not
// support locks, which a file system over a network may pass on. flock(2) has no other use for it: the operation is
// one of its own.
//
// `ENOLCK` is no such answer: the server or the memory for locks failed, so another program may hold the lock.
fn has_no_locks(error: &Error) -> bool {
    matches!(
        error.kind(),
        ErrorKind::Unsupported | ErrorKind::InvalidInput
    )
}

// Checks whether a later try may lock the file: another program holds a lock, or a signal came.
fn is_to_be_tried_again(error: &Error) -> bool {
    matches!(error.kind(), ErrorKind::WouldBlock | ErrorKind::Interrupted)
}

/// Notes the answer to a call that tried to lock a file, for an implementation of [`Disk::try_lock`].
pub fn note_lock(calls: &mut Record, lock: Lock, tried: io::Result<()>) -> io::Result<LockResult>
    ensures ok { IfOk result (λ taken. calls.new.events ≡ locked lock taken ∷ calls.old.events) }
    ensures err { OnErr result (calls.new.events ≡ calls.old.events) }
{
    match tried {
        Ok(()) => {
            calls.note(&Noted::Locked(lock));
            Ok(LockResult::Taken)
        }
        Err(error) if has_no_locks(&error) => {
            calls.note(&Noted::NoLocks);
            Ok(LockResult::NoLocks)
        }
        Err(error) => Err(error),
    }
}

// Locks a file, and tries again during the pauses while another program holds a lock.
fn try_until_locked<D: Disk>(
    disk: &mut D,
    file: &D::File,
    lock: Lock,
    pauses: &mut Pauses,
) -> io::Result<LockResult>
    ensures rests { Rests (D.events disk.old) (D.events disk.new) }
    ensures guard { OnOk result (GuardsFor lock (D.events disk.new)) }
{
    for _ in 0..=Settings::MAX_WAIT {
        match disk.try_lock(file, lock) {
            Ok(lock_result) => return Ok(lock_result),
            Err(error) if is_to_be_tried_again(&error) => {}
            Err(error) => return Err(error),
        }
        let Some(pause) = pauses.take() else {
            break;
        };
        let taken = disk.pause(pause);
        pauses.count(pause, taken);
    }
    Err(Error::new(ErrorKind::WouldBlock, "in use by another program"))
}

/// Locks a file, and tries again during the pauses while another program holds a lock.
///
/// # Errors
///
/// - `WouldBlock` if another program held a lock at each try.
/// - Another error if the system could not lock the file, for a reason other than that the file system has no locks.
pub(crate) fn lock<D: Disk>(
    disk: &mut D,
    file: D::File,
    lock: Lock,
    pauses: &mut Pauses,
) -> io::Result<LockedFile<D::File>>
    ensures rests { Rests (D.events disk.old) (D.events disk.new) }
    ensures guard { IfOk result (λ file. GuardsFor file.lock (D.events disk.new)) }
{
    let lock_result = try_until_locked(disk, &file, lock, pauses)?;
    Ok(LockedFile {
        file,
        lock,
        lock_result,
    })
}

/// Turns the lock of an open file into another one, by one try.
///
/// # Errors
///
/// The file holds no lock now. It is closed, so that nobody uses it without one.
pub(crate) fn turn_lock<D: Disk>(
    disk: &mut D,
    locked: LockedFile<D::File>,
    lock: Lock,
) -> io::Result<LockedFile<D::File>>
    ensures rests { Rests (D.events disk.old) (D.events disk.new) }
    ensures guard { IfOk result (λ file. GuardsFor file.lock (D.events disk.new)) }
    ensures turned { OnOk result (IsTurned lock (D.events disk.new)) }
{
    let mut turned = locked;
    match disk.try_lock(&turned.file, lock)? {
        LockResult::Taken => {
            turned.lock = lock;
            Ok(turned)
        }
        LockResult::NoLocks => Err(Error::from(ErrorKind::Unsupported)),
    }
}
