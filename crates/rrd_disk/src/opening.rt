//! Opens a file and locks it, so that the path still names the file when the lock is held.
ghost use Rattle.std.specs.Prelude.{◌≡◌, IfOk, None};
ghost use Rattle.rrd_disk.specs.Calls.{Rests, RestsFor};
ghost use Rattle.rrd_disk.specs.Locks.{GuardsOpened, GuardsOpenedIf, KeepsGuard};
ghost use Rattle.rrd_disk.specs.Openings.{IsNone, IsThere, Says, SaysIf};

use crate::locks::{LockedFile, Pauses, lock};
use crate::once::{open, open_pipe};
use crate::{Disk, DiskFile, Facts, Kind, Lock, Opening};
use std::io::{self, Error, ErrorKind};

/// The maximum number of openings, if each time another program replaces the file before it is locked.
const OPENINGS: u32 = 100;

/// The result of opening a file.
#[derive(Drop)]
pub(crate) enum Opened<F: DiskFile, P: Drop> {
    /// A regular file that is locked, and its length.
    Regular(LockedFile<F>, u64),
    /// A pipe without a name, which is only read, and has no lock.
    Pipe(P),
    /// There is no file, or no directory for a new one.
    Missing,
    /// There is a file that the system does not open for this purpose, for this reason.
    Refused(Error),
}

// Returns the lock that a run needs.
fn lock_for(opening: Opening) -> Lock {
    match opening {
        Opening::Read => Lock::Shared,
        Opening::Write | Opening::Make => Lock::Own,
    }
}

/// Returns the reason why a device, or a pipe, is not opened.
pub(crate) fn not_regular() -> Error {
    Error::new(ErrorKind::Unsupported, "not a regular file")
}

// Returns the kind of the file with these facts, if a file of this kind may be opened.
//
// A second opening of a pipe could lose bytes that the pipe delivered, and wait for more. So a pipe is only read, and not
// changed.
fn openable_kind(facts: &Facts, opening: Opening) -> io::Result<Kind> {
    match facts.kind {
        Kind::Regular => Ok(Kind::Regular),
        Kind::Pipe if opening == Opening::Read => Ok(Kind::Pipe),
        Kind::Directory => Err(Error::from(ErrorKind::IsADirectory)),
        Kind::Pipe | Kind::Other => Err(not_regular()),
    }
}

// Returns the kind of the file, if a file of this kind may be opened; `None` if there is no file. The system is asked
// before the file is opened: to open a pipe with a name would wait for a program at the pipe's other end.
fn kind_at<D: Disk>(disk: &mut D, opening: Opening) -> io::Result<Option<Kind>>
    ensures rests { Rests (D.events disk.old) (D.events disk.new) }
    ensures none { IfOk result (λ kind. kind ≡ None → IsNone (D.events disk.new)) }
{
    match disk.facts_at()? {
        Some(facts) => Ok(Some(openable_kind(&facts, opening)?)),
        // The system creates a regular file.
        None if opening == Opening::Make => Ok(Some(Kind::Regular)),
        None => Ok(None),
    }
}

// Checks whether the path names the regular file with these facts.
fn names<D: Disk>(disk: &mut D, facts: &Facts) -> io::Result<bool>
    ensures rests { Rests (D.events disk.old) (D.events disk.new) }
    ensures guard { KeepsGuard (D.events disk.old) (D.events disk.new) }
{
    match disk.facts_at()? {
        Some(named) => Ok(
            facts.kind == Kind::Regular
                && named.device == facts.device
                && named.inode == facts.inode,
        ),
        None => Ok(false),
    }
}

// Locks an open file. Returns `None` if the path then names another file.
fn lock_named<D: Disk>(
    disk: &mut D,
    file: D::File,
    opening: Opening,
    pauses: &mut Pauses,
) -> io::Result<Option<Opened<D::File, D::Pipe>>>
    ensures rests { Rests (D.events disk.old) (D.events disk.new) }
    ensures says { IfOk result (λ opened. IsThere (D.events disk.old) → SaysIf opened (D.events disk.new)) }
    ensures guard { IfOk result (λ opened. GuardsOpenedIf opened (D.events disk.new)) }
{
    let locked = lock(disk, file, lock_for(opening), pauses)?;
    let facts = disk.facts(locked.file())?;
    if !names(disk, &facts)? {
        return Ok(None);
    }
    Ok(Some(Opened::Regular(locked, facts.length)))
}

// Opens the file, which is a pipe.
fn pipe_opened<D: Disk>(disk: &mut D) -> Opened<D::File, D::Pipe>
    ensures rests { Rests (D.events disk.old) (D.events disk.new) }
    ensures says { Says result (D.events disk.new) }
    ensures guard { GuardsOpened result (D.events disk.new) }
{
    match open_pipe(disk) {
        Ok(Some(pipe)) => Opened::Pipe(pipe),
        Ok(None) => Opened::Missing,
        Err(error) => Opened::Refused(error),
    }
}

// Opens the file once, and locks the file. Returns `None` if the path then names another file.
fn open_once<D: Disk>(
    disk: &mut D,
    opening: Opening,
    pauses: &mut Pauses,
) -> io::Result<Option<Opened<D::File, D::Pipe>>>
    ensures rests { RestsFor opening (D.events disk.old) (D.events disk.new) }
    ensures says { IfOk result (λ opened. SaysIf opened (D.events disk.new)) }
    ensures guard { IfOk result (λ opened. GuardsOpenedIf opened (D.events disk.new)) }
{
    let Some(kind) = kind_at(disk, opening)? else {
        return Ok(Some(Opened::Missing));
    };
    if kind == Kind::Pipe {
        return Ok(Some(pipe_opened(disk)));
    }
    let found = match open(disk, opening) {
        Ok(found) => found,
        Err(error) => return Ok(Some(Opened::Refused(error))),
    };
    let Some(file) = found else {
        return Ok(Some(Opened::Missing));
    };
    lock_named(disk, file, opening, pauses)
}

/// Opens the file, and locks the file: a reader shares the lock with other readers.
///
/// Another program may replace the file while this run waits for the lock. The run then opens the new file, so that no
/// change goes to a file without a name. `wait` is the time in milliseconds for which the run waits in all.
///
/// # Errors
///
/// - The file is no regular file. A pipe without a name may be read.
/// - `WouldBlock` if another program held a lock at each try.
/// - The file cannot be locked, or another program replaced it each time.
pub(crate) fn open_locked<D: Disk>(
    disk: &mut D,
    opening: Opening,
    wait: u64,
) -> io::Result<Opened<D::File, D::Pipe>>
    ensures rests { RestsFor opening (D.events disk.old) (D.events disk.new) }
    ensures says { IfOk result (λ opened. Says opened (D.events disk.new)) }
    ensures guard { IfOk result (λ opened. GuardsOpened opened (D.events disk.new)) }
{
    let mut pauses = Pauses::within(wait);
    for _ in 0..OPENINGS {
        if let Some(opened) = open_once(disk, opening, &mut pauses)? {
            return Ok(opened);
        }
    }
    Err(Error::new(
        ErrorKind::ResourceBusy,
        "another program keeps replacing the file",
    ))
}
