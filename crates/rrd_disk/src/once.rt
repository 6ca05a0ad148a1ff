//! Calls of the system that a signal may interrupt, and bytes written by one call.
ghost use Rattle.std.specs.Prelude.{◌≡◌, ◌+◌, ◌<◌, ◌≤◌, ◌∷◌, IsTrue, length, IfOk, OnErr, OnOk, take};
ghost use Rattle.std.specs.Io.{ReadsAtMost};
ghost use Rattle.rrd_change.specs.Calls.{ArePut, IsSized, IsSizedOrNot};
ghost use Rattle.rrd_change.specs.Views.{IsSynced, IsUnsynced, Moves};
ghost use Rattle.rrd_disk.specs.Calls.{DidOr, IsCutShort, IsGot, IsGotAtOnce, IsPartPut, Rests, opened};
ghost use Rattle.rrd_disk.specs.Fronts.{Begins};
ghost use Rattle.rrd_disk.specs.Locks.{KeepsGuard, is_guarded};
ghost use Rattle.rrd_disk.specs.Power.{AreTorn};
ghost use Rattle.rrd_disk.specs.Replayed.{World, bytes_after, is_honest_after};
ghost use Rattle.rrd_disk.specs.declared.disk.Opening.TheVariants.{Read};

use crate::{Disk, Opening};
use rrd_fixed::TRIES;
use std::io::{self, Error, ErrorKind};

/// Opens the file. Returns `None` if there is no file, or no directory for a new one.
pub(crate) fn open<D: Disk>(disk: &mut D, opening: Opening) -> io::Result<Option<D::File>>
    ensures ok { IfOk result (λ file. D.events disk.new ≡ opened opening file ∷ D.events disk.old) }
    ensures err { OnErr result (D.events disk.new ≡ D.events disk.old) }
{
    for _ in 0..TRIES {
        match disk.open(opening) {
            Err(error) if error.kind() == ErrorKind::Interrupted => {}
            ended => return ended,
        }
    }
    Err(Error::from(ErrorKind::Interrupted))
}

/// Opens the file for reading, if it is a pipe. Returns `None` if there is no file.
pub(crate) fn open_pipe<D: Disk>(disk: &mut D) -> io::Result<Option<D::Pipe>>
    ensures ok { IfOk result (λ pipe. D.events disk.new ≡ opened Read pipe ∷ D.events disk.old) }
    ensures err { OnErr result (D.events disk.new ≡ D.events disk.old) }
{
    for _ in 0..TRIES {
        match disk.open_pipe() {
            Err(error) if error.kind() == ErrorKind::Interrupted => {}
            ended => return ended,
        }
    }
    Err(Error::from(ErrorKind::Interrupted))
}

/// Returns the error of a write that was cut short.
pub(crate) fn no_space() -> Error {
    Error::new(
        ErrorKind::WriteZero,
        "no space left, or a limit on the size of files",
    )
}

/// Writes bytes from byte `at` on by one call, and returns the number of bytes that were written. No honest file takes some of
/// a small write.
pub(crate) fn put_some<D: Disk>(
    disk: &mut D,
    file: &D::File,
    bytes: &[u8],
    at: u64,
) -> io::Result<usize>
    requires { IsTrue (is_guarded (D.events disk.old)) }
    ensures did { DidOr (λ n. Moves (IsPartPut n at bytes.now) (AreTorn at bytes.now)) (Moves (IsPartPut 0 at bytes.now) (AreTorn at bytes.now)) result (D.events disk.old) (D.events disk.new) }
    ensures short { IfOk result (λ n. IsCutShort n at bytes.now (D.events disk.new)) }
    ensures guard { KeepsGuard (D.events disk.old) (D.events disk.new) }
{
    for _ in 0..TRIES {
        match disk.write_at(file, bytes, at) {
            Err(error) if error.kind() == ErrorKind::Interrupted => {}
            ended => return ended,
        }
    }
    Err(Error::from(ErrorKind::Interrupted))
}

/// Writes all bytes from byte `at` on by one call.
///
/// If a call writes only some of the bytes, the next call writes all bytes again from the first byte: a call that began
/// after the written bytes, at a limit on the size of files, would end the process.
///
/// # Errors
///
/// A call failed, or the second one wrote only some of the bytes too: there is no space left, or a limit on the size of
/// files.
pub(crate) fn put<D: Disk>(disk: &mut D, file: &D::File, bytes: &[u8], at: u64) -> io::Result<()>
    requires some { 0 < length bytes.now }
    requires guarded { IsTrue (is_guarded (D.events disk.old)) }
    ensures did { DidOr (λ _. Moves (ArePut at bytes.now) (AreTorn at bytes.now)) (Moves (IsPartPut 0 at bytes.now) (AreTorn at bytes.now)) result (D.events disk.old) (D.events disk.new) }
    ensures guard { KeepsGuard (D.events disk.old) (D.events disk.new) }
{
    if put_some(disk, file, bytes, at)? >= bytes.len() {
        return Ok(());
    }
    if put_some(disk, file, bytes, at)? >= bytes.len() {
        return Ok(());
    }
    Err(no_space())
}

// Reads bytes from byte `at` on by one call, and returns the number of bytes that were read.
fn get_some<D: Disk>(disk: &mut D, file: &D::File, bytes: &mut [u8], at: u64) -> io::Result<usize>
    ensures bound { ReadsAtMost result bytes.new }
    ensures rests { Rests (D.events disk.old) (D.events disk.new) }
    ensures ok { IfOk result (λ n. (s : World) → IsTrue (is_honest_after s (D.events disk.new))
        → IsGotAtOnce (bytes_after s (D.events disk.old)) at n bytes.new) }
    ensures guard { KeepsGuard (D.events disk.old) (D.events disk.new) }
{
    for _ in 0..TRIES {
        match disk.read_at(file, bytes, at) {
            Err(error) if error.kind() == ErrorKind::Interrupted => {}
            ended => return ended,
        }
    }
    Err(Error::from(ErrorKind::Interrupted))
}

/// Reads bytes from byte `at` on until `bytes` is full, or the file ends.
///
/// Returns the number of bytes that were read.
pub(crate) fn get<D: Disk>(
    disk: &mut D,
    file: &D::File,
    bytes: &mut [u8],
    at: u64,
) -> io::Result<usize>
    ensures bound { ReadsAtMost result bytes.new }
    ensures rests { Rests (D.events disk.old) (D.events disk.new) }
    ensures ok { IfOk result (λ n. (s : World) → IsTrue (is_honest_after s (D.events disk.new))
        → IsGot (bytes_after s (D.events disk.old)) at n bytes.new) }
    ensures guard { KeepsGuard (D.events disk.old) (D.events disk.new) }
{
    let mut count = 0;
    while count < bytes.len() {
        let Some(from) = at.checked_add(count as u64) else {
            return Err(Error::from(ErrorKind::InvalidInput));
        };
        let rest = bytes.len() - count;
        let more = get_some(disk, file, &mut bytes[count..], from)?;
        if more == 0 {
            break;
        }
        count += more.min(rest);
    }
    Ok(count)
}

/// Reads the bytes of the file that belong behind the first `had` bytes of `bytes`, until `bytes` is full, or the file ends.
///
/// Returns the number of bytes that were read.
pub(crate) fn get_behind<D: Disk>(
    disk: &mut D,
    file: &D::File,
    bytes: &mut [u8],
    had: usize,
) -> io::Result<usize>
    requires { had ≤ length bytes.old }
    ensures bound { IfOk result (λ n. had + n ≤ length bytes.new) }
    ensures length { length bytes.new ≡ length bytes.old }
    ensures rests { Rests (D.events disk.old) (D.events disk.new) }
    ensures shown { IfOk result (λ n. (s : World) → IsTrue (is_honest_after s (D.events disk.new))
        → Begins (bytes_after s (D.events disk.old)) (take had bytes.old) → Begins (bytes_after s (D.events disk.old)) (take (had + n) bytes.new)) }
    ensures ends { IfOk result (λ n. (s : World) → IsTrue (is_honest_after s (D.events disk.new))
        → had + n < length bytes.new → length (bytes_after s (D.events disk.old)) ≤ had + n) }
    ensures guard { KeepsGuard (D.events disk.old) (D.events disk.new) }
{
    get(disk, file, &mut bytes[had..], had as u64)
}

// Reads the next bytes of a pipe by one call, and returns the number of bytes that were read: 0 at the end.
fn get_some_next<D: Disk>(disk: &mut D, pipe: &mut D::Pipe, bytes: &mut [u8]) -> io::Result<usize>
    ensures bound { ReadsAtMost result bytes.new }
    ensures rests { Rests (D.events disk.old) (D.events disk.new) }
    ensures none { OnOk result ((s : World) → IsTrue (is_honest_after s (D.events disk.new)) → ⊥) }
    ensures guard { KeepsGuard (D.events disk.old) (D.events disk.new) }
{
    for _ in 0..TRIES {
        match disk.read_pipe(pipe, bytes) {
            Err(error) if error.kind() == ErrorKind::Interrupted => {}
            ended => return ended,
        }
    }
    Err(Error::from(ErrorKind::Interrupted))
}

/// Reads the next bytes of a pipe until `bytes` is full, or the pipe ends.
///
/// Returns the number of bytes that were read.
pub(crate) fn get_next<D: Disk>(
    disk: &mut D,
    pipe: &mut D::Pipe,
    bytes: &mut [u8],
) -> io::Result<usize>
    ensures bound { ReadsAtMost result bytes.new }
    ensures rests { Rests (D.events disk.old) (D.events disk.new) }
    ensures none { OnOk result (0 < length bytes.old → (s : World) → IsTrue (is_honest_after s (D.events disk.new)) → ⊥) }
    ensures guard { KeepsGuard (D.events disk.old) (D.events disk.new) }
{
    let mut count = 0;
    while count < bytes.len() {
        let rest = bytes.len() - count;
        let more = get_some_next(disk, pipe, &mut bytes[count..])?;
        if more == 0 {
            break;
        }
        count += more.min(rest);
    }
    Ok(count)
}

/// Returns the length of the file in bytes.
pub(crate) fn measure<D: Disk>(disk: &mut D, file: &D::File) -> io::Result<u64>
    ensures rests { Rests (D.events disk.old) (D.events disk.new) }
    ensures ok { IfOk result (λ n. (s : World) → IsTrue (is_honest_after s (D.events disk.new)) → n ≡ length (bytes_after s (D.events disk.old))) }
    ensures guard { KeepsGuard (D.events disk.old) (D.events disk.new) }
{
    Ok(disk.facts(file)?.length)
}

/// Sets the length of the file.
pub(crate) fn set_length<D: Disk>(disk: &mut D, file: &D::File, length: u64) -> io::Result<()>
    requires { IsTrue (is_guarded (D.events disk.old)) }
    ensures did { DidOr (λ _. Moves (IsSized length) (IsSizedOrNot length)) (Moves (IsSizedOrNot length) (IsSizedOrNot length)) result (D.events disk.old) (D.events disk.new) }
    ensures guard { KeepsGuard (D.events disk.old) (D.events disk.new) }
{
    for _ in 0..TRIES {
        match disk.set_length(file, length) {
            Err(error) if error.kind() == ErrorKind::Interrupted => {}
            ended => return ended,
        }
    }
    Err(Error::from(ErrorKind::Interrupted))
}

/// Returns after the disk has stored all bytes that were written. A sync that a signal interrupted has failed: of what is
/// stored after a sync that failed, a second one says nothing.
pub(crate) fn sync<D: Disk>(disk: &mut D, file: &D::File) -> io::Result<()>
    ensures did { DidOr (λ _. IsSynced) IsUnsynced result (D.events disk.old) (D.events disk.new) }
    ensures guard { KeepsGuard (D.events disk.old) (D.events disk.new) }
{
    disk.sync(file)
}
