//! Calls of a file that are taken up again where they were cut short, and followed by a sync.
ghost use Rattle.std.specs.Prelude.{◌+◌, ◌<◌, ◌≤◌, ◌^◌, ◌%◌, length, max};
ghost use Rattle.rrd_change.specs.Calls.{AreAny, ArePut, AreWholeOrNot, IsCut, IsSized, IsSizedOrNot, IsTorn};
ghost use Rattle.rrd_change.specs.Views.{Does, Fails, FailsToRestore, IsSynced, IsUnsynced, Moves, Restores, Stores, StoresAgain, seen};
ghost use Rattle.rrd_change.specs.declared.calls.Syncs.{Syncs};

use crate::{Bytes, Syncs};
use std::alloc::Global;
use std::io::{self, Error, ErrorKind};

// The number of bytes of a sector.
const SECTOR: usize = 512;

/// Syncs a file, if that is wanted.
pub(crate) fn flush<F: Bytes>(file: &mut F, syncs: Syncs) -> io::Result<()>
    ensures { Does (λ _. IsSynced) IsUnsynced result (seen syncs (F.view file.old)) (seen syncs (F.view file.new)) }
{
    match syncs {
        Syncs::Ordered => file.sync(),
        Syncs::Never => Ok(()),
    }
}

/// Writes all of these bytes: a write that was cut short is taken up again.
pub(crate) fn write_all<F: Bytes>(
    file: &mut F,
    at: usize,
    bytes: &[u8],
    syncs: Syncs,
) -> io::Result<()>
    requires some { 0 < length bytes.now }
    requires fits { at + length bytes.now < 2 ^ 64 }
    ensures { Does (λ _. Moves (ArePut at bytes.now) (AreAny at (length bytes.now))) (Moves (IsCut at bytes.now) (AreAny at (length bytes.now))) result
        (seen syncs (F.view file.old)) (seen syncs (F.view file.new)) }
{
    let mut done = 0;
    while done < bytes.len() {
        let count = file.write(at + done, &bytes[done..])?;
        if count == 0 {
            return Err(Error::from(ErrorKind::WriteZero));
        }
        done += count;
    }
    Ok(())
}

/// Writes bytes, and then syncs the file.
pub(crate) fn write_and_sync<F: Bytes>(
    file: &mut F,
    at: usize,
    bytes: &[u8],
    syncs: Syncs,
) -> io::Result<()>
    requires some { 0 < length bytes.now }
    requires fits { at + length bytes.now < 2 ^ 64 }
    ensures { Does (λ _. Stores (ArePut at bytes.now)) (Fails (IsCut at bytes.now) (AreAny at (length bytes.now))) result (seen syncs (F.view file.old)) (seen syncs (F.view file.new)) }
{
    write_all(file, at, bytes, syncs)?;
    flush(file, syncs)
}

/// Writes the first bytes of a file, and then syncs the file.
pub(crate) fn mark_and_sync<F: Bytes>(file: &mut F, front: &[u8], syncs: Syncs) -> io::Result<()>
    requires { length front.now ≤ 16 }
    ensures { Does (λ _. Stores (ArePut 0 front.now)) (Fails (AreWholeOrNot 0 front.now) (IsTorn 0 front.now)) result (seen syncs (F.view file.old)) (seen syncs (F.view file.new)) }
{
    file.write_whole(0, front)?;
    flush(file, syncs)
}

/// Sets the length of a file, and then syncs the file.
pub(crate) fn resize_and_sync<F: Bytes>(file: &mut F, count: usize, syncs: Syncs) -> io::Result<()>
    ensures { Does (λ _. Stores (IsSized count)) (Fails (IsSizedOrNot count) (IsSizedOrNot count)) result (seen syncs (F.view file.old)) (seen syncs (F.view file.new)) }
{
    file.set_len(count)?;
    flush(file, syncs)
}

// Writes so many bytes of one sector again, as programs read them.
fn rewrite<F: Bytes>(
    file: &mut F,
    at: usize,
    count: usize,
    buffer: &mut Vec<u8>,
    syncs: Syncs,
) -> io::Result<()>
    requires { at % 512 + count ≤ 512 }
    ensures { Does (λ _. Restores at (at + count)) (FailsToRestore at (at + count)) result (seen syncs (F.view file.old)) (seen syncs (F.view file.new)) }
{
    file.read(at, count, buffer)?;
    if buffer.len() != count {
        return Err(Error::from(ErrorKind::UnexpectedEof));
    }
    file.write_whole(at, buffer)
}

/// Writes bytes of a file again from one offset up to another, as programs read them, and then syncs the file. A kill or a
/// failure of the power leaves each sector on the disk as it was, or as programs read it.
pub(crate) fn rewrite_and_sync<F: Bytes>(
    alloc: Global,
    file: &mut F,
    from: usize,
    end: usize,
    syncs: Syncs,
) -> io::Result<()>
    ensures { Does (λ _. StoresAgain from (max from end)) (FailsToRestore from (max from end)) result (seen syncs (F.view file.old)) (seen syncs (F.view file.new)) }
{
    let mut buffer = Vec::new(alloc);
    let mut at = from;
    while at < end {
        let count = (end - at).min(SECTOR - at % SECTOR);
        rewrite(file, at, count, &mut buffer, syncs)?;
        at += count;
    }
    flush(file, syncs)
}
