//! Prepares files whose database is replaced without being loaded: a change that was interrupted is ended first.
ghost use Rattle.std.specs.Prelude.{◌≡◌, ◌≤◌, IfNone, IfOk, IfSome, List, Option, length, take};
ghost use Rattle.rrd_disk.specs.Calls.{Falls, Rests};
ghost use Rattle.rrd_disk.specs.Storing.{HasNoDatabase, IsBased, Prepares, PreparesMarked};
ghost use Rattle.rrd_disk.specs.Making.{StaysUnmarked};
ghost use Rattle.rrd_disk.specs.Surviving.{DoesOr, Readies, StaysLeft};

use crate::file_bytes::FileBytes;
use crate::laws::file_laws;
use crate::loading::{find_standing, is_of_bytes, load};
use crate::{Cause, Disk, Syncs};
use rrd_change::Base;
use rrd_file::FileFault;
use rrd_file::laws::one_answer;
use rrd_store::TaskFault;
use std::alloc::Global;
use std::io::{self, Error, ErrorKind};

/// Returns how a database begins.
pub(crate) fn base_of(bytes: &[u8]) -> Base
    requires { 16 ≤ length bytes.now }
    ensures { result ≡ record { length = length bytes.now; first = take 16 bytes.now } }
{
    let mut first = [0; 16];
    first.copy_from_slice(&bytes[..16]);
    Base {
        length: bytes.len(),
        first,
    }
}

// Returns why a file could not be read.
fn error_of(fault: &TaskFault, cause: &Cause) -> Error {
    match (fault, cause.last()) {
        (TaskFault::File(FileFault::OutOfMemory), _) => Error::from(ErrorKind::OutOfMemory),
        (_, Some(error)) => error,
        (_, None) => Error::from(ErrorKind::Other),
    }
}

// Returns how the database of a file without a mark begins, or `None` if it has none.
#[tactic(auto, using(crate::proofs::Resting::rests_refl, crate::proofs::Resting::rests_trans))]
fn find_base<D: Disk>(
    alloc: Global,
    file: &mut FileBytes<D>,
    cause: &Cause,
) -> io::Result<Option<Base>>
    ensures rests { Rests (D.events file.old.disk) (D.events file.new.disk) }
    ensures some { IfOk result (λ found. IfSome found (λ base. IsBased base (D.events file.new.disk))) }
    ensures none { IfOk result (λ found. IfNone found (HasNoDatabase (D.events file.new.disk))) }
{
    one_answer();
    match load(alloc, file, cause) {
        Ok(_) => match file.base() {
            Some(base) => Ok(Some(base)),
            None => Err(Error::from(ErrorKind::Other)),
        },
        Err(fault) if is_of_bytes(&fault) => Ok(None),
        Err(fault) => Err(error_of(&fault, cause)),
    }
}

/// Repairs a file with a mark. Returns how its database begins, or `None` if it has none: then the mark is that of another
/// program, or a forged one.
pub(crate) fn prepare_marked<D: Disk>(
    alloc: Global,
    file: &mut FileBytes<D>,
    cause: &Cause,
    syncs: Syncs,
) -> io::Result<Option<Base>>
    ensures falls { Falls (D.events file.old.disk) (D.events file.new.disk) }
    ensures prepares { PreparesMarked (D.events file.old.disk) (D.events file.new.disk) result }
    ensures power { DoesOr Readies StaysLeft result syncs (D.events file.old.disk) (D.events file.new.disk) }
{
    file_laws();
    one_answer();
    match find_standing(alloc, file, cause) {
        Ok(standing) => {
            standing.found.repair(file, syncs)?;
            Ok(Some(base_of(standing.found.database())))
        }
        Err(fault) if is_of_bytes(&fault) => Ok(None),
        Err(fault) => Err(error_of(&fault, cause)),
    }
}

/// Prepares an open file, whose database was not loaded, to be replaced. Returns how its database begins, or `None` if it has
/// none.
///
/// # Errors
///
/// A call failed, or memory ran out. The file stands for the same database.
pub(crate) fn prepare<D: Disk>(
    alloc: Global,
    file: &mut FileBytes<D>,
    cause: &Cause,
    syncs: Syncs,
) -> io::Result<Option<Base>>
    ensures falls { Falls (D.events file.old.disk) (D.events file.new.disk) }
    ensures prepares { Prepares (D.events file.old.disk) (D.events file.new.disk) result }
    ensures power { DoesOr Readies StaysLeft result syncs (D.events file.old.disk) (D.events file.new.disk) }
    ensures unmarked { StaysUnmarked (D.events file.old.disk) (D.events file.new.disk) }
{
    file_laws();
    if file.is_marked()? {
        prepare_marked(alloc, file, cause, syncs)
    } else {
        find_base(alloc, file, cause)
    }
}
