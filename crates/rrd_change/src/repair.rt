//! Repairs files that stand for a database under a mark.
ghost use Rattle.std.specs.Prelude.{ℕ, List};
ghost use Rattle.rrd_change.specs.Repairs.{IsCutLeft, IsFound, IsLeft, IsLogFound, IsLogLeft, IsUncut, LogEnd};
ghost use Rattle.rrd_change.specs.States.{IsAtRest, IsLogOf};
ghost use Rattle.rrd_change.specs.Views.{Does, World, seen};

use crate::finding::Mark;
use crate::log::{cut_front, is_database, log_mark};
use crate::writing::{mark_and_sync, resize_and_sync, rewrite_and_sync};
use crate::{Bytes, FoundDatabase, Log, Syncs, unmark};
use std::io::{self, Error, ErrorKind};

/// Cuts a file with a cut mark to the database `new` that it stands for, and removes the mark.
///
/// The first sixteen bytes are written again: the disk may still have the log mark in their place.
///
/// # Errors
///
/// A call of the file failed. The file stands for the same database, and this function repairs it.
pub fn finish_cut<F: Bytes>(file: &mut F, new: &[u8], syncs: Syncs) -> io::Result<()>
    ensures uncut { Does (λ _ (w v : World). (other : List ℕ) → IsUncut other new.now w → IsAtRest new.now v) (λ (w v : World). (other : List ℕ) → IsUncut other new.now w → IsUncut other new.now v) result
        (seen syncs (F.view file.old)) (seen syncs (F.view file.new)) }
    ensures left { Does (λ _ (w v : World). Unit {0}) (λ (w v : World). (end : LogEnd) (other : List ℕ) → IsCutLeft other new.now w → IsLeft end other new.now v) result
        (seen syncs (F.view file.old)) (seen syncs (F.view file.new)) }
{
    if !is_database(new) {
        return Err(Error::from(ErrorKind::InvalidInput));
    }
    mark_and_sync(file, &cut_front(new), syncs)?;
    resize_and_sync(file, new.len(), syncs)?;
    unmark(file, syncs)
}

// Cuts a file to the end of its log, and writes again what programs read of the log: its bytes and at last its mark, with a
// sync after each step. After a kill, or after a sync that failed, the disk may lack any of them. Without syncs there is
// nothing to write again, since nothing is claimed of the disk.
fn restore<F: Bytes>(file: &mut F, log: &Log, syncs: Syncs) -> io::Result<()>
    ensures { Does (λ _ (w v : World). (end : LogEnd) (other now : List ℕ) → IsLogFound end other now log.now w → IsLogOf now log.now v)
        (λ (w v : World). (end : LogEnd) (other now : List ℕ) → IsLogFound end other now log.now w → IsLogLeft end other now v) result
        (seen syncs (F.view file.old)) (seen syncs (F.view file.new)) }
{
    resize_and_sync(file, log.end, syncs)?;
    if syncs == Syncs::Never {
        return Ok(());
    }
    let alloc = *log.spans.allocator();
    rewrite_and_sync(alloc, file, log.tail, log.end, syncs)?;
    mark_and_sync(file, &log_mark(log.tail), syncs)
}

/// Brings the changes of a log into place in a file that has the log, and perhaps other bytes behind it. The file then is the
/// database `new` that it stands for.
///
/// If syncs are wanted, the log is written again before: the disk may lack bytes of it that programs read.
///
/// # Errors
///
/// A call of the file failed. The file stands for the same database, and [`FoundDatabase::repair`] repairs it after it was
/// read again.
pub fn finish_log<F: Bytes>(file: &mut F, log: &Log, new: &[u8], syncs: Syncs) -> io::Result<()>
    ensures { Does (λ _ (w v : World). (end : LogEnd) (other : List ℕ) → IsLogFound end other new.now log.now w → IsAtRest new.now v)
        (λ (w v : World). (end : LogEnd) (other : List ℕ) → IsLogFound end other new.now log.now w → IsLeft end other new.now v) result
        (seen syncs (F.view file.old)) (seen syncs (F.view file.new)) }
{
    restore(file, log, syncs)?;
    log.settle(file, new, syncs)?;
    unmark(file, syncs)
}

impl FoundDatabase {
    ghost use Rattle.std.specs.Prelude.{◌≡◌};
    ghost use Rattle.rrd_change.specs.Found.{database_of};

    /// Repairs the file in which this database was found: afterwards the file is the database. A file that stands for its own
    /// bytes is not written.
    ///
    /// # Errors
    ///
    /// A call of the file failed. Programs still read the same database, and what a kill or a failure of the power leaves of the
    /// file can be read and repaired again. It stands for this database, or for the other one of a change that had stopped
    /// before the disk had all of it.
    pub fn repair<F: Bytes>(&self, file: &mut F, syncs: Syncs) -> io::Result<()>
        ensures { Does (λ _ (w v : World). (end : LogEnd) (other now : List ℕ) → database_of self.now ≡ now → IsFound end other now self.now.mark w → IsAtRest now v)
            (λ (w v : World). (end : LogEnd) (other now : List ℕ) → database_of self.now ≡ now → IsFound end other now self.now.mark w → IsLeft end other now v) result
            (seen syncs (F.view file.old)) (seen syncs (F.view file.new)) }
    {
        match &self.mark {
            Mark::Missing => Ok(()),
            Mark::Cut => finish_cut(file, self.database(), syncs),
            Mark::Log(log) => finish_log(file, log, self.database(), syncs),
        }
    }
}
