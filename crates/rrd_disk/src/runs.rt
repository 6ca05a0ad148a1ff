//! Runs on the file at a path, each with the record of the calls that it made.
ghost use Rattle.std.specs.Prelude.{◌≡◌, [], IsOk};
ghost use Rattle.rrd_change.specs.declared.calls.Syncs.TheVariants.{Ordered};
ghost use Rattle.rrd_disk.specs.Making.{StoresMaking, SurvivesMaking};
ghost use Rattle.rrd_disk.specs.Runs.{IsRun};
ghost use Rattle.rrd_disk.specs.Safe.{StoresRun, SurvivesRun};
ghost use Rattle.rrd_store.specs.Batch.{IsStored};
ghost use Rattle.rrd_store.specs.Runs.{batch_run, command_run};

use crate::laws::file_laws;
use crate::{Disk, FileStorage, Place};
use rrd_store::{FileBatchEnd, Gate, TaskFault, run_file_batch, run_file_command};
use rrd_tool::{Observer, Words};
use std::alloc::Global;
use std::io::{Read, Write};

/// The end of a run, and the system with the record of the calls on the file.
#[derive(Drop)]
pub struct FileRun<D: Disk, E> {
    /// The end of the run.
    pub end: E,
    /// The system, whose record has each call on the file.
    pub disk: D,
}

/// Runs one command on the database in a file, as [`run_file_command`] does on any storage, and closes the file.
///
/// Theorem: if the record of the calls is that of an honest file that nobody else wrote, the run does to the file what the
/// definitions say, and prints their text. And if the run syncs: whatever a failure of the power leaves after its last call
/// stands for the database before the run or for that after it; and a change that ended well is stored.
///
/// The clauses `making` and `made` say the same where there was no database, as when a create makes the file or replaces a
/// damaged one: then the power leaves the new database or none, and after a run that ended well, the new one. They ask that the
/// disk had nothing else of the file, and do not say that it has the name of a new one: that takes a flush of the directory.
/// Where such a run failed or was killed, programs may find a database that the disk lacks. Of a later run on that file these
/// clauses say nothing, unless the power fails before.
pub fn run_command_at<D: Disk, W: Write, V: Observer>(
    alloc: Global,
    disk: D,
    place: Place<'_>,
    words: &Words<'_>,
    now: u64,
    out: &mut W,
    observer: &V,
) -> FileRun<D, Result<(), TaskFault>>
    requires { D.events disk ≡ [] }
    ensures run { IsRun (D.events result.disk)
        (command_run words.now now (W.contents out.old) (W.contents out.new) result.end) }
    ensures power { place.entry.settings.syncs ≡ Ordered → SurvivesRun (D.events result.disk)
        (command_run words.now now (W.contents out.old) (W.contents out.new) result.end) }
    ensures stored { place.entry.settings.syncs ≡ Ordered → IsOk result.end → StoresRun (D.events result.disk)
        (command_run words.now now (W.contents out.old) (W.contents out.new) result.end) }
    ensures making { place.entry.settings.syncs ≡ Ordered → SurvivesMaking (D.events result.disk)
        (command_run words.now now (W.contents out.old) (W.contents out.new) result.end) }
    ensures made { place.entry.settings.syncs ≡ Ordered → IsOk result.end → StoresMaking (D.events result.disk)
        (command_run words.now now (W.contents out.old) (W.contents out.new) result.end) }
{
    file_laws();
    let mut storage = FileStorage::new(disk, place);
    let end = run_file_command(alloc, words, now, &mut storage, out, observer);
    FileRun {
        end,
        disk: storage.into_disk(),
    }
}

/// Runs each line of `reader` on the database in a file, as [`run_file_batch`] does on any storage, and closes the file.
/// If `gate` does not allow the write, the batch ends as after a failed write.
///
/// Theorem: as for [`run_command_at`].
pub fn run_batch_at<D: Disk, R: Read, W: Write, G: Gate>(
    alloc: Global,
    disk: D,
    place: Place<'_>,
    now: u64,
    numbered: usize,
    reader: &mut R,
    out: &mut W,
    gate: &G,
) -> FileRun<D, Result<FileBatchEnd, TaskFault>>
    requires { D.events disk ≡ [] }
    ensures run { IsRun (D.events result.disk)
        (batch_run now numbered (R.remaining reader.old) (R.remaining reader.new)
        (W.contents out.old) (W.contents out.new) result.end) }
    ensures power { place.entry.settings.syncs ≡ Ordered → SurvivesRun (D.events result.disk)
        (batch_run now numbered (R.remaining reader.old) (R.remaining reader.new)
        (W.contents out.old) (W.contents out.new) result.end) }
    ensures stored { place.entry.settings.syncs ≡ Ordered → IsStored result.end → StoresRun (D.events result.disk)
        (batch_run now numbered (R.remaining reader.old) (R.remaining reader.new)
        (W.contents out.old) (W.contents out.new) result.end) }
    ensures making { place.entry.settings.syncs ≡ Ordered → SurvivesMaking (D.events result.disk)
        (batch_run now numbered (R.remaining reader.old) (R.remaining reader.new)
        (W.contents out.old) (W.contents out.new) result.end) }
    ensures made { place.entry.settings.syncs ≡ Ordered → IsStored result.end → StoresMaking (D.events result.disk)
        (batch_run now numbered (R.remaining reader.old) (R.remaining reader.new)
        (W.contents out.old) (W.contents out.new) result.end) }
{
    file_laws();
    let mut storage = FileStorage::new(disk, place);
    let end = run_file_batch(alloc, now, numbered, &mut storage, reader, out, gate);
    FileRun {
        end,
        disk: storage.into_disk(),
    }
}
