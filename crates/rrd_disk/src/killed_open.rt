//! Programs that keep a file open, and are killed.
//!
//! The functions are those of [`OpenFile`] on a [`Killed`] system, which counts the calls of all runs since the file was
//! opened. Each is a theorem about the call in which the program is killed: before it nothing was missed.
ghost use Rattle.std.specs.Prelude.{◌≡◌, ◌++◌, []};
ghost use Rattle.rrd_disk.specs.Kills.{interrupted};
ghost use Rattle.rrd_disk.specs.OpenRuns.{IsKept};
ghost use Rattle.rrd_disk.specs.Programs.{IsKilledOpenRun, IsLeaving};
ghost use Rattle.rrd_disk.specs.Safe.{SurvivesInOpenRun, SurvivesMeanwhile};
ghost use Rattle.rrd_disk.specs.declared.storage.Found.TheVariants.{Unopened};
ghost use Rattle.rrd_store.specs.Runs.{batch_run, command_run, request_run};

use crate::laws::file_laws;
use crate::{Disk, Killed, OpenFile, OwnPlace};
use rrd_store::{FileBatchEnd, Gate, TaskFault};
use rrd_tool::{Command, Words};
use std::alloc::Global;
use std::io::{Read, Write};

/// Opens a file as [`OpenFile::open`] does, but kills the program in the call on the file that follows `calls` others.
/// Returns the file even if it could not be opened.
///
/// Theorem: if the record is that of an honest file that nobody else wrote, the file represents what it represented. And if the
/// program syncs, and the power fails in place of the kill, whatever the disk has then stands for what the file and the disk stood
/// for before.
pub fn open_killed<D: Disk + Drop>(
    alloc: Global,
    disk: D,
    calls: u64,
    place: OwnPlace,
) -> (OpenFile<Killed<D>>, Result<(), TaskFault>)
    requires { D.events disk ≡ [] }
    ensures kept { IsKept result.0.session.storage.found
        (result.0.session.storage.bytes.disk.missed.events ++ D.events result.0.session.storage.bytes.disk.system)
        result.0.session.database result.0.session.encoded }
    ensures left { IsLeaving []
        (interrupted result.0.session.storage.bytes.disk.missed.events ++ D.events result.0.session.storage.bytes.disk.system) }
    ensures power { SurvivesMeanwhile place.settings.syncs Unopened []
        (interrupted result.0.session.storage.bytes.disk.missed.events ++ D.events result.0.session.storage.bytes.disk.system) }
{
    file_laws();
    let mut file = OpenFile::unopened(Killed::new(disk, calls), place);
    let end = file.load(alloc);
    (file, end)
}

/// Reads the database of an open file as [`OpenFile::load`] does. The program may be killed meanwhile.
///
/// Theorem: as for [`open_killed`].
pub fn load_open_killed<D: Disk + Drop>(
    alloc: Global,
    file: &mut OpenFile<Killed<D>>,
) -> Result<(), TaskFault>
    requires alive { file.old.session.storage.bytes.disk.missed.events ≡ [] }
    requires kept { IsKept file.old.session.storage.found (D.events file.old.session.storage.bytes.disk.system)
        file.old.session.database file.old.session.encoded }
    ensures kept { IsKept file.new.session.storage.found
        (file.new.session.storage.bytes.disk.missed.events ++ D.events file.new.session.storage.bytes.disk.system)
        file.new.session.database file.new.session.encoded }
    ensures left { IsLeaving (D.events file.old.session.storage.bytes.disk.system)
        (interrupted file.new.session.storage.bytes.disk.missed.events ++ D.events file.new.session.storage.bytes.disk.system) }
    ensures power { SurvivesMeanwhile file.old.session.storage.place.settings.syncs file.old.session.storage.found
        (D.events file.old.session.storage.bytes.disk.system)
        (interrupted file.new.session.storage.bytes.disk.missed.events ++ D.events file.new.session.storage.bytes.disk.system) }
{
    file_laws();
    file.load(alloc)
}

/// Runs one command on an open file as [`OpenFile::run`] does. The program may be killed meanwhile.
///
/// The end and the text are those of a run whose later calls all fail: of a killed run nobody sees them.
///
/// Theorem: if the record is that of an honest file that nobody else wrote, the file represents what it represented
/// before the run, or what the definitions say of an accepted command. A write that the kill interrupted may have written a
/// first part of its bytes, as for [`crate::run_command_killed`]. And if the run syncs, and the power fails in place of the
/// kill, whatever the disk has then stands for the one or for the other. The body is a part of the theorem: one that makes no call on
/// the file, and fails, would keep the contract too.
pub fn run_open_killed<D: Disk + Drop, W: Write>(
    alloc: Global,
    file: &mut OpenFile<Killed<D>>,
    words: &Words<'_>,
    now: u64,
    out: &mut W,
) -> Result<(), TaskFault>
    requires alive { file.old.session.storage.bytes.disk.missed.events ≡ [] }
    requires kept { IsKept file.old.session.storage.found (D.events file.old.session.storage.bytes.disk.system)
        file.old.session.database file.old.session.encoded }
    ensures kept { IsKept file.new.session.storage.found
        (file.new.session.storage.bytes.disk.missed.events ++ D.events file.new.session.storage.bytes.disk.system)
        file.new.session.database file.new.session.encoded }
    ensures killed { IsKilledOpenRun (D.events file.old.session.storage.bytes.disk.system)
        (interrupted file.new.session.storage.bytes.disk.missed.events ++ D.events file.new.session.storage.bytes.disk.system)
        (command_run words.now now (W.contents out.old) (W.contents out.new) result) }
    ensures power { SurvivesInOpenRun file.old.session.storage.place.settings.syncs file.old.session.storage.found
        (D.events file.old.session.storage.bytes.disk.system)
        (interrupted file.new.session.storage.bytes.disk.missed.events ++ D.events file.new.session.storage.bytes.disk.system)
        (command_run words.now now (W.contents out.old) (W.contents out.new) result) }
{
    file_laws();
    file.run(alloc, words, now, out)
}

/// Runs one command that was not read from words, as [`OpenFile::run_command`] does. The program may be killed meanwhile.
///
/// Theorem: as for [`run_open_killed`].
pub fn run_request_killed<D: Disk + Drop, W: Write>(
    alloc: Global,
    file: &mut OpenFile<Killed<D>>,
    command: Command,
    out: &mut W,
) -> Result<(), TaskFault>
    requires alive { file.old.session.storage.bytes.disk.missed.events ≡ [] }
    requires kept { IsKept file.old.session.storage.found (D.events file.old.session.storage.bytes.disk.system)
        file.old.session.database file.old.session.encoded }
    ensures kept { IsKept file.new.session.storage.found
        (file.new.session.storage.bytes.disk.missed.events ++ D.events file.new.session.storage.bytes.disk.system)
        file.new.session.database file.new.session.encoded }
    ensures killed { IsKilledOpenRun (D.events file.old.session.storage.bytes.disk.system)
        (interrupted file.new.session.storage.bytes.disk.missed.events ++ D.events file.new.session.storage.bytes.disk.system)
        (request_run command (W.contents out.old) (W.contents out.new) result) }
    ensures power { SurvivesInOpenRun file.old.session.storage.place.settings.syncs file.old.session.storage.found
        (D.events file.old.session.storage.bytes.disk.system)
        (interrupted file.new.session.storage.bytes.disk.missed.events ++ D.events file.new.session.storage.bytes.disk.system)
        (request_run command (W.contents out.old) (W.contents out.new) result) }
{
    file_laws();
    file.run_command(alloc, command, out)
}

/// Runs each line of `reader` on an open file, as [`OpenFile::run_batch`] does. The program may be killed meanwhile.
///
/// Theorem: as for [`run_open_killed`]. The file has the changes of all lines, or of none.
pub fn run_lines_killed<D: Disk + Drop, R: Read, W: Write, G: Gate>(
    alloc: Global,
    file: &mut OpenFile<Killed<D>>,
    now: u64,
    numbered: usize,
    reader: &mut R,
    out: &mut W,
    gate: &G,
) -> Result<FileBatchEnd, TaskFault>
    requires alive { file.old.session.storage.bytes.disk.missed.events ≡ [] }
    requires kept { IsKept file.old.session.storage.found (D.events file.old.session.storage.bytes.disk.system)
        file.old.session.database file.old.session.encoded }
    ensures kept { IsKept file.new.session.storage.found
        (file.new.session.storage.bytes.disk.missed.events ++ D.events file.new.session.storage.bytes.disk.system)
        file.new.session.database file.new.session.encoded }
    ensures killed { IsKilledOpenRun (D.events file.old.session.storage.bytes.disk.system)
        (interrupted file.new.session.storage.bytes.disk.missed.events ++ D.events file.new.session.storage.bytes.disk.system)
        (batch_run now numbered (R.remaining reader.old) (R.remaining reader.new)
        (W.contents out.old) (W.contents out.new) result) }
    ensures power { SurvivesInOpenRun file.old.session.storage.place.settings.syncs file.old.session.storage.found
        (D.events file.old.session.storage.bytes.disk.system)
        (interrupted file.new.session.storage.bytes.disk.missed.events ++ D.events file.new.session.storage.bytes.disk.system)
        (batch_run now numbered (R.remaining reader.old) (R.remaining reader.new)
        (W.contents out.old) (W.contents out.new) result) }
{
    file_laws();
    file.run_batch(alloc, now, numbered, reader, out, gate)
}

/// Closes a file as [`OpenFile::close`] does. The program may be killed meanwhile.
///
/// Theorem: as for [`open_killed`].
pub fn close_killed<D: Disk + Drop>(file: OpenFile<Killed<D>>) -> Killed<D>
    requires alive { file.session.storage.bytes.disk.missed.events ≡ [] }
    requires kept { IsKept file.session.storage.found (D.events file.session.storage.bytes.disk.system)
        file.session.database file.session.encoded }
    ensures left { IsLeaving (D.events file.session.storage.bytes.disk.system)
        (interrupted result.missed.events ++ D.events result.system) }
    ensures power { SurvivesMeanwhile file.session.storage.place.settings.syncs file.session.storage.found
        (D.events file.session.storage.bytes.disk.system) (interrupted result.missed.events ++ D.events result.system) }
{
    file_laws();
    file.close()
}
