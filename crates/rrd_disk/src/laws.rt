//! Theorems about the runs on a file. Each is the contract of a function that does nothing, except
//! [`changes_survive_power_failures`]: its body is a part of the theorem, since one that makes no call would keep most of
//! the contract too.
//!
//! The module is public only for readers of the contracts: no other crate calls these functions.
ghost use Rattle.std.specs.Prelude.{◌≡◌, ◌++◌, ℕ, Bool, IsTrue, List, [], OnOk, Option};
ghost use Rattle.rrd_disk.specs.Events.{Event};
ghost use Rattle.rrd_disk.specs.Kills.{are_failed, interrupted};
ghost use Rattle.rrd_disk.specs.Making.{SurvivesMaking, SurvivesMakingFailure};
ghost use Rattle.rrd_disk.specs.OpenRuns.{OpenFilesFollowSpecification, RecordedOpen};
ghost use Rattle.rrd_disk.specs.Programs.{CommittedRunsStand, Program, ProgramsFollowSpecification};
ghost use Rattle.rrd_disk.specs.Replayed.{World};
ghost use Rattle.rrd_disk.specs.Runs.{FilesFollowSpecification, Recorded};
ghost use Rattle.rrd_disk.specs.Storing.{Laws};
ghost use Rattle.rrd_disk.specs.Power.{world_after};
ghost use Rattle.rrd_disk.specs.Safe.{IsSafeOpen, SurvivesRun};
ghost use Rattle.rrd_disk.specs.Surviving.{IsChange, IsChanged, IsMade, IsMaking, SurvivesFailure, SurvivesPower};
ghost use Rattle.rrd_disk.specs.declared.storage.Found.{Found};
ghost use Rattle.rrd_change.specs.declared.calls.Syncs.{Syncs};
ghost use Rattle.rrd_disk.specs.Told.{Call, HonestRecordsExist};
ghost use Rattle.rrd_spec.specs.Journal.Survivors.{Stored};
ghost use Rattle.rrd_store.specs.Runs.{Run};
ghost use Rattle.rrd_store.specs.Storages.{Held, IsAnyFile};
ghost use Rattle.rrd_change.specs.declared.calls.Syncs.TheVariants.{Ordered};

use crate::{Disk, FileRun, FileStorage, Killed, Location};
use rrd_change::laws::represented_stand;
use rrd_file::Span;
use rrd_file::laws::{ends_are_found, file_begins};
use rrd_store::laws::{committed_runs_lead_alone, runs_follow_specification};
use std::io;

// Theorem: what is so of the files of databases, and of files that stand for them.
pub(crate) fn file_laws()
    ensures { Laws }
{
    file_begins();
    ends_are_found();
    represented_stand();
}

/// Theorem: after any list of runs on one file, the bytes that the file represents and all printed text are what the
/// definitions compute.
///
/// Each run is one by [`crate::run_command_at`] or [`crate::run_batch_at`], with the record of its calls on the file; or
/// it was killed, as by [`crate::run_command_killed`] or [`crate::run_batch_killed`], and the record has the calls
/// before the kill, and the call that the kill interrupted. A killed change was done or not done. The records are those
/// of an honest file that was missing or had a database before the first run, and that nobody else wrote. Any call of a
/// run may have failed, and a write that failed may have written a first part of its bytes.
pub fn files_follow_specification()
    ensures { (start : Held) (first : Option Stored) (recorded : List Recorded) →
        FilesFollowSpecification start first recorded }
{
    file_laws();
    runs_follow_specification();
}

/// Theorem: after any list of runs on a file that stays open, the bytes that the file represents and all printed text are
/// what the definitions compute.
///
/// Each run is one by [`crate::OpenFile::run`] or [`crate::OpenFile::run_batch`], with the record of all calls on the file
/// since it was opened. The premises are those of [`files_follow_specification`].
pub fn open_files_follow_specification()
    ensures { (w : World) (first : Option Stored) (opened : List Event) (recorded : List RecordedOpen) →
        OpenFilesFollowSpecification w first opened recorded }
{
    file_laws();
    runs_follow_specification();
}

/// Theorem: after any list of programs that used one file, the bytes that the file represents and all printed text are what
/// the definitions compute. What a run acknowledged stands, whenever a later one was killed.
///
/// Each program ran once on the path of the file, as in [`files_follow_specification`]; or it kept the file open, as in
/// [`open_files_follow_specification`], and closed it or was killed: as by [`crate::open_killed`],
/// [`crate::load_open_killed`], [`crate::run_open_killed`], [`crate::run_request_killed`], [`crate::run_lines_killed`] or
/// [`crate::close_killed`]. A killed change was done or not done. The premises are those of [`files_follow_specification`].
pub fn programs_follow_specification()
    ensures { (start : Held) (first : Option Stored) (programs : List Program) →
        ProgramsFollowSpecification start first programs }
{
    file_laws();
    runs_follow_specification();
}

/// Theorem: after any list of programs whose runs were accepted, refused, failed or killed, the file stands for what the
/// definitions compute from the runs that committed, and from no other.
///
/// A run that ended well committed. One that ended with `cannot write`, or was killed, committed or did not; any other changed
/// nothing. The premises are those of [`programs_follow_specification`].
pub fn committed_runs_stand()
    ensures { (start : Held) (first : Option Stored) (programs : List Program) → CommittedRunsStand start first programs }
{
    file_laws();
    runs_follow_specification();
    committed_runs_lead_alone();
}

/// Theorem: the records that the theorems ask for exist. From each file, a file that does what it is told answers any calls
/// of a run by answers that are honest.
pub fn honest_records_exist()
    ensures { (start : Held) (calls : List Call) → HonestRecordsExist start calls }
{}

/// Theorem: power failures. If the power fails while the database of a file is replaced, by a storage that syncs, whatever
/// the disk then has represents the old bytes or the new ones; and a change that ended without an error is stored.
///
/// The power fails after `calls` calls on the file, in the next one, which may have done nothing. The record is that of an
/// honest file that nobody else wrote. Before the run the file stands for a database, and the disk may have other bytes
/// than the file, as kills and failed calls of a change leave them: what holds of the databases that they stand for, and of
/// the new bytes, holds of all that the power may leave. The premises about the disk are those of `AreTorn`,
/// `IsSizedOrNot` and `Tells`, and that a sync that ends well stores what was written since the last one that failed.
///
/// The clauses `making` and `made` say the same of a file that was missing: whatever the disk then has stands for the new bytes,
/// or for no database, and if the call ended without an error, for the new bytes.
pub fn changes_survive_power_failures<D: Disk, L: Location>(
    disk: D,
    calls: u64,
    place: L,
    bytes: &[u8],
) -> FileRun<Killed<D>, io::Result<()>>
    requires file { IsAnyFile bytes.now }
    requires begun { D.events disk ≡ [] }
    requires syncs { L.syncs place ≡ Ordered }
    ensures left { IsChange bytes.now (interrupted result.disk.missed.events ++ D.events result.disk.system) }
    ensures stored { OnOk result.end (IsChanged bytes.now (result.disk.missed.events ++ D.events result.disk.system)) }
    ensures making { IsMaking bytes.now (interrupted result.disk.missed.events ++ D.events result.disk.system) }
    ensures made { OnOk result.end (IsMade bytes.now (result.disk.missed.events ++ D.events result.disk.system)) }
{
    file_laws();
    let killed = Killed::new(disk, calls);
    let mut storage = FileStorage::new(killed, place);
    let all = [Span {
        start: 0,
        end: bytes.len(),
    }];
    let end = storage.write(bytes, &all);
    FileRun {
        end,
        disk: storage.into_disk(),
    }
}

/// Theorem: what survived until the power failed is what the next run finds.
///
/// After a failure the file has what the disk has, and nothing else is left to store.
pub fn power_failures_are_survived()
    ensures { (P : List ℕ → Bool) (d : List ℕ) (w : World) (events : List Event) → SurvivesFailure P d w events }
{
    file_laws();
}

/// Theorem: what survived a run that makes a file, until the power failed, is what the next run finds: a database, as
/// [`power_failures_are_survived`] says; or none, as the clauses `making` of [`crate::run_command_at`] ask of their first file.
pub fn makings_are_survived()
    ensures { (P : List ℕ → Bool) (d : List ℕ) (w : World) (events : List Event) → SurvivesMakingFailure P d w events }
{
    file_laws();
}

/// Theorem: power failures of open files. What survives in an open file between two runs that sync, as [`crate::OpenFile`]
/// ensures, is what a failure of the power leaves.
pub fn open_files_survive_power_failures()
    ensures { (P : List ℕ → Bool) (d : List ℕ) (w : World) (syncs : Syncs) (found : Found) (events : List Event) →
        IsSafeOpen syncs found events P d w → SurvivesPower (λ b. IsTrue (P b)) (world_after d w events) }
{
    file_laws();
}

/// Theorem: if the power fails in a call of a run, the file has what it has when this call and all later ones fail.
///
/// `missed` are the calls that the run would have made from then on, and that all failed.
pub fn power_fails_in_a_call()
    ensures power { (missed events : List Event) (run : Run) → IsTrue (are_failed missed)
        → SurvivesRun (missed ++ events) run → SurvivesRun (interrupted missed ++ events) run }
    ensures making { (missed events : List Event) (run : Run) → IsTrue (are_failed missed)
        → SurvivesMaking (missed ++ events) run → SurvivesMaking (interrupted missed ++ events) run }
{
    file_laws();
}
