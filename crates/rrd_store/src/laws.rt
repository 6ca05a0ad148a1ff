//! Theorems about the tasks. Each is the contract of a function that does nothing.
//!
//! The module is public only for readers of the contracts: no other crate calls these functions.
ghost use Rattle.std.specs.Prelude.{ℕ, List, Option};
ghost use Rattle.rrd_spec.specs.Journal.Survivors.{Stored};
ghost use Rattle.rrd_store.specs.Storages.{Held};
ghost use Rattle.rrd_store.specs.Commits.{CommittedAlone};
ghost use Rattle.rrd_store.specs.Runs as laws;
ghost use Rattle.rrd_store.specs.declared.faults.TaskFault.{TaskFault};

use rrd_file::laws::{file_is_layout, layout_is_file, one_answer, sizes};
use rrd_spec::laws::{
    action_goes_on, created_is_valid, database_begins, database_stays, versions_stay_within,
};

/// Theorem: after any list of runs on one file, the bytes of the file and all printed text are what the definitions compute.
///
/// A run is a batch or a single command, with any outcome of memory, with failed writes, and with kills between the runs.
/// The definitions compute from the accepted commands that were not reverted, the number of commands that can still be
/// reverted, and the database of the first file with its journal. A write that failed leaves the file of the state before
/// the run or after the run; or, if there was no database, bytes that are not a database, which stay until a create. So
/// does a killed run. The clause `each` says the same of one run on any file.
pub fn runs_follow_specification()
    ensures all { (old : Held) (first : Option Stored) (events : List laws.Event) (new : Held) →
        laws.RunsFollowSpecification old first events new }
    ensures each { (old : Held) (t : laws.Standing) (event : laws.Event) (new : Held) →
        laws.RunIsComputed old t event new }
{
    action_goes_on();
    created_is_valid();
    database_begins();
    database_stays();
    file_is_layout();
    layout_is_file();
    one_answer();
    sizes();
    versions_stay_within();
}

/// Theorem: after any list of runs that were accepted, refused, failed or killed, the definitions compute the last state from the
/// first by those alone that committed.
///
/// A run that ended well committed. One that ended with `cannot write`, or was killed, committed or did not; any other changed
/// nothing.
pub fn committed_runs_lead_alone()
    ensures { (t : laws.Standing) (events : List laws.Event) (t1 : laws.Standing) → CommittedAlone t events t1 }
{}

/// Theorem: a run that ends with a fault of the command or of the file leaves the file as it was, whatever the file is,
/// except if the fault is that the file could not be written.
pub fn errors_change_nothing()
    ensures { (old : Held) (run : laws.Run) (fault : TaskFault) (new : Held) →
        laws.FaultChangesNothing old run fault new }
{}

/// Theorem: a file that was cut short stays as it is: a batch on the file, and each command except a create, is
/// refused at the byte at which the file ends, and prints nothing.
pub fn damaged_files_stay()
    ensures { (front : List ℕ) (kept : laws.Filing) (run : laws.Run) (new : Held) →
        laws.DamagedFileStays front kept run new }
{
    layout_is_file();
    one_answer();
    sizes();
}
