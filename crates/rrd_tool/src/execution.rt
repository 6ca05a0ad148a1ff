//! Runs commands.
ghost use Rattle.std.specs.Prelude.{◌≡◌, ℕ, List, Option, Some, None};
ghost use Rattle.rrd_tool.specs.Names.{State, Writes};
ghost use Rattle.rrd_tool.specs.Words.{Executes, PrintsSome, RunsOn, Prints, StandsFor};

use crate::commands::{run, run_without};
use crate::{Command, Fault};
use rrd_base::{Database, Refusal};
use rrd_fixed::WriteFault;
use rrd_spec::laws;
use std::alloc::Global;
use std::io::Write;

/// The outcome of a command.
#[derive(Drop)]
pub enum Outcome {
    /// The command prints, and succeeded: its text was written. The database is unchanged.
    Printed(Database),
    /// The command succeeded, and changed or created the database. It prints nothing.
    Changed(Database),
    /// The command failed, and the database is unchanged; or `Output`: the command was done, but a write of its text
    /// failed.
    Refused {
        database: Option<Database>,
        fault: Fault,
    },
}

impl Outcome {
    ghost use Rattle.std.specs.Prelude.{◌≡◌, IfErr, IfOk, List, Option, Some, ℕ};

    /// Returns the outcome of a command that prints.
    pub(crate) fn of_text(database: Database, written: Result<(), WriteFault>) -> Outcome
        ensures { (c0 : Option (List ℕ)) → (c1 : Option (List ℕ)) → (text : List ℕ)
            → Writes c0 c1 text written → Prints database c0 c1 text result }
    {
        match written {
            Ok(()) => Outcome::Printed(database),
            Err(_) => Outcome::Refused {
                database: Some(database),
                fault: Fault::Output,
            },
        }
    }

    /// Returns the outcome of a command that changes the database, from the result of the change.
    pub(crate) fn of_change<T: Drop>(database: Database, changed: Result<T, Refusal>) -> Outcome
        ensures ok { IfOk changed (λ _. result ≡ Outcome.Changed database) }
        ensures err { IfErr changed (λ refusal. result ≡ Outcome.Refused (Some database) (Fault.Refused refusal)) }
    {
        match changed {
            Ok(_) => Outcome::Changed(database),
            Err(refusal) => Outcome::refused(Some(database), refusal),
        }
    }

    /// Returns the outcome of a command that the database refuses.
    pub(crate) fn refused(database: Option<Database>, refusal: Refusal) -> Outcome
        ensures { result ≡ Outcome.Refused database (Fault.Refused refusal) }
    {
        Outcome::Refused {
            database,
            fault: Fault::Refused(refusal),
        }
    }
}

/// Runs a command and writes its output. Without a database every command except create is refused. An accepted create
/// replaces the database. A refused command leaves the database unchanged and writes nothing. `Fault::Output` means
/// that a write failed: the command was done, and a first part of its text is written.
pub fn execute<W: Write>(
    alloc: Global,
    database: Option<Database>,
    command: Command,
    out: &mut W,
) -> Outcome
    ensures kept { Executes database command (W.contents out.old) (W.contents out.new) result }
    ensures run { (state : Option State) → StandsFor database state
        → RunsOn state command (W.contents out.old) (W.contents out.new) result }
    ensures says { PrintsSome database command result }
{
    laws::created_is_valid();
    laws::database_begins();
    laws::action_goes_on();
    match database {
        None => run_without(alloc, command),
        Some(database) => run(alloc, database, command, out),
    }
}
