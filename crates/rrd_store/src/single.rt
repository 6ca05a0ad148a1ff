//! One command on a stored database.
ghost use Rattle.std.specs.Prelude.{◌≡◌, Bool, Err, IfErr, IfOk, IfSome, IsOk, IsTrue, List, None, Ok, Option, Result, Some, false, ℕ};
ghost use Rattle.std.specs.Io.KnownBytes.{Keeps};
ghost use Rattle.rrd_file.specs.Encoded.{Encodes, bytes_in};
ghost use Rattle.rrd_file.specs.Laws.{IsValidStored};
ghost use Rattle.rrd_file.specs.Layout.{layout};
ghost use Rattle.rrd_tool.specs.Commands.{effect};
ghost use Rattle.rrd_tool.specs.Execution.{Executes, database_left, fault_left, has_changed};
ghost use Rattle.rrd_tool.specs.Effects.{text_on};
ghost use Rattle.rrd_tool.specs.Lines.{is_empty};
ghost use Rattle.rrd_store.specs.Sessions.{HasBytes};
ghost use Rattle.rrd_store.specs.Single.{Ends, HoldsOfChange, IsSingle, RunsFrom, StartsFrom, access_for};
ghost use Rattle.rrd_store.specs.Encoding.{IsOf, MayReplace, encoded_in};
ghost use Rattle.rrd_store.specs.Storages.{Bytes, Held, IsAnyFile, Leaves, Stays};

use crate::encoding::{Encoding, encoded_after, take_encoded};
use crate::stored::{store, store_encoded};
use crate::{Access, Loaded, Storage, TaskFault};
use rrd_base::Database;
use rrd_file::Encoded;
use rrd_file::laws::encoded_is_layout;
use rrd_fixed::flush;
use rrd_spec::laws::updates_keep_newest_rows;
use rrd_tool::{ChangedBy, Command, Fault, Observer, Outcome, Words, execute, read_command};
use std::alloc::Global;
use std::io::Write;

// Returns the access that a command needs to the storage.
fn access_of(command: &Command) -> Access
    ensures { result ≡ access_for (effect command.now) }
{
    match command {
        Command::Fetch(_)
        | Command::First { .. }
        | Command::Last
        | Command::LastUpdate
        | Command::Info => Access::Read,
        Command::Create(_)
        | Command::Update(_)
        | Command::Tune(_)
        | Command::Resize { .. }
        | Command::Revert => Access::ReadWrite,
    }
}

// Reads the database that a command runs on, with its bytes if the command may change it: then only what differs is
// written. A command that creates a database does not read the storage.
fn start<P: Storage>(alloc: Global, command: &Command, storage: &mut P) -> Result<Loaded, TaskFault>
    ensures falls { (s : Option Held) → P.is_honest s storage.new → P.is_honest s storage.old }
    ensures sound { (s : Option Held) → P.is_honest s storage.new → P.is_sound s storage.old
        → P.is_sound s storage.new }
    ensures safe { (s : Option Held) (d : List ℕ) (Q : List ℕ → Bool) → P.is_honest s storage.new
        → P.is_safe s d Q storage.old → P.is_safe s d Q storage.new }
    ensures start { IfOk result (λ loaded. (s : Option Held) → P.is_honest s storage.new → P.is_sound s storage.old
        → StartsFrom command.now (P.contents s storage.old) (Ok loaded.database)) }
    ensures fault { IfErr result (λ fault. (s : Option Held) → P.is_honest s storage.new → P.is_sound s storage.old
        → StartsFrom command.now (P.contents s storage.old) (Err fault)) }
    ensures stays { (s : Option Held) → P.is_honest s storage.new → P.is_sound s storage.old
        → P.contents s storage.new ≡ P.contents s storage.old }
    ensures bytes { IfOk result (λ loaded. (s : Option Held) → P.is_honest s storage.new → P.is_sound s storage.old
        → HasBytes (P.contents s storage.new) loaded.encoded) }
{
    if let Command::Create(_) = command {
        return Ok(Loaded::without_bytes(None));
    }
    let loaded = match access_of(command) {
        Access::Read => Loaded::without_bytes(storage.load(alloc, Access::Read)?),
        Access::ReadWrite => storage.load_to_update(alloc)?,
    };
    if loaded.database.is_none() {
        return Err(TaskFault::CannotOpen);
    }
    Ok(loaded)
}

// Writes the database that a command changed.
fn write<P: Storage>(
    alloc: Global,
    database: &Database,
    encoding: Option<&Encoding>,
    storage: &mut P,
) -> Result<(), TaskFault>
    requires { IfSome encoding (λ e. Encodes e.now.encoded database.now) }
    ensures falls { (s : Option Held) → P.is_honest s storage.new → P.is_honest s storage.old }
    ensures sound { (s : Option Held) → P.is_honest s storage.new → P.is_sound s storage.old
        → IfSome encoding.entry (λ e. MayReplace (P.contents s storage.old) e.now) → P.is_sound s storage.new }
    ensures safe { (s : Option Held) (d : List ℕ) (Q : List ℕ → Bool) → P.is_honest s storage.new
        → IfSome encoding.entry (λ e. MayReplace (P.contents s storage.old) e.now)
        → IsTrue (Q (layout database.now)) → P.is_safe s d Q storage.old → P.is_safe s d Q storage.new }
    ensures stored { (s : Option Held) (d : List ℕ) (Q R : List ℕ → Bool) → IsOk result → P.is_honest s storage.new
        → IfSome encoding.entry (λ e. MayReplace (P.contents s storage.old) e.now)
        → IsTrue (R (layout database.now)) → P.is_safe s d Q storage.old → P.is_safe s d R storage.new }
    ensures unknown { (s : Option Held) → P.contents s storage.old ≡ None → P.contents s storage.new ≡ None }
    ensures left { (s : Option Held) → P.is_honest s storage.new → P.is_sound s storage.old
        → IfSome encoding.entry (λ e. MayReplace (P.contents s storage.old) e.now)
        → Leaves (Some database.now) (P.contents s storage.old) (P.contents s storage.new) result }
{
    match encoding {
        Some(encoding) => store_encoded(storage, encoding, database),
        None => store(alloc, storage, database),
    }
}

/// Flushes the output of a command, or writes the database that the command changed. `encoding` are the bytes of this
/// database, if they are in memory.
pub(crate) fn finish<P: Storage, W: Write>(
    alloc: Global,
    outcome: &Outcome,
    encoding: Option<&Encoding>,
    storage: &mut P,
    out: &mut W,
) -> Result<(), TaskFault>
    requires { IfSome encoding (λ e. IsOf e.now.encoded (database_left outcome.now)) }
    ensures falls { (s : Option Held) → P.is_honest s storage.new → P.is_honest s storage.old }
    ensures sound { (s : Option Held) → P.is_honest s storage.new → P.is_sound s storage.old
        → IfSome encoding.entry (λ e. MayReplace (P.contents s storage.old) e.now) → P.is_sound s storage.new }
    ensures safe { (s : Option Held) (d : List ℕ) (Q : List ℕ → Bool) → P.is_honest s storage.new
        → IfSome encoding.entry (λ e. MayReplace (P.contents s storage.old) e.now)
        → HoldsOfChange Q outcome.now → P.is_safe s d Q storage.old → P.is_safe s d Q storage.new }
    ensures stored { (s : Option Held) (d : List ℕ) (Q R : List ℕ → Bool) → IsOk result → P.is_honest s storage.new
        → IfSome encoding.entry (λ e. MayReplace (P.contents s storage.old) e.now)
        → HoldsOfChange R outcome.now → (has_changed outcome.now ≡ false → P.is_safe s d R storage.old)
        → P.is_safe s d Q storage.old → P.is_safe s d R storage.new }
    ensures unknown { (s : Option Held) → P.contents s storage.old ≡ None → P.contents s storage.new ≡ None }
    ensures storage { (s : Option Held) → P.is_honest s storage.new → P.is_sound s storage.old
        → IfSome encoding.entry (λ e. MayReplace (P.contents s storage.old) e.now)
        → (text : List ℕ) → (fault_left outcome.now ≡ None → has_changed outcome.now ≡ false → is_empty text ≡ false)
        → Ends outcome.now text (P.contents s storage.old) (P.contents s storage.new) result }
    ensures out { Keeps (W.contents out.old) (W.contents out.new) }
{
    match outcome {
        Outcome::Refused { fault, .. } => Err(TaskFault::Command(*fault)),
        Outcome::Changed(database) => write(alloc, database, encoding, storage),
        Outcome::Printed(_) => match flush(out) {
            Ok(()) => Ok(()),
            Err(_) => Err(TaskFault::Command(Fault::Output)),
        },
    }
}

// Shows the fault of a refused command.
fn show_refusal<V: Observer>(outcome: &Outcome, observer: &V) {
    if let Outcome::Refused { database, fault } = outcome {
        observer.command_refused(database.as_ref(), *fault);
    }
}

/// What a command came to.
#[derive(Drop)]
pub(crate) struct Carried {
    pub(crate) outcome: Outcome,
    /// The bytes of the database after the command, if they are in memory.
    pub(crate) encoding: Option<Encoding>,
    pub(crate) end: Result<(), TaskFault>,
}

/// Runs a command on the database that was found for it, and writes the database if the command changed it. `before` are the
/// bytes of its file, if they are known.
pub(crate) fn carry_out<P: Storage, W: Write, V: Observer>(
    alloc: Global,
    database: Option<Database>,
    before: Option<Encoded>,
    command: Command,
    storage: &mut P,
    out: &mut W,
    observer: &V,
) -> Carried
    requires of { IfSome before (λ e. IsOf e database) }
    requires valid { IfSome database IsValidStored }
    requires file { IfSome before (λ e. IsAnyFile (bytes_in e)) }
    ensures falls { (s : Option Held) → P.is_honest s storage.new → P.is_honest s storage.old }
    ensures sound { (s : Option Held) → P.is_honest s storage.new → P.is_sound s storage.old
        → HasBytes (P.contents s storage.old) before → P.is_sound s storage.new }
    ensures safe { (s : Option Held) (d : List ℕ) (Q : List ℕ → Bool) → P.is_honest s storage.new → P.is_sound s storage.old
        → HasBytes (P.contents s storage.old) before
        → ((b : List ℕ) → RunsFrom command (Ok database) (P.contents s storage.old) (Some (Bytes b))
        (W.contents out.old) (W.contents out.new) result.end → IsTrue (Q b))
        → P.is_safe s d Q storage.old → P.is_safe s d Q storage.new }
    ensures stored { (s : Option Held) (d : List ℕ) (Q R : List ℕ → Bool) → IsOk result.end → P.is_honest s storage.new → P.is_sound s storage.old
        → HasBytes (P.contents s storage.old) before
        → ((b : List ℕ) → RunsFrom command (Ok database) (P.contents s storage.old) (Some (Bytes b))
        (W.contents out.old) (W.contents out.new) result.end → IsTrue (R b))
        → (Stays (P.contents s storage.old) (P.contents s storage.new) → P.is_safe s d R storage.old)
        → P.is_safe s d Q storage.old → P.is_safe s d R storage.new }
    ensures unknown { (s : Option Held) → P.contents s storage.old ≡ None → P.contents s storage.new ≡ None }
    ensures done { Executes database command (W.contents out.old) (W.contents out.new) result.outcome }
    ensures ends { (s : Option Held) → P.is_honest s storage.new → P.is_sound s storage.old
        → HasBytes (P.contents s storage.old) before
        → Ends result.outcome (text_on database (effect command)) (P.contents s storage.old) (P.contents s storage.new) result.end }
    ensures encoded { IfSome result.encoding (λ e. IsOf e.encoded (database_left result.outcome)) }
    ensures same { has_changed result.outcome ≡ false → encoded_in result.encoding ≡ before }
{
    encoded_is_layout();
    updates_keep_newest_rows();
    let changed_by = ChangedBy::Nothing.and(command.is_update());
    let outcome = execute(alloc, database, command, out);
    let encoding = encoded_after(alloc, before, changed_by, &outcome);
    show_refusal(&outcome, observer);
    let end = finish(alloc, &outcome, encoding.as_ref(), storage, out);
    Carried {
        outcome,
        encoding,
        end,
    }
}

/// Runs one command on the database in `storage`, and writes the command's output to `out`.
///
/// The arguments are parsed first. Then the database is read from `storage`, unless the command is a create. Then the
/// command runs, and if the command changed the database, the database is written to `storage`. `now` is the present
/// time in seconds since 1970. `observer` sees a command that could be read and is refused.
///
/// # Errors
///
/// - `Command` if the arguments are not a command. `storage` was not read.
/// - `CannotOpen` or `File` if no database can be read from `storage`.
/// - `Command` if the command is refused, or a write of its output failed. `storage` is unchanged, as in the cases
///   above.
/// - `CannotWrite` if an accepted change could not be written: `storage` has its old bytes, or the new bytes, or, if
///   there was no database, bytes that are not a database.
pub fn run_file_command<P: Storage, W: Write, V: Observer>(
    alloc: Global,
    words: &Words<'_>,
    now: u64,
    storage: &mut P,
    out: &mut W,
    observer: &V,
) -> Result<(), TaskFault>
    ensures falls { (s : Option Held) → P.is_honest s storage.new → P.is_honest s storage.old }
    ensures sound { (s : Option Held) → P.is_honest s storage.new → P.is_sound s storage.old
        → P.is_sound s storage.new }
    ensures safe { (s : Option Held) (d : List ℕ) (Q : List ℕ → Bool) → P.is_honest s storage.new → P.is_sound s storage.old
        → ((b : List ℕ) → IsSingle words.now now (P.contents s storage.old) (Some (Bytes b))
        (W.contents out.old) (W.contents out.new) result → IsTrue (Q b))
        → P.is_safe s d Q storage.old → P.is_safe s d Q storage.new }
    ensures stored { (s : Option Held) (d : List ℕ) (Q R : List ℕ → Bool) → IsOk result → P.is_honest s storage.new → P.is_sound s storage.old
        → ((b : List ℕ) → IsSingle words.now now (P.contents s storage.old) (Some (Bytes b))
        (W.contents out.old) (W.contents out.new) result → IsTrue (R b))
        → (Stays (P.contents s storage.old) (P.contents s storage.new) → P.is_safe s d R storage.old)
        → P.is_safe s d Q storage.old → P.is_safe s d R storage.new }
    ensures run { (s : Option Held) → P.is_honest s storage.new → P.is_sound s storage.old
        → IsSingle words.now now (P.contents s storage.old) (P.contents s storage.new)
        (W.contents out.old) (W.contents out.new) result }
{
    let command = read_command(alloc, words, now)?;
    let Loaded {
        database,
        mut encoded,
    } = start(alloc, &command, storage)?;
    let before = take_encoded(&mut encoded, &database);
    let carried = carry_out(alloc, database, before, command, storage, out, observer);
    carried.end
}
