//! A batch on a stored database.
ghost use Rattle.std.specs.Prelude.{◌≡◌, Bool, IfErr, IfOk, IfSome, IsOk, IsTrue, List, None, Option, Some, option_map, ℕ};
ghost use Rattle.std.specs.Result.{result_err};
ghost use Rattle.rrd_file.specs.Encoded.{bytes_in};
ghost use Rattle.rrd_file.specs.Laws.{IsValidStored};
ghost use Rattle.rrd_store.specs.Batch.{HoldsOfLeft, IsFileBatch, IsStored, RunsLines};
ghost use Rattle.rrd_store.specs.Encoding.{AreOf, IsBefore, IsOf};
ghost use Rattle.rrd_store.specs.Sessions.{HasBytes, IsLinesOn, kept_unless};
ghost use Rattle.rrd_store.specs.Storages.{Bytes, Held, IsAnyFile, Leaves, Stays};

use crate::encoding::{encode_changed, take_encoded};
use crate::stored::store_encoded;
use crate::{Loaded, Storage, TaskFault};
use rrd_base::{Database, database_is_valid};
use rrd_file::Encoded;
use rrd_file::laws::encoded_is_layout;
use rrd_tool::{ChangedBy, Fault, Observer, StreamFault, run_batch};
use std::alloc::Global;
use std::io::{Read, Write};

/// The end of a batch on a stored database.
#[derive(Debug, Drop, PartialEq, Eq)]
pub struct FileBatchEnd {
    /// The number of refused lines whose fault was completely written.
    pub refused: u64,
    /// The numbers of the first refused lines, as in [`rrd_tool::BatchEnd`].
    pub lines: Vec<u64>,
    /// The reason why the batch ended before its input ended; `None` if the batch ran to the end of the input.
    pub stream: Option<StreamFault>,
    /// The reason why the database was not written; `None` if the database was written, or there is no database.
    pub unstored: Option<TaskFault>,
}

/// Decides whether the database that a batch left is written, and sees the lines that are refused.
pub trait Gate: Observer {
    /// Checks whether the database may be written, after the last line that was run.
    fn allows(&self) -> bool;
}

/// Has every batch written, and sees nothing.
#[derive(Clone, Copy, Debug, PartialEq, Eq)]
pub struct Always;

impl Observer for Always {
    fn command_refused(&self, _database: Option<&Database>, _fault: Fault) {}

    fn line_refused(
        &self,
        _number: u64,
        _text: Option<&[u8]>,
        _database: Option<&Database>,
        _fault: Fault,
    ) {}
}

impl Gate for Always {
    fn allows(&self) -> bool {
        true
    }
}

// Writes the database that a batch left, if there is one and the gate allows it. `before` are the bytes before the batch, if
// they are known, and `changed_by` what has changed the database since. Returns the bytes that were written.
fn store_allowed<P: Storage, G: Gate>(
    alloc: Global,
    storage: &mut P,
    database: Option<&Database>,
    before: Option<Encoded>,
    changed_by: ChangedBy,
    gate: &G,
) -> Result<Option<Encoded>, TaskFault>
    requires file { IfSome before (λ e. IsAnyFile (bytes_in e)) }
    requires before { IfSome before (λ e. IsBefore e changed_by (option_map (λ d. d.now) database)) }
    ensures falls { (s : Option Held) → P.is_honest s storage.new → P.is_honest s storage.old }
    ensures sound { (s : Option Held) → P.is_honest s storage.new → P.is_sound s storage.old
        → HasBytes (P.contents s storage.old) before → P.is_sound s storage.new }
    ensures safe { (s : Option Held) (d : List ℕ) (Q : List ℕ → Bool) → P.is_honest s storage.new
        → HasBytes (P.contents s storage.old) before → HoldsOfLeft Q (option_map (λ d. d.now) database.entry) → P.is_safe s d Q storage.old → P.is_safe s d Q storage.new }
    ensures stored { (s : Option Held) (d : List ℕ) (Q R : List ℕ → Bool) → IsOk result → P.is_honest s storage.new
        → HasBytes (P.contents s storage.old) before → HoldsOfLeft R (option_map (λ d. d.now) database.entry) → (database.entry ≡ None → P.is_safe s d R storage.old)
        → P.is_safe s d Q storage.old → P.is_safe s d R storage.new }
    ensures unknown { (s : Option Held) → P.contents s storage.old ≡ None → P.contents s storage.new ≡ None }
    ensures left { (s : Option Held) → P.is_honest s storage.new → P.is_sound s storage.old
        → HasBytes (P.contents s storage.old) before
        → Leaves (option_map (λ d. d.now) database.entry) (P.contents s storage.old) (P.contents s storage.new) result }
    ensures encoded { IfOk result (λ kept. AreOf kept (option_map (λ d. d.now) database.entry)) }
    ensures bytes { IfOk result (λ kept. (s : Option Held) → P.is_honest s storage.new → P.is_sound s storage.old
        → HasBytes (P.contents s storage.old) before → HasBytes (P.contents s storage.new) kept) }
{
    encoded_is_layout();
    let Some(database) = database else {
        return Ok(None);
    };
    if !gate.allows() {
        return Err(TaskFault::CannotWrite);
    }
    let Some(encoding) = encode_changed(alloc, before, changed_by, database) else {
        return Err(TaskFault::CannotWrite);
    };
    store_encoded(storage, &encoding, database)?;
    Ok(Some(encoding.encoded))
}

// Returns the reason why the database was not written, if there is one; and the bytes that were written, if they are known.
fn split(stored: Result<Option<Encoded>, TaskFault>) -> (Option<TaskFault>, Option<Encoded>)
    ensures fault { result.0 ≡ result_err stored }
    ensures ok { IfOk stored (λ encoded. result.1 ≡ encoded) }
    ensures err { IfErr stored (λ _. result.1 ≡ None) }
{
    match stored {
        Ok(encoded) => (None, encoded),
        Err(fault) => (Some(fault), None),
    }
}

// Returns the database that a batch left, unless it was not written.
fn database_kept(database: Option<Database>, unstored: Option<TaskFault>) -> Option<Database>
    ensures kept { result ≡ kept_unless unstored database }
    ensures valid { IfSome result IsValidStored }
{
    match (unstored, database) {
        (None, Some(database)) => {
            database_is_valid(&database);
            Some(database)
        }
        _ => None,
    }
}

/// Runs the lines on a database, and writes the database that the lines left. `before` are the bytes of its file, if they are
/// known. Returns the database that the lines left, and its bytes, unless it was not written.
pub(crate) fn run_on<P: Storage, R: Read, W: Write, G: Gate>(
    alloc: Global,
    database: Option<Database>,
    before: Option<Encoded>,
    now: u64,
    numbered: usize,
    storage: &mut P,
    reader: &mut R,
    out: &mut W,
    gate: &G,
) -> (FileBatchEnd, Option<Database>, Option<Encoded>)
    requires file { IfSome before (λ e. IsAnyFile (bytes_in e)) }
    requires of { IfSome before (λ e. IsOf e database) }
    ensures falls { (s : Option Held) → P.is_honest s storage.new → P.is_honest s storage.old }
    ensures sound { (s : Option Held) → P.is_honest s storage.new → P.is_sound s storage.old
        → HasBytes (P.contents s storage.old) before → P.is_sound s storage.new }
    ensures safe { (s : Option Held) (d : List ℕ) (Q : List ℕ → Bool) → P.is_honest s storage.new → P.is_sound s storage.old
        → HasBytes (P.contents s storage.old) before
        → ((b : List ℕ) → RunsLines now numbered database (P.contents s storage.old) (Some (Bytes b))
        (R.remaining reader.old) (R.remaining reader.new) (W.contents out.old) (W.contents out.new) result.0 → IsTrue (Q b))
        → P.is_safe s d Q storage.old → P.is_safe s d Q storage.new }
    ensures stored { (s : Option Held) (d : List ℕ) (Q T : List ℕ → Bool) → result.0.unstored ≡ None → P.is_honest s storage.new → P.is_sound s storage.old
        → HasBytes (P.contents s storage.old) before
        → ((b : List ℕ) → RunsLines now numbered database (P.contents s storage.old) (Some (Bytes b))
        (R.remaining reader.old) (R.remaining reader.new) (W.contents out.old) (W.contents out.new) result.0 → IsTrue (T b))
        → (Stays (P.contents s storage.old) (P.contents s storage.new) → P.is_safe s d T storage.old)
        → P.is_safe s d Q storage.old → P.is_safe s d T storage.new }
    ensures unknown { (s : Option Held) → P.contents s storage.old ≡ None → P.contents s storage.new ≡ None }
    ensures run { (s : Option Held) → P.is_honest s storage.new → P.is_sound s storage.old
        → HasBytes (P.contents s storage.old) before
        → IsLinesOn now numbered database result.1 (P.contents s storage.old) (P.contents s storage.new)
        (R.remaining reader.old) (R.remaining reader.new) (W.contents out.old) (W.contents out.new) result.0 }
    ensures valid { IfSome result.1 IsValidStored }
    ensures encoded { AreOf result.2 result.1 }
    ensures bytes { (s : Option Held) → P.is_honest s storage.new → P.is_sound s storage.old
        → HasBytes (P.contents s storage.old) before → HasBytes (P.contents s storage.new) result.2 }
{
    let end = run_batch(alloc, database, now, numbered, reader, out, gate);
    let stored = store_allowed(
        alloc,
        storage,
        end.database.as_ref(),
        before,
        end.changed_by,
        gate,
    );
    let (unstored, encoded) = split(stored);
    let database = database_kept(end.database, unstored);
    let end = FileBatchEnd {
        refused: end.refused,
        lines: end.lines,
        stream: end.stream,
        unstored,
    };
    (end, database, encoded)
}

/// Runs each line of `reader` on the database in `storage`, and writes the database at the end.
///
/// Runs the lines as [`run_batch`] does. If `storage` has nothing, the batch starts without a database. If there is no
/// database at the end, nothing is written. If `gate` does not allow the write, the batch ends as after a failed write.
/// `now` is the present time in seconds since 1970, `numbered` the maximum number of refused lines to list. Nobody else
/// may change `storage` between the first read and the write.
///
/// # Errors
///
/// `File` or `CannotOpen` if no database can be read from `storage`. No line was read then, nothing was written, and
/// `storage` is unchanged.
pub fn run_file_batch<P: Storage, R: Read, W: Write, G: Gate>(
    alloc: Global,
    now: u64,
    numbered: usize,
    storage: &mut P,
    reader: &mut R,
    out: &mut W,
    gate: &G,
) -> Result<FileBatchEnd, TaskFault>
    ensures falls { (s : Option Held) → P.is_honest s storage.new → P.is_honest s storage.old }
    ensures sound { (s : Option Held) → P.is_honest s storage.new → P.is_sound s storage.old
        → P.is_sound s storage.new }
    ensures safe { (s : Option Held) (d : List ℕ) (Q : List ℕ → Bool) → P.is_honest s storage.new → P.is_sound s storage.old
        → ((b : List ℕ) → IsFileBatch now numbered (P.contents s storage.old) (Some (Bytes b))
        (R.remaining reader.old) (R.remaining reader.new) (W.contents out.old) (W.contents out.new) result → IsTrue (Q b))
        → P.is_safe s d Q storage.old → P.is_safe s d Q storage.new }
    ensures stored { (s : Option Held) (d : List ℕ) (Q T : List ℕ → Bool) → IsStored result → P.is_honest s storage.new → P.is_sound s storage.old
        → ((b : List ℕ) → IsFileBatch now numbered (P.contents s storage.old) (Some (Bytes b))
        (R.remaining reader.old) (R.remaining reader.new) (W.contents out.old) (W.contents out.new) result → IsTrue (T b))
        → (Stays (P.contents s storage.old) (P.contents s storage.new) → P.is_safe s d T storage.old)
        → P.is_safe s d Q storage.old → P.is_safe s d T storage.new }
    ensures run { (s : Option Held) → P.is_honest s storage.new → P.is_sound s storage.old
        → IsFileBatch now numbered (P.contents s storage.old) (P.contents s storage.new)
        (R.remaining reader.old) (R.remaining reader.new) (W.contents out.old) (W.contents out.new) result }
{
    let Loaded {
        database,
        mut encoded,
    } = storage.load_to_update(alloc)?;
    let before = take_encoded(&mut encoded, &database);
    let (end, _database, _encoded) = run_on(
        alloc, database, before, now, numbered, storage, reader, out, gate,
    );
    Ok(end)
}
