//! Runs on one storage, with the database kept in memory in between.
ghost use Rattle.std.specs.Prelude.{◌≡◌, Bool, IfErr, IfNone, IfOk, IfSome, IsOk, IsSome, IsTrue, List, None, OnOk, Err, Ok, Option, Some, is_ok, true, ℕ};
ghost use Rattle.rrd_file.specs.Laws.{IsValidStored};
ghost use Rattle.rrd_spec.specs.Journal.Survivors.{Stored};
ghost use Rattle.rrd_tool.specs.Commands.{effect};
ghost use Rattle.rrd_tool.specs.Execution.{database_left};
ghost use Rattle.rrd_store.specs.Batch.{IsFileBatch, IsStored};
ghost use Rattle.rrd_store.specs.Encoding.{AreOf};
ghost use Rattle.rrd_store.specs.Sessions.{HasBytes, IsFileBatchOn, IsInMemory, IsRead, IsSingleOn, RunsOn, beside, kept_by, started};
ghost use Rattle.rrd_store.specs.Single.{FindsOne, IsSingle, RunsAs, StartsFrom};
ghost use Rattle.rrd_store.specs.Storages.{Bytes, Finds, Held, Stays};

use crate::encoding::{encoded_kept, take_encoded};
use crate::single::carry_out;
use crate::stored_batch::run_on;
use crate::{FileBatchEnd, Gate, Storage, TaskFault};
use rrd_base::{Database, database_is_valid};
use rrd_file::Encoded;
use rrd_file::laws::{encoded_is_layout, layout_is_file};
use rrd_tool::{Command, Outcome, Unobserved, Words, read_command};
use std::alloc::Global;
use std::io::{Read, Write};

/// A storage on which several runs follow one another, with its database.
///
/// The database is read once, and stays in memory between the runs. Each run writes its changes before it ends, as if the
/// run were alone. Nobody else may change the storage before the session ends.
// Without bounds: a struct that has a ghost field and bounds cannot be a field of a generic struct such as an open file.
#[derive(Drop)]
pub struct Session<P> {
    /// The storage. What is in memory is what the storage represents: let nobody change that, or [`Session::forget`] it.
    pub storage: P,
    // The database that was read from the storage last, or written to the storage last.
    database: Option<Database>,
    // The bytes of this database's file, once a command has written it: the storage represents these bytes.
    encoded: Option<Encoded>,
    is_written: bool,
    ghost encoded_is: { AreOf encoded database },
}

// Theorem: the database that an outcome has is valid.
fn outcome_is_valid(outcome: &Outcome)
    ensures { IfSome (database_left outcome.now) IsValidStored }
{
    match outcome {
        Outcome::Printed(database) | Outcome::Changed(database) => database_is_valid(database),
        Outcome::Refused {
            database: Some(database),
            ..
        } => database_is_valid(database),
        Outcome::Refused { database: None, .. } => {}
    }
}

// Returns the database that an outcome has.
fn database_of(outcome: Outcome) -> Option<Database>
    ensures { result ≡ database_left outcome }
{
    match outcome {
        Outcome::Printed(database) | Outcome::Changed(database) => Some(database),
        Outcome::Refused { database, .. } => database,
    }
}

// Returns the database that stays in memory after a command. `other` is the database that was beside the command.
fn database_kept(
    other: Option<Database>,
    outcome: Outcome,
    end: Result<(), TaskFault>,
) -> Option<Database>
    ensures { result ≡ kept_by other outcome end }
{
    if let Err(TaskFault::CannotWrite) = end {
        return None;
    }
    match database_of(outcome) {
        Some(database) => Some(database),
        None => other,
    }
}

impl<P: Storage + Drop> Session<P> {
    /// Begins runs on a storage. Reads nothing.
    pub fn new(storage: P) -> Session<P>
        ensures storage { result.storage ≡ storage }
        ensures database { result.database ≡ None }
        ensures encoded { result.encoded ≡ None }
    {
        Session {
            storage,
            database: None,
            encoded: None,
            is_written: false,
        }
    }

    /// Returns the storage.
    pub fn storage(&self) -> &P
        ensures { result.now ≡ self.now.storage }
    {
        &self.storage
    }

    /// Ends the runs, and returns the storage.
    pub fn into_storage(self) -> P
        ensures { result ≡ self.storage }
    {
        self.storage
    }

    /// Checks whether the last run wrote its database to the storage.
    pub fn is_written(&self) -> bool
        ensures { result ≡ self.now.is_written }
    {
        self.is_written
    }

    /// Returns the database in memory, if there is one.
    pub fn database(&self) -> Option<&Database>
        ensures some { IfSome result (λ database. self.now.database ≡ Some database.now) }
        ensures none { IfNone result (self.now.database ≡ None) }
    {
        self.database.as_ref()
    }

    /// Theorem: the database in memory is valid, if there is one.
    ///
    /// A call gives the prover this fact at the call site, and does nothing at run time.
    pub fn database_is_valid(&self)
        ensures { IsRead None self.now.database }
    {
        match &self.database {
            Some(database) => database_is_valid(database),
            None => {}
        }
    }

    /// Forgets what is in memory: the next run reads the storage.
    pub fn forget(&mut self)
        ensures storage { self.new.storage ≡ self.old.storage }
        ensures database { self.new.database ≡ None }
        ensures encoded { self.new.encoded ≡ None }
    {
        self.database = None;
        self.encoded = None;
    }

    // Takes the database out of the session, or reads it.
    fn take(&mut self, alloc: Global) -> Result<Option<Database>, TaskFault>
        ensures falls { (s : Option Held) → P.is_honest s self.new.storage → P.is_honest s self.old.storage }
        ensures safe { (s : Option Held) (d : List ℕ) (Q : List ℕ → Bool) → P.is_honest s self.new.storage
            → P.is_safe s d Q self.old.storage → P.is_safe s d Q self.new.storage }
        ensures sound { (s : Option Held) → P.is_honest s self.new.storage → P.is_sound s self.old.storage
            → P.is_sound s self.new.storage }
        ensures stays { (s : Option Held) → P.is_honest s self.new.storage → P.is_sound s self.old.storage
            → P.contents s self.new.storage ≡ P.contents s self.old.storage }
        ensures found { (s : Option Held) → P.is_honest s self.new.storage → P.is_sound s self.old.storage
            → IsRead (P.contents s self.old.storage) self.old.database
            → Finds (P.contents s self.old.storage) result }
        ensures taken { self.new.database ≡ None }
        ensures same { (d : Stored) → self.old.database ≡ Some d → result ≡ Ok (Some d) }
        ensures bytes { (s : Option Held) → P.is_honest s self.new.storage → P.is_sound s self.old.storage
            → HasBytes (P.contents s self.old.storage) self.old.encoded
            → HasBytes (P.contents s self.new.storage) self.new.encoded }
        ensures encoded { IfOk result (λ found. AreOf self.new.encoded found) }
    {
        self.is_written = false;
        match self.database.take() {
            Some(database) => Ok(Some(database)),
            None => {
                self.encoded = None;
                let loaded = self.storage.load_to_update(alloc)?;
                self.encoded = loaded.encoded;
                Ok(loaded.database)
            }
        }
    }

    // Takes the database out of the session, or reads it. There has to be one.
    fn take_one(&mut self, alloc: Global) -> Result<Option<Database>, TaskFault>
        ensures falls { (s : Option Held) → P.is_honest s self.new.storage → P.is_honest s self.old.storage }
        ensures safe { (s : Option Held) (d : List ℕ) (Q : List ℕ → Bool) → P.is_honest s self.new.storage
            → P.is_safe s d Q self.old.storage → P.is_safe s d Q self.new.storage }
        ensures sound { (s : Option Held) → P.is_honest s self.new.storage → P.is_sound s self.old.storage
            → P.is_sound s self.new.storage }
        ensures stays { (s : Option Held) → P.is_honest s self.new.storage → P.is_sound s self.old.storage
            → P.contents s self.new.storage ≡ P.contents s self.old.storage }
        ensures found { (s : Option Held) → P.is_honest s self.new.storage → P.is_sound s self.old.storage
            → IsRead (P.contents s self.old.storage) self.old.database
            → FindsOne (P.contents s self.old.storage) result }
        ensures some { IfOk result (λ found. IsSome found) }
        ensures taken { self.new.database ≡ None }
        ensures same { (d : Stored) → self.old.database ≡ Some d → result ≡ Ok (Some d) }
        ensures bytes { (s : Option Held) → P.is_honest s self.new.storage → P.is_sound s self.old.storage
            → HasBytes (P.contents s self.old.storage) self.old.encoded
            → HasBytes (P.contents s self.new.storage) self.new.encoded }
        ensures encoded { IfOk result (λ found. AreOf self.new.encoded found) }
    {
        match self.take(alloc)? {
            Some(database) => Ok(Some(database)),
            None => Err(TaskFault::CannotOpen),
        }
    }

    /// Reads the database, unless it is in memory.
    ///
    /// # Errors
    ///
    /// `CannotOpen` or `File` if no database can be read from the storage.
    pub fn load(&mut self, alloc: Global) -> Result<(), TaskFault>
        ensures falls { (s : Option Held) → P.is_honest s self.new.storage → P.is_honest s self.old.storage }
        ensures safe { (s : Option Held) (d : List ℕ) (Q : List ℕ → Bool) → P.is_honest s self.new.storage
            → P.is_safe s d Q self.old.storage → P.is_safe s d Q self.new.storage }
        ensures sound { (s : Option Held) → P.is_honest s self.new.storage → P.is_sound s self.old.storage
            → P.is_sound s self.new.storage }
        ensures stays { (s : Option Held) → P.is_honest s self.new.storage → P.is_sound s self.old.storage
            → P.contents s self.new.storage ≡ P.contents s self.old.storage }
        ensures memory { (s : Option Held) → P.is_honest s self.new.storage → P.is_sound s self.old.storage
            → IsInMemory (P.contents s self.old.storage) self.old.database self.old.encoded
            → IsInMemory (P.contents s self.new.storage) self.new.database self.new.encoded }
        ensures some { OnOk result (IsSome self.new.database) }
        ensures fault { IfErr result (λ fault. (s : Option Held) → P.is_honest s self.new.storage → P.is_sound s self.old.storage
            → IsRead (P.contents s self.old.storage) self.old.database
            → FindsOne (P.contents s self.old.storage) (Err fault)) }
        ensures same { (d : Stored) → self.old.database ≡ Some d → (is_ok result ≡ true) × (self.new.database ≡ Some d) }
    {
        self.database = self.take_one(alloc)?;
        Ok(())
    }

    // Returns the database that a command runs on. A command that creates a database runs without one.
    fn start(&mut self, alloc: Global, command: &Command) -> Result<Option<Database>, TaskFault>
        ensures falls { (s : Option Held) → P.is_honest s self.new.storage → P.is_honest s self.old.storage }
        ensures safe { (s : Option Held) (d : List ℕ) (Q : List ℕ → Bool) → P.is_honest s self.new.storage
            → P.is_safe s d Q self.old.storage → P.is_safe s d Q self.new.storage }
        ensures sound { (s : Option Held) → P.is_honest s self.new.storage → P.is_sound s self.old.storage
            → P.is_sound s self.new.storage }
        ensures stays { (s : Option Held) → P.is_honest s self.new.storage → P.is_sound s self.old.storage
            → P.contents s self.new.storage ≡ P.contents s self.old.storage }
        ensures start { (s : Option Held) → P.is_honest s self.new.storage → P.is_sound s self.old.storage
            → IsRead (P.contents s self.old.storage) self.old.database
            → StartsFrom command.now (P.contents s self.old.storage) result }
        ensures read { (s : Option Held) → P.is_honest s self.new.storage → P.is_sound s self.old.storage
            → IsRead (P.contents s self.old.storage) self.old.database
            → IsRead (P.contents s self.old.storage) self.new.database }
        ensures found { IfOk result (λ found. (s : Option Held) → P.is_honest s self.new.storage
            → P.is_sound s self.old.storage → IsRead (P.contents s self.old.storage) self.old.database
            → IsRead (P.contents s self.old.storage) found) }
        ensures same { (d : Stored) → self.old.database ≡ Some d
            → (result ≡ Ok (started (effect command.now) d)) × (self.new.database ≡ beside (effect command.now) d) }
        ensures bytes { (s : Option Held) → P.is_honest s self.new.storage → P.is_sound s self.old.storage
            → HasBytes (P.contents s self.old.storage) self.old.encoded
            → HasBytes (P.contents s self.new.storage) self.new.encoded }
        ensures encoded { IfOk result (λ found. AreOf self.new.encoded found) }
    {
        if let Command::Create(_) = command {
            return Ok(None);
        }
        self.take_one(alloc)
    }

    /// Runs one command, as [`crate::run_file_command`] does: with the same effect on the storage, the same output and the
    /// same end. If a database is in memory, the command runs on it, and the storage is not read.
    ///
    /// # Errors
    ///
    /// As [`crate::run_file_command`]. After `CannotWrite` no database is kept, and the next run reads the storage.
    pub fn run<W: Write>(
        &mut self,
        alloc: Global,
        words: &Words<'_>,
        now: u64,
        out: &mut W,
    ) -> Result<(), TaskFault>
        ensures falls { (s : Option Held) → P.is_honest s self.new.storage → P.is_honest s self.old.storage }
        ensures sound { (s : Option Held) → P.is_honest s self.new.storage → P.is_sound s self.old.storage
            → IsInMemory (P.contents s self.old.storage) self.old.database self.old.encoded
            → P.is_sound s self.new.storage }
        ensures memory { (s : Option Held) → P.is_honest s self.new.storage → P.is_sound s self.old.storage
            → IsInMemory (P.contents s self.old.storage) self.old.database self.old.encoded
            → IsInMemory (P.contents s self.new.storage) self.new.database self.new.encoded }
        ensures run { (s : Option Held) → P.is_honest s self.new.storage → P.is_sound s self.old.storage
            → IsInMemory (P.contents s self.old.storage) self.old.database self.old.encoded
            → IsSingle words.now now (P.contents s self.old.storage) (P.contents s self.new.storage)
            (W.contents out.old) (W.contents out.new) result }
        ensures safe { (s : Option Held) (d : List ℕ) (Q : List ℕ → Bool) → P.is_honest s self.new.storage → P.is_sound s self.old.storage
            → IsInMemory (P.contents s self.old.storage) self.old.database self.old.encoded
            → ((b : List ℕ) → IsSingle words.now now (P.contents s self.old.storage) (Some (Bytes b))
            (W.contents out.old) (W.contents out.new) result → IsTrue (Q b))
            → P.is_safe s d Q self.old.storage → P.is_safe s d Q self.new.storage }
        ensures stored { (s : Option Held) (d : List ℕ) (Q T : List ℕ → Bool) → IsOk result → P.is_honest s self.new.storage → P.is_sound s self.old.storage
            → IsInMemory (P.contents s self.old.storage) self.old.database self.old.encoded
            → ((b : List ℕ) → IsSingle words.now now (P.contents s self.old.storage) (Some (Bytes b))
            (W.contents out.old) (W.contents out.new) result → IsTrue (T b))
            → (Stays (P.contents s self.old.storage) (P.contents s self.new.storage) → P.is_safe s d T self.old.storage)
            → P.is_safe s d Q self.old.storage → P.is_safe s d T self.new.storage }
        ensures on { (d : Stored) → self.old.database ≡ Some d
            → (s : Option Held) → P.is_honest s self.new.storage → P.is_sound s self.old.storage
            → IsInMemory (P.contents s self.old.storage) self.old.database self.old.encoded
            → IsSingleOn words.now now d self.new.database (P.contents s self.old.storage) (P.contents s self.new.storage)
            (W.contents out.old) (W.contents out.new) result }
    {
        self.is_written = false;
        let parsed = read_command(alloc, words, now)?;
        self.run_command(alloc, parsed, out)
    }

    /// Runs one command that was not read from words, as [`Session::run`] runs one that was: with the same effect on the
    /// storage, the same output and the same end.
    ///
    /// # Errors
    ///
    /// As [`Session::run`], except for the faults of words.
    pub fn run_command<W: Write>(
        &mut self,
        alloc: Global,
        command: Command,
        out: &mut W,
    ) -> Result<(), TaskFault>
        ensures falls { (s : Option Held) → P.is_honest s self.new.storage → P.is_honest s self.old.storage }
        ensures sound { (s : Option Held) → P.is_honest s self.new.storage → P.is_sound s self.old.storage
            → IsInMemory (P.contents s self.old.storage) self.old.database self.old.encoded
            → P.is_sound s self.new.storage }
        ensures memory { (s : Option Held) → P.is_honest s self.new.storage → P.is_sound s self.old.storage
            → IsInMemory (P.contents s self.old.storage) self.old.database self.old.encoded
            → IsInMemory (P.contents s self.new.storage) self.new.database self.new.encoded }
        ensures run { (s : Option Held) → P.is_honest s self.new.storage → P.is_sound s self.old.storage
            → IsInMemory (P.contents s self.old.storage) self.old.database self.old.encoded
            → RunsAs (Ok command) (P.contents s self.old.storage) (P.contents s self.new.storage)
            (W.contents out.old) (W.contents out.new) result }
        ensures safe { (s : Option Held) (d : List ℕ) (Q : List ℕ → Bool) → P.is_honest s self.new.storage → P.is_sound s self.old.storage
            → IsInMemory (P.contents s self.old.storage) self.old.database self.old.encoded
            → ((b : List ℕ) → RunsAs (Ok command) (P.contents s self.old.storage) (Some (Bytes b))
            (W.contents out.old) (W.contents out.new) result → IsTrue (Q b))
            → P.is_safe s d Q self.old.storage → P.is_safe s d Q self.new.storage }
        ensures stored { (s : Option Held) (d : List ℕ) (Q T : List ℕ → Bool) → IsOk result → P.is_honest s self.new.storage → P.is_sound s self.old.storage
            → IsInMemory (P.contents s self.old.storage) self.old.database self.old.encoded
            → ((b : List ℕ) → RunsAs (Ok command) (P.contents s self.old.storage) (Some (Bytes b))
            (W.contents out.old) (W.contents out.new) result → IsTrue (T b))
            → (Stays (P.contents s self.old.storage) (P.contents s self.new.storage) → P.is_safe s d T self.old.storage)
            → P.is_safe s d Q self.old.storage → P.is_safe s d T self.new.storage }
        ensures on { (d : Stored) → self.old.database ≡ Some d
            → (s : Option Held) → P.is_honest s self.new.storage → P.is_sound s self.old.storage
            → IsInMemory (P.contents s self.old.storage) self.old.database self.old.encoded
            → RunsOn command d self.new.database (P.contents s self.old.storage) (P.contents s self.new.storage)
            (W.contents out.old) (W.contents out.new) result }
    {
        layout_is_file();
        encoded_is_layout();
        self.is_written = false;
        let database = self.start(alloc, &command)?;
        let encoded = take_encoded(&mut self.encoded, &database);
        let carried = carry_out(
            alloc,
            database,
            encoded,
            command,
            &mut self.storage,
            out,
            &Unobserved,
        );
        outcome_is_valid(&carried.outcome);
        let other = self.database.take();
        let end = carried.end;
        self.is_written = end.is_ok() && matches!(carried.outcome, Outcome::Changed(_));
        self.database = database_kept(other, carried.outcome, end);
        self.encoded = encoded_kept(carried.encoding, end);
        end
    }

    /// Runs each line of `reader`, and writes the database at the end, as [`crate::run_file_batch`] does: with the same effect on
    /// the storage, the same output and the same end. If a database is in memory, the lines run on it, and the storage is not
    /// read. If `gate` does not allow the write, the batch ends as after a failed write.
    ///
    /// # Errors
    ///
    /// As [`crate::run_file_batch`]. If the database was not written, none is kept, and the next run reads the storage.
    pub fn run_batch<R: Read, W: Write, G: Gate>(
        &mut self,
        alloc: Global,
        now: u64,
        numbered: usize,
        reader: &mut R,
        out: &mut W,
        gate: &G,
    ) -> Result<FileBatchEnd, TaskFault>
        ensures falls { (s : Option Held) → P.is_honest s self.new.storage → P.is_honest s self.old.storage }
        ensures sound { (s : Option Held) → P.is_honest s self.new.storage → P.is_sound s self.old.storage
            → IsInMemory (P.contents s self.old.storage) self.old.database self.old.encoded
            → P.is_sound s self.new.storage }
        ensures memory { (s : Option Held) → P.is_honest s self.new.storage → P.is_sound s self.old.storage
            → IsInMemory (P.contents s self.old.storage) self.old.database self.old.encoded
            → IsInMemory (P.contents s self.new.storage) self.new.database self.new.encoded }
        ensures run { (s : Option Held) → P.is_honest s self.new.storage → P.is_sound s self.old.storage
            → IsInMemory (P.contents s self.old.storage) self.old.database self.old.encoded
            → IsFileBatch now numbered (P.contents s self.old.storage) (P.contents s self.new.storage)
            (R.remaining reader.old) (R.remaining reader.new) (W.contents out.old) (W.contents out.new) result }
        ensures safe { (s : Option Held) (d : List ℕ) (Q : List ℕ → Bool) → P.is_honest s self.new.storage → P.is_sound s self.old.storage
            → IsInMemory (P.contents s self.old.storage) self.old.database self.old.encoded
            → ((b : List ℕ) → IsFileBatch now numbered (P.contents s self.old.storage) (Some (Bytes b))
            (R.remaining reader.old) (R.remaining reader.new) (W.contents out.old) (W.contents out.new) result → IsTrue (Q b))
            → P.is_safe s d Q self.old.storage → P.is_safe s d Q self.new.storage }
        ensures stored { (s : Option Held) (d : List ℕ) (Q T : List ℕ → Bool) → IsStored result → P.is_honest s self.new.storage → P.is_sound s self.old.storage
            → IsInMemory (P.contents s self.old.storage) self.old.database self.old.encoded
            → ((b : List ℕ) → IsFileBatch now numbered (P.contents s self.old.storage) (Some (Bytes b))
            (R.remaining reader.old) (R.remaining reader.new) (W.contents out.old) (W.contents out.new) result → IsTrue (T b))
            → (Stays (P.contents s self.old.storage) (P.contents s self.new.storage) → P.is_safe s d T self.old.storage)
            → P.is_safe s d Q self.old.storage → P.is_safe s d T self.new.storage }
        ensures on { (d : Stored) → self.old.database ≡ Some d
            → (s : Option Held) → P.is_honest s self.new.storage → P.is_sound s self.old.storage
            → IsInMemory (P.contents s self.old.storage) self.old.database self.old.encoded
            → IsFileBatchOn now numbered d self.new.database (P.contents s self.old.storage) (P.contents s self.new.storage)
            (R.remaining reader.old) (R.remaining reader.new) (W.contents out.old) (W.contents out.new) result }
    {
        layout_is_file();
        let database = self.take(alloc)?;
        let before = take_encoded(&mut self.encoded, &database);
        let (end, kept, encoded) = run_on(
            alloc,
            database,
            before,
            now,
            numbered,
            &mut self.storage,
            reader,
            out,
            gate,
        );
        self.is_written = kept.is_some();
        self.database = kept;
        self.encoded = encoded;
        Ok(end)
    }
}
