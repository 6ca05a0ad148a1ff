//! A database in a file that stays open between runs.
ghost use Rattle.std.specs.Prelude.{◌≡◌, [], IfErr, IfNone, IfOk, IfSome, IsOk, IsSome, IsTrue, None, OnOk, Some, is_ok, true};
ghost use Rattle.rrd_change.specs.declared.calls.Syncs.TheVariants.{Ordered};
ghost use Rattle.rrd_disk.specs.Calls.{Rests};
ghost use Rattle.rrd_disk.specs.declared.storage.Found.TheVariants.{Unopened};
ghost use Rattle.rrd_disk.specs.Locks.{is_guarded};
ghost use Rattle.rrd_disk.specs.OpenRuns.{IsKept, IsOpenRun, IsOpened, IsReload, LeavesSound, LetsRead};
ghost use Rattle.rrd_disk.specs.Safe.{IsOpenedSafely, StaysSafe, StoresOpenRun, SurvivesOpenRun};
ghost use Rattle.rrd_spec.specs.Journal.Survivors.{Stored};
ghost use Rattle.rrd_store.specs.Batch.{IsStored};
ghost use Rattle.rrd_store.specs.Runs.{IsOfPlace, batch_run, command_run, request_run};
ghost use Rattle.rrd_store.specs.Sessions.{IsFileBatchOn, IsSingleOn, RunsOn};
ghost use Rattle.rrd_store.specs.declared.storage.Access.TheVariants.{ReadWrite};

use crate::{Disk, FileStorage, Lock, OwnPlace};
use rrd_base::Database;
use rrd_store::{Access, FileBatchEnd, Gate, Session, TaskFault};
use rrd_tool::{Command, Words};
use std::alloc::Global;
use std::io::{Error, Read, Write};

/// A database in a file that stays open and locked between runs.
///
/// The file is opened, locked and read once. Each run writes its changes before it ends. Between two runs the lock is
/// shared: others may read the file, and nobody may change it. A run that may change the file takes the lock for itself by
/// one try. If somebody reads the file at that moment, the try fails and leaves the file without a lock: then the file is
/// closed and its database forgotten, and the run opens, locks and reads the file again, as after a change that failed.
#[derive(Drop)]
pub struct OpenFile<D: Disk + Drop> {
    session: Session<FileStorage<D, OwnPlace>>,
    // Whether the file stayed open and locked from the last run's start to its end.
    has_stayed: bool,
}

// Returns the access that a command needs to the file.
fn access_of(command: &Command) -> Access {
    match command {
        Command::Fetch(_)
        | Command::First { .. }
        | Command::Last
        | Command::LastUpdate
        | Command::Info => Access::Read,
        _ => Access::ReadWrite,
    }
}

// Returns the access that the command of these words needs to the file.
fn access_of_words(words: &Words<'_>) -> Access {
    match words.first() {
        Some("fetch" | "first" | "last" | "lastupdate" | "info") => Access::Read,
        _ => Access::ReadWrite,
    }
}

/// The reason why a file was not opened.
#[derive(Clone, Copy, Debug)]
pub struct OpenFault {
    /// The fault.
    pub fault: TaskFault,
    /// The reason why the last call on the file failed.
    pub error: Option<Error>,
    /// How a file begins that is not one of rrdi, as [`crate::Cause::mark`] says.
    pub mark: [u8; 4],
}

impl<D: Disk + Drop> OpenFile<D> {
    /// Begins runs on the file at a place. Opens nothing: the first run does.
    pub(crate) fn unopened(disk: D, place: OwnPlace) -> OpenFile<D>
        requires { D.events disk ≡ [] }
        ensures kept { IsKept result.session.storage.found (D.events result.session.storage.bytes.disk) result.session.database result.session.encoded }
        ensures lets { LetsRead result.session.storage.found (D.events result.session.storage.bytes.disk) }
        ensures disk { result.session.storage.bytes.disk ≡ disk }
        ensures place { result.session.storage.place ≡ place }
        ensures found { result.session.storage.found ≡ Unopened }
    {
        OpenFile {
            session: Session::new(FileStorage::staying_open(disk, place)),
            has_stayed: true,
        }
    }

    /// Opens and locks the file at a place, and reads its database. If a change of the file was interrupted, repairs the
    /// file.
    ///
    /// # Errors
    ///
    /// `CannotOpen` if the file cannot be opened and locked for a change, `File` if its database cannot be read. The
    /// contract says only that the fault is one of the two.
    pub fn open(alloc: Global, disk: D, place: OwnPlace) -> Result<OpenFile<D>, OpenFault>
        requires { D.events disk ≡ [] }
        ensures kept { IfOk result (λ file. IsKept file.session.storage.found (D.events file.session.storage.bytes.disk) file.session.database file.session.encoded) }
        ensures opened { IfOk result (λ file. IsOpened (D.events file.session.storage.bytes.disk)) }
        ensures lets { IfOk result (λ file. LetsRead file.session.storage.found (D.events file.session.storage.bytes.disk)) }
        ensures some { IfOk result (λ file. IsSome file.session.database) }
        ensures power { place.settings.syncs ≡ Ordered
            → IfOk result (λ file. IsOpenedSafely file.session.storage.place.settings.syncs file.session.storage.found (D.events file.session.storage.bytes.disk)) }
        ensures fault { IfErr result (λ refused. IsOfPlace refused.fault) }
    {
        let mut file = OpenFile::unopened(disk, place);
        match file.load(alloc) {
            Ok(()) => Ok(file),
            Err(fault) => Err(OpenFault {
                fault,
                error: file.last_error(),
                mark: file.session.storage.mark(),
            }),
        }
    }

    /// Returns why the last call of the last run failed. Returns `None` if no call failed.
    pub fn last_error(&self) -> Option<Error> {
        self.session.storage.last_error()
    }

    /// Checks whether the last run wrote its database to the file.
    pub fn is_written(&self) -> bool {
        self.session.is_written()
    }

    // Takes the lock of the file for a change, by one try. If that fails, forgets the database: others may change the file
    // before this run opens it again.
    fn own(&mut self)
        ensures rests { Rests (D.events self.old.session.storage.bytes.disk) (D.events self.new.session.storage.bytes.disk) }
        ensures safe { StaysSafe self.old.session.storage.place.settings.syncs self.old.session.storage.found (D.events self.old.session.storage.bytes.disk)
            self.new.session.storage.place.settings.syncs self.new.session.storage.found (D.events self.new.session.storage.bytes.disk) }
        ensures kept { IsKept self.old.session.storage.found (D.events self.old.session.storage.bytes.disk) self.old.session.database self.old.session.encoded
            → IsKept self.new.session.storage.found (D.events self.new.session.storage.bytes.disk) self.new.session.database self.new.session.encoded }
        ensures owned { IsSome self.new.session.database → IsTrue (is_guarded (D.events self.new.session.storage.bytes.disk)) }
        ensures stayed { self.new.has_stayed ≡ true → self.new.session.database ≡ self.old.session.database }
    {
        let is_own = self.session.storage.turn_lock(Lock::Own);
        self.has_stayed = is_own;
        if is_own {
            return;
        }
        self.session.forget();
    }

    // Begins a run. One that only reads, and has the database in memory, needs no lock of its own.
    fn begin(&mut self, access: Access)
        ensures rests { Rests (D.events self.old.session.storage.bytes.disk) (D.events self.new.session.storage.bytes.disk) }
        ensures safe { StaysSafe self.old.session.storage.place.settings.syncs self.old.session.storage.found (D.events self.old.session.storage.bytes.disk)
            self.new.session.storage.place.settings.syncs self.new.session.storage.found (D.events self.new.session.storage.bytes.disk) }
        ensures kept { IsKept self.old.session.storage.found (D.events self.old.session.storage.bytes.disk) self.old.session.database self.old.session.encoded
            → IsKept self.new.session.storage.found (D.events self.new.session.storage.bytes.disk) self.new.session.database self.new.session.encoded }
        ensures owned { access ≡ ReadWrite → IsSome self.new.session.database → IsTrue (is_guarded (D.events self.new.session.storage.bytes.disk)) }
        ensures stayed { self.new.has_stayed ≡ true → self.new.session.database ≡ self.old.session.database }
    {
        self.has_stayed = true;
        if access == Access::ReadWrite || self.session.database().is_none() {
            self.own();
        }
        self.session.storage.forget_error();
    }

    // Ends a run: shares the lock with those who read the file. If that fails, forgets the database, as after `own`.
    fn rest(&mut self)
        ensures rests { Rests (D.events self.old.session.storage.bytes.disk) (D.events self.new.session.storage.bytes.disk) }
        ensures safe { StaysSafe self.old.session.storage.place.settings.syncs self.old.session.storage.found (D.events self.old.session.storage.bytes.disk)
            self.new.session.storage.place.settings.syncs self.new.session.storage.found (D.events self.new.session.storage.bytes.disk) }
        ensures kept { IsKept self.old.session.storage.found (D.events self.old.session.storage.bytes.disk) self.old.session.database self.old.session.encoded
            → IsKept self.new.session.storage.found (D.events self.new.session.storage.bytes.disk) self.new.session.database self.new.session.encoded }
        ensures lets { LetsRead self.new.session.storage.found (D.events self.new.session.storage.bytes.disk) }
        ensures stayed { self.new.has_stayed ≡ true → (self.old.has_stayed ≡ true) × (self.new.session.database ≡ self.old.session.database) }
    {
        let is_shared = self.session.storage.turn_lock(Lock::Shared);
        if is_shared || self.session.database().is_none() {
            return;
        }
        self.session.forget();
        self.has_stayed = false;
    }

    /// Reads the database, unless it is in memory. Changes nothing.
    ///
    /// # Errors
    ///
    /// As for [`OpenFile::open`].
    pub fn load(&mut self, alloc: Global) -> Result<(), TaskFault>
        ensures safe { StaysSafe self.old.session.storage.place.settings.syncs self.old.session.storage.found (D.events self.old.session.storage.bytes.disk)
            self.new.session.storage.place.settings.syncs self.new.session.storage.found (D.events self.new.session.storage.bytes.disk) }
        ensures kept { IsKept self.old.session.storage.found (D.events self.old.session.storage.bytes.disk) self.old.session.database self.old.session.encoded
            → IsKept self.new.session.storage.found (D.events self.new.session.storage.bytes.disk) self.new.session.database self.new.session.encoded }
        ensures stays { IsKept self.old.session.storage.found (D.events self.old.session.storage.bytes.disk) self.old.session.database self.old.session.encoded
            → IsReload (D.events self.old.session.storage.bytes.disk) (D.events self.new.session.storage.bytes.disk) }
        ensures lets { LetsRead self.old.session.storage.found (D.events self.old.session.storage.bytes.disk)
            → LetsRead self.new.session.storage.found (D.events self.new.session.storage.bytes.disk) }
        ensures some { OnOk result (IsSome self.new.session.database) }
        ensures fault { IfErr result IsOfPlace }
        ensures same { (d : Stored) → self.old.session.database ≡ Some d
            → (is_ok result ≡ true) × (self.new.session.database ≡ Some d) }
    {
        self.session.storage.forget_error();
        if self.session.database().is_some() {
            return Ok(());
        }
        self.begin(Access::Read);
        self.session.database_is_valid();
        let loaded = self.session.load(alloc);
        self.rest();
        match loaded {
            Err(fault) => Err(fault),
            Ok(()) if self.session.database().is_none() => Err(TaskFault::CannotOpen),
            Ok(()) => Ok(()),
        }
    }

    /// Returns the database in memory, if there is one.
    pub fn database(&self) -> Option<&Database>
        ensures some { IfSome result (λ database. self.now.session.database ≡ Some database.now) }
        ensures none { IfNone result (self.now.session.database ≡ None) }
    {
        self.session.database()
    }

    /// Runs one command, as [`crate::run_command_at`] does on the file at a path.
    ///
    /// Theorem: as for [`crate::run_command_at`]. If a database is in memory, and the file stayed open, the command runs on
    /// it. Afterwards others may read the file.
    pub fn run<W: Write>(
        &mut self,
        alloc: Global,
        words: &Words<'_>,
        now: u64,
        out: &mut W,
    ) -> Result<(), TaskFault>
        ensures kept { IsKept self.old.session.storage.found (D.events self.old.session.storage.bytes.disk) self.old.session.database self.old.session.encoded
            → IsKept self.new.session.storage.found (D.events self.new.session.storage.bytes.disk) self.new.session.database self.new.session.encoded }
        ensures file { IsKept self.old.session.storage.found (D.events self.old.session.storage.bytes.disk) self.old.session.database self.old.session.encoded
            → IsOpenRun (D.events self.old.session.storage.bytes.disk) (D.events self.new.session.storage.bytes.disk)
            (command_run words.now now (W.contents out.old) (W.contents out.new) result) }
        ensures power { IsKept self.old.session.storage.found (D.events self.old.session.storage.bytes.disk) self.old.session.database self.old.session.encoded
            → SurvivesOpenRun self.old.session.storage.place.settings.syncs self.old.session.storage.found (D.events self.old.session.storage.bytes.disk)
            self.new.session.storage.place.settings.syncs self.new.session.storage.found (D.events self.new.session.storage.bytes.disk)
            (command_run words.now now (W.contents out.old) (W.contents out.new) result) }
        ensures stored { IsKept self.old.session.storage.found (D.events self.old.session.storage.bytes.disk) self.old.session.database self.old.session.encoded → IsOk result
            → StoresOpenRun self.old.session.storage.place.settings.syncs self.old.session.storage.found (D.events self.old.session.storage.bytes.disk)
            self.new.session.storage.place.settings.syncs self.new.session.storage.found (D.events self.new.session.storage.bytes.disk)
            (command_run words.now now (W.contents out.old) (W.contents out.new) result) }
        ensures lets { LetsRead self.new.session.storage.found (D.events self.new.session.storage.bytes.disk) }
        ensures on { (d : Stored) → self.old.session.database ≡ Some d → self.new.has_stayed ≡ true
            → IsSingleOn words.now now d self.new.session.database None None (W.contents out.old) (W.contents out.new) result }
    {
        self.begin(access_of_words(words));
        self.session.database_is_valid();
        let ended = self.session.run(alloc, words, now, out);
        self.rest();
        ended
    }

    /// Runs one command that was not read from words, as [`OpenFile::run`] runs one that was.
    ///
    /// Theorem: as for [`OpenFile::run`].
    pub fn run_command<W: Write>(
        &mut self,
        alloc: Global,
        command: Command,
        out: &mut W,
    ) -> Result<(), TaskFault>
        ensures kept { IsKept self.old.session.storage.found (D.events self.old.session.storage.bytes.disk) self.old.session.database self.old.session.encoded
            → IsKept self.new.session.storage.found (D.events self.new.session.storage.bytes.disk) self.new.session.database self.new.session.encoded }
        ensures file { IsKept self.old.session.storage.found (D.events self.old.session.storage.bytes.disk) self.old.session.database self.old.session.encoded
            → IsOpenRun (D.events self.old.session.storage.bytes.disk) (D.events self.new.session.storage.bytes.disk)
            (request_run command (W.contents out.old) (W.contents out.new) result) }
        ensures power { IsKept self.old.session.storage.found (D.events self.old.session.storage.bytes.disk) self.old.session.database self.old.session.encoded
            → SurvivesOpenRun self.old.session.storage.place.settings.syncs self.old.session.storage.found (D.events self.old.session.storage.bytes.disk)
            self.new.session.storage.place.settings.syncs self.new.session.storage.found (D.events self.new.session.storage.bytes.disk)
            (request_run command (W.contents out.old) (W.contents out.new) result) }
        ensures stored { IsKept self.old.session.storage.found (D.events self.old.session.storage.bytes.disk) self.old.session.database self.old.session.encoded → IsOk result
            → StoresOpenRun self.old.session.storage.place.settings.syncs self.old.session.storage.found (D.events self.old.session.storage.bytes.disk)
            self.new.session.storage.place.settings.syncs self.new.session.storage.found (D.events self.new.session.storage.bytes.disk)
            (request_run command (W.contents out.old) (W.contents out.new) result) }
        ensures lets { LetsRead self.new.session.storage.found (D.events self.new.session.storage.bytes.disk) }
        ensures on { (d : Stored) → self.old.session.database ≡ Some d → self.new.has_stayed ≡ true
            → RunsOn command d self.new.session.database None None (W.contents out.old) (W.contents out.new) result }
    {
        self.begin(access_of(&command));
        self.session.database_is_valid();
        let ended = self.session.run_command(alloc, command, out);
        self.rest();
        ended
    }

    /// Runs each line of `reader`, as [`crate::run_batch_at`] does on the file at a path. If `gate` does not allow the write,
    /// the batch ends as after a failed write.
    ///
    /// Theorem: as for [`crate::run_batch_at`]. If a database is in memory, and the file stayed open, the lines run on it.
    /// Afterwards others may read the file.
    pub fn run_batch<R: Read, W: Write, G: Gate>(
        &mut self,
        alloc: Global,
        now: u64,
        numbered: usize,
        reader: &mut R,
        out: &mut W,
        gate: &G,
    ) -> Result<FileBatchEnd, TaskFault>
        ensures kept { IsKept self.old.session.storage.found (D.events self.old.session.storage.bytes.disk) self.old.session.database self.old.session.encoded
            → IsKept self.new.session.storage.found (D.events self.new.session.storage.bytes.disk) self.new.session.database self.new.session.encoded }
        ensures file { IsKept self.old.session.storage.found (D.events self.old.session.storage.bytes.disk) self.old.session.database self.old.session.encoded
            → IsOpenRun (D.events self.old.session.storage.bytes.disk) (D.events self.new.session.storage.bytes.disk)
            (batch_run now numbered (R.remaining reader.old) (R.remaining reader.new)
            (W.contents out.old) (W.contents out.new) result) }
        ensures power { IsKept self.old.session.storage.found (D.events self.old.session.storage.bytes.disk) self.old.session.database self.old.session.encoded
            → SurvivesOpenRun self.old.session.storage.place.settings.syncs self.old.session.storage.found (D.events self.old.session.storage.bytes.disk)
            self.new.session.storage.place.settings.syncs self.new.session.storage.found (D.events self.new.session.storage.bytes.disk)
            (batch_run now numbered (R.remaining reader.old) (R.remaining reader.new)
            (W.contents out.old) (W.contents out.new) result) }
        ensures stored { IsKept self.old.session.storage.found (D.events self.old.session.storage.bytes.disk) self.old.session.database self.old.session.encoded → IsStored result
            → StoresOpenRun self.old.session.storage.place.settings.syncs self.old.session.storage.found (D.events self.old.session.storage.bytes.disk)
            self.new.session.storage.place.settings.syncs self.new.session.storage.found (D.events self.new.session.storage.bytes.disk)
            (batch_run now numbered (R.remaining reader.old) (R.remaining reader.new)
            (W.contents out.old) (W.contents out.new) result) }
        ensures lets { LetsRead self.new.session.storage.found (D.events self.new.session.storage.bytes.disk) }
        ensures on { (d : Stored) → self.old.session.database ≡ Some d → self.new.has_stayed ≡ true
            → IsFileBatchOn now numbered d self.new.session.database None None
            (R.remaining reader.old) (R.remaining reader.new) (W.contents out.old) (W.contents out.new) result }
    {
        self.begin(Access::ReadWrite);
        self.session.database_is_valid();
        let ended = self
            .session
            .run_batch(alloc, now, numbered, reader, out, gate);
        self.rest();
        ended
    }

    /// Closes the file, and returns the system with the record of its calls. What waits in the log is brought into place
    /// first. If a call fails, the changes stay in the log, and the next run on the file brings them into place.
    pub fn close(self) -> D
        ensures stays { IsKept self.session.storage.found (D.events self.session.storage.bytes.disk) self.session.database self.session.encoded
            → IsReload (D.events self.session.storage.bytes.disk) (D.events result) }
        ensures sound { IsKept self.session.storage.found (D.events self.session.storage.bytes.disk) self.session.database self.session.encoded
            → LeavesSound (D.events result) }
        ensures power { StaysSafe self.session.storage.place.settings.syncs self.session.storage.found (D.events self.session.storage.bytes.disk)
            self.session.storage.place.settings.syncs Unopened (D.events result) }
    {
        let mut storage = self.session.into_storage();
        storage.finish();
        storage.into_disk()
    }
}
