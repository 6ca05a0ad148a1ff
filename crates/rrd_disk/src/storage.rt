//! A file as the storage of a database. A run opens it once, and uses this file under one lock, whatever gets its name.
ghost use Rattle.std.specs.Prelude.{◌≡◌, IfErr, IfOk, IsTrue, None, Ok, OnErr, OnOk, Some, false};
ghost use Rattle.rrd_change.specs.Views.{Does, seen};
ghost use Rattle.rrd_change.specs.declared.log.Base.{Base};
ghost use Rattle.rrd_disk.specs.Asked.{view_of};
ghost use Rattle.rrd_disk.specs.Calls.{Falls, Rests, RestsFor};
ghost use Rattle.rrd_disk.specs.Entries.{SaysEntry};
ghost use Rattle.rrd_disk.specs.Known.{TellsMark};
ghost use Rattle.rrd_disk.specs.Locks.{IsTurned};
ghost use Rattle.rrd_disk.specs.Loading.{IsStandingIn};
ghost use Rattle.rrd_disk.specs.OpenRuns.{Finishes, Settles};
ghost use Rattle.rrd_disk.specs.Openings.{IsThere};
ghost use Rattle.rrd_disk.specs.Making.{IsUnwritable, Makes, MakesOrNot, MakesSafely, MayLoad, StaysUnmarked};
ghost use Rattle.rrd_disk.specs.Safe.{BeganAs, DoesSafely, DoesSafelyUnmarked, Opens, PutsSafely, Reopens};
ghost use Rattle.rrd_disk.specs.Storing.{AreMore, AreOf, Breaks, Changes, HasDecoded, IsAsLoaded, IsEmpty, IsOpen, Loads, LoadsAs, LoadsMarked, LoadsOpen, LoadsUnmarked, RepresentsBytes, Writes, WritesAll, WritesFirst, WritesOver};
ghost use Rattle.rrd_disk.specs.declared.disk.Opening.TheVariants.{Make};
ghost use Rattle.rrd_disk.specs.declared.storage.Found.TheVariants.{Kept, Missing, Open, Unopened, Unwritable};
ghost use Rattle.rrd_file.specs.Faults.{IsFile};
ghost use Rattle.rrd_store.specs.Storages.{Finds, IsAnyFile};
ghost use Rattle.rrd_store.specs.declared.storage.Access.TheVariants.{Read};
ghost use Rattle.rrd_store.specs.declared.faults.TaskFault.TheVariants.{CannotOpen};
ghost use Rattle.rrd_disk.specs.Surviving.{Becomes, BecomesOrNot, DoesOr, Replaces, ReplacesOrNot, StaysLeft};

use crate::file_bytes::{Entry, FileBytes};
use crate::laws::file_laws;
use crate::loading::{Standing, find_standing, load, load_pipe};
use crate::opening::not_regular;
use crate::preparing::{base_of, prepare};
use crate::{Disk, Location, Lock, Opening, Syncs};
use rrd_base::Database;
use rrd_change::{Base, Log, Span, change, create, mark, replace};
use rrd_file::Span as FileSpan;
use rrd_store::{Access, Loaded, Storage, TaskFault};
use std::alloc::Global;
use std::io::{self, Error, ErrorKind};

/// The state of the file in a run.
#[derive(Drop)]
pub(crate) enum Found {
    /// The run has not opened the file, or closed the file.
    Unopened,
    /// There was no file.
    Missing,
    /// The run cannot write the file, for this reason.
    Unwritable(Error),
    /// The file is open and locked. It is a database that the run may change, and begins like this.
    Open(Base),
    /// The same of a file with a mark: it was changed. The log, if there is one, has what waits to be brought into place.
    Kept(Base, Option<Log>),
}

/// The result of loading a database.
type LoadResult = Result<Option<Database>, TaskFault>;

/// What becomes of the file after its bytes were replaced.
#[derive(Clone, Copy, Debug, PartialEq, Eq)]
enum Afterwards {
    /// The run is over: the file is closed.
    Closed,
    /// Another run may follow: the file stays open and locked.
    Open,
}

/// The file of a system, as the storage of a database ([`Storage`]).
#[derive(Drop)]
pub(crate) struct FileStorage<D: Disk, L: Location> {
    bytes: FileBytes<D>,
    place: L,
    afterwards: Afterwards,
    found: Found,
}

// Returns the reason why a file does not stay open.
fn no_locks() -> Error {
    Error::new(ErrorKind::Unsupported, "the file system has no locks")
}

// Appends a span as the crate takes it that changes the file: what of it is within `count` bytes.
#[tactic(auto, using(crate::proofs::Spans::more_none, crate::proofs::Spans::more_pushed))]
fn push_within(spans: &mut Vec<Span>, span: FileSpan, count: usize) -> io::Result<()>
    ensures { OnOk result (AreMore count span spans.old.items spans.new.items) }
{
    let end = span.end.min(count);
    if end <= span.start {
        return Ok(());
    }
    spans.push(Span {
        start: span.start,
        end,
    })?;
    Ok(())
}

// Returns spans as the crate takes them that changes the file: what of them is within `count` bytes.
#[tactic(auto, using(crate::proofs::Spans::are_none, crate::proofs::Spans::are_more))]
fn spans_within(alloc: Global, changed: &[FileSpan], count: usize) -> io::Result<Vec<Span>>
    ensures { IfOk result (λ spans. AreOf count changed.now spans.items) }
{
    let mut spans = Vec::new(alloc);
    for number in 0..changed.len() {
        push_within(&mut spans, changed[number], count)?;
    }
    Ok(spans)
}

impl<D: Disk, L: Location> FileStorage<D, L> {
    // Creates the storage for the file of a system.
    fn at(disk: D, place: L, afterwards: Afterwards) -> FileStorage<D, L>
        ensures disk { result.bytes.disk ≡ disk }
        ensures found { result.found ≡ Unopened }
        ensures place { result.place ≡ place }
    {
        FileStorage {
            bytes: FileBytes::new(disk),
            place,
            afterwards,
            found: Found::Unopened,
        }
    }

    /// Creates the storage for the file of `disk`, for one run, without a call. Why a later one failed, it notes at `place`.
    pub fn new(disk: D, place: L) -> FileStorage<D, L>
        ensures disk { result.bytes.disk ≡ disk }
        ensures found { result.found ≡ Unopened }
        ensures place { result.place ≡ place }
    {
        FileStorage::at(disk, place, Afterwards::Closed)
    }

    /// Creates the storage for the file of `disk`, for several runs, as [`FileStorage::new`] does for one.
    ///
    /// The file stays open and locked after [`Storage::load`] for a change, and after [`Storage::replace`], until one of
    /// these calls fails, or [`FileStorage::turn_lock`]. A file that is missing, or cannot be locked, written or repaired,
    /// is not loaded: nobody could promise that it stays as it is.
    pub fn staying_open(disk: D, place: L) -> FileStorage<D, L>
        ensures disk { result.bytes.disk ≡ disk }
        ensures place { result.place ≡ place }
        ensures found { result.found ≡ Unopened }
    {
        FileStorage::at(disk, place, Afterwards::Open)
    }

    /// Forgets why the last call failed.
    pub(crate) fn forget_error(&self) {
        self.place.cause().clear();
    }

    /// Returns why the last call failed. Returns `None` if no call failed.
    pub(crate) fn last_error(&self) -> Option<Error> {
        self.place.cause().last()
    }

    /// Returns how a file begins that is not one of rrdi.
    pub(crate) fn mark(&self) -> [u8; 4] {
        self.place.cause().mark()
    }

    /// Closes the file, and returns the system with the record of its calls.
    pub fn into_disk(self) -> D
        ensures { result ≡ self.bytes.disk }
    {
        self.bytes.into_disk()
    }

    // Returns when the run syncs the file.
    fn syncs(&self) -> Syncs
        ensures { result ≡ L.syncs self.now.place }
    {
        self.place.settings().syncs
    }

    // Notes why the file could not be opened, and returns the fault.
    fn cannot_open(&self, error: Error) -> TaskFault
        ensures { result ≡ CannotOpen }
    {
        self.place.cause().set(error);
        TaskFault::CannotOpen
    }

    // Checks whether a file that was opened may not stay open: the file system has no locks, so others may write the file.
    fn is_shared(&self) -> bool {
        self.afterwards == Afterwards::Open && !self.bytes.is_locked()
    }

    // Opens and locks the file, and reads its first part.
    fn open(&mut self, opening: Opening) -> io::Result<Entry<D::Pipe>>
        ensures rests { RestsFor opening (D.events self.old.bytes.disk) (D.events self.new.bytes.disk) }
        ensures says { IfOk result (λ entry. SaysEntry entry (D.events self.new.bytes.disk)) }
        ensures found { self.new.found ≡ Unopened }
        ensures place { self.new.place ≡ self.old.place }
    {
        self.found = Found::Unopened;
        let wait = self.place.settings().wait;
        match self.bytes.open(opening, wait) {
            Ok(Entry::Open) if self.is_shared() => Err(no_locks()),
            opened => opened,
        }
    }

    // Notes that there is no file.
    fn miss(&mut self) -> LoadResult
        ensures disk { self.new.bytes ≡ self.old.bytes }
        ensures found { self.new.found ≡ Missing }
        ensures place { self.new.place ≡ self.old.place }
        ensures none { result ≡ Ok None }
    {
        self.found = Found::Missing;
        Ok(None)
    }

    // Checks whether the open file has a mark.
    #[tactic(auto, using(crate::proofs::Resting::rests_refl, crate::proofs::Resting::rests_trans))]
    fn is_marked(&mut self) -> Result<bool, TaskFault>
        ensures rests { Rests (D.events self.old.bytes.disk) (D.events self.new.bytes.disk) }
        ensures found { self.new.found ≡ self.old.found }
        ensures place { self.new.place ≡ self.old.place }
        ensures ok { IfOk result (λ is. TellsMark is (D.events self.new.bytes.disk)) }
        ensures err { IfErr result (λ fault. fault ≡ CannotOpen) }
    {
        match self.bytes.is_marked() {
            Ok(is_marked) => Ok(is_marked),
            Err(error) => Err(self.cannot_open(error)),
        }
    }

    // Returns the state of an open file without a mark, whose database was loaded.
    fn as_loaded(&self) -> Found
        ensures { IsAsLoaded result (D.events self.now.bytes.disk) }
    {
        match self.bytes.base() {
            Some(base) => Found::Open(base),
            None => Found::Unopened,
        }
    }

    // Loads the database of an open file without a mark, which the run may then change.
    #[tactic(auto, using(crate::proofs::Resting::rests_refl, crate::proofs::Resting::rests_trans))]
    fn load_unmarked(&mut self, alloc: Global) -> LoadResult
        ensures rests { Rests (D.events self.old.bytes.disk) (D.events self.new.bytes.disk) }
        ensures place { self.new.place ≡ self.old.place }
        ensures power { DoesSafelyUnmarked (Opens self.new.found) (L.syncs self.old.place) (D.events self.old.bytes.disk) (D.events self.new.bytes.disk) }
        ensures loads { LoadsUnmarked (D.events self.old.bytes.disk) (D.events self.new.bytes.disk) self.new.found result }
        ensures held { HasDecoded self.new.found self.new.bytes.front.bytes.items result }
        ensures valid { Finds None result }
    {
        file_laws();
        self.found = Found::Unopened;
        match load(alloc, &mut self.bytes, self.place.cause()) {
            Ok(database) => {
                self.found = self.as_loaded();
                Ok(Some(database))
            }
            Err(fault) => Err(fault),
        }
    }

    // Loads the database that an open file with a mark stands for. Repairs the file, which the run may then change; if the
    // file cannot be repaired, the run only reads the file. A file that is to stay open has to be repaired.
    fn load_marked(&mut self, alloc: Global) -> LoadResult
        ensures falls { Falls (D.events self.old.bytes.disk) (D.events self.new.bytes.disk) }
        ensures place { self.new.place ≡ self.old.place }
        ensures power { DoesSafely (Opens self.new.found) (L.syncs self.old.place) (D.events self.old.bytes.disk) (D.events self.new.bytes.disk) }
        ensures loads { LoadsMarked (D.events self.old.bytes.disk) (D.events self.new.bytes.disk) self.new.found result }
        ensures held { HasDecoded self.new.found self.new.bytes.front.bytes.items result }
        ensures valid { Finds None result }
    {
        file_laws();
        self.found = Found::Unopened;
        match find_standing(alloc, &mut self.bytes, self.place.cause()) {
            Ok(standing) => self.load_standing(alloc, standing),
            Err(fault) => Err(fault),
        }
    }

    // Repairs a file with a mark, for which this was found, and loads its database.
    fn load_standing(&mut self, alloc: Global, standing: Standing) -> LoadResult
        requires found { self.old.found ≡ Unopened }
        requires stands { IsStandingIn standing (D.events self.old.bytes.disk) }
        ensures falls { Falls (D.events self.old.bytes.disk) (D.events self.new.bytes.disk) }
        ensures place { self.new.place ≡ self.old.place }
        ensures power { DoesSafely (Opens self.new.found) (L.syncs self.old.place) (D.events self.old.bytes.disk) (D.events self.new.bytes.disk) }
        ensures loads { LoadsMarked (D.events self.old.bytes.disk) (D.events self.new.bytes.disk) self.new.found result }
        ensures held { HasDecoded self.new.found self.new.bytes.front.bytes.items result }
        ensures valid { Finds None result }
    {
        file_laws();
        let syncs = self.syncs();
        match standing.found.repair(&mut self.bytes, syncs) {
            Ok(()) => {
                // The database is read again from the file, and would need its memory twice.
                std::mem::drop(standing);
                self.load_unmarked(alloc)
            }
            Err(error) if self.afterwards == Afterwards::Open => Err(self.cannot_open(error)),
            Err(error) => {
                self.found = Found::Unwritable(error);
                Ok(Some(standing.database))
            }
        }
    }

    // Loads the database that an open file with a mark stands for. Does not change the file.
    #[tactic(auto, using(crate::proofs::Resting::rests_refl, crate::proofs::Resting::rests_trans))]
    fn read_marked(&mut self, alloc: Global) -> LoadResult
        ensures rests { Rests (D.events self.old.bytes.disk) (D.events self.new.bytes.disk) }
        ensures place { self.new.place ≡ self.old.place }
        ensures loads { LoadsMarked (D.events self.old.bytes.disk) (D.events self.new.bytes.disk) self.new.found result }
        ensures valid { Finds None result }
    {
        file_laws();
        self.found = Found::Unopened;
        match find_standing(alloc, &mut self.bytes, self.place.cause()) {
            Ok(standing) => Ok(Some(standing.database)),
            Err(fault) => Err(fault),
        }
    }

    // Loads the database of an open file, which the run may then change.
    fn load_open(&mut self, alloc: Global) -> LoadResult
        ensures falls { Falls (D.events self.old.bytes.disk) (D.events self.new.bytes.disk) }
        ensures place { self.new.place ≡ self.old.place }
        ensures power { DoesSafely (Opens self.new.found) (L.syncs self.old.place) (D.events self.old.bytes.disk) (D.events self.new.bytes.disk) }
        ensures unmarked { StaysUnmarked (D.events self.old.bytes.disk) (D.events self.new.bytes.disk) }
        ensures loads { LoadsOpen (D.events self.old.bytes.disk) (D.events self.new.bytes.disk) self.new.found result }
        ensures held { HasDecoded self.new.found self.new.bytes.front.bytes.items result }
        ensures valid { Finds None result }
    {
        self.found = Found::Unopened;
        match self.is_marked() {
            Ok(true) => self.load_marked(alloc),
            Ok(false) => self.load_unmarked(alloc),
            Err(fault) => Err(fault),
        }
    }

    // Loads the database of a file that the run only reads, under a lock that readers share. A file with a mark may be open
    // in another program, which has its log; or a change of it was interrupted, and the next change repairs it.
    #[tactic(auto, using(crate::proofs::Resting::rests_refl, crate::proofs::Resting::rests_trans))]
    fn load_shared(&mut self, alloc: Global) -> LoadResult
        ensures rests { Rests (D.events self.old.bytes.disk) (D.events self.new.bytes.disk) }
        ensures place { self.new.place ≡ self.old.place }
        ensures loads { LoadsOpen (D.events self.old.bytes.disk) (D.events self.new.bytes.disk) self.new.found result }
        ensures valid { Finds None result }
    {
        self.found = Found::Unopened;
        match self.is_marked() {
            Ok(true) => self.read_marked(alloc),
            Ok(false) => self.load_unmarked(alloc),
            Err(fault) => Err(fault),
        }
    }

    // Closes a file that the run only reads. `unwritable` is the reason why the run cannot write the file.
    fn leave(&mut self, unwritable: Error)
        ensures disk { self.new.bytes.disk ≡ self.old.bytes.disk }
        ensures found { self.new.found ≡ Unwritable unwritable }
        ensures place { self.new.place ≡ self.old.place }
    {
        self.bytes.close();
        self.found = Found::Unwritable(unwritable);
    }

    // Loads the database of a file that the run only reads. `unwritable` is the reason why the run cannot write it.
    #[tactic(auto, using(crate::proofs::Resting::rests_refl, crate::proofs::Resting::rests_trans))]
    fn load_to_read(&mut self, alloc: Global, unwritable: Error) -> LoadResult
        ensures rests { Rests (D.events self.old.bytes.disk) (D.events self.new.bytes.disk) }
        ensures place { self.new.place ≡ self.old.place }
        ensures power { DoesSafely (Opens self.new.found) (L.syncs self.old.place) (D.events self.old.bytes.disk) (D.events self.new.bytes.disk) }
        ensures loads { Loads (D.events self.old.bytes.disk) (D.events self.new.bytes.disk) self.new.found result }
        ensures held { HasDecoded self.new.found self.new.bytes.front.bytes.items result }
        ensures valid { Finds None result }
    {
        file_laws();
        match self.open(Opening::Read) {
            Ok(Entry::Open) => {
                let loaded = self.load_shared(alloc);
                self.leave(unwritable);
                loaded
            }
            Ok(Entry::Missing) => self.miss(),
            Ok(Entry::Pipe(mut pipe)) => {
                let loaded = load_pipe(alloc, &mut self.bytes, &mut pipe, self.place.cause());
                self.leave(unwritable);
                loaded
            }
            Ok(Entry::Refused(error)) | Err(error) => Err(self.cannot_open(error)),
        }
    }

    // Checks whether a run may go on without a file, and create it. A file that is to stay open has to be there: a later
    // run would take it for missing still. Without a directory a batch fails before its first line, not after its last.
    fn may_create(&self) -> bool {
        self.afterwards == Afterwards::Closed && self.bytes.disk().has_directory()
    }

    // Loads the database of a file under this run's own lock. If the run may not write the file, the run only reads it.
    fn load_to_change(&mut self, alloc: Global) -> LoadResult
        ensures falls { Falls (D.events self.old.bytes.disk) (D.events self.new.bytes.disk) }
        ensures place { self.new.place ≡ self.old.place }
        ensures power { DoesSafely (Opens self.new.found) (L.syncs self.old.place) (D.events self.old.bytes.disk) (D.events self.new.bytes.disk) }
        ensures unmarked { StaysUnmarked (D.events self.old.bytes.disk) (D.events self.new.bytes.disk) }
        ensures loads { Loads (D.events self.old.bytes.disk) (D.events self.new.bytes.disk) self.new.found result }
        ensures held { HasDecoded self.new.found self.new.bytes.front.bytes.items result }
        ensures valid { Finds None result }
    {
        file_laws();
        match self.open(Opening::Write) {
            Ok(Entry::Open) => self.load_open(alloc),
            Ok(Entry::Missing) if self.may_create() => self.miss(),
            Ok(Entry::Missing) => Err(self.cannot_open(Error::from(ErrorKind::NotFound))),
            Ok(Entry::Pipe(_)) => Err(self.cannot_open(not_regular())),
            Ok(Entry::Refused(error)) if self.afterwards == Afterwards::Closed => {
                self.load_to_read(alloc, error)
            }
            Ok(Entry::Refused(error)) | Err(error) => Err(self.cannot_open(error)),
        }
    }

    // Checks whether the file is open and locked since an earlier run.
    fn is_open(&self) -> bool
        ensures { IsTrue result → IsOpen self.now.found }
    {
        matches!(self.found, Found::Open(_) | Found::Kept(_, _))
    }

    // Checks whether the file may be loaded: the run has not found that it cannot write the file.
    fn may_load(&self) -> bool
        ensures { IsTrue result → MayLoad self.now.found }
    {
        matches!(
            self.found,
            Found::Unopened | Found::Missing | Found::Open(_) | Found::Kept(_, _)
        )
    }

    // Loads the database, for reading or for a change. A file that stayed open is read again under the same lock. Only a
    // load for a change may repair the file.
    fn load_for(&mut self, alloc: Global, access: Access) -> LoadResult
        ensures falls { Falls (D.events self.old.bytes.disk) (D.events self.new.bytes.disk) }
        ensures reads { access ≡ Read → Rests (D.events self.old.bytes.disk) (D.events self.new.bytes.disk) }
        ensures place { self.new.place ≡ self.old.place }
        ensures power { DoesSafely (Reopens self.old.found self.new.found) (L.syncs self.old.place) (D.events self.old.bytes.disk) (D.events self.new.bytes.disk) }
        ensures unmarked { StaysUnmarked (D.events self.old.bytes.disk) (D.events self.new.bytes.disk) }
        ensures loads { LoadsAs self.old.found (D.events self.old.bytes.disk) (D.events self.new.bytes.disk) self.new.found result }
        ensures held { HasDecoded self.new.found self.new.bytes.front.bytes.items result }
        ensures valid { Finds None result }
    {
        match access {
            Access::Read => self.load_to_read(alloc, Error::from(ErrorKind::PermissionDenied)),
            Access::ReadWrite if self.is_open() => self.load_open(alloc),
            Access::ReadWrite => self.load_to_change(alloc),
        }
    }

    // Returns a database that was loaded, with the bytes of its file, if they are in memory.
    fn with_bytes(&mut self, database: Database) -> Loaded
        requires { (base : Base) → self.old.found ≡ Open base → IsFile self.old.bytes.front.bytes.items database }
        ensures disk { self.new.bytes.disk ≡ self.old.bytes.disk }
        ensures found { self.new.found ≡ self.old.found }
        ensures place { self.new.place ≡ self.old.place }
        ensures database { result.database ≡ Some database }
        ensures bytes { RepresentsBytes result.encoded (D.events self.new.bytes.disk) }
    {
        file_laws();
        match self.found {
            Found::Open(_) if self.bytes.is_whole() => {
                Loaded::with_bytes(database, self.bytes.give_front())
            }
            _ => Loaded::without_bytes(Some(database)),
        }
    }

    // Closes the file, and forgets what was found.
    fn let_go(&mut self)
        ensures disk { self.new.bytes.disk ≡ self.old.bytes.disk }
        ensures place { self.new.place ≡ self.old.place }
        ensures found { self.new.found ≡ Unopened }
    {
        self.found = Found::Unopened;
        self.bytes.close();
    }

    /// Turns the lock of a file that stays open, by one try. If that fails (`false`), closes the file: others may change it.
    pub(crate) fn turn_lock(&mut self, lock: Lock) -> bool
        ensures rests { Rests (D.events self.old.bytes.disk) (D.events self.new.bytes.disk) }
        ensures place { self.new.place ≡ self.old.place }
        ensures turned { IsTrue result → (self.new.found ≡ self.old.found) × IsTurned lock (D.events self.new.bytes.disk) }
        ensures closed { result ≡ false → self.new.found ≡ Unopened }
    {
        if self.is_open() {
            match self.bytes.turn_lock(lock) {
                Ok(()) => return true,
                Err(error) => self.place.cause().set(error),
            }
        }
        self.let_go();
        false
    }

    // Brings into place what waits in the log of a file that stayed open, and removes the mark.
    fn settle(&mut self)
        ensures falls { Falls (D.events self.old.bytes.disk) (D.events self.new.bytes.disk) }
        ensures prepares { Settles (D.events self.old.bytes.disk) (D.events self.new.bytes.disk) }
        ensures power { DoesSafely StaysLeft (L.syncs self.old.place) (D.events self.old.bytes.disk) (D.events self.new.bytes.disk) }
    {
        if !self.turn_lock(Lock::Own) {
            return;
        }
        let alloc = self.bytes.disk().alloc();
        let syncs = self.syncs();
        let _ended = prepare(alloc, &mut self.bytes, self.place.cause(), syncs);
    }

    /// Ends the runs on a file that stayed open: brings into place what waits in its log, and removes the mark. If a call
    /// fails, or somebody reads the file at this moment, the next change of the file does so.
    pub(crate) fn finish(&mut self)
        ensures falls { Falls (D.events self.old.bytes.disk) (D.events self.new.bytes.disk) }
        ensures same { Finishes self.old.found (D.events self.old.bytes.disk) (D.events self.new.bytes.disk) }
        ensures power { DoesSafely (Reopens self.old.found Unopened) (L.syncs self.old.place) (D.events self.old.bytes.disk) (D.events self.new.bytes.disk) }
    {
        file_laws();
        match &self.found {
            Found::Kept(_, _) => self.settle(),
            _ => {}
        }
    }

    // Opens the file for writing, whatever it contains. Creates it if there is none, also where a symbolic link leads.
    fn make(&mut self) -> io::Result<()>
        ensures rests { RestsFor Make (D.events self.old.bytes.disk) (D.events self.new.bytes.disk) }
        ensures there { OnOk result (IsThere (D.events self.new.bytes.disk)) }
        ensures found { self.new.found ≡ Unopened }
        ensures place { self.new.place ≡ self.old.place }
    {
        match self.open(Opening::Make)? {
            Entry::Open => Ok(()),
            Entry::Missing => Err(Error::from(ErrorKind::NotFound)),
            Entry::Pipe(_) => Err(not_regular()),
            Entry::Refused(error) => Err(error),
        }
    }

    // Creates an empty file. If another program has created and written the file meanwhile, the other program's file stays.
    fn make_empty(&mut self) -> io::Result<()>
        ensures rests { RestsFor Make (D.events self.old.bytes.disk) (D.events self.new.bytes.disk) }
        ensures empty { OnOk result (IsEmpty (D.events self.new.bytes.disk)) }
        ensures found { self.new.found ≡ Unopened }
        ensures place { self.new.place ≡ self.old.place }
    {
        self.make()?;
        if !self.bytes.is_empty() {
            return Err(Error::new(
                ErrorKind::AlreadyExists,
                "another program has written the file meanwhile",
            ));
        }
        Ok(())
    }

    // Writes a database to a file that was missing.
    fn put_new(&mut self, bytes: &[u8]) -> io::Result<()>
        requires { IsAnyFile bytes.now }
        ensures falls { Falls (D.events self.old.bytes.disk) (D.events self.new.bytes.disk) }
        ensures place { self.new.place ≡ self.old.place }
        ensures writes { WritesAll Missing self.new.found bytes.now (D.events self.old.bytes.disk) (D.events self.new.bytes.disk) result }
        ensures began { OnOk result (BeganAs bytes.now self.new.found) }
        ensures makes { DoesOr (λ _. Makes Missing bytes.now) (MakesOrNot Missing bytes.now) result (L.syncs self.old.place) (D.events self.old.bytes.disk) (D.events self.new.bytes.disk) }
    {
        file_laws();
        self.make_empty()?;
        let syncs = self.syncs();
        create(&mut self.bytes, bytes, syncs)?;
        self.found = Found::Open(base_of(bytes));
        Ok(())
    }

    // Replaces all bytes of the database of an open file, which began like this.
    fn put_all(&mut self, alloc: Global, base: &Base, bytes: &[u8]) -> io::Result<()>
        requires any { IsAnyFile bytes.now }
        requires found { self.old.found ≡ Unopened }
        ensures falls { Falls (D.events self.old.bytes.disk) (D.events self.new.bytes.disk) }
        ensures place { self.new.place ≡ self.old.place }
        ensures began { OnOk result (BeganAs bytes.now self.new.found) }
        ensures writes { WritesOver base.now self.new.found bytes.now (D.events self.old.bytes.disk) (D.events self.new.bytes.disk) result }
        ensures power { DoesOr (λ _. Replaces base.now bytes.now) (ReplacesOrNot base.now bytes.now) result (L.syncs self.old.place) (D.events self.old.bytes.disk) (D.events self.new.bytes.disk) }
    {
        file_laws();
        let syncs = self.syncs();
        let all = [Span {
            start: 0,
            end: bytes.len(),
        }];
        match replace(alloc, &mut self.bytes, base, bytes, &all, syncs) {
            Ok(()) => {
                self.found = Found::Open(base_of(bytes));
                Ok(())
            }
            Err(error) => Err(error),
        }
    }

    // Writes a database to an open file, in place of bytes that are none.
    fn put_first(&mut self, bytes: &[u8]) -> io::Result<()>
        requires any { IsAnyFile bytes.now }
        requires found { self.old.found ≡ Unopened }
        ensures falls { Falls (D.events self.old.bytes.disk) (D.events self.new.bytes.disk) }
        ensures place { self.new.place ≡ self.old.place }
        ensures began { OnOk result (BeganAs bytes.now self.new.found) }
        ensures writes { WritesFirst self.new.found bytes.now (D.events self.old.bytes.disk) (D.events self.new.bytes.disk) result }
        ensures makes { DoesOr (λ _. Makes Unopened bytes.now) (MakesOrNot Unopened bytes.now) result (L.syncs self.old.place) (D.events self.old.bytes.disk) (D.events self.new.bytes.disk) }
    {
        file_laws();
        let syncs = self.syncs();
        self.bytes.truncate(syncs)?;
        match create(&mut self.bytes, bytes, syncs) {
            Ok(()) => {
                self.found = Found::Open(base_of(bytes));
                Ok(())
            }
            Err(error) => Err(error),
        }
    }

    // Opens the file, and replaces its database; or writes one in place of bytes that are none.
    fn put_anew(&mut self, alloc: Global, bytes: &[u8]) -> io::Result<()>
        requires { IsAnyFile bytes.now }
        ensures falls { Falls (D.events self.old.bytes.disk) (D.events self.new.bytes.disk) }
        ensures place { self.new.place ≡ self.old.place }
        ensures began { OnOk result (BeganAs bytes.now self.new.found) }
        ensures writes { WritesAll Unopened self.new.found bytes.now (D.events self.old.bytes.disk) (D.events self.new.bytes.disk) result }
        ensures power { DoesOr (λ _. Becomes bytes.now) (BecomesOrNot bytes.now) result (L.syncs self.old.place) (D.events self.old.bytes.disk) (D.events self.new.bytes.disk) }
        ensures makes { DoesOr (λ _. Makes Unopened bytes.now) (MakesOrNot Unopened bytes.now) result (L.syncs self.old.place) (D.events self.old.bytes.disk) (D.events self.new.bytes.disk) }
    {
        file_laws();
        self.make()?;
        let syncs = self.syncs();
        match prepare(alloc, &mut self.bytes, self.place.cause(), syncs) {
            Ok(Some(base)) => self.put_all(alloc, &base, bytes),
            Ok(None) => self.put_first(bytes),
            Err(error) => Err(error),
        }
    }

    // Changes a file that stays open, and has a mark.
    fn put_kept(
        &mut self,
        alloc: Global,
        base: &Base,
        log: Option<Log>,
        bytes: &[u8],
        spans: &[Span],
    ) -> io::Result<()>
        requires { IsAnyFile bytes.now }
        ensures does { Does (λ _. Changes (Kept base.now log) self.new.found spans.now bytes.now) (Breaks (Kept base.now log) spans.now bytes.now) result
            (seen (L.syncs self.old.place) (view_of (D.events self.old.bytes.disk))) (seen (L.syncs self.old.place) (view_of (D.events self.new.bytes.disk))) }
        ensures place { self.new.place ≡ self.old.place }
        ensures open { OnOk result (IsOpen self.new.found) }
        ensures found { OnErr result (self.new.found ≡ self.old.found) }
    {
        file_laws();
        let syncs = self.syncs();
        let kept = change(alloc, &mut self.bytes, log, base, bytes, spans, syncs)?;
        self.found = Found::Kept(base_of(bytes), kept);
        Ok(())
    }

    // Changes a file that was found open. A file that stays open gets a mark first.
    fn put_open(
        &mut self,
        alloc: Global,
        base: &Base,
        bytes: &[u8],
        spans: &[Span],
    ) -> io::Result<()>
        requires { IsAnyFile bytes.now }
        ensures does { Does (λ _. Changes (Open base.now) self.new.found spans.now bytes.now) (Breaks (Open base.now) spans.now bytes.now) result
            (seen (L.syncs self.old.place) (view_of (D.events self.old.bytes.disk))) (seen (L.syncs self.old.place) (view_of (D.events self.new.bytes.disk))) }
        ensures place { self.new.place ≡ self.old.place }
        ensures open { OnOk result (IsOpen self.new.found) }
        ensures found { OnErr result (self.new.found ≡ self.old.found) }
    {
        file_laws();
        let syncs = self.syncs();
        match self.afterwards {
            Afterwards::Open => {
                mark(&mut self.bytes, syncs)?;
                self.put_kept(alloc, base, None, bytes, spans)
            }
            Afterwards::Closed => {
                replace(alloc, &mut self.bytes, base, bytes, spans, syncs)?;
                self.found = Found::Open(base_of(bytes));
                Ok(())
            }
        }
    }

    // Opens the file, if it is not open, and replaces its bytes.
    fn put(&mut self, alloc: Global, bytes: &[u8], changed: &[FileSpan]) -> io::Result<()>
        requires { IsAnyFile bytes.now }
        ensures falls { Falls (D.events self.old.bytes.disk) (D.events self.new.bytes.disk) }
        ensures writes { Writes self.old.found self.new.found changed.now bytes.now (D.events self.old.bytes.disk) (D.events self.new.bytes.disk) result }
        ensures place { self.new.place ≡ self.old.place }
        ensures safe { PutsSafely (L.syncs self.old.place) self.old.found self.new.found changed.now bytes.now (D.events self.old.bytes.disk) (D.events self.new.bytes.disk) result }
        ensures power { self.old.found ≡ Unopened → DoesOr (λ _. Becomes bytes.now) (BecomesOrNot bytes.now) result (L.syncs self.old.place) (D.events self.old.bytes.disk) (D.events self.new.bytes.disk) }
        ensures makes { MakesSafely (L.syncs self.old.place) self.old.found self.new.found bytes.now (D.events self.old.bytes.disk) (D.events self.new.bytes.disk) result }
    {
        file_laws();
        let spans = spans_within(alloc, changed, bytes.len())?;
        match std::mem::replace(&mut self.found, Found::Unopened) {
            Found::Unopened => self.put_anew(alloc, bytes),
            Found::Missing => self.put_new(bytes),
            Found::Unwritable(error) => Err(error),
            Found::Open(base) => self.put_open(alloc, &base, bytes, &spans),
            Found::Kept(base, log) => self.put_kept(alloc, &base, log, bytes, &spans),
        }
    }

    /// Replaces the bytes of the file, of which only these may differ. Then keeps the file open, or closes it. A run that
    /// fails to write the file does not write it again.
    pub(crate) fn write(&mut self, bytes: &[u8], changed: &[FileSpan]) -> io::Result<()>
        requires { IsAnyFile bytes.now }
        ensures falls { Falls (D.events self.old.bytes.disk) (D.events self.new.bytes.disk) }
        ensures writes { Writes self.old.found self.new.found changed.now bytes.now (D.events self.old.bytes.disk) (D.events self.new.bytes.disk) result }
        ensures place { self.new.place ≡ self.old.place }
        ensures safe { PutsSafely (L.syncs self.old.place) self.old.found self.new.found changed.now bytes.now (D.events self.old.bytes.disk) (D.events self.new.bytes.disk) result }
        ensures closed { OnErr result (IsUnwritable self.new.found) }
        ensures power { self.old.found ≡ Unopened → DoesOr (λ _. Becomes bytes.now) (BecomesOrNot bytes.now) result (L.syncs self.old.place) (D.events self.old.bytes.disk) (D.events self.new.bytes.disk) }
        ensures makes { MakesSafely (L.syncs self.old.place) self.old.found self.new.found bytes.now (D.events self.old.bytes.disk) (D.events self.new.bytes.disk) result }
    {
        file_laws();
        let alloc = self.bytes.disk().alloc();
        let ended = self.put(alloc, bytes, changed);
        match (&ended, self.afterwards) {
            (Ok(()), Afterwards::Open) => {}
            (Ok(()), Afterwards::Closed) => self.let_go(),
            (Err(error), _) => self.leave(*error),
        }
        ended
    }
}

impl<D: Disk, L: Location> Storage for FileStorage<D, L> {
    ghost use Rattle.rrd_disk.specs.Contents.{contents_after, is_honest_by};
    ghost use Rattle.rrd_disk.specs.Making.{is_safe_by};
    ghost use Rattle.rrd_disk.specs.Storing.{is_sound_by};

    ghost contents = { λ s f. contents_after s (D.Disk.events f.bytes.disk) };

    ghost is_honest = { λ s f. is_honest_by s (D.Disk.events f.bytes.disk) };

    ghost is_sound = { λ s f. is_sound_by s f.found (D.Disk.events f.bytes.disk) };

    ghost is_safe = { λ s d q f. is_safe_by s d q (L.Location.syncs f.place) f.found (D.Disk.events f.bytes.disk) };

    fn load(&mut self, alloc: Global, access: Access) -> Result<Option<Database>, TaskFault> {
        file_laws();
        if !self.may_load() {
            return Err(TaskFault::CannotOpen);
        }
        let loaded = self.load_for(alloc, access);
        if loaded.is_err() {
            self.let_go();
        }
        loaded
    }

    fn load_to_update(&mut self, alloc: Global) -> Result<Loaded, TaskFault> {
        file_laws();
        if !self.may_load() {
            return Err(TaskFault::CannotOpen);
        }
        match self.load_for(alloc, Access::ReadWrite) {
            Ok(Some(database)) => Ok(self.with_bytes(database)),
            Ok(None) => Ok(Loaded::without_bytes(None)),
            Err(fault) => {
                self.let_go();
                Err(fault)
            }
        }
    }

    fn replace(&mut self, bytes: &[u8]) -> io::Result<()> {
        file_laws();
        let all = [FileSpan {
            start: 0,
            end: bytes.len(),
        }];
        let ended = self.write(bytes, &all);
        self.place.cause().note_write(&ended);
        ended
    }

    fn replace_where(&mut self, bytes: &[u8], changed: &[FileSpan]) -> io::Result<()> {
        file_laws();
        let ended = self.write(bytes, changed);
        self.place.cause().note_write(&ended);
        ended
    }
}
