//! A storage in memory that may fail.
ghost use Rattle.std.specs.Prelude.{◌≡◌, ◌<◌, IfOk, IsTrue, Some, if◌then◌else◌, length, ⊤};
ghost use Rattle.rrd_file.specs.Faults.{IsFile};
ghost use Rattle.rrd_store.specs.Sessions.{HasBytes};
ghost use Rattle.rrd_store.specs.Storages.{Bytes, HasNone, IsAnyFile, IsNoFile, Missing};

use rrd_base::Database;
use rrd_file::Span;
use rrd_file::laws::{file_begins, file_is_layout, layouts_differ};
use rrd_store::{Access, Loaded, Storage, TaskFault, decoded};
use std::alloc::{AllocError, Global};
use std::io::{self, Error, ErrorKind};

// How a change ends that was written whole.
#[derive(Clone, Copy, PartialEq, Eq)]
pub(crate) enum Ending {
    // Well.
    Whole,
    // It fails, and the old bytes stay.
    OldStays,
    // It fails, and the new bytes are there.
    NewStays,
}

// The least number of bytes of a database.
const LEAST: usize = 16;

// Bytes in memory, or nothing there. It may refuse to be opened, or a change to begin or to end,
// and takes no more bytes than it has room for. Where those of a change are not all taken, a database
// keeps its own; where there was none, those that were taken are there.
#[derive(Drop)]
pub(crate) struct InMemory {
    alloc: Global,
    is_missing: bool,
    pub(crate) bytes: Vec<u8>,
    pub(crate) opens: bool,
    pub(crate) begins: bool,
    pub(crate) ending: Ending,
    // The one change that ends so, counted from 0 on; each change, if there is none.
    pub(crate) ending_at: Option<usize>,
    changes: usize,
    pub(crate) room: usize,
    // Whether an update gets the bytes with the database.
    pub(crate) gives_bytes: bool,
    // What it was opened for last, and how many bytes it was to take.
    pub(crate) access: Option<Access>,
    pub(crate) expected: Option<usize>,
    // The spans of the last change, if it came with spans: those that have a byte. Whether each change that came with
    // spans differed within them alone.
    pub(crate) spans: Option<Vec<(usize, usize)>>,
    pub(crate) agrees: bool,
}

// The spans that have a byte.
fn some_bytes(alloc: Global, changed: &[Span]) -> Result<Vec<(usize, usize)>, AllocError> {
    let mut spans = Vec::new(alloc);
    for span in changed {
        if span.start < span.end {
            spans.push((span.start, span.end))?;
        }
    }
    Ok(spans)
}

// Checks that each new byte outside the spans is the old byte there.
fn agrees_outside(changed: &[Span], old: &[u8], new: &[u8]) -> bool {
    for (at, byte) in new.iter().enumerate() {
        let named = changed.iter().any(|s| s.start <= at && at < s.end);
        if !named && old.get(at).copied() != Some(*byte) {
            return false;
        }
    }
    true
}

impl InMemory {
    pub(crate) fn missing(alloc: Global) -> InMemory {
        InMemory::of(alloc, true, Vec::new(alloc))
    }

    pub(crate) fn with(alloc: Global, bytes: &[u8]) -> Result<InMemory, AllocError> {
        let bytes = Vec::from_slice(alloc, bytes)?;
        Ok(InMemory::of(alloc, false, bytes))
    }

    fn of(alloc: Global, is_missing: bool, bytes: Vec<u8>) -> InMemory {
        InMemory {
            alloc,
            is_missing,
            bytes,
            opens: true,
            begins: true,
            ending: Ending::Whole,
            ending_at: None,
            changes: 0,
            room: usize::MAX,
            gives_bytes: false,
            access: None,
            expected: None,
            spans: None,
            agrees: true,
        }
    }

    // How the next change ends.
    fn next_ending(&mut self) -> Ending
        ensures bytes { self.new.bytes ≡ self.old.bytes }
        ensures missing { self.new.is_missing ≡ self.old.is_missing }
    {
        let number = self.changes;
        self.changes = number.saturating_add(1);
        match self.ending_at {
            Some(at) if at != number => Ending::Whole,
            _ => self.ending,
        }
    }

    // The database with a copy of its file, if there is memory for one.
    fn with_copy(&self, database: Database) -> Loaded
        requires { IsFile self.now.bytes.items database }
        ensures database { result.database ≡ Some database }
        ensures bytes { HasBytes (Some (Bytes self.now.bytes.items)) result.encoded }
    {
        match Vec::from_slice(self.alloc, &self.bytes) {
            Ok(bytes) => Loaded::with_bytes(database, bytes),
            Err(_) => Loaded::without_bytes(Some(database)),
        }
    }

    // Checks that there is nothing, or less than a database.
    fn has_no_database(&self) -> bool
        ensures { IsTrue result → HasNone (if self.now.is_missing then Missing else Bytes self.now.bytes.items) }
    {
        file_begins();
        self.is_missing || self.bytes.len() < LEAST
    }
}

// The front of the file of a database, which is no database.
fn front_of(alloc: Global, bytes: &[u8], room: usize) -> Result<Vec<u8>, AllocError>
    requires whole { IsAnyFile bytes.now }
    requires short { room < length bytes.now }
    ensures { IfOk result (λ front. IsNoFile front.items) }
{
    file_is_layout();
    layouts_differ();
    Vec::from_slice(alloc, &bytes[..room])
}

impl Storage for InMemory {
    ghost contents = { λ s it. Some (if it.is_missing then Missing else Bytes it.bytes.items) };

    ghost is_honest = { λ s it. ⊤ };

    ghost is_sound = { λ s it. ⊤ };

    ghost is_safe = { λ s d q it. ⊤ };

    fn load(&mut self, alloc: Global, access: Access) -> Result<Option<Database>, TaskFault> {
        self.access = Some(access);
        if !self.opens {
            return Err(TaskFault::CannotOpen);
        }
        if self.is_missing {
            return Ok(None);
        }
        match decoded(alloc, &self.bytes) {
            Ok(database) => Ok(Some(database)),
            Err(fault) => Err(fault),
        }
    }

    fn load_to_update(&mut self, alloc: Global) -> Result<Loaded, TaskFault> {
        match self.load(alloc, Access::ReadWrite)? {
            Some(database) if self.gives_bytes => Ok(self.with_copy(database)),
            database => Ok(Loaded::without_bytes(database)),
        }
    }

    fn replace_where(&mut self, bytes: &[u8], changed: &[Span]) -> io::Result<()> {
        self.agrees = self.agrees && agrees_outside(changed, &self.bytes, bytes);
        let spans = some_bytes(self.alloc, changed)?;
        let ended = self.replace(bytes);
        self.spans = Some(spans);
        ended
    }

    fn replace(&mut self, bytes: &[u8]) -> io::Result<()> {
        self.spans = None;
        self.expected = Some(bytes.len());
        let ending = self.next_ending();
        if !self.begins || ending == Ending::OldStays {
            return Err(Error::from(ErrorKind::PermissionDenied));
        }
        if self.room < bytes.len() {
            if self.has_no_database() {
                self.bytes = front_of(self.alloc, bytes, self.room)?;
                self.is_missing = false;
            }
            return Err(Error::from(ErrorKind::StorageFull));
        }
        self.bytes = Vec::from_slice(self.alloc, bytes)?;
        self.is_missing = false;
        if ending == Ending::NewStays {
            return Err(Error::from(ErrorKind::Other));
        }
        Ok(())
    }
}
