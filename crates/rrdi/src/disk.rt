//! The files of the system, by calls of the runtime, with the record of the calls on the file of a run.
//!
//! Each method of `Host` makes one call, and notes the call with its answer. The theorems about files stand on that: a body
//! that noted a call that it does not make, or another answer, would be proved too.
ghost use Rattle.std.specs.Prelude.{◌≡◌, []};

use rrd_disk::{
    Disk, DiskFile, Facts, Kind, Lock, LockResult, Noted, Opening, Record, directory_of, note_lock,
};
use std::alloc::Global;
use std::cell::Cell;
use std::fs::{self, File, Metadata};
use std::io::{self, Error, ErrorKind, Read};
use std::os::fd::AsRawFd;
use std::os::unix::fs::{FileExt, FileTypeExt, MetadataExt};
use std::thread::sleep;
use std::time::{Duration, Instant};

/// The highest number of a standard stream.
const LAST_STREAM: i32 = 2;

/// The open file.
#[derive(Drop)]
pub(crate) struct HostFile {
    file: File,
}

/// The open pipe, if the file is one.
#[derive(Drop)]
pub(crate) struct HostPipe {
    pipe: File,
}

impl DiskFile for HostFile {
    fn unlock(&self) -> io::Result<()> {
        self.file.unlock()
    }
}

// Tries once to lock an open file.
fn try_lock(file: &File, lock: Lock) -> io::Result<()> {
    match lock {
        Lock::Shared => file.try_lock_shared()?,
        Lock::Own => file.try_lock()?,
    }
    Ok(())
}

// Moves a file that took the number of a standard stream to a higher number. If the stream is closed, what the program
// writes to the stream must not land in the file.
fn above_streams(file: File) -> io::Result<File> {
    if file.as_raw_fd() > LAST_STREAM {
        return Ok(file);
    }
    file.try_clone()
}

/// The file at a path, by calls of the runtime, with the record of the calls on the file of a run.
#[derive(Drop)]
pub(crate) struct Host<'a> {
    rt: &'a HostRuntime,
    path: &'a str,
    // When the wait for the file's lock began, and how many milliseconds of it were told.
    waits: Cell<Option<Instant>>,
    told: Cell<u64>,
    pub(crate) record: Record,
}

impl<'a> Host<'a> {
    /// Creates the system whose runtime opens the file at `path`. No call is noted so far.
    pub(crate) fn new(rt: &'a HostRuntime, path: &'a str) -> Host<'a>
        ensures { result.record.events ≡ [] }
    {
        Host {
            rt,
            path,
            waits: Cell::new(None),
            told: Cell::new(0),
            record: Record::of_program(rt),
        }
    }

    // Returns the kind of the file, of which the system reports `known`.
    fn kind_at(&self, known: &Metadata) -> Kind {
        if known.file_type().is_fifo() && self.is_without_name() {
            return Kind::Pipe;
        }
        kind_of(known)
    }

    // Checks whether the path, such as `/dev/stdin`, leads to an open file that has no name of its own.
    fn is_without_name(&self) -> bool {
        match fs::canonicalize(self.rt, self.path) {
            Ok(_) => false,
            Err(error) => error.kind() == ErrorKind::NotFound,
        }
    }
}

// Returns the whole milliseconds since a time. Returns 0 if the clock fails.
fn milliseconds_since(rt: &HostRuntime, begun: &Instant) -> u64 {
    match begun.elapsed(rt) {
        Ok(since) => u64::try_from(since.as_millis()).unwrap_or(u64::MAX),
        Err(_) => 0,
    }
}

// Returns the kind of a file of which the system reports `known`, as if each pipe had a name.
fn kind_of(known: &Metadata) -> Kind {
    if known.is_file() {
        Kind::Regular
    } else if known.is_dir() {
        Kind::Directory
    } else {
        Kind::Other
    }
}

// Returns the facts of a file of this kind, of which the system reports `known`.
fn facts_of(kind: Kind, known: &Metadata) -> Facts {
    Facts {
        kind,
        length: known.len(),
        device: known.dev(),
        inode: known.ino(),
    }
}

// Opens the file at `path`. Returns `None` if there is no file, or no directory for a new one.
fn open(rt: &HostRuntime, path: &str, opening: Opening) -> io::Result<Option<File>> {
    let found = File::options()
        .read(true)
        .write(opening != Opening::Read)
        .create(opening == Opening::Make)
        .open(rt, path);
    match found {
        Ok(file) => Ok(Some(above_streams(file)?)),
        Err(error) if error.kind() == ErrorKind::NotFound => Ok(None),
        Err(error) => Err(error),
    }
}

impl<'a> Disk for Host<'a> {
    ghost events = { λ host. host.record.events };

    type File = HostFile;

    type Pipe = HostPipe;

    fn alloc(&self) -> Global {
        self.rt.alloc()
    }

    fn open(&mut self, opening: Opening) -> io::Result<Option<HostFile>> {
        // A wait for the file's lock begins here.
        self.waits.set(Instant::now(self.rt).ok());
        self.told.set(0);
        let Some(file) = open(self.rt, self.path, opening)? else {
            self.record.note(&Noted::Missing);
            return Ok(None);
        };
        match opening {
            Opening::Make => self.record.note(&Noted::Made),
            Opening::Read | Opening::Write => self.record.note(&Noted::Found),
        }
        Ok(Some(HostFile { file }))
    }

    fn open_pipe(&mut self) -> io::Result<Option<HostPipe>> {
        let Some(pipe) = open(self.rt, self.path, Opening::Read)? else {
            self.record.note(&Noted::Missing);
            return Ok(None);
        };
        // Another program may have put another file at the path since the run looked.
        if !pipe.metadata()?.file_type().is_fifo() {
            return Err(Error::from(ErrorKind::ResourceBusy));
        }
        self.record.note(&Noted::Found);
        Ok(Some(HostPipe { pipe }))
    }

    fn try_lock(&mut self, file: &HostFile, lock: Lock) -> io::Result<LockResult> {
        note_lock(&mut self.record, lock, try_lock(&file.file, lock))
    }

    fn facts(&mut self, file: &HostFile) -> io::Result<Facts> {
        let known = file.file.metadata()?;
        let facts = facts_of(kind_of(&known), &known);
        self.record.note(&Noted::Measured(facts.length));
        Ok(facts)
    }

    fn facts_at(&mut self) -> io::Result<Option<Facts>> {
        match fs::metadata(self.rt, self.path) {
            Ok(known) => Ok(Some(facts_of(self.kind_at(&known), &known))),
            Err(error) if error.kind() == ErrorKind::NotFound => {
                self.record.note(&Noted::Missing);
                Ok(None)
            }
            Err(error) => Err(error),
        }
    }

    fn has_directory(&self) -> bool {
        let Some(directory) = directory_of(self.path) else {
            return false;
        };
        if directory.is_empty() {
            return true;
        }
        match fs::metadata(self.rt, directory) {
            Ok(_) => true,
            // If the run may not look at it, something may be there.
            Err(error) => error.kind() != ErrorKind::NotFound,
        }
    }

    fn read_at(&mut self, file: &HostFile, bytes: &mut [u8], at: u64) -> io::Result<usize> {
        let wanted = bytes.len();
        let count = file.file.read_at(bytes, at)?;
        self.record.note(&Noted::Got {
            at,
            wanted,
            bytes: &bytes[..count],
        });
        Ok(count)
    }

    fn read_pipe(&mut self, pipe: &mut HostPipe, bytes: &mut [u8]) -> io::Result<usize> {
        let count = pipe.pipe.read(bytes)?;
        self.record.note(&Noted::Streamed);
        Ok(count)
    }

    fn write_at(&mut self, file: &HostFile, bytes: &[u8], at: u64) -> io::Result<usize> {
        let written = file.file.write_at(bytes, at);
        match written {
            Ok(taken) => self.record.note(&Noted::Put { at, bytes, taken }),
            Err(_) => self.record.note(&Noted::PutFailed { at, bytes }),
        }
        written
    }

    fn set_length(&mut self, file: &HostFile, length: u64) -> io::Result<()> {
        let ended = file.file.set_len(length);
        match ended {
            Ok(()) => self.record.note(&Noted::Sized(length)),
            Err(_) => self.record.note(&Noted::SizeFailed(length)),
        }
        ended
    }

    fn sync(&mut self, file: &HostFile) -> io::Result<()> {
        let ended = file.file.sync_data();
        match ended {
            Ok(()) => self.record.note(&Noted::Synced),
            Err(_) => self.record.note(&Noted::SyncFailed),
        }
        ended
    }

    fn pause(&self, milliseconds: u64) -> u64 {
        sleep(self.rt, Duration::from_millis(milliseconds));
        // What passed between two pauses counts too, such as the time in which other programs had the processor.
        let Some(begun) = self.waits.get() else {
            return milliseconds;
        };
        let all = milliseconds_since(self.rt, &begun);
        all.saturating_sub(self.told.replace(all))
    }
}
