//! The file of a run: its bytes, which are read and changed by the calls of the system.
ghost use Rattle.std.specs.Prelude.{◌≡◌, ◌<◌, ◌≤◌, ℕ, IfOk, IfSome, IsTrue, List, None, OnOk, length, max, option_map};
ghost use Rattle.rrd_change.specs.Calls.{AreAt, ArePut, IsSized, IsSizedOrNot};
ghost use Rattle.rrd_change.specs.Views.{Does, Fails, Moves, Stores, seen};
ghost use Rattle.rrd_disk.specs.Asked.{view_of};
ghost use Rattle.rrd_disk.specs.Calls.{DidOr, Falls, IsCutShort, IsPartPut, PlaceStays, Rests, RestsFor};
ghost use Rattle.rrd_disk.specs.Fronts.{Shows};
ghost use Rattle.rrd_disk.specs.Known.{AreAll, AreFirst, Measures, ShowsBytes, TellsBase, TellsMark};
ghost use Rattle.rrd_disk.specs.Locks.{Guards, IsTurned};
ghost use Rattle.rrd_disk.specs.Openings.{HasLength};
ghost use Rattle.rrd_disk.specs.Power.{AreTorn};
ghost use Rattle.rrd_disk.specs.Replayed.{World, bytes_after, is_honest_after};

use crate::front::Front;
use crate::locks::{LockedFile, turn_lock};
use crate::once::{get, get_behind, get_next, measure, no_space, put, put_some, set_length, sync};
use crate::opening::{Opened, open_locked};
use crate::{Disk, Lock, Opening, Syncs};
use rrd_change::{Base, Bytes, PAGE, has_mark};
use std::io::{self, Error, ErrorKind};

/// The maximum number of bytes that are read when a file is opened: all bytes of a short file. Larger buffers cost more:
/// the system provides each of their pages anew.
const FIRST_PART: u64 = 65_536;

/// The length up to which all bytes of a file are read when it is opened: the second part would reach its end anyway.
const WHOLE: u64 = 8 * FIRST_PART;

/// How many times as long each later part is as all parts before it.
const GROWTH: u64 = 7;

/// The bytes that say how a file begins.
const FIRST_BYTES: u64 = 16;

/// The file that a run opens, with the system whose calls read and change it.
#[derive(Drop)]
pub(crate) struct FileBytes<D: Disk> {
    disk: D,
    // The open file; `None` if no file is open.
    file: Option<LockedFile<D::File>>,
    // The length of the file in bytes, if known.
    length: Option<u64>,
    // The first bytes of the file.
    front: Front,
    ghost shown: { ShowsBytes front.bytes.items (D.Disk.events disk) },
    ghost measured: { Measures length (D.Disk.events disk) },
    ghost guarded: { Guards file (D.Disk.events disk) },
}

/// The result of opening the file of a run.
#[derive(Drop)]
pub(crate) enum Entry<P: Drop> {
    /// The file is open and locked.
    Open,
    /// A pipe without a name, which is only read.
    Pipe(P),
    /// There is no file, or no directory for a new one.
    Missing,
    /// There is a file that the system does not open for this purpose, for this reason.
    Refused(Error),
}

// Returns the error of a call if no file is open.
fn not_open() -> Error {
    Error::from(ErrorKind::NotConnected)
}

// Returns the length of a file after a write up to byte `end`.
fn longer(length: Option<u64>, end: u64) -> Option<u64>
    ensures { result ≡ option_map (λ m. max m end) length }
{
    match length {
        Some(length) => Some(length.max(end)),
        None => None,
    }
}

// Returns how many of the first bytes of a file are read when it is opened.
fn first_part(length: u64) -> u64 {
    if length <= WHOLE { length } else { FIRST_PART }
}

// Returns how many of the first bytes of a file are read after the first `had` bytes.
fn longer_front(had: u64) -> u64 {
    had.saturating_add(had.saturating_mul(GROWTH).max(FIRST_PART))
}

// Returns the first sixteen of these bytes, if there are so many.
fn first_bytes(bytes: &[u8]) -> Option<[u8; 16]>
    ensures { IfSome result (λ first. AreFirst first bytes.now) }
{
    let mut first = [0; 16];
    first.copy_from_slice(bytes.get(..16)?);
    Some(first)
}

impl<D: Disk> FileBytes<D> {
    ghost use Rattle.rrd_disk.specs.Entries.{SaysEntry};

    /// Creates the file of a run, which has opened nothing so far.
    pub(crate) fn new(disk: D) -> FileBytes<D>
        ensures { result.disk ≡ disk }
    {
        let front = Front::new(disk.alloc());
        FileBytes {
            disk,
            file: None,
            length: None,
            front,
        }
    }

    /// Closes the file, and returns the system.
    pub(crate) fn into_disk(self) -> D
        ensures { result ≡ self.disk }
    {
        self.disk
    }

    /// Returns the system.
    pub(crate) fn disk(&self) -> &D
        ensures { result.now ≡ self.now.disk }
    {
        &self.disk
    }

    /// Closes the file, and releases its lock.
    pub(crate) fn close(&mut self)
        ensures disk { self.new.disk ≡ self.old.disk }
        ensures file { self.new.file ≡ None }
        ensures front { (bytes : List ℕ) → Shows self.new.front bytes }
        ensures length { self.new.length ≡ None }
    {
        self.file = None;
        self.length = None;
        self.front.clear();
    }

    /// Opens the file, locks the file, and reads its first part.
    ///
    /// # Errors
    ///
    /// The file is no regular file, cannot be locked or read, or memory ran out.
    pub(crate) fn open(&mut self, opening: Opening, wait: u64) -> io::Result<Entry<D::Pipe>>
        ensures rests { RestsFor opening (D.events self.old.disk) (D.events self.new.disk) }
        ensures says { IfOk result (λ entry. SaysEntry entry (D.events self.new.disk)) }
    {
        self.close();
        match open_locked(&mut self.disk, opening, wait)? {
            Opened::Regular(file, length) => {
                self.file = Some(file);
                self.length = Some(length);
                self.read_to(first_part(length))?;
                Ok(Entry::Open)
            }
            Opened::Pipe(pipe) => Ok(Entry::Pipe(pipe)),
            Opened::Missing => Ok(Entry::Missing),
            Opened::Refused(error) => Ok(Entry::Refused(error)),
        }
    }

    /// Turns the lock of the open file into another one, by one try.
    ///
    /// # Errors
    ///
    /// The file could not be locked so at once. It is closed.
    pub(crate) fn turn_lock(&mut self, lock: Lock) -> io::Result<()>
        ensures rests { Rests (D.events self.old.disk) (D.events self.new.disk) }
        ensures turned { OnOk result (IsTurned lock (D.events self.new.disk)) }
    {
        let Some(locked) = self.file.take() else {
            return Err(not_open());
        };
        match turn_lock(&mut self.disk, locked, lock) {
            Ok(turned) => {
                self.file = Some(turned);
                Ok(())
            }
            Err(error) => {
                self.close();
                Err(error)
            }
        }
    }

    // Returns the length of the file in bytes.
    fn file_length(&mut self) -> io::Result<u64>
        ensures rests { Rests (D.events self.old.disk) (D.events self.new.disk) }
        ensures ok { IfOk result (λ n. HasLength n (D.events self.new.disk)) }
    {
        if let Some(length) = self.length {
            return Ok(length);
        }
        let Some(file) = &self.file else {
            return Err(not_open());
        };
        let length = measure(&mut self.disk, file.file())?;
        self.length = Some(length);
        Ok(length)
    }

    /// Checks whether the file has no bytes.
    pub(crate) fn is_empty(&self) -> bool
        ensures { IsTrue result → HasLength 0 (D.events self.now.disk) }
    {
        self.length == Some(0)
    }

    /// Checks whether this run holds the lock of the file.
    pub(crate) fn is_locked(&self) -> bool {
        match &self.file {
            Some(file) => file.is_locked(),
            None => false,
        }
    }

    /// Checks whether all bytes of the file are in memory.
    pub(crate) fn is_whole(&self) -> bool
        ensures { IsTrue result → AreAll self.now.front.bytes.items (D.events self.now.disk) }
    {
        match self.length {
            Some(length) => length == self.front.len() as u64,
            None => false,
        }
    }

    /// Returns the bytes of the file that are in memory: the first part, or all bytes.
    pub(crate) fn front(&self) -> &[u8]
        ensures items { result.now ≡ self.now.front.bytes.items }
        ensures shown { ShowsBytes result.now (D.events self.now.disk) }
    {
        self.front.bytes()
    }

    /// Returns how the file begins. Returns `None` if that is not in memory.
    pub(crate) fn base(&self) -> Option<Base>
        ensures { IfSome result (λ base. TellsBase base (D.events self.now.disk)) }
    {
        let length = self.length?;
        let first = first_bytes(self.front())?;
        Some(Base {
            length: length as usize,
            first,
        })
    }

    // Takes the bytes in memory.
    fn take_front(&mut self) -> Vec<u8>
        ensures disk { self.new.disk ≡ self.old.disk }
        ensures bytes { result.items ≡ self.old.front.bytes.items }
        ensures shown { ShowsBytes result.items (D.events self.old.disk) }
    {
        let empty = Front::new(self.disk.alloc());
        std::mem::replace(&mut self.front, empty).into_bytes()
    }

    /// Gives the bytes of the file that are in memory away. Of a file of one page they are a copy: if a write of the page is
    /// cut short, it is taken back from memory.
    pub(crate) fn give_front(&mut self) -> Vec<u8>
        ensures disk { self.new.disk ≡ self.old.disk }
        ensures bytes { result.items ≡ self.old.front.bytes.items }
    {
        if self.front.len() <= PAGE
            && let Ok(bytes) = self.front.copied(self.disk.alloc())
        {
            return bytes;
        }
        self.take_front()
    }

    // Reads the bytes of the file that follow those in `bytes`, up to byte `count`, after them. If the file has fewer, the
    // system has told a wrong length, or another program is changing the file.
    fn extend(&mut self, bytes: &mut Vec<u8>, count: usize) -> io::Result<()>
        requires more { length bytes.old.items ≤ count }
        requires shown { ShowsBytes bytes.old.items (D.events self.old.disk) }
        ensures rests { Rests (D.events self.old.disk) (D.events self.new.disk) }
        ensures length { OnOk result (length bytes.new.items ≡ count) }
        ensures shown { OnOk result (ShowsBytes bytes.new.items (D.events self.new.disk)) }
    {
        let Some(file) = &self.file else {
            return Err(not_open());
        };
        let had = bytes.len();
        // An update that adds its entry to the bytes then needs no other memory for them.
        bytes.reserve_exact((count - had).saturating_add(PAGE))?;
        bytes.resize(count, 0)?;
        let read = get_behind(&mut self.disk, file.file(), &mut bytes[..], had)?;
        if had + read < count {
            return Err(Error::from(ErrorKind::UnexpectedEof));
        }
        Ok(())
    }

    // Reads the first `count` bytes of the file into memory.
    fn read_to(&mut self, count: u64) -> io::Result<()>
        ensures rests { Rests (D.events self.old.disk) (D.events self.new.disk) }
        ensures enough { OnOk result (count ≤ length self.new.front.bytes.items) }
    {
        let mut bytes = self.take_front();
        if (bytes.len() as u64) < count {
            self.extend(&mut bytes, count as usize)?;
        }
        self.front = Front::of(bytes);
        Ok(())
    }

    /// Reads more bytes of the file into memory, so that each part is some times as long as all parts before it.
    ///
    /// # Errors
    ///
    /// A call failed, or memory ran out.
    pub(crate) fn read_more(&mut self) -> io::Result<()>
        ensures { Rests (D.events self.old.disk) (D.events self.new.disk) }
    {
        let length = self.file_length()?;
        let had = self.front.len() as u64;
        self.read_to(longer_front(had).min(length))
    }

    /// Reads all bytes of the file, and takes those that are in memory.
    ///
    /// # Errors
    ///
    /// A call failed, memory ran out, or the file ended early.
    pub(crate) fn read_all(&mut self) -> io::Result<Vec<u8>>
        ensures rests { Rests (D.events self.old.disk) (D.events self.new.disk) }
        ensures all { IfOk result (λ bytes. AreAll bytes.items (D.events self.new.disk)) }
    {
        let length = self.file_length()? as usize;
        let mut bytes = self.take_front();
        if bytes.len() < length {
            self.extend(&mut bytes, length)?;
        }
        Ok(bytes)
    }

    /// Reads `count` bytes, of which the first is byte `at`, in place of what `into` has.
    ///
    /// # Errors
    ///
    /// A call failed, memory ran out, the file has fewer bytes, or `count` is 0.
    pub(crate) fn read_at(&mut self, at: usize, count: usize, into: &mut Vec<u8>) -> io::Result<()>
        ensures rests { Rests (D.events self.old.disk) (D.events self.new.disk) }
        ensures got { OnOk result ((s : World) → IsTrue (is_honest_after s (D.events self.new.disk)) → AreAt (bytes_after s (D.events self.new.disk)) at count into.new.items) }
    {
        if count == 0 {
            return Err(Error::from(ErrorKind::InvalidInput));
        }
        let Some(file) = &self.file else {
            return Err(not_open());
        };
        into.resize(count, 0)?;
        if get(&mut self.disk, file.file(), &mut into[..], at as u64)? < count {
            return Err(Error::from(ErrorKind::UnexpectedEof));
        }
        Ok(())
    }

    /// Checks whether the file begins with a mark. Makes no call if the first sixteen bytes are in memory, or all bytes.
    ///
    /// # Errors
    ///
    /// A call failed, or memory ran out.
    pub(crate) fn is_marked(&mut self) -> io::Result<bool>
        ensures rests { Rests (D.events self.old.disk) (D.events self.new.disk) }
        ensures tells { IfOk result (λ is. TellsMark is (D.events self.new.disk)) }
    {
        let length = self.file_length()?;
        self.read_to(FIRST_BYTES.min(length))?;
        Ok(has_mark(self.front()))
    }

    /// Reads the next bytes of a pipe after those in `bytes`: half as many as all bytes before them, because each part has
    /// its memory before it is known where the pipe ends. Returns whether the pipe has ended.
    ///
    /// # Errors
    ///
    /// A read failed, or memory ran out.
    pub(crate) fn read_pipe(&mut self, pipe: &mut D::Pipe, bytes: &mut Vec<u8>) -> io::Result<bool>
        ensures rests { Rests (D.events self.old.disk) (D.events self.new.disk) }
        ensures none { OnOk result ((s : World) → IsTrue (is_honest_after s (D.events self.new.disk)) → ⊥) }
    {
        let had = bytes.len();
        let more = (had / 2).max(FIRST_PART as usize);
        bytes.resize(had.saturating_add(more), 0)?;
        let wanted = bytes.len() - had;
        let read = get_next(&mut self.disk, pipe, &mut bytes[had..])?;
        bytes.truncate(had + read);
        Ok(read < wanted)
    }

    // Forgets what is in memory of the file, before a call that changes the file. Returns the length, if it was known.
    fn forget(&mut self) -> Option<u64>
        ensures disk { self.new.disk ≡ self.old.disk }
        ensures file { self.new.file ≡ self.old.file }
        ensures front { (bytes : List ℕ) → Shows self.new.front bytes }
        ensures length { self.new.length ≡ None }
        ensures known { result ≡ self.old.length }
    {
        self.front.clear();
        self.length.take()
    }

    // Writes all of these bytes from byte `at` on.
    fn put_all(&mut self, at: usize, bytes: &[u8]) -> io::Result<()>
        requires { 0 < length bytes.now }
        ensures { DidOr (λ _. Moves (ArePut at bytes.now) (AreTorn at bytes.now)) (Moves (IsPartPut 0 at bytes.now) (AreTorn at bytes.now)) result (D.events self.old.disk) (D.events self.new.disk) }
    {
        let Some(end) = (at as u64).checked_add(bytes.len() as u64) else {
            return Err(Error::from(ErrorKind::FileTooLarge));
        };
        let known = self.forget();
        let Some(file) = &self.file else {
            return Err(not_open());
        };
        put(&mut self.disk, file.file_to_change()?, bytes, at as u64)?;
        self.length = longer(known, end);
        Ok(())
    }

    // Writes the first bytes of the file by one call, and returns the number of bytes that were written.
    fn put_first(&mut self, bytes: &[u8]) -> io::Result<usize>
        ensures did { DidOr (λ n. Moves (IsPartPut n 0 bytes.now) (AreTorn 0 bytes.now)) (Moves (IsPartPut 0 0 bytes.now) (AreTorn 0 bytes.now)) result (D.events self.old.disk) (D.events self.new.disk) }
        ensures short { IfOk result (λ n. IsCutShort n 0 bytes.now (D.events self.new.disk)) }
    {
        self.forget();
        let Some(file) = &self.file else {
            return Err(not_open());
        };
        put_some(&mut self.disk, file.file_to_change()?, bytes, 0)
    }

    // Puts the first bytes of the file back, and its length, after a write that was cut short.
    fn put_back(&mut self, kept: &[u8], length: u64) -> io::Result<()>
        ensures falls { Falls (D.events self.old.disk) (D.events self.new.disk) }
        ensures place { PlaceStays (D.events self.old.disk) (D.events self.new.disk) }
    {
        self.forget();
        let Some(file) = &self.file else {
            return Err(not_open());
        };
        if !kept.is_empty() {
            put(&mut self.disk, file.file_to_change()?, kept, 0)?;
        }
        set_length(&mut self.disk, file.file_to_change()?, length)
    }

    // Takes a write back that was cut short. A call that failed may succeed when it is made again.
    fn take_back(&mut self, kept: &[u8], length: u64)
        ensures falls { Falls (D.events self.old.disk) (D.events self.new.disk) }
        ensures place { PlaceStays (D.events self.old.disk) (D.events self.new.disk) }
    {
        if self.put_back(kept, length).is_err() {
            let _taken_back = self.put_back(kept, length);
        }
    }

    /// Truncates the file to no bytes, and then syncs the file, if that is wanted.
    ///
    /// # Errors
    ///
    /// A call failed.
    pub(crate) fn truncate(&mut self, syncs: Syncs) -> io::Result<()>
        ensures { Does (λ _. Stores (IsSized 0)) (Fails (IsSizedOrNot 0) (IsSizedOrNot 0)) result (seen syncs (view_of (D.events self.old.disk))) (seen syncs (view_of (D.events self.new.disk))) }
    {
        self.set_len(0)?;
        match syncs {
            Syncs::Ordered => self.sync(),
            Syncs::Never => Ok(()),
        }
    }
}

impl<D: Disk> Bytes for FileBytes<D> {
    ghost view = { λ f. view_of (D.Disk.events f.disk) };

    fn len(&mut self) -> io::Result<usize> {
        Ok(self.file_length()? as usize)
    }

    fn read(&mut self, at: usize, count: usize, into: &mut Vec<u8>) -> io::Result<()> {
        self.read_at(at, count, into)
    }

    fn write(&mut self, at: usize, bytes: &[u8]) -> io::Result<usize> {
        if bytes.is_empty() {
            return Ok(0);
        }
        self.put_all(at, bytes)?;
        Ok(bytes.len())
    }

    fn write_whole(&mut self, at: usize, bytes: &[u8]) -> io::Result<()> {
        if !bytes.is_empty() {
            return self.put_all(at, bytes);
        }
        // A call that writes no bytes changes nothing, not even the length of the file.
        if at == 0 {
            Ok(())
        } else {
            Err(Error::from(ErrorKind::InvalidInput))
        }
    }

    // A write that was cut short wrote as many bytes as there is room for: so many of the old bytes can be put back.
    fn write_page(&mut self, bytes: &[u8]) -> io::Result<()> {
        if bytes.is_empty() {
            return Ok(());
        }
        let length = self.file_length()?;
        self.read_to(length.min(PAGE as u64))?;
        let kept = self.take_front();
        let count = self.put_first(bytes)?;
        if bytes.len() <= count {
            return Ok(());
        }
        if 0 < count {
            self.take_back(&kept[..count.min(kept.len())], length);
        }
        Err(no_space())
    }

    fn set_len(&mut self, count: usize) -> io::Result<()> {
        self.forget();
        let Some(file) = &self.file else {
            return Err(not_open());
        };
        set_length(&mut self.disk, file.file_to_change()?, count as u64)?;
        self.length = Some(count as u64);
        Ok(())
    }

    fn sync(&mut self) -> io::Result<()> {
        let Some(file) = &self.file else {
            return Err(not_open());
        };
        sync(&mut self.disk, file.file())
    }
}
