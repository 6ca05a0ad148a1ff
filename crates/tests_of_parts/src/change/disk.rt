//! A disk in memory: a file that programs read, and the writes that the disk does not have yet.
ghost use Rattle.std.specs.Prelude.{◌≡◌, [], false, IfOk};

use rrd_change::Bytes;
use std::alloc::{AllocError, Global};
use std::io::{self, Error, ErrorKind};

// Says what becomes of a call: it ends well; or it fails before it does anything, in the middle, or after it has done all,
// and so does each later call before it does anything, as after a kill; or it alone fails.
#[derive(Clone, Copy, PartialEq, Eq, Debug, Drop)]
pub(super) enum Fate {
    Whole,
    Before,
    Part,
    After,
    Once,
}

// Which call fails, and how; the most bytes of a write, and of the file; and the limit on the size of files: a write behind
// it fails, one up to it is cut short there.
#[derive(Clone, Copy, PartialEq, Eq, Debug, Drop)]
pub(super) struct Faults {
    pub(super) call: u64,
    pub(super) fate: Fate,
    pub(super) piece: usize,
    pub(super) full: usize,
    pub(super) limit: usize,
}

pub(super) const NO_FAULTS: Faults = Faults {
    call: u64::MAX,
    fate: Fate::Whole,
    piece: usize::MAX,
    full: usize::MAX,
    limit: usize::MAX,
};

// A call that the disk does not have yet: a write, one within a sector, or a change of the length.
#[derive(Drop)]
enum Waiting {
    Write(usize, Vec<u8>),
    Whole(usize, Vec<u8>),
    Length(usize),
}

#[derive(Drop)]
pub(super) struct Disk {
    alloc: Global,
    held: Vec<u8>,
    stored: Vec<u8>,
    waiting: Vec<Waiting>,
    faults: Faults,
    calls: u64,
    // Writes and changes of the length, the bytes that were written, and syncs.
    counts: [usize; 3],
}

// Puts bytes into a file, which gets longer if they end behind it.
fn put(file: &mut Vec<u8>, at: usize, bytes: &[u8]) -> Result<(), AllocError> {
    let Some(end) = at.checked_add(bytes.len()) else {
        return Ok(());
    };
    if file.len() < end {
        file.resize(end, 0)?;
    }
    file[at..end].copy_from_slice(bytes);
    Ok(())
}

// A first half of these bytes, with others among them.
fn torn(alloc: Global, bytes: &[u8]) -> Result<Vec<u8>, AllocError> {
    let mut half = Vec::from_slice(alloc, bytes.get(..bytes.len() / 2).unwrap_or(&[]))?;
    for (place, byte) in half.iter_mut().enumerate() {
        *byte ^= (place % 3) as u8;
    }
    Ok(half)
}

// Brings nothing of a call to the disk (0), all (1), a first part (2) or other bytes (3); or all or nothing.
fn leave(alloc: Global, file: &mut Vec<u8>, call: &Waiting, part: u64) -> Result<(), AllocError> {
    match call {
        Waiting::Length(count) if part % 2 == 1 => file.resize(*count, 0),
        Waiting::Whole(at, bytes) if part % 2 == 1 => put(file, *at, bytes),
        Waiting::Write(at, bytes) if part == 1 => put(file, *at, bytes),
        Waiting::Write(at, bytes) if part == 2 => {
            put(file, *at, bytes.get(..bytes.len() / 2).unwrap_or(&[]))
        }
        Waiting::Write(at, bytes) if part == 3 => put(file, *at, &torn(alloc, bytes)?),
        _ => Ok(()),
    }
}

// A copy of a call.
fn copied(alloc: Global, call: &Waiting) -> Result<Waiting, AllocError> {
    match call {
        Waiting::Write(at, bytes) => Ok(Waiting::Write(*at, Vec::from_slice(alloc, bytes)?)),
        Waiting::Whole(at, bytes) => Ok(Waiting::Whole(*at, Vec::from_slice(alloc, bytes)?)),
        Waiting::Length(count) => Ok(Waiting::Length(*count)),
    }
}

fn ended<T: Drop>(fate: Fate, value: T) -> io::Result<T>
    ensures { IfOk result (λ x. x ≡ value) }
{
    if fate == Fate::Whole {
        return Ok(value);
    }
    Err(Error::from(ErrorKind::Other))
}

impl Disk {
    pub(super) fn new(alloc: Global, bytes: &[u8], faults: Faults) -> Result<Disk, AllocError> {
        Ok(Disk {
            alloc,
            held: Vec::from_slice(alloc, bytes)?,
            stored: Vec::from_slice(alloc, bytes)?,
            waiting: Vec::new(alloc),
            faults,
            calls: 0,
            counts: [0; 3],
        })
    }

    // Returns the file as another program finds it after a kill.
    pub(super) fn after_kill(&self, faults: Faults) -> Result<Disk, AllocError> {
        let mut waiting = Vec::new(self.alloc);
        for call in &self.waiting {
            waiting.push(copied(self.alloc, call)?)?;
        }
        Ok(Disk {
            alloc: self.alloc,
            held: self.held.clone()?,
            stored: self.stored.clone()?,
            waiting,
            faults,
            calls: 0,
            counts: [0; 3],
        })
    }

    pub(super) fn held(&self) -> &[u8] {
        &self.held
    }

    // Returns the counts since the last call of this function.
    pub(super) fn take_counts(&mut self) -> [usize; 3] {
        let counts = self.counts;
        self.counts = [0; 3];
        counts
    }

    // Returns what a failure of the power leaves: of the calls since the last sync none (0), all (1), or some.
    pub(super) fn left(&self, choice: u64) -> Result<Vec<u8>, AllocError> {
        let mut file = self.stored.clone()?;
        let mut bits = choice
            .wrapping_add(self.calls)
            .wrapping_mul(0x9e37_79b9_7f4a_7c15);
        for call in &self.waiting {
            let part = if choice < 2 { choice } else { bits >> 62 };
            leave(self.alloc, &mut file, call, part)?;
            bits = bits.wrapping_mul(0xd6e8_feb8_6659_fd93);
        }
        Ok(file)
    }

    // Counts a call, and says what becomes of it.
    fn fate(&mut self) -> Fate {
        self.calls = self.calls.saturating_add(1);
        if self.calls == self.faults.call {
            self.faults.fate
        } else if self.calls > self.faults.call && self.faults.fate != Fate::Once {
            Fate::Before
        } else {
            Fate::Whole
        }
    }

    // Stores the calls since the last sync. A sync that fails stores some, and none of the others is stored later.
    fn store(&mut self, fate: Fate) -> Result<(), AllocError> {
        let mut bits = self.calls.wrapping_mul(0x9e37_79b9_7f4a_7c15);
        for call in &self.waiting {
            let part = if fate == Fate::Part { bits >> 62 } else { 1 };
            leave(self.alloc, &mut self.stored, call, part)?;
            bits = bits.wrapping_mul(0xd6e8_feb8_6659_fd93);
        }
        self.waiting.clear();
        Ok(())
    }

    // Keeps a write of so many bytes, or a change of the length, for the next sync.
    fn keep(&mut self, count: usize, call: Waiting) -> Result<(), AllocError> {
        let [writes, bytes, syncs] = self.counts;
        self.counts = [writes.saturating_add(1), bytes.saturating_add(count), syncs];
        leave(self.alloc, &mut self.held, &call, 1)?;
        self.waiting.push(call)?;
        Ok(())
    }
}

impl Bytes for Disk {
    ghost view = { λ _. record { is_honest = λ _. false; world = λ _ _. record { held = []; may_leave = λ _. ⊥; may_keep = λ _. ⊥ } } };

    fn len(&mut self) -> io::Result<usize> {
        let fate = self.fate();
        ended(fate, self.held.len())
    }

    fn read(&mut self, at: usize, count: usize, into: &mut Vec<u8>) -> io::Result<()> {
        let fate = self.fate();
        into.clear();
        let end = at.saturating_add(count);
        into.extend_from_slice(self.held.get(at..end).ok_or(ErrorKind::UnexpectedEof)?)?;
        ended(fate, ())
    }

    fn write(&mut self, at: usize, bytes: &[u8]) -> io::Result<usize> {
        let fate = self.fate();
        let most = self.faults.full.max(self.held.len());
        let room = most.min(self.faults.limit).saturating_sub(at);
        let count = bytes.len().min(self.faults.piece).min(room);
        let first = bytes.get(..count).unwrap_or(&[]);
        if fate == Fate::Before || first.is_empty() {
            return ended(Fate::Before, 0);
        }
        let taken = match fate {
            Fate::Part if at < self.held.len() => torn(self.alloc, first)?,
            Fate::Part => Vec::from_slice(self.alloc, first.get(..count / 2).unwrap_or(&[]))?,
            _ => Vec::from_slice(self.alloc, first)?,
        };
        self.keep(taken.len(), Waiting::Write(at, taken))?;
        ended(fate, count.min(bytes.len()))
    }

    fn write_whole(&mut self, at: usize, bytes: &[u8]) -> io::Result<()> {
        let fate = self.fate();
        let room = self.faults.limit.saturating_sub(at);
        if room < bytes.len() {
            let first = Vec::from_slice(self.alloc, bytes.get(..room).unwrap_or(&[]))?;
            self.keep(room, Waiting::Whole(at, first))?;
            return ended(Fate::Before, ());
        }
        if fate != Fate::Before && fate != Fate::Part {
            let copy = Vec::from_slice(self.alloc, bytes)?;
            self.keep(bytes.len(), Waiting::Whole(at, copy))?;
        }
        ended(fate, ())
    }

    fn write_page(&mut self, bytes: &[u8]) -> io::Result<()> {
        let fate = self.fate();
        if self.faults.limit < bytes.len() {
            return ended(Fate::Before, ());
        }
        if fate != Fate::Before && fate != Fate::Part {
            let copy = Vec::from_slice(self.alloc, bytes)?;
            self.keep(bytes.len(), Waiting::Write(0, copy))?;
        }
        ended(fate, ())
    }

    fn set_len(&mut self, count: usize) -> io::Result<()> {
        let fate = self.fate();
        if self.faults.limit.max(self.held.len()) < count {
            return ended(Fate::Before, ());
        }
        if fate != Fate::Before && fate != Fate::Part {
            self.keep(0, Waiting::Length(count))?;
        }
        ended(fate, ())
    }

    fn sync(&mut self) -> io::Result<()> {
        let fate = self.fate();
        if fate != Fate::Before {
            self.store(fate)?;
            let [writes, bytes, syncs] = self.counts;
            self.counts = [writes, bytes, syncs.saturating_add(1)];
        }
        ended(fate, ())
    }
}
