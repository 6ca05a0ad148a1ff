//! The log of a file that is changed.
ghost use Rattle.std.specs.Prelude.{◌≡◌, ◌+◌, ◌-◌, ◌++◌, ◌∷◌, [], ◌≤◌, ◌<◌, ℕ, List, length, max, IfOk, OnOk, replicate, slice_range, IsTrue, ◌↔◌};
ghost use Rattle.rrd_change.specs.Changes.{Change, change_bytes};
ghost use Rattle.rrd_change.specs.Laws.{Fill, Leads};
ghost use Rattle.rrd_change.specs.Repairs.{IsLeft, IsStopped, LogEnd, Torn, Whole};
ghost use Rattle.rrd_change.specs.Settled.{cut_mark, log_mark};
ghost use Rattle.rrd_change.specs.Spans.{AgreesOutside, AreSpans, change_of};
ghost use Rattle.rrd_change.specs.States.{AreAnyIn, ArePutIn, Began, IsAtRest, IsDatabase, IsFirst, IsOpen, IsLogOf, IsMarked, IsPlain, cut_of};
ghost use Rattle.rrd_change.specs.Views.{All, Does, Fails, Moves, Stores, World, seen};

use crate::encoding::push_change;
use crate::page::{is_one_write, replace_page};
use crate::uniting::united;
use crate::writing::{flush, mark_and_sync, resize_and_sync, write_all, write_and_sync};
use crate::{Bytes, Span, Syncs};
use std::alloc::Global;
use std::io::{self, Error, ErrorKind};

/// The first four bytes of every database.
pub const DATABASE_MARK: [u8; 4] = [b'R', b'R', b'D', b'I'];

/// The first four bytes of a file that is to be cut.
pub(crate) const CUT_MARK: [u8; 4] = [b'R', b'R', b'D', b'C'];

// The first eight bytes of a file with a log.
const LOG_WORD: [u8; 8] = [b'R', b'R', b'D', b'L', b'o', b'g', 0, 0];

/// The number of changes that a log takes. More of them would make each reader of the file lay more over it.
pub(crate) const MOST_CHANGES: usize = 16;

// The size of the first change of a log: its head, and one piece of sixteen bytes.
const BASE_SIZE: usize = 80;

/// How a database began before a change.
#[derive(Clone, Copy, PartialEq, Eq, Debug, Drop)]
pub struct Base {
    /// The length of the database in bytes.
    pub length: usize,
    /// The first 16 bytes of the database.
    pub first: [u8; 16],
}

/// The log of a file that stays open: the changes that are stored, and wait to be brought into place.
#[derive(Drop)]
pub struct Log {
    // The byte of the file at which the log begins.
    pub(crate) tail: usize,
    // The byte at which the log ends, and the file.
    pub(crate) end: usize,
    // The spans that the changes write.
    pub(crate) spans: Vec<Span>,
    // The number of the changes.
    pub(crate) changes: usize,
}

/// Returns the mark of a file with a log that begins at byte `tail`.
pub(crate) fn log_mark(tail: usize) -> [u8; 16]
    ensures { result ≡ log_mark tail }
{
    let mut mark = [0; 16];
    mark[..8].copy_from_slice(&LOG_WORD);
    mark[8..].copy_from_slice(&tail.to_be_bytes());
    mark
}

// Encodes the beginning of a log behind a database: zeros up to byte `tail`, how the database began, and the change.
fn encode_first(
    alloc: Global,
    base: &Base,
    tail: usize,
    new: &[u8],
    changed: &[Span],
) -> io::Result<Vec<u8>>
    requires { base.now.length ≤ tail }
    ensures ok { IfOk result (λ bytes. bytes.items ≡ replicate (tail - base.now.length) 0
        ++ (change_bytes tail tail (change_of base.now.length base.now.first (record { start = 0; end = 16 } ∷ [])) ++ change_bytes tail (tail + 80) (change_of (length new.now) new.now changed.now))) }
    ensures within { OnOk result (AreSpans (length new.now) changed.now) }
{
    let Some(at) = tail.checked_add(BASE_SIZE) else {
        return Err(Error::from(ErrorKind::FileTooLarge));
    };
    let mut bytes = Vec::new(alloc);
    bytes.resize(tail - base.length, 0)?;
    let front = [Span { start: 0, end: 16 }];
    push_change(
        alloc,
        &mut bytes,
        tail,
        tail,
        base.length,
        &base.first,
        &front,
    )?;
    push_change(alloc, &mut bytes, tail, at, new.len(), new, changed)?;
    Ok(bytes)
}

/// Checks whether bytes are a database, as far as the first ones show.
pub(crate) fn is_database(bytes: &[u8]) -> bool
    ensures { IsTrue result ↔ IsDatabase bytes.now }
{
    16 <= bytes.len() && bytes.starts_with(&DATABASE_MARK)
}

/// Marks a file that is a database: its bytes from the fifth on, up to the end of a database, count from now on.
///
/// # Errors
///
/// A call of the file failed. The file then has the mark, or has not.
pub fn mark<F: Bytes>(file: &mut F, syncs: Syncs) -> io::Result<()>
    ensures { Does (λ _ (w v : World). (old : List ℕ) → IsAtRest old w → IsMarked old v) (λ (w v : World). (old : List ℕ) → IsAtRest old w → All (IsPlain old) v) result
        (seen syncs (F.view file.old)) (seen syncs (F.view file.new)) }
{
    mark_and_sync(file, &CUT_MARK, syncs)
}

/// Removes the mark of a file. A sync is not needed: the file stands for the same bytes with the mark.
///
/// # Errors
///
/// A call of the file failed. The file then has the mark, or has not.
pub fn unmark<F: Bytes>(file: &mut F, syncs: Syncs) -> io::Result<()>
    ensures { Does (λ _ (w v : World). (old : List ℕ) → IsMarked old w → IsAtRest old v) (λ (w v : World). (old : List ℕ) → IsMarked old w → All (IsPlain old) v) result
        (seen syncs (F.view file.old)) (seen syncs (F.view file.new)) }
{
    file.write_whole(0, &DATABASE_MARK)
}

// Appends the beginning of a log to a file with a cut mark, and then writes the log mark, which commits the first change.
// Returns the end of the file.
fn commit_first<F: Bytes>(
    file: &mut F,
    at: usize,
    bytes: &[u8],
    tail: usize,
    syncs: Syncs,
) -> io::Result<usize>
    requires { 0 < length bytes.now }
    ensures end { IfOk result (λ end. end ≡ at + length bytes.now) }
    ensures does { Does (λ _ (w v : World). (old : List ℕ) (c : Change) → IsFirst old tail c at bytes.now → IsMarked old w → All (IsOpen old tail (c ∷ [])) v)
        (λ (w v : World). (end : LogEnd) (old new : List ℕ) (c : Change) → IsFirst old tail c at bytes.now → Leads old (c ∷ []) new → Fill (length old) (c ∷ []) → IsMarked old w → IsStopped end old new v) result
        (seen syncs (F.view file.old)) (seen syncs (F.view file.new)) }
{
    let Some(end) = at.checked_add(bytes.len()) else {
        return Err(Error::from(ErrorKind::FileTooLarge));
    };
    write_and_sync(file, at, bytes, syncs)?;
    mark_and_sync(file, &log_mark(tail), syncs)?;
    Ok(end)
}

/// Begins a log in a file with a cut mark, and commits the first change: the file then stands for `new`.
///
/// The log begins `room` bytes behind the longer one of both databases: a later one may be longer by so many bytes before it
/// does not fit in front of the log any more ([`Log::has_room`]).
///
/// Each byte of `new` that is in none of the spans `changed` must also be the byte of the database there, at the same
/// offset. The spans may be in any order and overlap.
///
/// # Errors
///
/// A call of the file failed, memory ran out, `new` is no database, a span is not within it, or the file would be too large.
/// The file then stands for the old database or for the new one.
pub fn begin<F: Bytes>(
    alloc: Global,
    file: &mut F,
    base: &Base,
    new: &[u8],
    changed: &[Span],
    room: usize,
    syncs: Syncs,
) -> io::Result<Log>
    ensures room { IfOk result (λ log. log.tail ≡ max base.now.length (length new.now) + room) }
    ensures does { Does (λ log (w v : World). (old : List ℕ) → Began base.now old → AgreesOutside changed.now old new.now → IsMarked old w → IsLogOf new.now log v)
        (λ (w v : World). (end : LogEnd) (old : List ℕ) → Began base.now old → AgreesOutside changed.now old new.now → IsMarked old w → IsStopped end old new.now v) result
        (seen syncs (F.view file.old)) (seen syncs (F.view file.new)) }
{
    if !is_database(new) {
        return Err(Error::from(ErrorKind::InvalidInput));
    }
    let Some(tail) = base.length.max(new.len()).checked_add(room) else {
        return Err(Error::from(ErrorKind::FileTooLarge));
    };
    let bytes = encode_first(alloc, base, tail, new, changed)?;
    let mut spans = Vec::new(alloc);
    spans.extend_from_slice(changed)?;
    let end = commit_first(file, base.length, &bytes, tail, syncs)?;
    Ok(Log {
        tail,
        end,
        spans,
        changes: 1,
    })
}

// Brings the bytes of these spans into place, except the first sixteen bytes of the file. Then syncs the file.
fn place<F: Bytes>(file: &mut F, new: &[u8], spans: &[Span], syncs: Syncs) -> io::Result<()>
    ensures { Does (λ _. Stores (ArePutIn spans.now new.now)) (Fails (AreAnyIn spans.now new.now) (AreAnyIn spans.now new.now)) result (seen syncs (F.view file.old)) (seen syncs (F.view file.new)) }
{
    for number in 0..spans.len() {
        let start = spans[number].start.max(16);
        let end = spans[number].end.min(new.len());
        if start < end {
            write_all(file, start, &new[start..end], syncs)?;
        }
    }
    flush(file, syncs)
}

// Brings the bytes of these spans into place. Bytes that are in several spans are written once, if there is memory to unite
// these: a change that is committed does not fail for want of it.
fn place_united<F: Bytes>(
    alloc: Global,
    file: &mut F,
    new: &[u8],
    spans: &[Span],
    syncs: Syncs,
) -> io::Result<()>
    ensures { Does (λ _. Stores (ArePutIn spans.now new.now)) (Fails (AreAnyIn spans.now new.now) (AreAnyIn spans.now new.now)) result (seen syncs (F.view file.old)) (seen syncs (F.view file.new)) }
{
    match united(alloc, spans) {
        Ok(all) => place(file, new, &all, syncs),
        Err(_) => place(file, new, spans, syncs),
    }
}

/// Returns the first sixteen bytes of a database, with a cut mark.
pub(crate) fn cut_front(new: &[u8]) -> [u8; 16]
    requires { 16 ≤ length new.now }
    ensures { result ≡ cut_mark ++ slice_range new.now 4 16 }
{
    let mut front = [0; 16];
    front[..4].copy_from_slice(&CUT_MARK);
    front[4..].copy_from_slice(&new[4..16]);
    front
}

impl Log {
    /// Brings the changes of a log into place. The file then is the database `new` under a cut mark, and has no log.
    ///
    /// `new` is the database that the file stands for. Nothing is taken back after an error.
    ///
    /// # Errors
    ///
    /// A call of the file failed, memory ran out, or `new` is no database. The file stands for the same database, and is
    /// repaired by what is read of it.
    pub fn settle<F: Bytes>(&self, file: &mut F, new: &[u8], syncs: Syncs) -> io::Result<()>
        ensures { Does (λ _ (w v : World). IsLogOf new.now self.now w → IsMarked new.now v) (λ (w v : World). (end : LogEnd) (other : List ℕ) → IsLogOf new.now self.now w → IsLeft end other new.now v) result
            (seen syncs (F.view file.old)) (seen syncs (F.view file.new)) }
    {
        if !is_database(new) {
            return Err(Error::from(ErrorKind::InvalidInput));
        }
        let alloc = *self.spans.allocator();
        place_united(alloc, file, new, &self.spans, syncs)?;
        mark_and_sync(file, &cut_front(new), syncs)?;
        resize_and_sync(file, new.len(), syncs)
    }
}

impl Log {
    /// Checks whether a database of this length fits into the file without reaching into the log.
    pub fn has_room(&self, length: usize) -> bool
        ensures { IsTrue result ↔ length ≤ self.now.tail }
    {
        length <= self.tail
    }

    /// Checks whether the changes of the log are to be brought into place: there are enough of them.
    pub fn is_due(&self) -> bool
        ensures { IsTrue result ↔ 16 ≤ self.now.changes }
    {
        MOST_CHANGES <= self.changes
    }

    /// Appends a change to a log: this one write commits it. The file then stands for `new`.
    ///
    /// Each byte of `new` that is in none of the spans `changed` must also be the byte there of the database that the file
    /// stands for, at the same offset. The spans may be in any order and overlap.
    ///
    /// # Errors
    ///
    /// A call of the file failed, memory ran out, `new` is no database or reaches into the log, or a span is not within
    /// `new`. The file stands for the database before the change or after it, and the log must not be used any more.
    #[tactic(auto, using(crate::proofs::Stepping::nothing, crate::proofs::Stopping::log_left))]
    pub fn append<F: Bytes>(
        &mut self,
        alloc: Global,
        file: &mut F,
        new: &[u8],
        changed: &[Span],
        syncs: Syncs,
    ) -> io::Result<()>
        ensures { Does (λ _ (w v : World). (now : List ℕ) → IsLogOf now self.old w → AgreesOutside changed.now now new.now → IsLogOf new.now self.new v)
            (λ (w v : World). (now : List ℕ) → IsLogOf now self.old w → AgreesOutside changed.now now new.now → IsStopped Torn now new.now v) result
            (seen syncs (F.view file.old)) (seen syncs (F.view file.new)) }
    {
        if !is_database(new) {
            return Err(Error::from(ErrorKind::InvalidInput));
        }
        if self.tail < new.len() {
            return Err(Error::from(ErrorKind::FileTooLarge));
        }
        let mut bytes = Vec::new(alloc);
        push_change(
            alloc,
            &mut bytes,
            self.tail,
            self.end,
            new.len(),
            new,
            changed,
        )?;
        let Some(end) = self.end.checked_add(bytes.len()) else {
            return Err(Error::from(ErrorKind::FileTooLarge));
        };
        self.spans.extend_from_slice(changed)?;
        write_and_sync(file, self.end, &bytes, syncs)?;
        self.end = end;
        self.changes = self.changes.saturating_add(1);
        Ok(())
    }
}

/// Replaces a database by `new`: marks the file, writes a log of one change, brings the change into place, and removes the
/// mark. The write of the log mark commits the change. Where nothing is synced and one page is enough, one write is the
/// change.
///
/// Each byte of `new` that is in none of the spans `changed` must also be the byte of the database there, at the same
/// offset. The spans may be in any order and overlap.
///
/// # Errors
///
/// A call of the file failed, memory ran out, `new` is no database, or a span is not within it. The file then stands for
/// the old database or for the new one.
pub fn replace<F: Bytes>(
    alloc: Global,
    file: &mut F,
    base: &Base,
    new: &[u8],
    changed: &[Span],
    syncs: Syncs,
) -> io::Result<()>
    ensures { Does (λ _ (w v : World). (old : List ℕ) → Began base.now old → AgreesOutside changed.now old new.now → IsAtRest old w → IsAtRest new.now v)
        (λ (w v : World). (old : List ℕ) → Began base.now old → AgreesOutside changed.now old new.now → IsAtRest old w → IsStopped Whole old new.now v) result
        (seen syncs (F.view file.old)) (seen syncs (F.view file.new)) }
{
    if !is_database(new) {
        return Err(Error::from(ErrorKind::InvalidInput));
    }
    if is_one_write(base, new, syncs) {
        return replace_page(file, base, new);
    }
    mark(file, syncs)?;
    let log = begin(alloc, file, base, new, changed, 0, syncs)?;
    log.settle(file, new, syncs)?;
    unmark(file, syncs)
}
