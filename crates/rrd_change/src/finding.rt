//! Finds the database that a file stands for.
ghost use Rattle.std.specs.Prelude.{◌≡◌, ◌+◌, ◌<◌, ◌≤◌, ◌^◌, ℕ, IfOk, List, Some, length, take, true};
ghost use Rattle.rrd_change.specs.Bytes.{begins_with};
ghost use Rattle.rrd_change.specs.Changes.{changes_in, laid_over};
ghost use Rattle.rrd_change.specs.Marks.{IsLogMark, IsMarkOf};
ghost use Rattle.rrd_change.specs.Read.{IsLogRead, IsOffset};
ghost use Rattle.rrd_change.specs.Settled.{cut_mark, settled_by};
ghost use Rattle.rrd_change.specs.Settled as settled;
ghost use Rattle.rrd_change.specs.declared.finding.Mark.TheVariants.{Cut, Missing};

use crate::decoding::{lay_change, number_at, read_head};
use crate::encoding::HEAD_SIZE;
use crate::log::{CUT_MARK, DATABASE_MARK, log_mark};
use crate::{Log, Span};
use std::alloc::Global;
use std::io;

/// Says where databases end.
pub trait Layout {
    // The length of the database with which bytes begin.
    ghost end_of: { List ℕ → ℕ };

    /// Returns the length of the database with which bytes begin, whatever follows the database. If they begin with none, any
    /// number will do.
    ///
    /// # Errors
    ///
    /// Memory ran out.
    fn end(&self, alloc: Global, bytes: &[u8]) -> io::Result<usize>
        ensures { IfOk result (λ end. end ≡ end_of bytes.now) };
}

// Lays the changes of a log over the bytes in front of the log. Returns the log, and the length of the database after the last
// change.
fn lay_log(alloc: Global, database: &mut [u8], bytes: &[u8]) -> io::Result<(Log, usize)>
    requires { length database.old + length bytes.now < 2 ^ 64 }
    ensures { IfOk result (λ read. IsLogRead database.old bytes.now database.new read.0 read.1) }
{
    let tail = database.len();
    let mut spans: Vec<Span> = Vec::new(alloc);
    let mut done = 0;
    let mut changes: usize = 0;
    let mut size = 0;
    while let Some(head) = read_head(&bytes[done..], tail, tail + done) {
        let start = done + HEAD_SIZE;
        done = start + head.length;
        lay_change(database, &bytes[start..done], head, &mut spans)?;
        changes += 1;
        size = head.size;
    }
    let log = Log {
        tail,
        end: tail + done,
        spans,
        changes: changes.saturating_sub(1),
    };
    Ok((log, size))
}

/// Returns the byte at which the log begins, if these bytes begin with a log mark.
pub(crate) fn log_offset(bytes: &[u8]) -> Option<usize>
    ensures { IsOffset result bytes.now }
{
    if bytes.len() < 16 {
        return None;
    }
    let tail = number_at(bytes, 8);
    if bytes.starts_with(&log_mark(tail)) {
        Some(tail)
    } else {
        None
    }
}

/// What marks a file that does not stand for its own bytes.
#[derive(Drop)]
pub(crate) enum Mark {
    /// The file is the database, or is none.
    Missing,
    /// A cut mark.
    Cut,
    /// A log mark, and the log that it names.
    Log(Log),
}

/// The database that a file stands for.
#[derive(Drop)]
pub struct FoundDatabase {
    // The bytes of the file. The changes of its log are laid over those in front of the log.
    bytes: Vec<u8>,
    // The number of them that are the database.
    size: usize,
    /// The mark of the file.
    pub(crate) mark: Mark,
    ghost within: { size ≤ length bytes.items },
}

// Returns bytes that stand for themselves.
fn unmarked(bytes: Vec<u8>) -> FoundDatabase
    ensures missing { result.mark ≡ Missing }
    ensures same { take result.size result.bytes.items ≡ bytes.items }
{
    let size = bytes.len();
    FoundDatabase {
        bytes,
        size,
        mark: Mark::Missing,
    }
}

// Returns the database under a cut mark, which differs from the first bytes of a database in the fourth byte alone.
fn cut<L: Layout>(alloc: Global, layout: &L, mut bytes: Vec<u8>) -> io::Result<FoundDatabase>
    requires { begins_with bytes.items cut_mark ≡ true }
    ensures mark { IfOk result (λ found. found.mark ≡ Cut) }
    ensures database { IfOk result (λ found. take found.size found.bytes.items ≡ settled_by L.end_of (Some settled.Cut) bytes.items) }
{
    bytes[3] = DATABASE_MARK[3];
    let end = layout.end(alloc, &bytes)?;
    bytes.truncate(end);
    let size = bytes.len();
    Ok(FoundDatabase {
        bytes,
        size,
        mark: Mark::Cut,
    })
}

/// Returns the database that a log leads to. Without a right change the file stands for its own bytes.
///
/// # Errors
///
/// Memory ran out.
pub(crate) fn with_log(alloc: Global, mut bytes: Vec<u8>, tail: usize) -> io::Result<FoundDatabase>
    ensures mark { IfOk result (λ found. IsLogMark found.mark tail bytes.items) }
    ensures database { IfOk result (λ found. take found.size found.bytes.items ≡ laid_over (changes_in tail bytes.items) bytes.items) }
{
    if bytes.len() < tail {
        return Ok(unmarked(bytes));
    }
    let (database, rest) = bytes.split_at_mut(tail);
    let (log, size) = lay_log(alloc, database, rest)?;
    if log.end == tail {
        return Ok(unmarked(bytes));
    }
    Ok(FoundDatabase {
        bytes,
        size,
        mark: Mark::Log(log),
    })
}

impl FoundDatabase {
    ghost use Rattle.rrd_change.specs.Found.{database_of};

    /// Finds the database that a file with these bytes stands for. A file with a wrong mark, or with a log that has no right
    /// change, stands for its own bytes.
    ///
    /// # Errors
    ///
    /// Memory ran out.
    pub fn read<L: Layout>(alloc: Global, layout: &L, bytes: Vec<u8>) -> io::Result<Self>
        ensures mark { IfOk result (λ found. IsMarkOf found.mark bytes.items) }
        ensures database { IfOk result (λ found. database_of found ≡ settled.settled L.end_of bytes.items) }
    {
        if bytes.starts_with(&CUT_MARK) {
            return cut(alloc, layout, bytes);
        }
        match log_offset(&bytes) {
            Some(tail) => with_log(alloc, bytes, tail),
            None => Ok(unmarked(bytes)),
        }
    }

    /// Returns the database, or bytes that are none.
    pub fn database(&self) -> &[u8]
        ensures { result.now ≡ database_of self.now }
    {
        &self.bytes[..self.size]
    }
}
