//! A batch: runs each line of an input, and writes the output or the fault of the line.
ghost use Rattle.std.specs.Prelude.{◌≡◌, ◌<◌, ◌≤◌, ◌+◌, ◌^◌, ◌∷◌, ◌++◌, [], ℕ, false, List, Option, Some, OnOk, IfSome, true, length, option_map};
ghost use Rattle.rrd_tool.specs.Names.{list_all, result_err, Consumes, State, Stored};
ghost use Rattle.rrd_spec.specs.Validity.{IsValid};
ghost use Rattle.rrd_tool.specs.Words.{StandsFor, Buffers, has_end, is_plain, last_part, text_in, whole_lines, Counts, Tally, no_lines, Asks, Moves, MovesByCommand, MovesByLine, Tallies, RunOver, GoesOnBy, IsChangedBy};

use crate::changed_by::ChangedBy;
use crate::execution::{Outcome, execute};
use crate::faults::{Fault, write_fault};
use crate::lines::{LineBuffer, read_words, text_of_line};
use crate::refusals::Refusals;
use crate::{Command, LineFault, Observer, read_command};
use memchr::memchr;
use rrd_base::{Database, database_is_valid};
use rrd_fixed::{WriteFault, flush, read_some};
use rrd_spec::laws::updates_keep_newest_rows;
use std::alloc::Global;
use std::io::{Read, Write};

/// The maximum number of bytes of one read. The bytes are on the stack, of which a library may have little.
const CHUNK: usize = 8_192;

/// The reason why a batch ended before its input.
#[derive(Clone, Copy, Debug, PartialEq, Eq)]
pub enum StreamFault {
    /// A write failed: the run ended with the line whose text was being written.
    Write,
    /// A read failed, or there were 2^40 reads: an unfinished line was not run.
    Read,
    /// Memory ran out for a line, or for the numbers of the refused lines: nothing was read or written.
    OutOfMemory,
}

/// The end of a batch.
#[derive(Drop)]
pub struct BatchEnd {
    /// The database after the lines that were run.
    pub database: Option<Database>,
    /// What has changed the database.
    pub changed_by: ChangedBy,
    /// The number of fault lines that were written completely.
    pub refused: u64,
    /// The numbers of the refused lines, in order, as many as were requested. The first line of the input is 1, and
    /// lines without words count too.
    pub lines: Vec<u64>,
    /// The reason why the batch ended before its input.
    pub stream: Option<StreamFault>,
}

// The values that stay the same during a batch: the allocator, and the present time.
#[derive(Clone, Copy)]
struct Context {
    alloc: Global,
    now: u64,
}

// The values that change during a batch: the database, what has changed it, and the refused lines. The observer sees these
// lines.
#[derive(Drop)]
struct Batch<'a, V> {
    database: Option<Database>,
    changed_by: ChangedBy,
    refusals: Refusals,
    observer: &'a V,
}

// Parses the text of a line. Returns `None` if the line has no words.
fn request(context: Context, text: Option<&[u8]>) -> Result<Option<Command>, LineFault>
    requires { IfSome text (λ bytes. list_all is_plain bytes.now ≡ true) }
    ensures { (line : List ℕ) → option_map (λ bytes. bytes.now) text.entry ≡ text_in line
        → Asks context.now line result }
{
    let Some(text) = text else {
        return Err(LineFault::Usage);
    };
    let words = read_words(context.alloc, text)?;
    if words.len() == 0 {
        return Ok(None);
    }
    let command = read_command(context.alloc, &words, context.now)?;
    Ok(Some(command))
}

// The database that there is keeps the rules of one.
fn all_are_valid(database: &Option<Database>)
    ensures { (d : Stored) → database.now ≡ Some d → IsValid d.content }
{
    if let Some(database) = database {
        database_is_valid(database);
    }
}

// Runs a command. A command that changes the database prints nothing; the output of any other command is flushed.
fn run_command<W: Write>(
    alloc: Global,
    database: &mut Option<Database>,
    changed_by: &mut ChangedBy,
    command: Command,
    out: &mut W,
) -> Result<Option<Fault>, WriteFault>
    ensures moved { MovesByCommand database.old database.new (W.contents out.old) (W.contents out.new) command result }
    ensures changed { GoesOnBy changed_by.old changed_by.new database.old database.new }
{
    updates_keep_newest_rows();
    all_are_valid(database);
    let is_update = command.is_update();
    match execute(alloc, database.take(), command, out) {
        Outcome::Printed(kept) => {
            *database = Some(kept);
            flush(out)?;
            Ok(None)
        }
        Outcome::Changed(changed) => {
            *changed_by = changed_by.and(is_update);
            *database = Some(changed);
            Ok(None)
        }
        Outcome::Refused {
            database: kept,
            fault,
        } => {
            *database = kept;
            match fault {
                Fault::Output => Err(WriteFault {}),
                fault => Ok(Some(fault)),
            }
        }
    }
}

// Runs a line: writes its text, or returns its fault.
fn perform<W: Write>(
    context: Context,
    database: &mut Option<Database>,
    changed_by: &mut ChangedBy,
    out: &mut W,
    text: Option<&[u8]>,
) -> Result<Option<Fault>, WriteFault>
    requires { IfSome text (λ bytes. list_all is_plain bytes.now ≡ true) }
    ensures moved { (line : List ℕ) → option_map (λ bytes. bytes.now) text.entry ≡ text_in line
        → MovesByLine context.now database.old database.new (W.contents out.old) (W.contents out.new) line result }
    ensures changed { GoesOnBy changed_by.old changed_by.new database.old database.new }
{
    match request(context, text) {
        Ok(None) => Ok(None),
        Ok(Some(command)) => run_command(context.alloc, database, changed_by, command, out),
        Err(fault) => Ok(Some(Fault::Line(fault))),
    }
}

// Runs a line, and writes and flushes its text or the line of its fault.
fn answer<W: Write, V: Observer>(
    context: Context,
    batch: &mut Batch<'_, V>,
    out: &mut W,
    text: Option<&[u8]>,
) -> Result<(), WriteFault>
    requires plain { IfSome text (λ bytes. list_all is_plain bytes.now ≡ true) }
    requires room { batch.old.refusals.lines + 1 < 2 ^ 64 }
    ensures told { (line : List ℕ) → option_map (λ bytes. bytes.now) text.entry ≡ text_in line
        → Moves context.now batch.old.database batch.new.database batch.old.refusals batch.new.refusals
        (W.contents out.old) (W.contents out.new) (line ∷ []) result }
    ensures count { batch.new.refusals.lines ≤ batch.old.refusals.lines + 1 }
    ensures changed { GoesOnBy batch.old.changed_by batch.new.changed_by batch.old.database batch.new.database }
{
    batch.refusals.begin_line();
    let Some(fault) = perform(
        context,
        &mut batch.database,
        &mut batch.changed_by,
        out,
        text,
    )?
    else {
        return Ok(());
    };
    write_fault(out, &fault)?;
    batch.refusals.refuse();
    batch
        .observer
        .line_refused(batch.refusals.lines, text, batch.database.as_ref(), fault);
    flush(out)
}

// Takes the bytes of a line up to its LF, and runs the line. Does not copy a line that is complete in the bytes.
fn take_line<W: Write, V: Observer>(
    context: Context,
    batch: &mut Batch<'_, V>,
    out: &mut W,
    line: &mut LineBuffer,
    bytes: &[u8],
) -> Result<(), WriteFault>
    requires room { batch.old.refusals.lines + 1 < 2 ^ 64 }
    requires inner { has_end bytes.now ≡ false }
    ensures told { (unfinished : List ℕ) → Buffers line.old unfinished
        → Moves context.now batch.old.database batch.new.database batch.old.refusals batch.new.refusals
        (W.contents out.old) (W.contents out.new) (whole_lines unfinished (bytes.now ++ 10 ∷ [])) result
        × OnOk result (Buffers line.new (last_part unfinished (bytes.now ++ 10 ∷ []))) }
    ensures count { batch.new.refusals.lines ≤ batch.old.refusals.lines + 1 }
    ensures changed { GoesOnBy batch.old.changed_by batch.new.changed_by batch.old.database batch.new.database }
{
    if line.is_empty() {
        return answer(context, batch, out, text_of_line(bytes));
    }
    line.extend(bytes);
    answer(context, batch, out, line.whole_line())?;
    line.clear();
    Ok(())
}

// Takes the bytes, and runs each complete line.
fn feed<W: Write, V: Observer>(
    context: Context,
    batch: &mut Batch<'_, V>,
    out: &mut W,
    line: &mut LineBuffer,
    bytes: &[u8],
) -> Result<(), WriteFault>
    requires { batch.old.refusals.lines + length bytes.now < 2 ^ 64 }
    ensures told { (unfinished : List ℕ) → Buffers line.old unfinished
        → Moves context.now batch.old.database batch.new.database batch.old.refusals batch.new.refusals
        (W.contents out.old) (W.contents out.new) (whole_lines unfinished bytes.now) result
        × OnOk result (Buffers line.new (last_part unfinished bytes.now)) }
    ensures count { batch.new.refusals.lines ≤ batch.old.refusals.lines + length bytes.now }
    ensures changed { GoesOnBy batch.old.changed_by batch.new.changed_by batch.old.database batch.new.database }
{
    let mut from = 0;
    while let Some(length) = memchr(b'\n', &bytes[from..]) {
        take_line(context, batch, out, line, &bytes[from..from + length])?;
        from += length + 1;
    }
    line.extend(&bytes[from..]);
    Ok(())
}

// Runs each line of the reader.
fn run_lines<R: Read, W: Write, V: Observer>(
    context: Context,
    batch: &mut Batch<'_, V>,
    reader: &mut R,
    out: &mut W,
) -> Result<(), StreamFault>
    requires { batch.old.refusals.lines ≡ 0 }
    ensures run { (s0 : Option State) → StandsFor batch.old.database s0 → (most : ℕ) → Tallies most batch.old.refusals no_lines
        → (seen : List ℕ) × Consumes (R.remaining reader.old) (R.remaining reader.new) seen
        × (s1 : Option State) × StandsFor batch.new.database s1
        × (tally : Tally) × Tallies most batch.new.refusals tally
        × RunOver context.now seen (R.remaining reader.new) s0 s1 tally
        (W.contents out.old) (W.contents out.new) (result_err result) }
    ensures changed { GoesOnBy batch.old.changed_by batch.new.changed_by batch.old.database batch.new.database }
{
    let Ok(mut line) = LineBuffer::new(context.alloc) else {
        return Err(StreamFault::OutOfMemory);
    };
    let mut chunk = [0u8; CHUNK];
    'reads: for _ in 0..1_099_511_627_776u64 {
        let Ok(count) = read_some(reader, &mut chunk) else {
            return Err(StreamFault::Read);
        };
        if count == 0 {
            if line.is_empty() {
                return Ok(());
            }
            if answer(context, batch, out, line.last_line()).is_err() {
                return Err(StreamFault::Write);
            }
            return Ok(());
        }
        if feed(context, batch, out, &mut line, &chunk[..count]).is_err() {
            return Err(StreamFault::Write);
        }
    }
    Err(StreamFault::Read)
}

/// Runs each line of the reader on the database. Writes and flushes the output of a line, or the line of its fault,
/// before the next line runs. LF ends a line, a CR directly before the LF is dropped, and a last line without LF
/// counts. Spaces and tabs separate words, and a line without words is skipped. A line of more than 65,536 bytes, or
/// with a byte that is neither tab nor printable ASCII, is a usage fault. Before reading, allocates 65,536 bytes for a
/// line, and 8 bytes for each of the at most `numbered` numbers of refused lines; does not allocate for these later.
/// Reads at most 8,192 bytes at once, and at most 2^40 times. `now` is the present time in seconds since 1970. `observer`
/// sees each line whose fault was written.
pub fn run_batch<R: Read, W: Write, V: Observer>(
    alloc: Global,
    database: Option<Database>,
    now: u64,
    numbered: usize,
    reader: &mut R,
    out: &mut W,
    observer: &V,
) -> BatchEnd
    ensures run { (s0 : Option State) → StandsFor database s0
        → (seen : List ℕ) × Consumes (R.remaining reader.old) (R.remaining reader.new) seen
        × (s1 : Option State) × StandsFor result.database s1
        × (tally : Tally) × Counts numbered tally result.refused result.lines.items
        × RunOver now seen (R.remaining reader.new) s0 s1 tally
        (W.contents out.old) (W.contents out.new) result.stream }
    ensures changed { IsChangedBy result.changed_by database result.database }
{
    let Ok(refusals) = Refusals::new(alloc, numbered) else {
        return BatchEnd {
            database,
            changed_by: ChangedBy::Nothing,
            refused: 0,
            lines: Vec::new(alloc),
            stream: Some(StreamFault::OutOfMemory),
        };
    };
    let mut batch = Batch {
        database,
        changed_by: ChangedBy::Nothing,
        refusals,
        observer,
    };
    let stream = run_lines(Context { alloc, now }, &mut batch, reader, out).err();
    BatchEnd {
        database: batch.database,
        changed_by: batch.changed_by,
        refused: batch.refusals.count,
        lines: batch.refusals.numbers,
        stream,
    }
}
