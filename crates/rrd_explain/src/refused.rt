//! Explains why a command was refused.
use crate::Explanation;
use crate::create::of_create;
use crate::misuse::misused;
use crate::other_commands::{of_fetch, of_first, of_resize, of_revert};
use crate::tune::of_tune;
use crate::unreadable::unreadable;
use crate::update::of_update;
use rrd_base::{Database, Refusal};
use rrd_tool::{Command, Fault, LineFault, Words, read_command};
use std::alloc::Global;

// Returns what is missing, or what else to do, whatever the command is.
fn plain_text(alloc: Global, refusal: Refusal) -> Option<String> {
    let text = match refusal {
        Refusal::NoSource => "a data source is missing, such as DS:temp:GAUGE:600:U:U",
        Refusal::NoArchive => "an archive is missing, such as RRA:AVERAGE:0.5:1:1440",
        Refusal::NoSample => "a sample is missing, such as N:21.5",
        Refusal::NothingToTune => "an option, or RRA: or DELRRA:, is missing",
        Refusal::MixedTune => "run it twice: with the options, and with the archive",
        Refusal::SpanTooLong => "it would be over 1000000 rows; raise --start or --resolution",
        Refusal::TooLarge =>
            "it would be over 128 archives, or over 8000000 cells: data sources times rows",
        // Each is explained by the commands that give it, which know the word or the database. Without memory for their text
        // nothing else is said in its place.
        Refusal::BadStep
        | Refusal::BadStart
        | Refusal::BadTime
        | Refusal::BadName
        | Refusal::DoubleName
        | Refusal::BadHeartbeat
        | Refusal::BadBounds
        | Refusal::BadXff
        | Refusal::BadSteps
        | Refusal::BadRows
        | Refusal::BadDepth
        | Refusal::NoSuchSource
        | Refusal::WrongCount
        | Refusal::BadValue
        | Refusal::NotLater { .. }
        | Refusal::NoSuchArchive
        | Refusal::ShrinkTooFar
        | Refusal::NothingToRevert
        | Refusal::NoArchiveForFunction
        | Refusal::BadSpan => return None,
        // There is no memory for a text either.
        Refusal::OutOfMemory => return None,
    };
    String::from_str(alloc, text).ok()
}

// Says why a command is refused that could be read.
fn refused(
    alloc: Global,
    words: &[&str],
    command: &Command,
    database: Option<&Database>,
    refusal: Refusal,
    now: u64,
) -> Option<String> {
    let found = match command {
        Command::Create(spec) => of_create(alloc, words, spec, refusal),
        Command::Update(update) => of_update(alloc, database, update, refusal, now),
        Command::Tune(tuning) => of_tune(alloc, database, tuning, refusal),
        Command::Resize { archive, rows, .. } => of_resize(
            alloc, database, *archive, *rows, refusal,
        ),
        Command::Fetch(fetch) => of_fetch(alloc, database, fetch, refusal, now),
        Command::First { .. } => of_first(alloc, database, refusal),
        Command::Revert => of_revert(alloc, database, refusal),
        // They print what every database has, and refuse nothing.
        Command::Last | Command::LastUpdate | Command::Info => None,
    };
    if found.is_some() {
        return found;
    }
    plain_text(alloc, refusal)
}

/// What is wrong if there is no database.
const NO_DATABASE: &str = "there is none yet: begin with a create, or check the path of FILE";

/// Explains a fault of a command: which word was wrong, what would do, or what the database has.
///
/// `words` are the command's name and its arguments, without FILE; there are none if the command was not read from words.
/// `command` is what was read, if that could be read, and `database` that on which it was refused, if it is at hand. `now` is
/// the time at which the command was read, in seconds since 1970.
///
/// Returns `None` if nothing is to be added to the fault's own text, or memory runs out.
pub fn explain(
    alloc: Global,
    words: &[&str],
    command: Option<&Command>,
    database: Option<&Database>,
    fault: Fault,
    now: u64,
) -> Option<Explanation> {
    let text = match fault {
        Fault::Line(LineFault::Usage) => misused(alloc, words, database, now)?,
        Fault::Line(LineFault::BadWord { part, number }) => unreadable(
            alloc, words, part, number, now,
        )?,
        Fault::Refused(refusal) => refused(alloc, words, command?, database, refusal, now)?,
        Fault::NoDatabase => String::from_str(alloc, NO_DATABASE).ok()?,
        // Without memory there is no text either, and why a write of the output failed is not known here.
        Fault::Line(LineFault::OutOfMemory) | Fault::Output => return None,
    };
    Explanation::new(alloc, &text).ok()
}

// Reads the command that words are, if it could be read when it was refused.
fn command_of(alloc: Global, words: &[&str], fault: Fault, now: u64) -> Option<Command> {
    if let Fault::Line(_) = fault {
        return None;
    }
    let mut read = Words::new(alloc);
    for word in words {
        read.push(word).ok()?;
    }
    read_command(alloc, &read, now).ok()
}

/// Explains a fault of the command that these words are, as [`explain`] does.
pub fn explain_words(
    alloc: Global,
    words: &[&str],
    database: Option<&Database>,
    fault: Fault,
    now: u64,
) -> Option<Explanation> {
    let command = command_of(alloc, words, fault, now);
    explain(alloc, words, command.as_ref(), database, fault, now)
}

/// What is wrong with a line that is no text.
const NO_TEXT: &str =
    "the line has over 65536 bytes, or a byte that is neither tab nor printable ASCII";

/// Explains a fault of a line of a batch, as [`explain`] does. `text` is the line without its end, or `None` if it has
/// more than 65,536 bytes, or a byte that is neither tab nor printable ASCII.
pub fn explain_line(
    alloc: Global,
    text: Option<&[u8]>,
    database: Option<&Database>,
    fault: Fault,
    now: u64,
) -> Option<Explanation> {
    let Some(bytes) = text else {
        return Explanation::new(alloc, NO_TEXT).ok();
    };
    let mut words = Vec::new(alloc);
    for part in str::from_utf8(bytes).ok()?.split(' ') {
        for word in part.split('\t') {
            if !word.is_empty() {
                words.push(word).ok()?;
            }
        }
    }
    explain_words(alloc, &words, database, fault, now)
}
