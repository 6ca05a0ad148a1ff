//! What is wrong with arguments that are not a command.
use crate::Explanation;
use crate::arguments::{Arguments, GivenOption, OptionName};
use crate::command_usage::{command_names, lines_of, options_in, text_of};
use crate::counts::wrong_count_of_words;
use crate::hints::with_time_hint;
use crate::likeness::nearest;
use crate::shown::{Quoted, Shown};
use crate::tools::instead_of;
use rrd_base::Database;
use rrd_tool::begins_with_minus;
use std::alloc::Global;
use std::fmt::{self, Display, Formatter};

/// Arguments that are not a command.
#[derive(Drop)]
pub struct Misuse {
    /// What is wrong with them, if they show it.
    pub explanation: Option<Explanation>,
    /// The usage of the command that was meant. `None` if that is not known: the usage of the program then says more.
    pub usage: Option<String>,
}

// Checks whether a word asks for help.
fn asks_for_help(word: &str) -> bool {
    word == "--help" || word == "-h"
}

// Returns the option whose name is like this one.
fn option_meant(
    alloc: Global,
    name: OptionName<'_>,
    options: &[&'static str],
) -> Option<&'static str> {
    let OptionName::Long(word) = name else {
        return None;
    };
    let mut names = Vec::new(alloc);
    for option in options {
        if option.starts_with("--") {
            names.push(*option).ok()?;
        }
    }
    nearest(alloc, word, &names)
}

/// The long names of the options of a command, with commas between them.
#[derive(Clone, Copy)]
struct LongNames<'a>(&'a [&'static str]);

impl<'a> Display for LongNames<'a> {
    fn fmt<W: fmt::Write>(&self, f: &mut Formatter<W>) -> fmt::Result {
        let mut mark = "";
        for option in self.0 {
            if option.starts_with("--") {
                write!(f, "{mark}{option}")?;
                mark = ", ";
            }
        }
        if mark.is_empty() {
            return f.write_str("none");
        }
        Ok(())
    }
}

// Says that a command has no such option, and which one was meant, or which it has.
fn no_option(
    alloc: Global,
    command: &str,
    name: OptionName<'_>,
    options: &[&'static str],
) -> Option<String> {
    let says = match option_meant(alloc, name, options) {
        Some(meant) => format!(in alloc; "there is no option {name}; did you mean {meant}?"),
        None => format!(in alloc;
            "there is no option {name}; {command} takes {}",
            LongNames(options)
        ),
    };
    says.ok()
}

// Says that an option has no value, and what to write if it was to be a time before now.
fn no_value(alloc: Global, long: &str, next: Option<&str>, now: u64) -> Option<String> {
    let Some(next) = next else {
        return format!(in alloc; "{long} has no value").ok();
    };
    let says = format!(in alloc; "{long} has no value; {} begins with a dash", Quoted(next)).ok()?;
    match long {
        "--start" | "--end" => with_time_hint(alloc, says, next, now),
        _ => Some(says),
    }
}

// Checks whether an option before the one with this index has the same long name.
fn is_repeated(
    given: &[GivenOption<'_>],
    index: usize,
    long: &str,
    options: &[&'static str],
) -> bool {
    match given.get(..index) {
        Some(before) => before
            .iter()
            .any(|other| other.name.long_in(options) == Some(long)),
        None => false,
    }
}

/// What is wrong with an option.
#[derive(Clone, Copy)]
enum WrongOption<'a> {
    // The command has none of this name.
    Unknown(OptionName<'a>),
    // The word that begins with a dash is in the place of its value, if there is a word.
    NoValue(&'static str, Option<&'a str>),
    Repeated(&'static str),
}

// Returns the first option that a command does not have, that has no value, or that is given twice.
fn wrong_option<'a>(
    given: &[GivenOption<'a>],
    options: &[&'static str],
) -> Option<WrongOption<'a>> {
    for (index, option) in given.iter().enumerate() {
        let Some(long) = option.name.long_in(options) else {
            return Some(WrongOption::Unknown(option.name));
        };
        if option.value.is_none() {
            return Some(WrongOption::NoValue(long, option.next));
        }
        if is_repeated(given, index, long, options) {
            return Some(WrongOption::Repeated(long));
        }
    }
    None
}

// Says what is wrong with the arguments of a command without FILE: an option, or the number of the other words. No other
// arguments are refused before they are read.
fn wrong_arguments(
    alloc: Global,
    command: &str,
    arguments: &[&str],
    database: Option<&Database>,
    now: u64,
) -> Option<String> {
    let options = options_in(alloc, &lines_of(alloc, command).ok()?).ok()?;
    let given = Arguments::new(alloc, arguments).ok()?;
    match wrong_option(&given.options, &options) {
        Some(WrongOption::Unknown(name)) => no_option(alloc, command, name, &options),
        Some(WrongOption::NoValue(long, next)) => no_value(alloc, long, next, now),
        Some(WrongOption::Repeated(long)) => format!(in alloc; "{long} is given twice").ok(),
        None => wrong_count_of_words(alloc, command, &given.words, database),
    }
}

// Checks whether FILE was forgotten: a word that follows it is in its place.
fn lacks_file(command: &str, words: &[&str]) -> bool {
    match (command, words) {
        ("fetch", [word, ..]) => matches!(*word, "AVERAGE" | "MIN" | "MAX" | "LAST"),
        ("resize", [_, word, ..]) => matches!(*word, "GROW" | "SHRINK"),
        _ => false,
    }
}

// Says what is wrong with the words after the name of a command: FILE and the arguments. If they ask for help, nothing is:
// the usage follows.
fn wrong_words(alloc: Global, command: &str, words: &[&str], now: u64) -> Option<String> {
    if words.iter().any(|word| asks_for_help(word)) {
        return None;
    }
    let [file, arguments @ ..] = words else {
        return String::from_str(alloc, "FILE is missing").ok();
    };
    if begins_with_minus(file) {
        return format!(in alloc;
            "{} is in the place of FILE, which does not begin with a dash",
            Shown(file)
        )
        .ok();
    }
    if lacks_file(command, words) {
        return format!(in alloc;
            "{} is in the place of FILE, which comes first",
            Shown(file)
        )
        .ok();
    }
    wrong_arguments(alloc, command, arguments, None, now)
}

// Returns the command whose name is like this word.
fn command_meant(alloc: Global, word: &str) -> Option<&'static str> {
    let names = command_names(alloc).ok()?;
    let name = word.strip_prefix("rrd").unwrap_or(word);
    nearest(alloc, name, &names)
}

// Says that there is no such command, what does its task, or which command was meant.
fn no_command_text(
    alloc: Global,
    word: &str,
    instead: Option<String>,
    meant: Option<&str>,
) -> Option<String> {
    if word.is_empty() {
        return String::from_str(alloc, "the name of the command is empty").ok();
    }
    let says = match (instead, meant) {
        (Some(instead), _) => format!(in alloc; "there is no command {word}; {instead}"),
        (None, Some(meant)) => format!(in alloc;
            "there is no command {}; did you mean {meant}?",
            Shown(word)
        ),
        (None, None) => format!(in alloc; "there is no command {}", Shown(word)),
    };
    says.ok()
}

// Says that there is no such command, and what was meant.
fn no_command(alloc: Global, word: &str) -> Misuse {
    let instead = instead_of(alloc, word);
    let meant = match &instead {
        Some(_) => None,
        None => command_meant(alloc, word),
    };
    let says = no_command_text(alloc, word, instead, meant);
    Misuse::new(alloc, says, meant)
}

// Checks whether a command has this name.
fn is_command(alloc: Global, word: &str) -> bool {
    match lines_of(alloc, word) {
        Ok(lines) => !lines.is_empty(),
        Err(_) => false,
    }
}

/// What is wrong with a batch in a batch, or in a call of a library.
const NO_BATCH: &str = "batch is no command here: the program runs it, as rrdi batch FILE";

/// Says what is wrong with words that are no command: the command's name, an option, or the number of the other words. The
/// words are the command's name and its arguments without FILE; `now` is the present time, and `database` that of FILE, if it
/// is at hand.
pub(crate) fn misused(
    alloc: Global,
    words: &[&str],
    database: Option<&Database>,
    now: u64,
) -> Option<String> {
    let [command, arguments @ ..] = words else {
        return String::from_str(alloc, "the name of a command is missing, such as info").ok();
    };
    if *command == "batch" {
        return String::from_str(alloc, NO_BATCH).ok();
    }
    if is_command(alloc, command) {
        return wrong_arguments(alloc, command, arguments, database, now);
    }
    let instead = instead_of(alloc, command);
    let meant = command_meant(alloc, command);
    no_command_text(alloc, command, instead, meant)
}

impl Misuse {
    // Creates a misuse with this explanation and the usage of the command of this name, if they are known.
    fn new(alloc: Global, says: Option<String>, command: Option<&str>) -> Misuse {
        let explanation = match says {
            Some(text) => Explanation::new(alloc, &text).ok(),
            None => None,
        };
        let usage = match command {
            Some(command) => text_of(alloc, command),
            None => None,
        };
        Misuse { explanation, usage }
    }
}

/// Returns what is wrong with arguments of the program that are not a command, and the usage of the command that they
/// name. The arguments are those after the program's name; `now` is the present time in seconds since 1970.
///
/// If memory runs out, less is said.
pub fn misuse_of(alloc: Global, arguments: &[&str], now: u64) -> Misuse {
    let [command, words @ ..] = arguments else {
        return Misuse::new(alloc, None, None);
    };
    if *command == "-" {
        let says =
            "- is no command; rrdi-rrdtool - reads commands as RRDtool does, and rrdi batch its own";
        return Misuse::new(alloc, String::from_str(alloc, says).ok(), None);
    }
    if asks_for_help(command) {
        return Misuse::new(alloc, None, None);
    }
    if !is_command(alloc, command) {
        return no_command(alloc, command);
    }
    Misuse::new(
        alloc,
        wrong_words(alloc, command, words, now),
        Some(command),
    )
}
