//! Words of a command that are missing, or too many.
use crate::file::Functions;
use crate::shown::Quoted;
use rrd_base::Database;
use std::alloc::Global;

/// The words that a command takes after FILE, apart from its options.
#[derive(Clone, Copy)]
struct Taken {
    // What is said of each word that is required and missing.
    missing: &'static [&'static str],
    // The maximum number of words.
    most: usize,
    // What the command takes, as it is said of a word too many.
    takes: &'static str,
}

// Returns the words that a command takes. Returns `None` if it takes any number, and if there is no such command.
fn taken_by(command: &str) -> Option<Taken> {
    let (missing, most, takes): (&'static [&'static str], usize, &'static str) = match command {
        "fetch" => (&["give a function"], 1, "a function and options"),
        "resize" => (
            &[
                "give the number of an archive, such as 0",
                "give GROW or SHRINK after the number of the archive",
                "give the number of rows after GROW or SHRINK, such as 100",
            ],
            3,
            "an archive, GROW or SHRINK, and a number of rows",
        ),
        "tune" => (&[], 1, "options, or one RRA: or DELRRA:"),
        "first" => (&[], 0, "only the option --rraindex"),
        "last" | "lastupdate" | "info" => (&[], 0, "none"),
        "revert" => (&[], 0, "none, and undoes one change"),
        "batch" => (&[], 0, "only FILE, and commands on standard input"),
        _ => return None,
    };
    Some(Taken {
        missing,
        most,
        takes,
    })
}

// Returns the consolidation functions that a fetch may have: those of the database, if it is at hand.
fn functions_text(alloc: Global, database: Option<&Database>) -> Option<String> {
    match database {
        Some(database) => format!(in alloc; "{}", Functions(database)).ok(),
        None => String::from_str(alloc, "AVERAGE, MIN, MAX, LAST").ok(),
    }
}

// Says that a word is missing, and what would do.
fn missing_text(
    alloc: Global,
    command: &str,
    says: &str,
    database: Option<&Database>,
) -> Option<String> {
    if command == "fetch" {
        let functions = functions_text(alloc, database)?;
        return format!(in alloc; "{says}: {functions}").ok();
    }
    String::from_str(alloc, says).ok()
}

/// Says which of a command's words, which are no options, is missing or the first one too many. Returns `None` if none is,
/// or memory runs out.
pub(crate) fn wrong_count_of_words(
    alloc: Global,
    command: &str,
    words: &[&str],
    database: Option<&Database>,
) -> Option<String> {
    let Taken {
        missing,
        most,
        takes,
    } = taken_by(command)?;
    if let Some(says) = missing.get(words.len()) {
        return missing_text(alloc, command, says, database);
    }
    let word = Quoted(words.get(most)?);
    format!(in alloc; "{word} is a word too many; {command} takes {takes}").ok()
}
