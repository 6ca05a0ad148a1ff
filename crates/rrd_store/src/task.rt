//! The task that the program's arguments ask for.
ghost use Rattle.std.specs.Prelude.{◌≡◌, ◌∷◌, IfOk, map};
ghost use Rattle.std.specs.String.{string_bytes};
ghost use Rattle.rrd_store.specs.Tasks.{asked, told_by};

use rrd_tool::{Words, begins_with_minus};
use std::alloc::{AllocError, Global};

/// A task of the program.
#[derive(Drop)]
pub enum Task<'a> {
    /// Report the usage of the program: the arguments ask for help, or name no task.
    Usage,
    /// Run the commands on standard input, in memory.
    Batch,
    /// Run the commands on standard input on the database in a file.
    FileBatch { file: &'a str },
    /// Run one command on the database in a file. `words` is the command's name and then the command's arguments.
    Single { file: &'a str, words: Words<'a> },
}

// Returns a command's name and the arguments after FILE.
fn command_words<'a>(
    alloc: Global,
    command: &'a str,
    rest: &'a [String],
) -> Result<Words<'a>, AllocError>
    ensures { IfOk result (λ words. words ≡ command.entry.now ∷ map string_bytes rest.entry.now) }
{
    let mut words = Words::new(alloc);
    words.push(command)?;
    for word in rest {
        words.push(word.as_str())?;
    }
    Ok(words)
}

/// Parses the program's arguments into a task. The first argument is the program's name.
///
/// # Errors
///
/// `AllocError` if memory runs out for the arguments of a command.
pub fn parse_task<'a>(alloc: Global, words: &'a [String]) -> Result<Task<'a>, AllocError>
    ensures { IfOk result (λ task. told_by task ≡ asked (map string_bytes words.now)) }
{
    match words {
        [_, word] if word.as_str() == "batch" => Ok(Task::Batch),
        [_, _, file, ..] if begins_with_minus(file.as_str()) => Ok(Task::Usage),
        [_, word, file] if word.as_str() == "batch" => Ok(Task::FileBatch {
            file: file.as_str(),
        }),
        [_, word, ..] if word.as_str() == "batch" => Ok(Task::Usage),
        [_, command, file, rest @ ..] => Ok(Task::Single {
            file: file.as_str(),
            words: command_words(alloc, command.as_str(), rest)?,
        }),
        _ => Ok(Task::Usage),
    }
}
