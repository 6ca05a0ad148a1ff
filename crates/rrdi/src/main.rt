//! `rrdi`: runs a command, or a batch of commands, on a round-robin database in a file.
#![tactic(auto)]

mod clock;
mod disk;
mod explaining;
mod settings;
mod tasks;

use crate::tasks::{batch, fail, file_batch, misuse, not_text, single};
use rrd_store::{Task, TaskFault, parse_task};
use rrd_tool::{Fault, LineFault};
use std::env;
use std::io::ErrorKind;
use std::process::ExitCode;

/// The fault of arguments that name no task of the program.
const USAGE_ERROR: TaskFault = TaskFault::Command(Fault::Line(LineFault::Usage));

/// The fault if memory runs out for the arguments, or for the output.
const NO_MEMORY: TaskFault = TaskFault::Command(Fault::Line(LineFault::OutOfMemory));

// Runs the task that the program's arguments name, and returns the status. Arguments that are not a text name no task.
fn run(rt: &HostRuntime) -> u8 {
    let words: Vec<String> = match env::args(rt).and_then(|words| Ok(words.collect(rt.alloc())?)) {
        Ok(words) => words,
        Err(error) if error.kind() == ErrorKind::OutOfMemory => return fail(rt, NO_MEMORY),
        Err(_) => return not_text(rt),
    };
    let Ok(task) = parse_task(rt.alloc(), &words) else {
        return fail(rt, NO_MEMORY);
    };
    match task {
        Task::Usage => misuse(rt, &words),
        Task::Batch => batch(rt),
        Task::FileBatch { file } => file_batch(rt, file),
        Task::Single {
            file,
            words: command,
        } => single(rt, file, &command, &words),
    }
}

fn main(rt: HostRuntime) -> ExitCode {
    ExitCode::from(run(&rt))
}
