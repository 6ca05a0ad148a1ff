//! Explanations of refused commands: which word was wrong, what would do, and what the file has.
#![tactic(auto)]

mod arguments;
mod cause;
mod command_usage;
mod counts;
mod create;
mod definitions;
mod explainer;
mod explanation;
mod file;
mod hints;
mod likeness;
mod misuse;
mod numbers;
mod other_commands;
mod programs;
mod ranges;
mod refused;
mod samples;
mod shown;
mod tools;
mod tune;
mod unreadable;
mod update;

pub use cause::explain_cause;
pub use explainer::{Explained, Explainer};
pub use explanation::Explanation;
pub use misuse::{Misuse, misuse_of};
pub use programs::other_program;
pub use refused::{explain, explain_line, explain_words};
