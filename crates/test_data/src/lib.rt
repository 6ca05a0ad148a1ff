//! What several crates of tests share: databases as values, the bytes of their files, and streams that fail.
#![tactic(auto)]

use rrd_tool::{Command, Words, read_command};
use std::alloc::{AllocError, Global};
use std::test::Fail;

pub mod difference;
pub mod each_call;
pub mod plans;
pub mod streams;
pub mod worked_files;

/// Joins runs of bytes, one behind another.
pub fn joined(alloc: Global, runs: &[&[u8]]) -> Result<Vec<u8>, AllocError> {
    let mut bytes = Vec::new(alloc);
    for run in runs {
        bytes.extend_from_slice(run)?;
    }
    Ok(bytes)
}

/// Returns the words of a line, which stand between single spaces.
pub fn words_of(alloc: Global, line: &str) -> Result<Words<'_>, AllocError> {
    let mut words = Words::new(alloc);
    for word in line.split(' ') {
        words.push(word)?;
    }
    Ok(words)
}

/// Returns the command of a line.
pub fn command_of(alloc: Global, line: &str) -> Result<Command, Fail> {
    Ok(read_command(alloc, &words_of(alloc, line)?, 0)?)
}
