//! The usage of one command: its lines of the usage text.
use rrd_store::USAGE;
use std::alloc::{AllocError, Global};

/// The usage of a batch, which the list of the commands does not have.
const BATCH: &str = "batch [FILE]";

// Returns the name of the command whose usage this line of the usage text begins, and the line without its indent.
fn head_of(line: &str) -> Option<(&str, &str)> {
    let head = line.strip_prefix("  ")?;
    if head.starts_with(' ') {
        return None;
    }
    let (name, _) = head.split_once(' ')?;
    Some((name, head))
}

/// Returns the names of all commands.
pub(crate) fn command_names(alloc: Global) -> Result<Vec<&'static str>, AllocError> {
    let mut names = Vec::new(alloc);
    names.push("batch")?;
    for line in USAGE.lines() {
        if let Some((name, _)) = head_of(line) {
            names.push(name)?;
        }
    }
    Ok(names)
}

/// Returns the lines of the usage text that are about a command. There are none if no command has this name.
pub(crate) fn lines_of(alloc: Global, command: &str) -> Result<Vec<&'static str>, AllocError> {
    let mut lines = Vec::new(alloc);
    if command == "batch" {
        lines.push(BATCH)?;
        return Ok(lines);
    }
    let mut is_about = false;
    for line in USAGE.lines() {
        let mut shown = line;
        if let Some((name, head)) = head_of(line) {
            is_about = name == command;
            shown = head;
        }
        is_about = is_about && !line.is_empty();
        if is_about {
            lines.push(shown)?;
        }
    }
    Ok(lines)
}

/// Returns the usage of a command as it is printed. Returns `None` if no command has this name, or memory runs out.
pub(crate) fn text_of(alloc: Global, command: &str) -> Option<String> {
    let lines = lines_of(alloc, command).ok()?;
    if lines.is_empty() {
        return None;
    }
    let mut text = String::from_str(alloc, "usage: rrdi ").ok()?;
    for line in &lines {
        text.push_str(line).ok()?;
        text.push_str("\n").ok()?;
    }
    Some(text)
}

/// Returns the options that the usage of a command has. The letter of an option precedes the option's name.
pub(crate) fn options_in(
    alloc: Global,
    lines: &[&'static str],
) -> Result<Vec<&'static str>, AllocError> {
    let mut options = Vec::new(alloc);
    for line in lines {
        push_options(&mut options, line)?;
    }
    Ok(options)
}

// Adds the options of a line.
fn push_options(options: &mut Vec<&'static str>, line: &'static str) -> Result<(), AllocError> {
    for word in line.split([' ', '[', ']', '|']) {
        if word.starts_with('-') {
            options.push(word)?;
        }
    }
    Ok(())
}
