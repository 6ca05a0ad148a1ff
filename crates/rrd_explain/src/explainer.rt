//! Explains what is refused in a run, while the run has its words and its database.
use crate::{Explanation, explain_line, explain_words};
use rrd_base::Database;
use rrd_store::Gate;
use rrd_tool::{Fault, Observer, Words};
use std::alloc::{AllocError, Global};
use std::cell::RefCell;

/// The maximum number of bytes of all explanations of a run, each with the number of its line.
const MOST: usize = 8_192;

/// The maximum number of bytes around an explanation: `line 18446744073709551615: `, and the end of the line.
const AROUND: usize = 28;

/// What is explained of a run.
#[derive(Drop)]
pub struct Explained {
    /// The number of the line of a batch, from 1 on; 0 for the only command of a run.
    pub line: u64,
    /// The explanation.
    pub explanation: Explanation,
}

/// The explanations of a run so far.
#[derive(Drop)]
struct Kept {
    explained: Vec<Explained>,
    bytes: usize,
}

impl Kept {
    // Keeps an explanation, unless all of them would have too many bytes.
    fn push(&mut self, line: u64, explanation: Explanation) -> Result<(), AllocError> {
        let length = explanation.as_bytes().len().saturating_add(AROUND);
        self.bytes = self.bytes.saturating_add(length);
        if self.bytes <= MOST {
            self.explained.push(Explained { line, explanation })?;
        }
        Ok(())
    }
}

/// Explains what is refused in a run. Does nothing before a refusal.
///
/// Of a batch the first refused lines are explained, up to 8,192 bytes of text with 28 bytes more for each.
#[derive(Drop)]
pub struct Explainer<'a> {
    alloc: Global,
    // The words of the only command.
    words: &'a [&'a str],
    now: u64,
    kept: RefCell<Kept>,
}

impl<'a> Explainer<'a> {
    /// Creates an explainer of a run of one command, whose name and arguments without FILE are these words. It was read at
    /// the time `now`, in seconds since 1970.
    pub fn of_command(alloc: Global, words: &'a [&'a str], now: u64) -> Explainer<'a> {
        Explainer {
            alloc,
            words,
            now,
            kept: RefCell::new(Kept {
                explained: Vec::new(alloc),
                bytes: 0,
            }),
        }
    }

    /// Creates an explainer of a batch, whose lines are read at the time `now`.
    pub fn of_lines(alloc: Global, now: u64) -> Explainer<'a> {
        Explainer::of_command(alloc, &[], now)
    }

    /// Explains the end of a run of one command whose words were no command, or could not be read.
    pub fn end(&self, fault: Fault) {
        if let Fault::Line(_) = fault {
            self.command_refused(None, fault);
        }
    }

    /// Returns the explanations, in the order of the lines.
    pub fn into_explained(self) -> Vec<Explained> {
        self.kept.into_inner().explained
    }

    // Checks whether there may be room for one more explanation.
    fn has_room(&self) -> bool {
        match self.kept.try_borrow() {
            Ok(kept) => kept.bytes <= MOST,
            Err(_) => false,
        }
    }

    // Keeps an explanation. Without memory for it there is none.
    fn keep(&self, line: u64, explanation: Option<Explanation>) {
        let Some(explanation) = explanation else {
            return;
        };
        if let Ok(mut kept) = self.kept.try_borrow_mut() {
            let _pushed = kept.push(line, explanation);
        }
    }
}

impl<'a> Observer for Explainer<'a> {
    fn command_refused(&self, database: Option<&Database>, fault: Fault) {
        let explanation = explain_words(self.alloc, self.words, database, fault, self.now);
        self.keep(0, explanation);
    }

    fn line_refused(
        &self,
        number: u64,
        text: Option<&[u8]>,
        database: Option<&Database>,
        fault: Fault,
    ) {
        if self.has_room() {
            let explanation = explain_line(self.alloc, text, database, fault, self.now);
            self.keep(number, explanation);
        }
    }
}

impl<'a> Gate for Explainer<'a> {
    fn allows(&self) -> bool {
        true
    }
}
