//! Explanations of refused commands: the words, and what is said of them.
use rrd_explain::Explanation;

mod escapes;
mod every_fault;
mod misuses;
mod refusals;
mod table;

// What an explanation says: nothing if there is none.
fn said(explanation: &Option<Explanation>) -> &str {
    match explanation {
        Some(explanation) => str::from_utf8(explanation.as_bytes()).unwrap_or("no text"),
        None => "",
    }
}
