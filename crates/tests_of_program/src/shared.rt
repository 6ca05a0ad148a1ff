//! What several tests ask of a database and of the outcome of a command.
use rrd_base::Database;
use rrd_tool::{Fault, Outcome};
use std::process::Abort;
use test_data::difference::first_difference;

pub(crate) fn last_of(database: &Option<Database>) -> Option<u64> {
    match database {
        Some(database) => Some(database.last()),
        None => None,
    }
}

// What a command came to, part by part.
#[derive(Drop)]
pub(crate) struct OutcomeParts {
    pub(crate) database: Option<Database>,
    pub(crate) changed: bool,
    pub(crate) fault: Option<Fault>,
}

pub(crate) fn parts_of(outcome: Outcome) -> OutcomeParts {
    match outcome {
        Outcome::Printed(database) => OutcomeParts {
            database: Some(database),
            changed: false,
            fault: None,
        },
        Outcome::Changed(database) => OutcomeParts {
            database: Some(database),
            changed: true,
            fault: None,
        },
        Outcome::Refused { database, fault } => OutcomeParts {
            database,
            changed: false,
            fault: Some(fault),
        },
    }
}

// A file has these bytes.
pub(crate) fn assert_bytes(rt: &impl Abort, file: &[u8], wanted: &[u8], case: &str) {
    assert_eq!(rt; first_difference(file, wanted), None, "{case}");
}

// What a writer took is the front of a text that it has room for.
pub(crate) fn assert_front(rt: &impl Abort, taken: &[u8], text: &[u8], room: usize) {
    let front = text.get(..room).unwrap_or(text);
    assert_eq!(rt; taken, front, "{room}");
}
