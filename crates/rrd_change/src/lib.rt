//! Changes of a file, which a kill or a power failure at any time leaves out or leaves complete.
//!
//! A change is redone and not undone: its new bytes are appended to a log behind the database, and one write, of sixteen
//! bytes or of the change itself, commits it. Then the bytes are brought into place.
#![tactic(auto)]

mod calls;
mod checksum;
mod creation;
mod decoding;
mod encoding;
mod finding;
pub mod laws;
mod log;
mod marks;
mod opened;
mod page;
mod repair;
mod span;
mod uniting;
mod writing;

pub use calls::{Bytes, Syncs};
pub use creation::create;
pub use finding::{FoundDatabase, Layout};
pub use log::{Base, DATABASE_MARK, Log, begin, mark, replace, unmark};
pub use marks::has_mark;
pub use opened::change;
pub use page::{PAGE, is_one_write};
pub use repair::{finish_cut, finish_log};
pub use span::Span;
