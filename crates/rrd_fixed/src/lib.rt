//! Cells, rates, names and numbers, their texts, and streams of bytes.
//!
//! Values are whole millionths if no other unit is named; times are in seconds since 1970.
#![tactic(auto)]

mod cell;
mod kind;
mod laws;
mod meter;
mod name;
mod number;
mod puts;
mod rates;
mod raw;
mod rounding;
mod stored;
mod streams;
mod text;

pub use cell::Cell;
pub use kind::Kind;
pub use laws::texts_are_read_back;
pub use meter::Meter;
pub use name::Name;
pub use number::{Number, admit, read_number, read_whole};
pub use puts::{put_cell, put_time};
pub use rates::rate;
pub use raw::Raw;
pub use rounding::near;
pub use stored::StoredCell;
pub use streams::{ReadFault, TRIES, WriteFault, flush, read_some, write_bytes};
pub use text::{MILLIONTHS, cell_string, message, numbered_message, raw_string, time_string};
