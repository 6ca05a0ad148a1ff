//! Times, cells and raw values as text.
ghost use Rattle.std.specs.Prelude.{◌≡◌, ◌+◌, ◌-◌, ◌++◌, ◌∷◌, [], ◌≤◌, decimal, length};
ghost use Rattle.rrd_fixed.specs.Text.{cell_text, millionths_text, raw_text, signed_text, time_text, whole_text};

use crate::puts::put_signed;
use crate::{Cell, Kind, Raw};
use arrayvec::ArrayString;
use itoa::Buffer;

/// The number of millionths in a unit.
pub const MILLIONTHS: u64 = 1_000_000;

// Millionths, with a minus if they are below 0.
fn signed_string(millionths: i128) -> ArrayString<48>
    ensures { result.bytes ≡ signed_text millionths }
{
    let mut buffer = [0; 48];
    let start = put_signed(millionths, &mut buffer, 48);
    let Ok(digits) = str::from_utf8(&buffer[start..]) else {
        unreachable!()
    };
    short_string(digits)
}

// Returns the text of a whole number.
fn whole_string(number: i128) -> ArrayString<48>
    ensures { result.bytes ≡ whole_text number }
{
    let mut buffer = Buffer::new();
    let mut text = ArrayString::new();
    text.push_str(buffer.format(number));
    text
}

// Returns the letters, at most 48, as a string.
fn short_string(letters: &str) -> ArrayString<48>
    requires { length letters.now ≤ 48 }
    ensures { result.bytes ≡ letters.now }
{
    let mut text = ArrayString::new();
    text.push_str(letters);
    text
}

/// Returns the text of a cell.
///
/// The text is `nan`, or an optional `-`, the whole part without leading zeros, a point and six digits. Does not
/// allocate.
pub fn cell_string(cell: Cell) -> ArrayString<48>
    ensures text { result.bytes ≡ cell_text cell }
    ensures short { length result.bytes ≤ 48 }
{
    match cell {
        Cell::Unknown => short_string("nan"),
        Cell::Known(millionths) => signed_string(millionths),
    }
}

/// Returns the text of a raw value.
///
/// The text is `U`, a whole number for COUNTER and DERIVE, or that of a known cell for GAUGE and ABSOLUTE. Does not
/// allocate.
pub fn raw_string(kind: Kind, raw: Raw) -> ArrayString<48>
    ensures text { result.bytes ≡ raw_text kind raw }
    ensures short { length result.bytes ≤ 48 }
{
    match (kind, raw) {
        (_, Raw::Unknown) => short_string("U"),
        (Kind::Counter | Kind::Derive, Raw::Known(units)) => whole_string(units),
        (Kind::Gauge | Kind::Absolute, Raw::Known(millionths)) => signed_string(millionths),
    }
}

/// Returns the text of a time in seconds since 1970.
///
/// The text is a whole number, with a `-` below 0. Does not allocate.
pub fn time_string(seconds: i64) -> ArrayString<20>
    ensures text { result.bytes ≡ time_text seconds }
    ensures short { length result.bytes ≤ 20 }
{
    let mut buffer = Buffer::new();
    let mut text = ArrayString::new();
    text.push_str(buffer.format(seconds));
    text
}

/// Returns a text of at most 40 bytes as a string. Does not allocate.
pub fn message(letters: &str) -> ArrayString<96>
    requires { length letters.now ≤ 40 }
    ensures text { result.bytes ≡ letters.now }
    ensures short { length result.bytes ≤ 60 }
{
    let mut string = ArrayString::new();
    string.push_str(letters);
    string
}

/// Returns a text of at most 40 bytes with a number after it.
///
/// Does not allocate.
pub fn numbered_message(letters: &str, number: u64) -> ArrayString<96>
    requires { length letters.now ≤ 40 }
    ensures text { result.bytes ≡ letters.now ++ decimal number }
    ensures short { length result.bytes ≤ 60 }
{
    let mut text = message(letters);
    let mut digits = Buffer::new();
    text.push_str(digits.format(number));
    text
}
