//! What is wrong with a sample whose text cannot be read.
ghost use Rattle.std.specs.Prelude.{◌≡◌, ◌≤◌, is_none, length};
ghost use Rattle.rrd_explain.specs.Values.{is_value};

use crate::shown::Quoted;
use rrd_fixed::{read_number, read_whole};
use std::fmt::{self, Display, Formatter};

/// The maximum number of digits before the point of a value.
const MOST_DIGITS: usize = 20;

/// The maximum number of digits after the point of a value.
const MOST_DECIMALS: usize = 6;

/// What other programs write for an unknown value, in small letters.
const UNKNOWN: [&str; 7] = ["nan", "-nan", "+nan", "none", "null", "u", "unknown"];

/// Why a text is no value of a sample.
#[derive(Clone, Copy, Debug, PartialEq, Eq)]
pub(crate) enum ValueFault {
    /// The text is empty.
    Empty,
    /// Other programs write this for an unknown value.
    Unknown,
    /// A number but for a comma in place of the point.
    Comma,
    /// A number with an exponent.
    Exponent,
    /// A number with more than six decimals.
    Decimals,
    /// A number with more than 20 digits before its point.
    Digits,
    /// Any other text.
    Other,
}

/// A number as far as a text has one.
#[derive(Clone, Copy)]
struct Parts<'a> {
    // Whether a plus precedes the digits.
    has_plus: bool,
    // The number of digits before the point.
    whole: usize,
    // The point, or the comma in its place.
    point: Option<u8>,
    // The number of digits after the point.
    decimals: usize,
    // The bytes after the number.
    rest: &'a [u8],
}

// Returns the number of digits at the start of a text.
fn digits_of(text: &[u8]) -> usize
    ensures { result ≤ length text.now }
{
    text.iter().take_while(|byte| byte.is_ascii_digit()).count()
}

// Returns whether a text begins with a plus, and the text after its sign.
fn sign_of(text: &[u8]) -> (bool, &[u8]) {
    match text {
        [b'+', rest @ ..] => (true, rest),
        [b'-', rest @ ..] => (false, rest),
        _ => (false, text),
    }
}

// Takes a text apart as a number.
fn parts_of(text: &[u8]) -> Parts<'_> {
    let (has_plus, text) = sign_of(text);
    let whole = digits_of(text);
    match &text[whole..] {
        [point, after @ ..] if *point == b'.' || *point == b',' => {
            let decimals = digits_of(after);
            Parts {
                has_plus,
                whole,
                point: Some(*point),
                decimals,
                rest: &after[decimals..],
            }
        }
        rest => Parts {
            has_plus,
            whole,
            point: None,
            decimals: 0,
            rest,
        },
    }
}

// Checks whether a text is the exponent of a number, with its letter.
fn is_exponent(text: &[u8]) -> bool {
    let [b'e' | b'E', exponent @ ..] = text else {
        return false;
    };
    let (_, digits) = sign_of(exponent);
    !digits.is_empty() && digits_of(digits) == digits.len()
}

// Checks whether a point in place of a comma makes a number.
fn needs_only_point(parts: &Parts<'_>) -> bool {
    !parts.has_plus
        && parts.whole > 0
        && parts.whole <= MOST_DIGITS
        && parts.decimals > 0
        && parts.decimals <= MOST_DECIMALS
        && parts.rest.is_empty()
}

// Returns why the parts of a text are no number.
fn fault_of_parts(parts: &Parts<'_>) -> ValueFault {
    let has_digits = parts.whole > 0 || parts.decimals > 0;
    if parts.point == Some(b',') {
        return if needs_only_point(parts) {
            ValueFault::Comma
        } else {
            ValueFault::Other
        };
    }
    if has_digits && is_exponent(parts.rest) {
        ValueFault::Exponent
    } else if parts.has_plus || !parts.rest.is_empty() {
        ValueFault::Other
    } else if parts.decimals > MOST_DECIMALS {
        ValueFault::Decimals
    } else if parts.whole > MOST_DIGITS {
        ValueFault::Digits
    } else {
        ValueFault::Other
    }
}

// Checks whether other programs write a text for an unknown value.
fn is_unknown(text: &str) -> bool {
    UNKNOWN.iter().any(|word| text.eq_ignore_ascii_case(word))
}

/// Returns why a text is no value of a sample. Returns `None` if it is one.
pub(crate) fn value_fault(text: &str) -> Option<ValueFault>
    ensures { is_none result ≡ is_value text.now }
{
    if text == "U" || read_number(text.as_bytes()).is_some() {
        return None;
    }
    if text.is_empty() {
        return Some(ValueFault::Empty);
    }
    if is_unknown(text) {
        return Some(ValueFault::Unknown);
    }
    Some(fault_of_parts(&parts_of(text.as_bytes())))
}

/// What of a sample cannot be read.
#[derive(Clone, Copy)]
pub(crate) enum SampleFault<'a> {
    /// The sample has no colon: this is its time.
    NoValue(&'a str),
    /// This text is no time.
    Time(&'a str),
    /// The value with this number, counted from 1, has this text and this fault.
    Value(u64, &'a str, ValueFault),
}

// Returns the first of several values, with colons between them, that cannot be read.
fn fault_of_values(values: &str) -> Option<SampleFault<'_>> {
    let mut number: u64 = 0;
    for value in values.split(':') {
        number = number.saturating_add(1);
        if let Some(fault) = value_fault(value) {
            return Some(SampleFault::Value(number, value, fault));
        }
    }
    None
}

/// Returns what of a sample cannot be read: its time, or the first value that is none. Returns `None` if the sample can be
/// read.
pub(crate) fn sample_fault(sample: &str) -> Option<SampleFault<'_>> {
    let Some((time, values)) = sample.split_once(':') else {
        return Some(SampleFault::NoValue(sample));
    };
    if time != "N" && read_whole(time.as_bytes()).is_none() {
        return Some(SampleFault::Time(time));
    }
    fault_of_values(values)
}

/// A text that is no value, with its fault.
#[derive(Clone, Copy)]
struct BadValue<'a>(&'a str, ValueFault);

// Writes a number with a point in place of its comma.
fn write_with_point<W: fmt::Write>(text: &str, f: &mut Formatter<W>) -> fmt::Result {
    match text.split_once(',') {
        Some((whole, decimals)) => write!(f, "; write '{whole}.{decimals}', with a point"),
        None => Ok(()),
    }
}

impl<'a> Display for BadValue<'a> {
    fn fmt<W: fmt::Write>(&self, f: &mut Formatter<W>) -> fmt::Result {
        if self.1 == ValueFault::Empty {
            return f.write_str("empty; U is unknown");
        }
        write!(f, "{}", Quoted(self.0))?;
        match self.1 {
            ValueFault::Empty => Ok(()),
            ValueFault::Unknown => f.write_str("; U is unknown"),
            ValueFault::Comma => write_with_point(self.0, f),
            ValueFault::Exponent => f.write_str(
                ", with an exponent; a value has at most six decimals and no exponent",
            ),
            ValueFault::Decimals => f.write_str(
                ", with more than six decimals; a value has at most six decimals and no exponent",
            ),
            ValueFault::Digits => f.write_str(", with more than 20 digits"),
            ValueFault::Other => {
                f.write_str("; a value is a number, such as 21.5 or -3, or U for unknown")
            }
        }
    }
}

impl<'a> Display for SampleFault<'a> {
    fn fmt<W: fmt::Write>(&self, f: &mut Formatter<W>) -> fmt::Result {
        match self {
            SampleFault::NoValue(time) => {
                write!(f, "{} has no value; write TIME:VALUE", Quoted(time))
            }
            SampleFault::Time(time) => write!(
                f,
                "its time is {}, not whole seconds since 1970 or N",
                Quoted(time)
            ),
            SampleFault::Value(number, text, fault) => {
                write!(f, "its value {number} is {}", BadValue(text, *fault))
            }
        }
    }
}
