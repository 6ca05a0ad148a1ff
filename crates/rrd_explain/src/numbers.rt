//! Numbers as a caller writes them.
use rrd_fixed::{Cell, cell_string, read_number, read_whole};
use std::alloc::Global;

/// The largest exponent of a number that is written out.
const MOST_EXPONENT: u64 = 24;

/// Returns a number as it is written. `point` requests a point.
pub(crate) fn decimal_text(alloc: Global, millionths: i128, point: bool) -> Option<String> {
    let digits = cell_string(Cell::Known(millionths));
    let short = digits.as_str().trim_end_matches('0');
    let text = match short.strip_suffix('.') {
        Some(whole) if point => format!(in alloc; "{whole}.0"),
        Some(whole) => String::from_str(alloc, whole),
        None => String::from_str(alloc, short),
    };
    text.ok()
}

// Multiplies a number by a power of ten.
fn raised(millionths: i128, exponent: u64) -> Option<i128> {
    let mut value = millionths;
    for _ in 0..exponent {
        value = value.checked_mul(10)?;
    }
    Some(value)
}

// Divides a number by a power of ten, if nothing is lost.
fn lowered(millionths: i128, exponent: u64) -> Option<i128> {
    let mut value = millionths;
    for _ in 0..exponent {
        if value % 10 != 0 {
            return None;
        }
        value /= 10;
    }
    Some(value)
}

// Reads the size of an exponent.
fn exponent_of(digits: &str) -> Option<u64> {
    match read_whole(digits.as_bytes()) {
        Some(exponent) if exponent <= MOST_EXPONENT => Some(exponent),
        _ => None,
    }
}

// Returns a number with an exponent, in millionths.
fn scaled(text: &str) -> Option<i128> {
    let (mantissa, exponent) = text.split_once(['e', 'E'])?;
    let millionths = read_number(mantissa.as_bytes())?.millionths;
    if let Some(digits) = exponent.strip_prefix('-') {
        return lowered(millionths, exponent_of(digits)?);
    }
    let digits = exponent.strip_prefix('+').unwrap_or(exponent);
    raised(millionths, exponent_of(digits)?)
}

// Returns a number without its plus, with a digit before its point, and without a point that nothing follows.
fn completed(alloc: Global, text: &str) -> Option<String> {
    let (sign, digits) = match text.strip_prefix('-') {
        Some(digits) => ("-", digits),
        None => ("", text.strip_prefix('+').unwrap_or(text)),
    };
    let (whole, decimals) = digits.split_once('.').unwrap_or((digits, ""));
    if decimals.is_empty() {
        return format!(in alloc; "{sign}{whole}").ok();
    }
    let whole = if whole.is_empty() { "0" } else { whole };
    format!(in alloc; "{sign}{whole}.{decimals}").ok()
}

/// Writes out a number that has an exponent, or a plus, or no digit before or after its point. Returns `None` for other
/// texts, and for a number that rrdi cannot write.
pub(crate) fn written_out(alloc: Global, text: &str) -> Option<String> {
    if read_number(text.as_bytes()).is_some() {
        return None;
    }
    let plain = match scaled(text) {
        Some(millionths) => decimal_text(alloc, millionths, false)?,
        None => completed(alloc, text)?,
    };
    read_number(plain.as_bytes())?;
    Some(plain)
}

/// Writes out a whole number, as `written_out` does.
pub(crate) fn whole_written_out(alloc: Global, text: &str) -> Option<String> {
    let plain = written_out(alloc, text)?;
    read_whole(plain.as_bytes())?;
    Some(plain)
}

/// Checks whether a whole number is 1 to `most`.
pub(crate) fn is_within(most: u64, number: u64) -> bool {
    1 <= number && number <= most
}
