//! Parses numbers.
ghost use Rattle.std.specs.Prelude.{◌≡◌, ◌^◌, ◌<◌, ◌≤◌, ◌-◌, length, take, slice_index, true, false, IfSome, unsigned_abs, if◌then◌else◌, position};
ghost use Rattle.std.specs.Char.{is_ascii_digit};
ghost use Rattle.std.specs.List.{list_all};
ghost use Rattle.rrd_fixed.specs.Admitted as spec;
ghost use Rattle.rrd_fixed.specs.Rate.{IsAccepted};
ghost use Rattle.rrd_fixed.specs.Reading.{are_digits, fraction_of, is_point, number_of, plain_of, pointed_of, unsigned_of, value_of, whole_of};

use crate::rounding::floor;
use crate::{Kind, MILLIONTHS, Raw};

/// A number, and whether it was written with a decimal point.
#[derive(Clone, Copy, Debug, PartialEq, Eq)]
pub struct Number {
    /// The value in millionths.
    pub millionths: i128,
    /// Whether the number was written with a decimal point.
    pub point: bool,
}

// Returns how many digits the bytes begin with, and the number that these digits are. Any 19 digits fit 64 bits.
fn read_front(bytes: &[u8]) -> (usize, u64)
    requires { length bytes.now ≤ 19 }
    ensures inside { result.0 ≤ length bytes.now }
    ensures digits { list_all is_ascii_digit (take result.0 bytes.now) ≡ true }
    ensures value { result.1 ≡ value_of (take result.0 bytes.now) }
    ensures stops { result.0 < length bytes.now → is_ascii_digit (slice_index bytes.now result.0) ≡ false }
    ensures small { result.1 < 10 ^ 19 }
{
    let mut value = 0;
    let mut at = 0;
    while at < bytes.len() {
        let byte = bytes[at];
        if !byte.is_ascii_digit() {
            return (at, value);
        }
        value = 10 * value + (byte - b'0') as u64;
        at += 1;
    }
    (at, value)
}

// Parses up to 19 digits. Returns `None` if a byte is not a digit.
fn read_short(bytes: &[u8]) -> Option<u64>
    requires { length bytes.now ≤ 19 }
    ensures value { result ≡ (if list_all is_ascii_digit bytes.now then Some (value_of bytes.now) else None) }
    ensures small { IfSome result (λ value. value < 10 ^ length bytes.now) }
{
    let (at, value) = read_front(bytes);
    if at < bytes.len() {
        return None;
    }
    Some(value)
}

// Parses 20 digits. Returns `None` if a byte is not a digit.
fn read_long(bytes: &[u8]) -> Option<u128>
    requires { length bytes.now ≡ 20 }
    ensures value { result ≡ (if list_all is_ascii_digit bytes.now then Some (value_of bytes.now) else None) }
    ensures small { IfSome result (λ value. value < 10 ^ 20) }
{
    let front = read_short(&bytes[..19])?;
    let last = read_short(&bytes[19..])?;
    Some(10 * front as u128 + last as u128)
}

// Parses 1 to `most` digits. Returns `None` for other bytes.
fn read_digits(bytes: &[u8], most: usize) -> Option<u128>
    requires { most ≤ 20 }
    ensures value { result ≡ (if are_digits most bytes.now then Some (value_of bytes.now) else None) }
    ensures limit { IfSome result (λ value. value < 10 ^ 20) }
{
    if bytes.is_empty() || most < bytes.len() {
        return None;
    }
    if bytes.len() == 20 {
        return read_long(bytes);
    }
    let value = read_short(bytes)?;
    Some(value as u128)
}

// Returns the value of the last digit of a fraction of `count` digits, in millionths.
fn last_counts(digits: usize) -> u64
    requires { digits ≤ 6 }
    ensures { result ≡ 10 ^ (6 - digits) }
{
    match digits {
        0 => 1_000_000,
        1 => 100_000,
        2 => 10_000,
        3 => 1_000,
        4 => 100,
        5 => 10,
        _ => 1,
    }
}

// Parses the 1 to 6 digits after a point. Returns millionths.
fn read_fraction(digits: &[u8]) -> Option<u64>
    ensures value { result ≡ (if are_digits 6 digits.now then Some (fraction_of digits.now) else None) }
    ensures small { IfSome result (λ millionths. millionths < 10 ^ 6) }
{
    if digits.is_empty() || 6 < digits.len() {
        return None;
    }
    let value = read_short(digits)?;
    Some(value * last_counts(digits.len()))
}

// Parses a number without a sign and a point.
fn read_plain(digits: &[u8]) -> Option<Number>
    ensures value { result ≡ plain_of digits.now }
    ensures small { IfSome result (λ number. unsigned_abs number.millionths < 10 ^ 27) }
{
    let whole = read_digits(digits, 20)?;
    Some(Number {
        millionths: (whole * MILLIONTHS as u128) as i128,
        point: false,
    })
}

// Parses a number without a sign, in two parts: before and after its point.
fn read_pointed(whole: &[u8], fraction: &[u8]) -> Option<Number>
    ensures value { result ≡ pointed_of whole.now fraction.now }
    ensures small { IfSome result (λ number. unsigned_abs number.millionths < 10 ^ 27) }
{
    let whole = read_digits(whole, 20)?;
    let fraction = read_fraction(fraction)?;
    Some(Number {
        millionths: (whole * MILLIONTHS as u128 + fraction as u128) as i128,
        point: true,
    })
}

// Returns the index of the first point.
fn find_point(bytes: &[u8]) -> Option<usize>
    ensures { result ≡ position is_point bytes.now }
{
    bytes.iter().position(|byte| *byte == b'.')
}

// Parses a number without a sign, of at most 19 bytes. Reads each byte once.
fn read_few(bytes: &[u8]) -> Option<Number>
    requires { length bytes.now ≤ 19 }
    ensures value { result ≡ unsigned_of bytes.now }
    ensures small { IfSome result (λ number. unsigned_abs number.millionths < 10 ^ 27) }
{
    let (at, whole) = read_front(bytes);
    if at == 0 {
        return None;
    }
    let millionths = whole as u128 * MILLIONTHS as u128;
    if at == bytes.len() {
        return Some(Number {
            millionths: millionths as i128,
            point: false,
        });
    }
    if bytes[at] != b'.' {
        return None;
    }
    let fraction = read_fraction(&bytes[at + 1..])?;
    Some(Number {
        millionths: (millionths + fraction as u128) as i128,
        point: true,
    })
}

// Parses a number without a sign.
fn read_unsigned(bytes: &[u8]) -> Option<Number>
    ensures value { result ≡ unsigned_of bytes.now }
    ensures small { IfSome result (λ number. unsigned_abs number.millionths < 10 ^ 27) }
{
    if bytes.len() < 20 {
        return read_few(bytes);
    }
    match find_point(bytes) {
        None => read_plain(bytes),
        Some(at) => read_pointed(&bytes[..at], &bytes[at + 1..]),
    }
}

/// Parses a whole number of 1 to 20 digits.
///
/// Returns `None` for other bytes, and for a number above 2^64 - 1.
#[tactic(auto, unfolding(crate::specs::Reading::whole_of))]
pub fn read_whole(bytes: &[u8]) -> Option<u64>
    ensures { result ≡ whole_of bytes.now }
{
    let value = read_digits(bytes, 20)?;
    u64::try_from(value).ok()
}

/// Parses a number with an optional sign and point.
///
/// A number has an optional `-`, 1 to 20 digits, and optionally a point and 1 to 6 digits. Returns `None` for other
/// bytes.
#[tactic(auto, unfolding(crate::specs::Reading::number_of))]
pub fn read_number(bytes: &[u8]) -> Option<Number>
    ensures { result ≡ number_of bytes.now }
{
    let [b'-', rest @ ..] = bytes else {
        return read_unsigned(bytes);
    };
    let number = read_unsigned(rest)?;
    Some(Number {
        millionths: -number.millionths,
        point: number.point,
    })
}

// Returns whether millionths are a whole number of units. Divides 64 bits if the number fits.
fn is_whole(millionths: i128) -> bool
    ensures { result ≡ spec.is_whole millionths }
{
    match i64::try_from(millionths) {
        Ok(millionths) => millionths.rem_euclid(MILLIONTHS as i64) == 0,
        Err(_) => millionths.rem_euclid(MILLIONTHS as i128) == 0,
    }
}

// Returns a number without a point, which must be a whole number of units, in units. A parsed number without a point is
// always whole; a caller may make others.
fn whole_units(number: Number) -> Option<i128>
    ensures { result ≡ spec.units_of number }
{
    let whole = is_whole(number.millionths);
    (!number.point && whole).then_some(floor(number.millionths, MILLIONTHS as i128))
}

/// Returns the raw value of a number for a data source of type `kind`.
///
/// The raw value is in units for COUNTER and DERIVE, and in millionths for GAUGE and ABSOLUTE. Returns `None` if the
/// data source does not accept the number:
///
/// - COUNTER accepts a number without a point that is a whole number of units from 0 to 2^64 - 1;
/// - DERIVE accepts a number without a point that is a whole number of units from -2^63 to 2^63 - 1;
/// - GAUGE and ABSOLUTE accept a number with an absolute value below 10^18.
pub fn admit(kind: Kind, number: Number) -> Option<i128>
    ensures value { result ≡ spec.admit kind number }
    ensures accepted { IfSome result (λ raw. IsAccepted kind (Raw.Known raw)) }
{
    let value = match kind {
        Kind::Gauge | Kind::Absolute => number.millionths,
        Kind::Counter | Kind::Derive => whole_units(number)?,
    };
    kind.accepts(Raw::Known(value)).then_some(value)
}
