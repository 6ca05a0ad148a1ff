//! Texts that are put into a buffer before an index, from their last byte to their first. A line of many texts then needs
//! no second buffer and no copy.
ghost use Rattle.std.specs.Prelude.{◌≡◌, ◌<◌, ◌≤◌, ◌/◌, ◌%◌, ◌+◌, decimal, length};
ghost use Rattle.rrd_fixed.specs.Puts.{Puts};
ghost use Rattle.rrd_fixed.specs.Text.{cell_text, millionths_text, signed_text, six_digits, time_text};

use crate::{Cell, MILLIONTHS};
use itoa::write_digits;

// Splits millionths into whole units and the remaining millionths. Nearly all values fit 64 bits, for which a division
// by a constant is a multiplication.
fn split(millionths: u128) -> (u128, u64)
    ensures units { result.0 ≡ millionths / 1000000 }
    ensures rest { result.1 ≡ millionths % 1000000 }
{
    match u64::try_from(millionths) {
        Ok(short) => ((short / MILLIONTHS) as u128, short % MILLIONTHS),
        Err(_) => (
            millionths / MILLIONTHS as u128,
            (millionths % MILLIONTHS as u128) as u64,
        ),
    }
}

// Puts a whole number, in at most 39 digits. The digits past 64 bits are put one at a time.
fn put_whole(number: u128, buffer: &mut [u8], end: usize) -> usize
    requires room { 39 ≤ end }
    requires inside { end ≤ length buffer.old }
    ensures { Puts buffer.old buffer.new end (decimal number) result }
{
    let mut left = number;
    let mut at = end;
    while left > u64::MAX as u128 {
        at -= 1;
        buffer[at] = b'0' + (left % 10) as u8;
        left /= 10;
    }
    write_digits(left as u64, buffer, at)
}

// Puts a number below 1,000,000 in six digits.
fn put_six(number: u64, buffer: &mut [u8], end: usize) -> usize
    requires small { number < 1000000 }
    requires room { 6 ≤ end }
    requires inside { end ≤ length buffer.old }
    ensures { Puts buffer.old buffer.new end (six_digits number) result }
{
    buffer[end - 6..end].copy_from_slice(b"000000");
    write_digits(number, buffer, end);
    end - 6
}

// Puts millionths as the units, a point and six digits.
fn put_millionths(millionths: u128, buffer: &mut [u8], end: usize) -> usize
    requires room { 46 ≤ end }
    requires inside { end ≤ length buffer.old }
    ensures { Puts buffer.old buffer.new end (millionths_text millionths) result }
{
    let (units, rest) = split(millionths);
    let point = put_six(rest, buffer, end) - 1;
    buffer[point] = b'.';
    put_whole(units, buffer, point)
}

/// Puts millionths before the index `end` of `buffer`, with a minus if they are below 0. Returns the index at which the
/// text begins.
pub(crate) fn put_signed(millionths: i128, buffer: &mut [u8], end: usize) -> usize
    requires room { 48 ≤ end }
    requires inside { end ≤ length buffer.old }
    ensures text { Puts buffer.old buffer.new end (signed_text millionths) result }
    ensures short { end ≤ result + 48 }
{
    let at = put_millionths(millionths.unsigned_abs(), buffer, end);
    if millionths >= 0 {
        return at;
    }
    buffer[at - 1] = b'-';
    at - 1
}

/// Puts the text of a cell before the index `end` of `buffer`, as described in `cell_string`.
///
/// Returns the index at which the text begins. The text has at most 48 bytes.
pub fn put_cell(cell: Cell, buffer: &mut [u8], end: usize) -> usize
    requires room { 48 ≤ end }
    requires inside { end ≤ length buffer.old }
    ensures text { Puts buffer.old buffer.new end (cell_text cell) result }
    ensures short { end ≤ result + 48 }
{
    match cell {
        Cell::Unknown => {
            buffer[end - 3..end].copy_from_slice(b"nan");
            end - 3
        }
        Cell::Known(millionths) => put_signed(millionths, buffer, end),
    }
}

/// Puts the text of a time before the index `end` of `buffer`, as described in `time_string`.
///
/// `seconds` counts from 1970. Returns the index at which the text begins. The text has at most 20 bytes.
pub fn put_time(seconds: i64, buffer: &mut [u8], end: usize) -> usize
    requires room { 20 ≤ end }
    requires inside { end ≤ length buffer.old }
    ensures text { Puts buffer.old buffer.new end (time_text seconds) result }
    ensures short { end ≤ result + 20 }
{
    let at = write_digits(seconds.unsigned_abs(), buffer, end);
    if seconds >= 0 {
        return at;
    }
    buffer[at - 1] = b'-';
    at - 1
}
