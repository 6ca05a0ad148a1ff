//! The rate of an interval (rrdcreate, "DS"; rounding and ties are this project's rules).
ghost use Rattle.std.specs.Prelude.{◌≡◌, ◌^◌, ◌≤◌, pos, ◌*ℤ◌, ◌≤ℤ◌, unsigned_abs};
ghost use Rattle.rrd_fixed.specs.Rate as spec;
ghost use Rattle.rrd_fixed.specs.Rounding.{near as nearest};

use crate::{Cell, Kind, MILLIONTHS, Raw, near};

// Returns the increase of a counter from `old` to `new`, in units.
//
// If the counter fell, it has wrapped: at 2^32 if adding 2^32 makes the increase positive or 0, otherwise at 2^64.
fn rise(old: u64, new: u64) -> u64
    ensures { pos result ≡ spec.rise (pos old) (pos new) }
{
    if old <= new {
        new - old
    } else if old - new <= 0x1_0000_0000 {
        0x1_0000_0000 - (old - new)
    } else {
        u64::MAX - (old - new) + 1
    }
}

// Returns the rate, or `Unknown` if the rate is outside its bounds: a rate is never clamped.
fn within(rate: i128, min: Option<i128>, max: Option<i128>) -> Cell
    ensures { result ≡ spec.within rate min max }
{
    if let Some(low) = min
        && rate < low
    {
        return Cell::Unknown;
    }
    if let Some(high) = max
        && high < rate
    {
        return Cell::Unknown;
    }
    Cell::Known(rate)
}

// Returns the rate of a change, in millionths per second.
fn per_second(change: i128, seconds: i128) -> i128
    requires positive { pos 1 ≤ℤ seconds }
    requires small { seconds ≤ℤ pos (10 ^ 10) }
    requires bounded { unsigned_abs change ≤ 2 ^ 64 }
    ensures { result ≡ nearest (change *ℤ pos (10 ^ 6)) seconds }
{
    near(change * MILLIONTHS as i128, seconds)
}

// Returns the rate before the heartbeat and the bounds are checked.
fn plain_rate(kind: Kind, old: Raw, new: Raw, interval: u64) -> Cell
    requires some_time { 1 ≤ interval }
    requires not_long { interval ≤ 10 ^ 10 }
    requires old_accepted { spec.IsAccepted kind old }
    requires new_accepted { spec.IsAccepted kind new }
    ensures value { result ≡ spec.plain_rate kind old new interval }
    ensures bounded { spec.IsBounded result }
{
    let Raw::Known(new) = new else {
        return Cell::Unknown;
    };
    let seconds = interval as i128;
    match (kind, old) {
        (Kind::Gauge, _) => Cell::Known(new),
        (Kind::Absolute, _) => Cell::Known(near(new, seconds)),
        (Kind::Counter, Raw::Known(old)) => {
            Cell::Known(per_second(rise(old as u64, new as u64) as i128, seconds))
        }
        (Kind::Derive, Raw::Known(old)) => Cell::Known(per_second(new - old, seconds)),
        (Kind::Counter | Kind::Derive, Raw::Unknown) => Cell::Unknown,
    }
}

/// Returns the rate of an interval, in millionths per second (rrdcreate, "DS").
///
/// `old` and `new` are raw values that `kind` accepts; `interval` is from 1 to 10^10 seconds; `heartbeat` is in
/// seconds, `min` and `max` are in millionths. The rate is unknown
///
/// - if the interval is longer than the heartbeat;
/// - if the new value is unknown, or for COUNTER and DERIVE the old one;
/// - if the rate is outside its bounds.
pub fn rate(
    kind: Kind,
    old: Raw,
    new: Raw,
    interval: u64,
    heartbeat: u64,
    min: Option<i128>,
    max: Option<i128>,
) -> Cell
    requires some_time { 1 ≤ interval }
    requires not_long { interval ≤ 10 ^ 10 }
    requires old_accepted { spec.IsAccepted kind old }
    requires new_accepted { spec.IsAccepted kind new }
    ensures value { result ≡ spec.rate kind old new interval heartbeat min max }
    ensures bounded { spec.IsBounded result }
{
    if heartbeat < interval {
        return Cell::Unknown;
    }
    match plain_rate(kind, old, new, interval) {
        Cell::Unknown => Cell::Unknown,
        Cell::Known(rate) => within(rate, min, max),
    }
}
