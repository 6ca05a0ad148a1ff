//! The present time.
ghost use Rattle.std.specs.Prelude.{◌≡◌, ◌/◌};
ghost use Rattle.std.specs.Time.{system_time_nanos};

use std::rt::Clock;
use std::time::SystemTime;

// Returns the whole seconds since 1970 of a time.
fn seconds_of(time: SystemTime) -> u64
    ensures { result ≡ system_time_nanos time / 1_000_000_000 }
{
    match time.duration_since(SystemTime::UNIX_EPOCH) {
        Ok(since) => since.as_secs(),
        Err(_) => unreachable!(),
    }
}

/// Returns the present time in seconds since 1970. Returns 0 if the clock fails, or is before 1970.
pub(crate) fn seconds_now(rt: &impl Clock) -> u64 {
    match SystemTime::now(rt) {
        Ok(now) => seconds_of(now),
        Err(_) => 0,
    }
}
