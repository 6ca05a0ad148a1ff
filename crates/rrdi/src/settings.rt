//! The settings of a run, from the environment.
ghost use Rattle.std.specs.Prelude.{◌≡◌};
ghost use Rattle.rrdi.specs.Settings.{syncs_of, wait_of};

use rrd_disk::{Settings, Syncs};
use rrd_fixed::read_whole;
use std::env;

/// The number of milliseconds in a second.
const SECOND: u64 = 1_000;

// Returns the time in milliseconds for which a run waits for a lock. `text` is `RRDI_WAIT`, a number of seconds.
fn wait_of(text: &str) -> u64
    ensures { result ≡ wait_of text.now }
{
    match read_whole(text.as_bytes()) {
        Some(seconds) => seconds.min(Settings::MAX_WAIT / SECOND) * SECOND,
        None => Settings::DEFAULT.wait,
    }
}

// Returns the setting for syncs. `text` is `RRDI_SYNC`: `1` requests syncs.
fn syncs_of(text: &str) -> Syncs
    ensures { result ≡ syncs_of text.now }
{
    if text == "1" {
        Syncs::Ordered
    } else {
        Syncs::Never
    }
}

/// Returns the settings by which a run uses its file.
///
/// `RRDI_WAIT` is the time in seconds for which the run waits for a lock, and `RRDI_SYNC=1` requests syncs.
pub(crate) fn settings(rt: &HostRuntime) -> Settings {
    let mut settings = Settings::DEFAULT;
    if let Ok(text) = env::var(rt, "RRDI_WAIT") {
        settings.wait = wait_of(text.as_str());
    }
    if let Ok(text) = env::var(rt, "RRDI_SYNC") {
        settings.syncs = syncs_of(text.as_str());
    }
    settings
}
