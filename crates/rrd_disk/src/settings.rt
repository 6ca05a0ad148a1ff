//! The settings by which a run uses its file.
use rrd_change::Syncs;

/// The settings by which a run uses its file.
#[derive(Clone, Copy, Debug, PartialEq, Eq)]
pub struct Settings {
    /// The time in milliseconds for which the run waits for a lock that another program holds. With 0 the run tries
    /// once. A value above [`Settings::MAX_WAIT`] counts as [`Settings::MAX_WAIT`].
    pub wait: u64,
    /// When the run syncs the file.
    pub syncs: Syncs,
}

impl Settings {
    /// The maximum time in milliseconds for which a run waits.
    pub const MAX_WAIT: u64 = 3_600_000;

    /// The usual settings: a run waits for 5 seconds, and does not sync.
    pub const DEFAULT: Settings = Settings {
        wait: 5_000,
        syncs: Syncs::Never,
    };
}
