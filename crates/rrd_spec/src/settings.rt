//! The settings of data sources and archives.
ghost use Rattle.std.specs.Prelude.{◌≡◌, ◌^◌, ◌<◌, ◌≤◌, ◌≤ℤ◌, pos};
ghost use Rattle.rrd_spec.specs.Words.{present, resolution};
ghost use Rattle.rrd_fixed.specs.Rate.{IsAccepted, IsBounded, rate as rate_of};

use rrd_fixed::{Cell, Kind, Name, Raw, rate};
use rrd_fold::Function;

/// The settings of a data source (rrdcreate, "DS").
#[derive(Debug, Drop)]
pub struct DsDef {
    /// The name: 1 to 19 letters, digits or `_`, different for each data source.
    pub name: Name,
    /// The type, which decides how values become rates.
    pub kind: Kind,
    /// The heartbeat: the maximum interval of a known rate, in seconds, 1 to 9,999,999,999.
    pub heartbeat: u64,
    /// The minimum rate, in millionths; `None` is no bound.
    ///
    /// The minimum is at most (2^64 - 1) * 10^6 in size.
    pub min: Option<i128>,
    /// The maximum rate, in millionths; `None` is no bound.
    ///
    /// The maximum is at most (2^64 - 1) * 10^6 in size, and not below the minimum.
    pub max: Option<i128>,
}

impl DsDef {
    /// Copies the settings. Does not allocate.
    pub fn duplicate(&self) -> DsDef
        ensures { result ≡ self.now }
    {
        DsDef {
            name: self.name.duplicate(),
            kind: self.kind,
            heartbeat: self.heartbeat,
            min: self.min,
            max: self.max,
        }
    }

    /// Returns the rate, in millionths, between two raw values of the data source.
    ///
    /// `interval` is the number of seconds from the old value to the new one, 1 to 10,000,000,000. The rate is unknown
    /// if the heartbeat or the bounds do not allow it.
    pub fn rate(&self, interval: u64, old: Raw, new: Raw) -> Cell
        requires some_time { 1 ≤ interval }
        requires not_long { interval ≤ 10 ^ 10 }
        requires old_accepted { IsAccepted self.now.kind old }
        requires new_accepted { IsAccepted self.now.kind new }
        ensures value { result ≡ rate_of self.now.kind old new interval self.now.heartbeat self.now.min self.now.max }
        ensures bounded { IsBounded result }
    {
        let heartbeat = self.heartbeat;
        rate(self.kind, old, new, interval, heartbeat, self.min, self.max)
    }
}

/// The settings of an archive (rrdcreate, "RRA").
#[derive(Clone, Copy, Debug)]
pub struct RraDef {
    /// The function that consolidates the steps of a row.
    pub function: Function,
    /// The share of a row's steps that may be unknown, in millionths: 0 to 999,999.
    pub xff: i128,
    /// The number of steps in a row: 1 to 1,000,000.
    pub steps: u64,
    /// The number of rows: 1 to 1,000,000.
    pub rows: u64,
}

impl RraDef {
    /// Returns `xff` as an unsigned number of millionths.
    pub fn share(&self) -> u64
        requires low { pos 0 ≤ℤ self.now.xff }
        requires high { self.now.xff ≤ℤ pos present.max_xff }
        ensures { pos result ≡ self.now.xff }
    {
        self.xff as u64
    }

    /// Returns the resolution: the seconds per row, at most 10^12 (rrdcreate, "RRA").
    ///
    /// `step` is the number of seconds in a step, 1 to 1,000,000; the steps of a row are 1 to 1,000,000 too.
    pub fn resolution(&self, step: u64) -> u64
        requires some_step { 0 < step }
        requires small_step { step ≤ present.max_step_seconds }
        requires some_steps { 0 < self.now.steps }
        requires few_steps { self.now.steps ≤ present.max_steps_per_row }
        ensures value { result ≡ resolution step self.now }
        ensures some { 0 < result }
        ensures small { result ≤ 10 ^ 12 }
    {
        step * self.steps
    }
}
