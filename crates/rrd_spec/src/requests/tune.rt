//! The request of a tune.
use crate::RraDef;
use rrd_fixed::{Kind, Name};

/// The archive that a tune adds or removes (rrdtune).
///
/// An added archive follows the others. After a removal the higher numbers are one lower.
#[derive(Drop)]
pub enum ArchiveTune {
    Add(RraDef),
    Remove(u64),
}

/// The new settings of a tune, each for the data source of a name (rrdtune).
///
/// All names are those before the command.
#[derive(Drop)]
pub struct Tuning {
    /// The new heartbeat, in seconds: 1 to 9,999,999,999.
    pub heartbeat: Option<(Name, u64)>,
    /// The new minimum, in millionths; `None` as the value removes the bound.
    ///
    /// The minimum is at most (2^64 - 1) * 10^6 in size.
    pub minimum: Option<(Name, Option<i128>)>,
    /// The new maximum, in millionths; `None` as the value removes the bound.
    ///
    /// The maximum is at most (2^64 - 1) * 10^6 in size, and must not be below the minimum.
    pub maximum: Option<(Name, Option<i128>)>,
    /// The new type. If the type changes, the last raw value becomes unknown.
    pub kind: Option<(Name, Kind)>,
    /// The new name.
    ///
    /// A name has 1 to 19 letters, digits or `_`, and is not that of another data source.
    pub rename: Option<(Name, Name)>,
    /// The archive to add or remove. A tune with an archive and another option is refused.
    pub archive: Option<ArchiveTune>,
}
