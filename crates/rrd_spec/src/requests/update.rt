//! The request of an update, and the receipt of an accepted one.
use crate::List;
use rrd_fixed::{Name, Number};

/// A value of a sample: `U`, or a number.
#[derive(Clone, Copy, Debug, PartialEq, Eq)]
pub enum Given {
    /// No value: `U`.
    Unknown,
    /// A number, with or without a decimal point.
    Number(Number),
}

/// The values of one time (rrdupdate).
#[derive(Drop)]
pub struct Sample {
    /// The time, in seconds since 1970: 0 to 9,999,999,999.
    pub time: u64,
    /// One value for each data source, in the order of the template.
    pub values: List<Given>,
}

/// Samples in the order of their times (rrdupdate).
#[derive(Drop)]
pub struct Update {
    /// The names of the data sources that get the values.
    ///
    /// `None` means all data sources, in order.
    pub template: Option<List<Name>>,
    /// The samples: at least one, each later than the previous sample.
    pub samples: List<Sample>,
}

/// The cost of an accepted update.
#[derive(Clone, Copy, Debug, PartialEq, Eq)]
pub struct Receipt {
    /// The units of work of the partial steps, the partial rows and the archives.
    pub turns: u64,
    /// The number of cells in the journal entry.
    pub cells: u64,
}
