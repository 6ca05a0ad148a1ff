//! The reasons for which a command is refused.
ghost use Rattle.std.specs.Prelude.{◌≡◌, ◌≤◌, length};
ghost use Rattle.rrd_spec.specs.Words.{OutOfMemory};

use arrayvec::ArrayString;
use rrd_fixed::{message, numbered_message};
use std::alloc::AllocError;
use std::error::Error;
use std::fmt;

/// The reason for which a command is refused. The database is then unchanged.
#[derive(Clone, Copy, Debug, PartialEq, Eq)]
pub enum Refusal {
    /// The step is not 1 to 1,000,000 seconds.
    BadStep,
    /// The start is after 9,999,999,999.
    BadStart,
    /// There is no data source.
    NoSource,
    /// There is no archive, or a tune would remove the last one.
    NoArchive,
    /// A name is not 1 to 19 characters out of `a-z A-Z 0-9 _`.
    BadName,
    /// Two data sources would have the same name, or a template has a name twice.
    DoubleName,
    /// A heartbeat is not 1 to 9,999,999,999 seconds.
    BadHeartbeat,
    /// A bound has an absolute value above the maximum rate, or the minimum is above the maximum.
    BadBounds,
    /// An xff is not from 0 to below 1.
    BadXff,
    /// The number of steps in a row is not 1 to 1,000,000.
    BadSteps,
    /// The number of rows is not 1 to 1,000,000.
    BadRows,
    /// There are more than 64 data sources, 128 archives or 8,000,000 cells.
    TooLarge,
    /// The depth of the journal is not 1 to 100,000.
    BadDepth,
    /// No data source has the name.
    NoSuchSource,
    /// The number of values in a sample differs from the number of data sources, or of names in the template.
    WrongCount,
    /// A data source of the given type does not accept the value.
    BadValue,
    /// A sample is not later than the sample before, whose time is `last`.
    NotLater { last: u64 },
    /// An update has no sample.
    NoSample,
    /// A tune has no option.
    NothingToTune,
    /// No archive has the number.
    NoSuchArchive,
    /// A resize would leave no row.
    ShrinkTooFar,
    /// The journal is empty.
    NothingToRevert,
    /// No archive has the consolidation function.
    NoArchiveForFunction,
    /// A fetch would read more than 1,000,000 rows.
    SpanTooLong,
    /// The start of a fetch is after its end.
    BadSpan,
    /// Memory for the change runs out.
    OutOfMemory,
    /// A time is after 9,999,999,999.
    BadTime,
    /// A tune has an archive and another option.
    MixedTune,
}

impl Refusal {
    ghost use Rattle.rrd_spec.specs.Commands.RefusalTexts.{refusal_text};

    /// Returns the text of the refusal, as errors print it: at most 60 bytes.
    pub fn text(self) -> ArrayString<96>
        ensures text { result.bytes ≡ refusal_text self }
        ensures short { length result.bytes ≤ 60 }
    {
        match self {
            Refusal::BadStep => message("bad step"),
            Refusal::BadStart => message("bad start"),
            Refusal::NoSource => message("no data source"),
            Refusal::NoArchive => message("no archive"),
            Refusal::BadName => message("bad name"),
            Refusal::DoubleName => message("double name"),
            Refusal::BadHeartbeat => message("bad heartbeat"),
            Refusal::BadBounds => message("bad bounds"),
            Refusal::BadXff => message("bad xff"),
            Refusal::BadSteps => message("bad steps"),
            Refusal::BadRows => message("bad rows"),
            Refusal::TooLarge => message("too large"),
            Refusal::BadDepth => message("bad journal depth"),
            Refusal::NoSuchSource => message("no such data source"),
            Refusal::WrongCount => message("wrong number of values"),
            Refusal::BadValue => message("bad value"),
            Refusal::NotLater { last } => numbered_message("not later than ", last),
            Refusal::NoSample => message("no sample"),
            Refusal::NothingToTune => message("nothing to tune"),
            Refusal::NoSuchArchive => message("no such archive"),
            Refusal::ShrinkTooFar => message("shrinks too far"),
            Refusal::NothingToRevert => message("nothing to revert"),
            Refusal::NoArchiveForFunction => message("no archive for this function"),
            Refusal::SpanTooLong => message("span too long"),
            Refusal::BadSpan => message("bad span"),
            Refusal::OutOfMemory => message("out of memory"),
            Refusal::BadTime => message("bad time"),
            Refusal::MixedTune => message("mixed tune"),
        }
    }
}

impl fmt::Display for Refusal {
    fn fmt<W: fmt::Write>(&self, f: &mut fmt::Formatter<W>) -> fmt::Result {
        f.write_str(self.text().as_str())
    }
}

impl Error for Refusal {}

impl From<AllocError> for Refusal {
    ghost from_gives = { λ _ refusal. refusal ≡ OutOfMemory };

    fn from(_error: AllocError) -> Refusal {
        Refusal::OutOfMemory
    }
}
