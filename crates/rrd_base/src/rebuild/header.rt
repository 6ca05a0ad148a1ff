//! The first piece of a database in a file.
ghost use Rattle.std.specs.Prelude.{◌≡◌, true};
ghost use Rattle.rrd_base.specs.Names.{IsHeader};
ghost use Rattle.rrd_base.specs.Words.{header_said};

use crate::create::is_bad_step;
use rrd_spec::Version;
use rrd_spec::limits::{MAX_SOURCES, MAX_TIME};

/// The values in the header of a file.
#[derive(Clone, Copy)]
pub struct Header {
    /// The version of the layout. Its limits hold for all pieces.
    pub version: Version,
    /// The number of seconds in a step: 1 to 1,000,000.
    pub step: u64,
    /// The last time, in seconds since 1970: up to 9,999,999,999.
    pub last: u64,
    /// The depth of the journal: 1 to 100,000, in the first version 1,000.
    pub depth: u64,
    /// The number of data sources that follow: 1 to 64.
    pub sources: u64,
    /// The number of archives that follow: 1 to 128, in the first version 64.
    pub archives: u64,
    /// The number of journal entries that follow: at most the depth.
    pub entries: u64,
}

impl Header {
    /// Returns whether each number keeps the limits of the version.
    pub(super) fn is_good(&self) -> bool
        ensures good { result ≡ true → IsHeader (header_said self.now) }
        ensures bad { IsHeader (header_said self.now) → result ≡ true }
    {
        let version = self.version;
        if is_bad_step(self.step) || self.last > MAX_TIME {
            return false;
        }
        if self.depth == 0
            || self.depth > version.max_journal_depth()
            || self.entries > self.depth
        {
            return false;
        }
        if self.sources == 0 || self.sources > MAX_SOURCES as u64 {
            return false;
        }
        self.archives > 0 && self.archives <= version.max_archives() as u64
    }
}
