//! The order of the pieces in a file.

use crate::RraDef;

/// The kind of piece that a file must have next.
#[derive(Clone, Copy, Debug)]
pub enum Due {
    /// A data source, with its last raw value and its partial step.
    SourceDue,
    /// The settings of an archive.
    HeadDue,
    /// A partial row of the archive with these settings.
    PrepDue(RraDef),
    /// A cell of an archive.
    CellDue,
    /// A journal entry.
    EntryDue,
    /// No further piece: the database is complete.
    NothingDue,
}
