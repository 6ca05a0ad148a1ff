//! The journal: the entry of each change, and how it undoes the change.
ghost use Rattle.std.specs.Prelude.{◌≡◌, ◌≤◌, length};
ghost use Rattle.rrd_base.specs.Names.{AllByRecursion, HasWidth, present, IsValid};
ghost use Rattle.rrd_base.specs.Words.{CanUndo, entry_of};
ghost use Rattle.rrd_spec.specs.Journal.Entries.{SavedArchive as Saved, cells_saved, undone};

use crate::SavedSource;
use crate::content::Content;
use crate::rra::Rra;
use arrayvec::ArrayVec;
use rrd_fixed::Raw;
use rrd_fold::StepPrep;
use rrd_ring::{Archive, PLACES};
use rrd_spec::limits::MAX_TUNED;
use smallvec::SmallVec;

mod put_back;
mod saved_archive;

pub(crate) use put_back::put_back;
pub use saved_archive::SavedArchive;

/// A list with one element for each data source. Two elements fit without an allocation.
pub type EachSource<T> = SmallVec<T, PLACES>;

/// A database as it was before an update.
#[derive(Drop)]
pub struct BeforeUpdate {
    /// The time of the last sample before, or the start, in seconds since 1970.
    pub last: u64,
    /// The last raw value of each data source.
    pub raws: EachSource<Raw>,
    /// The partial step of each data source.
    pub preps: EachSource<StepPrep>,
    /// The values of each archive that the update replaced.
    pub archives: Vec<SavedArchive>,
}

/// A journal entry, which undoes one change.
///
/// An entry has the values that a change replaced, or says which archive a change added or removed.
#[derive(Drop)]
pub enum Entry {
    /// The database before an update.
    Update(BeforeUpdate),
    /// The data sources that a tune named, at most 5, by rising number.
    Tune(ArrayVec<SavedSource, MAX_TUNED>),
    /// The number of a resized archive, and its rows before the resize.
    Resize { archive: u64, old: Archive },
    /// An archive was added, as the last one.
    Added,
    /// The number of a removed archive, and the archive as it was.
    Removed { archive: u64, old: Rra },
}

/// Returns the number of cells that are saved of all archives, in a database with `sources` data sources.
pub(crate) fn count_cells(archives: &[SavedArchive], sources: u64) -> u64
    requires few_archives { length archives.now ≤ present.max_archives }
    requires few_sources { sources ≤ present.max_sources }
    requires one_each { AllByRecursion (λ (old : Saved). HasWidth sources old.rows) archives.now }
    ensures { result ≡ cells_saved archives.now }
{
    let mut cells = 0;
    for archive in archives {
        cells += archive.rows().len() * sources;
    }
    cells
}

impl Content {
    /// Undoes a change. Does not allocate.
    pub(crate) fn undo(&mut self, entry: Entry)
        requires fits { CanUndo self.old.archives entry }
        requires valid { IsValid (undone self.old (entry_of entry)) }
        ensures { self.new ≡ undone self.old (entry_of entry) }
    {
        match entry {
            Entry::Update(before) => self.undo_update(before),
            Entry::Tune(olds) => self.undo_tune(&olds),
            Entry::Resize { archive, old } => self.undo_resize(archive as usize, old),
            Entry::Added => self.undo_added(),
            Entry::Removed { archive, old } => self.undo_removed(archive as usize, old),
        }
    }
}
