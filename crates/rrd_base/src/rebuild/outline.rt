//! How entries are undone in an outline.
ghost use Rattle.std.specs.Prelude.{◌≡◌};
ghost use Rattle.rrd_base.specs.Names.{outline_undone, with_row_number};
ghost use Rattle.rrd_base.specs.Words.{entry_of, HasPlace};

use crate::journal::{Entry, put_back};
use crate::{ArchiveList, Outline, RraDef};

// Restores the number of rows of an archive.
fn put_row_number(archives: &mut ArchiveList<RraDef>, archive: u64, rows: u64)
    ensures { archives.new ≡ with_row_number archives.old archive rows }
{
    if archive < archives.len() as u64 {
        archives.get_mut(archive as usize).rows = rows;
    }
}

/// Changes the outline to that before the change of an entry. Does not allocate.
pub(super) fn undo(outline: &mut Outline, entry: &Entry)
    requires { HasPlace outline.old (entry_of entry.now) }
    ensures { outline.new ≡ outline_undone outline.old (entry_of entry.now) }
{
    match entry {
        Entry::Update(old) => outline.last = old.last,
        Entry::Tune(olds) => put_back(outline.sources.as_mut_slice(), olds.as_slice()),
        Entry::Resize { archive, old } => {
            put_row_number(&mut outline.archives, *archive, old.rows());
        }
        Entry::Added => outline.archives.pop(),
        Entry::Removed { archive, old } => outline.archives.insert(*archive as usize, old.def()),
    }
}
