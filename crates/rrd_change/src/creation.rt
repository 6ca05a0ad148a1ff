//! Writes new files.
ghost use Rattle.std.specs.Prelude.{length};
ghost use Rattle.rrd_change.specs.Making.{IsEmpty, IsMadeTo, IsUnmade, StaysFirst};
ghost use Rattle.rrd_change.specs.States.{IsAtRest};
ghost use Rattle.rrd_change.specs.Views.{All, Does, Fails, Stores, World, seen};

use crate::log::is_database;
use crate::writing::{flush, mark_and_sync, resize_and_sync, write_all};
use crate::{Bytes, Syncs};
use std::io::{self, Error, ErrorKind};

// The most bytes of one write. A file system may keep what one call wrote in blocks of its size, and then later small
// writes there take as long as large ones.
const PIECE: usize = 65_536;

// Writes bytes of a file from the seventeenth on, piece by piece, and then syncs the file.
fn write_pieces<F: Bytes>(file: &mut F, new: &[u8], syncs: Syncs) -> io::Result<()>
    ensures { Does (λ _. Stores (IsMadeTo (length new.now) new.now)) (Fails StaysFirst StaysFirst) result (seen syncs (F.view file.old)) (seen syncs (F.view file.new)) }
{
    let mut at = 16;
    while at < new.len() {
        let end = at + PIECE.min(new.len() - at);
        write_all(file, at, &new[at..end], syncs)?;
        at = end;
    }
    flush(file, syncs)
}

/// Writes a new database to an empty file. Until the last write, of the first sixteen bytes, the file begins with a zero,
/// so that it is no database, and has no mark.
///
/// # Errors
///
/// A call of the file failed, or `new` is no database. The file then is the database, or no database.
pub fn create<F: Bytes>(file: &mut F, new: &[u8], syncs: Syncs) -> io::Result<()>
    ensures { Does (λ _ (w v : World). IsEmpty w → IsAtRest new.now v) (λ (w v : World). IsEmpty w → All (IsUnmade new.now) v) result (seen syncs (F.view file.old)) (seen syncs (F.view file.new)) }
{
    if !is_database(new) {
        return Err(Error::from(ErrorKind::InvalidInput));
    }
    resize_and_sync(file, 16, syncs)?;
    write_pieces(file, new, syncs)?;
    mark_and_sync(file, &new[..16], syncs)
}
