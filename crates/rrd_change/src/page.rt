//! Files of one page: one write is the whole change.
ghost use Rattle.std.specs.Prelude.{◌≡◌, ◌≤◌, ℕ, IsTrue, List, length};
ghost use Rattle.rrd_change.specs.Repairs.{IsStopped, Whole};
ghost use Rattle.rrd_change.specs.States.{Began, IsAtRest, IsDatabase};
ghost use Rattle.rrd_change.specs.Views.{Does, World, seen};
ghost use Rattle.rrd_change.specs.declared.calls.Syncs.TheVariants.{Never};

use crate::{Base, Bytes, Syncs};
use std::io;

/// The number of bytes that one write writes whole at the beginning of a file.
pub const PAGE: usize = 4_096;

/// Checks whether one write replaces a database: the new one fits into the first page and is no shorter, and nothing is
/// synced.
pub fn is_one_write(base: &Base, new: &[u8], syncs: Syncs) -> bool
    ensures { IsTrue result → (syncs ≡ Never) × ((base.now.length ≤ length new.now) × (length new.now ≤ 4096)) }
{
    syncs == Syncs::Never && base.length <= new.len() && new.len() <= PAGE
}

/// Replaces a database by one write of all bytes.
///
/// # Errors
///
/// The write failed. The file then is the old database or the new one.
pub(crate) fn replace_page<F: Bytes>(file: &mut F, base: &Base, new: &[u8]) -> io::Result<()>
    requires longer { base.now.length ≤ length new.now }
    requires few { length new.now ≤ 4096 }
    ensures { Does (λ _ (w v : World). (old : List ℕ) → Began base.now old → IsDatabase new.now → IsAtRest old w → IsAtRest new.now v)
        (λ (w v : World). (old : List ℕ) → Began base.now old → IsDatabase new.now → IsAtRest old w → IsStopped Whole old new.now v) result
        (seen Never (F.view file.old)) (seen Never (F.view file.new)) }
{
    file.write_page(new)
}
