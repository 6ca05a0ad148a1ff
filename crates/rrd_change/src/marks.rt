//! Marks of files that are changed.
ghost use Rattle.std.specs.Prelude.{◌↔◌, IsSome, IsTrue};
ghost use Rattle.rrd_change.specs.Settled.{mark_of};

use crate::finding::log_offset;
use crate::log::CUT_MARK;

/// Checks whether a file that begins with these bytes has a mark: the first sixteen bytes of a file say so, or all bytes of a
/// shorter one.
#[tactic(auto, using(crate::proofs::Marked::by_cut, crate::proofs::Marked::log_or_none))]
pub fn has_mark(bytes: &[u8]) -> bool
    ensures { IsTrue result ↔ IsSome (mark_of bytes.now) }
{
    bytes.starts_with(&CUT_MARK) || log_offset(bytes).is_some()
}
