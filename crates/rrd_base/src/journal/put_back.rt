//! Putting back what the entry of a tune holds of data sources.
ghost use Rattle.std.specs.Prelude.{◌≡◌};
ghost use Rattle.rrd_base.specs.Names.{SavedSource};
ghost use Rattle.rrd_base.specs.Words.{with_kept};

use crate::{DsDef, SavedSource};
use rrd_fixed::{Name, Raw};

/// Something that the entry of a tune holds of each data source that the tune named.
pub(crate) trait Kept {
    // What is kept, as contracts see it.
    ghost kept: { SavedSource → Self };

    /// Returns what the entry holds of a source.
    fn of(old: &SavedSource) -> Self
        ensures { result ≡ kept old.now };
}

impl Kept for DsDef {
    ghost kept = { λ old. old.source };

    fn of(old: &SavedSource) -> DsDef {
        old.source.duplicate()
    }
}

impl Kept for Name {
    ghost kept = { λ old. old.source.name };

    fn of(old: &SavedSource) -> Name {
        old.source.name.duplicate()
    }
}

impl Kept for Raw {
    ghost kept = { λ old. old.raw };

    fn of(old: &SavedSource) -> Raw {
        old.raw
    }
}

/// Puts back what the entry holds, each at the number of its source. Leaves out numbers that no source has.
pub(crate) fn put_back<T: Kept + Drop>(all: &mut [T], olds: &[SavedSource])
    ensures { all.new ≡ with_kept T.kept all.old olds.now }
{
    for old in olds {
        let number = old.number as usize;
        if number < all.len() {
            all[number] = T::of(old);
        }
    }
}
