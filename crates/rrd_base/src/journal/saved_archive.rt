//! The part of a journal entry that restores an archive.
ghost use Rattle.std.specs.Prelude.{◌≡◌};
ghost use Rattle.rrd_base.specs.Names.{AllOf, parts_in};

use crate::journal::EachSource;
use rrd_fold::{Function, RowPrep};
use rrd_ring::Dropped;
use std::marker::Model;

/// The values of an archive that an update replaced.
///
/// The saved values are the partial row of each data source, and the oldest rows: as many as the update finishes, at
/// most all.
#[derive(Drop)]
pub struct SavedArchive {
    pub(crate) function: Function,
    pub(crate) preps: EachSource<RowPrep>,
    pub(crate) rows: Dropped,
}

impl Model for SavedArchive {
    ghost use Rattle.rrd_spec.specs.Preparations.{AllOf, parts_in};
    ghost use Rattle.rrd_spec.specs.Journal.Entries.{SavedArchive};

    ghost Value = { SavedArchive };

    ghost view = { λ s. record { function = s.function; parts = parts_in s.preps.items; rows = s.rows } };

    ghost invariant = { λ s. AllOf s.function s.preps.items };
}

impl SavedArchive {
    /// Creates the saved values of an archive with this function. The partial rows have the same function.
    pub fn new(function: Function, preps: EachSource<RowPrep>, rows: Dropped) -> SavedArchive
        requires { AllOf function preps.items }
        ensures { result ≡ record { function = function; parts = parts_in preps.items; rows = rows } }
    {
        SavedArchive {
            function,
            preps,
            rows,
        }
    }

    /// Returns the consolidation function of the archive.
    pub fn function(&self) -> Function
        ensures { result ≡ self.now.function }
    {
        self.function
    }

    /// Returns the partial row of each data source.
    pub fn preps(&self) -> &[RowPrep]
        ensures parts { parts_in result.now ≡ self.now.parts }
        ensures function { AllOf self.now.function result.now }
    {
        self.preps.as_slice()
    }

    /// Returns the rows, oldest first.
    pub fn rows(&self) -> &Dropped
        ensures { result.now ≡ self.now.rows }
    {
        &self.rows
    }
}
