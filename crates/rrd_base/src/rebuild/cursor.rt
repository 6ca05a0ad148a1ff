//! The position of the next cell of a file. A place is the index of a row in an archive: 0 is the oldest row.
ghost use Rattle.std.specs.Prelude.{◌≡◌, ◌+◌, ◌%◌, ◌<◌, ◌≤◌};
ghost use Rattle.rrd_base.specs.Names.{present, IsArchiveDef, resolution, place_in};
ghost use Rattle.rrd_base.specs.Words.{Advances, KnowsPlace, Passes};

use crate::RraDef;
use rrd_spec::first_slot_row;

/// The position of the next cell: its archive, the slot of its row in a file, the index of the row (0 is the oldest),
/// and its data source.
#[derive(Clone, Copy, Debug)]
pub(crate) struct Cursor {
    pub(crate) archive: usize,
    pub(crate) slot: u64,
    // The index is computed at the first cell of an archive, and then rises with the slots: so no other cell needs a
    // division.
    pub(crate) place: u64,
    pub(crate) source: usize,
}

// Returns the index `count` rows after `place`, among `rows` rows: the first row follows the last.
fn later_place(place: u64, count: u64, rows: u64) -> u64
    requires there { place < rows }
    requires at_most_once { count ≤ rows }
    requires few { rows ≤ present.max_rows }
    ensures { result ≡ (place + count) % rows }
{
    let later = place + count;
    if later < rows { later } else { later - rows }
}

impl Cursor {
    /// Creates a cursor at the first cell of the first archive.
    pub(super) fn new() -> Cursor
        ensures { result ≡ record { archive = 0; slot = 0; place = 0; source = 0 } }
    {
        Cursor {
            archive: 0,
            slot: 0,
            place: 0,
            source: 0,
        }
    }

    /// Returns the index of the row in an archive with these settings, for steps of `step` seconds and a last time.
    pub(super) fn place(&self, def: &RraDef, step: u64, last: u64) -> u64
        requires def_is { IsArchiveDef present def.now }
        requires some_step { 0 < step }
        requires small_step { step ≤ present.max_step_seconds }
        requires in_time { last ≤ present.max_time }
        requires known { KnowsPlace (resolution step def.now) last def.now.rows self.now }
        ensures { result ≡ place_in (resolution step def.now) last def.now.rows self.now.slot }
    {
        if self.slot == 0 && self.source == 0 {
            return first_slot_row(def.resolution(step), last, def.rows);
        }
        self.place
    }

    /// Advances from a cell in the row at index `place` to the next cell: of the next data source, slot or archive.
    /// There are `sources` data sources, and the archive has `rows` rows.
    pub(super) fn advance(&mut self, place: u64, sources: usize, rows: u64)
        requires archive_there { self.old.archive < present.max_archives }
        requires slot_there { self.old.slot < rows }
        requires source_there { self.old.source < sources }
        requires place_there { place < rows }
        requires few_rows { rows ≤ present.max_rows }
        ensures { Advances sources rows place self.old self.new }
    {
        self.place = place;
        self.source += 1;
        if self.source < sources {
            return;
        }
        self.source = 0;
        self.place = later_place(place, 1, rows);
        self.slot += 1;
        if self.slot == rows {
            self.slot = 0;
            self.archive += 1;
        }
    }

    /// Advances from the first cell of the row at index `place` by `count` rows, within the archive or to the next one.
    /// The archive has `rows` rows.
    pub(super) fn pass(&mut self, place: u64, count: u64, rows: u64)
        requires archive_there { self.old.archive < present.max_archives }
        requires rows_there { self.old.slot + count ≤ rows }
        requires first_cell { self.old.source ≡ 0 }
        requires place_there { place < rows }
        requires few_rows { rows ≤ present.max_rows }
        ensures { Passes rows place count self.old self.new }
    {
        self.place = later_place(place, count, rows);
        self.slot += count;
        if self.slot == rows {
            self.slot = 0;
            self.archive += 1;
        }
    }
}
