//! A database that is read from the pieces of a file, in the order of the layout.
//!
//! How it works: contracts see the pieces that were read as lists (`Filed`), and a database only in the result of
//! `finish`. Each rule of the layout is checked at the first piece that can break it, so the first piece that is
//! refused is the file's first error, and `decode` need not check again. A new rule belongs in the definition of its
//! piece (`MaySource`, `MayHead`, ..) and in the function whose contract names that definition; the contract of
//! `finish` shows if a rule is missing. A rule of an entry, a partial step, a partial row or an archive's settings
//! belongs in `EntryValidator`: a reader checks each piece of an entry by it, and this module checks the complete
//! entry (of an update nothing is left to check), and the pieces before the entries.
//!
//! Pitfalls:
//!
//! - Entries come newest first. Each entry is checked against the outline that is left after all entries before it are
//!   undone, not against the present settings: names, numbers and types of archives and data sources were different
//!   then.
//! - The limits are those of the header's version, in entries too.
//! - A piece is checked before memory is allocated for it, so that running out of memory hides no error; and a piece
//!   changes nothing before all its memory is there.
//! - Rows come by slot, not by time: only `Cursor` knows which row is next, and where it goes.
//! - `whole_rows` takes whole rows at once, and must have the same effect as `cell` for one cell after another.
ghost use Rattle.std.specs.Prelude.{◌≡◌, ◌++◌, ◌∷◌, [], ◌<◌, ◌≤◌, length, replicate, take, true, IfErr, IfSome, None, OnOk, OnErr};
ghost use Rattle.rrd_base.specs.Names.{AllByRecursion, IsBounded, Part, EntryDue, NothingDue, Source, filed, MayCell, MayEntry, MayHead, MayPrep, MaySource, due, limits, outline_left, unprepared, with_cell, with_entry, with_head, with_prep, with_source, present, IsValidDatabaseWithin};
ghost use Rattle.rrd_base.specs.Words.{Begins, IsChecked, header_said, run_cells, MayCells, with_cells, entry_of, Bad, OutOfMemory, validator};
ghost use Rattle.rrd_fixed.specs.declared.cell.Cell.TheVariants.{Unknown as CellUnknown};

use crate::cell_run::CellRun;
use crate::content::Content;
use crate::journal::Entry;
use crate::named::has_source;
use crate::rra::Rra;
use crate::{ArchiveList, Database, DsDef, Due, Outline, RraDef};
use circular_buffer::HeapCircularBuffer;
use cursor::Cursor;
use piece_checks::is_source;
use rrd_fixed::{Raw, StoredCell};
use rrd_fold::{RowPrep, StepPrep};
use rrd_spec::{first_slot_row, laws};
use std::alloc::{AllocError, Global};
use std::marker::Model;

mod cursor;
mod entry_checks;
mod header;
mod outline;
mod piece_checks;
mod validator;

pub use header::Header;
pub use piece_checks::is_bounded;
pub use validator::EntryValidator;

/// The reason for which a piece is not taken.
#[derive(Clone, Copy, Debug, PartialEq, Eq)]
pub enum PieceFault {
    /// The piece breaks a rule, or another piece is due.
    Bad,
    /// Memory for the piece runs out.
    OutOfMemory,
}

impl From<AllocError> for PieceFault {
    ghost from_gives = { λ _ fault. fault ≡ OutOfMemory };

    fn from(_error: AllocError) -> PieceFault {
        PieceFault::OutOfMemory
    }
}

/// A database of which some of a file's pieces were read. Contracts see the lists of these pieces.
#[derive(Drop)]
pub struct Rebuild {
    alloc: Global,
    header: Header,
    sources: Vec<DsDef>,
    raws: Vec<Raw>,
    preps: Vec<StepPrep>,
    archives: ArchiveList<Rra>,
    cursor: Cursor,
    journal: HeapCircularBuffer<Entry>,
    // The validator has the outline that is left after the entries that were read are undone.
    validator: EntryValidator,
}

impl Model for Rebuild {
    ghost use Rattle.rrd_base.specs.Rebuild.{filed_of, AreRebuilding};
    ghost use Rattle.rrd_spec.specs.Files.Filed.{Filed};

    ghost Value = { Filed };

    ghost view = { filed_of };

    ghost invariant = { AreRebuilding };
}

impl Rebuild {
    /// Starts a database with a header.
    ///
    /// Allocates the journal's places, which are not touched before they are used, and the lists of archives.
    ///
    /// # Errors
    ///
    /// - `Bad`: a number of the header is outside its range.
    /// - `OutOfMemory`: memory ran out.
    pub fn with_header(alloc: Global, header: Header) -> Result<Rebuild, PieceFault>
        ensures { Begins (header_said header) result }
    {
        if !header.is_good() {
            return Err(PieceFault::Bad);
        }
        let journal = HeapCircularBuffer::with_capacity(alloc, header.depth as usize)?;
        let archives = ArchiveList::new(alloc)?;
        let validator = EntryValidator::new(alloc, header.version, header.step, header.last)?;
        Ok(Rebuild {
            alloc,
            header,
            sources: Vec::new(alloc),
            raws: Vec::new(alloc),
            preps: Vec::new(alloc),
            archives,
            cursor: Cursor::new(),
            journal,
            validator,
        })
    }

    // Returns the settings of the archive that does not have all its partial rows.
    fn unprepared_archive(&self) -> Option<RraDef>
        ensures { result ≡ unprepared self.now.header.sources self.now.heads }
    {
        let archives = self.archives.len();
        if archives == 0 {
            return None;
        }
        let rra = self.archives.get(archives - 1);
        if (rra.prep_count() as u64) < self.header.sources {
            return Some(rra.def());
        }
        None
    }

    /// Returns which piece is due.
    pub fn due(&self) -> Due
        ensures { result ≡ due self.now }
    {
        laws::cells_stand_in_slots();
        if (self.sources.len() as u64) < self.header.sources {
            return Due::SourceDue;
        }
        if let Some(def) = self.unprepared_archive() {
            return Due::PrepDue(def);
        }
        let archives = self.archives.len();
        if (archives as u64) < self.header.archives {
            return Due::HeadDue;
        }
        if self.cursor.archive < archives {
            return Due::CellDue;
        }
        if (self.journal.len() as u64) < self.header.entries {
            return Due::EntryDue;
        }
        Due::NothingDue
    }

    /// Returns the outline after all entries that were read are undone.
    ///
    /// The outline decides which entry fits next. Does not allocate.
    pub fn undone(&self) -> &Outline
        ensures { result.now ≡ outline_left self.now }
    {
        self.validator.outline()
    }

    /// Returns the validator of the next entry, which has that outline.
    pub fn validator(&self) -> &EntryValidator
        ensures { result.now ≡ validator self.now }
    {
        &self.validator
    }

    // Returns the partial step of a data source; `None` if the data source may not come.
    fn next_step_part(&self, def: &DsDef, raw: Raw, known: u64, sum: i128) -> Option<StepPrep>
        ensures some { let source : Source =
            record { def = def.now; raw = raw; part = record { known = known; value = sum } } in
            IfSome result (λ prep. MaySource self.now source × (prep ≡ source.part)) }
        ensures none { let source : Source =
            record { def = def.now; raw = raw; part = record { known = known; value = sum } } in
            result ≡ None → MaySource self.now source → ⊥ }
    {
        let Due::SourceDue = self.due() else {
            return None;
        };
        if !is_source(def) || !def.kind.accepts(raw) || has_source(&self.sources, &def.name) {
            return None;
        }
        self.validator.step_part(self.header.last, known, sum)
    }

    /// Adds the next data source, with its last raw value and its partial step.
    ///
    /// `known` is the number of known seconds, and `sum` the sum of their rates in millionths.
    ///
    /// # Errors
    /// The database is then unchanged:
    /// - `Bad`: another piece is due, or a rule is broken.
    /// - `OutOfMemory`: memory runs out.
    pub fn source(&mut self, def: DsDef, raw: Raw, known: u64, sum: i128) -> Result<(), PieceFault>
        ensures ok { let source : Source =
            record { def = def; raw = raw; part = record { known = known; value = sum } } in
            OnOk result (MaySource self.old source × (self.new ≡ with_source self.old source)) }
        ensures bad { let source : Source =
            record { def = def; raw = raw; part = record { known = known; value = sum } } in
            IfErr result (λ e. e ≡ Bad → MaySource self.old source → ⊥) }
        ensures want { let source : Source =
            record { def = def; raw = raw; part = record { known = known; value = sum } } in
            IfErr result (λ e. e ≡ OutOfMemory → MaySource self.old source) }
        ensures err { OnErr result (self.new ≡ self.old) }
    {
        let Some(prep) = self.next_step_part(&def, raw, known, sum) else {
            return Err(PieceFault::Bad);
        };
        push_source(
            &mut self.sources,
            &mut self.raws,
            &mut self.preps,
            &mut self.validator,
            def,
            raw,
            prep,
        )?;
        Ok(())
    }

    // Returns whether the settings of an archive may come.
    fn may_head(&self, def: &RraDef) -> bool
        ensures good { result ≡ true → MayHead self.now def.now }
        ensures bad { MayHead self.now def.now → result ≡ true }
    {
        let Due::HeadDue = self.due() else {
            return false;
        };
        self.validator.accepts_archive(def)
    }

    /// Adds the next archive, with its settings.
    ///
    /// Allocates the memory for the archive's rows; reading a cell touches only that cell's part of the memory.
    ///
    /// # Errors
    /// The database is then unchanged:
    /// - `Bad`: another piece is due, or a rule is broken; there may be at most 8,000,000 cells (in version 1,
    ///   4,000,000).
    /// - `OutOfMemory`: memory runs out.
    pub fn archive(&mut self, def: RraDef) -> Result<(), PieceFault>
        ensures ok { OnOk result (MayHead self.old def × (self.new ≡ with_head self.old def)) }
        ensures bad { IfErr result (λ e. e ≡ Bad → MayHead self.old def → ⊥) }
        ensures want { IfErr result (λ e. e ≡ OutOfMemory → MayHead self.old def) }
        ensures err { OnErr result (self.new ≡ self.old) }
    {
        if !self.may_head(&def) {
            return Err(PieceFault::Bad);
        }
        let first = first_slot_row(def.resolution(self.header.step), self.header.last, def.rows);
        let rra = Rra::unprepared(self.alloc, def, self.header.sources, first)?;
        self.archives.push(rra);
        self.validator.push_archive(def);
        Ok(())
    }

    // Returns the partial row with these values, which has the function of its archive; `None` if it may not come.
    fn next_row_part(&self, known: u64, value: i128) -> Option<RowPrep>
        ensures some { let part : Part = record { known = known; value = value } in
            IfSome result (λ prep. (may : MayPrep self.now part)
            × (prep ≡ record { function = may.def.function; part = part })) }
        ensures none { result ≡ None → MayPrep self.now (record { known = known; value = value }) → ⊥ }
    {
        let Due::PrepDue(def) = self.due() else {
            return None;
        };
        self.validator
            .row_part(self.header.last, &def, known, value)
    }

    /// Adds the next partial row of the archive that came last.
    ///
    /// `known` is the number of known steps, and `value` their sum, minimum, maximum or last value in millionths.
    ///
    /// # Errors
    /// The database is then unchanged:
    /// - `Bad`: another piece is due, or a rule is broken.
    /// - `OutOfMemory`: memory runs out.
    pub fn prep(&mut self, known: u64, value: i128) -> Result<(), PieceFault>
        ensures ok { let part : Part = record { known = known; value = value } in
            OnOk result (MayPrep self.old part × (self.new ≡ with_prep self.old part)) }
        ensures bad { IfErr result (λ e. e ≡ Bad → MayPrep self.old (record { known = known; value = value }) → ⊥) }
        ensures want { IfErr result (λ e. e ≡ OutOfMemory
            → MayPrep self.old (record { known = known; value = value })) }
        ensures err { OnErr result (self.new ≡ self.old) }
    {
        let Some(prep) = self.next_row_part(known, value) else {
            return Err(PieceFault::Bad);
        };
        let last = self.archives.len() - 1;
        self.archives.get_mut(last).push_prep(prep)?;
        Ok(())
    }

    /// Returns the number of cells in each row: 1 to 64.
    pub fn cells_in_row(&self) -> usize
        ensures count { result ≡ self.now.header.sources }
        ensures some { 0 < result }
        ensures few { result ≤ present.max_sources }
    {
        self.header.sources as usize
    }

    // Returns whether a cell may come.
    fn may_cell(&self, cell: StoredCell) -> bool
        ensures good { result ≡ true → MayCell self.now cell }
        ensures bad { MayCell self.now cell → result ≡ true }
    {
        let Due::CellDue = self.due() else {
            return false;
        };
        is_bounded(cell)
    }

    /// Adds the next cell, in millionths.
    ///
    /// Cells come by archive, then by slot, then by data source. Does not allocate.
    ///
    /// # Errors
    /// - `Bad`: another piece is due, or the cell has an absolute value above the maximum rate. The database is
    ///   unchanged.
    pub fn cell(&mut self, cell: StoredCell) -> Result<(), PieceFault>
        ensures ok { OnOk result (MayCell self.old cell × (self.new ≡ with_cell self.old cell)) }
        ensures bad { IfErr result (λ e. e ≡ Bad → MayCell self.old cell → ⊥) }
        ensures fault { IfErr result (λ e. e ≡ Bad) }
        ensures err { OnErr result (self.new ≡ self.old) }
    {
        laws::rows_stand_in_slots();
        laws::cells_stand_in_slots();
        if !self.may_cell(cell) {
            return Err(PieceFault::Bad);
        }
        let rra = self.archives.get_mut(self.cursor.archive);
        let def = rra.def();
        let place = self.cursor.place(&def, self.header.step, self.header.last);
        rra.set_cell(place, self.cursor.source, cell);
        self.cursor
            .advance(place, self.header.sources as usize, def.rows);
        Ok(())
    }

    // Adds the first of these cells that make whole rows of an archive, if the next cell begins a row, and returns how
    // many. The due piece and the index are found once for all of them.
    fn whole_rows(&mut self, cells: CellRun) -> usize
        requires { AllByRecursion IsBounded (run_cells cells) }
        ensures few { result ≤ length (run_cells cells.entry) }
        ensures may { MayCells self.old (take result (run_cells cells.entry)) }
        ensures came { self.new ≡ with_cells self.old (take result (run_cells cells.entry)) }
    {
        laws::rows_stand_in_slots();
        laws::cells_stand_in_slots();
        let Due::CellDue = self.due() else {
            return 0;
        };
        if self.cursor.source > 0 {
            return 0;
        }
        let sources = self.header.sources as usize;
        let def = self.archives.get(self.cursor.archive).def();
        let left = (def.rows - self.cursor.slot) as usize;
        let count = (cells.len() / sources).min(left);
        let taken = count * sources;
        let place = self.cursor.place(&def, self.header.step, self.header.last);
        let rra = self.archives.get_mut(self.cursor.archive);
        rra.write_rows(place, count as u64, cells.front(taken));
        self.cursor.pass(place, count as u64, def.rows);
        taken
    }

    /// Adds cells that make whole rows of an archive, and returns how many.
    ///
    /// The effect is that of `cell` for one cell after another, up to the last whole row that `cells` has, or to the
    /// end of the archive. No cell may have an absolute value above the maximum rate. Returns 0 if the next cell is not
    /// the first of a row. Does not allocate.
    pub fn rows(&mut self, cells: &[StoredCell]) -> usize
        requires { AllByRecursion IsBounded cells.now }
        ensures few { result ≤ length cells.now }
        ensures may { MayCells self.old (take result cells.now) }
        ensures came { self.new ≡ with_cells self.old (take result cells.now) }
    {
        self.whole_rows(CellRun::Given(cells))
    }

    /// Adds at most `most` unknown cells as in `rows`, and returns how many.
    ///
    /// Unwritten rows stay unwritten, so these cells touch no memory.
    pub fn unknown_rows(&mut self, most: usize) -> usize
        ensures few { result ≤ most }
        ensures may { MayCells self.old (replicate result CellUnknown) }
        ensures came { self.new ≡ with_cells self.old (replicate result CellUnknown) }
    {
        self.whole_rows(CellRun::Unknown(most))
    }

    // ---- entries

    /// Returns how many entries were read, at most 100,000.
    pub fn entries(&self) -> u64
        ensures count { result ≡ length self.now.entries }
        ensures few { result ≤ present.max_journal_depth }
    {
        self.journal.len() as u64
    }

    /// Returns the number of data sources, 1 to 64, if an entry is due.
    pub fn sources(&self) -> u64
        requires { due self.now ≡ EntryDue }
        ensures count { result ≡ length (outline_left self.now).sources }
        ensures some { 0 < result }
        ensures few { result ≤ present.max_sources }
    {
        laws::cells_stand_in_slots();
        laws::journals_in_pieces();
        laws::outlines_follow();
        self.validator.outline().sources.len() as u64
    }

    // Returns whether an entry may come.
    fn may_entry(&self, entry: &Entry) -> bool
        requires { IsChecked (validator self.now) (entry_of entry.now) }
        ensures good { result ≡ true → MayEntry self.now (entry_of entry.now) }
        ensures bad { MayEntry self.now (entry_of entry.now) → result ≡ true }
    {
        let Due::EntryDue = self.due() else {
            return false;
        };
        self.validator().may_undo(entry)
    }

    /// Adds the next entry, newest first.
    ///
    /// Each piece of an update was checked by the validator. An entry of another kind is checked here. Does not
    /// allocate: the journal has room for all its entries from the start.
    ///
    /// # Errors
    /// - `Bad`: another piece is due, or the entry does not fit the outline that the entries before it leave. The
    ///   database is unchanged.
    pub fn entry(&mut self, entry: Entry) -> Result<(), PieceFault>
        requires { IsChecked (validator self.old) (entry_of entry) }
        ensures ok { OnOk result (MayEntry self.old (entry_of entry)
            × (self.new ≡ with_entry self.old (entry_of entry))) }
        ensures bad { IfErr result (λ e. e ≡ Bad → MayEntry self.old (entry_of entry) → ⊥) }
        ensures fault { IfErr result (λ e. e ≡ Bad) }
        ensures err { OnErr result (self.new ≡ self.old) }
    {
        laws::cells_stand_in_slots();
        laws::journals_in_pieces();
        laws::outlines_follow();
        laws::outlines_judge_journals();
        if !self.may_entry(&entry) {
            return Err(PieceFault::Bad);
        }
        self.validator.undo(&entry);
        let _oldest = self.journal.push_front(entry);
        Ok(())
    }

    /// Returns the database, after all pieces were read. Does not allocate.
    pub fn finish(self) -> Database
        requires { due self ≡ NothingDue }
        ensures filed { filed self.header.version result ≡ self }
        ensures valid { IsValidDatabaseWithin (limits self) result.content result.journal }
    {
        laws::versions_stay_within();
        let Rebuild {
            header,
            sources,
            raws,
            preps,
            archives,
            journal,
            ..
        } = self;
        let content = Content {
            step: header.step,
            depth: header.depth,
            last: header.last,
            sources,
            raws,
            preps,
            archives,
        };
        Database::from_parts(content, journal)
    }
}

// Adds the settings of a data source in two lists, its raw value and its partial step; all or none.
//
// This function takes four fields and is no method: a method would have to prove the invariant of `Rebuild` at each of
// its exits.
fn push_source(
    sources: &mut Vec<DsDef>,
    raws: &mut Vec<Raw>,
    preps: &mut Vec<StepPrep>,
    validator: &mut EntryValidator,
    def: DsDef,
    raw: Raw,
    prep: StepPrep,
) -> Result<(), AllocError>
    requires { length validator.old.outline.sources < present.max_sources }
    ensures ok { OnOk result ((sources.new.items ≡ sources.old.items ++ def ∷ [])
        × (raws.new.items ≡ raws.old.items ++ raw ∷ [])
        × (preps.new.items ≡ preps.old.items ++ prep ∷ [])
        × (validator.new ≡ record validator.old {
          outline = record validator.old.outline { sources = validator.old.outline.sources ++ def ∷ [] };
        })) }
    ensures err { OnErr result ((sources.new.items ≡ sources.old.items)
        × (raws.new.items ≡ raws.old.items)
        × (preps.new.items ≡ preps.old.items)
        × (validator.new ≡ validator.old)) }
{
    sources.reserve(1)?;
    raws.reserve(1)?;
    preps.reserve(1)?;
    validator.push_source(def.duplicate())?;
    sources.push_reserved(def);
    raws.push_reserved(raw);
    preps.push_reserved(prep);
    Ok(())
}
