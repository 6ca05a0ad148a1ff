//! The entry of an update: writing and reading.
ghost use Rattle.std.specs.Prelude.{◌≡◌, ◌%◌, ◌≤◌, ◌∷◌, [], ◌<◌, ◌++◌, ℕ, IfOk, List, Some, length, map, min, slice_get};
ghost use Rattle.rrd_file.specs.Names.{flat_map, Average, IsAccepted, AreAccepted, AreParts, IsPart, MaySave, MaySaveEach, UpdateEntry, rows_between, IsArchiveDef, present, due, outline_left, EntryDue, DsDef, RraDef, entry_of, update_of};
ghost use Rattle.rrd_file.specs.Words.{Gathers, entry_pieces, raws_and_parts, saved_pieces, spelled, AnUpdate, OfRawAndPart, OfRows, OfTag, OfTime, Piece, spell, IsShaped, BeforeDue, DueInEntry, RowsDue, TimeDue, archive_due, behind, first_due, Brings, Closes, Comes};

use crate::FileFault;
use crate::archive::{read_row_preps, write_preps};
use crate::cells::write_rows;
use crate::fault::bad_entry;
use crate::journal::rows::read_saved_rows;
use crate::layout::{BEFORE_UPDATE_SIZE, ROWS_SIZE, TIME_SIZE, Tag, tag_byte};
use crate::reader::PieceReader;
use crate::source::before_of;
use crate::values::{eight_of, four_of};
use crate::writer::PieceWriter;
use rrd_base::{BeforeUpdate, EachSource, Entry, Rebuild, RraDef, SavedArchive};
use rrd_fixed::{Raw, WriteFault};
use rrd_fold::StepPrep;
use std::alloc::Global;
use std::io::{Read, Write};

// Writes the tag of an update, and the last time before the update.
#[tactic(auto, unfolding(crate::specs::Layout::Pieces::spell))]
fn write_time<W: Write>(out: &mut PieceWriter<'_, W>, last: u64) -> Result<(), WriteFault>
    ensures { Gathers W.contents out.old out.new
        (spelled (OfTag AnUpdate ∷ OfTime last ∷ [])) result }
{
    out.make_room()?;
    out.block.byte(tag_byte(Tag::AnUpdate));
    out.block.eight(last);
    Ok(())
}

// Writes a data source before an update.
#[tactic(auto, unfolding(crate::specs::Layout::Pieces::spell))]
fn write_raw_and_part<W: Write>(
    out: &mut PieceWriter<'_, W>,
    raw: Raw,
    prep: &StepPrep,
) -> Result<(), WriteFault>
    ensures { Gathers W.contents out.old out.new
        (spell (OfRawAndPart raw prep.now)) result }
{
    out.make_room()?;
    out.block.raw(raw);
    out.block.part(prep.known(), prep.sum());
    Ok(())
}

// Writes the data sources before an update.
fn write_raws_and_parts<W: Write>(
    out: &mut PieceWriter<'_, W>,
    raws: &[Raw],
    preps: &[StepPrep],
) -> Result<(), WriteFault>
    requires { length raws.now ≡ length preps.now }
    ensures { Gathers W.contents out.old out.new
        (spelled (raws_and_parts raws.now preps.now)) result }
{
    for i in 0..raws.len() {
        write_raw_and_part(out, raws[i], &preps[i])?;
    }
    Ok(())
}

// Writes a number of rows.
#[tactic(auto, unfolding(crate::specs::Layout::Pieces::spell))]
fn write_row_count<W: Write>(out: &mut PieceWriter<'_, W>, rows: u64) -> Result<(), WriteFault>
    requires { rows ≤ present.max_rows }
    ensures { Gathers W.contents out.old out.new (spell (OfRows rows)) result }
{
    out.make_room()?;
    out.block.four(rows);
    Ok(())
}

// Writes the values that an update replaced in an archive.
fn write_saved<W: Write>(
    out: &mut PieceWriter<'_, W>,
    saved: &SavedArchive,
) -> Result<(), WriteFault>
    ensures { Gathers W.contents out.old out.new
        (spelled (saved_pieces saved.now)) result }
{
    write_preps(out, saved.preps())?;
    write_row_count(out, saved.rows().len())?;
    write_rows(out, saved.rows())
}

// Writes the values that an update replaced in all archives.
fn write_all_saved<W: Write>(
    out: &mut PieceWriter<'_, W>,
    saved: &[SavedArchive],
) -> Result<(), WriteFault>
    ensures { Gathers W.contents out.old out.new
        (spelled (flat_map saved_pieces saved.now)) result }
{
    for i in 0..saved.len() {
        write_saved(out, &saved[i])?;
    }
    Ok(())
}

/// Writes the entry of an update.
pub(super) fn write_update<W: Write>(
    out: &mut PieceWriter<'_, W>,
    before: &BeforeUpdate,
) -> Result<(), WriteFault>
    requires { length before.now.raws.items ≡ length before.now.preps.items }
    ensures { Gathers W.contents out.old out.new
        (spelled (entry_pieces (UpdateEntry (update_of before.now)))) result }
{
    write_time(out, before.last)?;
    write_raws_and_parts(out, &before.raws, &before.preps)?;
    write_all_saved(out, &before.archives)
}

// Reads the last time before an update.
fn read_time<R: Read + Drop>(input: &mut PieceReader<R>, build: &Rebuild) -> Result<u64, FileFault>
    ensures brings { (bytes : List ℕ) (pieces : List Piece) (later : List DueInEntry)
        → Comes bytes build.now pieces (TimeDue ∷ later) input.old
        → Brings bytes build.now (λ last. pieces ++ OfTime last ∷ [])
        (λ last. behind build.now.header.step (outline_left build.now) TimeDue (OfTime last) ++ later)
        input.new result }
    ensures earlier { IfOk result (λ last. last < (outline_left build.now).last) }
{
    let mut piece = [0u8; TIME_SIZE];
    input.piece(&mut piece)?;
    let (last, _) = eight_of(&piece);
    if !build.validator().is_before_last_time(last) {
        return Err(bad_entry(build));
    }
    Ok(last)
}

// Reads the raw value and the partial step of a data source before an update.
fn read_raw_and_part<R: Read + Drop>(
    input: &mut PieceReader<R>,
    build: &Rebuild,
    last: u64,
    source: usize,
) -> Result<(Raw, StepPrep), FileFault>
    requires { source < length (outline_left build.now).sources }
    ensures brings { (bytes : List ℕ) (pieces : List Piece) (later : List DueInEntry) (def : DsDef)
        → slice_get (outline_left build.now).sources source ≡ Some def
        → Comes bytes build.now pieces (BeforeDue last def ∷ later) input.old
        → Brings bytes build.now (λ both. pieces ++ OfRawAndPart both.0 both.1 ∷ []) (λ both. later)
        input.new result }
    ensures raw { (def : DsDef) → slice_get (outline_left build.now).sources source ≡ Some def
        → IfOk result (λ both. IsAccepted def.kind both.0) }
    ensures part { IfOk result (λ both. IsPart Average (last % build.now.header.step) both.1) }
{
    let mut piece = [0u8; BEFORE_UPDATE_SIZE];
    input.piece(&mut piece)?;
    let (raw, known, sum) = before_of(&piece);
    if !build.validator().accepts_raw(source, raw) {
        return Err(bad_entry(build));
    }
    match build.validator().step_part(last, known, sum) {
        Some(prep) => Ok((raw, prep)),
        None => Err(bad_entry(build)),
    }
}

// Reads the raw value and the partial step of each data source before an update.
fn read_raws_and_parts<R: Read + Drop>(
    alloc: Global,
    input: &mut PieceReader<R>,
    build: &Rebuild,
    last: u64,
) -> Result<(EachSource<Raw>, EachSource<StepPrep>), FileFault>
    ensures brings { (bytes : List ℕ) (pieces : List Piece) (later : List DueInEntry)
        → Comes bytes build.now pieces (map (BeforeDue last) (outline_left build.now).sources ++ later) input.old
        → Brings bytes build.now (λ both. pieces ++ raws_and_parts both.0.items both.1.items) (λ both. later)
        input.new result }
    ensures raws { IfOk result (λ both. AreAccepted (outline_left build.now).sources both.0.items) }
    ensures parts { IfOk result (λ both. AreParts Average (length (outline_left build.now).sources)
        (last % build.now.header.step) both.1.items) }
{
    let sources = build.undone().sources.len();
    let mut raws = EachSource::with_capacity(alloc, sources)?;
    let mut preps = EachSource::with_capacity(alloc, sources)?;
    for source in 0..sources {
        let (raw, prep) = read_raw_and_part(input, build, last, source)?;
        raws.push(raw)?;
        preps.push(prep)?;
    }
    Ok((raws, preps))
}

// Reads the number of rows that an update replaced in an archive.
fn read_row_count<R: Read + Drop>(
    input: &mut PieceReader<R>,
    build: &Rebuild,
    last: u64,
    def: &RraDef,
) -> Result<u64, FileFault>
    requires { IsArchiveDef present def.now }
    ensures brings { (bytes : List ℕ) (pieces : List Piece) (later : List DueInEntry)
        → Comes bytes build.now pieces
        (RowsDue (min (rows_between build.now.header.step def.now last (outline_left build.now).last) def.now.rows)
        ∷ later) input.old
        → Brings bytes build.now (λ rows. pieces ++ OfRows rows ∷ []) (λ rows. later) input.new result }
    ensures value { IfOk result (λ rows. rows
        ≡ min (rows_between build.now.header.step def.now last (outline_left build.now).last) def.now.rows) }
    ensures few { IfOk result (λ rows. rows ≤ present.max_rows) }
{
    let mut piece = [0u8; ROWS_SIZE];
    input.piece(&mut piece)?;
    let (rows, _) = four_of(&piece);
    if rows != build.validator().replaced_row_count(last, def) {
        return Err(bad_entry(build));
    }
    Ok(rows)
}

// Reads the values that an update replaced in an archive.
fn read_saved<R: Read + Drop>(
    alloc: Global,
    input: &mut PieceReader<R>,
    build: &Rebuild,
    last: u64,
    archive: usize,
) -> Result<SavedArchive, FileFault>
    requires is_due { due build.now ≡ EntryDue }
    requires there { archive < length (outline_left build.now).archives }
    ensures brings { (bytes : List ℕ) (pieces : List Piece) (later : List DueInEntry) (def : RraDef)
        → slice_get (outline_left build.now).archives archive ≡ Some def
        → Comes bytes build.now pieces
        (archive_due build.now.header.step (outline_left build.now) last def ++ later) input.old
        → Brings bytes build.now (λ old. pieces ++ saved_pieces old) (λ old. later) input.new result }
    ensures checked { (def : RraDef) → slice_get (outline_left build.now).archives archive ≡ Some def
        → IfOk result (MaySave build.now.header.step last (outline_left build.now).last
        (length (outline_left build.now).sources) def) }
{
    let def = build.validator().archive(archive);
    let preps = read_row_preps(alloc, input, build, last, def)?;
    let count = read_row_count(input, build, last, def)?;
    let rows = read_saved_rows(alloc, input, build, count)?;
    Ok(SavedArchive::new(def.function, preps, rows))
}

// Reads the values that an update replaced in each archive.
fn read_all_saved<R: Read + Drop>(
    alloc: Global,
    input: &mut PieceReader<R>,
    build: &Rebuild,
    last: u64,
) -> Result<Vec<SavedArchive>, FileFault>
    requires { due build.now ≡ EntryDue }
    ensures brings { (bytes : List ℕ) (pieces : List Piece) (later : List DueInEntry)
        → Comes bytes build.now pieces
        (flat_map (archive_due build.now.header.step (outline_left build.now) last) (outline_left build.now).archives
        ++ later) input.old
        → Brings bytes build.now (λ olds. pieces ++ flat_map saved_pieces olds.items) (λ olds. later) input.new result }
    ensures checked { IfOk result (λ olds. MaySaveEach build.now.header.step last (outline_left build.now).last
        (length (outline_left build.now).sources) (outline_left build.now).archives olds.items) }
{
    let archives = build.undone().archives.len();
    let mut olds = Vec::with_capacity(alloc, archives)?;
    for archive in 0..archives {
        let old = read_saved(alloc, input, build, last, archive)?;
        olds.push(old)?;
    }
    Ok(olds)
}

/// Reads the pieces after the tag of an update.
pub(super) fn read_update<R: Read + Drop>(
    alloc: Global,
    input: &mut PieceReader<R>,
    build: &Rebuild,
) -> Result<Entry, FileFault>
    requires { due build.now ≡ EntryDue }
    ensures closes { (bytes : List ℕ) → Comes bytes build.now (OfTag AnUpdate ∷ []) (first_due AnUpdate) input.old
        → Closes bytes build.now input.new result }
    ensures shaped { IfOk result (λ entry. IsShaped build.now (entry_of entry)) }
{
    let last = read_time(input, build)?;
    let (raws, preps) = read_raws_and_parts(alloc, input, build, last)?;
    let archives = read_all_saved(alloc, input, build, last)?;
    Ok(Entry::Update(BeforeUpdate {
        last,
        raws,
        preps,
        archives,
    }))
}
