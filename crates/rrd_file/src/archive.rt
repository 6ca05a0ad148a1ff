//! The archive headers of a file: writing and reading. Each has the settings and the partial rows.
ghost use Rattle.std.specs.Prelude.{◌≡◌, ◌+◌, ◌^◌, ◌/◌, ◌%◌, ◌<◌, ◌≤◌, ℕ, [], ◌∷◌, ◌++◌, ◌≢◌, IfOk, IfSome, List, None, OnOk, Some, length, map, replicate, slice_get, unsigned_abs};
ghost use Rattle.rrd_file.specs.Names.{flat_map, filed, head_of, newest, present, Rra, AllOf, AreParts, IsRowPart, parts_in, RraDef, due, outline_left, EntryDue, HeadDue, PrepDue};
ghost use Rattle.rrd_file.specs.Words.{head_pieces, spelled, OfArchive, OfPrep, Piece, spell, Gathers, Body, DueInEntry, RowPrepDue, FitsArchive, Advances, Brings, Comes, Reaches, Stands};
ghost use Rattle.rrd_file.specs.Layout.Values as spelling;

use crate::FileFault;
use crate::fault::{bad_entry, block_fault};
use crate::layout::{ARCHIVE_SIZE, PREP_SIZE};
use crate::reader::PieceReader;
use crate::values::{four_of, function_byte, function_of, part_of};
use crate::writer::{BLOCK_SIZE, Block, PieceWriter};
use rrd_base::{Database, EachSource, Rebuild, RraDef, database_is_valid};
use rrd_fixed::WriteFault;
use rrd_fold::RowPrep;
use std::alloc::Global;
use std::io::{Read, Write};

impl Block {
    /// Adds the settings of an archive.
    pub(crate) fn archive(&mut self, archive: &RraDef)
        requires room { length self.old + ARCHIVE_SIZE ≤ BLOCK_SIZE }
        requires steps { archive.now.steps < 2 ^ 32 }
        requires xff { unsigned_abs archive.now.xff < 2 ^ 32 }
        requires rows { archive.now.rows < 2 ^ 32 }
        ensures { self.new ≡ self.old ++ spelling.archive_bytes archive.now }
    {
        self.byte(function_byte(archive.function));
        self.four(archive.steps);
        self.four(archive.xff.unsigned_abs() as u64);
        self.four(archive.rows);
    }
}

// Writes the settings of an archive.
#[tactic(auto, unfolding(crate::specs::Layout::Pieces::spell))]
fn write_settings<W: Write>(
    out: &mut PieceWriter<'_, W>,
    database: &Database,
    archive: u64,
) -> Result<(), WriteFault>
    requires { archive < length database.now.content.archives }
    ensures { (a : Rra) → slice_get database.now.content.archives archive ≡ Some a
        → Gathers W.contents out.old out.new (spell (OfArchive a.def)) result }
{
    // The prover needs that the settings fit their bytes.
    database_is_valid(database);
    let def = database.archive(archive);
    out.make_room()?;
    out.block.archive(&def);
    Ok(())
}

// Writes the partial row of one data source.
#[tactic(auto, unfolding(crate::specs::Layout::Pieces::spell))]
fn write_prep<W: Write>(out: &mut PieceWriter<'_, W>, prep: RowPrep) -> Result<(), WriteFault>
    ensures { Gathers W.contents out.old out.new (spell (OfPrep prep.part)) result }
{
    out.make_room()?;
    out.block.part(prep.known(), prep.value());
    Ok(())
}

/// Writes the partial rows of an archive.
pub(crate) fn write_preps<W: Write>(
    out: &mut PieceWriter<'_, W>,
    preps: &[RowPrep],
) -> Result<(), WriteFault>
    ensures { Gathers W.contents out.old out.new
        (spelled (map OfPrep (parts_in preps.now))) result }
{
    for i in 0..preps.len() {
        write_prep(out, preps[i])?;
    }
    Ok(())
}

// Writes the partial rows of an archive in the database.
fn write_archive_preps<W: Write>(
    out: &mut PieceWriter<'_, W>,
    database: &Database,
    archive: u64,
) -> Result<(), WriteFault>
    requires { archive < length database.now.content.archives }
    ensures { (a : Rra) → slice_get database.now.content.archives archive ≡ Some a
        → Gathers W.contents out.old out.new (spelled (map OfPrep a.parts)) result }
{
    // The prover needs that each archive has a partial row for each data source.
    database_is_valid(database);
    for source in 0..database.sources() {
        write_prep(out, database.row_prep(archive, source))?;
    }
    Ok(())
}

// Writes the header of an archive.
fn write_head<W: Write>(
    out: &mut PieceWriter<'_, W>,
    database: &Database,
    archive: u64,
) -> Result<(), WriteFault>
    requires { archive < length database.now.content.archives }
    ensures { (a : Rra) → slice_get database.now.content.archives archive ≡ Some a
        → Gathers W.contents out.old out.new
        (spelled (head_pieces (head_of a))) result }
{
    write_settings(out, database, archive)?;
    write_archive_preps(out, database, archive)
}

/// Writes the headers of all archives.
pub(crate) fn write_heads<W: Write>(
    out: &mut PieceWriter<'_, W>,
    database: &Database,
) -> Result<(), WriteFault>
    ensures { Gathers W.contents out.old out.new
        (spelled (flat_map head_pieces (filed newest database.now).heads)) result }
{
    for archive in 0..database.archives() {
        write_head(out, database, archive)?;
    }
    Ok(())
}

/// Returns the settings of an archive.
pub(crate) fn archive_of(bytes: &[u8]) -> Option<RraDef>
    requires { length bytes.now ≡ ARCHIVE_SIZE }
    ensures some { IfSome result (λ def. FitsArchive def × (spell (OfArchive def) ≡ bytes.now)) }
    ensures none { result ≡ None → (def : RraDef) → spell (OfArchive def) ≢ bytes.now }
{
    let (first, rest) = bytes.split_at(1);
    let Some(function) = function_of(first[0]) else {
        return None;
    };
    let (steps, rest) = four_of(rest);
    let (xff, rest) = four_of(rest);
    let (rows, _) = four_of(rest);
    Some(RraDef {
        function,
        xff: xff as i128,
        steps,
        rows,
    })
}

/// Reads the settings of an archive.
pub(crate) fn read_settings<R: Read + Drop>(
    input: &mut PieceReader<R>,
    build: &mut Rebuild,
) -> Result<(), FileFault>
    requires { due build.old ≡ HeadDue }
    ensures steps { (bytes : List ℕ) → Stands bytes (Body build.old) input.old
        → Reaches bytes (λ x. Body build.new) input.new result }
    ensures advanced { OnOk result (Advances input.old input.new) }
{
    let at = input.at();
    let mut piece = [0u8; ARCHIVE_SIZE];
    input.piece(&mut piece)?;
    let Some(def) = archive_of(&piece) else {
        return Err(FileFault::BadBlock { at });
    };
    match build.archive(def) {
        Ok(()) => Ok(()),
        Err(fault) => Err(block_fault(fault, at)),
    }
}

/// Reads the partial row of one data source.
pub(crate) fn read_prep<R: Read + Drop>(
    input: &mut PieceReader<R>,
    build: &mut Rebuild,
) -> Result<(), FileFault>
    requires { (def : RraDef) × (due build.old ≡ PrepDue def) }
    ensures steps { (bytes : List ℕ) → Stands bytes (Body build.old) input.old
        → Reaches bytes (λ x. Body build.new) input.new result }
    ensures advanced { OnOk result (Advances input.old input.new) }
{
    let at = input.at();
    let mut piece = [0u8; PREP_SIZE];
    input.piece(&mut piece)?;
    let (known, value, _) = part_of(&piece);
    match build.prep(known, value) {
        Ok(()) => Ok(()),
        Err(fault) => Err(block_fault(fault, at)),
    }
}

// Reads the partial row of one data source, of an archive with these settings whose last time is `last`.
fn read_row_prep<R: Read + Drop>(
    input: &mut PieceReader<R>,
    build: &Rebuild,
    last: u64,
    def: &RraDef,
) -> Result<RowPrep, FileFault>
    requires some_steps { 0 < def.now.steps }
    requires few_steps { def.now.steps ≤ present.max_steps_per_row }
    ensures brings { (bytes : List ℕ) (pieces : List Piece) (later : List DueInEntry)
        → Comes bytes build.now pieces (RowPrepDue last def.now ∷ later) input.old
        → Brings bytes build.now (λ prep. pieces ++ OfPrep prep.part ∷ []) (λ prep. later) input.new result }
    ensures function { IfOk result (λ prep. prep.function ≡ def.now.function) }
    ensures checked { IfOk result (λ prep. IsRowPart build.now.header.step last def.now prep.part) }
{
    let mut piece = [0u8; PREP_SIZE];
    input.piece(&mut piece)?;
    let (known, value, _) = part_of(&piece);
    match build.validator().row_part(last, def, known, value) {
        Some(prep) => Ok(prep),
        None => Err(bad_entry(build)),
    }
}

/// Reads the partial rows of an archive with these settings whose last time is `last`.
pub(crate) fn read_row_preps<R: Read + Drop>(
    alloc: Global,
    input: &mut PieceReader<R>,
    build: &Rebuild,
    last: u64,
    def: &RraDef,
) -> Result<EachSource<RowPrep>, FileFault>
    requires is_due { due build.now ≡ EntryDue }
    requires some_steps { 0 < def.now.steps }
    requires few_steps { def.now.steps ≤ present.max_steps_per_row }
    ensures brings { (bytes : List ℕ) (pieces : List Piece) (later : List DueInEntry)
        → Comes bytes build.now pieces
        (replicate (length (outline_left build.now).sources) (RowPrepDue last def.now) ++ later)
        input.old
        → Brings bytes build.now (λ preps. pieces ++ map OfPrep (parts_in preps.items)) (λ preps. later)
        input.new result }
    ensures function { IfOk result (λ preps. AllOf def.now.function preps.items) }
    ensures checked { IfOk result (λ preps. AreParts def.now.function (length (outline_left build.now).sources)
        (last / build.now.header.step % def.now.steps) (parts_in preps.items)) }
{
    let sources = build.sources();
    let mut preps = EachSource::with_capacity(alloc, sources as usize)?;
    for _ in 0..sources {
        let prep = read_row_prep(input, build, last, def)?;
        preps.push(prep)?;
    }
    Ok(preps)
}
