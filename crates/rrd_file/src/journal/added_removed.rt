//! The entries of archives that were added or removed: writing and reading.
ghost use Rattle.std.specs.Prelude.{◌<◌, ◌^◌, ◌∷◌, [], ◌≡◌, ◌++◌, ℕ, IfOk, List, length, replicate};
ghost use Rattle.rrd_file.specs.Names.{AddedEntry, RemovedEntry, due, outline_left, IsArchiveDef, present, EntryDue, entry_of};
ghost use Rattle.rrd_file.specs.Words.{FitsArchive, Gathers, entry_pieces, spelled, ARemoval, OfArchive, OfNumber, OfTag, Piece, IsShaped, DueInEntry, RemovedHeadDue, RemovedNumberDue, RowPrepDue, cells_due, first_due, Brings, Closes, Comes};

use crate::FileFault;
use crate::archive::{archive_of, read_row_preps, write_preps};
use crate::cells::write_rows;
use crate::fault::bad_entry;
use crate::journal::rows::read_old_rows;
use crate::layout::{ARCHIVE_SIZE, NUMBER_SIZE, Tag, tag_byte};
use crate::reader::PieceReader;
use crate::values::two_of;
use crate::writer::PieceWriter;
use rrd_base::{Entry, Rebuild, Rra, RraDef};
use rrd_fixed::WriteFault;
use std::alloc::Global;
use std::io::{Read, Write};

/// Writes the entry of an archive that was added: only a tag.
#[tactic(auto, unfolding(crate::specs::Layout::Pieces::spell))]
pub(super) fn write_added<W: Write>(out: &mut PieceWriter<'_, W>) -> Result<(), WriteFault>
    ensures { Gathers W.contents out.old out.new
        (spelled (entry_pieces AddedEntry)) result }
{
    out.make_room()?;
    out.block.byte(tag_byte(Tag::AnAddition));
    Ok(())
}

// Writes the tag of a removal, the archive's number and its settings.
#[tactic(auto, unfolding(crate::specs::Layout::Pieces::spell))]
fn write_gone<W: Write>(
    out: &mut PieceWriter<'_, W>,
    archive: u64,
    def: &RraDef,
) -> Result<(), WriteFault>
    requires number_fits { archive < 2 ^ 16 }
    requires settings_fit { FitsArchive def.now }
    ensures { Gathers W.contents out.old out.new
        (spelled (OfTag ARemoval ∷ OfNumber archive ∷ OfArchive def.now ∷ [])) result }
{
    out.make_room()?;
    out.block.byte(tag_byte(Tag::ARemoval));
    out.block.two(archive);
    out.block.archive(def);
    Ok(())
}

/// Writes the entry of an archive that was removed.
pub(super) fn write_removed<W: Write>(
    out: &mut PieceWriter<'_, W>,
    archive: u64,
    old: &Rra,
) -> Result<(), WriteFault>
    requires number_fits { archive < 2 ^ 16 }
    requires settings_fit { FitsArchive old.now.def }
    ensures { Gathers W.contents out.old out.new
        (spelled (entry_pieces (RemovedEntry archive old.now))) result }
{
    write_gone(out, archive, &old.def())?;
    write_preps(out, old.preps())?;
    write_rows(out, old.archive())
}

// Reads the number of the removed archive.
fn read_removed_number<R: Read + Drop>(
    input: &mut PieceReader<R>,
    build: &Rebuild,
) -> Result<u64, FileFault>
    ensures { (bytes : List ℕ) (pieces : List Piece) (later : List DueInEntry)
        → Comes bytes build.now pieces (RemovedNumberDue ∷ later) input.old
        → Brings bytes build.now (λ number. pieces ++ OfNumber number ∷ []) (λ number. RemovedHeadDue ∷ later)
        input.new result }
{
    let mut piece = [0u8; NUMBER_SIZE];
    input.piece(&mut piece)?;
    let (archive, _) = two_of(&piece);
    if !build.validator().is_valid_removed_number(archive) {
        return Err(bad_entry(build));
    }
    Ok(archive)
}

// Reads the settings of the removed archive.
fn read_removed_settings<R: Read + Drop>(
    input: &mut PieceReader<R>,
    build: &Rebuild,
) -> Result<RraDef, FileFault>
    ensures brings { (bytes : List ℕ) (pieces : List Piece) (later : List DueInEntry)
        → Comes bytes build.now pieces (RemovedHeadDue ∷ later) input.old
        → Brings bytes build.now (λ def. pieces ++ OfArchive def ∷ [])
        (λ def. (replicate (length (outline_left build.now).sources) (RowPrepDue (outline_left build.now).last def)
        ++ cells_due def.rows (outline_left build.now)) ++ later) input.new result }
    ensures good { IfOk result (λ def. IsArchiveDef present def) }
{
    let mut piece = [0u8; ARCHIVE_SIZE];
    input.piece(&mut piece)?;
    let Some(def) = archive_of(&piece) else {
        return Err(bad_entry(build));
    };
    if !build.validator().accepts_archive(&def) {
        return Err(bad_entry(build));
    }
    Ok(def)
}

/// Reads the pieces after the tag of a removal.
pub(super) fn read_removed<R: Read + Drop>(
    alloc: Global,
    input: &mut PieceReader<R>,
    build: &Rebuild,
) -> Result<Entry, FileFault>
    requires { due build.now ≡ EntryDue }
    ensures closes { (bytes : List ℕ) → Comes bytes build.now (OfTag ARemoval ∷ []) (first_due ARemoval) input.old
        → Closes bytes build.now input.new result }
    ensures shaped { IfOk result (λ entry. IsShaped build.now (entry_of entry)) }
{
    let archive = read_removed_number(input, build)?;
    let def = read_removed_settings(input, build)?;
    let preps = read_row_preps(alloc, input, build, build.undone().last, &def)?;
    let rows = read_old_rows(alloc, input, build, def.rows)?;
    let preps = Vec::from_slice(alloc, preps.as_slice())?;
    let old = Rra::from_parts(def, preps, rows);
    Ok(Entry::Removed { archive, old })
}
