//! The entry of a resize: writing and reading.
ghost use Rattle.std.specs.Prelude.{◌<◌, ◌≤◌, ◌^◌, ◌∷◌, [], ◌≡◌, ◌++◌, ℕ, IfOk, List, length};
ghost use Rattle.rrd_file.specs.Names.{ResizeEntry, present, due, outline_left, EntryDue, entry_of};
ghost use Rattle.rrd_file.specs.Words.{Gathers, entry_pieces, spelled, AResize, OfNumber, OfRows, OfTag, Piece, IsShaped, DueInEntry, NumberDue, OldRowsDue, cells_due, first_due, Brings, Closes, Comes};

use crate::FileFault;
use crate::cells::write_rows;
use crate::fault::bad_entry;
use crate::journal::rows::read_old_rows;
use crate::layout::{NUMBER_SIZE, ROWS_SIZE, Tag, tag_byte};
use crate::reader::PieceReader;
use crate::values::{four_of, two_of};
use crate::writer::PieceWriter;
use rrd_base::{Entry, Rebuild};
use rrd_fixed::WriteFault;
use rrd_ring::Archive;
use std::alloc::Global;
use std::io::{Read, Write};

// Writes the tag of a resize, the archive's number and its old number of rows.
#[tactic(auto, unfolding(crate::specs::Layout::Pieces::spell))]
fn write_resized<W: Write>(
    out: &mut PieceWriter<'_, W>,
    archive: u64,
    rows: u64,
) -> Result<(), WriteFault>
    requires archive_fits { archive < 2 ^ 16 }
    requires rows_fit { rows ≤ present.max_rows }
    ensures { Gathers W.contents out.old out.new
        (spelled (OfTag AResize ∷ OfNumber archive ∷ OfRows rows ∷ [])) result }
{
    out.make_room()?;
    out.block.byte(tag_byte(Tag::AResize));
    out.block.two(archive);
    out.block.four(rows);
    Ok(())
}

/// Writes the entry of a resize.
pub(super) fn write_resize<W: Write>(
    out: &mut PieceWriter<'_, W>,
    archive: u64,
    old: &Archive,
) -> Result<(), WriteFault>
    requires { archive < 2 ^ 16 }
    ensures { Gathers W.contents out.old out.new
        (spelled (entry_pieces (ResizeEntry archive old.now))) result }
{
    write_resized(out, archive, old.rows())?;
    write_rows(out, old)
}

// Reads the number of the resized archive.
fn read_number<R: Read + Drop>(
    input: &mut PieceReader<R>,
    build: &Rebuild,
) -> Result<u64, FileFault>
    ensures brings { (bytes : List ℕ) (pieces : List Piece) (later : List DueInEntry)
        → Comes bytes build.now pieces (NumberDue ∷ later) input.old
        → Brings bytes build.now (λ archive. pieces ++ OfNumber archive ∷ []) (λ archive. OldRowsDue archive ∷ later)
        input.new result }
    ensures there { IfOk result (λ archive. archive < length (outline_left build.now).archives) }
{
    let mut piece = [0u8; NUMBER_SIZE];
    input.piece(&mut piece)?;
    let (archive, _) = two_of(&piece);
    if !build.validator().has_archive(archive) {
        return Err(bad_entry(build));
    }
    Ok(archive)
}

// Reads the number of rows that the archive had.
fn read_old_row_count<R: Read + Drop>(
    input: &mut PieceReader<R>,
    build: &Rebuild,
    archive: u64,
) -> Result<u64, FileFault>
    requires { archive < length (outline_left build.now).archives }
    ensures brings { (bytes : List ℕ) (pieces : List Piece) (later : List DueInEntry)
        → Comes bytes build.now pieces (OldRowsDue archive ∷ later) input.old
        → Brings bytes build.now (λ rows. pieces ++ OfRows rows ∷ [])
        (λ rows. cells_due rows (outline_left build.now) ++ later) input.new result }
    ensures some { IfOk result (λ rows. 0 < rows) }
    ensures few { IfOk result (λ rows. rows ≤ present.max_rows) }
{
    let mut piece = [0u8; ROWS_SIZE];
    input.piece(&mut piece)?;
    let (rows, _) = four_of(&piece);
    if !build
        .validator()
        .is_valid_old_row_count(archive as usize, rows)
    {
        return Err(bad_entry(build));
    }
    Ok(rows)
}

/// Reads the pieces after the tag of a resize.
pub(super) fn read_resize<R: Read + Drop>(
    alloc: Global,
    input: &mut PieceReader<R>,
    build: &Rebuild,
) -> Result<Entry, FileFault>
    requires { due build.now ≡ EntryDue }
    ensures closes { (bytes : List ℕ) → Comes bytes build.now (OfTag AResize ∷ []) (first_due AResize) input.old
        → Closes bytes build.now input.new result }
    ensures shaped { IfOk result (λ entry. IsShaped build.now (entry_of entry)) }
{
    let archive = read_number(input, build)?;
    let count = read_old_row_count(input, build, archive)?;
    let old = read_old_rows(alloc, input, build, count)?;
    Ok(Entry::Resize { archive, old })
}
