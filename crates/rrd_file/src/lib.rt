//! The file of a database: its definition, its writer and its reader.
//!
//! A file is a sequence of pieces. `tests_of_database/src/examples.rt` has a complete caller.
#![tactic(auto)]

ghost use Rattle.std.specs.Prelude.{◌≡◌, ◌⊎◌, ℕ, List, OnOk, Some};
ghost use Rattle.rrd_file.specs.Names.{Writes, Filed, due, EntryDue, NothingDue};
ghost use Rattle.rrd_file.specs.Words.{Gathers, front_bytes, layout, IsAnswer, Body, Ends, Reaches, Stands};

use archive::{read_prep, read_settings, write_heads};
use cells::{read_cells, write_cells};
use header::{read_header, read_mark, read_version, write_header};
use journal::{read_entry, write_entries};
use reader::PieceReader;
use rrd_base::{Database, Due, Rebuild};
use rrd_fixed::WriteFault;
use source::{read_source, write_sources};
use std::alloc::Global;
use std::io::{Read, Write};
use writer::PieceWriter;

mod archive;
mod cells;
mod encoded;
mod end;
mod fault;
mod header;
mod journal;
pub mod laws;
mod layout;
mod length;
mod reader;
mod source;
mod span;
mod values;
mod writer;

pub use encoded::{Encoded, Updated};
pub use end::file_end;
pub use fault::FileFault;
pub use length::encoded_length;
pub use span::Span;

// Writes the pieces before the cells.
fn write_front<W: Write>(
    out: &mut PieceWriter<'_, W>,
    database: &Database,
) -> Result<(), WriteFault>
    ensures { Gathers W.contents out.old out.new (front_bytes database.now) result }
{
    write_header(out, database)?;
    write_sources(out, database)?;
    write_heads(out, database)
}

// Writes the layout. The last bytes wait in the writer.
fn write_layout<W: Write>(
    out: &mut PieceWriter<'_, W>,
    database: &Database,
) -> Result<(), WriteFault>
    ensures { Gathers W.contents out.old out.new (layout database.now) result }
{
    write_front(out, database)?;
    write_cells(out, database)?;
    write_entries(out, database)
}

/// Writes the layout of a database, with its journal, after what the writer has.
///
/// Writes up to 4,096 bytes at a time. Tries an interrupted write again, at most 1,000 times in a row. Does not flush the
/// writer. Does not allocate.
///
/// # Errors
///
/// A write failed, took nothing, or stayed interrupted. The writer then has the first part of the layout, and not all of
/// it.
pub fn encode<W: Write>(database: &Database, out: &mut W) -> Result<(), WriteFault>
    ensures { Writes (W.contents out.old) (W.contents out.new) (layout database.now) result }
{
    let mut pieces = PieceWriter::new(out);
    write_layout(&mut pieces, database)?;
    pieces.write_rest()
}

// Reads the pieces between the header and the entries.
fn read_body<R: Read + Drop>(
    input: &mut PieceReader<R>,
    build: &mut Rebuild,
) -> Result<(), FileFault>
    ensures steps { (bytes : List ℕ) → Stands bytes (Body build.old) input.old
        → Reaches bytes (λ x. Body build.new) input.new result }
    ensures done { OnOk result ((due build.new ≡ EntryDue) ⊎ (due build.new ≡ NothingDue)) }
{
    loop {
        match build.due() {
            Due::SourceDue => read_source(input, build)?,
            Due::HeadDue => read_settings(input, build)?,
            Due::PrepDue(_) => read_prep(input, build)?,
            Due::CellDue => read_cells(input, build)?,
            Due::EntryDue | Due::NothingDue => return Ok(()),
        }
    }
}

// Reads the entries.
fn read_entries<R: Read + Drop>(
    alloc: Global,
    input: &mut PieceReader<R>,
    build: &mut Rebuild,
) -> Result<(), FileFault>
    requires { (due build.old ≡ EntryDue) ⊎ (due build.old ≡ NothingDue) }
    ensures steps { (bytes : List ℕ) → Stands bytes (Body build.old) input.old
        → Reaches bytes (λ x. Body build.new) input.new result }
    ensures done { OnOk result (due build.new ≡ NothingDue) }
{
    while let Due::EntryDue = build.due() {
        read_entry(alloc, input, build)?;
    }
    Ok(())
}

// Checks that the input has ended.
fn read_end<R: Read + Drop>(input: &mut PieceReader<R>) -> Result<(), FileFault>
    ensures { (bytes : List ℕ) (f : Filed) → due f ≡ NothingDue → Stands bytes (Body f) input.old
        → Ends bytes f result }
{
    let at = input.at();
    if !input.is_at_end()? {
        return Err(FileFault::Trailing { at });
    }
    Ok(())
}

/// Reads the database whose layout the input is.
///
/// Reads up to 2,048 bytes at a time.
///
/// # Errors
/// The first fault in the order of the file's bytes:
/// - `NotOurs`: the first four bytes are not the mark.
/// - `Version`: the version is neither 1 nor 2.
/// - `BadBlock`: a piece of the header, the data sources, the archives or the cells breaks its rule.
/// - `BadEntry`: a piece of a journal entry breaks its rule.
/// - `Trailing`: a byte follows the last entry.
/// - `Truncated`: the input ends before a piece is complete.
///
/// Before that fault, at any time:
/// - `Read`: a read fails, or is interrupted 1,001 times in a row.
/// - `OutOfMemory`: memory runs out.
pub fn decode<R: Read + Drop>(alloc: Global, reader: R) -> Result<Database, FileFault>
    ensures { (bytes : List ℕ) → R.remaining reader ≡ Some bytes → IsAnswer bytes result }
{
    let mut input = PieceReader::new(alloc, reader)?;
    read_mark(&mut input)?;
    let version = read_version(&mut input)?;
    let mut build = read_header(alloc, &mut input, version)?;
    read_body(&mut input, &mut build)?;
    read_entries(alloc, &mut input, &mut build)?;
    read_end(&mut input)?;
    Ok(build.finish())
}
