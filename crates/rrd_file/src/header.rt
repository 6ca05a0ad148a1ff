//! The mark, the version and the header of a file: writing and reading.
ghost use Rattle.std.specs.Prelude.{◌≡◌, ◌<◌, ◌≤◌, ◌∷◌, [], ◌+◌, ℕ, ◌++◌, List, length};
ghost use Rattle.rrd_file.specs.Names.{header_of, newest, header_said};
ghost use Rattle.rrd_file.specs.Words.{Gathers, spelled, Mark, OfHeader, OfVersion, count_bytes, spell, Body, Marked, Start, Versioned, count_size, header_size, Reaches, Stands, FitsHeader, counts};

use crate::FileFault;
use crate::fault::block_fault;
use crate::layout::{
    FIRST_HEADER_SIZE, MARK, MARK_SIZE, SECOND_HEADER_SIZE, VERSION_SIZE, version_number,
    version_of,
};
use crate::reader::PieceReader;
use crate::values::{eight_of, four_of, two_of};
use crate::writer::PieceWriter;
use rrd_base::{Database, Header, Rebuild, Version, database_is_valid};
use rrd_fixed::WriteFault;
use std::alloc::Global;
use std::io::{Read, Write};

/// Writes the mark, the version and the header.
#[tactic(auto, unfolding(crate::specs::Layout::Pieces::spell))]
pub(crate) fn write_header<W: Write>(
    out: &mut PieceWriter<'_, W>,
    database: &Database,
) -> Result<(), WriteFault>
    ensures { Gathers W.contents out.old out.new
        (spelled (Mark ∷ OfVersion newest ∷ OfHeader (header_of newest database.now) ∷ [])) result }
{
    database_is_valid(database);
    out.make_room()?;
    out.block.add(&MARK);
    out.block.two(version_number(Version::Two));
    out.block.four(database.step());
    out.block.eight(database.last());
    out.block.four(database.depth());
    out.block.two(database.sources());
    out.block.two(database.archives());
    out.block.four(database.undoable());
    Ok(())
}

/// Reads the mark.
pub(crate) fn read_mark<R: Read + Drop>(input: &mut PieceReader<R>) -> Result<(), FileFault>
    ensures { (bytes : List ℕ) → Stands bytes Start input.old → Reaches bytes (λ x. Marked) input.new result }
{
    let mut piece = [0u8; MARK_SIZE];
    input.piece(&mut piece)?;
    if piece != MARK {
        return Err(FileFault::NotOurs);
    }
    Ok(())
}

/// Reads the version.
pub(crate) fn read_version<R: Read + Drop>(input: &mut PieceReader<R>) -> Result<Version, FileFault>
    ensures { (bytes : List ℕ) → Stands bytes Marked input.old → Reaches bytes Versioned input.new result }
{
    let mut piece = [0u8; VERSION_SIZE];
    input.piece(&mut piece)?;
    let (number, _) = two_of(&piece);
    match version_of(number) {
        Some(version) => Ok(version),
        None => Err(FileFault::Version),
    }
}

// Returns a count in the header of a version, and the bytes after it.
fn count_of(version: Version, bytes: &[u8]) -> (u64, &[u8])
    requires { count_size version ≤ length bytes.now }
    ensures spelled { bytes.now ≡ count_bytes version result.0 ++ result.1.now }
    ensures small { result.0 < counts version }
    ensures room { length result.1.now + count_size version ≡ length bytes.now }
{
    match version {
        Version::One => two_of(bytes),
        Version::Two => four_of(bytes),
    }
}

/// Returns the number of bytes in a header of a version.
pub(crate) fn header_length(version: Version) -> usize
    ensures { result ≡ header_size version }
{
    match version {
        Version::One => FIRST_HEADER_SIZE,
        Version::Two => SECOND_HEADER_SIZE,
    }
}

// Returns the header of a version.
fn header_of(version: Version, bytes: &[u8]) -> Header
    requires { length bytes.now ≡ header_size version }
    ensures version { result.version ≡ version }
    ensures spelled { spell (OfHeader (header_said result)) ≡ bytes.now }
    ensures fits { FitsHeader (header_said result) }
{
    let (step, rest) = four_of(bytes);
    let (last, rest) = eight_of(rest);
    let (depth, rest) = count_of(version, rest);
    let (sources, rest) = two_of(rest);
    let (archives, rest) = two_of(rest);
    let (entries, _) = count_of(version, rest);
    Header {
        version,
        step,
        last,
        depth,
        sources,
        archives,
        entries,
    }
}

/// Reads the header, and starts the database.
pub(crate) fn read_header<R: Read + Drop>(
    alloc: Global,
    input: &mut PieceReader<R>,
    version: Version,
) -> Result<Rebuild, FileFault>
    ensures { (bytes : List ℕ) → Stands bytes (Versioned version) input.old
        → Reaches bytes Body input.new result }
{
    let at = input.at();
    let mut room = [0u8; SECOND_HEADER_SIZE];
    let piece = &mut room[..header_length(version)];
    input.piece(piece)?;
    match Rebuild::with_header(alloc, header_of(version, piece)) {
        Ok(build) => Ok(build),
        Err(fault) => Err(block_fault(fault, at)),
    }
}
