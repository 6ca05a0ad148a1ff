//! The entry of a tune of data sources: writing and reading.
ghost use Rattle.std.specs.Prelude.{◌≡◌, ◌<◌, ◌≤◌, ◌^◌, ◌∷◌, [], ◌≢◌, ◌+◌, ◌++◌, ℕ, IfOk, IfSome, List, None, length, map};
ghost use Rattle.rrd_file.specs.Names.{AllByRecursion, TuneEntry, max_tuned, present, SavedSource, entry_of};
ghost use Rattle.rrd_file.specs.Words.{Gathers, HasSmallNumber, IsShaped, entry_pieces, spelled, ATune, OfCount, OfSavedSource, OfTag, Piece, spell, CountDue, DueInEntry, NamedDue, first_due, named_due, FitsSavedSource, Brings, Closes, Comes};

use crate::FileFault;
use crate::fault::bad_entry;
use crate::layout::{BEFORE_TUNE_SIZE, COUNT_SIZE, SETTINGS_SIZE, Tag, tag_byte};
use crate::reader::PieceReader;
use crate::source::def_of;
use crate::values::{raw_of, two_of};
use crate::writer::PieceWriter;
use arrayvec::ArrayVec;
use rrd_base::{Entry, EntryValidator, Rebuild, SavedSource};
use rrd_fixed::WriteFault;
use std::io::{Read, Write};

// Writes the tag of a tune, and the number of data sources that the tune named.
#[tactic(auto, unfolding(crate::specs::Layout::Pieces::spell))]
fn write_tuned<W: Write>(out: &mut PieceWriter<'_, W>, count: usize) -> Result<(), WriteFault>
    requires { count ≤ max_tuned }
    ensures { Gathers W.contents out.old out.new
        (spelled (OfTag ATune ∷ OfCount count ∷ [])) result }
{
    out.make_room()?;
    out.block.byte(tag_byte(Tag::ATune));
    out.block.two(count as u64);
    Ok(())
}

// Writes a data source before a tune.
#[tactic(auto, unfolding(crate::specs::Layout::Pieces::spell))]
fn write_saved_source<W: Write>(
    out: &mut PieceWriter<'_, W>,
    old: &SavedSource,
) -> Result<(), WriteFault>
    requires { old.now.number < 2 ^ 16 }
    ensures { Gathers W.contents out.old out.new
        (spell (OfSavedSource old.now)) result }
{
    out.make_room()?;
    out.block.two(old.number);
    out.block.source(&old.source);
    out.block.raw(old.raw);
    Ok(())
}

// Writes the data sources before a tune.
fn write_saved_sources<W: Write>(
    out: &mut PieceWriter<'_, W>,
    olds: &[SavedSource],
) -> Result<(), WriteFault>
    requires { AllByRecursion HasSmallNumber olds.now }
    ensures { Gathers W.contents out.old out.new
        (spelled (map OfSavedSource olds.now)) result }
{
    for i in 0..olds.len() {
        write_saved_source(out, &olds[i])?;
    }
    Ok(())
}

/// Writes the entry of a tune.
pub(super) fn write_tune<W: Write>(
    out: &mut PieceWriter<'_, W>,
    olds: &[SavedSource],
) -> Result<(), WriteFault>
    requires few { length olds.now ≤ max_tuned }
    requires numbers { AllByRecursion HasSmallNumber olds.now }
    ensures { Gathers W.contents out.old out.new
        (spelled (entry_pieces (TuneEntry olds.now))) result }
{
    write_tuned(out, olds.len())?;
    write_saved_sources(out, olds)
}

// Returns a data source before a tune.
fn saved_source_of(bytes: &[u8]) -> Option<SavedSource>
    requires { length bytes.now ≡ BEFORE_TUNE_SIZE }
    ensures some { IfSome result (λ old. FitsSavedSource old × (spell (OfSavedSource old) ≡ bytes.now)) }
    ensures none { result ≡ None → (old : SavedSource) → FitsSavedSource old
        → spell (OfSavedSource old) ≢ bytes.now }
{
    let (number, rest) = two_of(bytes);
    let (front, rest) = rest.split_at(SETTINGS_SIZE);
    let Some(source) = def_of(front) else {
        return None;
    };
    let (raw, _) = raw_of(rest);
    Some(SavedSource {
        number,
        source,
        raw,
    })
}

// Reads the number of data sources that a tune named, 1 to 5.
fn read_count<R: Read + Drop>(input: &mut PieceReader<R>, build: &Rebuild) -> Result<u64, FileFault>
    ensures brings { (bytes : List ℕ) (pieces : List Piece) (later : List DueInEntry)
        → Comes bytes build.now pieces (CountDue ∷ later) input.old
        → Brings bytes build.now (λ count. pieces ++ OfCount count ∷ []) (λ count. named_due 0 count ++ later)
        input.new result }
    ensures few { IfOk result (λ count. count ≤ max_tuned) }
{
    let mut piece = [0u8; COUNT_SIZE];
    input.piece(&mut piece)?;
    let (count, _) = two_of(&piece);
    if !EntryValidator::is_valid_tune_count(count) {
        return Err(bad_entry(build));
    }
    Ok(count)
}

// Reads a data source that a tune named, whose number is at least `lowest`.
fn read_named_source<R: Read + Drop>(
    input: &mut PieceReader<R>,
    build: &Rebuild,
    lowest: u64,
) -> Result<SavedSource, FileFault>
    ensures brings { (bytes : List ℕ) (pieces : List Piece) (more : ℕ)
        → Comes bytes build.now pieces (NamedDue lowest more ∷ []) input.old
        → Brings bytes build.now (λ old. pieces ++ OfSavedSource old ∷ []) (λ old. named_due (old.number + 1) more)
        input.new result }
    ensures few { IfOk result (λ old. old.number < present.max_sources) }
{
    let mut piece = [0u8; BEFORE_TUNE_SIZE];
    input.piece(&mut piece)?;
    let Some(old) = saved_source_of(&piece) else {
        return Err(bad_entry(build));
    };
    if !build.validator().is_valid_saved_source(lowest, &old) {
        return Err(bad_entry(build));
    }
    Ok(old)
}

/// Reads the pieces after the tag of a tune.
pub(super) fn read_tune<R: Read + Drop>(
    input: &mut PieceReader<R>,
    build: &Rebuild,
) -> Result<Entry, FileFault>
    ensures closes { (bytes : List ℕ) → Comes bytes build.now (OfTag ATune ∷ []) (first_due ATune) input.old
        → Closes bytes build.now input.new result }
    ensures shaped { IfOk result (λ entry. IsShaped build.now (entry_of entry)) }
{
    let count = read_count(input, build)?;
    let mut olds = ArrayVec::new();
    let mut lowest = 0;
    for _ in 0..count {
        let old = read_named_source(input, build, lowest)?;
        lowest = old.number + 1;
        olds.push(old);
    }
    Ok(Entry::Tune(olds))
}
