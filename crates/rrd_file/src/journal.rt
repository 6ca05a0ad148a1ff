//! The entries of the journal, newest first: writing and reading.
ghost use Rattle.std.specs.Prelude.{◌≡◌, ◌≤◌, ◌∷◌, [], ℕ, IfOk, List, OnOk, length, take, true};
ghost use Rattle.rrd_file.specs.Names.{flat_map, due, limits, EntryDue, entry_of};
ghost use Rattle.rrd_file.specs.Words.{Gathers, HasOneMore, IsEntryOfSome, IsShaped, tag_said, entry_pieces, spelled, OfTag, Body, IsTagWithin, first_due, Brings, Closes, Reaches, Stands};

use crate::FileFault;
use crate::fault::{bad_entry, entry_fault};
use crate::layout::{TAG_SIZE, Tag, tag_of};
use crate::reader::PieceReader;
use crate::writer::PieceWriter;
use added_removed::{read_removed, write_added, write_removed};
use resize::{read_resize, write_resize};
use rrd_base::{Database, Entry, Rebuild, database_is_valid};
use rrd_fixed::WriteFault;
use std::alloc::Global;
use std::io::{Read, Write};
use tune::{read_tune, write_tune};
use update::{read_update, write_update};

mod added_removed;
mod resize;
mod rows;
mod tune;
mod update;

// Writes an entry.
fn write_entry<W: Write>(out: &mut PieceWriter<'_, W>, entry: &Entry) -> Result<(), WriteFault>
    requires { IsEntryOfSome (entry_of entry.now) }
    ensures { Gathers W.contents out.old out.new
        (spelled (entry_pieces (entry_of entry.now))) result }
{
    match entry {
        Entry::Update(before) => write_update(out, before),
        Entry::Tune(olds) => write_tune(out, olds.as_slice()),
        Entry::Resize { archive, old } => write_resize(out, *archive, old),
        Entry::Added => write_added(out),
        Entry::Removed { archive, old } => write_removed(out, *archive, old),
    }
}

/// Writes the newest entries, as many as `count`, newest first.
pub(crate) fn write_newest<W: Write>(
    out: &mut PieceWriter<'_, W>,
    database: &Database,
    count: u64,
) -> Result<(), WriteFault>
    requires { count ≤ length database.now.journal }
    ensures { Gathers W.contents out.old out.new
        (spelled (flat_map entry_pieces (take count database.now.journal))) result }
{
    // The prover needs that each entry is one of a valid content, so that its numbers fit their bytes.
    database_is_valid(database);
    for number in 0..count {
        write_entry(out, database.entry(number))?;
    }
    Ok(())
}

/// Writes all entries, newest first.
pub(crate) fn write_entries<W: Write>(
    out: &mut PieceWriter<'_, W>,
    database: &Database,
) -> Result<(), WriteFault>
    ensures { Gathers W.contents out.old out.new
        (spelled (flat_map entry_pieces database.now.journal)) result }
{
    write_newest(out, database, database.undoable())
}

// Returns whether the file's version has this tag: only the newest version has entries for added and removed archives.
fn is_within(tag: Tag, build: &Rebuild) -> bool
    ensures good { result ≡ true → IsTagWithin (limits build.now) (tag_said tag) }
    ensures bad { IsTagWithin (limits build.now) (tag_said tag) → result ≡ true }
{
    match tag {
        Tag::AnUpdate | Tag::ATune | Tag::AResize => true,
        Tag::AnAddition | Tag::ARemoval => build.validator().allows_archive_changes(),
    }
}

// Reads the tag of an entry.
fn read_tag<R: Read + Drop>(input: &mut PieceReader<R>, build: &Rebuild) -> Result<Tag, FileFault>
    requires { due build.now ≡ EntryDue }
    ensures { (bytes : List ℕ) → Stands bytes (Body build.now) input.old
        → Brings bytes build.now (λ tag. OfTag (tag_said tag) ∷ []) (λ tag. first_due (tag_said tag)) input.new result }
{
    let mut piece = [0u8; TAG_SIZE];
    input.piece(&mut piece)?;
    let Some(tag) = tag_of(piece[0]) else {
        return Err(bad_entry(build));
    };
    if !is_within(tag, build) {
        return Err(bad_entry(build));
    }
    Ok(tag)
}

// Reads all pieces of an entry.
fn read_untaken<R: Read + Drop>(
    alloc: Global,
    input: &mut PieceReader<R>,
    build: &Rebuild,
) -> Result<Entry, FileFault>
    requires { due build.now ≡ EntryDue }
    ensures closes { (bytes : List ℕ) → Stands bytes (Body build.now) input.old
        → Closes bytes build.now input.new result }
    ensures shaped { IfOk result (λ entry. IsShaped build.now (entry_of entry)) }
{
    match read_tag(input, build)? {
        Tag::AnUpdate => read_update(alloc, input, build),
        Tag::ATune => read_tune(input, build),
        Tag::AResize => read_resize(alloc, input, build),
        Tag::AnAddition => Ok(Entry::Added),
        Tag::ARemoval => read_removed(alloc, input, build),
    }
}

/// Reads an entry.
pub(crate) fn read_entry<R: Read + Drop>(
    alloc: Global,
    input: &mut PieceReader<R>,
    build: &mut Rebuild,
) -> Result<(), FileFault>
    requires { due build.old ≡ EntryDue }
    ensures steps { (bytes : List ℕ) → Stands bytes (Body build.old) input.old
        → Reaches bytes (λ x. Body build.new) input.new result }
    ensures one_more { OnOk result (HasOneMore build.old build.new) }
{
    let number = build.entries() + 1;
    let entry = read_untaken(alloc, input, build)?;
    match build.entry(entry) {
        Ok(()) => Ok(()),
        Err(fault) => Err(entry_fault(fault, number)),
    }
}
