//! The data sources of a file: writing and reading. Each has its settings, its last raw value and its partial step.
ghost use Rattle.std.specs.Prelude.{◌≡◌, ◌+◌, ◌<◌, ◌≤◌, ℕ, ◌++◌, ◌≢◌, IfSome, List, None, OnOk, Some, length, map, slice_get};
ghost use Rattle.rrd_file.specs.Names.{Source, filed, newest, DsDef, due, SourceDue};
ghost use Rattle.rrd_file.specs.Words.{spelled, OfRawAndPart, OfSource, spell, Gathers, FitsDef, FitsPart, FitsRaw, FitsSource, Body, source_said, Advances, Reaches, Stands};
ghost use Rattle.rrd_file.specs.Layout.Values as spelling;

use crate::FileFault;
use crate::fault::block_fault;
use crate::layout::{BEFORE_UPDATE_SIZE, NAME_SIZE, SETTINGS_SIZE, SOURCE_SIZE};
use crate::reader::PieceReader;
use crate::values::{bound_of, eight_of, kind_byte, kind_of, name_of, part_of, raw_of};
use crate::writer::{BLOCK_SIZE, Block, PieceWriter};
use rrd_base::{Database, DsDef, Rebuild, database_is_valid};
use rrd_fixed::{Raw, WriteFault};
use std::io::{Read, Write};

impl Block {
    /// Adds the settings of a data source.
    pub(crate) fn source(&mut self, source: &DsDef)
        requires { length self.old + SETTINGS_SIZE ≤ BLOCK_SIZE }
        ensures bytes { self.new ≡ self.old ++ spelling.source_bytes source.now }
        ensures room { length self.new ≡ length self.old + SETTINGS_SIZE }
    {
        self.name(&source.name);
        self.byte(kind_byte(source.kind));
        self.eight(source.heartbeat);
        self.bound(source.min);
        self.bound(source.max);
    }
}

// Writes a data source, with its last raw value and its partial step.
#[tactic(auto, unfolding(crate::specs::Layout::Pieces::spell))]
fn write_source<W: Write>(
    out: &mut PieceWriter<'_, W>,
    database: &Database,
    number: u64,
) -> Result<(), WriteFault>
    requires { number < length database.now.content.sources }
    ensures { (s : Source) → slice_get (filed newest database.now).sources number ≡ Some s
        → Gathers W.contents out.old out.new (spell (OfSource s)) result }
{
    let prep = database.step_prep(number);
    out.make_room()?;
    out.block.source(database.source(number));
    out.block.raw(database.last_raw(number));
    out.block.part(prep.known(), prep.sum());
    Ok(())
}

/// Writes all data sources.
pub(crate) fn write_sources<W: Write>(
    out: &mut PieceWriter<'_, W>,
    database: &Database,
) -> Result<(), WriteFault>
    ensures { Gathers W.contents out.old out.new
        (spelled (map OfSource (filed newest database.now).sources)) result }
{
    // The prover needs that each data source has a raw value and a partial step.
    database_is_valid(database);
    for number in 0..database.sources() {
        write_source(out, database, number)?;
    }
    Ok(())
}

/// Returns the settings of a data source.
pub(crate) fn def_of(bytes: &[u8]) -> Option<DsDef>
    requires { length bytes.now ≡ SETTINGS_SIZE }
    ensures some { IfSome result (λ def. FitsDef def × (spelling.source_bytes def ≡ bytes.now)) }
    ensures none { result ≡ None → (def : DsDef) → FitsDef def → spelling.source_bytes def ≢ bytes.now }
{
    let (front, rest) = bytes.split_at(NAME_SIZE);
    let Some(name) = name_of(front) else {
        return None;
    };
    let (first, rest) = rest.split_at(1);
    let Some(kind) = kind_of(first[0]) else {
        return None;
    };
    let (heartbeat, rest) = eight_of(rest);
    let (min, rest) = bound_of(rest);
    let (max, _) = bound_of(rest);
    Some(DsDef {
        name,
        kind,
        heartbeat,
        min,
        max,
    })
}

/// Returns a data source before an update: its raw value, and the count and sum of its partial step.
pub(crate) fn before_of(bytes: &[u8]) -> (Raw, u64, i128)
    requires { length bytes.now ≡ BEFORE_UPDATE_SIZE }
    ensures spelled { spell (OfRawAndPart result.0 (record { known = result.1; value = result.2 })) ≡ bytes.now }
    ensures raw { FitsRaw result.0 }
    ensures part { FitsPart (record { known = result.1; value = result.2 }) }
{
    let (raw, rest) = raw_of(bytes);
    let (known, value, _) = part_of(rest);
    (raw, known, value)
}

/// A data source with its last raw value, and the count and sum of its partial step.
#[derive(Drop)]
struct SourceRead {
    def: DsDef,
    raw: Raw,
    known: u64,
    sum: i128,
}

// Returns a data source.
fn source_of(bytes: &[u8]) -> Option<SourceRead>
    requires { length bytes.now ≡ SOURCE_SIZE }
    ensures some { IfSome result
        (λ s. FitsSource (source_said s) × (spell (OfSource (source_said s)) ≡ bytes.now)) }
    ensures none { result ≡ None → (source : Source) → FitsSource source → spell (OfSource source) ≢ bytes.now }
{
    let (front, rest) = bytes.split_at(SETTINGS_SIZE);
    let Some(def) = def_of(front) else {
        return None;
    };
    let (raw, known, sum) = before_of(rest);
    Some(SourceRead {
        def,
        raw,
        known,
        sum,
    })
}

/// Reads a data source, with its last raw value and its partial step.
pub(crate) fn read_source<R: Read + Drop>(
    input: &mut PieceReader<R>,
    build: &mut Rebuild,
) -> Result<(), FileFault>
    requires { due build.old ≡ SourceDue }
    ensures steps { (bytes : List ℕ) → Stands bytes (Body build.old) input.old
        → Reaches bytes (λ x. Body build.new) input.new result }
    ensures advanced { OnOk result (Advances input.old input.new) }
{
    let at = input.at();
    let mut piece = [0u8; SOURCE_SIZE];
    input.piece(&mut piece)?;
    let Some(
        SourceRead {
            def,
            raw,
            known,
            sum,
        },
    ) = source_of(&piece)
    else {
        return Err(FileFault::BadBlock { at });
    };
    match build.source(def, raw, known, sum) {
        Ok(()) => Ok(()),
        Err(fault) => Err(block_fault(fault, at)),
    }
}
