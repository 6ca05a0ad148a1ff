//! Theorems on the layout alone. Each is the contract of a function that does nothing at run time.
ghost use Rattle.std.specs.Prelude.{ℕ, List};
ghost use Rattle.rrd_file.specs.Names.{DatabaseChange, Stored, Version};
ghost use Rattle.rrd_file.specs.Words.{Encoded, FileFault};
ghost use Rattle.rrd_file.specs.Laws as laws;
ghost use Rattle.rrd_file.specs.Examples as worked;

use rrd_spec::laws::{
    cells_stand_in_slots, databases_are_filed_once, outlines_follow, outlines_judge_journals,
    revert_takes_back, versions_stay_within,
};

/// Theorem: the definition gives two known files, byte by byte.
pub fn examples()
    ensures new { worked.NewFile }
    ensures sampled { worked.SampledFile }
{}

/// Theorem: a piece that may come has as many bytes as are due.
pub fn sizes()
    ensures { laws.PiecesHaveTheirSize }
{}

/// Theorem: no two pieces that may come at a stage of a file have the same bytes.
pub fn one_spelling()
    ensures { laws.PiecesHaveOneSpelling }
{}

/// Theorem: no two entries that may come after the same pieces have the same pieces.
pub fn one_entry()
    ensures { laws.EntriesHaveOneSpelling }
{}

/// Theorem: values that fit their bytes, and have the same bytes, are equal.
pub fn one_value()
    ensures { laws.ValuesHaveOneSpelling }
{}

/// Theorem: the file of a database is its layout.
pub fn file_is_layout()
    ensures { (bytes : List ℕ) (d : Stored) → laws.FileIsLayout bytes d }
{}

/// Theorem: the bytes that stay in memory for a database are its layout.
pub fn encoded_is_layout()
    ensures { (encoded : Encoded) (d : Stored) → laws.EncodedIsLayout encoded d }
{}

/// Theorem: an input has one result, except for failures of the reader and of memory.
pub fn one_answer()
    ensures { (bytes : List ℕ) → laws.HasOneAnswer bytes }
{
    databases_are_filed_once();
}

/// Theorem: if a first part of an input has a fault, the input has the same fault.
///
/// Except the faults that the end of the input, the reader or memory gives.
pub fn front_has_the_fault()
    ensures { (front rest : List ℕ) (fault : FileFault) → laws.FrontHasTheFault front rest fault }
{}

/// Theorem: the file of a database has at least 16 bytes, and begins with the letters RRDI.
pub fn file_begins()
    ensures { (bytes : List ℕ) (d : Stored) → laws.FileBegins bytes d }
{}

/// Theorem: the layout of a valid database, in each version, is the file of that database, and of no other.
pub fn layout_is_file()
    ensures read { (version : Version) (d : Stored) → laws.LayoutIsItsFile version d }
    ensures no_other { (version : Version) (d : Stored) → laws.LayoutIsNoOther version d }
{
    cells_stand_in_slots();
    databases_are_filed_once();
    outlines_follow();
    outlines_judge_journals();
    versions_stay_within();
}

/// Theorem: different valid databases have different layouts, and no layout is a prefix of another.
///
/// The theorem holds within one version and between two.
pub fn layouts_differ()
    ensures { (v w : Version) (d e : Stored) (more : List ℕ) → laws.NoFrontOfAnother v w d e more }
{
    cells_stand_in_slots();
    databases_are_filed_once();
    outlines_follow();
    outlines_judge_journals();
    versions_stay_within();
}

/// Theorem: the end of the file of a database is found, whatever bytes follow it.
pub fn ends_are_found()
    ensures { (bytes : List ℕ) (d : Stored) → laws.EndIsFound bytes d }
{
    cells_stand_in_slots();
    outlines_judge_journals();
    versions_stay_within();
}

/// Theorem: a revert of an accepted command restores the file, byte by byte.
///
/// The oldest entry of a full journal is lost.
pub fn revert_restores_bytes()
    ensures whole { (d : Stored) (command : DatabaseChange) → laws.RevertRestoresBytes d command }
    ensures full { (d : Stored) (command : DatabaseChange) → laws.RevertRestoresBytesButOldest d command }
{
    revert_takes_back();
}
