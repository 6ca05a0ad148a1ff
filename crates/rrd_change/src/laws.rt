//! Theorems about the bytes that a file with a mark stands for, and about what kills and failures of the power leave of a
//! change.
//!
//! Where a function runs code, its body is a part of the theorem: one that makes no call would keep most of these contracts
//! too. Otherwise a theorem is the contract of a function that does nothing. No other crate calls these functions.
ghost use Rattle.std.specs.Prelude.{◌≡◌, ℕ, List};
ghost use Rattle.rrd_change.specs.Changes.{Change};
ghost use Rattle.rrd_change.specs.Found.{database_of};
ghost use Rattle.rrd_change.specs.Laws as laws;
ghost use Rattle.rrd_change.specs.Outcomes.{AllStand, AllStandAsTold, IsEither, IsWhole, RepresentedStands};
ghost use Rattle.rrd_change.specs.Repairs.{IsFound, IsLeft, IsMarkedFor, LogEnd};
ghost use Rattle.rrd_change.specs.Settled.{settled};
ghost use Rattle.rrd_change.specs.Spans.{AgreesOutside};
ghost use Rattle.rrd_change.specs.States.{Began, IsAtRest, IsLogOf, IsMarked};
ghost use Rattle.rrd_change.specs.Views.{Does, World, seen};

use crate::{Base, Bytes, FoundDatabase, Layout, Log, Span, Syncs, replace};
use std::alloc::Global;
use std::io;

/// Theorem: a file with a log stands for what the changes of the log make of the old database.
#[tactic(auto, using(crate::proofs::Logs::log_stands))]
pub fn logs_stand()
    ensures { (end_of : List ℕ → ℕ) (old new : List ℕ) (tail : ℕ) (changes : List Change) (file : List ℕ) → laws.LogStands end_of old new tail changes file }
{}

/// Theorem: a change that is written whole behind a log is one more, and one that is cut short is none.
pub fn appends_count_whole()
    ensures whole { (old : List ℕ) (tail : ℕ) (changes : List Change) (c : Change) (file new : List ℕ) → laws.AppendIsOneMore old tail changes c file new }
    ensures cut { (old : List ℕ) (tail : ℕ) (changes : List Change) (c : Change) (file new : List ℕ) → laws.CutAppendIsNone old tail changes c file new }
{}

/// Theorem: bytes that the changes of a log say may be written in place, whatever a write leaves of them.
#[tactic(auto, using(crate::proofs::Laying::touched_said, crate::proofs::Logs::others_in_place))]
pub fn places_are_free()
    ensures said { (changes : List Change) (k : ℕ) → laws.TouchedAreSaid changes k }
    ensures others { (old new : List ℕ) (tail : ℕ) (changes : List Change) (file : List ℕ) → laws.OthersAreInPlace old new tail changes file }
    ensures keeps { (old : List ℕ) (tail : ℕ) (changes : List Change) (file new : List ℕ) → laws.WriteInPlaceKeeps old tail changes file new }
{}

/// Theorem: a file with a cut mark stands for the database with which its bytes begin.
#[tactic(auto, using(crate::proofs::Logs::cut_stands))]
pub fn cuts_stand()
    ensures { (end_of : List ℕ → ℕ) (bytes file : List ℕ) → laws.CutStands end_of bytes file }
{}

/// Theorem: the log mark commits the changes of a log that was written behind a database.
pub fn log_marks_begin()
    ensures { (old : List ℕ) (tail : ℕ) (changes : List Change) (file new : List ℕ) → laws.LogMarkBegins old tail changes file new }
{}

/// Theorem: whatever the power leaves of a change that is appended, the change is in the log or not.
#[tactic(auto, using(crate::proofs::Logs::torn_counts))]
pub fn torn_appends_count()
    ensures { (old : List ℕ) (tail : ℕ) (changes : List Change) (c : Change) (file torn : List ℕ) → laws.TornAppendIsWholeOrNone old tail changes c file torn }
{}

/// Theorem: a file that represents a database, as it is, or under a cut mark, or by a log, stands for it.
#[tactic(auto, using(crate::proofs::Outcomes::stands))]
pub fn represented_stand()
    ensures { (end_of : List ℕ → ℕ) (now file : List ℕ) → RepresentedStands end_of now file }
{}

/// Replaces a database by `new`.
///
/// Theorem: whatever a kill or a failure of the power leaves of the file stands for the old database or for the new one,
/// also if calls failed or were cut short, syncs too. After a change without an error it stands for the new one.
///
/// # Errors
///
/// As [`replace`].
pub fn changes_stand<F: Bytes>(
    alloc: Global,
    file: &mut F,
    base: &Base,
    new: &[u8],
    changed: &[Span],
    syncs: Syncs,
) -> io::Result<()>
    ensures { Does
        (λ _ (w v : World). (end_of : List ℕ → ℕ) (old : List ℕ) → IsWhole end_of old → IsWhole end_of new.now → Began base.now old → AgreesOutside changed.now old new.now → IsAtRest old w
        → AllStand end_of (λ b. b ≡ new.now) v)
        (λ (w v : World). (end_of : List ℕ → ℕ) (old : List ℕ) → IsWhole end_of old → IsWhole end_of new.now → Began base.now old → AgreesOutside changed.now old new.now → IsAtRest old w
        → AllStand end_of (IsEither old new.now) v) result
        (seen syncs (F.view file.old)) (seen syncs (F.view file.new)) }
{
    replace(alloc, file, base, new, changed, syncs)
}

/// Appends a change to the log of a file that stays open.
///
/// Theorem: whatever a kill or a failure of the power leaves of the file stands for the database before the change or for
/// the one after it, also if calls failed or were cut short, syncs too. After an append without an error it stands for the
/// new one.
///
/// # Errors
///
/// As [`Log::append`].
pub fn appends_stand<F: Bytes>(
    alloc: Global,
    file: &mut F,
    log: &mut Log,
    new: &[u8],
    changed: &[Span],
    syncs: Syncs,
) -> io::Result<()>
    ensures { Does
        (λ _ (w v : World). (end_of : List ℕ → ℕ) (now : List ℕ) → IsWhole end_of now → IsWhole end_of new.now → IsLogOf now log.old w → AgreesOutside changed.now now new.now
        → AllStand end_of (λ b. b ≡ new.now) v)
        (λ (w v : World). (end_of : List ℕ → ℕ) (now : List ℕ) → IsWhole end_of now → IsWhole end_of new.now → IsLogOf now log.old w → AgreesOutside changed.now now new.now
        → AllStandAsTold end_of (IsEither now new.now) v) result
        (seen syncs (F.view file.old)) (seen syncs (F.view file.new)) }
{
    log.append(alloc, file, new, changed, syncs)
}

/// Brings the changes of a log into place.
///
/// Theorem: whatever a kill or a failure of the power leaves of the file stands for the same database, also if calls failed
/// or were cut short, syncs too.
///
/// # Errors
///
/// As [`Log::settle`].
pub fn settled_logs_stand<F: Bytes>(
    file: &mut F,
    log: &Log,
    new: &[u8],
    syncs: Syncs,
) -> io::Result<()>
    ensures { Does (λ _ (w v : World). (end_of : List ℕ → ℕ) → IsWhole end_of new.now → IsLogOf new.now log.now w → AllStand end_of (λ b. b ≡ new.now) v)
        (λ (w v : World). (end_of : List ℕ → ℕ) → IsWhole end_of new.now → IsLogOf new.now log.now w → AllStand end_of (λ b. b ≡ new.now) v) result
        (seen syncs (F.view file.old)) (seen syncs (F.view file.new)) }
{
    log.settle(file, new, syncs)
}

/// Repairs the file in which a database was found.
///
/// Theorem: after a failure of the power, whatever a kill or another failure of the power leaves of the file stands for the
/// same database, also if calls failed or were cut short, syncs too. After a kill, or after a call that failed, so does the
/// file that programs read; the disk may still have the other database of the change that had stopped, until the repair ends
/// well. What is left can be read and repaired again, as often as that fails.
///
/// # Errors
///
/// As [`FoundDatabase::repair`].
pub fn repairs_stand<F: Bytes>(file: &mut F, found: &FoundDatabase, syncs: Syncs) -> io::Result<()>
    ensures alone { Does
        (λ _ (w v : World). (end_of : List ℕ → ℕ) (now : List ℕ) → IsWhole end_of now → database_of found.now ≡ now → IsMarkedFor now found.now.mark w → AllStand end_of (λ b. b ≡ now) v)
        (λ (w v : World). (end_of : List ℕ → ℕ) (now : List ℕ) → IsWhole end_of now → database_of found.now ≡ now → IsMarkedFor now found.now.mark w → AllStand end_of (λ b. b ≡ now) v)
        result (seen syncs (F.view file.old)) (seen syncs (F.view file.new)) }
    ensures left { Does
        (λ _ (w v : World). (end_of : List ℕ → ℕ) (end : LogEnd) (other now : List ℕ) → IsWhole end_of now → database_of found.now ≡ now → IsFound end other now found.now.mark w
        → AllStand end_of (λ b. b ≡ now) v)
        (λ (w v : World). (end_of : List ℕ → ℕ) (end : LogEnd) (other now : List ℕ) → IsWhole end_of other → IsWhole end_of now → database_of found.now ≡ now
        → IsFound end other now found.now.mark w → (settled end_of v.held ≡ now) × AllStandAsTold end_of (IsEither other now) v)
        result (seen syncs (F.view file.old)) (seen syncs (F.view file.new)) }
{
    found.repair(file, syncs)
}

/// Finds the database that a file stands for, and repairs the file. `bytes` are those that programs read.
///
/// Theorem: whatever kills, calls that failed and syncs that failed have left of a change, a repair that ends well leaves the
/// database at rest that programs read, on the disk too. One that fails, or is killed, leaves such a file again, of which
/// programs read the same database.
///
/// # Errors
///
/// Memory ran out, or as [`FoundDatabase::repair`].
pub fn repairs_lead_to_rest<F: Bytes, L: Layout>(
    alloc: Global,
    file: &mut F,
    layout: &L,
    bytes: Vec<u8>,
    syncs: Syncs,
) -> io::Result<()>
    ensures { Does (λ _ (w v : World). (end : LogEnd) (other now : List ℕ) → IsWhole L.end_of now → w.held ≡ bytes.items → IsLeft end other now w → IsAtRest now v)
        (λ (w v : World). (end : LogEnd) (other now : List ℕ) → IsWhole L.end_of now → w.held ≡ bytes.items → IsLeft end other now w → IsLeft end other now v) result
        (seen syncs (F.view file.old)) (seen syncs (F.view file.new)) }
{
    let found = FoundDatabase::read(alloc, layout, bytes)?;
    found.repair(file, syncs)
}
