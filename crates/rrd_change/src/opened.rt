//! Files that stay open: a log is kept, so that a further change is one append.
ghost use Rattle.std.specs.Prelude.{◌≡◌, ◌+◌, ◌<◌, ◌-◌, ◌*◌, ℕ, IfOk, IfSome, List, Option, length, max, min};
ghost use Rattle.rrd_change.specs.Spans.{AgreesOutside};
ghost use Rattle.rrd_change.specs.Repairs.{IsLeft, IsStopped, LogEnd, Torn};
ghost use Rattle.rrd_change.specs.States.{Began, IsKept, IsLogOf, IsMarked};
ghost use Rattle.rrd_change.specs.Views.{Does, World, seen};

use crate::finding::with_log;
use crate::log::MOST_CHANGES;
use crate::{Base, Bytes, Log, Span, Syncs, begin};
use std::alloc::Global;
use std::io;

// The most bytes that are left free in front of a log.
const MOST_ROOM: usize = 65_536;

// Brings the changes of a log into place if there are enough of them. Returns the log otherwise.
fn keep<F: Bytes>(file: &mut F, log: Log, new: &[u8], syncs: Syncs) -> io::Result<Option<Log>>
    ensures few { IfOk result (λ kept. IfSome kept (λ rest. rest.changes < 16)) }
    ensures does { Does (λ kept (w v : World). IsLogOf new.now log w → IsKept new.now kept v) (λ (w v : World). (end : LogEnd) (other : List ℕ) → IsLogOf new.now log w → IsLeft end other new.now v) result
        (seen syncs (F.view file.old)) (seen syncs (F.view file.new)) }
{
    if !log.is_due() {
        return Ok(Some(log));
    }
    log.settle(file, new, syncs)?;
    Ok(None)
}

// Settles a log that is too short for the next database. The file then is the database before the change, under a cut mark.
fn make_room<F: Bytes>(alloc: Global, file: &mut F, log: &Log, syncs: Syncs) -> io::Result<()>
    ensures { Does (λ _ (w v : World). (now : List ℕ) → IsLogOf now log.now w → IsMarked now v) (λ (w v : World). (end : LogEnd) (other now : List ℕ) → IsLogOf now log.now w → IsLeft end other now v) result
        (seen syncs (F.view file.old)) (seen syncs (F.view file.new)) }
{
    let mut bytes = Vec::new(alloc);
    file.read(0, log.end, &mut bytes)?;
    let found = with_log(alloc, bytes, log.tail)?;
    log.settle(file, found.database(), syncs)
}

// Returns how many bytes to leave free in front of a log that begins with a change to `new`. A database that grows by as many
// bytes at each further change fits there until the log is due: it does not have to be brought into place before.
fn room_for(base: &Base, new: &[u8]) -> usize
    ensures { result ≡ min (15 * (length new.now - base.now.length)) 65536 }
{
    let growth = new.len().saturating_sub(base.length);
    growth.saturating_mul(MOST_CHANGES - 1).min(MOST_ROOM)
}

// Appends a change to the log, or begins a log with it if there is none, or none that leaves the database enough room.
fn commit<F: Bytes>(
    alloc: Global,
    file: &mut F,
    log: Option<Log>,
    base: &Base,
    new: &[u8],
    changed: &[Span],
    syncs: Syncs,
) -> io::Result<Log>
    ensures room { IfSome log (λ kept. kept.tail < length new.now) → IfOk result (λ next. next.tail ≡ max base.now.length (length new.now) + min (15 * (length new.now - base.now.length)) 65536) }
    ensures does { Does (λ next (w v : World). (now : List ℕ) → Began base.now now → AgreesOutside changed.now now new.now → IsKept now log w → IsLogOf new.now next v)
        (λ (w v : World). (now : List ℕ) → Began base.now now → AgreesOutside changed.now now new.now → IsKept now log w → IsStopped Torn now new.now v) result
        (seen syncs (F.view file.old)) (seen syncs (F.view file.new)) }
{
    let room = room_for(base, new);
    let Some(mut kept) = log else {
        return begin(alloc, file, base, new, changed, room, syncs);
    };
    if kept.has_room(new.len()) {
        kept.append(alloc, file, new, changed, syncs)?;
        return Ok(kept);
    }
    make_room(alloc, file, &kept, syncs)?;
    begin(alloc, file, base, new, changed, room, syncs)
}

/// Changes a file that stays open: it stands for `new` afterwards. The first change begins a log, a further one is one
/// append, and after sixteen all are brought into place; so they are before a database that would reach into the log, for
/// which a new log begins. If the first change makes the database longer, the log has room for fifteen more changes by as
/// many bytes, up to 65,536 bytes. The file needs a mark before the first change ([`crate::mark`]).
///
/// `log` is what the call before has returned, and `base` is how the database began before this change. Each byte of `new`
/// that is in none of the spans `changed` must also be the byte of the database there, at the same offset.
///
/// # Errors
///
/// A call of the file failed, memory ran out, `new` is no database, or a span is not within it. The file stands for the
/// database before the change or after it, and must be repaired before it is changed again.
pub fn change<F: Bytes>(
    alloc: Global,
    file: &mut F,
    log: Option<Log>,
    base: &Base,
    new: &[u8],
    changed: &[Span],
    syncs: Syncs,
) -> io::Result<Option<Log>>
    ensures few { IfOk result (λ kept. IfSome kept (λ rest. rest.changes < 16)) }
    ensures does { Does (λ kept (w v : World). (now : List ℕ) → Began base.now now → AgreesOutside changed.now now new.now → IsKept now log w → IsKept new.now kept v)
        (λ (w v : World). (now : List ℕ) → Began base.now now → AgreesOutside changed.now now new.now → IsKept now log w → IsStopped Torn now new.now v) result
        (seen syncs (F.view file.old)) (seen syncs (F.view file.new)) }
{
    let next = commit(alloc, file, log, base, new, changed, syncs)?;
    keep(file, next, new, syncs)
}
