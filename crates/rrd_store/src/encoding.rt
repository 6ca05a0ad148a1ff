//! The bytes of a file that stay in memory beside the database.
ghost use Rattle.std.specs.Prelude.{◌≡◌, IfSome, IsTrue, Option, Some, None, false, length, vec_len};
ghost use Rattle.rrd_file.specs.Encoded.{Encodes, Precedes, bytes_in};
ghost use Rattle.rrd_file.specs.Laws.{IsValidStored};
ghost use Rattle.rrd_file.specs.Spans.{AgreesOutside};
ghost use Rattle.rrd_tool.specs.Execution.{database_left, has_changed};
ghost use Rattle.rrd_store.specs.Encoding.{AreOf, IsBefore, IsBeforeCommand, IsOf, DiffersBy, MayReplace, encoded_by, encoded_in};
ghost use Rattle.rrd_store.specs.Sessions.{HasBytes};
ghost use Rattle.rrd_store.specs.Storages.{Held, IsAnyFile};

use crate::TaskFault;
use crate::differing::differing;
use rrd_base::{Database, database_is_valid};
use rrd_file::laws::{encoded_is_layout, layout_is_file};
use rrd_file::{Encoded, Span, Updated};
use rrd_tool::{ChangedBy, Outcome};
use std::alloc::Global;

/// Where the bytes of a file after a command may differ from those before it.
#[derive(Drop)]
pub(crate) enum Changed {
    /// Anywhere: the bytes before it are not known.
    Anywhere,
    /// In these spans alone.
    Within(Vec<Span>),
}

/// The bytes of a file after a command.
#[derive(Drop)]
pub(crate) struct Encoding {
    pub(crate) encoded: Encoded,
    pub(crate) changed: Changed,
}

/// Takes the bytes of the database that a command runs on, if there is one.
pub(crate) fn take_encoded(
    encoded: &mut Option<Encoded>,
    database: &Option<Database>,
) -> Option<Encoded>
    requires { AreOf encoded.old database.now }
    ensures encoded { IfSome result (λ e. IsOf e database.now) }
    ensures valid { IfSome database.now IsValidStored }
    ensures file { IfSome result (λ e. IsAnyFile (bytes_in e)) }
    ensures bytes { (held : Option Held) → HasBytes held encoded.old → HasBytes held result }
{
    encoded_is_layout();
    layout_is_file();
    match database {
        Some(database) => {
            database_is_valid(database);
            encoded.take()
        }
        None => None,
    }
}

// Encodes a database after as many updates as `updates`, whose bytes before them are `before`.
#[tactic(auto, using(crate::proofs::Encodings::may_differ))]
fn encode_updates(
    alloc: Global,
    before: Encoded,
    updates: u64,
    database: &Database,
) -> Option<Encoding>
    requires { Precedes before updates database.now }
    ensures of { IfSome result (λ e. Encodes e.encoded database.now) }
    ensures may { (held : Option Held) → HasBytes held (Some before) → IsAnyFile (bytes_in before) → IfSome result (MayReplace held) }
{
    let Updated { encoded, changed } = before.updated(alloc, updates, database)?;
    Some(Encoding {
        encoded,
        changed: Changed::Within(changed),
    })
}

// Returns where the bytes after a command differ from those before it, if these are known.
fn difference(alloc: Global, encoded: &Encoded, before: &Option<Encoded>) -> Option<Changed>
    ensures { (held : Option Held) → HasBytes held before.now → IfSome before.now (λ b. IsAnyFile (bytes_in b))
        → IfSome result (λ changed. DiffersBy changed held (bytes_in encoded.now)) }
{
    match before {
        None => Some(Changed::Anywhere),
        Some(before) => {
            let changed = differing(alloc, before.as_slice(), encoded.as_slice())?;
            Some(Changed::Within(changed))
        }
    }
}

/// Encodes a database after commands that may have changed all of its rows. `before` are the bytes before them, if they are
/// known. Returns `None` if memory runs out.
pub(crate) fn encode_all(
    alloc: Global,
    before: Option<Encoded>,
    database: &Database,
) -> Option<Encoding>
    ensures of { IfSome result (λ e. Encodes e.encoded database.now) }
    ensures may { (held : Option Held) → HasBytes held before → IfSome before (λ b. IsAnyFile (bytes_in b)) → IfSome result (MayReplace held) }
{
    let encoded = Encoded::new(alloc, database)?;
    let changed = difference(alloc, &encoded, &before)?;
    Some(Encoding { encoded, changed })
}

// Returns bytes that nothing has changed.
#[tactic(auto, using(crate::proofs::Encodings::may_stay))]
fn encode_same(alloc: Global, before: Encoded) -> Encoding
    ensures same { result.encoded ≡ before }
    ensures may { (held : Option Held) → HasBytes held (Some before) → IsAnyFile (bytes_in before) → MayReplace held result }
{
    Encoding {
        encoded: before,
        changed: Changed::Within(Vec::new(alloc)),
    }
}

/// Encodes a database after what has changed it, if anything. `before` are the bytes before that, if they are known. Returns
/// `None` if memory runs out.
pub(crate) fn encode_changed(
    alloc: Global,
    before: Option<Encoded>,
    changed_by: ChangedBy,
    database: &Database,
) -> Option<Encoding>
    requires { IfSome before (λ e. IsBefore e changed_by (Some database.now)) }
    ensures of { IfSome result (λ e. Encodes e.encoded database.now) }
    ensures may { (held : Option Held) → HasBytes held before → IfSome before (λ b. IsAnyFile (bytes_in b)) → IfSome result (MayReplace held) }
{
    match (before, changed_by) {
        (Some(before), ChangedBy::Nothing) => Some(encode_same(alloc, before)),
        (Some(before), ChangedBy::Updates(count)) => {
            encode_updates(alloc, before, count, database)
        }
        (before, _) => encode_all(alloc, before, database),
    }
}

// Returns bytes that a command did not change.
fn unchanged(before: Option<Encoded>) -> Option<Encoding>
    ensures same { encoded_in result ≡ before }
    ensures may { (held : Option Held) → IfSome result (MayReplace held) }
{
    match before {
        Some(encoded) => Some(Encoding {
            encoded,
            changed: Changed::Anywhere,
        }),
        None => None,
    }
}

/// Returns the bytes of the file after a command, which are `before` if the command changed nothing; `changed_by` says what
/// the command is otherwise. Returns `None` if there are none, or memory runs out.
pub(crate) fn encoded_after(
    alloc: Global,
    before: Option<Encoded>,
    changed_by: ChangedBy,
    outcome: &Outcome,
) -> Option<Encoding>
    requires { IfSome before (λ e. IsBeforeCommand e changed_by outcome.now) }
    ensures of { IfSome result (λ e. IsOf e.encoded (database_left outcome.now)) }
    ensures same { has_changed outcome.now ≡ false → encoded_in result ≡ before }
    ensures may { (held : Option Held) → HasBytes held before → IfSome before (λ b. IsAnyFile (bytes_in b)) → IfSome result (MayReplace held) }
{
    match outcome {
        Outcome::Printed(_) | Outcome::Refused { .. } => unchanged(before),
        Outcome::Changed(database) => encode_changed(alloc, before, changed_by, database),
    }
}

/// Returns the bytes that stay in memory after a command: none, if the storage could not be written, since nobody knows
/// what it has.
pub(crate) fn encoded_kept(
    encoding: Option<Encoding>,
    end: Result<(), TaskFault>,
) -> Option<Encoded>
    ensures { result ≡ encoded_by encoding end }
{
    if let Err(TaskFault::CannotWrite) = end {
        return None;
    }
    match encoding {
        Some(encoding) => Some(encoding.encoded),
        None => None,
    }
}
