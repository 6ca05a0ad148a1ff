//! Reads and writes a stored database.
ghost use Rattle.std.specs.Prelude.{◌≡◌, Bool, IfSome, IsOk, IsTrue, List, None, Option, Some, ℕ};
ghost use Rattle.rrd_store.specs.Encoding.{MayReplace};
ghost use Rattle.rrd_store.specs.Storages.{Bytes, Decodes, DiffersWithin, Held, Replaces};
ghost use Rattle.rrd_file.specs.Encoded.{Encodes};
ghost use Rattle.rrd_file.specs.Layout.{layout};

use crate::encoding::{Changed, Encoding};
use crate::{Storage, TaskFault};
use rrd_base::{Database, database_is_valid};
use rrd_file::laws::layout_is_file;
use rrd_file::{Span, decode, encode, encoded_length};
use std::alloc::Global;

/// Decodes the database whose file the bytes are. A storage calls this with the bytes that it represents.
///
/// # Errors
///
/// `File`: the bytes are not a database, or memory ran out.
pub fn decoded(alloc: Global, bytes: &[u8]) -> Result<Database, TaskFault>
    ensures known { Decodes (Some (Bytes bytes.now)) result }
    ensures valid { Decodes None result }
{
    match decode(alloc, bytes) {
        Ok(database) => {
            database_is_valid(&database);
            Ok(database)
        }
        Err(fault) => Err(TaskFault::File(fault)),
    }
}

// Encodes a database. Returns `None` if memory runs out.
fn encoded(alloc: Global, database: &Database) -> Option<Vec<u8>>
    ensures { IfSome result (λ bytes. bytes.items ≡ layout database.now) }
{
    let mut bytes = Vec::with_capacity(alloc, encoded_length(database) as usize).ok()?;
    encode(database, &mut bytes).ok()?;
    Some(bytes)
}

// Replaces the bytes of a storage by these, which are those of a database.
fn put<P: Storage>(storage: &mut P, bytes: &[u8], database: &Database) -> Result<(), TaskFault>
    requires { bytes.now ≡ layout database.now }
    ensures falls { (s : Option Held) → P.is_honest s storage.new → P.is_honest s storage.old }
    ensures sound { (s : Option Held) → P.is_honest s storage.new → P.is_sound s storage.old
        → P.is_sound s storage.new }
    ensures safe { (s : Option Held) (d : List ℕ) (Q : List ℕ → Bool) → P.is_honest s storage.new
        → IsTrue (Q (layout database.now)) → P.is_safe s d Q storage.old → P.is_safe s d Q storage.new }
    ensures stored { (s : Option Held) (d : List ℕ) (Q R : List ℕ → Bool) → IsOk result → P.is_honest s storage.new
        → IsTrue (R (layout database.now)) → P.is_safe s d Q storage.old → P.is_safe s d R storage.new }
    ensures unknown { (s : Option Held) → P.contents s storage.old ≡ None → P.contents s storage.new ≡ None }
    ensures replaced { (s : Option Held) → P.is_honest s storage.new → P.is_sound s storage.old
        → Replaces (P.contents s storage.old) (P.contents s storage.new) (layout database.now) result }
{
    database_is_valid(database);
    layout_is_file();
    match storage.replace(bytes) {
        Ok(()) => Ok(()),
        Err(_) => Err(TaskFault::CannotWrite),
    }
}

// Replaces the bytes of a storage by these, which are those of a database, and differ in these spans alone.
fn put_where<P: Storage>(
    storage: &mut P,
    bytes: &[u8],
    changed: &[Span],
    database: &Database,
) -> Result<(), TaskFault>
    requires { bytes.now ≡ layout database.now }
    ensures falls { (s : Option Held) → P.is_honest s storage.new → P.is_honest s storage.old }
    ensures sound { (s : Option Held) → P.is_honest s storage.new → P.is_sound s storage.old
        → DiffersWithin changed.now (P.contents s storage.old) bytes.now → P.is_sound s storage.new }
    ensures safe { (s : Option Held) (d : List ℕ) (Q : List ℕ → Bool) → P.is_honest s storage.new
        → DiffersWithin changed.now (P.contents s storage.old) bytes.now
        → IsTrue (Q (layout database.now)) → P.is_safe s d Q storage.old → P.is_safe s d Q storage.new }
    ensures stored { (s : Option Held) (d : List ℕ) (Q R : List ℕ → Bool) → IsOk result → P.is_honest s storage.new
        → DiffersWithin changed.now (P.contents s storage.old) bytes.now
        → IsTrue (R (layout database.now)) → P.is_safe s d Q storage.old → P.is_safe s d R storage.new }
    ensures unknown { (s : Option Held) → P.contents s storage.old ≡ None → P.contents s storage.new ≡ None }
    ensures replaced { (s : Option Held) → P.is_honest s storage.new → P.is_sound s storage.old
        → DiffersWithin changed.now (P.contents s storage.old) bytes.now
        → Replaces (P.contents s storage.old) (P.contents s storage.new) (layout database.now) result }
{
    database_is_valid(database);
    layout_is_file();
    match storage.replace_where(bytes, changed) {
        Ok(()) => Ok(()),
        Err(_) => Err(TaskFault::CannotWrite),
    }
}

/// Replaces the bytes of a storage by those of a database, which are in memory.
pub(crate) fn store_encoded<P: Storage>(
    storage: &mut P,
    encoding: &Encoding,
    database: &Database,
) -> Result<(), TaskFault>
    requires { Encodes encoding.now.encoded database.now }
    ensures falls { (s : Option Held) → P.is_honest s storage.new → P.is_honest s storage.old }
    ensures sound { (s : Option Held) → P.is_honest s storage.new → P.is_sound s storage.old
        → MayReplace (P.contents s storage.old) encoding.now → P.is_sound s storage.new }
    ensures safe { (s : Option Held) (d : List ℕ) (Q : List ℕ → Bool) → P.is_honest s storage.new
        → MayReplace (P.contents s storage.old) encoding.now
        → IsTrue (Q (layout database.now)) → P.is_safe s d Q storage.old → P.is_safe s d Q storage.new }
    ensures stored { (s : Option Held) (d : List ℕ) (Q R : List ℕ → Bool) → IsOk result → P.is_honest s storage.new
        → MayReplace (P.contents s storage.old) encoding.now
        → IsTrue (R (layout database.now)) → P.is_safe s d Q storage.old → P.is_safe s d R storage.new }
    ensures unknown { (s : Option Held) → P.contents s storage.old ≡ None → P.contents s storage.new ≡ None }
    ensures replaced { (s : Option Held) → P.is_honest s storage.new → P.is_sound s storage.old
        → MayReplace (P.contents s storage.old) encoding.now
        → Replaces (P.contents s storage.old) (P.contents s storage.new) (layout database.now) result }
{
    let bytes = encoding.encoded.as_slice();
    match &encoding.changed {
        Changed::Anywhere => put(storage, bytes, database),
        Changed::Within(changed) => put_where(storage, bytes, changed, database),
    }
}

/// Replaces the bytes of a storage by those of a database.
pub(crate) fn store<P: Storage>(
    alloc: Global,
    storage: &mut P,
    database: &Database,
) -> Result<(), TaskFault>
    ensures falls { (s : Option Held) → P.is_honest s storage.new → P.is_honest s storage.old }
    ensures sound { (s : Option Held) → P.is_honest s storage.new → P.is_sound s storage.old
        → P.is_sound s storage.new }
    ensures safe { (s : Option Held) (d : List ℕ) (Q : List ℕ → Bool) → P.is_honest s storage.new
        → IsTrue (Q (layout database.now)) → P.is_safe s d Q storage.old → P.is_safe s d Q storage.new }
    ensures stored { (s : Option Held) (d : List ℕ) (Q R : List ℕ → Bool) → IsOk result → P.is_honest s storage.new
        → IsTrue (R (layout database.now)) → P.is_safe s d Q storage.old → P.is_safe s d R storage.new }
    ensures unknown { (s : Option Held) → P.contents s storage.old ≡ None → P.contents s storage.new ≡ None }
    ensures replaced { (s : Option Held) → P.is_honest s storage.new → P.is_sound s storage.old
        → Replaces (P.contents s storage.old) (P.contents s storage.new) (layout database.now) result }
{
    let Some(bytes) = encoded(alloc, database) else {
        return Err(TaskFault::CannotWrite);
    };
    put(storage, &bytes, database)
}
