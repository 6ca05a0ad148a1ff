//! The storage of a database, which keeps the bytes of the database as a file does.
ghost use Rattle.std.specs.Prelude.{◌≡◌, Bool, Err, IfErr, IfOk, IsOk, IsTrue, List, None, Ok, OnErr, OnOk, Option, ℕ};
ghost use Rattle.rrd_store.specs.Sessions.{HasBytes};
ghost use Rattle.rrd_store.specs.Storages.{Becomes, DiffersWithin, Finds, Held, IsAfterFailure, IsAnyFile};

use crate::{Loaded, TaskFault};
use rrd_base::Database;
use rrd_file::Span;
use std::alloc::Global;
use std::io;

/// The access that a command needs to the storage.
#[derive(Clone, Copy, Debug, PartialEq, Eq)]
pub enum Access {
    /// Reads the bytes.
    Read,
    /// Reads the bytes, and may then replace them.
    ReadWrite,
}

/// The storage of a database: keeps bytes until all of them are replaced, as a file at a path does.
///
/// Others may use the same storage at other times.
///
/// Each clause is for each `s`: what the storage was before its first call, or `None` if nothing is assumed of that. A
/// storage whose bytes no proof can know has no contents for `None`, and is honest and sound then: the clauses say what
/// holds in any case. A storage in memory has the same contents for each `s`.
pub trait Storage {
    // The bytes that the storage represents, if known: the next `load` reads these bytes. The storage may have other
    // bytes, if `load` finds the bytes that they represent. Bytes that are not known do not become known.
    ghost contents: { Option Held → Self → Option Held };

    // All answers so far are those of a storage that does what its calls say.
    ghost is_honest: { Option Held → Self → Type 0 };

    // The bytes that the storage represents can be told from those that it has.
    ghost is_sound: { Option Held → Self → Type 0 };

    // Whatever a failure leaves of the storage now, it represents bytes of which `Q` holds, if the device had the bytes `d`
    // before the first call. A storage of which no failure is told is safe for each `Q`.
    ghost is_safe: { Option Held → List ℕ → (List ℕ → Bool) → Self → Type 0 };

    /// Reads the database. Returns `None` if nothing is stored.
    ///
    /// If a change was interrupted before, `load` may end the change or take the change back. Nobody else changes the
    /// bytes while they are read; after a `load` for [`Access::ReadWrite`] nobody else does until the change is
    /// written.
    ///
    /// # Errors
    ///
    /// - `CannotOpen`: the storage cannot be opened, or another program holds it.
    /// - `File`: the bytes are not a database, they could not be read to their end, or memory ran out.
    fn load(&mut self, alloc: Global, access: Access) -> Result<Option<Database>, TaskFault>
        ensures falls { (s : Option Held) → is_honest s self.new → is_honest s self.old }
        ensures safe { (s : Option Held) (d : List ℕ) (Q : List ℕ → Bool) → is_honest s self.new
            → is_safe s d Q self.old → is_safe s d Q self.new }
        ensures sound { (s : Option Held) → is_honest s self.new → is_sound s self.old → is_sound s self.new }
        ensures stays { (s : Option Held) → is_honest s self.new → is_sound s self.old
            → contents s self.new ≡ contents s self.old }
        ensures found { (s : Option Held) → is_honest s self.new → is_sound s self.old
            → Finds (contents s self.old) result };

    /// Reads the database for a change, as [`Storage::load`] does for [`Access::ReadWrite`], with the bytes of its file,
    /// if the storage has them in memory and needs them no more.
    ///
    /// # Errors
    ///
    /// As [`Storage::load`].
    fn load_to_update(&mut self, alloc: Global) -> Result<Loaded, TaskFault>
        ensures falls { (s : Option Held) → is_honest s self.new → is_honest s self.old }
        ensures safe { (s : Option Held) (d : List ℕ) (Q : List ℕ → Bool) → is_honest s self.new
            → is_safe s d Q self.old → is_safe s d Q self.new }
        ensures sound { (s : Option Held) → is_honest s self.new → is_sound s self.old → is_sound s self.new }
        ensures stays { (s : Option Held) → is_honest s self.new → is_sound s self.old
            → contents s self.new ≡ contents s self.old }
        ensures found { IfOk result (λ loaded. (s : Option Held) → is_honest s self.new → is_sound s self.old
            → Finds (contents s self.old) (Ok loaded.database)) }
        ensures fault { IfErr result (λ fault. (s : Option Held) → is_honest s self.new → is_sound s self.old
            → Finds (contents s self.old) (Err fault)) }
        ensures bytes { IfOk result (λ loaded. (s : Option Held) → is_honest s self.new → is_sound s self.old
            → HasBytes (contents s self.new) loaded.encoded) }
    {
        Ok(Loaded::without_bytes(self.load(alloc, Access::ReadWrite)?))
    }

    /// Replaces the bytes by the bytes of a database. If nothing is stored, creates the storage.
    ///
    /// # Errors
    ///
    /// The storage cannot be written, has no space for the new bytes, or a call failed. The storage has its old bytes;
    /// or the new bytes, if the call that failed was the last that counts or could not be taken back; or, if there was
    /// no database, bytes that are not a database.
    fn replace(&mut self, bytes: &[u8]) -> io::Result<()>
        requires { IsAnyFile bytes.now }
        ensures falls { (s : Option Held) → is_honest s self.new → is_honest s self.old }
        ensures sound { (s : Option Held) → is_honest s self.new → is_sound s self.old → is_sound s self.new }
        ensures safe { (s : Option Held) (d : List ℕ) (Q : List ℕ → Bool) → is_honest s self.new → IsTrue (Q bytes.now)
            → is_safe s d Q self.old → is_safe s d Q self.new }
        ensures stored { (s : Option Held) (d : List ℕ) (Q R : List ℕ → Bool) → IsOk result → is_honest s self.new
            → IsTrue (R bytes.now) → is_safe s d Q self.old → is_safe s d R self.new }
        ensures unknown { (s : Option Held) → contents s self.old ≡ None → contents s self.new ≡ None }
        ensures ok { OnOk result ((s : Option Held) → is_honest s self.new → is_sound s self.old
            → Becomes (contents s self.old) (contents s self.new) bytes.now) }
        ensures err { OnErr result ((s : Option Held) → is_honest s self.new → is_sound s self.old
            → IsAfterFailure (contents s self.old) (contents s self.new) bytes.now) };

    /// Replaces the bytes by the bytes of a database, as [`Storage::replace`] does, where the caller knows which bytes
    /// may differ.
    ///
    /// If the storage represents bytes of which one outside the spans `changed` differs from the new bytes, nothing is
    /// promised of what it represents afterwards: only a caller that knows the bytes may call this.
    ///
    /// # Errors
    ///
    /// As [`Storage::replace`].
    fn replace_where(&mut self, bytes: &[u8], changed: &[Span]) -> io::Result<()>
        requires { IsAnyFile bytes.now }
        ensures falls { (s : Option Held) → is_honest s self.new → is_honest s self.old }
        ensures sound { (s : Option Held) → is_honest s self.new → is_sound s self.old
            → DiffersWithin changed.now (contents s self.old) bytes.now → is_sound s self.new }
        ensures safe { (s : Option Held) (d : List ℕ) (Q : List ℕ → Bool) → is_honest s self.new
            → DiffersWithin changed.now (contents s self.old) bytes.now → IsTrue (Q bytes.now)
            → is_safe s d Q self.old → is_safe s d Q self.new }
        ensures stored { (s : Option Held) (d : List ℕ) (Q R : List ℕ → Bool) → IsOk result → is_honest s self.new
            → DiffersWithin changed.now (contents s self.old) bytes.now → IsTrue (R bytes.now)
            → is_safe s d Q self.old → is_safe s d R self.new }
        ensures unknown { (s : Option Held) → contents s self.old ≡ None → contents s self.new ≡ None }
        ensures ok { OnOk result ((s : Option Held) → is_honest s self.new → is_sound s self.old
            → DiffersWithin changed.now (contents s self.old) bytes.now
            → Becomes (contents s self.old) (contents s self.new) bytes.now) }
        ensures err { OnErr result ((s : Option Held) → is_honest s self.new → is_sound s self.old
            → DiffersWithin changed.now (contents s self.old) bytes.now
            → IsAfterFailure (contents s self.old) (contents s self.new) bytes.now) };
}
