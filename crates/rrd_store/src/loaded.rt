//! A database that was read from a storage, with the bytes of its file.
ghost use Rattle.std.specs.Prelude.{◌≡◌, None, Option, Some};
ghost use Rattle.rrd_file.specs.Faults.{IsFile};
ghost use Rattle.rrd_store.specs.Encoding.{AreOf};
ghost use Rattle.rrd_store.specs.Sessions.{HasBytes};
ghost use Rattle.rrd_store.specs.Storages.{Bytes, Held};

use rrd_base::Database;
use rrd_file::Encoded;

/// A database that was read from a storage, or `None` if nothing is stored there.
///
/// If the storage has read the bytes into memory, and they are of the newest version, they are here too: an update changes
/// them, and need not encode the whole database; any other change is compared with them, and only what differs is written.
#[derive(Drop)]
pub struct Loaded {
    /// The database.
    pub database: Option<Database>,
    /// The bytes of its file.
    pub encoded: Option<Encoded>,
    ghost encoded_is: { AreOf encoded database },
}

impl Loaded {
    /// Creates the result of a load that keeps no bytes.
    pub fn without_bytes(database: Option<Database>) -> Loaded
        ensures database { result.database ≡ database }
        ensures encoded { result.encoded ≡ None }
    {
        Loaded {
            database,
            encoded: None,
        }
    }

    /// Creates the result of a load that decoded these bytes.
    pub fn with_bytes(database: Database, bytes: Vec<u8>) -> Loaded
        requires { IsFile bytes.items database }
        ensures database { result.database ≡ Some database }
        ensures bytes { (held : Option Held) → held ≡ Some (Bytes bytes.items) → HasBytes held result.encoded }
    {
        let encoded = Encoded::of_file(bytes, &database);
        Loaded {
            database: Some(database),
            encoded,
        }
    }
}
