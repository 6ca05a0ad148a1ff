//! Files as the storage of databases: a file is opened, locked, read, repaired and changed by redo, as `rrd_change` orders the
//! calls. The caller provides the calls of the system, so that the program and a library for C write files by the same code.
#![tactic(auto)]

mod begun;
mod cause;
mod disk;
mod file_bytes;
mod front;
mod killed;
mod killed_open;
pub mod laws;
mod loading;
mod locks;
mod once;
mod open_file;
mod opening;
mod place;
mod preparing;
mod record;
mod runs;
mod settings;
mod storage;

pub use begun::Begun;
pub use cause::Cause;
pub use disk::{Disk, DiskFile, Facts, Kind, Lock, LockResult, Opening};
pub use killed::{Killed, run_batch_killed, run_command_killed};
pub use killed_open::{
    close_killed, load_open_killed, open_killed, run_lines_killed, run_open_killed,
    run_request_killed,
};
pub use locks::note_lock;
pub use open_file::{OpenFault, OpenFile};
pub use place::{Location, OwnPlace, Place, directory_of};
pub use record::{Noted, Record};
pub use rrd_change::Syncs;
pub use runs::{FileRun, run_batch_at, run_command_at};
pub use settings::Settings;
pub(crate) use storage::FileStorage;
