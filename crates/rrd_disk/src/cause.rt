//! The reason why a run on a file failed: a call failed, or the file is not one of rrdi.
use std::cell::Cell;
use std::io::{self, Error};

/// The reason why the last call on a file failed, for the report of a run.
///
/// The storage of a file, its readers and its writers note the reasons, and the caller of a run asks for the last one.
#[derive(Drop)]
pub struct Cause {
    last: Cell<Option<Error>>,
    is_written: Cell<bool>,
    mark: Cell<[u8; 4]>,
}

impl Cause {
    /// Creates a value without a reason: no call has failed.
    pub fn new() -> Cause {
        Cause {
            last: Cell::new(None),
            is_written: Cell::new(false),
            mark: Cell::new([0; 4]),
        }
    }

    /// Returns why the last call failed. Returns `None` if no call failed.
    ///
    /// The kind `WouldBlock` means that another program held the lock for as long as the run waited. If nothing is noted
    /// after [`rrd_store::TaskFault::CannotOpen`], there is no file; after `CannotWrite`, memory ran out before the first
    /// call that writes.
    pub fn last(&self) -> Option<Error> {
        self.last.get()
    }

    /// Checks whether a database was written to the file.
    pub fn is_written(&self) -> bool {
        self.is_written.get()
    }

    /// Returns the first four bytes of the file that was refused because it is not one of rrdi: they show whose it is. They
    /// are zeros if no file was, or it came by a pipe.
    pub fn mark(&self) -> [u8; 4] {
        self.mark.get()
    }

    /// Notes how a file begins that is not one of rrdi.
    pub fn set_mark(&self, mark: [u8; 4]) {
        self.mark.set(mark);
    }

    /// Notes that a database was written, or why that failed.
    pub(crate) fn note_write(&self, ended: &io::Result<()>) {
        self.note(ended);
        if ended.is_ok() {
            self.is_written.set(true);
        }
    }

    /// Forgets why the last call failed.
    pub(crate) fn clear(&self) {
        self.last.set(None);
    }

    /// Notes why a call failed.
    pub fn set(&self, error: Error) {
        self.last.set(Some(error));
    }

    /// Notes why a call failed, if it failed.
    pub(crate) fn note<T>(&self, ended: &io::Result<T>) {
        if let Err(error) = ended {
            self.set(*error);
        }
    }
}
