//! The reason why a file could not be opened, read or written.
use crate::Explanation;
use std::alloc::Global;
use std::fmt::{self, Display, Formatter};
use std::io::{Error, ErrorKind};

/// The reason why a call on a file failed, and the time in milliseconds for which the run waited for a lock.
#[derive(Drop)]
struct Cause {
    error: Error,
    wait: u64,
}

impl Display for Cause {
    fn fmt<W: fmt::Write>(&self, f: &mut Formatter<W>) -> fmt::Result {
        match self.error.kind() {
            ErrorKind::NotFound => f.write_str("no such file or directory"),
            ErrorKind::PermissionDenied => f.write_str("permission denied"),
            ErrorKind::ReadOnlyFilesystem => f.write_str("read-only file system"),
            ErrorKind::StorageFull => f.write_str("no space left on device"),
            ErrorKind::QuotaExceeded => f.write_str("disk quota exceeded"),
            ErrorKind::FileTooLarge => f.write_str("file too large"),
            ErrorKind::IsADirectory => f.write_str("is a directory"),
            ErrorKind::NotADirectory => f.write_str("not a directory"),
            ErrorKind::WouldBlock => {
                let seconds = self.wait / 1_000;
                let unit = if seconds == 1 { "second" } else { "seconds" };
                write!(f, "in use by another program (waited {seconds} {unit})")
            }
            _ => write!(f, "{}", self.error),
        }
    }
}

/// Explains why the file at `path` could not be opened, read or written: `PATH: REASON`, or without a path `REASON`. `wait` is the time in milliseconds
/// for which the run waited for a lock.
///
/// Returns `None` if memory runs out.
pub fn explain_cause(alloc: Global, path: &str, error: Error, wait: u64) -> Option<Explanation> {
    let cause = Cause { error, wait };
    let text = if path.is_empty() {
        format!(in alloc; "{cause}").ok()?
    } else {
        format!(in alloc; "{path}: {cause}").ok()?
    };
    Explanation::new(alloc, &text).ok()
}
