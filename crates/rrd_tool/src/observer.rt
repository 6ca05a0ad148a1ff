//! Sees what is refused.
use crate::Fault;
use rrd_base::Database;

/// Sees the commands that are refused. Nothing that an observer does changes a run.
pub trait Observer {
    /// Sees the fault of the only command of a run, which was refused on this database.
    fn command_refused(&self, database: Option<&Database>, fault: Fault);

    /// Sees the fault of a line of a batch, which was refused on this database. The first line is 1; `text` is the line
    /// without its end, or `None` if the line is longer than 65,536 bytes, or has a byte that is neither tab nor printable
    /// ASCII.
    fn line_refused(
        &self,
        number: u64,
        text: Option<&[u8]>,
        database: Option<&Database>,
        fault: Fault,
    );
}

/// Sees nothing.
#[derive(Clone, Copy, Debug, PartialEq, Eq)]
pub struct Unobserved;

impl Observer for Unobserved {
    fn command_refused(&self, _database: Option<&Database>, _fault: Fault) {}

    fn line_refused(
        &self,
        _number: u64,
        _text: Option<&[u8]>,
        _database: Option<&Database>,
        _fault: Fault,
    ) {}
}
