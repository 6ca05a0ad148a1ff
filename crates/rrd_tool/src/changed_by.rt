//! What has changed a database.
ghost use Rattle.std.specs.Prelude.{◌≡◌};
ghost use Rattle.rrd_tool.specs.Batch.Moved.{with_change};

/// What has changed a database.
#[derive(Clone, Copy, Debug, PartialEq, Eq)]
pub enum ChangedBy {
    /// Nothing.
    Nothing,
    /// Updates alone, as many as this: in each archive newer rows took the places of the oldest ones, and the journal got
    /// an entry of each update.
    Updates(u64),
    /// Other commands too.
    Anything,
}

impl ChangedBy {
    /// Returns what has changed the database after one more change: by an update, or by another command.
    pub fn and(self, is_update: bool) -> ChangedBy
        ensures { result ≡ with_change self is_update }
    {
        match self {
            ChangedBy::Nothing if is_update => ChangedBy::Updates(1),
            ChangedBy::Updates(count) if is_update => match count.checked_add(1) {
                Some(count) => ChangedBy::Updates(count),
                None => ChangedBy::Anything,
            },
            _ => ChangedBy::Anything,
        }
    }
}
