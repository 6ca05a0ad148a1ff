//! `revert`: undoes the newest change (this project's own command).
ghost use Rattle.std.specs.Prelude.{List, Option, Some, ℕ};
ghost use Rattle.rrd_tool.specs.Words.{Executes};

use crate::Command;
use crate::execution::Outcome;
use rrd_base::Database;

/// Undoes the newest change.
pub(crate) fn run(mut database: Database) -> Outcome
    ensures { (c : Option (List ℕ)) → Executes (Some database) Command.Revert c c result }
{
    let reverted = database.revert();
    Outcome::of_change(database, reverted)
}
