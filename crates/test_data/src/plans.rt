//! Databases by the lines of commands that make them: a create and its changes.
use crate::command_of;
use rrd_base::{Database, Update};
use rrd_tool::{Command, Outcome, execute};
use std::alloc::Global;
use std::test::Fail;

// Steps of 10 seconds from time 0 on, the gauge `g` and an archive of four last values.
pub const NEW: &str = "create --step 10 --start 0 DS:g:GAUGE:100:U:U RRA:LAST:0.5:1:4";

// Does what a line says to a database, or makes one. The line has to be accepted.
pub fn done(alloc: Global, database: Option<Database>, line: &str) -> Result<Database, Fail> {
    let mut out = Vec::new(alloc);
    match execute(alloc, database, command_of(alloc, line)?, &mut out) {
        Outcome::Changed(database) => Ok(database),
        _ => Err(Fail::from("not changed")),
    }
}

// The database of a plan's lines.
pub fn made(alloc: Global, plan: &str) -> Result<Database, Fail> {
    let mut database = None;
    for line in plan.split('\n') {
        database = Some(done(alloc, database, line)?);
    }
    Ok(database.ok_or("no line")?)
}

// The update of a line.
pub fn update_of(alloc: Global, line: &str) -> Result<Update, Fail> {
    let Command::Update(update) = command_of(alloc, line)? else {
        return Err(Fail::from("no update"));
    };
    Ok(update)
}
