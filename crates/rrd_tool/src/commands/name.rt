//! The names of the commands.
ghost use Rattle.std.specs.Prelude.{◌≡◌};
ghost use Rattle.rrd_tool.specs.Names.{new_app};
ghost use Rattle.rrd_tool.specs.Words.{HasApp, name_in, name_text};

use crate::fields::{Worded, named};
use std::alloc::Global;

/// The name of a command.
#[derive(Clone, Copy)]
pub(crate) enum CommandName {
    Create,
    Update,
    Fetch,
    Tune,
    Resize,
    First,
    Last,
    LastUpdate,
    Info,
    Revert,
}

/// All names, in the order in which clap has them.
pub(crate) const NAMES: [CommandName; 10] = [
    CommandName::Create,
    CommandName::Update,
    CommandName::Fetch,
    CommandName::Tune,
    CommandName::Resize,
    CommandName::First,
    CommandName::Last,
    CommandName::LastUpdate,
    CommandName::Info,
    CommandName::Revert,
];

impl Worded for CommandName {
    ghost word_of = { name_text };

    fn word(self) -> &'static str {
        match self {
            CommandName::Create => "create",
            CommandName::Update => "update",
            CommandName::Fetch => "fetch",
            CommandName::Tune => "tune",
            CommandName::Resize => "resize",
            CommandName::First => "first",
            CommandName::Last => "last",
            CommandName::LastUpdate => "lastupdate",
            CommandName::Info => "info",
            CommandName::Revert => "revert",
        }
    }
}

impl CommandName {
    /// Returns the name that a word is; `None` for any other word.
    pub(crate) fn of(word: &str) -> Option<CommandName>
        ensures { result ≡ name_in word.now }
    {
        named(&NAMES, word)
    }

    /// Returns the shape of the command for clap, without its arguments.
    pub(crate) fn bare<'a>(self, alloc: Global) -> clap::Command<'a>
        ensures { HasApp (new_app (name_text self)) result }
    {
        let word: &'a str = self.word();
        clap::Command::new(alloc, word)
    }
}
