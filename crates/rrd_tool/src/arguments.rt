//! The arguments as clap takes them, and the words as clap parses them.
ghost use Rattle.std.specs.Prelude.{◌≡◌, IfOk, false, map, option_map};
ghost use Rattle.rrd_tool.specs.Names.{App, all_of, app_of, first_of, found_of, rows_of, rule_of};
ghost use Rattle.rrd_tool.specs.Words.{HasApp, IsParsedBy, Serves, app_with, bare_top, letter_rule, many_rule, option_rule, required_rule, word_rule};

use crate::{LineFault, Words};
use clap::error::ErrorKind;
use clap::{Arg, ArgAction, ArgMatches};
use std::alloc::{AllocError, Global};

/// Returns the shape of an option `--long VALUE`.
pub(crate) fn option_arg<'a>(alloc: Global, id: &'a str, long: &'a str) -> Arg<'a>
    ensures rule { rule_of result ≡ option_rule id.entry.now long.entry.now }
    ensures local { result.global ≡ false }
{
    Arg::new(alloc, id).long(long)
}

/// Returns the shape of an option `--long VALUE` or `-letter VALUE`.
pub(crate) fn letter_arg<'a>(alloc: Global, id: &'a str, long: &'a str, letter: char) -> Arg<'a>
    ensures rule { rule_of result ≡ letter_rule id.entry.now long.entry.now letter }
    ensures local { result.global ≡ false }
{
    Arg::new(alloc, id).long(long).short(letter)
}

/// Returns the shape of a required word.
pub(crate) fn required_arg<'a>(alloc: Global, id: &'a str) -> Arg<'a>
    ensures rule { rule_of result ≡ required_rule id.entry.now }
    ensures local { result.global ≡ false }
{
    Arg::new(alloc, id).required(true)
}

/// Returns the shape of an optional word.
pub(crate) fn word_arg<'a>(alloc: Global, id: &'a str) -> Arg<'a>
    ensures rule { rule_of result ≡ word_rule id.entry.now }
    ensures local { result.global ≡ false }
{
    Arg::new(alloc, id)
}

/// Returns the shape of any number of words.
pub(crate) fn many_arg<'a>(alloc: Global, id: &'a str) -> Arg<'a>
    ensures rule { rule_of result ≡ many_rule id.entry.now }
    ensures local { result.global ≡ false }
{
    Arg::new(alloc, id).action(ArgAction::Append)
}

/// Returns the shape of the program without subcommands.
pub(crate) fn bare_command<'a>(alloc: Global) -> clap::Command<'a>
    ensures { HasApp bare_top result }
{
    clap::Command::new(alloc, "rrdi")
        .no_binary_name(true)
        .subcommand_required(true)
        .disable_help_subcommand(true)
}

/// Returns the shape of the program with only this subcommand.
pub(crate) fn command_with<'a>(
    alloc: Global,
    sub: clap::Command<'a>,
) -> Result<clap::Command<'a>, AllocError>
    ensures { (s : App) → HasApp s sub.entry → IfOk result (λ c. app_of c ≡ app_with s) }
{
    bare_command(alloc).subcommand(sub)
}

/// Parses words with clap. The shape with one subcommand accepts and refuses the same words as the shape with all
/// subcommands.
pub(crate) fn parse<'a>(
    command: clap::Command<'a>,
    words: &'a Words<'_>,
) -> Result<ArgMatches<'a>, LineFault>
    requires { Serves (app_of command) words.now }
    ensures { IsParsedBy words.entry.now result }
{
    match command.try_get_matches_from(words.as_slice()) {
        Ok(matches) => Ok(matches),
        Err(error) => {
            if error.kind() == ErrorKind::OutOfMemory {
                Err(LineFault::OutOfMemory)
            } else {
                Err(LineFault::Usage)
            }
        }
    }
}

/// Returns the value of an argument.
pub(crate) fn text_of<'a>(matches: &ArgMatches<'a>, id: &str) -> Option<&'a str>
    ensures { option_map (λ s. s.now) result ≡ first_of id.now (rows_of (found_of matches.now)) }
{
    matches.get_str(id)
}

/// Returns all values of an argument.
pub(crate) fn texts_of<'b, 'a>(matches: &'b ArgMatches<'a>, id: &str) -> Option<&'b [&'a str]>
    ensures { option_map (λ s. map (λ v. v.now) s.now) result ≡ all_of id.now (rows_of (found_of matches.entry.now)) }
{
    matches.get_raw(id)
}
