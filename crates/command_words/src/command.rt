//! The command as the parser is told of it, and what its matches ask for.
//!
//! The parser deals the words out to the options. It takes each value as text, and it knows of no rule between options:
//! what it would read as a number, as `+7`, is more than a line may hold.

ghost use Rattle.std.specs.Prelude.{◌≡◌, false, IfOk};
ghost use Rattle.clap.specs.Words.{app_of, first_value, found_of, rule_of};
ghost use Rattle.command_words.specs.Parse.{asked_of, fault, flagged, is_set, sim_app, valued};

use crate::values::asked;
use crate::{SimWords, WordsFault};
use clap::error::ErrorKind;
use clap::{Arg, ArgAction, ArgMatches, Command};
use std::alloc::{AllocError, Global};

/// An option that takes a value. It may stand once, since a second use is refused where the command lets none override.
fn valued<'a>(alloc: Global, name: &'a str) -> Arg<'a>
    ensures rule { rule_of result ≡ valued name.entry.now }
    ensures local { result.global ≡ false }
{
    Arg::new(alloc, name).long(name)
}

/// An option that takes none.
fn flagged<'a>(alloc: Global, name: &'a str) -> Arg<'a>
    ensures rule { rule_of result ≡ flagged name.entry.now }
    ensures local { result.global ≡ false }
{
    Arg::new(alloc, name).long(name).action(ArgAction::SetTrue)
}

/// The command with its options. It has no word for help or the version, since each such word is a mistake here, and it
/// reads the first word too, since the program's name is not among them.
pub fn sim_command<'a>(alloc: Global) -> Result<Command<'a>, AllocError>
    ensures { IfOk result (λ command. app_of command ≡ sim_app) }
{
    Command::new(alloc, "txsim")
        .no_binary_name(true)
        .disable_help_flag(true)
        .disable_version_flag(true)
        .arg(valued(alloc, "seed"))?
        .arg(valued(alloc, "steps"))?
        .arg(valued(alloc, "make"))?
        .arg(valued(alloc, "txs"))?
        .arg(flagged(alloc, "trace"))?
        .arg(flagged(alloc, "json"))
}

/// Whether a flag stands in the line. One that does not has the text `false`, and so a presence alone says nothing.
fn is_set(matches: &ArgMatches, name: &str) -> bool
    ensures { result ≡ is_set (first_value (found_of matches.now) name.now) }
{
    match matches.get_str(name) {
        Some(text) => text == "true",
        None => false,
    }
}

/// What the matches ask for.
pub fn asked_of(matches: &ArgMatches) -> Option<SimWords>
    ensures { result ≡ asked_of (first_value (found_of matches.now)) }
{
    asked(
        matches.get_str("seed"),
        matches.get_str("steps"),
        matches.get_str("make"),
        matches.get_str("txs"),
        is_set(matches, "trace"),
        is_set(matches, "json"),
    )
}

/// What a refusal of the parser is. Its text is not kept, since a caller answers each mistake alike.
pub fn fault(kind: ErrorKind) -> WordsFault
    ensures { result ≡ fault kind }
{
    match kind {
        ErrorKind::OutOfMemory => WordsFault::NoMemory,
        _ => WordsFault::Usage,
    }
}
