//! The words of the command line of `txsim`, and what they ask for.
//!
//! `txsim [--seed N] [--steps N] [--trace] [--json] [--make N [--txs N]]`
#![tactic(auto)]

ghost use Rattle.std.specs.Prelude.{◌≡◌, map, string_bytes, IfOk, Some, None};
ghost use Rattle.command_words.specs.Line.{line};
ghost use Rattle.command_words.specs.declared.WordsFault.TheVariants.{NoMemory};

mod command;
mod values;

use crate::command::{asked_of, fault, sim_command};
use std::alloc::{AllocError, Global};
use thiserror::Error;

/// What the words ask for.
#[derive(Clone, Copy, Debug, PartialEq, Eq)]
pub struct SimWords {
    /// The seed.
    pub seed: u64,
    /// The most steps.
    pub steps: u32,
    /// Whether `--trace` stands.
    pub trace: bool,
    /// Whether `--json` stands.
    pub json: bool,
    /// What `--make` and `--txs` ask for, where they stand.
    pub make: Option<Make>,
}

/// What `--make` asks for.
#[derive(Clone, Copy, Debug, PartialEq, Eq)]
pub struct Make {
    /// How many sessions.
    pub sessions: u32,
    /// How many transactions, by `--txs`.
    pub txs: u32,
}

/// Why words ask for nothing.
#[derive(Clone, Copy, Debug, PartialEq, Eq, Error)]
pub enum WordsFault {
    /// They are no command line.
    #[error("the words are no command line")]
    Usage,
    /// Memory ran out.
    #[error("no memory is left")]
    NoMemory,
}

impl From<AllocError> for WordsFault {
    ghost from_gives = { λ _ fault. fault ≡ NoMemory };

    fn from(_: AllocError) -> WordsFault {
        WordsFault::NoMemory
    }
}

/// Reads the words, the program's name not among them. Memory may run out at any time, and that alone is not said by the
/// words.
pub fn sim_words(alloc: Global, words: &[String]) -> Result<SimWords, WordsFault>
    ensures ok { IfOk result (λ asked. line (map string_bytes words.now) ≡ Some asked) }
    ensures usage { result ≡ Err WordsFault.Usage → line (map string_bytes words.now) ≡ None }
{
    let command = sim_command(alloc)?;
    match command.try_get_matches_from(words) {
        Ok(matches) => asked_of(&matches).ok_or(WordsFault::Usage),
        Err(error) => Err(fault(error.kind())),
    }
}

#[cfg(test)]
mod tests;
