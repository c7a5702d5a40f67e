//! The values of the options, and the rules between options.

ghost use Rattle.std.specs.Prelude.{◌≡◌, ◌≤◌, IfSome};
ghost use Rattle.std.specs.List.{list_all};
ghost use Rattle.command_words.specs.Line.{agree, is_digit_byte, is_number_text, made, number_in_range, number_or, words_asked};
ghost use Rattle.command_words.specs.Parse.{text_told};

use crate::{Make, SimWords};

/// The most digits that a value may have: those of the greatest seed.
const DIGITS: usize = 20;

/// Whether the byte is a digit.
fn is_digit(byte: u8) -> bool
    ensures { result ≡ is_digit_byte byte }
{
    byte.is_ascii_digit()
}

/// Whether each byte of the value is a digit.
fn are_digits(value: &str) -> bool
    ensures { result ≡ list_all is_digit_byte value.now }
{
    value.as_bytes().iter().all(|byte| is_digit(*byte))
}

/// Whether the value is of digits, and not of too many. Without this test the parse of a number would take a sign too, and
/// any count of leading zeros.
fn is_number(value: &str) -> bool
    ensures { result ≡ is_number_text value.now }
{
    !value.is_empty() && value.len() <= DIGITS && are_digits(value)
}

/// The number that a value is, where it is one in the range. One past 64 bits is past each range.
fn number(value: &str, least: u64, most: u64) -> Option<u64>
    ensures value { result ≡ number_in_range least most value.now }
    ensures within { IfSome result (λ number_in_range. number_in_range ≤ most) }
{
    if !is_number(value) {
        return None;
    }
    match value.parse::<u64>() {
        Ok(number) if least <= number && number <= most => Some(number),
        _ => None,
    }
}

/// The number of an option, or what is meant where it does not stand.
fn number_or(default: u64, least: u64, most: u64, value: Option<&str>) -> Option<u64>
    ensures value { result ≡ number_or default least most (text_told value.entry) }
    ensures within { IfSome result (λ number_in_range. default ≤ most → number_in_range ≤ most) }
{
    match value {
        Some(text) => number(text, least, most),
        None => Some(default),
    }
}

/// What `--make` and `--txs` ask for. The inner `None` is a line with neither, which is no mistake.
fn made(sessions: Option<&str>, txs: Option<&str>) -> Option<Option<Make>>
    ensures { result ≡ made (text_told sessions.entry) (text_told txs.entry) }
{
    match (sessions, txs) {
        (None, None) => Some(None),
        (None, Some(_)) => None,
        (Some(sessions), txs) => {
            let sessions = number(sessions, 1, 64)? as u32;
            let txs = number_or(20, 1, 100, txs)? as u32;
            Some(Some(Make { sessions, txs }))
        }
    }
}

/// Whether the options may stand together: at most one of the three, since each asks for an output of its own.
fn agree(trace: bool, json: bool, make: bool) -> bool
    ensures { result ≡ agree trace json make }
{
    !(trace && make) && !(json && (trace || make))
}

/// What these values and flags ask for.
pub fn asked(
    seed: Option<&str>,
    steps: Option<&str>,
    make: Option<&str>,
    txs: Option<&str>,
    trace: bool,
    json: bool,
) -> Option<SimWords>
    ensures { result ≡ words_asked (text_told seed.entry) (text_told steps.entry)
        (text_told make.entry) (text_told txs.entry) trace json }
{
    let seed = number_or(0, 0, u64::MAX, seed)?;
    let steps = number_or(1_000_000, 1, 4_000_000, steps)? as u32;
    let may = agree(trace, json, make.is_some());
    let make = made(make, txs)?;
    if may {
        Some(SimWords {
            seed,
            steps,
            trace,
            json,
            make,
        })
    } else {
        None
    }
}
