//! What the words of a plan line mean, and which node a line names.

ghost use Rattle.std.specs.Prelude.{◌≡◌};
ghost use Rattle.scen_text.specs.Words.{words};
ghost use Rattle.scen_text.specs.Plans.{join_step, lose_step, hold_step, release_step, start_step, stop_step, step_meant, plan_line};

use crate::cause::Cause;
use crate::keyword::{StepKeyword, step_keyword};
use crate::line::Line;
use crate::lines::first_word;
use crate::meaning::{cache_words, node, role};
use crate::words::{name, number, only_word, two_words};
use ignite_types::{Member, Step};

/// A step `join N server` or `join N client`, by the words behind the first, as the functions below.
fn join_step(moment: u32, rest: &[u8]) -> Result<Line, Cause>
    ensures { result ≡ join_step moment (words rest.now) }
{
    let (first, second) = two_words(rest)?;
    let node = node(first)?;
    let server = role(second)?;
    Ok(Line::Join(moment, Member { node, server }))
}

/// A step `lose N`.
fn lose_step(moment: u32, rest: &[u8]) -> Result<Line, Cause>
    ensures { result ≡ lose_step moment (words rest.now) }
{
    let node = node(only_word(rest)?)?;
    Ok(Line::Links(moment, Step::Lose(node)))
}

/// A step `hold N N`.
fn hold_step(moment: u32, rest: &[u8]) -> Result<Line, Cause>
    ensures { result ≡ hold_step moment (words rest.now) }
{
    let (first, second) = two_words(rest)?;
    let sender = node(first)?;
    let addressee = node(second)?;
    Ok(Line::Links(moment, Step::Hold(sender, addressee)))
}

/// A step `release N N`.
fn release_step(moment: u32, rest: &[u8]) -> Result<Line, Cause>
    ensures { result ≡ release_step moment (words rest.now) }
{
    let (first, second) = two_words(rest)?;
    let sender = node(first)?;
    let addressee = node(second)?;
    Ok(Line::Links(moment, Step::Release(sender, addressee)))
}

/// A step `start NAME P B R`.
fn start_step(moment: u32, rest: &[u8]) -> Result<Line, Cause>
    ensures { result ≡ start_step moment (words rest.now) }
{
    let cache = cache_words(rest)?;
    Ok(Line::Start(moment, cache))
}

/// A step `stop NAME`.
fn stop_step(moment: u32, rest: &[u8]) -> Result<Line, Cause>
    ensures { result ≡ stop_step moment (words rest.now) }
{
    let name = name(only_word(rest)?)?;
    Ok(Line::Stop(moment, name))
}

/// What a plan line means by its step's word and the words behind it.
fn step_meant(moment: u32, step: StepKeyword, rest: &[u8]) -> Result<Line, Cause>
    ensures { result ≡ step_meant moment step (words rest.now) }
{
    match step {
        StepKeyword::Join => join_step(moment, rest),
        StepKeyword::Lose => lose_step(moment, rest),
        StepKeyword::Hold => hold_step(moment, rest),
        StepKeyword::Release => release_step(moment, rest),
        StepKeyword::Start => start_step(moment, rest),
        StepKeyword::Stop => stop_step(moment, rest),
    }
}

/// A line `plan M STEP`.
pub fn plan_line(format: u32, rest: &[u8]) -> Result<Line, Cause>
    ensures { result ≡ plan_line format (words rest.now) }
{
    let Some((first, rest)) = first_word(rest) else {
        return Err(Cause::Syntax);
    };
    let Some((second, rest)) = first_word(rest) else {
        return Err(Cause::Syntax);
    };
    let moment = number(first)?;
    match step_keyword(format, second) {
        Some(step) => step_meant(moment, step, rest),
        None => Err(Cause::Syntax),
    }
}
