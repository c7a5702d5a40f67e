//! What the words of the command line ask of a run.

ghost use Rattle.std.specs.Prelude.{◌≡◌, map, string_bytes, IfOk, Some, None, Err};
ghost use Rattle.sim_top.specs.Asked.{form_of, options_asked, options_from};

use command_words::{Make, SimWords, WordsFault, sim_words};
use std::alloc::Global;

/// What is written of a run.
#[derive(Clone, Copy, Debug, PartialEq, Eq)]
pub enum Form {
    /// The report.
    Report,
    /// The report with its trace: a line for each event.
    Trace,
    /// The history as JSON.
    Json,
    /// The summary of a run whose scenario is made up, by the seed.
    Summary(Make),
}

/// How a run is made and told.
#[derive(Clone, Copy, Debug, PartialEq, Eq)]
pub struct Options {
    /// The seed of the schedule; 0 always picks the first possible event.
    pub seed: u64,
    /// The most events of the run.
    pub steps: u32,
    /// What is written.
    pub form: Form,
}

/// What is to be written.
fn form_of(words: &SimWords) -> Form
    ensures { result ≡ form_of words.now }
{
    match words.make {
        Some(make) => Form::Summary(make),
        None => {
            if words.json {
                Form::Json
            } else if words.trace {
                Form::Trace
            } else {
                Form::Report
            }
        }
    }
}

/// What the words ask for.
pub fn options_of(alloc: Global, words: &[String]) -> Result<Options, WordsFault>
    ensures ok { IfOk result (λ options. options_asked (map string_bytes words.now) ≡ Some options) }
    ensures usage { result ≡ Err WordsFault.Usage → options_asked (map string_bytes words.now) ≡ None }
{
    let asked = sim_words(alloc, words)?;
    Ok(Options {
        seed: asked.seed,
        steps: asked.steps,
        form: form_of(&asked),
    })
}
