//! What a call of the simulator comes to, before it is written.

ghost use Rattle.std.specs.Prelude.{◌≡◌, ◌≢◌, ◌≤◌, [], length, map, string_bytes, IfOk, MatchBool};
ghost use Rattle.sched_seed.specs.Generated.{generated};
ghost use Rattle.sim_top.specs.Drive.{Follows};
ghost use Rattle.sim_top.specs.Told.{made_by, output_text};
ghost use Rattle.tx_model.specs.Outlooks.{outlook_of};
ghost use Rattle.tx_model.specs.World.{possible};
ghost use Rattle.world_core.specs.Run.{run_begun};
ghost use Rattle.sim_top.specs.Asked.{HasRange};
ghost use Rattle.sim_top.specs.Sim.{Comes, SaysIn, LineSays, Means, ReadSays, RefusalSays, RunSays, Runs, read_fault_text, usage_text};

use crate::drive::drive;
use crate::options::{Form, Options, options_of};
use command_words::{Make, WordsFault};
use commit_history::commits;
use host_io::{ReadEnd, Source, read_all};
use ignite_types::{End, Journal, List, Mem, NoMemory, Scenario, Status};
use report_text::report;
use scen_text::{Cause, ReadFault, read_scenario, refusal_line};
use sched_seed::make_scenario;
use std::alloc::Global;
use summary_text::{Made, history_json, summary};
use tx_model::Outlook;
use world_core::World;

/// What a call with other words is told.
const USAGE: &str = "usage: txsim [--seed N] [--steps N] [--trace] [--json] [--make N [--txs N]]\n";

/// What a call is told whose source failed.
const READ_FAULT: &str = "read fault\n";

/// A status, the journal of the run where there was one, and the text to be written.
#[derive(Debug, Drop)]
pub struct Said {
    pub status: Status,
    pub journal: Journal,
    pub text: Vec<u8>,
}

/// A journal in which nothing happened, for a call that made no run.
fn no_run(alloc: Global) -> Journal
    ensures { result.groups ≡ [] }
{
    Journal {
        scenario: Scenario {
            format: 1,
            caches: List::new(alloc),
            nodes: List::new(alloc),
            plan: List::new(alloc),
            sessions: List::new(alloc),
        },
        groups: List::new(alloc),
        end: End::Memory,
    }
}

/// Memory ran out: nothing is written, and the journal has the groups so far.
fn out_of_memory(alloc: Global, journal: Journal) -> Said
    ensures status { result.status ≡ Status.Memory }
    ensures journal { result.journal ≡ journal }
    ensures text { result.text.items ≡ [] }
{
    Said {
        status: Status::Memory,
        journal,
        text: Vec::new(alloc),
    }
}

/// What is to be written of a journal, whose world shows this at its end.
fn text_of(alloc: Global, journal: &Journal, shown: &Outlook, options: Options) -> Mem<Vec<u8>>
    requires { shown.now ≡ outlook_of journal.now }
    ensures { IfOk result (λ text. text.items ≡ output_text options journal.now) }
{
    let entries = commits(alloc, journal)?;
    let entries = entries.as_slice();
    match options.form {
        Form::Report => report(alloc, journal, shown, entries, false),
        Form::Trace => report(alloc, journal, shown, entries, true),
        Form::Json => history_json(alloc, &journal.scenario, entries),
        Form::Summary(make) => {
            let made = made_by(options.seed, make);
            summary(alloc, journal, made, shown, entries)
        }
    }
}

/// How the scenario was made up.
fn made_by(seed: u64, make: Make) -> Made
    ensures { result ≡ made_by seed make }
{
    Made {
        seed,
        sessions: make.sessions,
        txs: make.txs,
    }
}

/// What the journal of a run comes to.
fn tell(alloc: Global, journal: Journal, shown: &Outlook, status: Status, options: Options) -> Said
    requires runs { Runs options status journal }
    requires shown { shown.now ≡ outlook_of journal }
    ensures { RunSays options journal.scenario result.status result.journal result.text.items }
{
    match text_of(alloc, &journal, shown, options) {
        Ok(text) => Said {
            status,
            journal,
            text,
        },
        Err(NoMemory) => out_of_memory(alloc, journal),
    }
}

/// What a run comes to that was driven to its end; `more` tells whether another event is possible.
fn tell_world(alloc: Global, world: World, more: bool, options: Options) -> Said
    requires follows { Follows options.seed world }
    requires ended { MatchBool more ((length world.past ≡ options.steps) × (possible world.now ≢ [])) (possible world.now ≡ []) }
    ensures { RunSays options world.scenario result.status result.journal result.text.items }
{
    match world.outlook() {
        Ok(shown) => {
            if more {
                let journal = world.into_journal(End::StepLimit);
                tell(alloc, journal, &shown, Status::StepLimit, options)
            } else if world.all_over() {
                let journal = world.into_journal(End::AllEnded);
                tell(alloc, journal, &shown, Status::AllEnded, options)
            } else {
                let journal = world.into_journal(End::Stalled);
                tell(alloc, journal, &shown, Status::Stalled, options)
            }
        }
        Err(NoMemory) => out_of_memory(alloc, world.into_journal(End::Memory)),
    }
}

/// What a run comes to from its opening world on.
fn run_world(alloc: Global, world: World, options: Options) -> Said
    requires { world ≡ run_begun world.scenario }
    ensures { RunSays options world.scenario result.status result.journal result.text.items }
{
    let mut world = world;
    match drive(&mut world, options) {
        Ok(more) => tell_world(alloc, world, more, options),
        Err(NoMemory) => out_of_memory(alloc, world.into_journal(End::Memory)),
    }
}

/// What a run of a scenario comes to.
fn run(alloc: Global, scenario: &Scenario, options: Options) -> Said
    ensures { RunSays options scenario.now result.status result.journal result.text.items }
{
    match World::new(alloc, scenario) {
        Ok(world) => run_world(alloc, world, options),
        Err(NoMemory) => out_of_memory(alloc, no_run(alloc)),
    }
}

/// The line of a refusal.
fn refuse(alloc: Global, line: u32, cause: Cause) -> Said
    ensures { RefusalSays line cause result.status result.journal result.text.items }
{
    match refusal_line(alloc, line, cause) {
        Ok(text) => Said {
            status: Status::Refused,
            journal: no_run(alloc),
            text,
        },
        Err(NoMemory) => out_of_memory(alloc, no_run(alloc)),
    }
}

/// The bytes of a fixed line.
fn line(alloc: Global, text: &str) -> Mem<Vec<u8>>
    ensures { IfOk result (λ bytes. bytes.items ≡ text.now) }
{
    let bytes = Vec::from_slice(alloc, text.as_bytes())?;
    Ok(bytes)
}

/// The words are none that are known.
fn usage(alloc: Global) -> Said
    ensures { LineSays Status.Usage usage_text result.status result.journal result.text.items }
{
    match line(alloc, USAGE) {
        Ok(text) => Said {
            status: Status::Usage,
            journal: no_run(alloc),
            text,
        },
        Err(NoMemory) => out_of_memory(alloc, no_run(alloc)),
    }
}

/// The source failed.
fn read_fault(alloc: Global) -> Said
    ensures { LineSays Status.ReadFault read_fault_text result.status result.journal result.text.items }
{
    match line(alloc, READ_FAULT) {
        Ok(text) => Said {
            status: Status::ReadFault,
            journal: no_run(alloc),
            text,
        },
        Err(NoMemory) => out_of_memory(alloc, no_run(alloc)),
    }
}

/// What the bytes of a scenario come to.
fn meaning(alloc: Global, bytes: &[u8], options: Options) -> Said
    ensures { Means options bytes.now result.status result.journal result.text.items }
{
    match read_scenario(alloc, bytes) {
        Ok(scenario) => run(alloc, &scenario, options),
        Err(ReadFault::Refused { line, cause }) => refuse(alloc, line, cause),
        Err(ReadFault::NoMemory) => out_of_memory(alloc, no_run(alloc)),
    }
}

/// What reading a scenario from this source and running it comes to.
fn read_said<S: Source>(alloc: Global, options: Options, source: &mut S) -> Said
    ensures { ReadSays options (record {
      before = S.left source.old;
      after = S.left source.new;
      faults_before =
          S.faults source.old;
      faults_after = S.faults source.new;
    }) result.status result.journal result.text.items }
{
    match read_all(alloc, source) {
        Ok(bytes) => meaning(alloc, bytes.as_slice(), options),
        Err(ReadEnd::TooLong) => refuse(alloc, 0, Cause::TooLong),
        Err(ReadEnd::Fault) => read_fault(alloc),
        Err(ReadEnd::NoMemory) => out_of_memory(alloc, no_run(alloc)),
    }
}

/// What running a scenario comes to that the seed makes up.
fn made_said(alloc: Global, options: Options, make: Make) -> Said
    requires few_sessions { make.sessions ≤ 64 }
    requires few_txs { make.txs ≤ 100 }
    ensures { RunSays options (generated options.seed make.sessions make.txs) result.status result.journal result.text.items }
{
    match make_scenario(alloc, options.seed, make.sessions, make.txs) {
        Ok(made) => run(alloc, &made, options),
        Err(NoMemory) => out_of_memory(alloc, no_run(alloc)),
    }
}

/// What the run comes to that these options ask for.
fn asked_said<S: Source>(alloc: Global, options: Options, source: &mut S) -> Said
    requires { HasRange options.form }
    ensures { SaysIn options.form options (record {
      before = S.left source.old;
      after = S.left source.new;
      faults_before =
          S.faults source.old;
      faults_after = S.faults source.new;
    }) result.status result.journal result.text.items }
{
    match options.form {
        Form::Report => read_said(alloc, options, source),
        Form::Trace => read_said(alloc, options, source),
        Form::Json => read_said(alloc, options, source),
        Form::Summary(make) => made_said(alloc, options, make),
    }
}

/// What a call comes to with these words and this source.
pub fn say<S: Source>(alloc: Global, words: &[String], source: &mut S) -> Said
    ensures { Comes (map string_bytes words.now) (record {
      before = S.left source.old;
      after = S.left source.new;
      faults_before = S.faults source.old;
      faults_after = S.faults source.new;
    }) result.status result.journal
        result.text.items }
{
    match options_of(alloc, words) {
        Ok(options) => asked_said(alloc, options, source),
        Err(WordsFault::Usage) => usage(alloc),
        Err(WordsFault::NoMemory) => out_of_memory(alloc, no_run(alloc)),
    }
}
