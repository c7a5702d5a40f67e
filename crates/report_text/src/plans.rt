//! The plan steps that were done or refused, and the deadlocks that were found.

ghost use Rattle.std.specs.Prelude.{◌≡◌, ◌++◌, ◌-◌, slice_get, OnOk};
ghost use Rattle.std.specs.Option.{option_copied};
ghost use Rattle.report_text.specs.Plans as plans;

use crate::answers::{write_node, write_tx, write_word_key, write_word_tx};
use crate::digest::Deadlock;
use ignite_types::{Cache, Edge, Mem, NoLoss, NodeId, PlanStep, Scenario, Wait};
use scen_print::{TextOut, write_step};

/// Writes a word and a number, as a line.
pub fn write_count(out: &mut TextOut, word: &str, count: u64) -> Mem<()>
    ensures { OnOk result (out.new ≡ out.old ++ plans.count_line word.now count) }
{
    out.text(word)?;
    out.byte(b' ')?;
    out.number(count)?;
    out.byte(b'\n')
}

/// Writes a partition behind the name of its cache and a slash.
fn write_part_among(out: &mut TextOut, caches: &[Cache], part: u32) -> Mem<()>
    ensures { OnOk result (out.new ≡ out.old ++ plans.part_among caches.now part) }
{
    let mut left = part;
    for cache in caches {
        if left < cache.parts {
            out.bytes(cache.name.as_slice())?;
            out.byte(b'/')?;
            return out.number(u64::from(left));
        }
        left -= cache.parts;
    }
    out.number(u64::from(left))
}

/// Writes a partition, in format 2 behind the name of its cache.
fn write_part(out: &mut TextOut, scenario: &Scenario, part: u32) -> Mem<()>
    ensures { OnOk result (out.new ≡ out.old ++ plans.part_text scenario.now part) }
{
    if scenario.format == 2 {
        write_part_among(out, scenario.caches.as_slice(), part)
    } else {
        out.number(u64::from(part))
    }
}

/// Writes what came of a plan step.
fn write_refusal(out: &mut TextOut, scenario: &Scenario, refused: &Option<NoLoss>) -> Mem<()>
    ensures { OnOk result (out.new ≡ out.old ++ plans.loss_refusal_text scenario.now refused.now) }
{
    match refused {
        None => out.text("ok"),
        Some(NoLoss::NotIn) => out.text("refused not in"),
        Some(NoLoss::LeavesPartition(part)) => {
            out.text("refused partition ")?;
            write_part(out, scenario, *part)
        }
    }
}

/// Writes a plan step with its moment.
fn write_planned(out: &mut TextOut, scenario: &Scenario, planned: &PlanStep) -> Mem<()>
    ensures { OnOk result (out.new ≡ out.old ++ plans.planned_line scenario.now planned.now) }
{
    out.number(planned.moment)?;
    out.byte(b' ')?;
    write_step(out, scenario, &planned.step)
}

/// Writes the line of a plan step, if there is such a step.
fn write_step_line(
    out: &mut TextOut,
    scenario: &Scenario,
    step: Option<&PlanStep>,
    refused: &Option<NoLoss>,
) -> Mem<()>
    ensures { OnOk result (out.new ≡ out.old ++ plans.step_line scenario.now (option_copied step.entry) refused.now) }
{
    let Some(planned) = step else {
        return Ok(());
    };
    write_planned(out, scenario, planned)?;
    out.text(": ")?;
    write_refusal(out, scenario, refused)?;
    out.byte(b'\n')
}

/// Writes the lines of the plan steps.
fn write_step_lines(
    out: &mut TextOut,
    scenario: &Scenario,
    steps: &[(usize, Option<NoLoss>)],
) -> Mem<()>
    ensures { OnOk result (out.new ≡ out.old ++ plans.step_lines scenario.now steps.now) }
{
    for (place, refused) in steps {
        write_step_line(out, scenario, scenario.plan.get(*place), refused)?;
    }
    Ok(())
}

/// Writes the plan steps that were done or refused.
pub fn write_plan(
    out: &mut TextOut,
    scenario: &Scenario,
    steps: &[(usize, Option<NoLoss>)],
) -> Mem<()>
    ensures { OnOk result (out.new ≡ out.old ++ plans.plan_part scenario.now steps.now) }
{
    write_count(out, "plan", steps.len() as u64)?;
    write_step_lines(out, scenario, steps)
}

/// Writes who waits for whom.
fn write_waiting(out: &mut TextOut, scenario: &Scenario, wait: &Wait) -> Mem<()>
    ensures { OnOk result (out.new ≡ out.old ++ plans.waiting_text scenario.now wait.now) }
{
    write_tx(out, scenario, &wait.waiter)?;
    write_word_tx(out, scenario, " waits for ", &wait.holder)
}

/// Writes a wait and where it is.
pub fn write_wait(out: &mut TextOut, scenario: &Scenario, node: NodeId, wait: &Wait) -> Mem<()>
    ensures { OnOk result (out.new ≡ out.old ++ plans.wait_text scenario.now node wait.now) }
{
    write_waiting(out, scenario, wait)?;
    write_word_key(out, scenario, " on ", &wait.key)?;
    write_node(out, " at ", node)
}

/// Writes a wait of a deadlock, as a line.
#[tactic(auto, unfolding(crate::specs::Plans::edge_line))]
fn write_edge(out: &mut TextOut, scenario: &Scenario, edge: &Edge) -> Mem<()>
    ensures { OnOk result (out.new ≡ out.old ++ plans.edge_line scenario.now edge.now) }
{
    write_wait(out, scenario, edge.node, &edge.wait)?;
    out.byte(b'\n')
}

/// Writes the waits of a deadlock.
fn write_edges(out: &mut TextOut, scenario: &Scenario, edges: &[Edge]) -> Mem<()>
    ensures { OnOk result (out.new ≡ out.old ++ plans.edge_lines scenario.now edges.now) }
{
    for edge in edges {
        write_edge(out, scenario, edge)?;
    }
    Ok(())
}

/// Writes a deadlock's transaction, how many edges it has, and a line for each.
fn write_deadlock(out: &mut TextOut, scenario: &Scenario, deadlock: &Deadlock) -> Mem<()>
    ensures { OnOk result (out.new ≡ out.old ++ plans.deadlock_lines scenario.now deadlock.now) }
{
    write_tx(out, scenario, &deadlock.tx)?;
    write_count(out, " edges", deadlock.edges.len() as u64)?;
    write_edges(out, scenario, deadlock.edges.as_slice())
}

/// Writes the lines of the deadlocks.
fn write_deadlocks_lines(out: &mut TextOut, scenario: &Scenario, deadlocks: &[Deadlock]) -> Mem<()>
    ensures { OnOk result (out.new ≡ out.old ++ plans.deadlocks_lines scenario.now deadlocks.now) }
{
    for deadlock in deadlocks {
        write_deadlock(out, scenario, deadlock)?;
    }
    Ok(())
}

/// Writes the deadlocks that were found.
pub fn write_deadlocks(out: &mut TextOut, scenario: &Scenario, deadlocks: &[Deadlock]) -> Mem<()>
    ensures { OnOk result (out.new ≡ out.old ++ plans.deadlock_part scenario.now deadlocks.now) }
{
    write_count(out, "deadlocks", deadlocks.len() as u64)?;
    write_deadlocks_lines(out, scenario, deadlocks)
}
