//! The trace of a run.

ghost use Rattle.std.specs.Prelude.{◌≡◌, ◌+◌, ◌++◌, OnOk};
ghost use Rattle.report_text.specs.Traces as traces;

use crate::answers::{write_node, write_nodes, write_session_name, write_word_tx};
use crate::plans::write_count;
use ignite_types::{Event, Group, Mem, Scenario};
use scen_print::TextOut;

/// Writes a word and a session's name.
fn write_of_session(out: &mut TextOut, scenario: &Scenario, word: &str, session: u32) -> Mem<()>
    ensures { OnOk result (out.new ≡ out.old ++ traces.of_session scenario.now word.now session) }
{
    out.text(word)?;
    write_session_name(out, scenario, session)
}

/// Writes an event.
fn write_event(out: &mut TextOut, scenario: &Scenario, event: &Event) -> Mem<()>
    ensures { OnOk result (out.new ≡ out.old ++ traces.event_text scenario.now event.now) }
{
    match event {
        Event::Answer(session) => write_of_session(out, scenario, "answer ", *session),
        Event::Act(id, from) => write_nodes(out, "act ", *id, *from),
        Event::Send(id) => write_node(out, "send ", *id),
        Event::See(id) => write_node(out, "see ", *id),
        Event::Expire(tx) => write_word_tx(out, scenario, "expire ", tx),
        Event::Minor(id) => write_node(out, "minor ", *id),
        Event::Call(session) => write_of_session(out, scenario, "call ", *session),
        Event::Plan => out.text("plan"),
        Event::Tick => out.text("tick"),
        Event::Memory(id) => write_node(out, "memory ", *id),
    }
}

/// Writes the line of an event, the first of them having number 1.
fn write_trace_line(out: &mut TextOut, scenario: &Scenario, number: u64, event: &Event) -> Mem<()>
    ensures { OnOk result (out.new ≡ out.old ++ traces.trace_line scenario.now number event.now) }
{
    out.number(number)?;
    out.byte(b' ')?;
    write_event(out, scenario, event)?;
    out.byte(b'\n')
}

/// Writes the lines of the events.
fn write_trace_lines(out: &mut TextOut, scenario: &Scenario, groups: &[Group]) -> Mem<()>
    ensures { OnOk result (out.new ≡ out.old ++ traces.trace_lines scenario.now 0 groups.now) }
{
    for (place, group) in groups.iter().enumerate() {
        write_trace_line(out, scenario, place as u64 + 1, &group.event)?;
    }
    Ok(())
}

/// Writes the events of a run, where they are asked for.
pub fn write_trace(out: &mut TextOut, scenario: &Scenario, groups: &[Group], asked: bool) -> Mem<()>
    ensures { OnOk result (out.new ≡ out.old ++ traces.trace_part scenario.now groups.now asked) }
{
    if asked {
        write_count(out, "trace", groups.len() as u64)?;
        write_trace_lines(out, scenario, groups)
    } else {
        Ok(())
    }
}
