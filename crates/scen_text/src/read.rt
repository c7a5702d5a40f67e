//! Reading a scenario.

ghost use Rattle.std.specs.Prelude.{◌≡◌, ◌+◌, ◌≤◌, ◌<◌, ◌++◌, length, IfOk, OnOk, IsTrue};
ghost use Rattle.std.specs.Str.Lines.{lines};
ghost use Rattle.ignite_types.specs.Good.{good};
ghost use Rattle.scen_text.specs.Causes.{Reads, refused};
ghost use Rattle.scen_text.specs.Reading.{named_by, named_in, read_text, scenario_of};

use crate::cause::{Cause, LineFault, ReadFault};
use crate::draft::Draft;
use crate::line::Line;
use crate::lines::first_line;
use crate::meaning::line_of;
use ignite_types::limits::TEXT_BYTES;
use ignite_types::{List, Mem, NodeId, Scenario};
use std::alloc::Global;

/// Adds the node that a line or a join step names.
fn push_named(out: &mut List<NodeId>, line: &Result<Line, Cause>) -> Mem<()>
    ensures { OnOk result (out.new ≡ out.old ++ named_by line.now) }
{
    match line {
        Ok(Line::Member(member)) => out.push(member.node),
        Ok(Line::Join(_, member)) => out.push(member.node),
        _ => Ok(()),
    }
}

/// The nodes that the lines of a text name.
fn named_in(alloc: Global, text: &[u8]) -> Mem<List<NodeId>>
    ensures { IfOk result (λ named. named ≡ named_in (lines text.now)) }
{
    let mut named = List::new(alloc);
    let mut left = text;
    while let Some((line, rest)) = first_line(left) {
        push_named(&mut named, &line_of(1, line))?;
        left = rest;
    }
    Ok(named)
}

/// A refusal at a line; want of memory stands at none.
fn refused(line: u32, fault: LineFault) -> ReadFault
    ensures { result ≡ refused line fault }
{
    match fault {
        LineFault::Bad(cause) => ReadFault::Refused { line, cause },
        LineFault::NoMemory => ReadFault::NoMemory,
    }
}

/// Reads the lines of a text, one after the other.
fn read_text(alloc: Global, text: &[u8]) -> Result<Scenario, ReadFault>
    requires { length text.now ≤ TEXT_BYTES }
    ensures { Reads result (read_text (lines text.now)) }
{
    let named = match named_in(alloc, text) {
        Ok(named) => named,
        Err(_) => return Err(ReadFault::NoMemory),
    };
    let mut draft = Draft::new(alloc, named);
    let mut left = text;
    let mut number = 1u32;
    while let Some((line, rest)) = first_line(left) {
        match draft.take_line(alloc, line) {
            Ok(()) => {
                left = rest;
                number += 1;
            }
            Err(fault) => return Err(refused(number, fault)),
        }
    }
    match draft.finish() {
        Ok(scenario) => Ok(scenario),
        Err(cause) => Err(ReadFault::Refused {
            line: number,
            cause,
        }),
    }
}

/// Reads a scenario. A text that is none is refused at the first line that breaks a rule, and there for the first rule
/// that it breaks; only want of memory may come at any text.
pub fn read_scenario(alloc: Global, bytes: &[u8]) -> Result<Scenario, ReadFault>
    ensures reads { Reads result (scenario_of bytes.now) }
    ensures good { IfOk result (λ scenario. IsTrue (good scenario)) }
{
    if bytes.len() > TEXT_BYTES {
        return Err(ReadFault::Refused {
            line: 0,
            cause: Cause::TooLong,
        });
    }
    read_text(alloc, bytes)
}
