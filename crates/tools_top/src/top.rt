//! The top call.

ghost use Rattle.std.specs.Prelude.{map, string_bytes};
ghost use Rattle.audit_core.specs.Ends.{FixedLine};
ghost use Rattle.tools_top.specs.ToolWords.{tool_line};
ghost use Rattle.tools_top.specs.ToolsEnd.{ToolSays, ToolsEnd, usage_line};

use crate::words::{Tool, tool_of};
use audit_core::{ToolText, audit_text, line_bytes};
use host_io::{Sink, Source, ToolStatus, write_all};
use ignite_types::NoMemory;
use std::alloc::Global;

/// What a call with other words is told.
const USAGE: &str = "usage: txtools audit\n";

/// The words are none that are known.
fn usage(alloc: Global) -> ToolText
    ensures { FixedLine ToolStatus.Usage usage_line result.status result.text.items }
{
    match line_bytes(alloc, USAGE) {
        Ok(text) => ToolText {
            status: ToolStatus::Usage,
            text,
        },
        Err(NoMemory) => ToolText::out_of_memory(alloc),
    }
}

/// What a call comes to with these words and this source.
fn say<S: Source>(alloc: Global, words: &[String], source: &mut S) -> ToolText
    ensures { ToolSays (tool_line (map string_bytes words.now))
        (record {
          before = S.left source.old;
          after = S.left source.new;
          faults_before = S.faults source.old;
          faults_after =
              S.faults source.new;
        }) result.status result.text.items }
{
    match tool_of(words) {
        Some(Tool::Audit) => audit_text(alloc, source),
        None => usage(alloc),
    }
}

/// Does what the words ask for. `audit` reads a history as JSON from the source and writes in one line to the sink whether it is
/// one serial history of a plain map. Words that are no command line are answered by the usage line, and nothing is read.
pub fn tools<S: Source, K: Sink>(
    alloc: Global,
    words: &[String],
    source: &mut S,
    sink: &mut K,
) -> ToolStatus
    ensures { ToolsEnd (map string_bytes words.now)
        (record { before = S.left source.old; after = S.left source.new; faults_before = S.faults source.old; faults_after = S.faults source.new })
        (record { before = K.held sink.old; after = K.held sink.new; faults_before = K.faults sink.old; faults_after = K.faults sink.new })
        result }
{
    let ToolText { status, text } = say(alloc, words, source);
    match write_all(sink, text.as_slice()) {
        Ok(()) => status,
        Err(_) => ToolStatus::WriteFault,
    }
}
