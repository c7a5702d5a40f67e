//! The audit over any source and sink.

ghost use Rattle.std.specs.Prelude.{◌≡◌, [], IfOk};
ghost use Rattle.serde_json.specs.View.{view};
ghost use Rattle.audit_core.specs.Ends.{AuditEnds, AuditSays, BytesSay, FindingSays, FixedLine, fault_line};
ghost use Rattle.audit_core.specs.Verdict.{finding_of};

use crate::shape::{ShapeFault, history_in};
use crate::told::{finding_line, finding_status};
use crate::verdict::{Finding, verdict_on};
use host_io::{MAX_LIMIT, ReadEnd, Sink, Source, ToolStatus, read_up_to, write_all};
use ignite_types::{Mem, NoMemory};
use serde_json::{Category, Value};
use std::alloc::Global;

/// What is told of bytes that are no JSON.
const NOT_JSON: &str = "refused: not json\n";

/// What is told where more bytes came than are read.
const TOO_LONG: &str = "refused: too long\n";

/// What is told where the source failed.
const READ_FAULT: &str = "read fault\n";

/// A status, and the text that goes with it.
#[derive(Debug, Drop)]
pub struct ToolText {
    pub status: ToolStatus,
    pub text: Vec<u8>,
}

impl ToolText {
    /// Memory ran out: nothing is written.
    pub fn out_of_memory(alloc: Global) -> ToolText
        ensures status { result.status ≡ ToolStatus.Memory }
        ensures text { result.text.items ≡ [] }
    {
        ToolText {
            status: ToolStatus::Memory,
            text: Vec::new(alloc),
        }
    }
}

/// The bytes of a fixed line.
pub fn line_bytes(alloc: Global, line: &str) -> Mem<Vec<u8>>
    ensures { IfOk result (λ bytes. bytes.items ≡ line.now) }
{
    let bytes = Vec::from_slice(alloc, line.as_bytes())?;
    Ok(bytes)
}

/// The bytes, or the number of bytes, are refused in this line.
fn refuse(alloc: Global, line: &str) -> ToolText
    ensures { FixedLine ToolStatus.Refused line.now result.status result.text.items }
{
    match line_bytes(alloc, line) {
        Ok(text) => ToolText {
            status: ToolStatus::Refused,
            text,
        },
        Err(NoMemory) => ToolText::out_of_memory(alloc),
    }
}

/// The source failed.
fn read_fault(alloc: Global) -> ToolText
    ensures { FixedLine ToolStatus.ReadFault fault_line result.status result.text.items }
{
    match line_bytes(alloc, READ_FAULT) {
        Ok(text) => ToolText {
            status: ToolStatus::ReadFault,
            text,
        },
        Err(NoMemory) => ToolText::out_of_memory(alloc),
    }
}

/// What there is to say of a JSON value.
fn finding_of(alloc: Global, value: &Value) -> Mem<Finding>
    ensures { IfOk result (λ finding. finding ≡ finding_of (view value.now)) }
{
    match history_in(alloc, value) {
        Ok(history) => verdict_on(alloc, &history),
        Err(ShapeFault::NoShape) => Ok(Finding::NoShape),
        Err(ShapeFault::NoMemory) => Err(NoMemory),
    }
}

/// The status and the line of a finding.
fn tell(alloc: Global, finding: &Finding) -> ToolText
    ensures { FindingSays finding.now result.status result.text.items }
{
    match finding_line(alloc, finding) {
        Ok(text) => ToolText {
            status: finding_status(finding),
            text,
        },
        Err(NoMemory) => ToolText::out_of_memory(alloc),
    }
}

/// What the bytes come to.
fn bytes_say(alloc: Global, bytes: &[u8]) -> ToolText
    ensures { BytesSay bytes.now result.status result.text.items }
{
    match Value::from_slice(alloc, bytes) {
        Ok(value) => match finding_of(alloc, &value) {
            Ok(finding) => tell(alloc, &finding),
            Err(NoMemory) => ToolText::out_of_memory(alloc),
        },
        Err(error) => match error.classify() {
            Category::Memory => ToolText::out_of_memory(alloc),
            _ => refuse(alloc, NOT_JSON),
        },
    }
}

/// What an audit of this source comes to.
pub fn audit_text<S: Source>(alloc: Global, source: &mut S) -> ToolText
    ensures { AuditSays (record {
      before = S.left source.old;
      after = S.left source.new;
      faults_before = S.faults source.old;
      faults_after = S.faults source.new;
    }) result.status result.text.items }
{
    match read_up_to(alloc, source, MAX_LIMIT) {
        Ok(bytes) => bytes_say(alloc, bytes.as_slice()),
        Err(ReadEnd::TooLong) => refuse(alloc, TOO_LONG),
        Err(ReadEnd::Fault) => read_fault(alloc),
        Err(ReadEnd::NoMemory) => ToolText::out_of_memory(alloc),
    }
}

/// Reads a history as JSON to the end of the source, at most 67,108,864 bytes, and writes in one line whether it is one serial
/// history of a plain map that ends as the given map, and else its first fault.
pub fn audit<S: Source, K: Sink>(alloc: Global, source: &mut S, sink: &mut K) -> ToolStatus
    ensures { AuditEnds
        (record { before = S.left source.old; after = S.left source.new; faults_before = S.faults source.old; faults_after = S.faults source.new })
        (record { before = K.held sink.old; after = K.held sink.new; faults_before = K.faults sink.old; faults_after = K.faults sink.new })
        result }
{
    let ToolText { status, text } = audit_text(alloc, source);
    match write_all(sink, text.as_slice()) {
        Ok(()) => status,
        Err(_) => ToolStatus::WriteFault,
    }
}
