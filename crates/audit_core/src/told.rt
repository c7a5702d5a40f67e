//! What is told of a finding.

ghost use Rattle.std.specs.Prelude.{◌≡◌, [], ◌∷◌, ◌++◌, decimal, OnOk, IfOk};
ghost use Rattle.audit_core.specs.Told.{entry_fault_text, finding_line, finding_status, finding_text};

use crate::verdict::{EntryFault, Finding};
use host_io::ToolStatus;
use ignite_types::Mem;
use itoa::Buffer;
use std::alloc::Global;

/// Writes a number in decimal.
fn write_number(out: &mut Vec<u8>, number: usize) -> Mem<()>
    ensures { OnOk result (out.new.items ≡ out.old.items ++ decimal number) }
{
    let mut digits = Buffer::new();
    out.extend_from_slice(digits.format(number).as_bytes())?;
    Ok(())
}

/// Writes a text.
fn write_text(out: &mut Vec<u8>, text: &str) -> Mem<()>
    ensures { OnOk result (out.new.items ≡ out.old.items ++ text.now) }
{
    out.extend_from_slice(text.as_bytes())?;
    Ok(())
}

/// Writes what is wrong with an entry.
fn write_fault(out: &mut Vec<u8>, fault: &EntryFault) -> Mem<()>
    ensures { OnOk result (out.new.items ≡ out.old.items ++ entry_fault_text fault.now) }
{
    match fault {
        EntryFault::Twice => write_text(out, "twice"),
        EntryFault::VersionFalls => write_text(out, "version falls"),
        EntryFault::Read(key) => {
            write_text(out, "read ")?;
            out.extend_from_slice(key.as_slice())?;
            Ok(())
        }
    }
}

/// Writes a finding, without the line's end.
fn write_finding(out: &mut Vec<u8>, finding: &Finding) -> Mem<()>
    ensures { OnOk result (out.new.items ≡ out.old.items ++ finding_text finding.now) }
{
    match finding {
        Finding::NoShape => write_text(out, "no shape"),
        Finding::Entry(place, fault) => {
            write_text(out, "no at ")?;
            write_number(out, *place)?;
            write_text(out, ": ")?;
            write_fault(out, fault)
        }
        Finding::Map(key) => {
            write_text(out, "no map ")?;
            out.extend_from_slice(key.as_slice())?;
            Ok(())
        }
        Finding::Yes(entries) => {
            write_text(out, "yes ")?;
            write_number(out, *entries)
        }
    }
}

/// The line that tells a finding.
pub fn finding_line(alloc: Global, finding: &Finding) -> Mem<Vec<u8>>
    ensures { IfOk result (λ line. line.items ≡ finding_line finding.now) }
{
    let mut line = Vec::new(alloc);
    write_finding(&mut line, finding)?;
    line.push(b'\n')?;
    Ok(line)
}

/// The status that goes with a finding.
pub fn finding_status(finding: &Finding) -> ToolStatus
    ensures { result ≡ finding_status finding.now }
{
    match finding {
        Finding::Yes(_) => ToolStatus::Good,
        _ => ToolStatus::No,
    }
}
