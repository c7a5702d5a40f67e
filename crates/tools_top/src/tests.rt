//! What the words of the command line ask for.

use crate::made_up::MADE_UP;
use crate::{ToolStatus, tools};
use host_io::{MemSink, MemSource};
use ignite_types::Mem;
use std::alloc::Global;
use std::test::Fail;

/// The history of one block and one bare read, as the simulator prints it.
const FIRST: &str =
    "{\"history\":[{\"reads\":[],\"top\":\"1.0\",\"tx\":\"A#1\",\"writes\":[[\"a\",\"1\"]]},{\"reads\":[[\"a\",\"1\"]],\"top\":\"1.0\",\"tx\":\"A#2\",\"writes\":[]}],\"map\":[[\"a\",\"1\"]]}\n";

/// The same with another value read.
const WRONG: &str =
    "{\"history\":[{\"reads\":[],\"top\":\"1.0\",\"tx\":\"A#1\",\"writes\":[[\"a\",\"1\"]]},{\"reads\":[[\"a\",\"2\"]],\"top\":\"1.0\",\"tx\":\"A#2\",\"writes\":[]}],\"map\":[[\"a\",\"1\"]]}\n";

const USAGE: &str = "usage: txtools audit\n";

/// What a call with these words ends with over memory.
fn told(alloc: Global, words: &[&str], text: &str) -> Mem<(ToolStatus, MemSink)> {
    let bytes = Vec::from_slice(alloc, text.as_bytes())?;
    let mut source = MemSource::new(bytes, Vec::new(alloc));
    let mut sink = MemSink::new(alloc, 100, Vec::new(alloc))?;
    let mut list = Vec::new(alloc);
    for word in words {
        list.push(String::from_str(alloc, word)?)?;
    }
    let status = tools(alloc, list.as_slice(), &mut source, &mut sink);
    Ok((status, sink))
}

#[test]
fn audits_histories(rt: HostRuntime) -> Result<(), Fail> {
    let table = [
        (FIRST, ToolStatus::Good, "yes 2\n"),
        (WRONG, ToolStatus::No, "no at 2: read a\n"),
        (MADE_UP, ToolStatus::Good, "yes 98\n"),
        ("{", ToolStatus::Refused, "refused: not json\n"),
    ];
    for (text, wanted, line) in table {
        let (status, sink) = told(rt.alloc(), &["audit"], text)?;
        assert_eq!(rt; sink.bytes(), line.as_bytes());
        assert_eq!(rt; status, wanted);
    }
    Ok(())
}

#[test]
fn refuses_words(rt: HostRuntime) -> Result<(), Fail> {
    let table: [&[&str]; 7] = [
        &[],
        &[""],
        &["audits"],
        &["audit", "audit"],
        &["audit", "--"],
        &["--", "audit"],
        &["--help"],
    ];
    for words in table {
        let (status, sink) = told(rt.alloc(), words, FIRST)?;
        assert_eq!(rt; sink.bytes(), USAGE.as_bytes());
        assert_eq!(rt; status, ToolStatus::Usage);
    }
    Ok(())
}
