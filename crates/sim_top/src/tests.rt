//! Worked runs, from bytes to bytes.

use crate::{Status, sim};
use host_io::{MemSink, MemSource};
use ignite_types::Mem;
use std::alloc::Global;
use std::test::Fail;

/// One block and one bare read.
const FIRST: &str = "scenario 1\nserver 1\nsession A 1\nbegin\nput a 1\ncommit\nget a\nend\n";

const FIRST_REPORT: &str =
    "session A on 1\n1 begin pessimistic 0: ok\n2 put a 1: ok\n3 commit: committed\n4 get a: value 1\nplan 0\ndeadlocks 0\nhistory 2\n1 A#1 1.0 reads - writes a=1\n2 A#2 1.0 reads a=1 writes -\nmap 1\na=1\ntop 1.0\nend 0\n";

const EMPTY: &str = "scenario 1\nserver 1\nsession A 1\nend\n";

const EMPTY_REPORT: &str =
    "session A on 1\nplan 0\ndeadlocks 0\nhistory 0\nmap 0\ntop 1.0\nend 0\n";

/// Two sessions that lock two keys in opposite orders, and a server that is lost later.
const DEADLOCK: &str =
    "scenario 1\nparts 4\nbackups 1\nserver 1\nserver 2\nserver 3\nclient 9\nplan 4 lose 3\nsession A 1\nbegin\nput a 1\nsleep 1\nput b 1\ncommit\nsleep 10\nget b\nend\nsession B 9\nbegin pessimistic 3\nput b 2\nsleep 1\nput a 2\ncommit\nget b\nend\n";

const DEADLOCK_REPORT: &str =
    "session A on 1\n1 begin pessimistic 0: ok\n2 put a 1: ok\n3 sleep 1: ok\n4 put b 1: ok\n5 commit: committed\n6 sleep 10: ok\n7 get b: value 1\nsession B on 9\n1 begin pessimistic 3: ok\n2 put b 2: ok\n3 sleep 1: ok\n4 put a 2: timeout deadlock\n5 commit: skipped\n6 get b: value 1\nplan 1\n4 lose 3: ok\ndeadlocks 1\nB#1 edges 2\nB#1 waits for A#1 on a at 1\nA#1 waits for B#1 on b at 3\nhistory 3\n1 A#1 1.0 reads - writes a=1,b=1\n2 B#2 1.0 reads b=1 writes -\n3 A#2 2.1 reads b=1 writes -\nmap 2\na=1\nb=1\ntop 2.1\nend 0\n";

/// Texts that are refused.
const REFUSED: [(&str, &str); 3] = [
    ("", "refused line 1: missing\n"),
    (
        "scenario 1\nserver 1\nsession A 1\nput a",
        "refused line 4: syntax\n",
    ),
    ("fly\n", "refused line 1: unknown word\n"),
];

/// What a call ends with over memory, with these calls of the source and of the sink failing.
fn outcome(
    alloc: Global,
    text: &str,
    reads: &[u64],
    room: usize,
    writes: &[u64],
) -> Mem<(Status, MemSink)> {
    let bytes = Vec::from_slice(alloc, text.as_bytes())?;
    let mut source = MemSource::new(bytes, Vec::from_slice(alloc, reads)?);
    let mut sink = MemSink::new(alloc, room, Vec::from_slice(alloc, writes)?)?;
    let words = Vec::new(alloc);
    let end = sim(alloc, words.as_slice(), &mut source, &mut sink);
    Ok((end.status, sink))
}

/// A run of two events, with its trace.
const TRACE_REPORT: &str =
    "session A on 1\n1 begin pessimistic 0: ok\nplan 0\ndeadlocks 0\nhistory 0\nmap 0\ntop 1.0\ntrace 2\n1 call A\n2 answer A\nend 4\n";

/// What a call with these words ends with over memory.
fn told(alloc: Global, words: &[&str]) -> Mem<(Status, MemSink)> {
    let bytes = Vec::from_slice(alloc, FIRST.as_bytes())?;
    let mut source = MemSource::new(bytes, Vec::new(alloc));
    let mut sink = MemSink::new(alloc, 1000, Vec::new(alloc))?;
    let mut list = Vec::new(alloc);
    for word in words {
        list.push(String::from_str(alloc, word)?)?;
    }
    let end = sim(alloc, list.as_slice(), &mut source, &mut sink);
    Ok((end.status, sink))
}

#[test]
fn reports_of_runs(rt: HostRuntime) -> Result<(), Fail> {
    let runs = [
        (FIRST, FIRST_REPORT),
        (EMPTY, EMPTY_REPORT),
        (DEADLOCK, DEADLOCK_REPORT),
    ];
    for (text, report) in runs {
        let (status, sink) = outcome(rt.alloc(), text, &[], 1000, &[])?;
        assert_eq!(rt; status, Status::AllEnded);
        assert_eq!(rt; sink.bytes(), report.as_bytes());
    }
    Ok(())
}

#[test]
fn faults_of_the_streams(rt: HostRuntime) -> Result<(), Fail> {
    let (status, sink) = outcome(rt.alloc(), FIRST, &[2], 1000, &[])?;
    assert_eq!(rt; status, Status::ReadFault);
    assert_eq!(rt; sink.bytes(), b"read fault\n".as_slice());
    let (status, sink) = outcome(rt.alloc(), FIRST, &[], 1000, &[1])?;
    assert_eq!(rt; status, Status::WriteFault);
    assert_eq!(rt; sink.bytes(), b"".as_slice());
    let (status, sink) = outcome(rt.alloc(), FIRST, &[], 202, &[])?;
    assert_eq!(rt; status, Status::WriteFault);
    assert_eq!(rt; sink.bytes().len(), 202);
    Ok(())
}

#[test]
fn texts_that_are_refused(rt: HostRuntime) -> Result<(), Fail> {
    for (text, line) in REFUSED {
        let (status, sink) = outcome(rt.alloc(), text, &[], 1000, &[])?;
        assert_eq!(rt; status, Status::Refused);
        assert_eq!(rt; sink.bytes(), line.as_bytes());
    }
    Ok(())
}

/// The history of the first run as JSON.
const FIRST_JSON: &str =
    "{\"history\":[{\"reads\":[],\"top\":\"1.0\",\"tx\":\"A#1\",\"writes\":[[\"a\",\"1\"]]},{\"reads\":[[\"a\",\"1\"]],\"top\":\"1.0\",\"tx\":\"A#2\",\"writes\":[]}],\"map\":[[\"a\",\"1\"]]}\n";

#[test]
fn other_forms_of_a_run(rt: HostRuntime) -> Result<(), Fail> {
    let (status, sink) = told(rt.alloc(), &["--json"])?;
    assert_eq!(rt; status, Status::AllEnded);
    assert_eq!(rt; sink.bytes(), FIRST_JSON.as_bytes());
    let (status, sink) = told(rt.alloc(), &["--make=1", "--txs", "1", "--steps", "1"])?;
    assert_eq!(rt; status, Status::StepLimit);
    assert_eq!(rt; sink.bytes(), MADE_SUMMARY.as_bytes());
    Ok(())
}

/// Of a run that ends with its first event.
const MADE_SUMMARY: &str =
    "made sessions 1 txs 1 seed 0\ncommitted 0\nfailed 0\ntotal 0\ntop 1.0\nend 4\n";

#[test]
fn words_of_the_command_line(rt: HostRuntime) -> Result<(), Fail> {
    let (status, sink) = told(rt.alloc(), &["--steps=2", "--trace"])?;
    assert_eq!(rt; status, Status::StepLimit);
    assert_eq!(rt; sink.bytes(), TRACE_REPORT.as_bytes());
    let (status, _sink) = told(rt.alloc(), &["--seed", "7"])?;
    assert_eq!(rt; status, Status::AllEnded);
    let (status, sink) = told(rt.alloc(), &["--help"])?;
    assert_eq!(rt; status, Status::Usage);
    assert_eq!(rt; sink.bytes().len(), 76);
    Ok(())
}
