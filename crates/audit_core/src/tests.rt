//! Texts and what is told of them.

use crate::audit;
use host_io::{MemSink, MemSource, ToolStatus};
use ignite_types::Mem;
use std::alloc::Global;
use std::test::Fail;

/// The history of one block and one bare read.
const FIRST: &str =
    r#"{"history":[{"reads":[],"top":"1.0","tx":"A#1","writes":[["a","1"]]},{"reads":[["a","1"]],"top":"1.0","tx":"A#2","writes":[]}],"map":[["a","1"]]}"#;

/// What an audit of these bytes ends with over memory, with these calls of the source and of the sink failing.
fn outcome(
    alloc: Global,
    bytes: &[u8],
    reads: &[u64],
    room: usize,
    writes: &[u64],
) -> Mem<(ToolStatus, MemSink)> {
    let bytes = Vec::from_slice(alloc, bytes)?;
    let mut source = MemSource::new(bytes, Vec::from_slice(alloc, reads)?);
    let mut sink = MemSink::new(alloc, room, Vec::from_slice(alloc, writes)?)?;
    let status = audit(alloc, &mut source, &mut sink);
    Ok((status, sink))
}

/// The place of the first of these texts that is told otherwise than with this status and its line.
fn first_other(alloc: Global, table: &[(&str, &str)], wanted: ToolStatus) -> Mem<Option<usize>> {
    for (place, row) in table.iter().enumerate() {
        let (status, sink) = outcome(alloc, row.0.as_bytes(), &[], 200, &[])?;
        if status != wanted || sink.bytes() != row.1.as_bytes() {
            return Ok(Some(place));
        }
    }
    Ok(None)
}

/// Histories that are serial.
const SERIAL: [(&str, &str); 5] = [
    (FIRST, "yes 2\n"),
    (r#"{"history":[],"map":[]}"#, "yes 0\n"),
    (
        " {\"map\" : [] ,\n \"history\":[{\"writes\":[[\"a\",null]],\"tx\":\"x\",\"top\":\"18446744073709551615.0\",\"reads\":[[\"a\",null],[\"b\",null]]}]}",
        "yes 1\n",
    ),
    // the last of two members with one name counts
    (r#"{"map":3,"history":[],"map":[]}"#, "yes 0\n"),
    // a value that was removed is absent
    (
        r#"{"history":[{"reads":[],"top":"1.0","tx":"A#1","writes":[["a","1"],["b",""]]},{"reads":[],"top":"1.0","tx":"B#1","writes":[["a",null]]},{"reads":[["a",null],["b",""]],"top":"2.0","tx":"C#1","writes":[["c","5"]]}],"map":[["b",""],["c","5"]]}"#,
        "yes 3\n",
    ),
];

#[test]
fn serial_histories(rt: HostRuntime) -> Result<(), Fail> {
    let other = first_other(rt.alloc(), SERIAL.as_slice(), ToolStatus::Good)?;
    assert_eq!(rt; other, None);
    Ok(())
}

/// Histories with a fault.
const FAULTY: [(&str, &str); 8] = [
    (
        r#"{"history":[{"reads":[],"top":"1.0","tx":"A#1","writes":[["a","1"]]},{"reads":[["a","2"]],"top":"1.0","tx":"A#2","writes":[]}],"map":[["a","1"]]}"#,
        "no at 2: read a\n",
    ),
    // a name, a version and a read are wrong: the name comes first, then the version
    (
        r#"{"history":[{"reads":[],"top":"1.1","tx":"A#1","writes":[]},{"reads":[["a","2"]],"top":"1.0","tx":"A#1","writes":[]}],"map":[]}"#,
        "no at 2: twice\n",
    ),
    (
        r#"{"history":[{"reads":[],"top":"1.1","tx":"A#1","writes":[]},{"reads":[["a","2"]],"top":"1.0","tx":"B#1","writes":[]}],"map":[]}"#,
        "no at 2: version falls\n",
    ),
    // a read that a later entry alone would make good, and the first of two reads
    (
        r#"{"history":[{"reads":[["b","1"],["c","1"]],"top":"1.0","tx":"A#1","writes":[["b","1"]]}],"map":[["b","1"]]}"#,
        "no at 1: read b\n",
    ),
    // an entry does not see its own writes
    (
        r#"{"history":[{"reads":[],"top":"1.0","tx":"A#1","writes":[["a","1"]]},{"reads":[],"top":"1.0","tx":"B#1","writes":[["a","2"]]},{"reads":[["a","1"]],"top":"1.0","tx":"C#1","writes":[]}],"map":[["a","2"]]}"#,
        "no at 3: read a\n",
    ),
    (
        r#"{"history":[{"reads":[],"top":"1.0","tx":"A#1","writes":[["a","1"],["b","1"]]}],"map":[["b","2"]]}"#,
        "no map a\n",
    ),
    (
        r#"{"history":[{"reads":[],"top":"1.0","tx":"A#1","writes":[["a","1"],["b","1"]]}],"map":[["a","1"],["b","2"]]}"#,
        "no map b\n",
    ),
    (
        r#"{"history":[],"map":[["a","1"],["b","2"]]}"#,
        "no map a\n",
    ),
];

#[test]
fn first_faults(rt: HostRuntime) -> Result<(), Fail> {
    let other = first_other(rt.alloc(), FAULTY.as_slice(), ToolStatus::No)?;
    assert_eq!(rt; other, None);
    Ok(())
}

/// The place of the first of these texts that is told otherwise than with this status and this line.
fn first_else(alloc: Global, table: &[&str], wanted: ToolStatus, line: &str) -> Mem<Option<usize>> {
    for (place, text) in table.iter().enumerate() {
        let (status, sink) = outcome(alloc, text.as_bytes(), &[], 200, &[])?;
        if status != wanted || sink.bytes() != line.as_bytes() {
            return Ok(Some(place));
        }
    }
    Ok(None)
}

/// JSON values that are no history.
const SHAPELESS: [&str; 26] = [
    "3",
    "[]",
    "{}",
    r#"{"history":[]}"#,
    r#"{"history":[],"map":[],"more":1}"#,
    r#"{"history":{},"map":[]}"#,
    r#"{"history":[],"map":null}"#,
    r#"{"history":[],"map":[["a",null]]}"#,
    r#"{"history":[],"map":[["a"]]}"#,
    r#"{"history":[],"map":[["a","1","2"]]}"#,
    r#"{"history":[],"map":[["a",1]]}"#,
    r#"{"history":[],"map":[["","1"]]}"#,
    r#"{"history":[],"map":[["b","1"],["a","1"]]}"#,
    r#"{"history":[],"map":[["a","1"],["a","1"]]}"#,
    r#"{"history":[{}],"map":[]}"#,
    r#"{"history":[{"reads":[],"top":"1.0","tx":"A#1","writes":[],"more":0}],"map":[]}"#,
    r#"{"history":[{"reads":[],"top":"1.0","writes":[]}],"map":[]}"#,
    r#"{"history":[{"reads":[],"top":"1.0","tx":"","writes":[]}],"map":[]}"#,
    r#"{"history":[{"reads":[],"top":"1","tx":"A#1","writes":[]}],"map":[]}"#,
    r#"{"history":[{"reads":[],"top":"1.","tx":"A#1","writes":[]}],"map":[]}"#,
    r#"{"history":[{"reads":[],"top":".1","tx":"A#1","writes":[]}],"map":[]}"#,
    r#"{"history":[{"reads":[],"top":"01.0","tx":"A#1","writes":[]}],"map":[]}"#,
    r#"{"history":[{"reads":[],"top":"+1.0","tx":"A#1","writes":[]}],"map":[]}"#,
    r#"{"history":[{"reads":[],"top":"1.0.0","tx":"A#1","writes":[]}],"map":[]}"#,
    r#"{"history":[{"reads":[],"top":"1.18446744073709551616","tx":"A#1","writes":[]}],"map":[]}"#,
    r#"{"history":[{"reads":[],"top":1.0,"tx":"A#1","writes":[]}],"map":[]}"#,
];

#[test]
fn values_that_are_no_history(rt: HostRuntime) -> Result<(), Fail> {
    let table = SHAPELESS.as_slice();
    let other = first_else(rt.alloc(), table, ToolStatus::No, "no shape\n")?;
    assert_eq!(rt; other, None);
    Ok(())
}

/// Texts that are no JSON.
const BROKEN: [&str; 9] = [
    "",
    "{",
    r#"{"history":[],"map":[]"#,
    r#"{"history":[],"map":[]}}"#,
    r#"{"history":[],"map":[],}"#,
    "{'history':[],'map':[]}",
    r#"{"history":[],"map":[["a","\ud800"]]}"#,
    r#"{"history":[],"map":[01]}"#,
    "nul",
];

const NOT_JSON: &str = "refused: not json\n";

#[test]
fn texts_that_are_no_json(rt: HostRuntime) -> Result<(), Fail> {
    let table = BROKEN.as_slice();
    let other = first_else(rt.alloc(), table, ToolStatus::Refused, NOT_JSON)?;
    assert_eq!(rt; other, None);
    let (status, sink) = outcome(rt.alloc(), b"\"\xff\"", &[], 200, &[])?;
    assert_eq!(rt; sink.bytes(), NOT_JSON.as_bytes());
    assert_eq!(rt; status, ToolStatus::Refused);
    Ok(())
}

/// What a row of faults comes to: whether the sink has the first bytes of the line, as many as it has room for.
fn cut_off(alloc: Global, room: usize, line: &[u8]) -> Mem<bool> {
    let (status, sink) = outcome(alloc, FIRST.as_bytes(), &[], room, &[])?;
    Ok(
        status == ToolStatus::WriteFault
            && sink.bytes().len() == room
            && line.starts_with(sink.bytes()),
    )
}

#[test]
fn faults_of_source_and_sink(rt: HostRuntime) -> Result<(), Fail> {
    for call in 1..3 {
        let (status, sink) = outcome(rt.alloc(), FIRST.as_bytes(), &[call], 200, &[])?;
        assert_eq!(rt; sink.bytes(), "read fault\n".as_bytes());
        assert_eq!(rt; status, ToolStatus::ReadFault);
    }
    for room in 0..6 {
        assert!(rt; cut_off(rt.alloc(), room, b"yes 2\n")?);
    }
    let (status, sink) = outcome(rt.alloc(), FIRST.as_bytes(), &[], 6, &[])?;
    assert_eq!(rt; sink.bytes(), "yes 2\n".as_bytes());
    assert_eq!(rt; status, ToolStatus::Good);
    let (status, sink) = outcome(rt.alloc(), FIRST.as_bytes(), &[], 200, &[1])?;
    assert!(rt; sink.bytes().is_empty());
    assert_eq!(rt; status, ToolStatus::WriteFault);
    Ok(())
}
