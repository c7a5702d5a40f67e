//! What no clause says: that calls succeed, and what is left or held after a call that failed.

ghost use Rattle.std.specs.Prelude.{◌<◌, ◌≤◌, None};

use crate::{
    Failed, MAX_LIMIT, MemSink, MemSource, READ_ALL_LIMIT, ReadEnd, Sink, Source, StdSink,
    StdSource, read_all, read_up_to, write_all,
};
use std::alloc::{AllocError, Global};

const SCENARIO: &[u8] = b"scenario 1\nserver 1\nsession A 1\nbegin\nput a 1\ncommit\nget a\nend\n";

/// A source of `len` bytes, whose calls with these numbers fail.
fn source_of(alloc: Global, len: usize, fails: &[u64]) -> Result<MemSource, AllocError> {
    let bytes = vec![in alloc; 7; len]?;
    Ok(MemSource::new(bytes, Vec::from_slice(alloc, fails)?))
}

/// A sink that takes two bytes of a piece at most, and fails from one call on.
#[derive(Drop)]
struct Drip {
    taken: Vec<u8>,
    good_calls: u64,
    faults: u64,
}

impl Sink for Drip {
    ghost held = { λ _. None };

    ghost faults = { λ s. s.faults };

    fn put(&mut self, bytes: &[u8]) -> Result<usize, Failed> {
        let count = bytes.len().min(2);
        if self.good_calls > 0 && self.taken.extend_from_slice(&bytes[..count]).is_ok() {
            self.good_calls -= 1;
            return Ok(count);
        }
        self.faults = self.faults.saturating_add(1);
        Err(Failed)
    }
}

/// How many bytes are left after a read that ends like this, or None where it ends in another way.
fn left_after(
    alloc: Global,
    end: ReadEnd,
    source: &mut MemSource,
    limit: usize,
) -> Result<Option<usize>, ReadEnd>
    requires positive { 0 < limit }
    requires bounded { limit ≤ MAX_LIMIT }
{
    if read_up_to(alloc, source, limit).err() != Some(end) {
        return Ok(None);
    }
    Ok(Some(read_all(alloc, source)?.len()))
}

fn left_after_fault(alloc: Global, failing: u64) -> Result<Option<usize>, ReadEnd> {
    let mut source = source_of(alloc, 20_000, &[failing])?;
    left_after(alloc, ReadEnd::Fault, &mut source, READ_ALL_LIMIT)
}

fn left_after_too_long(alloc: Global, limit: usize, len: usize) -> Result<Option<usize>, ReadEnd>
    requires positive { 0 < limit }
    requires bounded { limit ≤ MAX_LIMIT }
{
    let mut source = source_of(alloc, len, &[])?;
    left_after(alloc, ReadEnd::TooLong, &mut source, limit)
}

#[test]
fn reads_all_or_stops_at_the_call_that_fails(rt: HostRuntime) -> Result<(), ReadEnd> {
    // Two chunks of 8192 bytes, a rest, and the call that finds the end.
    assert_eq!(rt; left_after_fault(rt.alloc(), 1)?, Some(20_000));
    assert_eq!(rt; left_after_fault(rt.alloc(), 2)?, Some(11_808));
    assert_eq!(rt; left_after_fault(rt.alloc(), 3)?, Some(3_616));
    assert_eq!(rt; left_after_fault(rt.alloc(), 4)?, Some(0));
    assert_eq!(rt; left_after_fault(rt.alloc(), 5)?, None);
    Ok(())
}

#[test]
fn reads_at_most_the_limit(rt: HostRuntime) -> Result<(), ReadEnd> {
    assert!(rt; left_after_too_long(rt.alloc(), 5, 5)?.is_none());
    assert!(rt; left_after_too_long(rt.alloc(), 5, 6)? == Some(0));
    assert!(rt; left_after_too_long(rt.alloc(), 5, 9)? == Some(3));
    assert!(rt; left_after_too_long(rt.alloc(), 8191, 8192)? == Some(0));
    assert!(rt; left_after_too_long(rt.alloc(), 8192, 20_000)? == Some(11_807));
    Ok(())
}

#[test]
fn reads_what_a_scenario_may_have(rt: HostRuntime) -> Result<(), ReadEnd> {
    let mut source = source_of(rt.alloc(), READ_ALL_LIMIT, &[])?;
    assert!(rt; read_all(rt.alloc(), &mut source)?.len() == READ_ALL_LIMIT);
    let mut source = source_of(rt.alloc(), READ_ALL_LIMIT + 1, &[])?;
    assert!(rt; matches!(read_all(rt.alloc(), &mut source), Err(ReadEnd::TooLong)));
    Ok(())
}

/// Whether a sink with this room holds as much of the report as fits after it was written.
fn fills(alloc: Global, room: usize) -> Result<bool, ReadEnd> {
    let report = b"1 commit\n";
    let mut sink = MemSink::new(alloc, room, Vec::new(alloc))?;
    let wrote = write_all(&mut sink, report).is_ok();
    let fitting = room.min(report.len());
    Ok(wrote == (room >= report.len()) && sink.bytes() == &report[..fitting])
}

#[test]
fn fills_each_room(rt: HostRuntime) -> Result<(), ReadEnd> {
    for room in 0..12 {
        assert!(rt; fills(rt.alloc(), room)?, "room {room}");
    }
    Ok(())
}

/// Whether a sink that fails after so many calls holds these bytes then.
fn keeps(alloc: Global, good_calls: u64, want: &[u8]) -> bool {
    let mut sink = Drip {
        taken: Vec::new(alloc),
        good_calls,
        faults: 0,
    };
    let wrote = write_all(&mut sink, b"1 commit\n").is_ok();
    wrote == (sink.faults == 0) && sink.taken.as_slice() == want
}

#[test]
fn keeps_the_bytes_before_a_write_that_fails(rt: HostRuntime) {
    assert!(rt; keeps(rt.alloc(), 0, b""));
    assert!(rt; keeps(rt.alloc(), 1, b"1 "));
    assert!(rt; keeps(rt.alloc(), 3, b"1 comm"));
    assert!(rt; keeps(rt.alloc(), 4, b"1 commit"));
    assert!(rt; keeps(rt.alloc(), 9, b"1 commit\n"));
}

#[test]
fn a_scenario_meets_a_fault_in_reading(rt: HostRuntime) -> Result<(), ReadEnd> {
    let bytes = Vec::from_slice(rt.alloc(), SCENARIO)?;
    let mut source = MemSource::new(bytes, Vec::from_slice(rt.alloc(), &[2])?);
    assert!(rt; matches!(read_all(rt.alloc(), &mut source), Err(ReadEnd::Fault)));
    Ok(())
}

#[test]
fn a_scenario_meets_a_fault_in_writing(rt: HostRuntime) -> Result<(), ReadEnd> {
    let mut sink = MemSink::new(rt.alloc(), 1000, Vec::from_slice(rt.alloc(), &[1])?)?;
    assert!(rt; write_all(&mut sink, SCENARIO).is_err());
    assert!(rt; sink.bytes().is_empty());
    assert!(rt; write_all(&mut sink, SCENARIO).is_ok());
    assert!(rt; sink.bytes() == SCENARIO);
    Ok(())
}

#[test]
fn standard_input_takes_into_no_room(rt: HostRuntime) {
    let mut source = StdSource::new(rt.stdin());
    assert_eq!(rt; source.take(&mut []), Ok(0));
}

#[test]
fn standard_output_takes_a_piece(rt: HostRuntime) {
    let mut sink = StdSink::new(rt.stdout());
    assert_eq!(rt; sink.put(b""), Ok(0));
    assert_eq!(rt; write_all(&mut sink, b"a piece\n"), Ok(()));
}
