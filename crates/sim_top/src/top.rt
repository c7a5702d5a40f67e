//! The top call.

ghost use Rattle.std.specs.Prelude.{map, string_bytes};
ghost use Rattle.sim_top.specs.Sim.{Ends};

use crate::said::{Said, say};
use host_io::{Sink, Source, write_all};
use ignite_types::{Journal, Status};
use std::alloc::Global;

/// How a call ended: its status and the journal of its run. Where no run was made the journal has no group.
#[derive(Debug, Drop)]
pub struct SimEnd {
    pub status: Status,
    pub journal: Journal,
}

/// Reads a scenario from the source, runs it in the schedule that the seed among the words picks, and writes the report to the
/// sink. Words that are no command line are answered by the usage line.
pub fn sim<S: Source, K: Sink>(
    alloc: Global,
    words: &[String],
    source: &mut S,
    sink: &mut K,
) -> SimEnd
    ensures { Ends (map string_bytes words.now)
        (record { before = S.left source.old; after = S.left source.new; faults_before = S.faults source.old; faults_after = S.faults source.new })
        (record { before = K.held sink.old; after = K.held sink.new; faults_before = K.faults sink.old; faults_after = K.faults sink.new })
        result.status result.journal }
{
    let Said {
        status,
        journal,
        text,
    } = say(alloc, words, source);
    match write_all(sink, text.as_slice()) {
        Ok(()) => SimEnd { status, journal },
        Err(_) => SimEnd {
            status: Status::WriteFault,
            journal,
        },
    }
}
