//! Bytes in and bytes out: sources and sinks that count their faults, over memory and over the
//! standard streams, and the calls that read or write the whole of something.
#![tactic(auto)]

mod failed;
mod memory;
mod plan;
mod sink;
mod source;
mod standard;
mod status;
#[cfg(test)]
mod tests;

pub use failed::Failed;
pub use memory::{MemSink, MemSource};
pub use sink::{Sink, write_all};
pub use source::{MAX_LIMIT, READ_ALL_LIMIT, ReadEnd, Source, read_all, read_up_to};
pub use standard::{StdSink, StdSource};
pub use status::ToolStatus;
