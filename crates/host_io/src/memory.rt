//! A source and a sink over memory, whose failing calls are chosen beforehand.

ghost use Rattle.std.specs.Prelude.{◌≡◌, ◌≤◌, [], length, take, Some, IfOk, OnErr};
ghost use Rattle.host_io.specs.Faults.{Faulted};
ghost use Rattle.host_io.specs.Plan.{fresh_plan};
ghost use Rattle.host_io.specs.Memory.{take_answer, after_take, put_answer, after_put};

use crate::failed::Failed;
use crate::plan::CallPlan;
use crate::sink::Sink;
use crate::source::Source;
use ignite_types::Mem;
use std::alloc::Global;
use std::marker::Model;

/// A source that tells its bytes. Each call of `take` whose number, from 1, was named beforehand counts
/// a fault and takes nothing; each other call takes what fits into the buffer.
#[derive(Drop)]
pub struct MemSource {
    bytes: Vec<u8>,
    taken: usize,
    plan: CallPlan,
}

impl Model for MemSource {
    ghost use Rattle.std.specs.Prelude.{◌≤◌, drop, vec_len};
    ghost use Rattle.host_io.specs.Memory.{Supply};

    ghost Value = { Supply };

    ghost view = { λ s. record { left = drop s.taken s.bytes.items; plan = s.plan } };

    ghost invariant = { λ s. s.taken ≤ vec_len s.bytes };
}

impl MemSource {
    /// A source of these bytes, whose calls with these numbers fail.
    pub fn new(bytes: Vec<u8>, fails: Vec<u64>) -> MemSource
        ensures { result ≡ record { left = bytes.items; plan = fresh_plan fails.items } }
    {
        MemSource {
            bytes,
            taken: 0,
            plan: CallPlan::new(fails),
        }
    }
}

impl Source for MemSource {
    ghost left = { λ s. Some s.left };

    ghost faults = { λ s. s.plan.faults };

    fn take(&mut self, buf: &mut [u8]) -> Result<usize, Failed>
        ensures answer { result ≡ take_answer self.old (length buf.new) }
        ensures after { self.new ≡ after_take self.old (length buf.new) }
        ensures bytes { IfOk result (λ n. take n buf.new ≡ take n self.old.left) }
        ensures failed { OnErr result (Faulted self.old.plan.faults self.new.plan.faults) }
        ensures counts { self.old.plan.faults ≤ self.new.plan.faults }
    {
        if self.plan.begin() {
            self.plan.count_fault();
            return Err(Failed);
        }
        let rest = &self.bytes[self.taken..];
        let count = buf.len().min(rest.len());
        buf[..count].copy_from_slice(&rest[..count]);
        self.taken += count;
        Ok(count)
    }
}

/// A sink that tells its bytes and has room for so many. Each call of `put` whose number, from 1, was
/// named beforehand counts a fault and takes nothing, whatever the piece. Each other call takes what
/// fits; where nothing fits of a piece that is not empty, it counts a fault too.
#[derive(Drop)]
pub struct MemSink {
    held: Vec<u8>,
    room: usize,
    plan: CallPlan,
}

impl Model for MemSink {
    ghost use Rattle.std.specs.Prelude.{◌≤◌, vec_len};
    ghost use Rattle.std.specs.Vec.{vec_capacity};
    ghost use Rattle.host_io.specs.Memory.{Store};

    ghost Value = { Store };

    ghost view = { λ s. record { held = s.held.items; room = s.room; plan = s.plan } };

    ghost invariant = { λ s. (vec_len s.held ≤ s.room) × (s.room ≤ vec_capacity s.held) };
}

impl MemSink {
    /// An empty sink with room for `room` bytes in all, which it reserves, and whose calls with these
    /// numbers fail. It is `NoMemory` where the room cannot be reserved.
    pub fn new(alloc: Global, room: usize, fails: Vec<u64>) -> Mem<MemSink>
        ensures { IfOk result (λ sink. sink ≡ record { held = []; room = room; plan = fresh_plan fails.items }) }
    {
        Ok(MemSink {
            held: Vec::with_capacity(alloc, room)?,
            room,
            plan: CallPlan::new(fails),
        })
    }

    /// The bytes that the sink holds.
    pub fn bytes(&self) -> &[u8]
        ensures { result.now ≡ self.now.held }
    {
        self.held.as_slice()
    }
}

impl Sink for MemSink {
    ghost held = { λ s. Some s.held };

    ghost faults = { λ s. s.plan.faults };

    fn put(&mut self, bytes: &[u8]) -> Result<usize, Failed>
        ensures answer { result ≡ put_answer self.old (length bytes.now) }
        ensures after { self.new ≡ after_put self.old bytes.now }
        ensures failed { OnErr result (Faulted self.old.plan.faults self.new.plan.faults) }
        ensures counts { self.old.plan.faults ≤ self.new.plan.faults }
    {
        let fails = self.plan.begin();
        let count = bytes.len().min(self.room - self.held.len());
        if fails || (!bytes.is_empty() && count == 0) {
            self.plan.count_fault();
            return Err(Failed);
        }
        // There is room for them, so this takes no memory.
        self.held.extend_from_slice(&bytes[..count]).unwrap();
        Ok(count)
    }
}
