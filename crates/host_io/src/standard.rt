//! Standard input and output as a source and a sink. They tell no bytes, and no clause says which bytes
//! come from the system or reach it.

ghost use Rattle.std.specs.Prelude.{◌≡◌, ◌<◌, ◌≤◌, length, None, IfOk, OnOk, OnErr};
ghost use Rattle.host_io.specs.Faults.{Faulted, next_count};

use crate::failed::Failed;
use crate::sink::Sink;
use crate::source::Source;
use std::io::{ErrorKind, Read, Stdin, Stdout, Write};
use std::marker::Model;

/// How often a call is made again, at most, that a signal has interrupted.
const TRIES: u32 = 16;

/// Standard input. It counts a fault at each error, and is seen as that count.
#[derive(Drop)]
pub struct StdSource {
    input: Stdin,
    faults: u64,
}

impl Model for StdSource {
    ghost use Rattle.std.specs.Prelude.{ℕ};

    ghost Value = { ℕ };

    ghost view = { λ s. s.faults };
}

impl StdSource {
    /// Standard input, with no fault so far.
    pub fn new(input: Stdin) -> StdSource
        ensures { result ≡ 0 }
    {
        StdSource { input, faults: 0 }
    }
}

impl Source for StdSource {
    ghost left = { λ _. None };

    ghost faults = { λ s. s };

    fn take(&mut self, buf: &mut [u8]) -> Result<usize, Failed>
        ensures fits { IfOk result (λ n. n ≤ length buf.new) }
        ensures steady { OnOk result (self.new ≡ self.old) }
        ensures counted { OnErr result (self.new ≡ next_count self.old) }
        ensures failed { OnErr result (Faulted self.old self.new) }
        ensures counts { self.old ≤ self.new }
    {
        for _ in 0..TRIES {
            match self.input.read(buf) {
                Ok(count) => return Ok(count),
                Err(e) if e.kind() == ErrorKind::Interrupted => {}
                Err(_) => break,
            }
        }
        self.faults = self.faults.saturating_add(1);
        Err(Failed)
    }
}

/// Standard output, with no buffer. It counts a fault at each error, and is seen as that count.
#[derive(Drop)]
pub struct StdSink {
    output: Stdout,
    faults: u64,
}

impl Model for StdSink {
    ghost use Rattle.std.specs.Prelude.{ℕ};

    ghost Value = { ℕ };

    ghost view = { λ s. s.faults };
}

impl StdSink {
    /// Standard output, with no fault so far.
    pub fn new(output: Stdout) -> StdSink
        ensures { result ≡ 0 }
    {
        StdSink { output, faults: 0 }
    }
}

impl Sink for StdSink {
    ghost held = { λ _. None };

    ghost faults = { λ s. s };

    fn put(&mut self, bytes: &[u8]) -> Result<usize, Failed>
        ensures fits { IfOk result (λ n. n ≤ length bytes.now) }
        ensures progress { IfOk result (λ n. 0 < length bytes.now → 0 < n) }
        ensures steady { OnOk result (self.new ≡ self.old) }
        ensures counted { OnErr result (self.new ≡ next_count self.old) }
        ensures failed { OnErr result (Faulted self.old self.new) }
        ensures counts { self.old ≤ self.new }
    {
        if bytes.is_empty() {
            return Ok(0);
        }
        for _ in 0..TRIES {
            match self.output.write(bytes) {
                Ok(0) => break,
                Ok(count) => return Ok(count),
                Err(e) if e.kind() == ErrorKind::Interrupted => {}
                Err(_) => break,
            }
        }
        self.faults = self.faults.saturating_add(1);
        Err(Failed)
    }
}
