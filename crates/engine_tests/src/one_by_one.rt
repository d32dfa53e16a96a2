//! A sink that fails at one of its calls.

ghost use Rattle.std.specs.Prelude.{◌≡◌, ◌<◌, Some};
ghost use Rattle.results.specs.Sinks.{SinkState};

use engine::{Sink, SinkFault};
use std::alloc::Allocator;

/// A sink that takes one byte a call, and fails at one of its calls.
#[derive(Drop)]
pub struct OneByOne<A: Allocator> {
    pub taken: Vec<u8, A>,
    pub calls: u64,
    fails_at: u64,
    pub failures: u64,
    pub settled: bool,
}

impl<A: Allocator> OneByOne<A> {
    /// Fails at the call of this number, counted from 1; 0 is none.
    pub fn new(alloc: A, fails_at: u64) -> OneByOne<A>
        ensures { result.failures ≡ 0 }
    {
        OneByOne {
            taken: Vec::new(alloc),
            calls: 0,
            fails_at,
            failures: 0,
            settled: false,
        }
    }
}

impl<A: Allocator> Sink for OneByOne<A> {
    ghost state = { λ s. record { failed = s.failures; settled = s.settled; taken = Some s.taken.items } };

    fn write(&mut self, bytes: &[u8]) -> Result<usize, SinkFault> {
        self.settled = false;
        self.calls = self.calls.saturating_add(1);
        if self.calls == self.fails_at || self.taken.push(bytes[0]).is_err() {
            self.failures += 1;
            return Err(SinkFault);
        }
        Ok(1)
    }

    fn finish(&mut self) -> Result<(), SinkFault> {
        self.calls = self.calls.saturating_add(1);
        if self.calls == self.fails_at {
            self.failures += 1;
            return Err(SinkFault);
        }
        self.settled = true;
        Ok(())
    }

    fn failures(&self) -> u64 {
        self.failures
    }
}
