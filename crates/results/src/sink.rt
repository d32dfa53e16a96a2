//! Where a text is written.

ghost use Rattle.std.specs.Prelude.{◌≡◌, ◌+◌, ◌-◌, ◌<◌, ◌≤◌, true, false, [], Ok, length, min, IfOk, flat_map, vec_capacity, vec_len};
ghost use Rattle.results.specs.Sinks.{mem_state, Finished, MemState, Sent, SentUnsettled, SinkState, Wrote};

use geom::NoMemory;
use std::alloc::Allocator;
use std::marker::Model;
use thiserror::Error;

/// A sink failed.
#[derive(Clone, Copy, Debug, PartialEq, Eq, Error)]
#[error("write failed")]
pub struct SinkFault;

/// What takes a text, some bytes at a time.
pub trait Sink {
    // the calls that failed, whether it is settled, and the bytes taken, where it tells them
    ghost state: { Self → SinkState };

    /// Takes the first bytes, one at least, or fails and takes none.
    fn write(&mut self, bytes: &[u8]) -> Result<usize, SinkFault>
        requires some { 0 < length bytes.now }
        requires countable { (state self.old).failed < u64.MAX }
        ensures { Wrote (state self.old) (state self.new) bytes.now result };

    /// Settles what was taken.
    fn finish(&mut self) -> Result<(), SinkFault>
        requires { (state self.old).failed < u64.MAX }
        ensures { Finished (state self.old) (state self.new) result };

    /// How many calls failed.
    fn failures(&self) -> u64
        ensures { result ≡ (state self.now).failed };
}

/// Writes the whole text, and doesn't settle it.
fn write_unsettled<S: Sink>(sink: &mut S, text: &[u8]) -> Result<(), SinkFault>
    requires { (S.state sink.old).failed < u64.MAX }
    ensures { SentUnsettled (S.state sink.old) (S.state sink.new) text.now result }
{
    let mut at = 0;
    while at < text.len() {
        at += sink.write(&text[at..])?;
    }
    Ok(())
}

/// Writes the whole text and settles it.
pub fn write_all<S: Sink>(sink: &mut S, text: &[u8]) -> Result<(), SinkFault>
    requires { (S.state sink.old).failed < u64.MAX }
    ensures { Sent (S.state sink.old) (S.state sink.new) text.now result }
{
    write_unsettled(sink, text)?;
    sink.finish()
}

/// Writes the whole text that these parts are, one behind another, and settles it.
pub fn write_parts<S: Sink, A: Allocator>(
    sink: &mut S,
    parts: &[Vec<u8, A>],
) -> Result<(), SinkFault>
    requires { (S.state sink.old).failed < u64.MAX }
    ensures { Sent (S.state sink.old) (S.state sink.new) (flat_map (λ p. p.items) parts.now) result }
{
    for part in parts {
        write_unsettled(sink, part)?;
    }
    sink.finish()
}

/// A sink in memory, with room for so many bytes.
#[derive(Drop)]
pub struct MemSink<A: Allocator> {
    bytes: Vec<u8, A>,
    room: usize,
    failures: u64,
    settled: bool,
}

impl<A: Allocator> Model for MemSink<A> {
    ghost Value = { MemState };

    ghost view = { λ s. record { bytes = s.bytes.items; room = s.room; failures = s.failures; settled = s.settled } };

    ghost invariant = { λ s. (s.room ≤ vec_capacity s.bytes) × (vec_len s.bytes ≤ s.room) };
}

impl<A: Allocator> MemSink<A> {
    /// An empty sink with room for so many bytes.
    pub fn new(alloc: A, room: usize) -> Result<MemSink<A>, NoMemory>
        ensures { IfOk result (λ s. s ≡ record { bytes = []; room = room; failures = 0; settled = false }) }
    {
        Ok(MemSink {
            bytes: Vec::with_capacity(alloc, room)?,
            room,
            failures: 0,
            settled: false,
        })
    }

    /// The bytes taken.
    pub fn bytes(&self) -> &[u8]
        ensures { result.now ≡ self.now.bytes }
    {
        self.bytes.as_slice()
    }

    /// Whether a `finish` succeeded and no `write` came after it.
    pub fn is_settled(&self) -> bool
        ensures { result ≡ self.now.settled }
    {
        self.settled
    }
}

impl<A: Allocator> Sink for MemSink<A> {
    ghost state = { mem_state };

    fn write(&mut self, bytes: &[u8]) -> Result<usize, SinkFault>
        requires some { 0 < length bytes.now }
        requires countable { self.old.failures < u64.MAX }
        ensures wrote { Wrote (mem_state self.old) (mem_state self.new) bytes.now result }
        ensures room { self.new.room ≡ self.old.room }
        ensures fits { length self.old.bytes < self.old.room → result ≡ Ok (min (length bytes.now) (self.old.room - length self.old.bytes)) }
    {
        self.settled = false;
        let left = self.room - self.bytes.len();
        if left == 0 {
            self.failures += 1;
            return Err(SinkFault);
        }
        let count = bytes.len().min(left);
        self.bytes.extend_from_slice(&bytes[..count]).unwrap();
        Ok(count)
    }

    fn finish(&mut self) -> Result<(), SinkFault>
        requires { self.old.failures < u64.MAX }
        ensures finished { Finished (mem_state self.old) (mem_state self.new) result }
        ensures succeeds { result ≡ Ok tt }
        ensures room { self.new.room ≡ self.old.room }
    {
        self.settled = true;
        Ok(())
    }

    fn failures(&self) -> u64 {
        self.failures
    }
}
