//! A stream whose writes a signal interrupts.

use crate::driving::Recorder;
use engine::{Sink, write_all};
use program::{Printer, Stream};
use std::io;
use std::io::ErrorKind;
use std::test::Fail;

/// Prints two bytes at a call, and fails so many times before each of these.
#[derive(Drop)]
struct InterruptedPrinter {
    kind: ErrorKind,
    times: u32,
    left: u32,
    to: Recorder,
}

impl Printer for InterruptedPrinter {
    fn print(&mut self, bytes: &[u8]) -> io::Result<usize> {
        if self.left > 0 {
            self.left -= 1;
            return Err(io::Error::from(self.kind));
        }
        self.left = self.times;
        self.to.print(&bytes[..bytes.len().min(2)])
    }
}

/// What fails, how often, the bytes printed then, and whether all were.
type Case = (ErrorKind, u32, &'static str, bool);

const CASES: [Case; 5] = [
    (ErrorKind::Interrupted, 0, "edges", true),
    (ErrorKind::Interrupted, 1, "edges", true),
    (ErrorKind::Interrupted, 1000, "edges", true),
    (ErrorKind::BrokenPipe, 1, "", false),
    (ErrorKind::StorageFull, 1, "", false),
];

#[test]
fn prints_again_where_interrupted(rt: HostRuntime) -> Result<(), Fail> {
    for (kind, times, printed, all) in CASES {
        let mut sink = Stream::new(InterruptedPrinter {
            kind,
            times,
            left: times,
            to: Recorder::new(rt.alloc(), 100),
        });
        let sent = write_all(&mut sink, b"edges").is_ok();
        let bytes = sink.printer().to.bytes();
        assert!(rt;
            sent == all && sink.failures() == u64::from(!all) && bytes == printed.as_bytes(),
            "{times}"
        );
    }
    Ok(())
}
