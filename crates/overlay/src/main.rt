//! Overlay of polygon layers: the program, over the machine's files and its standard streams.
#![tactic(auto)]

use program::{Disk, Machine, ProcessWords, Stream, drive_process};
use std::process::ExitCode;

fn main(rt: HostRuntime) -> ExitCode {
    let words = ProcessWords::new(&rt);
    let mut files = Disk::new(Machine::new(&rt));
    let mut out = Stream::new(rt.stdout());
    let mut err = Stream::new(rt.stderr());
    ExitCode::from(drive_process(&rt, &words, &mut files, &mut out, &mut err))
}
