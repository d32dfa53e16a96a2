//! The line that the program prints for a fault, and its exit status.

ghost use Rattle.std.specs.Prelude.{◌≡◌, IfOk};
ghost use Rattle.layers.specs.FaultWords.{line_of, status_of};

use geom::{Fault, NoMemory, Part, RunFault};
use std::alloc::Allocator;

/// The program's exit status at a fault: 1 where memory or the sink failed, otherwise 3.
pub fn status(fault: &RunFault) -> u8
    ensures { result ≡ status_of fault.now }
{
    match fault.fault {
        Fault::Memory | Fault::Write => 1,
        _ => 3,
    }
}

/// The line that the program prints for a fault, with its LF.
pub fn line<A: Allocator>(alloc: A, fault: &RunFault) -> Result<Vec<u8, A>, NoMemory>
    ensures { IfOk result (λ text. text.items ≡ line_of fault.now) }
{
    let words = match fault.at {
        Part::A => format!(in alloc; "overlay: A: {}\n", fault.fault)?,
        Part::B => format!(in alloc; "overlay: B: {}\n", fault.fault)?,
        Part::Run => format!(in alloc; "overlay: {}\n", fault.fault)?,
    };
    Ok(words.into_bytes())
}
