//! Places of edges and numbers of vertices and rings in 32 bits: lists of them are half as long as those of `usize`, and what is done to a
//! large result mostly waits for them.

ghost use Rattle.std.specs.Prelude.{◌≡◌, IfOk};

use geom::NoMemory;

/// The same in 32 bits. More than a `u32` counts are refused as want of memory.
pub fn counted(number: usize) -> Result<u32, NoMemory>
    ensures { IfOk result (λ n. n ≡ number) }
{
    u32::try_from(number).map_err(|_| NoMemory)
}
