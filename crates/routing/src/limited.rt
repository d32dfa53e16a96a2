//! Segments of which contracts know more than their list tells.

ghost use Rattle.std.specs.Prelude.{◌<◌, All, IfOk, length};
ghost use Rattle.geom.specs.Limit.{AreInLimit};
ghost use Rattle.routing.specs.Pieces.{AreAllNumbers};

use crate::on_line::OnLine;
use geom::{NoMemory, Seg};
use std::alloc::Allocator;

/// Segments within the coordinate limit.
#[derive(Clone, Copy)]
pub struct LimitedSegments<'a> {
    pub list: &'a [Seg],
    ghost in_limit: { All (λ s. AreInLimit s.a s.b) list.now },
}

impl LimitedSegments<'_> {
    /// The numbers of all segments. More segments than a `u32` counts are refused as want of memory.
    pub fn numbers<A: Allocator>(self, alloc: A) -> Result<Vec<u32, A>, NoMemory>
        ensures { IfOk result (λ v. AreAllNumbers self.entry.list.now v.items) }
    {
        if self.list.len() > u32::MAX as usize {
            return Err(NoMemory);
        }
        let mut numbers = Vec::with_capacity(alloc, self.list.len())?;
        for number in 0..self.list.len() as u32 {
            numbers.push(number)?;
        }
        Ok(numbers)
    }
}

/// Segments within the coordinate limit, with a table of some of them by their lines.
#[derive(Clone, Copy)]
pub(crate) struct LinedSegments<'a> {
    pub segments: &'a [Seg],
    pub table: &'a [OnLine],
    ghost in_limit: { All (λ s. AreInLimit s.a s.b) segments.now },
    ghost numbered: { All (λ x. x.number < length segments.now) table.now },
}
