//! The boxes that meet each vertical strip.

ghost use Rattle.std.specs.Prelude.{◌≡◌, ◌<◌, ◌≤ℤ◌, ◌*ℤ◌, ◌+ℤ◌, ◌*◌, ◌+◌, ◌-◌, pos, [], IfOk, List, OnErr, OnOk, nat_abs};
ghost use Rattle.std.specs.Int.{int_div_euclid};
ghost use Rattle.geom.specs.Limit.{IsWithin, coordinate_limit};
ghost use Rattle.geom.specs.declared.rect.Rect.{Rect};
ghost use Rattle.grid.specs.Tiles.{steps};
ghost use Rattle.tiling.specs.Index.{AreIndexed};
ghost use Rattle.tiling.specs.Strips.{HasStripRoom, IsFill, IsInStrip, Striped, strip_count};

use crate::index::Index;
use geom::NoMemory;
use grid::{steps_over, steps_to};
use lane_tests::Boxes;
use std::alloc::Allocator;
use std::marker::Model;

/// Boxes over vertical strips of one width in grid units, which are numbered from the left.
#[derive(Drop)]
pub struct Strips<A: Allocator> {
    low: i32,
    high: i32,
    width: u32,
    index: Index<A>,
}

impl<A: Allocator> Model for Strips<A> {
    ghost Value = { Striped };

    ghost view = { λ s. record { low = s.low; high = s.high; width = s.width; items = s.index } };

    ghost invariant = { λ s. HasStripRoom s.low s.high s.width };
}

impl<A: Allocator + Copy> Strips<A> {
    /// The strips of this width that reach from low to high, over these boxes.
    pub fn build<B: Allocator>(
        alloc: A,
        low: i32,
        high: i32,
        width: u32,
        boxes: &Boxes<B>,
    ) -> Result<Strips<A>, NoMemory>
        requires order { low ≤ℤ high }
        requires low_in { IsWithin coordinate_limit low }
        requires high_in { IsWithin coordinate_limit high }
        requires some { 0 < width }
        ensures low { IfOk result (λ s. s.low ≡ low) }
        ensures high { IfOk result (λ s. s.high ≡ high) }
        ensures width { IfOk result (λ s. s.width ≡ width) }
        ensures items { IfOk result (λ s. AreIndexed boxes.now s.items) }
    {
        let index = Index::build(alloc, boxes)?;
        Ok(Strips {
            low,
            high,
            width,
            index,
        })
    }
}

impl<A: Allocator> Strips<A> {
    /// How many strips there are.
    pub fn strips(&self) -> u32
        ensures { result ≡ strip_count self.now }
    {
        steps_over(self.low, self.high, self.width) as u32
    }

    /// The strip of the floor of x2 / 2.
    pub fn strip_of(&self, x2: i32) -> u32
        requires low { (pos 2 *ℤ self.now.low) ≤ℤ x2 }
        requires high { x2 ≤ℤ (pos 2 *ℤ self.now.high) }
        ensures value { IsInStrip self.now result (int_div_euclid x2 (pos 2)) }
        ensures within { result < strip_count self.now }
    {
        steps_to(self.low, x2.div_euclid(2), self.width)
    }

    /// The vector becomes the numbers, ascending, of the boxes that have a whole x in a strip. After an `Err` it is empty.
    pub fn fill<B: Allocator>(&self, strip: u32, out: &mut Vec<u32, B>) -> Result<(), NoMemory>
        requires { strip < strip_count self.now }
        ensures ok { OnOk result ((boxes : List Rect) → AreIndexed boxes self.now.items → IsFill self.now strip boxes out.new.items) }
        ensures err { OnErr result (out.new.items ≡ []) }
    {
        let (left, right) = strip_ends(self.low, self.high, self.width, strip);
        self.index.between(left, right, out)
    }
}

// The first and the last x of a strip.
fn strip_ends(low: i32, high: i32, width: u32, strip: u32) -> (i32, i64)
    requires room { HasStripRoom low high width }
    requires within { strip < nat_abs (steps low width high) + 1 }
    ensures first { result.0 ≡ low +ℤ pos (strip * width) }
    ensures last { result.1 ≡ low +ℤ pos (strip * width + width - 1) }
    ensures order { result.0 ≤ℤ result.1 }
{
    let left = low + (strip * width) as i32;
    (left, i64::from(left) + i64::from(width) - 1)
}
