//! Lists of the pixels that a rectangle has.

ghost use Rattle.std.specs.Prelude.{◌↔◌, AllPairs, Contains, OnOk};
ghost use Rattle.geom.specs.declared.point.Pt.{Pt};
ghost use Rattle.geom.specs.Order.{IsBefore};
ghost use Rattle.hot_region.specs.Lines.{HasPushed};

use geom::{NoMemory, Pt, Rect};
use std::alloc::Allocator;

/// Adds a pixel, if the rectangle has it.
pub fn push_in<A: Allocator>(found: &mut Vec<Pt, A>, rect: &Rect, pixel: Pt) -> Result<(), NoMemory>
    ensures { OnOk result (HasPushed rect.now pixel found.old.items found.new.items) }
{
    if rect.holds(pixel) {
        found.push(pixel)?;
    }
    Ok(())
}

/// The same pixels, ascending and each once.
pub fn ascending<A: Allocator>(mut pixels: Vec<Pt, A>) -> Vec<Pt, A>
    ensures order { AllPairs IsBefore result.items }
    ensures same { (c : Pt) → Contains result.items c ↔ Contains pixels.items c }
{
    pixels.sort_unstable();
    pixels.dedup();
    pixels
}
