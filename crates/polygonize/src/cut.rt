//! A ring of vertex numbers, cut at the vertices that it visits twice.
//!
//! 1. The vertices are put on a stack, and it is kept where each stands on it. Nothing is cleared: a vertex stands where its place says
//!    if it is found there (`place_on`).
//! 2. Where one comes that stands on the stack, it and all above it are a piece.

ghost use Rattle.std.specs.Prelude.{◌≡◌, ◌≢◌, ◌<◌, ℕ, None, All, IfOk, IfSome, length, slice_index};
ghost use Rattle.geom.specs.Rings.{IsCut};
ghost use Rattle.polygonize.specs.Stack.{AreStacked};

use crate::counting::counted;
use crate::cycle::Cycle;
use geom::NoMemory;
use std::alloc::Allocator;

/// Where a vertex stands on the stack, if it does.
fn place_on(stack: &[u32], place: &[u32], vertex: u32) -> Option<usize>
    requires stacked { AreStacked stack.now place.now }
    requires inside { vertex < length place.now }
    ensures some { IfSome result (λ at. (at < length stack.now) × (slice_index stack.now at ≡ vertex)) }
    ensures none { result ≡ None → (k : ℕ) → k < length stack.now → slice_index stack.now k ≢ vertex }
{
    let at = place[vertex as usize] as usize;
    if at < stack.len() && stack[at] == vertex {
        Some(at)
    } else {
        None
    }
}

/// The pieces. `place` has a place for each number.
pub fn cut<A: Allocator + Copy>(
    alloc: A,
    ring: &[u32],
    place: &mut [u32],
) -> Result<Vec<Cycle<A>, A>, NoMemory>
    requires { All (λ v. v < length place.old) ring.now }
    ensures { IfOk result (λ pieces. IsCut ring.now pieces.items) }
{
    let mut pieces = Vec::with_capacity(alloc, 1)?;
    let mut stack = Vec::with_capacity(alloc, ring.len())?;
    for v in ring {
        if let Some(at) = place_on(&stack, place, *v) {
            let piece = Vec::from_slice(alloc, &stack[at..])?;
            stack.truncate(at);
            pieces.push(Cycle::new(piece))?;
        }
        place[*v as usize] = counted(stack.len())?;
        stack.push(*v)?;
    }
    pieces.push(Cycle::new(stack))?;
    Ok(pieces)
}
