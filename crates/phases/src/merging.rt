//! The rounded edges whose lesser end lies in one strip.

ghost use Rattle.std.specs.Prelude.{◌≡◌, ℕ, ℤ, IfOk, List, false, true};
ghost use Rattle.geom.specs.EdgeOrder.{IsEdgeBefore};
ghost use Rattle.strips_law.specs.declared.line.Line.{Line};
ghost use Rattle.strips_law.specs.declared.line.Open.{Open};
ghost use Rattle.strips_law.specs.Strips.{AreAcross, AreEdgesOf, AreOrdered, IsRoundedStrip};
ghost use Rattle.phases.specs.Merged.{AreAscending, AreMerged, AreOthers};

use geom::{Counted, Edge, NoMemory};
use std::alloc::Allocator;

/// Whether an edge is less than another one.
fn is_before(e: Edge, f: Edge) -> bool
    ensures before { result ≡ true → IsEdgeBefore e f }
    ensures not_before { result ≡ false → ¬ (IsEdgeBefore e f) }
{
    e < f
}

/// Two ascending lists as one.
fn merged<A: Allocator>(
    alloc: A,
    first: &[Counted],
    second: &[Counted],
) -> Result<Vec<Counted, A>, NoMemory>
    ensures { IfOk result (λ v. AreAscending first.now → AreAscending second.now → AreOthers first.now second.now → AreMerged first.now second.now v.items) }
{
    let mut list = Vec::with_capacity(alloc, first.len())?;
    let mut place = 0;
    for counted in first {
        while place < second.len() && is_before(second[place].edge, counted.edge) {
            list.push(second[place])?;
            place += 1;
        }
        list.push(*counted)?;
    }
    list.extend_from_slice(&second[place..])?;
    Ok(list)
}

/// The edges of a strip that end in it and those across its right border, as one ascending list: those whose lesser end lies in the strip.
pub fn edges<A: Allocator>(
    alloc: A,
    inner: &[Counted],
    across: &[Counted],
) -> Result<Vec<Counted, A>, NoMemory>
    ensures { IfOk result (λ v. (cuts : List ℤ) (strip : ℕ) (lines : List Line) (left right : List Open) → AreOrdered lines → ∥ IsRoundedStrip cuts strip lines inner.now left right ∥₁ → ∥ AreAcross cuts strip lines across.now ∥₁ → ∥ AreEdgesOf cuts strip lines v.items ∥₁) }
{
    merged(alloc, inner, across)
}
