//! The order of the edges that begin at one vertex.

ghost use Rattle.std.specs.Prelude.{◌≡◌, IsPermutation, IsSortedBy};
ghost use Rattle.std.specs.Ordering.{is_lt};
ghost use Rattle.geom.specs.Limit.{AreInLimit};
ghost use Rattle.geom.specs.Determinant.{turn};
ghost use Rattle.label_sweep.specs.Status.{is_steeper};

use crate::standing::Spoke;
use geom::Edge;
use std::alloc::Allocator;
use std::cmp::Ordering;

/// Above 0 where the first of two edges is the steeper one.
fn steeper(one: &Edge, other: &Edge) -> i64
    requires one_in { AreInLimit one.now.p one.now.q }
    requires other_in { AreInLimit other.now.p other.now.q }
    ensures { result ≡ turn other.now.p other.now.q one.now.p one.now.q }
{
    other
        .p
        .vector_to(other.q)
        .determinant(one.p.vector_to(one.q))
}

/// Whether the first of two edges is the steeper one.
pub fn is_steeper(one: &Spoke, other: &Spoke) -> bool
    ensures { result ≡ is_steeper one.now.one.edge other.now.one.edge }
{
    steeper(&one.one.edge, &other.one.edge) > 0
}

/// By steepness, the steepest first, upright edges before all others.
fn by_steepness(one: &Spoke, other: &Spoke) -> Ordering
    ensures { is_lt result ≡ is_steeper one.now.one.edge other.now.one.edge }
{
    if is_steeper(one, other) {
        Ordering::Less
    } else {
        Ordering::Greater
    }
}

/// Puts edges in their order by steepness.
pub fn sort_by_steepness<A: Allocator>(spokes: &mut Vec<Spoke, A>)
    ensures permutation { IsPermutation spokes.old.items spokes.new.items }
    ensures sorted { IsSortedBy (λ s t. is_steeper s.one.edge t.one.edge) spokes.new.items }
{
    spokes.sort_unstable_by(|one, other| by_steepness(one, other));
}
