//! The labels of strips: the directed edges of a result, strip by strip.
//! 1. Of noded edges those whose lesser end lies in the strip are its own (`edges_of_strip`; `edges_are_of_strips`: as they are rounded), and of
//!    these those that change a parity are enough (`changing_of_strip`).
//! 2. They and those that come into the strip tell the directed edges along its own (`labels`).
//! 3. Of both, those that go on come into the next strip (`going_on`).
//!
//! `labels_in_strips` does it for all strips in turn.

ghost use Rattle.std.specs.Prelude.{◌≡◌, ◌↔◌, ◌+◌, ◌++◌, [], ◌∷◌, if◌then◌else◌, ℕ, ℤ, All, AllPairs, Contains, IfOk, List, OnOk, filter};
ghost use Rattle.geom.specs.Directed.{AreResultEdges, IsDirectedBefore};
ghost use Rattle.geom.specs.declared.directed.DirectedEdge.{DirectedEdge};
ghost use Rattle.geom.specs.declared.edge.Counted.{Counted};
ghost use Rattle.geom.specs.Limit.{AreInLimit};
ghost use Rattle.geom.specs.Rounded.{edges_of};
ghost use Rattle.points_law.specs.Law.{AreLayers};
ghost use Rattle.label_sweep.specs.Changing.{changes};
ghost use Rattle.label_sweep.specs.StripLabels.{AreResultEdgesAlong};
ghost use Rattle.phases.specs.Labels.{AreOfStrip, ComeInto, EdgesAreOfStrips, TellLabels, begins_in, goes_on};

use geom::{Counted, DirectedEdge, NoMemory, Op};
use label_sweep::{changing_edges, in_order, strip_labels};
use std::alloc::Allocator;
use strips_law::strip_at;

/// Whether an edge begins in a strip.
fn begins_in(cuts: &[i32], strip: usize, one: &Counted) -> bool
    ensures { result ≡ begins_in cuts.now strip one.now }
{
    strip_at(cuts, one.edge.p) == strip
}

/// Whether an edge ends behind a strip.
fn goes_on(cuts: &[i32], strip: usize, one: &Counted) -> bool
    ensures { result ≡ goes_on cuts.now strip one.now }
{
    strip_at(cuts, one.edge.q) > strip
}

/// Adds an edge, if it begins in a strip.
fn add_own<A: Allocator>(
    own: &mut Vec<Counted, A>,
    cuts: &[i32],
    strip: usize,
    one: &Counted,
) -> Result<(), NoMemory>
    ensures { OnOk result (own.new.items ≡ own.old.items ++ (if begins_in cuts.now strip one.now then one.now ∷ [] else [])) }
{
    if begins_in(cuts, strip, one) {
        own.push(*one)?;
    }
    Ok(())
}

/// Adds an edge, if it ends behind a strip.
fn add_going<A: Allocator>(
    going: &mut Vec<Counted, A>,
    cuts: &[i32],
    strip: usize,
    one: &Counted,
) -> Result<(), NoMemory>
    ensures { OnOk result (going.new.items ≡ going.old.items ++ (if goes_on cuts.now strip one.now then one.now ∷ [] else [])) }
{
    if goes_on(cuts, strip, one) {
        going.push(*one)?;
    }
    Ok(())
}

/// Those of noded edges whose lesser end lies in a strip.
pub fn edges_of_strip<A: Allocator>(
    alloc: A,
    cuts: &[i32],
    strip: usize,
    counted: &[Counted],
) -> Result<Vec<Counted, A>, NoMemory>
    ensures { IfOk result (λ own. AreLayers counted.now → AreOfStrip cuts.now strip counted.now own.items) }
{
    let mut own = Vec::new(alloc);
    for one in counted {
        add_own(&mut own, cuts, strip, one)?;
    }
    Ok(own)
}

/// Of a strip's own edges those that change a parity. No other edges are needed for labels.
pub fn changing_of_strip<A: Allocator>(
    alloc: A,
    own: &[Counted],
) -> Result<Vec<Counted, A>, NoMemory>
    ensures { IfOk result (λ odd. (counted : List Counted) (cuts : List ℤ) (strip : ℕ) → AreOfStrip cuts strip counted own.now
        → AreOfStrip cuts strip (filter changes counted) odd.items) }
{
    changing_edges(alloc, own)
}

/// The edges that come into the next strip: of those that come into a strip, and of its own, those that end behind it.
pub fn going_on<A: Allocator>(
    alloc: A,
    cuts: &[i32],
    strip: usize,
    crossing: &[Counted],
    own: &[Counted],
) -> Result<Vec<Counted, A>, NoMemory>
    ensures { IfOk result (λ going. (counted : List Counted) → TellLabels counted cuts.now strip crossing.now own.now
        → ComeInto cuts.now (strip + 1) counted going.items) }
{
    let mut going = Vec::new(alloc);
    for come in crossing {
        add_going(&mut going, cuts, strip, come)?;
    }
    for begun in own {
        add_going(&mut going, cuts, strip, begun)?;
    }
    Ok(going)
}

/// The directed edges of the result of an operation along the edges whose lesser end lies in a strip, `own`, of these and of those that come
/// into the strip, `crossing`: ascending by start, then by end. Of lists that are no strip's the answer says nothing.
pub fn labels<A: Allocator + Copy>(
    alloc: A,
    crossing: &[Counted],
    own: &[Counted],
    op: Op,
) -> Result<Vec<DirectedEdge, A>, NoMemory>
    requires crossing_in { All (λ e. AreInLimit e.p e.q) (edges_of crossing.now) }
    requires own_in { All (λ e. AreInLimit e.p e.q) (edges_of own.now) }
    ensures ascending { IfOk result (λ edges. AllPairs IsDirectedBefore edges.items) }
    ensures along { (counted : List Counted) (cuts : List ℤ) (strip : ℕ) → TellLabels counted cuts strip crossing.now own.now
        → IfOk result (λ edges. AreResultEdgesAlong op counted own.now edges.items) }
{
    strip_labels(alloc, crossing, own, op)
}

/// The directed edges of the result of an operation, strip by strip, whatever the cuts are.
pub fn labels_in_strips<A: Allocator + Copy>(
    alloc: A,
    cuts: &[i32],
    counted: &[Counted],
    op: Op,
) -> Result<Vec<DirectedEdge, A>, NoMemory>
    requires { AreLayers counted.now }
    ensures { IfOk result (λ edges. AreResultEdges op counted.now edges.items) }
{
    let mut edges = Vec::new(alloc);
    let mut crossing = Vec::new(alloc);
    for strip in 0..cuts.len() + 1 {
        let here = edges_of_strip(alloc, cuts, strip, counted)?;
        let own = changing_of_strip(alloc, &here)?;
        let along = labels(alloc, &crossing, &own, op)?;
        edges.extend_from_slice(&along)?;
        crossing = going_on(alloc, cuts, strip, &crossing, &own)?;
    }
    Ok(in_order(edges))
}

/// The rounded edges of each strip are those of all strips whose lesser end lies in it.
pub fn edges_are_of_strips()
    ensures { EdgesAreOfStrips }
{}
