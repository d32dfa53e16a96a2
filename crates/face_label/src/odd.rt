//! The edges of odd count of a layer, and the directions in which an edge bounds the result.

ghost use Rattle.std.specs.Prelude.{◌≡◌, ◌&&◌, ◌++◌, ◌∷◌, [], Contains, IfOk, List, OnOk, if◌then◌else◌, not};
ghost use Rattle.geom.specs.declared.edge.Counted.{Counted};
ghost use Rattle.geom.specs.Limit.{AreInLimit};
ghost use Rattle.geom.specs.ResultEdges.{left_side};
ghost use Rattle.geom.specs.Rounded.{edges_of, odd_edges};
ghost use Rattle.lane_tests.specs.Probe.{IsProbe, point_of};
ghost use Rattle.geom.specs.Label.{both_ways, counts_odd, holds_in, ways_by};
ghost use Rattle.face_label.specs.Strip.{IsAmong, IsSetOf, IsSpanned, layers_at};
ghost use Rattle.geom.specs.Double.{IsDouble};

use crate::strip::{Layers, StripSet};
use geom::{Counted, Edge, NoMemory, Op, Pt, Source};
use lane_tests::{Edges, Probe, odd_above};
use std::alloc::Allocator;

/// Whether an edge has an odd count in a layer.
fn is_odd_in(counted: &Counted, layer: Source) -> bool
    ensures { result ≡ counts_odd layer counted.now }
{
    match layer {
        Source::A => counted.in_a % 2 == 1,
        Source::B => counted.in_b % 2 == 1,
    }
}

/// Adds an edge if its count in the layer is odd.
fn add_odd<A: Allocator>(
    odd: &mut Vec<Edge, A>,
    one: Counted,
    layer: Source,
) -> Result<(), NoMemory>
    ensures { OnOk result (odd.new.items ≡ odd.old.items ++ (if counts_odd layer one then one.edge ∷ [] else [])) }
{
    if is_odd_in(&one, layer) {
        odd.push(one.edge)?;
    }
    Ok(())
}

/// The edges of odd count of one layer.
pub fn odd_in<A: Allocator + Copy>(
    alloc: A,
    counted: &[Counted],
    layer: Source,
) -> Result<Vec<Edge, A>, NoMemory>
    ensures { IfOk result (λ odd. odd.items ≡ odd_edges layer counted.now) }
{
    let mut odd = Vec::new(alloc);
    for one in counted {
        add_odd(&mut odd, *one, layer)?;
    }
    Ok(odd)
}

/// The side point on the left of the edge directed from u to v.
fn left_probe(u: Pt, v: Pt) -> Probe
    requires { AreInLimit u v }
    ensures probe { IsProbe result }
    ensures value { IsDouble (point_of result) (left_side u v) }
{
    Probe {
        x2: u.x + v.x,
        y2: u.y + v.y,
        dx: u.y - v.y,
        dy: v.x - u.x,
    }
}

/// Whether a point lies in the result, by the edges of odd count of both layers.
fn holds_at<A: Allocator>(a: &Edges<A>, b: &Edges<A>, probe: Probe, op: Op) -> bool
    requires { IsProbe probe }
    ensures { result ≡ holds_in op (record { a = a.now; b = b.now }) (point_of probe) }
{
    op.holds(odd_above(a, probe), odd_above(b, probe))
}

/// Whether the first holds and the second doesn't.
fn only(first: bool, second: bool) -> bool
    ensures { result ≡ first && not second }
{
    first && !second
}

/// Whether an edge bounds the result as directed from p to q, and whether as directed from q to p, by the edges of odd count
/// in the strip of its midpoint.
pub(crate) fn directions_in<A: Allocator>(layers: &Layers<A>, edge: Edge, op: Op) -> (bool, bool)
    requires in_limit { AreInLimit edge.p edge.q }
    requires spanned { IsSpanned layers.now.a edge × IsSpanned layers.now.b edge }
    ensures { result ≡ both_ways op (layers_at layers.now.a layers.now.b edge) edge }
{
    let a = layers.a.over(edge);
    let b = layers.b.over(edge);
    let left = holds_at(a, b, left_probe(edge.p, edge.q), op);
    let right = holds_at(a, b, left_probe(edge.q, edge.p), op);
    (only(left, right), only(right, left))
}

/// Whether an edge that the strips are of is one of the result as directed from p to q, and whether as directed from q to p:
/// the result lies on its left and not on its right. It takes no memory.
pub fn directions<A: Allocator>(strips: &StripSet<A>, edge: Edge, op: Op) -> (bool, bool)
    requires { IsAmong strips.now edge }
    ensures { (counted : List Counted) → IsSetOf counted strips.now → Contains (edges_of counted) edge → result ≡ ways_by op counted edge }
{
    match strips.layers() {
        None => (false, false),
        Some(layers) => directions_in(layers, edge, op),
    }
}
