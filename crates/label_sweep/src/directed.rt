//! The directed edges of a result, by the labels of the sweep.

ghost use Rattle.std.specs.Prelude.{◌≡◌, ◌↔◌, AllPairs, Contains, IfOk};
ghost use Rattle.geom.specs.Directed.{AreResultEdges, IsDirectedBefore};
ghost use Rattle.geom.specs.declared.directed.DirectedEdge.{DirectedEdge};
ghost use Rattle.points_law.specs.Law.{AreLayers};
ghost use Rattle.label_sweep.specs.Labels.{directed_of, directions_of};

use crate::changing::{changing_edges, most_change};
use crate::standing::LabelledEdge;
use crate::strips::{edges_in_parts, strip_edges};
use geom::{Counted, Directed, DirectedEdge, NoMemory, Op, add_directions};
use hands::Part;
use std::alloc::Allocator;
use std::thread::Threads;

impl LabelledEdge {
    /// Whether the edge bounds the result as directed from its first end to its second, and whether as directed back: the
    /// operation holds on its left and not on its right.
    pub fn directions(&self, op: Op) -> (bool, bool)
        ensures { result ≡ directions_of op self.now }
    {
        let left = op.holds(self.left.a, self.left.b);
        let right = op.holds(self.right.a, self.right.b);
        (left && !right, right && !left)
    }
}

/// All edges in their directions.
pub fn directed_edges<A: Allocator + Copy>(
    alloc: A,
    labelled: &[LabelledEdge],
    op: Op,
) -> Result<Vec<DirectedEdge, A>, NoMemory>
    ensures { IfOk result (λ edges. edges.items ≡ directed_of op labelled.now) }
{
    let mut edges = Vec::with_capacity(alloc, labelled.len())?;
    for one in labelled {
        add_directions(&mut edges, one.edge, one.directions(op))?;
    }
    Ok(edges)
}

/// Puts directed edges in order, by their starts, then by their ends, each once: a look at each where they ascend.
pub fn put_in_order<A: Allocator>(edges: &mut Vec<DirectedEdge, A>)
    ensures ascending { AllPairs IsDirectedBefore edges.new.items }
    ensures same { (d : DirectedEdge) → Contains edges.new.items d ↔ Contains edges.old.items d }
{
    edges.sort_unstable();
    edges.dedup();
}

/// The same, of a list that is handed on.
pub fn in_order<A: Allocator>(mut edges: Vec<DirectedEdge, A>) -> Vec<DirectedEdge, A>
    ensures ascending { AllPairs IsDirectedBefore result.items }
    ensures same { (d : DirectedEdge) → Contains result.items d ↔ Contains edges.items d }
{
    put_in_order(&mut edges);
    edges
}

/// The same of edges in whatever order.
pub fn sorted_once<A: Allocator + Copy>(edges: Vec<DirectedEdge, A>) -> Vec<DirectedEdge, A>
    ensures ascending { AllPairs IsDirectedBefore result.items }
    ensures same { (d : DirectedEdge) → Contains result.items d ↔ Contains edges.items d }
{
    let edges = range_sort::sorted(edges, |edge: &DirectedEdge| i64::from(edge.from.x));
    in_order(edges)
}

/// The directed edges of the result of an operation, by a sweep over all edges.
fn swept<A: Allocator + Copy>(
    alloc: A,
    counted: &[Counted],
    op: Op,
) -> Result<Directed<A>, NoMemory>
    requires { AreLayers counted.now }
    ensures { IfOk result (λ directed. AreResultEdges op counted.now directed) }
{
    let all = Part {
        from: 0,
        past: counted.len(),
    };
    let edges = strip_edges(alloc, counted, all, op)?;
    Ok(Directed::new(edges))
}

/// The same, in so many strips.
fn swept_in_parts<R: Threads + Sync, A: Allocator + Copy + Send + Sync>(
    rt: &R,
    alloc: A,
    parts: usize,
    counted: &[Counted],
    op: Op,
) -> Result<Directed<A>, NoMemory>
    requires { AreLayers counted.now }
    ensures { IfOk result (λ directed. AreResultEdges op counted.now directed) }
{
    let edges = edges_in_parts(rt, alloc, parts, counted, op)?;
    Ok(Directed::new(edges))
}

/// The directed edges that bound the result of an operation on two layers, ascending by start, then by end, in n log n steps, of noded
/// edges of even degrees. Edges that change no parity are left out first.
pub fn layer_labels<A: Allocator + Copy>(
    alloc: A,
    counted: &[Counted],
    op: Op,
) -> Result<Directed<A>, NoMemory>
    requires { AreLayers counted.now }
    ensures { IfOk result (λ directed. AreResultEdges op counted.now directed) }
{
    if most_change(counted) {
        return swept(alloc, counted, op);
    }
    let edges = changing_edges(alloc, counted)?;
    swept(alloc, &edges, op)
}

/// The same, in at most so many parts at once: 0 is one.
pub fn layer_labels_in_parts<R: Threads + Sync, A: Allocator + Copy + Send + Sync>(
    rt: &R,
    alloc: A,
    parts: usize,
    counted: &[Counted],
    op: Op,
) -> Result<Directed<A>, NoMemory>
    requires { AreLayers counted.now }
    ensures { IfOk result (λ directed. AreResultEdges op counted.now directed) }
{
    if most_change(counted) {
        return swept_in_parts(rt, alloc, parts, counted, op);
    }
    let edges = changing_edges(alloc, counted)?;
    swept_in_parts(rt, alloc, parts, &edges, op)
}
