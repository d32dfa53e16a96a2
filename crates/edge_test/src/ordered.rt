//! Edges in order, each once.

ghost use Rattle.std.specs.Prelude.{◌≡◌, ◌↔◌, ◌+◌, ◌<◌, All, AllPairs, Contains, IfOk};
ghost use Rattle.geom.specs.declared.edge.Edge.{Edge};
ghost use Rattle.geom.specs.EdgeOrder.{IsEdgeBefore};
ghost use Rattle.geom.specs.Rounded.{edges_of};

use geom::{Counted, Edge, NoMemory};
use linking::Rounded;
use std::alloc::Allocator;

/// Puts edges in order, each once.
pub(crate) fn put_in_order<A: Allocator>(edges: &mut Vec<Edge, A>)
    ensures ascending { AllPairs IsEdgeBefore edges.new.items }
    ensures same { (e : Edge) → Contains edges.new.items e ↔ Contains edges.old.items e }
{
    edges.sort_unstable();
    edges.dedup();
}

/// Ascending edges, each as if it stood once in the first of two layers.
pub(crate) fn rounded_of<A: Allocator + Copy>(
    alloc: A,
    edges: &[Edge],
) -> Result<Rounded<A>, NoMemory>
    requires { AllPairs IsEdgeBefore edges.now }
    ensures { IfOk result (λ r. edges_of r.edges.items ≡ edges.now) }
{
    let counted = counted_of(alloc, edges)?;
    Rounded::of_edges(alloc, &counted)
}

/// Each edge with a count of 1 in the first layer.
fn counted_of<A: Allocator>(alloc: A, edges: &[Edge]) -> Result<Vec<Counted, A>, NoMemory>
    ensures edges { IfOk result (λ counted. edges_of counted.items ≡ edges.now) }
    ensures counted { IfOk result (λ counted. All (λ c. 0 < c.in_a + c.in_b) counted.items) }
{
    let mut counted = Vec::new(alloc);
    for edge in edges {
        counted.push(Counted {
            edge: *edge,
            in_a: 1,
            in_b: 0,
        })?;
    }
    Ok(counted)
}
