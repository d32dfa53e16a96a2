//! How edges are cut into strips: their sizes are cost alone, so no contract says them.

ghost use Rattle.std.specs.Prelude.{All, AllPairs, IfOk, IsTrue};
ghost use Rattle.geom.specs.EdgeOrder.{IsEdgeBefore};

use geom::{Counted, Edge, NoMemory, Pt};
use label_sweep::strips_of;
use std::alloc::{Allocator, Global};

/// Edges in their order, by their ends: in columns of three, two and one, by where they begin.
const EDGES: [(i32, i32, i32, i32); 6] = [
    (0, 0, 0, 1),
    (0, 0, 3, 1),
    (0, 1, 1, 2),
    (1, 0, 2, 0),
    (1, 1, 3, 0),
    (2, 0, 3, 1),
];

/// The strips of these edges: the number of parts, 0 among them, and the numbers of edges.
const STRIPS: [(usize, &[(usize, usize)]); 6] = [
    (0, &[(0, 6)]),
    (1, &[(0, 6)]),
    (2, &[(0, 3), (3, 6)]),
    (3, &[(0, 3), (3, 5), (5, 6)]),
    (4, &[(0, 3), (3, 5), (5, 6)]),
    (64, &[(0, 3), (3, 5), (5, 6)]),
];

/// Whether an edge comes before another one.
fn is_before(one: &Counted, edge: Edge) -> bool
    ensures { IsTrue result → IsEdgeBefore one.now.edge edge }
{
    one.edge < edge
}

/// Whether all of the edges come before one.
fn come_before(counted: &[Counted], edge: Edge) -> bool
    ensures { IsTrue result → All (λ c. IsEdgeBefore c.edge edge) counted.now }
{
    counted.iter().all(|one| is_before(one, edge))
}

/// The edges, if they are in their order.
fn counted_of<A: Allocator>(alloc: A) -> Result<Vec<Counted, A>, NoMemory>
    ensures { IfOk result (λ counted. AllPairs (λ c d. IsEdgeBefore c.edge d.edge) counted.items) }
{
    let mut counted = Vec::new(alloc);
    for (px, py, qx, qy) in EDGES {
        let Some(edge) = Edge::between(Pt { x: px, y: py }, Pt { x: qx, y: qy }) else {
            return Err(NoMemory);
        };
        if !come_before(&counted, edge) {
            return Err(NoMemory);
        }
        counted.push(Counted {
            edge,
            in_a: 1,
            in_b: 0,
        })?;
    }
    Ok(counted)
}

/// Whether the edges are cut into these strips.
fn are_strips(alloc: Global, parts: usize, wanted: &[(usize, usize)]) -> Result<bool, NoMemory> {
    let counted = counted_of(alloc)?;
    let strips = strips_of(alloc, &counted, parts)?;
    Ok(
        strips.len() == wanted.len()
            && strips
                .iter()
                .zip(wanted)
                .all(|(strip, part)| (strip.from, strip.past) == *part),
    )
}

#[test]
fn strips_end_where_columns_do(rt: HostRuntime) {
    for (parts, wanted) in STRIPS {
        assert!(rt;
            are_strips(rt.alloc(), parts, wanted) == Ok(true),
            "{parts}"
        );
    }
}
