//! The edge beside each edge, in a picture that was worked out by hand:
//!
//!     (0, 5) ----------- (4, 5)
//!
//!          (1, 3)
//!             |
//!          (1, 0) -- (2, 0)
//!
//! Nothing lies above the long edge, which lies above the other vertices; of the edges that begin at (1, 0) the upright one comes first.

ghost use Rattle.std.specs.Prelude.{IfOk};
ghost use Rattle.points_law.specs.Law.{AreLayers};

use geom::{Counted, Edge, NoMemory, Pt};
use label_sweep::{SweptEdge, swept_edges, swept_edges_in_parts};
use std::alloc::Allocator;
use std::thread::Threads;

/// The numbers of parts, 0 among them.
const PARTS: [usize; 4] = [0, 1, 2, 64];

/// The ends of each edge, in their order, and of the edge beside it.
const BESIDES: [((i32, i32, i32, i32), Option<(i32, i32, i32, i32)>); 3] = [
    ((0, 5, 4, 5), None),
    ((1, 0, 1, 3), Some((0, 5, 4, 5))),
    ((1, 0, 2, 0), Some((1, 0, 1, 3))),
];

/// The edges of the picture.
fn picture<A: Allocator>(alloc: A) -> Result<Vec<Counted, A>, NoMemory>
    ensures { IfOk result (λ counted. AreLayers counted.items) }
{
    let mut counted = Vec::new(alloc);
    counted.push(Counted {
        edge: Edge {
            p: Pt { x: 0, y: 5 },
            q: Pt { x: 4, y: 5 },
        },
        in_a: 0,
        in_b: 0,
    })?;
    counted.push(Counted {
        edge: Edge {
            p: Pt { x: 1, y: 0 },
            q: Pt { x: 1, y: 3 },
        },
        in_a: 0,
        in_b: 0,
    })?;
    counted.push(Counted {
        edge: Edge {
            p: Pt { x: 1, y: 0 },
            q: Pt { x: 2, y: 0 },
        },
        in_a: 0,
        in_b: 0,
    })?;
    Ok(counted)
}

fn ends_of(edge: Edge) -> (i32, i32, i32, i32) {
    (edge.p.x, edge.p.y, edge.q.x, edge.q.y)
}

/// Whether these are the edges of the picture, each with the one beside it.
fn are_besides(swept: &[SweptEdge]) -> bool {
    for (one, (edge, beside)) in swept.iter().zip(&BESIDES) {
        if ends_of(one.edge) != *edge || one.beside.map(ends_of) != *beside {
            return false;
        }
    }
    swept.len() == BESIDES.len()
}

/// Whether the edges of the picture are swept so, in one part.
fn sweeps<A: Allocator + Copy>(alloc: A) -> Result<bool, NoMemory> {
    let counted = picture(alloc)?;
    let swept = swept_edges(alloc, &counted)?;
    Ok(are_besides(&swept))
}

/// Whether they are in so many parts.
fn sweeps_in_parts<R: Threads + Sync, A: Allocator + Copy + Send + Sync>(
    rt: &R,
    alloc: A,
    parts: usize,
) -> Result<bool, NoMemory> {
    let counted = picture(alloc)?;
    let swept = swept_edges_in_parts(rt, alloc, parts, &counted)?;
    Ok(are_besides(&swept))
}

#[test]
fn each_edge_has_the_one_beside_it(rt: HostRuntime) {
    assert_eq!(rt; sweeps(rt.alloc()), Ok(true));
}

#[test]
fn each_edge_has_it_in_parts(rt: HostRuntime) {
    for parts in PARTS {
        assert_eq!(rt;
            sweeps_in_parts(&rt, rt.alloc(), parts),
            Ok(true),
            "{parts}"
        );
    }
}
