//! Edges that don't close, by hand.

use crate::closing::{are_in_limit, each_once};
use geom::{DirectedEdge, NoMemory, Pt};
use polygonize::first_open;
use std::alloc::Global;

fn edge(numbers: [i32; 4]) -> DirectedEdge {
    DirectedEdge {
        from: Pt {
            x: numbers[0],
            y: numbers[1],
        },
        to: Pt {
            x: numbers[2],
            y: numbers[3],
        },
    }
}

/// The place of the first edge at a vertex where they don't close.
fn place_of(alloc: Global, numbers: &[[i32; 4]]) -> Result<Option<usize>, NoMemory> {
    let mut edges = Vec::new(alloc);
    for each in numbers {
        edges.push(edge(*each))?;
    }
    let edges = each_once(edges);
    if !are_in_limit(&edges) {
        return Err(NoMemory);
    }
    first_open(alloc, &edges)
}

#[test]
fn open_edges(rt: HostRuntime) {
    // a triangle
    assert_eq!(rt;
        place_of(rt.alloc(), &[[0, 0, 1, 0], [0, 1, 0, 0], [1, 0, 0, 1]]),
        Ok(None)
    );
    // a path behind it
    assert_eq!(rt;
        place_of(
            rt.alloc(),
            &[[0, 0, 1, 0], [0, 1, 0, 0], [1, 0, 0, 1], [5, 5, 6, 5]]
        ),
        Ok(Some(3))
    );
    // there and back
    assert_eq!(rt;
        place_of(rt.alloc(), &[[0, 0, 1, 0], [1, 0, 0, 0]]),
        Ok(Some(0))
    );
    // two edges in one direction
    assert_eq!(rt;
        place_of(rt.alloc(), &[[0, 0, 1, 0], [1, 0, 2, 0], [2, 0, 0, 0]]),
        Ok(Some(0))
    );
    // two triangles that meet in a vertex, one of them turned
    assert_eq!(rt;
        place_of(
            rt.alloc(),
            &[
                [0, 0, 1, 4],
                [0, 0, 4, 0],
                [1, 4, 4, 4],
                [4, 0, 4, 1],
                [4, 1, 0, 0],
                [4, 4, 0, 0]
            ]
        ),
        Ok(Some(0))
    );
    // none
    assert_eq!(rt; place_of(rt.alloc(), &[]), Ok(None));
}
