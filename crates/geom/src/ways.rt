//! An edge in its directions.

ghost use Rattle.std.specs.Prelude.{◌≡◌, ◌++◌, OnOk};
ghost use Rattle.geom.specs.Label.{ways};

use crate::directed::DirectedEdge;
use crate::edge::Edge;
use crate::fault::NoMemory;
use std::alloc::Allocator;

/// Adds an edge in its directions: from its first end to its second, and back.
pub fn add_directions<A: Allocator>(
    edges: &mut Vec<DirectedEdge, A>,
    edge: Edge,
    way: (bool, bool),
) -> Result<(), NoMemory>
    ensures { OnOk result (edges.new.items ≡ edges.old.items ++ ways edge way) }
{
    if way.0 {
        edges.push(DirectedEdge {
            from: edge.p,
            to: edge.q,
        })?;
    }
    if way.1 {
        edges.push(DirectedEdge {
            from: edge.q,
            to: edge.p,
        })?;
    }
    Ok(())
}
