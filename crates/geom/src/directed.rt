//! Directed edges of a result.

ghost use Rattle.std.specs.Prelude.{◌≡◌, List};
ghost use Rattle.geom.specs.declared.directed.DirectedEdge.{DirectedEdge};
ghost use Rattle.geom.specs.Directed.{AreDirected};

use crate::point::Pt;
use std::alloc::Allocator;
use std::marker::Model;

/// An edge of a result, directed so that the result lies on its left. Ordered by start, then by end.
#[derive(Clone, Copy, Debug, PartialEq, Eq, PartialOrd, Ord)]
pub struct DirectedEdge {
    pub from: Pt,
    pub to: Pt,
}

/// The directed edges of a result, ascending by start, then by end, and none of them in both directions.
#[derive(Debug, Drop)]
pub struct Directed<A: Allocator> {
    edges: Vec<DirectedEdge, A>,
}

impl<A: Allocator> Model for Directed<A> {
    ghost Value = { List DirectedEdge };

    ghost view = { λ d. d.edges.items };

    ghost invariant = { λ d. AreDirected d.edges.items };
}

impl<A: Allocator> Directed<A> {
    /// These directed edges.
    pub fn new(edges: Vec<DirectedEdge, A>) -> Directed<A>
        requires { AreDirected edges.items }
        ensures { result ≡ edges.items }
    {
        Directed { edges }
    }

    /// The directed edges in their order.
    pub fn edges(&self) -> &[DirectedEdge]
        ensures value { result.now ≡ self.now }
        ensures directed { AreDirected self.now }
    {
        &self.edges
    }
}
