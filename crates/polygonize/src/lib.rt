//! Polygons: the directed edges of a result in, its rings, pieces and holes out.
//!
//! 1. The next edge of each edge is the first one met turning clockwise round its end (`successor`).
//! 2. The cycles of next edges are cut where they visit a vertex twice (`cut`, `cut_ring`).
//! 3. Each hole's owner is the shell of the nearest edge below it (`nearest`, `below`, `hole`).
//! 4. Rings are written in the canonical order (`written`, `polygon`).
//!
//! Edges from elsewhere are tested first (`closing`). Few edges whose rings are all shells, and visit no vertex twice, are polygons without more
//! ado (`lone_shells`).
//!
//! What all this stands on, that the edges close and are within the coordinate limit, the edges' type knows (`closing_edges`; `limited_edges`
//! for the search for edges below, which takes any edges: `edges_below`).
//!
//! Places of edges and numbers of vertices and rings are kept in 32 bits (`counting`).
//!
//! The promise: where edges meet only at ends and each hole has an edge below it, the polygons of the definition (`ArePolygons` of `geom`).
#![tactic(auto)]

mod angle;
mod below;
mod closing;
mod closing_edges;
mod column;
mod counting;
mod cut;
mod cut_ring;
mod cycle;
mod hole;
mod ladder;
mod leaving;
mod limited_edges;
mod listing;
mod lone_shells;
mod nearest;
mod number;
mod piece;
mod polygon;
mod result_rings;
mod ring;
mod short;
mod stripes;
mod successor;
mod written;

pub use closing::first_open;
pub use nearest::edges_below;
pub use polygon::{polygons, polygons_along};
pub use result_rings::{ResultRings, rings_in_parts};
