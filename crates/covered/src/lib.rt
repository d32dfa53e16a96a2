//! Operations on layers that are read as covered: a point lies in a layer where one of its features at least covers it.
//!
//! In: rounded edges with the numbers of the cover sets on both their sides. Out: the directed edges of the result, which `polygonize` makes
//! polygons of.
//!
//! 1. Whether the operation holds of a cover set is told by the set's least and greatest features (`inside`).
//! 2. An edge bounds the result where the operation holds on one of its sides alone (`edges`).
//!
//! The promise: exactly the edges that bound the points of which the operation holds (`laws`). The definitions are `specs/Covered` and
//! `specs/Results`.
#![tactic(auto)]

mod edges;
mod inside;
mod laws;

pub use edges::covered_edges;
pub use laws::{
    changing_have_same_edges, coverage_is_exact, covered_edges_are_one, covered_is_layer,
    covered_polygons_are_one, covered_polygons_tell, covered_tells,
};
