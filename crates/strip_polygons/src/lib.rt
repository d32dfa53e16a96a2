//! Polygons by strips of columns, where one process can't hold all directed edges of a result.
//!
//! In: the directed edges that a range of strips knows, those that have a column of its own. Out: the polygons that are closed there, and the
//! edges that have to wait for a wider range.
//!
//! 1. Places of edges that are tied are linked: those of edges at one vertex, and those of an edge and the nearest one below it (`ties`).
//! 2. Links put the edges into classes (`classes`). A class is open if one of its edges goes over a border of the range (`parting`).
//! 3. What is closed has polygons of its own. What is open and begins in the range goes on: a range of two that touch knows it of both, until one
//!    has all strips, where nothing is open. `in_turn` does so from the first strip on.
//!
//! The promise: the polygons that are closed in all ranges are in order those of all edges, whatever the ranges are (`ranges_law`, by `parts_law`).
#![tactic(auto)]

mod classes;
mod in_turn;
mod parting;
mod ranges_law;
mod ties;

pub use in_turn::polygons_in_strips;
pub use parting::{Parts, parted};
pub use ranges_law::{ranges_have_polygons, strips_have_polygons};
