//! Polygons as columns, brought in the order of their shells.
//!
//! In: polygons as columns, those of several lists one behind another. Out: the same polygons as columns, the one with the least shell first.
//!
//! 1. A polygon's shell is a slice of the coordinates. The shells are sorted by their points, and no two may be the same (`shells`).
//! 2. In this order the rings of each polygon are copied, and behind each ring and each polygon stands an offset (`copying`).
//!
//! The promise: each polygon as often as before, in the one order (`specs/Order`).
#![tactic(auto)]

mod copying;
mod given;
mod ordering;
mod shells;

pub use given::PolygonColumns;
pub use ordering::{OrderFault, ordered};
