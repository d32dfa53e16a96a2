//! Boxes by lanes: up to 32 closed boxes and a rectangle in, the numbers of those that share a point with it out.
//!
//! 1. The sides of the boxes stand in columns, sixteen of which are compared at once, where their hull shares a point with the rectangle
//!    (`boxes`).
//! 2. The answer has a bit for each box; the lowest one is taken off it until none is left (`places`).
//!
//! The promise: a bit is set exactly where the box of that number shares a point with the rectangle. The definition is `specs/Sides`.
#![tactic(auto)]

mod boxes;
mod places;

pub use boxes::{Boxes, LANES};
pub use places::split_first;
