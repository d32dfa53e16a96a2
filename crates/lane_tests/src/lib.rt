//! Tests by lanes: boxes, segments or edges in; which boxes meet a rectangle, on which side of each segment a point lies, and the parity
//! of a point, out, eight at once.
//!
//! 1. Points are kept by coordinate (`columns`).
//! 2. Runs of 256 whose hull misses are passed over (`boxes`, `hulls`).
//! 3. Eight sides (`segs`) or parities (`edges`) are told in one step.
//!
//! The promise: each answer is that of the definition for one of them.
#![tactic(auto)]

mod boxes;
mod columns;
mod edges;
mod hulls;
mod points;
mod segs;

pub use boxes::{Boxes, meet_boxes, meet_in};
pub use edges::{Edges, odd_above};
pub use points::{Half, Probe};
pub use segs::{Segs, sides};
