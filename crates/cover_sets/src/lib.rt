//! Cover sets: borders of features, each with the edge beside it, in; the number of the set on both sides of each edge out.
//!
//! 1. A set is a tree of features by their bits, and a table finds a tree by its halves: equal sets have equal numbers, and what a set
//!    shares with another one stands once (`tree`, `table`, `sets`).
//! 2. The set beyond an edge has its features exchanged (`sets`).
//! 3. The set on an edge's left is that on the right of the edge beside it, so one pass over the edges tells all (`swept_covers`).
//!
//! The promise: on each side of each edge exactly the features that cover the points there. The definitions are `specs/Sets` and
//! `specs/Covers`.
#![tactic(auto)]

mod edge_covers;
mod halves;
mod sets;
mod swept_covers;
mod table;
mod tree;

pub use edge_covers::Covers;
pub use sets::Sets;
pub use swept_covers::covers;
pub use tree::{ALONE, EMPTY};
