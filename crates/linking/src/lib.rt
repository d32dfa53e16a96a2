//! Rounded edges: the pieces of all cells in, the edges of the routes out, with their counts in both layers, or with the features whose
//! border they are.
//!
//! 1. Records are shared by spans of segments (`span`, `shares`) and sorted; each route, from the first end of its segment by its records to
//!    the last end, is linked, and its records are counted by tiles (`linked`).
//! 2. The links of each hand are sorted (`ordered`), merged by spans of columns (`shares`) and counted (`counting`), or those of a feature
//!    cancelled by twos (`bordering`).
//! 3. The hot pixels of each tile are counted (`numbers`).
//!
//! The promise: exactly the definition's rounded edges, ascending; of segments with copies, by their copies (`made`). Of segments without
//! copies and of features they are noded, and even round each point where the segments close. The definitions are `specs/Gathered` and
//! `specs/Links`.
#![tactic(auto)]

mod bordering;
mod counting;
mod keyed;
mod link;
mod linked;
mod made;
mod neighbours;
mod noded;
mod numbers;
mod ordered;
mod rounded;
mod shares;
mod span;
mod tile_piece;

pub use bordering::{RoundedBorders, gather_borders, gather_borders_in_parts};
pub use counting::{counts, counts_in_parts};
pub use keyed::{Keyed, sorted};
pub use link::Link;
pub use made::{gather_made, gather_made_in_parts, rounded_by_records};
pub use neighbours::links_between;
pub use noded::{Noded, settled};
pub use ordered::{InOrder, Ordered};
pub use rounded::{Rounded, TileNumbers};
pub use routing::LimitedSegments;
pub use tile_piece::{TilePiece, Tiled};
