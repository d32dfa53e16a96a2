//! Boxes in; the numbers of those that meet a tile, or a vertical strip, out.
//!
//! 1. Boxes stand by their left sides, with the greatest right side so far (`index`).
//! 2. Two searches find the places between which boxes may meet (`search`).
//! 3. Of these, lanes choose the boxes of a tile (`bins`) or of a strip (`strips`).
//!
//! The promise: exactly those that meet. The definitions are `specs/Index`, `Bins` and `Strips`.
#![tactic(auto)]

mod bins;
mod index;
mod search;
mod strips;

pub use bins::Bins;
pub use grid::{
    Count, DEFAULT_SIDE, GREATEST_SIDE, Grid, KeptBins, LEAST_SIDE, MOST_TILES, RowBins,
    default_side,
};
pub use strips::Strips;
