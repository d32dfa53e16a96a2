//! Tiles of the plane: a box and a side in, a grid of tiles out; boxes in, the numbers out of those that meet each tile.
//!
//! 1. A side and a box give a grid, or its refusal (`grid`); where no side is given there is a rule for it (`sides`).
//! 2. Boxes are put into the bins of the tiles that they reach (`kept_bins`), or of some rows of tiles by each hand (`row_bins`).
//!
//! The promise: each point of the box has one tile, and a tile's bin has, ascending, exactly the boxes with a point that the tile owns. The
//! definitions are `specs/Tiles`, `Bins` and `Sides`.
#![tactic(auto)]

mod count;
mod grid;
mod kept_bins;
mod row_bins;
mod sides;

pub use count::Count;
pub use grid::{GREATEST_SIDE, Grid, LEAST_SIDE, MOST_CELLS, MOST_TILES, steps_over, steps_to};
pub use kept_bins::KeptBins;
pub use row_bins::RowBins;
pub use sides::{DEFAULT_SIDE, default_side};
