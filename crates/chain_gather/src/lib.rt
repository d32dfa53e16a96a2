//! Gathering that trusts nothing: segments, a grid, bins and any book of pieces in, rounded edges out.
//!
//! 1. A tile's piece counts where it was made from just what the tile has now (`own`).
//! 2. A missing or strange one is made anew, and counted (`tiles`).
//! 3. `linking` sorts, links and counts the records of all tiles.
//!
//! The promise: exactly the definition's rounded edges, noded; `remade` is the number of tiles whose piece didn't count. The definitions
//! are `specs/Gathered`.
#![tactic(auto)]

mod own;
mod tiles;

pub use linking::{
    LimitedSegments, Link, Noded, Rounded, TileNumbers, TilePiece, Tiled, gather_made,
    gather_made_in_parts, settled,
};
pub use tiles::gather;
