//! The hot pixels that a tile owns: its candidates in, the pixels out that an end or a crossing makes hot.
//!
//! 1. The lines of the candidates are taken, each once, by their left ends (`lines`).
//! 2. They go by in this order, each crossed with those before it that reach its left end (`tile_sweep`, `pixels`).
//!
//! The promise: exactly the tile's hot pixels, with at most as many asks of `cross` as there are pairs of candidates whose boxes share a
//! point. `gather` and a run find theirs by `hot_region` instead.
#![tactic(auto)]

mod hot;
mod lines;
mod pixels;
mod tile_sweep;

pub use hot::{hot_in, sweep};
