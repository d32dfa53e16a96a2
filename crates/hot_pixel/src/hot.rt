//! The hot pixels that a tile owns.

ghost use Rattle.std.specs.Prelude.{◌≡◌, ◌+◌, ◌<◌, ◌≤◌, All, IfOk};
ghost use Rattle.geom.specs.Limit.{AreInLimit};
ghost use Rattle.grid.specs.Tiles.{tile_count, Owns};
ghost use Rattle.hot_region.specs.Candidates.{chosen, AreCandidates, AreOwnedHot};
ghost use Rattle.hot_pixel.specs.Pairs.{meeting_pairs};

use crate::tile_sweep::sweep_tile;
use geom::{NoMemory, Pt, Seg};
use grid::{Count, Grid};
use std::alloc::Allocator;
use std::marker::Brand;
use std::sync::ledger::{Blank, Ledger};

/// The hot pixels that a tile owns, ascending and each once. The numbers are those of the candidates: every segment that
/// meets a pixel of the tile is among them.
pub fn hot_in<A: Allocator + Copy>(
    alloc: A,
    grid: &Grid,
    tile: u32,
    segments: &[Seg],
    numbers: &[u32],
) -> Result<Vec<Pt, A>, NoMemory>
    requires tile { tile < tile_count grid.now }
    requires limits { All (λ s. AreInLimit s.a s.b) segments.now }
    requires candidates { AreCandidates (Owns grid.now tile) segments.now numbers.now }
    ensures { IfOk result (λ v. AreOwnedHot (Owns grid.now tile) segments.now v.items) }
{
    count_and_sweep::<Brand, A>(Blank::new(1), alloc, grid, tile, segments, numbers)
}

/// The same as `hot_in`. It ticks at each ask of `cross`, at most as often as there are pairs of candidates whose boxes
/// share a point.
pub fn sweep<L: Ledger, A: Allocator + Copy>(
    alloc: A,
    grid: &Grid,
    tile: u32,
    segments: &[Seg],
    numbers: &[u32],
    count: &mut Count<L>,
) -> Result<Vec<Pt, A>, NoMemory>
    requires tile { tile < tile_count grid.now }
    requires limits { All (λ s. AreInLimit s.a s.b) segments.now }
    requires candidates { AreCandidates (Owns grid.now tile) segments.now numbers.now }
    ensures hot { IfOk result (λ v. AreOwnedHot (Owns grid.now tile) segments.now v.items) }
    ensures onward { count.old ≤ count.new }
    ensures cost { count.new ≤ count.old + meeting_pairs (chosen segments.now numbers.now) }
{
    let rect = grid.rect(tile);
    sweep_tile(alloc, &rect, segments, numbers, count)
}

/// The same as `hot_in`, with a count of its own.
fn count_and_sweep<L: Ledger, A: Allocator + Copy>(
    blank: Blank,
    alloc: A,
    grid: &Grid,
    tile: u32,
    segments: &[Seg],
    numbers: &[u32],
) -> Result<Vec<Pt, A>, NoMemory>
    requires name { blank.name ≡ L.name }
    requires parts { blank.parts ≡ L.parts }
    requires some { 0 < L.parts }
    requires tile { tile < tile_count grid.now }
    requires limits { All (λ s. AreInLimit s.a s.b) segments.now }
    requires candidates { AreCandidates (Owns grid.now tile) segments.now numbers.now }
    ensures { IfOk result (λ v. AreOwnedHot (Owns grid.now tile) segments.now v.items) }
{
    let mut count = Count::<L>::new(blank);
    sweep(alloc, grid, tile, segments, numbers, &mut count)
}
