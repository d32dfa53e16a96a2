//! The least bad pair of a tile, and of all tiles.

ghost use Rattle.std.specs.Prelude.{◌≡◌, ◌<◌, All, AllPairs, IfOk};
ghost use Rattle.geom.specs.Limit.{AreInLimit};
ghost use Rattle.geom.specs.EdgeOrder.{IsEdgeBefore};
ghost use Rattle.geom.specs.Rounded.{edges_of};
ghost use Rattle.grid.specs.Tiles.{tile_count, Owns};
ghost use Rattle.noding_test.specs.Verdicts.{AreNear, IsLeastPair, IsOwnBad};
ghost use Rattle.noding_test.specs.Passes.{AreBinsOfEdges, IsBadBelow, IsLesser};

use crate::finding::verdict;
use crate::own::own_verdict;
use crate::verdicts::Verdict;
use geom::{Counted, Edge, NoMemory};
use std::alloc::Allocator;
use tile_book::{Book, Limited};
use tiling::{Bins, Grid};

/// The lesser of two pairs, where there are any.
fn lesser(one: Option<(Edge, Edge)>, other: Option<(Edge, Edge)>) -> Option<(Edge, Edge)>
    ensures { IsLesser one other result }
{
    let Some(first) = one else {
        return other;
    };
    let Some(second) = other else {
        return one;
    };
    if second < first {
        Some(second)
    } else {
        Some(first)
    }
}

/// The least bad pair of a tile: by the book's verdict, or where that is missing or was made from something else, by a new
/// one. The numbers are those of the edges near the tile.
fn bad_of_tile<L: Limited, A: Allocator + Copy>(
    alloc: A,
    book: &Book<Verdict<A>, L, A>,
    grid: &Grid,
    tile: u32,
    counted: &[Counted],
    numbers: &[u32],
) -> Result<Option<(Edge, Edge)>, NoMemory>
    requires tile { tile < tile_count grid.now }
    requires limits { All (λ c. AreInLimit c.edge.p c.edge.q) counted.now }
    requires ascending { AllPairs (λ c d. IsEdgeBefore c.edge d.edge) counted.now }
    requires near { AreNear grid.now tile counted.now numbers.now }
    ensures { IfOk result (λ bad. ∥ IsLeastPair (IsOwnBad (Owns grid.now tile) (edges_of counted.now)) bad ∥₁) }
{
    if let Some(held) = own_verdict(book, grid, tile, counted, numbers) {
        return Ok(held.bad);
    }
    let made = verdict(alloc, grid, tile, counted, numbers)?;
    Ok(made.bad)
}

/// The least bad pair of all tiles, tile by tile.
pub(crate) fn bad_of_all<L: Limited, A: Allocator + Copy>(
    alloc: A,
    book: &Book<Verdict<A>, L, A>,
    grid: &Grid,
    bins: &Bins<A>,
    counted: &[Counted],
) -> Result<Option<(Edge, Edge)>, NoMemory>
    requires limits { All (λ c. AreInLimit c.edge.p c.edge.q) counted.now }
    requires ascending { AllPairs (λ c d. IsEdgeBefore c.edge d.edge) counted.now }
    requires bins { AreBinsOfEdges grid.now counted.now bins.now }
    ensures { IfOk result (λ bad. ∥ IsLeastPair (IsBadBelow grid.now (tile_count grid.now) (edges_of counted.now)) bad ∥₁) }
{
    let mut bad = None;
    let mut numbers = Vec::new(alloc);
    for tile in 0..grid.tiles() {
        bins.bin(tile, &mut numbers)?;
        let found = bad_of_tile(alloc, book, grid, tile, counted, &numbers)?;
        bad = lesser(bad, found);
    }
    Ok(bad)
}
