//! The borders of features: the pieces of all cells in, the rounded edges that are the border of some feature out, with these features.
//!
//! 1. The records are linked as for layers, but that the owner of a segment makes the links of its route (`made`).
//! 2. Each hand merges the links of a share, by the columns of their first ends, from all lists (`shares`).
//! 3. It keeps of each link that occurs an odd number of times one (`odd_in_shares`).
//! 4. What is left is one list: its runs are the edges, and its features are one list for all of them (`borders_by_links`).

ghost use Rattle.std.specs.Prelude.{◌≡◌, ◌<◌, ◌≤◌, ℕ, All, AllPairs, IfOk, List, flat_map, length, map, true};
ghost use Rattle.geom.specs.Limit.{AreInLimit};
ghost use Rattle.geom.specs.Noded.{IsNoded};
ghost use Rattle.grid.specs.Tiles.{tile_count};
ghost use Rattle.tile_book.specs.Books.{StandInOrder};
ghost use Rattle.cover_law.specs.Borders.{AreBordered, IsClosedFeature};
ghost use Rattle.cover_law.specs.Changing.{changing, has_some};
ghost use Rattle.cover_law.specs.Cover.{AreBorders, Bordered, bordered, edges_in};
ghost use Rattle.feature_links.specs.declared.link.FeatureLink.{FeatureLink};
ghost use Rattle.feature_links.specs.Odd.{AreOdd};
ghost use Rattle.linking.specs.Gathered.{AreTileNumbers, HaveTiles};
ghost use Rattle.linking.specs.Links.{AreFeatureRouteLinks};
ghost use Rattle.linking.specs.Shares.{feature_column_of};
ghost use Rattle.linking.specs.Spans.{within};

use crate::made::{LinkedAlone, LinkedPieces, link_alone, link_pieces};
use crate::ordered::InOrder;
use crate::rounded::TileNumbers;
use crate::shares::{merged, only_list, shares_to_merge};
use crate::span::Share;
use crate::tile_piece::{TilePiece, Tiled};
use cover_law::Border;
use feature_links::{FeatureLink, borders_of, features_of, odd_links};
use geom::{NoMemory, Seg};
use grid::Grid;
use hands::{joined, map_parts};
use std::alloc::Allocator;
use std::thread::Threads;

/// The rounded edges that are the border of some feature, in order, each with where these features stand among those of all edges; each
/// tile's numbers; and how many tiles' pieces were made anew.
#[derive(Drop)]
pub struct RoundedBorders<A: Allocator> {
    pub borders: Vec<Border, A>,
    pub features: Vec<u32, A>,
    pub tiles: Vec<TileNumbers, A>,
    pub remade: u32,
}

/// The rounded edges that are the border of some feature, with these features, of the pieces of all cells in their order. The owners are
/// the features of the segments. All else is as in `gather_made`.
pub fn gather_borders<T: Tiled, A: Allocator + Copy>(
    alloc: A,
    pieces: Vec<TilePiece<T, A>, A>,
    remade: u32,
    cells: &Grid,
    grid: &Grid,
    segments: &[Seg],
    owners: &[u32],
) -> Result<RoundedBorders<A>, NoMemory>
    requires cells { cells.now ≡ T.grid }
    requires segments { segments.now ≡ T.segments }
    requires covered_by_cells { HaveTiles cells.now segments.now }
    requires covered { HaveTiles grid.now segments.now }
    requires one_each { length pieces.items ≡ tile_count cells.now }
    requires in_order { StandInOrder (λ p. p.number) pieces.items }
    requires owners { length owners.now ≡ length segments.now }
    ensures borders { IfOk result (λ r. ∥ ((count : ℕ) → All (λ f. f < count) owners.now → (edges : List Bordered) × AreBordered count segments.now owners.now edges × (map (bordered r.features.items) r.borders.items ≡ changing edges)) ∥₁) }
    ensures noded { IfOk result (λ r. IsNoded (edges_in (map (bordered r.features.items) r.borders.items))) }
    ensures closed { IfOk result (λ r. (count : ℕ) → All (λ f. f < count) owners.now → ((f : ℕ) → f < count → IsClosedFeature f segments.now owners.now) → All (λ s. AreInLimit s.a s.b) segments.now → AreBorders (map (bordered r.features.items) r.borders.items)) }
    ensures some { IfOk result (λ r. All (λ b. has_some (bordered r.features.items b).features ≡ true) r.borders.items) }
    ensures ordered { IfOk result (λ r. All (λ b. AllPairs (λ f g. f < g) (bordered r.features.items b).features) r.borders.items) }
    ensures inside { IfOk result (λ r. All (λ b. (b.from ≤ b.to) × (b.to ≤ length r.features.items)) r.borders.items) }
    ensures below { IfOk result (λ r. (count : ℕ) → All (λ f. f < count) owners.now → All (λ f. f < count) r.features.items) }
    ensures tiles { IfOk result (λ r. AreTileNumbers grid.now segments.now (tile_count grid.now) r.tiles.items) }
    ensures remade { IfOk result (λ r. r.remade ≡ remade) }
{
    let found = link_alone(alloc, pieces, cells, grid, segments, owners)?;
    let LinkedAlone { links, tiles } = found;
    let odd = odd_in_order(alloc, &links)?;
    borders_by_links(alloc, segments, owners, &odd, tiles, remade)
}

/// As `gather_borders`, in at most so many parts, each in a thread of its own.
pub fn gather_borders_in_parts<
    T: Tiled + Sync,
    A: Allocator + Copy + Send + Sync,
    R: Threads + Sync,
>(
    rt: &R,
    alloc: A,
    parts: usize,
    pieces: Vec<TilePiece<T, A>, A>,
    remade: u32,
    cells: &Grid,
    grid: &Grid,
    segments: &[Seg],
    owners: &[u32],
) -> Result<RoundedBorders<A>, NoMemory>
    requires cells { cells.now ≡ T.grid }
    requires segments { segments.now ≡ T.segments }
    requires covered_by_cells { HaveTiles cells.now segments.now }
    requires covered { HaveTiles grid.now segments.now }
    requires one_each { length pieces.items ≡ tile_count cells.now }
    requires in_order { StandInOrder (λ p. p.number) pieces.items }
    requires owners { length owners.now ≡ length segments.now }
    ensures borders { IfOk result (λ r. ∥ ((count : ℕ) → All (λ f. f < count) owners.now → (edges : List Bordered) × AreBordered count segments.now owners.now edges × (map (bordered r.features.items) r.borders.items ≡ changing edges)) ∥₁) }
    ensures noded { IfOk result (λ r. IsNoded (edges_in (map (bordered r.features.items) r.borders.items))) }
    ensures closed { IfOk result (λ r. (count : ℕ) → All (λ f. f < count) owners.now → ((f : ℕ) → f < count → IsClosedFeature f segments.now owners.now) → All (λ s. AreInLimit s.a s.b) segments.now → AreBorders (map (bordered r.features.items) r.borders.items)) }
    ensures some { IfOk result (λ r. All (λ b. has_some (bordered r.features.items b).features ≡ true) r.borders.items) }
    ensures ordered { IfOk result (λ r. All (λ b. AllPairs (λ f g. f < g) (bordered r.features.items b).features) r.borders.items) }
    ensures inside { IfOk result (λ r. All (λ b. (b.from ≤ b.to) × (b.to ≤ length r.features.items)) r.borders.items) }
    ensures below { IfOk result (λ r. (count : ℕ) → All (λ f. f < count) owners.now → All (λ f. f < count) r.features.items) }
    ensures tiles { IfOk result (λ r. AreTileNumbers grid.now segments.now (tile_count grid.now) r.tiles.items) }
    ensures remade { IfOk result (λ r. r.remade ≡ remade) }
{
    let found = link_pieces(rt, alloc, parts, pieces, cells, grid, segments, owners)?;
    let LinkedPieces { links, tiles } = found;
    let odd = odd_in_parts(rt, alloc, parts, links)?;
    borders_by_links(alloc, segments, owners, &odd, tiles, remade)
}

/// Of links in order those that occur an odd number of times, in order.
fn odd_in_order<A: Allocator>(
    alloc: A,
    links: &InOrder<FeatureLink, A>,
) -> Result<Vec<FeatureLink, A>, NoMemory>
    ensures { IfOk result (λ odd. AreOdd links.now.items.items odd.items) }
{
    odd_links(alloc, &links.items)
}

/// Of the links of lists those that occur an odd number of times, in order, in shares, about so many or more, each by a hand of its own.
fn odd_in_shares<R: Threads + Sync, A: Allocator + Copy + Send + Sync>(
    rt: &R,
    alloc: A,
    parts: usize,
    lists: &[InOrder<FeatureLink, A>],
) -> Result<Vec<Vec<FeatureLink, A>, A>, NoMemory>
    ensures { IfOk result (λ v. AreOdd (flat_map (λ l. l.items.items) lists.now) (flat_map (λ l. l.items) v.items)) }
{
    let shares = shares_to_merge(alloc, parts, lists)?;
    map_parts(
        rt,
        alloc,
        &shares,
        |share: Share| -> Result<Vec<FeatureLink, A>, NoMemory>
            ensures { IfOk result (λ v. AreOdd (within feature_column_of share.span (flat_map (λ l. l.items.items) lists.entry.now)) v.items) }
        {
            let links = merged(alloc, lists, share)?;
            odd_in_order(alloc, &links)
        },
    )
}

/// Of the links of lists those that occur an odd number of times, in order.
fn odd_of_lists<R: Threads + Sync, A: Allocator + Copy + Send + Sync>(
    rt: &R,
    alloc: A,
    parts: usize,
    lists: Vec<InOrder<FeatureLink, A>, A>,
) -> Result<Vec<FeatureLink, A>, NoMemory>
    ensures { IfOk result (λ odd. AreOdd (flat_map (λ l. l.items.items) lists.items) odd.items) }
{
    let odd = odd_in_shares(rt, alloc, parts, &lists)?;
    drop(lists);
    Ok(joined(alloc, odd)?)
}

/// The same, where a list that is the only one is taken as it stands.
fn odd_in_parts<R: Threads + Sync, A: Allocator + Copy + Send + Sync>(
    rt: &R,
    alloc: A,
    parts: usize,
    lists: Vec<InOrder<FeatureLink, A>, A>,
) -> Result<Vec<FeatureLink, A>, NoMemory>
    ensures { IfOk result (λ odd. AreOdd (flat_map (λ l. l.items.items) lists.items) odd.items) }
{
    match only_list(lists) {
        Ok(links) => odd_in_order(alloc, &links),
        Err(lists) => odd_of_lists(rt, alloc, parts, lists),
    }
}

/// What was gathered, by those of the links of all routes that occur an odd number of times.
fn borders_by_links<A: Allocator + Copy>(
    alloc: A,
    segments: &[Seg],
    owners: &[u32],
    odd: &[FeatureLink],
    tiles: Vec<TileNumbers, A>,
    remade: u32,
) -> Result<RoundedBorders<A>, NoMemory>
    requires owners { length owners.now ≡ length segments.now }
    requires odd { (links : List FeatureLink) × ∥ AreFeatureRouteLinks segments.now owners.now links ∥₁ × AreOdd links odd.now }
    ensures borders { IfOk result (λ r. ∥ ((count : ℕ) → All (λ f. f < count) owners.now → (edges : List Bordered) × AreBordered count segments.now owners.now edges × (map (bordered r.features.items) r.borders.items ≡ changing edges)) ∥₁) }
    ensures noded { IfOk result (λ r. IsNoded (edges_in (map (bordered r.features.items) r.borders.items))) }
    ensures closed { IfOk result (λ r. (count : ℕ) → All (λ f. f < count) owners.now → ((f : ℕ) → f < count → IsClosedFeature f segments.now owners.now) → All (λ s. AreInLimit s.a s.b) segments.now → AreBorders (map (bordered r.features.items) r.borders.items)) }
    ensures some { IfOk result (λ r. All (λ b. has_some (bordered r.features.items b).features ≡ true) r.borders.items) }
    ensures ordered { IfOk result (λ r. All (λ b. AllPairs (λ f g. f < g) (bordered r.features.items b).features) r.borders.items) }
    ensures inside { IfOk result (λ r. All (λ b. (b.from ≤ b.to) × (b.to ≤ length r.features.items)) r.borders.items) }
    ensures below { IfOk result (λ r. (count : ℕ) → All (λ f. f < count) owners.now → All (λ f. f < count) r.features.items) }
    ensures tiles { IfOk result (λ r. r.tiles.items ≡ tiles.items) }
    ensures remade { IfOk result (λ r. r.remade ≡ remade) }
{
    let borders = borders_of(alloc, odd)?;
    let features = features_of(alloc, odd)?;
    Ok(RoundedBorders {
        borders,
        features,
        tiles,
        remade,
    })
}
