//! The cover sets on both sides of each edge.
//!
//! 1. Edges are taken in the order of a sweep, where the edge beside each comes before it (`SweptEdge`).
//! 2. So the set on its left is known: that on the right of the edge beside it, or the empty one where nothing lies above (`Covers::beside`).
//! 3. The set on its right is what lies beyond it from there, where its own features are exchanged (`Sets::beyond`).
//! 4. Both stand at the edge's number, which is guessed by the column in which the edge begins (`guess`), or else found by halves
//!    (`number_of`).

ghost use Rattle.std.specs.Prelude.{◌≡◌, ◌<◌, ◌≤◌, ℕ, true, false, List, All, AllPairs, Contains, IfOk, IfSome, OnOk, length, map};
ghost use Rattle.std.specs.List.{HoldsAt};
ghost use Rattle.geom.specs.declared.edge.Edge.{Edge};
ghost use Rattle.geom.specs.EdgeOrder.{IsEdgeBefore};
ghost use Rattle.label_sweep.specs.Swept.{IsBeside};
ghost use Rattle.cover_law.specs.Cover.{AreBorders, bordered, edges_in};
ghost use Rattle.cover_sets.specs.Sets.{AreSets, IsListed};
ghost use Rattle.cover_sets.specs.Visited.{IsBesideVisited, IsVisited, cover_beside};

use crate::sets::Sets;
use crate::tree::EMPTY;
use cover_law::Border;
use geom::{Edge, NoMemory};
use label_sweep::SweptEdge;
use range_sort::Places;
use std::alloc::Allocator;

/// The cover sets on the left and on the right of each edge, by their numbers among the sets, in the order of the edges.
#[derive(Drop)]
pub struct Covers<A: Allocator> {
    pub sets: Sets<A>,
    pub left: Vec<u32, A>,
    pub right: Vec<u32, A>,
}

/// The column in which an edge begins.
fn column_of(edge: Edge) -> i64 {
    i64::from(edge.p.x)
}

/// Where the borders of each column stand.
pub(crate) fn columns_of<A: Allocator + Copy>(
    alloc: A,
    borders: &[Border],
) -> Result<Places<A>, NoMemory> {
    Ok(Places::of(alloc, borders, &|border: &Border| column_of(border.edge))?)
}

/// What may be the number of an edge: one that is likely, or else what is found among those that begin in columns like its own.
fn guess<A: Allocator + Copy>(
    borders: &[Border],
    columns: &Places<A>,
    edge: Edge,
    likely: usize,
) -> usize {
    if likely < borders.len() && borders[likely].edge == edge {
        return likely;
    }
    let (from, to) = columns.around(column_of(edge));
    match borders.get(from..to) {
        Some(near) => from.wrapping_add(near.partition_point(|b| b.edge < edge)),
        None => likely,
    }
}

/// Whether an edge is less than another one.
fn is_edge_before(e: Edge, f: Edge) -> bool
    ensures before { result ≡ true → IsEdgeBefore e f }
    ensures not_before { result ≡ false → ¬ (IsEdgeBefore e f) }
{
    e < f
}

/// The number of an edge, which may be a likely one.
fn number_of<A: Allocator + Copy>(
    borders: &[Border],
    columns: &Places<A>,
    edge: Edge,
    likely: usize,
) -> usize
    requires ascending { AllPairs (λ b c. IsEdgeBefore b.edge c.edge) borders.now }
    requires there { Contains (map (λ b. b.edge) borders.now) edge }
    ensures within { result < length borders.now }
    ensures edge { HoldsAt (λ b. b.edge ≡ edge) borders.now result }
{
    let guess = guess(borders, columns, edge, likely);
    if guess < borders.len() && borders[guess].edge == edge {
        return guess;
    }
    borders.partition_point(|b| is_edge_before(b.edge, edge))
}

impl<A: Allocator + Copy> Covers<A> {
    /// No sets, and none on the sides of so many edges.
    pub(crate) fn new(alloc: A, edges: usize) -> Result<Covers<A>, NoMemory>
        ensures sets { IfOk result (λ c. AreSets c.sets) }
        ensures left { IfOk result (λ c. length c.left.items ≡ edges) }
        ensures right { IfOk result (λ c. length c.right.items ≡ edges) }
    {
        let left = vec![in alloc; EMPTY; edges]?;
        let right = vec![in alloc; EMPTY; edges]?;
        Ok(Covers {
            sets: Sets::new(alloc),
            left,
            right,
        })
    }

    /// The set on the right of the edge beside another one.
    fn beside(
        &self,
        borders: &[Border],
        columns: &Places<A>,
        beside: Option<Edge>,
        likely: usize,
    ) -> u32
        requires ascending { AllPairs (λ b c. IsEdgeBefore b.edge c.edge) borders.now }
        requires there { IfSome beside (λ f. Contains (map (λ b. b.edge) borders.now) f) }
        requires right { length self.now.right.items ≡ length borders.now }
        ensures { (features : List ℕ) → IsBesideVisited features (map (bordered features) borders.now) self.now.sets self.now.left.items self.now.right.items beside
            → (count : ℕ) → All (λ f. f < count) features → IsListed self.now.sets (cover_beside count (map (bordered features) borders.now) beside) result }
    {
        match beside {
            Some(edge) => self.right[number_of(borders, columns, edge, likely)],
            None => EMPTY,
        }
    }

    /// Past an edge: the sets on its sides, where those of the edge beside it are known. Gives the edge's number.
    pub(crate) fn pass(
        &mut self,
        borders: &[Border],
        columns: &Places<A>,
        features: &[u32],
        swept: SweptEdge,
        last: usize,
    ) -> Result<usize, NoMemory>
        requires borders { AreBorders (map (bordered features.now) borders.now) }
        requires inside { All (λ b. (b.from ≤ b.to) × (b.to ≤ length features.now)) borders.now }
        requires ordered { All (λ b. AllPairs (λ f g. f < g) (bordered features.now b).features) borders.now }
        requires below { All (λ f. f < 2147483647) features.now }
        requires left { length self.old.left.items ≡ length borders.now }
        requires right { length self.old.right.items ≡ length borders.now }
        requires swept { IsBeside (edges_in (map (bordered features.now) borders.now)) swept }
        requires there { IfSome swept.beside (λ f. Contains (edges_in (map (bordered features.now) borders.now)) f) }
        requires beside { IsBesideVisited features.now (map (bordered features.now) borders.now) self.old.sets self.old.left.items self.old.right.items swept.beside }
        ensures sets { OnOk result (AreSets self.new.sets) }
        ensures left { OnOk result (length self.new.left.items ≡ length borders.now) }
        ensures right { OnOk result (length self.new.right.items ≡ length borders.now) }
        ensures kept { OnOk result ((e : Edge) → IsVisited features.now (map (bordered features.now) borders.now) self.old.sets self.old.left.items self.old.right.items e
            → IsVisited features.now (map (bordered features.now) borders.now) self.new.sets self.new.left.items self.new.right.items e) }
        ensures visited { OnOk result (IsVisited features.now (map (bordered features.now) borders.now) self.new.sets self.new.left.items self.new.right.items swept.edge) }
    {
        let number = number_of(borders, columns, swept.edge, last.wrapping_add(1));
        let left = self.beside(borders, columns, swept.beside, last);
        let border = borders[number];
        let right = self.sets.beyond(left, &features[border.from..border.to])?;
        self.left[number] = left;
        self.right[number] = right;
        Ok(number)
    }
}
