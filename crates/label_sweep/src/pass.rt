//! The sweep of a strip: from the edges that cross the column before its first vertex (`SweepLine::before`), from vertex to vertex. The
//! edges that end at one make room for those that begin there (`SweepLine::turn`), which are labelled (`SweepLine::pass`, `sweep`), or
//! listed with the edge beside each (`SweepLine::pass_beside`, `sweep_beside`). Of all edges, which contracts alone know, a strip needs
//! those that begin in it and those that cross the column.

ghost use Rattle.std.specs.Prelude.{ℕ, ◌≡◌, ◌<◌, ◌≤◌, ◌++◌, [], ◌∷◌, All, AllPairs, Contains, IfOk, List, OnOk, false, length, map, reverse, slice_range};
ghost use Rattle.geom.specs.Limit.{AreInLimit, InLimit};
ghost use Rattle.geom.specs.Order.{IsBefore};
ghost use Rattle.geom.specs.Rounded.{edges_of};
ghost use Rattle.geom.specs.declared.edge.Counted.{Counted};
ghost use Rattle.geom.specs.declared.point.Pt.{Pt};
ghost use Rattle.label_sweep.specs.Slots.{HaveEnded, IsKept, all_standing};
ghost use Rattle.label_sweep.specs.Column.{BeginsStrip, IsStripOf};
ghost use Rattle.label_sweep.specs.Labels.{AreEnded, AreLabels, AreLabelsUpTo, IsAt, IsLabelled, IsSweepAt, IsSweptTo, IsSweptUpTo, edge_beside, labels_from, parities_beside, stands_from};
ghost use Rattle.label_sweep.specs.Status.{AreSpokes};
ghost use Rattle.label_sweep.specs.Swept.{AreSweptFrom, besides_from};

use crate::column::crossing;
use crate::parities::Parities;
use crate::standing::{LabelledEdge, Spoke, StandingEdge};
use crate::status::{Place, Status, edge_beside, parities_beside};
use crate::swept::SweptEdge;
use crate::turn::{by_turn, label, list_beside, stand};
use crate::vertices::last_of;
use geom::{Counted, NoMemory, Pt};
use std::alloc::Allocator;

/// The sweep at a vertex: the edges that stand, and of the last vertex those that begin there, the steepest first, those of them that stand
/// from there on, and those that ended there and are not upright.
#[derive(Drop)]
pub struct SweepLine<A: Allocator> {
    pub standing: Status<A>,
    pub spokes: Vec<Spoke, A>,
    pub fresh: Vec<StandingEdge, A>,
    pub ended: Vec<StandingEdge, A>,
}

impl<A: Allocator + Copy> SweepLine<A> {
    /// Before the first vertex.
    fn new(alloc: A) -> Result<SweepLine<A>, NoMemory>
        ensures standing { IfOk result (λ line. all_standing line.standing ≡ []) }
        ensures kept { IfOk result (λ line. IsKept line.standing) }
        ensures free { IfOk result (λ line. line.standing.free.items ≡ []) }
    {
        Ok(SweepLine {
            standing: Status::new(alloc)?,
            spokes: Vec::new(alloc),
            fresh: Vec::new(alloc),
            ended: Vec::new(alloc),
        })
    }

    /// Before a vertex that begins a column: with the edges that cross the column on its left, of edges that have them all.
    pub fn before(alloc: A, counted: &[Counted], v: Pt) -> Result<SweepLine<A>, NoMemory>
        requires { All (λ e. AreInLimit e.p e.q) (edges_of counted.now) }
        ensures swept { (all : List Counted) → BeginsStrip all counted.now v → IfOk result (λ line. IsSweptUpTo all v (all_standing line.standing)) }
        ensures kept { IfOk result (λ line. IsKept line.standing) }
        ensures free { (w : Pt) → IfOk result (λ line. HaveEnded w line.standing) }
    {
        let mut line = SweepLine::new(alloc)?;
        let spokes = crossing(alloc, counted, v.x)?;
        line.fill(&spokes)?;
        Ok(line)
    }

    /// Lets edges stand where nothing does, from the highest to the lowest, with no parity above them.
    fn fill(&mut self, spokes: &[Spoke]) -> Result<(), NoMemory>
        requires empty { all_standing self.old.standing ≡ [] }
        requires kept { IsKept self.old.standing }
        requires free { self.old.standing.free.items ≡ [] }
        ensures standing { OnOk result (all_standing self.new.standing ≡ reverse (stands_from (record { a = false; b = false }) spokes.now)) }
        ensures kept { OnOk result (IsKept self.new.standing) }
        ensures free { (v : Pt) → OnOk result (HaveEnded v self.new.standing) }
    {
        let none = Parities { a: false, b: false };
        stand(spokes, none, &mut self.fresh)?;
        let start = Place {
            chunk: 0,
            within: 0,
        };
        self.standing
            .replace(start, start, &self.fresh, &mut self.ended)?;
        Ok(())
    }

    /// At a vertex: takes the edges that begin there, which are those from one number to another, by turning, and lets them stand in the
    /// place of those that end there, which are listed. Answers the lowest edge above the vertex, if there is one. Inlined, since labels read no more of that
    /// edge than the parities below it.
    #[inline(always)]
    pub fn turn(
        &mut self,
        own: &[Counted],
        from: usize,
        next: usize,
        v: Pt,
    ) -> Result<Option<StandingEdge>, NoMemory>
        requires v_in { InLimit v }
        requires own_in { All (λ e. AreInLimit e.p e.q) (edges_of (slice_range own.now from next)) }
        requires order { from ≤ next }
        requires within { next ≤ length own.now }
        requires some { 0 < length self.old.standing.chunks.items }
        ensures some { OnOk result (0 < length self.new.standing.chunks.items) }
        ensures kept { (all : List Counted) → IsSweepAt all own.now v from next self.old.standing → OnOk result (IsKept self.new.standing) }
        ensures swept { (all : List Counted) → IsSweepAt all own.now v from next self.old.standing → OnOk result (IsSweptTo all v (all_standing self.new.standing)) }
        ensures ended { (all : List Counted) → IsSweepAt all own.now v from next self.old.standing → OnOk result (AreEnded all v self.new.ended.items) }
        ensures free { (all : List Counted) → IsSweepAt all own.now v from next self.old.standing → HaveEnded v self.old.standing → OnOk result (HaveEnded v self.new.standing) }
        ensures spokes { (all : List Counted) → IsSweepAt all own.now v from next self.old.standing
            → OnOk result (AreSpokes (edges_of all) v (map (λ s. s.one.edge) self.new.spokes.items)) }
        ensures inside { OnOk result (All (λ s. Contains (slice_range own.now from next) s.one) self.new.spokes.items) }
        ensures labels { (all : List Counted) → IsSweepAt all own.now v from next self.old.standing
            → IfOk result (λ lowest. All (IsLabelled all) (labels_from (parities_beside lowest) self.new.spokes.items)) }
        ensures besides { (all : List Counted) → IsSweepAt all own.now v from next self.old.standing
            → IfOk result (λ lowest. AreSweptFrom (edges_of all) (v ∷ []) (besides_from (edge_beside lowest) self.new.spokes.items)) }
    {
        let low = self.standing.first_not_below(v);
        let high = self.standing.first_above(v, low);
        let lowest = self.standing.lowest_from(high);
        let left = parities_beside(lowest);
        by_turn(&mut self.spokes, own, from, next, v)?;
        stand(&self.spokes, left, &mut self.fresh)?;
        self.standing
            .replace(low, high, &self.fresh, &mut self.ended)?;
        Ok(lowest)
    }

    /// Past a vertex: labels the edges that begin there.
    fn pass(
        &mut self,
        own: &[Counted],
        from: usize,
        next: usize,
        v: Pt,
        labelled: &mut Vec<LabelledEdge, A>,
    ) -> Result<(), NoMemory>
        requires v_in { InLimit v }
        requires own_in { All (λ e. AreInLimit e.p e.q) (edges_of (slice_range own.now from next)) }
        requires order { from ≤ next }
        requires within { next ≤ length own.now }
        requires some { 0 < length self.old.standing.chunks.items }
        ensures some { OnOk result (0 < length self.new.standing.chunks.items) }
        ensures kept { (all : List Counted) → IsSweepAt all own.now v from next self.old.standing → OnOk result (IsKept self.new.standing) }
        ensures swept { (all : List Counted) → IsSweepAt all own.now v from next self.old.standing → OnOk result (IsSweptTo all v (all_standing self.new.standing)) }
        ensures labelled { (all : List Counted) → IsSweepAt all own.now v from next self.old.standing
            → OnOk result (AreLabelsUpTo all own.now from labelled.old.items → AreLabelsUpTo all own.now next labelled.new.items) }
    {
        let lowest = self.turn(own, from, next, v)?;
        label(&self.spokes, parities_beside(lowest), labelled)?;
        Ok(())
    }

    /// Past a vertex: lists the edges that begin there, each with the one beside it.
    fn pass_beside(
        &mut self,
        own: &[Counted],
        from: usize,
        next: usize,
        v: Pt,
        swept: &mut Vec<SweptEdge, A>,
    ) -> Result<(), NoMemory>
        requires here { ∥ ((all : List Counted) × IsAt all own.now v from next (all_standing self.old.standing)) ∥₁ }
        requires kept { IsKept self.old.standing }
        ensures kept { OnOk result (IsKept self.new.standing) }
        ensures swept { (all : List Counted) → IsAt all own.now v from next (all_standing self.old.standing) → OnOk result (IsSweptTo all v (all_standing self.new.standing)) }
        ensures besides { (all : List Counted) → IsAt all own.now v from next (all_standing self.old.standing)
            → OnOk result ((points : List Pt) → AllPairs IsBefore (points ++ v ∷ []) → AreSweptFrom (edges_of all) points swept.old.items
            → AreSweptFrom (edges_of all) (points ++ v ∷ []) swept.new.items) }
    {
        let lowest = self.turn(own, from, next, v)?;
        list_beside(&self.spokes, edge_beside(lowest), swept)?;
        Ok(())
    }
}

/// The labels of the edges of a strip, with edges among which are those that cross the column before it. Edges that are no strip's have labels
/// that say nothing.
pub fn sweep<A: Allocator + Copy>(
    alloc: A,
    before: &[Counted],
    own: &[Counted],
    vertices: &[Pt],
) -> Result<Vec<LabelledEdge, A>, NoMemory>
    requires before_in { All (λ e. AreInLimit e.p e.q) (edges_of before.now) }
    requires own_in { All (λ e. AreInLimit e.p e.q) (edges_of own.now) }
    requires vertices_in { All InLimit vertices.now }
    ensures { (all : List Counted) → IsStripOf all before.now own.now vertices.now → IfOk result (λ labelled. AreLabels all own.now labelled.items) }
{
    if vertices.is_empty() {
        return Ok(Vec::new(alloc));
    }
    let mut line = SweepLine::before(alloc, before, vertices[0])?;
    let mut labelled = Vec::with_capacity(alloc, own.len())?;
    let mut next = 0;
    for number in 0..vertices.len() {
        let from = next;
        next = last_of(own, from, vertices[number]);
        line.pass(own, from, next, vertices[number], &mut labelled)?;
    }
    Ok(labelled)
}

/// The edges of a strip, each with the one beside it.
pub fn sweep_beside<A: Allocator + Copy>(
    alloc: A,
    before: &[Counted],
    own: &[Counted],
    vertices: &[Pt],
) -> Result<Vec<SweptEdge, A>, NoMemory>
    requires { ∥ ((all : List Counted) × IsStripOf all before.now own.now vertices.now) ∥₁ }
    ensures { (all : List Counted) → IsStripOf all before.now own.now vertices.now → IfOk result (λ swept. AreSweptFrom (edges_of all) vertices.now swept.items) }
{
    if vertices.is_empty() {
        return Ok(Vec::new(alloc));
    }
    let mut line = SweepLine::before(alloc, before, vertices[0])?;
    let mut swept = Vec::with_capacity(alloc, own.len())?;
    let mut next = 0;
    for number in 0..vertices.len() {
        let from = next;
        next = last_of(own, from, vertices[number]);
        line.pass_beside(own, from, next, vertices[number], &mut swept)?;
    }
    Ok(swept)
}
