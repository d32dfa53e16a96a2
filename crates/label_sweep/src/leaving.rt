//! The directed edges of a result that leave the vertices of a strip, in order: the sweep of `pass`, where most vertices are plain.
//! 1. At a plain vertex one edge ends, and one begins that is not upright. The one takes the other's slot, and what lies on its left is what
//!    lies on the other's left (`pass_on`). Where two edges end and two begin, as at a crossing, so do the lower ones and the upper ones
//!    (`pass_both`). The slots are told by a table of the ends of what stands (`Hints`); where that doesn't know them, and at all other vertices,
//!    the sweep turns (`turn`).
//! 2. The labels of the edges that begin or end at the vertex tell which directed edges leave it, and those are sorted (`leave`).

ghost use Rattle.std.specs.Prelude.{◌≡◌, ◌+◌, ◌++◌, ◌∷◌, [], ◌<ℤ◌, All, AllPairs, IfOk, IfSome, List, None, OnOk, Some, false, get_or, true, flat_map, length, map};
ghost use Rattle.geom.specs.Limit.{AreInLimit};
ghost use Rattle.geom.specs.Order.{IsBefore};
ghost use Rattle.geom.specs.Rounded.{edges_of};
ghost use Rattle.geom.specs.declared.edge.Counted.{Counted};
ghost use Rattle.geom.specs.declared.point.Pt.{Pt};
ghost use Rattle.points_law.specs.Law.{AreLayers};
ghost use Rattle.label_sweep.specs.Column.{BeginsStrip, IsStripOf};
ghost use Rattle.label_sweep.specs.Labels.{IsSweptUpTo, labelled_of};
ghost use Rattle.label_sweep.specs.Endings.{EndsOnce, EndsTwice, IsEnding, TellEndings};
ghost use Rattle.label_sweep.specs.Leaving.{AreAround, AreLeaving, IsPast, IsReadyAt, IsSeatedTo, leaving_of};
ghost use Rattle.label_sweep.specs.Slots.{IsKept, all_standing};
ghost use Rattle.label_sweep.specs.Status.{IsSteeper};
ghost use Rattle.label_sweep.specs.declared.leaving.Seated.{Seated};

use crate::directed::put_in_order;
use crate::pass::SweepLine;
use crate::place::is_steeper;
use crate::second_ends::Ending;
use crate::standing::{LabelledEdge, Spoke, StandingEdge};
use crate::status::parities_beside;
use crate::turn::{by_turn, label, stand};
use crate::vertices::{last_of, place_of};
use geom::{Counted, DirectedEdge, NoMemory, Op, Pt};
use std::alloc::Allocator;

/// How many places a table of ends has at most.
const MOST_PLACES: usize = 65_536;

/// How many places of the table an edge is worth.
const PLACES: usize = 4;

impl StandingEdge {
    /// The edge, and the parities on its sides.
    fn labelled(&self) -> LabelledEdge
        ensures { result ≡ labelled_of self.now }
    {
        LabelledEdge {
            edge: self.spoke.one.edge,
            left: self.under.beyond(&self.spoke.one),
            right: self.under,
        }
    }
}

/// The slots that were noted last for a place of a table.
#[derive(Clone, Copy, Debug)]
struct Noted {
    last: u32,
    before: u32,
}

/// Slots in which edges may stand that end at a point: two for each place of a table, which is cost alone.
#[derive(Drop)]
struct Hints<A: Allocator> {
    places: Vec<Noted, A>,
}

impl<A: Allocator + Copy> Hints<A> {
    /// No slots, for so many edges.
    fn new(alloc: A, edges: usize) -> Result<Hints<A>, NoMemory> {
        let places = edges.saturating_mul(PLACES).min(MOST_PLACES);
        let none = Noted { last: 0, before: 0 };
        Ok(Hints {
            places: vec![in alloc; none; places]?,
        })
    }

    /// The slots that were noted last for the point's place in the table, or the first one.
    fn slots(&self, v: Pt) -> Noted {
        match self.places.get(place_of(v, self.places.len())) {
            Some(noted) => *noted,
            None => Noted { last: 0, before: 0 },
        }
    }

    /// Notes the slot of an edge that ends at a point.
    fn note(&mut self, v: Pt, number: u32) {
        let place = place_of(v, self.places.len());
        if let Some(noted) = self.places.get_mut(place) {
            *noted = Noted {
                last: number,
                before: noted.last,
            };
        }
    }

    /// Notes the slots of edges.
    fn note_all(&mut self, standing: &[StandingEdge], numbers: &[u32]) {
        for (one, number) in standing.iter().zip(numbers) {
            self.note(one.spoke.one.edge.q, *number);
        }
    }
}

/// An edge that stands, and the number of its slot.
#[derive(Clone, Copy, Debug)]
struct Seated {
    number: u32,
    one: StandingEdge,
}

/// Adds the directed edges along a labelled edge that bound the result and leave a vertex.
fn add_leaving<A: Allocator>(
    edges: &mut Vec<DirectedEdge, A>,
    one: &LabelledEdge,
    v: Pt,
    op: Op,
) -> Result<(), NoMemory>
    ensures { OnOk result (edges.new.items ≡ edges.old.items ++ leaving_of op v one.now) }
{
    let (forward, back) = one.directions(op);
    if forward && one.edge.p == v {
        edges.push(DirectedEdge {
            from: one.edge.p,
            to: one.edge.q,
        })?;
    }
    if back && one.edge.q == v {
        edges.push(DirectedEdge {
            from: one.edge.q,
            to: one.edge.p,
        })?;
    }
    Ok(())
}

/// Lists those along labelled edges.
fn list_leaving<A: Allocator>(
    edges: &mut Vec<DirectedEdge, A>,
    around: &[LabelledEdge],
    v: Pt,
    op: Op,
) -> Result<(), NoMemory>
    ensures { OnOk result (edges.new.items ≡ flat_map (leaving_of op v) around.now) }
{
    edges.clear();
    for one in around {
        add_leaving(edges, one, v, op)?;
    }
    Ok(())
}

/// Adds the labels of edges that stand.
fn add_labels<A: Allocator>(
    labelled: &mut Vec<LabelledEdge, A>,
    standing: &[StandingEdge],
) -> Result<(), NoMemory>
    ensures { OnOk result (labelled.new.items ≡ labelled.old.items ++ map labelled_of standing.now) }
{
    for one in standing {
        labelled.push(one.labelled())?;
    }
    Ok(())
}

/// The sweep at a vertex, and the labels of edges among which are those that began at the vertex before it and are upright.
#[derive(Drop)]
struct LeavingSweep<A: Allocator> {
    line: SweepLine<A>,
    hints: Hints<A>,
    began: Vec<LabelledEdge, A>,
    around: Vec<LabelledEdge, A>,
}

impl<A: Allocator + Copy> LeavingSweep<A> {
    /// Before a vertex that begins a column: with the edges that cross the column on its left, of edges that have them all, and for so many
    /// edges.
    fn before(
        alloc: A,
        counted: &[Counted],
        v: Pt,
        edges: usize,
    ) -> Result<LeavingSweep<A>, NoMemory>
        requires { All (λ e. AreInLimit e.p e.q) (edges_of counted.now) }
        ensures swept { (all : List Counted) → BeginsStrip all counted.now v → IfOk result (λ sweep. IsSweptUpTo all v (all_standing sweep.line.standing)) }
        ensures kept { IfOk result (λ sweep. IsKept sweep.line.standing) }
        ensures free { IfOk result (λ sweep. sweep.line.standing.free.items ≡ []) }
        ensures upright { IfOk result (λ sweep. sweep.began.items ≡ []) }
    {
        let line = SweepLine::before(alloc, counted, v)?;
        let mut hints = Hints::new(alloc, edges)?;
        hints.note_all(&line.fresh, line.standing.seated());
        Ok(LeavingSweep {
            line,
            hints,
            began: Vec::new(alloc),
            around: Vec::new(alloc),
        })
    }

    /// At a vertex where one edge begins, and at most one ends: lets the one stand in the slot of the other, if that is known and the one isn't
    /// upright. Answers whether it does.
    fn pass_on(&mut self, own: &[Counted], from: usize, v: Pt) -> Result<bool, NoMemory>
        requires here { ∥ ((all : List Counted) × IsReadyAt all own.now v from (from + 1) self.old.line.standing self.old.began.items) ∥₁ }
        ensures past { (all : List Counted) → IsReadyAt all own.now v from (from + 1) self.old.line.standing self.old.began.items → EndsOnce (edges_of all) v
            → IfOk result (λ done. done ≡ true → IsPast all v self.new.line.standing self.new.began.items) }
        ensures around { (all : List Counted) → IsReadyAt all own.now v from (from + 1) self.old.line.standing self.old.began.items → EndsOnce (edges_of all) v
            → IfOk result (λ done. done ≡ true → AreAround all v self.new.around.items) }
        ensures not_yet { IfOk result (λ done. done ≡ false → (self.new.line ≡ self.old.line) × (self.new.began ≡ self.old.began)) }
    {
        let one = own[from];
        let number = self.hints.slots(v).last;
        let Some(old) = self.line.standing.slot(number) else {
            return Ok(false);
        };
        if old.spoke.one.edge.q != v || one.edge.p.x == one.edge.q.x {
            return Ok(false);
        }
        let ended = old.labelled();
        let under = ended.left.beyond(&one);
        let spoke = Spoke { one };
        self.line
            .standing
            .pass_on(number, StandingEdge { spoke, under });
        self.hints.note(one.edge.q, number);
        self.began.clear();
        self.around.clear();
        self.around.push(ended)?;
        self.around.push(LabelledEdge {
            edge: one.edge,
            left: ended.left,
            right: under,
        })?;
        Ok(true)
    }

    /// The two slots whose edges end at a vertex, that of the lower one first, where they are known.
    fn ended_pair(&self, v: Pt) -> Option<(Seated, Seated)>
        ensures lower { (low high : Seated) → result ≡ Some (low, high) → IsSeatedTo self.now.line.standing v low }
        ensures upper { (low high : Seated) → result ≡ Some (low, high) → IsSeatedTo self.now.line.standing v high }
        ensures order { (low high : Seated) → result ≡ Some (low, high) → IsSteeper low.one.spoke.one.edge high.one.spoke.one.edge }
    {
        let noted = self.hints.slots(v);
        let one = self.ended(noted.last, v)?;
        let other = self.ended(noted.before, v)?;
        if is_steeper(&one.one.spoke, &other.one.spoke) {
            Some((one, other))
        } else if is_steeper(&other.one.spoke, &one.one.spoke) {
            Some((other, one))
        } else {
            None
        }
    }

    /// The edge in a slot, where it ends at a vertex.
    fn ended(&self, number: u32, v: Pt) -> Option<Seated>
        ensures { IfSome result (IsSeatedTo self.now.line.standing v) }
    {
        let one = self.line.standing.slot(number)?;
        if one.spoke.one.edge.q == v {
            Some(Seated { number, one })
        } else {
            None
        }
    }

    /// At a vertex where two edges begin, and at most two end: lets the lower one that begins stand in the slot of the lower one that ends, and the
    /// upper one in that of the upper one, if both slots are known and no edge that begins is upright. Answers whether it does.
    fn pass_both(&mut self, own: &[Counted], from: usize, v: Pt) -> Result<bool, NoMemory>
        requires here { ∥ ((all : List Counted) × IsReadyAt all own.now v from (from + 2) self.old.line.standing self.old.began.items) ∥₁ }
        ensures past { (all : List Counted) → IsReadyAt all own.now v from (from + 2) self.old.line.standing self.old.began.items → EndsTwice (edges_of all) v
            → IfOk result (λ done. done ≡ true → IsPast all v self.new.line.standing self.new.began.items) }
        ensures around { (all : List Counted) → IsReadyAt all own.now v from (from + 2) self.old.line.standing self.old.began.items → EndsTwice (edges_of all) v
            → IfOk result (λ done. done ≡ true → AreAround all v self.new.around.items) }
        ensures standing { IfOk result (λ done. done ≡ false → self.new.line.standing ≡ self.old.line.standing) }
        ensures began { IfOk result (λ done. done ≡ false → self.new.began ≡ self.old.began) }
    {
        let Some((low, high)) = self.ended_pair(v) else {
            return Ok(false);
        };
        by_turn(&mut self.line.spokes, own, from, from + 2, v)?;
        let left = high.one.labelled().left;
        stand(&self.line.spokes, left, &mut self.line.fresh)?;
        if self.line.fresh.len() != 2 {
            return Ok(false);
        }
        self.line.standing.pass_on(low.number, self.line.fresh[0]);
        self.line.standing.pass_on(high.number, self.line.fresh[1]);
        self.hints
            .note(self.line.fresh[0].spoke.one.edge.q, low.number);
        self.hints
            .note(self.line.fresh[1].spoke.one.edge.q, high.number);
        self.began.clear();
        label(&self.line.spokes, left, &mut self.began)?;
        self.around.clear();
        self.around.push(low.one.labelled())?;
        self.around.push(high.one.labelled())?;
        self.around.extend_from_slice(&self.began)?;
        Ok(true)
    }

    /// At any vertex: turns, and labels the edges that begin or end there.
    fn turn(&mut self, own: &[Counted], from: usize, next: usize, v: Pt) -> Result<(), NoMemory>
        requires here { ∥ ((all : List Counted) × IsReadyAt all own.now v from next self.old.line.standing self.old.began.items) ∥₁ }
        ensures past { (all : List Counted) → IsReadyAt all own.now v from next self.old.line.standing self.old.began.items
            → OnOk result (IsPast all v self.new.line.standing self.new.began.items) }
        ensures around { (all : List Counted) → IsReadyAt all own.now v from next self.old.line.standing self.old.began.items → OnOk result (AreAround all v self.new.around.items) }
    {
        let lowest = self.line.turn(own, from, next, v)?;
        self.around.clear();
        add_labels(&mut self.around, &self.line.ended)?;
        self.around.extend_from_slice(&self.began)?;
        self.began.clear();
        label(&self.line.spokes, parities_beside(lowest), &mut self.began)?;
        self.around.extend_from_slice(&self.began)?;
        self.hints
            .note_all(&self.line.fresh, self.line.standing.seated());
        Ok(())
    }

    /// Past a vertex, of which it is known how many edges end there.
    fn pass(
        &mut self,
        own: &[Counted],
        from: usize,
        next: usize,
        v: Pt,
        ending: Ending,
    ) -> Result<(), NoMemory>
        requires here { ∥ ((all : List Counted) × IsReadyAt all own.now v from next self.old.line.standing self.old.began.items) ∥₁ }
        ensures past { (all : List Counted) → IsReadyAt all own.now v from next self.old.line.standing self.old.began.items → IsEnding (edges_of all) v ending
            → OnOk result (IsPast all v self.new.line.standing self.new.began.items) }
        ensures around { (all : List Counted) → IsReadyAt all own.now v from next self.old.line.standing self.old.began.items → IsEnding (edges_of all) v ending
            → OnOk result (AreAround all v self.new.around.items) }
    {
        let passed = match (ending, next - from) {
            (Ending::One, 1) => self.pass_on(own, from, v)?,
            (Ending::Two, 2) => self.pass_both(own, from, v)?,
            _ => false,
        };
        if !passed {
            self.turn(own, from, next, v)?;
        }
        Ok(())
    }
}

/// Adds the directed edges that leave a vertex along the labelled edges around it, in order.
fn leave<A: Allocator>(
    edges: &mut Vec<DirectedEdge, A>,
    here: &mut Vec<DirectedEdge, A>,
    around: &[LabelledEdge],
    v: Pt,
    op: Op,
) -> Result<(), NoMemory>
    ensures { (all : List Counted) → AreLayers all → AreAround all v around.now → OnOk result ((points : List Pt) → AllPairs IsBefore (points ++ v ∷ []) → AreLeaving op all points edges.old.items
        → AreLeaving op all (points ++ v ∷ []) edges.new.items) }
{
    list_leaving(here, around, v, op)?;
    put_in_order(here);
    edges.extend_from_slice(here)?;
    Ok(())
}

/// The directed edges of the result of an operation that leave the vertices of a strip, in order, with edges among which are those that cross
/// the column before it, and for each vertex how many edges end there.
pub fn sweep_leaving<A: Allocator + Copy>(
    alloc: A,
    before: &[Counted],
    own: &[Counted],
    vertices: &[Pt],
    endings: &[Ending],
    op: Op,
) -> Result<Vec<DirectedEdge, A>, NoMemory>
    requires { ∥ ((all : List Counted) × IsStripOf all before.now own.now vertices.now × TellEndings (edges_of all) vertices.now endings.now) ∥₁ }
    ensures { (all : List Counted) → IsStripOf all before.now own.now vertices.now → TellEndings (edges_of all) vertices.now endings.now
        → IfOk result (λ edges. AreLeaving op all vertices.now edges.items) }
{
    if vertices.is_empty() {
        return Ok(Vec::new(alloc));
    }
    let mut sweep = LeavingSweep::before(alloc, before, vertices[0], own.len())?;
    let mut edges = Vec::with_capacity(alloc, own.len())?;
    let mut here = Vec::new(alloc);
    let mut next = 0;
    for number in 0..vertices.len() {
        let v = vertices[number];
        let from = next;
        next = last_of(own, from, v);
        sweep.pass(own, from, next, v, endings[number])?;
        leave(&mut edges, &mut here, &sweep.around, v, op)?;
    }
    Ok(edges)
}
