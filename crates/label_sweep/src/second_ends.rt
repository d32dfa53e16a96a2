//! The vertices in a strip of columns, in order, each with how many edges end there:
//! 1. The second ends that lie in the strip are listed and sorted: those of the edges that begin in it or before (`second_ends`).
//! 2. They are merged with the first ends of the edges that begin in it, in whose order these stand (`merged_ends`).

ghost use Rattle.std.specs.Prelude.{◌≡◌, ◌++◌, ◌∷◌, [], ◌⊎◌, ◌↔◌, ◌≤◌, ◌<◌, All, AllPairs, IfOk, IsTrue, OnOk, count_by, false, filter, get_or, if◌then◌else◌, length, map, true};
ghost use Rattle.std.specs.List.{AllWithin};
ghost use Rattle.geom.specs.EdgeOrder.{IsEdgeBefore};
ghost use Rattle.geom.specs.Order.{IsBefore, IsUpTo};
ghost use Rattle.geom.specs.Rounded.{edges_of};
ghost use Rattle.geom.specs.Segments.{same_point};
ghost use Rattle.geom.specs.declared.edge.Counted.{Counted};
ghost use Rattle.geom.specs.declared.point.Pt.{Pt};
ghost use Rattle.points_law.specs.Law.{AreLayers};
ghost use Rattle.label_sweep.specs.Column.{AreVerticesBetween, IsStrip, LiesBetween};
ghost use Rattle.label_sweep.specs.Endings.{AreMerged, TellEndings, are_of, ending_of};

use crate::vertices::last_of;
use geom::{Counted, NoMemory, Pt};
use hands::Part;
use std::alloc::Allocator;

/// How many edges end at a vertex, as far as the sweep tells it apart.
#[derive(Clone, Copy, Debug, PartialEq, Eq)]
pub enum Ending {
    One,
    Two,
    Other,
}

impl Ending {
    /// That of so many edges.
    fn of(count: usize) -> Ending
        ensures { result ≡ ending_of count }
    {
        match count {
            1 => Ending::One,
            2 => Ending::Two,
            _ => Ending::Other,
        }
    }
}

/// Vertices, ascending, each with how many edges end there.
#[derive(Drop)]
pub struct Vertices<A: Allocator> {
    pub points: Vec<Pt, A>,
    pub endings: Vec<Ending, A>,
}

/// The columns from one to before another one, or all from there on.
#[derive(Clone, Copy, Debug)]
struct Columns {
    from: i32,
    past: Option<i32>,
}

impl Columns {
    /// Those of a strip.
    fn of(counted: &[Counted], strip: Part) -> Columns
        requires { strip.from < length counted.now }
        ensures { (v : Pt) → IsTrue (are_of result v) ↔ LiesBetween counted.now strip.from strip.past v }
    {
        Columns {
            from: counted[strip.from].edge.p.x,
            past: counted.get(strip.past).map(|one| one.edge.p.x),
        }
    }

    /// Whether one of them is a point's.
    fn are_of(self, v: Pt) -> bool
        ensures { result ≡ are_of self v }
    {
        self.from <= v.x
            && match self.past {
                Some(past) => v.x < past,
                None => true,
            }
    }
}

/// Adds a second end, if it lies in the columns.
fn add_end<A: Allocator>(ends: &mut Vec<Pt, A>, columns: Columns, end: Pt) -> Result<(), NoMemory>
    ensures { OnOk result (ends.new.items ≡ ends.old.items ++ (if are_of columns end then end ∷ [] else [])) }
{
    if columns.are_of(end) {
        ends.push(end)?;
    }
    Ok(())
}

/// The second ends in the columns, as they are listed.
fn list_ends<A: Allocator>(
    alloc: A,
    counted: &[Counted],
    columns: Columns,
    room: usize,
) -> Result<Vec<Pt, A>, NoMemory>
    ensures { IfOk result (λ ends. ends.items ≡ filter (are_of columns) (map (λ c. c.edge.q) counted.now)) }
{
    let mut ends = Vec::with_capacity(alloc, room)?;
    for one in counted {
        add_end(&mut ends, columns, one.edge.q)?;
    }
    Ok(ends)
}

/// The second ends in a strip, ascending, each as often as edges end there.
fn second_ends<A: Allocator + Copy>(
    alloc: A,
    counted: &[Counted],
    strip: Part,
) -> Result<Vec<Pt, A>, NoMemory>
    requires layers { AreLayers counted.now }
    requires strip { IsStrip counted.now strip }
    requires some { strip.from < length counted.now }
    ensures sorted { IfOk result (λ ends. AllPairs IsUpTo ends.items) }
    ensures between { IfOk result (λ ends. All (LiesBetween counted.now strip.from strip.past) ends.items) }
    ensures each { (v : Pt) → LiesBetween counted.now strip.from strip.past v
        → IfOk result (λ ends. count_by (λ q. same_point q v) ends.items ≡ count_by (λ e. same_point e.q v) (edges_of counted.now)) }
{
    let columns = Columns::of(counted, strip);
    let ends = list_ends(
        alloc,
        &counted[..strip.past],
        columns,
        strip.past - strip.from,
    )?;
    Ok(range_sort::sorted(ends, |end: &Pt| i64::from(end.x)))
}

/// Whether an end lies at a vertex or before.
fn is_up_to(end: Pt, v: Pt) -> bool
    ensures upto { result ≡ true → IsUpTo end v }
    ensures past { result ≡ false → IsBefore v end }
{
    end <= v
}

/// The number of ends at a vertex or before, where those up to a number lie before it.
fn last_end(ends: &[Pt], from: usize, v: Pt) -> usize
    requires { from ≤ length ends.now }
    ensures from { from ≤ result }
    ensures within { result ≤ length ends.now }
    ensures ended { AllWithin (λ q. IsUpTo q v) ends.now from result }
    ensures past { AllPairs IsUpTo ends.now → AllWithin (λ q. IsBefore v q) ends.now result (length ends.now) }
{
    let mut past = from;
    while past < ends.len() && is_up_to(ends[past], v) {
        past += 1;
    }
    past
}

/// The next vertex: the lesser of the next second end and the first end of the next edge, of which there is one at least.
fn next_vertex(own: &[Counted], next: usize, ends: &[Pt], past: usize) -> Pt
    requires { (next < length own.now) ⊎ (past < length ends.now) }
    ensures end { (d : Pt) → past < length ends.now → IsUpTo result (get_or ends.now past d) }
    ensures edge { (c : Counted) → next < length own.now → IsUpTo result (get_or own.now next c).edge.p }
    ensures either { ((past < length ends.now) × ((d : Pt) → result ≡ get_or ends.now past d)) ⊎ ((next < length own.now) × ((c : Counted) → result ≡ (get_or own.now next c).edge.p)) }
{
    if next >= own.len() {
        ends[past]
    } else if past >= ends.len() {
        own[next].edge.p
    } else {
        own[next].edge.p.min(ends[past])
    }
}

/// The first ends of edges, and second ends, each point once, and how often it is among the second ends.
fn merged_ends<A: Allocator + Copy>(
    alloc: A,
    own: &[Counted],
    ends: &[Pt],
) -> Result<Vertices<A>, NoMemory>
    requires ascending { AllPairs (λ c d. IsEdgeBefore c.edge d.edge) own.now }
    requires sorted { AllPairs IsUpTo ends.now }
    ensures { IfOk result (λ vertices. AreMerged (map (λ c. c.edge.p) own.now) ends.now vertices.points.items vertices.endings.items) }
{
    let mut points = Vec::with_capacity(alloc, own.len())?;
    let mut endings = Vec::with_capacity(alloc, own.len())?;
    let (mut next, mut past) = (0, 0);
    while next < own.len() || past < ends.len() {
        let v = next_vertex(own, next, ends, past);
        let ended = past;
        next = last_of(own, next, v);
        past = last_end(ends, past, v);
        points.push(v)?;
        endings.push(Ending::of(past - ended))?;
    }
    Ok(Vertices { points, endings })
}

/// The vertices in a strip of layers.
pub fn vertices_in<A: Allocator + Copy>(
    alloc: A,
    counted: &[Counted],
    strip: Part,
) -> Result<Vertices<A>, NoMemory>
    requires layers { AreLayers counted.now }
    requires strip { IsStrip counted.now strip }
    requires some { strip.from < length counted.now }
    ensures points { IfOk result (λ vertices. AreVerticesBetween counted.now strip.from strip.past vertices.points.items) }
    ensures endings { IfOk result (λ vertices. TellEndings (edges_of counted.now) vertices.points.items vertices.endings.items) }
{
    let ends = second_ends(alloc, counted, strip)?;
    merged_ends(alloc, &counted[strip.from..strip.past], &ends)
}
