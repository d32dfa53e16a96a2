//! Segments cut where others of their carrier end on them. The carrier of a segment is the line through it.
//!
//! 1. The ends of all lines are marks. They are sorted by the carriers, and along these (`marks_of`).
//! 2. A mark between two others of its carrier is kept where the gap before or behind it may pass the tile (`near`).
//! 3. Each segment is cut at those that are kept and lie on it, between its ends. So of one carrier no two portions pass the tile
//!    that aren't equal or share an end alone.

ghost use Rattle.std.specs.Prelude.{◌≡◌, ◌+◌, ◌<◌, All, Contains, IfOk, IsTrue, List, OnOk, length, pos};
ghost use Rattle.geom.specs.Determinant.{side};
ghost use Rattle.geom.specs.Limit.{AreInLimit, InLimit};
ghost use Rattle.geom.specs.Order.{IsBefore};
ghost use Rattle.routing.specs.Cutting.{AddsPortions, AreAmong, AreCut, AreMarks, LiesBetween};
ghost use Rattle.routing.specs.declared.on_line.OnLine.{OnLine};

use crate::mark::{Carrier, Mark};
use crate::on_line::OnLine;
use geom::{Edge, NoMemory, Pt, Rect};
use std::alloc::Allocator;

/// A common divisor of two numbers that aren't both 0: the greatest.
fn common_divisor(first: u64, second: u64) -> u64
    requires { 0 < first + second }
    ensures { 0 < result }
{
    let mut divisor = first;
    let mut rest = second;
    while rest != 0 {
        let next = divisor % rest;
        divisor = rest;
        rest = next;
    }
    divisor
}

/// The carrier of an edge.
fn carrier_of(edge: &Edge) -> Carrier
    requires { AreInLimit edge.now.p edge.now.q }
{
    let along = edge.p.vector_to(edge.q);
    let side = along.determinant(Pt { x: 0, y: 0 }.vector_to(edge.p));
    let (run, rise) = (along.dx.unsigned_abs(), along.dy.unsigned_abs());
    let divisor = common_divisor(run, rise);
    Carrier {
        run: run / divisor,
        rise: rise / divisor,
        goes_down: along.dy < 0,
        is_below: side < 0,
        side: side.unsigned_abs() / divisor,
    }
}

/// By what a mark stands first.
fn run_of(mark: &Mark) -> i64 {
    i64::try_from(mark.carrier.run).unwrap_or(i64::MAX)
}

/// Adds both ends of an edge.
fn push_ends<A: Allocator>(marks: &mut Vec<Mark, A>, edge: &Edge) -> Result<(), NoMemory>
    requires { AreInLimit edge.now.p edge.now.q }
    ensures { OnOk result ((table : List OnLine) (x : OnLine) → Contains table x → x.edge ≡ edge.now → AreMarks table marks.old.items → AreMarks table marks.new.items) }
{
    let carrier = carrier_of(edge);
    marks.push(Mark {
        carrier,
        point: edge.p,
    })?;
    marks.push(Mark {
        carrier,
        point: edge.q,
    })?;
    Ok(())
}

/// Whether the entry at a place has the edge of the one before it.
fn is_again(table: &[OnLine], place: usize) -> bool
    requires { place < length table.now }
{
    place > 0 && table[place - 1].edge == table[place].edge
}

/// The ends of the edges of a table, where equal ones stand together, by their carriers and along these.
fn marks_of<A: Allocator + Copy>(alloc: A, table: &[OnLine]) -> Result<Vec<Mark, A>, NoMemory>
    ensures { IfOk result (λ v. AreMarks table.now v.items) }
{
    let mut marks = Vec::new(alloc);
    for place in 0..table.len() {
        if !is_again(table, place) {
            push_ends(&mut marks, &table[place].edge)?;
        }
    }
    let mut marks = range_sort::sorted(marks, run_of);
    marks.dedup();
    Ok(marks)
}

/// Whether the gap between two marks may pass a tile.
fn passes(tile: &Rect, first: &Mark, second: &Mark) -> bool {
    Rect::spanned_by(first.point, second.point).shares_point(tile)
}

/// The mark at a place.
fn mark_at(marks: &[Mark], place: usize) -> Mark
    requires { place < length marks.now }
    ensures { Contains marks.now result }
{
    marks[place]
}

/// Whether a mark lies between two others of its carrier, and the gap before or behind it may pass a tile.
fn is_near(tile: &Rect, marks: &[Mark], place: usize) -> bool
    requires { place < length marks.now }
{
    if place == 0 || place + 1 == marks.len() {
        return false;
    }
    let (before, mark, behind) = (&marks[place - 1], &marks[place], &marks[place + 1]);
    before.carrier == mark.carrier
        && mark.carrier == behind.carrier
        && (passes(tile, before, mark) || passes(tile, mark, behind))
}

/// The marks between others, next to gaps that may pass a tile, in their order.
fn near<A: Allocator>(alloc: A, tile: &Rect, marks: &[Mark]) -> Result<Vec<Mark, A>, NoMemory>
    ensures { IfOk result (λ v. AreAmong marks.now v.items) }
{
    let mut kept = Vec::new(alloc);
    for place in 0..marks.len() {
        if is_near(tile, marks, place) {
            kept.push(mark_at(marks, place))?;
        }
    }
    Ok(kept)
}

/// The marks on the carrier of an edge, between its ends.
fn marks_on<'a>(marks: &'a [Mark], edge: &Edge) -> &'a [Mark]
    requires { AreInLimit edge.now.p edge.now.q }
    ensures { AreAmong marks.now result.now }
{
    let carrier = carrier_of(edge);
    let (first, last) = (
        Mark {
            carrier,
            point: edge.p,
        },
        Mark {
            carrier,
            point: edge.q,
        },
    );
    let behind = marks
        .split_at(marks.partition_point(|mark| *mark <= first))
        .1;
    behind
        .split_at(behind.partition_point(|mark| *mark < last))
        .0
}

/// Whether a point is less than another one.
fn is_before(point: Pt, other: Pt) -> bool
    ensures { IsTrue result → IsBefore point other }
{
    point < other
}

/// Whether a point lies on the line of an edge.
fn is_level(edge: &Edge, point: Pt) -> bool
    requires edge_in { AreInLimit edge.now.p edge.now.q }
    requires point_in { InLimit point }
    ensures { IsTrue result → side edge.now.p edge.now.q point ≡ pos 0 }
{
    edge.side(point) == 0
}

/// Whether a point lies on an edge, between its ends.
fn lies_between(edge: &Edge, point: Pt) -> bool
    requires edge_in { AreInLimit edge.now.p edge.now.q }
    requires point_in { InLimit point }
    ensures { IsTrue result → LiesBetween edge.now point }
{
    is_before(edge.p, point) && is_before(point, edge.q) && is_level(edge, point)
}

/// Adds the portions of an edge: it is cut at each of some marks, in their order along it, that lies on what is left of it.
fn add_portions<A: Allocator>(
    portions: &mut Vec<OnLine, A>,
    whole: &OnLine,
    marks: &[Mark],
) -> Result<(), NoMemory>
    ensures { OnOk result (AddsPortions whole.now marks.now portions.old.items portions.new.items) }
{
    let number = whole.number;
    let q = whole.edge.q;
    let mut start = whole.edge.p;
    for mark in marks {
        if lies_between(&Edge { p: start, q }, mark.point) {
            let edge = Edge {
                p: start,
                q: mark.point,
            };
            portions.push(OnLine { edge, number })?;
            start = mark.point;
        }
    }
    let edge = Edge { p: start, q };
    portions.push(OnLine { edge, number })?;
    Ok(())
}

/// The portions of the edges of a table, cut at some of their ends.
pub(crate) fn cut_at<A: Allocator>(
    alloc: A,
    table: &[OnLine],
    marks: &[Mark],
) -> Result<Vec<OnLine, A>, NoMemory>
    requires { AreMarks table.now marks.now }
    ensures { IfOk result (λ v. AreCut table.now table.now v.items) }
{
    let mut portions = Vec::new(alloc);
    for whole in table {
        add_portions(&mut portions, whole, marks_on(marks, &whole.edge))?;
    }
    Ok(portions)
}

/// The ends of edges of a table at which others may have to be cut, in a tile or next to it.
pub(crate) fn marks_between<A: Allocator + Copy>(
    alloc: A,
    tile: &Rect,
    table: &[OnLine],
) -> Result<Vec<Mark, A>, NoMemory>
    ensures { IfOk result (λ v. AreMarks table.now v.items) }
{
    let ends = marks_of(alloc, table)?;
    let marks = near(alloc, tile, &ends)?;
    Ok(marks)
}
