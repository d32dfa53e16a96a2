//! The hot pixels of a rectangle where nearly all lines run side by side: no two of those cross in it, so only the others are
//! crossed with all.
//!
//! 1. Lines that don't run through the columns of the rectangle are some of the others. These may be a few at most.
//! 2. The strands of the lines that do are sorted. If all lines run through and each strand follows the one before, no pixel is hot.
//! 3. Else they are kept one after the other. Where one doesn't follow the last that is kept, both are taken out: they are others too.
//! 4. If those that are kept are a bundle, the ends of the others are hot, and their crossings with all lines.
//! 5. Steep lines are looked at by the rows, with x and y exchanged, and so are others where columns won't do.

ghost use Rattle.std.specs.Prelude.{◌≡◌, ◌≤◌, ◌≤ℤ◌, IfOk, IfSome, IsTrue, OnOk, [], Contains, length};
ghost use Rattle.geom.specs.declared.point.Pt.{Pt};
ghost use Rattle.geom.specs.Limit.{AreInLimit};
ghost use Rattle.hot_region.specs.Boxes.{boxes_of};
ghost use Rattle.hot_region.specs.Beside.{AreAscending, AreInOrder, AreParted, TakePart};
ghost use Rattle.hot_region.specs.Carriers.{AreCarried};
ghost use Rattle.hot_region.specs.Halving.{HasHot, IsEndOf, edges_of};
ghost use Rattle.hot_region.specs.Lines.{HasBothCrossed};
ghost use Rattle.hot_region.specs.Rects.{IsIn};

use crate::bundle::{Course, is_bundle, runs_through, seen};
use crate::carrier::{Carried, strand_if_through, x_of};
use crate::leaf::{add_ends, cross_near};
use crate::lines::Line;
use box_lanes::{Boxes, LANES};
use geom::{NoMemory, Pt, Rect};
use std::alloc::Allocator;

/// How many of so many lines are crossed with all at most.
fn a_few(lines: usize) -> usize {
    (lines / 8).max(8).min(LANES)
}

/// Some lines, parted into those that may run side by side and the others.
#[derive(Drop)]
struct Parted<A: Allocator> {
    beside: Vec<Line, A>,
    others: Vec<Line, A>,
}

/// Whether all lines but a few run through.
fn most_run_through(course: Course, low: i32, high: i32, lines: &[Line]) -> bool {
    let most = a_few(lines.len());
    let mut others = 0;
    for line in lines {
        let edge = seen(course, &line.edge);
        if !runs_through(low, high, &edge) {
            if others == most {
                return false;
            }
            others += 1;
        }
    }
    true
}

/// Whether two lines run through, and the strand of the second follows that of the first.
fn are_in_order(first: &Carried, second: &Carried) -> bool
    ensures { IsTrue result → AreInOrder first.now second.now }
{
    match (first.strand, second.strand) {
        (Some(a), Some(b)) => a.is_followed_by(&b),
        _ => false,
    }
}

/// Whether the last line of a list and another one run through and change places.
fn crosses_last(items: &[Carried], item: &Carried) -> bool {
    match items.last() {
        None => false,
        Some(last) => {
            last.strand.is_some()
                && item.strand.is_some()
                && !are_in_order(last, item)
                && !are_in_order(item, last)
        }
    }
}

/// Each line by its place, with its strand if it runs through; nothing where it is seen at once that more than a few cross.
fn with_strands<A: Allocator>(
    alloc: A,
    course: Course,
    low: i32,
    high: i32,
    lines: &[Line],
) -> Result<Option<Vec<Carried, A>>, NoMemory>
    requires { low ≤ℤ high }
    ensures { IfOk result (λ o. IfSome o (λ v. AreCarried course low high lines.now v.items)) }
{
    let mut items = Vec::with_capacity(alloc, lines.len())?;
    let most = a_few(lines.len());
    let mut crossed = 0;
    for place in 0..lines.len() {
        let strand = strand_if_through(course, low, high, &lines[place].edge);
        let item = Carried { strand, place };
        if crosses_last(&items, &item) {
            if crossed == most {
                return Ok(None);
            }
            crossed += 1;
        }
        items.push(item)?;
    }
    Ok(Some(items))
}

/// Whether there are several lines, of which each is in order with the one before.
fn ascend(items: &[Carried]) -> bool
    ensures { IsTrue result → AreAscending items.now }
{
    if items.len() < 2 {
        return false;
    }
    for k in 1..items.len() {
        if !are_in_order(&items[k - 1], &items[k]) {
            return false;
        }
    }
    true
}

/// Keeps a line that follows the last one that is kept; else both are taken out.
fn keep<A: Allocator>(
    kept: &mut Vec<Carried, A>,
    out: &mut Vec<usize, A>,
    item: &Carried,
) -> Result<(), NoMemory> {
    match kept.pop() {
        None => {
            if item.strand.is_some() {
                kept.push(*item)?;
            } else {
                out.push(item.place)?;
            }
        }
        Some(last) => {
            if are_in_order(&last, item) {
                kept.push(last)?;
                kept.push(*item)?;
            } else {
                out.push(last.place)?;
                out.push(item.place)?;
            }
        }
    }
    Ok(())
}

/// The places of the lines that are taken out, those with strands being sorted by these; nothing where they are more than a few.
fn taken_out<A: Allocator + Copy>(
    alloc: A,
    items: &[Carried],
) -> Result<Option<Vec<usize, A>>, NoMemory> {
    let mut kept = Vec::with_capacity(alloc, items.len())?;
    let mut out = Vec::new(alloc);
    let most = a_few(items.len());
    for item in items {
        keep(&mut kept, &mut out, item)?;
        if out.len() > most {
            return Ok(None);
        }
    }
    Ok(Some(out))
}

/// Whether a place is among some.
fn is_among(places: &[usize], place: usize) -> bool {
    for other in places {
        if *other == place {
            return true;
        }
    }
    false
}

/// The lines at some places are the others.
fn part_at<A: Allocator + Copy>(
    alloc: A,
    lines: &[Line],
    places: &[usize],
) -> Result<Parted<A>, NoMemory>
    ensures { IfOk result (λ p. AreParted lines.now p.beside.items p.others.items) }
{
    let mut beside = Vec::with_capacity(alloc, lines.len())?;
    let mut others = Vec::new(alloc);
    for place in 0..lines.len() {
        let line = lines[place];
        if is_among(places, place) {
            others.push(line)?;
        } else {
            beside.push(line)?;
        }
    }
    Ok(Parted { beside, others })
}

/// The boxes of a few lines, in their order.
fn boxes_of(lines: &[Line]) -> Boxes
    requires { length lines.now ≤ 32 }
    ensures { result ≡ boxes_of (edges_of lines.now) }
{
    let mut boxes = Boxes::none();
    for line in lines {
        boxes.push(&line.edge.bounds());
    }
    boxes
}

/// Adds the crossings of others with a few lines that lie in the rectangle, where the ends of the others there are found.
fn cross_few<A: Allocator>(
    rect: &Rect,
    lines: &[Line],
    others: &[Line],
    found: &mut Vec<Pt, A>,
) -> Result<(), NoMemory>
    requires few { length lines.now ≤ 32 }
    requires ends { (c : Pt) → IsEndOf (edges_of others.now) c → IsIn rect.now c → Contains found.old.items c }
    ensures { OnOk result (HasBothCrossed rect.now (edges_of others.now) (edges_of lines.now) found.old.items found.new.items) }
{
    let boxes = boxes_of(lines);
    for other in others {
        cross_near(rect, other, lines, &boxes, found)?;
    }
    Ok(())
}

/// The same, however many lines there are.
fn cross_others<A: Allocator>(
    rect: &Rect,
    lines: &[Line],
    others: &[Line],
    found: &mut Vec<Pt, A>,
) -> Result<(), NoMemory>
    requires { (c : Pt) → IsEndOf (edges_of others.now) c → IsIn rect.now c → Contains found.old.items c }
    ensures { OnOk result (HasBothCrossed rect.now (edges_of others.now) (edges_of lines.now) found.old.items found.new.items) }
{
    let mut from = 0;
    while from < lines.len() {
        let past = (from + LANES).min(lines.len());
        cross_few(rect, &lines[from..past], others, found)?;
        from = past;
    }
    Ok(())
}

/// The pixels of a rectangle that are hot for its lines, where of those that make one hot some are always among the others.
fn hot_of_others<A: Allocator>(
    alloc: A,
    rect: &Rect,
    lines: &[Line],
    others: &[Line],
) -> Result<Vec<Pt, A>, NoMemory>
    requires { TakePart rect.now lines.now others.now }
    ensures { IfOk result (λ v. HasHot rect.now (edges_of lines.now) [] v.items) }
{
    let mut found = Vec::new(alloc);
    add_ends(rect, others, &mut found)?;
    cross_others(rect, lines, others, &mut found)?;
    Ok(found)
}

/// The same where nearly all lines run side by side along a course, through which they run.
fn hot_along<A: Allocator + Copy>(
    alloc: A,
    course: Course,
    rect: &Rect,
    lines: &[Line],
) -> Result<Option<Vec<Pt, A>>, NoMemory>
    requires { AreInLimit rect.now.lo rect.now.hi }
    ensures { IfOk result (λ o. IfSome o (λ v. HasHot rect.now (edges_of lines.now) [] v.items)) }
{
    let low = x_of(course, rect.lo);
    let high = x_of(course, rect.hi);
    let Some(mut items) = with_strands(alloc, course, low, high, lines)? else {
        return Ok(None);
    };
    items.sort_unstable();
    if ascend(&items) {
        return Ok(Some(Vec::new(alloc)));
    }
    let Some(places) = taken_out(alloc, &items)? else {
        return Ok(None);
    };
    let parted = part_at(alloc, lines, &places)?;
    if is_bundle(alloc, rect, &parted.beside)? {
        let found = hot_of_others(alloc, rect, lines, &parted.others)?;
        return Ok(Some(found));
    }
    Ok(None)
}

/// Whether a line is steeper than the diagonal.
fn is_steep(line: &Line) -> bool {
    let run = line.edge.p.vector_to(line.edge.q);
    run.dx.abs() < run.dy.abs()
}

/// The course along which all lines of a rectangle but a few run through, if there is one: the one that is closer to the direction of
/// a line in the middle, or else the other.
fn course_of(rect: &Rect, lines: &[Line]) -> Option<Course> {
    let (mut course, mut other) = (Course::Columns, Course::Rows);
    if !lines.is_empty() && is_steep(&lines[lines.len() / 2]) {
        (course, other) = (other, course);
    }
    if most_run_through(course, x_of(course, rect.lo), x_of(course, rect.hi), lines) {
        return Some(course);
    }
    if most_run_through(other, x_of(other, rect.lo), x_of(other, rect.hi), lines) {
        return Some(other);
    }
    None
}

/// The pixels of a rectangle that are hot for its lines, where nearly all run side by side. It may answer None of any lines.
pub fn hot_beside<A: Allocator + Copy>(
    alloc: A,
    rect: &Rect,
    lines: &[Line],
) -> Result<Option<Vec<Pt, A>>, NoMemory>
    requires { AreInLimit rect.now.lo rect.now.hi }
    ensures { IfOk result (λ o. IfSome o (λ v. HasHot rect.now (edges_of lines.now) [] v.items)) }
{
    match course_of(rect, lines) {
        None => Ok(None),
        Some(course) => hot_along(alloc, course, rect, lines),
    }
}
