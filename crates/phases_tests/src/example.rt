//! A worked example: a rectangle with a hole that a bar runs across, in four strips, of which the third has no pixel.

ghost use Rattle.std.specs.Prelude.{◌<◌, All, IfOk};
ghost use Rattle.geom.specs.Limit.{AreInLimit};
ghost use Rattle.strips_law.specs.Strips.{AreOrdered};

use crate::cases::{Expected, Lined, are_edges, point, segments};
use geom::{NoMemory, Source};
use phases::{Bridged, Carried, Line, Open, RoundedStrip, bridge, edges, round, scatter};
use std::alloc::Global;
use std::test::*;

const CUTS: [i32; 3] = [4, 6, 8];

const SEGMENTS: [Lined; 12] = [
    (((0, 0), (12, 0)), Source::A),
    (((12, 0), (12, 6)), Source::A),
    (((12, 6), (0, 6)), Source::A),
    (((0, 6), (0, 0)), Source::A),
    (((1, 2), (8, 1)), Source::A),
    (((8, 1), (8, 4)), Source::A),
    (((8, 4), (1, 3)), Source::A),
    (((1, 3), (1, 2)), Source::A),
    (((3, -2), (5, -2)), Source::B),
    (((5, -2), (5, 8)), Source::B),
    (((5, 8), (3, 8)), Source::B),
    (((3, 8), (3, -2)), Source::B),
];

// The edges inside the first strip.
const INNER: [Expected; 11] = [
    (((0, 0), (0, 6)), 1, 0),
    (((0, 0), (3, 0)), 1, 0),
    (((0, 6), (3, 6)), 1, 0),
    (((1, 2), (1, 3)), 1, 0),
    (((1, 2), (3, 2)), 1, 0),
    (((1, 3), (3, 3)), 1, 0),
    (((3, -2), (3, 0)), 0, 1),
    (((3, 0), (3, 2)), 0, 1),
    (((3, 2), (3, 3)), 0, 1),
    (((3, 3), (3, 6)), 0, 1),
    (((3, 6), (3, 8)), 0, 1),
];

// The lines that cross its right border, with their last pixels in it.
const RIGHT: [(u32, Option<(i32, i32)>); 6] = [
    (0, Some((3, 0))),
    (2, Some((3, 6))),
    (4, Some((3, 2))),
    (6, Some((3, 3))),
    (8, Some((3, -2))),
    (10, Some((3, 8))),
];

// The lines that pass over the third strip.
const PASSING: [(u32, Option<(i32, i32)>); 4] = [(0, None), (2, None), (4, None), (6, None)];

// What is carried over both its borders.
const CARRIED: [(u32, (i32, i32)); 4] = [(0, (12, 0)), (2, (12, 6)), (4, (8, 1)), (6, (8, 4))];

// The edges that begin in the second strip.
const SECOND: [Expected; 9] = [
    (((5, -2), (5, 0)), 0, 1),
    (((5, 0), (5, 1)), 0, 1),
    (((5, 0), (12, 0)), 1, 0),
    (((5, 1), (5, 4)), 0, 1),
    (((5, 1), (8, 1)), 1, 0),
    (((5, 4), (5, 6)), 0, 1),
    (((5, 4), (8, 4)), 1, 0),
    (((5, 6), (5, 8)), 0, 1),
    (((5, 6), (12, 6)), 1, 0),
];

// Those of them that end in later ones, and those that begin in the first strip and do.
const ACROSS_SECOND: [Expected; 4] = [
    (((5, 0), (12, 0)), 1, 0),
    (((5, 1), (8, 1)), 1, 0),
    (((5, 4), (8, 4)), 1, 0),
    (((5, 6), (12, 6)), 1, 0),
];

const ACROSS_FIRST: [Expected; 6] = [
    (((3, -2), (5, -2)), 0, 1),
    (((3, 0), (5, 0)), 1, 0),
    (((3, 2), (5, 1)), 1, 0),
    (((3, 3), (5, 4)), 1, 0),
    (((3, 6), (5, 6)), 1, 0),
    (((3, 8), (5, 8)), 0, 1),
];

fn are_open(list: &[Open], expected: &[(u32, Option<(i32, i32)>)]) -> bool {
    for (open, wanted) in list.iter().zip(expected) {
        let near = wanted.1.map(|at| point(at));
        if open.number != wanted.0 || open.near != near {
            return false;
        }
    }
    list.len() == expected.len()
}

fn are_carried(list: &[Carried], expected: &[(u32, (i32, i32))]) -> bool {
    for (carried, wanted) in list.iter().zip(expected) {
        if carried.number != wanted.0 || carried.pixel != point(wanted.1) {
            return false;
        }
    }
    list.len() == expected.len()
}

// The messages of a strip.
#[derive(Drop)]
struct Messages {
    rounded: RoundedStrip<Global>,
    bridged: Bridged<Global>,
}

// The lines that reach a strip.
fn lines_of(alloc: Global, strip: usize) -> Result<Vec<Line, Global>, NoMemory>
    requires { strip < 4 }
    ensures ordered { IfOk result (λ v. AreOrdered v.items) }
    ensures limits { IfOk result (λ v. All (λ l. AreInLimit l.segment.a l.segment.b) v.items) }
{
    let segments = segments(alloc, &SEGMENTS)?;
    let mut lists = scatter(alloc, &CUTS, 0, &segments)?;
    Ok(lists.swap_remove(strip))
}

// The messages of a strip, where this is carried over its right border.
fn messages_of(alloc: Global, strip: usize, carried: &[Carried]) -> Result<Messages, NoMemory>
    requires { strip < 4 }
{
    let lines = lines_of(alloc, strip)?;
    let rounded = round(alloc, &CUTS, strip, &lines)?;
    let bridged = bridge(alloc, &rounded.left, &rounded.right, carried)?;
    Ok(Messages { rounded, bridged })
}

// The messages of a strip, from those of the strips behind it.
fn strip_messages(alloc: Global, strip: usize) -> Result<Messages, NoMemory>
    requires { strip < 4 }
{
    let mut carried = Vec::new(alloc);
    for behind in (strip + 1..4).rev() {
        let Messages { rounded, bridged } = messages_of(alloc, behind, &carried)?;
        drop(rounded);
        carried = bridged.carried;
    }
    messages_of(alloc, strip, &carried)
}

// Whether the first strip and what is bridged from it are as they should be.
fn is_first_strip(messages: &Messages) -> bool {
    are_edges(&messages.rounded.inner, &INNER)
        && messages.rounded.left.is_empty()
        && are_open(&messages.rounded.right, &RIGHT)
        && are_edges(&messages.bridged.across, &ACROSS_FIRST)
        && messages.bridged.carried.is_empty()
}

// Whether the third strip has no pixel, and what is carried over it goes on.
fn is_third_strip(messages: &Messages) -> bool {
    messages.rounded.inner.is_empty()
        && are_open(&messages.rounded.left, &PASSING)
        && are_open(&messages.rounded.right, &PASSING)
        && messages.bridged.across.is_empty()
        && are_carried(&messages.bridged.carried, &CARRIED)
}

// Whether the edges of the second strip are those that begin in it.
fn is_second_strip(alloc: Global, messages: &Messages) -> Result<bool, NoMemory> {
    let all = edges(alloc, &messages.rounded.inner, &messages.bridged.across)?;
    Ok(are_edges(&messages.bridged.across, &ACROSS_SECOND) && are_edges(&all, &SECOND))
}

#[test]
fn rounds_the_first_strip(rt: HostRuntime) {
    let found = strip_messages(rt.alloc(), 0);
    assert!(rt; found.is_ok_and(|messages| is_first_strip(&messages)));
}

#[test]
fn rounds_the_second_strip(rt: HostRuntime) {
    match strip_messages(rt.alloc(), 1) {
        Ok(found) => assert_eq!(rt; is_second_strip(rt.alloc(), &found), Ok(true)),
        Err(_) => assert!(rt; false),
    }
}

#[test]
fn rounds_the_third_strip(rt: HostRuntime) {
    let found = strip_messages(rt.alloc(), 2);
    assert!(rt; found.is_ok_and(|messages| is_third_strip(&messages)));
}
