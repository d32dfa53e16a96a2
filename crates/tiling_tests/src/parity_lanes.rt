//! The parity of a point, by lanes and by plain loops.

ghost use Rattle.std.specs.Prelude.{◌*◌, ◌<◌, All, IsTrue, length};
ghost use Rattle.geom.specs.Limit.{AreInLimit, IsWithin, coordinate_limit};

use crate::lengths::LENGTHS;
use crate::rects::pt;
use geom::{COORDINATE_LIMIT, Edge, NoMemory, Pt};
use lane_tests::{Edges, Probe, odd_above};
use std::alloc::Global;
use std::test::Fail;

/// Whether an edge covers the probe's column and lies above it, by fractions of 2^64.
fn is_above(p: Pt, q: Pt, z: Probe) -> bool {
    let x = (i128::from(z.x2) << 63).wrapping_add(i128::from(z.dx));
    let y = (i128::from(z.y2) << 63).wrapping_add(i128::from(z.dy));
    let px = i128::from(p.x) << 64;
    let py = i128::from(p.y) << 64;
    let run = i128::from(q.x).wrapping_sub(i128::from(p.x));
    let rise = i128::from(q.y).wrapping_sub(i128::from(p.y));
    let over = run.wrapping_mul(y.wrapping_sub(py));
    let under = rise.wrapping_mul(x.wrapping_sub(px));
    px <= x && x < i128::from(q.x) << 64 && over < under
}

/// The parity at a probe by a plain loop.
fn plain_parity(edges: &[(Pt, Pt)], z: Probe) -> bool {
    let mut odd = false;
    for (p, q) in edges {
        if is_above(*p, *q, z) {
            odd = !odd;
        }
    }
    odd
}

fn is_small(x: i32) -> bool
    ensures { IsTrue result → IsWithin (2 * coordinate_limit) x }
{
    -2 * COORDINATE_LIMIT <= x && x <= 2 * COORDINATE_LIMIT
}

/// The parity by lanes, where the point is near enough.
fn lanes_parity(edges: &Edges<Global>, z: Probe) -> Option<bool> {
    if is_small(z.x2) && is_small(z.y2) && is_small(z.dx) && is_small(z.dy) {
        Some(odd_above(edges, z))
    } else {
        None
    }
}

/// The edges with these ends.
fn edges_of(alloc: Global, list: &[(Pt, Pt)]) -> Result<Edges<Global>, NoMemory> {
    let mut edges = Edges::new(alloc);
    for (p, q) in list {
        if let Some(edge) = Edge::between(*p, *q) {
            if edge.p.is_in_limit() && edge.q.is_in_limit() {
                edges.push(edge)?;
            }
        }
    }
    Ok(edges)
}

/// Whether the parity at a probe over three edges is this, by lanes and by the plain loop.
fn has_parity(alloc: Global, z: Probe, odd: bool) -> Result<bool, NoMemory> {
    let list = [
        (pt(0, 0), pt(4, 0)),
        (pt(0, 0), pt(4, 4)),
        (pt(4, 0), pt(4, 4)),
    ];
    let edges = edges_of(alloc, list.as_slice())?;
    Ok(lanes_parity(&edges, z) == Some(odd) && plain_parity(list.as_slice(), z) == odd)
}

#[test]
fn parities_of_the_table(rt: HostRuntime) {
    let table = [
        (4, 2, 0, 0, true),
        (8, 2, 0, 0, false),
        (8, 2, -1, 0, true),
        (0, 0, 0, 0, false),
        (0, -2, 0, 0, false),
        (4, 4, -4, 4, false),
        (4, 4, 4, -4, true),
    ];
    for (x2, y2, dx, dy, odd) in table {
        assert!(rt; has_parity(rt.alloc(), Probe { x2, y2, dx, dy }, odd) == Ok(true));
    }
}

/// Whether the parity at a probe is that of the plain loop, over `length` edges that are the same but for one.
fn parity_agrees(
    alloc: Global,
    length: u32,
    place: u32,
    one: (Pt, Pt),
    other: (Pt, Pt),
    z: Probe,
) -> Result<bool, NoMemory> {
    let mut list = Vec::new(alloc);
    for at in 0..length {
        list.push(if at == place { one } else { other })?;
    }
    let edges = edges_of(alloc, &list)?;
    let counted = edges.len() == list.len();
    Ok(counted && lanes_parity(&edges, z) == Some(plain_parity(&list, z)))
}

/// Whether they are at every length and place.
fn lengths_agree(
    alloc: Global,
    one: (Pt, Pt),
    other: (Pt, Pt),
    z: Probe,
) -> Result<bool, NoMemory> {
    for length in LENGTHS {
        for place in 0..length.max(1) {
            if !parity_agrees(alloc, length, place, one, other, z)? {
                return Ok(false);
            }
        }
    }
    Ok(true)
}

#[test]
fn parities_at_every_length(rt: HostRuntime) {
    let limit = COORDINATE_LIMIT;
    let ends = [
        (pt(-limit, -limit), pt(limit, limit)),
        (pt(-limit, limit), pt(limit, -limit)),
        (pt(limit, -limit), pt(limit, limit)),
        (pt(0, limit), pt(limit, limit)),
        (pt(-limit, -limit), pt(0, -limit)),
    ];
    let most = 2 * limit;
    for (x2, y2, dx, dy) in [
        (0, 0, most, -most),
        (0, 0, 0, -1),
        (most, most - 2, -1, 0),
        (-most, -most, 0, -1),
    ] {
        for one in ends {
            for other in ends {
                let agree = lengths_agree(rt.alloc(), one, other, Probe { x2, y2, dx, dy });
                assert!(rt; agree == Ok(true));
            }
        }
    }
}

/// The edges of these numbers, or none where an edge is outside the limit or a number out of range.
fn chosen(alloc: Global, list: &[Edge], numbers: &[u32]) -> Result<Edges<Global>, NoMemory> {
    if all_in_limit(list) && all_in_range(numbers, list) {
        Edges::of(alloc, list, numbers)
    } else {
        Ok(Edges::new(alloc))
    }
}

fn all_in_limit(edges: &[Edge]) -> bool
    ensures { IsTrue result → All (λ e. AreInLimit e.p e.q) edges.now }
{
    edges.iter().all(|e| e.p.is_in_limit() && e.q.is_in_limit())
}

fn all_in_range(numbers: &[u32], edges: &[Edge]) -> bool
    ensures { IsTrue result → All (λ k. k < length edges.now) numbers.now }
{
    let count = edges.len();
    numbers.iter().all(|number| (*number as usize) < count)
}

/// Whether the parity below is this over the edges of these numbers, all of them.
fn has_parity_below(
    alloc: Global,
    list: &[Edge],
    numbers: &[u32],
    odd: bool,
) -> Result<bool, NoMemory> {
    let below = Probe {
        x2: 3,
        y2: -1,
        dx: 0,
        dy: 0,
    };
    let chosen = chosen(alloc, list, numbers)?;
    Ok(chosen.len() == numbers.len() && odd_above(&chosen, below) == odd)
}

#[test]
fn chosen_edges(rt: HostRuntime) -> Result<(), Fail> {
    let mut list = Vec::new(rt.alloc());
    for (px, py, qx, qy) in [(0, 0, 4, 0), (0, 0, 4, 4), (4, 0, 4, 4), (1, 5, 9, 5)] {
        list.push(Edge::between(pt(px, py), pt(qx, qy)).ok_or("equal ends")?)?;
    }
    let table = [
        ([].as_slice(), false),
        ([1].as_slice(), true),
        ([2].as_slice(), false),
        ([3, 1].as_slice(), false),
        ([1, 1].as_slice(), false),
        ([0, 1, 3].as_slice(), true),
        ([3, 3, 2, 3].as_slice(), true),
    ];
    for (numbers, odd) in table {
        assert!(rt; has_parity_below(rt.alloc(), &list, numbers, odd) == Ok(true));
    }
    Ok(())
}
