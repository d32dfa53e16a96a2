//! A point of each kind through the result: in neither layer, in one of them, in both, against the table of the operations.

use crate::overlaid::overlaid;
use crate::texts::{OTHER, SQUARE};
use engine::{MemSink, Plan};
use geom::{Layer, NoMemory, Op, Pt};
use std::alloc::Global;
use std::sync::Wait;
use std::test::Fail;
use std::thread::Threads;
use tile_book::OpenGate;
use wkt::read_layer;

/// Points by the lower left corners of the unit squares that they are the middles of: in neither of the two squares, in the
/// first, in the second, in both.
const POINTS: [Pt; 4] = [
    Pt { x: 5, y: 1 },
    Pt { x: 1, y: 1 },
    Pt { x: 5, y: 5 },
    Pt { x: 2, y: 3 },
];

/// Which of them an operation has.
const TABLE: [(Op, [bool; 4]); 4] = [
    (Op::Union, [false, true, true, true]),
    (Op::Intersection, [false, false, false, true]),
    (Op::Difference, [false, true, false, false]),
    (Op::SymDifference, [false, true, true, false]),
];

/// Whether the segment between two points covers the middle of a unit square from above.
fn is_above(a: Pt, b: Pt, corner: Pt) -> bool {
    let (p, q) = if a.x <= b.x { (a, b) } else { (b, a) };
    let doubled = |c: i32| i64::from(c).wrapping_mul(2);
    let middle = (
        doubled(corner.x).wrapping_add(1),
        doubled(corner.y).wrapping_add(1),
    );
    let right = doubled(q.x).wrapping_sub(doubled(p.x));
    let up = doubled(q.y).wrapping_sub(doubled(p.y));
    let from_p = (
        middle.0.wrapping_sub(doubled(p.x)),
        middle.1.wrapping_sub(doubled(p.y)),
    );
    p.x <= corner.x && corner.x < q.x && right.wrapping_mul(from_p.1) < up.wrapping_mul(from_p.0)
}

/// Whether an odd number of a ring's segments lies above the middle of a unit square.
fn is_odd(ring: &[Pt], corner: Pt) -> bool {
    let Some(last) = ring.last() else {
        return false;
    };
    let mut before = *last;
    let mut odd = false;
    for point in ring {
        odd ^= is_above(before, *point, corner);
        before = *point;
    }
    odd
}

/// Whether a layer has the middle of a unit square, by the parity of its rings.
fn is_inside(layer: &Layer<Global>, corner: Pt) -> bool {
    let mut odd = false;
    for ring in layer.rings() {
        odd ^= is_odd(ring.points(), corner);
    }
    odd
}

/// The result of an operation on the two squares, read again.
fn result<R: Threads + Wait + Sync>(
    rt: &R,
    alloc: Global,
    op: Op,
) -> Result<Layer<Global>, NoMemory> {
    let plan = Plan {
        side: 16,
        workers: 2,
    };
    let mut sink = MemSink::new(alloc, 400)?;
    let answer = overlaid(
        rt,
        alloc,
        Some(op),
        (SQUARE, OTHER),
        plan,
        &OpenGate,
        &mut sink,
    );
    if answer.is_err() {
        return Err(NoMemory);
    }
    read_layer(alloc, sink.bytes()).map_err(|_| NoMemory)
}

#[test]
fn has_points_of_each_kind(rt: HostRuntime) -> Result<(), Fail> {
    for (op, wanted) in TABLE {
        let layer = result(&rt, rt.alloc(), op)?;
        for (point, inside) in POINTS.iter().zip(wanted) {
            assert_eq!(rt; is_inside(&layer, *point), inside, "{op:?} {point:?}");
        }
    }
    Ok(())
}
