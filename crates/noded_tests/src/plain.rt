//! The labels by a plain loop over all edges, as they are defined.

use geom::{Counted, DirectedEdge, Edge, NoMemory, Op, Pt};
use std::alloc::Allocator;

/// Whether an edge covers the column of a point and lies above it. The point's coordinates are given 2^64 times.
fn is_above(edge: Edge, x: i128, y: i128) -> bool {
    let left = i128::from(edge.p.x) << 64;
    let right = i128::from(edge.q.x) << 64;
    let low = i128::from(edge.p.y) << 64;
    let run = i128::from(edge.q.x).wrapping_sub(i128::from(edge.p.x));
    let rise = i128::from(edge.q.y).wrapping_sub(i128::from(edge.p.y));
    let over = run.wrapping_mul(y.wrapping_sub(low));
    let under = rise.wrapping_mul(x.wrapping_sub(left));
    left <= x && x < right && over < under
}

/// Whether each layer has an odd number of its edges of odd count above a point.
fn parities(counted: &[Counted], x: i128, y: i128) -> (bool, bool) {
    let mut a = false;
    let mut b = false;
    for one in counted {
        let above = is_above(one.edge, x, y);
        a = a != (above & (one.in_a % 2 == 1));
        b = b != (above & (one.in_b % 2 == 1));
    }
    (a, b)
}

/// 2^64 times the middle of two coordinates, moved by a difference.
fn beside(first: i32, second: i32, by: i64) -> i128 {
    let sum = i128::from(first).wrapping_add(i128::from(second));
    (sum << 63).wrapping_add(i128::from(by))
}

/// Whether the result of an operation lies on the left of an edge directed so: beside its middle, by its vector turned to the
/// left and divided by 2^64.
fn lies_left(counted: &[Counted], from: Pt, to: Pt, op: Op) -> bool {
    let run = i64::from(to.x).wrapping_sub(i64::from(from.x));
    let rise = i64::from(to.y).wrapping_sub(i64::from(from.y));
    let x = beside(from.x, to.x, rise.wrapping_neg());
    let y = beside(from.y, to.y, run);
    let (a, b) = parities(counted, x, y);
    op.holds(a, b)
}

/// The directed edges with the result on their left and not on their right, ascending.
pub fn plain_labels<A: Allocator>(
    alloc: A,
    counted: &[Counted],
    op: Op,
) -> Result<Vec<DirectedEdge, A>, NoMemory> {
    let mut ways = Vec::new(alloc);
    for one in counted {
        let (p, q) = (one.edge.p, one.edge.q);
        let left = lies_left(counted, p, q, op);
        if left != lies_left(counted, q, p, op) {
            ways.push(if left {
                DirectedEdge { from: p, to: q }
            } else {
                DirectedEdge { from: q, to: p }
            })?;
        }
    }
    ways.sort_unstable();
    Ok(ways)
}
