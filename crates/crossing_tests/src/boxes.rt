//! Tests of boxes that share a point.

use crate::moving::{Ends, Point, moved, moves, segment};
use crossing::may_meet;

/// Two segments, and whether their boxes share a point.
const BOXES: [(Ends, bool); 6] = [
    ([(0, 0), (4, 4), (4, 4), (8, 0)], true),
    ([(0, 4), (4, 0), (5, 5), (4, 4)], true),
    ([(0, 0), (4, 4), (5, 0), (8, 4)], false),
    ([(0, 0), (4, 4), (0, 5), (4, 9)], false),
    ([(0, 0), (9, 9), (8, 1), (9, 0)], true),
    ([(9, 9), (0, 0), (3, 3), (3, 4)], true),
];

/// Whether the boxes of two moved segments share a point, if the answer is the same for the segments exchanged.
fn meeting(ends: Ends, by: Point) -> Option<bool> {
    let [a, b, c, d] = ends.map(|at| moved(at, by));
    let (s, t) = (segment(a, b)?, segment(c, d)?);
    let meet = may_meet(&s, &t);
    if may_meet(&t, &s) == meet {
        Some(meet)
    } else {
        None
    }
}

#[test]
fn meeting_boxes(rt: HostRuntime) {
    for (ends, meet) in BOXES {
        for by in moves(ends) {
            assert_eq!(rt; meeting(ends, by), Some(meet));
        }
    }
}
