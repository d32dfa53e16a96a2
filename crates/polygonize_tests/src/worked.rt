//! Results that were worked out by hand.

use crate::again::first_lost;

const TEXTS: [&str; 19] = [
    // the two overlapping squares, intersection
    "MULTIPOLYGON (((2 2, 4 2, 4 4, 2 4, 2 2)))",
    // the two overlapping squares, symmetric difference
    "MULTIPOLYGON (((0 0, 4 0, 4 2, 2 2, 2 4, 0 4, 0 0)), ((2 4, 4 4, 4 2, 6 2, 6 6, 2 6, 2 4)))",
    // a square hole
    "MULTIPOLYGON (((0 0, 9 0, 9 9, 0 9, 0 0), (3 3, 3 6, 6 6, 6 3, 3 3)))",
    // the bow tie
    "MULTIPOLYGON (((0 0, 1 0, 1 1, 0 0)))",
    // a triangle below a corner
    "MULTIPOLYGON (((0 0, 5 0, 10 1, 0 8, 0 0)), ((5 -4, 9 -4, 5 0, 5 -4)))",
    // a triangle below a side
    "MULTIPOLYGON (((5 -4, 9 -4, 5 0, 5 -4)), ((5 0, 10 0, 10 1, 5 0)))",
    // rounded crossings, intersection
    "MULTIPOLYGON (((1 1, 5 1, 1 4, 1 1)))",
    // rounded crossings, union
    "MULTIPOLYGON (((0 0, 6 0, 5 1, 7 1, 7 7, 1 7, 1 4, 0 5, 0 0)))",
    // no edges
    "MULTIPOLYGON EMPTY",
    // a hole that touches its shell
    "MULTIPOLYGON (((0 0, 4 0, 4 4, 0 4, 0 0), (0 0, 1 3, 3 1, 0 0)))",
    // four nested squares
    "MULTIPOLYGON (((0 0, 9 0, 9 9, 0 9, 0 0), (1 1, 1 8, 8 8, 8 1, 1 1)), ((2 2, 7 2, 7 7, 2 7, 2 2), (3 3, 3 6, 6 6, 6 3, 3 3)))",
    // the edge below a hole is another hole's
    "MULTIPOLYGON (((0 0, 9 0, 9 9, 0 9, 0 0), (1 1, 1 3, 4 3, 4 1, 1 1), (3 5, 3 7, 7 7, 7 5, 3 5)))",
    // the overlapping squares times 100
    "MULTIPOLYGON (((200 200, 400 200, 400 400, 200 400, 200 200)))",
    // two triangles
    "MULTIPOLYGON (((0 0, 1 0, 0 1, 0 0)), ((15 15, 16 15, 16 16, 15 15)))",
    // the greatest square
    "MULTIPOLYGON (((-268435456 -268435456, 268435456 -268435456, 268435456 268435456, -268435456 268435456, -268435456 -268435456)))",
    // two holes that touch
    "MULTIPOLYGON (((0 0, 9 0, 9 9, 0 9, 0 0), (2 2, 2 4, 4 4, 4 2, 2 2), (4 4, 4 6, 6 6, 6 4, 4 4)))",
    // a hole that touches a side
    "MULTIPOLYGON (((0 0, 5 0, 9 0, 9 9, 0 9, 0 0), (4 3, 6 3, 5 0, 4 3)))",
    // twelve triangles round a vertex
    "MULTIPOLYGON (((-10 -4, -9 -10, 0 0, -10 -4)), ((-10 -1, 0 0, -10 3, -10 -1)), ((-10 5, 0 0, -10 8, -10 5)), ((-7 10, 0 0, -4 10, -7 10)), ((-5 -10, -2 -10, 0 0, -5 -10)), ((-2 10, 0 0, 1 10, -2 10)), ((0 0, 1 -10, 3 -10, 0 0)), ((0 0, 6 -10, 9 -10, 0 0)), ((0 0, 6 10, 3 10, 0 0)), ((0 0, 10 -5, 10 -2, 0 0)), ((0 0, 10 2, 10 4, 0 0)), ((0 0, 10 6, 10 9, 0 0)))",
    // twelve holes that touch in a vertex
    "MULTIPOLYGON (((-20 -20, 20 -20, 20 20, -20 20, -20 -20), (-10 -4, 0 0, -9 -10, -10 -4), (-10 -1, -10 3, 0 0, -10 -1), (-10 5, -10 8, 0 0, -10 5), (-7 10, -4 10, 0 0, -7 10), (-5 -10, 0 0, -2 -10, -5 -10), (-2 10, 1 10, 0 0, -2 10), (0 0, 3 -10, 1 -10, 0 0), (0 0, 3 10, 6 10, 0 0), (0 0, 9 -10, 6 -10, 0 0), (0 0, 10 -2, 10 -5, 0 0), (0 0, 10 4, 10 2, 0 0), (0 0, 10 9, 10 6, 0 0)))",
];

pub fn texts() -> &'static [&'static str] {
    &TEXTS
}

#[test]
fn worked_examples(rt: HostRuntime) {
    assert_eq!(rt; first_lost(rt.alloc(), texts()), None);
}
