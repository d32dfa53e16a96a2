//! Command lines with `--areas`, on layers whose areas are worked out by hand.

use crate::driving::{Case, ROOMS, Words, gives};
use engine_tests::texts::{EMPTY, SQUARES_COMMON, SQUARES_REPORT, WHOLE_UNION};
use std::test::Fail;

/// Two squares of 4 by 4 that have a square of 2 by 2 in common: what lies in either, in the first alone, and in just one of them.
const UNITED: &str = "MULTIPOLYGON (((0 0, 4 0, 4 2, 6 2, 6 6, 2 6, 2 4, 0 4, 0 0)))\n";

const FIRST_ALONE: &str = "MULTIPOLYGON (((0 0, 4 0, 4 2, 2 2, 2 4, 0 4, 0 0)))\n";

const WITHOUT_COMMON: &str =
    "MULTIPOLYGON (((0 0, 4 0, 4 2, 2 2, 2 4, 0 4, 0 0)), ((2 4, 4 4, 4 2, 6 2, 6 6, 2 6, 2 4)))\n";

const FIRST: &str = "MULTIPOLYGON (((0 0, 4 0, 4 4, 0 4, 0 0)))\n";

/// On one tile, and then the areas of the common square.
const REPORTED: &str =
    "segments 4 4\nhot 10\nrecords 20\nedges 12\ntiles 1\nremade 0\ntile 0 10 20\narea2 32 32 8\nsteps 6 6\n";

/// A side of the triangle is bent to the corner below it.
const BENT: &str = "MULTIPOLYGON (((0 0, 5 0, 10 1, 0 8, 0 0)))\n";

/// Of both triangles of a bow tie one is left.
const LEFT: &str = "MULTIPOLYGON (((0 0, 1 0, 1 1, 0 0)))\n";

/// What is said where no areas are told.
const NO_AREAS: Words = Words::Text(
    "overlay: --areas goes with union, intersection, difference and symdifference, without --covered\n",
);

const NO_OPERATION: Words = Words::Text(
    "overlay: --covered goes with union, intersection, difference and symdifference\n",
);

const UNKNOWN: Words = Words::Text("overlay: unknown command\n");

const NOTHING: Words = Words::Text("");

const TOLD: [Case; 15] = [
    (
        &["union", "square", "other", "--areas"],
        0,
        UNITED,
        Words::Text("area2 32 32 56\nsteps 6 6\n"),
    ),
    (
        &["intersection", "square", "other", "--areas"],
        0,
        SQUARES_COMMON,
        Words::Text("area2 32 32 8\nsteps 6 6\n"),
    ),
    (
        &["difference", "square", "other", "--areas"],
        0,
        FIRST_ALONE,
        Words::Text("area2 32 32 24\nsteps 6 6\n"),
    ),
    (
        &["symdifference", "square", "other", "--areas"],
        0,
        WITHOUT_COMMON,
        Words::Text("area2 32 32 48\nsteps 6 6\n"),
    ),
    (&["union", "square", "other"], 0, UNITED, NOTHING),
    // The areas come behind the report, in whatever order they are asked for.
    (
        &["intersection", "square", "other", "--areas", "--report"],
        0,
        SQUARES_COMMON,
        Words::Text(REPORTED),
    ),
    (
        &["--report", "--areas", "intersection", "square", "other"],
        0,
        SQUARES_COMMON,
        Words::Text(REPORTED),
    ),
    // Overlaps cancel in a layer's area too.
    (
        &["union", "overlap", "nothing", "--areas"],
        0,
        WITHOUT_COMMON,
        Words::Text("area2 48 0 48\nsteps 12 0\n"),
    ),
    // Neither tiles nor workers have an influence.
    (
        &[
            "union",
            "nothing",
            "overlap",
            "--areas",
            "--tile=16",
            "--workers=1",
        ],
        0,
        WITHOUT_COMMON,
        Words::Text("area2 0 48 48\nsteps 0 12\n"),
    ),
    // Each layer has its own steps where an edge is both layers'.
    (
        &["intersection", "square", "square", "--areas"],
        0,
        FIRST,
        Words::Text("area2 32 32 32\nsteps 4 4\n"),
    ),
    (
        &["union", "nothing", "empty", "--areas"],
        0,
        EMPTY,
        Words::Text("area2 0 0 0\nsteps 0 0\n"),
    ),
    (
        &["intersection", "square", "below", "--areas"],
        0,
        EMPTY,
        Words::Text("area2 32 16 0\nsteps 4 3\n"),
    ),
    // Areas are those after rounding: before, the first triangle has 80.
    (
        &["difference", "wedge", "below", "--areas"],
        0,
        BENT,
        Words::Text("area2 85 16 85\nsteps 4 3\n"),
    ),
    // A side that is bent has two steps, one of which is another side's too.
    (
        &["union", "bow tie", "nothing", "--areas"],
        0,
        LEFT,
        Words::Text("area2 1 0 1\nsteps 5 0\n"),
    ),
    (
        &["union", "whole", "empty", "--areas"],
        0,
        WHOLE_UNION,
        Words::Text("area2 576460752303423488 0 576460752303423488\nsteps 4 0\n"),
    ),
];

const REFUSED: [Case; 15] = [
    (&["edges", "square", "other", "--areas"], 2, "", NO_AREAS),
    // No file is read before, and no plan is looked at.
    (
        &["edges", "none", "none", "--areas", "--tile=15"],
        2,
        "",
        NO_AREAS,
    ),
    (
        &["union", "square", "other", "--areas", "--covered"],
        2,
        "",
        NO_AREAS,
    ),
    (
        &["union", "none", "none", "--covered", "--areas", "--report"],
        2,
        "",
        NO_AREAS,
    ),
    (
        &["edges", "square", "other", "--areas", "--covered"],
        2,
        "",
        NO_OPERATION,
    ),
    (&["foo", "square", "other", "--areas"], 2, "", UNKNOWN),
    (&["--areas", "faces", "square", "other"], 2, "", UNKNOWN),
    (
        &["faces", "square", "--areas"],
        2,
        "",
        Words::Begins("error: unexpected argument '--areas' found\n"),
    ),
    (
        &["union", "square", "other", "--areas=1"],
        2,
        "",
        Words::Begins("error: unexpected value '1' for '--areas' found; no more were expected\n"),
    ),
    // Refusals are told in the words of the other runs.
    (
        &["union", "none", "other", "--areas"],
        1,
        "",
        Words::Text("overlay: A: cannot read\n"),
    ),
    (
        &["union", "cut", "square", "--areas", "--report"],
        3,
        "",
        Words::Text("overlay: A: 1 syntax at 13\n"),
    ),
    (
        &["union", "square", "open", "--areas"],
        3,
        "",
        Words::Text("overlay: B: 4 open ring at 9\n"),
    ),
    (
        &["union", "cut", "open", "--areas", "--tile=15"],
        3,
        "",
        Words::Text("overlay: 6 bad tile side\n"),
    ),
    (
        &["union", "square", "other", "--areas", "--segments=7"],
        3,
        "",
        Words::Text("overlay: 5 too many segments: 8\n"),
    ),
    // A side that is given stays as it is.
    (
        &["union", "whole", "empty", "--areas", "--tile=262144"],
        3,
        "",
        Words::Text("overlay: 8 too many tiles: 4198401\n"),
    ),
];

#[test]
fn tells_areas(rt: HostRuntime) -> Result<(), Fail> {
    for (words, status, out, err) in TOLD {
        let given = (status, Words::Text(out), err);
        assert!(rt; gives(&rt, rt.alloc(), words, ROOMS, given)?, "{words:?}");
    }
    Ok(())
}

#[test]
fn refuses_without_areas(rt: HostRuntime) -> Result<(), Fail> {
    for (words, status, out, err) in REFUSED {
        let given = (status, Words::Text(out), err);
        assert!(rt; gives(&rt, rt.alloc(), words, ROOMS, given)?, "{words:?}");
    }
    Ok(())
}

/// Rooms of the sinks of the text and of the areas, of which one is too small, and what is printed to both.
const SMALL: [((usize, usize), Words, Words); 4] = [
    (
        (5, 4000),
        Words::Text("MULTI"),
        Words::Text("overlay: 11 write failed\n"),
    ),
    ((4000, 0), Words::Text(SQUARES_COMMON), NOTHING),
    ((4000, 5), Words::Text(SQUARES_COMMON), Words::Text("area2")),
    (
        (4000, 23),
        Words::Text(SQUARES_COMMON),
        Words::Text("area2 32 32 8\nsteps 6 6"),
    ),
];

#[test]
fn tells_of_sinks_that_fail(rt: HostRuntime) -> Result<(), Fail> {
    let words = ["intersection", "square", "other", "--areas"];
    for (rooms, out, err) in SMALL {
        assert!(rt;
            gives(&rt, rt.alloc(), words.as_slice(), rooms, (1, out, err))?,
            "{rooms:?}"
        );
    }
    Ok(())
}

/// A sink with room for the report alone.
#[test]
fn tells_of_areas_that_find_no_room(rt: HostRuntime) -> Result<(), Fail> {
    let words = ["intersection", "square", "other", "--areas", "--report"];
    let rooms = (4000, SQUARES_REPORT.len());
    let given = (1, Words::Text(SQUARES_COMMON), Words::Text(SQUARES_REPORT));
    assert!(rt; gives(&rt, rt.alloc(), words.as_slice(), rooms, given)?);
    Ok(())
}
