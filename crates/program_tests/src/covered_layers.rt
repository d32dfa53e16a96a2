//! Command lines with `--covered`, on a layer of two squares that overlap.

use crate::driving::{Case, ROOMS, Words, gives};
use engine_tests::texts::{EMPTY, WHOLE_UNION};
use std::test::Fail;

/// Both squares, worked out by hand: as they are united, and where just one of them is.
const UNITED: &str = "MULTIPOLYGON (((0 0, 4 0, 4 2, 6 2, 6 6, 2 6, 2 4, 0 4, 0 0)))\n";

const WITHOUT_COMMON: &str =
    "MULTIPOLYGON (((0 0, 4 0, 4 2, 2 2, 2 4, 0 4, 0 0)), ((2 4, 4 4, 4 2, 6 2, 6 6, 2 6, 2 4)))\n";

/// The first square without the second one, and the first one, on whose sides the second one's end.
const FIRST_ALONE: &str = "MULTIPOLYGON (((0 0, 4 0, 4 2, 2 2, 2 4, 0 4, 0 0)))\n";

const FIRST: &str = "MULTIPOLYGON (((0 0, 4 0, 4 2, 4 4, 2 4, 0 4, 0 0)))\n";

/// On one tile.
const REPORT: &str =
    "segments 8 0\nhot 10\nrecords 20\nedges 12\ntiles 1\nremade 0\ntile 0 10 20\n";

/// What is said where no operation is asked for.
const NO_OPERATION: Words = Words::Text(
    "overlay: --covered goes with union, intersection, difference and symdifference\n",
);

const UNKNOWN: Words = Words::Text("overlay: unknown command\n");

const NOTHING: Words = Words::Text("");

const CASES: [Case; 23] = [
    (
        &["union", "overlap", "nothing", "--covered"],
        0,
        UNITED,
        NOTHING,
    ),
    (&["union", "overlap", "nothing"], 0, WITHOUT_COMMON, NOTHING),
    (
        &["union", "--covered", "nothing", "overlap"],
        0,
        UNITED,
        NOTHING,
    ),
    (
        &["difference", "overlap", "other", "--covered"],
        0,
        FIRST_ALONE,
        NOTHING,
    ),
    (
        &["intersection", "overlap", "square", "--covered"],
        0,
        FIRST,
        NOTHING,
    ),
    (
        &["symdifference", "overlap", "overlap", "--covered"],
        0,
        EMPTY,
        NOTHING,
    ),
    (
        &[
            "union",
            "overlap",
            "nothing",
            "--covered",
            "--tile=16",
            "--workers=2",
            "--report",
        ],
        0,
        UNITED,
        Words::Text(REPORT),
    ),
    (
        &["edges", "overlap", "nothing", "--covered"],
        2,
        "",
        NO_OPERATION,
    ),
    // No file is read before, and no plan is looked at.
    (
        &["edges", "none", "none", "--covered", "--tile=15"],
        2,
        "",
        NO_OPERATION,
    ),
    (&["foo", "overlap", "nothing", "--covered"], 2, "", UNKNOWN),
    (
        &["--covered", "faces", "overlap", "nothing"],
        2,
        "",
        UNKNOWN,
    ),
    (
        &["faces", "overlap", "--covered"],
        2,
        "",
        Words::Begins("error: unexpected argument '--covered' found\n"),
    ),
    (
        &["union", "overlap", "nothing", "--covered=1"],
        2,
        "",
        Words::Begins("error: unexpected value '1' for '--covered' found; no more were expected\n"),
    ),
    // Refusals are told in the words of the other runs.
    (
        &["union", "none", "other", "--covered"],
        1,
        "",
        Words::Text("overlay: A: cannot read\n"),
    ),
    (
        &["union", "overlap", "none", "--covered"],
        1,
        "",
        Words::Text("overlay: B: cannot read\n"),
    ),
    (
        &["union", "cut", "overlap", "--covered"],
        3,
        "",
        Words::Text("overlay: A: 1 syntax at 13\n"),
    ),
    (
        &["union", "overlap", "open", "--covered"],
        3,
        "",
        Words::Text("overlay: B: 4 open ring at 9\n"),
    ),
    (
        &["union", "cut", "open", "--covered", "--tile=15"],
        3,
        "",
        Words::Text("overlay: 6 bad tile side\n"),
    ),
    (
        &["union", "cut", "open", "--covered", "--workers=0"],
        3,
        "",
        Words::Text("overlay: 7 bad number of workers\n"),
    ),
    (
        &["union", "overlap", "other", "--covered", "--segments=12"],
        0,
        UNITED,
        NOTHING,
    ),
    (
        &["union", "overlap", "other", "--covered", "--segments=11"],
        3,
        "",
        Words::Text("overlay: 5 too many segments: 12\n"),
    ),
    // A side that is given stays as it is; where none is, one that fits is taken.
    (
        &["union", "whole", "empty", "--covered", "--tile=262144"],
        3,
        "",
        Words::Text("overlay: 8 too many tiles: 4198401\n"),
    ),
    (
        &["union", "whole", "empty", "--covered"],
        0,
        WHOLE_UNION,
        NOTHING,
    ),
];

#[test]
fn reads_layers_as_covered(rt: HostRuntime) -> Result<(), Fail> {
    for (words, status, out, err) in CASES {
        let given = (status, Words::Text(out), err);
        assert!(rt; gives(&rt, rt.alloc(), words, ROOMS, given)?, "{words:?}");
    }
    Ok(())
}

/// Rooms of the sinks of the text and of the report, of which one is too small, and what is printed to both.
const SMALL: [((usize, usize), Words, Words); 2] = [
    (
        (5, 4000),
        Words::Text("MULTI"),
        Words::Text("overlay: 11 write failed\n"),
    ),
    ((4000, 0), Words::Text(UNITED), NOTHING),
];

#[test]
fn tells_of_sinks_that_fail(rt: HostRuntime) -> Result<(), Fail> {
    let words = ["union", "overlap", "nothing", "--covered", "--report"];
    for (rooms, out, err) in SMALL {
        assert!(rt;
            gives(&rt, rt.alloc(), words.as_slice(), rooms, (1, out, err))?,
            "{rooms:?}"
        );
    }
    Ok(())
}
