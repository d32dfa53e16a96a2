//! What is printed to sinks of all sizes.

use crate::driving::{ROOMS, Words, gives};
use engine_tests::texts::{SQUARES_COMMON, SQUARES_EDGES};
use std::test::Fail;

/// A command line behind the program's name, the room of both sinks, the exit status, and what they have then.
type Small = (&'static [&'static str], (usize, usize), u8, Words, Words);

/// What help prints.
const HELP: &str =
    "Overlays two polygon layers on the integer grid, exactly and with proved rounding.

Usage: overlay [OPTIONS] <command> <A> <B>

Arguments:
  <command>  What to compute: union, intersection, difference, symdifference, edges, faces or noded
  <A>        The first layer's file: POLYGON and MULTIPOLYGON texts
  <B>        The second layer's file

Options:
      --tile <N>      The side of a tile, in grid units, 16 to 33554432 [default: 262144, or what fits]
      --workers <N>   The number of threads at work, 1 to 64 [default: 4]
      --segments <N>  The most segments of both layers together, 1 to 4294967295 [default: 1048576]
      --report        Prints the numbers of the run to standard error
      --covered       For an operation: a point lies in a layer where one of its features at least covers it
      --areas         For an operation: prints twice each area, and the steps of the routes, to standard error
  -h, --help          Print help

union, intersection, difference and symdifference print the result of that operation on the two
layers as one MULTIPOLYGON text.
edges prints a line `x1 y1 x2 y2 countA countB` for each edge of both layers after rounding.
faces, which stands before all other words, takes 1 to 64 layers, and prints a line for each set of
their features (polygon texts, numbered from 1) that covers some points together: twice the area, the
numbers of each layer's features, and the points as one MULTIPOLYGON text, with tabs between.
noded, which stands before all other words too, takes one file of lines `x1 y1 x2 y2`, as edges prints
them or another tool, and --workers N. It prints `noded` where no two different edges share a point but
a common end, and else refuses the least pair that does.

A layer is a text of POLYGON and MULTIPOLYGON geometries, at most 268435456 bytes long, with whole
coordinates from -268435456 to 268435456, in grid units. All layers together have at most 1048576
segments, or as many as --segments says, and each text then 256 bytes for each of them where that is
more, up to 4294967295; a million segments of parcels take some 110 MB. A layer is read by parity: a
point lies in it where an odd number of its rings have the point inside, so polygons of one layer that
overlap cancel each other there; faces reads each feature so, and features never cancel each other.
/dev/stdin reads a layer from standard input.

With --covered an operation reads each feature so too, and a point lies in a layer where one of its
features at least covers it, so that features of one layer that overlap don't cancel each other.

With --areas an operation without --covered prints two lines to standard error, behind those of
--report: `area2` with twice the areas of A, of B and of the result after rounding, in squares of the
grid, and `steps` with the sums of all countA and of all countB that edges prints.

The tiles and the number of threads have no influence on the text. Where no side of a tile is given
it is 262144, or where that gives more than 65536 tiles the least power of two that doesn't.

Exit status: 0 answered, 1 a file, the output or memory failed, 2 command line not accepted,
3 input refused.

Example: overlay intersection parcels.wkt zones.wkt > common.wkt

Version 2.0.0
";

/// What help prints of faces.
const FACES_HELP: &str =
    "Overlays two polygon layers on the integer grid, exactly and with proved rounding.

Usage: overlay [OPTIONS] <command> <LAYER>...

Arguments:
  <command>   What to compute: union, intersection, difference, symdifference, edges, faces or noded
  <LAYER>...  The layers' files, 64 at most: POLYGON and MULTIPOLYGON texts

Options:
      --tile <N>      The side of a tile, in grid units, 16 to 33554432 [default: 262144, or what fits]
      --workers <N>   The number of threads at work, 1 to 64 [default: 4]
      --segments <N>  The most segments of all layers together, 1 to 4294967295 [default: 1048576]
      --report        Prints the numbers of the run to standard error
  -h, --help          Print help

union, intersection, difference and symdifference print the result of that operation on the two
layers as one MULTIPOLYGON text.
edges prints a line `x1 y1 x2 y2 countA countB` for each edge of both layers after rounding.
faces, which stands before all other words, takes 1 to 64 layers, and prints a line for each set of
their features (polygon texts, numbered from 1) that covers some points together: twice the area, the
numbers of each layer's features, and the points as one MULTIPOLYGON text, with tabs between.
noded, which stands before all other words too, takes one file of lines `x1 y1 x2 y2`, as edges prints
them or another tool, and --workers N. It prints `noded` where no two different edges share a point but
a common end, and else refuses the least pair that does.

A layer is a text of POLYGON and MULTIPOLYGON geometries, at most 268435456 bytes long, with whole
coordinates from -268435456 to 268435456, in grid units. All layers together have at most 1048576
segments, or as many as --segments says, and each text then 256 bytes for each of them where that is
more, up to 4294967295; a million segments of parcels take some 110 MB. A layer is read by parity: a
point lies in it where an odd number of its rings have the point inside, so polygons of one layer that
overlap cancel each other there; faces reads each feature so, and features never cancel each other.
/dev/stdin reads a layer from standard input.

With --covered an operation reads each feature so too, and a point lies in a layer where one of its
features at least covers it, so that features of one layer that overlap don't cancel each other.

With --areas an operation without --covered prints two lines to standard error, behind those of
--report: `area2` with twice the areas of A, of B and of the result after rounding, in squares of the
grid, and `steps` with the sums of all countA and of all countB that edges prints.

The tiles and the number of threads have no influence on the text. Where no side of a tile is given
it is 262144, or where that gives more than 65536 tiles the least power of two that doesn't.

Exit status: 0 answered, 1 a file, the output or memory failed, 2 command line not accepted,
3 input refused.

Example: overlay intersection parcels.wkt zones.wkt > common.wkt

Version 2.0.0
";

const FAILED: Words = Words::Text("overlay: 11 write failed\n");

const NOTHING: Words = Words::Text("");

const SMALL: [Small; 13] = [
    (&["--help"], ROOMS, 0, Words::Text(HELP), NOTHING),
    (
        &["faces", "--help"],
        ROOMS,
        0,
        Words::Text(FACES_HELP),
        NOTHING,
    ),
    (
        &["faces", "--help"],
        (10, 4000),
        1,
        Words::Text("Overlays t"),
        NOTHING,
    ),
    (&["faces", "square", "other"], (0, 4000), 1, NOTHING, FAILED),
    (
        &["faces", "square", "other", "--report"],
        (5, 4000),
        1,
        Words::Text("24\t1\t"),
        FAILED,
    ),
    (
        &["faces", "square", "--report"],
        (4000, 0),
        1,
        Words::Text("32\t1\tMULTIPOLYGON (((0 0, 4 0, 4 4, 0 4, 0 0)))\n"),
        NOTHING,
    ),
    (
        &["--help"],
        (10, 4000),
        1,
        Words::Text("Overlays t"),
        NOTHING,
    ),
    (&["edges", "square", "other"], (0, 4000), 1, NOTHING, FAILED),
    (
        &["intersection", "square", "other"],
        (0, 4000),
        1,
        NOTHING,
        FAILED,
    ),
    (
        &["edges", "square", "other", "--report"],
        (0, 4000),
        1,
        NOTHING,
        FAILED,
    ),
    (
        &["edges", "square", "other", "--report"],
        (4000, 0),
        1,
        Words::Text(SQUARES_EDGES),
        NOTHING,
    ),
    (
        &["intersection", "square", "other", "--report"],
        (4000, 0),
        1,
        Words::Text(SQUARES_COMMON),
        NOTHING,
    ),
    (
        &["edges", "decimal", "other"],
        (4000, 0),
        3,
        NOTHING,
        NOTHING,
    ),
];

#[test]
fn prints_to_small_sinks(rt: HostRuntime) -> Result<(), Fail> {
    for (words, rooms, status, out, err) in SMALL {
        let given = (status, out, err);
        assert!(rt;
            gives(&rt, rt.alloc(), words, rooms, given)?,
            "{words:?}, {rooms:?}"
        );
    }
    Ok(())
}
