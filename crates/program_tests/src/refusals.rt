//! Layers that are refused, as the first and as the second one.

use crate::driving::{ROOMS, Words, gives};
use geom::NoMemory;
use std::alloc::Global;
use std::sync::Wait;
use std::test::Fail;
use std::thread::Threads;

/// The edges of the layer with a segment count past the limit.
const MANY_EDGES: &str = "0 0 0 4 262145 0\n0 0 4 0 262145 0\n0 4 4 4 262145 0\n4 0 4 4 262145 0\n";

/// Of two squares that overlap, as the edges and the faces of one layer.
const PARTED_EDGES: &str =
    "0 0 0 4 1 0\n0 0 4 0 1 0\n0 4 2 4 1 0\n2 2 2 4 1 0\n2 2 4 2 1 0\n2 4 2 6 1 0\n2 4 4 4 1 0\n2 6 6 6 1 0\n4 0 4 2 1 0\n4 2 4 4 1 0\n4 2 6 2 1 0\n6 2 6 6 1 0\n";

const PARTED_FACES: &str =
    "24\t1\tMULTIPOLYGON (((0 0, 4 0, 4 2, 2 2, 2 4, 0 4, 0 0)))\n8\t1,2\tMULTIPOLYGON (((2 2, 4 2, 4 4, 2 4, 2 2)))\n24\t2\tMULTIPOLYGON (((2 4, 4 4, 4 2, 6 2, 6 6, 2 6, 2 4)))\n";

/// A command, a layer that is refused, and the lines where it is the first layer and where it is the second one.
type RefusalRow = (&'static str, &'static str, &'static str, &'static str);

const REFUSED: [RefusalRow; 12] = [
    (
        "edges",
        "decimal",
        "overlay: A: 1 syntax at 16\n",
        "overlay: B: 1 syntax at 16\n",
    ),
    (
        "edges",
        "cut",
        "overlay: A: 1 syntax at 13\n",
        "overlay: B: 1 syntax at 13\n",
    ),
    (
        "edges",
        "joined",
        "overlay: A: 1 syntax at 13\n",
        "overlay: B: 1 syntax at 13\n",
    ),
    (
        "edges",
        "bare",
        "overlay: A: 1 syntax at 9\n",
        "overlay: B: 1 syntax at 9\n",
    ),
    (
        "edges",
        "ends",
        "overlay: A: 1 syntax at 31\n",
        "overlay: B: 1 syntax at 31\n",
    ),
    (
        "union",
        "ends outside",
        "overlay: A: 1 syntax at 32\n",
        "overlay: B: 1 syntax at 32\n",
    ),
    (
        "edges",
        "outside",
        "overlay: A: 2 number out of range at 15\n",
        "overlay: B: 2 number out of range at 15\n",
    ),
    (
        "edges",
        "short",
        "overlay: A: 3 short ring at 9\n",
        "overlay: B: 3 short ring at 9\n",
    ),
    (
        "edges",
        "inner",
        "overlay: A: 3 short ring at 36\n",
        "overlay: B: 3 short ring at 36\n",
    ),
    (
        "edges",
        "open",
        "overlay: A: 4 open ring at 9\n",
        "overlay: B: 4 open ring at 9\n",
    ),
    // A segment count past the limit, and a text of one byte too many.
    (
        "edges",
        "many",
        "overlay: 5 too many segments: 1048580\n",
        "overlay: 5 too many segments: 1048580\n",
    ),
    (
        "edges",
        "long",
        "overlay: A: 0 layer too long\n",
        "overlay: B: 0 layer too long\n",
    ),
];

/// Whether a command is refused with these lines, where the layer is the first one and where it is the second one.
fn is_refused<R: Threads + Wait + Sync>(
    rt: &R,
    alloc: Global,
    row: RefusalRow,
) -> Result<bool, NoMemory> {
    let (command, name, of_first, of_second) = row;
    let mut all = true;
    for (words, line) in [
        ([command, name, "empty"], of_first),
        ([command, "empty", name], of_second),
    ] {
        let given = (3, Words::Text(""), Words::Text(line));
        all &= gives(rt, alloc, words.as_slice(), ROOMS, given)?;
    }
    Ok(all)
}

#[test]
fn refuses_either_layer(rt: HostRuntime) -> Result<(), Fail> {
    for row in REFUSED {
        assert!(rt; is_refused(&rt, rt.alloc(), row)?, "{row:?}");
    }
    Ok(())
}

/// Within a greater limit the layer with too many segments is answered.
#[test]
fn takes_more_segments_within_a_greater_limit(rt: HostRuntime) -> Result<(), Fail> {
    let words = ["edges", "many", "empty", "--segments=1048580"];
    let given = (0, Words::Text(MANY_EDGES), Words::Text(""));
    assert!(rt; gives(&rt, rt.alloc(), words.as_slice(), ROOMS, given)?);
    Ok(())
}

/// Where more segments are asked for, a text of one byte more than usual is answered, whatever is asked of it.
#[test]
fn takes_a_longer_text_within_a_greater_limit(rt: HostRuntime) -> Result<(), Fail> {
    let many = "--segments=1048577";
    let nothing = Words::Text("MULTIPOLYGON EMPTY\n");
    for (words, text) in [
        (["union", "long", "empty", many].as_slice(), nothing),
        (["edges", "empty", "long", many].as_slice(), Words::Text("")),
        (["faces", "empty", "long", many].as_slice(), Words::Text("")),
        (
            ["union", "long", "empty", "--covered", many].as_slice(),
            nothing,
        ),
    ] {
        let given = (0, text, Words::Text(""));
        assert!(rt; gives(&rt, rt.alloc(), words, ROOMS, given)?, "{words:?}");
    }
    Ok(())
}

/// A square, and another one behind as many spaces as the longest text has bytes where no limit is given.
#[test]
fn reads_a_longer_text_to_its_end(rt: HostRuntime) -> Result<(), Fail> {
    let many = "--segments=1100000";
    let refused = Words::Text("overlay: A: 0 layer too long\n");
    for (words, given) in [
        (
            ["edges", "parted", "empty", many].as_slice(),
            (0, Words::Text(PARTED_EDGES), Words::Text("")),
        ),
        (
            ["faces", "parted", many].as_slice(),
            (0, Words::Text(PARTED_FACES), Words::Text("")),
        ),
        (
            ["edges", "parted", "empty"].as_slice(),
            (3, Words::Text(""), refused),
        ),
        (
            ["faces", "parted"].as_slice(),
            (3, Words::Text(""), refused),
        ),
    ] {
        assert!(rt; gives(&rt, rt.alloc(), words, ROOMS, given)?, "{words:?}");
    }
    Ok(())
}
