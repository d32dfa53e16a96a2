//! Command lines, with the exit status and what is printed.

use crate::driving::{Case, ROOMS, Words, gives};
use engine_tests::texts::{SQUARES_COMMON, SQUARES_EDGES, SQUARES_REPORT, WHOLE_EDGES};
use geom::NoMemory;
use std::alloc::Global;
use std::sync::Wait;
use std::test::Fail;
use std::thread::Threads;

/// The rows of the two squares.
const SQUARES_FACES: &str =
    "24\t1\t\tMULTIPOLYGON (((0 0, 4 0, 4 2, 2 2, 2 4, 0 4, 0 0)))\n8\t1\t1\tMULTIPOLYGON (((2 2, 4 2, 4 4, 2 4, 2 2)))\n24\t\t1\tMULTIPOLYGON (((2 4, 4 4, 4 2, 6 2, 6 6, 2 6, 2 4)))\n";

/// On one tile.
const SQUARES_FACES_REPORT: &str =
    "segments 4 4\nfeatures 1 1\nhot 10\nrecords 20\nedges 12\nrows 3\nids 4\ntiles 1\nremade 0\ntile 0 10 20\n";

/// The one row of the first square, alone and beside two layers that have none.
const SQUARE_ALONE: &str = "32\t1\tMULTIPOLYGON (((0 0, 4 0, 4 4, 0 4, 0 0)))\n";

const SQUARE_OF_THREE: &str = "32\t\t1\t\tMULTIPOLYGON (((0 0, 4 0, 4 4, 0 4, 0 0)))\n";

const WHOLE_FACE: &str =
    "576460752303423488\t1\tMULTIPOLYGON (((-268435456 -268435456, 268435456 -268435456, 268435456 268435456, -268435456 268435456, -268435456 -268435456)))\n";

const CASES: [Case; 38] = [
    (
        &["intersection", "square", "other", "--tile=16", "--report"],
        0,
        SQUARES_COMMON,
        Words::Text(SQUARES_REPORT),
    ),
    (
        &["union", "none", "other"],
        1,
        "",
        Words::Text("overlay: A: cannot read\n"),
    ),
    (
        &["edges", "square", "other"],
        0,
        SQUARES_EDGES,
        Words::Text(""),
    ),
    (
        &["edges", "square", "other", "--tile=16", "--report"],
        0,
        SQUARES_EDGES,
        Words::Text(SQUARES_REPORT),
    ),
    (
        &["edges", "nothing", "empty", "--report"],
        0,
        "",
        Words::Text("segments 0 0\nhot 0\nrecords 0\nedges 0\ntiles 0\nremade 0\n"),
    ),
    (
        &["edges", "none", "other"],
        1,
        "",
        Words::Text("overlay: A: cannot read\n"),
    ),
    // Both files are read before a layer or the plan is looked at.
    (
        &["edges", "decimal", "none", "--tile", "15"],
        1,
        "",
        Words::Text("overlay: B: cannot read\n"),
    ),
    (
        &["foo", "square", "other"],
        2,
        "",
        Words::Text("overlay: unknown command\n"),
    ),
    (
        &["Edges", "none", "other"],
        2,
        "",
        Words::Text("overlay: unknown command\n"),
    ),
    (
        &["", "square", "other"],
        2,
        "",
        Words::Text("overlay: unknown command\n"),
    ),
    (
        &["symDifference", "square", "other"],
        2,
        "",
        Words::Text("overlay: unknown command\n"),
    ),
    // The command line goes before the command word.
    (
        &["foo", "square", "other", "--tile", "x"],
        2,
        "",
        Words::Begins("error: invalid value 'x' for '--tile <N>': invalid digit found in string\n"),
    ),
    (
        &["foo", "square"],
        2,
        "",
        Words::Begins("error: the following required arguments were not provided:\n  <B>\n"),
    ),
    (
        &[],
        2,
        "",
        Words::Begins(
            "error: the following required arguments were not provided:\n  <command>\n  <A>\n  <B>\n",
        ),
    ),
    (
        &["edges", "square", "other", "more"],
        2,
        "",
        Words::Begins("error: unexpected argument 'more' found\n"),
    ),
    (
        &["edges", "square", "other", "--side", "16"],
        2,
        "",
        Words::Begins("error: unexpected argument '--side' found\n"),
    ),
    (
        &["edges", "square", "other", "--tile=-1"],
        2,
        "",
        Words::Begins("error: invalid value '-1' for '--tile <N>': -1 is not in 0..=4294967295\n"),
    ),
    (
        &["edges", "square", "other", "--tile", "1.5"],
        2,
        "",
        Words::Begins(
            "error: invalid value '1.5' for '--tile <N>': invalid digit found in string\n",
        ),
    ),
    (
        &["edges", "square", "other", "--tile="],
        2,
        "",
        Words::Begins(
            "error: invalid value '' for '--tile <N>': cannot parse integer from empty string\n",
        ),
    ),
    (
        &["edges", "square", "other", "--tile=4294967296"],
        2,
        "",
        Words::Begins(
            "error: invalid value '4294967296' for '--tile <N>': 4294967296 is not in 0..=4294967295\n",
        ),
    ),
    (
        &["edges", "square", "other", "--workers=-1"],
        2,
        "",
        Words::Begins(
            "error: invalid value '-1' for '--workers <N>': -1 is not in 0..=4294967295\n",
        ),
    ),
    (
        &["edges", "square", "other", "--workers="],
        2,
        "",
        Words::Begins(
            "error: invalid value '' for '--workers <N>': cannot parse integer from empty string\n",
        ),
    ),
    (
        &["edges", "square", "other", "--workers=4294967296"],
        2,
        "",
        Words::Begins(
            "error: invalid value '4294967296' for '--workers <N>': 4294967296 is not in 0..=4294967295\n",
        ),
    ),
    (
        &[
            "edges",
            "decimal",
            "other",
            "--tile",
            "15",
            "--workers",
            "0",
        ],
        3,
        "",
        Words::Text("overlay: 6 bad tile side\n"),
    ),
    (
        &[
            "edges",
            "decimal",
            "other",
            "--tile",
            "16",
            "--workers",
            "0",
        ],
        3,
        "",
        Words::Text("overlay: 7 bad number of workers\n"),
    ),
    (
        &["edges", "square", "other", "--tile=33554433"],
        3,
        "",
        Words::Text("overlay: 6 bad tile side\n"),
    ),
    // A side that is given stays as it is; where none is, one that fits is taken.
    (
        &["edges", "whole", "empty", "--tile=262144"],
        3,
        "",
        Words::Text("overlay: 8 too many tiles: 4198401\n"),
    ),
    (
        &["edges", "whole", "empty"],
        0,
        WHOLE_EDGES,
        Words::Text(""),
    ),
    // As many segments as the limit that is given, and one more; a limit is a number from 1.
    (
        &["edges", "square", "other", "--segments", "8"],
        0,
        SQUARES_EDGES,
        Words::Text(""),
    ),
    (
        &["intersection", "square", "other", "--segments=8"],
        0,
        SQUARES_COMMON,
        Words::Text(""),
    ),
    (
        &["edges", "square", "other", "--segments=4294967295"],
        0,
        SQUARES_EDGES,
        Words::Text(""),
    ),
    (
        &["edges", "square", "other", "--segments=7"],
        3,
        "",
        Words::Text("overlay: 5 too many segments: 8\n"),
    ),
    (
        &["union", "square", "other", "--segments", "1"],
        3,
        "",
        Words::Text("overlay: 5 too many segments: 8\n"),
    ),
    // The limit is looked at behind the plan and both layers.
    (
        &["union", "square", "cut", "--segments", "1"],
        3,
        "",
        Words::Text("overlay: B: 1 syntax at 13\n"),
    ),
    (
        &["edges", "square", "other", "--segments=0"],
        2,
        "",
        Words::Begins(
            "error: invalid value '0' for '--segments <N>': 0 is not in 1..=4294967295\n",
        ),
    ),
    (
        &["edges", "square", "other", "--segments="],
        2,
        "",
        Words::Begins(
            "error: invalid value '' for '--segments <N>': cannot parse integer from empty string\n",
        ),
    ),
    (
        &["edges", "square", "other", "--segments=x"],
        2,
        "",
        Words::Begins(
            "error: invalid value 'x' for '--segments <N>': invalid digit found in string\n",
        ),
    ),
    (
        &["edges", "square", "other", "--segments=4294967296"],
        2,
        "",
        Words::Begins(
            "error: invalid value '4294967296' for '--segments <N>': 4294967296 is not in 1..=4294967295\n",
        ),
    ),
];

/// Command lines of `faces`.
const FACES: [Case; 29] = [
    (
        &["faces", "square", "other"],
        0,
        SQUARES_FACES,
        Words::Text(""),
    ),
    (
        &[
            "faces",
            "square",
            "other",
            "--tile=16",
            "--workers=2",
            "--report",
        ],
        0,
        SQUARES_FACES,
        Words::Text(SQUARES_FACES_REPORT),
    ),
    // Options may stand between the layers.
    (
        &["faces", "square", "--tile", "16", "other", "--segments=8"],
        0,
        SQUARES_FACES,
        Words::Text(""),
    ),
    (&["faces", "square"], 0, SQUARE_ALONE, Words::Text("")),
    (
        &["faces", "nothing", "square", "empty"],
        0,
        SQUARE_OF_THREE,
        Words::Text(""),
    ),
    (&["faces", "nothing"], 0, "", Words::Text("")),
    // A side that is given stays as it is; where none is, one that fits is taken.
    (&["faces", "whole"], 0, WHOLE_FACE, Words::Text("")),
    (
        &["faces", "whole", "--tile=262144"],
        3,
        "",
        Words::Text("overlay: 8 too many tiles: 4198401\n"),
    ),
    // All files are read before a layer or the plan is looked at.
    (
        &["faces", "none"],
        1,
        "",
        Words::Text("overlay: A: cannot read\n"),
    ),
    (
        &["faces", "decimal", "square", "none", "--tile=15"],
        1,
        "",
        Words::Text("overlay: C: cannot read\n"),
    ),
    (
        &["faces", "decimal", "other", "--tile=15", "--workers=0"],
        3,
        "",
        Words::Text("overlay: 6 bad tile side\n"),
    ),
    (
        &["faces", "decimal", "other", "--workers=0"],
        3,
        "",
        Words::Text("overlay: 7 bad number of workers\n"),
    ),
    (
        &["faces", "square", "cut", "--segments=1"],
        3,
        "",
        Words::Text("overlay: B: 1 syntax at 13\n"),
    ),
    (
        &["faces", "square", "nothing", "open"],
        3,
        "",
        Words::Text("overlay: C: 4 open ring at 9\n"),
    ),
    (
        &["faces", "square", "other", "--segments=7"],
        3,
        "",
        Words::Text("overlay: 5 too many segments: 8\n"),
    ),
    (
        &["faces", "square", "other", "square", "--segments=11"],
        3,
        "",
        Words::Text("overlay: 5 too many segments: 12\n"),
    ),
    // Many layers by their letters, to the 25th one.
    (
        &[
            "faces", "empty", "empty", "empty", "empty", "empty", "empty", "empty", "empty",
            "empty", "empty", "empty", "empty", "empty", "empty", "empty", "empty", "empty",
            "empty", "empty", "empty", "empty", "empty", "empty", "empty", "none",
        ],
        1,
        "",
        Words::Text("overlay: Y: cannot read\n"),
    ),
    (
        &["faces"],
        2,
        "",
        Words::Begins("error: the following required arguments were not provided:\n  <LAYER>...\n"),
    ),
    (
        &["faces", "--report"],
        2,
        "",
        Words::Begins("error: the following required arguments were not provided:\n  <LAYER>...\n"),
    ),
    (
        &["faces", "square", "--side", "16"],
        2,
        "",
        Words::Begins("error: unexpected argument '--side' found\n"),
    ),
    (
        &["faces", "square", "--tile=x"],
        2,
        "",
        Words::Begins("error: invalid value 'x' for '--tile <N>': invalid digit found in string\n"),
    ),
    (
        &["faces", "square", "--workers="],
        2,
        "",
        Words::Begins(
            "error: invalid value '' for '--workers <N>': cannot parse integer from empty string\n",
        ),
    ),
    (
        &["faces", "square", "--segments=0"],
        2,
        "",
        Words::Begins(
            "error: invalid value '0' for '--segments <N>': 0 is not in 1..=4294967295\n",
        ),
    ),
    (
        &["faces", "square", "--segments=4294967296"],
        2,
        "",
        Words::Begins(
            "error: invalid value '4294967296' for '--segments <N>': 4294967296 is not in 1..=4294967295\n",
        ),
    ),
    // The word stands before all others, and is written so.
    (
        &["Faces", "square", "other"],
        2,
        "",
        Words::Text("overlay: unknown command\n"),
    ),
    (
        &["face", "square", "other"],
        2,
        "",
        Words::Text("overlay: unknown command\n"),
    ),
    (
        &["--tile=16", "faces", "square", "other"],
        2,
        "",
        Words::Text("overlay: unknown command\n"),
    ),
    (
        &["faces", "square", "square", "faces"],
        1,
        "",
        Words::Text("overlay: C: cannot read\n"),
    ),
    (
        &["union", "faces", "square"],
        1,
        "",
        Words::Text("overlay: A: cannot read\n"),
    ),
];

/// A command line of `faces` over so many files, with an option behind so many of them where it isn't the last one.
fn over_many<'a>(
    alloc: Global,
    name: &'a str,
    count: u32,
    option_at: u32,
) -> Result<Vec<&'a str>, NoMemory> {
    let mut words = Vec::new(alloc);
    words.push("faces")?;
    for number in 0..count {
        if number == option_at {
            words.push("--tile=16")?;
        }
        words.push(name)?;
    }
    Ok(words)
}

/// The name of a file, how many times it stands, behind how many of these an option does, the exit status and the line.
type Many = (&'static str, u32, u32, u8, Words);

const MANY: [Many; 7] = [
    ("empty", 64, 100, 0, Words::Text("")),
    ("empty", 64, 32, 0, Words::Text("")),
    ("none", 64, 100, 1, Words::Text("overlay: A: cannot read\n")),
    (
        "empty",
        65,
        64,
        2,
        Words::Text("overlay: more than 64 layers\n"),
    ),
    (
        "none",
        65,
        1,
        2,
        Words::Text("overlay: more than 64 layers\n"),
    ),
    (
        "empty",
        100,
        50,
        2,
        Words::Text("overlay: more than 64 layers\n"),
    ),
    (
        "empty",
        65,
        100,
        2,
        Words::Begins(
            "error: unexpected value 'empty' for '<LAYER>...' found; no more were expected\n",
        ),
    ),
];

/// Whether a command line over many files is answered so, with no output.
fn is_answered_over_many<R: Threads + Wait + Sync>(
    rt: &R,
    alloc: Global,
    many: Many,
) -> Result<bool, NoMemory> {
    let (name, count, option_at, status, err) = many;
    let words = over_many(alloc, name, count, option_at)?;
    gives(rt, alloc, &words, ROOMS, (status, Words::Text(""), err))
}

#[test]
fn answers_lines_of_many_layers(rt: HostRuntime) -> Result<(), Fail> {
    for many in MANY {
        assert!(rt;
            is_answered_over_many(&rt, rt.alloc(), many)?,
            "{} {} {}",
            many.0,
            many.1,
            many.2
        );
    }
    Ok(())
}

#[test]
fn answers_command_lines_of_faces(rt: HostRuntime) -> Result<(), Fail> {
    for (words, status, out, err) in FACES {
        let given = (status, Words::Text(out), err);
        assert!(rt; gives(&rt, rt.alloc(), words, ROOMS, given)?, "{words:?}");
    }
    Ok(())
}

#[test]
fn answers_command_lines(rt: HostRuntime) -> Result<(), Fail> {
    for (words, status, out, err) in CASES {
        let given = (status, Words::Text(out), err);
        assert!(rt; gives(&rt, rt.alloc(), words, ROOMS, given)?, "{words:?}");
    }
    Ok(())
}
