//! Texts of edges that are tested, as the program answers: values written down by hand.

ghost use Rattle.std.specs.Prelude.{◌<◌};

use engine::MemSink;
use geom::NoMemory;
use program::{Files, LoadFault, drive};
use std::alloc::{Allocator, Global};
use std::sync::Wait;
use std::test::Fail;
use std::thread::Threads;

/// Eight of the edges that `overlay edges` prints of two squares, in another order.
const SQUARES: &str =
    "2 4 4 4 1 0\n0 0 0 4 1 0\n0 0 4 0 1 0\n0 4 2 4 1 0\n2 2 2 4 0 1\n2 2 4 2 0 1\n4 0 4 2 1 0\n4 2 4 4 1 0\n";

/// One file, whose name is `edges` and whose text is this.
#[derive(Drop)]
struct OneFile<'a> {
    text: &'a str,
}

impl Files for OneFile<'_> {
    fn load<A: Allocator>(
        &mut self,
        alloc: A,
        longest: u32,
        name: &str,
    ) -> Result<Vec<u8, A>, LoadFault> {
        if name != "edges" {
            return Err(LoadFault::Unreadable);
        }
        match Vec::from_slice(alloc, self.text.as_bytes()) {
            Ok(mut bytes) => {
                bytes.truncate(longest as usize + 1);
                Ok(bytes)
            }
            Err(_) => Err(LoadFault::Memory),
        }
    }
}

/// A text, the exit status of the test, and what is printed to standard output and to standard error.
type Row = (&'static str, u8, &'static str, &'static str);

const NODED: &str = "noded\n";

const ROWS: [Row; 22] = [
    ("", 0, NODED, ""),
    (SQUARES, 0, NODED, ""),
    // Two that have an end in common, two far apart, and two on one line that follow each other or don't.
    ("0 0 4 4\n4 4 8 0\n", 0, NODED, ""),
    ("0 0 4 0\n100000 100000 100004 100000\n", 0, NODED, ""),
    ("0 0 4 0\n4 0 8 0\n", 0, NODED, ""),
    ("0 0 4 0\n5 0 8 0\n", 0, NODED, ""),
    // An edge and the same one again, and from its other end.
    ("0 0 4 0\n0 0 4 0 7 7\n4 0 0 0\n", 0, NODED, ""),
    (
        "-268435456 -268435456 268435456 268435456\n-268435456 268435456 -268435455 268435456\n",
        0,
        NODED,
        "",
    ),
    (
        "0 4 4 0\n0 0 4 4\n",
        3,
        "",
        "overlay: 9 edges cross: 0 0 4 4, 0 4 4 0\n",
    ),
    // The end of one inside the other: at (2, 0).
    (
        "0 0 4 0\n2 3 2 0\n",
        3,
        "",
        "overlay: 9 edges cross: 0 0 4 0, 2 0 2 3\n",
    ),
    (
        "2 0 6 0\n0 0 4 0\n",
        3,
        "",
        "overlay: 9 edges cross: 0 0 4 0, 2 0 6 0\n",
    ),
    // One begins where the other does, and goes on behind its end.
    (
        "0 0 8 0\n0 0 4 0\n",
        3,
        "",
        "overlay: 9 edges cross: 0 0 4 0, 0 0 8 0\n",
    ),
    // At the greatest coordinates, in the middle at (0, 0).
    (
        "-268435456 -268435456 268435456 268435456\n-268435456 268435456 268435456 -268435456\n",
        3,
        "",
        "overlay: 9 edges cross: -268435456 -268435456 268435456 268435456, -268435456 268435456 268435456 -268435456\n",
    ),
    // Four bad pairs, of which that of the least first edge and then the least second one is told.
    (
        "40 0 44 4\n40 4 44 0\n0 40 40 0\n0 20 40 20\n0 0 40 40\n",
        3,
        "",
        "overlay: 9 edges cross: 0 0 40 40, 0 20 40 20\n",
    ),
    (
        "0 0 4 0\n0 0 4\n",
        3,
        "",
        "overlay: EDGES: 1 syntax in line 2\n",
    ),
    ("0 0 1.5 0\n", 3, "", "overlay: EDGES: 1 syntax in line 1\n"),
    (
        "0 0 4 0\n\n0 0 268435457 0\n",
        3,
        "",
        "overlay: EDGES: 2 number out of range in line 3\n",
    ),
    (
        "3 3 3 3\n",
        3,
        "",
        "overlay: EDGES: 20 edge of one point in line 1\n",
    ),
    // A bad line goes before edges that cross.
    (
        "0 4 4 0\n0 0 4 4\nx\n",
        3,
        "",
        "overlay: EDGES: 1 syntax in line 3\n",
    ),
    ("\n\n", 0, NODED, ""),
    ("0 0 0 4\r\n\t0   4 4 4\r\n", 0, NODED, ""),
    ("1 1 2 2", 0, NODED, ""),
];

/// Words behind `noded`, the exit status, and what is printed to standard error over a file of one edge; standard output is empty but
/// where the status is 0.
type Line = (&'static [&'static str], u8, &'static str);

const LINES: [Line; 6] = [
    (&["edges"], 0, ""),
    (&["edges", "--workers", "64"], 0, ""),
    (&["--workers=1", "edges"], 0, ""),
    (&["none"], 1, "overlay: EDGES: cannot read\n"),
    (
        &["edges", "--workers=0"],
        3,
        "overlay: 7 bad number of workers\n",
    ),
    (
        &["edges", "--workers", "65"],
        3,
        "overlay: 7 bad number of workers\n",
    ),
];

/// Lines that the parser refuses.
const REFUSED: [&[&str]; 4] = [
    &[],
    &["edges", "more"],
    &["edges", "--tile=16"],
    &["edges", "--workers=x"],
];

/// The exit status of a command line behind the word `noded` over a file with this text, with what is printed to standard output and
/// to standard error.
fn answer<R: Threads + Wait + Sync>(
    rt: &R,
    alloc: Global,
    rest: &[&str],
    text: &str,
    out: &mut MemSink<Global>,
    err: &mut MemSink<Global>,
) -> Result<u8, NoMemory>
    requires out { out.old.failures < u64.MAX }
    requires err { err.old.failures < u64.MAX }
{
    let mut words = Vec::new(alloc);
    words.push("overlay")?;
    words.push("noded")?;
    words.extend_from_slice(rest)?;
    Ok(drive(rt, alloc, &words, &mut OneFile { text }, out, err))
}

/// Whether a command line is answered so.
fn gives<R: Threads + Wait + Sync>(
    rt: &R,
    alloc: Global,
    rest: &[&str],
    row: Row,
) -> Result<bool, NoMemory> {
    let mut out = MemSink::new(alloc, 100)?;
    let mut err = MemSink::new(alloc, 1000)?;
    let status = answer(rt, alloc, rest, row.0, &mut out, &mut err)?;
    Ok(status == row.1 && out.bytes() == row.2.as_bytes() && err.bytes() == row.3.as_bytes())
}

/// Whether the parser refuses a command line, with no output.
fn is_refused<R: Threads + Wait + Sync>(
    rt: &R,
    alloc: Global,
    rest: &[&str],
) -> Result<bool, NoMemory> {
    let mut out = MemSink::new(alloc, 100)?;
    let mut err = MemSink::new(alloc, 4000)?;
    let status = answer(rt, alloc, rest, SQUARES, &mut out, &mut err)?;
    Ok(status == 2 && out.bytes().is_empty() && err.bytes().starts_with(b"error: "))
}

#[test]
fn tests_edges(rt: HostRuntime) -> Result<(), Fail> {
    for row in ROWS {
        assert!(rt; gives(&rt, rt.alloc(), &["edges"], row)?, "{}", row.0);
    }
    Ok(())
}

#[test]
fn answers_lines_of_noded(rt: HostRuntime) -> Result<(), Fail> {
    for (rest, status, told) in LINES {
        let shown = if status == 0 { NODED } else { "" };
        let row = ("0 0 4 0\n", status, shown, told);
        assert!(rt; gives(&rt, rt.alloc(), rest, row)?, "{rest:?}");
    }
    Ok(())
}

#[test]
fn refuses_lines_of_noded(rt: HostRuntime) -> Result<(), Fail> {
    for rest in REFUSED {
        assert!(rt; is_refused(&rt, rt.alloc(), rest)?, "{rest:?}");
    }
    Ok(())
}
