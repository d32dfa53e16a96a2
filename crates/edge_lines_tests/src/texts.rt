//! Texts of edges, against values written down by hand.

use edge_lines::{LineFault, ReadFault, read_edges};
use geom::Edge;
use std::alloc::Global;

/// The lesser end of an edge and the greater one.
type Ends = (i32, i32, i32, i32);

const READ: [(&str, &[Ends]); 12] = [
    ("", &[]),
    ("\n\n", &[]),
    (" \t\r\n", &[]),
    ("0 0 4 0\n", &[(0, 0, 4, 0)]),
    // Without a line feed at the end, and with the counts that `overlay edges` prints.
    ("0 0 0 4 1 0\n0 0 4 0 1 2", &[(0, 0, 0, 4), (0, 0, 4, 0)]),
    // The order of lines stays, and an edge may be written from either end and again.
    (
        "5 5 1 1\n0 3 0 0\n1 1 5 5\n",
        &[(1, 1, 5, 5), (0, 0, 0, 3), (1, 1, 5, 5)],
    ),
    ("  7\t-2   -7 2 \r\n", &[(-7, 2, 7, -2)]),
    ("+1 -0 007 00\n", &[(1, 0, 7, 0)]),
    // What follows the fourth word is passed over, whatever it is.
    ("1 2 3 4 x 5.5\n", &[(1, 2, 3, 4)]),
    (
        "-268435456 268435456 268435456 -268435456",
        &[(-268435456, 268435456, 268435456, -268435456)],
    ),
    ("\n1 2 3 4\n\n\n3 4 1 3\n", &[(1, 2, 3, 4), (1, 3, 3, 4)]),
    (
        "0000000000000000000000000000000000000001 0 2 0",
        &[(1, 0, 2, 0)],
    ),
];

const REFUSED: [(&str, usize, LineFault); 16] = [
    ("0 0 4", 1, LineFault::Syntax),
    ("0 0 4 0\n0\n", 2, LineFault::Syntax),
    ("0 0 4.5 0\n", 1, LineFault::Syntax),
    ("0 0 4 0, 1\n", 1, LineFault::Syntax),
    ("0 0 - 0\n", 1, LineFault::Syntax),
    ("0 0 -+1 0\n", 1, LineFault::Syntax),
    ("0 0 1e3 0\n", 1, LineFault::Syntax),
    ("x1 y1 x2 y2\n0 0 4 0\n", 1, LineFault::Syntax),
    ("0 0 268435457 0\n", 1, LineFault::Range),
    ("0 0 0 4\n\n0 -268435457 0 0\n", 3, LineFault::Range),
    // Its ten digits would not fit 32 bits, and its twenty not 64.
    ("0 0 4294967297 1\n", 1, LineFault::Range),
    ("0 0 1 18446744073709551617\n", 1, LineFault::Range),
    // The first word that is no coordinate says why, and the first line.
    ("268435457 x 0 0\n", 1, LineFault::Range),
    ("x 268435457 0 0\n", 1, LineFault::Syntax),
    ("3 3 3 3\n0 0 4\n", 1, LineFault::OnePoint),
    ("-0 7 0 +7 1 0\n", 1, LineFault::OnePoint),
];

/// Whether these edges have these ends.
fn have_ends(edges: &[Edge], ends: &[Ends]) -> bool {
    for (edge, ends) in edges.iter().zip(ends) {
        if (edge.p.x, edge.p.y, edge.q.x, edge.q.y) != *ends {
            return false;
        }
    }
    edges.len() == ends.len()
}

/// Whether a text is read as edges with these ends.
fn is_read(alloc: Global, text: &str, ends: &[Ends]) -> bool {
    match read_edges(alloc, text.as_bytes()) {
        Ok(edges) => have_ends(&edges, ends),
        Err(_) => false,
    }
}

/// Why a text is refused, where it is.
fn refusal(alloc: Global, text: &str) -> Option<ReadFault> {
    read_edges(alloc, text.as_bytes()).err()
}

#[test]
fn reads_edges(rt: HostRuntime) {
    for (text, ends) in READ {
        assert!(rt; is_read(rt.alloc(), text, ends), "{text:?}");
    }
}

#[test]
fn refuses_the_first_bad_line(rt: HostRuntime) {
    for (text, line, why) in REFUSED {
        let refused = Some(ReadFault::Line(line, why));
        assert_eq!(rt; refusal(rt.alloc(), text), refused, "{text:?}");
    }
}
