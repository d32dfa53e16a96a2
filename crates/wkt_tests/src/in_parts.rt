//! Texts read in parts: what stands behind ten triangles, of a line each, is told whatever the number of parts.

use geom::{Fault, Pt, Rect};
use refusing::Refusing;
use std::alloc::{AllocError, Global};
use std::thread::Threads;
use wkt::{LENGTH_LIMIT, Outline, read_outlined_in_parts};

const TRIANGLE: &[u8; 31] = b"POLYGON ((0 0, 1 0, 0 1, 0 0))\n";

const TRIANGLES: usize = 10;

const PARTS: [usize; 6] = [0, 1, 2, 3, 4, 64];

/// The triangles, and what stands behind them.
fn text_with(alloc: Global, behind: &str) -> Result<Vec<u8>, AllocError> {
    let mut text = Vec::new(alloc);
    for _ in 0..TRIANGLES {
        text.extend_from_slice(TRIANGLE)?;
    }
    text.extend_from_slice(behind.as_bytes())?;
    Ok(text)
}

/// Whether the text is a layer of so many rings, with so many segments from the origin to a point.
fn is_read<R: Threads + Sync>(
    rt: &R,
    alloc: Global,
    parts: usize,
    row: (&str, usize, u32, i32),
) -> bool {
    let (behind, rings, segments, reach) = row;
    let Ok(text) = text_with(alloc, behind) else {
        return false;
    };
    let bounds = Some(Rect::spanned_by(Pt { x: 0, y: 0 }, Pt { x: reach, y: reach }));
    let read = read_outlined_in_parts(rt, alloc, LENGTH_LIMIT, parts, &text);
    let found = read.map(|read| (read.outline, read.layer.map(|layer| layer.rings().len())));
    found == Ok((Outline { segments, bounds }, Some(rings)))
}

/// Whether the text is refused so.
fn is_refused<R: Threads + Sync>(rt: &R, alloc: Global, parts: usize, row: (&str, Fault)) -> bool {
    let (behind, fault) = row;
    let Ok(text) = text_with(alloc, behind) else {
        return false;
    };
    read_outlined_in_parts(rt, alloc, LENGTH_LIMIT, parts, &text).err() == Some(fault)
}

/// More requests for memory than to read the triangles takes.
const REQUESTS: u64 = 100;

/// Whether the rings are kept whichever request for memory is refused: where the parts want memory, the whole is read once more.
fn keeps_rings<R: Threads + Sync>(rt: &R, alloc: Global, parts: usize) -> bool {
    let Ok(text) = text_with(alloc, "") else {
        return false;
    };
    for number in 0..REQUESTS {
        let heap = Refusing::new(alloc, number);
        match read_outlined_in_parts(rt, &heap, LENGTH_LIMIT, parts, &text) {
            Ok(read) if read.layer.is_some() => {}
            _ => return false,
        }
    }
    true
}

/// What stands behind, and how many rings and segments there are, which reach so far.
const ACCEPTED: [(&str, usize, u32, i32); 5] = [
    ("", 10, 30, 1),
    ("POLYGON ((5 5, 9 5, 9 9, 5 9, 5 5))", 11, 34, 9),
    ("polygon\n((5 5,\n9 5, 9 9,\n5 9, 5 5))\n", 11, 34, 9),
    (" \n\nMultiPolygon empty", 10, 30, 1),
    (
        "MULTIPOLYGON (((0 0, 7 0, 7 7, 0 0)),\n((0 0, 8 0, 8 8, 0 0)))",
        12,
        36,
        8,
    ),
];

/// What stands behind, and why the text is refused.
const REFUSED: [(&str, Fault); 5] = [
    ("POLYGON ((0 0, 1 0", Fault::Syntax(328)),
    ("POINT (1 1)", Fault::Syntax(312)),
    (
        "POLYGON ((0 0, 268435457 0, 0 1, 0 0))",
        Fault::NumberRange(325),
    ),
    ("POLYGON ((0 0, 1 0, 5 5))", Fault::RingShort(319)),
    (
        "POLYGON ((0 0, 1 0, 0 1, 5 5))\nPOLYGON ((0 0, 1 0, 0 1, 5 5))",
        Fault::RingOpen(319),
    ),
];

#[test]
fn accepted_in_parts(rt: HostRuntime) {
    for row in ACCEPTED {
        for parts in PARTS {
            assert!(rt; is_read(&rt, rt.alloc(), parts, row), "{parts}");
        }
    }
}

#[test]
fn refused_in_parts(rt: HostRuntime) {
    for row in REFUSED {
        for parts in PARTS {
            assert!(rt; is_refused(&rt, rt.alloc(), parts, row), "{parts}");
        }
    }
}

#[test]
fn parts_are_read_before_the_whole(rt: HostRuntime) {
    for parts in PARTS {
        assert!(rt;
            keeps_rings(&rt, rt.alloc(), parts) == (parts > 1),
            "{parts}"
        );
    }
}
