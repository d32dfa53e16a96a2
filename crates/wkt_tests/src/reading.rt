//! Tables of texts that are read, with their answers from outside.

use geom::{Fault, Layer, Pt, Rect};
use std::alloc::{AllocError, Global};
use wkt::{
    LENGTH_LIMIT, Outline, check_layer, check_layer_within, read_layer, read_layer_within,
    read_outlined,
};

/// The x and y of the lower left corner and of the upper right one.
type Corners = (i32, i32, i32, i32);

/// The outline of so many segments, with the corners of its bounds.
fn outline_of(segments: u32, corners: Option<Corners>) -> Outline {
    let bounds = match corners {
        Some((x0, y0, x1, y1)) => Some(Rect::spanned_by(Pt { x: x0, y: y0 }, Pt { x: x1, y: y1 })),
        None => None,
    };
    Outline { segments, bounds }
}

/// Whether a text is a layer of so many rings, with this outline.
fn is_read(alloc: Global, text: &str, rings: usize, outline: Outline) -> bool {
    let read = read_layer(alloc, text.as_bytes());
    let found = read.map(|layer| layer.rings().len());
    let outlined = read_outlined(alloc, LENGTH_LIMIT, text.as_bytes());
    let both = outlined.map(|read| (read.outline, read.layer.map(|layer| layer.rings().len())));
    found == Ok(rings)
        && both == Ok((outline, Some(rings)))
        && check_layer(text.as_bytes()) == Ok(outline)
}

/// Whether a text is refused so, where it is checked and where it is read.
fn is_refused(alloc: Global, text: &str, fault: Fault) -> bool {
    let read = read_layer(alloc, text.as_bytes()).err();
    let outlined = read_outlined(alloc, LENGTH_LIMIT, text.as_bytes()).err();
    read == Some(fault) && outlined == Some(fault) && check_layer(text.as_bytes()) == Err(fault)
}

/// A layer, its rings and segments, and the corners of its bounds.
type Accepted = (&'static str, usize, u32, Option<Corners>);

const ACCEPTED: &[Accepted] = &[
    ("", 0, 0, None),
    (" \t\r\n", 0, 0, None),
    ("POLYGON EMPTY", 0, 0, None),
    ("MultiPolygon empty", 0, 0, None),
    ("POLYGON EMPTY\npolygon\tempty ", 0, 0, None),
    ("POLYGON((0 0,4 0,4 4,0 4,0 0))", 1, 4, Some((0, 0, 4, 4))),
    (
        "POLYGON ((007 -0, 8 0, 8 1, 7 0))",
        1,
        3,
        Some((7, 0, 8, 1)),
    ),
    ("POLYGON ((5 5, 5 5, 5 5, 5 5))", 1, 0, None),
    (
        "POLYGON ((0 0, 16777217 0, 0 1, 0 0))",
        1,
        3,
        Some((0, 0, 16_777_217, 1)),
    ),
    (
        "POLYGON ((-268435456 0, 268435456 0, 0 268435456, -268435456 0))",
        1,
        3,
        Some((-268_435_456, 0, 268_435_456, 268_435_456)),
    ),
    (
        "POLYGON ((0 0, 4 0, 4 0, 0 4, 0 0))",
        1,
        3,
        Some((0, 0, 4, 4)),
    ),
    (
        "MULTIPOLYGON (((0 0, 1 0, 0 1, 0 0)), ((2 2, 3 2, 2 3, 2 2)))",
        2,
        6,
        Some((0, 0, 3, 3)),
    ),
];

#[test]
fn accepted(rt: HostRuntime) {
    for &(text, rings, segments, corners) in ACCEPTED {
        let outline = outline_of(segments, corners);
        assert!(rt; is_read(rt.alloc(), text, rings, outline), "{text}");
    }
}

/// A text that is not of the grammar, and the place where that is told.
const BAD_SYNTAX: &[(&str, usize)] = &[
    ("POLYGOM EMPTY", 6),
    ("POLYGONEMPTY", 7),
    ("POLYGON ()", 9),
    ("POLYGON (())", 10),
    ("POLYGON ((0 0, 4 0, 4 4, 0 4, 0 0)", 34),
    ("POLYGON ((+1 0, 1 1, 0 1, 1 0))", 10),
    ("POLYGON ((- 1 0, 1 1, 0 1, 1 0))", 11),
    ("MULTIPOLYGON (EMPTY)", 14),
    ("POLYGON Z ((0 0 0))", 8),
    ("POINT (1 1)", 2),
    ("POLYGON ((0 0, 1.5 0, 0 1, 0 0))", 16),
    ("POLYGON EMPTYPOLYGON EMPTY", 13),
    ("POLYGON (0 0, 1 0, 0 1, 0 0)", 9),
    ("POLYGON ((99999999 0, 1 0, 1 1)", 31),
    ("POLYGON ((999999999 0, 1 0, 1 1)", 32),
    // a text that only ends too early is refused at its whole length
    ("POLYGON ((0 0", 13),
    ("POLYGON EMPTY POLYGON", 21),
    ("POLYGON EMPTYP", 13),
    ("POLYGON EMPTY,", 13),
    ("POLYGON(EMPTY)", 8),
    ("MULTIPOLYGON(EMPTY)", 13),
    ("POLYGON((0,0", 10),
    ("POLYGON((--1", 10),
    ("POLYGON((0 0 0", 13),
];

#[test]
fn bad_syntax(rt: HostRuntime) {
    for &(text, place) in BAD_SYNTAX {
        assert!(rt;
            is_refused(rt.alloc(), text, Fault::Syntax(place)),
            "{text}"
        );
    }
}

/// A text whose numbers or rings are refused, and why.
const REFUSED: [(&str, Fault); 8] = [
    (
        "POLYGON ((0 0, 1 0, 0 -268435457, 5 5))",
        Fault::NumberRange(22),
    ),
    (
        "POLYGON ((0 0, 268435457 0, 0 1, 0 0))",
        Fault::NumberRange(15),
    ),
    ("POLYGON ((0 0, 1 0, 0 -16777217, 5 5))", Fault::RingOpen(9)),
    ("POLYGON ((0 0, 1 0, 5 5))", Fault::RingShort(9)),
    (
        "POLYGON ((0 0, 1 0, 1 1, 0 1), (0 0, 1 0, 0 0))",
        Fault::RingOpen(9),
    ),
    ("POLYGON ((0 0, 1 0, 0 1))", Fault::RingShort(9)),
    ("POLYGON ((0 0, 1 0, 1 1, 0 1))", Fault::RingOpen(9)),
    (
        "POLYGON ((0 0, 4 0, 4 4, 0 4, 0 0), (1 1, 2 2, 1 1))",
        Fault::RingShort(36),
    ),
];

#[test]
fn refused(rt: HostRuntime) {
    for (text, fault) in REFUSED {
        assert!(rt; is_refused(rt.alloc(), text, fault), "{text}");
    }
}

/// White space is space, tab, CR and LF alone.
#[test]
fn strange_bytes(rt: HostRuntime) {
    for byte in [0, 11, 12, 127, 200, 239] {
        let told = (check_layer(&[byte]), check_layer(&[b' ', byte]));
        assert!(rt;
            told == (Err(Fault::Syntax(0)), Err(Fault::Syntax(1))),
            "{byte}"
        );
    }
}

/// What a front of a square's text is: each but the empty one and the one without the LF is refused at its own length.
fn told_of_front(length: usize) -> Result<Outline, Fault> {
    match length {
        0 => Ok(Outline::of_none()),
        1..=34 => Err(Fault::Syntax(length)),
        _ => Ok(outline_of(4, Some((0, 0, 4, 4)))),
    }
}

#[test]
fn fronts(rt: HostRuntime) {
    let text = b"POLYGON ((0 0, 4 0, 4 4, 0 4, 0 0))\n";
    for length in 0..=text.len() {
        assert!(rt;
            check_layer(&text[..length]) == told_of_front(length),
            "{length}"
        );
    }
}

/// What a text is in which a byte stands so many times between a front and a rest.
fn told_of_run(
    alloc: Global,
    front: &str,
    byte: u8,
    count: u32,
    rest: &str,
) -> Result<Result<Outline, Fault>, AllocError> {
    let mut text = Vec::from_slice(alloc, front.as_bytes())?;
    for _ in 0..count {
        text.push(byte)?;
    }
    text.extend_from_slice(rest.as_bytes())?;
    Ok(check_layer(&text))
}

#[test]
fn long_runs(rt: HostRuntime) {
    let one = outline_of(3, Some((0, 0, 1, 1)));
    let table = [
        ("POLYGON (", b'(', 100_000, "", Err(Fault::Syntax(10))),
        (
            "POLYGON ((",
            b'9',
            10_000,
            " 0, 1 0, 1 1, 0 0))",
            Err(Fault::NumberRange(10)),
        ),
        ("POLYGON ((", b'0', 9_999, "1 0, 1 1, 0 1, 1 0))", Ok(one)),
    ];
    for (front, byte, count, rest, told) in table {
        assert!(rt;
            told_of_run(rt.alloc(), front, byte, count, rest) == Ok(told),
            "{count}"
        );
    }
}

/// What the two texts at the length limit are.
fn told_at_limit(
    alloc: Global,
) -> Result<(Result<Outline, Fault>, Result<Outline, Fault>), AllocError> {
    let spaces = vec![in alloc; b' '; 268_435_457]?;
    Ok((check_layer(&spaces), check_layer(&spaces[1..])))
}

#[test]
fn length_limit(rt: HostRuntime) {
    let told = (Err(Fault::LayerLong), Ok(Outline::of_none()));
    assert!(rt; told_at_limit(rt.alloc()) == Ok(told));
}

/// A square of 35 bytes.
const SQUARE: &[u8] = b"POLYGON ((0 0, 4 0, 4 4, 0 4, 0 0))";

/// The most bytes that a text may have, whether the square may be read then, and whether its rings are read with its outline: where it is
/// no longer than a quarter of these.
const GIVEN_LIMITS: [(u32, bool, bool); 7] = [
    (0, false, false),
    (34, false, false),
    (35, true, false),
    (139, true, false),
    (140, true, true),
    (LENGTH_LIMIT, true, true),
    (u32::MAX, true, true),
];

/// How many points the only ring of a layer has.
fn points_of(layer: &Layer<Global>) -> usize {
    match layer.rings() {
        [ring] => ring.points().len(),
        _ => 0,
    }
}

/// What is told of the square within a limit, by each way to read it: it has as many segments as points.
fn told_within(alloc: Global, longest: u32) -> [Result<usize, Fault>; 3] {
    [
        check_layer_within(longest, SQUARE).map(|outline| outline.segments as usize),
        read_outlined(alloc, longest, SQUARE).map(|read| read.outline.segments as usize),
        read_layer_within(alloc, longest, SQUARE).map(|layer| points_of(&layer)),
    ]
}

#[test]
fn given_limits(rt: HostRuntime) {
    let alloc = rt.alloc();
    for (longest, accepted, kept) in GIVEN_LIMITS {
        let told = if accepted {
            Ok(4)
        } else {
            Err(Fault::LayerLong)
        };
        assert!(rt;
            told_within(alloc, longest) == [told, told, told],
            "{longest}"
        );
        let with_rings = read_outlined(alloc, longest, SQUARE).is_ok_and(|read| read
            .layer
            .is_some());
        assert!(rt; with_rings == kept, "{longest}");
    }
}

/// Whether a text is a layer of rings with these points.
fn has_rings(alloc: Global, text: &[u8], rings: &[&[Pt]]) -> bool {
    let Ok(layer) = read_layer(alloc, text) else {
        return false;
    };
    layer.rings().len() == rings.len()
        && layer
            .rings()
            .iter()
            .zip(rings)
            .all(|(ring, points)| ring.points() == *points)
}

#[test]
fn rings(rt: HostRuntime) {
    let text = b"POLYGON ((0 0, 4 -1, 4 4, 0 0),(5 5, 6 6, 7 5, 5 5))";
    let first = [Pt { x: 0, y: 0 }, Pt { x: 4, y: -1 }, Pt { x: 4, y: 4 }];
    let second = [Pt { x: 5, y: 5 }, Pt { x: 6, y: 6 }, Pt { x: 7, y: 5 }];
    assert!(rt; has_rings(rt.alloc(), text, &[&first, &second]));
}
