//! Texts read into features: each geometry is one, with its own rings, whatever the number of parts.

use geom::Fault;
use refusing::Refusing;
use std::alloc::Global;
use std::thread::Threads;
use wkt::{
    FeatureLayer, LENGTH_LIMIT, OutlinedFeatures, read_features, read_outlined_features,
    read_outlined_features_in_parts,
};

const PARTS: [usize; 5] = [0, 1, 2, 3, 64];

/// Whether the features have so many rings each.
fn has_rings(features: &FeatureLayer<Global>, counts: &[usize]) -> bool {
    if features.count() != counts.len() {
        return false;
    }
    let mut all: usize = 0;
    for (number, &count) in counts.iter().enumerate() {
        if number >= features.count() || features.feature(number).len() != count {
            return false;
        }
        all = all.saturating_add(count);
    }
    features.rings().len() == all
}

/// Whether they were read with the outline, and have so many rings each.
fn is_read(read: Result<OutlinedFeatures<Global>, Fault>, counts: &[usize]) -> bool {
    match read {
        Ok(
            OutlinedFeatures {
                features: Some(features),
                ..
            },
        ) => has_rings(&features, counts),
        _ => false,
    }
}

/// Whether a text has features of so many rings each.
fn has_features<R: Threads + Sync>(rt: &R, alloc: Global, text: &str, counts: &[usize]) -> bool {
    let text = text.as_bytes();
    let Ok(features) = read_features(alloc, text) else {
        return false;
    };
    if !has_rings(&features, counts)
        || !is_read(read_outlined_features(alloc, LENGTH_LIMIT, text), counts)
    {
        return false;
    }
    for parts in PARTS {
        if !is_read(
            read_outlined_features_in_parts(rt, alloc, LENGTH_LIMIT, parts, text),
            counts,
        ) {
            return false;
        }
    }
    true
}

/// Whether a text is refused so.
fn is_refused<R: Threads + Sync>(rt: &R, alloc: Global, text: &str, fault: Fault) -> bool {
    let text = text.as_bytes();
    for parts in PARTS {
        if read_outlined_features_in_parts(rt, alloc, LENGTH_LIMIT, parts, text).err()
            != Some(fault)
        {
            return false;
        }
    }
    read_features(alloc, text).err() == Some(fault)
        && read_outlined_features(alloc, LENGTH_LIMIT, text).err() == Some(fault)
}

/// Four features, of a line each.
const LINES: &str =
    "POLYGON ((0 0, 1 0, 0 1, 0 0))\nPOLYGON ((2 2, 3 2, 2 3, 2 2))\nPOLYGON ((4 4, 5 4, 4 5, 4 4))\nPOLYGON EMPTY\n";

/// More requests for memory than to read these takes.
const REQUESTS: u64 = 100;

/// Whether the features are kept whichever request for memory is refused: where the parts want memory, the whole is read once more.
fn keeps_features<R: Threads + Sync>(rt: &R, alloc: Global, parts: usize) -> bool {
    for number in 0..REQUESTS {
        let heap = Refusing::new(alloc, number);
        match read_outlined_features_in_parts(rt, &heap, LENGTH_LIMIT, parts, LINES.as_bytes()) {
            Ok(read) if read.features.is_some() => {}
            _ => return false,
        }
    }
    true
}

#[test]
fn parts_are_read_before_the_whole(rt: HostRuntime) {
    for parts in PARTS {
        assert!(rt;
            keeps_features(&rt, rt.alloc(), parts) == (parts > 1),
            "{parts}"
        );
    }
}

#[test]
fn accepted(rt: HostRuntime) {
    let table: [(&str, &[usize]); 8] = [
        ("", &[]),
        ("POLYGON EMPTY", &[0]),
        ("MultiPolygon empty\n", &[0]),
        (
            "POLYGON ((0 0, 1 0, 0 1, 0 0))\nPOLYGON ((2 2, 3 2, 2 3, 2 2))\n",
            &[1, 1],
        ),
        (
            "POLYGON ((0 0, 1 0, 0 1, 0 0)) POLYGON((2 2,3 2,2 3,2 2))\tpolygon EMPTY POLYGON ((4 4, 5 4, 4 5, 4 4))",
            &[1, 1, 0, 1],
        ),
        (
            "POLYGON ((0 0, 9 0, 0 9, 0 0), (1 1, 2 1, 1 2, 1 1))\nPOLYGON EMPTY\nPOLYGON EMPTY\nPOLYGON ((2 2, 3 2, 2 3, 2 2))\n",
            &[2, 0, 0, 1],
        ),
        (
            "POLYGON EMPTY\nMULTIPOLYGON (((0 0, 9 0, 0 9, 0 0), (1 1, 2 1, 1 2, 1 1)), ((20 20, 30 20, 20 30, 20 20)))\nMULTIPOLYGON EMPTY\n",
            &[0, 3, 0],
        ),
        (
            "MULTIPOLYGON (((0 0, 1 0, 0 1, 0 0)),\n((0 0, 8 0, 8 8, 0 0)))\nPOLYGON ((0 0, 1 0, 0 1, 0 0))\nPOLYGON ((0 0, 1 0, 0 1, 0 0))",
            &[2, 1, 1],
        ),
    ];
    for (text, counts) in table {
        assert!(rt; has_features(&rt, rt.alloc(), text, counts), "{text}");
    }
}

#[test]
fn refused(rt: HostRuntime) {
    let table = [
        ("POLYGON EMPTY\nPOINT (1 1)", Fault::Syntax(16)),
        ("POLYGON EMPTYPOLYGON EMPTY", Fault::Syntax(13)),
        (
            "POLYGON EMPTY\nPOLYGON ((0 0, 268435457 0, 0 1, 0 0))\nPOLYGON ((0 0, 1 0, 5 5))",
            Fault::NumberRange(29),
        ),
        (
            "POLYGON EMPTY\nPOLYGON ((0 0, 1 0, 5 5))\nPOLYGON EMPTY",
            Fault::RingShort(23),
        ),
        (
            "POLYGON ((0 0, 1 0, 0 1, 5 5))\nPOLYGON EMPTY\n",
            Fault::RingOpen(9),
        ),
    ];
    for (text, fault) in table {
        assert!(rt; is_refused(&rt, rt.alloc(), text, fault), "{text}");
    }
}
