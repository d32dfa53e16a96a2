//! Layers with the rows of their faces, and with their reports over one tile.

ghost use Rattle.std.specs.Prelude.{◌≤◌, IfOk, length};

use engine::MOST_LAYERS;
use geom::NoMemory;
use std::alloc::Global;

/// Layers, their rows, and their report over one tile.
pub type Case = (&'static [&'static str], &'static str, &'static str);

/// The worked example: squares, one on a half of the other, and one on a quarter.
pub const WORKED: Case = (
    &[
        "POLYGON ((0 0, 4 0, 4 4, 0 4, 0 0))\nPOLYGON ((2 0, 4 0, 4 4, 2 4, 2 0))\n",
        "POLYGON ((2 2, 4 2, 4 4, 2 4, 2 2))\n",
    ],
    "16\t1\t\tMULTIPOLYGON (((0 0, 2 0, 2 2, 2 4, 0 4, 0 0)))\n8\t1,2\t\tMULTIPOLYGON (((2 0, 4 0, 4 2, 2 2, 2 0)))\n8\t1,2\t1\tMULTIPOLYGON (((2 2, 4 2, 4 4, 2 4, 2 2)))\n",
    "segments 8 4\nfeatures 2 1\nhot 8\nrecords 29\nedges 10\nrows 3\nids 6\ntiles 1\nremade 0\ntile 0 8 29\n",
);

/// Three layers, an empty feature between two others, and a hole.
pub const THREE: Case = (
    &[
        "POLYGON ((0 0, 6 0, 6 6, 0 6, 0 0))",
        "POLYGON ((3 0, 9 0, 9 6, 3 6, 3 0))\nPOLYGON EMPTY\nPOLYGON ((0 0, 3 0, 3 6, 0 6, 0 0))",
        "MULTIPOLYGON (((1 1, 8 1, 8 5, 1 5, 1 1), (2 2, 2 4, 7 4, 7 2, 2 2)))",
    ],
    "24\t1\t1\t\tMULTIPOLYGON (((3 0, 6 0, 6 1, 3 1, 3 0)), ((3 2, 6 2, 6 4, 3 4, 3 2)), ((3 5, 6 5, 6 6, 3 6, 3 5)))\n12\t1\t1\t1\tMULTIPOLYGON (((3 1, 6 1, 6 2, 3 2, 3 1)), ((3 4, 6 4, 6 5, 3 5, 3 4)))\n24\t1\t3\t\tMULTIPOLYGON (((0 0, 3 0, 3 1, 1 1, 1 5, 3 5, 3 6, 0 6, 0 0)), ((2 2, 3 2, 3 4, 2 4, 2 2)))\n12\t1\t3\t1\tMULTIPOLYGON (((1 1, 3 1, 3 2, 2 2, 2 4, 3 4, 3 5, 1 5, 1 1)))\n24\t\t1\t\tMULTIPOLYGON (((6 0, 9 0, 9 6, 6 6, 6 5, 8 5, 8 1, 6 1, 6 0)), ((6 2, 7 2, 7 4, 6 4, 6 2)))\n12\t\t1\t1\tMULTIPOLYGON (((6 1, 8 1, 8 5, 6 5, 6 4, 7 4, 7 2, 6 2, 6 1)))\n",
    "segments 4 8 8\nfeatures 1 3 1\nhot 24\nrecords 64\nedges 34\nrows 6\nids 13\ntiles 1\nremade 0\ntile 0 24 64\n",
);

/// Empty features have numbers too.
pub const EMPTIES: Case = (
    &[
        "POLYGON EMPTY\nMULTIPOLYGON EMPTY\nPOLYGON ((0 0, 2 0, 2 2, 0 2, 0 0))\nPOLYGON EMPTY",
        "POLYGON EMPTY",
    ],
    "8\t3\t\tMULTIPOLYGON (((0 0, 2 0, 2 2, 0 2, 0 0)))\n",
    "segments 4 0\nfeatures 4 1\nhot 4\nrecords 8\nedges 4\nrows 1\nids 1\ntiles 1\nremade 0\ntile 0 4 8\n",
);

/// One layer whose features overlap, of which one crosses itself.
pub const ALONE: Case = (
    &[
        "POLYGON ((0 0, 4 0, 4 4, 0 4, 0 0))\nPOLYGON ((2 2, 6 2, 6 6, 2 6, 2 2))\nPOLYGON ((0 0, 4 4, 4 0, 0 4, 0 0))\nPOLYGON ((3 3, 5 3, 5 5, 3 5, 3 3))",
    ],
    "12\t1\tMULTIPOLYGON (((0 0, 4 0, 2 2, 0 0)), ((0 4, 2 2, 2 4, 0 4)))\n3\t1,2\tMULTIPOLYGON (((2 2, 3 3, 3 4, 2 4, 2 2)))\n3\t1,2,3\tMULTIPOLYGON (((2 2, 4 2, 4 3, 3 3, 2 2)))\n1\t1,2,3,4\tMULTIPOLYGON (((3 3, 4 3, 4 4, 3 3)))\n1\t1,2,4\tMULTIPOLYGON (((3 3, 4 4, 3 4, 3 3)))\n12\t1,3\tMULTIPOLYGON (((0 0, 2 2, 0 4, 0 0)), ((2 2, 4 0, 4 2, 2 2)))\n18\t2\tMULTIPOLYGON (((2 4, 3 4, 3 5, 5 5, 5 3, 4 3, 4 2, 6 2, 6 6, 2 6, 2 4)))\n6\t2,4\tMULTIPOLYGON (((3 4, 4 4, 4 3, 5 3, 5 5, 3 5, 3 4)))\n",
    "segments 16\nfeatures 4\nhot 16\nrecords 45\nedges 25\nrows 8\nids 18\ntiles 1\nremade 0\ntile 0 16 45\n",
);

/// Copies of a feature never cancel each other.
pub const COPIES: Case = (
    &[
        "POLYGON ((0 0, 2 0, 2 2, 0 2, 0 0))\nPOLYGON ((0 0, 2 0, 2 2, 0 2, 0 0))",
        "POLYGON ((0 0, 2 0, 2 2, 0 2, 0 0))\nPOLYGON ((0 0, 1 0, 1 2, 0 2, 0 0))",
    ],
    "4\t1,2\t1\tMULTIPOLYGON (((1 0, 2 0, 2 2, 1 2, 1 0)))\n4\t1,2\t1,2\tMULTIPOLYGON (((0 0, 1 0, 1 2, 0 2, 0 0)))\n",
    "segments 8 8\nfeatures 2 2\nhot 6\nrecords 38\nedges 7\nrows 2\nids 7\ntiles 1\nremade 0\ntile 0 6 38\n",
);

/// Crossings that are rounded.
pub const ROUNDED: Case = (
    &[
        "POLYGON ((0 0, 10 3, 3 10, 0 0))\nPOLYGON ((10 10, 0 7, 7 0, 10 10))",
        "POLYGON ((2 2, 8 2, 8 8, 2 8, 2 2))",
    ],
    "20\t1\t\tMULTIPOLYGON (((0 0, 5 2, 2 2, 2 5, 0 0)), ((3 8, 5 8, 3 10, 3 8)), ((8 3, 10 3, 8 5, 8 3)))\n54\t1,2\t1\tMULTIPOLYGON (((2 5, 5 2, 7 2, 8 2, 8 3, 8 5, 5 8, 3 8, 2 8, 2 7, 2 5)))\n9\t1\t1\tMULTIPOLYGON (((2 2, 5 2, 2 5, 2 2)))\n20\t2\t\tMULTIPOLYGON (((0 7, 2 5, 2 7, 0 7)), ((5 2, 7 0, 7 2, 5 2)), ((5 8, 8 8, 8 5, 10 10, 5 8)))\n9\t2\t1\tMULTIPOLYGON (((5 8, 8 5, 8 8, 5 8)))\n",
    "segments 6 4\nfeatures 2 1\nhot 18\nrecords 48\nedges 26\nrows 5\nids 9\ntiles 1\nremade 0\ntile 0 18 48\n",
);

/// Features of a layer that overlap in a row of three, below one of another layer.
pub const OVERLAPPING: Case = (
    &[
        "POLYGON ((0 0, 6 0, 6 2, 0 2, 0 0))\nPOLYGON ((2 0, 8 0, 8 2, 2 2, 2 0))\nPOLYGON ((4 0, 10 0, 10 2, 4 2, 4 0))",
        "POLYGON ((0 0, 10 0, 10 2, 0 2, 0 0))",
    ],
    "8\t1,2,3\t1\tMULTIPOLYGON (((4 0, 6 0, 6 2, 4 2, 4 0)))\n8\t1,2\t1\tMULTIPOLYGON (((2 0, 4 0, 4 2, 2 2, 2 0)))\n8\t1\t1\tMULTIPOLYGON (((0 0, 2 0, 2 2, 0 2, 0 0)))\n8\t2,3\t1\tMULTIPOLYGON (((6 0, 8 0, 8 2, 6 2, 6 0)))\n8\t3\t1\tMULTIPOLYGON (((8 0, 10 0, 10 2, 8 2, 8 0)))\n",
    "segments 12 4\nfeatures 3 1\nhot 12\nrecords 52\nedges 16\nrows 5\nids 14\ntiles 1\nremade 0\ntile 0 12 52\n",
);

/// A feature that overlaps itself is read by parity, and one that runs along itself twice covers nothing.
pub const ITSELF: Case = (
    &[
        "MULTIPOLYGON (((0 0, 4 0, 4 4, 0 4, 0 0)), ((2 2, 6 2, 6 6, 2 6, 2 2)))\nPOLYGON ((0 0, 2 0, 2 2, 0 2, 0 0), (0 0, 2 0, 2 2, 0 2, 0 0))",
    ],
    "48\t1\tMULTIPOLYGON (((0 0, 2 0, 4 0, 4 2, 2 2, 2 4, 0 4, 0 2, 0 0)), ((2 4, 4 4, 4 2, 6 2, 6 6, 2 6, 2 4)))\n",
    "segments 16\nfeatures 2\nhot 12\nrecords 38\nedges 14\nrows 1\nids 1\ntiles 1\nremade 0\ntile 0 12 38\n",
);

/// Layers without features.
pub const NONE: Case = (
    &["", ""],
    "",
    "segments 0 0\nfeatures 0 0\nhot 0\nrecords 0\nedges 0\nrows 0\nids 0\ntiles 0\nremade 0\n",
);

pub const CASES: [Case; 9] = [
    WORKED,
    THREE,
    EMPTIES,
    ALONE,
    COPIES,
    ROUNDED,
    OVERLAPPING,
    ITSELF,
    NONE,
];

/// The texts as they are lent, where they aren't too many.
pub fn lent<'a>(alloc: Global, texts: &[&'a str]) -> Result<Vec<&'a [u8]>, NoMemory>
    ensures { IfOk result (λ layers. length layers.items ≤ MOST_LAYERS) }
{
    let mut layers = Vec::new(alloc);
    for text in texts {
        layers.push(text.as_bytes())?;
    }
    if layers.len() > MOST_LAYERS {
        return Err(NoMemory);
    }
    Ok(layers)
}
