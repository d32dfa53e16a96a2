//! Layers with their rounded edges, their results and their reports.

/// Two squares that overlap.
pub const SQUARE: &str = "POLYGON ((0 0, 4 0, 4 4, 0 4, 0 0))\n";

pub const OTHER: &str = "POLYGON ((2 2, 6 2, 6 6, 2 6, 2 2))\n";

pub const SQUARES_EDGES: &str =
    "0 0 0 4 1 0\n0 0 4 0 1 0\n0 4 2 4 1 0\n2 2 2 4 0 1\n2 2 4 2 0 1\n2 4 2 6 0 1\n2 4 4 4 1 0\n2 6 6 6 0 1\n4 0 4 2 1 0\n4 2 4 4 1 0\n4 2 6 2 0 1\n6 2 6 6 0 1\n";

pub const SQUARES_COMMON: &str = "MULTIPOLYGON (((2 2, 4 2, 4 4, 2 4, 2 2)))\n";

/// On one tile.
pub const SQUARES_REPORT: &str =
    "segments 4 4\nhot 10\nrecords 20\nedges 12\ntiles 1\nremade 0\ntile 0 10 20\n";

/// The first square in both layers.
pub const TWICE_EDGES: &str = "0 0 0 4 1 1\n0 0 4 0 1 1\n0 4 4 4 1 1\n4 0 4 4 1 1\n";

/// A crossing at one half.
pub const BOW_TIE: &str = "POLYGON ((0 0, 1 1, 0 1, 1 0, 0 0))\n";

pub const BOW_TIE_EDGES: &str = "0 0 1 0 1 0\n0 0 1 1 1 0\n0 1 1 1 2 0\n1 0 1 1 1 0\n";

/// A side that passes just above a corner of the triangle below it.
pub const WEDGE: &str = "POLYGON ((0 0, 10 1, 0 8, 0 0))\n";

pub const BELOW: &str = "POLYGON ((5 0, 5 -4, 9 -4, 5 0))\n";

pub const WEDGE_EDGES: &str =
    "0 0 0 8 1 0\n0 0 5 0 1 0\n0 8 10 1 1 0\n5 -4 5 0 0 1\n5 -4 9 -4 0 1\n5 0 9 -4 0 1\n5 0 10 1 1 0\n";

/// A triangle and a square whose crossings lie between grid points.
pub const SLOPE: &str = "POLYGON ((0 0, 6 0, 0 5, 0 0))\n";

pub const BESIDE: &str = "POLYGON ((1 1, 7 1, 7 7, 1 7, 1 1))\n";

pub const SLOPE_COMMON: &str = "MULTIPOLYGON (((1 1, 5 1, 1 4, 1 1)))\n";

pub const SLOPE_UNION: &str = "MULTIPOLYGON (((0 0, 6 0, 5 1, 7 1, 7 7, 1 7, 1 4, 0 5, 0 0)))\n";

/// The result that has no polygon, and the report of two layers that have none.
pub const EMPTY: &str = "MULTIPOLYGON EMPTY\n";

pub const EMPTY_REPORT: &str = "segments 0 0\nhot 0\nrecords 0\nedges 0\ntiles 0\nremade 0\n";

/// A triangle, and a bow tie far from it whose crossing at one half belongs to the last of four tiles.
pub const APART: &str =
    "POLYGON ((0 0, 1 0, 0 1, 0 0)) POLYGON ((15 15, 16 16, 15 16, 16 15, 15 15))\n";

pub const APART_EDGES: &str =
    "0 0 0 1 1 0\n0 0 1 0 1 0\n0 1 1 0 1 0\n15 15 16 15 1 0\n15 15 16 16 1 0\n15 16 16 16 2 0\n16 15 16 16 1 0\n";

pub const APART_UNION: &str =
    "MULTIPOLYGON (((0 0, 1 0, 0 1, 0 0)), ((15 15, 16 15, 16 16, 15 15)))\n";

/// On four tiles.
pub const APART_REPORT: &str =
    "segments 7 0\nhot 7\nrecords 15\nedges 7\ntiles 4\nremade 0\ntile 0 4 8\ntile 1 1 2\ntile 2 1 2\ntile 3 1 3\n";

/// A hundred times the size of the two squares that overlap.
pub const LARGE: &str = "POLYGON ((0 0, 400 0, 400 400, 0 400, 0 0))\n";

pub const LARGE_OTHER: &str = "POLYGON ((200 200, 600 200, 600 600, 200 600, 200 200))\n";

pub const LARGE_EDGES: &str =
    "0 0 0 400 1 0\n0 0 400 0 1 0\n0 400 200 400 1 0\n200 200 200 400 0 1\n200 200 400 200 0 1\n200 400 200 600 0 1\n200 400 400 400 1 0\n200 600 600 600 0 1\n400 0 400 200 1 0\n400 200 400 400 1 0\n400 200 600 200 0 1\n600 200 600 600 0 1\n";

pub const LARGE_COMMON: &str = "MULTIPOLYGON (((200 200, 400 200, 400 400, 200 400, 200 200)))\n";

/// A square that reaches just into the second column and row of tiles of the greatest side.
pub const BROAD: &str =
    "POLYGON ((-16777216 -16777216, 16777216 -16777216, 16777216 16777216, -16777216 16777216, -16777216 -16777216))\n";

pub const BROAD_EDGES: &str =
    "-16777216 -16777216 -16777216 16777216 1 0\n-16777216 -16777216 16777216 -16777216 1 0\n-16777216 16777216 16777216 16777216 1 0\n16777216 -16777216 16777216 16777216 1 0\n";

pub const BROAD_UNION: &str =
    "MULTIPOLYGON (((-16777216 -16777216, 16777216 -16777216, 16777216 16777216, -16777216 16777216, -16777216 -16777216)))\n";

/// On four tiles.
pub const BROAD_REPORT: &str =
    "segments 4 0\nhot 4\nrecords 8\nedges 4\ntiles 4\nremade 0\ntile 0 1 2\ntile 1 1 2\ntile 2 1 2\ntile 3 1 2\n";

/// The whole range of coordinates.
pub const WHOLE: &str =
    "POLYGON ((-268435456 -268435456, 268435456 -268435456, 268435456 268435456, -268435456 268435456, -268435456 -268435456))\n";

pub const WHOLE_EDGES: &str =
    "-268435456 -268435456 -268435456 268435456 1 0\n-268435456 -268435456 268435456 -268435456 1 0\n-268435456 268435456 268435456 268435456 1 0\n268435456 -268435456 268435456 268435456 1 0\n";

pub const WHOLE_UNION: &str =
    "MULTIPOLYGON (((-268435456 -268435456, 268435456 -268435456, 268435456 268435456, -268435456 268435456, -268435456 -268435456)))\n";

/// How it begins, by the greatest side.
pub const WHOLE_REPORT: &str =
    "segments 4 0\nhot 4\nrecords 8\nedges 4\ntiles 289\nremade 0\ntile 0 1 2\ntile 1 0 0\n";

/// The two squares that overlap, moved to the least corner of the whole range and 67,108,864 times their size.
pub const VAST: &str =
    "POLYGON ((-268435456 -268435456, 0 -268435456, 0 0, -268435456 0, -268435456 -268435456))\n";

pub const VAST_OTHER: &str =
    "POLYGON ((-134217728 -134217728, 134217728 -134217728, 134217728 134217728, -134217728 134217728, -134217728 -134217728))\n";

pub const VAST_EDGES: &str =
    "-268435456 -268435456 -268435456 0 1 0\n-268435456 -268435456 0 -268435456 1 0\n-268435456 0 -134217728 0 1 0\n-134217728 -134217728 -134217728 0 0 1\n-134217728 -134217728 0 -134217728 0 1\n-134217728 0 -134217728 134217728 0 1\n-134217728 0 0 0 1 0\n-134217728 134217728 134217728 134217728 0 1\n0 -268435456 0 -134217728 1 0\n0 -134217728 0 0 1 0\n0 -134217728 134217728 -134217728 0 1\n134217728 -134217728 134217728 134217728 0 1\n";

pub const VAST_COMMON: &str =
    "MULTIPOLYGON (((-134217728 -134217728, 0 -134217728, 0 0, -134217728 0, -134217728 -134217728)))\n";

/// How it begins, by the greatest side.
pub const VAST_REPORT: &str =
    "segments 4 4\nhot 10\nrecords 20\nedges 12\ntiles 169\nremade 0\ntile 0 1 2\ntile 1 0 0\n";
