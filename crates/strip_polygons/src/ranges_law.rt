//! What ranges of strips tell together, as the contracts of functions with empty bodies. No data goes through them.

ghost use Rattle.strip_polygons.specs.Ranges.{RangesHavePolygons, StripsHavePolygons};

/// The polygons that were found in ranges of strips, up to that of all, are in order those of all edges, whatever the ranges are.
pub fn ranges_have_polygons()
    ensures { RangesHavePolygons }
{}

/// Those that begin in each strip, in order, one strip behind another, are the polygons of all edges.
pub fn strips_have_polygons()
    ensures { StripsHavePolygons }
{}
