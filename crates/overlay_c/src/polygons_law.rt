//! What the call on directed edges promises of those of a result, as the contract of a function with an empty body. No data goes through it.

ghost use Rattle.overlay_c.specs.Polygons.{ResultsHavePolygons};

/// Of the directed edges of an operation's result the call tells the polygons of that result, unless memory runs out.
pub fn results_have_polygons()
    ensures { ResultsHavePolygons }
{}
