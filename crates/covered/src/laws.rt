//! The laws of operations on layers that are read as covered: each is the contract of a function with an empty body.

ghost use Rattle.covered.specs.Laws.{ChangingHaveSameEdges, CoverageIsExact, CoveredEdgesAreOne, CoveredIsLayer, CoveredTells};
ghost use Rattle.covered.specs.Results.{CoveredPolygonsAreOne, CoveredPolygonsTell};

/// A point lies in a layer where it lies, by parity, in one of its features at least.
pub fn coverage_is_exact()
    ensures { CoverageIsExact }
{}

/// The points of which an operation holds are those of a layer over the same edges.
pub fn covered_is_layer()
    ensures { CoveredIsLayer }
{}

/// A point lies in the polygons of a result exactly where the operation holds of it.
pub fn covered_tells()
    ensures { CoveredTells }
{}

/// Edges have one list of directed edges of a result.
pub fn covered_edges_are_one()
    ensures { CoveredEdgesAreOne }
{}

/// Edges that are no feature's border may be left out: the directed edges of a result are the same.
pub fn changing_have_same_edges()
    ensures { ChangingHaveSameEdges }
{}

/// The polygons of a result are determined by the operation and the two layers.
pub fn covered_polygons_are_one()
    ensures { CoveredPolygonsAreOne }
{}

/// A point lies in the polygons of the result on two layers of rings exactly where the operation holds of it.
pub fn covered_polygons_tell()
    ensures { CoveredPolygonsTell }
{}
