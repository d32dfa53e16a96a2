//! The rings, owners and polygons of directed edges are determined.

ghost use Rattle.points_law.specs.Polygons.{CanonicalPolygonsAreOne, CanonicalRingsAreOne, ResultEdgesAreNoded, ResultPolygonsAreOne, RingsHaveOneOwner};

/// Directed edges have one list of rings.
pub fn canonical_rings_are_one()
    ensures { CanonicalRingsAreOne }
{}

/// Directed edges have one list of polygons.
pub fn canonical_polygons_are_one()
    ensures { CanonicalPolygonsAreOne }
{}

/// The polygons of a result are determined by the operation and the two layers, and so is their text.
pub fn result_polygons_are_one()
    ensures { ResultPolygonsAreOne }
{}

/// Each ring is owned by one shell, where the directed edges are noded and the edges below holes begin further left.
pub fn rings_have_one_owner()
    ensures { RingsHaveOneOwner }
{}

/// The directed edges of a result are noded.
pub fn result_edges_are_noded()
    ensures { ResultEdgesAreNoded }
{}
