//! The polygons of directed edges, part by part, as the contracts of functions with empty bodies. No data goes through them.
//!
//! 1. Directed edges that share a vertex are tied, and so are two of which one lies under the other with what it bounds between them
//!    (`specs/Ties`). Edges of one polygon are tied, by way of others.
//! 2. A range of strips knows all edges that have a column of its own. Those from which no ties lead to one that goes over a border of the range
//!    are closed there: no other edge shares a vertex with them, and no hole of theirs, or over theirs, is another's (`specs/Apart`).
//! 3. So what is closed and what is left have polygons of their own (`parts_are_bounds`), and these are the polygons of all (`polygons_of_parts`).
//! 4. Other ranges know the same of what is left as before (`ranges_are_apart`). What is open in two ranges that touch, with what comes into the
//!    first, is what the range of both knows of it (`ranges_are_joined`).
//!
//! The directed edges of a result are such edges (`result_edges_are_bounds`).
#![tactic(auto)]

ghost use Rattle.parts_law.specs.Law.{PartsAreBounds, PolygonsOfParts, RangesAreApart, RangesAreJoined, ResultEdgesAreBounds};

/// The directed edges of a result bound a part of the plane.
pub fn result_edges_are_bounds()
    ensures { ResultEdgesAreBounds }
{}

/// What is closed in a range of strips bounds a part of the plane, and so do the other edges.
pub fn parts_are_bounds()
    ensures { PartsAreBounds }
{}

/// The polygons of both are those of all edges.
pub fn polygons_of_parts()
    ensures { PolygonsOfParts }
{}

/// What is closed in a range of strips is nothing that a range without these strips knows.
pub fn ranges_are_apart()
    ensures { RangesAreApart }
{}

/// What is open in two ranges of strips that touch, with what comes into the first one, is what both together know of what is left.
pub fn ranges_are_joined()
    ensures { RangesAreJoined }
{}
