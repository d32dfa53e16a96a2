//! The laws of cover sets and rows.

ghost use Rattle.cover_law.specs.Laws.{AreasAddUp, BordersAreOne, ChangingHaveSameRows, CoverIsBeyond, CoverIsExact, CoveredIsInRow, FeatureIsLayer, FeaturesOfRingsClose, OutsideIsEmpty, RightIsAcross, RoundedAreBorders, RowIsLayer, RowsAreOne, RowsTell};

/// The cover set of a point has just the features in which the point lies, each once, ascending.
pub fn cover_is_exact()
    ensures { CoverIsExact }
{}

/// Across an edge a point comes into the features whose border it is, or leaves them, and no others.
pub fn right_is_across()
    ensures { RightIsAcross }
{}

/// The points of a cover set that is not empty are those of a layer over the same edges.
pub fn row_is_layer()
    ensures { RowIsLayer }
{}

/// A point lies in the polygons of a row exactly where its cover set is the row's.
pub fn rows_tell()
    ensures { RowsTell }
{}

/// Each point that some feature covers lies in a row.
pub fn covered_is_in_row()
    ensures { CoveredIsInRow }
{}

/// Edges have one list of rows.
pub fn rows_are_one()
    ensures { RowsAreOne }
{}

/// Segments with features have one list of rounded edges with the features whose border these are.
pub fn borders_are_one()
    ensures { BordersAreOne }
{}

/// The rounded edges of closed features are borders, which the laws of this crate speak of, once they are noded.
pub fn rounded_are_borders()
    ensures { RoundedAreBorders }
{}

/// One feature over all edges is a layer.
pub fn feature_is_layer()
    ensures { FeatureIsLayer }
{}

/// The areas of the rows that have a feature add up to that of the feature as it was rounded.
pub fn areas_add_up()
    ensures { AreasAddUp }
{}

/// Edges that are no feature's border may be left out: the rows are the same.
pub fn changing_have_same_rows()
    ensures { ChangingHaveSameRows }
{}

/// In features of rings every point begins as many segments of each feature as it ends.
pub fn features_of_rings_close()
    ensures { FeaturesOfRingsClose }
{}

/// The cover set on the right of an edge is that on its left with the edge's features exchanged.
pub fn cover_is_beyond()
    ensures { CoverIsBeyond }
{}

/// A point above which no edge lies is covered by nothing.
pub fn outside_is_empty()
    ensures { OutsideIsEmpty }
{}
