//! What the layers determine: each law is the contract of a function with an empty body. Its clauses named `within` say the same
//! for any two limits of segments: a limit refuses, and changes nothing in an answer.

ghost use Rattle.std.specs.Prelude.{◌≡◌, ◌*◌, ℕ, max, min};
ghost use Rattle.geom.specs.Limit.{coordinate_limit};
ghost use Rattle.grid.specs.Tiles.{most_tiles};
ghost use Rattle.wkt.specs.Refusals.{length_limit};
ghost use Rattle.layers.specs.FacesRefusals.{faces_limits};
ghost use Rattle.layers.specs.Refusals.{segment_limit, text_limit};
ghost use Rattle.engine.specs.Determined.{EdgesSizesAreOne, EdgesSizesAreOneWithin, EdgesTextIsOne, EdgesTextIsOneWithin, RefusalIsOne, RefusalIsOneWithin, RefusedMayNotRun, RefusedMayNotRunWithin, ResultSizesAreOne, ResultSizesAreOneWithin, ResultTextIsOne, ResultTextIsOneWithin, RunReportsAsEdges, RunReportsAsEdgesWithin, TilesAreOne, TilesAreOneWithin};
ghost use Rattle.engine.specs.ColumnsLaws.{ColumnsAnswerIsOne, ColumnsRefusalIsOne, ColumnsSizesAreOne, PairIsByColumns, RefusedColumnsMayNotRun, RunIsByColumns};
ghost use Rattle.engine.specs.ColumnsPairs.{PairsRefusalIsOne, RefusedPairsMayNotRun};
ghost use Rattle.engine.specs.CoveredRuns.{CoveredTextIsOneWithin};
ghost use Rattle.engine.specs.FaceColumnsLaws.{FaceColumnsAreOne, FaceColumnsRefusalIsOne, FacesAreByColumns, RefusedFaceColumnsAreNotMade, RefusedMayNotRoundColumns};
ghost use Rattle.engine.specs.Faces.{FacesRefusalIsOne, FacesTextIsOneWithin, RefusedAreNotWritten, RefusedMayNotRound, WrittenFacesTell};
ghost use Rattle.engine.specs.Counting.{CountsAreExact, CountsAreExactWithin};
ghost use Rattle.engine.specs.Measures.{AreasAddUp, LayerAreaTells, MeasuresAddUp, MeasuresAreOne};

use grid::{DEFAULT_SIDE, GREATEST_SIDE, LEAST_SIDE};
use layers::MOST_LAYERS;
use std::alloc::Allocator;
use tile_book::{MOST_HANDS, MOST_NUMBERS};

/// The text of the edges is determined by the two layers: it is the same for every tile side, number of workers and order
/// of threads. So are the numbers of segments, hot pixels, records and edges in the report.
pub fn edges_text_is_one<A: Allocator, B: Allocator>()
    ensures text { EdgesTextIsOne A B }
    ensures sizes { EdgesSizesAreOne A B }
    ensures text_within { EdgesTextIsOneWithin A B }
    ensures sizes_within { EdgesSizesAreOneWithin A B }
{}

/// The text of a result is determined by the operation and the two layers. Those numbers are the same for every operation.
pub fn result_text_is_one<A: Allocator, B: Allocator>()
    ensures text { ResultTextIsOne A B }
    ensures sizes { ResultSizesAreOne A B }
    ensures text_within { ResultTextIsOneWithin A B }
    ensures sizes_within { ResultSizesAreOneWithin A B }
{}

/// The text of faces is determined by the layers: it is the same for every tile side, number of workers, limit and order of threads.
pub fn faces_text_is_one<A: Allocator, B: Allocator>()
    ensures { FacesTextIsOneWithin A B }
{}

/// The text of an operation on layers that are read as covered is determined by the layers.
pub fn covered_text_is_one<A: Allocator, B: Allocator>()
    ensures { CoveredTextIsOneWithin A B }
{}

/// The columns of a result are determined by the operation and the rings of the two layers, in whatever columns these stand. So are the
/// numbers of segments, hot pixels, records and edges in the report, which are the same for every operation.
pub fn columns_answer_is_one<A: Allocator, B: Allocator>()
    ensures columns { ColumnsAnswerIsOne A B }
    ensures sizes { ColumnsSizesAreOne A B }
{}

/// Where texts and columns stand for the same rings, the text that `run` writes is the canonical line of the polygons that the columns of the
/// result hold, and both reports have the same sums.
pub fn run_is_by_columns<A: Allocator, B: Allocator>()
    ensures { RunIsByColumns A B }
{}

/// The polygons of each pair of features are those of `run_columns_within` on layers with the rings of just these two features.
pub fn pair_is_by_columns<A: Allocator, B: Allocator>()
    ensures { PairIsByColumns A B }
{}

/// The measures of both layers and of a result are determined by the operation and the two layers.
pub fn measures_are_one<A: Allocator, B: Allocator>()
    ensures { MeasuresAreOne A B }
{}

/// A layer is measured as its union with nothing, whose points are those where the layer's parity is odd.
pub fn measures_tell()
    ensures { LayerAreaTells }
{}

/// Areas add up as those of sets of points do: that of the union and that of the intersection are together those of both layers.
/// That of a difference and that of the intersection are together that of the first layer, and that of a symmetric difference and
/// twice that of the intersection are those of both layers.
pub fn areas_add_up<A: Allocator, B: Allocator>()
    ensures areas { AreasAddUp }
    ensures measures { MeasuresAddUp A B }
{}

/// A plan and two layers of columns are refused for one reason, or for none where they are answered.
pub fn columns_refused_for_one_reason()
    ensures reason { ColumnsRefusalIsOne }
    ensures answered { RefusedColumnsMayNotRun }
{}

/// Two layers whose features are to be paired are refused for one reason, or for none where they are answered.
pub fn pairs_refused_for_one_reason()
    ensures reason { PairsRefusalIsOne }
    ensures answered { RefusedPairsMayNotRun }
{}

/// Where faces are written, their rows tell of every rational point which features cover it: it lies in the polygons of
/// just the row of these features, and in one where some feature covers it. The areas of the rows that have a feature add
/// up to that of the feature as it was rounded.
pub fn faces_tell<A: Allocator>()
    ensures { WrittenFacesTell A }
{}

/// Where texts and columns stand for the same features, the text that `faces` writes and the columns of the rows are of the same rows.
pub fn faces_are_by_columns<A: Allocator, B: Allocator>()
    ensures { FacesAreByColumns A B }
{}

/// The columns of the rows of faces are determined by the features of the layers, in whatever columns these stand.
pub fn face_columns_are_one<A: Allocator, B: Allocator>()
    ensures { FaceColumnsAreOne A B }
{}

/// A plan and layers of columns are refused faces for one reason, and for none where they are answered. Where memory ended the call they may
/// have too many features in all rows, and are refused for nothing else.
pub fn face_columns_refused_for_one_reason<A: Allocator>()
    ensures reason { FaceColumnsRefusalIsOne }
    ensures answered { RefusedFaceColumnsAreNotMade A }
    ensures memory { RefusedMayNotRoundColumns }
{}

/// A plan and layers are refused for one reason, and for none where they are answered, or where the sink got a part of an
/// answer. Where memory ended the call they may have too many features in all rows, and are refused for nothing else.
pub fn faces_refused_for_one_reason<A: Allocator>()
    ensures reason { FacesRefusalIsOne }
    ensures answered { RefusedAreNotWritten A }
    ensures memory { RefusedMayNotRound }
{}

/// A plan and two layers are refused for one reason, or for none where they are answered.
pub fn one_refusal()
    ensures reason { RefusalIsOne }
    ensures answered { RefusedMayNotRun }
    ensures reason_within { RefusalIsOneWithin }
    ensures answered_within { RefusedMayNotRunWithin }
{}

/// The numbers of each tile in a report are determined by the two layers and the tile side.
pub fn tiles_are_one<A: Allocator, B: Allocator>()
    ensures tiles { TilesAreOne A B }
    ensures within { TilesAreOneWithin A B }
{}

/// A report tells the number of the hot pixels of both layers' segments, and that of the pairs of a segment and a hot pixel
/// that it meets.
pub fn counts_are_exact<A: Allocator>()
    ensures counts { CountsAreExact A }
    ensures within { CountsAreExactWithin A }
{}

/// The report of `run` is that of `edges` for the same plan and layers, but for the number of pieces that were made again.
pub fn run_reports_as_edges<A: Allocator, B: Allocator>()
    ensures report { RunReportsAsEdges A B }
    ensures within { RunReportsAsEdgesWithin A B }
{}

/// The limits that the definitions cite, as numbers: a coordinate's greatest absolute value (2 to the 28th), the bytes of a
/// layer text where no limit is given and by a limit of segments, the segments of all layers together where no limit is given, the
/// layers of faces, the features in all their rows together, the sides of tiles in grid units, the default one among them, the tiles,
/// the workers, and the cells that these draw.
pub fn limits_are_numbers()
    ensures coordinate { coordinate_limit ≡ 268435456 }
    ensures bytes { length_limit ≡ 268435456 }
    ensures bytes_within { (segments : ℕ) → text_limit segments ≡ max (min (segments * 256) 4294967295) 268435456 }
    ensures segments { segment_limit ≡ 1048576 }
    ensures layers { MOST_LAYERS ≡ 64 }
    ensures ids { faces_limits.ids ≡ 268435456 }
    ensures sides { (LEAST_SIDE ≡ 16) × (DEFAULT_SIDE ≡ 262144) × (GREATEST_SIDE ≡ 33554432) }
    ensures tiles { most_tiles ≡ 65536 }
    ensures workers { MOST_HANDS ≡ 64 }
    ensures cells { MOST_NUMBERS ≡ 4194304 }
{}
