//! The rows of faces by the borders of features, where all rows together don't have too many features.
//!
//! One path for layers that are texts and for those that are columns: what follows is how rows are written (`face_text`, or `rows: columns_of_rows`).

ghost use Rattle.std.specs.Prelude.{◌≡◌, ◌<◌, ◌≤◌, ℕ, true, All, AllPairs, IfOk, MatchResult, length};
ghost use Rattle.cover_law.specs.Areas.{row_area};
ghost use Rattle.cover_law.specs.Changing.{has_some};
ghost use Rattle.cover_law.specs.Cover.{AreBorders, bordered};
ghost use Rattle.rows.specs.Made.{row_of};
ghost use Rattle.engine.specs.BoundedRows.{AreBoundedRows, TellsManyIds};
ghost use Rattle.engine.specs.FaceBorders.{borders_in};

use crate::face_rows::face_sets_alone;
use crate::faces_run::{few_ids, or_want};
use layers::FacesFault;
use linking::RoundedBorders;
use rows::Row;
use std::alloc::Allocator;

/// Rows, and how many features they have together.
#[derive(Drop)]
pub(crate) struct BoundedRows<A: Allocator> {
    pub rows: Vec<Row<A>, A>,
    pub ids: u64,
}

/// The rows over the borders of features, by the calling thread; at most so many features may they have together.
pub(crate) fn bounded_rows_alone<A: Allocator + Copy>(
    alloc: A,
    limit: u64,
    rounded: &RoundedBorders<A>,
) -> Result<BoundedRows<A>, FacesFault>
    requires borders { AreBorders (borders_in rounded.now) }
    requires some { All (λ b. has_some b.features ≡ true) (borders_in rounded.now) }
    requires inside { All (λ b. (b.from ≤ b.to) × (b.to ≤ length rounded.now.features.items)) rounded.now.borders.items }
    requires ordered { All (λ b. AllPairs (λ f g. f < g) (bordered rounded.now.features.items b).features) rounded.now.borders.items }
    requires below { All (λ f. f < 2147483647) rounded.now.features.items }
    ensures answer { (count : ℕ) → All (λ f. f < count) rounded.now.features.items → MatchResult result (AreBoundedRows limit count (borders_in rounded.now)) (TellsManyIds limit count (borders_in rounded.now)) }
    ensures areas { IfOk result (λ r. All (λ r. r.twice_area ≡ row_area (row_of r)) r.rows.items) }
{
    let sets = or_want(face_sets_alone(alloc, &rounded.borders, &rounded.features))?;
    let ids = few_ids(sets.ids(), limit)?;
    let rows = or_want(sets.rows_alone(alloc))?;
    Ok(BoundedRows { rows, ids })
}
