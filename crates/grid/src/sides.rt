//! The side of a tile where none is given.

ghost use Rattle.std.specs.Prelude.{MatchBool};
ghost use Rattle.grid.specs.Sides.{IsDefaultSide, IsTooFine};
ghost use Rattle.grid.specs.Tiles.{AreBounds, IsSide};

use crate::grid::Grid;
use geom::Rect;

/// The side of a tile where none is given and the grid has not too many tiles, in grid units.
pub const DEFAULT_SIDE: u32 = 262_144;

/// The side of a tile over a box, in grid units, where none is given: 262,144, or where that gives too many tiles, the least
/// power of two that doesn't.
pub fn default_side(bounds: Option<Rect>) -> u32
    requires { AreBounds bounds }
    ensures { IsDefaultSide bounds result }
{
    let mut side = DEFAULT_SIDE;
    while is_too_fine(bounds, side) {
        side *= 2;
    }
    side
}

/// Whether this side gives too many tiles.
fn is_too_fine(bounds: Option<Rect>, side: u32) -> bool
    requires bounds { AreBounds bounds }
    requires side { IsSide side }
    ensures { MatchBool result (IsTooFine bounds side) (¬ IsTooFine bounds side) }
{
    Grid::new(bounds, side).is_err()
}
