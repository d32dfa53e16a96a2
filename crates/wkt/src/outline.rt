//! The outline of a layer.

ghost use Rattle.std.specs.Prelude.{◌≡◌, ◌++◌, [], IfSome, List};
ghost use Rattle.geom.specs.declared.point.Pt.{Pt};
ghost use Rattle.wkt.specs.Outlines.{IsOutline};
ghost use Rattle.wkt.specs.Surveying.{corners, grown};

use geom::Rect;

/// The number of a layer's segments, and their box in grid units where there are any.
#[derive(Clone, Copy, Debug, PartialEq, Eq)]
pub struct Outline {
    pub segments: u32,
    pub bounds: Option<Rect>,
}

/// The least box that holds two boxes.
fn bounds_of_both(first: Rect, second: Rect) -> Rect
    ensures { corners result ≡ grown (grown (corners first) second.lo) second.hi }
{
    first.with(second.lo).with(second.hi)
}

impl Outline {
    /// The outline of a layer without rings.
    pub fn of_none() -> Outline
        ensures { IsOutline [] result }
    {
        Outline {
            segments: 0,
            bounds: None,
        }
    }

    /// The outline of a layer whose rings are those of one and then those of another one, where its segments can be counted.
    pub fn joined(self, other: Outline) -> Option<Outline>
        ensures { (rings more : List (List Pt)) → IsOutline rings self → IsOutline more other → IfSome result (IsOutline (rings ++ more)) }
    {
        let segments = self.segments.checked_add(other.segments)?;
        let bounds = match (self.bounds, other.bounds) {
            (Some(first), Some(second)) => Some(bounds_of_both(first, second)),
            (Some(first), None) => Some(first),
            (None, second) => second,
        };
        Some(Outline { segments, bounds })
    }
}
