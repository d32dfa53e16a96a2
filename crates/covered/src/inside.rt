//! Whether the points of a cover set lie in a layer, and in the result of an operation.

ghost use Rattle.std.specs.Prelude.{◌≡◌};
ghost use Rattle.cover_sets.specs.Sets.{IsNumber, set_of};
ghost use Rattle.covered.specs.Covered.{has_of_a, has_of_b};
ghost use Rattle.covered.specs.Sides.{directions_of, holds_of};

use cover_sets::Sets;
use geom::Op;
use std::alloc::Allocator;

/// Whether some feature of the set is of layer A: its least one is.
fn has_of_a<A: Allocator + Copy>(sets: &Sets<A>, split: u32, set: u32) -> bool
    requires { IsNumber sets.now set }
    ensures { result ≡ has_of_a split (set_of sets.now set) }
{
    match sets.least(set) {
        Some(feature) => feature < split,
        None => false,
    }
}

/// Whether some feature of the set is of layer B: its greatest one is.
fn has_of_b<A: Allocator + Copy>(sets: &Sets<A>, split: u32, set: u32) -> bool
    requires { IsNumber sets.now set }
    ensures { result ≡ has_of_b split (set_of sets.now set) }
{
    match sets.greatest(set) {
        Some(feature) => split <= feature,
        None => false,
    }
}

/// Whether the operation holds of the points of a cover set.
fn holds_of<A: Allocator + Copy>(op: Op, split: u32, sets: &Sets<A>, set: u32) -> bool
    requires { IsNumber sets.now set }
    ensures { result ≡ holds_of op split (set_of sets.now set) }
{
    op.holds(has_of_a(sets, split, set), has_of_b(sets, split, set))
}

/// Whether an edge bounds the result as directed from its first end to its second, and whether as directed back, by the cover sets on its
/// left and on its right.
pub fn directions<A: Allocator + Copy>(
    op: Op,
    split: u32,
    sets: &Sets<A>,
    left: u32,
    right: u32,
) -> (bool, bool)
    requires left { IsNumber sets.now left }
    requires right { IsNumber sets.now right }
    ensures { result ≡ directions_of op split (set_of sets.now left) (set_of sets.now right) }
{
    let on_left = holds_of(op, split, sets, left);
    let on_right = holds_of(op, split, sets, right);
    (on_left && !on_right, on_right && !on_left)
}
