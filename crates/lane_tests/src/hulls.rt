//! Boxes that have all boxes of a run of 256 each: where a rectangle misses a run's hull, it misses the run.

ghost use Rattle.std.specs.Prelude.{◌≡◌, ◌≤◌, OnErr, OnOk, length};
ghost use Rattle.lane_tests.specs.Hulls.{HasHeld};

use geom::{NoMemory, Rect};
use std::alloc::Allocator;

/// How many boxes a run has.
pub(crate) const RUN: usize = 256;

/// Widens the hull of a run by a box, which is the hull of a new run.
pub(crate) fn hold<A: Allocator>(
    hulls: &mut Vec<Rect, A>,
    run: usize,
    rect: Rect,
) -> Result<(), NoMemory>
    requires { run ≤ length hulls.old.items }
    ensures ok { OnOk result (HasHeld run rect hulls.old.items hulls.new.items) }
    ensures err { OnErr result (hulls.new.items ≡ hulls.old.items) }
{
    if run < hulls.len() {
        let hull = hulls[run];
        hulls[run] = hull.with(rect.lo).with(rect.hi);
        return Ok(());
    }
    hulls.push(rect)?;
    Ok(())
}
