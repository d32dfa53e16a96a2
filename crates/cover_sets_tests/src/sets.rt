//! Sets of features that were picked by hand.

ghost use Rattle.cover_sets.specs.Sets.{IsNumber};

use crate::deciding::are_features;
use cover_sets::Sets;
use geom::NoMemory;
use std::alloc::{Allocator, Global};

/// Two sets, and the features in one of them and not in both.
const EXCHANGES: [(&[u32], &[u32], &[u32]); 12] = [
    (&[], &[], &[]),
    (&[], &[7], &[7]),
    (&[7], &[7], &[]),
    (&[1], &[2], &[1, 2]),
    (&[2], &[1, 2], &[1]),
    (&[0, 1], &[2, 3], &[0, 1, 2, 3]),
    (&[1, 2, 3], &[1, 2, 3], &[]),
    (&[1, 2, 3], &[2, 3, 4], &[1, 4]),
    (&[0, 1, 2, 3, 4, 5, 6, 7], &[1, 3, 5, 7], &[0, 2, 4, 6]),
    (
        &[5, 100, 1_000, 70_000],
        &[100, 70_000, 70_001],
        &[5, 1_000, 70_001],
    ),
    // a bit that only one feature has
    (
        &[0, 1_073_741_823],
        &[1_073_741_823, 1_073_741_824],
        &[0, 1_073_741_824],
    ),
    // the greatest feature
    (&[0, 2_147_483_646], &[2_147_483_646], &[0]),
];

/// Whether a set has just these features.
pub fn has_just<A: Allocator + Copy>(
    alloc: A,
    sets: &Sets<A>,
    set: u32,
    wanted: &[u32],
) -> Result<bool, NoMemory>
    requires { IsNumber sets.now set }
{
    let mut features = Vec::new(alloc);
    sets.push_features(set, &mut features)?;
    Ok(features.as_slice() == wanted && sets.size(set) == wanted.len() as u64)
}

/// Whether these are the features in one of two sets and not in both, and each set has one number, however it is made.
fn are_exchanged(alloc: Global, s: &[u32], t: &[u32], wanted: &[u32]) -> Result<bool, NoMemory> {
    if !are_features(s) || !are_features(t) || !are_features(wanted) {
        return Ok(false);
    }
    let mut sets = Sets::new(alloc);
    let first = sets.of(s)?;
    let second = sets.of(t)?;
    let beyond = sets.beyond(first, t)?;
    let turned = sets.beyond(second, s)?;
    let back = sets.beyond(beyond, t)?;
    let listed = sets.of(wanted)?;
    Ok(
        beyond == listed
            && turned == listed
            && back == first
            && has_just(alloc, &sets, first, s)?
            && has_just(alloc, &sets, second, t)?
            && has_just(alloc, &sets, beyond, wanted)?,
    )
}

#[test]
fn sets_are_exchanged(rt: HostRuntime) {
    for (s, t, wanted) in EXCHANGES {
        assert!(rt;
            are_exchanged(rt.alloc(), s, t, wanted) == Ok(true),
            "{wanted:?}"
        );
    }
}
