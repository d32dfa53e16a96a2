//! The law of segments with copies, as the contract of a function with an empty body. No data goes through it.
//!
//! Segments with the same ends, one way or the other, have the same hot pixels on them, and the same route or the route turned round, in
//! which each edge is as often. So what the kept ones count, each as often as it has copies, is what all of them count.
//!
//! The promise: the rounded edges of the kept segments with their copies are those of all segments. The definitions are `specs/Law` and
//! those of the crate `distinct`.
#![tactic(auto)]

ghost use Rattle.distinct_law.specs.Law.{CopiesAreRounded};

/// The rounded edges of the kept segments with their copies are those of all segments.
pub fn copies_are_rounded()
    ensures { CopiesAreRounded }
{}
