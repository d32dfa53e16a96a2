//! A map by strips of columns, from the rings of its parts to the polygons of the whole: one law, as the contract of a function with an empty
//! body. No data goes through it.
//!
//! 1. The rings of each layer come in parts, and each part's segments give lines, numbered on, for each strip that they reach (`phases: scatter`).
//!    A strip is handed the lines of all parts.
//! 2. From the last strip on each is rounded by these lines and by what was carried over its right border (`phases: round`, `bridge`, `edges`).
//! 3. From the first strip on each is labelled by its own edges that change a parity and by those that come into it (`phases: labels`, `going_on`).
//! 4. Ranges of strips give the polygons of what is closed in them (`strip_polygons: parted`), until one has all strips.
//! 5. Those that begin in each strip, in order, one strip behind another, are the polygons of the result on the whole layers.
//!
//! The promise: where each step has what the steps before it answered, the last one's answer is that of a run on all rings. The definitions are
//! `specs/Whole`; each record there says of a call what its contract promises.
#![tactic(auto)]

ghost use Rattle.strip_map_law.specs.Whole.{WholeIsRun};

/// What is answered of all strips is the result of the operation on the rings of all parts, whatever the parts, the cuts and the ranges are.
pub fn whole_is_run()
    ensures { WholeIsRun }
{}
