//! A map by strips of columns, where one process can't hold it whole: each strip is rounded by itself, and what runs over a border is bridged.
//!
//! In: the segments of both layers, in parts; cuts, the columns at which strips begin. Out: the rounded edges of one strip after another.
//!
//! 1. Each segment goes, as a line with a number, to each strip that it reaches (`lines`: `scatter`).
//! 2. The lines of a strip alone tell its hot pixels, and which of these each line meets (`strip_records`): the rounded edges inside it, and for
//!    each line that crosses a border the hot pixel that is nearest to that border (`rounding`: `round`; `nearest`).
//! 3. From the last strip to the first, what crosses a border is joined to the first hot pixel behind it (`bridging`: `bridge`).
//! 4. Both together are the rounded edges whose lesser end lies in the strip (`merging`: `edges`).
//!
//! 5. Of noded edges, a strip's own and those that come into it from the left tell the directed edges of a result along its own (`labelling`).
//!
//! `in_turn` does 1 to 4 in one process, `labels_in_strips` the last.
//!
//! The promise: the edges of all strips, one strip behind another, are exactly the rounded edges of all segments, whatever the cuts are, if
//! only they ascend; and the directed edges along those of all strips are the result's. The definitions and laws are those of the crate `strips_law`.
#![tactic(auto)]

mod bridging;
mod in_turn;
mod labelling;
mod lines;
mod merging;
mod nearest;
mod rounding;
mod strip_records;

pub use bridging::{Bridged, bridge};
pub use in_turn::edges_in_strips;
pub use labelling::{
    changing_of_strip, edges_are_of_strips, edges_of_strip, going_on, labels, labels_in_strips,
};
pub use lines::{ascend, scatter};
pub use merging::edges;
pub use rounding::{RoundedStrip, round};
pub use strips_law::{Carried, Line, Open};
