//! Segments with the same ends together: of a layer's parcels each inner border stands twice, once each way.
//!
//! In: the segments of both layers. Out: some of these, with how many segments of each layer each of them stands for (`copies`), so that
//! all that follows rounds a border once.
//!
//! 1. Each segment's ends, in either order, have a slot in a table (`table`). Where the table tells a segment with the same ends, that has a
//!    copy more, as long as its count holds it; else the segment is kept (`kept`), and the table tells it from then on (`keeping`). What the
//!    table forgets is kept again.
//! 2. Several hands keep those of a part of the segments each (`in_parts`).
//!
//! The promise: the kept segments with their copies stand for all of them. The definitions are `specs/Copies`.
#![tactic(auto)]

mod copies;
mod in_parts;
mod keeping;
mod kept;
mod table;

pub use copies::Copies;
pub use in_parts::distinct_in_parts;
pub use keeping::distinct;
pub use kept::Distinct;
