//! Crossings: two segments in, the pixel in which they cross out, or none.
//!
//! 1. Whether boxes share a point at all is told first, where a caller asks (`boxes`).
//! 2. Determinants tell whether the segments are parallel, and how far along the first one the common point lies (`common_point`).
//! 3. That point, a fraction of whole numbers, is rounded once.
//!
//! The promise: a pixel exactly where the segments aren't parallel and have a common point, whose pixel it is. The definition is `CrossIn`
//! in `specs/Hot` of `geom`.
#![tactic(auto)]

mod boxes;
mod common_point;

pub use boxes::may_meet;
pub use common_point::cross;
