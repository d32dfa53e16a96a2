//! Layers as columns of coordinates and offsets, in the layout of GeoArrow's MultiPolygon: columns in, segments out; polygons in,
//! columns out.
//!
//! 1. Columns are surveyed without memory (`surveying`): points and offsets, the coordinate limit, each ring. The answer is the
//!    outline of the layer, or the one fault that the columns are refused for (`fault`).
//! 2. Of columns that are accepted the segments are listed, for a layer or for one of its features (`segments`).
//! 3. Polygons are written as columns, rings closed (`answer`).
//!
//! The promise: what columns stand for, or are refused for, is one, and what is written reads back. The definitions are
//! `specs/Layout`, `Refusals` and `Answers`.
#![tactic(auto)]

mod answer;
mod fault;
mod layout;
mod offsets;
mod outline;
mod points;
mod reach;
mod segments;
mod surveying;

pub use answer::{OwnedColumns, columns_of};
pub use fault::ColumnsFault;
pub use layout::{Columns, Points};
pub use segments::{feature_count, push_feature, push_segments};
pub use surveying::survey;
