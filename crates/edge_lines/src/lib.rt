//! Lines of edges: a text of lines `x1 y1 x2 y2` in, their edges out.
//!
//! 1. A text is cut into lines, and a line into words (`text`, `line`).
//! 2. A word is a coordinate or none (`coordinate`), and four of them are the ends of an edge (`line`).
//!
//! The promise: the edges of all lines in their order, or the first line that has no edge and why. The definitions are `specs/Lines`.
#![tactic(auto)]

mod coordinate;
mod fault;
mod line;
mod text;

pub use fault::{LineFault, ReadFault};
pub use text::read_edges;
