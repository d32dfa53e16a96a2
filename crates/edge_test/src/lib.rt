//! The noding test of a text of edges: lines `x1 y1 x2 y2` in; that they are noded, or why not, out.
//!
//! 1. The text is read, and the edges are put in order, each once (`text`, `ordered`).
//! 2. A grid over their box has tiles with a number of edges each (`tiles`).
//! 3. Workers test the tiles (`noding_test`), and the least bad pair of all is told (`tested`).
//!
//! The promise: edges pass exactly where no two share a point but a common end. The definitions are `specs/Tested`.
#![tactic(auto)]

mod fault;
mod ordered;
mod tested;
mod text;
mod tiles;

pub use fault::TextFault;
pub use tested::test_edges;
pub use text::{LONGEST_TEXT, test_text};
