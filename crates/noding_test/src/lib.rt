//! A test of edges: ascending edges in; the same edges as noded ones, or the least bad pair, out.
//!
//! 1. A tile's verdict is the least bad pair among the edges near it (`finding`, `meeting`).
//! 2. Workers make and post the verdicts of all tiles (`noding`, `verdicts`).
//! 3. A verdict counts where it was made from what its tile has now (`own`); the least of all is told (`pairs`).
//!
//! The promise: edges pass exactly where no two share a point but a common end. The definitions are `specs/Passes` and `specs/Verdicts`.
#![tactic(auto)]

mod finding;
mod meeting;
mod noding;
mod own;
mod pairs;
mod verdicts;

pub use finding::verdict;
pub use linking::{Noded, settled};
pub use meeting::meet_only_at_ends;
pub use noding::noded;
pub use verdicts::Verdict;
