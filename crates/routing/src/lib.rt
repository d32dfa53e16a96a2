//! Routes: segments and a cell in, the hot pixels that the cell owns out, and which segments meet which of them.
//!
//! 1. The segments are cut where they overlap on one carrier (`cutting`), and sorted by their lines (`by_line`).
//! 2. The cell is halved until few lines are left (`halved`).
//! 3. In a leaf each line is tested on the hot pixels in its box, which lanes tell, and its segments get records (`recording`, `met`).
//!    Where lines and pixels are many, the pixels are halved first (`spread`).
//!
//! The promise: exactly the pairs of a segment and an owned hot pixel that it meets. The definitions are in `specs/Pieces`.
#![tactic(auto)]

mod by_line;
mod cutting;
mod finding;
mod halved;
mod limited;
mod mark;
mod met;
mod on_line;
mod pieces;
mod piled;
mod record;
mod recording;
mod spread;

pub use finding::{add_ends, piece};
pub use halved::found_in;
pub use limited::LimitedSegments;
pub use met::meets;
pub use pieces::{Part, Piece};
pub use record::{Candidate, Record, record_at};
