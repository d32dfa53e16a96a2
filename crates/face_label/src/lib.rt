//! Labels by parities: noded edges of any degrees in, the directed edges of a result out.
//!
//! 1. Edges of odd count of each layer go into at most 256 vertical strips (`odd`, `strip`).
//! 2. Many threads decide each edge's directions by the parities at its side points (`odd`, `label`).
//! 3. They are sorted.
//!
//! The promise: exactly the edges that bound the result, each in its direction (`AreResultEdges` of `geom`).
#![tactic(auto)]

mod label;
mod laws;
mod odd;
mod strip;

pub use geom::{Directed, add_directions};
pub use label::labels;
pub use laws::strips_are_few;
pub use odd::directions;
pub use strip::StripSet;
