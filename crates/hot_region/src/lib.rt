//! Hot pixels: the lines of segments and a rectangle in, the pixels out that an end or a crossing makes hot.
//!
//! 1. A rectangle is cut in two, and each half goes on with the lines that pass it (`halving`, `border`). Where long lines would go
//!    into both, a wall beside one or all of them parts it (`region`, `reach`, `parting`, `outer`).
//! 2. It is left where its lines run through it in order (`bundle`); where all but a few do, these are crossed with all (`beside`).
//! 3. A small one has its ends and its crossings found (`leaf`).
//!
//! The promise: exactly the hot pixels of the rectangle. The definitions are `specs/Halving` and `specs/Lines`.
#![tactic(auto)]

mod beside;
mod border;
mod bundle;
mod carrier;
mod halving;
mod leaf;
mod lines;
mod outer;
mod parting;
mod pixels;
mod reach;
mod region;
mod wall;

pub use beside::hot_beside;
pub use bundle::is_bundle;
pub use halving::{cut, passing, within_limit};
pub use leaf::{FEW, hot_by_pairs};
pub use lines::{Line, edge_of, on_line};
pub use parting::parts;
pub use pixels::{ascending, push_in};
pub use region::{Region, kept, reaching};
pub use wall::Wall;
