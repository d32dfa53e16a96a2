//! Exact geometry on the integer grid, without memory: points, segments, edges, rectangles, rings and faults, and the definitions that every
//! crate is proved against.
//!
//! 1. Points and vectors have differences and determinants in 64 bits (`point`, `vector`, `segment`).
//! 2. Rational points have the pixel to which they round (`rational`, `pixel`).
//! 3. Edges and rings have their order and their sides (`edge`, `directed`, `ring`, `rect`).
//!
//! The promise: each call answers its definition exactly, for coordinates within the limit; `laws` says what holds of the definitions
//! themselves. They stand in `specs`, one rule of `docs/RULES.md` each.
#![tactic(auto)]

mod directed;
mod edge;
mod fault;
pub mod laws;
mod op;
mod pixel;
mod point;
mod rational;
mod rect;
mod ring;
mod segment;
mod vector;
mod ways;
mod words;

pub use directed::{Directed, DirectedEdge};
pub use edge::{Counted, Edge};
pub use fault::{Fault, NoMemory, Part, RunFault};
pub use op::Op;
pub use point::{COORDINATE_LIMIT, Pt};
pub use rational::RationalPoint;
pub use rect::Rect;
pub use ring::{Layer, Polygon, Ring, SimpleRing};
pub use segment::{Seg, Source};
pub use vector::{Vector, wide_product};
pub use ways::add_directions;
