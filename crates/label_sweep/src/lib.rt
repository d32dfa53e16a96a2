//! Labels: noded edges of even degrees in, the directed edges out that bound the result of an operation.
//!
//! 1. Edges that change no parity are left out (`changing`), and the others are cut into strips of columns (`strips`).
//! 2. The vertices in a strip (`second_ends`) are swept from the edges that cross the column before it (`column`, `pass`): what stands over a
//!    vertex is kept in order, with the parities below it (`status`, `turn`).
//! 3. What bounds the result and leaves a vertex is directed, vertex by vertex (`leaving`).
//!
//! A map may be labelled strip by strip, from the edges of each strip and those that come into it (`strip_labels`, `directed`).
//! For callers with more than two layers over the same edges, the same sweep tells which edge is beside each (`swept`).
//!
//! The promise: exactly the edges that bound the result, each in its direction. The definitions are in `specs`; the laws (`laws`) carry the
//! sweep from vertex to vertex.
#![tactic(auto)]

mod changing;
mod column;
mod directed;
mod laws;
mod leaving;
mod one_strip;
mod parities;
mod pass;
mod place;
mod second_ends;
mod standing;
mod status;
mod strips;
mod swept;
mod turn;
mod vertices;

pub use changing::changing_edges;
pub use directed::{in_order, layer_labels, layer_labels_in_parts};
pub use laws::{
    changing_are_layers, changing_bound, ends_are_level, first_left, left_of_first, left_of_next,
    right_is_beyond, search_is_monotone, standing_reaches, standing_stays, strips_make_result,
    turn_is_labelled,
};
pub use one_strip::strip_labels;
pub use strips::strips_of;
pub use swept::{SweptEdge, swept_edges, swept_edges_in_parts};
