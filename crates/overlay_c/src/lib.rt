//! The overlay for callers in C (`include/overlay.h`), on the calling thread: layers in memory in, a text or columns in the caller's rooms out.
//!
//! 1. Numbers of the call become a plan, and pointers with lengths become layers (`made`, `columns_layer`).
//! 2. The engine answers (`calls`, `covered_made`, `measured`, `faces`, `columns_call`, `pairs_call`, `faces_columns`).
//! 3. What fits is put into the room (`room`, `columns_rooms`, `face_rooms`, `strip_answer`); a status, or a refusal's number and place, tells the rest (`answer`, `words`).
//!
//! A map that is rounded strip by strip goes through four calls (`strip_scatter`, `strip_round`, `strip_bridge`, `strip_edges`); the lists that pass
//! from one to the next are the caller's (`strip_items`), and are tested when they come back (`search`, `strip_checks`, `strip_contradictions`).
//! Together they tell the rounded edges of the whole map (`strip_law`). Two more calls tell the directed edges of a result along them
//! (`strip_labels`, `strip_going_on`, `strip_labels_checks`), all of them (`strip_law`).
//!
//! Directed edges from outside are tested, and get their polygons where they close (`polygons_call`, `polygons_made`, `polygons_checks`). One more
//! call parts those that a range of strips knows into what is closed there, which has polygons of its own, and what is open (`strip_closed`,
//! `strip_closed_checks`), and another one brings polygons of several ranges in order (`strip_write`). Together they tell the result of the whole map
//! (`strip_law`).
//!
//! The promise: a status of 0 exactly where the engine answers and the room is large enough, and then the room begins with its text; nothing
//! behind that changes. The definitions are `specs/Boundary`, `Covered`, `Measured`, `Faces`, `Columns`, `Pairs`, `FacesColumns`,
//! `Strips`, `StripLabels`, `Polygons`, `StripClosed` and `StripWrite`.
#![tactic(auto)]

mod answer;
mod calls;
mod columns_answer;
mod columns_call;
mod columns_layer;
mod columns_rooms;
mod covered_made;
mod face_rooms;
mod faces;
mod faces_answer;
mod faces_columns;
mod faces_columns_call;
mod made;
mod measured;
mod measured_call;
mod pairs_call;
mod polygons_call;
mod polygons_checks;
mod polygons_law;
mod polygons_made;
mod room;
mod search;
mod strip_answer;
mod strip_bridge;
mod strip_checks;
mod strip_closed;
mod strip_closed_checks;
mod strip_contradictions;
mod strip_edges;
mod strip_going_on;
mod strip_items;
mod strip_labels;
mod strip_labels_checks;
mod strip_law;
mod strip_round;
mod strip_scatter;
mod strip_telling;
mod strip_write;
mod words;

pub use answer::OverlayAnswer;
pub use calls::{
    overlay_covered_fill, overlay_faces_fill, overlay_faces_side, overlay_faces_size, overlay_fill,
    overlay_fill_within, overlay_side, overlay_size, overlay_version,
};
pub use columns_answer::OverlayColumnsAnswer;
pub use columns_call::{overlay_columns_fill, overlay_columns_side};
pub use columns_layer::OverlayColumns;
pub use face_rooms::OverlayFaceRooms;
pub use faces::OverlayLayer;
pub use faces_answer::OverlayFacesAnswer;
pub use faces_columns_call::{overlay_faces_columns_fill, overlay_faces_columns_side};
pub use measured::{OverlayLayerMeasures, OverlayMeasures};
pub use measured_call::{overlay_measured_columns_fill, overlay_measured_fill};
pub use pairs_call::overlay_pairs_fill;
pub use polygons_call::overlay_polygons;
pub use polygons_law::results_have_polygons;
pub use strip_answer::OverlayStripAnswer;
pub use strip_bridge::overlay_strip_bridge;
pub use strip_closed::overlay_strip_closed;
pub use strip_edges::overlay_strip_edges;
pub use strip_going_on::overlay_strip_going_on;
pub use strip_items::{OverlayCarried, OverlayCounted, OverlayDirected, OverlayLine, OverlayOpen};
pub use strip_labels::overlay_strip_labels;
pub use strip_law::{
    strips_are_labelled, strips_are_rounded, strips_are_written, told_lists_are_one,
};
pub use strip_round::overlay_strip_round;
pub use strip_scatter::overlay_strip_scatter;
pub use strip_write::overlay_strip_write;
pub use words::overlay_words;
