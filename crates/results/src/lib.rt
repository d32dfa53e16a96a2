//! Results: the rounded edges of two layers in; their text, or the polygons of an operation's result and the canonical line of these, out.
//!
//! 1. The edges that bound the result are told and directed, and give rings and polygons (`operation`, by `label_sweep` and `polygonize`).
//! 2. The rings are written as one line, in parts by several workers (`line_parts`, `text_parts`); edges and the report are lines of their
//!    own (`text`).
//! 3. A text goes to a sink whole (`sink`).
//!
//! The promise: the text is the one canonical line of the polygons in which any point lies exactly where the operation holds of its
//! parities in the two rounded layers (`specs/Results`), or the line of each edge in order (`specs/Texts`); what a sink took is in
//! `specs/Sinks`.
#![tactic(auto)]

mod line_parts;
mod operation;
mod sink;
mod text;
mod text_parts;

pub use operation::{
    Wanted, line_along, line_by_workers, polygons_along, result_polygons,
    result_polygons_by_workers, result_text, text_by_workers, text_of,
};
pub use sink::{MemSink, Sink, SinkFault, write_all, write_parts};
pub use text::{Report, push_line, push_tile, report_text};
pub use text_parts::TextParts;
