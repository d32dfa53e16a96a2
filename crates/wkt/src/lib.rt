//! Layer texts: a text in, the rings that it stands for out, or its one refusal; polygons in, their canonical line out.
//!
//! 1. One pass over the bytes checks grammar, numbers and rings and gathers these (`reader`, `read`), a long text in parts of whole lines;
//!    where it is asked for, the rings of each geometry apart (`features`).
//! 2. What was passed has a number of segments and a box (`outline`).
//! 3. A line is written polygon by polygon, or ring by ring (`write`).
//!
//! The promise: what a text stands for, or is refused for, is one (`laws`), and what is written reads back. The definitions are
//! `specs/LayerText`, `Features`, `Refusals`, `Outlines` and `Canonical`.
#![tactic(auto)]

mod check;
mod feature_layer;
mod feature_lines;
mod features;
mod laws;
mod lines;
mod outline;
mod places;
mod read;
mod reader;
mod runs;
mod survey;
mod write;

pub use check::{LENGTH_LIMIT, check_layer, check_layer_within};
pub use feature_layer::FeatureLayer;
pub use features::{
    OutlinedFeatures, read_features, read_features_within, read_outlined_features,
    read_outlined_features_in_parts,
};
pub use laws::{one_list_of_features, one_reading, one_refusal};
pub use outline::Outline;
pub use read::{
    OutlinedLayer, read_layer, read_layer_within, read_outlined, read_outlined_in_parts,
};
pub use write::{
    POINT_BYTES, push_first_ring, push_line_end, push_next_ring, push_number, push_point,
    write_multi,
};
