//! The text of faces: rows in, a line for each of them out (`row`): twice its area, the numbers of each layer's features, its polygons.
//!
//! The promise: layers have one text of faces (`laws`). The definition is `specs/Text`.
#![tactic(auto)]

mod laws;
mod row;

pub use laws::faces_text_is_one;
pub use row::{of_layer, push_row};
