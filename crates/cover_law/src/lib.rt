//! Cover sets, rows and faces, and their laws: each law is the contract of a function with an empty body. No data goes through them.
//!
//! A cover set is what covers a point; a row is all points of one cover set, as polygons; faces are the rows over rounded edges.
//!
//! The promise: every rational point lies in the polygons of just the row of its cover set, and features have one list of faces (`faces`);
//! `laws` has what that rests on. The definitions are `specs/Cover`, `Borders`, `Rows`, `Areas` and `Faces`.
#![tactic(auto)]

mod border;
mod faces;
mod laws;

pub use border::Border;
pub use faces::{faces_are_one, faces_tell};
pub use laws::{
    areas_add_up, borders_are_one, changing_have_same_rows, cover_is_beyond, cover_is_exact,
    covered_is_in_row, feature_is_layer, features_of_rings_close, outside_is_empty,
    right_is_across, rounded_are_borders, row_is_layer, rows_are_one, rows_tell,
};
