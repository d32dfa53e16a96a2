//! Tests of operations on layers that are columns: rows worked out by hand, what is refused, and the same polygons as by texts.

mod by_hand;
mod face_rows;
mod pairs;
mod random;
mod refusals;
mod sides;
mod written;
