//! Rows: the points of each cover set, as polygons with their area.
//!
//! In: rounded edges with the numbers of the cover sets on both their sides. Out: a row for each cover set that has an edge, but for the
//! empty one; or the columns of all rows.
//!
//! 1. Each edge gives a directed edge for the set on its left, and one back for the set on its right (`edges`).
//! 2. Those of one set are those of one row (`runs`, `grouped`). The sets are brought nearly in the order of their features before the rows
//!    are made, so that hardly a row has to be moved (`ends`).
//! 3. A row's polygons and its area are those of its directed edges, for parts of the rows at once (`parts`, `area`).
//! 4. Rows stand in the order of their sets (`parts`).
//! 5. As columns they are twice their areas, the numbers of the features of each layer (`number_lists`), and their polygons behind one
//!    another (`row_columns`), in which nothing of a row is lost.
//!
//! The promise: exactly the rows of the features, in order, each with its polygons and twice its area. The definition is `AreRows` in
//! `specs/Rows` of `cover_law`; that of their columns is `specs/RowColumns`.
#![tactic(auto)]

mod area;
mod edges;
mod ends;
mod grouped;
mod number_lists;
mod parts;
mod row_columns;
mod runs;

pub use area::twice_area;
pub use edges::RowEdge;
pub use grouped::{RowEdges, count_ids, row_edges};
pub use number_lists::NumberLists;
pub use parts::{Row, rows_in_parts, rows_of};
pub use row_columns::{RowColumns, columns_of_rows};
pub use runs::RowSet;
