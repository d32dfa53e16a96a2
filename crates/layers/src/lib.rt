//! Layers: texts or columns and a plan in; accepted or refused, and where they are accepted the grid over them and their segments, out.
//!
//! 1. Layer texts are read, two of them at once (`reading`), or up to 64 into their features (`feature_reading`); columns are surveyed.
//! 2. What was read is checked, with the plan (`checking`, `feature_checking`, `columns_checking`, `column_layers`): only here is an input
//!    refused, but for pairs of features, and for too many features in all rows of faces. A refusal has a line of its own (`fault_line`,
//!    `faces_fault`).
//! 3. The rings of accepted layers are cut into segments (`segments`), those of features with their owners (`feature_segments`).
//!
//! The promise: exactly the refusals of `specs/Refusals` (`ColumnsRefusals`, `FacesRefusals`, `FaceColumnsRefusals`), the first that holds, and
//! exactly the segments of the layers that are accepted (`specs/Segments`, `specs/FeatureSegments`).
#![tactic(auto)]

mod checking;
mod column_layers;
mod columns_checking;
mod columns_refused;
mod faces_fault;
mod faces_limits;
mod fault_line;
mod feature_checking;
mod feature_reading;
mod feature_segments;
mod plan;
mod reading;
mod segments;

pub use checking::{
    CheckedInput, Reading, check, check_plan, check_total, grid_over, joint_bounds, plan_fault,
};
pub use column_layers::{CheckedColumnLayers, check_column_layers, column_segments};
pub use columns_checking::{CheckedColumns, check_columns};
pub use columns_refused::{ColumnsRefused, FacesColumnsRefused};
pub use faces_fault::{FacesFault, FacesPart, FacesRefusal, faces_line, faces_status, layer_name};
pub use faces_limits::FacesLimits;
pub use fault_line::{line, status};
pub use feature_checking::{CheckedLayers, check_layers};
pub use feature_reading::{KeptFeatures, MOST_LAYERS, ReadLayers, read_layers, read_layers_alone};
pub use feature_segments::{FeatureSegments, LayerSize, segments_of_texts};
pub use plan::{Limits, Plan, text_limit};
pub use reading::{read_both, read_one, read_segments, read_segments_by_workers};
