//! The engine: layers, a plan and a sink in; the text of their rounded edges, of an operation's result, or of their faces, out.
//!
//! 1. Layers and plan are accepted or refused (`layers`), but for pairs of features, which are checked here (`columns_pairs`).
//! 2. Workers round the segments over cells: into edges, or for faces and covered layers into the borders of features (`rounds`, `faces_run`).
//! 3. The text that is wanted is made and sent whole (`results`), with a report, and with the areas of layers and result where they are asked
//!    for (`measures`). Layers that are columns give columns (`columns_run`,
//!    `columns_pairs`, `faces_columns`).
//!
//! The promise: where a call answers, it is the one answer that the layers determine, in whose polygons each rational point lies as the
//! operation says (`specs/Runs`, `Results`, `Measures`, `CoveredRuns`, `ColumnsRuns`, `ColumnsPairs`); or it lies in the polygons of just the row of those
//! features that cover it (`specs/Faces`, `FaceColumns`).
#![tactic(auto)]

mod alone;
mod alone_covered;
mod alone_faces;
mod bounded_rows;
mod cell_parts;
mod cells;
mod columns_alone;
mod columns_output;
mod columns_pairs;
mod columns_run;
mod covered_result;
mod covered_run;
mod engine;
mod face_rows;
mod face_text;
mod faces_columns;
mod faces_report;
mod faces_run;
mod fitting;
mod laws;
mod measured_alone;
mod measured_run;
mod measures;
mod measures_lines;
mod rounds;

pub use alone::{edges_alone, edges_alone_within, run_alone, run_alone_within};
pub use alone_covered::run_covered_alone_within;
pub use alone_faces::{FacesOutput, faces_alone};
pub use columns_alone::run_columns_alone_within;
pub use columns_output::ColumnsOutput;
pub use columns_pairs::{PairsOutput, PairsRefused, run_pairs_alone_within};
pub use columns_run::run_columns_within;
pub use covered_run::{run_covered, run_covered_within};
pub use engine::{Output, edges, edges_within, run, run_within};
pub use faces_columns::{FacesColumns, faces_columns_alone};
pub use faces_report::{FacesReport, faces_report_text};
pub use faces_run::{faces, faces_within};
pub use fitting::{fitting_side, fitting_side_of_columns, fitting_side_over};
pub use laws::{
    areas_add_up, columns_answer_is_one, columns_refused_for_one_reason, counts_are_exact,
    covered_text_is_one, edges_text_is_one, face_columns_are_one,
    face_columns_refused_for_one_reason, faces_are_by_columns, faces_refused_for_one_reason,
    faces_tell, faces_text_is_one, limits_are_numbers, measures_are_one, measures_tell,
    one_refusal, pair_is_by_columns, pairs_refused_for_one_reason, result_text_is_one,
    run_is_by_columns, run_reports_as_edges, tiles_are_one,
};
pub use layers::{
    ColumnsRefused, FacesColumnsRefused, FacesFault, FacesLimits, FacesPart, FacesRefusal,
    LayerSize, Limits, MOST_LAYERS, Plan, faces_line, faces_status, layer_name, line, status,
    text_limit,
};
pub use measured_alone::{run_columns_measured_alone_within, run_measured_alone_within};
pub use measured_run::run_measured_within;
pub use measures::{LayerMeasures, Measured, Measures};
pub use measures_lines::measures_text;
pub use results::{MemSink, Report, Sink, SinkFault, report_text, result_text, write_all};
