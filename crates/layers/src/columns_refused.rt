//! Why calls on layers that are columns are refused.

use crate::faces_fault::FacesRefusal;
use columns::ColumnsFault;
use geom::Fault;

/// Why an operation on columns is refused: the refusals of columns are about a layer, the others about the run.
#[derive(Clone, Copy, Debug, PartialEq, Eq)]
pub enum ColumnsRefused {
    /// The first layer.
    A(ColumnsFault),
    /// The second layer.
    B(ColumnsFault),
    /// The plan, the segments or tiles of both layers, or memory.
    Run(Fault),
}

/// Why the faces of columns are refused.
#[derive(Clone, Copy, Debug, PartialEq, Eq)]
pub enum FacesColumnsRefused {
    /// The layer of this number, counted from 0.
    Layer(u8, ColumnsFault),
    /// The plan, the segments or tiles of all layers, the features of all rows, or memory.
    Run(FacesRefusal),
}
