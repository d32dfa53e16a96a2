//! Why a text of edges is refused.

ghost use Rattle.std.specs.Prelude.{◌≡◌};

use std::alloc::{AllocError, AllocFailed};

/// Why a line has no edge.
#[derive(Clone, Copy, Debug, PartialEq, Eq)]
pub enum LineFault {
    /// One of its first four words is missing or is no whole number.
    Syntax,
    /// A coordinate is outside the limit.
    Range,
    /// Its two ends are one point.
    OnePoint,
}

/// Why a text gives no edges.
#[derive(Clone, Copy, Debug, PartialEq, Eq)]
pub enum ReadFault {
    /// The first line that has no edge, counted from 1, and why.
    Line(usize, LineFault),
    /// A growth was refused.
    Memory,
}

impl From<AllocError> for ReadFault {
    ghost use Rattle.edge_lines.specs.declared.fault.ReadFault.TheVariants.{Memory};

    ghost from_gives = { λ _ e. e ≡ Memory };

    fn from(_e: AllocError) -> ReadFault {
        ReadFault::Memory
    }
}

impl<T: Drop> From<AllocFailed<T>> for ReadFault {
    ghost use Rattle.edge_lines.specs.declared.fault.ReadFault.TheVariants.{Memory};

    ghost from_gives = { λ _ e. e ≡ Memory };

    fn from(_e: AllocFailed<T>) -> ReadFault {
        ReadFault::Memory
    }
}
