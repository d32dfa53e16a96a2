//! Why a call is refused.

ghost use Rattle.std.specs.Prelude.{◌≡◌, Some, true};
ghost use Rattle.geom.specs.Fault.{belongs, fault_words, number_of};

use crate::edge::Edge;
use std::alloc::{AllocError, AllocFailed};
use std::fmt;

/// A growth was refused.
#[derive(Clone, Copy, Debug, PartialEq, Eq)]
pub struct NoMemory;

impl From<AllocError> for NoMemory {
    fn from(_e: AllocError) -> NoMemory {
        NoMemory
    }
}

impl<T: Drop> From<AllocFailed<T>> for NoMemory {
    fn from(_e: AllocFailed<T>) -> NoMemory {
        NoMemory
    }
}

/// Why a call is refused. Offsets are in bytes of the layer text.
#[derive(Clone, Copy, Debug, PartialEq, Eq)]
pub enum Fault {
    /// The text is longer than the limit.
    LayerLong,
    /// The text is no layer text; the length of its longest front that some layer text begins with.
    Syntax(usize),
    /// A number is outside the coordinate limit; where the first such number begins.
    NumberRange(usize),
    /// A ring has fewer than four points as written; where it opens.
    RingShort(usize),
    /// A ring's last point isn't its first; where it opens.
    RingOpen(usize),
    /// Both layers together have this many segments, above the limit.
    TooManySegments(u64),
    /// The tile side is outside its limits.
    BadTile,
    /// The number of workers is outside its limits.
    BadWorkers,
    /// The grid has this many tiles, above the limit.
    TooManyTiles(u64),
    /// These edges share a point that isn't a common end; the least such pair.
    NotNoded(Edge, Edge),
    /// A growth was refused.
    Memory,
    /// The sink failed.
    Write,
}

impl Fault {
    /// The refusal's number, from 0 to 11.
    pub fn number(&self) -> u8
        ensures { result ≡ number_of self.now }
    {
        match self {
            Fault::LayerLong => 0,
            Fault::Syntax(_) => 1,
            Fault::NumberRange(_) => 2,
            Fault::RingShort(_) => 3,
            Fault::RingOpen(_) => 4,
            Fault::TooManySegments(_) => 5,
            Fault::BadTile => 6,
            Fault::BadWorkers => 7,
            Fault::TooManyTiles(_) => 8,
            Fault::NotNoded(_, _) => 9,
            Fault::Memory => 10,
            Fault::Write => 11,
        }
    }
}

impl fmt::Display for Fault {
    ghost output = { λ f. Some (fault_words f) };

    fn fmt<W: fmt::Write>(&self, f: &mut fmt::Formatter<W>) -> fmt::Result {
        match self {
            Fault::LayerLong => write!(f, "0 layer too long"),
            Fault::Syntax(at) => write!(f, "1 syntax at {at}"),
            Fault::NumberRange(at) => write!(f, "2 number out of range at {at}"),
            Fault::RingShort(at) => write!(f, "3 short ring at {at}"),
            Fault::RingOpen(at) => write!(f, "4 open ring at {at}"),
            Fault::TooManySegments(count) => write!(f, "5 too many segments: {count}"),
            Fault::BadTile => write!(f, "6 bad tile side"),
            Fault::BadWorkers => write!(f, "7 bad number of workers"),
            Fault::TooManyTiles(count) => write!(f, "8 too many tiles: {count}"),
            Fault::NotNoded(e, g) => write!(f, "9 edges cross: {e}, {g}"),
            Fault::Memory => write!(f, "10 out of memory"),
            Fault::Write => write!(f, "11 write failed"),
        }
    }
}

/// What a refusal is about.
#[derive(Clone, Copy, Debug, PartialEq, Eq)]
pub enum Part {
    A,
    B,
    Run,
}

/// Why a run is refused: the refusals of a text are about a layer, the others about the run. No run answers that edges cross.
#[derive(Clone, Copy, Debug)]
pub struct RunFault {
    pub at: Part,
    pub fault: Fault,
    ghost fits: { belongs at fault ≡ true },
}
