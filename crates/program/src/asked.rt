//! What a command line asks for, and why it may be refused.

ghost use Rattle.std.specs.Prelude.{◌≡◌};
ghost use Rattle.program.specs.CommandLine.{operation_covered, operation_measured};

use geom::Op;
use std::alloc::{AllocError, AllocFailed, Global};
use thiserror::Error;

/// What to compute.
#[derive(Clone, Copy, Debug, PartialEq, Eq)]
pub enum Command {
    /// The rounded edges of both layers, with their counts.
    Edges,
    /// A set operation on both layers.
    Apply(Op),
}

/// A command line that was accepted.
#[derive(Clone, Copy, Debug)]
pub struct Request<'a> {
    pub command: Command,
    /// The name of the first layer's file.
    pub a: &'a str,
    /// The name of the second layer's file.
    pub b: &'a str,
    /// The side of a tile, in grid units, where one was given.
    pub side: Option<u32>,
    /// The number of threads at work.
    pub workers: u32,
    /// The most segments that both layers may have together, where that was given.
    pub segments: Option<u32>,
    /// Whether a report is wanted.
    pub report: bool,
    /// Whether a point lies in a layer where one of its features at least covers it, and not by parity.
    pub covered: bool,
    /// Whether the areas of both layers and of the result are wanted.
    pub areas: bool,
}

/// The operation on layers that are read as covered, where that is asked for.
pub(crate) fn operation_covered(command: Command, covered: bool) -> Option<Op>
    ensures { result ≡ operation_covered command covered }
{
    match command {
        Command::Apply(op) if covered => Some(op),
        _ => None,
    }
}

/// The operation whose areas are wanted, where that is asked for.
pub(crate) fn operation_measured(command: Command, areas: bool) -> Option<Op>
    ensures { result ≡ operation_measured command areas }
{
    match command {
        Command::Apply(op) if areas => Some(op),
        _ => None,
    }
}

/// A command line of `faces` that was accepted.
#[derive(Drop)]
pub struct FacesRequest<'a> {
    /// The names of the layers' files, 1 to 64.
    pub layers: Vec<&'a str, Global>,
    /// The side of a tile, in grid units, where one was given.
    pub side: Option<u32>,
    /// The number of threads at work.
    pub workers: u32,
    /// The most segments that all layers may have together, where that was given.
    pub segments: Option<u32>,
    /// Whether a report is wanted.
    pub report: bool,
}

/// Why a command line gives no request.
#[derive(Debug, Drop, Error)]
pub enum CliFault {
    /// The line is well formed, and its command word is none that is offered.
    #[error("unknown command")]
    Unknown,
    /// The line is well formed, and asks for edges of layers that are read as covered.
    #[error("--covered goes with union, intersection, difference and symdifference")]
    CoveredEdges,
    /// The line is well formed, and asks for areas of edges, or of an operation on layers that are read as covered.
    #[error("--areas goes with union, intersection, difference and symdifference, without --covered")]
    AreasElsewhere,
    /// Help was asked for; its text.
    #[error("{0}")]
    Help(String),
    /// The line is not accepted; what the parser says of it.
    #[error("{0}")]
    Refused(String),
    /// Memory ran out while the line was read.
    #[error("out of memory")]
    Memory,
}

impl From<AllocError> for CliFault {
    fn from(_e: AllocError) -> CliFault {
        CliFault::Memory
    }
}

impl<T: Drop> From<AllocFailed<T>> for CliFault {
    fn from(_e: AllocFailed<T>) -> CliFault {
        CliFault::Memory
    }
}
