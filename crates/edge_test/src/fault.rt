//! Why a text of edges doesn't pass.

ghost use Rattle.std.specs.Prelude.{◌≡◌, Some};
ghost use Rattle.edge_test.specs.Words.{status_of, text_fault_words};

use edge_lines::LineFault;
use geom::Edge;
use std::fmt;

/// Why a text of edges doesn't pass the test.
#[derive(Clone, Copy, Debug, PartialEq, Eq)]
pub enum TextFault {
    /// The number of workers is outside its limits.
    BadWorkers,
    /// The text is longer than the limit.
    TooLong,
    /// The first line that has no edge, counted from 1, and why.
    Line(usize, LineFault),
    /// These edges share a point that isn't a common end; the least such pair.
    NotNoded(Edge, Edge),
    /// A growth was refused.
    Memory,
}

impl TextFault {
    /// The exit status of the program: 1 where memory failed, and otherwise 3.
    pub fn status(self) -> u8
        ensures { result ≡ status_of self }
    {
        match self {
            TextFault::Memory => 1,
            _ => 3,
        }
    }
}

impl fmt::Display for TextFault {
    ghost output = { λ f. Some (text_fault_words f) };

    fn fmt<W: fmt::Write>(&self, f: &mut fmt::Formatter<W>) -> fmt::Result {
        match self {
            TextFault::BadWorkers => write!(f, "7 bad number of workers"),
            TextFault::TooLong => write!(f, "EDGES: 0 text too long"),
            TextFault::Line(number, LineFault::Syntax) => {
                write!(f, "EDGES: 1 syntax in line {number}")
            }
            TextFault::Line(number, LineFault::Range) => {
                write!(f, "EDGES: 2 number out of range in line {number}")
            }
            TextFault::Line(number, LineFault::OnePoint) => {
                write!(f, "EDGES: 20 edge of one point in line {number}")
            }
            TextFault::NotNoded(e, g) => write!(f, "9 edges cross: {e}, {g}"),
            TextFault::Memory => write!(f, "10 out of memory"),
        }
    }
}
