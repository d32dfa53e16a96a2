//! Points and edges as they are printed.

ghost use Rattle.std.specs.Prelude.{Some};
ghost use Rattle.geom.specs.Words.{edge_words, pt_words};

use crate::edge::Edge;
use crate::point::Pt;
use std::fmt;

impl fmt::Display for Pt {
    ghost output = { λ p. Some (pt_words p) };

    fn fmt<W: fmt::Write>(&self, f: &mut fmt::Formatter<W>) -> fmt::Result {
        write!(f, "{} {}", self.x, self.y)
    }
}

impl fmt::Display for Edge {
    ghost output = { λ e. Some (edge_words e) };

    fn fmt<W: fmt::Write>(&self, f: &mut fmt::Formatter<W>) -> fmt::Result {
        write!(f, "{} {}", self.p, self.q)
    }
}
