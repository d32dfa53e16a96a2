//! The set operations.

ghost use Rattle.std.specs.Prelude.{◌≡◌};
ghost use Rattle.geom.specs.Operations.{holds};

/// A set operation on two layers, by its name in OGC 06-103r4.
#[derive(Clone, Copy, Debug, PartialEq, Eq)]
pub enum Op {
    Union,
    Intersection,
    Difference,
    SymDifference,
}

impl Op {
    /// Whether a point lies in the result, by whether it lies in the first and in the second layer.
    pub fn holds(self, a: bool, b: bool) -> bool
        ensures { result ≡ holds self a b }
    {
        match self {
            Op::Union => a || b,
            Op::Intersection => a && b,
            Op::Difference => a && !b,
            Op::SymDifference => a != b,
        }
    }
}
