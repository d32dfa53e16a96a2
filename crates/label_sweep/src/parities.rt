//! The parities of a point.

ghost use Rattle.std.specs.Prelude.{◌≡◌};
ghost use Rattle.label_sweep.specs.Labels.{beyond};

use geom::Counted;

/// The parities of a point in the two layers.
#[derive(Clone, Copy, Debug, PartialEq, Eq)]
pub struct Parities {
    pub a: bool,
    pub b: bool,
}

impl Parities {
    /// The parities beyond an edge.
    pub fn beyond(self, one: &Counted) -> Parities
        ensures { result ≡ beyond self one.now }
    {
        Parities {
            a: self.a != (one.in_a % 2 == 1),
            b: self.b != (one.in_b % 2 == 1),
        }
    }
}
