//! How many segments of each layer have the same ends.

ghost use Rattle.std.specs.Prelude.{◌+◌, ◌<◌};

use geom::Source;

/// So many segments of each layer, one at least.
#[derive(Clone, Copy, Debug, PartialEq, Eq, PartialOrd, Ord)]
pub struct Copies {
    pub in_a: u16,
    pub in_b: u16,
    ghost some: { 0 < in_a + in_b },
}

impl Copies {
    ghost use Rattle.std.specs.Prelude.{◌≡◌, ◌+◌, MatchOption, if◌then◌else◌};
    ghost use Rattle.geom.specs.declared.segment.Source.TheVariants.{A, B};
    ghost use Rattle.geom.specs.Segments.{same_source};
    ghost use Rattle.distinct.specs.Copies.{copies_in};

    /// One segment of a layer.
    pub fn one(layer: Source) -> Copies
        ensures in_a { result.in_a ≡ (if same_source layer A then 1 else 0) }
        ensures in_b { result.in_b ≡ (if same_source layer B then 1 else 0) }
    {
        match layer {
            Source::A => Copies { in_a: 1, in_b: 0 },
            Source::B => Copies { in_a: 0, in_b: 1 },
        }
    }

    /// With one more in a layer, where a `u16` counts it.
    pub fn with_one(self, layer: Source) -> Option<Copies>
        ensures { MatchOption result (copies_in layer self ≡ u16.MAX) (λ c. (c.in_a ≡ self.in_a + (if same_source layer A then 1 else 0)) × (c.in_b ≡ self.in_b + (if same_source layer B then 1 else 0))) }
    {
        match layer {
            Source::A => Some(Copies {
                in_a: self.in_a.checked_add(1)?,
                in_b: self.in_b,
            }),
            Source::B => Some(Copies {
                in_a: self.in_a,
                in_b: self.in_b.checked_add(1)?,
            }),
        }
    }

    /// How many segments of both layers.
    pub fn all(self) -> u32
        ensures { result ≡ self.in_a + self.in_b }
    {
        u32::from(self.in_a) + u32::from(self.in_b)
    }
}
