//! Links between neighbours in a route, and what makes them.

ghost use Rattle.std.specs.Prelude.{◌≡◌, ◌+◌, ℕ};
ghost use Rattle.geom.specs.declared.edge.Edge.{Edge};
ghost use Rattle.distinct.specs.Copies.{one_in};

use distinct::Copies;
use feature_links::FeatureLink;
use geom::{Edge, Seg};

/// Two neighbours in the route of segments with the same ends, of which each layer has so many.
#[derive(Clone, Copy, Debug, PartialEq, Eq, PartialOrd, Ord)]
pub struct Link {
    pub edge: Edge,
    pub copies: Copies,
}

/// What stands for a segment, and makes the links of its route.
pub(crate) trait MakesLinks<L> {
    ghost link_of: { Self → Edge → L };

    ghost times_of: { Self → ℕ };

    /// The link of two neighbours.
    fn link(&self, edge: Edge) -> L
        ensures { result ≡ link_of self.now edge };

    /// How often the records of the route count.
    fn times(&self) -> u32
        ensures { result ≡ times_of self.now };
}

/// Copies make links with them.
impl MakesLinks<Link> for Copies {
    ghost link_of = { λ c e. record { edge = e; copies = c } };

    ghost times_of = { λ c. c.in_a + c.in_b };

    #[inline(always)]
    fn link(&self, edge: Edge) -> Link {
        Link {
            edge,
            copies: *self,
        }
    }

    #[inline(always)]
    fn times(&self) -> u32 {
        self.all()
    }
}

/// A segment makes links of its layer.
impl MakesLinks<Link> for Seg {
    ghost link_of = { λ s e. record { edge = e; copies = one_in s.layer } };

    ghost times_of = { λ s. 1 };

    #[inline(always)]
    fn link(&self, edge: Edge) -> Link {
        Link {
            edge,
            copies: Copies::one(self.layer),
        }
    }

    #[inline(always)]
    fn times(&self) -> u32 {
        1
    }
}

/// The owner of a segment makes links of a feature.
impl MakesLinks<FeatureLink> for u32 {
    ghost link_of = { λ f e. record { edge = e; feature = f } };

    ghost times_of = { λ f. 1 };

    #[inline(always)]
    fn link(&self, edge: Edge) -> FeatureLink {
        FeatureLink {
            edge,
            feature: *self,
        }
    }

    #[inline(always)]
    fn times(&self) -> u32 {
        1
    }
}
