//! The rings of a layer, by its features.

ghost use Rattle.std.specs.Prelude.{◌≡◌, ◌<◌, List, Some, length, slice_get};
ghost use Rattle.geom.specs.declared.point.Pt.{Pt};
ghost use Rattle.wkt.specs.Features.{AreCut, IsFeatureAt, all_rings, features_of};

use geom::Ring;
use std::alloc::Allocator;
use std::marker::Model;

/// The features of a layer text, each a list of rings, in text order. A feature is a geometry; `EMPTY` has no rings.
#[derive(Debug, Drop)]
pub struct FeatureLayer<A: Allocator> {
    rings: Vec<Ring<A>, A>,
    /// The number of each feature's first ring.
    starts: Vec<usize, A>,
}

impl<A: Allocator> Model for FeatureLayer<A> {
    ghost Value = { List (List (List Pt)) };

    ghost view = { λ l. features_of l.rings.items l.starts.items };

    ghost invariant = { λ l. AreCut (features_of l.rings.items l.starts.items) l.rings.items l.starts.items };
}

impl<A: Allocator> FeatureLayer<A> {
    /// The features with these rings, which begin with the rings of these numbers.
    pub(crate) fn new(rings: Vec<Ring<A>, A>, starts: Vec<usize, A>) -> FeatureLayer<A>
        requires { AreCut (features_of rings.items starts.items) rings.items starts.items }
        ensures { result ≡ features_of rings.items starts.items }
    {
        FeatureLayer { rings, starts }
    }

    /// How many features there are.
    pub fn count(&self) -> usize
        ensures { result ≡ length self.now }
    {
        self.starts.len()
    }

    /// The rings of all features in their order.
    pub fn rings(&self) -> &[Ring<A>]
        ensures { result.now ≡ all_rings self.now }
    {
        &self.rings
    }

    /// The rings of the feature with this number, counted from 0, in their order.
    pub fn feature(&self, number: usize) -> &[Ring<A>]
        requires { number < length self.now }
        ensures { slice_get self.now number ≡ Some result.now }
    {
        let (from, past) = self.range(number);
        &self.rings()[from..past]
    }

    /// The number of a feature's first ring, and of the one behind its last.
    fn range(&self, number: usize) -> (usize, usize)
        requires { number < length self.now }
        ensures { IsFeatureAt self.now number result.0 result.1 }
    {
        let last = self.starts.len() - 1;
        let from = self.starts[number];
        if number < last {
            (from, self.starts[number + 1])
        } else {
            (from, self.rings.len())
        }
    }

    /// All rings, and the number of each feature's first one.
    pub(crate) fn into_parts(self) -> (Vec<Ring<A>, A>, Vec<usize, A>)
        ensures { AreCut self result.0.items result.1.items }
    {
        let FeatureLayer { rings, starts } = self;
        (rings, starts)
    }
}
