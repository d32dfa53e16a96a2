//! Rings, layers and polygons.

ghost use Rattle.std.specs.Prelude.{◌≢◌, ◌≡◌, ◌≤◌, List, AllPairs, length};
ghost use Rattle.geom.specs.declared.point.Pt.{Pt};
ghost use Rattle.geom.specs.Canonical.{Shape};

use crate::point::Pt;
use std::alloc::Allocator;
use std::marker::Model;

/// A ring of a layer text: three points or more, the first one not repeated at the end. Points may occur several times.
#[derive(Debug, Drop)]
pub struct Ring<A: Allocator> {
    points: Vec<Pt, A>,
}

impl<A: Allocator> Model for Ring<A> {
    ghost Value = { List Pt };

    ghost view = { λ r. r.points.items };

    ghost invariant = { λ r. 3 ≤ length r.points.items };
}

impl<A: Allocator> Ring<A> {
    /// The ring of these points.
    pub fn new(points: Vec<Pt, A>) -> Ring<A>
        requires { 3 ≤ length points.items }
        ensures { result ≡ points.items }
    {
        Ring { points }
    }

    /// The points in their order, the first one not repeated.
    pub fn points(&self) -> &[Pt]
        ensures points { result.now ≡ self.now }
        ensures enough { 3 ≤ length self.now }
    {
        &self.points
    }
}

/// The rings of a layer text, in text order. Their grouping into polygons has no meaning.
#[derive(Debug, Drop)]
pub struct Layer<A: Allocator> {
    rings: Vec<Ring<A>, A>,
}

impl<A: Allocator> Model for Layer<A> {
    ghost Value = { List (List Pt) };

    ghost view = { λ l. l.rings.items };
}

impl<A: Allocator> Layer<A> {
    /// The layer of these rings.
    pub fn new(rings: Vec<Ring<A>, A>) -> Layer<A>
        ensures { result ≡ rings.items }
    {
        Layer { rings }
    }

    /// The rings in their order.
    pub fn rings(&self) -> &[Ring<A>]
        ensures { result.now ≡ self.now }
    {
        &self.rings
    }
}

/// A ring of a result: three points or more, and none twice.
#[derive(Debug, Drop)]
pub struct SimpleRing<A: Allocator> {
    points: Vec<Pt, A>,
}

impl<A: Allocator> Model for SimpleRing<A> {
    ghost Value = { List Pt };

    ghost view = { λ r. r.points.items };

    ghost invariant = { λ r. (3 ≤ length r.points.items) × AllPairs (λ p q. p ≢ q) r.points.items };
}

impl<A: Allocator> SimpleRing<A> {
    /// The ring of these points.
    pub fn new(points: Vec<Pt, A>) -> SimpleRing<A>
        requires enough { 3 ≤ length points.items }
        requires distinct { AllPairs (λ p q. p ≢ q) points.items }
        ensures { result ≡ points.items }
    {
        SimpleRing { points }
    }

    /// The points in their order, the first one not repeated.
    pub fn points(&self) -> &[Pt]
        ensures points { result.now ≡ self.now }
        ensures enough { 3 ≤ length self.now }
        ensures distinct { AllPairs (λ p q. p ≢ q) self.now }
    {
        &self.points
    }
}

/// A polygon of a result: its shell, and its holes in order.
#[derive(Debug, Drop)]
pub struct Polygon<A: Allocator> {
    shell: SimpleRing<A>,
    holes: Vec<SimpleRing<A>, A>,
}

impl<A: Allocator> Model for Polygon<A> {
    ghost Value = { Shape };

    ghost view = { λ p. record { shell = p.shell; holes = p.holes.items } };
}

impl<A: Allocator> Polygon<A> {
    /// The polygon of this shell and these holes.
    pub fn new(shell: SimpleRing<A>, holes: Vec<SimpleRing<A>, A>) -> Polygon<A>
        ensures { result ≡ record { shell = shell; holes = holes.items } }
    {
        Polygon { shell, holes }
    }

    /// The ring round it.
    pub fn shell(&self) -> &SimpleRing<A>
        ensures { result.now ≡ self.now.shell }
    {
        &self.shell
    }

    /// The holes in their order.
    pub fn holes(&self) -> &[SimpleRing<A>]
        ensures { result.now ≡ self.now.holes }
    {
        &self.holes
    }
}
