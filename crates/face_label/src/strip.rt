//! The edges of odd count of the two layers, by vertical strips.

ghost use Rattle.std.specs.Prelude.{◌≡◌, ◌<◌, ◌≤ℤ◌, All, IfOk, List, Option, length, option_map, vec_len};
ghost use Rattle.geom.specs.Limit.{AreInLimit, IsWithin, coordinate_limit};
ghost use Rattle.geom.specs.declared.edge.Counted.{Counted};
ghost use Rattle.tiling.specs.Strips.{strip_count};
ghost use Rattle.face_label.specs.Strip.{AreBoxesOf, AreColumnsFrom, AreStriped, AreStripsOf, IsIndexOf, IsLeastWidth, IsSetOf, IsStriped, StripedLayer, StripedLayers, edges_at};

use crate::odd::odd_in;
use geom::{Counted, Edge, NoMemory, Source};
use lane_tests::{Boxes, Edges};
use linking::Noded;
use std::alloc::Allocator;
use std::marker::Model;
use tiling::Strips;

/// The edges of a layer, by the vertical strips in which they have a whole x.
#[derive(Drop)]
pub struct LayerStrips<A: Allocator> {
    strips: Strips<A>,
    edges: Vec<Edges<A>, A>,
}

impl<A: Allocator> Model for LayerStrips<A> {
    ghost Value = { StripedLayer };

    ghost view = { λ s. record { strips = s.strips; edges = s.edges.items } };

    ghost invariant = { λ s. length s.edges.items ≡ strip_count s.strips };
}

/// The edges of odd count of both layers, each by its strips.
#[derive(Drop)]
pub(crate) struct Layers<A: Allocator> {
    pub a: LayerStrips<A>,
    pub b: LayerStrips<A>,
}

/// The edges of odd count of both layers of rounded edges, by at most 256 vertical strips. Where there are no edges, there
/// are no strips.
#[derive(Drop)]
pub struct StripSet<A: Allocator> {
    layers: Option<Layers<A>>,
}

impl<A: Allocator> Model for StripSet<A> {
    ghost Value = { Option StripedLayers };

    ghost view = { λ s. option_map (λ l. record { a = l.a; b = l.b }) s.layers };

    ghost invariant = { λ s. ∥ ((counted : List Counted) × IsSetOf counted (option_map (λ l. record { a = l.a; b = l.b }) s.layers)) ∥₁ };
}

/// The box of each edge.
fn boxes_of<A: Allocator + Copy>(alloc: A, edges: &[Edge]) -> Result<Boxes<A>, NoMemory>
    ensures { IfOk result (AreBoxesOf edges.now) }
{
    let mut boxes = Boxes::new(alloc);
    for edge in edges {
        boxes.push(edge.bounds())?;
    }
    Ok(boxes)
}

/// The edges of each strip.
fn edges_by_strip<A: Allocator + Copy>(
    alloc: A,
    strips: &Strips<A>,
    edges: &[Edge],
) -> Result<Vec<Edges<A>, A>, NoMemory>
    requires in_limit { All (λ e. AreInLimit e.p e.q) edges.now }
    requires indexed { IsIndexOf edges.now strips.now.items }
    ensures count { IfOk result (λ found. vec_len found ≡ strip_count strips.now) }
    ensures each { IfOk result (λ found. AreStriped edges.now strips.now found.items) }
{
    let mut found = Vec::new(alloc);
    let mut numbers = Vec::new(alloc);
    for strip in 0..strips.strips() {
        strips.fill(strip, &mut numbers)?;
        found.push(Edges::of(alloc, edges, &numbers)?)?;
    }
    Ok(found)
}

impl<A: Allocator + Copy> LayerStrips<A> {
    /// The edges in strips of this width from low on, as many as reach high.
    fn build(
        alloc: A,
        low: i32,
        high: i32,
        width: u32,
        edges: &[Edge],
    ) -> Result<LayerStrips<A>, NoMemory>
        requires in_limit { All (λ e. AreInLimit e.p e.q) edges.now }
        requires order { low ≤ℤ high }
        requires low_in { IsWithin coordinate_limit low }
        requires high_in { IsWithin coordinate_limit high }
        requires some { 0 < width }
        ensures low { IfOk result (λ s. s.strips.low ≡ low) }
        ensures high { IfOk result (λ s. s.strips.high ≡ high) }
        ensures width { IfOk result (λ s. s.strips.width ≡ width) }
        ensures edges { IfOk result (λ s. IsStriped edges.now s) }
    {
        let strips = Strips::build(alloc, low, high, width, &boxes_of(alloc, edges)?)?;
        let edges = edges_by_strip(alloc, &strips, edges)?;
        Ok(LayerStrips { strips, edges })
    }
}

impl<A: Allocator> LayerStrips<A> {
    /// The edges of the strip of an edge's midpoint.
    pub fn over(&self, edge: Edge) -> &Edges<A>
        requires in_limit { AreInLimit edge.p edge.q }
        requires left { self.now.strips.low ≤ℤ edge.p.x }
        requires right { edge.q.x ≤ℤ self.now.strips.high }
        ensures { result.now ≡ edges_at self.now edge }
    {
        let strip = self.strips.strip_of(edge.p.x + edge.q.x);
        &self.edges[strip as usize]
    }
}

/// The least and the greatest x of the first edge and of the others.
fn columns_from(first: Edge, counted: &[Counted]) -> (i32, i32)
    requires first_in { AreInLimit first.p first.q }
    requires in_limit { All (λ c. AreInLimit c.edge.p c.edge.q) counted.now }
    ensures { AreColumnsFrom first counted.now result.0 result.1 }
{
    let mut low = first.p.x;
    let mut high = first.q.x;
    for one in counted {
        low = low.min(one.edge.p.x);
        high = high.max(one.edge.q.x);
    }
    (low, high)
}

/// The least width that gives at most 256 strips.
fn strip_width(low: i32, high: i32) -> u32
    requires order { low ≤ℤ high }
    requires low_in { IsWithin coordinate_limit low }
    requires high_in { IsWithin coordinate_limit high }
    ensures { IsLeastWidth low high result }
{
    (high - low) as u32 / 256 + 1
}

/// The strips of both layers of some edges.
fn layers_of<A: Allocator + Copy>(alloc: A, counted: &[Counted]) -> Result<Layers<A>, NoMemory>
    requires some { 0 < length counted.now }
    requires in_limit { All (λ c. AreInLimit c.edge.p c.edge.q) counted.now }
    ensures { IfOk result (λ l. AreStripsOf counted.now (record { a = l.a; b = l.b })) }
{
    let (low, high) = columns_from(counted[0].edge, counted);
    let width = strip_width(low, high);
    let a = odd_in(alloc, counted, Source::A)?;
    let b = odd_in(alloc, counted, Source::B)?;
    Ok(Layers {
        a: LayerStrips::build(alloc, low, high, width, &a)?,
        b: LayerStrips::build(alloc, low, high, width, &b)?,
    })
}

impl<A: Allocator + Copy> StripSet<A> {
    /// Those of noded edges, from the least x to the greatest, of the least width that gives at most 256 strips.
    pub fn build<B: Allocator>(alloc: A, noded: &Noded<B>) -> Result<StripSet<A>, NoMemory>
        requires { All (λ c. AreInLimit c.edge.p c.edge.q) noded.now.edges.items }
        ensures { IfOk result (λ s. IsSetOf noded.now.edges.items s) }
    {
        let counted = noded.edges.as_slice();
        if counted.is_empty() {
            return Ok(StripSet { layers: None });
        }
        let layers = layers_of(alloc, counted)?;
        Ok(StripSet {
            layers: Some(layers),
        })
    }
}

impl<A: Allocator> StripSet<A> {
    /// The strips of both layers, or none where there are no edges.
    pub(crate) fn layers(&self) -> Option<&Layers<A>>
        ensures { option_map (λ l. record { a = l.now.a; b = l.now.b }) result ≡ self.now }
    {
        self.layers.as_ref()
    }
}
