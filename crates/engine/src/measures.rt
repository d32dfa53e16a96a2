//! Areas of two rounded layers and of the result of an operation on them, and the steps of their routes.
//!
//! 1. A layer alone has the edges of both layers, with its own counts (`layer_alone`).
//! 2. The directed edges that bound its union with nothing tell its area (`layer_measures`), those of the result that of the result.

ghost use Rattle.std.specs.Prelude.{◌≡◌, All, IfOk, map};
ghost use Rattle.geom.specs.Limit.{AreInLimit};
ghost use Rattle.points_law.specs.Law.{AreLayers};
ghost use Rattle.cover_law.specs.Areas.{twice_area};
ghost use Rattle.engine.specs.Measures.{AreLayersMeasured, IsLayerMeasured, only, steps_in};

use geom::{Counted, Directed, DirectedEdge, NoMemory, Op, Source};
use hands::worth;
use label_sweep::{layer_labels, layer_labels_in_parts};
use rows::twice_area;
use std::alloc::Allocator;
use std::thread::Threads;

/// What became of a layer that was rounded.
#[derive(Clone, Copy, Debug, PartialEq, Eq)]
pub struct LayerMeasures {
    /// Twice the area of its points by parity, in squares of the grid.
    pub twice_area: i64,
    /// How many steps the routes of its segments have: the sum of its counts.
    pub steps: u64,
}

/// What became of two layers, and the area of an operation's result.
#[derive(Clone, Copy, Debug, PartialEq, Eq)]
pub struct Measures {
    pub a: LayerMeasures,
    pub b: LayerMeasures,
    /// Twice the area of the result, in squares of the grid.
    pub twice_area: i64,
}

/// An answer, and the measures that go with it.
#[derive(Drop)]
pub struct Measured<T> {
    pub answer: T,
    pub measures: Measures,
}

/// A rounded edge with the count of one layer alone.
fn only(one: &Counted, layer: Source) -> Counted
    ensures { result ≡ only layer one.now }
{
    let (in_a, in_b) = match layer {
        Source::A => (one.in_a, 0),
        Source::B => (0, one.in_b),
    };
    Counted {
        edge: one.edge,
        in_a,
        in_b,
    }
}

/// The rounded edges of both layers as those of one alone.
fn layer_alone<A: Allocator>(
    alloc: A,
    counted: &[Counted],
    layer: Source,
) -> Result<Vec<Counted, A>, NoMemory>
    ensures { IfOk result (λ edges. edges.items ≡ map (only layer) counted.now) }
{
    let mut edges = Vec::with_capacity(alloc, counted.len())?;
    for one in counted {
        edges.push(only(one, layer))?;
    }
    Ok(edges)
}

/// How many steps the routes of a layer have. More than their number can tell is want of memory.
fn steps_of(counted: &[Counted], layer: Source) -> Result<u64, NoMemory>
    ensures { IfOk result (λ steps. steps ≡ steps_in layer counted.now) }
{
    let mut steps = 0u64;
    for one in counted {
        let count = match layer {
            Source::A => one.in_a,
            Source::B => one.in_b,
        };
        steps = steps.checked_add(u64::from(count)).ok_or(NoMemory)?;
    }
    Ok(steps)
}

/// Twice the area that directed edges bound on their left. One that its number can't hold is want of memory.
fn area_along(edges: &[DirectedEdge]) -> Result<i64, NoMemory>
    requires { All (λ d. AreInLimit d.from d.to) edges.now }
    ensures { IfOk result (λ area. area ≡ twice_area edges.now) }
{
    i64::try_from(twice_area(edges)).map_err(|_| NoMemory)
}

/// The measures of a layer.
fn layer_measures<A: Allocator + Copy>(
    alloc: A,
    counted: &[Counted],
    layer: Source,
) -> Result<LayerMeasures, NoMemory>
    requires { AreLayers counted.now }
    ensures { IfOk result (IsLayerMeasured layer counted.now) }
{
    let alone = layer_alone(alloc, counted, layer)?;
    let directed = layer_labels(alloc, &alone, Op::Union)?;
    let twice_area = area_along(directed.edges())?;
    let steps = steps_of(counted, layer)?;
    Ok(LayerMeasures { twice_area, steps })
}

/// The same, in at most so many parts at once.
fn layer_measures_in_parts<R: Threads + Sync, A: Allocator + Copy + Send + Sync>(
    rt: &R,
    alloc: A,
    parts: usize,
    counted: &[Counted],
    layer: Source,
) -> Result<LayerMeasures, NoMemory>
    requires { AreLayers counted.now }
    ensures { IfOk result (IsLayerMeasured layer counted.now) }
{
    let alone = layer_alone(alloc, counted, layer)?;
    let directed = layer_labels_in_parts(rt, alloc, parts, &alone, Op::Union)?;
    let twice_area = area_along(directed.edges())?;
    let steps = steps_of(counted, layer)?;
    Ok(LayerMeasures { twice_area, steps })
}

/// The measures of both layers, and of the result that these directed edges bound.
pub(crate) fn measures_of<A: Allocator + Copy>(
    alloc: A,
    counted: &[Counted],
    directed: &Directed<A>,
) -> Result<Measures, NoMemory>
    requires layers { AreLayers counted.now }
    requires in_limit { All (λ d. AreInLimit d.from d.to) directed.now }
    ensures layers { IfOk result (AreLayersMeasured counted.now) }
    ensures area { IfOk result (λ m. m.twice_area ≡ twice_area directed.now) }
{
    let a = layer_measures(alloc, counted, Source::A)?;
    let b = layer_measures(alloc, counted, Source::B)?;
    let twice_area = area_along(directed.edges())?;
    Ok(Measures { a, b, twice_area })
}

/// The same by several workers.
pub(crate) fn measures_by_workers<R: Threads + Sync, A: Allocator + Copy + Send + Sync>(
    rt: &R,
    alloc: A,
    workers: u32,
    counted: &[Counted],
    directed: &Directed<A>,
) -> Result<Measures, NoMemory>
    requires layers { AreLayers counted.now }
    requires in_limit { All (λ d. AreInLimit d.from d.to) directed.now }
    ensures layers { IfOk result (AreLayersMeasured counted.now) }
    ensures area { IfOk result (λ m. m.twice_area ≡ twice_area directed.now) }
{
    let parts = worth::parts(workers, counted.len(), worth::EDGES);
    let a = layer_measures_in_parts(rt, alloc, parts, counted, Source::A)?;
    let b = layer_measures_in_parts(rt, alloc, parts, counted, Source::B)?;
    let twice_area = area_along(directed.edges())?;
    Ok(Measures { a, b, twice_area })
}
