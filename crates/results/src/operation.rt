//! What is wanted of two rounded layers: the text of their edges, or an operation's result, as polygons or as their canonical line.

ghost use Rattle.std.specs.Prelude.{All, IfOk, List};
ghost use Rattle.geom.specs.Directed.{AreResultEdges};
ghost use Rattle.geom.specs.Limit.{AreInLimit};
ghost use Rattle.geom.specs.Rings.{Closes};
ghost use Rattle.geom.specs.declared.edge.Counted.{Counted};
ghost use Rattle.geom.specs.declared.op.Op.{Op};
ghost use Rattle.points_law.specs.Law.{AreLayers};
ghost use Rattle.results.specs.Results.{IsResult, IsResultText, IsWantedText};

use crate::line_parts::line_in_parts;
use crate::text::edges_text;
use crate::text_parts::{TextParts, edges_text_in_parts};
use geom::{Counted, Directed, NoMemory, Op, Polygon};
use hands::worth;
use label_sweep::{layer_labels, layer_labels_in_parts};
use polygonize::{polygons, rings_in_parts};
use std::alloc::Allocator;
use std::thread::Threads;
use wkt::write_multi;

/// What is wanted of two layers.
#[derive(Clone, Copy, Debug)]
pub enum Wanted {
    /// Their rounded edges.
    Edges,
    /// The result of an operation on them.
    Apply(Op),
}

/// The text that is wanted of two rounded layers, by their rounded edges, which are let go as soon as they are labelled.
pub fn text_of<A: Allocator + Copy>(
    alloc: A,
    wanted: Wanted,
    counted: Vec<Counted, A>,
) -> Result<Vec<u8, A>, NoMemory>
    requires { AreLayers counted.items }
    ensures { IfOk result (λ text. IsWantedText wanted counted.items text.items) }
{
    match wanted {
        Wanted::Edges => edges_text(alloc, &counted),
        Wanted::Apply(op) => result_text_of(alloc, counted, op),
    }
}

/// The same text, made by several workers at once.
pub fn text_by_workers<A: Allocator + Copy + Send + Sync, R: Threads + Sync>(
    rt: &R,
    alloc: A,
    workers: u32,
    wanted: Wanted,
    counted: Vec<Counted, A>,
) -> Result<TextParts<A>, NoMemory>
    requires layers { AreLayers counted.items }
    ensures { IfOk result (λ text. IsWantedText wanted counted.items text) }
{
    match wanted {
        Wanted::Edges => {
            let parts = worth::parts(workers, counted.len(), worth::LINES);
            edges_text_in_parts(rt, alloc, parts, &counted)
        }
        Wanted::Apply(op) => result_text_by_workers(rt, alloc, workers, counted, op),
    }
}

/// The canonical line of the result of an operation on two rounded layers, by their rounded edges: in bytes, with LF at
/// its end. Answers want of memory only where a growth was refused.
pub fn result_text<A: Allocator + Copy>(
    alloc: A,
    counted: &[Counted],
    op: Op,
) -> Result<Vec<u8, A>, NoMemory>
    requires { AreLayers counted.now }
    ensures { IfOk result (λ text. IsResultText op counted.now text.items) }
{
    let directed = layer_labels(alloc, counted, op)?;
    line_along(alloc, &directed)
}

/// The same line, of edges that are let go once they are labelled.
fn result_text_of<A: Allocator + Copy>(
    alloc: A,
    counted: Vec<Counted, A>,
    op: Op,
) -> Result<Vec<u8, A>, NoMemory>
    requires { AreLayers counted.items }
    ensures { IfOk result (λ text. IsResultText op counted.items text.items) }
{
    let directed = layer_labels(alloc, &counted, op)?;
    drop(counted);
    line_along(alloc, &directed)
}

/// The same, made by several workers at once.
fn result_text_by_workers<A: Allocator + Copy + Send + Sync, R: Threads + Sync>(
    rt: &R,
    alloc: A,
    workers: u32,
    counted: Vec<Counted, A>,
    op: Op,
) -> Result<TextParts<A>, NoMemory>
    requires { AreLayers counted.items }
    ensures { IfOk result (λ text. IsResultText op counted.items text) }
{
    let parts = worth::parts(workers, counted.len(), worth::EDGES);
    let directed = layer_labels_in_parts(rt, alloc, parts, &counted, op)?;
    drop(counted);
    line_by_workers(rt, alloc, workers, directed)
}

/// The polygons of the result of an operation on two rounded layers, by their rounded edges.
pub fn result_polygons<A: Allocator + Copy>(
    alloc: A,
    counted: &[Counted],
    op: Op,
) -> Result<Vec<Polygon<A>, A>, NoMemory>
    requires { AreLayers counted.now }
    ensures { IfOk result (λ polygons. IsResult op counted.now polygons.items) }
{
    let directed = layer_labels(alloc, counted, op)?;
    polygons_along(alloc, &directed)
}

/// The same polygons, where several workers label the edges.
pub fn result_polygons_by_workers<A: Allocator + Copy + Send + Sync, R: Threads + Sync>(
    rt: &R,
    alloc: A,
    workers: u32,
    counted: &[Counted],
    op: Op,
) -> Result<Vec<Polygon<A>, A>, NoMemory>
    requires layers { AreLayers counted.now }
    ensures { IfOk result (λ polygons. IsResult op counted.now polygons.items) }
{
    let parts = worth::parts(workers, counted.len(), worth::EDGES);
    let directed = layer_labels_in_parts(rt, alloc, parts, counted, op)?;
    polygons_along(alloc, &directed)
}

/// The polygons of the result that these directed edges bound.
pub fn polygons_along<A: Allocator + Copy>(
    alloc: A,
    directed: &Directed<A>,
) -> Result<Vec<Polygon<A>, A>, NoMemory>
    requires closes { Closes directed.now }
    requires in_limit { All (λ d. AreInLimit d.from d.to) directed.now }
    ensures { IfOk result (λ polygons. (op : Op) (counted : List Counted) → AreLayers counted → AreResultEdges op counted directed.now → IsResult op counted polygons.items) }
{
    polygons(alloc, directed)
}

/// The canonical line of the result that these directed edges bound.
pub fn line_along<A: Allocator + Copy>(
    alloc: A,
    directed: &Directed<A>,
) -> Result<Vec<u8, A>, NoMemory>
    requires closes { Closes directed.now }
    requires in_limit { All (λ d. AreInLimit d.from d.to) directed.now }
    ensures { IfOk result (λ text. (op : Op) (counted : List Counted) → AreLayers counted → AreResultEdges op counted directed.now → IsResultText op counted text.items) }
{
    let polygons = polygons_along(alloc, directed)?;
    write_multi(alloc, polygons.as_slice())
}

/// The same line in one part.
fn one_line<A: Allocator + Copy>(alloc: A, directed: &Directed<A>) -> Result<TextParts<A>, NoMemory>
    requires closes { Closes directed.now }
    requires in_limit { All (λ d. AreInLimit d.from d.to) directed.now }
    ensures { IfOk result (λ text. (op : Op) (counted : List Counted) → AreLayers counted → AreResultEdges op counted directed.now → IsResultText op counted text) }
{
    let line = line_along(alloc, directed)?;
    TextParts::one(alloc, line)
}

/// The same line, ring by ring where there are many edges, by several workers at once.
pub fn line_by_workers<A: Allocator + Copy + Send + Sync, R: Threads + Sync>(
    rt: &R,
    alloc: A,
    workers: u32,
    directed: Directed<A>,
) -> Result<TextParts<A>, NoMemory>
    requires closes { Closes directed }
    requires in_limit { All (λ d. AreInLimit d.from d.to) directed }
    ensures { IfOk result (λ text. (op : Op) (counted : List Counted) → AreLayers counted → AreResultEdges op counted directed → IsResultText op counted text) }
{
    if directed.edges().len() < worth::DIRECTED {
        return one_line(alloc, &directed);
    }
    let parts = worth::parts(workers, directed.edges().len(), worth::DIRECTED);
    let rings = rings_in_parts(rt, alloc, parts, directed)?;
    line_in_parts(rt, alloc, parts, &rings)
}
