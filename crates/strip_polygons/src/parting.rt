//! The directed edges that are closed in a range of strips, and those that are open.
//!
//! 1. Ties put the edges into classes. Those of the edges that go over a border of the range are open (`open_roots`, `open_flags`).
//! 2. An edge of another class is closed, and an open one is kept if it begins in the range (`put`).

ghost use Rattle.std.specs.Prelude.{◌≡◌, ◌↔◌, ◌<◌, true, false, All, AllPairs, IfOk, OnOk, length, map, slice_index_or};
ghost use Rattle.geom.specs.Directed.{AreDirected, IsDirectedBefore};
ghost use Rattle.geom.specs.Limit.{AreInLimit};
ghost use Rattle.geom.specs.NodedEdges.{AreNodedEdges};
ghost use Rattle.parts_law.specs.Ties.{AreParted, BeginsFrom, GoesOver};
ghost use Rattle.strip_polygons.specs.Parting.{AreOpenRoots, IsAddedIf, TellOpen};

use crate::classes::classes_of;
use crate::ties::ties_of;
use geom::{DirectedEdge, Edge, NoMemory};
use std::alloc::Allocator;
use strips_law::strip_at;

/// The edges of a range of strips that are closed there, and those open ones that begin there.
#[derive(Drop)]
pub struct Parts<A: Allocator> {
    pub closed: Vec<DirectedEdge, A>,
    pub open: Vec<DirectedEdge, A>,
}

/// Whether an edge comes from before the strips, or goes on behind them.
fn goes_over(cuts: &[i32], from: usize, past: usize, edge: DirectedEdge) -> bool
    ensures { (result ≡ true) ↔ GoesOver cuts.now from past edge }
{
    match Edge::between(edge.from, edge.to) {
        Some(along) => strip_at(cuts, along.p) < from || past <= strip_at(cuts, along.q),
        None => false,
    }
}

/// Whether an edge has its lesser end in the strip or in a later one.
fn begins_from(cuts: &[i32], from: usize, edge: DirectedEdge) -> bool
    ensures { (result ≡ true) ↔ BeginsFrom cuts.now from edge }
{
    match Edge::between(edge.from, edge.to) {
        Some(along) => from <= strip_at(cuts, along.p),
        None => false,
    }
}

/// For each place whether it is the root of an edge that goes over a border.
fn open_roots<A: Allocator>(
    alloc: A,
    cuts: &[i32],
    from: usize,
    past: usize,
    known: &[DirectedEdge],
    roots: &[usize],
) -> Result<Vec<bool, A>, NoMemory>
    requires same_length { length roots.now ≡ length known.now }
    requires inside { All (λ r. r < length known.now) roots.now }
    ensures { IfOk result (λ flags. AreOpenRoots cuts.now from past known.now roots.now (length known.now) flags.items) }
{
    let mut flags = vec![in alloc; false; known.len()]?;
    for place in 0..known.len() {
        if goes_over(cuts, from, past, known[place]) {
            flags[roots[place]] = true;
        }
    }
    Ok(flags)
}

/// What flags tell of the root of each.
fn flags_of_roots<A: Allocator>(
    alloc: A,
    flags: &[bool],
    roots: &[usize],
) -> Result<Vec<bool, A>, NoMemory>
    requires { All (λ r. r < length flags.now) roots.now }
    ensures { IfOk result (λ told. told.items ≡ map (λ r. slice_index_or flags.now r false) roots.now) }
{
    let mut told = Vec::with_capacity(alloc, roots.len())?;
    for root in roots {
        told.push(flags[*root])?;
    }
    Ok(told)
}

/// For each edge whether it is open.
fn open_flags<A: Allocator + Copy>(
    alloc: A,
    cuts: &[i32],
    from: usize,
    past: usize,
    known: &[DirectedEdge],
) -> Result<Vec<bool, A>, NoMemory>
    requires ascending { AllPairs IsDirectedBefore known.now }
    requires in_limit { All (λ d. AreInLimit d.from d.to) known.now }
    ensures same_length { IfOk result (λ flags. length flags.items ≡ length known.now) }
    ensures open { AreDirected known.now → AreNodedEdges known.now → IfOk result (λ flags. TellOpen cuts.now from past known.now flags.items) }
{
    let links = ties_of(alloc, known)?;
    let roots = classes_of(alloc, known.len(), &links)?;
    let flags = open_roots(alloc, cuts, from, past, known, &roots)?;
    flags_of_roots(alloc, &flags, &roots)
}

/// Puts an edge to the closed ones, or if it is open to those that wait, where it begins in the strips.
fn put<A: Allocator>(
    closed: &mut Vec<DirectedEdge, A>,
    waiting: &mut Vec<DirectedEdge, A>,
    cuts: &[i32],
    from: usize,
    edge: DirectedEdge,
    is_open: bool,
) -> Result<(), NoMemory>
    ensures closed { OnOk result (IsAddedIf (is_open ≡ false) edge closed.old.items closed.new.items) }
    ensures open { OnOk result (IsAddedIf ((is_open ≡ true) × BeginsFrom cuts.now from edge) edge waiting.old.items waiting.new.items) }
{
    if !is_open {
        closed.push(edge)?;
    } else if begins_from(cuts, from, edge) {
        waiting.push(edge)?;
    }
    Ok(())
}

/// Parts the directed edges that the strips from one to before another one know, which ascend and meet only at ends.
pub fn parted<A: Allocator + Copy>(
    alloc: A,
    cuts: &[i32],
    from: usize,
    past: usize,
    known: &[DirectedEdge],
) -> Result<Parts<A>, NoMemory>
    requires ascending { AllPairs IsDirectedBefore known.now }
    requires in_limit { All (λ d. AreInLimit d.from d.to) known.now }
    ensures closed_ascends { IfOk result (λ found. AllPairs IsDirectedBefore found.closed.items) }
    ensures closed_in { IfOk result (λ found. All (λ d. AreInLimit d.from d.to) found.closed.items) }
    ensures open_in { IfOk result (λ found. All (λ d. AreInLimit d.from d.to) found.open.items) }
    ensures parted { AreDirected known.now → AreNodedEdges known.now → IfOk result (λ found. AreParted cuts.now from past known.now found.closed.items found.open.items) }
{
    let flags = open_flags(alloc, cuts, from, past, known)?;
    let mut closed = Vec::new(alloc);
    let mut open = Vec::new(alloc);
    for place in 0..known.len() {
        put(
            &mut closed,
            &mut open,
            cuts,
            from,
            known[place],
            flags[place],
        )?;
    }
    Ok(Parts { closed, open })
}
