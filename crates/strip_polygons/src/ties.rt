//! The ties of directed edges, as links between their places.
//!
//! 1. Edges that leave one vertex stand behind one another: each is linked to the one before it (`link_leaving`).
//! 2. Each edge is linked to the first one that leaves its end, if there is one (`link_following`).
//! 3. Each edge that goes to the right is linked to the nearest one below its start, if that goes to the right (`link_under`).

ghost use Rattle.std.specs.Prelude.{◌≡◌, ◌<◌, ◌≤◌, ℕ, true, false, All, AllPairs, IfOk, OnOk, length};
ghost use Rattle.geom.specs.Directed.{AreDirected, IsDirectedBefore};
ghost use Rattle.geom.specs.Limit.{AreInLimit};
ghost use Rattle.geom.specs.NodedEdges.{AreNodedEdges};
ghost use Rattle.parts_law.specs.Bounds.{GoesRight};
ghost use Rattle.polygonize.specs.Below.{IsEdgeBelow};
ghost use Rattle.polygonize.specs.Clockwise.{less};
ghost use Rattle.polygonize.specs.Next.{edge_at, ring_of};
ghost use Rattle.strip_polygons.specs.Classes.{AreLinksBelow};
ghost use Rattle.strip_polygons.specs.Parting.{AddsTies, AreRightward, AreTies, LinkFollowing, LinkLeaving, LinkUnder, LinksLower};

use crate::classes::Link;
use geom::{DirectedEdge, NoMemory, Pt};
use polygonize::edges_below;
use std::alloc::Allocator;

/// Links edges that leave one vertex, each to the one before it.
fn link_leaving<A: Allocator>(
    links: &mut Vec<Link, A>,
    directed: &[DirectedEdge],
) -> Result<(), NoMemory>
    ensures added { OnOk result (AddsTies directed.now links.old.items links.new.items) }
    ensures each { OnOk result (LinkLeaving directed.now (length directed.now) links.new.items) }
{
    for place in 1..directed.len() {
        if directed[place - 1].from == directed[place].from {
            links.push(Link {
                first: place - 1,
                second: place,
            })?;
        }
    }
    Ok(())
}

/// Whether an edge leaves a lesser vertex.
fn leaves_lesser(edge: DirectedEdge, v: Pt) -> bool
    ensures { result ≡ less edge.from v }
{
    edge.from < v
}

/// The place of the first edge that leaves no lesser vertex.
fn first_leaving(directed: &[DirectedEdge], v: Pt) -> usize
    requires { AllPairs IsDirectedBefore directed.now }
    ensures inside { result ≤ length directed.now }
    ensures before { (k : ℕ) → k < result → less (edge_at directed.now k).from v ≡ true }
    ensures from { (k : ℕ) → result ≤ k → k < length directed.now → less (edge_at directed.now k).from v ≡ false }
{
    directed.partition_point(|d| leaves_lesser(*d, v))
}

/// Links each edge to the first one that leaves its end.
fn link_following<A: Allocator>(
    links: &mut Vec<Link, A>,
    directed: &[DirectedEdge],
) -> Result<(), NoMemory>
    requires { AllPairs IsDirectedBefore directed.now }
    ensures added { OnOk result (AddsTies directed.now links.old.items links.new.items) }
    ensures each { OnOk result (LinkFollowing directed.now (length directed.now) links.new.items) }
{
    for place in 0..directed.len() {
        let next = first_leaving(directed, directed[place].to);
        if next < directed.len() && directed[next].from == directed[place].to {
            links.push(Link {
                first: place,
                second: next,
            })?;
        }
    }
    Ok(())
}

/// Whether an edge goes to the right.
fn goes_right(edge: DirectedEdge) -> bool
    ensures yes { result ≡ true → GoesRight edge }
    ensures no { result ≡ false → ¬ (GoesRight edge) }
{
    edge.from < edge.to
}

/// The places of the edges that go to the right.
fn rightward<A: Allocator>(alloc: A, directed: &[DirectedEdge]) -> Result<Vec<usize, A>, NoMemory>
    ensures { IfOk result (λ places. AreRightward directed.now (length directed.now) places.items) }
{
    let mut places = Vec::new(alloc);
    for place in 0..directed.len() {
        if goes_right(directed[place]) {
            places.push(place)?;
        }
    }
    Ok(places)
}

/// The starts of the edges at places.
fn starts_of<A: Allocator>(
    alloc: A,
    directed: &[DirectedEdge],
    places: &[usize],
) -> Result<Vec<Pt, A>, NoMemory>
    requires { All (λ k. k < length directed.now) places.now }
    ensures { IfOk result (λ starts. starts.items ≡ ring_of directed.now places.now) }
{
    let mut starts = Vec::with_capacity(alloc, places.len())?;
    for place in places {
        starts.push(directed[*place].from)?;
    }
    Ok(starts)
}

/// Links an edge that goes to the right to the one below its start, if that goes to the right.
fn link_lower<A: Allocator>(
    links: &mut Vec<Link, A>,
    directed: &[DirectedEdge],
    place: usize,
    below: Option<usize>,
) -> Result<(), NoMemory>
    requires inside { place < length directed.now }
    requires rightward { GoesRight (edge_at directed.now place) }
    requires below { IsEdgeBelow directed.now (edge_at directed.now place).from below }
    ensures added { OnOk result (AddsTies directed.now links.old.items links.new.items) }
    ensures linked { OnOk result (LinksLower directed.now links.new.items place) }
{
    match below {
        Some(lower) if goes_right(directed[lower]) => links.push(Link {
            first: lower,
            second: place,
        })?,
        _ => {}
    }
    Ok(())
}

/// Links each edge that goes to the right to the nearest one below its start, if that goes to the right.
fn link_under<A: Allocator + Copy>(
    alloc: A,
    links: &mut Vec<Link, A>,
    directed: &[DirectedEdge],
) -> Result<(), NoMemory>
    requires ascending { AllPairs IsDirectedBefore directed.now }
    requires in_limit { All (λ d. AreInLimit d.from d.to) directed.now }
    ensures added { OnOk result (AddsTies directed.now links.old.items links.new.items) }
    ensures each { OnOk result (LinkUnder directed.now links.new.items) }
{
    let places = rightward(alloc, directed)?;
    let starts = starts_of(alloc, directed, &places)?;
    let below = edges_below(alloc, directed, &starts)?;
    for number in 0..places.len() {
        link_lower(links, directed, places[number], below[number])?;
    }
    Ok(())
}

/// The ties of directed edges that meet only at ends.
pub fn ties_of<A: Allocator + Copy>(
    alloc: A,
    directed: &[DirectedEdge],
) -> Result<Vec<Link, A>, NoMemory>
    requires ascending { AllPairs IsDirectedBefore directed.now }
    requires in_limit { All (λ d. AreInLimit d.from d.to) directed.now }
    ensures inside { IfOk result (λ links. AreLinksBelow (length directed.now) links.items) }
    ensures ties { AreDirected directed.now → AreNodedEdges directed.now → IfOk result (λ links. AreTies directed.now links.items) }
{
    let mut links = Vec::new(alloc);
    link_leaving(&mut links, directed)?;
    link_following(&mut links, directed)?;
    link_under(alloc, &mut links, directed)?;
    Ok(links)
}
