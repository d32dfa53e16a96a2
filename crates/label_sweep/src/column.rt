//! The edges that cross a column, ordered by their heights there, without a sweep of what lies before it:
//! 1. The edges that begin on the left of the column's right border and don't end there are listed (`list_crossing`), each with its
//!    height in the middle of the column (`CrossingEdge::at`).
//! 2. They are sorted by exact fractions, the highest first (`crossing`). Noded edges cross a column at different heights.

ghost use Rattle.std.specs.Prelude.{◌≡◌, ◌<ℤ◌, ◌≤ℤ◌, ◌*ℤ◌, ◌++◌, [], ◌∷◌, if◌then◌else◌, All, Contains, IfOk, IsPermutation, IsSortedBy, List, OnOk, filter, map, pos};
ghost use Rattle.std.specs.Ordering.{is_lt};
ghost use Rattle.geom.specs.Limit.{AreInLimit};
ghost use Rattle.geom.specs.Rounded.{edges_of};
ghost use Rattle.geom.specs.declared.edge.Counted.{Counted};
ghost use Rattle.points_law.specs.Law.{AreLayers};
ghost use Rattle.label_sweep.specs.Column.{AreCrossing, HaveCrossing};
ghost use Rattle.label_sweep.specs.Heights.{IsMeasured, crosses, is_above};

use crate::standing::Spoke;
use geom::{Counted, NoMemory, Pt, wide_product};
use std::alloc::Allocator;
use std::cmp::Ordering;

/// An edge that crosses a column, its run, and its height in the middle of the column: twice it, times the run.
#[derive(Clone, Copy, Debug)]
struct CrossingEdge {
    spoke: Spoke,
    height: i64,
    run: i64,
    ghost sloping: { pos 0 <ℤ run },
}

impl CrossingEdge {
    /// An edge that crosses the column on the left of a border.
    fn at(spoke: Spoke, border: i32) -> CrossingEdge
        requires begun { spoke.one.edge.p.x <ℤ border }
        requires lasts { border ≤ℤ spoke.one.edge.q.x }
        ensures spoke { result.spoke ≡ spoke }
        ensures measured { IsMeasured border result.spoke.one.edge result.run result.height }
    {
        let edge = spoke.one.edge;
        let along = edge.p.vector_to(edge.q);
        let from_border = Pt { x: border, y: 0 }.vector_to(edge.p);
        let at_border = along.determinant(from_border);
        CrossingEdge {
            spoke,
            height: 2 * at_border - along.dy,
            run: along.dx,
        }
    }
}

/// By height, the highest first.
fn by_height(one: &CrossingEdge, other: &CrossingEdge) -> Ordering
    ensures { is_lt result ≡ is_above one.now.height one.now.run other.now.height other.now.run }
{
    if wide_product(one.run, other.height) < wide_product(other.run, one.height) {
        Ordering::Less
    } else {
        Ordering::Greater
    }
}

/// Puts edges in their order by height.
fn sort_by_height<A: Allocator>(crossings: &mut Vec<CrossingEdge, A>)
    ensures permutation { IsPermutation crossings.old.items crossings.new.items }
    ensures sorted { IsSortedBy (λ s t. is_above s.height s.run t.height t.run) crossings.new.items }
{
    crossings.sort_unstable_by(|one, other| by_height(one, other));
}

/// Adds an edge if it crosses the column on the left of a border.
fn add_crossing<A: Allocator>(
    crossings: &mut Vec<CrossingEdge, A>,
    one: &Counted,
    border: i32,
) -> Result<(), NoMemory>
    requires in_limit { AreInLimit one.now.edge.p one.now.edge.q }
    ensures added { OnOk result (map (λ c. c.spoke.one) crossings.new.items ≡ map (λ c. c.spoke.one) crossings.old.items ++ (if crosses border one.now then one.now ∷ [] else [])) }
    ensures measured { OnOk result (All (λ c. IsMeasured border c.spoke.one.edge c.run c.height) crossings.old.items → All (λ c. IsMeasured border c.spoke.one.edge c.run c.height) crossings.new.items) }
{
    if one.edge.p.x < border && border <= one.edge.q.x {
        crossings.push(CrossingEdge::at(Spoke { one: *one }, border))?;
    }
    Ok(())
}

/// The edges that cross the column on the left of a border, as they are listed.
fn list_crossing<A: Allocator + Copy>(
    alloc: A,
    counted: &[Counted],
    border: i32,
) -> Result<Vec<CrossingEdge, A>, NoMemory>
    requires { All (λ e. AreInLimit e.p e.q) (edges_of counted.now) }
    ensures listed { IfOk result (λ crossings. map (λ c. c.spoke.one) crossings.items ≡ filter (crosses border) counted.now) }
    ensures measured { IfOk result (λ crossings. All (λ c. IsMeasured border c.spoke.one.edge c.run c.height) crossings.items) }
{
    let mut crossings = Vec::new(alloc);
    for one in counted {
        add_crossing(&mut crossings, one, border)?;
    }
    Ok(crossings)
}

/// The edges, without their heights.
fn spokes_of<A: Allocator + Copy>(
    alloc: A,
    crossings: &[CrossingEdge],
) -> Result<Vec<Spoke, A>, NoMemory>
    ensures { IfOk result (λ spokes. spokes.items ≡ map (λ c. c.spoke) crossings.now) }
{
    let mut spokes = Vec::with_capacity(alloc, crossings.len())?;
    for crossing in crossings {
        spokes.push(crossing.spoke)?;
    }
    Ok(spokes)
}

/// The edges that cross the column on the left of a border, the highest first: of edges that have them all.
pub fn crossing<A: Allocator + Copy>(
    alloc: A,
    counted: &[Counted],
    border: i32,
) -> Result<Vec<Spoke, A>, NoMemory>
    requires { All (λ e. AreInLimit e.p e.q) (edges_of counted.now) }
    ensures crossing { (all : List Counted) → AreLayers all → HaveCrossing all border counted.now → IfOk result (λ spokes. AreCrossing (edges_of all) border (map (λ s. s.one.edge) spokes.items)) }
    ensures inside { IfOk result (λ spokes. All (λ s. Contains counted.now s.one) spokes.items) }
{
    let mut crossings = list_crossing(alloc, counted, border)?;
    sort_by_height(&mut crossings);
    spokes_of(alloc, &crossings)
}
