//! The edges that begin at one vertex, by turning from the steepest to the lowest:
//! 1. They are taken as they are listed (`list_spokes`) and sorted by exact determinants (`sort_by_steepness`). Of two noded edges
//!    that begin at one vertex one is steeper, so they have one order (`by_turn`).
//! 2. The first one has on its left the parities under the lowest edge above the vertex, and each further one those beyond the one
//!    before (`label`).
//! 3. Those that are not upright stand from there on, from the lowest to the steepest (`stand`).
//! 4. Where no labels are wanted, the first one has that lowest edge beside it, and each further one the one before (`list_beside`).

ghost use Rattle.std.specs.Prelude.{◌≡◌, ◌≤◌, ◌∷◌, [], if◌then◌else◌, int_lt, ◌++◌, All, Contains, List, OnOk, length, map, reverse, slice_range};
ghost use Rattle.geom.specs.Limit.{AreInLimit};
ghost use Rattle.geom.specs.Rounded.{edges_of};
ghost use Rattle.geom.specs.declared.edge.Counted.{Counted};
ghost use Rattle.points_law.specs.Law.{AreLayers};
ghost use Rattle.label_sweep.specs.Labels.{labels_from, standing_of, stands_from};
ghost use Rattle.label_sweep.specs.Status.{AreSpokes, IsRangeAt};
ghost use Rattle.label_sweep.specs.Swept.{besides_from};

use crate::parities::Parities;
use crate::place::sort_by_steepness;
use crate::standing::{LabelledEdge, Spoke, StandingEdge};
use crate::swept::SweptEdge;
use geom::{Counted, Edge, NoMemory, Pt};
use std::alloc::Allocator;

/// The edges from one number to another, as they are listed.
fn list_spokes<A: Allocator>(
    spokes: &mut Vec<Spoke, A>,
    counted: &[Counted],
    from: usize,
    next: usize,
) -> Result<(), NoMemory>
    requires in_limit { All (λ e. AreInLimit e.p e.q) (edges_of (slice_range counted.now from next)) }
    requires order { from ≤ next }
    requires within { next ≤ length counted.now }
    ensures { OnOk result (map (λ s. s.one) spokes.new.items ≡ slice_range counted.now from next) }
{
    spokes.clear();
    for one in &counted[from..next] {
        spokes.push(Spoke { one: *one })?;
    }
    Ok(())
}

/// The edges that begin at a vertex, those from one number to another, the steepest first.
pub fn by_turn<A: Allocator>(
    spokes: &mut Vec<Spoke, A>,
    own: &[Counted],
    from: usize,
    next: usize,
    v: Pt,
) -> Result<(), NoMemory>
    requires in_limit { All (λ e. AreInLimit e.p e.q) (edges_of (slice_range own.now from next)) }
    requires order { from ≤ next }
    requires within { next ≤ length own.now }
    ensures spokes { (all : List Counted) → AreLayers all → IsRangeAt all own.now v from next → OnOk result (AreSpokes (edges_of all) v (map (λ s. s.one.edge) spokes.new.items)) }
    ensures inside { OnOk result (All (λ s. Contains (slice_range own.now from next) s.one) spokes.new.items) }
{
    list_spokes(spokes, own, from, next)?;
    sort_by_steepness(spokes);
    Ok(())
}

/// Labels the edges that begin at one vertex, the steepest first, from the parities on the left of the first.
pub fn label<A: Allocator>(
    spokes: &[Spoke],
    left: Parities,
    labelled: &mut Vec<LabelledEdge, A>,
) -> Result<(), NoMemory>
    ensures { OnOk result (labelled.new.items ≡ labelled.old.items ++ labels_from left spokes.now) }
{
    let mut at = left;
    for spoke in spokes {
        let beyond = at.beyond(&spoke.one);
        labelled.push(LabelledEdge {
            edge: spoke.one.edge,
            left: at,
            right: beyond,
        })?;
        at = beyond;
    }
    Ok(())
}

/// Lists the edges that begin at one vertex, the steepest first, each with the one beside it, from that beside the first.
pub fn list_beside<A: Allocator>(
    spokes: &[Spoke],
    first: Option<Edge>,
    swept: &mut Vec<SweptEdge, A>,
) -> Result<(), NoMemory>
    ensures { OnOk result (swept.new.items ≡ swept.old.items ++ besides_from first spokes.now) }
{
    let mut beside = first;
    for spoke in spokes {
        let edge = spoke.one.edge;
        swept.push(SweptEdge { edge, beside })?;
        beside = Some(edge);
    }
    Ok(())
}

/// Adds an edge that is not upright.
fn add_standing<A: Allocator>(
    fresh: &mut Vec<StandingEdge, A>,
    spoke: Spoke,
    under: Parities,
) -> Result<(), NoMemory>
    ensures { OnOk result (fresh.new.items ≡ fresh.old.items ++ (if int_lt spoke.one.edge.p.x spoke.one.edge.q.x then standing_of spoke under ∷ [] else [])) }
{
    if spoke.one.edge.p.x < spoke.one.edge.q.x {
        fresh.push(StandingEdge { spoke, under })?;
    }
    Ok(())
}

/// Those of the edges that begin at one vertex that are not upright, the lowest first.
pub fn stand<A: Allocator>(
    spokes: &[Spoke],
    left: Parities,
    fresh: &mut Vec<StandingEdge, A>,
) -> Result<(), NoMemory>
    ensures { OnOk result (fresh.new.items ≡ reverse (stands_from left spokes.now)) }
{
    fresh.clear();
    let mut at = left;
    for spoke in spokes {
        at = at.beyond(&spoke.one);
        add_standing(fresh, *spoke, at)?;
    }
    fresh.reverse();
    Ok(())
}
