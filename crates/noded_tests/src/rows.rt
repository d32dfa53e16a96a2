//! Edges by rows of numbers, and the noding test on them.

ghost use Rattle.std.specs.Prelude.{◌+◌, ◌<◌, All, AllPairs, IfOk, IfSome, IsTrue};
ghost use Rattle.geom.specs.Box.{IsInBox};
ghost use Rattle.geom.specs.EdgeOrder.{IsEdgeBefore};
ghost use Rattle.geom.specs.Limit.{AreInLimit};

use geom::{Counted, Edge, Fault, NoMemory, Pt, Rect};
use linking::Rounded;
use noding_test::{Noded, noded};
use std::alloc::Allocator;
use std::sync::Wait;
use std::thread::Threads;
use tile_book::Gate;
use tiling::Grid;

/// The ends of an edge, and its counts in both layers.
pub type Row = (i32, i32, i32, i32, u32, u32);

/// The edge of a row, if it lies in the bounds and in the coordinate limit.
fn edge_in(bounds: &Rect, row: Row) -> Option<Edge>
    ensures { IfSome result (λ e. AreInLimit e.p e.q × IsInBox bounds.now.lo bounds.now.hi e.p × IsInBox bounds.now.lo bounds.now.hi e.q) }
{
    let p = Pt { x: row.0, y: row.1 };
    let q = Pt { x: row.2, y: row.3 };
    if p.is_in_limit() && q.is_in_limit() && bounds.holds(p) && bounds.holds(q) {
        Edge::between(p, q)
    } else {
        None
    }
}

/// The edge of a row with its counts, if it has one in the first layer.
fn counted_edge(bounds: &Rect, row: Row) -> Option<Counted>
    ensures inside { IfSome result (λ c. AreInLimit c.edge.p c.edge.q × IsInBox bounds.now.lo bounds.now.hi c.edge.p × IsInBox bounds.now.lo bounds.now.hi c.edge.q) }
    ensures counted { IfSome result (λ c. 0 < c.in_a + c.in_b) }
{
    if row.4 == 0 {
        return None;
    }
    match edge_in(bounds, row) {
        Some(edge) => Some(Counted {
            edge,
            in_a: row.4,
            in_b: row.5,
        }),
        None => None,
    }
}

/// Whether all of the edges come before one.
fn come_before(counted: &[Counted], edge: &Edge) -> bool
    ensures { IsTrue result → All (λ c. IsEdgeBefore c.edge edge.now) counted.now }
{
    for item in counted {
        if item.edge >= *edge {
            return false;
        }
    }
    true
}

/// The edges of the rows, if they are ascending, in the bounds and counted.
fn counted_in<A: Allocator>(
    alloc: A,
    bounds: &Rect,
    rows: &[Row],
) -> Result<Vec<Counted, A>, NoMemory>
    ensures inside { IfOk result (λ v. All (λ c. AreInLimit c.edge.p c.edge.q × IsInBox bounds.now.lo bounds.now.hi c.edge.p × IsInBox bounds.now.lo bounds.now.hi c.edge.q) v.items) }
    ensures counted { IfOk result (λ v. All (λ c. 0 < c.in_a + c.in_b) v.items) }
    ensures ascending { IfOk result (λ v. AllPairs (λ c d. IsEdgeBefore c.edge d.edge) v.items) }
{
    let mut counted = Vec::new(alloc);
    for row in rows {
        let Some(one) = counted_edge(bounds, *row) else {
            return Err(NoMemory);
        };
        if !come_before(&counted, &one.edge) {
            return Err(NoMemory);
        }
        counted.push(one)?;
    }
    Ok(counted)
}

/// What the noding test answers of the edges of the rows, by two workers over tiles of side 16 of a box. Rows that aren't
/// ascending, in the box and counted give no answer.
pub fn tested<A: Allocator + Copy + Send + Sync, G: Gate + Sync, R: Threads + Wait + Sync>(
    rt: &R,
    alloc: A,
    corners: (Pt, Pt),
    rows: &[Row],
    gate: &G,
) -> Result<Result<Noded<A>, Fault>, NoMemory>
    ensures { IfOk result (λ r. IfOk r (λ n. All (λ c. AreInLimit c.edge.p c.edge.q) n.edges.items)) }
{
    let bounds = Rect::spanned_by(corners.0, corners.1);
    if !bounds.lo.is_in_limit() || !bounds.hi.is_in_limit() {
        return Err(NoMemory);
    }
    let Ok(grid) = Grid::new(Some(bounds), 16) else {
        return Err(NoMemory);
    };
    let counted = counted_in(alloc, &bounds, rows)?;
    let rounded = Rounded::of_edges(alloc, &counted)?;
    Ok(noded(rt, alloc, rounded, &grid, 2, gate))
}
