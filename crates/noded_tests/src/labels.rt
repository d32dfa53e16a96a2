//! Strips and labels of small lists of edges, against values worked out by hand from the definition, and labels of many
//! squares against a plain loop.

ghost use Rattle.std.specs.Prelude.{All, IfOk};
ghost use Rattle.geom.specs.Limit.{AreInLimit};
ghost use Rattle.face_label.specs.Strip.{IsSetOf};

use crate::plain::plain_labels;
use crate::rows::{Row, tested};
use face_label::{StripSet, directions, labels};
use geom::{Counted, DirectedEdge, NoMemory, Op, Pt};
use noding_test::Noded;
use std::alloc::{Allocator, Global};
use std::sync::Wait;
use std::thread::Threads;
use tile_book::OpenGate;

/// The start and the end of a directed edge.
type Way = (i32, i32, i32, i32);

/// Whether an edge bounds the result from its first end to its second, and back.
type Directions = (bool, bool);

/// Edges, an operation, what is told of each edge, and the edges of the result.
pub type Case = (&'static [Row], Op, &'static [Directions], &'static [Way]);

/// The bow tie with a doubled edge: strips of the columns 0 and 1.
const TIE: &[Row] = &[
    (0, 0, 1, 0, 1, 0),
    (0, 0, 1, 1, 1, 0),
    (0, 1, 1, 1, 2, 0),
    (1, 0, 1, 1, 1, 0),
];

/// One square in both layers: strips of the columns 0 to 4.
const SQUARE: &[Row] = &[
    (0, 0, 0, 4, 1, 1),
    (0, 0, 4, 0, 1, 1),
    (0, 4, 4, 4, 1, 1),
    (4, 0, 4, 4, 1, 1),
];

/// None of four edges bounds the result.
const NEITHER: &[Directions] = &[(false, false); 4];

pub const CASES: [Case; 5] = [
    (
        TIE,
        Op::Union,
        &[(true, false), (false, true), (false, false), (true, false)],
        &[(0, 0, 1, 0), (1, 0, 1, 1), (1, 1, 0, 0)],
    ),
    (TIE, Op::Intersection, NEITHER, &[]),
    (
        SQUARE,
        Op::Union,
        &[(false, true), (true, false), (false, true), (true, false)],
        &[(0, 0, 4, 0), (0, 4, 0, 0), (4, 0, 4, 4), (4, 4, 0, 4)],
    ),
    (SQUARE, Op::SymDifference, NEITHER, &[]),
    // no edges, so no strips
    (&[], Op::Union, &[], &[]),
];

/// The corners of a box that has all edges.
const CORNERS: (Pt, Pt) = (Pt { x: 0, y: 0 }, Pt { x: 200, y: 200 });

/// The edges of the rows, where they are noded.
pub fn noded_of<A: Allocator + Copy + Send + Sync, R: Threads + Wait + Sync>(
    rt: &R,
    alloc: A,
    rows: &[Row],
) -> Result<Noded<A>, NoMemory>
    ensures { IfOk result (λ n. All (λ c. AreInLimit c.edge.p c.edge.q) n.edges.items) }
{
    match tested(rt, alloc, CORNERS, rows, &OpenGate)? {
        Ok(noded) => Ok(noded),
        Err(_) => Err(NoMemory),
    }
}

/// Whether the labels are these directed edges.
fn are_labels<A: Allocator + Copy + Sync + Send, B: Allocator, R: Threads + Wait + Sync>(
    rt: &R,
    alloc: A,
    noded: &Noded<B>,
    op: Op,
    ways: &[Way],
) -> Result<bool, NoMemory>
    requires { All (λ c. AreInLimit c.edge.p c.edge.q) noded.now.edges.items }
{
    let directed = labels(rt, alloc, noded, op)?;
    Ok(are_ways(directed.edges(), ways))
}

fn are_ways(edges: &[DirectedEdge], ways: &[Way]) -> bool {
    for (edge, way) in edges.iter().zip(ways) {
        if !is_way(*edge, *way) {
            return false;
        }
    }
    edges.len() == ways.len()
}

fn is_way(edge: DirectedEdge, way: Way) -> bool {
    edge.from == Pt { x: way.0, y: way.1 } && edge.to == Pt { x: way.2, y: way.3 }
}

/// Whether this is told of each of the edges that the strips are of.
pub fn are_told<A: Allocator>(
    strips: &StripSet<A>,
    counted: &[Counted],
    op: Op,
    told: &[Directions],
) -> bool
    requires { IsSetOf counted.now strips.now }
{
    if counted.len() != told.len() {
        return false;
    }
    for i in 0..counted.len() {
        if directions(strips, counted[i].edge, op) != told[i] {
            return false;
        }
    }
    true
}

/// Whether the strips of noded edges tell this of each of them.
fn are_striped<A: Allocator + Copy, B: Allocator>(
    alloc: A,
    noded: &Noded<B>,
    op: Op,
    told: &[Directions],
) -> Result<bool, NoMemory>
    requires { All (λ c. AreInLimit c.edge.p c.edge.q) noded.now.edges.items }
{
    let strips = StripSet::build(alloc, noded)?;
    Ok(are_told(&strips, noded.edges.as_slice(), op, told))
}

/// Whether the strips and then the labels of a case are those that it names, with memory from this allocator.
pub fn are_right<A: Allocator + Copy + Sync + Send, B: Allocator, R: Threads + Wait + Sync>(
    rt: &R,
    alloc: A,
    noded: &Noded<B>,
    case: Case,
) -> Result<bool, NoMemory>
    requires { All (λ c. AreInLimit c.edge.p c.edge.q) noded.now.edges.items }
{
    let (_, op, told, ways) = case;
    let striped = are_striped(alloc, noded, op, told)?;
    let labelled = are_labels(rt, alloc, noded, op, ways)?;
    Ok(striped & labelled)
}

/// Whether they are with ample memory.
fn is_right<R: Threads + Wait + Sync>(rt: &R, alloc: Global, case: Case) -> Result<bool, NoMemory> {
    let noded = noded_of(rt, alloc, case.0)?;
    are_right(rt, alloc, &noded, case)
}

#[test]
fn small_lists(rt: HostRuntime) {
    for case in CASES {
        assert_eq!(rt; is_right(&rt, rt.alloc(), case), Ok(true), "{case:?}");
    }
}

/// Adds a square of side 3, and its edges directed counter-clockwise.
fn add_square<A: Allocator>(
    rows: &mut Vec<Row, A>,
    ways: &mut Vec<DirectedEdge, A>,
    column: u16,
    row: u16,
) -> Result<(), NoMemory> {
    let (left, bottom) = (i32::from(column) * 5, i32::from(row) * 5);
    let (right, top) = (left + 3, bottom + 3);
    rows.extend_from_slice(&[
        (left, bottom, left, top, 1, 0),
        (left, bottom, right, bottom, 1, 0),
        (left, top, right, top, 1, 0),
        (right, bottom, right, top, 1, 0),
    ])?;
    let a = Pt { x: left, y: bottom };
    let b = Pt {
        x: right,
        y: bottom,
    };
    let c = Pt { x: right, y: top };
    let d = Pt { x: left, y: top };
    ways.extend_from_slice(&[
        DirectedEdge { from: a, to: b },
        DirectedEdge { from: b, to: c },
        DirectedEdge { from: c, to: d },
        DirectedEdge { from: d, to: a },
    ])?;
    Ok(())
}

/// Adds a thousand separate squares, and their edges, both in order.
fn add_squares<A: Allocator>(
    rows: &mut Vec<Row, A>,
    ways: &mut Vec<DirectedEdge, A>,
) -> Result<(), NoMemory> {
    for number in 0..1000u16 {
        add_square(rows, ways, number / 25, number % 25)?;
    }
    rows.sort_unstable();
    ways.sort_unstable();
    Ok(())
}

/// Whether the labels of noded edges are these, and those of a plain loop over all edges.
fn labels_agree<A: Allocator + Copy + Sync + Send, R: Threads + Wait + Sync>(
    rt: &R,
    alloc: A,
    noded: &Noded<A>,
    ways: &[DirectedEdge],
) -> Result<bool, NoMemory>
    requires { All (λ c. AreInLimit c.edge.p c.edge.q) noded.now.edges.items }
{
    let directed = labels(rt, alloc, noded, Op::Union)?;
    let plain = plain_labels(alloc, noded.edges.as_slice(), Op::Union)?;
    Ok(directed.edges() == ways && plain.as_slice() == ways)
}

/// Whether the labels of the squares are their edges, each with its square on the left, and those of a plain loop.
fn squares_agree<A: Allocator + Copy + Sync + Send, R: Threads + Wait + Sync>(
    rt: &R,
    alloc: A,
) -> Result<bool, NoMemory> {
    let mut rows = Vec::new(alloc);
    let mut ways = Vec::new(alloc);
    add_squares(&mut rows, &mut ways)?;
    let noded = noded_of(rt, alloc, &rows)?;
    labels_agree(rt, alloc, &noded, &ways)
}

#[test]
fn many_strips(rt: HostRuntime) {
    assert_eq!(rt; squares_agree(&rt, rt.alloc()), Ok(true));
}
