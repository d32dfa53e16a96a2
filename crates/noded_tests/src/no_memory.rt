//! Calls that take no memory, where the allocator refuses every request once what they are asked of was made.

ghost use Rattle.std.specs.Prelude.{◌≡◌, ◌<◌, All, IfOk, pos};
ghost use Rattle.geom.specs.Limit.{AreInLimit};
ghost use Rattle.grid.specs.Tiles.{tile_count};

use crate::labels::{CASES, Case, are_told, noded_of};
use face_label::StripSet;
use geom::{NoMemory, Pt, Rect};
use lane_tests::{Boxes, Edges, Half, Probe, Segs, odd_above, sides};
use linking::{Rounded, settled};
use noding_test::Noded;
use refusing::Refusing;
use std::alloc::{Allocator, Global};
use std::marker::Brand;
use std::sync::Wait;
use std::sync::ledger::{Blank, Ledger};
use std::test::Fail;
use std::thread::Threads;
use tiling::{Bins, Count, Grid, Strips};

/// More requests than any test makes.
const NEVER: u64 = u64::MAX;

fn rect(left: i32, bottom: i32, right: i32, top: i32) -> Rect {
    Rect::spanned_by(Pt { x: left, y: bottom }, Pt { x: right, y: top })
}

/// Two boxes.
fn boxes<A: Allocator + Copy>(alloc: A) -> Result<Boxes<A>, NoMemory> {
    let mut boxes = Boxes::new(alloc);
    boxes.push(rect(0, 0, 5, 1))?;
    boxes.push(rect(4, 0, 9, 9))?;
    Ok(boxes)
}

/// The strips of width 5 from 0 to 9 over the boxes.
fn strips<A: Allocator + Copy>(alloc: A) -> Result<Strips<A>, NoMemory>
    ensures low { IfOk result (λ s. s.low ≡ pos 0) }
    ensures high { IfOk result (λ s. s.high ≡ pos 9) }
{
    let boxes = boxes(alloc)?;
    Strips::build(alloc, 0, 9, 5, &boxes)
}

/// How many strips there are, and the strips of 9 / 2 and of 5.
fn strip_numbers(alloc: Global) -> Result<(u32, u32, u32), NoMemory> {
    let heap = Refusing::new(alloc, NEVER);
    let strips = strips(&heap)?;
    heap.close();
    Ok((strips.strips(), strips.strip_of(9), strips.strip_of(10)))
}

#[test]
fn strips_take_none(rt: HostRuntime) {
    assert_eq!(rt; strip_numbers(rt.alloc()), Ok((2, 0, 1)));
}

/// The places of the boxes that may meet a tile.
fn places<L: Ledger>(
    alloc: Global,
    grid: &Grid,
    number: u32,
    blank: Blank,
) -> Result<(u32, u32), NoMemory>
    requires name { blank.name ≡ L.name }
    requires parts { blank.parts ≡ L.parts }
    requires some { 0 < L.parts }
    requires tile { number < tile_count grid.now }
{
    let heap = Refusing::new(alloc, NEVER);
    let boxes = boxes(&heap)?;
    let bins = Bins::build(&heap, grid, &boxes)?;
    heap.close();
    let mut count = Count::<L>::new(blank);
    Ok(bins.places(number, &mut count))
}

#[test]
fn places_take_none(rt: HostRuntime) -> Result<(), Fail> {
    let bounds = Rect {
        lo: Pt { x: 0, y: 0 },
        hi: Pt { x: 31, y: 15 },
    };
    let Ok(grid) = Grid::new(Some(bounds), 16) else {
        return Err(Fail::from("a grid"));
    };
    for (number, expected) in [(0u32, (0u32, 2u32)), (1, (2, 2))] {
        assert!(rt; number < grid.tiles());
        let found = places::<Brand>(rt.alloc(), &grid, number, Blank::new(1))?;
        assert_eq!(rt; found, expected);
    }
    Ok(())
}

/// Whether columns are made, and asked, without memory.
fn columns_take_none(alloc: Global) -> bool {
    let heap = Refusing::new(alloc, NEVER);
    heap.close();
    let (boxes, edges, segs) = (Boxes::new(&heap), Edges::new(&heap), Segs::new(&heap));
    let mut signs = [0i8; 0];
    sides(&segs, Half { x2: 1, y2: 1 }, &mut signs);
    let probe = Probe {
        x2: 1,
        y2: 1,
        dx: 0,
        dy: 0,
    };
    boxes.len() == 0 && edges.len() == 0 && segs.len() == 0 && !odd_above(&edges, probe)
}

#[test]
fn columns_are_made_of_none(rt: HostRuntime) {
    assert!(rt; columns_take_none(rt.alloc()));
}

/// Whether the directions of a case's edges are those that it names.
fn directions_take_none<B: Allocator>(
    alloc: Global,
    noded: &Noded<B>,
    case: Case,
) -> Result<bool, NoMemory>
    requires { All (λ c. AreInLimit c.edge.p c.edge.q) noded.now.edges.items }
{
    let heap = Refusing::new(alloc, NEVER);
    let strips = StripSet::build(&heap, noded)?;
    heap.close();
    Ok(are_told(&strips, noded.edges.as_slice(), case.1, case.2))
}

/// Whether they are, of the edges of a case.
fn is_told<R: Threads + Wait + Sync>(rt: &R, alloc: Global, case: Case) -> Result<bool, NoMemory> {
    let noded = noded_of(rt, alloc, case.0)?;
    directions_take_none(alloc, &noded, case)
}

#[test]
fn edges_are_told_of_none(rt: HostRuntime) {
    for case in CASES {
        assert_eq!(rt; is_told(&rt, rt.alloc(), case), Ok(true), "{case:?}");
    }
}

/// How many edges are settled, of none.
fn settled_count(alloc: Global) -> Result<usize, NoMemory> {
    let heap = Refusing::new(alloc, NEVER);
    let rounded = Rounded::of_edges(&heap, &[])?;
    heap.close();
    Ok(settled(rounded).edges.len())
}

#[test]
fn edges_settle_in_none(rt: HostRuntime) {
    assert_eq!(rt; settled_count(rt.alloc()), Ok(0));
}
