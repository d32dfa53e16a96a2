//! The pieces of a ring as they are written.

ghost use Rattle.std.specs.Prelude.{◌↔◌, ◌<◌, ◌≤◌, All, IsTrue, length, slice_index};
ghost use Rattle.polygonize.specs.Number.{IsVertex};
ghost use Rattle.polygonize.specs.Piece.{ComesLater, IsFirstAmong};
ghost use Rattle.polygonize.specs.Written.{IsSound, IsTurned};

use crate::angle::side_of;
use crate::closing_edges::ClosingEdges;
use crate::cycle::Cycle;
use std::alloc::Allocator;

/// Where a ring has its least vertex.
fn least_place(ring: &[u32]) -> usize
    requires { 0 < length ring.now }
    ensures inside { result < length ring.now }
    ensures least { All (λ k. slice_index ring.now result ≤ k) ring.now }
{
    let mut best = 0;
    for i in 0..ring.len() {
        if ring[i] < ring[best] {
            best = i;
        }
    }
    best
}

/// A ring without repeated vertices, begun at its least one: its least rotation.
pub fn turned<A: Allocator>(ring: Cycle<A>) -> Cycle<A>
    requires { 0 < length ring }
    ensures { IsTurned ring result }
{
    let mut numbers = ring.into_numbers();
    let place = least_place(&numbers);
    numbers.rotate_left(place);
    Cycle::new(numbers)
}

/// Whether a piece comes back to the ring's least vertex, and with a greater angle than another one that does.
fn comes_later(edges: ClosingEdges<'_>, least: u32, piece: &[u32], other: &[u32]) -> bool
    requires least { IsVertex edges.list.now least }
    requires sound { IsSound edges.list.now piece.now }
    requires other_sound { IsSound edges.list.now other.now }
    ensures { IsTrue result ↔ ComesLater edges.entry.list.now least piece.now other.now }
{
    if piece[0] != least {
        return false;
    }
    let last = edges.list[piece[piece.len() - 1] as usize].from;
    let other_last = edges.list[other[other.len() - 1] as usize].from;
    other[0] != least || side_of(edges.list[least as usize].from, other_last, last) > 0
}

/// Of the pieces of a ring that begin at its least vertex, that which comes back to it with the greatest angle.
pub fn first_piece<A: Allocator>(edges: ClosingEdges<'_>, least: u32, pieces: &[Cycle<A>]) -> usize
    requires least { IsVertex edges.list.now least }
    requires some { 0 < length pieces.now }
    requires sound { All (IsSound edges.list.now) pieces.now }
    ensures inside { result < length pieces.now }
    ensures first { IsFirstAmong edges.entry.list.now least pieces.now result }
{
    let mut best = 0;
    for i in 0..pieces.len() {
        if comes_later(edges, least, pieces[i].numbers(), pieces[best].numbers()) {
            best = i;
        }
    }
    best
}
