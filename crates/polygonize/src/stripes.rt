//! Where the edges that leave a vertex begin among all, which stand by the vertices that they leave.
//!
//! 1. The abscissas are cut into stripes, about one for each two items, and for each stripe it is noted where its items begin
//!    (`Stripes::of`), which are edges by the vertices that they leave, or vertices.
//! 2. The place is looked for between the beginning of the vertex's stripe and that of the next one (`first_at`).
//!
//! The stripes say where to look, and no more: what they say is checked, and where it is wrong all edges are looked at.

ghost use Rattle.std.specs.Prelude.{◌≡◌, ◌^◌, ◌<◌, ◌≤◌, IsTrue, length};
ghost use Rattle.polygonize.specs.Clockwise.{less};
ghost use Rattle.polygonize.specs.Leaving.{IsFirstAt, IsNoneAfter, IsNoneBefore};

use crate::angle::is_less;
use crate::closing_edges::ClosingEdges;
use crate::counting::counted;
use geom::{DirectedEdge, NoMemory, Pt};
use std::alloc::Allocator;

/// Stripes of abscissas from the least one on, each of a power of two; and where the items begin in each, or right of it.
#[derive(Debug, Drop)]
pub struct Stripes<A: Allocator> {
    least: i32,
    bits: u32,
    begins: Vec<u32, A>,
}

/// How many bits of a span aren't told by its stripes, of which there are at most as many as items.
fn bits_below(span: u32, items: usize) -> u32
    ensures { result < 32 }
{
    let bits = u32::BITS - span.leading_zeros();
    bits.saturating_sub(usize::BITS - (items / 2).leading_zeros())
        .min(31)
}

impl<A: Allocator + Copy> Stripes<A> {
    /// The stripes of items in the order of their vertices.
    pub fn of<T, F: Fn(&T) -> Pt>(alloc: A, items: &[T], vertex: F) -> Result<Stripes<A>, NoMemory>
        requires { F.IsAlwaysCallable vertex }
    {
        let mut stripes = Stripes::over(alloc, items, &vertex)?;
        for place in 0..items.len() {
            stripes.note(vertex(&items[place]), place)?;
        }
        Ok(stripes)
    }

    /// Stripes as wide as they have to be, without their beginnings.
    fn over<T, F: Fn(&T) -> Pt>(alloc: A, items: &[T], vertex: &F) -> Result<Stripes<A>, NoMemory>
        requires { F.IsAlwaysCallable vertex.now }
    {
        let begins = Vec::with_capacity(alloc, items.len())?;
        let (least, bits) = match (items.first(), items.last()) {
            (Some(first), Some(last)) => {
                let least = vertex(first).x;
                let span = vertex(last).x.abs_diff(least);
                (least, bits_below(span, items.len()))
            }
            _ => (0, 0),
        };
        Ok(Stripes {
            least,
            bits,
            begins,
        })
    }

    /// The stripe of a column.
    fn stripe_of(&self, column: i32) -> usize
        ensures { result < 2 ^ 32 }
    {
        column.abs_diff(self.least).wrapping_shr(self.bits) as usize
    }

    /// Notes that an item's vertex is this one, for its stripe and the empty ones before it.
    fn note(&mut self, v: Pt, place: usize) -> Result<(), NoMemory> {
        let stripe = self.stripe_of(v.x);
        if self.begins.len() <= stripe {
            self.begins.resize(stripe + 1, counted(place)?)?;
        }
        Ok(())
    }

    /// Where the items of a stripe begin; behind all others where none does.
    fn begin_of(&self, stripe: usize, items: usize) -> usize {
        if stripe < self.begins.len() {
            self.begins[stripe] as usize
        } else {
            items
        }
    }

    /// Where the items in the stripe of a column begin, of so many, as the stripes say it.
    pub fn begin_at(&self, column: i32, items: usize) -> usize {
        self.begin_of(self.stripe_of(column), items)
    }
}

fn is_at_lesser(d: &DirectedEdge, v: Pt) -> bool
    ensures { result ≡ less d.now.from v }
{
    is_less(d.from, v)
}

/// Whether all edges before a place leave lesser vertices.
fn is_none_before(edges: ClosingEdges<'_>, v: Pt, place: usize) -> bool
    requires { place ≤ length edges.list.now }
    ensures { IsTrue result → IsNoneBefore edges.entry.list.now v place }
{
    place == 0 || is_at_lesser(&edges.list[place - 1], v)
}

/// Whether no edge from a place on leaves a lesser vertex.
fn is_none_after(edges: ClosingEdges<'_>, v: Pt, place: usize) -> bool
    requires { place ≤ length edges.list.now }
    ensures { IsTrue result → IsNoneAfter edges.entry.list.now v place }
{
    place == edges.list.len() || !is_at_lesser(&edges.list[place], v)
}

/// The place of the first edge that leaves no lesser vertex, between two places.
fn first_between(edges: ClosingEdges<'_>, v: Pt, from: usize, to: usize) -> usize
    requires order { from ≤ to }
    requires inside { to ≤ length edges.list.now }
    requires before { IsNoneBefore edges.list.now v from }
    requires after { IsNoneAfter edges.list.now v to }
    ensures { IsFirstAt (λ d. d.from) edges.entry.list.now v result }
{
    let mut low = from;
    let mut high = to;
    while low < high {
        let middle = low + (high - low) / 2;
        if is_at_lesser(&edges.list[middle], v) {
            low = middle + 1;
        } else {
            high = middle;
        }
    }
    low
}

/// The place of the first edge that leaves no lesser vertex, looked for among all.
pub fn first_leaving(edges: ClosingEdges<'_>, v: Pt) -> usize
    ensures { IsFirstAt (λ d. d.from) edges.entry.list.now v result }
{
    first_between(edges, v, 0, edges.list.len())
}

/// The place of the first edge that leaves no lesser vertex.
pub fn first_at<A: Allocator + Copy>(edges: ClosingEdges<'_>, stripes: &Stripes<A>, v: Pt) -> usize
    ensures { IsFirstAt (λ d. d.from) edges.entry.list.now v result }
{
    let stripe = stripes.stripe_of(v.x);
    let from = stripes.begin_of(stripe, edges.list.len());
    let to = stripes.begin_of(stripe + 1, edges.list.len());
    if from <= to
        && to <= edges.list.len()
        && is_none_before(edges, v, from)
        && is_none_after(edges, v, to)
    {
        first_between(edges, v, from, to)
    } else {
        first_leaving(edges, v)
    }
}
