//! The lines of the chosen segments: their ends without direction and layer, each once.

ghost use Rattle.std.specs.Prelude.{ℕ, ◌≡◌, ◌<◌, ◌≤◌, All, AllPairs, IfOk, length};
ghost use Rattle.geom.specs.declared.segment.Seg.{Seg};
ghost use Rattle.geom.specs.Rounded.{IsEdgeBefore};
ghost use Rattle.hot_region.specs.Candidates.{chosen};
ghost use Rattle.hot_pixel.specs.Pairs.{line_pairs, meeting_pairs};
ghost use Rattle.hot_pixel.specs.SegmentLines.{AreEachLine, AreLines};

use geom::{Edge, NoMemory, Seg};
use hot_region::edge_of;
use std::alloc::Allocator;

// The line of each chosen segment, in their order.
fn each_line<A: Allocator>(
    alloc: A,
    segments: &[Seg],
    numbers: &[u32],
) -> Result<Vec<Edge, A>, NoMemory>
    requires { All (λ k. k < length segments.now) numbers.now }
    ensures { IfOk result (λ v. AreEachLine (chosen segments.now numbers.now) v.items) }
{
    let mut list = Vec::new(alloc);
    for number in numbers {
        list.push(edge_of(&segments[*number as usize]))?;
    }
    Ok(list)
}

/// The lines of the chosen segments, ascending and each once.
pub(crate) fn lines<A: Allocator>(
    alloc: A,
    segments: &[Seg],
    numbers: &[u32],
) -> Result<Vec<Edge, A>, NoMemory>
    requires { All (λ k. k < length segments.now) numbers.now }
    ensures order { IfOk result (λ v. AllPairs IsEdgeBefore v.items) }
    ensures lines { IfOk result (λ v. AreLines (chosen segments.now numbers.now) v.items) }
    ensures pairs { IfOk result (λ v. line_pairs v.items ≤ meeting_pairs (chosen segments.now numbers.now)) }
{
    let mut list = each_line(alloc, segments, numbers)?;
    list.sort_unstable();
    list.dedup();
    Ok(list)
}
