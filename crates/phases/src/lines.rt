//! Strips of columns, and the lines that reach them.

ghost use Rattle.std.specs.Prelude.{◌≡◌, ◌≤◌, ◌<◌, ◌≤ℤ◌, ◌+◌, ℕ, AllPairs, IfOk, IsTrue, List, OnOk, get_or, length, pos, []};
ghost use Rattle.strips_law.specs.Strips.{AreLinesFrom, IsOriented, crosses};
ghost use Rattle.phases.specs.Scattered.{AddsLine, AreByStrip, lists_of};

use geom::{NoMemory, Seg};
use std::alloc::Allocator;
use strips_law::{Line, strip_at};

/// Whether cuts ascend.
pub fn ascend(cuts: &[i32]) -> bool
    ensures { IsTrue result → AllPairs (λ c d. c ≤ℤ d) cuts.now }
{
    let mut greatest = i32::MIN;
    for cut in cuts {
        if *cut < greatest {
            return false;
        }
        greatest = *cut;
    }
    true
}

/// The cut at a place.
pub(crate) fn cut_at(cuts: &[i32], place: usize) -> i32
    requires { place < length cuts.now }
    ensures { result ≡ get_or cuts.now place (pos 0) }
{
    cuts[place]
}

/// Whether a line crosses the border on the left of a strip.
pub(crate) fn crosses(cuts: &[i32], strip: usize, s: &Seg) -> bool
    requires { AllPairs (λ c d. c ≤ℤ d) cuts.now }
    ensures { result ≡ crosses cuts.now strip s.now }
{
    if strip == 0 || strip > cuts.len() {
        return false;
    }
    let border = cut_at(cuts, strip - 1);
    s.a.x < border && border <= s.b.x
}

/// A segment turned so that its lesser end is first.
fn oriented(s: Seg) -> Seg
    ensures { IsOriented s result }
{
    if s.b < s.a {
        Seg {
            a: s.b,
            b: s.a,
            layer: s.layer,
        }
    } else {
        s
    }
}

/// So many empty lists.
fn empty_lists<A: Allocator + Copy>(
    alloc: A,
    count: usize,
) -> Result<Vec<Vec<Line, A>, A>, NoMemory>
    ensures count { IfOk result (λ v. length v.items ≡ count) }
    ensures empty { IfOk result (λ v. (k : ℕ) → get_or (lists_of v.items) k [] ≡ []) }
{
    let mut lists = Vec::with_capacity(alloc, count)?;
    for _ in 0..count {
        lists.push(Vec::new(alloc))?;
    }
    Ok(lists)
}

/// Adds a line to the lists of the strips that it reaches.
fn add_line<A: Allocator>(
    lists: &mut [Vec<Line, A>],
    cuts: &[i32],
    line: Line,
) -> Result<(), NoMemory>
    requires { length lists.old ≡ length cuts.now + 1 }
    ensures { OnOk result (AddsLine cuts.now line (lists_of lists.old) (lists_of lists.new)) }
{
    let first = strip_at(cuts, line.segment.a);
    let last = strip_at(cuts, line.segment.b);
    for strip in first..last + 1 {
        lists[strip].push(line)?;
    }
    Ok(())
}

/// For each strip the lines of these segments that reach it, of which the first has this number. Where a `u32` doesn't number them that is want
/// of memory.
pub fn scatter<A: Allocator + Copy>(
    alloc: A,
    cuts: &[i32],
    first_number: u32,
    segments: &[Seg],
) -> Result<Vec<Vec<Line, A>, A>, NoMemory>
    ensures { IfOk result (λ v. (lines : List Line) × AreLinesFrom first_number segments.now lines × AreByStrip cuts.now lines (lists_of v.items)) }
{
    if segments.len() > (u32::MAX - first_number) as usize {
        return Err(NoMemory);
    }
    let mut lists = empty_lists(alloc, cuts.len() + 1)?;
    let mut number = first_number;
    for s in segments {
        let segment = oriented(*s);
        add_line(&mut lists, cuts, Line { number, segment })?;
        number += 1;
    }
    Ok(lists)
}
