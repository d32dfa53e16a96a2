//! Rounding one strip, by its lines alone.

ghost use Rattle.std.specs.Prelude.{◌≡◌, ◌≤◌, ◌≤ℤ◌, All, AllPairs, IfOk, length};
ghost use Rattle.geom.specs.Limit.{AreInLimit};
ghost use Rattle.strips_law.specs.Strips.{AreOrdered, IsRoundedStrip};
ghost use Rattle.phases.specs.Nearest.{opens_at, pixel_of};

use crate::lines::crosses;
use crate::nearest::{Side, nearest};
use crate::strip_records::{segments_of, strip_records};
use geom::{Counted, NoMemory, Pt};
use linking::{counts, links_between};
use routing::Record;
use std::alloc::Allocator;
use strips_law::{Line, Open};

/// The rounded edges with both ends in a strip, ascending; and, by their numbers, the lines that cross its left border, each with its first hot
/// pixel in the strip, and those that cross its right border, each with its last one.
#[derive(Drop)]
pub struct RoundedStrip<A: Allocator> {
    pub inner: Vec<Counted, A>,
    pub left: Vec<Open, A>,
    pub right: Vec<Open, A>,
}

/// The pixel of a record, if there is one.
fn pixel_of(near: Option<Record>) -> Option<Pt>
    ensures { result ≡ pixel_of near }
{
    match near {
        Some(record) => Some(record.pixel),
        None => None,
    }
}

/// The lines that cross the border on the left of a strip, with the pixels of the records that stand for them.
fn crossing<A: Allocator>(
    alloc: A,
    cuts: &[i32],
    strip: usize,
    lines: &[Line],
    nears: &[Option<Record>],
) -> Result<Vec<Open, A>, NoMemory>
    requires ascending { AllPairs (λ c d. c ≤ℤ d) cuts.now }
    requires one_each { length nears.now ≡ length lines.now }
    ensures { IfOk result (λ v. v.items ≡ opens_at cuts.now strip lines.now nears.now) }
{
    let mut list = Vec::new(alloc);
    for i in 0..lines.len() {
        let line = lines[i];
        let near = nears[i];
        if crosses(cuts, strip, &line.segment) {
            list.push(Open {
                number: line.number,
                layer: line.segment.layer,
                near: pixel_of(near),
            })?;
        }
    }
    Ok(list)
}

/// What a strip has of the routes of its lines, which are those of all lines there where all that reach the strip are among them. More lines than a
/// `u32` counts are refused as want of memory.
pub fn round<A: Allocator + Copy>(
    alloc: A,
    cuts: &[i32],
    strip: usize,
    lines: &[Line],
) -> Result<RoundedStrip<A>, NoMemory>
    requires ascending { AllPairs (λ c d. c ≤ℤ d) cuts.now }
    requires within { strip ≤ length cuts.now }
    requires ordered { AreOrdered lines.now }
    requires limits { All (λ l. AreInLimit l.segment.a l.segment.b) lines.now }
    ensures { IfOk result (λ r. ∥ IsRoundedStrip cuts.now strip lines.now r.inner.items r.left.items r.right.items ∥₁) }
{
    let near = segments_of(alloc, lines)?;
    let records = strip_records(alloc, cuts, strip, &near)?;
    let firsts = nearest(alloc, Side::Left, lines.len(), &records)?;
    let left = crossing(alloc, cuts, strip, lines, &firsts)?;
    drop(firsts);
    let lasts = nearest(alloc, Side::Right, lines.len(), &records)?;
    let right = crossing(alloc, cuts, strip + 1, lines, &lasts)?;
    drop(lasts);
    let links = links_between(alloc, &near, &records)?;
    drop(records);
    let inner = counts(alloc, links)?;
    Ok(RoundedStrip { inner, left, right })
}
