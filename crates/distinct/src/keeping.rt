//! Keeping one of segments with the same ends, with its copies.
//!
//! 1. Segments are gone through in their order (`distinct`), and those that are kept stand in the first places of the list.
//! 2. Of each the table tells where one with the same ends may stand (`keep`). Where it does, that has one copy more (`add_copy`), unless it
//!    has as many as a `u16` counts.
//! 3. Else the segment is kept, behind those that are, as its own only copy, and the table tells of it.

ghost use Rattle.std.specs.Prelude.{◌≡◌, ◌+◌, ◌<◌, ◌≤◌, ◌++◌, ◌∷◌, [], false, true, IfOk, IsTrue, List, OnOk, length, take};
ghost use Rattle.geom.specs.declared.segment.Seg.{Seg};
ghost use Rattle.distinct.specs.Copies.{AreCopies, HaveSameEnds};
ghost use Rattle.distinct.specs.Kept.{AreKeptOf};

use crate::copies::Copies;
use crate::kept::Distinct;
use crate::table::{Table, ends_of};
use geom::{NoMemory, Seg};
use std::alloc::Allocator;

/// The segments that are kept of some, with their copies.
pub fn distinct<A: Allocator + Copy>(
    alloc: A,
    mut segments: Vec<Seg, A>,
) -> Result<Distinct<A>, NoMemory>
    ensures { IfOk result (λ d. AreCopies segments.items d.segments.items d.copies.items) }
{
    let mut table = Table::for_segments(alloc, segments.len())?;
    let mut copies = Vec::with_capacity(alloc, segments.len())?;
    for place in 0..segments.len() {
        keep(&mut table, segments.as_mut_slice(), &mut copies, place)?;
    }
    segments.truncate(copies.len());
    segments.shrink_to_fit();
    copies.shrink_to_fit();
    Ok(Distinct { segments, copies })
}

/// Keeps the segment at a place, where as many as have copies are kept of those before it: as a copy of one with the same ends, where the
/// table tells that, or else by itself.
#[inline(always)]
fn keep<A: Allocator>(
    table: &mut Table<A>,
    segments: &mut [Seg],
    copies: &mut Vec<Copies, A>,
    place: usize,
) -> Result<(), NoMemory>
    requires place { place < length segments.old }
    requires kept { length copies.old.items ≤ place }
    ensures kept { OnOk result ((all : List Seg) → AreKeptOf all place segments.old copies.old.items → AreKeptOf all (place + 1) segments.new copies.new.items) }
    ensures len { length segments.new ≡ length segments.old }
    ensures few { OnOk result (length copies.new.items ≤ place + 1) }
{
    let s = segments[place];
    let ends = ends_of(&s);
    if add_copy(segments, copies, table.told(ends), &s) {
        return Ok(());
    }
    table.tell(ends, copies.len());
    segments[copies.len()] = s;
    copies.push(Copies::one(s.layer))?;
    Ok(())
}

/// Whether the segment at a place, if any, has the same ends and a count that holds one copy more: it has one more then.
#[inline(always)]
fn add_copy(segments: &[Seg], copies: &mut [Copies], place: usize, s: &Seg) -> bool
    requires { length copies.old ≤ length segments.now }
    ensures added { result ≡ true → (before : List Seg) → AreCopies before (take (length copies.old) segments.now) copies.old → AreCopies (before ++ s.now ∷ []) (take (length copies.old) segments.now) copies.new }
    ensures len { length copies.new ≡ length copies.old }
    ensures same { result ≡ false → copies.new ≡ copies.old }
{
    if place >= copies.len() || !have_same_ends(&segments[place], s) {
        return false;
    }
    let Some(more) = copies[place].with_one(s.layer) else {
        return false;
    };
    copies[place] = more;
    true
}

/// Whether two segments have the same ends, one way or the other.
#[inline(always)]
pub(crate) fn have_same_ends(s: &Seg, t: &Seg) -> bool
    ensures { IsTrue result → HaveSameEnds s.now t.now }
{
    if s.a == t.a && s.b == t.b {
        return true;
    }
    s.a == t.b && s.b == t.a
}
