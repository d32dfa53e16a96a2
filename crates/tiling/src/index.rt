//! Boxes in the order of their left sides, to find those that meet a rectangle.

ghost use Rattle.std.specs.Prelude.{◌≡◌, ◌<◌, ◌≤◌, ◌≤ℤ◌, ◌^◌, ◌+◌, ◌*◌, ℕ, ℤ, pos, [], All, IfOk, List, OnErr, OnOk, get_or, length, map, max};
ghost use Rattle.std.specs.List.{range_with_len, zip};
ghost use Rattle.std.specs.List.Sorted.{IsPermutation, IsSorted};
ghost use Rattle.std.specs.Ordering.{int_cmp, nat_cmp, ordering_then};
ghost use Rattle.geom.specs.declared.rect.Rect.{Rect};
ghost use Rattle.lane_tests.specs.Boxes.{AreSmall};
ghost use Rattle.lane_tests.specs.Meeting.{AreMeeting};
ghost use Rattle.tiling.specs.Index.{AreIndexed, AreReaching, IsKept, Item, count_begun, first_reaching, lefts_of};

use crate::search::places_between;
use geom::{NoMemory, Pt, Rect};
use grid::Count;
use lane_tests::{Boxes, meet_in};
use std::alloc::Allocator;
use std::marker::{Brand, Model};
use std::sync::ledger::{Blank, Ledger};

/// Boxes with their numbers, in the order of their left sides, ties by number.
#[derive(Drop)]
pub struct Index<A: Allocator> {
    sorted: Boxes<A>,
    numbers: Vec<u32, A>,
    // the greatest right side up to each place
    greatest: Vec<i32, A>,
}

impl<A: Allocator> Model for Index<A> {
    ghost Value = { List Item };

    ghost view = { λ i. zip i.numbers.items i.sorted };

    ghost invariant = { λ i. IsKept i.numbers.items i.sorted i.greatest.items };
}

impl<A: Allocator + Copy> Index<A> {
    /// The index of these boxes.
    pub fn build<B: Allocator>(alloc: A, boxes: &Boxes<B>) -> Result<Index<A>, NoMemory>
        ensures { IfOk result (λ index. AreIndexed boxes.now index) }
    {
        let keys = sorted_keys(alloc, boxes)?;
        let mut sorted = Boxes::new(alloc);
        let mut numbers = Vec::new(alloc);
        let mut greatest = Vec::new(alloc);
        let mut right = i32::MIN;
        for key in &keys {
            let rect = boxes.get(key.1 as usize);
            right = right.max(rect.hi.x);
            sorted.push(rect)?;
            numbers.push(key.1)?;
            greatest.push(right)?;
        }
        Ok(Index {
            sorted,
            numbers,
            greatest,
        })
    }
}

impl<A: Allocator> Index<A> {
    /// The places of the boxes that may meet what lies from `low` to `high`. It ticks at most twice as often as the number
    /// of boxes has binary digits.
    pub fn places<L: Ledger>(&self, low: i32, high: i32, count: &mut Count<L>) -> (u32, u32)
        ensures from { result.0 ≡ first_reaching low self.now }
        ensures to { result.1 ≡ max result.0 (count_begun high self.now) }
        ensures grows { count.old ≤ count.new }
        ensures cost { (d : ℕ) → length self.now < 2 ^ d → count.new ≤ count.old + 2 * d }
    {
        let (from, to) = places_between(self.sorted.lefts(), &self.greatest, low, high, count);
        (from as u32, from.max(to) as u32)
    }

    /// The vector becomes the numbers, ascending, of the boxes that share a point with the rectangle. After an `Err` it is
    /// empty. Boxes that were indexed have 32-bit sides.
    pub fn find<B: Allocator>(&self, rect: Rect, out: &mut Vec<u32, B>) -> Result<(), NoMemory>
        ensures ok { OnOk result ((boxes : List Rect) → AreIndexed boxes self.now → AreMeeting boxes rect 0 (length boxes) out.new.items) }
        ensures err { OnErr result (out.new.items ≡ []) }
        ensures small { (boxes : List Rect) → AreIndexed boxes self.now → All AreSmall boxes }
    {
        find_from::<Brand, A, B>(self, rect, Blank::new(1), out)
    }

    /// As `find`, of the boxes that have an x from `low` to `high`.
    pub fn between<B: Allocator>(
        &self,
        low: i32,
        high: i64,
        out: &mut Vec<u32, B>,
    ) -> Result<(), NoMemory>
        requires { low ≤ℤ high }
        ensures ok { OnOk result ((boxes : List Rect) → AreIndexed boxes self.now → AreReaching boxes low high out.new.items) }
        ensures err { OnErr result (out.new.items ≡ []) }
    {
        let right = high.min(i64::from(i32::MAX)) as i32;
        let rect = Rect {
            lo: Pt {
                x: low,
                y: i32::MIN,
            },
            hi: Pt {
                x: right,
                y: i32::MAX,
            },
        };
        self.find(rect, out)
    }
}

// As `Index::find`, counted by a ledger of its own.
fn find_from<L: Ledger, A: Allocator, B: Allocator>(
    index: &Index<A>,
    rect: Rect,
    blank: Blank,
    out: &mut Vec<u32, B>,
) -> Result<(), NoMemory>
    requires name { blank.name ≡ L.name }
    requires parts { blank.parts ≡ L.parts }
    requires some { 0 < L.parts }
    ensures ok { OnOk result ((boxes : List Rect) → AreIndexed boxes index.now → AreMeeting boxes rect 0 (length boxes) out.new.items) }
    ensures err { OnErr result (out.new.items ≡ []) }
    ensures small { (boxes : List Rect) → AreIndexed boxes index.now → All AreSmall boxes }
{
    let mut count = Count::<L>::new(blank);
    let lefts = index.sorted.lefts();
    let (from, to) = places_between(lefts, &index.greatest, rect.lo.x, rect.hi.x, &mut count);
    let to = from.max(to);
    match meet_in(&index.sorted, from as u32, to as u32, rect, out) {
        Ok(()) => {
            renumber(&index.numbers, out);
            out.sort_unstable();
            Ok(())
        }
        Err(e) => Err(e),
    }
}

// Puts the number at each place.
fn renumber(order: &[u32], out: &mut [u32])
    requires { (k : ℕ) → k < length out.old → get_or out.old k 0 < length order.now }
    ensures { out.new ≡ map (λ k. get_or order.now k 0) out.old }
{
    let mut i = 0;
    while i < out.len() {
        out[i] = order[out[i] as usize];
        i += 1;
    }
}

// The left sides with their numbers, in order.
fn sorted_keys<A: Allocator + Copy, B: Allocator>(
    alloc: A,
    boxes: &Boxes<B>,
) -> Result<Vec<(i32, u32), A>, NoMemory>
    ensures permutation { IfOk result (λ keys. IsPermutation (map (λ k. (get_or (lefts_of boxes.now) k (pos 0), k)) (range_with_len 0 (length boxes.now))) keys.items) }
    ensures few { length boxes.now < 2 ^ 32 }
    ensures sorted { IfOk result (λ keys. IsSorted (λ x y. ordering_then (int_cmp x.0 y.0) (nat_cmp x.1 y.1)) keys.items) }
{
    let lefts = boxes.lefts();
    let mut keys = Vec::new(alloc);
    for number in 0..boxes.len() {
        keys.push((lefts[number], number as u32))?;
    }
    keys.sort_unstable();
    Ok(keys)
}
