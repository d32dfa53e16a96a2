//! The cycles of a one-to-one map on the numbers below a bound, and the number of each number's cycle.
//!
//! 1. From each number that has no cycle yet, its cycle is walked until it comes back (`walk`). What is passed gets the cycle's number.
//! 2. The cycles stand one behind another in one list (`Cycles`).

ghost use Rattle.std.specs.Prelude.{◌≡◌, ◌<◌, ℕ, List, [], All, IfOk, OnOk, length, slice_index_or};
ghost use Rattle.polygonize.specs.Cycle.{IsOneToOne, IsClosed, IsPartOf, IsUnseen, AreCycles, lists_in, seen_of};
ghost use Rattle.polygonize.specs.RingNumbers.{AreRingNumbers, IsNumberedWalk};

use crate::counting::counted;
use geom::NoMemory;
use hands::Part;
use std::alloc::Allocator;
use std::marker::Model;

/// A cycle by numbers: those of its edges, or of the first edges that leave its vertices.
#[derive(Debug, Drop)]
pub struct Cycle<A: Allocator> {
    numbers: Vec<u32, A>,
}

impl<A: Allocator> Model for Cycle<A> {
    ghost Value = { List ℕ };

    ghost view = { λ c. c.numbers.items };
}

impl<A: Allocator> Cycle<A> {
    /// The cycle of these numbers.
    pub fn new(numbers: Vec<u32, A>) -> Cycle<A>
        ensures { result ≡ numbers.items }
    {
        Cycle { numbers }
    }

    /// The numbers in their order.
    pub fn numbers(&self) -> &[u32]
        ensures { result.now ≡ self.now }
    {
        &self.numbers
    }

    /// The numbers in their order, to be changed.
    pub fn into_numbers(self) -> Vec<u32, A>
        ensures { result.items ≡ self }
    {
        let Cycle { numbers } = self;
        numbers
    }
}

/// Cycles by numbers, one behind another in one list.
#[derive(Drop)]
pub struct Cycles<A: Allocator> {
    numbers: Vec<u32, A>,
    parts: Vec<Part, A>,
}

impl<A: Allocator> Model for Cycles<A> {
    ghost Value = { List (List ℕ) };

    ghost view = { λ c. lists_in c.numbers.items c.parts.items };

    ghost invariant = { λ c. All (IsPartOf c.numbers.items) c.parts.items };
}

impl<A: Allocator> Cycles<A> {
    /// How many cycles there are.
    pub fn count(&self) -> usize
        ensures { result ≡ length self.now }
    {
        self.parts.len()
    }

    /// The numbers of a cycle in their order.
    pub fn numbers(&self, cycle: usize) -> &[u32]
        requires { cycle < length self.now }
        ensures { result.now ≡ slice_index_or self.now cycle [] }
    {
        let part = self.parts[cycle];
        &self.numbers[part.from..part.past]
    }
}

/// Cycles, and for each number that of its cycle.
#[derive(Drop)]
pub struct NumberedCycles<A: Allocator> {
    pub cycles: Cycles<A>,
    pub cycle_at: Vec<u32, A>,
}

/// Walks the cycle of `start`, begun there, behind what the list has. What it passes gets the number of the cycle.
fn walk<A: Allocator>(
    next: &[u32],
    cycle_at: &mut [u32],
    start: usize,
    number: u32,
    numbers: &mut Vec<u32, A>,
) -> Result<(), NoMemory>
    requires same_length { length cycle_at.old ≡ length next.now }
    requires in_range { All (λ k. k < length next.now) next.now }
    requires one_to_one { IsOneToOne next.now }
    requires closed { IsClosed next.now (seen_of (length next.now) cycle_at.old) }
    requires inside { start < length next.now }
    requires unseen { IsUnseen (seen_of (length next.now) cycle_at.old) start }
    requires number { number < length next.now }
    ensures { OnOk result (IsNumberedWalk next.now cycle_at.old cycle_at.new start number numbers.old.items numbers.new.items) }
{
    cycle_at[start] = number;
    numbers.push(counted(start)?)?;
    let mut at = next[start];
    while at as usize != start {
        cycle_at[at as usize] = number;
        numbers.push(at)?;
        at = next[at as usize];
    }
    Ok(())
}

/// The cycles, each begun at its least number, in the order of these, and for each number that of its cycle.
pub fn cycles_of<A: Allocator + Copy>(alloc: A, next: &[u32]) -> Result<NumberedCycles<A>, NoMemory>
    requires in_range { All (λ k. k < length next.now) next.now }
    requires one_to_one { IsOneToOne next.now }
    ensures cycles { IfOk result (λ found. AreCycles next.now found.cycles) }
    ensures numbers { IfOk result (λ found. AreRingNumbers (length next.now) found.cycles found.cycle_at.items) }
{
    let none = counted(next.len())?;
    let mut cycle_at = vec![in alloc; none; next.len()]?;
    let mut numbers = Vec::with_capacity(alloc, next.len())?;
    let mut parts = Vec::new(alloc);
    for start in 0..next.len() {
        if cycle_at[start] == none {
            let from = numbers.len();
            let number = counted(parts.len())?;
            walk(next, &mut cycle_at, start, number, &mut numbers)?;
            let past = numbers.len();
            parts.push(Part { from, past })?;
        }
    }
    let cycles = Cycles { numbers, parts };
    Ok(NumberedCycles { cycles, cycle_at })
}
