//! Parts of a stage's work, mapped by several hands.

use hands::{Part, even_parts, joined, map_parts, parts_of_work};
use std::alloc::{AllocError, Allocator};
use std::sync::atomic::{AtomicUsize, Ordering};
use std::thread;
use std::thread::Threads;

/// How many turns a part waits for the other one at most.
const TURNS: u32 = 10_000_000;

/// Says that a part has begun, and whether the other one does before this one ends.
fn meets(begun: &AtomicUsize) -> bool {
    begun.fetch_add(1, Ordering::SeqCst);
    for _ in 0..TURNS {
        if begun.load(Ordering::SeqCst) == 2 {
            return true;
        }
        thread::yield_now();
    }
    false
}

/// Whether each of two parts meets the other one.
fn both_meet<R: Threads + Sync, A: Allocator + Copy + Send + Sync>(
    rt: &R,
    alloc: A,
) -> Result<Vec<bool, A>, AllocError> {
    let begun = AtomicUsize::new(0);
    let begun = &begun;
    map_parts(
        rt,
        alloc,
        &[0, 1],
        |_part: usize| -> Result<bool, AllocError> { Ok(meets(begun)) },
    )
}

/// The numbers of so many even parts of the places below a length, behind one another, each part's by a call of its own.
fn mapped_back<R: Threads + Sync, A: Allocator + Copy + Send + Sync>(
    rt: &R,
    alloc: A,
    parts: &[Part],
) -> Result<Vec<usize, A>, AllocError> {
    let lists = map_parts(
        rt,
        alloc,
        parts,
        |part: Part| -> Result<Vec<usize, A>, AllocError> {
            let mut numbers = Vec::new(alloc);
            for number in part.from..part.past {
                numbers.push(number)?;
            }
            Ok(numbers)
        },
    )?;
    joined(alloc, lists)
}

/// Parts as pairs of places.
fn told<A: Allocator + Copy>(
    alloc: A,
    parts: &[Part],
) -> Result<Vec<(usize, usize), A>, AllocError> {
    let mut pairs = Vec::new(alloc);
    for part in parts {
        pairs.push((part.from, part.past))?;
    }
    Ok(pairs)
}

/// Even parts of places below a length: length, number of parts, and the parts.
const EVEN: [(usize, usize, &[(usize, usize)]); 6] = [
    (0, 3, &[]),
    (1, 3, &[(0, 1)]),
    (10, 0, &[(0, 10)]),
    (10, 1, &[(0, 10)]),
    (10, 3, &[(0, 4), (4, 8), (8, 10)]),
    (3, 64, &[(0, 1), (1, 2), (2, 3)]),
];

/// Parts of as much work, where each place has as much as its number: length, number of parts, and the parts.
const BY_WORK: [(usize, usize, &[(usize, usize)]); 5] = [
    (0, 3, &[]),
    (1, 2, &[(0, 1)]),
    (5, 1, &[(0, 5)]),
    (5, 2, &[(0, 4), (4, 5)]),
    (9, 3, &[(0, 6), (6, 8), (8, 9)]),
];

/// Whether even parts are those that are wanted.
fn are_even<A: Allocator + Copy>(alloc: A, row: (usize, usize, &[(usize, usize)])) -> bool {
    let (length, parts, wanted) = row;
    match even_parts(alloc, length, parts) {
        Ok(made) => is_told(alloc, &made, wanted),
        Err(_) => false,
    }
}

/// Whether parts of as much work are those that are wanted.
fn are_by_work<A: Allocator + Copy>(alloc: A, row: (usize, usize, &[(usize, usize)])) -> bool {
    let (length, parts, wanted) = row;
    match parts_of_work(alloc, length, parts, |place: usize| place) {
        Ok(made) => is_told(alloc, &made, wanted),
        Err(_) => false,
    }
}

/// Whether parts are those that are wanted.
fn is_told<A: Allocator + Copy>(alloc: A, parts: &[Part], wanted: &[(usize, usize)]) -> bool {
    match told(alloc, parts) {
        Ok(pairs) => pairs.as_slice() == wanted,
        Err(_) => false,
    }
}

/// Whether the numbers below ten come back in order from so many parts.
fn comes_back<R: Threads + Sync, A: Allocator + Copy + Send + Sync>(
    rt: &R,
    alloc: A,
    parts: usize,
) -> Result<bool, AllocError> {
    let cut = even_parts(alloc, 10, parts)?;
    let numbers = mapped_back(rt, alloc, &cut)?;
    Ok(numbers.as_slice() == [0, 1, 2, 3, 4, 5, 6, 7, 8, 9].as_slice())
}

/// Whether the fault of a part is that of all.
fn fault_is_told<R: Threads + Sync, A: Allocator + Copy + Send + Sync>(rt: &R, alloc: A) -> bool {
    map_parts(
        rt,
        alloc,
        &[0, 1, 2],
        |part: usize| -> Result<usize, AllocError> {
            if part == 1 { Err(AllocError) } else { Ok(part) }
        },
    )
    .is_err()
}

#[test]
fn two_parts_are_at_work_at_once(rt: HostRuntime) {
    let met = both_meet(&rt, rt.alloc());
    assert!(rt; met.is_ok_and(|met| met.as_slice() == [true, true].as_slice()));
}

#[test]
fn parts_are_even(rt: HostRuntime) {
    for row in EVEN {
        assert!(rt; are_even(rt.alloc(), row), "{}", row.0);
    }
}

#[test]
fn parts_have_as_much_work(rt: HostRuntime) {
    for row in BY_WORK {
        assert!(rt; are_by_work(rt.alloc(), row), "{}", row.0);
    }
}

#[test]
fn answers_stand_in_the_order_of_parts(rt: HostRuntime) {
    for parts in [0, 1, 2, 3, 10, 64] {
        assert!(rt; comes_back(&rt, rt.alloc(), parts) == Ok(true), "{parts}");
    }
}

#[test]
fn a_fault_of_one_part_is_told(rt: HostRuntime) {
    assert!(rt; fault_is_told(&rt, rt.alloc()));
}
