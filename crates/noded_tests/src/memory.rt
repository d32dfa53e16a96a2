//! Strips and labels of small lists of edges, where each request for memory is refused in turn.

ghost use Rattle.std.specs.Prelude.{All};
ghost use Rattle.geom.specs.Limit.{AreInLimit};

use crate::labels::{CASES, Case, are_right, noded_of};
use geom::NoMemory;
use noding_test::Noded;
use refusing::Refusing;
use std::alloc::{Allocator, Global};
use std::sync::Wait;
use std::thread::Threads;

/// More requests for memory than the strips and the labels of any case make.
const REQUESTS: u64 = 200;

/// Whether the strips and then the labels of a case are those that it names, where the request of this number is refused.
fn are_right_without<B: Allocator, R: Threads + Wait + Sync>(
    rt: &R,
    alloc: Global,
    noded: &Noded<B>,
    case: Case,
    number: u64,
) -> Result<bool, NoMemory>
    requires { All (λ c. AreInLimit c.edge.p c.edge.q) noded.now.edges.items }
{
    let heap = Refusing::new(alloc, number);
    are_right(rt, &heap, noded, case)
}

/// How many numbers of requests are refused with want of memory, where each other one is answered rightly.
fn refusals<R: Threads + Wait + Sync>(
    rt: &R,
    alloc: Global,
    case: Case,
) -> Result<Option<u64>, NoMemory> {
    let noded = noded_of(rt, alloc, case.0)?;
    let mut count = 0u64;
    for number in 0..REQUESTS {
        match are_right_without(rt, alloc, &noded, case, number) {
            Ok(true) => {}
            Ok(false) => return Ok(None),
            Err(NoMemory) => count = count.wrapping_add(1),
        }
    }
    Ok(Some(count))
}

/// Whether some number of requests is refused, of a case with edges, and not the last.
fn is_refused<R: Threads + Wait + Sync>(
    rt: &R,
    alloc: Global,
    case: Case,
) -> Result<bool, NoMemory> {
    match refusals(rt, alloc, case)? {
        Some(count) => Ok((0 < count) != case.0.is_empty() && count < REQUESTS),
        None => Ok(false),
    }
}

#[test]
fn refuses_each_request(rt: HostRuntime) {
    for case in CASES {
        assert_eq!(rt; is_refused(&rt, rt.alloc(), case), Ok(true), "{case:?}");
    }
}
