//! Parts of a stage's work, mapped by several hands: each part in one of them, the answers in the order of the parts.
//!
//! 1. Each part gets an idle place behind it (`places_of`).
//! 2. rayon halves the places until each is alone, a new thread for each left half, and maps the parts (`mapped`). So a thread that starts
//!    others ends in an idle place and waits: Linux may start a thread on the processor of the one that makes it, and moves either only at a
//!    tick, milliseconds later, where both go on working.

ghost use Rattle.std.specs.Prelude.{◌≡◌, All, IfOk, IfSome, Ok};
ghost use Rattle.std.specs.List.{AllZip};
ghost use Rattle.hands.specs.Idle.{IsAnswer, with_idle};

use rayon::prelude::*;
use std::alloc::{AllocError, Allocator};
use std::thread::Threads;

/// What `f` makes of each part, in the order of the parts, or the fault of one of them. Not more parts are at work at once than twice the
/// processors of the machine; where a thread can't be started, its parts are made behind the others.
pub fn map_parts<
    R: Threads + Sync,
    A: Allocator + Copy + Send + Sync,
    P: Copy + Send + Sync,
    X: Send + Drop,
    E: From<AllocError> + Send + Drop,
    F: Fn(P) -> Result<X, E> + Copy + Send + Sync,
>(rt: &R, alloc: A, parts: &[P], f: F) -> Result<Vec<X, A>, E>
    requires { All (λ p. F.pre f p) parts.now }
    ensures { IfOk result (λ v. AllZip (λ p x. F.post f p (Ok x)) parts.now v.items) }
{
    let places = places_of(alloc, parts)?;
    mapped(rt, alloc, &places, parts, f)?
}

/// Parts, each with an idle place behind it.
fn places_of<A: Allocator, P: Copy>(alloc: A, parts: &[P]) -> Result<Vec<Option<P>, A>, AllocError>
    ensures { IfOk result (λ v. v.items ≡ with_idle parts.now) }
{
    let mut places = Vec::with_capacity(alloc, parts.len().saturating_mul(2))?;
    for part in parts {
        places.push(Some(*part))?;
        places.push(None)?;
    }
    Ok(places)
}

/// What `f` makes of the parts at these places, with want of memory for the list of answers told apart.
fn mapped<
    R: Threads + Sync,
    A: Allocator + Copy + Send + Sync,
    P: Copy + Send + Sync,
    X: Send + Drop,
    E: Send + Drop,
    F: Fn(P) -> Result<X, E> + Copy + Send + Sync,
>(
    rt: &R,
    alloc: A,
    places: &[Option<P>],
    parts: &[P],
    f: F,
) -> Result<Result<Vec<X, A>, E>, AllocError>
    requires parts { All (λ p. F.pre f p) parts.now }
    requires places { places.now ≡ with_idle parts.now }
    ensures { IfOk result (λ r. IfOk r (λ v. AllZip (λ p x. F.post f p (Ok x)) parts.now v.items)) }
{
    places
        .par_iter()
        .filter_map(
            |place: &Option<P>| -> Option<Result<X, E>>
                requires { IfSome place.now (λ p. F.pre f p) }
                ensures { IsAnswer (F.post f) place.now result }
            {
                match place {
                    Some(part) => Some(f(*part)),
                    None => None,
                }
            },
        )
        .with_min_len(1)
        .collect(rt, alloc)
}
