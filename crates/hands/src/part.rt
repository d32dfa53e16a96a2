//! Parts of a list that follow one another.

ghost use Rattle.std.specs.Prelude.{◌≡◌, ◌<◌, ◌^◌, ◌-◌, ℕ, IfOk, flat_map};
ghost use Rattle.hands.specs.Consecutive.{ArePartsOf};

use std::alloc::{AllocError, Allocator};

/// The places from one to before another one.
#[derive(Clone, Copy, Debug)]
pub struct Part {
    pub from: usize,
    pub past: usize,
}

/// So many parts of the places below a number, all of the same length but for those behind the last place.
pub fn even_parts<A: Allocator>(
    alloc: A,
    length: usize,
    parts: usize,
) -> Result<Vec<Part, A>, AllocError>
    ensures { IfOk result (λ v. ArePartsOf 0 length v.items) }
{
    let size = length.div_ceil(parts.max(1)).max(1);
    let mut all = Vec::with_capacity(alloc, parts)?;
    let mut from = 0;
    while from < length {
        let past = from.saturating_add(size).min(length);
        all.push(Part { from, past })?;
        from = past;
    }
    Ok(all)
}

/// Lists behind one another.
pub fn joined<T: Drop, A: Allocator>(
    alloc: A,
    lists: Vec<Vec<T, A>, A>,
) -> Result<Vec<T, A>, AllocError>
    ensures { IfOk result (λ v. v.items ≡ flat_map (λ l. l.items) lists.items) }
{
    let room = items_of(&lists);
    let mut rest = lists.into_iter();
    let Some(mut all) = rest.next() else {
        return Ok(Vec::new(alloc));
    };
    all.reserve_exact(room.saturating_sub(all.len()))?;
    for mut list in rest {
        all.append(&mut list)?;
    }
    Ok(all)
}

/// How many items lists have together.
fn items_of<T, A: Allocator>(lists: &[Vec<T, A>]) -> usize {
    let mut items = 0usize;
    for list in lists {
        items = items.saturating_add(list.len());
    }
    items
}

/// At most so many parts of the places below a number, with about as much work each.
pub fn parts_of_work<A: Allocator, F: Fn(usize) -> usize>(
    alloc: A,
    length: usize,
    parts: usize,
    work_of: F,
) -> Result<Vec<Part, A>, AllocError>
    requires { (n : ℕ) → n < length → F.pre work_of n }
    ensures { IfOk result (λ v. ArePartsOf 0 length v.items) }
{
    let share = work_below(length, &work_of) / parts.max(1) + 1;
    let mut all = Vec::with_capacity(alloc, parts)?;
    let mut from = 0;
    let mut work = 0usize;
    for place in 0..length {
        work = work.saturating_add(work_of(place));
        if work >= share {
            let past = place + 1;
            all.push(Part { from, past })?;
            from = past;
            work = 0;
        }
    }
    if from < length {
        all.push(Part { from, past: length })?;
    }
    Ok(all)
}

/// The work of all places below a number.
fn work_below<F: Fn(usize) -> usize>(length: usize, work_of: &F) -> usize
    requires { (n : ℕ) → n < length → F.pre work_of.now n }
    ensures { result < 2 ^ 64 - 1 }
{
    let mut work = 0usize;
    for place in 0..length {
        work = work.saturating_add(work_of(place));
    }
    work.min(usize::MAX - 1)
}
