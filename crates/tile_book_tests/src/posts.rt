//! Posts at the desk and in the book.

ghost use Rattle.std.specs.Prelude.{◌≡◌};

use crate::desks::{desk_of_one, is_closed_full};
use crate::heaps::use_up;
use crate::notes::Note;
use bumpalo::Bump;
use geom::NoMemory;
use std::alloc::{Allocator, Global};
use std::marker::Brand;
use std::sync::Wait;
use std::sync::ledger::Blank;
use std::thread;
use std::thread::Threads;
use tile_book::{Desk, Limited, Returned, Share};

const POSTED: [(u32, PostAnswer); 5] = [
    (2, PostAnswer::Accepted),
    (0, PostAnswer::Accepted),
    (2, PostAnswer::Double),
    (5, PostAnswer::Stranger),
    (1, PostAnswer::Accepted),
];

#[derive(Clone, Copy, PartialEq, Eq, Debug)]
enum PostAnswer {
    Accepted,
    Stranger,
    Double,
}

/// What was answered, where a piece that came back has its number.
fn told(answer: Result<(), Returned<Note>>, number: u32) -> Option<PostAnswer> {
    match answer {
        Ok(()) => Some(PostAnswer::Accepted),
        Err(Returned::Stranger(note)) if note.number == number => Some(PostAnswer::Stranger),
        Err(Returned::Double(note)) if note.number == number => Some(PostAnswer::Double),
        Err(_) => None,
    }
}

#[test]
fn posts_at_the_desk(rt: HostRuntime) {
    assert!(rt; at_the_desk::<Brand, _>(&rt, rt.alloc(), Blank::new(1)) == Ok(true));
}

/// Posts on a thread of its own.
fn post_elsewhere<L: Limited + Send + Sync, R: Threads + Wait + Sync>(
    rt: &R,
    desk: &Desk<Note, L, Global>,
    share: Share<L>,
    note: Note,
) -> (Share<L>, Result<(), Returned<Note>>) {
    thread::join(rt, move || desk.post(rt, share, note), || ()).0
}

/// The share after posts of two threads in turn, and whether they were answered so.
fn post_in_turn<L: Limited + Send + Sync, R: Threads + Wait + Sync>(
    rt: &R,
    desk: &Desk<Note, L, Global>,
    mut share: Share<L>,
) -> (Share<L>, bool) {
    let mut same = true;
    let mut elsewhere = false;
    for (number, expected) in POSTED {
        let note = Note { number };
        let (next, answer) = if elsewhere {
            post_elsewhere(rt, desk, share, note)
        } else {
            desk.post(rt, share, note)
        };
        share = next;
        elsewhere = !elsewhere;
        same = same & (told(answer, number) == Some(expected));
    }
    (share, same)
}

/// One share, which two threads post with in turn.
fn at_the_desk<L: Limited + Send + Sync, R: Threads + Wait + Sync>(
    rt: &R,
    alloc: Global,
    blank: Blank,
) -> Result<bool, NoMemory>
    requires name { blank.name ≡ L.name }
    requires parts { (blank.parts ≡ L.parts) × (blank.parts ≡ 1) }
    requires limit { L.limit ≡ 3 }
{
    let (desk, shares, share) = desk_of_one::<L, Global>(alloc, blank, 3)?;
    let (share, same) = post_in_turn(rt, &desk, share);
    Ok(is_closed_full(desk, shares, share, &[2, 0, 1])? && same)
}

/// The share after posts, and whether they were answered so.
fn post_all<L: Limited, A: Allocator + Copy, R: Wait>(
    rt: &R,
    desk: &Desk<Note, L, A>,
    mut share: Share<L>,
) -> (Share<L>, bool) {
    let mut same = true;
    for (number, expected) in POSTED {
        let (next, answer) = desk.post(rt, share, Note { number });
        share = next;
        same = same & (told(answer, number) == Some(expected));
    }
    (share, same)
}

/// In a heap that has no room left.
#[test]
fn posts_without_memory(rt: HostRuntime) {
    assert!(rt; without_memory::<Brand, _>(&rt, rt.alloc(), Blank::new(1)) == Ok(true));
}

fn without_memory<L: Limited, R: Wait>(
    rt: &R,
    alloc: Global,
    blank: Blank,
) -> Result<bool, NoMemory>
    requires name { blank.name ≡ L.name }
    requires parts { (blank.parts ≡ L.parts) × (blank.parts ≡ 1) }
    requires limit { L.limit ≡ 3 }
{
    let heap = Bump::new(alloc);
    let (desk, shares, share) = desk_of_one::<L, &Bump<Global>>(&heap, blank, 3)?;
    use_up(&heap)?;
    let (share, same) = post_all(rt, &desk, share);
    Ok(is_closed_full(desk, shares, share, &[2, 0, 1])? && same)
}

/// In a heap that has no room left.
#[test]
fn book_of_no_numbers(rt: HostRuntime) {
    assert!(rt; no_numbers::<Brand, _>(&rt, rt.alloc(), Blank::new(1)) == Ok(true));
}

fn no_numbers<L: Limited, R: Wait>(rt: &R, alloc: Global, blank: Blank) -> Result<bool, NoMemory>
    requires name { blank.name ≡ L.name }
    requires parts { (blank.parts ≡ L.parts) × (blank.parts ≡ 1) }
    requires limit { L.limit ≡ 0 }
{
    let heap = Bump::new(alloc);
    let (desk, shares, share) = desk_of_one::<L, &Bump<Global>>(&heap, blank, 0)?;
    use_up(&heap)?;
    let (share, answer) = desk.post(rt, share, Note { number: 0 });
    let same = told(answer, 0) == Some(PostAnswer::Stranger);
    Ok(is_closed_full(desk, shares, share, &[])? && same)
}
