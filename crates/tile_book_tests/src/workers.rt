//! What workers leave, one alone and two in threads.

ghost use Rattle.std.specs.Prelude.{◌≡◌, ◌≤◌, IfOk};

use crate::desks::{desk_of_one, is_full};
use crate::notes::{Note, Notes};
use geom::{Fault, NoMemory};
use holding::Holding;
use std::alloc::Global;
use std::marker::Brand;
use std::sync::Wait;
use std::sync::ledger::Blank;
use std::thread::Threads;
use tile_book::{
    Desk, Draw, Gate, Hand, Limited, OpenGate, Phase, Share, WorkOutcome, close, complete, fill,
    finish, work,
};

/// What one worker of five numbers leaves: whether its draw is finished, how many pieces came back, and its fault.
type Ended = (bool, u32, Option<Fault>);

/// How many pieces can be made, the limit of the book, what one worker leaves, and the numbers that the book accepted.
type WorkRow = (u32, u16, Ended, &'static [u32]);

/// In the second the draw goes on past the limit of the book, which sends those pieces back.
const WORKED: [WorkRow; 3] = [
    (5, 5, (true, 0, None), &[0, 1, 2, 3, 4]),
    (5, 3, (true, 2, None), &[0, 1, 2]),
    (3, 5, (false, 0, Some(Fault::Memory)), &[0, 1, 2]),
];

#[test]
fn one_worker_of_five_numbers(rt: HostRuntime) {
    for (room, limit, ended, accepted) in WORKED {
        let job = Notes { count: 5, room };
        let limit = u32::from(limit);
        assert!(rt;
            works_so::<Brand, _>(&rt, rt.alloc(), Blank::new(1), limit, &job, ended, accepted)
                == Ok(true),
            "{room}, {limit}"
        );
    }
}

/// A draw of five numbers for one hand, with it.
fn draw_of_five(alloc: Global) -> Result<(Draw<Global>, Hand), NoMemory>
    ensures { IfOk result (λ r. (r.0.limit ≡ 5) × (r.1.draw ≡ r.0)) }
{
    let (draw, mut hands) = Draw::new(alloc, 5, 1)?;
    match hands.pop() {
        Some(hand) => Ok((draw, hand)),
        None => Err(NoMemory),
    }
}

/// Whether a draw is finished by its one hand.
fn is_finished(alloc: Global, draw: Draw<Global>, hand: Hand) -> Result<bool, NoMemory>
    requires { hand.draw ≡ draw }
{
    let mut hands = Vec::new(alloc);
    hands.push(hand)?;
    Ok(finish(draw, hands).is_ok())
}

/// Whether a desk is closed with its share, and has accepted these numbers.
fn has_accepted<L: Limited>(
    desk: Desk<Note, L, Global>,
    mut shares: Vec<Share<L>>,
    share: Share<L>,
    accepted: &[u32],
) -> Result<bool, NoMemory> {
    shares.push(share)?;
    match close(desk, shares) {
        Ok(book) => Ok(book.accepted() == accepted),
        Err(_) => Ok(false),
    }
}

/// Whether the one worker of a draw of five numbers leaves this.
fn works_so<L: Limited, R: Wait>(
    rt: &R,
    alloc: Global,
    blank: Blank,
    limit: u32,
    job: &Notes,
    ended: Ended,
    accepted: &[u32],
) -> Result<bool, NoMemory>
    requires name { blank.name ≡ L.name }
    requires parts { (blank.parts ≡ L.parts) × (blank.parts ≡ 1) }
    requires limit { (limit ≡ L.limit) × (limit ≤ 65536) }
    requires count { 5 ≤ job.now.count }
{
    let (draw, hand) = draw_of_five(alloc)?;
    let (desk, shares, share) = desk_of_one::<L, Global>(alloc, blank, limit)?;
    let WorkOutcome {
        hand,
        share,
        returned,
        fault,
    } = work(
        rt,
        alloc,
        job,
        Phase::Route,
        &draw,
        hand,
        &desk,
        share,
        &OpenGate,
    );
    let same = (is_finished(alloc, draw, hand)?, returned, fault) == ended;
    Ok(has_accepted(desk, shares, share, accepted)? && same)
}

#[test]
fn two_workers_of_five_numbers(rt: HostRuntime) {
    assert!(rt; two_fill::<Brand, _, _>(&rt, rt.alloc(), Blank::new(2), &OpenGate) == Ok(true));
}

/// Whether two workers of five numbers fill a book.
fn two_fill<L: Limited + Send + Sync, G: Gate + Sync, R: Threads + Wait + Sync>(
    rt: &R,
    alloc: Global,
    blank: Blank,
    gate: &G,
) -> Result<bool, NoMemory>
    requires name { blank.name ≡ L.name }
    requires parts { (blank.parts ≡ L.parts) × (blank.parts ≡ 2) }
    requires limit { L.limit ≡ 5 }
{
    let job = Notes { count: 5, room: 5 };
    let filled = fill::<Global, Notes, L, G, R>(rt, alloc, blank, 5, 2, &job, Phase::Route, gate)?;
    Ok(filled.returned == 0 && filled.book.accepted().len() == 5 && is_full(&filled.book))
}

#[test]
fn all_notes_of_five_numbers(rt: HostRuntime) {
    assert!(rt; makes_all::<Brand, _>(&rt, rt.alloc(), Blank::new(2)) == Ok(true));
}

/// Whether the notes have these numbers.
fn are_numbered(notes: &[Note], numbers: &[u32]) -> bool {
    notes.len() == numbers.len()
        && notes
            .iter()
            .zip(numbers)
            .all(|(note, number)| note.number == *number)
}

/// Whether two workers make the notes of five numbers, and none of them again.
fn makes_all<L: Limited + Send + Sync, R: Threads + Wait + Sync>(
    rt: &R,
    alloc: Global,
    blank: Blank,
) -> Result<bool, NoMemory>
    requires name { blank.name ≡ L.name }
    requires parts { (blank.parts ≡ L.parts) × (blank.parts ≡ 2) }
    requires limit { L.limit ≡ 5 }
{
    let job = Notes { count: 5, room: 5 };
    let filled = fill::<Global, Notes, L, OpenGate, R>(
        rt,
        alloc,
        blank,
        5,
        2,
        &job,
        Phase::Route,
        &OpenGate,
    )?;
    let all = complete::<Global, Notes, L>(alloc, &job, filled.book)?;
    Ok(all.remade == 0 && are_numbered(&all.pieces, &[0, 1, 2, 3, 4]))
}

/// A book that lacks pieces: number 1 of three was posted, and the other two are made when all are asked for.
#[test]
fn notes_that_the_book_lacks(rt: HostRuntime) {
    assert!(rt; makes_the_others::<Brand, _>(&rt, rt.alloc(), Blank::new(1)) == Ok(true));
}

fn makes_the_others<L: Limited, R: Wait>(
    rt: &R,
    alloc: Global,
    blank: Blank,
) -> Result<bool, NoMemory>
    requires name { blank.name ≡ L.name }
    requires parts { (blank.parts ≡ L.parts) × (blank.parts ≡ 1) }
    requires limit { L.limit ≡ 3 }
{
    let (desk, mut shares, share) = desk_of_one::<L, Global>(alloc, blank, 3)?;
    let (share, _answer) = desk.post(rt, share, Note { number: 1 });
    shares.push(share)?;
    let Ok(book) = close(desk, shares) else {
        return Ok(false);
    };
    let job = Notes { count: 3, room: 3 };
    let all = complete::<Global, Notes, L>(alloc, &job, book)?;
    Ok(all.remade == 2 && are_numbered(&all.pieces, &[0, 1, 2]))
}

#[test]
fn two_workers_at_the_same_time(rt: HostRuntime) {
    let gate = Holding::until(Phase::Route, 1);
    let filled = two_fill::<Brand, _, _>(&rt, rt.alloc(), Blank::new(2), &gate);
    assert!(rt; filled == Ok(true) && gate.has_seen());
}
