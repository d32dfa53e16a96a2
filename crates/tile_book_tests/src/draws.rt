//! Numbers that two hands draw.

ghost use Rattle.std.specs.Prelude.{◌≡◌, ◌≤◌, [], IfOk};

use crate::heaps::use_up;
use bumpalo::Bump;
use geom::NoMemory;
use std::alloc::{Allocator, Global};
use tile_book::{Draw, Hand, finish};

/// A draw of two hands, with both.
fn two_hands<A: Allocator + Copy>(alloc: A, limit: u32) -> Result<(Draw<A>, Hand, Hand), NoMemory>
    requires { limit ≤ 65536 }
    ensures { IfOk result (λ r. (r.0.limit ≡ limit) × (r.1.draw ≡ r.0) × (r.2.draw ≡ r.0)) }
{
    let (draw, mut hands) = Draw::new(alloc, limit, 2)?;
    let (Some(one), Some(other)) = (hands.pop(), hands.pop()) else {
        return Err(NoMemory);
    };
    Ok((draw, one, other))
}

/// Which of two hands draw in turn, and what they get.
type Draws = &'static [(bool, Option<u32>)];

const DRAWS: [(u16, Draws); 2] = [
    (0, &[(true, None), (false, None)]),
    (
        2,
        &[
            (true, Some(0)),
            (false, Some(1)),
            (true, None),
            (false, None),
            (false, None),
        ],
    ),
];

/// Whether the hands get this, and the draw can be finished then. The list is empty and has room for both hands.
fn draws_so<A: Allocator>(
    draw: Draw<A>,
    mut one: Hand,
    mut other: Hand,
    mut hands: Vec<Hand, A>,
    limit: u32,
    draws: Draws,
) -> Result<bool, NoMemory>
    requires one { one.draw ≡ draw }
    requires other { other.draw ≡ draw }
    requires none { hands.items ≡ [] }
{
    let mut same = true;
    for (is_one, number) in draws {
        let drawn = if *is_one {
            draw.draw(&mut one)
        } else {
            draw.draw(&mut other)
        };
        same = same & (drawn == *number);
    }
    hands.push(one)?;
    hands.push(other)?;
    let Ok(drawn) = finish(draw, hands) else {
        return Ok(false);
    };
    Ok(same && drawn.limit() == limit)
}

/// Whether they do in a heap that has no room left.
fn draws_without_memory(alloc: Global, limit: u32, draws: Draws) -> Result<bool, NoMemory>
    requires { limit ≤ 65536 }
{
    let heap = Bump::new(alloc);
    let (draw, one, other) = two_hands(&heap, limit)?;
    let hands = Vec::with_capacity(&heap, 2)?;
    use_up(&heap)?;
    draws_so(draw, one, other, hands, limit, draws)
}

#[test]
fn draws_of_two_hands(rt: HostRuntime) {
    for (limit, draws) in DRAWS {
        assert!(rt;
            draws_without_memory(rt.alloc(), u32::from(limit), draws) == Ok(true),
            "{limit}"
        );
    }
}

/// Whether a draw is handed back without hands, without one of them, and with one that has not met the end.
fn is_handed_back(alloc: Global) -> Result<bool, NoMemory> {
    let (draw, mut one, mut other) = two_hands(alloc, 2)?;
    let Err((draw, none)) = finish(draw, Vec::new(alloc)) else {
        return Ok(false);
    };
    draw.draw(&mut one);
    draw.draw(&mut other);
    draw.draw(&mut one);
    let met = none.is_empty() && one.is_spent() && !other.is_spent();
    let mut hands = Vec::new(alloc);
    hands.push(one)?;
    let Err((draw, mut hands)) = finish(draw, hands) else {
        return Ok(false);
    };
    let lacking = hands.len() == 1;
    hands.push(other)?;
    match finish(draw, hands) {
        Ok(_) => Ok(false),
        Err((_, hands)) => Ok(met && lacking && hands.len() == 2),
    }
}

#[test]
fn finish_hands_back(rt: HostRuntime) {
    assert!(rt; is_handed_back(rt.alloc()) == Ok(true));
}
