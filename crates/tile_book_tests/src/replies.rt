//! A core's replies to events.

ghost use Rattle.std.specs.Prelude.{◌≤◌};

use crate::heaps::use_up;
use bumpalo::Bump;
use geom::NoMemory;
use std::alloc::{Allocator, Global};
use tile_book::{Core, Event, Reply};

/// An event, the reply, and the draw word then.
type Step = (Event, Reply, u32);

const OF_TWO: [Step; 10] = [
    (Event::Draw(1), Reply::Number(0), 1),
    (Event::Draw(0), Reply::Number(1), 2),
    (Event::Post(0, 1), Reply::Ok, 2),
    (Event::Draw(0), Reply::None, 3),
    (Event::Post(1, 0), Reply::Ok, 3),
    (Event::Draw(1), Reply::None, 4),
    (Event::Post(1, 0), Reply::Double, 4),
    (Event::Post(0, 2), Reply::Stranger, 4),
    (Event::Draw(0), Reply::None, 4),
    (Event::Draw(2), Reply::NoHand, 4),
];

const OF_NONE: [Step; 5] = [
    (Event::Draw(0), Reply::None, 1),
    (Event::Draw(1), Reply::None, 2),
    (Event::Post(0, 0), Reply::Stranger, 2),
    (Event::Stop(0), Reply::Ok, 2),
    (Event::Stop(2), Reply::NoHand, 2),
];

/// Whether a core replies so, event by event.
fn steps_so<A: Allocator>(core: &mut Core<A>, steps: &[Step]) -> bool {
    let mut same = true;
    for (event, reply, word) in steps {
        same = same & (core.step(*event) == *reply) & (core.word() == *word);
    }
    same
}

/// Whether a core of two hands gives these replies to these events in one replay, and where there is no memory for a replay
// nothing has changed.
fn replays_so(
    alloc: Global,
    core: &mut Core<&Bump<Global>>,
    steps: &[Step],
) -> Result<bool, NoMemory> {
    let heap = Bump::new(alloc);
    use_up(&heap)?;
    let mut events = Vec::new(alloc);
    let mut replies = Vec::new(alloc);
    for (event, reply, _) in steps {
        events.push(*event)?;
        replies.push(*reply)?;
    }
    let refused = core.replay(&heap, &events).is_err();
    let told = core.replay(alloc, &events)?;
    Ok(refused && told.as_slice() == replies.as_slice())
}

/// Whether a core of two hands, made in a heap that has no room left then, replies so, event by event and in one replay.
fn replies_so(alloc: Global, limit: u32, steps: &[Step], accepted: &[u32]) -> Result<bool, NoMemory>
    requires { limit ≤ 65536 }
{
    let heap = Bump::new(alloc);
    let mut stepped = Core::new(&heap, limit, 2)?;
    let mut replayed = Core::new(&heap, limit, 2)?;
    use_up(&heap)?;
    let same = steps_so(&mut stepped, steps) & replays_so(alloc, &mut replayed, steps)?;
    Ok(same && stepped.accepted() == accepted && replayed.accepted() == accepted)
}

#[test]
fn core_replies(rt: HostRuntime) {
    assert!(rt;
        replies_so(rt.alloc(), 2, &OF_TWO, &[1, 0]) == Ok(true)
            && replies_so(rt.alloc(), 0, &OF_NONE, &[]) == Ok(true)
    );
}
