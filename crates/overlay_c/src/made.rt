//! The text that a number asks for.

ghost use Rattle.std.specs.Prelude.{◌≡◌, MatchResult};
ghost use Rattle.engine.specs.Runs.{DeclinesWithin, alone};
ghost use Rattle.overlay_c.specs.Boundary.{Fails, IsMade, IsTextOf, task_from};

use crate::answer::{NO_CALL, OverlayAnswer, answer_of, plain_answer};
use engine::{Limits, Output, edges_alone_within, run_alone_within};
use geom::{Op, RunFault};
use std::alloc::Global;

/// What is asked for.
#[derive(Clone, Copy)]
pub enum Task {
    Apply(Op),
    Edges,
}

/// What the number of a call asks for.
fn task_of(call: u32) -> Option<Task>
    ensures { result ≡ task_from call }
{
    match call {
        0 => Some(Task::Apply(Op::Union)),
        1 => Some(Task::Apply(Op::Intersection)),
        2 => Some(Task::Apply(Op::Difference)),
        3 => Some(Task::Apply(Op::SymDifference)),
        4 => Some(Task::Edges),
        _ => None,
    }
}

fn made_for(
    alloc: Global,
    task: Task,
    side: u32,
    limits: Limits,
    a: &[u8],
    b: &[u8],
) -> Result<Output<Global>, RunFault>
    ensures { MatchResult result (λ made. IsMade limits.segments task side a.now b.now made.text.items) (λ fault. DeclinesWithin limits.segments (alone side) a.now b.now fault.at fault.fault) }
{
    match task {
        Task::Apply(op) => run_alone_within(alloc, op, a, b, side, limits),
        Task::Edges => edges_alone_within(alloc, a, b, side, limits),
    }
}

/// The text within a limit of segments, or the answer where there is none.
pub fn text_of(
    alloc: Global,
    call: u32,
    side: u32,
    limits: Limits,
    a: &[u8],
    b: &[u8],
) -> Result<Vec<u8>, OverlayAnswer>
    ensures { MatchResult result (λ text. IsTextOf limits.segments call side a.now b.now text.items) (λ answer. Fails limits.segments call side a.now b.now answer) }
{
    let Some(task) = task_of(call) else {
        return Err(plain_answer(NO_CALL, 0));
    };
    match made_for(alloc, task, side, limits, a, b) {
        Ok(Output { text, .. }) => Ok(text),
        Err(fault) => Err(answer_of(&fault)),
    }
}
