//! The words of an answer.

ghost use Rattle.std.specs.Prelude.{◌≡◌, ◌++◌, ◌⊎◌, IfOk, length, min, take};
ghost use Rattle.geom.specs.Fault.{fault_words};
ghost use Rattle.layers.specs.FaultWords.{place_words};
ghost use Rattle.overlay_c.specs.Boundary.{Holds, fault_from, part_from, words_of};

use crate::answer::{ANSWERED, NO_CALL, OverlayAnswer, SMALL};
use geom::{Fault, NoMemory, Part};
use std::alloc::Global;

/// The fault with this number, and this offset or count.
fn fault_of(number: u32, detail: u64) -> Option<Fault>
    ensures { result ≡ fault_from number detail }
{
    match number {
        0 => Some(Fault::LayerLong),
        1 => Some(Fault::Syntax(detail as usize)),
        2 => Some(Fault::NumberRange(detail as usize)),
        3 => Some(Fault::RingShort(detail as usize)),
        4 => Some(Fault::RingOpen(detail as usize)),
        5 => Some(Fault::TooManySegments(detail)),
        6 => Some(Fault::BadTile),
        8 => Some(Fault::TooManyTiles(detail)),
        10 => Some(Fault::Memory),
        _ => None,
    }
}

fn part_of(part: u32) -> Part
    ensures { result ≡ part_from part }
{
    match part {
        0 => Part::A,
        1 => Part::B,
        _ => Part::Run,
    }
}

/// The words of a fault, behind the layer that it is about.
fn told(alloc: Global, part: Part, fault: Fault) -> Result<Vec<u8>, NoMemory>
    ensures { IfOk result (λ words. words.items ≡ place_words part ++ fault_words fault) }
{
    let words = match part {
        Part::A => format!(in alloc; "A: {}", fault)?,
        Part::B => format!(in alloc; "B: {}", fault)?,
        Part::Run => format!(in alloc; "{}", fault)?,
    };
    Ok(words.into_bytes())
}

fn words(alloc: Global, answer: &OverlayAnswer) -> Result<Vec<u8>, NoMemory>
    ensures { IfOk result (λ words. words.items ≡ words_of answer.now) }
{
    if answer.status == NO_CALL {
        return Ok(Vec::from_slice(alloc, b"no such call")?);
    }
    if answer.status == SMALL {
        return Ok(Vec::from_slice(alloc, b"the room is too small")?);
    }
    if answer.status == ANSWERED {
        return Ok(Vec::new(alloc));
    }
    match fault_of(answer.number, answer.detail) {
        Some(fault) => told(alloc, part_of(answer.part), fault),
        None => Ok(Vec::new(alloc)),
    }
}

/// Puts the words of an answer at the beginning of a room, without a 0 at their end, and answers how many bytes they are:
/// none where they don't fit, where memory runs out, or where the answer has a text. 64 bytes are enough for every answer.
#[unsafe(no_mangle)]
pub extern "C" fn overlay_words(alloc: Global, answer: &OverlayAnswer, room: &mut [u8]) -> usize
    ensures size { length room.new ≡ length room.old }
    ensures words { ((result ≡ length (words_of answer.now)) × Holds (words_of answer.now) room.old room.new) ⊎ ((result ≡ 0) × (room.new ≡ room.old)) }
{
    match words(alloc, answer) {
        Ok(text) if text.len() <= room.len() => {
            room[..text.len()].copy_from_slice(&text);
            text.len()
        }
        _ => 0,
    }
}
