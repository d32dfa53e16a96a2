//! A text that was made, or the answer where there is none: its size is told, or it is put into a room of the caller's.

ghost use Rattle.std.specs.Prelude.{◌≡◌, MatchResult, length};
ghost use Rattle.overlay_c.specs.Boundary.{IsPut, plain};

use crate::answer::{ANSWERED, OverlayAnswer, SMALL, plain_answer};

/// The size of a text that was made, or why there is none.
pub fn size_of(made: Result<Vec<u8>, OverlayAnswer>) -> OverlayAnswer
    ensures { MatchResult made (λ text. result ≡ plain 0 (length text.items)) (λ told. result ≡ told) }
{
    match made {
        Ok(text) => whole(&text),
        Err(told) => told,
    }
}

/// Puts a text that was made at the beginning of a room, where it fits.
pub fn fill_with(made: Result<Vec<u8>, OverlayAnswer>, room: &mut [u8]) -> OverlayAnswer
    ensures size { length room.new ≡ length room.old }
    ensures put { MatchResult made (λ text. IsPut text.items room.old room.new result) (λ told. (result ≡ told) × (room.new ≡ room.old)) }
{
    match made {
        Ok(text) => put(&text, room),
        Err(told) => told,
    }
}

/// Puts a text at the beginning of a room, where it fits.
fn put(text: &[u8], room: &mut [u8]) -> OverlayAnswer
    ensures size { length room.new ≡ length room.old }
    ensures put { IsPut text.now room.old room.new result }
{
    if room.len() < text.len() {
        return plain_answer(SMALL, text.len());
    }
    room[..text.len()].copy_from_slice(text);
    whole(text)
}

/// The answer that there is this text.
fn whole(text: &[u8]) -> OverlayAnswer
    ensures { result ≡ plain 0 (length text.now) }
{
    plain_answer(ANSWERED, text.len())
}
