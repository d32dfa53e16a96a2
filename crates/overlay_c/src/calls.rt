//! The calls that C sees.

ghost use Rattle.std.specs.Prelude.{◌≡◌, length};
ghost use Rattle.engine.specs.Fitting.{IsFittingSide};
ghost use Rattle.layers.specs.Refusals.{segment_limit};
ghost use Rattle.overlay_c.specs.Boundary.{Fails, Fills, IsTextOf, Sizes};
ghost use Rattle.overlay_c.specs.Covered.{FailsCovered, IsCoveredMade};
ghost use Rattle.overlay_c.specs.Faces.{AreFacesMade, FailsFaces, IsSideOver, texts_in};

use crate::answer::OverlayAnswer;
use crate::covered_made::covered_text;
use crate::faces::{OverlayLayer, faces_text, side_over};
use crate::made::text_of;
use crate::room::{fill_with, size_of};
use engine::{FacesLimits, Limits, fitting_side};
use std::alloc::Global;

/// The version of these calls and of what they answer.
const VERSION: u32 = 10;

/// How many bytes the text takes: that of an operation (0 union, 1 intersection, 2 difference, 3 symmetric difference) on
/// two layer texts, or of their rounded edges (4), over tiles of this side. The text is made for that, and let go.
#[unsafe(no_mangle)]
pub extern "C" fn overlay_size(
    alloc: Global,
    call: u32,
    side: u32,
    a: &[u8],
    b: &[u8],
    answer: &mut OverlayAnswer,
)
    ensures { Sizes (IsTextOf segment_limit call side a.now b.now) (Fails segment_limit call side a.now b.now) answer.new }
{
    *answer = size_of(text_of(alloc, call, side, Limits::default(), a, b));
}

/// Puts that text at the beginning of a room, where it fits. Nothing else in the room changes.
#[unsafe(no_mangle)]
pub extern "C" fn overlay_fill(
    alloc: Global,
    call: u32,
    side: u32,
    a: &[u8],
    b: &[u8],
    room: &mut [u8],
    answer: &mut OverlayAnswer,
)
    ensures size { length room.new ≡ length room.old }
    ensures fills { Fills (IsTextOf segment_limit call side a.now b.now) (Fails segment_limit call side a.now b.now) room.old room.new answer.new }
{
    *answer = fill_with(text_of(alloc, call, side, Limits::default(), a, b), room);
}

/// The same for layers that together have at most so many segments, where `overlay_fill` has its own limit.
#[unsafe(no_mangle)]
pub extern "C" fn overlay_fill_within(
    alloc: Global,
    call: u32,
    side: u32,
    segments: u32,
    a: &[u8],
    b: &[u8],
    room: &mut [u8],
    answer: &mut OverlayAnswer,
)
    ensures size { length room.new ≡ length room.old }
    ensures fills { Fills (IsTextOf segments call side a.now b.now) (Fails segments call side a.now b.now) room.old room.new answer.new }
{
    *answer = fill_with(text_of(alloc, call, side, Limits { segments }, a, b), room);
}

/// Puts the canonical line of an operation (0 union, 1 intersection, 2 difference, 3 symmetric difference) on two layer texts, over tiles of
/// this side, at the beginning of a room, where it fits: a point lies in a layer where one of its geometries at least covers it. The layers
/// have together at most so many segments. Nothing else in the room changes.
#[unsafe(no_mangle)]
pub extern "C" fn overlay_covered_fill(
    alloc: Global,
    call: u32,
    side: u32,
    segments: u32,
    a: &[u8],
    b: &[u8],
    room: &mut [u8],
    answer: &mut OverlayAnswer,
)
    ensures size { length room.new ≡ length room.old }
    ensures fills { Fills (IsCoveredMade segments call side a.now b.now) (FailsCovered segments call side a.now b.now) room.old room.new answer.new }
{
    *answer = fill_with(
        covered_text(alloc, call, side, Limits { segments }, a, b),
        room,
    );
}

/// The side of a tile that fits two layers: 262,144, or the least greater power of two that doesn't give too many tiles.
#[unsafe(no_mangle)]
pub extern "C" fn overlay_side(a: &[u8], b: &[u8]) -> u32
    ensures { IsFittingSide a.now b.now result }
{
    fitting_side(a, b)
}

/// How many bytes the text of the faces of up to 64 layers takes, over tiles of this side, where they have at most so many segments
/// together, and all rows at most so many ids. The text is made for that, and let go.
#[unsafe(no_mangle)]
pub extern "C" fn overlay_faces_size(
    alloc: Global,
    side: u32,
    segments: u32,
    ids: u64,
    layers: &[OverlayLayer],
    answer: &mut OverlayAnswer,
)
    ensures { Sizes (AreFacesMade (record { segments = segments; ids = ids }) side (texts_in layers.now)) (FailsFaces (record { segments = segments; ids = ids }) side (texts_in layers.now)) answer.new }
{
    let limits = FacesLimits { segments, ids };
    *answer = size_of(faces_text(alloc, side, limits, layers));
}

/// Puts that text at the beginning of a room, where it fits. Nothing else in the room changes.
#[unsafe(no_mangle)]
pub extern "C" fn overlay_faces_fill(
    alloc: Global,
    side: u32,
    segments: u32,
    ids: u64,
    layers: &[OverlayLayer],
    room: &mut [u8],
    answer: &mut OverlayAnswer,
)
    ensures size { length room.new ≡ length room.old }
    ensures fills { Fills (AreFacesMade (record { segments = segments; ids = ids }) side (texts_in layers.now)) (FailsFaces (record { segments = segments; ids = ids }) side (texts_in layers.now)) room.old room.new answer.new }
{
    let limits = FacesLimits { segments, ids };
    *answer = fill_with(faces_text(alloc, side, limits, layers), room);
}

/// The side of a tile that fits up to 64 layers, as `overlay_side` says it, or 262,144 where they are more.
#[unsafe(no_mangle)]
pub extern "C" fn overlay_faces_side(layers: &[OverlayLayer]) -> u32
    ensures { IsSideOver (texts_in layers.now) result }
{
    side_over(layers)
}

/// The version of these calls.
#[unsafe(no_mangle)]
pub extern "C" fn overlay_version() -> u32
    ensures { result ≡ VERSION }
{
    VERSION
}
