//! What the calls answer.

ghost use Rattle.std.specs.Prelude.{◌≡◌};
ghost use Rattle.overlay_c.specs.Boundary.{detail_of, fault_answer, part_number, plain};
ghost use Rattle.overlay_c.specs.Faces.{faces_answer, faces_detail, faces_number, faces_part};

use engine::{FacesFault, FacesPart, FacesRefusal, faces_status, status};
use geom::{Fault, Part, RunFault};

/// There is a text.
pub const ANSWERED: u32 = 0;

/// The number of the call asks for nothing.
pub const NO_CALL: u32 = 2;

/// There is a text, and it doesn't fit.
pub const SMALL: u32 = 4;

/// The number of a refusal for the features of all rows.
pub const TOO_MANY_IDS: u32 = 12;

/// What a call answers. What doesn't belong to its status is 0.
#[repr(C)]
#[derive(Clone, Copy)]
pub struct OverlayAnswer {
    /// The length of the text in bytes, where there is one.
    pub length: u64,
    /// The offset of a fault in bytes of its layer, or the count of segments, tiles or ids.
    pub detail: u64,
    /// 0 answered, 1 out of memory, 2 no such call, 3 refused, 4 the room is too small.
    pub status: u32,
    /// The refusal's number, 0 to 8 or 12, or 10 where memory ran out.
    pub number: u32,
    /// What is refused: the number of a layer, from 0 on, or the count of layers for the run.
    pub part: u32,
}

/// An answer without a fault.
pub fn plain_answer(status: u32, length: usize) -> OverlayAnswer
    ensures { result ≡ plain status length }
{
    OverlayAnswer {
        length: length as u64,
        detail: 0,
        status,
        number: 0,
        part: 0,
    }
}

/// The answer of a run's fault.
pub fn answer_of(fault: &RunFault) -> OverlayAnswer
    ensures { result ≡ fault_answer fault.now.at fault.now.fault }
{
    OverlayAnswer {
        length: 0,
        detail: detail(fault.fault),
        status: u32::from(status(fault)),
        number: u32::from(fault.fault.number()),
        part: number_of_part(fault.at),
    }
}

/// The offset or the count that a fault tells.
pub fn detail(fault: Fault) -> u64
    ensures { result ≡ detail_of fault }
{
    match fault {
        Fault::Syntax(offset)
        | Fault::NumberRange(offset)
        | Fault::RingShort(offset)
        | Fault::RingOpen(offset) => offset as u64,
        Fault::TooManySegments(count) | Fault::TooManyTiles(count) => count,
        _ => 0,
    }
}

fn number_of_part(part: Part) -> u32
    ensures { result ≡ part_number part }
{
    match part {
        Part::A => 0,
        Part::B => 1,
        Part::Run => 2,
    }
}

/// The answer of a fault of faces, over so many layers.
pub fn answer_of_faces(layers: u32, fault: &FacesFault) -> OverlayAnswer
    ensures { result ≡ faces_answer layers fault.now }
{
    OverlayAnswer {
        length: 0,
        detail: detail_of_refusal(fault.refusal),
        status: u32::from(faces_status(fault)),
        number: number_of_refusal(fault.refusal),
        part: number_of_faces_part(layers, fault.at),
    }
}

/// The offset or the count that a refusal tells.
fn detail_of_refusal(refusal: FacesRefusal) -> u64
    ensures { result ≡ faces_detail refusal }
{
    match refusal {
        FacesRefusal::Usual(fault) => detail(fault),
        FacesRefusal::TooManyIds(count) => count,
    }
}

fn number_of_refusal(refusal: FacesRefusal) -> u32
    ensures { result ≡ faces_number refusal }
{
    match refusal {
        FacesRefusal::Usual(fault) => u32::from(fault.number()),
        FacesRefusal::TooManyIds(_) => TOO_MANY_IDS,
    }
}

/// The number of a layer, or how many layers there are.
fn number_of_faces_part(layers: u32, part: FacesPart) -> u32
    ensures { result ≡ faces_part layers part }
{
    match part {
        FacesPart::Layer(number) => u32::from(number),
        FacesPart::Run => layers,
    }
}
