//! What calls on columns answer.

ghost use Rattle.std.specs.Prelude.{◌≡◌};
ghost use Rattle.overlay_c.specs.Columns.{columns_answer, columns_detail, columns_status, lengths_answer, lists_of, refused_answer};

use crate::answer::{NO_CALL, detail};
use columns::{ColumnsFault, OwnedColumns};
use engine::ColumnsRefused;
use geom::Fault;
use std::alloc::Allocator;

/// What a call on columns answers. What doesn't belong to its status is 0.
#[repr(C)]
#[derive(Clone, Copy)]
pub struct OverlayColumnsAnswer {
    /// How many coordinates the result has, where there is one.
    pub coordinates: u64,
    /// How many offsets of rings it has.
    pub rings: u64,
    /// How many offsets of polygons it has.
    pub polygons: u64,
    /// The number of the point, ring or offset at fault in its column, or the count of segments or tiles.
    pub detail: u64,
    /// 0 answered, 1 out of memory, 2 no such call, 3 refused, 4 a room is too small.
    pub status: u32,
    /// The refusal's number: 2 to 6, 8 or 13 to 16, or 10 where memory ran out.
    pub number: u32,
    /// What is refused: 0 the first layer, 1 the second one, 2 the run.
    pub part: u32,
}

/// The answer that there are these columns.
pub fn lengths_of<A: Allocator>(status: u32, columns: &OwnedColumns<A>) -> OverlayColumnsAnswer
    ensures { result ≡ lengths_answer status (lists_of columns.now) }
{
    OverlayColumnsAnswer {
        coordinates: columns.coordinates.len() as u64,
        rings: columns.rings.len() as u64,
        polygons: columns.polygons.len() as u64,
        detail: 0,
        status,
        number: 0,
        part: 0,
    }
}

/// An answer without columns.
pub fn told(status: u32, number: u8, part: u32, detail: u64) -> OverlayColumnsAnswer
    ensures { result ≡ refused_answer status number part detail }
{
    OverlayColumnsAnswer {
        coordinates: 0,
        rings: 0,
        polygons: 0,
        detail,
        status,
        number: u32::from(number),
        part,
    }
}

/// The answer where the number of the call asks for no operation.
pub fn no_such_call() -> OverlayColumnsAnswer
    ensures { result ≡ refused_answer 2 0 0 0 }
{
    told(NO_CALL, 0, 0, 0)
}

/// The answer of a refusal.
pub fn answer_of_columns(refused: ColumnsRefused) -> OverlayColumnsAnswer
    ensures { result ≡ columns_answer refused }
{
    match refused {
        ColumnsRefused::A(fault) => told(3, fault.number(), 0, place_of(fault)),
        ColumnsRefused::B(fault) => told(3, fault.number(), 1, place_of(fault)),
        ColumnsRefused::Run(fault) => told(status_of(fault), fault.number(), 2, detail(fault)),
    }
}

/// The number of the point, ring or offset that a fault of columns tells.
pub fn place_of(fault: ColumnsFault) -> u64
    ensures { result ≡ columns_detail fault }
{
    match fault {
        ColumnsFault::PointsUneven => 0,
        ColumnsFault::PointRange(at)
        | ColumnsFault::RingShort(at)
        | ColumnsFault::RingOpen(at)
        | ColumnsFault::FeatureOffset(at)
        | ColumnsFault::PolygonOffset(at)
        | ColumnsFault::RingOffset(at) => at as u64,
    }
}

/// 1 where memory ran out, otherwise 3.
fn status_of(fault: Fault) -> u32
    ensures { result ≡ columns_status fault }
{
    match fault {
        Fault::Memory => 1,
        _ => 3,
    }
}
