//! Places as the bits of a number.

ghost use Rattle.std.specs.Prelude.{ℕ, ◌↔◌, ◌<◌, ◌≢◌};
ghost use Rattle.box_lanes.specs.Places.{IsPlace};

/// The lowest of some places, and the others.
pub fn split_first(places: u64) -> (usize, u64)
    requires { 0 < places }
    ensures first { IsPlace places result.0 }
    ensures others { (k : ℕ) → IsPlace result.1 k ↔ (IsPlace places k × (k ≢ result.0)) }
    ensures fewer { result.1 < places }
{
    let first = places.trailing_zeros();
    (first as usize, places & !(1 << first))
}
