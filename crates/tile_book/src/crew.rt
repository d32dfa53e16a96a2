//! What each worker of a pass begins with.

ghost use Rattle.std.specs.Prelude.{◌≡◌, [], All, IfOk, vec_len};

use crate::draw::{Draw, Hand};
use crate::share::{Limited, Share};
use geom::NoMemory;
use std::alloc::Allocator;

/// A hand with its share.
#[derive(Drop)]
pub(crate) struct Seat<L: Limited> {
    pub hand: Hand,
    pub share: Share<L>,
}

/// Each hand with a share.
pub(crate) fn seats<L: Limited, A: Allocator + Copy>(
    alloc: A,
    draw: &Draw<A>,
    mut hands: Vec<Hand, A>,
    mut shares: Vec<Share<L>, A>,
) -> Result<Vec<Seat<L>, A>, NoMemory>
    requires own { All (λ h. (h.draw ≡ draw.now) × (h.drawn ≡ [])) hands.items }
    requires fresh { All (λ s. s ≡ 0) shares.items }
    requires shares { vec_len shares ≡ vec_len hands }
    ensures len { IfOk result (λ v. vec_len v ≡ vec_len hands) }
    ensures own { IfOk result (λ v. All (λ s. (s.hand.draw ≡ draw.now) × (s.hand.drawn ≡ []) × (s.share ≡ 0)) v.items) }
{
    let mut seats = Vec::with_capacity(alloc, hands.len())?;
    while let Some(hand) = hands.pop() {
        let Some(share) = shares.pop() else {
            unreachable!()
        };
        seats.push_reserved(Seat { hand, share });
    }
    Ok(seats)
}
