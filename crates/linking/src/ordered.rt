//! Lists in an order that definitions know.

ghost use Rattle.std.proofs.Common.{ap, refl, sym};
ghost use Rattle.std.specs.Cmp.{int_cmp_is};
ghost use Rattle.std.specs.Ordering.{int_cmp, nat_cmp, ordering_then};
ghost use Rattle.std.specs.Prelude.{◌≡◌, ◌<ℤ◌};
ghost use Rattle.std.specs.declared.cmp.Ordering.{Ordering};
ghost use Rattle.std.specs.declared.cmp.Ordering.TheVariants.{Less};
ghost use Rattle.std.specs.List.Sorted.{IsPermutation, IsSorted};
ghost use Rattle.linking.specs.Orders.{copies_order, feature_link_order, link_order, point_order};

use crate::keyed::{Keyed, sorted};
use crate::link::Link;
use feature_links::FeatureLink;
use std::alloc::Allocator;

/// Items in an order that definitions know: of two with different keys, that with the lower one goes before.
pub trait Ordered: Ord + Keyed {
    ghost order: { Self → Self → Ordering };

    ghost order_is: { (x y : Self) → Self.cmp x y ≡ order x y };

    ghost by_key: { (x y : Self) → Self.key_of x <ℤ Self.key_of y → order x y ≡ Less };
}

impl Ordered for Link {
    ghost order = { link_order };

    ghost order_is = { λ l m. refl };

    ghost by_key = { λ l m h. sym (ap (λ (o : Ordering). ordering_then (ordering_then (ordering_then o (int_cmp l.edge.p.y m.edge.p.y)) (point_order l.edge.q m.edge.q)) (copies_order l.copies m.copies)) (int_cmp_is l.edge.p.x m.edge.p.x Less h)) };
}

impl Ordered for FeatureLink {
    ghost order = { feature_link_order };

    ghost order_is = { λ l m. refl };

    ghost by_key = { λ l m h. sym (ap (λ (o : Ordering). ordering_then (ordering_then (ordering_then o (int_cmp l.edge.p.y m.edge.p.y)) (point_order l.edge.q m.edge.q)) (nat_cmp l.feature m.feature)) (int_cmp_is l.edge.p.x m.edge.p.x Less h)) };
}

/// A list that is in order.
#[derive(Drop)]
pub struct InOrder<T: Ordered + Copy, A: Allocator> {
    pub items: Vec<T, A>,
    ghost sorted: { IsSorted T.order items.items },
}

impl<T: Ordered + Copy, A: Allocator + Copy> InOrder<T, A> {
    /// The items in order.
    pub fn of(items: Vec<T, A>) -> InOrder<T, A>
        ensures { IsPermutation items.items result.items.items }
    {
        InOrder {
            items: sorted(items),
        }
    }
}
