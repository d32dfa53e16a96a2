//! A search for the first item of a list that fails a test, or isn't behind the one before it.

ghost use Rattle.std.specs.Prelude.{◌<◌, MatchBool, MatchOption, true, false, length};
ghost use Rattle.overlay_c.specs.Search.{IsFirstUnlike, IsUnlike};
ghost use Rattle.overlay_c.specs.Strips.{AreInPlace, IsInPlace};

/// Whether the item at a place passes a test, and is behind the one before it.
fn is_in_place<X: Copy, F: Fn(X) -> bool + Copy, B: Fn(X, X) -> bool + Copy>(
    items: &[X],
    place: usize,
    is_item: F,
    is_before: B,
) -> bool
    requires item { F.IsAlwaysCallable is_item }
    requires before { B.IsAlwaysCallable is_before }
    requires place { place < length items.now }
    ensures { MatchBool result (IsInPlace (λ x. F.post is_item x true) (λ x y. B.post is_before x y true) items.now place) (IsUnlike (λ x. F.post is_item x false) (λ x y. B.post is_before x y false) items.now place) }
{
    is_item(items[place]) && (place == 0 || is_before(items[place - 1], items[place]))
}

/// The place of the first item that fails a test, or isn't behind the one before it.
pub fn first_bad<X: Copy, F: Fn(X) -> bool + Copy, B: Fn(X, X) -> bool + Copy>(
    items: &[X],
    is_item: F,
    is_before: B,
) -> Option<usize>
    requires item { F.IsAlwaysCallable is_item }
    requires before { B.IsAlwaysCallable is_before }
    ensures { MatchOption result (AreInPlace (λ x. F.post is_item x true) (λ x y. B.post is_before x y true) items.now) (λ place. IsFirstUnlike (λ x. F.post is_item x true) (λ x. F.post is_item x false) (λ x y. B.post is_before x y true) (λ x y. B.post is_before x y false) items.now place) }
{
    for place in 0..items.len() {
        if !is_in_place(items, place, is_item, is_before) {
            return Some(place);
        }
    }
    None
}
