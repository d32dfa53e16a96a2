//! A search among ascending numbers.

ghost use Rattle.std.specs.Prelude.{◌≡◌, ℕ, ◌+◌, ◌*◌, ◌^◌, ◌<◌, ◌≤◌, pos, ◌≤ℤ◌, ◌<ℤ◌, length, get_or};
ghost use Rattle.tiling.specs.Index.{AreAscending};

use grid::Count;
use std::sync::ledger::Ledger;

// The first place whose number is at least x. It ticks at each read, at most as often as the length has binary digits.
fn first_at_least<L: Ledger>(xs: &[i32], x: i64, count: &mut Count<L>) -> usize
    requires { AreAscending xs.now }
    ensures within { result ≤ length xs.now }
    ensures before { (k : ℕ) → k < result → get_or xs.now k (pos 0) <ℤ x }
    ensures after { (k : ℕ) → result ≤ k → k < length xs.now → x ≤ℤ get_or xs.now k (pos 0) }
    ensures grows { count.old ≤ count.new }
    ensures cost { (d : ℕ) → length xs.now < 2 ^ d → count.new ≤ count.old + d }
{
    let mut low = 0;
    let mut high = xs.len();
    while low < high {
        let middle = low + (high - low) / 2;
        count.tick();
        let number = i64::from(xs[middle]);
        if number < x {
            low = middle + 1;
        } else {
            high = middle;
        }
    }
    low
}

/// Where the greatest right side so far first reaches `low`, and where the left sides first are past `high`. It ticks at
/// each read of a place.
pub fn places_between<L: Ledger>(
    lefts: &[i32],
    greatest: &[i32],
    low: i32,
    high: i32,
    count: &mut Count<L>,
) -> (usize, usize)
    requires lefts { AreAscending lefts.now }
    requires greatest { AreAscending greatest.now }
    requires same { length greatest.now ≡ length lefts.now }
    ensures first_in { result.0 ≤ length lefts.now }
    ensures within { result.1 ≤ length lefts.now }
    ensures before { (k : ℕ) → k < result.0 → get_or greatest.now k (pos 0) <ℤ low }
    ensures first { (k : ℕ) → result.0 ≤ k → k < length greatest.now → low ≤ℤ get_or greatest.now k (pos 0) }
    ensures after { (k : ℕ) → result.1 ≤ k → k < length lefts.now → high <ℤ get_or lefts.now k (pos 0) }
    ensures last { (k : ℕ) → k < result.1 → get_or lefts.now k (pos 0) ≤ℤ high }
    ensures grows { count.old ≤ count.new }
    ensures cost { (d : ℕ) → length lefts.now < 2 ^ d → count.new ≤ count.old + 2 * d }
{
    let from = first_at_least(greatest, i64::from(low), count);
    let to = first_at_least(lefts, i64::from(high) + 1, count);
    (from, to)
}
