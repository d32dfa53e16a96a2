//! Laws over the rule of a draw and over legal histories.

ghost use Rattle.std.specs.Prelude.{◌≡◌, ℕ, ◌+◌, ◌<◌, ◌≤◌, List, true, slice_index};
ghost use mathlib.Core.Option.{some};
ghost use lib.ListN.{get_elem?};
ghost use Rattle.atomic_table.specs.Table.{State};
ghost use Rattle.tile_book.specs.declared.desk_core.Event.{Event};
ghost use Rattle.tile_book.specs.declared.desk_core.Reply.{Reply};
ghost use Rattle.tile_book.specs.declared.ticket.Ticket.{Ticket};
ghost use Rattle.tile_book.specs.declared.ticket.Size.{Size};
ghost use Rattle.tile_book.specs.Counts.{times, HoldsEachOnce};
ghost use Rattle.tile_book.specs.Drawing.{IsFair};
ghost use Rattle.tile_book.specs.History.{IsLegal, accepted_in, was_posted};

/// The word passes the limit by no more than the hands.
pub fn word_stays_near()
    ensures { (z : Size) (s : State ℕ Ticket) → IsFair z s → slice_index s.words 0 ≤ z.limit + 64 }
{}

/// A word below the limit is a number that is in no hand's list.
pub fn word_is_new()
    ensures { (z : Size) (s : State ℕ Ticket) → IsFair z s → slice_index s.words 0 < z.limit → (seat : ℕ) (v : Ticket) → get_elem? s.views seat ≡ some v → times (slice_index s.words 0) v.drawn ≡ 0 }
{}

/// In a legal history each number is accepted at most once, and is below the limit.
pub fn accepted_at_most_once()
    ensures { (n hands : ℕ) (history : List (Event × Reply)) → IsLegal n hands history → (x : ℕ) → (times x (accepted_in history) ≤ 1) × (0 < times x (accepted_in history) → x < n) }
{}

/// A legal history in which every number below the limit was posted, in whatever order and with whatever repeats and
/// strangers, has accepted each of them once and no other.
pub fn all_posted_all_held()
    ensures { (n hands : ℕ) (history : List (Event × Reply)) → IsLegal n hands history → ((k : ℕ) → k < n → was_posted hands k history ≡ true) → HoldsEachOnce n (accepted_in history) }
{}
