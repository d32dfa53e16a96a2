//! Numbers that many hands draw, each once.

ghost use Rattle.std.specs.Prelude.{◌≡◌, ℕ, ◌+◌, ◌<◌, ◌≤◌, ◌++◌, ◌∷◌, [], ◌↔◌, true, false, All, IfOk, IfErr, IfSome, IfNone, IsOk, vec_len, length};
ghost use Rattle.std.specs.Prelude.{flat_map};
ghost use Rattle.tile_book.specs.Calls.{DrawsLegally, draw_told};
ghost use Rattle.tile_book.specs.Drawing.{ticket};
ghost use Rattle.tile_book.specs.Counts.{HoldsEachOnce};

use crate::ticket::{Ends, Fair, OneHand, Sits, Size, Takes, Ticket, Together};
use atomic_table::{Seat, Table};
use geom::NoMemory;
use std::alloc::Allocator;
use std::marker::Model;

/// How many numbers a draw has at most.
pub const MOST_NUMBERS: u32 = 4_194_304;

/// How many hands a draw has at most.
pub const MOST_HANDS: u32 = 64;

/// The numbers below a limit, which many hands draw. Contracts see which draw it is, its limit, and how many hands it has.
#[derive(Drop)]
pub struct Draw<A: Allocator> {
    limit: u32,
    hands: u32,
    table: Table<u8, Ticket, Size, Fair, A>,
}

impl<A: Allocator> Model for Draw<A> {
    ghost use Rattle.std.specs.Prelude.{◌≡◌, ◌<◌, ◌≤◌};
    ghost use Rattle.tile_book.specs.Shown.{DrawView, draw_code};
    ghost use Rattle.tile_book.specs.declared.draw.TheConstants.{MOST_HANDS, MOST_NUMBERS};

    ghost Value = { DrawView };

    ghost coded = { draw_code };

    ghost view = { λ d. record { table = d.table.shared.table_id; limit = d.limit; hands = d.hands } };

    ghost invariant = { λ d. (d.table.shared.table_id.words ≡ 1) × (d.table.shared.key ≡ record { limit = d.limit; hands = d.hands }) × (d.limit ≤ MOST_NUMBERS) × (0 < d.hands) × (d.hands ≤ MOST_HANDS) };
}

/// The right to draw. Contracts see its draw, whether it is spent, and the numbers that it drew, in their order.
#[derive(Drop)]
pub struct Hand {
    spent: bool,
    seat: Seat<u8, Ticket>,
}

impl Model for Hand {
    ghost use Rattle.std.specs.Prelude.{◌≡◌, [], if◌then◌else◌};
    ghost use Rattle.tile_book.specs.Shown.{HandView, hand_code};

    ghost Value = { HandView };

    ghost coded = { hand_code };

    ghost view = { λ h. record { draw = record { table = h.seat.table_id; limit = h.seat.me.0.limit; hands = h.seat.me.0.hands }; spent = h.spent; drawn = h.seat.me.0.drawn } };

    ghost invariant = { λ h. (h.seat.me.1 ≡ []) × (h.seat.me.0.parts ≡ 1) × (h.seat.me.0.spent ≡ (if h.spent then 1 else 0)) };
}

/// A draw that has ended: its hands' lists hold the numbers below its limit, each once and none left out.
#[derive(Drop)]
pub struct Drawn {
    limit: u32,
    seat: Seat<u8, Ticket>,
}

impl Model for Drawn {
    ghost use Rattle.std.specs.Prelude.{◌≡◌};
    ghost use Rattle.tile_book.specs.Shown.{DrawnView};
    ghost use Rattle.tile_book.specs.Counts.{HoldsEachOnce};

    ghost Value = { DrawnView };

    ghost view = { λ d. record { limit = d.limit; drawn = d.seat.me.0.drawn } };

    ghost invariant = { λ d. HoldsEachOnce d.limit d.seat.me.0.drawn };
}

impl<A: Allocator> Draw<A> {
    /// The numbers below a limit of at most `MOST_NUMBERS`, and 1 to 64 hands, none spent, with nothing drawn.
    pub fn new(alloc: A, limit: u32, hands: u32) -> Result<(Draw<A>, Vec<Hand, A>), NoMemory>
    where
        A: Copy,
        requires limit { limit ≤ MOST_NUMBERS }
        requires hands { (0 < hands) × (hands ≤ MOST_HANDS) }
        ensures draw { IfOk result (λ d. (d.0.limit ≡ limit) × (d.0.hands ≡ hands)) }
        ensures hands { IfOk result (λ d. (vec_len d.1 ≡ hands) × All (λ h. (h.draw ≡ d.0) × (h.spent ≡ false) × (h.drawn ≡ [])) d.1.items) }
    {
        let mut made = Vec::with_capacity(alloc, hands as usize)?;
        let (table, mut seat) = Table::of_words(alloc, &[0], &Size { limit, hands })?;
        for _ in 0..hands {
            let own = table.shared.split_seat::<OneHand>(&mut seat);
            made.push_reserved(Hand {
                spent: false,
                seat: own,
            });
        }
        Ok((
            Draw {
                limit,
                hands,
                table,
            },
            made,
        ))
    }

    /// A number that nobody else has, or `None` once none is left, from where on the hand is spent. It waits for nobody
    /// and takes no memory.
    pub fn draw(&self, hand: &mut Hand) -> Option<u32>
        requires own { hand.old.draw ≡ self.now }
        ensures own { hand.new.draw ≡ self.now }
        ensures small { IfSome result (λ _. self.now.limit ≤ MOST_NUMBERS) }
        ensures some { IfSome result (λ k. (k < self.now.limit) × (hand.old.spent ≡ false) × (hand.new.spent ≡ false) × (hand.new.drawn ≡ hand.old.drawn ++ k ∷ []) × All (λ x. x < k) hand.old.drawn) }
        ensures none { IfNone result ((hand.new.spent ≡ true) × (hand.new.drawn ≡ hand.old.drawn)) }
        ensures live { hand.old.spent ≡ false → (word : ℕ) × DrawsLegally self.now.limit word (word + 1) false hand.new.spent (draw_told result) }
        ensures spent { hand.old.spent ≡ true → (word : ℕ) → DrawsLegally self.now.limit word word true hand.new.spent (draw_told result) }
    {
        if hand.spent {
            return None;
        }
        let found = self.table.shared.fetch_add::<Takes>(&mut hand.seat, 0, 1);
        if found < self.limit as u64 {
            Some(found as u32)
        } else {
            hand.spent = true;
            None
        }
    }

    // The hand's numbers before those of the seat.
    fn taken_in(&self, hand: Hand, all: Seat<u8, Ticket>) -> Seat<u8, Ticket>
        requires own { hand.draw ≡ self.now }
        requires seat { (all.table_id ≡ self.now.table) × (all.me.1 ≡ []) }
        ensures own { (result.table_id ≡ self.now.table) }
        ensures spent { hand.spent ≡ true → result.me ≡ (ticket self.now.limit self.now.hands (all.me.0.parts + 1) (all.me.0.spent + 1) (hand.drawn ++ all.me.0.drawn), []) }
    {
        let Hand { spent: _, mut seat } = hand;
        self.table.shared.join_seat::<Together>(&mut seat, all);
        seat
    }

    // A seat that stands for all these hands, which are spent.
    fn gathered(&self, mut hands: Vec<Hand, A>) -> Seat<u8, Ticket>
        requires own { All (λ h. (h.draw ≡ self.now) × (h.spent ≡ true)) hands.items }
        requires some { 0 < vec_len hands }
        ensures own { result.table_id ≡ self.now.table }
        ensures all { result.me ≡ (ticket self.now.limit self.now.hands (vec_len hands) (vec_len hands) (flat_map (λ h. h.drawn) hands.items), []) }
    {
        let (_, mut all) = self.table.shared.load_new_seat::<Sits>(0);
        while let Some(hand) = hands.pop() {
            all = self.taken_in(hand, all);
        }
        all
    }

    // The seat of all hands learns that they left nothing out.
    fn ended(&self, mut seat: Seat<u8, Ticket>) -> Drawn
        requires own { seat.table_id ≡ self.now.table }
        requires all { (seat.me.1 ≡ []) × (seat.me.0.limit ≡ self.now.limit) × (seat.me.0.parts ≡ self.now.hands) × (seat.me.0.hands ≡ self.now.hands) × (seat.me.0.spent ≡ self.now.hands) }
        ensures { (result.limit ≡ self.now.limit) × (result.drawn ≡ seat.me.0.drawn) }
    {
        self.table.shared.load::<Ends>(&mut seat, 0);
        Drawn {
            limit: self.limit,
            seat,
        }
    }
}

impl Hand {
    /// Whether it has met the end.
    pub fn is_spent(&self) -> bool
        ensures { result ≡ self.now.spent }
    {
        self.spent
    }
}

impl Drawn {
    /// How many numbers were drawn: each below the limit once, and no other.
    pub fn limit(&self) -> u32
        ensures limit { result ≡ self.now.limit }
        ensures once { HoldsEachOnce self.now.limit self.now.drawn }
    {
        self.limit
    }
}

/// Ends a draw whose hands are all there and spent. Otherwise all is handed back.
pub fn finish<A: Allocator>(
    draw: Draw<A>,
    hands: Vec<Hand, A>,
) -> Result<Drawn, (Draw<A>, Vec<Hand, A>)>
    requires { All (λ h. h.draw ≡ draw) hands.items }
    ensures exact { IsOk result ↔ ((vec_len hands ≡ draw.hands) × All (λ h. h.spent ≡ true) hands.items) }
    ensures ok { IfOk result (λ d. (d.limit ≡ draw.limit) × (d.drawn ≡ flat_map (λ h. h.drawn) hands.items)) }
    ensures once { IfOk result (λ d. HoldsEachOnce d.limit d.drawn) }
    ensures err { IfErr result (λ e. (e.0 ≡ draw) × (e.1 ≡ hands)) }
{
    if hands.len() != draw.hands as usize || !hands.iter().all(|h| h.is_spent()) {
        return Err((draw, hands));
    }
    let seat = draw.gathered(hands);
    let drawn = draw.ended(seat);
    drawn.limit();
    Ok(drawn)
}
