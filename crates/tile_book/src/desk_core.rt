//! The desk as a machine of one thread, event by event.

ghost use Rattle.std.specs.Prelude.{◌≡◌, ◌<◌, ◌≤◌, List, [], ◌∷◌, IfOk, OnErr, length, replicate};
ghost use Rattle.tile_book.specs.Machine.{reply_of, after, replies_of, after_all, posted_after, drawn_after, stopped_after, draw_reply, post_reply, stop_reply, new_core, Agrees, StaysLegal};
ghost use Rattle.tile_book.specs.History.{IsLegal, followed_by};
ghost use Rattle.tile_book.specs.declared.desk_core.Event.{Event};
ghost use Rattle.tile_book.specs.declared.desk_core.Reply.{Reply};

use crate::draw::{MOST_HANDS, MOST_NUMBERS};
use geom::NoMemory;
use std::alloc::Allocator;
use std::marker::Model;

/// What a hand does: it draws, posts the piece of a number, or stops.
#[derive(Clone, Copy, PartialEq, Eq, Debug)]
pub enum Event {
    Draw(u32),
    Post(u32, u32),
    Stop(u32),
}

/// What a hand is told.
#[derive(Clone, Copy, PartialEq, Eq, Debug)]
pub enum Reply {
    Number(u32),
    None,
    Ok,
    Stranger,
    Double,
    NoHand,
}

/// The draw word, the hands that are spent, and the numbers that were accepted.
#[derive(Drop)]
pub struct Core<A: Allocator> {
    limit: u32,
    word: u32,
    spent: Vec<bool, A>,
    held: Vec<bool, A>,
    accepted: Vec<u32, A>,
}

impl<A: Allocator> Model for Core<A> {
    ghost use Rattle.std.specs.Prelude.{vec_capacity};
    ghost use Rattle.tile_book.specs.Machine.{CoreView, IsSound};

    ghost Value = { CoreView };

    ghost view = { λ c. record { limit = c.limit; word = c.word; spent = c.spent.items; held = c.held.items; accepted = c.accepted.items } };

    ghost use Rattle.std.specs.Prelude.{◌≤◌};

    ghost invariant = { λ c. IsSound record { limit = c.limit; word = c.word; spent = c.spent.items; held = c.held.items; accepted = c.accepted.items } × (c.limit ≤ vec_capacity c.accepted) };
}

impl<A: Allocator> Core<A> {
    /// A new core for the numbers below a limit of at most `MOST_NUMBERS`, and at most 64 hands. It reserves all that `step` needs.
    pub fn new(alloc: A, limit: u32, hands: u32) -> Result<Core<A>, NoMemory>
    where
        A: Copy,
        requires limit { limit ≤ MOST_NUMBERS }
        requires hands { hands ≤ MOST_HANDS }
        ensures new { IfOk result (λ c. c ≡ new_core limit hands) }
        ensures no_history { IfOk result (λ c. Agrees c []) }
    {
        let spent = vec![in alloc; false; hands as usize]?;
        let held = vec![in alloc; false; limit as usize]?;
        let accepted = Vec::with_capacity(alloc, limit as usize)?;
        Ok(Core {
            limit,
            word: 0,
            spent,
            held,
            accepted,
        })
    }

    /// The reply to one event. After a legal history that agrees with the core the history stays legal, and agrees with it
    /// again. It takes no memory.
    pub fn step(&mut self, event: Event) -> Reply
        ensures reply { result ≡ reply_of self.old event }
        ensures after { self.new ≡ after self.old event }
        ensures legal { StaysLegal self.old self.new (λ before. (event, result) ∷ before) }
    {
        // Read, so that the proof has the core's invariant.
        let _limit = self.limit;
        self.apply(event)
    }

    /// The replies to these events, in their order: a legal history, after one that agrees with the core. With no memory
    /// nothing has changed.
    pub fn replay<B: Allocator>(
        &mut self,
        alloc: B,
        events: &[Event],
    ) -> Result<Vec<Reply, B>, NoMemory>
        ensures ok { IfOk result (λ rs. (rs.items ≡ replies_of self.old events.now) × (self.new ≡ after_all self.old events.now)) }
        ensures legal { IfOk result (λ rs. StaysLegal self.old self.new (λ before. followed_by before events.now rs.items)) }
        ensures err { OnErr result (self.new ≡ self.old) }
    {
        // Read, so that the proof has the core's invariant.
        let _limit = self.limit;
        let mut replies = Vec::with_capacity(alloc, events.len())?;
        for event in events {
            replies.push_reserved(self.step(*event));
        }
        Ok(replies)
    }

    /// How many live draws there were.
    pub fn word(&self) -> u32
        ensures { result ≡ self.now.word }
    {
        self.word
    }

    /// The accepted numbers, in their order.
    pub fn accepted(&self) -> &[u32]
        ensures { result.now ≡ self.now.accepted }
    {
        self.accepted.as_slice()
    }

    fn apply(&mut self, event: Event) -> Reply
        ensures reply { result ≡ reply_of self.old event }
        ensures after { self.new ≡ after self.old event }
    {
        match event {
            Event::Draw(hand) => self.draw(hand),
            Event::Post(hand, number) => self.post(hand, number),
            Event::Stop(hand) => self.stop(hand),
        }
    }

    fn draw(&mut self, hand: u32) -> Reply
        ensures reply { result ≡ draw_reply self.old hand }
        ensures after { self.new ≡ drawn_after self.old hand }
    {
        if hand as usize >= self.spent.len() {
            return Reply::NoHand;
        }
        if self.spent[hand as usize] {
            return Reply::None;
        }
        let word = self.word;
        if word < self.limit {
            self.word = word + 1;
            Reply::Number(word)
        } else {
            self.word = word + 1;
            self.spent[hand as usize] = true;
            Reply::None
        }
    }

    fn post(&mut self, hand: u32, number: u32) -> Reply
        ensures reply { result ≡ post_reply self.old hand number }
        ensures after { self.new ≡ posted_after self.old hand number }
    {
        if hand as usize >= self.spent.len() {
            return Reply::NoHand;
        }
        if number >= self.limit {
            return Reply::Stranger;
        }
        if self.held[number as usize] {
            return Reply::Double;
        }
        self.held[number as usize] = true;
        self.accepted.push_reserved(number);
        Reply::Ok
    }

    fn stop(&mut self, hand: u32) -> Reply
        ensures reply { result ≡ stop_reply self.old hand }
        ensures after { self.new ≡ stopped_after self.old hand }
    {
        if hand as usize >= self.spent.len() {
            return Reply::NoHand;
        }
        self.spent[hand as usize] = true;
        Reply::Ok
    }
}
