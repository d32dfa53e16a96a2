//! A text in parts, as several workers make it at once.

ghost use Rattle.std.specs.Prelude.{◌≡◌, ◌≤◌, ◌++◌, ℕ, IfOk, List, flat_map, length, slice_range};
ghost use Rattle.results.specs.Texts.{edges_text_of};

use crate::text::edges_text;
use geom::{Counted, NoMemory};
use hands::{Part, even_parts, map_parts};
use std::alloc::Allocator;
use std::marker::Model;
use std::thread::Threads;

/// A text in parts, one behind another, so that none has to be copied behind another.
#[derive(Drop)]
pub struct TextParts<A: Allocator> {
    parts: Vec<Vec<u8, A>, A>,
}

impl<A: Allocator> Model for TextParts<A> {
    ghost Value = { List ℕ };

    ghost view = { λ t. flat_map (λ p. p.items) t.parts.items };
}

impl<A: Allocator + Copy> TextParts<A> {
    /// A text in one part.
    pub fn one(alloc: A, text: Vec<u8, A>) -> Result<TextParts<A>, NoMemory>
        ensures { IfOk result (λ t. t ≡ text.items) }
    {
        let mut parts = Vec::with_capacity(alloc, 1)?;
        parts.push(text)?;
        Ok(TextParts { parts })
    }
}

impl<A: Allocator> TextParts<A> {
    /// A text in these parts.
    pub fn of(parts: Vec<Vec<u8, A>, A>) -> TextParts<A>
        ensures { result ≡ flat_map (λ p. p.items) parts.items }
    {
        TextParts { parts }
    }

    /// The parts.
    pub fn parts(&self) -> &[Vec<u8, A>]
        ensures { flat_map (λ p. p.items) result.now ≡ self.now }
    {
        &self.parts
    }
}

/// A text with another behind it.
pub fn joined<A: Allocator>(
    mut text: TextParts<A>,
    mut rest: TextParts<A>,
) -> Result<TextParts<A>, NoMemory>
    ensures { IfOk result (λ all. all ≡ text ++ rest) }
{
    text.parts.append(&mut rest.parts)?;
    Ok(text)
}

/// The text of edges, in at most so many parts.
pub fn edges_text_in_parts<A: Allocator + Copy + Send + Sync, R: Threads + Sync>(
    rt: &R,
    alloc: A,
    parts: usize,
    edges: &[Counted],
) -> Result<TextParts<A>, NoMemory>
    ensures { IfOk result (λ text. text ≡ edges_text_of edges.now) }
{
    let parts = even_parts(alloc, edges.len(), parts)?;
    let texts = map_parts(
        rt,
        alloc,
        &parts,
        |part: Part| -> Result<Vec<u8, A>, NoMemory>
            requires { (part.from ≤ part.past) × (part.past ≤ length edges.now) }
            ensures { IfOk result (λ text. text.items ≡ edges_text_of (slice_range edges.entry.now part.from part.past)) }
        { edges_text(alloc, &edges[part.from..part.past]) },
    )?;
    Ok(TextParts::of(texts))
}
