//! Laws of strips of columns, as the contracts of functions with empty bodies: a map is rounded strip by strip, and the edges of all strips, one
//! behind another, are the rounded edges of all segments. No data goes through them.
//!
//! 1. Segments have lines, with their lesser ends first, which may be made in parts (`lines_are_ordered`, `lines_follow`).
//! 2. What a strip has depends on the lines that reach it alone (`strip_is_local`).
//! 3. From the last strip to the first, what is carried over each border makes the edges across it (`last_strip`, `strips_are_bridged`).
//! 4. The edges in a strip and those across its right border are those whose lesser end lies in it (`edges_of_strip`);
//!    none is both (`no_edge_is_both`).
//! 5. Those of all strips are the rounded edges (`strips_are_rounded`).
//!
//! The promise: any list of cuts gives the same rounded edges. The definitions are `specs/Strips`; the data of which they speak, that passes
//! from phase to phase, stands in `line`, and `strip` has the calls that tell strips.
#![tactic(auto)]

ghost use Rattle.strips_law.specs.Law.{EdgesOfStrip, LastStrip, LinesAreOrdered, LinesFollow, NoEdgeIsBoth, StripIsLocal, StripsAreBridged, StripsAreRounded};

mod line;
mod strip;

pub use line::{Carried, Line, Open};
pub use strip::{strip_at, strip_of};

/// The lines of segments stand in order.
pub fn lines_are_ordered()
    ensures { LinesAreOrdered }
{}

/// The lines of two lists of segments, numbered on, are those of both lists, and so are those of them that reach a strip.
pub fn lines_follow()
    ensures { LinesFollow }
{}

/// What the lines that reach a strip have there is what all lines have there.
pub fn strip_is_local()
    ensures { StripIsLocal }
{}

/// Nothing crosses the border behind the last strip.
pub fn last_strip()
    ensures { LastStrip }
{}

/// The steps over the border on the right of a strip make the edges across it, and what is carried goes on over the border on its left.
pub fn strips_are_bridged()
    ensures { StripsAreBridged }
{}

/// No edge lies in a strip and goes on from it to a later one.
pub fn no_edge_is_both()
    ensures { NoEdgeIsBoth }
{}

/// The edges in a strip and those from it to later ones are those whose lesser end lies in it.
pub fn edges_of_strip()
    ensures { EdgesOfStrip }
{}

/// The edges of all strips, one behind another, are the rounded edges of the segments.
pub fn strips_are_rounded()
    ensures { StripsAreRounded }
{}
