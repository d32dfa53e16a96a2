//! Hobby's theorem, as the contract of a function with an empty body: any segments in, what holds of their rounded edges out.
//!
//! No data goes through it. The proof moves the edges from the centres of the pixels to the pieces of the segments, first by rows, then by
//! columns (`proofs/Noded`); `docs/PROOFS.md` has it in prose.
//!
//! The promise: two different rounded edges share no point but a common end, whatever the segments are. The definition is `specs/Law`.
#![tactic(auto)]

ghost use Rattle.noding_law.specs.Law.{RoundedEdgesAreNoded};

/// Two different rounded edges share no point but a common end, whatever the segments are.
pub fn rounded_edges_are_noded()
    ensures { RoundedEdgesAreNoded }
{}
