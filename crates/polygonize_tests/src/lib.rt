//! Tests of rings and polygons: the edges of a canonical text give the text again, also by strips.
#![tactic(auto)]

#[cfg(test)]
mod again;
pub mod closing;
#[cfg(test)]
mod generated;
#[cfg(test)]
mod in_strips;
#[cfg(test)]
mod open_edges;
#[cfg(test)]
mod parts;
#[cfg(test)]
mod rings;
pub mod wide;
#[cfg(test)]
mod worked;
