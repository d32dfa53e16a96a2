//! Tests of the engine's calls on small layers, whose answers come from outside: the edges and all operations by plans of all
//! kinds, points of each kind in the results, the most segments, what is refused, sinks that fail, and each request for
//! memory refused in turn.
#![tactic(auto)]

#[cfg(test)]
mod arrays;
#[cfg(test)]
mod covered_lines;
#[cfg(test)]
mod faces;
#[cfg(test)]
mod large_unions;
#[cfg(test)]
mod limits;
#[cfg(test)]
mod measured;
pub mod one_by_one;
#[cfg(test)]
mod operations;
#[cfg(test)]
mod overlaid;
#[cfg(test)]
mod plans;
#[cfg(test)]
mod points;
#[cfg(test)]
mod refusals;
#[cfg(test)]
mod reports;
#[cfg(test)]
mod requests;
#[cfg(test)]
mod sinks;
pub mod texts;
#[cfg(test)]
mod workers;
