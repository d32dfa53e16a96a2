//! Tests of strips, and of the edge beside each edge.
#![tactic(auto)]

#[cfg(test)]
mod besides;
#[cfg(test)]
mod parts;
