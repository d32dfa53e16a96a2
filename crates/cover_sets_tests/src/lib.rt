//! Tests of sets of features, and of the cover sets on both sides of edges.
#![tactic(auto)]

#[cfg(test)]
mod deciding;
#[cfg(test)]
mod degrees;
#[cfg(test)]
mod sets;
#[cfg(test)]
mod sides;
