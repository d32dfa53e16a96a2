//! Tests of operations on layers that are read as covered: those of features that were worked out by hand.
#![tactic(auto)]

#[cfg(test)]
mod worked;
