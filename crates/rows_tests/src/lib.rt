//! Tests of rows: those of features that were worked out by hand.
#![tactic(auto)]

#[cfg(test)]
mod ready;
#[cfg(test)]
mod worked;
