//! Tests of columns that are read and written.
#![tactic(auto)]

#[cfg(test)]
mod refusals;
#[cfg(test)]
mod segments;
#[cfg(test)]
mod written;
