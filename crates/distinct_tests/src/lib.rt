//! Tests of which segments are kept, of those with the same ends: no contract says that few are.
#![tactic(auto)]

#[cfg(test)]
mod keeping;
