//! Tests of exact geometry on tables from outside: pixels and set operations.
#![tactic(auto)]

#[cfg(test)]
mod operations;
#[cfg(test)]
mod pixels;
