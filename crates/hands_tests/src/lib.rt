//! Tests of two calls at once, and of parts that several hands map.
#![tactic(auto)]

#[cfg(test)]
mod meeting;
#[cfg(test)]
mod parts;
