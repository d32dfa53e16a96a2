//! Tests of boxes and of crossings, at the origin and at both ends of the coordinate limit.
#![tactic(auto)]

#[cfg(test)]
mod boxes;
#[cfg(test)]
mod crossings;
#[cfg(test)]
mod moving;
