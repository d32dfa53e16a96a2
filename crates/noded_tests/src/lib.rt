//! Tests of noded edges: the test of a pair, the noding test over tiles, and what strips and labels tell of the edges that pass it.
#![tactic(auto)]

#[cfg(test)]
mod labels;
#[cfg(test)]
mod memory;
#[cfg(test)]
mod no_memory;
#[cfg(test)]
mod noding;
#[cfg(test)]
mod pairs;
#[cfg(test)]
mod plain;
#[cfg(test)]
mod rows;
