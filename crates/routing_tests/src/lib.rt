//! Tests of the pixels that a segment meets, of the hot pixels and the pieces of tiles, and of lines that run side by side.
#![tactic(auto)]

#[cfg(test)]
mod bundles;
#[cfg(test)]
mod met;
#[cfg(test)]
mod pieces;
#[cfg(test)]
mod rectangles;
#[cfg(test)]
mod shapes;
