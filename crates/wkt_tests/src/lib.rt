//! Tests of layer texts that are read and written.
#![tactic(auto)]

#[cfg(test)]
mod features;
#[cfg(test)]
mod in_parts;
#[cfg(test)]
mod reading;
pub mod squares;
#[cfg(test)]
mod written;
