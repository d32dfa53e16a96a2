//! Tests of the program over files and sinks in memory: command lines, layers that are refused, sinks of all sizes, a
//! stream whose writes a signal interrupts, and the words of a process.
#![tactic(auto)]

#[cfg(test)]
mod areas;
#[cfg(test)]
mod command_lines;
#[cfg(test)]
mod covered_layers;
#[cfg(test)]
mod driving;
#[cfg(test)]
mod noded_edges;
#[cfg(test)]
mod process;
#[cfg(test)]
mod refusals;
#[cfg(test)]
mod sinks;
#[cfg(test)]
mod streams;
