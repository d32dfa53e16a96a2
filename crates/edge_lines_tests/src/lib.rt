//! Tests of lines of edges: texts with the edges that they have, and texts that are refused, with the line and why.
#![tactic(auto)]

#[cfg(test)]
mod texts;
