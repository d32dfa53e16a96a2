//! Tests of strips: the messages of a worked example, and small layers by several cuts, their rounded edges and the labels of these.
#![tactic(auto)]

#[cfg(test)]
mod cases;
#[cfg(test)]
mod example;
#[cfg(test)]
mod in_strips;
#[cfg(test)]
mod labelled;
