//! Tests of gathering: the rounded edges from books and from known pieces, the sort of records, and counting in parts.
#![tactic(auto)]

#[cfg(test)]
mod gathering;
#[cfg(test)]
mod sorting;
