//! Tests of the desk on vectors from outside: replies, draws, posts and workers, with threads, and with every request for
//! memory refused in turn.
#![tactic(auto)]

#[cfg(test)]
mod desks;
#[cfg(test)]
mod draws;
#[cfg(test)]
mod heaps;
#[cfg(test)]
mod memory;
#[cfg(test)]
mod notes;
#[cfg(test)]
mod posts;
#[cfg(test)]
mod replies;
#[cfg(test)]
mod workers;
