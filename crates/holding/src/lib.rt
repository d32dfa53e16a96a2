//! A gate for tests, which shows that two workers are at work at the same time.
#![tactic(auto)]

mod gate;

pub use gate::Holding;
