//! An allocator for tests, which refuses one request for memory, and every one once it is closed.
#![tactic(auto)]

mod allocator;

pub use allocator::Refusing;
