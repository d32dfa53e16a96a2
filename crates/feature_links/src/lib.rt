//! Borders of features: the links of all routes in order in, edges with the features whose border they are out.
//!
//! 1. Equal links cancel by twos, so that those of odd number are left (`odd`).
//! 2. Links of one edge are a border, and their features stand behind one another (`borders`).
//!
//! The promise: exactly the rounded edges that are the border of some feature, each with just these features (`laws`). The definitions
//! are `specs/Odd` and `specs/Groups`.
#![tactic(auto)]

mod borders;
mod laws;
mod link;
mod odd;

pub use borders::{borders_of, features_of};
pub use laws::groups_are_borders;
pub use link::FeatureLink;
pub use odd::odd_links;
