//! Tests of faces on layers whose rows come from outside, from a program written from the definitions or from arithmetic: small layers by
//! plans of all kinds, as many layers as there may be, layers that each stage cuts into parts, limits, what is refused, sinks that fail, and
//! each request for memory refused in turn.

mod alone;
mod cases;
mod limits;
mod many_layers;
mod many_parts;
mod refusals;
mod requests;
mod sinks;
mod small_layers;
mod workers;

pub use many_parts::map_from;
