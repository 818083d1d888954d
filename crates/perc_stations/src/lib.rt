//! Workers of a media distributor beside one another, each with a reader of the published key sets of its own (RFC 8871 section 3.2).
#![tactic(auto)]

mod gate;
pub mod laws;
mod station;

pub use gate::{Gate, OpenGate};
pub use station::{Station, forward_batch};
