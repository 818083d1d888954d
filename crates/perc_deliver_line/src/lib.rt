//! The line `deliver` of a conference script: a datagram reaches a member, which accepts it or refuses it, or it is foreign.
#![tactic(auto)]

mod delivering;

pub use delivering::{Delivery, deliver};
