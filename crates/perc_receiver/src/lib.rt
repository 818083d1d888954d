//! What a receiver makes of datagrams, as definitions, and the laws about them: what it accepts was sent, once, and what is
//! genuine it accepts.
#![tactic(auto)]

pub mod laws;
mod refusal;

pub use refusal::Refusal;
