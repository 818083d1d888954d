//! The messages between a media distributor and a key distributor, after RFC 9185, and a decoder of a stream of them that
//! is cut anywhere.
#![tactic(auto)]

mod decoder;
mod forms;
pub mod laws;
mod message;
mod parts;
mod writing;

pub use decoder::{Decoder, TunnelFault, TunnelReason};
pub use message::{MediaKeys, Message, ProfileList};
pub use writing::write;
