//! What an endpoint sends: double packets with the field of its schedule, and RTCP packets (RFC 8723 section 5.1, RFC 8870
//! section 4.6).
#![tactic(auto)]

mod fault;
pub mod laws;
mod parts;
mod sending;

pub use fault::{RtcpSendFault, SendFault};
pub use sending::{Outgoing, Sent};
