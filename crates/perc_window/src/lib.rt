//! The index of an RTP packet from its sequence number, and the replay window of 128 places
//! (RFC 3711 sections 3.3.1 and 3.3.2).
#![tactic(auto)]

mod marks;
mod window;

pub use window::{Freshness, Window};
