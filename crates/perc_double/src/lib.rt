//! The double transform (RFC 8723): packets sealed from end to end and hop by hop, relayed, and opened from end to end.
#![tactic(auto)]

mod ends;
pub mod laws;
mod parts;
mod relaying;

pub use ends::{InnerFault, inner_unseal, seal_double};
pub use relaying::{RelayFault, relay, relayed_len, write_relayed};
