//! What a datagram is hop by hop, for endpoints and distributors alike: its outer layer and its field opened, or the first
//! refusal, over a table of outer streams (RFC 8723 section 5.3, RFC 8870 section 4.3).
#![tactic(auto)]

mod fault;
pub mod laws;
mod reaching;
mod streams;

pub use fault::OuterFault;
pub use reaching::{Reached, reach};
pub use streams::OuterStreams;
