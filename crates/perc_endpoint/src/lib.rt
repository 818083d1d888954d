//! An endpoint of a conference: what it sends, what it makes of what it gets, and what holds over any list of its calls (RFC 8723
//! section 5, RFC 8870 section 4).
#![tactic(auto)]

mod endpoint;
mod fault;
pub mod laws;

pub use endpoint::Endpoint;
pub use fault::GrantFault;
