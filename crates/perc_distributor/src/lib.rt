//! What a media distributor opens, and what its workers send on, and to whom (RFC 8871 section 3.2, RFC 8723 section 5.2).
#![tactic(auto)]

mod fault;
mod inbound;
pub mod laws;
mod origin;
mod outputs;
mod plain;
mod session;
mod slot;
mod streams;
mod table;
mod worker;

pub use fault::{ForwardFault, InboundFault};
pub use inbound::Inbound;
pub use outputs::{Output, Outputs};
pub use plain::Plain;
pub use worker::Worker;
