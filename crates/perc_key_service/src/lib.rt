//! The key distributor of a conference script, behind the tunnel of its media distributor: keys are issued from given octets, and members
//! join and leave by messages, whose replies are read again.
#![tactic(auto)]

mod events;
mod hearing;
mod keeper;
mod replies;
mod service;

pub use service::{Joined, KeyService};
