//! A conference while its script runs: who is in it, what was sent, the distributor; and the lines that issue keys, bring them, let
//! members in and out, and send.
#![tactic(auto)]

mod conference;
mod ekt;
mod grant;
mod join;
mod leave;
mod rekey;
mod send;

pub use conference::{Conference, MOST_DATAGRAMS, Stop, Told};
pub use send::Sending;
