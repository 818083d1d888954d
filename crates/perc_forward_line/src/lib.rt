//! The line `forward` of a conference script: what the distributor opens, what it sends on, and what is reported of it.
#![tactic(auto)]

mod forwarding;
mod outputs;

pub use forwarding::forward;
