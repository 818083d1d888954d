//! The distributor of a conference script: it opens datagrams one after another and sends what opens on as one batch. And what the words of
//! a script mean to it, and why datagrams, keys and outputs are refused, in the words of a report.
#![tactic(auto)]

mod distributor;
mod reasons;
mod words;

pub use distributor::{Distributor, Taking};
pub use reasons::{
    control_refusal, denial_of, inbound_refusal, loss_of, media_refusal, outer_refusal,
};
pub use words::{change_in, csrcs_in, extension_in};
