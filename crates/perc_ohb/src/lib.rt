//! The Original Header Block (RFC 8723): what a distributor changes in a header, and how the original is put back.
#![tactic(auto)]

mod block;
pub mod laws;
mod rewriting;

pub use block::{Ohb, OhbFault};
pub use rewriting::{Change, ExtChange, restore, rewrite};
