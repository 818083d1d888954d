//! What a key distributor keeps of one conference: the EKT keys that it issued (RFC 8870), the outer pairs that it ever gave
//! and the members, behind a trait, and a keeper in memory.
#![tactic(auto)]

mod keeper;
mod memory;

pub use keeper::{KeepFault, Keeper};
pub use memory::MemKeeper;
