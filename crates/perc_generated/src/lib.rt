//! The laws of generated scripts. There is no code here.
#![tactic(auto)]

pub mod laws;
