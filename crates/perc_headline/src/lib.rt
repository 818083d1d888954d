//! What the report of a conference is worth, for every script. The functions do nothing: their contracts are the laws.
#![tactic(auto)]

pub mod laws;
