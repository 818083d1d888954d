//! The top call: what the program does with its words, its input and its outputs.
#![tactic(auto)]

mod made;
#[cfg(test)]
mod tests;
mod top;
mod write;

pub use top::{Status, run};
