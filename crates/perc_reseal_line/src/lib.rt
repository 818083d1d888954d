//! The line `reseal` of a conference script: a distributor that keeps to no window seals a packet again.
#![tactic(auto)]

mod resealing;
mod sealing;

pub use resealing::{Resealing, reseal};
