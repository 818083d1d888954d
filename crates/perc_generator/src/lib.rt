//! The generator of conference scripts, for tests of a whole run and of its speed.
#![tactic(auto)]

mod generator;

pub use generator::make;
