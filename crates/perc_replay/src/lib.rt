//! A conference script, run: line by line, with the report of each line when it is done.
#![tactic(auto)]

mod run;
mod turn;

pub use run::{Counts, ReplayEnd, replay};
