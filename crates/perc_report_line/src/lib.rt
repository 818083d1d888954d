//! The lines of conference reports, written and read.
#![tactic(auto)]

mod append;
pub mod laws;
mod read;
mod reason_words;
mod reasons;
mod report;
mod verb;
mod write;

pub use reasons::{Denial, Loss, Refusal};
pub use report::ReportLine;
