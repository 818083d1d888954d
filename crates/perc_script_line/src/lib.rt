//! The lines of conference scripts, read.
#![tactic(auto)]

mod changes;
mod forms;
mod keys;
pub mod laws;
mod options;
mod reason;
mod script;
mod verb;

pub use changes::{Changes, Replaced};
pub use options::Options;
pub use reason::Reason;
pub use script::ScriptLine;
