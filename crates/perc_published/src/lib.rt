//! Published key sets: one publisher accepts adds and removals and publishes them, and readers in any threads read the set
//! of what was published. Whatever the schedule, there is one history of published adds and removals. Each list that a
//! reader has seen, or was told of by a note, is a beginning of it.
#![tactic(auto)]

mod board;
pub mod laws;
mod note;
mod publisher;
mod reader;
mod words;

pub use note::Note;
pub use publisher::{Publisher, key_sets};
pub use reader::{SetGuard, SetReader};

#[cfg(test)]
mod tests;
