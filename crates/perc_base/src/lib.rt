//! What the product reads, writes and draws: sources and sinks of octets, in memory and real ones, lines of octets, and
//! random octets in memory.
#![tactic(auto)]

mod lines;
mod memory;
mod outside;
mod profile;
mod randoms;
mod standard;
mod writing;

pub use lines::{LineRead, Lines};
pub use memory::{FaultlessSource, MemSink, MemSource, is_failing};
pub use outside::{Failed, Memory, Randoms, Sink, Source};
pub use profile::Profile;
pub use randoms::{FaultlessRandoms, MemRandoms};
pub use standard::{StdSink, StdSource};
pub use writing::write_all;
