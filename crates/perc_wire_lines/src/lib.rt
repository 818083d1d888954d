//! The lines of a conference script that put one datagram on the wire without media: `inject`, `alter` and `graft` of an attacker, and
//! `rtcp` of a member.
#![tactic(auto)]

mod control;
mod making;
mod putting;

pub use control::rtcp;
pub use making::{Grafting, alter, graft, inject};
pub use putting::{Wire, put};
