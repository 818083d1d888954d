//! The table of what was sent, read from the members and the datagrams of a conference script: whose packet opened, and whether anybody
//! made what opened.
#![tactic(auto)]

mod table;

pub use table::{Sent, Table};
