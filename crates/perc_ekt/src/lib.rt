//! Encrypted key transport (RFC 8870): the fields at the end of datagrams, wrapped keys, and records of EKT keys.
#![tactic(auto)]

mod field;
mod key;
pub mod laws;
mod numbers;
mod record;

pub use field::{EktField, FieldFault, read_end, write_full, write_short};
pub use key::{KeyFault, Wrapped, unwrap_key, wrap_key};
pub use record::EktKeyRecord;
