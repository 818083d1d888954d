//! A key distributor (RFC 8871, RFC 9185): it gives each member its outer keys and the conference's EKT key (RFC 8870), and
//! gives no key twice.
#![tactic(auto)]

mod admission;
mod desk;
mod distributor;
mod fault;
mod handshake;
mod issuing;
pub mod laws;
mod record;
mod replies;

pub use distributor::KeyDist;
pub use fault::KdFault;
pub use handshake::{ClearHandshake, Handshake, Hello};
pub use record::ClearRecord;
