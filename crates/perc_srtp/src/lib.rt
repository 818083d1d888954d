//! SRTP and SRTCP with AES-GCM (RFC 7714, RFC 3711): packets sealed and opened under the keys of a session, and the two
//! ends of streams of them.
#![tactic(auto)]

mod keys;
pub mod laws;
mod packet;
mod rtcp;
mod streams;

pub use keys::{Keys, iv, rtcp_iv};
pub use packet::{seal_at, seal_behind, unseal_at, unseal_behind};
pub use rtcp::{RtcpFault, RtcpRx, RtcpTx, RtcpTxFault};
pub use streams::{RxFault, RxStream, TxFault, TxStream};
