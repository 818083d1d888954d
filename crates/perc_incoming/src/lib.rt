//! What an endpoint makes of the datagrams and RTCP packets that it gets (RFC 8723 section 5.3, RFC 8870 section 4.3, RFC 7714
//! section 9).
#![tactic(auto)]

mod carried;
mod choosing;
mod inquiry;
pub mod laws;
mod receiving;
mod records;
mod settling;
mod trying;

pub use carried::UnwrappedKey;
pub use choosing::Decided;
pub use inquiry::{Inquiry, OpenKey, OpenKeys};
pub use receiving::Incoming;
pub use settling::Accepted;
