//! RTP packets: their headers read, written and changed (RFC 3550 section 5).
#![tactic(auto)]

mod carried;
mod fields;
mod head;
pub mod laws;
mod media;

pub use carried::{Carried, LONGEST_RTCP, RtcpHead, RtcpShape, kind};
pub use fields::{cut_header, set_marker, set_pt, set_seq, without_padding};
pub use head::{RtpFault, RtpHead, is_set};
pub use media::{LONGEST_PAYLOAD, Media, MediaFault, write_packet, write_words};
