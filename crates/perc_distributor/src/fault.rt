// Why a datagram isn't opened, and why a packet isn't sent on.
use perc_outer::OuterFault;
use perc_srtp::RtcpFault;

/// Why a datagram of an association isn't opened, in the order of looking.
#[derive(Clone, Copy, Debug, PartialEq, Eq)]
pub enum InboundFault {
    /// It is neither RTP nor RTCP.
    NotMedia,
    /// The set has no entry of the association.
    NoAssociation,
    /// As media it isn't opened hop by hop, or ends in no block.
    Outer(OuterFault),
    /// As control it isn't opened.
    Rtcp(RtcpFault),
}

/// Why a packet isn't sent on to an association.
#[derive(Clone, Copy, Debug, PartialEq, Eq)]
pub enum ForwardFault {
    /// Its SSRC would begin a stream to it, and there are 256.
    StreamLimit,
    /// The datagram would have more than 1500 octets, its field counted.
    Room,
    /// No index below 2^48 is nearest for the changed sequence number.
    NoIndex(u16),
    /// This index was sealed before, or is 128 or more behind the highest that was.
    NonceUsed(u64),
    /// The next RTCP index would be 2^31.
    RtcpSpent,
}
