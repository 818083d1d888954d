// Why media and RTCP packets aren't sent.
use perc_rtp::MediaFault;

/// Why a piece of media isn't sent, in the order of looking.
#[derive(Clone, Copy, Debug, PartialEq, Eq)]
pub enum SendFault {
    /// The media itself can't be sent.
    Media(MediaFault),
    /// No index below 2^48 is left.
    IndexSpent,
}

/// Why an RTCP packet isn't sent, in the order of looking.
#[derive(Clone, Copy, Debug, PartialEq, Eq)]
pub enum RtcpSendFault {
    /// It has fewer than 8 octets.
    Short,
    /// The version isn't 2.
    Version,
    /// It has more than `perc_rtp::LONGEST_RTCP` octets.
    Long,
    /// No index below 2^31 is left.
    Spent,
}
