// What a datagram carries, and the head of an RTCP packet.
ghost use Rattle.std.specs.Prelude.{◌≡◌};
ghost use Rattle.perc_rtp.specs.Carried.{kind_of, rtcp_head};

use byteorder::{BigEndian, ByteOrder};

/// What a datagram carries, by its first two octets.
#[derive(Clone, Copy, Debug, PartialEq, Eq)]
pub enum Carried {
    /// A DTLS record: the first octet is 20 to 63.
    Dtls,
    /// An RTCP packet: the first octet is 128 to 191, and there is a second one, of 192 to 223.
    Rtcp,
    /// An RTP packet: the first octet is 128 to 191, and it isn't RTCP.
    Rtp,
    /// Anything else, no octets at all too.
    Other,
}

/// What a datagram carries (RFC 7983 section 7, RFC 5761 section 4).
pub fn kind(datagram: &[u8]) -> Carried
    ensures { result ≡ kind_of datagram.now }
{
    match datagram.first() {
        Some(20..=63) => Carried::Dtls,
        Some(128..=191) => match datagram.get(1) {
            Some(192..=223) => Carried::Rtcp,
            _ => Carried::Rtp,
        },
        _ => Carried::Other,
    }
}

/// How many octets an RTCP packet has at most that is sent, before it is sealed.
pub const LONGEST_RTCP: usize = 1200;

/// What the head of an RTCP packet says (RFC 3550 section 6.4.1).
#[derive(Clone, Copy, Debug, PartialEq, Eq)]
pub struct RtcpHead {
    /// The packet type, the second octet.
    pub pt: u8,
    /// The sender's SSRC, octets 4 to 7.
    pub ssrc: u32,
}

/// Why octets don't begin with the head of an RTCP packet.
#[derive(Clone, Copy, Debug, PartialEq, Eq)]
pub enum RtcpShape {
    /// They are fewer than 8.
    Short,
    /// The version isn't 2.
    Version,
}

impl RtcpHead {
    /// Reads the head at the front of an RTCP packet, 8 octets (RFC 3550 section 6.4.1).
    pub fn read(packet: &[u8]) -> Result<RtcpHead, RtcpShape>
        ensures { result ≡ rtcp_head packet.now }
    {
        if packet.len() < 8 {
            return Err(RtcpShape::Short);
        }
        if packet[0] >> 6 != 2 {
            return Err(RtcpShape::Version);
        }
        Ok(RtcpHead {
            pt: packet[1],
            ssrc: BigEndian::read_u32(&packet[4..]),
        })
    }
}
