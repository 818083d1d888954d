// The header of an RTP packet, read from its octets.
ghost use Rattle.std.specs.Prelude.{◌≡◌, ◌+◌, ◌/◌, ◌%◌, ◌^◌, ◌<◌, ◌≤◌, ◌==◌, List, ℕ, length, drop, Ok, Err, IfOk, OnOk, MatchResult};
ghost use Rattle.byteorder.specs.Endian.{big_number};
ghost use Rattle.perc_rtp.specs.Fields.{IsRtp};
ghost use Rattle.perc_rtp.specs.Reading.{cut_at, end_at, head_at, packet_of};
ghost use Rattle.perc_rtp.specs.Header.{Header, IsPacket, head_of, cut_len};

use byteorder::{BigEndian, ByteOrder};

/// What an RTP packet's header says (RFC 3550 sections 5.1 and 5.3.1).
#[derive(Clone, Copy, Debug, PartialEq, Eq)]
pub struct RtpHead {
    /// The bit P: the rest ends in padding.
    pub padding: bool,
    /// The bit X: a header extension follows the CSRCs.
    pub extension: bool,
    /// How many CSRCs there are, 0 to 15.
    pub csrcs: usize,
    /// The marker.
    pub marker: bool,
    /// The payload type, below 128.
    pub pt: u8,
    /// The sequence number.
    pub seq: u16,
    /// The timestamp.
    pub timestamp: u32,
    /// The sender's SSRC.
    pub ssrc: u32,
    /// Where the CSRCs end, in octets: 12, and 4 for each CSRC.
    pub cut: usize,
    /// The length of the whole header in octets, with its extension.
    pub len: usize,
}

/// Why octets are no RTP packet.
#[derive(Clone, Copy, Debug, PartialEq, Eq)]
pub enum RtpFault {
    /// They end inside the fixed part of 12 octets, or inside the CSRCs.
    Short,
    /// The version isn't 2.
    Version,
    /// The header extension isn't there whole.
    Extension,
}

impl RtpHead {
    /// Reads the header at the front of a packet (RFC 3550 sections 5.1 and 5.3.1).
    pub fn read(packet: &[u8]) -> Result<RtpHead, RtpFault>
        // What is read is the header of this packet.
        ensures ok { IfOk result (λ head. (h : Header) × (rest : List ℕ) × IsPacket h rest packet.now × (head ≡ head_of h)) }
        // So the octets are a packet, whose fields can be set.
        ensures reads { OnOk result (IsRtp packet.now) }
        // Each packet is read.
        ensures only { (h : Header) (rest : List ℕ) → IsPacket h rest packet.now → result ≡ Ok (head_of h) }
        // And what is answered for any octets, the first fault first.
        ensures answer { MatchResult (packet_of packet.now) (λ read. result ≡ Ok (head_of read.0)) (λ fault. result ≡ Err fault) }
    {
        let cut = csrcs_end(packet)?;
        let len = header_end(packet, cut)?;
        Ok(head_in(packet, cut, len))
    }
}

// Where the CSRCs end.
fn csrcs_end(packet: &[u8]) -> Result<usize, RtpFault>
    ensures { result ≡ cut_at packet.now }
{
    if packet.len() < 12 {
        return Err(RtpFault::Short);
    }
    if packet[0] >> 6 != 2 {
        return Err(RtpFault::Version);
    }
    let cut = 12 + 4 * usize::from(packet[0] & 0x0f);
    if packet.len() < cut {
        return Err(RtpFault::Short);
    }
    Ok(cut)
}

// Where the header ends, whose CSRCs end at `cut`.
fn header_end(packet: &[u8], cut: usize) -> Result<usize, RtpFault>
    requires fixed { 12 ≤ length packet.now }
    requires cut { cut ≡ cut_len packet.now }
    ensures { result ≡ end_at packet.now }
{
    if !is_set(packet[0], 4) {
        return Ok(cut);
    }
    if packet.len() < cut + 4 {
        return Err(RtpFault::Extension);
    }
    let words = u16_at(packet, cut + 2);
    let end = cut + 4 + 4 * usize::from(words);
    if packet.len() < end {
        return Err(RtpFault::Extension);
    }
    Ok(end)
}

// The header whose CSRCs end at `cut`, and which ends at `len`.
fn head_in(packet: &[u8], cut: usize, len: usize) -> RtpHead
    requires fixed { 12 ≤ length packet.now }
    requires cut { cut ≡ cut_len packet.now }
    ensures { result ≡ head_at packet.now len }
{
    RtpHead {
        padding: is_set(packet[0], 5),
        extension: is_set(packet[0], 4),
        csrcs: usize::from(packet[0] & 0x0f),
        marker: is_set(packet[1], 7),
        pt: packet[1] & 0x7f,
        seq: u16_at(packet, 2),
        timestamp: u32_at(packet, 4),
        ssrc: u32_at(packet, 8),
        cut,
        len,
    }
}

/// Whether a bit of an octet is set, 0 for the lowest and 7 for the highest.
pub fn is_set(octet: u8, bit: u8) -> bool
    requires { bit < 8 }
    ensures { result ≡ (octet / 2 ^ bit % 2 == 1) }
{
    (octet >> bit) & 1 == 1
}

// The number in the two octets from `at`.
fn u16_at(packet: &[u8], at: usize) -> u16
    requires { at + 2 ≤ length packet.now }
    ensures { result ≡ big_number 2 (drop at packet.now) }
{
    BigEndian::read_u16(&packet[at..])
}

// The number in the four octets from `at`.
fn u32_at(packet: &[u8], at: usize) -> u32
    requires { at + 4 ≤ length packet.now }
    ensures { result ≡ big_number 4 (drop at packet.now) }
{
    BigEndian::read_u32(&packet[at..])
}
