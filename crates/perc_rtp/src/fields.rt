// Fields of a header changed in place, the header cut behind its CSRCs, and the padding taken off.
ghost use Rattle.std.specs.Prelude.{◌≡◌, ℕ, ◌+◌, ◌*◌, ◌/◌, ◌%◌, ◌<◌, ◌≤◌, List, ◌++◌, length, take, drop};
ghost use Rattle.std.specs.Option.{option_map};
ghost use Rattle.perc_rtp.specs.Header.{Header, IsPacket, bit, spelling};
ghost use Rattle.perc_rtp.specs.Fields.{IsRtp, cut, with_marker, with_pt, with_seq};
ghost use Rattle.perc_rtp.specs.Padding.{payload_length, payload_of};

use byteorder::{BigEndian, ByteOrder};

/// Sets the payload type, below 128, of a packet that reads, and nothing else (RFC 3550 section 5.1).
pub fn set_pt(packet: &mut [u8], pt: u8)
    requires reads { IsRtp packet.old }
    requires pt { pt < 128 }
    ensures { (h : Header) (rest : List ℕ) → IsPacket h rest packet.old → IsPacket (with_pt pt h) rest packet.new }
{
    packet[1] = with_low_bits(packet[1], pt);
}

/// Sets the sequence number of a packet that reads, and nothing else (RFC 3550 section 5.1).
pub fn set_seq(packet: &mut [u8], seq: u16)
    requires { IsRtp packet.old }
    ensures { (h : Header) (rest : List ℕ) → IsPacket h rest packet.old → IsPacket (with_seq seq h) rest packet.new }
{
    BigEndian::write_u16(&mut packet[2..], seq);
}

/// Sets the marker of a packet that reads, and nothing else (RFC 3550 section 5.1).
pub fn set_marker(packet: &mut [u8], marker: bool)
    requires { IsRtp packet.old }
    ensures { (h : Header) (rest : List ℕ) → IsPacket h rest packet.old → IsPacket (with_marker marker h) rest packet.new }
{
    packet[1] = with_high_bit(packet[1], marker);
}

// The octet of M and PT with this payload type.
fn with_low_bits(octet: u8, pt: u8) -> u8
    requires { pt < 128 }
    ensures { result ≡ 128 * (octet / 128) + pt }
{
    octet & 0x80 | pt
}

// The octet of M and PT with this marker.
fn with_high_bit(octet: u8, marker: bool) -> u8
    ensures { result ≡ 128 * bit marker + octet % 128 }
{
    let high = if marker { 0x80 } else { 0 };
    octet & 0x7f | high
}

/// Writes the header of a packet that reads to the front of `out`, cut behind its CSRCs and with the bit X cleared, and
/// answers its length, 12 to 72 octets (RFC 8723 section 5.1). What stands behind it in `out` stays.
pub fn cut_header(packet: &[u8], out: &mut [u8; 72]) -> usize
    requires { IsRtp packet.now }
    ensures within { result ≤ 72 }
    ensures len { (h : Header) (rest : List ℕ) → IsPacket h rest packet.now → result ≡ length (spelling (cut h)) }
    ensures cut { (h : Header) (rest : List ℕ) → IsPacket h rest packet.now → out.new ≡ spelling (cut h) ++ drop result out.old }
{
    let cut = end_of_csrcs(packet[0]);
    out[..cut].copy_from_slice(&packet[..cut]);
    out[0] = without_extension(packet[0]);
    cut
}

// Where the CSRCs end behind the octet of V, P, X and CC.
fn end_of_csrcs(octet: u8) -> usize
    ensures within { result ≤ 72 }
    ensures len { result ≡ 12 + 4 * (octet % 16) }
{
    12 + 4 * usize::from(octet & 0x0f)
}

// The octet of V, P, X and CC with X cleared.
fn without_extension(octet: u8) -> u8
    ensures { result ≡ 32 * (octet / 32) + octet % 16 }
{
    octet & !0x10
}

/// How many octets of a packet's body are payload, where the bit P of its header is `padding` (RFC 3550 section 5.1).
/// None exactly where it is set and the body is empty, or its last octet is 0 or above the body's length.
pub fn without_padding(padding: bool, body: &[u8]) -> Option<usize>
    ensures len { result ≡ payload_length padding body.now }
    ensures payload { option_map (λ n. take n body.now) result ≡ payload_of padding body.now }
{
    if !padding {
        return Some(body.len());
    }
    let count = usize::from(*body.last()?);
    if count == 0 {
        return None;
    }
    body.len().checked_sub(count)
}
