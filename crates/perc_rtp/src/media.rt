// RTP packets of a sender.
ghost use Rattle.std.specs.Prelude.{◌≡◌, ◌+◌, ◌*◌, ◌%◌, ◌^◌, ◌<◌, ◌≤◌, ◌++◌, true, IsTrue, IfSome, length, take, drop, Some, None, MatchResult};
ghost use Rattle.std.specs.List.{flat_map, All};
ghost use Rattle.std.specs.Option.{option_map_or};
ghost use Rattle.byteorder.specs.Endian.{big_bytes};
ghost use Rattle.perc_rtp.specs.Header.{IsPacket, IsHeader, IsExtension, spelling, fixed_octets, extension_octets};
ghost use Rattle.perc_rtp.specs.Header as spec;
ghost use Rattle.perc_rtp.specs.Media.{content_of, header_of, is_short_extension, rest_of, media_fault, padding_octets};
ghost use Rattle.perc_rtp.specs.Media as media_spec;

use byteorder::{BigEndian, ByteOrder};

/// How many octets a payload has at most, its padding included.
pub const LONGEST_PAYLOAD: usize = 1200;

/// A piece of media to be sent.
#[derive(Clone, Copy)]
pub struct Media<'a> {
    /// The payload type: below 64, or 96 to 127.
    pub pt: u8,
    /// The marker.
    pub marker: bool,
    /// The timestamp.
    pub timestamp: u32,
    /// The contributing sources, at most 15.
    pub csrcs: &'a [u32],
    /// A header extension: its profile, and at most 30 words of 4 octets.
    pub extension: Option<(u16, &'a [u8])>,
    /// The payload, at most `LONGEST_PAYLOAD` octets together with the padding.
    pub payload: &'a [u8],
    /// How many octets of padding follow the payload. 0 stands for a packet without padding.
    pub pad: u8,
}

/// Why a piece of media can't be sent.
#[derive(Clone, Copy, Debug, PartialEq, Eq)]
pub enum MediaFault {
    /// The payload type is above 127, or is 64 to 95, which RTCP has (RFC 5761 section 4).
    Pt,
    /// There are more than 15 CSRCs.
    Csrcs,
    /// The extension isn't whole words of 4 octets, or has more than 30 of them.
    Extension,
    /// The payload has more than `LONGEST_PAYLOAD` octets.
    Payload,
    /// Payload and padding together have more than `LONGEST_PAYLOAD` octets.
    Padding,
}

/// Writes the RTP packet of a piece of media, with this sequence number and SSRC, to the front of `out`, and answers
/// its length (RFC 3550 section 5.1). What stands behind it in `out` stays. The first fault in the order of
/// `MediaFault` is answered, and then `out` is as it was.
pub fn write_packet(
    media: &Media<'_>,
    seq: u16,
    ssrc: u32,
    out: &mut [u8; 1500],
) -> Result<usize, MediaFault>
    ensures fault { MatchResult result (λ _. media_fault (content_of media.now) ≡ None) (λ fault. media_fault (content_of media.now) ≡ Some fault) }
    ensures packet { MatchResult result
        (λ len. (len ≤ 1500) × IsPacket (header_of (content_of media.now) seq ssrc) (rest_of (content_of media.now)) (take len out.new) × (drop len out.new ≡ drop len out.old))
        (λ _. out.new ≡ out.old) }
{
    if let Some(fault) = fault_of(media) {
        return Err(fault);
    }
    Ok(write_whole(media, seq, ssrc, out))
}

// The first fault.
fn fault_of(media: &Media<'_>) -> Option<MediaFault>
    ensures { result ≡ media_fault (content_of media.now) }
{
    if !is_payload_type(media.pt) {
        return Some(MediaFault::Pt);
    }
    if media.csrcs.len() > 15 {
        return Some(MediaFault::Csrcs);
    }
    if !has_short_extension(media) {
        return Some(MediaFault::Extension);
    }
    if media.payload.len() > LONGEST_PAYLOAD {
        return Some(MediaFault::Payload);
    }
    if media.payload.len() + usize::from(media.pad) > LONGEST_PAYLOAD {
        return Some(MediaFault::Padding);
    }
    None
}

// Whether RTP has this payload type, and not RTCP.
fn is_payload_type(pt: u8) -> bool
    ensures { result ≡ media_spec.is_payload_type pt }
{
    matches!(pt, 0..=63 | 96..=127)
}

// Whether an extension, where there is one, is at most 30 whole words of 4 octets.
fn has_short_extension(media: &Media<'_>) -> bool
    ensures { result ≡ option_map_or is_short_extension (content_of media.now).extension true }
{
    match media.extension {
        Some((_, words)) => words.len() % 4 == 0 && words.len() <= 120,
        None => true,
    }
}

// Writes a packet without a fault, and answers its length.
fn write_whole(media: &Media<'_>, seq: u16, ssrc: u32, out: &mut [u8]) -> usize
    requires fault { media_fault (content_of media.now) ≡ None }
    requires room { length out.old ≡ 1500 }
    ensures header { IsHeader (header_of (content_of media.now) seq ssrc) }
    ensures len { result ≡ length (spelling (header_of (content_of media.now) seq ssrc) ++ rest_of (content_of media.now)) }
    ensures within { result ≤ 1500 }
    ensures written { out.new ≡ (spelling (header_of (content_of media.now) seq ssrc) ++ rest_of (content_of media.now)) ++ drop result out.old }
{
    let cut = 12 + 4 * media.csrcs.len();
    write_fixed(media, seq, ssrc, out);
    write_csrcs(media.csrcs, &mut out[12..]);
    let len = cut + write_extension(media, &mut out[cut..]);
    write_octets(media.payload, &mut out[len..]);
    let end = len + media.payload.len();
    write_padding(media.pad, &mut out[end..]);
    end + usize::from(media.pad)
}

// Version 2, P, X and CC.
fn first_octet(media: &Media<'_>) -> u8
    requires { length media.now.csrcs.now < 16 }
    ensures { result ≡ spec.first_octet (header_of (content_of media.now) 0 0) }
{
    let padding = if media.pad > 0 { 0x20 } else { 0 };
    let extension = if media.extension.is_some() { 0x10 } else { 0 };
    0x80 | padding | extension | media.csrcs.len() as u8
}

// M and PT.
fn second_octet(media: &Media<'_>) -> u8
    requires { media.now.pt < 128 }
    ensures { result ≡ spec.second_octet (header_of (content_of media.now) 0 0) }
{
    if media.marker {
        0x80 | media.pt
    } else {
        media.pt
    }
}

// Writes the fixed part of 12 octets.
fn write_fixed(media: &Media<'_>, seq: u16, ssrc: u32, out: &mut [u8])
    requires room { 12 ≤ length out.old }
    requires csrcs { length media.now.csrcs.now < 16 }
    requires pt { media.now.pt < 128 }
    ensures timestamp { media.now.timestamp < 2 ^ 32 }
    ensures written { out.new ≡ fixed_octets (header_of (content_of media.now) seq ssrc) ++ drop 12 out.old }
{
    out[0] = first_octet(media);
    out[1] = second_octet(media);
    write_numbers(seq, media.timestamp, ssrc, &mut out[2..]);
}

// Writes the number, the timestamp and the SSRC of the fixed part.
fn write_numbers(seq: u16, timestamp: u32, ssrc: u32, out: &mut [u8])
    requires { 10 ≤ length out.old }
    ensures fits { timestamp < 2 ^ 32 }
    ensures written { out.new ≡ big_bytes 2 seq ++ big_bytes 4 timestamp ++ big_bytes 4 ssrc ++ drop 10 out.old }
{
    BigEndian::write_u16(out, seq);
    BigEndian::write_u32(&mut out[2..], timestamp);
    BigEndian::write_u32(&mut out[6..], ssrc);
}

// Writes each CSRC in 4 octets.
fn write_csrcs(csrcs: &[u32], out: &mut [u8])
    requires { 4 * length csrcs.now ≤ length out.old }
    ensures fits { All (λ c. c < 2 ^ 32) csrcs.now }
    ensures written { out.new ≡ flat_map (big_bytes 4) csrcs.now ++ drop (4 * length csrcs.now) out.old }
{
    for (i, csrc) in csrcs.iter().enumerate() {
        BigEndian::write_u32(&mut out[4 * i..], *csrc);
    }
}

// Writes the extension, and answers how many octets it has.
fn write_extension(media: &Media<'_>, out: &mut [u8]) -> usize
    requires words { IsTrue (option_map_or is_short_extension (content_of media.now).extension true) }
    requires room { 124 ≤ length out.old }
    ensures fits { IfSome (content_of media.now).extension IsExtension }
    ensures within { result ≤ 124 }
    ensures len { result ≡ length (extension_octets (content_of media.now).extension) }
    ensures written { out.new ≡ extension_octets (content_of media.now).extension ++ drop result out.old }
{
    match media.extension {
        Some((profile, words)) => {
            write_words(profile, words, out);
            4 + words.len()
        }
        None => 0,
    }
}

/// Writes an extension to the front of `out`: its profile, the count of its words of 4 octets, at most 30, and the words
/// (RFC 3550 section 5.3.1). What stands behind it in `out` stays.
pub fn write_words(profile: u16, words: &[u8], out: &mut [u8])
    requires whole { length words.now % 4 ≡ 0 }
    requires short { length words.now ≤ 120 }
    requires room { 124 ≤ length out.old }
    ensures fits { IsExtension (profile, words.now) }
    ensures written { out.new ≡ extension_octets (Some (profile, words.now)) ++ drop (4 + length words.now) out.old }
{
    let end = 4 + words.len();
    BigEndian::write_u16(out, profile);
    BigEndian::write_u16(&mut out[2..], (words.len() / 4) as u16);
    out[4..end].copy_from_slice(words);
}

// Writes octets as they are.
fn write_octets(octets: &[u8], out: &mut [u8])
    requires { length octets.now ≤ length out.old }
    ensures { out.new ≡ octets.now ++ drop (length octets.now) out.old }
{
    out[..octets.len()].copy_from_slice(octets);
}

// Writes zeros, and their count in the last octet.
fn write_padding(pad: u8, out: &mut [u8])
    requires { pad ≤ length out.old }
    ensures { out.new ≡ padding_octets pad ++ drop pad out.old }
{
    if pad == 0 {
        return;
    }
    let last = usize::from(pad) - 1;
    out[..last].fill(0);
    out[last] = pad;
}
