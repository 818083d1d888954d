// The parts of double packets.
ghost use Rattle.std.specs.Prelude.{◌≡◌, ℕ, ◌+◌, ◌*◌, ◌/◌, ◌%◌, ◌<◌, ◌≤◌, List, [], ◌++◌, length, take, drop, Some, IfSome, MatchOption};
ghost use Rattle.std.specs.Option.{unwrap_or};
ghost use Rattle.perc_rtp.specs.Header.{Header, IsPacket, spelling};
ghost use Rattle.perc_rtp.specs.Fields.{IsRtp, cut, with_extension};
ghost use Rattle.perc_ohb.specs.Block as block;
ghost use Rattle.perc_ohb.specs.Rewriting.{IsExtensionSet, extension_set};

use perc_gcm::TAG_LEN;
use perc_ohb::{ExtChange, Ohb};
use perc_rtp::{RtpHead, cut_header, write_words};

// ---- the end of a packet

// Writes a block behind the first `at` octets, and answers where it ends. What stands behind it stays.
pub(crate) fn put_block(ohb: &Ohb, packet: &mut [u8; 1500], at: usize) -> usize
    requires pt { IfSome ohb.now.pt (λ pt. pt < 128) }
    requires room { at + length (block.spelling ohb.now) ≤ 1500 }
    ensures end { result ≡ at + length (block.spelling ohb.now) }
    ensures written { packet.new ≡ (take at packet.old ++ block.spelling ohb.now) ++ drop result packet.old }
{
    let mut octets = [0; 4];
    let len = ohb.write(&mut octets);
    packet[at..at + len].copy_from_slice(&octets[..len]);
    at + len
}

// Writes octets and a block behind the first `at` octets, and answers where they end. None where there wouldn't be room for
// a tag behind them.
pub(crate) fn put_body(octets: &[u8], ohb: &Ohb, out: &mut [u8; 1500], at: usize) -> Option<usize>
    requires pt { IfSome ohb.now.pt (λ pt. pt < 128) }
    requires at { at ≤ 1500 }
    requires few { length octets.now ≤ 1500 }
    ensures { MatchOption result (1500 < at + length octets.now + length (block.spelling ohb.now) + 16)
        (λ n. (n + 16 ≤ 1500) × (n ≡ at + length octets.now + length (block.spelling ohb.now))
        × (take n out.new ≡ take at out.old ++ (octets.now ++ block.spelling ohb.now))) }
{
    if sealed_len(octets, ohb, at) > out.len() {
        return None;
    }
    let last = at + octets.len();
    out[at..last].copy_from_slice(octets);
    Some(put_block(ohb, out, last))
}

// How many octets there are once octets and a block stand behind the first `at` octets, and a tag behind them.
pub(crate) fn sealed_len(octets: &[u8], ohb: &Ohb, at: usize) -> usize
    requires pt { IfSome ohb.now.pt (λ pt. pt < 128) }
    requires at { at ≤ 1500 }
    requires few { length octets.now ≤ 1500 }
    ensures { result ≡ at + length octets.now + length (block.spelling ohb.now) + 16 }
{
    at + octets.len() + block_len(ohb) + TAG_LEN
}

// How many octets a block has.
fn block_len(ohb: &Ohb) -> usize
    requires { IfSome ohb.now.pt (λ pt. pt < 128) }
    ensures within { result ≤ 4 }
    ensures len { result ≡ length (block.spelling ohb.now) }
{
    ohb.write(&mut [0; 4])
}

// ---- the header of a packet

// Writes the header of a packet that reads to the front of `out`, with its extension changed, and answers its length.
pub(crate) fn write_header(packet: &[u8], extension: ExtChange<'_>, out: &mut [u8; 1500]) -> usize
    requires few { length packet.now ≤ 1500 }
    requires reads { IsRtp packet.now }
    requires extension { IsExtensionSet (extension_set extension) }
    ensures within { result ≤ 1500 }
    ensures header { (h : Header) (rest : List ℕ) → IsPacket h rest packet.now
        → IsPacket (with_extension (unwrap_or (extension_set extension.entry) h.extension) h) [] (take result out.new) }
{
    match extension {
        ExtChange::Keep => keep_header(packet, out),
        ExtChange::Drop => drop_extension(packet, out),
        ExtChange::Set(profile, words) => set_extension(packet, profile, words, out),
    }
}

// Writes the header as it is.
fn keep_header(packet: &[u8], out: &mut [u8; 1500]) -> usize
    requires few { length packet.now ≤ 1500 }
    requires reads { IsRtp packet.now }
    ensures within { result ≤ 1500 }
    ensures header { (h : Header) (rest : List ℕ) → IsPacket h rest packet.now → IsPacket h [] (take result out.new) }
{
    let len = RtpHead::read(packet).unwrap().len;
    out[..len].copy_from_slice(&packet[..len]);
    len
}

// Writes the header without an extension.
fn drop_extension(packet: &[u8], out: &mut [u8; 1500]) -> usize
    requires { IsRtp packet.now }
    ensures within { result ≤ 72 }
    ensures header { (h : Header) (rest : List ℕ) → IsPacket h rest packet.now → IsPacket (cut h) [] (take result out.new) }
{
    let mut header = [0; 72];
    let len = cut_header(packet, &mut header);
    out[..len].copy_from_slice(&header[..len]);
    len
}

// Writes the header with this extension.
fn set_extension(packet: &[u8], profile: u16, words: &[u8], out: &mut [u8; 1500]) -> usize
    requires reads { IsRtp packet.now }
    requires whole { length words.now % 4 ≡ 0 }
    requires short { length words.now ≤ 120 }
    ensures within { result ≤ 1500 }
    ensures header { (h : Header) (rest : List ℕ) → IsPacket h rest packet.now
        → IsPacket (with_extension (Some (profile, words.now)) h) [] (take result out.new) }
{
    let cut = drop_extension(packet, out);
    out[0] = with_extension_bit(out[0]);
    write_words(profile, words, &mut out[cut..]);
    cut + 4 + words.len()
}

// The octet of V, P, X and CC with X set.
fn with_extension_bit(octet: u8) -> u8
    ensures { result ≡ 32 * (octet / 32) + 16 + octet % 16 }
{
    octet | 0x10
}
