// The two ends of the double transform.
ghost use Rattle.std.specs.Prelude.{◌≡◌, ℕ, ◌+◌, ◌^◌, ◌<◌, ◌≤◌, ◌↔◌, List, [], ◌∷◌, ◌++◌, length, take, drop, None, Ok, Err, IfOk, OnErr, IsErr, MatchOption, MatchResult};
ghost use Rattle.perc_rtp.specs.Header.{Header, IsPacket, spelling};
ghost use Rattle.perc_rtp.specs.Fields.{IsRtp};
ghost use Rattle.perc_window.specs.Replay.{StandsFor};
ghost use Rattle.perc_srtp.specs.Sealed.{BeginsWith, sealed_body, unsealed_body};
ghost use Rattle.perc_srtp.specs.Streams.{tx_index};
ghost use Rattle.perc_double.specs.Double.{double, nothing_kept, opened};
ghost use Rattle.perc_double.specs.Double as spec;

use super::parts::put_block;
use perc_gcm::{TAG_LEN, TagMismatch, tag_in};
use perc_ohb::Ohb;
use perc_rtp::{RtpHead, cut_header};
use perc_srtp::{Keys, TxFault, TxStream, seal_behind, unseal_behind};

/// Why a packet isn't opened from end to end.
#[derive(Clone, Copy, Debug, PartialEq, Eq)]
pub enum InnerFault {
    /// The body has fewer than 16 octets.
    Short,
    /// The tag is wrong.
    Tag,
}

/// Seals the RTP packet in the first `len` octets from end to end at an index, below 2^48, and then hop by hop (RFC 8723
/// section 5.1), and answers `len` + 33: the inner tag, a block that keeps nothing, and the outer tag are added. The packet
/// has the stream's SSRC, and there is room. What stands behind stays. After a refusal packet and stream are as they were.
pub fn seal_double(
    inner: &Keys,
    index: u64,
    tx: &mut TxStream,
    outer: &Keys,
    packet: &mut [u8; 1500],
    len: usize,
) -> Result<usize, TxFault>
    requires index { index < 2 ^ 48 }
    requires room { len + 33 ≤ 1500 }
    requires reads { (h : Header) × (body : List ℕ) × IsPacket h body (take len packet.old) × (h.ssrc ≡ tx.old.ssrc) }
    ensures answer { (before : List ℕ) (h : Header) (body : List ℕ) → StandsFor tx.old.window before → IsPacket h body (take len packet.old)
        → MatchResult (tx_index before h.seq)
        (λ at. (result ≡ Ok (len + 33))
        × (packet.new ≡ double outer.now at h (spec.inner inner.now index h body) nothing_kept ++ drop (len + 33) packet.old)
        × StandsFor tx.new.window (at ∷ before))
        (λ fault. (result ≡ Err fault) × (packet.new ≡ packet.old) × (tx.new ≡ tx.old)) }
    ensures refused { OnErr result ((packet.new ≡ packet.old) × (tx.new ≡ tx.old)) }
    ensures ssrc { tx.new.ssrc ≡ tx.old.ssrc }
{
    // a refusal leaves the packet as it was
    let mut sealed = *packet;
    let end = seal_inner(inner, index, &mut sealed, len);
    let end = tx.seal(outer, &mut sealed, end)?;
    *packet = sealed;
    Ok(end)
}

// Seals the packet in the first `len` octets from end to end, puts the tag and a block that keeps nothing behind it, and
// answers where the block ends.
fn seal_inner(inner: &Keys, index: u64, packet: &mut [u8; 1500], len: usize) -> usize
    requires index { index < 2 ^ 48 }
    requires room { len + 33 ≤ 1500 }
    requires reads { IsRtp (take len packet.old) }
    ensures len { result ≡ len + 17 }
    ensures sealed { (h : Header) (body : List ℕ) → IsPacket h body (take len packet.old)
        → packet.new ≡ (spelling h ++ opened (spec.inner inner.now index h body) nothing_kept) ++ drop (len + 17) packet.old }
    ensures reads { (h : Header) (body : List ℕ) → IsPacket h body (take len packet.old)
        → IsPacket h (opened (spec.inner inner.now index h body) nothing_kept) (take result packet.new) }
{
    let tag = seal_text(inner, index, &mut packet[..len]);
    let end = len + TAG_LEN;
    packet[len..end].copy_from_slice(&tag);
    let ohb = Ohb {
        pt: None,
        seq: None,
        marker: None,
    };
    put_block(&ohb, packet, end)
}

// Seals what stands behind the header of a packet, over the header cut behind its CSRCs, and answers the tag.
fn seal_text(inner: &Keys, index: u64, packet: &mut [u8]) -> [u8; 16]
    requires few { length packet.old ≤ 1500 }
    requires index { index < 2 ^ 48 }
    requires reads { IsRtp packet.old }
    ensures len { length packet.new ≡ length packet.old }
    ensures sealed { (h : Header) (body : List ℕ) → IsPacket h body packet.old → packet.new ++ result ≡ spelling h ++ spec.inner inner.now index h body }
{
    let head = RtpHead::read(packet).unwrap();
    let mut header = [0; 72];
    let cut = cut_header(packet, &mut header);
    seal_behind(inner, index, &header[..cut], &mut packet[head.len..])
}

/// Opens the inner octets of a packet at an index, below 2^48, where `header` is its restored header: it has its CSRCs and
/// no more, with X cleared (RFC 8723 section 5.3). Answers how many octets the body then has. The inner octets are at most
/// 65536. After a refusal they are as they were.
pub fn inner_unseal(
    inner: &Keys,
    index: u64,
    header: &[u8],
    body: &mut [u8],
) -> Result<usize, InnerFault>
    requires index { index < 2 ^ 48 }
    requires few { length body.old ≤ 65536 }
    requires reads { (h : Header) × IsPacket h [] header.now × (h.extension ≡ None) }
    ensures short { (result ≡ Err InnerFault.Short) ↔ (length body.old < 16) }
    ensures answer { (h : Header) → IsPacket h [] header.now → MatchOption (unsealed_body inner.now index h body.old)
        (IsErr result × (body.new ≡ body.old))
        (λ plain. (result ≡ Ok (length plain)) × BeginsWith plain body.new) }
    ensures opened { (h : Header) → IsPacket h [] header.now
        → IfOk result (λ n. (n + 16 ≡ length body.old) × (body.old ≡ sealed_body inner.now index h (take n body.new))) }
    ensures tag { (h : Header) → IsPacket h [] header.now → result ≡ Err InnerFault.Tag
        → (plain : List ℕ) → body.old ≡ sealed_body inner.now index h plain → ⊥ }
    ensures refused { OnErr result (body.new ≡ body.old) }
{
    let Some(len) = tag_start(body) else {
        return Err(InnerFault::Short);
    };
    let tag = tag_in(&body[len..]);
    match unseal_behind(inner, index, header, &mut body[..len], &tag) {
        Ok(()) => Ok(len),
        Err(TagMismatch) => Err(InnerFault::Tag),
    }
}

// Where the tag begins at the end of octets. None where they are too few for one.
fn tag_start(octets: &[u8]) -> Option<usize>
    ensures { MatchOption result (length octets.now < 16) (λ n. n + 16 ≡ length octets.now) }
{
    octets.len().checked_sub(TAG_LEN)
}
