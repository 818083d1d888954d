// RTP packets sealed and opened at a given index.
ghost use Rattle.std.specs.Prelude.{◌≡◌, ℕ, ◌+◌, ◌^◌, ◌<◌, ◌≤◌, List, [], ◌++◌, length, take, drop, None, Some, Ok, IfOk, OnOk, OnErr, IsErr, IsOk, MatchOption, MatchResult};
ghost use Rattle.perc_gcm.specs.Gcm.{sealed_text, unsealed_text};
ghost use Rattle.perc_rtp.specs.Header.{Header, IsPacket, spelling};
ghost use Rattle.perc_rtp.specs.Fields.{IsRtp};
ghost use Rattle.perc_srtp.specs.Sealed.{BeginsWith, sealed, sealed_body, unsealed_body};

use super::{Keys, iv};
use perc_gcm::{TAG_LEN, TagMismatch, seal, tag_in, unseal};
use perc_rtp::RtpHead;

/// Seals the RTP packet in the first `len` octets at an index, below 2^48 (RFC 7714 section 8), and answers `len` + 16: its
/// payload becomes the cipher text, and the tag follows. There is room for the tag, and at most 65536 octets in all. What
/// stands behind the tag stays.
pub fn seal_at(keys: &Keys, index: u64, packet: &mut [u8], len: usize) -> usize
    requires few { length packet.old ≤ 65536 }
    requires index { index < 2 ^ 48 }
    requires room { len + 16 ≤ length packet.old }
    requires reads { IsRtp (take len packet.old) }
    ensures len { result ≡ len + 16 }
    ensures sealed { (h : Header) (body : List ℕ) → IsPacket h body (take len packet.old)
        → packet.new ≡ sealed keys.now index h body ++ drop (len + 16) packet.old }
{
    let head = RtpHead::read(&packet[..len]).unwrap();
    let iv = iv(&keys.salt, head.ssrc, index);
    let tag = seal_body(keys, &iv, &mut packet[..len], head.len);
    packet[len..len + TAG_LEN].copy_from_slice(&tag);
    len + TAG_LEN
}

/// Opens the sealed RTP packet at an index, below 2^48 (RFC 7714 section 8), and answers how many octets it then has: the
/// header and the payload stand at the front. It has 16 octets or more behind its header, and at most 65536 in all. Where
/// the tag is wrong it is as it was.
pub fn unseal_at(keys: &Keys, index: u64, packet: &mut [u8]) -> Result<usize, TagMismatch>
    requires few { length packet.old ≤ 65536 }
    requires index { index < 2 ^ 48 }
    requires reads { IsRtp packet.old }
    requires tag { (h : Header) (rest : List ℕ) → IsPacket h rest packet.old → 16 ≤ length rest }
    ensures len { IfOk result (λ n. n + 16 ≡ length packet.old) }
    ensures answer { (h : Header) (rest : List ℕ) → IsPacket h rest packet.old → MatchOption (unsealed_body keys.now index h rest)
        (IsErr result × (packet.new ≡ packet.old))
        (λ body. (result ≡ Ok (length (spelling h ++ body))) × BeginsWith (spelling h ++ body) packet.new) }
    ensures refused { OnErr result (packet.new ≡ packet.old) }
{
    let head = RtpHead::read(packet).unwrap();
    let iv = iv(&keys.salt, head.ssrc, index);
    let len = packet.len() - TAG_LEN;
    let tag = tag_in(&packet[len..]);
    unseal_body(keys, &iv, &mut packet[..len], head.len, &tag)?;
    Ok(len)
}

// Encrypts what stands behind the header, which ends at `cut`, and answers the tag.
fn seal_body(keys: &Keys, iv: &[u8; 12], packet: &mut [u8], cut: usize) -> [u8; 16]
    requires few { length packet.old ≤ 65536 }
    requires cut { cut ≤ length packet.old }
    ensures { packet.new ++ result ≡ take cut packet.old ++ sealed_text keys.now.key iv.now (take cut packet.old) (drop cut packet.old) }
{
    let (header, text) = packet.split_at_mut(cut);
    seal(&keys.cipher, iv, header, text)
}

// Decrypts what stands behind the header, which ends at `cut`, where the tag is right.
fn unseal_body(
    keys: &Keys,
    iv: &[u8; 12],
    packet: &mut [u8],
    cut: usize,
    tag: &[u8; 16],
) -> Result<(), TagMismatch>
    requires few { length packet.old ≤ 65536 }
    requires cut { cut ≤ length packet.old }
    ensures opened { OnOk result ((text : List ℕ)
        × (unsealed_text keys.now.key iv.now (take cut packet.old) (drop cut packet.old ++ tag.now) ≡ Some text)
        × (packet.new ≡ take cut packet.old ++ text)) }
    ensures forged { OnErr result (unsealed_text keys.now.key iv.now (take cut packet.old) (drop cut packet.old ++ tag.now) ≡ None) }
    ensures refused { OnErr result (packet.new ≡ packet.old) }
{
    let (header, text) = packet.split_at_mut(cut);
    unseal(&keys.cipher, iv, header, text, tag)
}

/// Seals a body at an index, below 2^48, behind a header that stands elsewhere, and answers the tag (RFC 7714 section 8):
/// the body becomes the cipher text. Header and body have at most 65536 octets each.
pub fn seal_behind(keys: &Keys, index: u64, header: &[u8], body: &mut [u8]) -> [u8; 16]
    requires few { (length header.now ≤ 65536) × (length body.old ≤ 65536) }
    requires index { index < 2 ^ 48 }
    requires reads { (h : Header) × IsPacket h [] header.now }
    ensures sealed { (h : Header) → IsPacket h [] header.now → body.new ++ result ≡ sealed_body keys.now index h body.old }
    ensures len { length body.new ≡ length body.old }
{
    let head = RtpHead::read(header).unwrap();
    seal(
        &keys.cipher,
        &iv(&keys.salt, head.ssrc, index),
        header,
        body,
    )
}

/// Opens a cipher text at an index, below 2^48, behind a header that stands elsewhere, where this is its tag (RFC 7714 section
/// 8). Header and body have at most 65536 octets each. Where the tag is wrong the body is as it was.
pub fn unseal_behind(
    keys: &Keys,
    index: u64,
    header: &[u8],
    body: &mut [u8],
    tag: &[u8; 16],
) -> Result<(), TagMismatch>
    requires few { (length header.now ≤ 65536) × (length body.old ≤ 65536) }
    requires index { index < 2 ^ 48 }
    requires reads { (h : Header) × IsPacket h [] header.now }
    ensures answer { (h : Header) → IsPacket h [] header.now → MatchOption (unsealed_body keys.now index h (body.old ++ tag.now))
        (IsErr result × (body.new ≡ body.old))
        (λ plain. IsOk result × (body.new ≡ plain)) }
    ensures opened { (h : Header) → IsPacket h [] header.now → MatchResult result
        (λ _. body.old ++ tag.now ≡ sealed_body keys.now index h body.new)
        (λ _. ((plain : List ℕ) → body.old ++ tag.now ≡ sealed_body keys.now index h plain → ⊥) × (body.new ≡ body.old)) }
    ensures len { length body.new ≡ length body.old }
{
    let head = RtpHead::read(header).unwrap();
    unseal(
        &keys.cipher,
        &iv(&keys.salt, head.ssrc, index),
        header,
        body,
        tag,
    )
}
