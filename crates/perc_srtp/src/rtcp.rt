// The two ends of an SRTCP stream.
ghost use Rattle.std.specs.Prelude.{◌≡◌, ℕ, ◌+◌, ◌^◌, ◌<◌, ◌≤◌, ◌↔◌, List, [], ◌∷◌, ◌++◌, length, take, drop, None, Some, Ok, Err, IfOk, OnOk, OnErr, IsOk, MatchResult};
ghost use Rattle.byteorder.specs.Endian.{big_bytes};
ghost use Rattle.perc_rtp.specs.Carried.{rtcp_head};
ghost use Rattle.perc_window.specs.Replay.{StandsFor};
ghost use Rattle.perc_srtp.specs.Rtcp.{rtcp_index};
ghost use Rattle.perc_srtp.specs.Sealed.{BeginsWith, index_word, rtcp_word, sealed_rtcp, unsealed_rtcp};
ghost use Rattle.perc_srtp.specs.Streams.{rtcp_opened};

use super::{Keys, rtcp_iv};
use byteorder::{BigEndian, ByteOrder};
use perc_gcm::{TAG_LEN, TagMismatch, seal, tag_in, unseal};
use perc_window::{Freshness, Window};
use std::marker::Model;

/// How many octets the head has, which isn't encrypted.
const HEAD: usize = 8;

/// How many octets follow the text: the tag, and the word of 4.
const END: usize = 20;

/// The bit E of the word, and the end of the indices.
const ENCRYPTED: u32 = 1 << 31;

/// Why an RTCP packet isn't sealed.
#[derive(Clone, Copy, Debug, PartialEq, Eq)]
pub enum RtcpTxFault {
    /// There is no room for the tag of 16 octets and the word of 4.
    Room,
    /// The next index would be 2^31.
    Spent,
}

/// Why a sealed RTCP packet isn't opened.
#[derive(Clone, Copy, Debug, PartialEq, Eq)]
pub enum RtcpFault {
    /// It has fewer than 28 octets.
    Short,
    /// The version isn't 2.
    Version,
    /// The bit E is clear: it isn't encrypted.
    Clear,
    /// Its index is 128 or more behind the highest accepted.
    TooOld,
    /// Its index was accepted before.
    Repeated,
    /// The tag is wrong.
    Tag,
}

/// The sending end of an SRTCP stream. Its value is the next index.
#[derive(Drop)]
pub struct RtcpTx {
    next: u32,
}

impl Model for RtcpTx {
    ghost use Rattle.std.specs.Prelude.{ℕ, ◌^◌, ◌≤◌};

    ghost Value = { ℕ };

    ghost view = { λ s. s.next };

    ghost invariant = { λ s. s.next ≤ 2 ^ 31 };
}

impl RtcpTx {
    /// A stream whose first packet has the index `first`, at most 2^31.
    pub fn new(first: u32) -> RtcpTx
        requires { first ≤ 2 ^ 31 }
        ensures { result ≡ first }
    {
        RtcpTx { next: first }
    }

    /// Seals the RTCP packet in the first `len` octets, whose head reads, at the next index (RFC 7714 section 9), and answers
    /// `len` + 20: the tag and the word with the index follow. There are at most 65536 octets. After a refusal packet and
    /// stream are as they were.
    pub fn seal(&mut self, keys: &Keys, packet: &mut [u8], len: usize) -> Result<usize, RtcpTxFault>
        requires few { length packet.old ≤ 65536 }
        requires reads { IsOk (rtcp_head (take len packet.old)) }
        ensures room { (result ≡ Err RtcpTxFault.Room) ↔ (length packet.old < len + 20) }
        ensures spent { (result ≡ Err RtcpTxFault.Spent) ↔ ((len + 20 ≤ length packet.old) × (self.old ≡ 2 ^ 31)) }
        ensures sealed { IfOk result (λ n. (n ≡ len + 20)
            × (packet.new ≡ sealed_rtcp keys.now self.old (take len packet.old) ++ drop (len + 20) packet.old)) }
        ensures next { OnOk result (self.new ≡ self.old + 1) }
        ensures refused { OnErr result ((packet.new ≡ packet.old) × (self.new ≡ self.old)) }
    {
        // `len` isn't 0, since the head has 8 octets.
        if packet.len().saturating_sub(END) < len {
            return Err(RtcpTxFault::Room);
        }
        if self.next == ENCRYPTED {
            return Err(RtcpTxFault::Spent);
        }
        seal_packet(keys, self.next, packet, len);
        self.next += 1;
        Ok(len + END)
    }
}

/// The receiving end of an SRTCP stream. Its value is what its window keeps of the indices that were accepted.
#[derive(Drop)]
pub struct RtcpRx {
    window: Window,
}

impl Model for RtcpRx {
    ghost use Rattle.perc_window.specs.Replay.{Marks};

    ghost Value = { Marks };

    ghost view = { λ s. s.window };
}

impl RtcpRx {
    /// A stream with nothing accepted.
    pub fn new() -> RtcpRx
        ensures { StandsFor result [] }
    {
        RtcpRx {
            window: Window::new(),
        }
    }

    /// Opens a sealed RTCP packet of at most 65536 octets at the index in its word (RFC 7714 section 9), accepts the index, and
    /// answers how many octets the packet then has. After a refusal packet and stream are as they were.
    #[tactic(auto, unfolding(crate::specs::Streams::rtcp_opened))]
    pub fn unseal(&mut self, keys: &Keys, packet: &mut [u8]) -> Result<usize, RtcpFault>
        requires few { length packet.old ≤ 65536 }
        ensures answer { (before : List ℕ) → StandsFor self.old before
            → MatchResult (rtcp_opened keys.now before packet.old)
            (λ opened. (result ≡ Ok (length opened.1)) × BeginsWith opened.1 packet.new × StandsFor self.new (opened.0 ∷ before))
            (λ fault. (result ≡ Err fault) × (packet.new ≡ packet.old) × (self.new ≡ self.old)) }
        ensures len { IfOk result (λ n. n + 20 ≡ length packet.old) }
        ensures refused { OnErr result ((packet.new ≡ packet.old) × (self.new ≡ self.old)) }
    {
        let index = read_index(packet)?;
        match self.window.fresh(u64::from(index)) {
            Freshness::Fresh => {}
            Freshness::Repeated => return Err(RtcpFault::Repeated),
            Freshness::TooOld => return Err(RtcpFault::TooOld),
        }
        let Ok(len) = open_packet(keys, index, packet) else {
            return Err(RtcpFault::Tag);
        };
        self.window.mark(u64::from(index));
        Ok(len)
    }
}

// The additional data: the head, and the word with the index.
fn aad_of(packet: &[u8], word: u32) -> [u8; 12]
    requires { 8 ≤ length packet.now }
    ensures { result ≡ take 8 packet.now ++ big_bytes 4 word }
{
    let mut aad = [0; 12];
    aad[..HEAD].copy_from_slice(&packet[..HEAD]);
    BigEndian::write_u32(&mut aad[HEAD..], word);
    aad
}

// Writes the tag and the word.
fn write_end(tag: &[u8; 16], word: u32, out: &mut [u8])
    requires { 20 ≤ length out.old }
    ensures { out.new ≡ tag.now ++ big_bytes 4 word ++ drop 20 out.old }
{
    out[..TAG_LEN].copy_from_slice(tag);
    BigEndian::write_u32(&mut out[TAG_LEN..], word);
}

// Seals the packet in the first `len` octets at an index.
fn seal_packet(keys: &Keys, index: u32, packet: &mut [u8], len: usize)
    requires few { length packet.old ≤ 65536 }
    requires index { index < 2 ^ 31 }
    requires head { 8 ≤ len }
    requires room { len + 20 ≤ length packet.old }
    ensures { packet.new ≡ sealed_rtcp keys.now index (take len packet.old) ++ drop (len + 20) packet.old }
{
    let word = ENCRYPTED + index;
    let iv = rtcp_iv(&keys.salt, BigEndian::read_u32(&packet[4..]), index);
    let aad = aad_of(packet, word);
    let tag = seal(&keys.cipher, &iv, &aad, &mut packet[HEAD..len]);
    write_end(&tag, word, &mut packet[len..]);
}

// Reads the index at the end of a sealed packet.
fn read_index(packet: &[u8]) -> Result<u32, RtcpFault>
    ensures value { result ≡ rtcp_index packet.now }
    ensures word { IfOk result (λ index. rtcp_word index ≡ index_word packet.now) }
    ensures least { OnOk result (28 ≤ length packet.now) }
    ensures small { IfOk result (λ index. index < 2 ^ 31) }
{
    if packet.len() < HEAD + END {
        return Err(RtcpFault::Short);
    }
    if packet[0] >> 6 != 2 {
        return Err(RtcpFault::Version);
    }
    let word = BigEndian::read_u32(&packet[packet.len() - 4..]);
    if word < ENCRYPTED {
        return Err(RtcpFault::Clear);
    }
    Ok(word - ENCRYPTED)
}

// Opens a sealed packet at the index that its word says.
fn open_packet(keys: &Keys, index: u32, packet: &mut [u8]) -> Result<usize, TagMismatch>
    requires few { length packet.old ≤ 65536 }
    requires least { 28 ≤ length packet.old }
    requires index { index < 2 ^ 31 }
    requires word { rtcp_word index ≡ index_word packet.old }
    ensures opened { IfOk result (λ n. (plain : List ℕ)
        × (unsealed_rtcp keys.now index packet.old ≡ Some plain) × (n ≡ length plain) × BeginsWith plain packet.new) }
    ensures forged { OnErr result (unsealed_rtcp keys.now index packet.old ≡ None) }
    ensures refused { OnErr result (packet.new ≡ packet.old) }
    ensures len { IfOk result (λ n. n + 20 ≡ length packet.old) }
{
    let len = packet.len() - END;
    let iv = rtcp_iv(&keys.salt, BigEndian::read_u32(&packet[4..]), index);
    let aad = aad_of(packet, ENCRYPTED + index);
    let tag = tag_in(&packet[len..len + TAG_LEN]);
    unseal(&keys.cipher, &iv, &aad, &mut packet[HEAD..len], &tag)?;
    Ok(len)
}
