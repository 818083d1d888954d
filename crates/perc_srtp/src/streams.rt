// The two ends of an SRTP stream.
ghost use Rattle.std.specs.Prelude.{◌≡◌, ℕ, ◌+◌, ◌^◌, ◌<◌, ◌≤◌, ◌⊎◌, List, [], ◌∷◌, ◌++◌, length, take, drop, Ok, Err, IfOk, OnErr, MatchResult};
ghost use Rattle.perc_rtp.specs.Header.{Header, IsPacket, spelling};
ghost use Rattle.perc_window.specs.Replay.{StandsFor, freshness_at};
ghost use Rattle.perc_srtp.specs.Sealed.{BeginsWith, sealed};
ghost use Rattle.perc_srtp.specs.Streams.{rx_index, rx_opened, tx_index, sealing_index};

use super::{Keys, seal_at, unseal_at};
use perc_gcm::{TAG_LEN, TagMismatch};
use perc_rtp::RtpHead;
use perc_window::{Freshness, Window};
use std::marker::Model;

/// Why a packet isn't sealed.
#[derive(Clone, Copy, Debug, PartialEq, Eq)]
pub enum TxFault {
    /// There is no room for the tag of 16 octets.
    Room,
    /// No index below 2^48 is nearest for this sequence number.
    NoIndex(u16),
    /// This index was sealed before, or is 128 or more behind the highest that was.
    NonceUsed(u64),
}

/// Why a packet isn't opened.
#[derive(Clone, Copy, Debug, PartialEq, Eq)]
pub enum RxFault {
    /// It has fewer than 16 octets behind its header.
    Short,
    /// Its index is none, or is 128 or more behind the highest accepted.
    TooOld,
    /// Its index was accepted before.
    Repeated,
    /// The tag is wrong.
    Tag,
}

/// The sending end of a stream: no index is sealed twice. Its value is its SSRC, and what its window keeps of the indices
/// that were sealed.
#[derive(Drop)]
pub struct TxStream {
    ssrc: u32,
    window: Window,
}

impl Model for TxStream {
    ghost use Rattle.perc_srtp.specs.Ends.{Stream};

    ghost Value = { Stream };

    ghost view = { λ s. record { ssrc = s.ssrc; window = s.window } };
}

impl TxStream {
    /// A stream of this SSRC with nothing sealed.
    pub fn new(ssrc: u32) -> TxStream
        ensures ssrc { result.ssrc ≡ ssrc }
        ensures window { StandsFor result.window [] }
    {
        TxStream {
            ssrc,
            window: Window::new(),
        }
    }

    /// The SSRC of the stream.
    pub fn ssrc(&self) -> u32
        ensures { result ≡ self.now.ssrc }
    {
        self.ssrc
    }

    /// Seals the RTP packet in the first `len` octets, which has this SSRC, at the index nearest to those sealed before, and
    /// answers `len` + 16. There are at most 65536 octets. After a refusal packet and stream are as they were.
    pub fn seal(&mut self, keys: &Keys, packet: &mut [u8], len: usize) -> Result<usize, TxFault>
        requires few { length packet.old ≤ 65536 }
        requires reads { (h : Header) × (body : List ℕ) × IsPacket h body (take len packet.old) × (h.ssrc ≡ self.old.ssrc) }
        ensures answer { (before : List ℕ) (h : Header) (body : List ℕ) → StandsFor self.old.window before
            → IsPacket h body (take len packet.old)
            → MatchResult (sealing_index before h.seq len (length packet.old))
            (λ index. (result ≡ Ok (len + 16))
            × (packet.new ≡ sealed keys.now index h body ++ drop (len + 16) packet.old)
            × StandsFor self.new.window (index ∷ before))
            (λ fault. (result ≡ Err fault) × (packet.new ≡ packet.old) × (self.new ≡ self.old)) }
        ensures refused { OnErr result ((packet.new ≡ packet.old) × (self.new ≡ self.old)) }
        ensures ssrc { self.new.ssrc ≡ self.old.ssrc }
    {
        if packet.len().saturating_sub(len) < TAG_LEN {
            return Err(TxFault::Room);
        }
        let head = RtpHead::read(&packet[..len]).unwrap();
        let index = self.free_index(head.seq)?;
        let sealed = seal_at(keys, index, packet, len);
        self.window.mark(index);
        Ok(sealed)
    }

    // The index at which a packet with this sequence number is sealed next.
    fn free_index(&self, seq: u16) -> Result<u64, TxFault>
        ensures answer { (before : List ℕ) → StandsFor self.now.window before → result ≡ tx_index before seq }
        ensures fresh { IfOk result (λ index. freshness_at self.now.window index ≡ Freshness.Fresh) }
        ensures in_range { IfOk result (λ index. index < 2 ^ 48) }
    {
        let Some(index) = self.window.nearest(seq) else {
            return Err(TxFault::NoIndex(seq));
        };
        match self.window.fresh(index) {
            Freshness::Fresh => Ok(index),
            Freshness::Repeated => Err(TxFault::NonceUsed(index)),
            Freshness::TooOld => Err(TxFault::NonceUsed(index)),
        }
    }
}

/// The receiving end of a stream: no index is accepted twice. Its value is its SSRC, and what its window keeps of the
/// indices that were accepted.
#[derive(Drop)]
pub struct RxStream {
    ssrc: u32,
    window: Window,
}

impl Model for RxStream {
    ghost use Rattle.perc_srtp.specs.Ends.{Stream};

    ghost Value = { Stream };

    ghost view = { λ s. record { ssrc = s.ssrc; window = s.window } };
}

impl RxStream {
    /// A stream of this SSRC with nothing accepted.
    pub fn new(ssrc: u32) -> RxStream
        ensures ssrc { result.ssrc ≡ ssrc }
        ensures window { StandsFor result.window [] }
    {
        RxStream {
            ssrc,
            window: Window::new(),
        }
    }

    /// The SSRC of the stream.
    pub fn ssrc(&self) -> u32
        ensures { result ≡ self.now.ssrc }
    {
        self.ssrc
    }

    /// Opens a sealed RTP packet, which has this SSRC and at most 65536 octets, at its nearest index, accepts the index, and
    /// answers how many octets the packet then has. After a refusal packet and stream are as they were.
    pub fn unseal(&mut self, keys: &Keys, packet: &mut [u8]) -> Result<usize, RxFault>
        requires few { length packet.old ≤ 65536 }
        requires reads { (h : Header) × (rest : List ℕ) × IsPacket h rest packet.old × (h.ssrc ≡ self.old.ssrc) }
        ensures answer { (before : List ℕ) (h : Header) (rest : List ℕ) → StandsFor self.old.window before → IsPacket h rest packet.old
            → MatchResult (rx_opened keys.now before h rest)
            (λ opened. (result ≡ Ok (length (spelling h ++ opened.1)))
            × BeginsWith (spelling h ++ opened.1) packet.new
            × StandsFor self.new.window (opened.0 ∷ before))
            (λ fault. (result ≡ Err fault) × (packet.new ≡ packet.old) × (self.new ≡ self.old)) }
        ensures len { IfOk result (λ n. n + 16 ≡ length packet.old) }
        ensures refused { OnErr result ((packet.new ≡ packet.old) × (self.new ≡ self.old)) }
        ensures ssrc { self.new.ssrc ≡ self.old.ssrc }
    {
        let head = RtpHead::read(packet).unwrap();
        if packet.len() - head.len < TAG_LEN {
            return Err(RxFault::Short);
        }
        let index = self.fresh_index(head.seq)?;
        match unseal_at(keys, index, packet) {
            Ok(len) => {
                self.window.mark(index);
                Ok(len)
            }
            Err(TagMismatch) => Err(RxFault::Tag),
        }
    }

    // The index at which a packet with this sequence number may be opened.
    fn fresh_index(&self, seq: u16) -> Result<u64, RxFault>
        ensures answer { (before : List ℕ) → StandsFor self.now.window before → result ≡ rx_index before seq }
        ensures fresh { IfOk result (λ index. freshness_at self.now.window index ≡ Freshness.Fresh) }
        ensures in_range { IfOk result (λ index. index < 2 ^ 48) }
    {
        let Some(index) = self.window.nearest(seq) else {
            return Err(RxFault::TooOld);
        };
        match self.window.fresh(index) {
            Freshness::Fresh => Ok(index),
            Freshness::Repeated => Err(RxFault::Repeated),
            Freshness::TooOld => Err(RxFault::TooOld),
        }
    }
}
