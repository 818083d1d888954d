// Packets relayed by a distributor.
ghost use Rattle.std.specs.Prelude.{◌≡◌, ℕ, ◌+◌, ◌<◌, ◌≤◌, List, [], ◌∷◌, ◌++◌, length, take, drop, Ok, Err, OnOk, OnErr, IfSome, MatchOption, MatchResult};
ghost use Rattle.perc_rtp.specs.Header.{Header, IsHeader, IsPacket};
ghost use Rattle.perc_window.specs.Replay.{StandsFor};
ghost use Rattle.perc_ohb.specs.Rewriting.{IsRewrite, block_after, restored, rewrite_of};
ghost use Rattle.perc_ohb.specs.declared.block.Ohb.{Ohb};
ghost use Rattle.perc_double.specs.Double.{IsNext, IsOpened, as_relayed, double, opened, relaying_index, relayed, relayed_length};

use super::parts::{put_body, sealed_len, write_header};
use perc_ohb::{Change, Ohb, rewrite};
use perc_rtp::RtpHead;
use perc_srtp::{Keys, TxFault, TxStream};

/// Why a packet isn't relayed.
#[derive(Clone, Copy, Debug, PartialEq, Eq)]
pub enum RelayFault {
    /// The relayed packet would have more than 1500 octets.
    Room,
    /// No index below 2^48 is nearest for the changed sequence number.
    NoIndex(u16),
    /// This index was sealed before, or is 128 or more behind the highest that was.
    NonceUsed(u64),
}

/// Relays the opened packet in the first `len` octets, a header, inner octets and a block: makes the change in it and seals it
/// hop by hop (RFC 8723 section 5.2). Answers its length, that of `relayed_len`, at most 1500. It has the stream's SSRC. What
/// stands behind it is not specified. After a refusal the stream is as it was, and the packet isn't specified.
pub fn relay(
    tx: &mut TxStream,
    outer: &Keys,
    packet: &mut [u8; 1500],
    len: usize,
    change: &Change<'_>,
) -> Result<usize, RelayFault>
    requires within { len ≤ 1500 }
    requires change { IsRewrite (rewrite_of change.now) }
    requires reads { (h : Header) × (octets : List ℕ) × (o : Ohb) × IsOpened h octets o (take len packet.old) × (h.ssrc ≡ tx.old.ssrc) }
    ensures answer { (before : List ℕ) (h : Header) (octets : List ℕ) (o : Ohb)
        → StandsFor tx.old.window before → IsOpened h octets o (take len packet.old)
        → MatchResult (relaying_index before h octets o (rewrite_of change.now))
        (λ at. (result ≡ Ok (relayed_length h octets o (rewrite_of change.now)))
        × (take (relayed_length h octets o (rewrite_of change.now)) packet.new ≡ double outer.now at (relayed h (rewrite_of change.now)) octets (block_after h o (rewrite_of change.now)))
        × StandsFor tx.new.window (at ∷ before))
        (λ fault. (result ≡ Err fault) × (tx.new ≡ tx.old)) }
    ensures refused { OnErr result (tx.new ≡ tx.old) }
    // No index is sealed twice.
    ensures next { (before : List ℕ) (h : Header) (octets : List ℕ) (o : Ohb)
        → StandsFor tx.old.window before → IsOpened h octets o (take len packet.old)
        → OnOk result ((at : ℕ) × IsNext before (relayed h (rewrite_of change.now)).seq at) }
    // The relayed packet reads.
    ensures reads { (h : Header) (octets : List ℕ) (o : Ohb) → IsOpened h octets o (take len packet.old) → IsHeader (relayed h (rewrite_of change.now)) }
    // What is restored of the relayed packet is what was restored of the packet.
    ensures restored { (h : Header) (octets : List ℕ) (o : Ohb) → IsOpened h octets o (take len packet.old)
        → restored (relayed h (rewrite_of change.now)) (block_after h o (rewrite_of change.now)) ≡ restored h o }
    ensures ssrc { tx.new.ssrc ≡ tx.old.ssrc }
{
    let mut relayed = [0; 1500];
    let Some(len) = write_relayed(&packet[..len], change, &mut relayed) else {
        return Err(RelayFault::Room);
    };
    match tx.seal(outer, &mut relayed, len) {
        Ok(len) => {
            *packet = relayed;
            Ok(len)
        }
        Err(fault) => Err(fault_of(fault)),
    }
}

/// How many octets an opened packet, of at most 1500 octets, would have once the change is made in it and it is sealed: the
/// header, the inner octets, the block and the tag. It is relayed only where these are at most 1500.
pub fn relayed_len(packet: &[u8], change: &Change<'_>) -> usize
    requires few { length packet.now ≤ 1500 }
    requires change { IsRewrite (rewrite_of change.now) }
    requires reads { (h : Header) × (octets : List ℕ) × (o : Ohb) × IsOpened h octets o packet.now }
    ensures { (h : Header) (octets : List ℕ) (o : Ohb) → IsOpened h octets o packet.now → result ≡ relayed_length h octets o (rewrite_of change.now) }
{
    let mut header = [0; 1500];
    let parts = change_parts(packet, change, &mut header);
    sealed_len(parts.inner, &parts.ohb, parts.header_len)
}

// What a refusal of the stream is here.
fn fault_of(fault: TxFault) -> RelayFault
    ensures { as_relayed (Err fault) ≡ Err result }
{
    match fault {
        TxFault::Room => RelayFault::Room,
        TxFault::NoIndex(seq) => RelayFault::NoIndex(seq),
        TxFault::NonceUsed(index) => RelayFault::NonceUsed(index),
    }
}

/// Writes the relayed packet of an opened packet, of at most 1500 octets, to the front of `out`: the changed header, the inner
/// octets and the block (RFC 8723 section 5.2). Answers its length before it is sealed. None where it wouldn't fit with its tag.
pub fn write_relayed(packet: &[u8], change: &Change<'_>, out: &mut [u8; 1500]) -> Option<usize>
    requires few { length packet.now ≤ 1500 }
    requires change { IsRewrite (rewrite_of change.now) }
    requires reads { (h : Header) × (octets : List ℕ) × (o : Ohb) × IsOpened h octets o packet.now }
    ensures { (h : Header) (octets : List ℕ) (o : Ohb) → IsOpened h octets o packet.now
        → MatchOption result (1500 < relayed_length h octets o (rewrite_of change.now))
        (λ n. (n + 16 ≤ 1500) × (n + 16 ≡ relayed_length h octets o (rewrite_of change.now))
        × IsPacket (relayed h (rewrite_of change.now)) (opened octets (block_after h o (rewrite_of change.now))) (take n out.new)) }
{
    let parts = change_parts(packet, change, out);
    put_body(parts.inner, &parts.ohb, out, parts.header_len)
}

// The parts of a relayed packet; its header stands in a buffer.
#[derive(Clone, Copy)]
struct Parts<'a> {
    header_len: usize,
    inner: &'a [u8],
    ohb: Ohb,
}

// Writes the relayed packet's header to the front of `out`, and answers its parts.
fn change_parts<'a>(packet: &'a [u8], change: &Change<'_>, out: &mut [u8; 1500]) -> Parts<'a>
    requires few { length packet.now ≤ 1500 }
    requires change { IsRewrite (rewrite_of change.now) }
    requires reads { (h : Header) × (octets : List ℕ) × (o : Ohb) × IsOpened h octets o packet.now }
    ensures header { (h : Header) (octets : List ℕ) (o : Ohb) → IsOpened h octets o packet.now
        → IsPacket (relayed h (rewrite_of change.now)) [] (take result.header_len out.new) }
    ensures inner { (h : Header) (octets : List ℕ) (o : Ohb) → IsOpened h octets o packet.now → result.inner.now ≡ octets }
    ensures block { (h : Header) (octets : List ℕ) (o : Ohb) → IsOpened h octets o packet.now → result.ohb ≡ block_after h o (rewrite_of change.now) }
    ensures within { (result.header_len ≤ 1500) × (length result.inner.now ≤ 1500) }
    ensures pt { IfSome result.ohb.pt (λ pt. pt < 128) }
{
    let head = RtpHead::read(packet).unwrap();
    let (mut ohb, block) = Ohb::read_end(&packet[head.len..]).unwrap();
    let header_len = write_header(packet, change.extension, out);
    rewrite(&mut out[..header_len], &mut ohb, change);
    Parts {
        header_len,
        inner: &packet[head.len..packet.len() - block],
        ohb,
    }
}
