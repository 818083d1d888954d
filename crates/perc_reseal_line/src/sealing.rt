// Packets sealed at an index that is given, with their fields.
ghost use Rattle.std.specs.Prelude.{◌≡◌, ℕ, ◌+◌, ◌*◌, ◌^◌, ◌<◌, ◌≤◌, List, ◌++◌, length, take, nat_le, IfSome, MatchOption};
ghost use Rattle.perc_rtp.specs.Header.{Header, IsPacket};
ghost use Rattle.perc_rtp.specs.Fields.{IsRtp};
ghost use Rattle.perc_ohb.specs.Rewriting.{IsRewrite, block_after, rewrite_of};
ghost use Rattle.perc_ohb.specs.declared.block.Ohb.{Ohb};
ghost use Rattle.perc_double.specs.Double.{IsOpened, opened, relayed, relayed_length};
ghost use Rattle.perc_reseal_line.specs.Anew.{sealed_behind};

use perc_double::write_relayed;
use perc_gcm::TAG_LEN;
use perc_ohb::Change;
use perc_rtp::RtpHead;
use perc_srtp::{Keys, seal_at};

/// Makes a change in an opened packet, seals it at the index that the roll-over counter and its sequence number then make, and writes it
/// with the field behind it to the front of `out`. Answers how many octets these are. None where they would be more than 1500.
pub fn write_sealed(
    packet: &[u8],
    change: &Change<'_>,
    field: &[u8],
    keys: &Keys,
    roc: u32,
    out: &mut [u8; 1500],
) -> Option<usize>
    requires few { (length packet.now ≤ 1500) × (length field.now ≤ 1500) }
    requires change { IsRewrite (rewrite_of change.now) }
    requires reads { (h : Header) × (inner : List ℕ) × (o : Ohb) × IsOpened h inner o packet.now }
    ensures within { IfSome result (λ n. n ≤ 1500) }
    ensures octets { (h : Header) (inner : List ℕ) (o : Ohb) → IsOpened h inner o packet.now
        → MatchOption result
        (1500 < length (sealed_behind keys.now roc (relayed h (rewrite_of change.now)) inner (block_after h o (rewrite_of change.now)) field.now))
        (λ n. take n out.new ≡ sealed_behind keys.now roc (relayed h (rewrite_of change.now)) inner (block_after h o (rewrite_of change.now)) field.now) }
{
    let len = write_changed(packet, change, field, out)?;
    let index = index_of(&out[..len], roc);
    let end = seal_at(keys, index, out, len);
    Some(put_field(field, out, end))
}

// Writes the changed packet to the front of `out`. None where there isn't room for its tag and the field behind it.
fn write_changed(
    packet: &[u8],
    change: &Change<'_>,
    field: &[u8],
    out: &mut [u8; 1500],
) -> Option<usize>
    requires few { (length packet.now ≤ 1500) × (length field.now ≤ 1500) }
    requires change { IsRewrite (rewrite_of change.now) }
    requires reads { (h : Header) × (inner : List ℕ) × (o : Ohb) × IsOpened h inner o packet.now }
    ensures room { IfSome result (λ n. n + 16 + length field.now ≤ 1500) }
    ensures reads { IfSome result (λ n. IsRtp (take n out.new)) }
    ensures packet { (h : Header) (inner : List ℕ) (o : Ohb) → IsOpened h inner o packet.now
        → MatchOption result (1500 < relayed_length h inner o (rewrite_of change.now) + length field.now)
        (λ n. (n + 16 ≡ relayed_length h inner o (rewrite_of change.now))
        × IsPacket (relayed h (rewrite_of change.now)) (opened inner (block_after h o (rewrite_of change.now))) (take n out.new)) }
{
    let len = write_relayed(packet, change, out)?;
    if !fits(len, field) {
        return None;
    }
    Some(len)
}

// Whether the field fits behind the tag of a packet of `len` octets.
fn fits(len: usize, field: &[u8]) -> bool
    requires { (len ≤ 1500) × (length field.now ≤ 1500) }
    ensures { result ≡ nat_le (len + 16 + length field.now) 1500 }
{
    len + TAG_LEN + field.len() <= 1500
}

// The index that a roll-over counter and a packet's sequence number make (RFC 3711 section 3.3.1).
fn index_of(packet: &[u8], roc: u32) -> u64
    requires { IsRtp packet.now }
    ensures below { result < 2 ^ 48 }
    ensures value { (h : Header) (rest : List ℕ) → IsPacket h rest packet.now → result ≡ roc * 65536 + h.seq }
{
    let head = RtpHead::read(packet).unwrap();
    numbered(roc, head.seq)
}

// The index of a sequence number under a roll-over counter.
fn numbered(roc: u32, seq: u16) -> u64
    ensures below { result < 2 ^ 48 }
    ensures value { result ≡ roc * 65536 + seq }
{
    u64::from(roc) * 65536 + u64::from(seq)
}

// Puts the field behind the first `at` octets, and answers where it ends.
fn put_field(field: &[u8], out: &mut [u8; 1500], at: usize) -> usize
    requires { at + length field.now ≤ 1500 }
    ensures end { result ≡ at + length field.now }
    ensures octets { take result out.new ≡ take at out.old ++ field.now }
{
    let end = at + field.len();
    out[at..end].copy_from_slice(field);
    end
}
