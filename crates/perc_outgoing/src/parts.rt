// The parts of what is sent.
ghost use Rattle.std.specs.Prelude.{◌≡◌, ℕ, ◌+◌, ◌^◌, ◌<◌, ◌≤◌, ◌⊎◌, ◌∷◌, ◌++◌, List, length, take, drop};
ghost use Rattle.perc_window.specs.Replay.{StandsFor};
ghost use Rattle.perc_rtp.specs.Header.{Header};
ghost use Rattle.perc_double.specs.Double.{double, nothing_kept};
ghost use Rattle.perc_double.specs.Double as double_spec;
ghost use Rattle.perc_ekt.specs.Field.{spelling};
ghost use Rattle.perc_ekt.specs.Record.{IsRecord};
ghost use Rattle.perc_sender.specs.Schedule.{with_key};
ghost use Rattle.perc_sender.specs.Schedule as sender_spec;
ghost use Rattle.perc_receiver.specs.Table.{inner_keys, secret_in};
ghost use Rattle.perc_outgoing.specs.Sending.{field_at, plain_fault};
ghost use Rattle.perc_outgoing.specs.Kept.{IsSealable};

use crate::RtcpSendFault;
use perc_aes::AesKey;
use perc_double::seal_double;
use perc_ekt::{EktKeyRecord, wrap_key, write_full, write_short};
use perc_kdf::{Kind, Master};
use perc_rtp::{LONGEST_RTCP, RtcpHead, RtcpShape};
use perc_sender::{SendPlace, Sender};
use perc_srtp::{Keys, TxStream};

/// A sender that took its first key, of 16 or 32 octets.
pub(super) fn sender_with(ssrc: u32, first: u64, spi: u16, key: &[u8]) -> Sender
    requires first { first < 2 ^ 48 }
    requires key { (length key.now ≡ 16) ⊎ (length key.now ≡ 32) }
    ensures { result ≡ with_key (sender_spec.started ssrc first) spi key.now }
{
    let mut sender = Sender::new(ssrc, first);
    // Its first key was never taken before, and is none too many.
    let Ok(_) = sender.take_key(spi, key) else {
        unreachable!()
    };
    sender
}

/// The keys of the inner transform for a key of 16 or 32 octets under a record (RFC 8870 section 4.1).
pub(super) fn inner_session(granted: &EktKeyRecord, key: &[u8]) -> Keys
    requires { (length key.now ≡ 16) ⊎ (length key.now ≡ 32) }
    ensures { result ≡ inner_keys (secret_in granted.now) key.now }
{
    let master = Master::new(key, &granted.salt).unwrap();
    Keys::new(&master, Kind::Srtp)
}

/// Seals the packet in the first `len` octets in both layers, and answers how many octets it then has. Its SEQ leads to a
/// free outer index.
pub(super) fn seal_next(
    inner: &Keys,
    index: u64,
    tx: &mut TxStream,
    outer: &Keys,
    packet: &mut [u8; 1500],
    len: usize,
) -> usize
    requires index { index < 2 ^ 48 }
    requires room { len + 33 ≤ 1500 }
    requires free { (h : Header) × (body : List ℕ) × (before : List ℕ) × (at : ℕ) × IsSealable h body (take len packet.old) tx.old before at }
    ensures len { result ≡ len + 33 }
    ensures sealed { (h : Header) (body before : List ℕ) (at : ℕ) → IsSealable h body (take len packet.old) tx.old before at
        → packet.new ≡ double outer.now at h (double_spec.inner inner.now index h body) nothing_kept ++ drop (len + 33) packet.old }
    ensures window { (h : Header) (body before : List ℕ) (at : ℕ) → IsSealable h body (take len packet.old) tx.old before at
        → StandsFor tx.new.window (at ∷ before) }
    ensures ssrc { tx.new.ssrc ≡ tx.old.ssrc }
{
    let Ok(end) = seal_double(inner, index, tx, outer, packet, len) else {
        unreachable!()
    };
    end
}

/// Puts the field of a packet at this place behind the first `end` octets, and answers where it ends: a short field, or the
/// key, wrapped (RFC 8870 section 4.1).
pub(super) fn put_field(
    place: &SendPlace,
    granted: &EktKeyRecord,
    key: &[u8],
    ssrc: u32,
    end: usize,
    out: &mut [u8; 1500],
) -> usize
    requires right { IsRecord granted.now }
    requires key { (length key.now ≡ 16) ⊎ (length key.now ≡ 32) }
    requires index { place.now.index < 2 ^ 48 }
    requires room { end + 63 ≤ 1500 }
    ensures within { result ≤ 1500 }
    ensures put { take result out.new ≡ take end out.old ++ spelling (field_at place.now (secret_in granted.now) key.now ssrc) }
{
    end + write_field(place, granted, key, ssrc, &mut out[end..])
}

// Writes a field to the front of `out`, and answers its length, at most 63.
fn write_field(
    place: &SendPlace,
    granted: &EktKeyRecord,
    key: &[u8],
    ssrc: u32,
    out: &mut [u8],
) -> usize
    requires right { IsRecord granted.now }
    requires key { (length key.now ≡ 16) ⊎ (length key.now ≡ 32) }
    requires index { place.now.index < 2 ^ 48 }
    requires room { 63 ≤ length out.old }
    ensures within { result ≤ 63 }
    ensures len { result ≡ length (spelling (field_at place.now (secret_in granted.now) key.now ssrc)) }
    ensures written { out.new ≡ spelling (field_at place.now (secret_in granted.now) key.now ssrc) ++ drop result out.old }
{
    if !place.full {
        return write_short(out).unwrap();
    }
    let ekt = AesKey::new(&granted.key[..granted.len]).unwrap();
    let roll_over = (place.index / 65536) as u32;
    let mut cipher = [0; 56];
    let len = wrap_key(&ekt, key, ssrc, roll_over, &mut cipher);
    write_full(place.spi, place.epoch, &cipher[..len], out).unwrap()
}

/// The first fault of an RTCP packet that is to be sent.
pub(super) fn fault_of(plain: &[u8]) -> Option<RtcpSendFault>
    ensures { result ≡ plain_fault plain.now }
{
    match RtcpHead::read(plain) {
        Err(RtcpShape::Short) => return Some(RtcpSendFault::Short),
        Err(RtcpShape::Version) => return Some(RtcpSendFault::Version),
        Ok(_) => {}
    }
    if plain.len() > LONGEST_RTCP {
        return Some(RtcpSendFault::Long);
    }
    None
}
