// Headers rewritten by a distributor, and restored.
ghost use Rattle.std.specs.Prelude.{◌≡◌, ℕ, ◌+◌, ◌%◌, ◌^◌, ◌<◌, ◌≤◌, List, ◌++◌, if◌then◌else◌, length, drop, None, Some, IfSome};
ghost use Rattle.std.specs.Option.{unwrap_or};
ghost use Rattle.perc_rtp.specs.Header.{Header, IsPacket, spelling};
ghost use Rattle.perc_rtp.specs.Fields.{IsRtp, with_marker, with_pt, with_seq};
ghost use Rattle.perc_ohb.specs.Rewriting.{IsRewrite, block_after, changed, kept_marker, kept_number, restored, rewrite_of};

use super::Ohb;
use perc_rtp::{RtpHead, cut_header, set_marker, set_pt, set_seq};

/// What a distributor changes in a packet.
#[derive(Clone, Copy)]
pub struct Change<'a> {
    /// The new payload type: below 64, or 96 to 127.
    pub pt: Option<u8>,
    /// What is added to the sequence number, modulo 2^16.
    pub shift: u16,
    /// The new marker.
    pub marker: Option<bool>,
    /// What becomes of the header extension, which isn't protected.
    pub extension: ExtChange<'a>,
}

/// What becomes of a header extension.
#[derive(Clone, Copy)]
pub enum ExtChange<'a> {
    /// It stays.
    Keep,
    /// There is none from then on.
    Drop,
    /// This one takes its place: its profile, and at most 30 words of 4 octets.
    Set(u16, &'a [u8]),
}

/// Changes payload type, sequence number and marker of the packet that begins with a header, and keeps the originals in
/// the block (RFC 8723 section 5.2). Of each field that changes, the block keeps the original exactly where that isn't what
/// the field becomes. The extension isn't changed here.
pub fn rewrite(header: &mut [u8], ohb: &mut Ohb, change: &Change<'_>)
    requires reads { IsRtp header.old }
    requires pt { IfSome ohb.old.pt (λ pt. pt < 128) }
    requires change { IsRewrite (rewrite_of change.now) }
    ensures reads { IsRtp header.new }
    ensures header { (h : Header) (rest : List ℕ) → IsPacket h rest header.old → IsPacket (changed h (rewrite_of change.now)) rest header.new }
    ensures block { (h : Header) (rest : List ℕ) → IsPacket h rest header.old → ohb.new ≡ block_after h ohb.old (rewrite_of change.now) }
    // What is put back is what was put back before.
    ensures restored { (g h : Header) (rest after : List ℕ) → IsPacket g rest header.old → IsPacket h after header.new → restored h ohb.new ≡ restored g ohb.old }
    ensures kept_pt { IfSome ohb.new.pt (λ pt. pt < 128) }
{
    let head = RtpHead::read(header).unwrap();
    let seq = head.seq.wrapping_add(change.shift);
    ohb.pt = keep_pt(ohb.pt, head.pt, change.pt.unwrap_or(head.pt));
    ohb.seq = keep_seq(ohb.seq, head.seq, seq);
    ohb.marker = keep_marker(
        ohb.marker,
        head.marker,
        change.marker.unwrap_or(head.marker),
    );
    put_pt(header, change.pt);
    put_seq(header, Some(seq));
    put_marker(header, change.marker);
}

/// Writes the cut header of the packet that begins with a header to the front of `out`, with the originals that the block
/// keeps put back, and answers its length, 12 to 72 octets (RFC 8723 section 5.3). What stands behind it in `out` stays.
pub fn restore(header: &[u8], ohb: &Ohb, out: &mut [u8; 72]) -> usize
    requires reads { IsRtp header.now }
    requires pt { IfSome ohb.now.pt (λ pt. pt < 128) }
    ensures within { result ≤ 72 }
    ensures len { (h : Header) (rest : List ℕ) → IsPacket h rest header.now → result ≡ length (spelling (restored h ohb.now)) }
    ensures value { (h : Header) (rest : List ℕ) → IsPacket h rest header.now → out.new ≡ spelling (restored h ohb.now) ++ drop result out.old }
{
    let len = cut_header(header, out);
    put_pt(out, ohb.pt);
    put_seq(out, ohb.seq);
    put_marker(out, ohb.marker);
    len
}

// What the block keeps of a field that was `now`: what it kept, where the field doesn't change, and else the original, where
// the field doesn't go back to that.
fn keep<T: Copy>(kept: Option<T>, now: T, changes: bool, goes_back: bool) -> Option<T>
    ensures { result ≡ (if changes then (if goes_back then None else Some (unwrap_or kept now)) else kept) }
{
    if !changes {
        kept
    } else if goes_back {
        None
    } else {
        Some(kept.unwrap_or(now))
    }
}

// What the block keeps of a payload type that was `now` and becomes `new`.
fn keep_pt(kept: Option<u8>, now: u8, new: u8) -> Option<u8>
    ensures { result ≡ kept_number kept now new }
{
    keep(kept, now, new != now, new == kept.unwrap_or(now))
}

// The same of a sequence number.
fn keep_seq(kept: Option<u16>, now: u16, new: u16) -> Option<u16>
    ensures { result ≡ kept_number kept now new }
{
    keep(kept, now, new != now, new == kept.unwrap_or(now))
}

// The same of a marker.
fn keep_marker(kept: Option<bool>, now: bool, new: bool) -> Option<bool>
    ensures { result ≡ kept_marker kept now new }
{
    keep(kept, now, new != now, new == kept.unwrap_or(now))
}

// Sets the payload type of a packet that reads, where one is given.
fn put_pt(packet: &mut [u8], pt: Option<u8>)
    requires reads { IsRtp packet.old }
    requires pt { IfSome pt (λ pt. pt < 128) }
    ensures reads { IsRtp packet.new }
    ensures header { (h : Header) (rest : List ℕ) → IsPacket h rest packet.old → IsPacket (with_pt (unwrap_or pt h.pt) h) rest packet.new }
{
    if let Some(pt) = pt {
        set_pt(packet, pt);
    }
}

// The same of the sequence number.
fn put_seq(packet: &mut [u8], seq: Option<u16>)
    requires { IsRtp packet.old }
    ensures reads { IsRtp packet.new }
    ensures header { (h : Header) (rest : List ℕ) → IsPacket h rest packet.old → IsPacket (with_seq (unwrap_or seq h.seq) h) rest packet.new }
{
    if let Some(seq) = seq {
        set_seq(packet, seq);
    }
}

// The same of the marker.
fn put_marker(packet: &mut [u8], marker: Option<bool>)
    requires { IsRtp packet.old }
    ensures reads { IsRtp packet.new }
    ensures header { (h : Header) (rest : List ℕ) → IsPacket h rest packet.old → IsPacket (with_marker (unwrap_or marker h.marker) h) rest packet.new }
{
    if let Some(marker) = marker {
        set_marker(packet, marker);
    }
}
