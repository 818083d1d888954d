// Datagrams opened hop by hop.
ghost use Rattle.std.specs.Prelude.{◌≡◌, ℕ, ◌≤◌, List, length, IfOk, MatchResult};
ghost use Rattle.perc_outer.specs.Streams.{OuterStream};
ghost use Rattle.perc_outer.specs.Datagram as spec;
ghost use Rattle.perc_outer.specs.Datagram.{reached, streams_after};
ghost use Rattle.perc_outer.specs.Kept.{IsInRange, IsReach, KeepsWhenRefused, StandsFor};
ghost use Rattle.perc_outer.specs.Parts.{IsFront, IsRefused};

use crate::{OuterFault, OuterStreams};
use perc_ekt::{EktField, read_end};
use perc_ohb::Ohb;
use perc_rtp::RtpHead;
use perc_srtp::Keys;

/// An opened datagram: what it says, and where its parts stand in the octets. The inner octets stand between header and block; the
/// field stands 16 octets behind the block.
#[derive(Clone, Debug, Drop)]
pub struct Reached {
    /// How many octets the header has, with its extension.
    pub header: usize,
    /// The offset of the block of originals.
    pub block: usize,
    /// How many octets the opened packet has: header, inner octets and block.
    pub len: usize,
    /// The block of originals.
    pub ohb: Ohb,
    /// The EKT field.
    pub field: EktField,
}

// What is read of a datagram before its packet is opened.
#[derive(Drop)]
struct Front {
    // How many octets the packet has; the field stands behind it.
    end: usize,
    field: EktField,
    head: RtpHead,
}

/// Opens a datagram of at most 65536 octets hop by hop, at a receiver with this SSRC or none: a packet that is sealed in a
/// stream and the EKT field behind it (RFC 8870 section 4.3), and behind the opened packet's header the inner octets and the
/// block of originals (RFC 8723 section 5.3). The packet is opened in its place, and its index is accepted then, whether or not
/// it ends in a block. After any other refusal datagram and streams are as they were.
pub fn reach(
    keys: &Keys,
    own: Option<u32>,
    streams: &mut OuterStreams,
    datagram: &mut [u8],
) -> Result<Reached, OuterFault>
    requires few { length datagram.old ≤ 65536 }
    ensures answer { (before : List OuterStream) → StandsFor streams.old before
        → IsReach (reached keys.now own before datagram.old) result datagram.new }
    ensures streams { (before : List OuterStream) → StandsFor streams.old before
        → StandsFor streams.new (streams_after before (reached keys.now own before datagram.old)) }
    ensures range { IfOk result (IsInRange datagram.new) }
    ensures refused { KeepsWhenRefused result ((streams.new ≡ streams.old) × (datagram.new ≡ datagram.old)) }
{
    let front = read_front(own, datagram)?;
    let header = front.head.len;
    let len = streams.unseal(keys, &front.head, &mut datagram[..front.end])?;
    let (ohb, block_len) = Ohb::read_end(&datagram[header..len])?;
    Ok(Reached {
        header,
        block: len - block_len,
        len,
        ohb,
        field: front.field,
    })
}

// Reads the field at the end of a datagram, and the header at its front, which isn't of the receiver's own SSRC.
fn read_front(own: Option<u32>, datagram: &[u8]) -> Result<Front, OuterFault>
    ensures { MatchResult result (IsFront own datagram.now) (IsRefused own datagram.now) }
{
    let (field, field_len) = read_end(datagram)?;
    let end = datagram.len() - field_len;
    let head = RtpHead::read(&datagram[..end])?;
    if is_own(own, head.ssrc) {
        return Err(OuterFault::OwnStream);
    }
    Ok(Front { end, field, head })
}

// Whether it is the SSRC of who receives.
fn is_own(own: Option<u32>, ssrc: u32) -> bool
    ensures { result ≡ spec.is_own own ssrc }
{
    own == Some(ssrc)
}
