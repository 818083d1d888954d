// The datagrams on the wire.
ghost use Rattle.std.specs.Prelude.{◌≡◌, ℕ, ◌+◌, ◌≤◌, ◌++◌, List, take, drop, length, IfOk};
ghost use Rattle.perc_rtp.specs.Header.{Header, IsPacket, spelling};
ghost use Rattle.perc_rtp.specs.Fields.{IsRtp, cut};
ghost use Rattle.perc_ohb.specs.declared.block.Ohb.{Ohb as Block};
ghost use Rattle.perc_ohb.specs.Rewriting.{IsRewrite, block_after, rewrite_of};
ghost use Rattle.perc_double.specs.Double.{IsOpened, relayed as relayed_header};
ghost use Rattle.perc_member.specs.Making.{ArePartsOf};

use perc_ohb::{Change, Ohb, rewrite};
use perc_rtp::{RtpHead, cut_header};
use std::alloc::{AllocError, Global};

/// A datagram on the wire.
#[derive(Drop)]
pub struct Datagram {
    pub octets: Vec<u8>,
    /// What was sealed, where a member or the distributor made it from media.
    pub unsealed: Option<Unsealed>,
}

/// A media packet as it was before its outer seal.
#[derive(Drop)]
pub struct Unsealed {
    /// Header, inner octets and block of originals.
    pub packet: Vec<u8>,
    /// How many octets the EKT field has, at the end of the datagram.
    pub field: usize,
}

/// Where the parts of a media packet end that isn't sealed hop by hop.
#[derive(Clone, Copy)]
pub struct Parts {
    /// Its header, with the extension.
    pub header: usize,
    /// Its inner octets; the block stands behind them.
    pub inner: usize,
    /// The block of originals.
    pub ohb: Ohb,
}

impl Unsealed {
    /// Where its parts end.
    pub fn parts(&self) -> Parts
        requires { (h : Header) × (inner : List ℕ) × (o : Block) × IsOpened h inner o self.now.packet.items }
        ensures { (h : Header) (inner : List ℕ) (o : Block) → IsOpened h inner o self.now.packet.items → ArePartsOf h inner o self.now.packet.items result }
    {
        parts_of(&self.packet)
    }

    /// Writes its header as the inner seal takes it, without an extension, to the front of `out`, and answers its length.
    pub fn cut_header(&self, out: &mut [u8; 72]) -> usize
        requires { IsRtp self.now.packet.items }
        ensures within { result ≤ 72 }
        ensures len { (h : Header) (rest : List ℕ) → IsPacket h rest self.now.packet.items → result ≡ length (spelling (cut h)) }
        ensures value { (h : Header) (rest : List ℕ) → IsPacket h rest self.now.packet.items → out.new ≡ spelling (cut h) ++ drop result out.old }
    {
        cut_header(&self.packet, out)
    }
}

/// Where the parts end of a media packet that isn't sealed hop by hop.
pub fn parts_of(packet: &[u8]) -> Parts
    requires { (h : Header) × (inner : List ℕ) × (o : Block) × IsOpened h inner o packet.now }
    ensures { (h : Header) (inner : List ℕ) (o : Block) → IsOpened h inner o packet.now → ArePartsOf h inner o packet.now result }
{
    let head = RtpHead::read(packet).unwrap();
    let (ohb, block) = Ohb::read_end(&packet[head.len..]).unwrap();
    Parts {
        header: head.len,
        inner: packet.len() - block,
        ohb,
    }
}

/// What was sealed of a media packet that was sent on with a change, whose sealed datagram this is: the changed header stands at
/// the datagram's front, the inner octets are the packet's own, and the block keeps the originals of what changed.
pub fn relayed(
    alloc: Global,
    packet: &[u8],
    change: &Change<'_>,
    datagram: &[u8],
    field: usize,
) -> Result<Unsealed, AllocError>
    requires few { length packet.now ≤ 1500 }
    requires change { IsRewrite (rewrite_of change.now) }
    requires opened { (h : Header) × (inner : List ℕ) × (o : Block) × IsOpened h inner o packet.now
        × (rest : List ℕ) × IsPacket (relayed_header h (rewrite_of change.now)) rest datagram.now }
    ensures field { IfOk result (λ u. u.field ≡ field) }
    ensures packet { (h : Header) (inner : List ℕ) (o : Block) (rest : List ℕ) → IsOpened h inner o packet.now
        → IsPacket (relayed_header h (rewrite_of change.now)) rest datagram.now
        → IfOk result (λ u. IsOpened (relayed_header h (rewrite_of change.now)) inner (block_after h o (rewrite_of change.now)) u.packet.items) }
{
    let parts = parts_of(packet);
    let block = block_behind(packet, &parts, change);
    let mut octets = [0; 4];
    let len = block.write(&mut octets);
    let header = RtpHead::read(datagram).unwrap().len;
    let mut unsealed = Vec::with_capacity(alloc, header + parts.inner - parts.header + len)?;
    unsealed.extend_from_slice(&datagram[..header])?;
    unsealed.extend_from_slice(&packet[parts.header..parts.inner])?;
    unsealed.extend_from_slice(&octets[..len])?;
    Ok(Unsealed {
        packet: unsealed,
        field,
    })
}

// The block of a packet once the change was made.
fn block_behind(packet: &[u8], parts: &Parts, change: &Change<'_>) -> Ohb
    requires few { length packet.now ≤ 1500 }
    requires change { IsRewrite (rewrite_of change.now) }
    requires opened { (h : Header) × (inner : List ℕ) × (o : Block) × IsOpened h inner o packet.now }
    requires parts { (h : Header) (inner : List ℕ) (o : Block) → IsOpened h inner o packet.now → ArePartsOf h inner o packet.now parts.now }
    ensures { (h : Header) (inner : List ℕ) (o : Block) → IsOpened h inner o packet.now → result ≡ block_after h o (rewrite_of change.now) }
{
    let mut header = [0; 1500];
    let copy = &mut header[..parts.header];
    copy.copy_from_slice(&packet[..parts.header]);
    let mut ohb = parts.ohb;
    rewrite(copy, &mut ohb, change);
    ohb
}
