// What a member sealed hop by hop, opened again.
ghost use Rattle.std.specs.Prelude.{◌≡◌, ◌+◌, ◌^◌, ◌<◌, ◌≤◌, OnOk, IfOk, Some, length};
ghost use Rattle.perc_kdf.specs.Derivation.{session_keys};
ghost use Rattle.perc_kdf.specs.declared.Kind.TheVariants.{Srtp};
ghost use Rattle.perc_rtp.specs.Media.{Content};
ghost use Rattle.perc_run.specs.State.{Member};
ghost use Rattle.perc_run.specs.Sending.{sent_by};
ghost use Rattle.perc_member.specs.Each.{MirrorsUnsealeds};
ghost use Rattle.perc_member.specs.Making.{OpensAs};

use crate::datagram::Unsealed;
use perc_ekt::read_end;
use perc_kdf::{Kind, Master};
use perc_srtp::{Keys, unseal_at};
use std::alloc::{AllocError, Global};

/// Opens the datagrams of a member in the order in which it sends them. Its outer indices rise by one from the SEQ of its first packet.
#[derive(Drop)]
pub struct Opening {
    pub keys: Keys,
    /// The outer index of the next datagram.
    pub next: u64,
}

impl Opening {
    /// For a member that sends under this pair, from this SEQ on.
    pub fn new(client: &Master, seq: u16) -> Opening
        ensures keys { result.keys ≡ session_keys client.now Srtp }
        ensures next { result.next ≡ seq }
        ensures below { result.next < 2 ^ 16 }
    {
        Opening {
            keys: Keys::new(client, Kind::Srtp),
            next: u64::from(seq),
        }
    }

    /// Opens the next datagram of media, of at most 1500 octets.
    pub fn open(&mut self, alloc: Global, datagram: &[u8]) -> Result<Unsealed, AllocError>
        requires few { length datagram.now ≤ 1500 }
        requires next { (m : Member) × (content : Content) × OpensAs self.old m content datagram.now }
        ensures next { OnOk result (self.new ≡ record self.old { next = self.old.next + 1 }) }
        ensures unsealed { (m : Member) (content : Content) → OpensAs self.old m content datagram.now
            → IfOk result (λ u. MirrorsUnsealeds datagram.now (Some u) (sent_by m content).unsealed) }
    {
        let (_, field) = read_end(datagram).unwrap();
        let end = datagram.len() - field;
        let mut packet = Vec::from_slice(alloc, &datagram[..end])?;
        let len = unseal_at(&self.keys, self.next, &mut packet).unwrap();
        packet.truncate(len);
        self.next += 1;
        Ok(Unsealed { packet, field })
    }
}
