// What a worker keeps of one serial.
ghost use Rattle.std.specs.Prelude.{◌≡◌, ℕ, ◌^◌, ◌≤◌, [], None, Some, IfOk, OnErr};
ghost use Rattle.perc_ohb.specs.Rewriting.{IsRewrite, rewrite_of};
ghost use Rattle.perc_distributor.specs.Inbound.{Packet, in_set};
ghost use Rattle.perc_distributor.specs.Kept.{ControlOf, IsPlain, IsWhole, holds};
ghost use Rattle.perc_distributor.specs.Parts.{SealsControl, SealsControlFor, SealsMediaFor, SendsFor};
ghost use Rattle.perc_distributor.specs.Rooms.{begun, free_place, is_free, is_staying, staying};

use crate::session::Session;
use crate::streams::TxStreams;
use crate::{ForwardFault, Output, Plain};
use perc_base::Memory;
use perc_kdf::Master;
use perc_keyset::{Entry, KeySet};
use perc_ohb::Change;
use perc_srtp::{Keys, RtcpTx, RtcpTxFault};
use std::alloc::Global;
use std::marker::Model;

/// What a worker keeps of one serial: its outer streams and its next RTCP index. Or a place that is free.
#[derive(Drop)]
pub(crate) struct Slot {
    serial: Option<u32>,
    /// Of the server pair that was sealed under last.
    session: Session,
    streams: TxStreams,
    rtcp: RtcpTx,
}

impl Model for Slot {
    ghost use Rattle.std.specs.Prelude.{◌^◌, ◌≤◌};
    ghost use Rattle.perc_distributor.specs.Kept.{Kept};

    ghost Value = { Kept };

    ghost view = { λ s. record { serial = s.serial; streams = s.streams; rtcp = s.rtcp } };

    ghost invariant = { λ s. s.rtcp ≤ 2 ^ 31 };
}

impl Slot {
    /// A free place, with room for 256 streams. No other call takes memory.
    pub(crate) fn with_room(alloc: Global) -> Result<Slot, Memory>
        ensures { IfOk result (λ slot. slot ≡ free_place) }
    {
        let streams = TxStreams::with_room(alloc)?;
        // No entry has these keys yet: they are put in the place of the first one's.
        let no_keys = Master::new(&[0; 16], &[0; 12]).unwrap();
        Ok(Slot {
            serial: None,
            session: Session::new(&no_keys),
            streams,
            rtcp: RtcpTx::new(0),
        })
    }

    /// Whether it is a serial's.
    pub(crate) fn holds(&self, serial: u32) -> bool
        ensures { result ≡ holds serial self.now }
    {
        self.serial == Some(serial)
    }

    /// Whether it is free.
    pub(crate) fn is_free(&self) -> bool
        ensures { result ≡ is_free self.now }
    {
        self.serial.is_none()
    }

    /// Makes it that of a serial for which nothing was sealed.
    pub(crate) fn begin(&mut self, serial: u32)
        ensures { self.new ≡ begun serial }
    {
        self.serial = Some(serial);
        self.streams.clear();
        self.rtcp = RtcpTx::new(0);
    }

    /// Makes it free where its serial isn't in the set.
    pub(crate) fn stay(&mut self, set: &KeySet)
        ensures { self.new ≡ staying set.now self.old }
    {
        if !self.is_staying(set) {
            self.serial = None;
        }
    }

    // Whether it is a serial's of the set.
    fn is_staying(&self, set: &KeySet) -> bool
        ensures { result ≡ is_staying set.now self.now }
    {
        match self.serial {
            Some(serial) => is_in(set, serial),
            None => false,
        }
    }

    /// Seals a packet for an entry of its serial.
    pub(crate) fn send(
        &mut self,
        entry: &Entry,
        place: usize,
        plain: &Plain,
        change: &Change<'_>,
    ) -> Output
        requires change { IsRewrite (rewrite_of change.now) }
        requires plain { (packet : Packet) × IsPlain plain.now packet }
        ensures sent { SendsFor self.old entry.now place plain.now (rewrite_of change.now) result self.new }
        ensures serial { self.new.serial ≡ self.old.serial }
        ensures whole { IsWhole result }
    {
        let to = entry.association;
        let mut octets = [0; 1500];
        match self.seal(&entry.server, plain, change, &mut octets) {
            Ok(len) => Output::Sealed {
                place,
                to,
                octets,
                len,
            },
            Err(fault) => Output::Dropped { place, to, fault },
        }
    }

    // Seals a packet under a server pair to the front of `out`, and answers how many octets that are.
    fn seal(
        &mut self,
        server: &Master,
        plain: &Plain,
        change: &Change<'_>,
        out: &mut [u8; 1500],
    ) -> Result<usize, ForwardFault>
        requires change { IsRewrite (rewrite_of change.now) }
        requires plain { (packet : Packet) × IsPlain plain.now packet }
        ensures media { SealsMediaFor self.old server.now plain.now (rewrite_of change.now) result out.new self.new }
        ensures control { SealsControlFor self.old server.now plain.now result out.new self.new }
        ensures refused { OnErr result (self.new ≡ self.old) }
        ensures serial { self.new.serial ≡ self.old.serial }
        ensures within { IfOk result (λ n. n ≤ 1500) }
    {
        self.session.renew(server);
        if plain.rtcp {
            return seal_control(&mut self.rtcp, self.session.srtcp(), plain, out);
        }
        self.streams.seal(self.session.srtp(), plain, change, out)
    }
}

// Seals a control packet at the next index to the front of `out`, and answers how many octets that are.
fn seal_control(
    rtcp: &mut RtcpTx,
    keys: &Keys,
    plain: &Plain,
    out: &mut [u8; 1500],
) -> Result<usize, ForwardFault>
    requires control { ControlOf plain.now }
    requires next { rtcp.old ≤ 2 ^ 31 }
    ensures sealed { SealsControl rtcp.old keys.now plain.now result out.new rtcp.new }
    ensures refused { OnErr result (rtcp.new ≡ rtcp.old) }
    ensures within { IfOk result (λ n. n ≤ 1500) }
    ensures next { rtcp.new ≤ 2 ^ 31 }
{
    *out = plain.octets;
    match rtcp.seal(keys, out, plain.len) {
        Ok(len) => Ok(len),
        Err(RtcpTxFault::Room) => Err(ForwardFault::Room),
        Err(RtcpTxFault::Spent) => Err(ForwardFault::RtcpSpent),
    }
}

// Whether an entry of the set has this serial.
pub(crate) fn is_in(set: &KeySet, serial: u32) -> bool
    ensures { result ≡ in_set set.now serial }
{
    for i in 0..set.len() {
        if set.at(i).serial == serial {
            return true;
        }
    }
    false
}
