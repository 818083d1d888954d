// What is kept of what came from one serial.
ghost use Rattle.std.specs.Prelude.{◌≡◌, ℕ, ◌+◌, ◌≤◌, List, length, take, None, Some, IfOk, IsOk};
ghost use Rattle.perc_kdf.specs.Derivation.{IsSession};
ghost use Rattle.perc_window.specs.Replay.{StandsFor};
ghost use Rattle.perc_rtp.specs.Carried.{rtcp_head};
ghost use Rattle.perc_srtp.specs.Streams.{rtcp_opened};
ghost use Rattle.perc_outer.specs.Streams.{OuterStream};
ghost use Rattle.perc_outer.specs.Datagram.{Opened, reached, streams_after};
ghost use Rattle.perc_outer.specs.Kept as outer;
ghost use Rattle.perc_distributor.specs.Inbound.{Heard};
ghost use Rattle.perc_distributor.specs.Kept.{IsControl, IsMedia, holds};
ghost use Rattle.perc_distributor.specs.Hearing.{HasOpened, IsAnswer, IsCopyOpened, IsCopyReached, IsHeard, IsNothing, IsOpenedAt, IsSomePlain, control_of, indices_after, media_of, opened_from};
ghost use Rattle.perc_distributor.specs.Rooms.{is_free, is_staying, staying};

use crate::session::{Session, known_octets};
use crate::slot::is_in;
use crate::streams::put_behind;
use crate::{InboundFault, Plain};
use perc_base::Memory;
use perc_gcm::TAG_LEN;
use perc_kdf::{Kind, Master};
use perc_keyset::{Entry, KeySet};
use perc_outer::{OuterFault, OuterStreams, reach};
use perc_srtp::{Keys, RtcpFault, RtcpRx};
use std::alloc::Global;
use std::marker::Model;

/// What is kept of what came from one serial: its outer streams and the window of its RTCP packets. Or a place that is free.
#[derive(Drop)]
pub(crate) struct Origin {
    serial: Option<u32>,
    /// Of the client pair that was opened under last.
    session: Session,
    streams: OuterStreams,
    rtcp: RtcpRx,
}

impl Model for Origin {
    ghost use Rattle.perc_distributor.specs.Hearing.{Origin, StandsForSome};

    ghost Value = { Origin };

    ghost view = { λ s. record { serial = s.serial; streams = s.streams; rtcp = s.rtcp } };

    ghost invariant = { λ s. StandsForSome (record { serial = s.serial; streams = s.streams; rtcp = s.rtcp }) };
}

impl Origin {
    /// A free place, with room for 256 streams. No other call takes memory.
    pub(crate) fn with_room(alloc: Global) -> Result<Origin, Memory>
        ensures { IfOk result (λ origin. origin.serial ≡ None) }
    {
        let streams = OuterStreams::with_room(alloc)?;
        // No entry has these keys yet: they are put in the place of the first one's.
        let no_keys = Master::new(&[0; 16], &[0; 12]).unwrap();
        Ok(Origin {
            serial: None,
            session: Session::new(&no_keys),
            streams,
            rtcp: RtcpRx::new(),
        })
    }

    /// Whether it is a serial's.
    pub(crate) fn holds(&self, serial: u32) -> bool
        ensures { result ≡ holds serial self.now }
    {
        self.serial == Some(serial)
    }

    /// Whether it is free.
    pub(crate) fn is_free(&self) -> bool
        ensures { result ≡ is_free self.now }
    {
        self.serial.is_none()
    }

    /// Lets go what came.
    pub(crate) fn clear(&mut self)
        ensures nothing { IsNothing self.new }
        ensures serial { self.new.serial ≡ self.old.serial }
    {
        self.streams.clear();
        self.rtcp = RtcpRx::new();
    }

    /// Makes what came that of a serial.
    pub(crate) fn hold(&mut self, serial: u32)
        ensures { self.new ≡ record self.old { serial = Some serial } }
    {
        self.serial = Some(serial);
    }

    /// Makes it free where its serial isn't in the set.
    pub(crate) fn stay(&mut self, set: &KeySet)
        ensures { self.new ≡ staying set.now self.old }
    {
        if !self.is_staying(set) {
            self.serial = None;
        }
    }

    // Whether it is a serial's of the set.
    fn is_staying(&self, set: &KeySet) -> bool
        ensures { result ≡ is_staying set.now self.now }
    {
        match self.serial {
            Some(serial) => is_in(set, serial),
            None => false,
        }
    }

    /// Opens an RTP or RTCP packet of an entry of its serial into `out`.
    pub(crate) fn take(
        &mut self,
        entry: &Entry,
        rtcp: bool,
        datagram: &[u8],
        out: &mut Plain,
    ) -> Result<(), InboundFault>
        requires few { length datagram.now ≤ 1500 }
        ensures opened { (h : Heard) → IsHeard self.old h → HasOpened (opened_from entry.now h rtcp datagram.now) result out.new self.new }
        ensures plain { IsSomePlain result out.new }
        ensures serial { self.new.serial ≡ self.old.serial }
    {
        self.session.renew(&entry.client);
        if rtcp {
            return take_control(&mut self.rtcp, self.session.srtcp(), entry, datagram, out);
        }
        take_media(&mut self.streams, self.session.srtp(), entry, datagram, out)
    }
}

// Opens a media packet in its stream into `out`, with its field behind it.
fn take_media(
    streams: &mut OuterStreams,
    keys: &Keys,
    entry: &Entry,
    datagram: &[u8],
    out: &mut Plain,
) -> Result<(), InboundFault>
    requires few { length datagram.now ≤ 1500 }
    requires session { IsSession keys.now }
    ensures answer { (before : List OuterStream) → outer.StandsFor streams.old before
        → IsAnswer (media_of entry.now (reached keys.now None before datagram.now)) result out.new }
    ensures streams { (before : List OuterStream) → outer.StandsFor streams.old before
        → outer.StandsFor streams.new (streams_after before (reached keys.now None before datagram.now)) }
{
    match reach_copy(streams, keys, datagram, &mut out.octets) {
        Ok(len) => {
            put_media(entry, datagram, len, out);
            Ok(())
        }
        Err(fault) => Err(InboundFault::Outer(fault)),
    }
}

// Opens a datagram where its copy stands at the front of `out`, and answers how many octets the packet then has. In the
// datagram the field begins 16 octets behind them.
fn reach_copy(
    streams: &mut OuterStreams,
    keys: &Keys,
    datagram: &[u8],
    out: &mut [u8; 1500],
) -> Result<usize, OuterFault>
    requires few { length datagram.now ≤ 1500 }
    requires session { IsSession keys.now }
    ensures answer { (before : List OuterStream) → outer.StandsFor streams.old before
        → IsCopyReached (reached keys.now None before datagram.now) result datagram.now out.new }
    ensures streams { (before : List OuterStream) → outer.StandsFor streams.old before
        → outer.StandsFor streams.new (streams_after before (reached keys.now None before datagram.now)) }
    ensures within { IfOk result (λ len. len + 16 ≤ length datagram.now) }
{
    let copy = &mut out[..datagram.len()];
    copy.copy_from_slice(known_octets(datagram));
    let told = reach(keys, None, streams, copy)?;
    Ok(told.len)
}

// Makes `out` a media packet, which is opened in its first `len` octets, with the datagram's field behind it.
fn put_media(entry: &Entry, datagram: &[u8], len: usize, out: &mut Plain)
    requires few { length datagram.now ≤ 1500 }
    requires within { len + 16 ≤ length datagram.now }
    ensures { (o : Opened) → IsOpenedAt o datagram.now out.old.octets len
        → IsMedia out.new entry.now.association o.header o.inner o.block o.field }
{
    let end = put_behind(&datagram[len + TAG_LEN..], &mut out.octets, len);
    out.from = entry.association;
    out.rtcp = false;
    out.len = end;
    out.field = end - len;
}

// Opens an RTCP packet into `out`.
fn take_control(
    rtcp: &mut RtcpRx,
    keys: &Keys,
    entry: &Entry,
    datagram: &[u8],
    out: &mut Plain,
) -> Result<(), InboundFault>
    requires few { length datagram.now ≤ 1500 }
    ensures answer { (before : List ℕ) → StandsFor rtcp.old before
        → IsAnswer (control_of entry.now (rtcp_opened keys.now before datagram.now)) result out.new }
    ensures indices { (before : List ℕ) → StandsFor rtcp.old before
        → StandsFor rtcp.new (indices_after before (rtcp_opened keys.now before datagram.now)) }
{
    match open_copy(rtcp, keys, datagram, &mut out.octets) {
        Ok(len) => {
            put_control(entry, len, out);
            Ok(())
        }
        Err(fault) => Err(InboundFault::Rtcp(fault)),
    }
}

// Opens an RTCP packet where its copy stands at the front of `out`, and answers how many octets it then has.
fn open_copy(
    rtcp: &mut RtcpRx,
    keys: &Keys,
    datagram: &[u8],
    out: &mut [u8; 1500],
) -> Result<usize, RtcpFault>
    requires few { length datagram.now ≤ 1500 }
    ensures answer { (before : List ℕ) → StandsFor rtcp.old before
        → IsCopyOpened before (rtcp_opened keys.now before datagram.now) result out.new rtcp.old rtcp.new }
    ensures within { IfOk result (λ len. len ≤ 1500) }
{
    let copy = &mut out[..datagram.len()];
    copy.copy_from_slice(datagram);
    rtcp.unseal(keys, copy)
}

// Makes `out` a control packet of its first `len` octets.
fn put_control(entry: &Entry, len: usize, out: &mut Plain)
    requires { len ≤ 1500 }
    ensures { (octets : List ℕ) → take len out.old.octets ≡ octets → IsOk (rtcp_head octets)
        → IsControl out.new entry.now.association octets }
{
    out.from = entry.association;
    out.rtcp = true;
    out.len = len;
    out.field = 0;
}
