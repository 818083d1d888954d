// An endpoint.
ghost use Rattle.std.specs.Prelude.{◌≡◌, ℕ, ◌^◌, ◌<◌, ◌≤◌, List, All, None, Some, length, IfErr, IfOk, OnErr, OnOk};
ghost use Rattle.perc_base.specs.Profile.{key_length};
ghost use Rattle.perc_ekt.specs.Record.{IsRecord};
ghost use Rattle.perc_rtp.specs.Media.{content_of};
ghost use Rattle.perc_octets.specs.Octets.{AreOctets};
ghost use Rattle.perc_receiver.specs.Table.{Secret, secret_in};
ghost use Rattle.perc_outgoing.specs.Sending.{IsContent};
ghost use Rattle.perc_incoming.specs.Control.{IsControl};
ghost use Rattle.perc_outer.specs.Datagram.{Opened};
ghost use Rattle.perc_outer.specs.Kept.{KeepsWhenRefused};
ghost use Rattle.perc_receiver.specs.Receiver.{OpenTry, reach_of, receiving};
ghost use Rattle.perc_incoming.specs.Opening.{IsInquiry};
ghost use Rattle.perc_incoming.specs.Outcome.{IsAnswered, IsReached, IsReachedAs, IsTakenAs, IsTakenIn, IsToldOf, StaysWhenRefused, padding_answer};
ghost use Rattle.perc_endpoint.specs.Endpoint as spec;
ghost use Rattle.perc_endpoint.specs.Endpoint.{after_grant, after_rekey, grant_answer, reached, received, rekey_answer, row_added, rtcp_received, rtcp_sent, sent, settled, started, wraps_added};
ghost use Rattle.perc_endpoint.specs.Kept.{HasSecret, IsAdded, IsDeparture, IsGranted, IsRtcpDeparture, StandsFor};

use crate::GrantFault;
use perc_base::{Memory, Profile};
use perc_ekt::EktKeyRecord;
use perc_incoming::{Accepted, Decided, Incoming, Inquiry};
use perc_kdf::Master;
use perc_outer::{OuterFault, Reached};
use perc_outgoing::{Outgoing, RtcpSendFault, SendFault, Sent};
use perc_receiver::Refusal;
use perc_rtp::Media;
use perc_srtp::RtcpFault;
use std::alloc::Global;
use std::marker::Model;

/// An endpoint of a conference. It sends its own media, and receives what a distributor sends on of the other endpoints.
#[derive(Drop)]
pub struct Endpoint {
    outgoing: Outgoing,
    incoming: Incoming,
}

impl Model for Endpoint {
    ghost use Rattle.perc_endpoint.specs.Kept.{IsKept, Kept};

    ghost Value = { Kept };

    ghost view = { λ e. record { sending = e.outgoing; receiving = e.incoming } };

    ghost invariant = { λ e. IsKept (record { sending = e.outgoing; receiving = e.incoming }) };
}

impl Endpoint {
    /// An endpoint with this SSRC that sent and received nothing. `client` is the outer master of what it sends and `server` of what
    /// it receives. Its first packet has the index `first`, below 2^48, and goes out under `key`, wrapped under the key of the
    /// record, which is right; both keys are as long as the profile's. All memory is taken here.
    pub fn start(
        alloc: Global,
        profile: Profile,
        ssrc: u32,
        first: u64,
        client: &Master,
        server: &Master,
        granted: &EktKeyRecord,
        key: &[u8],
    ) -> Result<Endpoint, Memory>
        requires first { first < 2 ^ 48 }
        requires right { IsRecord granted.now }
        requires ekt_key { granted.now.len ≡ key_length profile }
        requires key { length key.now ≡ key_length profile }
        ensures started { IfOk result (λ endpoint. StandsFor endpoint (started profile ssrc first client.now server.now (secret_in granted.now) key.now)) }
        ensures profile { IfOk result (λ endpoint. endpoint.receiving.profile ≡ profile) }
    {
        let outgoing = Outgoing::start(alloc, ssrc, first, client, granted, key)?;
        let incoming = Incoming::start(alloc, profile, ssrc, server, granted)?;
        Ok(Endpoint { outgoing, incoming })
    }

    /// Takes the record of an EKT key, which is right, and a key of its own under that SPI, to send under from then on (RFC 8870
    /// section 4.6); both keys are as long as the profile's. The first fault in the order of `GrantFault` is answered. After a
    /// refusal all is as it was: no SPI goes, and the key isn't taken.
    pub fn take_ekt(&mut self, granted: &EktKeyRecord, key: &[u8]) -> Result<(), GrantFault>
        requires right { IsRecord granted.now }
        requires ekt_key { granted.now.len ≡ key_length self.old.receiving.profile }
        requires key { length key.now ≡ key_length self.old.receiving.profile }
        ensures answer { (e : spec.Endpoint) → StandsFor self.old e → IsGranted (grant_answer e (secret_in granted.now) key.now) result }
        ensures stands { (e : spec.Endpoint) → StandsFor self.old e
            → StandsFor self.new (after_grant e (secret_in granted.now) key.now (grant_answer e (secret_in granted.now) key.now)) }
        ensures refused { OnErr result (self.new ≡ self.old) }
        ensures profile { self.new.receiving.profile ≡ self.old.receiving.profile }
    {
        let latest = self.incoming.latest();
        if granted.spi <= latest {
            return Err(GrantFault::SpiOld(latest));
        }
        self.outgoing.take_granted(granted, key)?;
        // Its SPI is above the latest.
        let Ok(()) = self.incoming.grant(granted) else {
            unreachable!()
        };
        Ok(())
    }

    /// Takes a key under the present SPI, to send under from then on, and answers its epoch: its number, from 0, among those taken
    /// under the SPI. It is as long as the profile's. The first fault in the order of `GrantFault` is answered, and never `SpiOld`.
    /// After a refusal all is as it was.
    pub fn rekey(&mut self, key: &[u8]) -> Result<u16, GrantFault>
        requires { length key.now ≡ key_length self.old.receiving.profile }
        ensures answer { (e : spec.Endpoint) → StandsFor self.old e → result ≡ rekey_answer e key.now }
        ensures stands { (e : spec.Endpoint) → StandsFor self.old e → StandsFor self.new (after_rekey e key.now (rekey_answer e key.now)) }
        ensures refused { OnErr result (self.new ≡ self.old) }
        ensures profile { self.new.receiving.profile ≡ self.old.receiving.profile }
    {
        Ok(self.outgoing.rekey(key)?)
    }

    /// Writes the next datagram of this media to the front of `out` (RFC 8723 section 5.1, RFC 8870 section 4.1), and tells its
    /// length and the packet's index, SPI and epoch. The first fault in the order of `SendFault` is answered. After a refusal no
    /// index is taken, and all is as it was.
    pub fn send(&mut self, media: &Media<'_>, out: &mut [u8; 1500]) -> Result<Sent, SendFault>
        ensures answer { (e : spec.Endpoint) → StandsFor self.old e → IsDeparture (sent e (content_of media.now)).0 result out.new }
        ensures stands { (e : spec.Endpoint) → StandsFor self.old e → StandsFor self.new (sent e (content_of media.now)).1 }
        ensures len { IfOk result (λ told. told.len ≤ 1500) }
        ensures added { OnOk result ((e : spec.Endpoint) (secrets : List Secret) (sender : List ℕ) (number : ℕ) → StandsFor self.old e
            → HasSecret secrets e → IsAdded secrets (row_added sender number e (content_of media.now)) (wraps_added e)) }
        ensures refused { OnErr result ((out.new ≡ out.old) × (self.new ≡ self.old)) }
        ensures profile { self.new.receiving.profile ≡ self.old.receiving.profile }
    {
        known_media(media);
        self.outgoing.send(media, out)
    }

    /// Receives a datagram of at most 1500 octets: a packet that is sealed hop by hop and from end to end, and the EKT field behind
    /// it (RFC 8723 section 5.3, RFC 8870 section 4.3). The first refusal in the order of `Refusal` is answered. Up to a wrong outer
    /// tag it leaves all as it was, and a later one accepts the outer index alone. The payload is lent from the datagram's own
    /// octets, of which nothing else is said.
    pub fn receive<'b>(&mut self, datagram: &'b mut [u8]) -> Result<Accepted<'b>, Refusal>
        requires few { length datagram.old ≤ 1500 }
        ensures answer { (e : spec.Endpoint) → StandsFor self.old e → IsAnswered (received e datagram.old).0 result }
        ensures stands { (e : spec.Endpoint) → StandsFor self.old e → StandsFor self.new (received e datagram.old).1 }
        ensures refused { StaysWhenRefused result (self.new ≡ self.old) }
        ensures profile { self.new.receiving.profile ≡ self.old.receiving.profile }
    {
        self.incoming.receive(datagram)
    }

    /// Opens a datagram of at most 1500 octets hop by hop: the first of the three parts of `receive`, for who asks about all of a
    /// datagram's tries. It tells where the datagram's parts stand. The outer index is accepted then, also where the datagram is refused
    /// for its block; after any other refusal all is as it was.
    pub fn reach(&mut self, datagram: &mut [u8]) -> Result<Reached, OuterFault>
        requires few { length datagram.old ≤ 1500 }
        ensures answer { (e : spec.Endpoint) → StandsFor self.old e → IsReachedAs (reach_of e.receiving datagram.old) result datagram.new }
        ensures stands { (e : spec.Endpoint) → StandsFor self.old e → StandsFor self.new (reached e datagram.old) }
        ensures reached { IfOk result (IsReached datagram.new) }
        ensures refused { KeepsWhenRefused result ((self.new ≡ self.old) × (datagram.new ≡ datagram.old)) }
        ensures profile { self.new.receiving.profile ≡ self.old.receiving.profile }
    {
        self.incoming.reach(datagram)
    }

    /// Asks the ciphers about a datagram that was opened hop by hop: the second part, which changes nothing. It tells whether the key
    /// that it carries unwraps, under which keys it opens, and by which try it is taken, or why it is refused; all is looked at but the
    /// padding. The body by that try stands at the front of `room` then.
    pub fn ask(&self, datagram: &[u8], reached: &Reached, room: &mut [u8; 1500]) -> Inquiry
        requires { IsReached datagram.now reached.now }
        ensures answer { (e : spec.Endpoint) (o : Opened) → StandsFor self.now e → IsToldOf o datagram.now reached.now → IsInquiry e.receiving o result room.new }
        ensures taken { IfOk result.decision (λ decided. IsTakenIn self.now.receiving datagram.now reached.now decided room.new) }
    {
        self.incoming.ask(datagram, reached, room)
    }

    /// Accepts an opened datagram by the try that was decided on, whose opened body stands at the front of `room`: the third part. The
    /// payload is lent from the datagram's own octets. Where the body isn't padded right it is refused, and nothing changes.
    pub fn settle<'b>(
        &mut self,
        datagram: &'b mut [u8],
        reached: &Reached,
        decided: &Decided,
        room: &[u8; 1500],
    ) -> Result<Accepted<'b>, Refusal>
        requires reached { IsReached datagram.old reached.now }
        requires taken { IsTakenIn self.old.receiving datagram.old reached.now decided.now room.now }
        ensures answer { (e : spec.Endpoint) (o : Opened) (t : OpenTry) → StandsFor self.old e → IsToldOf o datagram.old reached.now
            → IsTakenAs (receiving e.receiving) o.header.ssrc t decided.now room.now → IsAnswered (padding_answer o t) result }
        ensures stands { (e : spec.Endpoint) (o : Opened) (t : OpenTry) → StandsFor self.old e → IsToldOf o datagram.old reached.now
            → IsTakenAs (receiving e.receiving) o.header.ssrc t decided.now room.now → StandsFor self.new (settled e (padding_answer o t)) }
        ensures refused { OnErr result (self.new ≡ self.old) }
        ensures padding { IfErr result (λ refusal. refusal ≡ Refusal.Padding) }
        ensures profile { self.new.receiving.profile ≡ self.old.receiving.profile }
    {
        self.incoming.settle(datagram, reached, decided, room)
    }

    /// Writes an RTCP packet, sealed hop by hop (RFC 7714 section 9), to the front of `out`, and answers its length, 20 octets more
    /// than `plain` has. The first fault in the order of `RtcpSendFault` is answered. After a refusal no index is taken, and all is
    /// as it was.
    pub fn send_rtcp(&mut self, plain: &[u8], out: &mut [u8; 1500]) -> Result<usize, RtcpSendFault>
        ensures answer { (e : spec.Endpoint) → StandsFor self.old e → IsRtcpDeparture (rtcp_sent e plain.now).0 result out.new }
        ensures stands { (e : spec.Endpoint) → StandsFor self.old e → StandsFor self.new (rtcp_sent e plain.now).1 }
        ensures len { IfOk result (λ len. len ≤ 1220) }
        ensures refused { OnErr result ((out.new ≡ out.old) × (self.new ≡ self.old)) }
        ensures profile { self.new.receiving.profile ≡ self.old.receiving.profile }
    {
        self.outgoing.send_rtcp(plain, out)
    }

    /// Opens a sealed RTCP packet of at most 1500 octets (RFC 7714 section 9), accepts its index, and lends the plain packet. There is
    /// no refusal of its own stream. After a refusal all is as it was.
    pub fn receive_rtcp<'b>(&mut self, datagram: &'b mut [u8]) -> Result<&'b [u8], RtcpFault>
        requires few { length datagram.old ≤ 1500 }
        ensures answer { (e : spec.Endpoint) → StandsFor self.old e → IsControl (rtcp_received e datagram.old).0 result }
        ensures stands { (e : spec.Endpoint) → StandsFor self.old e → StandsFor self.new (rtcp_received e datagram.old).1 }
        ensures refused { OnErr result (self.new ≡ self.old) }
        ensures profile { self.new.receiving.profile ≡ self.old.receiving.profile }
    {
        self.incoming.receive_rtcp(datagram)
    }
}

// A piece of media has numbers that fit their bits, and octets.
fn known_media(media: &Media<'_>)
    ensures { IsContent (content_of media.now) }
{
    known_numbers(media.timestamp, media.pad);
    known_csrcs(media.csrcs);
    known_octets(media.payload);
}

fn known_numbers(timestamp: u32, pad: u8)
    ensures timestamp { timestamp < 2 ^ 32 }
    ensures pad { pad < 256 }
{}

fn known_csrcs(csrcs: &[u32])
    ensures { All (λ x. x < 2 ^ 32) csrcs.now }
{}

fn known_octets(octets: &[u8])
    ensures { AreOctets octets.now }
{}
