// The receiving side of an endpoint.
ghost use Rattle.std.specs.Prelude.{◌≡◌, ◌≤◌, Some, length, IfErr, IfOk, OnErr};
ghost use Rattle.perc_base.specs.Profile.{key_length};
ghost use Rattle.perc_ekt.specs.Record.{IsRecord};
ghost use Rattle.perc_contexts.specs.Receiving as contexts_spec;
ghost use Rattle.perc_contexts.specs.Receiving.{spi_answer};
ghost use Rattle.perc_receiver.specs.Table.{secret_in};
ghost use Rattle.perc_outer.specs.Datagram.{Opened};
ghost use Rattle.perc_outer.specs.Kept.{KeepsWhenRefused};
ghost use Rattle.perc_receiver.specs.Receiver.{OpenTry, Receiver, live_of, outcome, reach_of, receiving, settled};
ghost use Rattle.perc_receiver.specs.Calls.{started};
ghost use Rattle.perc_incoming.specs.Kept.{StandsFor};
ghost use Rattle.perc_incoming.specs.Control.{IsControl, outcome_rtcp};
ghost use Rattle.perc_incoming.specs.Granting.{IsGranted};
ghost use Rattle.perc_incoming.specs.Opening.{IsInquiry};
ghost use Rattle.perc_incoming.specs.Outcome.{IsAnswered, IsDecision, IsInner, IsReached, IsReachedAs, IsTakenAs, IsTakenIn, IsToldOf, StaysWhenRefused, after_reach, decision, padding_answer};

use crate::choosing::{Decided, decide_reached, original_head, told_key};
use crate::inquiry::{Inquiry, inquire};
use crate::records::{LIVE_SPIS, keep_record, known_octets, outer_session};
use crate::settling::{Accepted, key_under, put_payload};
use perc_base::{Memory, Profile};
use perc_contexts::{Contexts, SpiOld};
use perc_ekt::EktKeyRecord;
use perc_kdf::{Kind, Master};
use perc_outer::{OuterFault, OuterStreams, Reached, reach};
use perc_receiver::Refusal;
use perc_rtp::without_padding;
use perc_srtp::{Keys, RtcpFault, RtcpRx};
use std::alloc::Global;
use std::marker::Model;

/// The receiving side of an endpoint. Its value is the profile, the own SSRC, the session keys of the outer master, the records of
/// the live SPIs, and what is kept of contexts, outer streams and RTCP indices.
#[derive(Drop)]
pub struct Incoming {
    profile: Profile,
    ssrc: u32,
    /// The outer keys of media, and those of RTCP packets.
    media: Keys,
    control: Keys,
    /// The records of the live SPIs, rising.
    records: Vec<EktKeyRecord>,
    contexts: Contexts,
    streams: OuterStreams,
    rtcp: RtcpRx,
}

impl Model for Incoming {
    ghost use Rattle.std.specs.Prelude.{vec_capacity};
    ghost use Rattle.perc_incoming.specs.Kept.{IsKept, Kept};

    ghost Value = { Kept };

    ghost view = { λ s. record { profile = s.profile; ssrc = s.ssrc; media = s.media; control = s.control; records = s.records.items; contexts = s.contexts; streams = s.streams; rtcp = s.rtcp } };

    ghost invariant = { λ s. IsKept (record { profile = s.profile; ssrc = s.ssrc; media = s.media; control = s.control; records = s.records.items; contexts = s.contexts; streams = s.streams; rtcp = s.rtcp }) (vec_capacity s.records) };
}

impl Incoming {
    /// An endpoint with this SSRC that received nothing and holds one record, which is right and has a key of the profile's
    /// length. `server` is the outer master of what it receives. All memory is taken here.
    pub fn start(
        alloc: Global,
        profile: Profile,
        ssrc: u32,
        server: &Master,
        granted: &EktKeyRecord,
    ) -> Result<Incoming, Memory>
        requires right { IsRecord granted.now }
        requires key { granted.now.len ≡ key_length profile }
        ensures started { IfOk result (λ incoming. StandsFor incoming (started ssrc server.now (secret_in granted.now))) }
        ensures profile { IfOk result (λ incoming. incoming.profile ≡ profile) }
    {
        let Ok(mut records) = Vec::with_capacity(alloc, LIVE_SPIS) else {
            return Err(Memory);
        };
        keep_record(&mut records, granted);
        let mut contexts = Contexts::with_room(alloc)?;
        // Any SPI is above none.
        let Ok(_) = contexts.spi_add(granted.spi) else {
            unreachable!()
        };
        Ok(Incoming {
            profile,
            ssrc,
            media: outer_session(server, Kind::Srtp),
            control: outer_session(server, Kind::Srtcp),
            records,
            contexts,
            streams: OuterStreams::with_room(alloc)?,
            rtcp: RtcpRx::new(),
        })
    }

    /// The SPI of the record that was taken last.
    pub fn latest(&self) -> u16
        ensures { (r : Receiver) → StandsFor self.now r → Some result ≡ contexts_spec.latest (live_of r.secrets) }
    {
        let Some(last) = self.records.last() else {
            unreachable!()
        };
        last.spi
    }

    /// Takes a record, which is right and has a key of the profile's length, where its SPI is above the latest. Where four SPIs
    /// are live the lowest goes, and what was received under it is forgotten. After a refusal, which tells the latest SPI, all
    /// is as it was.
    pub fn grant(&mut self, granted: &EktKeyRecord) -> Result<(), SpiOld>
        requires right { IsRecord granted.now }
        requires key { granted.now.len ≡ key_length self.old.profile }
        ensures answer { (r : Receiver) → StandsFor self.old r
            → IsGranted (spi_answer (live_of r.secrets) granted.now.spi) (secret_in granted.now) r result self.new }
        ensures refused { OnErr result (self.new ≡ self.old) }
        ensures profile { self.new.profile ≡ self.old.profile }
    {
        self.contexts.spi_add(granted.spi)?;
        keep_record(&mut self.records, granted);
        Ok(())
    }

    /// Opens a datagram of at most 1500 octets hop by hop: the first of the three parts of `receive`, which tells where its parts
    /// stand. Its outer index is accepted then, also where it is refused for its block; after any other refusal all is as it was.
    pub fn reach(&mut self, datagram: &mut [u8]) -> Result<Reached, OuterFault>
        requires few { length datagram.old ≤ 1500 }
        ensures answer { (r : Receiver) → StandsFor self.old r → IsReachedAs (reach_of r datagram.old) result datagram.new }
        ensures stands { (r : Receiver) → StandsFor self.old r → StandsFor self.new (after_reach r (reach_of r datagram.old)) }
        ensures reached { IfOk result (IsReached datagram.new) }
        ensures refused { KeepsWhenRefused result ((self.new ≡ self.old) × (datagram.new ≡ datagram.old)) }
        ensures profile { self.new.profile ≡ self.old.profile }
    {
        known_octets(datagram);
        reach(&self.media, Some(self.ssrc), &mut self.streams, datagram)
    }

    /// Decides by which try an opened datagram opens, or why it is refused: the second part, which changes nothing. All that is left
    /// then is the padding. The opened body stands at the front of `room`.
    pub fn decide(
        &self,
        datagram: &[u8],
        reached: &Reached,
        room: &mut [u8; 1500],
    ) -> Result<Decided, Refusal>
        requires { IsReached datagram.now reached.now }
        ensures answer { (r : Receiver) (o : Opened) → StandsFor self.now r → IsToldOf o datagram.now reached.now
            → IsDecision (receiving r) o.header.ssrc (decision r.secrets r.contexts o) result room.new }
        ensures inner { IfErr result IsInner }
        ensures taken { IfOk result (λ decided. IsTakenIn self.now datagram.now reached.now decided room.new) }
    {
        decide_reached(
            &self.contexts,
            &self.records,
            self.profile,
            datagram,
            reached,
            room,
        )
    }

    /// Asks the ciphers all about an opened datagram, in place of `decide`, and changes nothing: whether the key that it carries unwraps,
    /// under which keys it opens, and what `decide` decides. The body by the try that is taken stands at the front of `room` then.
    pub fn ask(&self, datagram: &[u8], reached: &Reached, room: &mut [u8; 1500]) -> Inquiry
        requires { IsReached datagram.now reached.now }
        ensures answer { (r : Receiver) (o : Opened) → StandsFor self.now r → IsToldOf o datagram.now reached.now → IsInquiry r o result room.new }
        ensures taken { IfOk result.decision (λ decided. IsTakenIn self.now datagram.now reached.now decided room.new) }
    {
        inquire(
            &self.contexts,
            &self.records,
            self.profile,
            datagram,
            reached,
            room,
        )
    }

    /// Accepts an opened datagram by the try that was decided on, whose opened body stands at the front of `room`: the third part.
    /// The payload is lent from the datagram's own octets. Where the body isn't padded right it is refused, and nothing changes.
    pub fn settle<'b>(
        &mut self,
        datagram: &'b mut [u8],
        reached: &Reached,
        decided: &Decided,
        room: &[u8; 1500],
    ) -> Result<Accepted<'b>, Refusal>
        requires reached { IsReached datagram.old reached.now }
        requires taken { IsTakenIn self.old datagram.old reached.now decided.now room.now }
        ensures answer { (r : Receiver) (o : Opened) (t : OpenTry) → StandsFor self.old r → IsToldOf o datagram.old reached.now
            → IsTakenAs (receiving r) o.header.ssrc t decided.now room.now → IsAnswered (padding_answer o t) result }
        ensures stands { (r : Receiver) (o : Opened) (t : OpenTry) → StandsFor self.old r → IsToldOf o datagram.old reached.now
            → IsTakenAs (receiving r) o.header.ssrc t decided.now room.now → StandsFor self.new (settled r (padding_answer o t)) }
        ensures refused { OnErr result (self.new ≡ self.old) }
        ensures padding { IfErr result (λ refusal. refusal ≡ Refusal.Padding) }
        ensures profile { self.new.profile ≡ self.old.profile }
    {
        let mut octets = [0; 72];
        let head = original_head(datagram, reached, &mut octets);
        let Some(len) = without_padding(head.padding, &room[..decided.len]) else {
            return Err(Refusal::Padding);
        };
        let key = told_key(&decided.carried);
        let (spi, _) = key_under(&self.contexts, &decided.attempt, key.as_ref());
        self.contexts
            .commit(head.ssrc, &decided.attempt, key.as_ref());
        Ok(Accepted {
            ssrc: head.ssrc,
            spi,
            index: decided.attempt.index,
            pt: head.pt,
            seq: head.seq,
            marker: head.marker,
            timestamp: head.timestamp,
            payload: put_payload(datagram, reached.header, &room[..len]),
        })
    }

    /// Receives a datagram of at most 1500 octets: a packet that is sealed hop by hop and from end to end, and the EKT field behind
    /// it (RFC 8723 section 5.3, RFC 8870 section 4.3). The first refusal in the order of `Refusal` is answered. Up to a wrong outer
    /// tag it leaves all as it was, and a later one accepts the outer index alone. What the datagram's octets are then isn't
    /// specified; the payload is lent from them.
    pub fn receive<'b>(&mut self, datagram: &'b mut [u8]) -> Result<Accepted<'b>, Refusal>
        requires few { length datagram.old ≤ 1500 }
        ensures answer { (r : Receiver) → StandsFor self.old r → IsAnswered (outcome r datagram.old).0 result }
        ensures stands { (r : Receiver) → StandsFor self.old r → StandsFor self.new (outcome r datagram.old).1 }
        ensures refused { StaysWhenRefused result (self.new ≡ self.old) }
        ensures profile { self.new.profile ≡ self.old.profile }
    {
        let reached = match self.reach(datagram) {
            Ok(reached) => reached,
            Err(fault) => return Err(Refusal::Outer(fault)),
        };
        let mut room = [0; 1500];
        let decided = self.decide(datagram, &reached, &mut room)?;
        self.settle(datagram, &reached, &decided, &room)
    }

    /// Opens a sealed RTCP packet of at most 1500 octets (RFC 7714 section 9), accepts its index, and lends the plain packet. After
    /// a refusal all is as it was.
    pub fn receive_rtcp<'b>(&mut self, datagram: &'b mut [u8]) -> Result<&'b [u8], RtcpFault>
        requires few { length datagram.old ≤ 1500 }
        ensures answer { (r : Receiver) → StandsFor self.old r → IsControl (outcome_rtcp r datagram.old).0 result }
        ensures stands { (r : Receiver) → StandsFor self.old r → StandsFor self.new (outcome_rtcp r datagram.old).1 }
        ensures refused { OnErr result (self.new ≡ self.old) }
        ensures profile { self.new.profile ≡ self.old.profile }
    {
        let len = self.rtcp.unseal(&self.control, datagram)?;
        Ok(&datagram[..len])
    }
}
