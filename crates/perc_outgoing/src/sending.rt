// The sending side of an endpoint.
ghost use Rattle.std.specs.Prelude.{◌≡◌, ◌^◌, ◌<◌, ◌≤◌, length, IfOk, OnOk, OnErr, MatchOption, MatchResult};
ghost use Rattle.perc_ekt.specs.Record.{IsRecord};
ghost use Rattle.perc_rtp.specs.Media.{content_of};
ghost use Rattle.perc_sender.specs.Schedule.{take_answer};
ghost use Rattle.perc_receiver.specs.Table.{secret_in};
ghost use Rattle.perc_outgoing.specs.Sending as spec;
ghost use Rattle.perc_outgoing.specs.Sending.{after_take, rtcp_send_fault, send_fault, started};
ghost use Rattle.perc_outgoing.specs.Kept.{IsRtcpSentAs, IsSentAs, StandsFor};

use crate::parts::{fault_of, inner_session, put_field, seal_next, sender_with};
use crate::{RtcpSendFault, SendFault};
use perc_base::Memory;
use perc_ekt::EktKeyRecord;
use perc_kdf::{Kind, Master};
use perc_rtp::{Media, write_packet};
use perc_sender::{Sender, TakeFault};
use perc_srtp::{Keys, RtcpTx, TxStream};
use std::alloc::Global;
use std::marker::Model;

/// What was sent.
#[derive(Clone, Copy, Debug, PartialEq, Eq)]
pub struct Sent {
    /// How many octets the datagram has.
    pub len: usize,
    /// The inner index of its packet: ROC * 65536 + SEQ, below 2^48.
    pub index: u64,
    /// The SPI of the key that it is sealed under.
    pub spi: u16,
    /// The number of that key, from 0, among those taken under the SPI.
    pub epoch: u16,
}

/// The sending side of an endpoint. Its value is the session keys of the outer master, the record of the SPI that it sends
/// under, and the ends of its streams.
#[derive(Drop)]
pub struct Outgoing {
    /// The outer keys of media, and those of RTCP packets.
    media: Keys,
    control: Keys,
    granted: EktKeyRecord,
    sender: Box<Sender>,
    outer: TxStream,
    rtcp: RtcpTx,
}

impl Model for Outgoing {
    ghost use Rattle.perc_outgoing.specs.Kept.{IsKept, Kept};

    ghost Value = { Kept };

    ghost view = { λ o. record { media = o.media; control = o.control; granted = o.granted; sending = o.sender.value; outer = o.outer; rtcp = o.rtcp } };

    ghost invariant = { λ o. IsKept (record { media = o.media; control = o.control; granted = o.granted; sending = o.sender.value; outer = o.outer; rtcp = o.rtcp }) };
}

impl Outgoing {
    /// An endpoint with this SSRC that sent nothing: the first packet has the index `first`, below 2^48, and goes out under
    /// `key`, which is as long as the record's key. The record is right. `client` is the outer master of what it sends. All
    /// memory is taken here.
    pub fn start(
        alloc: Global,
        ssrc: u32,
        first: u64,
        client: &Master,
        granted: &EktKeyRecord,
        key: &[u8],
    ) -> Result<Outgoing, Memory>
        requires first { first < 2 ^ 48 }
        requires right { IsRecord granted.now }
        requires key { length key.now ≡ granted.now.len }
        ensures started { IfOk result (λ out. StandsFor out (started client.now ssrc first (secret_in granted.now) key.now)) }
        ensures granted { IfOk result (λ out. out.granted ≡ granted.now) }
    {
        let first_sender = sender_with(ssrc, first, granted.spi, key);
        let Ok(sender) = Box::new(alloc, first_sender) else {
            return Err(Memory);
        };
        let media = Keys::new(client, Kind::Srtp);
        let control = Keys::new(client, Kind::Srtcp);
        let outer = TxStream::new(ssrc);
        let rtcp = RtcpTx::new(0);
        Ok(Outgoing {
            media,
            control,
            granted: *granted,
            sender,
            outer,
            rtcp,
        })
    }

    /// Writes the next datagram of this media to the front of `out` (RFC 8723 section 5.1, RFC 8870 section 4.1): the packet with
    /// the next SEQ, sealed from end to end and hop by hop, and the field of the schedule. The first fault in the order of
    /// `SendFault` is answered. After a refusal no index is taken, and all is as it was.
    pub fn send(&mut self, media: &Media<'_>, out: &mut [u8; 1500]) -> Result<Sent, SendFault>
        ensures answer { (o : spec.Outgoing) → StandsFor self.old o → MatchOption (send_fault o (content_of media.now))
            (MatchResult result (λ sent. IsSentAs o (content_of media.now) sent self.new out.new) (λ _. ⊥))
            (λ fault. result ≡ Err fault) }
        ensures len { IfOk result (λ sent. sent.len ≤ 1500) }
        ensures granted { self.new.granted ≡ self.old.granted }
        ensures refused { OnErr result ((out.new ≡ out.old) × (self.new ≡ self.old)) }
    {
        // a refusal leaves the buffer as it was
        let mut datagram = *out;
        let sent = self.write_datagram(media, &mut datagram)?;
        *out = datagram;
        Ok(sent)
    }

    // Writes the next datagram. What the buffer holds after a refusal isn't specified.
    fn write_datagram(&mut self, media: &Media<'_>, out: &mut [u8; 1500]) -> Result<Sent, SendFault>
        ensures answer { (o : spec.Outgoing) → StandsFor self.old o → MatchOption (send_fault o (content_of media.now))
            (MatchResult result (λ sent. IsSentAs o (content_of media.now) sent self.new out.new) (λ _. ⊥))
            (λ fault. result ≡ Err fault) }
        ensures len { IfOk result (λ sent. sent.len ≤ 1500) }
        ensures granted { self.new.granted ≡ self.old.granted }
        ensures refused { OnErr result (self.new ≡ self.old) }
    {
        let ssrc = self.sender.ssrc();
        let seq = (self.sender.next_index() % 65536) as u16;
        let len = match write_packet(media, seq, ssrc, out) {
            Ok(len) => len,
            Err(fault) => return Err(SendFault::Media(fault)),
        };
        // It always has a key.
        let Ok(place) = self.sender.next() else {
            return Err(SendFault::IndexSpent);
        };
        let key = self.sender.key().unwrap();
        let inner = inner_session(&self.granted, key);
        let end = seal_next(&inner, place.index, &mut self.outer, &self.media, out, len);
        let len = put_field(&place, &self.granted, key, ssrc, end, out);
        Ok(Sent {
            len,
            index: place.index,
            spi: place.spi,
            epoch: place.epoch,
        })
    }

    /// Takes a key under the present SPI, to send under from now on, and answers its epoch (RFC 8870 section 4.6). It is as long
    /// as the record's key. After a refusal all is as it was.
    pub fn rekey(&mut self, key: &[u8]) -> Result<u16, TakeFault>
        requires { length key.now ≡ self.old.granted.len }
        ensures answer { (o : spec.Outgoing) → StandsFor self.old o → result ≡ take_answer o.sending o.secret.spi key.now }
        ensures taken { (o : spec.Outgoing) → StandsFor self.old o → OnOk result (StandsFor self.new (after_take o o.secret key.now)) }
        ensures granted { self.new.granted ≡ self.old.granted }
        ensures refused { OnErr result (self.new ≡ self.old) }
    {
        let granted = self.granted;
        self.take_granted(&granted, key)
    }

    /// Takes a record and a key under its SPI, to send under both from now on, and answers the key's epoch. The record is right,
    /// its SPI isn't below the present one, and the key is as long as the record's. After a refusal all is as it was.
    pub fn take_granted(&mut self, granted: &EktKeyRecord, key: &[u8]) -> Result<u16, TakeFault>
        requires right { IsRecord granted.now }
        requires key { length key.now ≡ granted.now.len }
        requires rising { self.old.granted.spi ≤ granted.now.spi }
        ensures answer { (o : spec.Outgoing) → StandsFor self.old o → result ≡ take_answer o.sending granted.now.spi key.now }
        ensures taken { (o : spec.Outgoing) → StandsFor self.old o → OnOk result (StandsFor self.new (after_take o (secret_in granted.now) key.now)) }
        ensures granted { OnOk result (self.new.granted ≡ granted.now) }
        ensures refused { OnErr result (self.new ≡ self.old) }
    {
        let epoch = self.sender.take_key(granted.spi, key)?;
        self.granted = *granted;
        Ok(epoch)
    }

    /// Writes an RTCP packet, sealed hop by hop at the next index (RFC 7714 section 9), to the front of `out`, and answers its
    /// length, 20 octets more than `plain` has. The first fault in the order of `RtcpSendFault` is answered. After a refusal no
    /// index is taken, and all is as it was.
    pub fn send_rtcp(&mut self, plain: &[u8], out: &mut [u8; 1500]) -> Result<usize, RtcpSendFault>
        ensures answer { (o : spec.Outgoing) → StandsFor self.old o → MatchOption (rtcp_send_fault o plain.now)
            (MatchResult result (λ len. IsRtcpSentAs o plain.now len self.new out.new) (λ _. ⊥))
            (λ fault. result ≡ Err fault) }
        ensures len { IfOk result (λ len. len ≤ 1220) }
        ensures granted { self.new.granted ≡ self.old.granted }
        ensures refused { OnErr result ((out.new ≡ out.old) × (self.new ≡ self.old)) }
    {
        if let Some(fault) = fault_of(plain) {
            return Err(fault);
        }
        // a refusal leaves the buffer as it was
        let mut packet = *out;
        packet[..plain.len()].copy_from_slice(plain);
        // There is room, so only its indices can be spent.
        let Ok(len) = self.rtcp.seal(&self.control, &mut packet, plain.len()) else {
            return Err(RtcpSendFault::Spent);
        };
        *out = packet;
        Ok(len)
    }
}
