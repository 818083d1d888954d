// The outer streams of one direction of an association.
ghost use Rattle.std.specs.Prelude.{◌≡◌, ℕ, ◌+◌, ◌<◌, ◌≤◌, List, [], length, insert, IfOk, IfErr, OnErr, vec_len, vec_capacity};
ghost use Rattle.perc_rtp.specs.Header.{Header, IsPacket, head_of};
ghost use Rattle.perc_outer.specs.Streams.{OuterStream};
ghost use Rattle.perc_outer.specs.Datagram.{opened_packet};
ghost use Rattle.perc_outer.specs.Kept.{IsUnsealed, StandsFor};
ghost use Rattle.perc_outer.specs.Places.{IsAt, IsGapFor};

use crate::OuterFault;
use perc_base::Memory;
use perc_gcm::TAG_LEN;
use perc_rtp::RtpHead;
use perc_srtp::{Keys, RxStream};
use std::alloc::Global;
use std::marker::Model;

// How many streams there are at most.
const MOST_STREAMS: usize = 256;

/// The outer streams of one direction of an association, at most 256: the SSRCs of the packets that were opened, each with what
/// its window keeps of the indices accepted under it (RFC 3711 sections 3.2.3 and 3.3.2). All memory is taken when it is made.
#[derive(Drop)]
pub struct OuterStreams {
    /// By their SSRCs, rising.
    streams: Vec<RxStream>,
}

impl Model for OuterStreams {
    ghost use Rattle.std.specs.Prelude.{List, vec_capacity};
    ghost use Rattle.perc_srtp.specs.Ends.{Stream};
    ghost use Rattle.perc_outer.specs.Places.{AreWellKept};

    ghost Value = { List Stream };

    ghost view = { λ s. s.streams.items };

    ghost invariant = { λ s. AreWellKept s.streams.items (vec_capacity s.streams) };
}

impl OuterStreams {
    /// Holds none, with room for 256. No other call takes memory.
    pub fn with_room(alloc: Global) -> Result<OuterStreams, Memory>
        ensures { IfOk result (λ streams. StandsFor streams []) }
    {
        let Ok(streams) = Vec::with_capacity(alloc, MOST_STREAMS) else {
            return Err(Memory);
        };
        Ok(OuterStreams { streams })
    }

    /// Lets all streams go, and keeps the room for others.
    pub fn clear(&mut self)
        ensures { StandsFor self.new [] }
    {
        self.streams.clear();
    }

    /// Opens a packet of at most 65536 octets, which has this header, in its stream, and answers how many octets it then has. A
    /// new stream is kept once its packet opened. After a refusal packet and streams are as they were.
    pub(super) fn unseal(
        &mut self,
        keys: &Keys,
        head: &RtpHead,
        packet: &mut [u8],
    ) -> Result<usize, OuterFault>
        requires few { length packet.old ≤ 65536 }
        requires reads { (h : Header) × (rest : List ℕ) × IsPacket h rest packet.old × (head.now ≡ head_of h) }
        ensures answer { (before : List OuterStream) (h : Header) (rest : List ℕ) → StandsFor self.old before → IsPacket h rest packet.old
            → IsUnsealed h before (opened_packet keys.now before h rest) result self.new packet.new }
        ensures len { IfOk result (λ n. (n + 16 ≡ length packet.old) × (head.now.len ≤ n)) }
        ensures refused { OnErr result ((packet.new ≡ packet.old) × (self.new ≡ self.old)) }
    {
        if packet.len() - head.len < TAG_LEN {
            return Err(OuterFault::OuterShort);
        }
        match self.place_of(head.ssrc) {
            Ok(place) => Ok(self.streams[place].unseal(keys, packet)?),
            Err(place) => self.unseal_first(place, keys, head.ssrc, packet),
        }
    }

    // Opens the first packet of a stream that would stand at this place.
    fn unseal_first(
        &mut self,
        place: usize,
        keys: &Keys,
        ssrc: u32,
        packet: &mut [u8],
    ) -> Result<usize, OuterFault>
        requires few { length packet.old ≤ 65536 }
        requires reads { (h : Header) × (rest : List ℕ) × IsPacket h rest packet.old × (h.ssrc ≡ ssrc) × (16 ≤ length rest) }
        requires gap { IsGapFor self.old ssrc place }
        ensures answer { (before : List OuterStream) (h : Header) (rest : List ℕ) → StandsFor self.old before → IsPacket h rest packet.old
            → IsUnsealed h before (opened_packet keys.now before h rest) result self.new packet.new }
        ensures len { IfOk result (λ n. n + 16 ≡ length packet.old) }
        ensures refused { OnErr result ((packet.new ≡ packet.old) × (self.new ≡ self.old)) }
    {
        if self.streams.len() == MOST_STREAMS {
            return Err(OuterFault::StreamLimit);
        }
        let mut stream = RxStream::new(ssrc);
        let len = stream.unseal(keys, packet)?;
        keep(&mut self.streams, place, stream);
        Ok(len)
    }

    // Where the stream of an SSRC stands, or where it would.
    fn place_of(&self, ssrc: u32) -> Result<usize, usize>
        ensures found { IfOk result (IsAt self.now ssrc) }
        ensures absent { IfErr result (IsGapFor self.now ssrc) }
    {
        self.streams
            .binary_search_by_key(&ssrc, |stream| stream.ssrc())
    }
}

// Inserts a stream, where there is room for it.
fn keep(streams: &mut Vec<RxStream>, place: usize, stream: RxStream)
    requires place { place ≤ vec_len streams.old }
    requires room { vec_len streams.old < vec_capacity streams.old }
    ensures items { streams.new.items ≡ insert streams.old.items place stream }
    ensures capacity { vec_capacity streams.old ≤ vec_capacity streams.new }
{
    // With room at hand this takes no memory, so it can't fail.
    let Ok(()) = streams.insert(place, stream) else {
        unreachable!()
    };
}
