// The outer streams that are sealed for one association.
ghost use Rattle.std.specs.Prelude.{◌≡◌, ℕ, ◌+◌, ◌++◌, ◌<◌, ◌≤◌, List, [], length, insert, take, IfOk, IfErr, OnErr, vec_len, vec_capacity};
ghost use Rattle.perc_ohb.specs.Rewriting.{IsRewrite, rewrite_of};
ghost use Rattle.perc_outer.specs.Places.{IsAt, IsGapFor};
ghost use Rattle.perc_distributor.specs.Kept.{MediaOf};
ghost use Rattle.perc_distributor.specs.Parts.{SealsInStream, SealsInStreams, forward_fault};

use crate::{ForwardFault, Plain};
use perc_base::Memory;
use perc_double::{RelayFault, relay, relayed_len};
use perc_ohb::Change;
use perc_rtp::RtpHead;
use perc_srtp::{Keys, TxStream};
use std::alloc::Global;
use std::marker::Model;

// How many streams there are at most.
const MOST_STREAMS: usize = 256;

/// The outer streams that are sealed for one association, at most 256: the SSRCs of the packets that were sealed, each with what
/// its window keeps of their indices (RFC 3711 sections 3.2.3 and 3.3.2). All memory is taken when it is made.
#[derive(Drop)]
pub(crate) struct TxStreams {
    /// By their SSRCs, rising.
    streams: Vec<TxStream>,
}

impl Model for TxStreams {
    ghost use Rattle.std.specs.Prelude.{List, vec_capacity};
    ghost use Rattle.perc_srtp.specs.Ends.{Stream};
    ghost use Rattle.perc_outer.specs.Places.{AreWellKept};

    ghost Value = { List Stream };

    ghost view = { λ s. s.streams.items };

    ghost invariant = { λ s. AreWellKept s.streams.items (vec_capacity s.streams) };
}

impl TxStreams {
    /// Holds none, with room for 256. No other call takes memory.
    pub(crate) fn with_room(alloc: Global) -> Result<TxStreams, Memory>
        ensures { IfOk result (λ streams. streams ≡ []) }
    {
        let Ok(streams) = Vec::with_capacity(alloc, MOST_STREAMS) else {
            return Err(Memory);
        };
        Ok(TxStreams { streams })
    }

    /// Lets all streams go, and keeps the room for others.
    pub(crate) fn clear(&mut self)
        ensures { self.new ≡ [] }
    {
        self.streams.clear();
    }

    /// Seals a media packet with the change in it in its stream, writes it with its field behind it to the front of `out`, and
    /// answers how many octets that are. A new stream is kept once a packet was sealed. After a refusal all is as it was but
    /// `out`.
    pub(crate) fn seal(
        &mut self,
        keys: &Keys,
        plain: &Plain,
        change: &Change<'_>,
        out: &mut [u8; 1500],
    ) -> Result<usize, ForwardFault>
        requires change { IsRewrite (rewrite_of change.now) }
        requires media { MediaOf plain.now }
        ensures sealed { SealsInStreams self.old keys.now plain.now (rewrite_of change.now) result out.new self.new }
        ensures refused { OnErr result (self.new ≡ self.old) }
        ensures within { IfOk result (λ n. n ≤ 1500) }
    {
        let ssrc = ssrc_of(plain);
        match self.place_of(ssrc) {
            Ok(place) => seal_in(&mut self.streams[place], keys, plain, change, out),
            Err(place) => self.seal_first(place, ssrc, keys, plain, change, out),
        }
    }

    // Seals the first packet of a stream that would stand at this place.
    fn seal_first(
        &mut self,
        place: usize,
        ssrc: u32,
        keys: &Keys,
        plain: &Plain,
        change: &Change<'_>,
        out: &mut [u8; 1500],
    ) -> Result<usize, ForwardFault>
        requires change { IsRewrite (rewrite_of change.now) }
        requires media { (m : MediaOf plain.now) × (m.header.ssrc ≡ ssrc) }
        requires gap { IsGapFor self.old ssrc place }
        ensures sealed { SealsInStreams self.old keys.now plain.now (rewrite_of change.now) result out.new self.new }
        ensures refused { OnErr result (self.new ≡ self.old) }
        ensures within { IfOk result (λ n. n ≤ 1500) }
    {
        if self.streams.len() == MOST_STREAMS {
            return Err(ForwardFault::StreamLimit);
        }
        let mut stream = TxStream::new(ssrc);
        let len = seal_in(&mut stream, keys, plain, change, out)?;
        keep(&mut self.streams, place, stream);
        Ok(len)
    }

    // Where the stream of an SSRC stands, or where it would.
    fn place_of(&self, ssrc: u32) -> Result<usize, usize>
        ensures found { IfOk result (IsAt self.now ssrc) }
        ensures absent { IfErr result (IsGapFor self.now ssrc) }
    {
        self.streams
            .binary_search_by_key(&ssrc, |stream| stream.ssrc())
    }
}

// The SSRC of a media packet.
fn ssrc_of(plain: &Plain) -> u32
    requires { MediaOf plain.now }
    ensures { (m : MediaOf plain.now) → result ≡ m.header.ssrc }
{
    RtpHead::read(&plain.octets[..plain.len - plain.field])
        .unwrap()
        .ssrc
}

// Inserts a stream, where there is room for it.
fn keep(streams: &mut Vec<TxStream>, place: usize, stream: TxStream)
    requires place { place ≤ vec_len streams.old }
    requires room { vec_len streams.old < vec_capacity streams.old }
    ensures items { streams.new.items ≡ insert streams.old.items place stream }
    ensures capacity { vec_capacity streams.old ≤ vec_capacity streams.new }
{
    // With room at hand this takes no memory, so it can't fail.
    let Ok(()) = streams.insert(place, stream) else {
        unreachable!()
    };
}

// Seals a media packet with the change in it in this stream, writes it with its field behind it to the front of `out`, and
// answers how many octets that are.
fn seal_in(
    stream: &mut TxStream,
    keys: &Keys,
    plain: &Plain,
    change: &Change<'_>,
    out: &mut [u8; 1500],
) -> Result<usize, ForwardFault>
    requires change { IsRewrite (rewrite_of change.now) }
    requires media { (m : MediaOf plain.now) × (m.header.ssrc ≡ stream.old.ssrc) }
    ensures sealed { SealsInStream stream.old.window keys.now plain.now (rewrite_of change.now) result out.new stream.new.window }
    ensures refused { OnErr result (stream.new ≡ stream.old) }
    ensures within { IfOk result (λ n. n ≤ 1500) }
    ensures ssrc { stream.new.ssrc ≡ stream.old.ssrc }
{
    let end = plain.len - plain.field;
    let len = relayed_len(&plain.octets[..end], change);
    if len > out.len() - plain.field {
        return Err(ForwardFault::Room);
    }
    *out = plain.octets;
    match relay(stream, keys, out, end, change) {
        Ok(_) => Ok(put_behind(&plain.octets[end..plain.len], out, len)),
        Err(fault) => Err(fault_of(fault)),
    }
}

/// Writes octets behind the first `at`, and answers where they end.
pub(crate) fn put_behind(octets: &[u8], out: &mut [u8; 1500], at: usize) -> usize
    requires { at + length octets.now ≤ 1500 }
    ensures end { result ≡ at + length octets.now }
    ensures written { take result out.new ≡ take at out.old ++ octets.now }
{
    let end = at + octets.len();
    out[at..end].copy_from_slice(octets);
    end
}

// What a refusal to relay is here.
fn fault_of(fault: RelayFault) -> ForwardFault
    ensures { result ≡ forward_fault fault }
{
    match fault {
        RelayFault::Room => ForwardFault::Room,
        RelayFault::NoIndex(seq) => ForwardFault::NoIndex(seq),
        RelayFault::NonceUsed(index) => ForwardFault::NonceUsed(index),
    }
}
