// The members of a conference, and what each sent.
ghost use Rattle.std.specs.Prelude.{◌≡◌, ℕ, ◌^◌, ◌<◌, ◌&&◌, ◌==◌, None, Some, All, IfOk, IfSome};
ghost use Rattle.perc_rtp.specs.Header.{IsHeader, IsOctet};
ghost use Rattle.perc_rtp.specs.Media.{content_of, header_of, media_fault};
ghost use Rattle.perc_receiver.specs.Table.{secret_in};
ghost use Rattle.perc_run.specs.State as spec;
ghost use Rattle.perc_member.specs.Each.{MirrorsMember};
ghost use Rattle.perc_member.specs.Taken as table;
ghost use Rattle.perc_base.specs.Profile.{key_length};
ghost use Rattle.perc_ekt.specs.Record.{IsRecord};
ghost use Rattle.perc_member.specs.Making.{IsNewcomer, MaySend, SendsNext, StartsAs};

use crate::datagram::Datagram;
use crate::key::Key;
use crate::opening::Opening;
use perc_base::{Memory, Profile};
use perc_ekt::EktKeyRecord;
use perc_endpoint::Endpoint;
use perc_kdf::Master;
use perc_rtp::Media;
use perc_word::Name;
use std::alloc::{AllocError, Global};

/// A member, present or not, with the table of what it sent.
#[derive(Drop)]
pub struct Member {
    pub name: Name,
    pub association: [u8; 16],
    pub ssrc: u32,
    /// The outer pair of what it sends to the distributor, and that of what it gets from there.
    pub client: Master,
    pub server: Master,
    pub endpoint: Endpoint,
    /// What it sends, opened hop by hop.
    pub opening: Opening,
    pub present: bool,
    /// The index of its first packet. The others follow, one by one.
    pub first: u64,
    /// The numbers of the datagrams that it sent.
    pub sends: Vec<u32>,
    /// The keys that it took, in the order of taking.
    pub keys: Vec<TakenKey>,
}

/// A key that a member took, and the packets that went out under it.
#[derive(Clone, Copy)]
pub struct TakenKey {
    pub spi: u16,
    pub key: Key,
    pub sent: Option<Span>,
}

/// The indices from `first` to `last`.
#[derive(Clone, Copy)]
pub struct Span {
    pub first: u64,
    pub last: u64,
}

impl TakenKey {
    /// A key under which nothing went out.
    pub fn new(spi: u16, key: Key) -> TakenKey
        ensures { result ≡ record { spi = spi; key = key; sent = None } }
    {
        TakenKey {
            spi,
            key,
            sent: None,
        }
    }

    /// Whether it is this key under this SPI.
    pub fn is(&self, spi: u16, key: &[u8]) -> bool
        ensures { result ≡ table.is_taken spi key.now self.now }
    {
        self.spi == spi && self.key.octets() == key
    }

    /// Whether a packet of this index went out under it.
    pub fn has_sent(&self, index: u64) -> bool
        ensures { result ≡ table.has_sent index self.now }
    {
        match self.sent {
            Some(span) => span.first <= index && index <= span.last,
            None => false,
        }
    }

    /// Whether a packet of this roll-over counter went out under it. The first of these carries the key, wrapped with the counter.
    pub fn has_wrapped(&self, roc: u32) -> bool
        ensures { result ≡ table.has_wrapped roc self.now }
    {
        match self.sent {
            Some(span) => span.first / 65536 <= u64::from(roc)
                && u64::from(roc) <= span.last / 65536,
            None => false,
        }
    }

    /// A packet of this index, the next one, went out under it.
    pub fn send(&mut self, index: u64)
        ensures { self.new ≡ table.with_sent index self.old }
    {
        let first = match self.sent {
            Some(span) => span.first,
            None => index,
        };
        self.sent = Some(Span { first, last: index });
    }
}

/// What a member brings when it joins.
#[derive(Clone, Copy)]
pub struct Newcomer {
    pub name: Name,
    pub ssrc: u32,
    pub seq: u16,
    pub client: Master,
    pub server: Master,
    pub key: Key,
}

impl Member {
    /// A member that begins with a record, and has sent and received nothing.
    pub fn start(
        alloc: Global,
        profile: Profile,
        newcomer: &Newcomer,
        association: [u8; 16],
        granted: &EktKeyRecord,
    ) -> Result<Member, Memory>
        requires newcomer { IsNewcomer profile newcomer.now }
        requires right { IsRecord granted.now }
        requires ekt_key { granted.now.len ≡ key_length profile }
        ensures { IfOk result (StartsAs profile newcomer.now association (secret_in granted.now)) }
    {
        let first = u64::from(newcomer.seq);
        let endpoint = Endpoint::start(
            alloc,
            profile,
            newcomer.ssrc,
            first,
            &newcomer.client,
            &newcomer.server,
            granted,
            newcomer.key.octets(),
        )?;
        let mut keys = Vec::new(alloc);
        if keys.push(TakenKey::new(granted.spi, newcomer.key)).is_err() {
            return Err(Memory);
        }
        Ok(Member {
            name: newcomer.name,
            association,
            ssrc: newcomer.ssrc,
            client: newcomer.client,
            server: newcomer.server,
            endpoint,
            opening: Opening::new(&newcomer.client, newcomer.seq),
            present: true,
            first,
            sends: Vec::new(alloc),
            keys,
        })
    }

    /// Its next datagram, of this number. The media has no fault. Where no memory is found, nothing is said of the member.
    pub fn send(
        &mut self,
        alloc: Global,
        number: u32,
        media: &Media<'_>,
    ) -> Result<Datagram, AllocError>
        requires member { (m : spec.Member) × MirrorsMember self.old m × MaySend m }
        requires fault { media_fault (content_of media.now) ≡ None }
        ensures { (m : spec.Member) → MirrorsMember self.old m → MaySend m → IfOk result (SendsNext m (content_of media.now) number self.old self.new) }
    {
        known_header(media);
        let mut octets = [0; 1500];
        // The media has no fault, and indices are left.
        let Ok(sent) = self.endpoint.send(media, &mut octets) else {
            unreachable!()
        };
        self.sends.push(number)?;
        send_under_last(&mut self.keys, sent.index);
        let datagram = &octets[..sent.len];
        let unsealed = self.opening.open(alloc, datagram)?;
        Ok(Datagram {
            octets: Vec::from_slice(alloc, datagram)?,
            unsealed: Some(unsealed),
        })
    }

    /// The SPI that it sends under.
    pub fn present_spi(&self) -> u16
        requires { (m : spec.Member) × MirrorsMember self.now m }
        ensures { (m : spec.Member) → MirrorsMember self.now m → result ≡ m.endpoint.sending.secret.spi }
    {
        self.keys.last().unwrap().spi
    }

    /// The number of the datagram that it sent with this index.
    pub fn number_of(&self, index: u64) -> Option<u32>
        ensures { result ≡ table.number_at self.now index }
    {
        let place = index.checked_sub(self.first)?;
        self.sends.get(place as usize).copied()
    }

    /// Whether it sent a packet with this index under this key of an SPI.
    pub fn has_sent(&self, spi: u16, key: &[u8], index: u64) -> bool
        ensures { result ≡ table.sent_under self.now spi key.now index }
    {
        self.keys
            .iter()
            .any(|taken| taken.is(spi, key) && taken.has_sent(index))
    }

    /// Whether it sent this key of an SPI with this roll-over counter.
    pub fn has_wrapped(&self, spi: u16, key: &[u8], roc: u32) -> bool
        ensures { result ≡ table.wrapped_under self.now spi key.now roc }
    {
        self.keys
            .iter()
            .any(|taken| taken.is(spi, key) && taken.has_wrapped(roc))
    }
}

// A packet of this index, the next one, goes out under the last of these keys.
fn send_under_last(keys: &mut Vec<TakenKey>, index: u64)
    ensures { keys.new.items ≡ table.with_sent_last index keys.old.items }
{
    if let Some(key) = keys.last_mut() {
        key.send(index);
    }
}

// Media without a fault has a header whose fields fit their bits.
fn known_header(media: &Media<'_>)
    requires { media_fault (content_of media.now) ≡ None }
    ensures { (seq ssrc : ℕ) → seq < 2 ^ 16 → ssrc < 2 ^ 32 → IsHeader (header_of (content_of media.now) seq ssrc) }
{
    known_timestamp(media.timestamp);
    known_csrcs(media.csrcs);
    known_extension(media.extension);
}

fn known_timestamp(timestamp: u32)
    ensures { timestamp < 2 ^ 32 }
{}

fn known_csrcs(csrcs: &[u32])
    ensures { All (λ c. c < 2 ^ 32) csrcs.now }
{}

fn known_extension(extension: Option<(u16, &[u8])>)
    ensures { IfSome extension.entry (λ e. (e.0 < 2 ^ 16) × All IsOctet e.1.now) }
{
    if let Some((profile, octets)) = extension {
        known_octets(profile, octets);
    }
}

fn known_octets(profile: u16, octets: &[u8])
    ensures profile { profile < 2 ^ 16 }
    ensures octets { All IsOctet octets.now }
{}
