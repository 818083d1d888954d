//! A sender's indices and keys, and which of its packets carry their key (RFC 3711 section 3.3.1, RFC 8870 section 4.6).
#![tactic(auto)]

ghost use Rattle.std.specs.Prelude.{◌≡◌, ◌^◌, ◌<◌, ◌≤◌, ◌⊎◌, length, IfOk, IfSome, OnOk, OnErr};
ghost use Rattle.std.specs.Option.{option_map};
ghost use Rattle.perc_sender.specs.Schedule.{after_packet, count_under, is_full_field, newest, next_answer, started, take_answer, was_taken, with_key};

pub mod laws;

use arrayvec::ArrayVec;
use std::marker::Model;

// How many keys are taken under one SPI, and in all.
const KEYS_UNDER_SPI: usize = 64;

const KEYS: usize = 512;

// The first number that is no index.
const INDEX_END: u64 = 1 << 48;

/// Where a packet stands among those of its sender.
#[derive(Clone, Copy, Debug, PartialEq, Eq)]
pub struct SendPlace {
    /// Its index: ROC * 65536 + SEQ, below 2^48.
    pub index: u64,
    /// The SPI of the key that it goes out under.
    pub spi: u16,
    /// The number of that key, from 0, among those taken under the SPI.
    pub epoch: u16,
    /// Whether the packet carries its key.
    pub full: bool,
}

/// Why a key isn't taken.
#[derive(Clone, Copy, Debug, PartialEq, Eq)]
pub enum TakeFault {
    /// The sender took this key before.
    Repeated,
    /// 64 keys were taken under this SPI, or 512 in all.
    Limit,
}

/// Why no packet goes out.
#[derive(Clone, Copy, Debug, PartialEq, Eq)]
pub enum NextFault {
    /// No key was taken.
    NoKey,
    /// The next index would be 2^48.
    IndexSpent,
}

/// A sender's numbering and the keys that it ever took. It allocates nothing.
#[derive(Drop)]
pub struct Sender {
    ssrc: u32,
    /// The index of the next packet.
    next: u64,
    /// The keys in the order of taking.
    keys: ArrayVec<TakenKey, KEYS>,
    /// The epoch of the newest key, so that a packet needs no count.
    epoch: u16,
    /// How many packets went out under the newest key.
    number: u64,
    /// The roll-over counter of the packet before.
    before: Option<u64>,
}

impl Model for Sender {
    ghost use Rattle.std.specs.Prelude.{◌^◌, ◌≤◌};
    ghost use Rattle.perc_sender.specs.Schedule.{Sending};
    ghost use Rattle.perc_sender.specs.Kept.{IsKept};

    ghost Value = { Sending };

    ghost view = { λ s. record { ssrc = s.ssrc; next = s.next; keys = s.keys.items; number = s.number; before = s.before } };

    // A packet counted under a key has an index of its own, so the number stays in range with the index.
    ghost invariant = { λ s. IsKept s.next s.keys.items s.epoch s.number };
}

impl Sender {
    /// A sender with this SSRC, whose first packet has the index `first`, below 2^48.
    pub fn new(ssrc: u32, first: u64) -> Sender
        requires { first < 2 ^ 48 }
        ensures { result ≡ started ssrc first }
    {
        Sender {
            ssrc,
            next: first,
            keys: ArrayVec::new(),
            epoch: 0,
            number: 0,
            before: None,
        }
    }

    /// The SSRC.
    pub fn ssrc(&self) -> u32
        ensures { result ≡ self.now.ssrc }
    {
        self.ssrc
    }

    /// Takes a key of 16 or 32 octets, to send under from now on, and answers its epoch. The SPI isn't below that of the
    /// key before. After a refusal all is as it was.
    pub fn take_key(&mut self, spi: u16, key: &[u8]) -> Result<u16, TakeFault>
        requires length { (length key.now ≡ 16) ⊎ (length key.now ≡ 32) }
        requires rising { IfSome (newest self.old.keys) (λ t. t.spi ≤ spi) }
        ensures answer { result ≡ take_answer self.old spi key.now }
        ensures taken { OnOk result (self.new ≡ with_key self.old spi key.now) }
        ensures refused { OnErr result (self.new ≡ self.old) }
    {
        let epoch = self.check_key(spi, key)?;
        self.keys.push(TakenKey::new(spi, key));
        self.epoch = epoch;
        self.number = 0;
        Ok(epoch)
    }

    // The epoch that a key would have, or why it isn't taken.
    fn check_key(&self, spi: u16, key: &[u8]) -> Result<u16, TakeFault>
        ensures answer { result ≡ take_answer self.now spi key.now }
        ensures epoch { IfOk result (λ epoch. epoch ≡ count_under spi self.now.keys) }
        ensures room { OnOk result (length self.now.keys < 512) }
    {
        if is_taken(self.keys.as_slice(), key) {
            return Err(TakeFault::Repeated);
        }
        let count = count_taken(self.keys.as_slice(), spi);
        if count >= KEYS_UNDER_SPI || self.keys.is_full() {
            return Err(TakeFault::Limit);
        }
        Ok(count as u16)
    }

    /// The place of the next packet: the index after that of the packet before, whatever keys were taken in between.
    /// After a refusal all is as it was.
    pub fn next(&mut self) -> Result<SendPlace, NextFault>
        ensures answer { result ≡ next_answer self.old }
        ensures in_range { IfOk result (λ place. place.index < 2 ^ 48) }
        ensures counted { OnOk result (self.new ≡ after_packet self.old) }
        ensures refused { OnErr result (self.new ≡ self.old) }
    {
        let Some(taken) = last_taken(self.keys.as_slice()) else {
            return Err(NextFault::NoKey);
        };
        let spi = taken.spi;
        if self.next == INDEX_END {
            return Err(NextFault::IndexSpent);
        }
        let roll_over = self.next / 65536;
        let place = SendPlace {
            index: self.next,
            spi,
            epoch: self.epoch,
            full: carries_key(self.number, roll_over, self.before),
        };
        self.next += 1;
        self.number += 1;
        self.before = Some(roll_over);
        Ok(place)
    }

    /// The index of the next packet, without taking it: 2^48 where none is left.
    pub fn next_index(&self) -> u64
        ensures value { result ≡ self.now.next }
        ensures in_range { result ≤ 2 ^ 48 }
    {
        self.next
    }

    /// The newest key, 16 or 32 octets.
    pub fn key(&self) -> Option<&[u8]>
        ensures value { option_map (λ octets. octets.now) result ≡ option_map (λ t. t.key) (newest self.now.keys) }
        ensures length { IfSome result (λ octets. (length octets.now ≡ 16) ⊎ (length octets.now ≡ 32)) }
    {
        Some(last_taken(self.keys.as_slice())?.octets())
    }
}

// A key, and the SPI that it was taken under.
#[derive(Drop)]
struct TakenKey {
    spi: u16,
    /// How many octets the key has.
    len: usize,
    /// The key, and zeros behind a shorter key.
    octets: [u8; 32],
}

impl Model for TakenKey {
    ghost use Rattle.std.specs.Prelude.{◌≡◌, ◌⊎◌, take};
    ghost use Rattle.perc_sender.specs.Schedule.{Taken};

    ghost Value = { Taken };

    ghost view = { λ k. record { spi = k.spi; key = take k.len k.octets } };

    ghost invariant = { λ k. (k.len ≡ 16) ⊎ (k.len ≡ 32) };
}

impl TakenKey {
    fn new(spi: u16, key: &[u8]) -> TakenKey
        requires { (length key.now ≡ 16) ⊎ (length key.now ≡ 32) }
        ensures { result ≡ record { spi = spi; key = key.now } }
    {
        let mut octets = [0; 32];
        octets[..key.len()].copy_from_slice(key);
        TakenKey {
            spi,
            len: key.len(),
            octets,
        }
    }

    fn octets(&self) -> &[u8]
        ensures value { result.now ≡ self.now.key }
        ensures length { (length result.now ≡ 16) ⊎ (length result.now ≡ 32) }
    {
        &self.octets[..self.len]
    }
}

// What stands in the places that hold no key yet.
impl Default for TakenKey {
    fn default() -> TakenKey {
        TakenKey {
            spi: 0,
            len: 16,
            octets: [0; 32],
        }
    }
}

// The newest of the keys.
fn last_taken(keys: &[TakenKey]) -> Option<&TakenKey>
    ensures { option_map (λ taken. taken.now) result ≡ newest keys.now }
{
    keys.last()
}

// Whether this key is one of them, under whatever SPI.
fn is_taken(keys: &[TakenKey], key: &[u8]) -> bool
    ensures { result ≡ was_taken key.now keys.now }
{
    keys.iter().any(|taken| taken.octets() == key)
}

// How many of the keys were taken under this SPI.
fn count_taken(keys: &[TakenKey], spi: u16) -> usize
    ensures { result ≡ count_under spi keys.now }
{
    keys.iter().filter(|taken| taken.spi == spi).count()
}

// Whether the packet with this number under its key and this ROC has a full field, behind a packet with the ROC `before`.
fn carries_key(number: u64, roll_over: u64, before: Option<u64>) -> bool
    ensures { result ≡ is_full_field number roll_over before }
{
    let changed = match before {
        Some(before) => before != roll_over,
        None => false,
    };
    number < 3 || number % 100 == 0 || changed
}

#[cfg(test)]
mod tests;
