//! What a receiver holds of its senders' keys: live SPIs, contexts with their replay windows, and which of them a packet is
//! tried under (RFC 8870 section 4.1, RFC 3711 section 3.3). No cryptography is done here.
#![tactic(auto)]

ghost use Rattle.std.specs.Prelude.{◌≡◌, ◌<◌, ◌⊎◌, length, IfOk, OnOk, OnErr};
ghost use Rattle.arrayvec.specs.ArrayVec.{array_vec_len};
ghost use Rattle.perc_contexts.specs.Receiving as spec;
ghost use Rattle.perc_contexts.specs.Receiving.{Receiving, is_live, nothing_held, renewed, retired, spi_answer, still_live};
ghost use Rattle.perc_contexts.specs.Kept.{AnswersTries, CanCommit, Commits, IsCarried, IsKeyAt, IsPlace, StandsFor, TellsFreshness, told};

mod installed;
pub mod laws;
mod places;

use arrayvec::ArrayVec;
use installed::{Installed, install, keep_live};
use perc_base::Memory;
use perc_window::Freshness;
use places::{try_carried, try_newest};
use std::alloc::Global;
use std::marker::Model;

// How many SPIs are live at most.
const LIVE_SPIS: usize = 4;

// How many contexts are held at most.
const MOST_CONTEXTS: usize = 512;

/// An SPI that isn't added: it isn't above the latest one, which is told.
#[derive(Clone, Copy, Debug, PartialEq, Eq)]
pub struct SpiOld(pub u16);

/// A carried key for whose context there is no room: 512 contexts are held, or 64 of this SSRC under this SPI.
#[derive(Clone, Copy, Debug, PartialEq, Eq)]
pub struct KeyLimit;

/// The key that a packet carries.
#[derive(Clone, Copy)]
pub struct CarriedKey<'a> {
    /// The SPI of the EKT key that it came under.
    pub spi: u16,
    /// The SRTP master key, of 16 or 32 octets.
    pub key: &'a [u8],
    /// The roll-over counter that came with it.
    pub roc: u32,
}

/// The place of the context that a packet is tried under.
#[derive(Clone, Copy, Debug, PartialEq, Eq)]
pub enum TryPlace {
    /// A context that is held, by its number in the order of installing.
    Held(usize),
    /// The new context of the carried key.
    New,
}

/// A packet is tried under a context, at an index.
#[derive(Clone, Copy, Debug, PartialEq, Eq)]
pub struct Try {
    /// Which context.
    pub place: TryPlace,
    /// The index: ROC * 65536 + SEQ, below 2^48.
    pub index: u64,
}

// What stands in the places of a list that hold no try yet.
impl Default for Try {
    fn default() -> Try {
        Try {
            place: TryPlace::New,
            index: 0,
        }
    }
}

/// The tries of a packet in turn: under the carried key, and under four contexts at most.
pub type TryList = ArrayVec<Try, 5>;

/// The live SPIs, and the contexts of senders' keys with their replay windows. All its memory is taken when it is made.
#[derive(Drop)]
pub struct Contexts {
    /// The live SPIs, rising.
    live: ArrayVec<u16, LIVE_SPIS>,
    /// The contexts in the order of installing.
    contexts: Vec<Installed>,
}

impl Model for Contexts {
    ghost use Rattle.perc_contexts.specs.Kept.{Kept, IsWellKept};
    ghost use Rattle.std.specs.Prelude.{vec_capacity};

    ghost Value = { Kept };

    ghost view = { λ c. record { live = c.live.items; contexts = c.contexts.items } };

    ghost invariant = { λ c. IsWellKept c.contexts.items (vec_capacity c.contexts) };
}

impl Contexts {
    /// Holds nothing, with room for 512 contexts. No other call takes memory.
    pub fn with_room(alloc: Global) -> Result<Contexts, Memory>
        ensures { IfOk result (λ contexts. StandsFor contexts nothing_held) }
    {
        let Ok(contexts) = Vec::with_capacity(alloc, MOST_CONTEXTS) else {
            return Err(Memory);
        };
        Ok(Contexts {
            live: ArrayVec::new(),
            contexts,
        })
    }

    /// Adds an SPI above the latest. Where four are live the lowest goes, which is answered, and its contexts go with it.
    /// After a refusal all is as it was.
    pub fn spi_add(&mut self, spi: u16) -> Result<Option<u16>, SpiOld>
        ensures answer { result ≡ spi_answer self.old.live spi }
        ensures renewed { (held : Receiving) → StandsFor self.old held → OnOk result (StandsFor self.new (renewed spi held)) }
        ensures refused { OnErr result (self.new ≡ self.old) }
    {
        if let Some(last) = latest(self.live.as_slice()) {
            if spi <= last {
                return Err(SpiOld(last));
            }
        }
        let gone = retire(&mut self.live);
        keep_live(&mut self.contexts, self.live.as_slice());
        self.live.push(spi);
        Ok(gone)
    }

    /// Whether an SPI is live.
    pub fn is_live(&self, spi: u16) -> bool
        ensures { result ≡ is_live self.now.live spi }
    {
        self.live.as_slice().contains(&spi)
    }

    /// The tries of a packet with this SSRC and this sequence number: first under the key that it carries, at the carried
    /// roll-over counter, then under the four contexts of its SSRC that were installed last, the newest first, over all live
    /// SPIs together, each at the index nearest to its highest; one of them without such an index is left out. Refused where
    /// a key is carried that has no context, and there is no room for one.
    pub fn tries(
        &self,
        ssrc: u32,
        seq: u16,
        carried: Option<&CarriedKey<'_>>,
    ) -> Result<TryList, KeyLimit>
        requires { IsCarried self.now.live (told carried) }
        ensures { AnswersTries self.now ssrc seq (told carried.entry) result }
    {
        let mut list = TryList::new();
        if let Some(carried) = carried {
            list.push(try_carried(self.contexts.as_slice(), ssrc, seq, carried)?);
        }
        try_newest(self.contexts.as_slice(), ssrc, seq, &mut list);
        Ok(list)
    }

    /// The SPI and the key, of 16 or 32 octets, of the context at a place, by its number in the order of installing.
    pub fn key_of(&self, place: usize) -> (u16, &[u8])
        requires { place < length self.now.contexts }
        ensures value { IsKeyAt self.now place result.0 result.1.now }
        ensures length { (length result.1.now ≡ 16) ⊎ (length result.1.now ≡ 32) }
    {
        let context = &self.contexts[place];
        (context.spi(), context.key())
    }

    /// What the context of a try says to its index; a new context says that it is fresh.
    pub fn fresh(&self, attempt: &Try) -> Freshness
        requires { IsPlace self.now.contexts attempt.now.place }
        ensures { TellsFreshness self.now attempt.now result }
    {
        match attempt.place {
            TryPlace::Held(place) => self.contexts[place].fresh(attempt.index),
            TryPlace::New => Freshness::Fresh,
        }
    }

    /// Accepts a packet by a fresh one of its tries: its context has the index from now on, and the carried key's new context
    /// is installed behind the others. Nothing else changes.
    pub fn commit(&mut self, ssrc: u32, attempt: &Try, carried: Option<&CarriedKey<'_>>)
        requires key { IsCarried self.old.live (told carried) }
        requires may { CanCommit self.old ssrc (told carried) attempt.now }
        ensures { Commits self.old ssrc (told carried.entry) attempt.now self.new }
    {
        match (attempt.place, carried) {
            (TryPlace::Held(place), _) => self.contexts[place].accept(attempt.index),
            (TryPlace::New, Some(carried)) => {
                let mut context = Installed::new(carried.spi, ssrc, carried.key);
                context.accept(attempt.index);
                install(&mut self.contexts, context);
            }
            // Only a carried key has a new context.
            (TryPlace::New, None) => unreachable!(),
        }
    }
}

// The SPI that was added last.
fn latest(live: &[u16]) -> Option<u16>
    ensures { result ≡ spec.latest live.now }
{
    live.last().copied()
}

// Lets the lowest SPI go, where as many are live as may be.
fn retire(live: &mut ArrayVec<u16, LIVE_SPIS>) -> Option<u16>
    ensures answer { result ≡ retired live.old.items }
    ensures left { live.new.items ≡ still_live live.old.items }
    ensures room { array_vec_len live.new < 4 }
{
    if live.is_full() {
        Some(live.remove(0))
    } else {
        None
    }
}
