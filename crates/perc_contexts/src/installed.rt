// A context as it is held.
ghost use Rattle.std.specs.Prelude.{◌≡◌, ◌^◌, ◌<◌, ◌==◌, ◌&&◌, ◌⊎◌, ◌≤◌, [], ◌∷◌, ◌++◌, length, filter, vec_len, vec_capacity};
ghost use Rattle.perc_window.specs.Index.{nearest};
ghost use Rattle.perc_window.specs.Replay.{freshness, freshness_at};
ghost use Rattle.perc_contexts.specs.Receiving.{Context, is_live, with_index};
ghost use Rattle.perc_contexts.specs.Kept.{IsOf, is_kept_of};

use perc_window::{Freshness, Window};
use std::marker::Model;

/// A key of a sender under an SPI, and the indices that were accepted under it.
#[derive(Drop)]
pub(super) struct Installed {
    spi: u16,
    ssrc: u32,
    /// How many octets the key has.
    len: usize,
    /// The key, and zeros behind a shorter key.
    octets: [u8; 32],
    window: Window,
}

impl Model for Installed {
    ghost use Rattle.std.specs.Prelude.{◌≡◌, ◌⊎◌, take};
    ghost use Rattle.perc_contexts.specs.Kept.{KeptContext};

    ghost Value = { KeptContext };

    ghost view = { λ c. record { spi = c.spi; ssrc = c.ssrc; key = take c.len c.octets; window = c.window } };

    ghost invariant = { λ c. (c.len ≡ 16) ⊎ (c.len ≡ 32) };
}

impl Installed {
    /// A new context, under which nothing was accepted.
    pub(super) fn new(spi: u16, ssrc: u32, key: &[u8]) -> Installed
        requires { (length key.now ≡ 16) ⊎ (length key.now ≡ 32) }
        ensures { IsOf result (record { spi = spi; ssrc = ssrc; key = key.now; accepted = [] }) }
    {
        let mut octets = [0; 32];
        octets[..key.len()].copy_from_slice(key);
        Installed {
            spi,
            ssrc,
            len: key.len(),
            octets,
            window: Window::new(),
        }
    }

    /// The SPI.
    pub(super) fn spi(&self) -> u16
        ensures { result ≡ self.now.spi }
    {
        self.spi
    }

    /// The key.
    pub(super) fn key(&self) -> &[u8]
        ensures value { result.now ≡ self.now.key }
        ensures length { (length result.now ≡ 16) ⊎ (length result.now ≡ 32) }
    {
        &self.octets[..self.len]
    }

    /// The SSRC of its sender.
    pub(super) fn ssrc(&self) -> u32
        ensures { result ≡ self.now.ssrc }
    {
        self.ssrc
    }

    /// Whether it is of this sender under this SPI.
    pub(super) fn is_under(&self, spi: u16, ssrc: u32) -> bool
        ensures { result ≡ (self.now.spi == spi && self.now.ssrc == ssrc) }
    {
        self.spi == spi && self.ssrc == ssrc
    }

    /// Whether it is of this key of this sender under this SPI.
    pub(super) fn is_of(&self, spi: u16, ssrc: u32, key: &[u8]) -> bool
        ensures { result ≡ is_kept_of spi ssrc key.now self.now }
    {
        self.is_under(spi, ssrc) && self.key() == key
    }

    /// The index of a packet with this sequence number.
    pub(super) fn nearest(&self, seq: u16) -> Option<u64>
        ensures { result ≡ nearest self.now.window.highest seq }
    {
        self.window.nearest(seq)
    }

    /// What its window says to an index.
    pub(super) fn fresh(&self, index: u64) -> Freshness
        ensures { (c : Context) → IsOf self.now c → result ≡ freshness c.accepted index }
    {
        self.window.fresh(index)
    }

    /// Accepts an index.
    pub(super) fn accept(&mut self, index: u64)
        requires fresh { freshness_at self.old.window index ≡ Freshness.Fresh }
        requires in_range { index < 2 ^ 48 }
        ensures { (c : Context) → IsOf self.old c → IsOf self.new (with_index index c) }
    {
        self.window.mark(index);
    }
}

/// Appends a context, where there is room for it.
pub(super) fn install(contexts: &mut Vec<Installed>, context: Installed)
    requires { vec_len contexts.old < vec_capacity contexts.old }
    ensures items { contexts.new.items ≡ contexts.old.items ++ context ∷ [] }
    ensures capacity { vec_capacity contexts.old ≤ vec_capacity contexts.new }
{
    // With room at hand this takes no memory, so it can't fail.
    let Ok(()) = contexts.push(context) else {
        unreachable!()
    };
}

/// Keeps the contexts of live SPIs, in their order.
pub(super) fn keep_live(contexts: &mut Vec<Installed>, live: &[u16])
    ensures items { contexts.new.items ≡ filter (λ c. is_live live.now c.spi) contexts.old.items }
    ensures capacity { vec_capacity contexts.new ≡ vec_capacity contexts.old }
{
    contexts.retain(|context| live.contains(&context.spi));
}
