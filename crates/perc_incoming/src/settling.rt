// Packets that are accepted.
ghost use Rattle.std.specs.Prelude.{◌≡◌, ◌+◌, ◌≤◌, ◌⊎◌, ℕ, length};
ghost use Rattle.perc_contexts.specs.Receiving.{Attempt, Receiving};
ghost use Rattle.perc_contexts.specs.Kept.{IsCarried, IsTry, StandsFor, told};

use perc_contexts::{CarriedKey, Contexts, Try, TryPlace};

/// An accepted packet. Header extensions aren't given out, since nothing protects them from end to end.
#[derive(Clone, Copy)]
pub struct Accepted<'b> {
    /// Its sender's SSRC.
    pub ssrc: u32,
    /// The SPI of the key that it opened under.
    pub spi: u16,
    /// Its inner index: ROC * 65536 + SEQ, below 2^48.
    pub index: u64,
    /// The payload type as its sender made it, below 128.
    pub pt: u8,
    /// The sequence number as its sender made it.
    pub seq: u16,
    /// The marker as its sender made it.
    pub marker: bool,
    /// The timestamp.
    pub timestamp: u32,
    /// The payload, without padding.
    pub payload: &'b [u8],
}

/// The SPI and the key of the context that a try is under.
pub(super) fn key_under<'a>(
    contexts: &'a Contexts,
    attempt: &Try,
    carried: Option<&'a CarriedKey<'a>>,
) -> (u16, &'a [u8])
    requires key { IsCarried contexts.now.live (told carried) }
    requires tried { (held : Receiving) × (ssrc : ℕ) × (a : Attempt) × StandsFor contexts.now held × IsTry held.contexts ssrc (told carried) attempt.now a }
    ensures spi { (held : Receiving) (ssrc : ℕ) (a : Attempt) → StandsFor contexts.now held
        → IsTry held.contexts ssrc (told carried.entry) attempt.now a → result.0 ≡ a.context.spi }
    ensures key { (held : Receiving) (ssrc : ℕ) (a : Attempt) → StandsFor contexts.now held
        → IsTry held.contexts ssrc (told carried.entry) attempt.now a → result.1.now ≡ a.context.key }
    ensures length { (length result.1.now ≡ 16) ⊎ (length result.1.now ≡ 32) }
{
    match (attempt.place, carried) {
        (TryPlace::Held(place), _) => contexts.key_of(place),
        (TryPlace::New, Some(carried)) => (carried.spi, carried.key),
        // Only a carried key has a new context.
        (TryPlace::New, None) => unreachable!(),
    }
}

/// Puts a payload at an offset of a datagram, and lends it from there.
pub(super) fn put_payload<'b>(datagram: &'b mut [u8], start: usize, payload: &[u8]) -> &'b [u8]
    requires { start + length payload.now ≤ length datagram.old }
    ensures { result.now ≡ payload.now }
{
    let place = &mut datagram[start..start + payload.len()];
    place.copy_from_slice(payload);
    place
}
