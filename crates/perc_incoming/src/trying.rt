// The tries of a packet, opened in turn.
ghost use Rattle.std.specs.Prelude.{◌≡◌, ℕ, ◌+◌, ◌^◌, ◌<◌, ◌≤◌, ◌⊎◌, List, [], length, map, None, IfOk, IfSome};
ghost use Rattle.perc_rtp.specs.Header.{Header, IsPacket};
ghost use Rattle.perc_contexts.specs.Receiving.{Attempt, Receiving, tries};
ghost use Rattle.perc_contexts.specs.Kept.{AreTries, IsCarried, IsTry, StandsFor, told};
ghost use Rattle.perc_receiver.specs.Table.{secret_in, secret_of};
ghost use Rattle.perc_receiver.specs.Opener.{by_cipher};
ghost use Rattle.perc_receiver.specs.Receiver as receiver;
ghost use Rattle.perc_receiver.specs.Receiver.{openings};
ghost use Rattle.perc_incoming.specs.Asking.{AreSome, CanTry, IfFresh, IsDecided, IsOpened, IsTried, MayTake, body_at, decided_after, decided_by};

use crate::records::{inner_session, record_of};
use perc_contexts::{CarriedKey, Contexts, Try, TryList, TryPlace};
use perc_double::inner_unseal;
use perc_ekt::EktKeyRecord;
use perc_receiver::Refusal;
use perc_window::Freshness;

/// An inner packet.
#[derive(Drop)]
pub(super) struct Inner<'a> {
    /// The restored header.
    pub header: &'a [u8],
    /// What stands behind it, sealed: at most 1500 octets.
    pub octets: &'a [u8],
}

/// What became of a try.
#[derive(Clone, Copy)]
pub(super) enum Tried {
    /// It doesn't open.
    Shut,
    /// It opens and is fresh; the body has so many octets.
    Fresh(usize),
    /// It opens, and isn't fresh for this reason.
    Stale(Refusal),
}

/// The tries of a packet, of which there is one at least.
pub(super) fn some_tries(
    contexts: &Contexts,
    ssrc: u32,
    seq: u16,
    carried: Option<&CarriedKey<'_>>,
) -> Result<TryList, Refusal>
    requires { IsCarried contexts.now.live (told carried) }
    ensures { (held : Receiving) → StandsFor contexts.now held
        → AreSome held.contexts ssrc (told carried.entry) (receiver.some_tries (tries held.contexts ssrc seq (told carried.entry))) result }
{
    let Ok(list) = contexts.tries(ssrc, seq, carried) else {
        return Err(Refusal::KeyLimit);
    };
    if list.is_empty() {
        return Err(Refusal::NoContext);
    }
    Ok(list)
}

/// Opens an inner packet by the first of its tries that is fresh and opens it: under the key that it carries, and under the
/// contexts of its sender. Answers how many octets the body has, which then stands at the front of `room`.
pub(super) fn decide_by(
    contexts: &Contexts,
    records: &[EktKeyRecord],
    ssrc: u32,
    seq: u16,
    carried: Option<&CarriedKey<'_>>,
    inner: &Inner<'_>,
    room: &mut [u8; 1500],
) -> Result<(Try, usize), Refusal>
    requires key { IsCarried contexts.now.live (told carried) }
    requires held { (held : Receiving) × StandsFor contexts.now held }
    requires few { length inner.now.octets.now ≤ 1500 }
    requires reads { (h : Header) × IsPacket h [] inner.now.header.now × (h.extension ≡ None) }
    ensures answer { (held : Receiving) (h : Header) → StandsFor contexts.now held → IsPacket h [] inner.now.header.now
        → MayTake held ssrc (told carried.entry)
        (decided_by (map secret_in records.now) h inner.now.octets.now (receiver.some_tries (tries held.contexts ssrc seq (told carried.entry)))) result room.new }
    ensures len { IfOk result (λ t. t.1 + 16 ≡ length inner.now.octets.now) }
{
    let list = some_tries(contexts, ssrc, seq, carried)?;
    decide(
        contexts,
        records,
        list.as_slice(),
        carried,
        inner,
        None,
        room,
    )
}

// The same by the first of these tries. Where none is fresh and opens it: `stale`, or else why the first that opens it isn't fresh,
// or else that none opens it.
fn decide(
    contexts: &Contexts,
    records: &[EktKeyRecord],
    attempts: &[Try],
    carried: Option<&CarriedKey<'_>>,
    inner: &Inner<'_>,
    stale: Option<Refusal>,
    room: &mut [u8; 1500],
) -> Result<(Try, usize), Refusal>
    requires key { IsCarried contexts.now.live (told carried) }
    requires tries { CanTry contexts.now (told carried) attempts.now }
    requires few { length inner.now.octets.now ≤ 1500 }
    requires reads { (h : Header) × IsPacket h [] inner.now.header.now × (h.extension ≡ None) }
    ensures answer { (held : Receiving) (ssrc : ℕ) (tried : List Attempt) (h : Header) → StandsFor contexts.now held
        → AreTries held.contexts ssrc (told carried.entry) attempts.now tried → IsPacket h [] inner.now.header.now
        → IsDecided held.contexts ssrc (told carried.entry)
        (decided_after stale (openings (by_cipher (map secret_in records.now)) h inner.now.octets.now tried)) result room.new }
    ensures len { IfOk result (λ t. t.1 + 16 ≡ length inner.now.octets.now) }
{
    let Some((first, others)) = attempts.split_first() else {
        return Err(stale.unwrap_or(Refusal::InnerTag));
    };
    match open_try(contexts, records, first, carried, inner, room) {
        Tried::Fresh(len) => Ok((*first, len)),
        Tried::Stale(refusal) => {
            let stale = Some(stale.unwrap_or(refusal));
            decide(contexts, records, others, carried, inner, stale, room)
        }
        Tried::Shut => decide(contexts, records, others, carried, inner, stale, room),
    }
}

/// Opens an inner packet by a try. Where it opens, the body stands at the front of `room` then.
pub(super) fn open_try(
    contexts: &Contexts,
    records: &[EktKeyRecord],
    attempt: &Try,
    carried: Option<&CarriedKey<'_>>,
    inner: &Inner<'_>,
    room: &mut [u8; 1500],
) -> Tried
    requires key { IsCarried contexts.now.live (told carried) }
    requires tried { (held : Receiving) × (ssrc : ℕ) × (a : Attempt) × StandsFor contexts.now held × IsTry held.contexts ssrc (told carried) attempt.now a }
    requires few { length inner.now.octets.now ≤ 1500 }
    requires reads { (h : Header) × IsPacket h [] inner.now.header.now × (h.extension ≡ None) }
    ensures answer { (held : Receiving) (ssrc : ℕ) (a : Attempt) (h : Header) → StandsFor contexts.now held
        → IsTry held.contexts ssrc (told carried.entry) attempt.now a → IsPacket h [] inner.now.header.now
        → IsTried a (body_at (secret_of (map secret_in records.now) a.context.spi) a.context.key a.index h inner.now.octets.now) result room.new }
    ensures len { IfFresh result (λ n. n + 16 ≡ length inner.now.octets.now) }
{
    let Some(len) = open_body(contexts, records, attempt, carried, inner, room) else {
        return Tried::Shut;
    };
    match contexts.fresh(attempt) {
        Freshness::Fresh => Tried::Fresh(len),
        Freshness::Repeated => Tried::Stale(Refusal::InnerRepeated),
        Freshness::TooOld => Tried::Stale(Refusal::InnerOld),
    }
}

/// Opens an inner packet by a try, whether or not it is fresh, and answers how many octets the body has.
pub(super) fn open_body(
    contexts: &Contexts,
    records: &[EktKeyRecord],
    attempt: &Try,
    carried: Option<&CarriedKey<'_>>,
    inner: &Inner<'_>,
    room: &mut [u8; 1500],
) -> Option<usize>
    requires key { IsCarried contexts.now.live (told carried) }
    requires tried { (held : Receiving) × (ssrc : ℕ) × (a : Attempt) × StandsFor contexts.now held × IsTry held.contexts ssrc (told carried) attempt.now a }
    requires few { length inner.now.octets.now ≤ 1500 }
    requires reads { (h : Header) × IsPacket h [] inner.now.header.now × (h.extension ≡ None) }
    ensures answer { (held : Receiving) (ssrc : ℕ) (a : Attempt) (h : Header) → StandsFor contexts.now held
        → IsTry held.contexts ssrc (told carried.entry) attempt.now a → IsPacket h [] inner.now.header.now
        → IsOpened (body_at (secret_of (map secret_in records.now) a.context.spi) a.context.key a.index h inner.now.octets.now) result room.new }
    ensures len { IfSome result (λ n. n + 16 ≡ length inner.now.octets.now) }
{
    let body = &mut room[..inner.octets.len()];
    body.copy_from_slice(inner.octets);
    match (attempt.place, carried) {
        (TryPlace::Held(place), _) => {
            let (spi, key) = contexts.key_of(place);
            open_under(records, spi, key, attempt.index, inner.header, body)
        }
        (TryPlace::New, Some(carried)) => open_under(
            records,
            carried.spi,
            carried.key,
            attempt.index,
            inner.header,
            body,
        ),
        // Only a carried key has a new context.
        (TryPlace::New, None) => unreachable!(),
    }
}

// Opens inner octets under the key of an SPI at an index, and answers how many octets the body has. Where they don't open they
// are as they were.
fn open_under(
    records: &[EktKeyRecord],
    spi: u16,
    key: &[u8],
    index: u64,
    header: &[u8],
    body: &mut [u8],
) -> Option<usize>
    requires key { (length key.now ≡ 16) ⊎ (length key.now ≡ 32) }
    requires index { index < 2 ^ 48 }
    requires few { length body.old ≤ 1500 }
    requires reads { (h : Header) × IsPacket h [] header.now × (h.extension ≡ None) }
    ensures answer { (h : Header) → IsPacket h [] header.now
        → IsOpened (body_at (secret_of (map secret_in records.now) spi) key.now index h body.old) result body.new }
    ensures len { IfSome result (λ n. n + 16 ≡ length body.old) }
{
    let granted = record_of(records, spi)?;
    inner_unseal(&inner_session(&granted, key), index, header, body).ok()
}
