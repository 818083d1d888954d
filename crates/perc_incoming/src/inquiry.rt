// All that the ciphers answer about an opened datagram.
ghost use Rattle.std.specs.Prelude.{◌≡◌, ℕ, ◌+◌, ◌<◌, ◌≤◌, ◌&&◌, List, [], ◌∷◌, All, None, Option, Result, length, map, IfOk};
ghost use Rattle.arrayvec.specs.ArrayVec.{array_vec_len};
ghost use Rattle.perc_rtp.specs.Header.{Header, IsPacket, head_of};
ghost use Rattle.perc_outer.specs.Datagram.{Opened};
ghost use Rattle.perc_contexts.specs.Receiving.{Attempt, Carried, Receiving, tries};
ghost use Rattle.perc_contexts.specs.Kept.{AreTries, IsCarried, IsTry, StandsFor, told};
ghost use Rattle.perc_receiver.specs.Table.{secret_in};
ghost use Rattle.perc_receiver.specs.Opener.{by_cipher};
ghost use Rattle.perc_receiver.specs.Receiver as receiver;
ghost use Rattle.perc_receiver.specs.Receiver.{Receiver, live_of, openings, receiving};
ghost use Rattle.perc_receiver.specs.Foreign.{tries_or_none};
ghost use Rattle.perc_incoming.specs.Kept.{IsRecordFor};
ghost use Rattle.perc_incoming.specs.Asking.{CanTry, IsCarriedBy, IsDecided, MayTake, decided_after, decided_by};
ghost use Rattle.perc_incoming.specs.Outcome.{IsDecision, IsReached, IsToldOf};
ghost use Rattle.perc_incoming.specs.Opening.{AreAppended, IsInquiry, IsKeyFor, IsOpenKey, decided_of, is_full_told, is_unwrapped, tries_of};

use crate::carried::{UnwrappedKey, carried_key};
use crate::choosing::{Decided, original_head, told_key};
use crate::settling::key_under;
use crate::trying::{Inner, Tried, open_body, open_try, some_tries};
use arrayvec::ArrayVec;
use perc_base::Profile;
use perc_contexts::{CarriedKey, Contexts, Try};
use perc_ekt::{EktField, EktKeyRecord};
use perc_outer::Reached;
use perc_receiver::Refusal;
use perc_rtp::RtpHead;

/// A key under which a packet opens at an index, whether or not the index is fresh there.
#[derive(Clone, Copy, Debug, PartialEq, Eq)]
pub struct OpenKey {
    /// The SPI.
    pub spi: u16,
    /// The key, and zeros behind a shorter key.
    pub key: [u8; 32],
    /// How many octets the key has: 16 or 32.
    pub len: usize,
    /// The index, below 2^48.
    pub index: u64,
}

// What stands in the places of a list that hold no key yet.
impl Default for OpenKey {
    fn default() -> OpenKey {
        OpenKey {
            spi: 0,
            key: [0; 32],
            len: 16,
            index: 0,
        }
    }
}

/// The keys under which a packet opens, in the order of its tries.
pub type OpenKeys = ArrayVec<OpenKey, 5>;

/// All that the ciphers answer about an opened datagram.
#[derive(Drop)]
pub struct Inquiry {
    /// Its sender's SSRC.
    pub ssrc: u32,
    /// Whether it carries a key under a live SPI that unwraps, to whatever plain text, and also where its inner octets are too few.
    pub key_opens: bool,
    /// Under which keys it opens: all of its tries are asked, also those behind the one that is taken and those that aren't fresh.
    pub open_keys: OpenKeys,
    /// The try by which it is taken, or why it is refused.
    pub decision: Result<Decided, Refusal>,
}

/// Asks the ciphers about an opened datagram: whether the key that it carries unwraps, by which of its tries it opens, and by which it
/// is taken. The body by the latter stands at the front of `room` then.
pub(super) fn inquire(
    contexts: &Contexts,
    records: &[EktKeyRecord],
    profile: Profile,
    datagram: &[u8],
    reached: &Reached,
    room: &mut [u8; 1500],
) -> Inquiry
    requires right { All (IsRecordFor profile) records.now }
    requires held { (held : Receiving) × StandsFor contexts.now held }
    requires live { contexts.now.live ≡ live_of (map secret_in records.now) }
    requires reached { IsReached datagram.now reached.now }
    ensures answer { (r : Receiver) (o : Opened) → map secret_in records.now ≡ r.secrets → StandsFor contexts.now (receiving r)
        → IsToldOf o datagram.now reached.now → IsInquiry r o result room.new }
    ensures len { IfOk result.decision (λ d. reached.now.header + d.len ≤ reached.now.block) }
{
    let mut octets = [0; 72];
    let head = original_head(datagram, reached, &mut octets);
    let inner = Inner {
        header: &octets[..head.len],
        octets: &datagram[reached.header..reached.block],
    };
    let carried = carried_key(records, profile, head.ssrc, &reached.field, datagram);
    let mut open_keys = OpenKeys::new();
    let decision = ask_carried(
        contexts,
        records,
        &head,
        carried,
        &inner,
        &mut open_keys,
        room,
    );
    Inquiry {
        ssrc: head.ssrc,
        key_opens: is_key_open(&reached.field, &carried),
        open_keys,
        decision,
    }
}

// Whether a field carries a key that was unwrapped, or octets that unwrap to no key of the profile, where this was found in it.
fn is_key_open(field: &EktField, carried: &Result<Option<UnwrappedKey>, Refusal>) -> bool
    ensures { result ≡ is_full_told field.now && is_unwrapped carried.now }
{
    let EktField::Full { .. } = field else {
        return false;
    };
    matches!(carried, Ok(_) | Err(Refusal::EktPlain))
}

// Opens an inner packet with this header, for which this key was found, by all of its tries. Those that open are appended.
fn ask_carried(
    contexts: &Contexts,
    records: &[EktKeyRecord],
    head: &RtpHead,
    carried: Result<Option<UnwrappedKey>, Refusal>,
    inner: &Inner<'_>,
    open_keys: &mut OpenKeys,
    room: &mut [u8; 1500],
) -> Result<Decided, Refusal>
    requires held { (held : Receiving) × StandsFor contexts.now held }
    requires key { IfOk carried (IsKeyFor contexts.now.live) }
    requires few { length inner.now.octets.now ≤ 1500 }
    requires reads { (h : Header) × IsPacket h [] inner.now.header.now × (h.extension ≡ None) }
    requires empty { array_vec_len open_keys.old ≡ 0 }
    ensures decided { (held : Receiving) (h : Header) (c : Result (Option Carried) Refusal) → StandsFor contexts.now held → IsPacket h [] inner.now.header.now
        → head.now ≡ head_of h → IsCarriedBy c carried
        → IsDecision held h.ssrc (decided_of (map secret_in records.now) held.contexts h inner.now.octets.now c) result room.new }
    ensures appended { (held : Receiving) (h : Header) (c : Result (Option Carried) Refusal) → StandsFor contexts.now held → IsPacket h [] inner.now.header.now
        → head.now ≡ head_of h → IsCarriedBy c carried
        → AreAppended (map secret_in records.now) h inner.now.octets.now (tries_of held.contexts h inner.now.octets.now c) open_keys.old.items open_keys.new.items }
    ensures len { IfOk result (λ d. d.len + 16 ≡ length inner.now.octets.now) }
{
    if inner.octets.len() < 16 {
        return Err(Refusal::InnerShort);
    }
    let carried = carried?;
    let key = told_key(&carried);
    let (attempt, len) = ask_by(
        contexts,
        records,
        head.ssrc,
        head.seq,
        key.as_ref(),
        inner,
        open_keys,
        room,
    )?;
    Ok(Decided {
        attempt,
        carried,
        len,
    })
}

// Opens an inner packet by all of its tries, and appends those that open. The first that is fresh is taken.
fn ask_by(
    contexts: &Contexts,
    records: &[EktKeyRecord],
    ssrc: u32,
    seq: u16,
    carried: Option<&CarriedKey<'_>>,
    inner: &Inner<'_>,
    open_keys: &mut OpenKeys,
    room: &mut [u8; 1500],
) -> Result<(Try, usize), Refusal>
    requires key { IsCarried contexts.now.live (told carried) }
    requires held { (held : Receiving) × StandsFor contexts.now held }
    requires few { length inner.now.octets.now ≤ 1500 }
    requires reads { (h : Header) × IsPacket h [] inner.now.header.now × (h.extension ≡ None) }
    requires empty { array_vec_len open_keys.old ≡ 0 }
    ensures decided { (held : Receiving) (h : Header) → StandsFor contexts.now held → IsPacket h [] inner.now.header.now
        → MayTake held ssrc (told carried.entry)
        (decided_by (map secret_in records.now) h inner.now.octets.now (receiver.some_tries (tries held.contexts ssrc seq (told carried.entry)))) result room.new }
    ensures appended { (held : Receiving) (h : Header) → StandsFor contexts.now held → IsPacket h [] inner.now.header.now
        → AreAppended (map secret_in records.now) h inner.now.octets.now
        (tries_or_none (receiver.some_tries (tries held.contexts ssrc seq (told carried.entry)))) open_keys.old.items open_keys.new.items }
    ensures len { IfOk result (λ t. t.1 + 16 ≡ length inner.now.octets.now) }
{
    let list = some_tries(contexts, ssrc, seq, carried)?;
    ask_tries(
        contexts,
        records,
        list.as_slice(),
        carried,
        inner,
        None,
        open_keys,
        room,
    )
}

// Opens an inner packet by all of these tries, and appends those that open. The first that is fresh is taken; where none is: `stale`,
// or else why the first that opens isn't fresh, or else that none opens.
fn ask_tries(
    contexts: &Contexts,
    records: &[EktKeyRecord],
    attempts: &[Try],
    carried: Option<&CarriedKey<'_>>,
    inner: &Inner<'_>,
    stale: Option<Refusal>,
    open_keys: &mut OpenKeys,
    room: &mut [u8; 1500],
) -> Result<(Try, usize), Refusal>
    requires key { IsCarried contexts.now.live (told carried) }
    requires tries { CanTry contexts.now (told carried) attempts.now }
    requires few { length inner.now.octets.now ≤ 1500 }
    requires reads { (h : Header) × IsPacket h [] inner.now.header.now × (h.extension ≡ None) }
    requires room { array_vec_len open_keys.old + length attempts.now ≤ 5 }
    ensures decided { (held : Receiving) (ssrc : ℕ) (tried : List Attempt) (h : Header) → StandsFor contexts.now held
        → AreTries held.contexts ssrc (told carried.entry) attempts.now tried → IsPacket h [] inner.now.header.now
        → IsDecided held.contexts ssrc (told carried.entry)
        (decided_after stale (openings (by_cipher (map secret_in records.now)) h inner.now.octets.now tried)) result room.new }
    ensures appended { (held : Receiving) (ssrc : ℕ) (tried : List Attempt) (h : Header) → StandsFor contexts.now held
        → AreTries held.contexts ssrc (told carried.entry) attempts.now tried → IsPacket h [] inner.now.header.now
        → AreAppended (map secret_in records.now) h inner.now.octets.now tried open_keys.old.items open_keys.new.items }
    ensures len { IfOk result (λ t. t.1 + 16 ≡ length inner.now.octets.now) }
{
    let Some((first, others)) = attempts.split_first() else {
        return Err(stale.unwrap_or(Refusal::InnerTag));
    };
    match open_try(contexts, records, first, carried, inner, room) {
        Tried::Fresh(len) => {
            open_keys.push(open_key(contexts, first, carried));
            ask_others(contexts, records, others, carried, inner, open_keys);
            Ok((*first, len))
        }
        Tried::Stale(refusal) => {
            open_keys.push(open_key(contexts, first, carried));
            let stale = Some(stale.unwrap_or(refusal));
            ask_tries(
                contexts, records, others, carried, inner, stale, open_keys, room,
            )
        }
        Tried::Shut => ask_tries(
            contexts, records, others, carried, inner, stale, open_keys, room,
        ),
    }
}

// Opens an inner packet by all of these tries, in a room of its own, and appends those that open.
fn ask_others(
    contexts: &Contexts,
    records: &[EktKeyRecord],
    attempts: &[Try],
    carried: Option<&CarriedKey<'_>>,
    inner: &Inner<'_>,
    open_keys: &mut OpenKeys,
)
    requires key { IsCarried contexts.now.live (told carried) }
    requires tries { CanTry contexts.now (told carried) attempts.now }
    requires few { length inner.now.octets.now ≤ 1500 }
    requires reads { (h : Header) × IsPacket h [] inner.now.header.now × (h.extension ≡ None) }
    requires room { array_vec_len open_keys.old + length attempts.now ≤ 5 }
    ensures { (held : Receiving) (ssrc : ℕ) (tried : List Attempt) (h : Header) → StandsFor contexts.now held
        → AreTries held.contexts ssrc (told carried.entry) attempts.now tried → IsPacket h [] inner.now.header.now
        → AreAppended (map secret_in records.now) h inner.now.octets.now tried open_keys.old.items open_keys.new.items }
{
    let Some((first, others)) = attempts.split_first() else {
        return;
    };
    ask_one(contexts, records, first, carried, inner, open_keys);
    ask_others(contexts, records, others, carried, inner, open_keys);
}

// The same of one try.
fn ask_one(
    contexts: &Contexts,
    records: &[EktKeyRecord],
    attempt: &Try,
    carried: Option<&CarriedKey<'_>>,
    inner: &Inner<'_>,
    open_keys: &mut OpenKeys,
)
    requires key { IsCarried contexts.now.live (told carried) }
    requires tried { (held : Receiving) × (ssrc : ℕ) × (a : Attempt) × StandsFor contexts.now held × IsTry held.contexts ssrc (told carried) attempt.now a }
    requires few { length inner.now.octets.now ≤ 1500 }
    requires reads { (h : Header) × IsPacket h [] inner.now.header.now × (h.extension ≡ None) }
    requires room { array_vec_len open_keys.old < 5 }
    ensures appended { (held : Receiving) (ssrc : ℕ) (a : Attempt) (h : Header) → StandsFor contexts.now held
        → IsTry held.contexts ssrc (told carried.entry) attempt.now a → IsPacket h [] inner.now.header.now
        → AreAppended (map secret_in records.now) h inner.now.octets.now (a ∷ []) open_keys.old.items open_keys.new.items }
    ensures len { array_vec_len open_keys.new ≤ array_vec_len open_keys.old + 1 }
{
    let mut room = [0; 1500];
    let Some(_) = open_body(contexts, records, attempt, carried, inner, &mut room) else {
        return;
    };
    open_keys.push(open_key(contexts, attempt, carried));
}

// What is told of a try that opens.
fn open_key(contexts: &Contexts, attempt: &Try, carried: Option<&CarriedKey<'_>>) -> OpenKey
    requires key { IsCarried contexts.now.live (told carried) }
    requires tried { (held : Receiving) × (ssrc : ℕ) × (a : Attempt) × StandsFor contexts.now held × IsTry held.contexts ssrc (told carried) attempt.now a }
    ensures { (held : Receiving) (ssrc : ℕ) (a : Attempt) → StandsFor contexts.now held → IsTry held.contexts ssrc (told carried.entry) attempt.now a
        → IsOpenKey a result }
{
    let (spi, key) = key_under(contexts, attempt, carried);
    let mut octets = [0; 32];
    octets[..key.len()].copy_from_slice(key);
    OpenKey {
        spi,
        key: octets,
        len: key.len(),
        index: attempt.index,
    }
}
