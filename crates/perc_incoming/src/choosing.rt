// What is decided over an opened datagram.
ghost use Rattle.std.specs.Prelude.{◌≡◌, ◌+◌, ◌≤◌, List, ℕ, [], length, map, take, IfSome, IfOk, All};
ghost use Rattle.std.specs.Option.{option_map};
ghost use Rattle.perc_rtp.specs.Header.{IsPacket, head_of};
ghost use Rattle.perc_outer.specs.Datagram.{Opened, original_header};
ghost use Rattle.perc_contexts.specs.Receiving.{Receiving};
ghost use Rattle.perc_contexts.specs.Kept.{StandsFor, told_of};
ghost use Rattle.perc_receiver.specs.Table.{secret_in};
ghost use Rattle.perc_receiver.specs.Receiver.{live_of};
ghost use Rattle.perc_incoming.specs.Kept.{IsRecordFor};
ghost use Rattle.perc_incoming.specs.Asking.{key_of};
ghost use Rattle.perc_incoming.specs.Outcome.{IsDecision, IsReached, IsToldOf, decision};

use crate::carried::{UnwrappedKey, carried_key};
use crate::trying::{Inner, decide_by};
use perc_base::Profile;
use perc_contexts::{CarriedKey, Contexts, Try};
use perc_ekt::EktKeyRecord;
use perc_ohb::restore;
use perc_outer::Reached;
use perc_receiver::Refusal;
use perc_rtp::RtpHead;

/// The try by which a packet opens, which is fresh.
#[derive(Clone, Copy)]
pub struct Decided {
    /// The try.
    pub attempt: Try,
    /// The key that the packet carries, for itself.
    pub carried: Option<UnwrappedKey>,
    /// How many octets the opened body has.
    pub len: usize,
}

/// Decides by which try an opened datagram opens, or why it is refused: all of `Refusal` behind the outer layer is looked at but the
/// padding. The opened body stands at the front of `room` then.
pub(super) fn decide_reached(
    contexts: &Contexts,
    records: &[EktKeyRecord],
    profile: Profile,
    datagram: &[u8],
    reached: &Reached,
    room: &mut [u8; 1500],
) -> Result<Decided, Refusal>
    requires right { All (IsRecordFor profile) records.now }
    requires held { (held : Receiving) × StandsFor contexts.now held }
    requires live { contexts.now.live ≡ live_of (map secret_in records.now) }
    requires reached { IsReached datagram.now reached.now }
    ensures answer { (held : Receiving) (o : Opened) → StandsFor contexts.now held → IsToldOf o datagram.now reached.now
        → IsDecision held o.header.ssrc (decision (map secret_in records.now) held.contexts o) result room.new }
    ensures len { IfOk result (λ d. reached.now.header + d.len ≤ reached.now.block) }
{
    let mut octets = [0; 72];
    let head = original_head(datagram, reached, &mut octets);
    let inner = Inner {
        header: &octets[..head.len],
        octets: &datagram[reached.header..reached.block],
    };
    if inner.octets.len() < 16 {
        return Err(Refusal::InnerShort);
    }
    let carried = carried_key(records, profile, head.ssrc, &reached.field, datagram)?;
    let key = told_key(&carried);
    let (attempt, len) = decide_by(
        contexts,
        records,
        head.ssrc,
        head.seq,
        key.as_ref(),
        &inner,
        room,
    )?;
    Ok(Decided {
        attempt,
        carried,
        len,
    })
}

/// Reads the header of an opened datagram as its sender made it, without an extension (RFC 8723 section 5.3). Its octets stand at
/// the front of `octets` then.
pub(super) fn original_head(datagram: &[u8], reached: &Reached, octets: &mut [u8; 72]) -> RtpHead
    requires { IsReached datagram.now reached.now }
    ensures head { (o : Opened) → IsToldOf o datagram.now reached.now → result ≡ head_of (original_header o) }
    ensures octets { (o : Opened) → IsToldOf o datagram.now reached.now → IsPacket (original_header o) [] (take result.len octets.new) }
    ensures within { result.len ≤ 72 }
{
    let len = restore(&datagram[..reached.header], &reached.ohb, octets);
    RtpHead::read(&octets[..len]).unwrap()
}

/// What the contexts are told of a carried key.
pub(super) fn told_key(carried: &Option<UnwrappedKey>) -> Option<CarriedKey<'_>>
    requires { IfSome carried.now (λ key. key.wrapped.len ≤ 32) }
    ensures told { option_map told_of result ≡ option_map key_of carried.now }
    ensures length { IfSome carried.now (λ key. length (key_of key).key ≡ key.wrapped.len) }
{
    match carried {
        None => None,
        Some(key) => Some(key.carried()),
    }
}
