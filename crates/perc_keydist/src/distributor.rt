// The key distributor.
ghost use Rattle.std.specs.List.{flat_map};
ghost use Rattle.std.specs.Prelude.{◌≡◌, ℕ, ◌+◌, ◌^◌, ◌<◌, ◌≤◌, ◌++◌, List, None, Some, Ok, Err, IfErr, IfOk, IfSome, IsTrue, OnErr, OnOk, drop, false, length, take};
ghost use Rattle.std.specs.Result.{result_err};
ghost use Rattle.perc_ekt.specs.Record.{IsRecord};
ghost use Rattle.perc_keeper.specs.Lists.{Lists, names_of};
ghost use Rattle.perc_tunnel.specs.Decoding.{fed, taken};
ghost use Rattle.perc_tunnel.specs.Stream.{IsPart};
ghost use Rattle.perc_tunnel.specs.Message.{spelling};
ghost use Rattle.perc_keydist.specs.Answers.{Answers};
ghost use Rattle.perc_keydist.specs.Calls.{KeepsOnce};
ghost use Rattle.perc_keydist.specs.Causes.{Blames, is_of_keeping, is_of_replies, is_of_stream};
ghost use Rattle.perc_keydist.specs.Distributing as spec;
ghost use Rattle.perc_keydist.specs.Distributing.{State, rolling};
ghost use Rattle.perc_keydist.specs.Feeding.{Feeds, count_next, itself};
ghost use Rattle.perc_keydist.specs.Gives.{renewals_to};
ghost use Rattle.perc_keydist.specs.KeyDistributor.{Rolls};

use crate::desk::Desk;
use crate::issuing::issue;
use crate::replies::append_renewal;
use crate::{Handshake, KdFault};
use perc_base::{Memory, Profile, Randoms};
use perc_ekt::EktKeyRecord;
use perc_keeper::Keeper;
use perc_tunnel::Decoder;
use std::alloc::Global;
use std::marker::Model;

/// The key distributor of one conference. What it issues and gives stands in a keeper, so that another can go on from there.
#[derive(Drop)]
pub struct KeyDist {
    desk: Desk,
    decoder: Decoder,
    fault: Option<KdFault>,
}

impl Model for KeyDist {
    ghost use Rattle.perc_keydist.specs.Desks.{accepted_at};
    ghost use Rattle.perc_keydist.specs.KeyDistributor.{IsReady, KeyDistributor};

    ghost Value = { KeyDistributor };

    ghost view = { λ k. record { profile = k.desk.profile; accepted = accepted_at k.desk; decoding = k.decoder; fault = k.fault } };

    ghost invariant = { λ k. IsReady k.fault k.decoder };
}

impl KeyDist {
    ghost use Rattle.perc_keydist.specs.KeyDistributor.{FeedsSo, HasStopped, anew, octets_taken, rolled};

    /// A key distributor to which nothing was fed, for a conference of this profile.
    pub fn new(alloc: Global, profile: Profile) -> Result<KeyDist, Memory>
        ensures { IfOk result (λ keydist. keydist ≡ anew profile) }
    {
        Ok(KeyDist {
            desk: Desk::new(profile),
            decoder: Decoder::new(alloc)?,
            fault: None,
        })
    }

    /// Takes octets of a media distributor's stream, does each message that stands whole in it, appends the replies to `out`,
    /// and answers how many members left. After a fault the replies to earlier messages stand in `out`, and each later call
    /// answers that fault. A key is kept before it is sent. In all fewer than 2^64 octets are fed.
    pub fn feed<K: Keeper, H: Handshake, R: Randoms>(
        &mut self,
        alloc: Global,
        bytes: &[u8],
        keeper: &mut K,
        hand: &mut H,
        randoms: &mut R,
        out: &mut Vec<u8>,
    ) -> Result<u64, KdFault>
        requires few { octets_taken self.old + length bytes.now < 2 ^ 64 }
        ensures fed { self.old.fault ≡ None → FeedsSo self.old bytes.now result self.new (H.answers hand.old)
            (K.lists keeper.old) (K.lists keeper.new) (R.left randoms.old) (R.left randoms.new) out.old.items out.new.items }
        ensures stopped { IfSome self.old.fault (λ f. HasStopped self.old f result self.new
            keeper.old keeper.new hand.old hand.new randoms.old randoms.new out.old.items out.new.items) }
        ensures once { KeepsOnce (H.answers hand.old) (K.lists keeper.old) (K.lists keeper.new) out.old.items out.new.items }
        ensures octets { octets_taken self.new ≤ octets_taken self.old + length bytes.now }
        ensures profile { self.new.profile ≡ self.old.profile }
        ensures kept { H.answers hand.new ≡ H.answers hand.old }
        ensures keeper { self.old.fault ≡ None → Blames KdFault.Keeper (K.fault_count keeper.old) result (K.fault_count keeper.new) }
        ensures hand { self.old.fault ≡ None → Blames KdFault.Handshake (H.fault_count hand.old) result (H.fault_count hand.new) }
        ensures randoms { self.old.fault ≡ None → Blames KdFault.Random (R.fault_count randoms.old) result (R.fault_count randoms.new) }
    {
        if let Some(fault) = self.fault {
            return Err(fault);
        }
        let answer = hear_all(
            alloc,
            &mut self.desk,
            &mut self.decoder,
            bytes,
            keeper,
            hand,
            randoms,
            out,
        );
        self.fault = answer.err();
        answer
    }

    /// Draws the next EKT key, whose SPI is one higher, from 1 on, keeps it, and appends a renewal to `out` for each member in
    /// order of joining. After a fault nothing was appended, and each later call answers that fault.
    pub fn roll<K: Keeper, H: Handshake, R: Randoms>(
        &mut self,
        alloc: Global,
        keeper: &mut K,
        hand: &mut H,
        randoms: &mut R,
        out: &mut Vec<u8>,
    ) -> Result<EktKeyRecord, KdFault>
        ensures rolled { (a : Answers) (l : Lists) (drawn : List ℕ) → self.old.fault ≡ None → H.answers hand.old ≡ Some a
            → K.lists keeper.old ≡ Some l → R.left randoms.old ≡ Some drawn
            → Rolls (rolled a self.old l drawn) result out.old.items out.new.items (K.lists keeper.new) (R.left randoms.new) }
        ensures once { KeepsOnce (H.answers hand.old) (K.lists keeper.old) (K.lists keeper.new) out.old.items out.new.items }
        ensures refused { OnErr result (out.new.items ≡ out.old.items) }
        ensures state { self.old.fault ≡ None → self.new ≡ record self.old { fault = result_err result } }
        ensures decoding { self.new.decoding ≡ self.old.decoding }
        ensures stopped { IfSome self.old.fault (λ f. HasStopped self.old f result self.new
            keeper.old keeper.new hand.old hand.new randoms.old randoms.new out.old.items out.new.items) }
        ensures kept { H.answers hand.new ≡ H.answers hand.old }
        ensures keeper { self.old.fault ≡ None → Blames KdFault.Keeper (K.fault_count keeper.old) result (K.fault_count keeper.new) }
        ensures hand { self.old.fault ≡ None → Blames KdFault.Handshake (H.fault_count hand.old) result (H.fault_count hand.new) }
        ensures randoms { self.old.fault ≡ None → Blames KdFault.Random (R.fault_count randoms.old) result (R.fault_count randoms.new) }
        ensures kinds { self.old.fault ≡ None → IfErr result (λ e. is_of_stream e ≡ false) }
    {
        if let Some(fault) = self.fault {
            return Err(fault);
        }
        let granted = roll_on(alloc, self.desk.profile, keeper, hand, randoms, out);
        self.fault = granted.err();
        granted
    }
}

// Does the next message that the decoder gives, and answers whether it let a member go. None where it gives none.
fn hear_next<K: Keeper, H: Handshake, R: Randoms>(
    alloc: Global,
    desk: &mut Desk,
    decoder: &mut Decoder,
    keeper: &mut K,
    hand: &mut H,
    randoms: &mut R,
    out: &mut Vec<u8>,
) -> Result<Option<bool>, KdFault>
    requires { decoder.old.fault ≡ None }
    ensures heard { Feeds count_next decoder.old.held decoder.old.given decoder.new desk.old desk.new result (H.answers hand.old)
        (K.lists keeper.old) (K.lists keeper.new) (R.left randoms.old) (R.left randoms.new) out.old.items out.new.items }
    ensures once { KeepsOnce (H.answers hand.old) (K.lists keeper.old) (K.lists keeper.new) out.old.items out.new.items }
    ensures ready { OnOk result (decoder.new.fault ≡ None) }
    ensures all { decoder.new.given + length decoder.new.held ≡ decoder.old.given + length decoder.old.held }
    ensures fewer { IfOk result (λ next. IfSome next (λ _. length decoder.new.held < length decoder.old.held)) }
    ensures part { result ≡ Ok None → IsPart decoder.new.held }
    ensures profile { desk.new.profile ≡ desk.old.profile }
    ensures kept { H.answers hand.new ≡ H.answers hand.old }
    ensures keeper { Blames KdFault.Keeper (K.fault_count keeper.old) result (K.fault_count keeper.new) }
    ensures hand { Blames KdFault.Handshake (H.fault_count hand.old) result (H.fault_count hand.new) }
    ensures randoms { Blames KdFault.Random (R.fault_count randoms.old) result (R.fault_count randoms.new) }
{
    match decoder.next() {
        Ok(Some(message)) => {
            let has_left = desk.hear(alloc, &message, keeper, hand, randoms, out)?;
            Ok(Some(has_left))
        }
        Ok(None) => Ok(None),
        Err(fault) => Err(KdFault::Tunnel(fault)),
    }
}

// Does each message that the decoder gives now, and answers how many members left.
fn hear_held<K: Keeper, H: Handshake, R: Randoms>(
    alloc: Global,
    desk: &mut Desk,
    decoder: &mut Decoder,
    keeper: &mut K,
    hand: &mut H,
    randoms: &mut R,
    out: &mut Vec<u8>,
) -> Result<u64, KdFault>
    requires ready { decoder.old.fault ≡ None }
    requires few { decoder.old.given + length decoder.old.held < 2 ^ 64 }
    ensures heard { Feeds itself decoder.old.held decoder.old.given decoder.new desk.old desk.new result (H.answers hand.old)
        (K.lists keeper.old) (K.lists keeper.new) (R.left randoms.old) (R.left randoms.new) out.old.items out.new.items }
    ensures once { KeepsOnce (H.answers hand.old) (K.lists keeper.old) (K.lists keeper.new) out.old.items out.new.items }
    ensures ready { OnOk result (decoder.new.fault ≡ None) }
    ensures all { decoder.new.given + length decoder.new.held ≡ decoder.old.given + length decoder.old.held }
    ensures left { IfOk result (λ left. decoder.old.given + left ≤ decoder.new.given) }
    ensures part { OnOk result (IsPart decoder.new.held) }
    ensures profile { desk.new.profile ≡ desk.old.profile }
    ensures kept { H.answers hand.new ≡ H.answers hand.old }
    ensures keeper { Blames KdFault.Keeper (K.fault_count keeper.old) result (K.fault_count keeper.new) }
    ensures hand { Blames KdFault.Handshake (H.fault_count hand.old) result (H.fault_count hand.new) }
    ensures randoms { Blames KdFault.Random (R.fault_count randoms.old) result (R.fault_count randoms.new) }
{
    let mut left = 0;
    while let Some(has_left) = hear_next(alloc, desk, decoder, keeper, hand, randoms, out)? {
        left += u64::from(has_left);
    }
    Ok(left)
}

// Feeds octets to the decoder, as many as it takes, and answers the others.
fn feed_front<'a>(decoder: &mut Decoder, octets: &'a [u8]) -> &'a [u8]
    requires ready { decoder.old.fault ≡ None }
    requires part { IsPart decoder.old.held }
    requires few { decoder.old.given + length decoder.old.held + length octets.now < 2 ^ 64 }
    ensures held { decoder.new ≡ fed decoder.old octets.now }
    ensures rest { result.now ≡ drop (taken decoder.old (length octets.now)) octets.now }
    ensures all { length decoder.new.held + length result.now ≡ length decoder.old.held + length octets.now }
    ensures fewer { 0 < length octets.now → length result.now < length octets.now }
{
    let taken = decoder.feed(octets);
    &octets[taken..]
}

// Feeds octets to the decoder and does each message, and answers how many members left.
fn hear_all<K: Keeper, H: Handshake, R: Randoms>(
    alloc: Global,
    desk: &mut Desk,
    decoder: &mut Decoder,
    bytes: &[u8],
    keeper: &mut K,
    hand: &mut H,
    randoms: &mut R,
    out: &mut Vec<u8>,
) -> Result<u64, KdFault>
    requires ready { decoder.old.fault ≡ None }
    requires part { IsPart decoder.old.held }
    requires few { decoder.old.given + length decoder.old.held + length bytes.now < 2 ^ 64 }
    ensures heard { Feeds itself (decoder.old.held ++ bytes.now) decoder.old.given decoder.new desk.old desk.new result (H.answers hand.old)
        (K.lists keeper.old) (K.lists keeper.new) (R.left randoms.old) (R.left randoms.new) out.old.items out.new.items }
    ensures once { KeepsOnce (H.answers hand.old) (K.lists keeper.old) (K.lists keeper.new) out.old.items out.new.items }
    ensures ready { OnOk result (decoder.new.fault ≡ None) }
    ensures all { decoder.new.given + length decoder.new.held ≤ decoder.old.given + length decoder.old.held + length bytes.now }
    ensures part { OnOk result (IsPart decoder.new.held) }
    ensures profile { desk.new.profile ≡ desk.old.profile }
    ensures kept { H.answers hand.new ≡ H.answers hand.old }
    ensures keeper { Blames KdFault.Keeper (K.fault_count keeper.old) result (K.fault_count keeper.new) }
    ensures hand { Blames KdFault.Handshake (H.fault_count hand.old) result (H.fault_count hand.new) }
    ensures randoms { Blames KdFault.Random (R.fault_count randoms.old) result (R.fault_count randoms.new) }
{
    let mut left = 0;
    let mut rest = bytes;
    while !rest.is_empty() {
        rest = feed_front(decoder, rest);
        left += hear_held(alloc, desk, decoder, keeper, hand, randoms, out)?;
    }
    Ok(left)
}

// Issues the next EKT key, and sends it to each member. Where that fails nothing is appended.
fn roll_on<K: Keeper, H: Handshake, R: Randoms>(
    alloc: Global,
    profile: Profile,
    keeper: &mut K,
    hand: &mut H,
    randoms: &mut R,
    out: &mut Vec<u8>,
) -> Result<EktKeyRecord, KdFault>
    ensures told { (a : Answers) (s : State) (drawn : List ℕ) → s.profile ≡ profile → H.answers hand.old ≡ Some a
        → K.lists keeper.old ≡ Some s.lists → R.left randoms.old ≡ Some drawn
        → Rolls (rolling a s (spec.issue profile s.lists drawn)) result out.old.items out.new.items
        (K.lists keeper.new) (R.left randoms.new) }
    ensures once { KeepsOnce (H.answers hand.old) (K.lists keeper.old) (K.lists keeper.new) out.old.items out.new.items }
    ensures refused { OnErr result (out.new.items ≡ out.old.items) }
    ensures kept { H.answers hand.new ≡ H.answers hand.old }
    ensures keeper { Blames KdFault.Keeper (K.fault_count keeper.old) result (K.fault_count keeper.new) }
    ensures hand { Blames KdFault.Handshake (H.fault_count hand.old) result (H.fault_count hand.new) }
    ensures randoms { Blames KdFault.Random (R.fault_count randoms.old) result (R.fault_count randoms.new) }
    ensures kinds { IfErr result (λ e. is_of_stream e ≡ false) }
{
    let granted = issue(alloc, profile, keeper, randoms)?;
    let names = member_names(alloc, keeper)?;
    send_renewals(names.as_slice(), &granted, hand, out)?;
    Ok(granted)
}

// The names of the members.
fn member_names<K: Keeper>(alloc: Global, keeper: &mut K) -> Result<Vec<[u8; 16]>, KdFault>
    ensures told { (l : Lists) → K.lists keeper.old ≡ Some l → IfOk result (λ names. names.items ≡ names_of l.members) }
    ensures kept { K.lists keeper.new ≡ K.lists keeper.old }
    ensures keeper { Blames KdFault.Keeper (K.fault_count keeper.old) result (K.fault_count keeper.new) }
    ensures kinds { IfErr result (λ e. IsTrue (is_of_keeping e)) }
{
    let names = keeper.members(alloc)?;
    Ok(names)
}

// Sends each of these members a new EKT key. Where that fails nothing is appended.
fn send_renewals<H: Handshake>(
    members: &[[u8; 16]],
    granted: &EktKeyRecord,
    hand: &mut H,
    out: &mut Vec<u8>,
) -> Result<(), KdFault>
    requires { IsRecord granted.now }
    ensures told { (a : Answers) → H.answers hand.old ≡ Some a
        → OnOk result (out.new.items ≡ out.old.items ++ flat_map spelling (renewals_to a granted.now members.now)) }
    ensures refused { OnErr result (out.new.items ≡ out.old.items) }
    ensures kept { H.answers hand.new ≡ H.answers hand.old }
    ensures hand { Blames KdFault.Handshake (H.fault_count hand.old) result (H.fault_count hand.new) }
    ensures kinds { IfErr result (λ e. IsTrue (is_of_replies e)) }
{
    let before = out.len();
    let answer = append_renewals(members, granted, hand, out);
    if answer.is_err() {
        out.truncate(before);
    }
    answer
}

// Appends a renewal for each of these members, up to one that fails.
fn append_renewals<H: Handshake>(
    members: &[[u8; 16]],
    granted: &EktKeyRecord,
    hand: &mut H,
    out: &mut Vec<u8>,
) -> Result<(), KdFault>
    requires { IsRecord granted.now }
    ensures told { (a : Answers) → H.answers hand.old ≡ Some a
        → OnOk result (out.new.items ≡ out.old.items ++ flat_map spelling (renewals_to a granted.now members.now)) }
    ensures front { take (length out.old.items) out.new.items ≡ out.old.items }
    ensures kept { H.answers hand.new ≡ H.answers hand.old }
    ensures hand { Blames KdFault.Handshake (H.fault_count hand.old) result (H.fault_count hand.new) }
    ensures kinds { IfErr result (λ e. IsTrue (is_of_replies e)) }
{
    for association in members {
        append_renewal(association, granted, hand, out)?;
    }
    Ok(())
}
