// Messages: what each one brings.
ghost use Rattle.std.specs.Prelude.{◌≡◌, ℕ, ◌+◌, false, List, Some, None, IfErr, IfOk, IfSome, IsTrue, OnErr, OnOk, length};
ghost use Rattle.std.specs.Option.{option_map};
ghost use Rattle.perc_ekt.specs.Record.{IsRecord};
ghost use Rattle.perc_ekt.specs.declared.record.EktKeyRecord.{EktKeyRecord};
ghost use Rattle.perc_keeper.specs.Lists.{HasKeys, Lists, is_member, newest, without_member};
ghost use Rattle.perc_tunnel.specs.Message as tunnel;
ghost use Rattle.perc_tunnel.specs.Told as told;
ghost use Rattle.perc_keydist.specs.Answers.{Answers};
ghost use Rattle.perc_keydist.specs.Calls.{FollowsTold, IsSaid, KeepsOnce};
ghost use Rattle.perc_keydist.specs.Causes.{Blames, is_of_ends, is_of_keeping, is_of_offers, is_of_stream, is_of_welcomes};
ghost use Rattle.perc_keydist.specs.Distributing as spec;
ghost use Rattle.perc_keydist.specs.Gives.{Replied};
ghost use Rattle.perc_keydist.specs.Wanted as wanted;

use crate::admission::{admit, grant};
use crate::replies::{append_unsupported, append_welcome};
use crate::{Handshake, Hello, KdFault};
use perc_base::{Profile, Randoms};
use perc_ekt::EktKeyRecord;
use perc_keeper::Keeper;
use perc_tunnel::{MediaKeys, Message, ProfileList};
use std::alloc::Global;

// How many members a conference has at most.
const MOST_MEMBERS: usize = 64;

// The conference's profile, and the profiles that were accepted of the media distributor.
#[derive(Drop)]
pub struct Desk {
    pub profile: Profile,
    pub accepted: Option<Vec<u16>>,
}

impl Desk {
    ghost use Rattle.perc_keydist.specs.Desks.{Hears, accepted_at, count_of, nobody, state_at};

    pub fn new(profile: Profile) -> Desk
        ensures profile { result.profile ≡ profile }
        ensures accepted { accepted_at result ≡ None }
    {
        Desk {
            profile,
            accepted: None,
        }
    }

    // Does a message, and answers whether it let a member go. Where it fails nothing was appended.
    pub fn hear<K: Keeper, H: Handshake, R: Randoms>(
        &mut self,
        alloc: Global,
        message: &Message<'_>,
        keeper: &mut K,
        hand: &mut H,
        randoms: &mut R,
        out: &mut Vec<u8>,
    ) -> Result<bool, KdFault>
        ensures told { (a : Answers) (l : Lists) (rs : List ℕ) (left : ℕ) → H.answers hand.old ≡ Some a → K.lists keeper.old ≡ Some l
            → R.left randoms.old ≡ Some rs
            → Hears (spec.hear a (state_at self.old l left) rs (told.content_of message.now) (accepted_at self.old))
            count_of left result out.old.items out.new.items (accepted_at self.new) (K.lists keeper.new) (R.left randoms.new) }
        ensures once { KeepsOnce (H.answers hand.old) (K.lists keeper.old) (K.lists keeper.new) out.old.items out.new.items }
        ensures refused { OnErr result (out.new.items ≡ out.old.items) }
        ensures profile { self.new.profile ≡ self.old.profile }
        ensures kept { H.answers hand.new ≡ H.answers hand.old }
        ensures keeper { Blames KdFault.Keeper (K.fault_count keeper.old) result (K.fault_count keeper.new) }
        ensures hand { Blames KdFault.Handshake (H.fault_count hand.old) result (H.fault_count hand.new) }
        ensures randoms { Blames KdFault.Random (R.fault_count randoms.old) result (R.fault_count randoms.new) }
        ensures kinds { IfErr result (λ e. is_of_stream e ≡ false) }
    {
        match message {
            Message::SupportedProfiles { version, profiles } => {
                self.accept(alloc, *version, profiles, out)?;
                Ok(false)
            }
            Message::UnsupportedVersion { .. } => Err(KdFault::Order(2)),
            Message::MediaKeys(_) => Err(KdFault::Order(3)),
            Message::TunneledDtls {
                association,
                octets,
            } => {
                self.take_record(alloc, association, octets, keeper, hand, randoms, out)?;
                Ok(false)
            }
            Message::EndpointDisconnect { association } => self.end(alloc, association, keeper),
        }
    }

    // Accepts profiles that are offered in version 0, and answers other versions.
    fn accept(
        &mut self,
        alloc: Global,
        version: u8,
        profiles: &ProfileList<'_>,
        out: &mut Vec<u8>,
    ) -> Result<(), KdFault>
        ensures told { (a : Answers) (l : Lists) (rs : List ℕ) (left : ℕ)
            → Hears (spec.hear a (state_at self.old l left) rs
            (tunnel.SupportedProfiles version (told.numbers_of profiles.now)) (accepted_at self.old)) nobody left result out.old.items out.new.items (accepted_at self.new) (Some l) (Some rs) }
        ensures said { (a : Answers) (issued : List EktKeyRecord) → IsSaid a issued out.old.items out.new.items }
        ensures refused { OnErr result (out.new.items ≡ out.old.items) }
        ensures profile { self.new.profile ≡ self.old.profile }
        ensures kinds { IfErr result (λ e. IsTrue (is_of_offers e)) }
    {
        if self.accepted.is_some() {
            return Err(KdFault::Order(1));
        }
        if version != 0 {
            return append_unsupported(out);
        }
        self.accepted = Some(numbers_of(alloc, profiles)?);
        Ok(())
    }

    // Takes a record of an association, which may be one that joins.
    fn take_record<K: Keeper, H: Handshake, R: Randoms>(
        &self,
        alloc: Global,
        association: &[u8; 16],
        octets: &[u8],
        keeper: &mut K,
        hand: &mut H,
        randoms: &mut R,
        out: &mut Vec<u8>,
    ) -> Result<(), KdFault>
        ensures told { (a : Answers) (l : Lists) (rs : List ℕ) (left : ℕ) → H.answers hand.old ≡ Some a → K.lists keeper.old ≡ Some l
            → R.left randoms.old ≡ Some rs
            → Hears (spec.hear a (state_at self.now l left) rs (tunnel.TunneledDtls association.now octets.now) (accepted_at self.now))
            nobody left result out.old.items out.new.items (accepted_at self.now) (K.lists keeper.new) (R.left randoms.new) }
        ensures once { KeepsOnce (H.answers hand.old) (K.lists keeper.old) (K.lists keeper.new) out.old.items out.new.items }
        ensures refused { OnErr result (out.new.items ≡ out.old.items) }
        ensures kept { H.answers hand.new ≡ H.answers hand.old }
        ensures keeper { Blames KdFault.Keeper (K.fault_count keeper.old) result (K.fault_count keeper.new) }
        ensures hand { Blames KdFault.Handshake (H.fault_count hand.old) result (H.fault_count hand.new) }
        ensures randoms { Blames KdFault.Random (R.fault_count randoms.old) result (R.fault_count randoms.new) }
        ensures kinds { IfErr result (λ e. is_of_stream e ≡ false) }
    {
        let Some(accepted) = &self.accepted else {
            return Err(KdFault::Order(4));
        };
        let hello = take(octets, hand)?;
        if !is_wanted(self.profile, accepted.as_slice(), hello) {
            return Ok(());
        }
        join(alloc, self.profile, association, keeper, hand, randoms, out)
    }

    // Lets an association go, and answers whether it was a member.
    fn end<K: Keeper>(
        &self,
        alloc: Global,
        association: &[u8; 16],
        keeper: &mut K,
    ) -> Result<bool, KdFault>
        ensures told { (a : Answers) (l : Lists) (rs : List ℕ) (left : ℕ) (out : List ℕ) → K.lists keeper.old ≡ Some l
            → Hears (spec.hear a (state_at self.now l left) rs (tunnel.EndpointDisconnect association.now) (accepted_at self.now))
            count_of left result out out (accepted_at self.now) (K.lists keeper.new) (Some rs) }
        ensures once { FollowsTold (K.lists keeper.old) (K.lists keeper.new) }
        ensures keeper { Blames KdFault.Keeper (K.fault_count keeper.old) result (K.fault_count keeper.new) }
        ensures kinds { IfErr result (λ e. IsTrue (is_of_ends e)) }
    {
        if self.accepted.is_none() {
            return Err(KdFault::Order(5));
        }
        leave(alloc, association, keeper)
    }
}

// Lets a member go, and answers whether there was one.
fn leave<K: Keeper>(alloc: Global, association: &[u8; 16], keeper: &mut K) -> Result<bool, KdFault>
    ensures answer { IfOk result (λ has_left. IfSome (K.lists keeper.old) (λ l. has_left ≡ is_member l.members association.now)) }
    ensures gone { OnOk result (K.lists keeper.new ≡ option_map (without_member association.now) (K.lists keeper.old)) }
    ensures refused { OnErr result (K.lists keeper.new ≡ K.lists keeper.old) }
    ensures keeper { Blames KdFault.Keeper (K.fault_count keeper.old) result (K.fault_count keeper.new) }
    ensures kinds { IfErr result (λ e. IsTrue (is_of_keeping e)) }
{
    let has_left = keeper.leave(alloc, association)?;
    Ok(has_left)
}

// Asks the handshake what a record brings.
fn take<H: Handshake>(octets: &[u8], hand: &mut H) -> Result<Hello, KdFault>
    ensures told { (a : Answers) → H.answers hand.old ≡ Some a → IfOk result (λ hello. hello ≡ a.taken octets.now) }
    ensures kept { H.answers hand.new ≡ H.answers hand.old }
    ensures hand { Blames KdFault.Handshake (H.fault_count hand.old) result (H.fault_count hand.new) }
    ensures kinds { IfErr result (λ e. e ≡ KdFault.Handshake) }
{
    match hand.take(octets) {
        Ok(hello) => Ok(hello),
        Err(_) => Err(KdFault::Handshake),
    }
}

// Whether a record joins with the conference's profile, and this is among those accepted.
fn is_wanted(profile: Profile, accepted: &[u16], hello: Hello) -> bool
    ensures { result ≡ wanted.is_wanted profile accepted.now hello }
{
    match hello {
        Hello::Join(number) => number == profile.number() && accepted.contains(&number),
        Hello::Other => false,
    }
}

// Welcomes an association: a member again, with the newest EKT key, or a stranger where there is room for it.
fn join<K: Keeper, H: Handshake, R: Randoms>(
    alloc: Global,
    profile: Profile,
    association: &[u8; 16],
    keeper: &mut K,
    hand: &mut H,
    randoms: &mut R,
    out: &mut Vec<u8>,
) -> Result<(), KdFault>
    ensures told { (a : Answers) (l : Lists) (rs : List ℕ) → H.answers hand.old ≡ Some a → K.lists keeper.old ≡ Some l
        → R.left randoms.old ≡ Some rs
        → Replied (spec.join a profile association.now l rs) result out.old.items out.new.items (K.lists keeper.new) (R.left randoms.new) }
    ensures once { KeepsOnce (H.answers hand.old) (K.lists keeper.old) (K.lists keeper.new) out.old.items out.new.items }
    ensures refused { OnErr result (out.new.items ≡ out.old.items) }
    ensures kept { H.answers hand.new ≡ H.answers hand.old }
    ensures keeper { Blames KdFault.Keeper (K.fault_count keeper.old) result (K.fault_count keeper.new) }
    ensures hand { Blames KdFault.Handshake (H.fault_count hand.old) result (H.fault_count hand.new) }
    ensures randoms { Blames KdFault.Random (R.fault_count randoms.old) result (R.fault_count randoms.new) }
    ensures kinds { IfErr result (λ e. is_of_stream e ≡ false) }
{
    match keeper.member(alloc, association)? {
        Some(keys) => welcome_again(alloc, &keys, keeper, hand, out),
        None => join_stranger(alloc, profile, association, keeper, hand, randoms, out),
    }
}

// Gives a member its outer keys again, with the newest EKT key.
fn welcome_again<K: Keeper, H: Handshake>(
    alloc: Global,
    keys: &MediaKeys,
    keeper: &mut K,
    hand: &mut H,
    out: &mut Vec<u8>,
) -> Result<(), KdFault>
    requires { HasKeys keys.now }
    ensures told { (a : Answers) (l : Lists) (rs : List ℕ) → H.answers hand.old ≡ Some a → K.lists keeper.old ≡ Some l
        → Replied (spec.welcoming_again a keys.now l rs (newest l.issued)) result out.old.items out.new.items
        (K.lists keeper.new) (Some rs) }
    ensures once { KeepsOnce (H.answers hand.old) (K.lists keeper.old) (K.lists keeper.new) out.old.items out.new.items }
    ensures refused { OnErr result (out.new.items ≡ out.old.items) }
    ensures kept { H.answers hand.new ≡ H.answers hand.old }
    ensures keeper { Blames KdFault.Keeper (K.fault_count keeper.old) result (K.fault_count keeper.new) }
    ensures hand { Blames KdFault.Handshake (H.fault_count hand.old) result (H.fault_count hand.new) }
    ensures kinds { IfErr result (λ e. IsTrue (is_of_welcomes e)) }
{
    match newest_record(alloc, keeper)? {
        Some(newest) => append_welcome(keys, &newest, hand, out),
        None => Ok(()),
    }
}

// The record of the newest EKT key, where one was issued.
fn newest_record<K: Keeper>(alloc: Global, keeper: &mut K) -> Result<Option<EktKeyRecord>, KdFault>
    ensures answer { IfOk result (λ r. IfSome (K.lists keeper.old) (λ l. r ≡ newest l.issued)) }
    ensures right { IfOk result (λ r. IfSome r IsRecord) }
    ensures same { K.lists keeper.new ≡ K.lists keeper.old }
    ensures keeper { Blames KdFault.Keeper (K.fault_count keeper.old) result (K.fault_count keeper.new) }
    ensures kinds { IfErr result (λ e. IsTrue (is_of_keeping e)) }
{
    let newest = keeper.last(alloc)?;
    Ok(newest)
}

// Lets a stranger join, where there is room for it.
fn join_stranger<K: Keeper, H: Handshake, R: Randoms>(
    alloc: Global,
    profile: Profile,
    association: &[u8; 16],
    keeper: &mut K,
    hand: &mut H,
    randoms: &mut R,
    out: &mut Vec<u8>,
) -> Result<(), KdFault>
    requires { (l : Lists) → K.lists keeper.old ≡ Some l → is_member l.members association.now ≡ false }
    ensures told { (a : Answers) (l : Lists) (rs : List ℕ) → H.answers hand.old ≡ Some a → K.lists keeper.old ≡ Some l
        → R.left randoms.old ≡ Some rs
        → Replied (spec.join_of a profile association.now l rs None) result out.old.items out.new.items
        (K.lists keeper.new) (R.left randoms.new) }
    ensures once { KeepsOnce (H.answers hand.old) (K.lists keeper.old) (K.lists keeper.new) out.old.items out.new.items }
    ensures refused { OnErr result (out.new.items ≡ out.old.items) }
    ensures kept { H.answers hand.new ≡ H.answers hand.old }
    ensures keeper { Blames KdFault.Keeper (K.fault_count keeper.old) result (K.fault_count keeper.new) }
    ensures hand { Blames KdFault.Handshake (H.fault_count hand.old) result (H.fault_count hand.new) }
    ensures randoms { Blames KdFault.Random (R.fault_count randoms.old) result (R.fault_count randoms.new) }
    ensures kinds { IfErr result (λ e. is_of_stream e ≡ false) }
{
    let count = count_members(alloc, keeper)?;
    if count >= MOST_MEMBERS {
        return Ok(());
    }
    let granted = grant(alloc, profile, keeper, randoms)?;
    let keys = admit(alloc, profile, association, keeper, randoms)?;
    append_welcome(&keys, &granted, hand, out)
}

// How many members there are.
fn count_members<K: Keeper>(alloc: Global, keeper: &mut K) -> Result<usize, KdFault>
    ensures told { (l : Lists) → K.lists keeper.old ≡ Some l → IfOk result (λ n. n ≡ length l.members) }
    ensures kept { K.lists keeper.new ≡ K.lists keeper.old }
    ensures keeper { Blames KdFault.Keeper (K.fault_count keeper.old) result (K.fault_count keeper.new) }
    ensures kinds { IfErr result (λ e. IsTrue (is_of_keeping e)) }
{
    Ok(keeper.members(alloc)?.len())
}

// The numbers of these profiles.
fn numbers_of(alloc: Global, profiles: &ProfileList<'_>) -> Result<Vec<u16>, KdFault>
    ensures numbers { IfOk result (λ numbers. numbers.items ≡ told.numbers_of profiles.now) }
    ensures kinds { IfErr result (λ e. e ≡ KdFault.Memory) }
{
    let mut numbers = Vec::new(alloc);
    for i in 0..profiles.len() {
        if numbers.push(profiles.at(i)).is_err() {
            return Err(KdFault::Memory);
        }
    }
    Ok(numbers)
}
