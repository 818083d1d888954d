// New members: what they are granted, and their outer keys.
ghost use Rattle.std.specs.Prelude.{◌≡◌, ◌≢◌, ℕ, ◌||◌, false, List, Some, Ok, Err, IfErr, IfOk, IsTrue};
ghost use Rattle.perc_ekt.specs.Record.{IsRecord};
ghost use Rattle.perc_keeper.specs.Lists.{HasKeys, Lists, is_member};
ghost use Rattle.perc_keydist.specs.Calls.{FollowsTold, IsKept};
ghost use Rattle.perc_keydist.specs.Causes.{Blames, is_of_keys};
ghost use Rattle.perc_keydist.specs.Distributing as spec;
ghost use Rattle.perc_keydist.specs.Gives.{Admits, DrawsKeys, Gives, TellsRepeats, members_told};

use crate::KdFault;
use crate::issuing::{draw_pair, issue};
use perc_base::{Profile, Randoms};
use perc_ekt::EktKeyRecord;
use perc_keeper::Keeper;
use perc_tunnel::MediaKeys;
use std::alloc::Global;

// The record that a new member is granted: the newest, if its key has the profile's length, or else the next.
pub fn grant<K: Keeper, R: Randoms>(
    alloc: Global,
    profile: Profile,
    keeper: &mut K,
    randoms: &mut R,
) -> Result<EktKeyRecord, KdFault>
    ensures told { (l : Lists) (rs : List ℕ) → K.lists keeper.old ≡ Some l → R.left randoms.old ≡ Some rs
        → Gives (spec.grant profile l rs) result (K.lists keeper.new) (R.left randoms.new) }
    ensures once { FollowsTold (K.lists keeper.old) (K.lists keeper.new) }
    ensures kept { IfOk result (IsKept (K.lists keeper.old) (K.lists keeper.new)) }
    ensures right { IfOk result IsRecord }
    ensures members { members_told (K.lists keeper.new) ≡ members_told (K.lists keeper.old) }
    ensures keeper { Blames KdFault.Keeper (K.fault_count keeper.old) result (K.fault_count keeper.new) }
    ensures randoms { Blames KdFault.Random (R.fault_count randoms.old) result (R.fault_count randoms.new) }
    ensures kinds { IfErr result (λ e. IsTrue (is_of_keys e)) }
{
    if let Some(newest) = keeper.last(alloc)? {
        if newest.len == profile.key_len() {
            return Ok(newest);
        }
    }
    issue(alloc, profile, keeper, randoms)
}

// Draws the outer keys of a new member, and keeps it.
pub fn admit<K: Keeper, R: Randoms>(
    alloc: Global,
    profile: Profile,
    association: &[u8; 16],
    keeper: &mut K,
    randoms: &mut R,
) -> Result<MediaKeys, KdFault>
    requires { (l : Lists) → K.lists keeper.old ≡ Some l → is_member l.members association.now ≡ false }
    ensures told { (l : Lists) (rs : List ℕ) → K.lists keeper.old ≡ Some l → R.left randoms.old ≡ Some rs
        → Gives (spec.admitting l (spec.drawn_keys profile association.now rs) (spec.behind_keys profile rs)) result
        (K.lists keeper.new) (R.left randoms.new) }
    ensures once { FollowsTold (K.lists keeper.old) (K.lists keeper.new) }
    ensures right { IfOk result HasKeys }
    ensures keeper { Blames KdFault.Keeper (K.fault_count keeper.old) result (K.fault_count keeper.new) }
    ensures randoms { Blames KdFault.Random (R.fault_count randoms.old) result (R.fault_count randoms.new) }
    ensures kinds { IfErr result (λ e. IsTrue (is_of_keys e)) }
{
    let keys = draw_keys(profile, association, randoms)?;
    keep_member(alloc, &keys, keeper)?;
    Ok(keys)
}

// Draws outer keys: the client's pair, and then the server's.
fn draw_keys<R: Randoms>(
    profile: Profile,
    association: &[u8; 16],
    randoms: &mut R,
) -> Result<MediaKeys, KdFault>
    ensures told { (rs : List ℕ) → R.left randoms.old ≡ Some rs → DrawsKeys profile association.now rs result (R.left randoms.new) }
    ensures right { IfOk result HasKeys }
    ensures association { IfOk result (λ keys. keys.association ≡ association.now) }
    ensures randoms { Blames KdFault.Random (R.fault_count randoms.old) result (R.fault_count randoms.new) }
    ensures kinds { IfErr result (λ e. e ≡ KdFault.Random) }
{
    let client = draw_pair(profile, randoms)?;
    let server = draw_pair(profile, randoms)?;
    Ok(MediaKeys {
        association: *association,
        profile,
        client,
        server,
    })
}

// Keeps a stranger as a member, whose keys don't repeat.
fn keep_member<K: Keeper>(alloc: Global, keys: &MediaKeys, keeper: &mut K) -> Result<(), KdFault>
    requires right { HasKeys keys.now }
    requires stranger { (l : Lists) → K.lists keeper.old ≡ Some l → is_member l.members keys.now.association ≡ false }
    ensures told { (l : Lists) → K.lists keeper.old ≡ Some l → Admits l keys.now result (K.lists keeper.new) }
    ensures keeper { Blames KdFault.Keeper (K.fault_count keeper.old) result (K.fault_count keeper.new) }
    ensures kinds { IfErr result (λ e. IsTrue (is_of_keys e)) }
    ensures no_randoms { result ≢ Err KdFault.Random }
{
    if has_repeats(alloc, keys, keeper)? {
        return Err(KdFault::KeyRepeated);
    }
    keeper.join(alloc, keys)?;
    Ok(())
}

// Whether the two pairs are one, or one of them was ever given.
fn has_repeats<K: Keeper>(alloc: Global, keys: &MediaKeys, keeper: &mut K) -> Result<bool, KdFault>
    ensures told { (l : Lists) → K.lists keeper.old ≡ Some l → TellsRepeats keys.now l result }
    ensures kept { K.lists keeper.new ≡ K.lists keeper.old }
    ensures keeper { Blames KdFault.Keeper (K.fault_count keeper.old) result (K.fault_count keeper.new) }
    ensures kinds { IfErr result (λ e. IsTrue (is_of_keys e)) }
    ensures no_randoms { result ≢ Err KdFault.Random }
{
    if keys.client == keys.server {
        return Ok(true);
    }
    let client = keeper.pair_used(alloc, &keys.client)?;
    let server = keeper.pair_used(alloc, &keys.server)?;
    Ok(client || server)
}
