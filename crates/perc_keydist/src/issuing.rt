// EKT keys: drawn and issued.
ghost use Rattle.std.specs.Prelude.{◌≡◌, ◌≢◌, ℕ, ◌+◌, ◌-◌, ◌<◌, nat_le, if◌then◌else◌, List, Some, Ok, Err, IfErr, IfOk, IfSome, IsTrue, OnOk, drop, length, replicate};
ghost use Rattle.perc_base.specs.Outside.{Fills};
ghost use Rattle.perc_base.specs.Profile.{key_length};
ghost use Rattle.perc_ekt.specs.Key.{stored};
ghost use Rattle.perc_ekt.specs.Record.{IsRecord};
ghost use Rattle.perc_kdf.specs.Derivation.{IsMasterLength};
ghost use Rattle.perc_keeper.specs.Lists.{Lists, newest};
ghost use Rattle.perc_keydist.specs.Calls.{FollowsTold, IsKept};
ghost use Rattle.perc_keydist.specs.Causes.{Blames, is_of_keys};
ghost use Rattle.perc_keydist.specs.Distributing as spec;
ghost use Rattle.perc_keydist.specs.Gives.{Draws, DrawsKey, DrawsSalt, Gives, IsDue, Keeps, members_told};

use crate::KdFault;
use perc_base::{Profile, Randoms};
use perc_ekt::EktKeyRecord;
use perc_kdf::Master;
use perc_keeper::Keeper;
use std::alloc::Global;

// How long an EKT key lives: a day, in seconds.
const LIFE: u32 = 86400;

// Draws the next EKT key, keeps it and answers its record.
pub fn issue<K: Keeper, R: Randoms>(
    alloc: Global,
    profile: Profile,
    keeper: &mut K,
    randoms: &mut R,
) -> Result<EktKeyRecord, KdFault>
    ensures told { (l : Lists) (rs : List ℕ) → K.lists keeper.old ≡ Some l → R.left randoms.old ≡ Some rs
        → Gives (spec.issue profile l rs) result (K.lists keeper.new) (R.left randoms.new) }
    ensures once { FollowsTold (K.lists keeper.old) (K.lists keeper.new) }
    ensures kept { IfOk result (IsKept (K.lists keeper.old) (K.lists keeper.new)) }
    ensures right { IfOk result IsRecord }
    ensures members { members_told (K.lists keeper.new) ≡ members_told (K.lists keeper.old) }
    ensures keeper { Blames KdFault.Keeper (K.fault_count keeper.old) result (K.fault_count keeper.new) }
    ensures randoms { Blames KdFault.Random (R.fault_count randoms.old) result (R.fault_count randoms.new) }
    ensures kinds { IfErr result (λ e. IsTrue (is_of_keys e)) }
{
    let spi = next_spi(alloc, keeper)?;
    let pair = draw_pair(profile, randoms)?;
    let record = record_of(profile, spi, &pair);
    keep_record(alloc, &record, keeper)?;
    Ok(record)
}

// The SPI that is due: 1, or the one above the highest.
fn next_spi<K: Keeper>(alloc: Global, keeper: &mut K) -> Result<u16, KdFault>
    ensures due { (l : Lists) → K.lists keeper.old ≡ Some l → IsDue l result }
    ensures kept { K.lists keeper.new ≡ K.lists keeper.old }
    ensures keeper { Blames KdFault.Keeper (K.fault_count keeper.old) result (K.fault_count keeper.new) }
    ensures kinds { IfErr result (λ e. IsTrue (is_of_keys e)) }
    ensures no_randoms { result ≢ Err KdFault.Random }
{
    match keeper.last(alloc)? {
        Some(newest) => spi_behind(newest.spi),
        None => Ok(1),
    }
}

// The SPI above this one.
fn spi_behind(spi: u16) -> Result<u16, KdFault>
    ensures { result ≡ (if nat_le 65535 spi then Err KdFault.SpiSpent else Ok (spi + 1)) }
{
    if spi == u16::MAX {
        return Err(KdFault::SpiSpent);
    }
    Ok(spi + 1)
}

// Draws a key of the profile's length, and then a salt.
pub fn draw_pair<R: Randoms>(profile: Profile, randoms: &mut R) -> Result<Master, KdFault>
    ensures told { (rs : List ℕ) → R.left randoms.old ≡ Some rs → Draws profile rs result (R.left randoms.new) }
    ensures size { IfOk result (λ pair. length pair.key ≡ key_length profile) }
    ensures randoms { Blames KdFault.Random (R.fault_count randoms.old) result (R.fault_count randoms.new) }
    ensures kinds { IfErr result (λ e. e ≡ KdFault.Random) }
{
    let key = draw_key(profile, randoms)?;
    let salt = draw_salt(randoms)?;
    Ok(pair_of(&key[..profile.key_len()], &salt))
}

// Draws a key of the profile's length, which stands in front.
fn draw_key<R: Randoms>(profile: Profile, randoms: &mut R) -> Result<[u8; 32], KdFault>
    ensures told { (rs : List ℕ) → R.left randoms.old ≡ Some rs → DrawsKey (key_length profile) rs result (R.left randoms.new) }
    ensures size { IfOk result (λ key. length key ≡ 32) }
    ensures randoms { Blames KdFault.Random (R.fault_count randoms.old) result (R.fault_count randoms.new) }
    ensures kinds { IfErr result (λ e. e ≡ KdFault.Random) }
{
    let mut key = [0; 32];
    fill(&mut key[..profile.key_len()], randoms)?;
    Ok(key)
}

// Draws a salt.
fn draw_salt<R: Randoms>(randoms: &mut R) -> Result<[u8; 12], KdFault>
    ensures told { (rs : List ℕ) → R.left randoms.old ≡ Some rs → DrawsSalt rs result (R.left randoms.new) }
    ensures randoms { Blames KdFault.Random (R.fault_count randoms.old) result (R.fault_count randoms.new) }
    ensures kinds { IfErr result (λ e. e ≡ KdFault.Random) }
{
    let mut salt = [0; 12];
    fill(&mut salt, randoms)?;
    Ok(salt)
}

fn pair_of(key: &[u8], salt: &[u8; 12]) -> Master
    requires { IsMasterLength (length key.now) }
    ensures { result ≡ record { key = key.now; salt = salt.now } }
{
    Master::new(key, salt).unwrap()
}

fn fill<R: Randoms>(into: &mut [u8], randoms: &mut R) -> Result<(), KdFault>
    ensures octets { OnOk result (Fills (R.left randoms.old) (R.left randoms.new) into.old into.new) }
    ensures randoms { Blames KdFault.Random (R.fault_count randoms.old) result (R.fault_count randoms.new) }
    ensures kinds { IfErr result (λ e. e ≡ KdFault.Random) }
{
    match randoms.fill(into) {
        Ok(()) => Ok(()),
        Err(_) => Err(KdFault::Random),
    }
}

// The record of a drawn key.
fn record_of(profile: Profile, spi: u16, pair: &Master) -> EktKeyRecord
    requires { length pair.now.key ≡ key_length profile }
    ensures right { IsRecord result }
    ensures key { result.key ≡ stored pair.now.key }
    ensures len { result.len ≡ key_length profile }
    ensures salt { result.salt ≡ pair.now.salt }
    ensures spi { result.spi ≡ spi }
    ensures life { result.life ≡ 86400 }
{
    record_with(profile, spi, &stored_key(profile, pair), pair.salt())
}

fn record_with(profile: Profile, spi: u16, key: &[u8; 32], salt: &[u8; 12]) -> EktKeyRecord
    requires { drop (key_length profile) key.now ≡ replicate (32 - key_length profile) 0 }
    ensures right { IsRecord result }
    ensures key { result.key ≡ key.now }
    ensures len { result.len ≡ key_length profile }
    ensures salt { result.salt ≡ salt.now }
    ensures spi { result.spi ≡ spi }
    ensures life { result.life ≡ 86400 }
{
    EktKeyRecord {
        key: *key,
        len: profile.key_len(),
        salt: *salt,
        spi,
        life: LIFE,
    }
}

// The key of a pair, with zeros behind it.
fn stored_key(profile: Profile, pair: &Master) -> [u8; 32]
    requires { length pair.now.key ≡ key_length profile }
    ensures { result ≡ stored pair.now.key }
{
    let mut key = [0; 32];
    key[..profile.key_len()].copy_from_slice(pair.key());
    key
}

// Keeps a record whose key is new.
#[tactic(auto, using(crate::proofs::IssuingLaws::members_issued))]
fn keep_record<K: Keeper>(
    alloc: Global,
    record: &EktKeyRecord,
    keeper: &mut K,
) -> Result<(), KdFault>
    requires right { IsRecord record.now }
    requires above { (l : Lists) → K.lists keeper.old ≡ Some l → IfSome (newest l.issued) (λ s. s.spi < record.now.spi) }
    ensures told { (l : Lists) → K.lists keeper.old ≡ Some l → Keeps l record.now result (K.lists keeper.new) }
    ensures members { members_told (K.lists keeper.new) ≡ members_told (K.lists keeper.old) }
    ensures keeper { Blames KdFault.Keeper (K.fault_count keeper.old) result (K.fault_count keeper.new) }
    ensures kinds { IfErr result (λ e. IsTrue (is_of_keys e)) }
    ensures no_randoms { result ≢ Err KdFault.Random }
{
    if keeper.spi_of(alloc, &record.key[..record.len])?.is_some() {
        return Err(KdFault::KeyRepeated);
    }
    keeper.issue(alloc, record)?;
    Ok(())
}
