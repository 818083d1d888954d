// The records of live SPIs, and the keys of sessions.
ghost use Rattle.std.specs.Prelude.{◌≡◌, ℕ, ◌+◌, ◌-◌, ◌<◌, ◌≤◌, ◌==◌, ◌⊎◌, slice_index, [], ◌∷◌, ◌++◌, length, drop, find, vec_len, vec_capacity};
ghost use Rattle.perc_kdf.specs.Derivation.{IsMaster, IsSession, session_keys};
ghost use Rattle.perc_receiver.specs.Table.{inner_keys, secret_in};

use perc_ekt::EktKeyRecord;
use perc_kdf::{Kind, Master};
use perc_srtp::Keys;

// How many SPIs are live at most.
pub(super) const LIVE_SPIS: usize = 4;

/// The keys that a master gives for packets of a kind.
pub(super) fn outer_session(master: &Master, kind: Kind) -> Keys
    ensures value { result ≡ session_keys master.now kind }
    ensures session { IsSession result }
{
    known(master);
    Keys::new(master, kind)
}

// A master is a key of 16 or 32 octets with a salt of 12.
fn known(master: &Master)
    ensures { IsMaster master.now }
{
    let _key = master.key();
    let _salt = known_salt(master.salt());
}

// The same 12 octets.
fn known_salt(salt: &[u8; 12]) -> &[u8]
    ensures same { result.now ≡ salt.now }
    ensures size { length salt.now ≡ 12 }
    ensures octets { (k : ℕ) → slice_index salt.now k < 256 }
{
    known_octets(salt)
}

/// The same octets, each of which is below 256.
pub(super) fn known_octets(octets: &[u8]) -> &[u8]
    ensures same { result.now ≡ octets.now }
    ensures octets { (k : ℕ) → slice_index octets.now k < 256 }
{
    octets
}

/// The keys of the inner transform for a key of 16 or 32 octets under a record (RFC 8870 section 4.1).
pub(super) fn inner_session(granted: &EktKeyRecord, key: &[u8]) -> Keys
    requires { (length key.now ≡ 16) ⊎ (length key.now ≡ 32) }
    ensures { result ≡ inner_keys (secret_in granted.now) key.now }
{
    let master = Master::new(key, &granted.salt).unwrap();
    Keys::new(&master, Kind::Srtp)
}

/// Appends a record, and lets the first go where there are as many as may be.
pub(super) fn keep_record(records: &mut Vec<EktKeyRecord>, granted: &EktKeyRecord)
    requires room { 4 ≤ vec_capacity records.old }
    requires few { vec_len records.old ≤ 4 }
    ensures items { records.new.items ≡ drop (length records.old.items + 1 - 4) records.old.items ++ granted.now ∷ [] }
    ensures few { vec_len records.new ≤ 4 }
    ensures capacity { vec_capacity records.old ≤ vec_capacity records.new }
{
    retire(records);
    append(records, granted);
}

// Lets the first record go, where there are as many as may be.
fn retire(records: &mut Vec<EktKeyRecord>)
    requires { vec_len records.old ≤ 4 }
    ensures left { records.new.items ≡ drop (length records.old.items + 1 - 4) records.old.items }
    ensures room { vec_len records.new < 4 }
    ensures capacity { vec_capacity records.old ≤ vec_capacity records.new }
{
    if records.len() == LIVE_SPIS {
        records.remove(0);
    }
}

// Appends a record, where there is room for it.
fn append(records: &mut Vec<EktKeyRecord>, granted: &EktKeyRecord)
    requires { vec_len records.old < vec_capacity records.old }
    ensures items { records.new.items ≡ records.old.items ++ granted.now ∷ [] }
    ensures capacity { vec_capacity records.old ≤ vec_capacity records.new }
{
    // With room at hand this takes no memory, so it can't fail.
    let Ok(()) = records.push(*granted) else {
        unreachable!()
    };
}

/// The record of an SPI.
pub(super) fn record_of(records: &[EktKeyRecord], spi: u16) -> Option<EktKeyRecord>
    ensures { result ≡ find (λ r. r.spi == spi) records.now }
{
    records.iter().copied().find(|record| record.spi == spi)
}
