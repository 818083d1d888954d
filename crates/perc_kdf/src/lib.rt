//! Key derivation of SRTP (RFC 3711 section 4.3, RFC 6188, RFC 7714 section 11), with a derivation rate of 0: the keys
//! of a session from a master key and a master salt.
#![tactic(auto)]

ghost use Rattle.std.specs.Prelude.{◌≡◌, ◌↔◌, ℕ, ◌-◌, ◌<◌, ◌≤◌, IsTrue, length, replicate, take, drop, slice_index, SomeIff};
ghost use Rattle.std.specs.Cmp.{partial_order_from_own_ties};
ghost use Rattle.std.specs.Cmp.Rules.{comparing};
ghost use Rattle.std.specs.Ordering.{as_partial_cmp};
ghost use Rattle.std.proofs.Common.{rules};
ghost use Rattle.perc_aes.specs.Cipher.{IsKey, aes};
ghost use Rattle.perc_kdf.specs.Derivation.{IsMasterLength, IsSession, counter_block, derived, padded, session_keys};
ghost use Rattle.perc_kdf.specs.Order.{pair_cmp, same_pair};

pub mod laws;

use perc_aes::AesKey;
use std::cmp::Ordering;
use std::marker::Model;

/// A master key of 16 or 32 octets with its salt of 12 octets. Its value is the key's octets and the salt's.
#[derive(Clone, Copy)]
pub struct Master {
    /// The key, and zeros behind a key of 16 octets.
    key: [u8; 32],
    /// How many octets the key has.
    len: usize,
    salt: [u8; 12],
}

impl Model for Master {
    ghost use Rattle.std.specs.Prelude.{◌-◌, ◌++◌, length, replicate, take};
    ghost use Rattle.perc_kdf.specs.Derivation.{KeyAndSalt};
    ghost use Rattle.perc_kdf.specs.Stored.{IsStoredKey};

    ghost Value = { KeyAndSalt };

    ghost view = { λ m. record { key = take m.len m.key; salt = m.salt } };

    ghost invariant = { λ m. IsStoredKey m.key m.len };

    ghost inverse = { λ v. record { key = v.key ++ replicate (32 - length v.key) 0; len = length v.key; salt = v.salt } };

    ghost inverse_ok = { λ m stored i. record { key = stored.zeros i; len = stored.size i; salt = m.salt } };
}

impl PartialEq for Master {
    ghost eq = { same_pair };

    ghost laws = { Prim.search (comparing, rules) };

    /// Equality of what contracts see.
    fn eq(&self, other: &Master) -> bool
        ensures value { result ≡ same_pair self.now other.now }
        ensures same { IsTrue result ↔ (self.now ≡ other.now) }
    {
        self.key() == other.key() && self.salt == other.salt
    }
}

impl Eq for Master {
    ghost laws = { Prim.search (comparing, rules) };
}

impl PartialOrd for Master {
    ghost partial_cmp = { as_partial_cmp pair_cmp };

    ghost laws = { partial_order_from_own_ties (Prim.search (comparing, rules)) (Prim.search (comparing, rules)) };

    fn partial_cmp(&self, other: &Master) -> Option<Ordering> {
        Some(self.cmp(other))
    }
}

/// By the keys' octets, and where those are equal by the salts'.
impl Ord for Master {
    ghost cmp = { pair_cmp };

    ghost total = { Prim.search (comparing, rules) };

    ghost matches_partial_cmp = { Prim.search (comparing, rules) };

    ghost matches_eq = { Prim.search (comparing, rules) };

    fn cmp(&self, other: &Master) -> Ordering {
        self.key().cmp(other.key()).then(self.salt.cmp(&other.salt))
    }
}

impl Master {
    /// None exactly where the key has neither 16 nor 32 octets.
    pub fn new(key: &[u8], salt: &[u8; 12]) -> Option<Master>
        ensures { SomeIff result (IsMasterLength (length key.now)) (record { key = key.now; salt = salt.now }) }
    {
        if !matches!(key.len(), 16 | 32) {
            return None;
        }
        let mut octets = [0; 32];
        octets[..key.len()].copy_from_slice(key);
        Some(Master {
            key: octets,
            len: key.len(),
            salt: *salt,
        })
    }

    /// The key that it was made of.
    pub fn key(&self) -> &[u8]
        ensures value { result.now ≡ self.now.key }
        ensures length { IsMasterLength (length self.now.key) }
        ensures octets { (k : ℕ) → slice_index self.now.key k < 256 }
    {
        known(&self.key[..self.len])
    }

    /// The salt that it was made of.
    pub fn salt(&self) -> &[u8; 12]
        ensures { result.now ≡ self.now.salt }
    {
        &self.salt
    }
}

// The same octets, each of which is below 256.
fn known(octets: &[u8]) -> &[u8]
    ensures same { result.now ≡ octets.now }
    ensures octets { (k : ℕ) → slice_index octets.now k < 256 }
{
    octets
}

/// Fills out with the first octets, at most 64, of the stream of a label: block i of it is what the cipher makes of the
/// salt, with the label added to its octet 7, and of i in two octets (RFC 3711 sections 4.1.1 and 4.3.3).
pub fn derive(key: &AesKey, salt: &[u8; 14], label: u8, out: &mut [u8])
    requires { length out.old ≤ 64 }
    ensures value { out.new ≡ derived key.now salt.now label (length out.old) }
    ensures key { IsKey key.now }
{
    let mut block = stream_block(key, salt, label, 0);
    for (k, octet) in out.iter_mut().enumerate() {
        if k % 16 == 0 && k > 0 {
            block = stream_block(key, salt, label, (k / 16) as u8);
        }
        *octet = block[k % 16];
    }
}

// A block of the stream.
fn stream_block(key: &AesKey, salt: &[u8; 14], label: u8, number: u8) -> [u8; 16]
    ensures value { result ≡ aes key.now (counter_block salt.now label number) }
    ensures key { IsKey key.now }
{
    let mut block = [0; 16];
    block[..14].copy_from_slice(salt);
    block[7] ^= label;
    block[15] = number;
    key.encrypt_block(&mut block);
    block
}

/// Which packets a session's keys are for.
#[derive(Clone, Copy, PartialEq, Eq)]
pub enum Kind {
    Srtp,
    Srtcp,
}

/// The keys of a session: the cipher key is the first len octets of key, zeros follow.
#[derive(Clone, Copy, PartialEq, Eq)]
pub struct SessionKeys {
    pub key: [u8; 32],
    pub len: usize,
    pub salt: [u8; 12],
}

/// The keys of a session: a cipher key as long as the master key, by label 0 for SRTP and 3 for SRTCP, and a salt of 12
/// octets, by label 2 for SRTP and 5 for SRTCP. The master salt is padded on the right with two zero octets.
pub fn session(master: &Master, kind: Kind) -> SessionKeys
    ensures key { take result.len result.key ≡ (session_keys master.now kind).key }
    ensures zeros { drop result.len result.key ≡ replicate (32 - result.len) 0 }
    ensures len { result.len ≡ length master.now.key }
    ensures length { IsMasterLength result.len }
    ensures salt { result.salt ≡ (session_keys master.now kind).salt }
    ensures session { IsSession (session_keys master.now kind) }
{
    let cipher = AesKey::new(master.key()).unwrap();
    let mut padded = [0; 14];
    padded[..12].copy_from_slice(known(master.salt()));
    let (key_label, salt_label) = match kind {
        Kind::Srtp => (0, 2),
        Kind::Srtcp => (3, 5),
    };
    let len = master.key().len();
    let mut key = [0; 32];
    derive(&cipher, &padded, key_label, &mut key[..len]);
    let mut salt = [0; 12];
    derive(&cipher, &padded, salt_label, &mut salt);
    SessionKeys { key, len, salt }
}
