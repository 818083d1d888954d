// Keys, salts and pairs, as the words of a line spell them.
ghost use Rattle.std.specs.Prelude.{◌≡◌, ◌⊎◌, length};
ghost use Rattle.perc_ekt.specs.Key.{stored};
ghost use Rattle.perc_run.specs.Joining.{pair_of};

use perc_kdf::Master;
use perc_word::Octets;
use std::marker::Model;

// How many octets a salt has.
const SALT: usize = 12;

/// An EKT key or an SRTP master key, of 16 or 32 octets. Its value is its octets.
#[derive(Clone, Copy)]
pub struct Key {
    /// The key, and zeros behind a key of 16 octets.
    octets: [u8; 32],
    /// How many octets it has.
    len: usize,
}

impl Model for Key {
    ghost use Rattle.std.specs.Prelude.{ℕ, ◌-◌, ◌++◌, List, length, replicate, take};
    ghost use Rattle.perc_kdf.specs.Stored.{IsStoredKey};

    ghost Value = { List ℕ };

    ghost view = { λ k. take k.len k.octets };

    ghost invariant = { λ k. IsStoredKey k.octets k.len };

    ghost inverse = { λ v. record { octets = v ++ replicate (32 - length v) 0; len = length v } };

    ghost inverse_ok = { λ k stored i. record { octets = stored.zeros i; len = stored.size i } };
}

impl Key {
    /// The key that a word spells, of 16 or 32 octets.
    pub fn of(word: &Octets<'_>) -> Key
        requires { (length word.now ≡ 16) ⊎ (length word.now ≡ 32) }
        ensures { result ≡ word.now }
    {
        let len = word.len();
        let mut octets = [0; 32];
        word.write(&mut octets[..len]);
        Key { octets, len }
    }

    /// Its octets, 16 or 32.
    pub fn octets(&self) -> &[u8]
        ensures value { result.now ≡ self.now }
        ensures length { (length self.now ≡ 16) ⊎ (length self.now ≡ 32) }
    {
        &self.octets[..self.len]
    }

    /// Its octets, and zeros behind a key of 16; and how many it has, 16 or 32.
    pub fn padded(&self) -> (&[u8; 32], usize)
        ensures octets { result.0.now ≡ stored self.now }
        ensures length { result.1 ≡ length self.now }
        ensures size { (length self.now ≡ 16) ⊎ (length self.now ≡ 32) }
    {
        (&self.octets, self.len)
    }
}

/// The salt that a word spells.
pub fn salt_of(word: &Octets<'_>) -> [u8; 12]
    requires { length word.now ≡ 12 }
    ensures { result ≡ word.now }
{
    let mut salt = [0; SALT];
    word.write(&mut salt);
    salt
}

/// The key and the salt behind it that a word spells, of 28 or 44 octets.
pub fn pair_in(word: &Octets<'_>) -> Master
    requires { (length word.now ≡ 28) ⊎ (length word.now ≡ 44) }
    ensures { result ≡ pair_of word.now }
{
    let mut octets = [0; 44];
    let end = word.len();
    word.write(&mut octets[..end]);
    let key = end - SALT;
    let mut salt = [0; SALT];
    salt.copy_from_slice(&octets[key..end]);
    Master::new(&octets[..key], &salt).unwrap()
}
