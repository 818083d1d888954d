// The session keys of a pair.
ghost use Rattle.std.specs.Prelude.{◌≡◌, ℕ, ◌<◌, length, slice_index};
ghost use Rattle.perc_kdf.specs.Derivation.{IsMaster, IsSession, session_keys};

use perc_kdf::{Kind, Master};
use perc_srtp::Keys;
use std::marker::Model;

/// The session keys of a pair, made once and kept. Its value is the pair.
#[derive(Drop)]
pub(crate) struct Session {
    master: Master,
    srtp: Keys,
    srtcp: Keys,
}

impl Model for Session {
    ghost use Rattle.perc_kdf.specs.Derivation.{KeyAndSalt};
    ghost use Rattle.perc_distributor.specs.Rooms.{AreKeysOf};

    ghost Value = { KeyAndSalt };

    ghost view = { λ s. s.master };

    ghost invariant = { λ s. AreKeysOf s.master s.srtp s.srtcp };
}

impl Session {
    pub(crate) fn new(master: &Master) -> Session
        ensures { result ≡ master.now }
    {
        Session {
            master: *master,
            srtp: media_keys(master),
            srtcp: Keys::new(master, Kind::Srtcp),
        }
    }

    /// Makes it that of a pair. Where it is already, nothing is derived again.
    pub(crate) fn renew(&mut self, master: &Master)
        ensures { self.new ≡ master.now }
    {
        if self.master != *master {
            *self = Session::new(master);
        }
    }

    /// The keys of media packets.
    pub(crate) fn srtp(&self) -> &Keys
        ensures keys { result.now ≡ session_keys self.now Kind.Srtp }
        ensures session { IsSession result.now }
    {
        &self.srtp
    }

    /// The keys of control packets.
    pub(crate) fn srtcp(&self) -> &Keys
        ensures { result.now ≡ session_keys self.now Kind.Srtcp }
    {
        &self.srtcp
    }
}

// The keys that a master gives for media packets.
fn media_keys(master: &Master) -> Keys
    ensures value { result ≡ session_keys master.now Kind.Srtp }
    ensures session { IsSession result }
{
    known(master);
    Keys::new(master, Kind::Srtp)
}

// A master has a key of 16 or 32 octets, and a salt of 12.
fn known(master: &Master)
    ensures { IsMaster master.now }
{
    let _key = master.key();
    let _salt = known_salt(master.salt());
}

// The same 12 octets.
fn known_salt(salt: &[u8; 12]) -> &[u8]
    ensures same { result.now ≡ salt.now }
    ensures size { length salt.now ≡ 12 }
    ensures octets { (k : ℕ) → slice_index salt.now k < 256 }
{
    known_octets(salt)
}

/// The same octets, each of which is below 256.
pub(crate) fn known_octets(octets: &[u8]) -> &[u8]
    ensures same { result.now ≡ octets.now }
    ensures octets { (k : ℕ) → slice_index octets.now k < 256 }
{
    octets
}
