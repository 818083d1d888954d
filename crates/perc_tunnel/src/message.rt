// Messages.
ghost use Rattle.std.specs.Prelude.{◌≡◌, ◌≢◌, ◌*◌, ◌%◌, ◌^◌, ◌<◌, length, slice_index, MatchOption};
ghost use Rattle.std.specs.List.{flat_map, All};
ghost use Rattle.byteorder.specs.Endian.{big_bytes};
ghost use Rattle.perc_octets.specs.Octets.{AreOctets};
ghost use Rattle.perc_tunnel.specs.Numbers.{numbers_in};

use byteorder::{BigEndian, ByteOrder};
use perc_base::Profile;
use perc_kdf::Master;

/// A list of profiles' numbers, in the octets that spell them, two for each.
#[derive(Clone, Copy)]
pub struct ProfileList<'a> {
    octets: &'a [u8],
    ghost whole: { length octets.now % 2 ≡ 0 },
}

impl<'a> ProfileList<'a> {
    ghost use Rattle.perc_tunnel.specs.Told.{numbers_of};

    /// The list that these octets spell, two octets for each number, the high one first. None exactly where their count
    /// is odd.
    pub fn new(octets: &'a [u8]) -> Option<ProfileList<'a>>
        ensures { MatchOption result (length octets.now % 2 ≢ 0) (λ list. (length octets.now % 2 ≡ 0) × (numbers_of list ≡ numbers_in octets.now)) }
    {
        if octets.len() % 2 == 0 {
            Some(ProfileList { octets })
        } else {
            None
        }
    }

    /// The octets that spell the list.
    pub(crate) fn octets(&self) -> &[u8]
        ensures value { result.now ≡ flat_map (big_bytes 2) (numbers_of self.now) }
        ensures numbers { All (λ p. p < 2 ^ 16) (numbers_of self.now) }
        ensures length { length result.now ≡ 2 * length (numbers_of self.now) }
    {
        known(self.octets)
    }

    /// How many numbers there are.
    pub fn len(&self) -> usize
        ensures { result ≡ length (numbers_of self.now) }
    {
        self.octets.len() / 2
    }

    /// Number `i`, from 0.
    pub fn at(&self, i: usize) -> u16
        requires { i < length (numbers_of self.now) }
        ensures { result ≡ slice_index (numbers_of self.now) i }
    {
        BigEndian::read_u16(&self.octets[2 * i..])
    }
}

// The same octets, each of which is below 256.
fn known(octets: &[u8]) -> &[u8]
    ensures same { result.now ≡ octets.now }
    ensures octets { AreOctets octets.now }
{
    octets
}

/// The outer keys of an association: those of what its endpoint sends, and of what it receives.
#[derive(Clone, Copy)]
pub struct MediaKeys {
    /// The association's name.
    pub association: [u8; 16],
    /// The profile, whose length both keys have.
    pub profile: Profile,
    /// The client's key and salt.
    pub client: Master,
    /// The server's key and salt.
    pub server: Master,
}

/// A message between a media distributor and a key distributor.
#[derive(Clone, Copy)]
pub enum Message<'a> {
    /// The profiles that the distributor knows, 1 to 32766 of them.
    SupportedProfiles {
        /// The version of the protocol.
        version: u8,
        /// The profiles' numbers.
        profiles: ProfileList<'a>,
    },
    /// The version offered isn't known.
    UnsupportedVersion {
        /// The highest version that is.
        highest: u8,
    },
    /// The outer keys of an association.
    MediaKeys(&'a MediaKeys),
    /// A DTLS record of an association.
    TunneledDtls {
        /// The association's name.
        association: [u8; 16],
        /// The record, 1 to 65517 octets.
        octets: &'a [u8],
    },
    /// An association has ended.
    EndpointDisconnect {
        /// The association's name.
        association: [u8; 16],
    },
}
