// The parts of a whole message, read from its octets.
ghost use Rattle.std.specs.Prelude.{◌≡◌, ◌+◌, ◌*◌, ◌≤◌, length, take, drop};
ghost use Rattle.perc_base.specs.Profile.{key_length};
ghost use Rattle.perc_tunnel.specs.Told.{keys_message};
ghost use Rattle.perc_tunnel.specs.Forms.{message_at};
ghost use Rattle.perc_tunnel.specs.declared.forms.Form.TheVariants as form;

use crate::MediaKeys;
use perc_base::Profile;
use perc_kdf::Master;

// The keys of this profile.
pub(crate) fn keys_of(profile: Profile, octets: &[u8]) -> MediaKeys
    requires { length octets.now ≡ 50 + 2 * key_length profile }
    ensures { keys_message result ≡ message_at (form.Keys profile) octets.now }
{
    let key_len = profile.key_len();
    MediaKeys {
        association: association_of(octets),
        profile,
        client: half_at(profile, octets, 23, 25 + 2 * key_len),
        server: half_at(profile, octets, 24 + key_len, 38 + 2 * key_len),
    }
}

// The key of the profile's length at one offset, with the salt at another.
fn half_at(profile: Profile, octets: &[u8], key_offset: usize, salt_offset: usize) -> Master
    requires key { key_offset + key_length profile ≤ length octets.now }
    requires salt { salt_offset + 12 ≤ length octets.now }
    ensures { result ≡ record { key = take (key_length profile) (drop key_offset octets.now); salt = take 12 (drop salt_offset octets.now) } }
{
    let key = part(octets, key_offset, profile.key_len());
    Master::new(key, &salt_at(octets, salt_offset)).unwrap()
}

// The association's name, which stands behind the length.
pub(crate) fn association_of(octets: &[u8]) -> [u8; 16]
    requires { 19 ≤ length octets.now }
    ensures { result ≡ take 16 (drop 3 octets.now) }
{
    let mut association = [0; 16];
    association.copy_from_slice(&octets[3..19]);
    association
}

// The salt at this offset.
fn salt_at(octets: &[u8], offset: usize) -> [u8; 12]
    requires { offset + 12 ≤ length octets.now }
    ensures { result ≡ take 12 (drop offset octets.now) }
{
    let mut salt = [0; 12];
    salt.copy_from_slice(part(octets, offset, 12));
    salt
}

// The octets from this offset, `len` of them.
fn part(octets: &[u8], offset: usize, len: usize) -> &[u8]
    requires { offset + len ≤ length octets.now }
    ensures { result.now ≡ take len (drop offset octets.now) }
{
    &octets[offset..offset + len]
}
