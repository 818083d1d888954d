// Keys wrapped and unwrapped.
ghost use Rattle.std.specs.Prelude.{◌≡◌, ◌+◌, ◌<◌, ◌≤◌, ◌⊎◌, ◌++◌, length, drop, take, IfOk, IfSome, OnOk, MatchOption, MatchResult};
ghost use Rattle.byteorder.specs.Endian.{big_bytes};
ghost use Rattle.perc_aes.specs.Cipher.{IsKey};
ghost use Rattle.perc_base.specs.Profile.{key_length};
ghost use Rattle.perc_keywrap.specs.Wrap.{IsWrapped, wrapped};
ghost use Rattle.perc_ekt.specs.Key.{IsUnwrapped, key_in, opened_key, plain_text, stored, unwrapped_as};

use crate::numbers::u32_at;
use byteorder::{BigEndian, ByteOrder};
use perc_aes::AesKey;
use perc_base::Profile;
use perc_keywrap::{unwrap, wrap};

/// A sender's key, unwrapped.
#[derive(Clone, Copy, PartialEq, Eq)]
pub struct Wrapped {
    /// The key, and zeros behind a key of 16 octets.
    pub key: [u8; 32],
    /// How many octets the key has, 16 or 32.
    pub len: usize,
    /// The sender's SSRC.
    pub ssrc: u32,
    /// The roll-over counter of the packet that carried the key.
    pub roc: u32,
}

/// Why a wrapped key isn't taken.
#[derive(Clone, Copy, Debug, PartialEq, Eq)]
pub enum KeyFault {
    /// No plain text is wrapped to these octets under the EKT key.
    Unwrap,
    /// The plain text isn't one with a key of the profile's length.
    Plain,
}

/// Wraps a key of 16 or 32 octets with its sender's SSRC and roll-over counter under an EKT key (RFC 8870 section 4.1), and
/// answers the length of what it writes to the front of `out`: 40 or 56. What stands behind it stays.
pub fn wrap_key(ekt: &AesKey, key: &[u8], ssrc: u32, roc: u32, out: &mut [u8; 56]) -> usize
    requires { (length key.now ≡ 16) ⊎ (length key.now ≡ 32) }
    ensures len { result ≡ length key.now + 24 }
    ensures value { out.new ≡ wrapped ekt.now (plain_text key.now ssrc roc) ++ drop result out.old }
    ensures wrapped { IsWrapped ekt.now (plain_text key.now ssrc roc) (take result out.new) }
    ensures key { IsKey ekt.now }
{
    let mut plain = [0; 41];
    write_plain(key, ssrc, roc, &mut plain);
    let len = key.len() + 9;
    wrap(ekt, &plain[..len], out).unwrap()
}

// Writes the plain text of a key to the front of `out`.
fn write_plain(key: &[u8], ssrc: u32, roc: u32, out: &mut [u8])
    requires few { length key.now < 256 }
    requires room { length key.now + 9 ≤ length out.old }
    ensures { out.new ≡ plain_text key.now ssrc roc ++ drop (length key.now + 9) out.old }
{
    let end = key.len() + 1;
    out[0] = key.len() as u8;
    write_octets(key, &mut out[1..]);
    write_numbers(ssrc, roc, &mut out[end..]);
}

// Writes octets as they are.
fn write_octets(octets: &[u8], out: &mut [u8])
    requires { length octets.now ≤ length out.old }
    ensures { out.new ≡ octets.now ++ drop (length octets.now) out.old }
{
    out[..octets.len()].copy_from_slice(octets);
}

// Writes the SSRC and the roll-over counter.
fn write_numbers(ssrc: u32, roc: u32, out: &mut [u8])
    requires { 8 ≤ length out.old }
    ensures { out.new ≡ (big_bytes 4 ssrc ++ big_bytes 4 roc) ++ drop 8 out.old }
{
    BigEndian::write_u32(out, ssrc);
    BigEndian::write_u32(&mut out[4..], roc);
}

/// Unwraps a key of the profile's length under an EKT key (RFC 8870 section 4.3). What `cipher` holds then is not specified.
pub fn unwrap_key(ekt: &AesKey, profile: Profile, cipher: &mut [u8]) -> Result<Wrapped, KeyFault>
    ensures answer { MatchResult (opened_key ekt.now (key_length profile) cipher.old)
        (λ k. result ≡ Ok (unwrapped_as k.key k.ssrc k.roc))
        (λ fault. result ≡ Err fault) }
    ensures fits { IfOk result (λ w. IsUnwrapped (key_length profile) w) }
    ensures key { OnOk result (IsKey ekt.now) }
{
    let Ok(len) = unwrap(ekt, cipher) else {
        return Err(KeyFault::Unwrap);
    };
    match read_plain(&cipher[..len], profile.key_len()) {
        Some(wrapped) => Ok(wrapped),
        None => Err(KeyFault::Plain),
    }
}

// What a plain text says, where it is one with a key of this length.
fn read_plain(plain: &[u8], len: usize) -> Option<Wrapped>
    requires { len ≤ 32 }
    ensures answer { MatchOption (key_in len plain.now) (result ≡ None) (λ k. result ≡ Some (unwrapped_as k.key k.ssrc k.roc)) }
    ensures fits { IfSome result (λ w. IsUnwrapped len w) }
{
    if plain.len() != len + 9 || usize::from(plain[0]) != len {
        return None;
    }
    let end = len + 1;
    Some(Wrapped {
        key: stored(&plain[1..end]),
        len,
        ssrc: u32_at(plain, end),
        roc: u32_at(plain, end + 4),
    })
}

// A key in room for the longer one.
pub(crate) fn stored(key: &[u8]) -> [u8; 32]
    requires { length key.now ≤ 32 }
    ensures { result ≡ stored key.now }
{
    let mut room = [0; 32];
    room[..key.len()].copy_from_slice(key);
    room
}
