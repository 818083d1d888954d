// Records of EKT keys.
ghost use Rattle.std.specs.Prelude.{◌≡◌, ◌+◌, ◌<◌, ◌≤◌, ◌^◌, ◌++◌, length, drop, take, IfSome};
ghost use Rattle.byteorder.specs.Endian.{big_bytes};
ghost use Rattle.perc_base.specs.Profile.{key_length};
ghost use Rattle.perc_ekt.specs.Record.{IsRecord, has_lengths, record_at, record_octets, record_of};

use crate::key::stored;
use crate::numbers::{u16_at, u24_at};
use byteorder::{BigEndian, ByteOrder};
use perc_base::Profile;

// How many octets the master salt has.
const SALT_LEN: u16 = 12;

/// An EKT key with the master salt of its conference (RFC 8870 section 5.2.2). It is right where `len` is 16 or 32, the octets
/// of `key` behind it are zero and `life` is below 2^24.
#[derive(Clone, Copy, PartialEq, Eq)]
pub struct EktKeyRecord {
    /// The EKT key, and zeros behind a key of 16 octets.
    pub key: [u8; 32],
    /// How many octets the key has.
    pub len: usize,
    /// The master salt.
    pub salt: [u8; 12],
    /// The number under which fields name the key.
    pub spi: u16,
    /// How long the key is to live, in seconds.
    pub life: u32,
}

impl EktKeyRecord {
    /// The record that octets spell, 37 or 53 of them: the length of the key in two octets, the key, 000c, the salt, the SPI in
    /// two octets and the life in three. None exactly where they spell none with a key of the profile's length.
    pub fn read(bytes: &[u8], profile: Profile) -> Option<EktKeyRecord>
        ensures answer { result ≡ record_of (key_length profile) bytes.now }
        ensures right { IfSome result (λ r. IsRecord r × (r.len ≡ key_length profile)) }
    {
        let len = profile.key_len();
        if has_lengths(bytes, len) {
            Some(record_in(bytes, len))
        } else {
            None
        }
    }

    /// Writes a right record to the front of `out`, and answers its length, 37 or 53. What stands behind it in `out` stays.
    pub fn write(&self, out: &mut [u8; 53]) -> usize
        requires { IsRecord self.now }
        ensures len { result ≡ length (record_octets self.now) }
        ensures size { result ≡ self.now.len + 21 }
        ensures value { out.new ≡ record_octets self.now ++ drop result out.old }
    {
        let end = self.len + 2;
        write_part(&self.key[..self.len], out);
        write_part(&self.salt, &mut out[end..]);
        write_numbers(self.spi, self.life, &mut out[end + 14..]);
        end + 19
    }
}

// Whether there are as many octets as in a record with a key of this length, and the lengths in it are right.
fn has_lengths(bytes: &[u8], len: usize) -> bool
    requires { len ≤ 32 }
    ensures { result ≡ has_lengths len bytes.now }
{
    bytes.len() == len + 21
        && usize::from(u16_at(bytes, 0)) == len
        && u16_at(bytes, len + 2) == SALT_LEN
}

// The record with a key of this length, whatever the octets say of lengths.
fn record_in(bytes: &[u8], len: usize) -> EktKeyRecord
    requires few { len ≤ 32 }
    requires size { length bytes.now ≡ len + 21 }
    ensures { result ≡ record_at bytes.now len }
{
    let end = len + 2;
    let mut salt = [0; 12];
    salt.copy_from_slice(&bytes[end + 2..end + 14]);
    EktKeyRecord {
        key: stored(&bytes[2..end]),
        len,
        salt,
        spi: u16_at(bytes, end + 14),
        life: u24_at(bytes, end + 16),
    }
}

// Writes octets behind their length.
fn write_part(part: &[u8], out: &mut [u8])
    requires few { length part.now < 2 ^ 16 }
    requires room { length part.now + 2 ≤ length out.old }
    ensures { out.new ≡ (big_bytes 2 (length part.now) ++ part.now) ++ drop (length part.now + 2) out.old }
{
    let end = part.len() + 2;
    BigEndian::write_u16(out, part.len() as u16);
    out[2..end].copy_from_slice(part);
}

// Writes the SPI and the life.
fn write_numbers(spi: u16, life: u32, out: &mut [u8])
    requires fits { life < 2 ^ 24 }
    requires room { 5 ≤ length out.old }
    ensures { out.new ≡ (big_bytes 2 spi ++ big_bytes 3 life) ++ drop 5 out.old }
{
    BigEndian::write_u16(out, spi);
    BigEndian::write_u24(&mut out[2..], life);
}
