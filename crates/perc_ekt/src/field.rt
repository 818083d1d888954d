// The fields at the end of datagrams.
ghost use Rattle.std.specs.Prelude.{◌≡◌, ℕ, ◌+◌, ◌%◌, ◌≤◌, ◌↔◌, false, IsTrue, List, [], ◌∷◌, ◌++◌, length, drop, Some, None, IfOk, IfSome, IfNone, SomeIff, MatchResult};
ghost use Rattle.byteorder.specs.Endian.{big_bytes};
ghost use Rattle.perc_ekt.specs.Field.{Field, Full, IsCipherLength, announced, field_of, is_wrong_length, spelling, told_of};
ghost use Rattle.perc_ekt.specs.Reading.{length_at, told_at};

use crate::numbers::u16_at;
use byteorder::{BigEndian, ByteOrder};
use std::ops::Range;

// The types of a short field, of a full one, and the type that isn't available.
const SHORT: u8 = 0;

const FULL: u8 = 2;

const UNAVAILABLE: u8 = 1;

/// What stands in a field.
#[derive(Clone, Debug, PartialEq, Eq, Drop)]
pub enum EktField {
    /// A field of one octet: nothing.
    Short,
    /// A wrapped key.
    Full {
        /// The SPI of the EKT key that it is wrapped under.
        spi: u16,
        /// The sender's number of the key under that SPI.
        epoch: u16,
        /// Where in the datagram the wrapped key stands.
        cipher: Range<usize>,
    },
    /// A field of another type.
    Extension {
        /// The type, 3 to 255.
        kind: u8,
    },
}

/// Why a datagram ends in no field.
#[derive(Clone, Copy, Debug, PartialEq, Eq)]
pub enum FieldFault {
    /// It is empty.
    NoField,
    /// The type is 1, which isn't available.
    Type01,
    /// A field that isn't short has no length, or one that is above the datagram's or that none of its type has.
    Length,
}

/// Reads the field at the end of a datagram, and answers its length (RFC 8870 section 4.1). A short field is the octet 0. A
/// full one is a wrapped key of 16 to 4096 octets, a multiple of 8, the SPI, the epoch and the length of the whole field in
/// two octets each, and the octet 2. One of another type is octets, the length of the whole field, and a type from 3 on.
pub fn read_end(datagram: &[u8]) -> Result<(EktField, usize), FieldFault>
    ensures answer { MatchResult (field_of datagram.now)
        (λ read. result ≡ Ok (told_of read.1 (length read.0), length (spelling read.1)))
        (λ fault. result ≡ Err fault) }
    ensures within { IfOk result (λ read. (1 ≤ read.1) × (read.1 ≤ length datagram.now)) }
{
    let Some(kind) = datagram.last().copied() else {
        return Err(FieldFault::NoField);
    };
    if kind == UNAVAILABLE {
        return Err(FieldFault::Type01);
    }
    if kind == SHORT {
        return Ok((EktField::Short, 1));
    }
    match long_length(datagram, kind) {
        Some(len) => Ok((long_field(datagram, kind, len), len)),
        None => Err(FieldFault::Length),
    }
}

// The length of a field that isn't short, where it stands there whole and one of this type can have it.
fn long_length(datagram: &[u8], kind: u8) -> Option<usize>
    ensures { result ≡ length_at datagram.now kind }
{
    if datagram.len() < 3 {
        return None;
    }
    let len = announced(datagram);
    if datagram.len() < len || is_wrong_length(kind, len) {
        return None;
    }
    Some(len)
}

// The length before the last octet.
fn announced(datagram: &[u8]) -> usize
    requires { 3 ≤ length datagram.now }
    ensures { result ≡ announced datagram.now }
{
    usize::from(u16_at(datagram, datagram.len() - 3))
}

// Whether no field of this type has this length.
fn is_wrong_length(kind: u8, len: usize) -> bool
    ensures { result ≡ is_wrong_length kind len }
{
    if kind == FULL {
        len < 7 || !is_cipher_length(len - 7)
    } else {
        len < 3
    }
}

// Whether a wrapped key can have this length.
fn is_cipher_length(len: usize) -> bool
    ensures { IsTrue result ↔ IsCipherLength len }
{
    (16..=4096).contains(&len) && len % 8 == 0
}

// What is told of a field that isn't short.
fn long_field(datagram: &[u8], kind: u8, len: usize) -> EktField
    requires within { len ≤ length datagram.now }
    requires size { is_wrong_length kind len ≡ false }
    ensures { result ≡ told_at datagram.now kind len }
{
    if kind != FULL {
        return EktField::Extension { kind };
    }
    let end = datagram.len() - 7;
    EktField::Full {
        spi: u16_at(datagram, end),
        epoch: u16_at(datagram, end + 2),
        cipher: datagram.len() - len..end,
    }
}

/// Writes a short field, one octet, to the front of `out`. None exactly where `out` is empty.
#[tactic(auto, unfolding(crate::specs::Field::spelling))]
pub fn write_short(out: &mut [u8]) -> Option<usize>
    ensures length { SomeIff result (1 ≤ length out.old) 1 }
    ensures value { IfSome result (λ n. out.new ≡ spelling Field.Short ++ drop n out.old) }
    ensures none { IfNone result (out.new ≡ out.old) }
{
    *out.first_mut()? = SHORT;
    Some(1)
}

/// Writes a full field, 7 octets and those of the wrapped key, to the front of `out`. None exactly where `out` is shorter, or
/// the wrapped key hasn't 16 to 4096 octets, a multiple of 8. Then `out` is as it was.
#[tactic(auto, unfolding(crate::specs::Field::spelling))]
pub fn write_full(spi: u16, epoch: u16, cipher: &[u8], out: &mut [u8]) -> Option<usize>
    ensures length { SomeIff result (IsCipherLength (length cipher.now) × (length cipher.now + 7 ≤ length out.old))
        (length cipher.now + 7) }
    ensures value { IfSome result (λ n. out.new ≡ spelling (Full cipher.now spi epoch) ++ drop n out.old) }
    ensures none { IfNone result (out.new ≡ out.old) }
{
    let end = cipher.len();
    if !is_cipher_length(end) || out.len() < end + 7 {
        return None;
    }
    out[..end].copy_from_slice(cipher);
    write_numbers(spi, epoch, end as u16 + 7, &mut out[end..]);
    Some(end + 7)
}

// Writes what follows the wrapped key.
fn write_numbers(spi: u16, epoch: u16, len: u16, out: &mut [u8])
    requires { 7 ≤ length out.old }
    ensures { out.new ≡ (big_bytes 2 spi ++ big_bytes 2 epoch ++ big_bytes 2 len ++ 2 ∷ []) ++ drop 7 out.old }
{
    BigEndian::write_u16(out, spi);
    BigEndian::write_u16(&mut out[2..], epoch);
    BigEndian::write_u16(&mut out[4..], len);
    out[6] = FULL;
}
