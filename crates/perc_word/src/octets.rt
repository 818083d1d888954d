// Octets that are spelled in hexadecimal.
ghost use Rattle.std.specs.Prelude.{◌≡◌, ◌≤◌, [], ◌++◌, length, take, OnOk, OnErr};
ghost use Rattle.std.specs.List.{list_all};
ghost use Rattle.hex.specs.Hex.{encode_lower};
ghost use Rattle.perc_word.specs.Word.{octets_in, payload_in, spelled_octets};
ghost use Rattle.perc_word.specs.Digits.{is_lower_digit, digit_value, octet_value};

use std::alloc::AllocError;
use std::marker::Model;

/// Octets as they are spelled in a line, by two lower-case hexadecimal digits each, the high four bits first, or as
/// they lie in memory.
#[derive(Drop)]
pub struct Octets<'a> {
    shown: Shown<'a>,
}

// Where the octets come from.
#[derive(Clone, Copy)]
enum Shown<'a> {
    Digits(&'a [u8]),
    Plain(&'a [u8]),
}

impl<'a> Model for Octets<'a> {
    ghost use Rattle.std.specs.Prelude.{ℕ, List};
    ghost use Rattle.perc_word.specs.Shown.{shown_octets, AreSpelled};

    ghost Value = { List ℕ };

    ghost view = { λ o. shown_octets o.shown };

    ghost invariant = { λ o. AreSpelled o.shown };
}

impl<'a> Octets<'a> {
    /// These octets.
    pub fn of(octets: &'a [u8]) -> Octets<'a>
        ensures { result ≡ octets.now }
    {
        Octets {
            shown: Shown::Plain(octets),
        }
    }

    /// The octets, one or more, that the word spells. None exactly where it spells none.
    pub fn read(word: &'a [u8]) -> Option<Octets<'a>>
        ensures { result ≡ octets_in word.now }
    {
        if word.is_empty() || word.len() % 2 == 1 || !are_digits(word) {
            return None;
        }
        Some(Octets {
            shown: Shown::Digits(word),
        })
    }

    /// The payload that the word spells: octets, or none where it is `-`. None exactly where it spells none.
    pub fn read_payload(word: &'a [u8]) -> Option<Octets<'a>>
        ensures { result ≡ payload_in word.now }
    {
        if word == b"-".as_slice() {
            return Some(Octets::of(&[]));
        }
        Octets::read(word)
    }

    /// How many octets there are.
    pub fn len(&self) -> usize
        ensures { result ≡ length self.now }
    {
        match self.shown {
            Shown::Digits(digits) => digits.len() / 2,
            Shown::Plain(octets) => octets.len(),
        }
    }

    /// Writes the octets into a buffer of their length.
    pub fn write(&self, out: &mut [u8])
        requires { length out.old ≡ length self.now }
        ensures { out.new ≡ self.now }
    {
        self.write_front(out)
    }

    /// Writes the first octets into a buffer, as many as there is room for.
    pub fn write_front(&self, out: &mut [u8])
        requires { length out.old ≤ length self.now }
        ensures { out.new ≡ take (length out.old) self.now }
    {
        match self.shown {
            Shown::Digits(digits) => decode(digits, out),
            Shown::Plain(octets) => out.copy_from_slice(&octets[..out.len()]),
        }
    }

    /// Appends the spelling of the octets. Where no memory is found, `out` is as it was.
    pub fn spell(&self, out: &mut Vec<u8>) -> Result<(), AllocError>
        ensures ok { OnOk result (out.new.items ≡ out.old.items ++ encode_lower self.now) }
        ensures err { OnErr result (out.new.items ≡ out.old.items) }
    {
        match self.shown {
            Shown::Digits(digits) => out.extend_from_slice(digits),
            Shown::Plain(octets) => spell_plain(octets, out),
        }
    }
}

// Appends the spelling of octets, into room that is taken at once.
fn spell_plain(octets: &[u8], out: &mut Vec<u8>) -> Result<(), AllocError>
    ensures ok { OnOk result (out.new.items ≡ out.old.items ++ encode_lower octets.now) }
    ensures err { OnErr result (out.new.items ≡ out.old.items) }
{
    let before = out.len();
    let Some(room) = before.checked_add(2 * octets.len()) else {
        return Err(AllocError);
    };
    out.resize(room, 0)?;
    // It doesn't fail: there is room for two digits for each octet.
    let _ = hex::encode_to_slice(octets, &mut out[before..]);
    Ok(())
}

// The first octets that the digits spell, as many as there is room for.
fn decode(digits: &[u8], out: &mut [u8])
    requires spelled { digits.now ≡ encode_lower (spelled_octets digits.now) }
    requires room { length out.old ≤ length (spelled_octets digits.now) }
    ensures { out.new ≡ take (length out.old) (spelled_octets digits.now) }
{
    for i in 0..out.len() {
        out[i] = octet_of(digits[2 * i], digits[2 * i + 1]);
    }
}

// The octet of two digits.
fn octet_of(high: u8, low: u8) -> u8
    ensures { result ≡ octet_value high low }
{
    digit_of(high).wrapping_mul(16).wrapping_add(digit_of(low))
}

// The value of a digit, with no branch: decimal digits and letters take turns in no order.
fn digit_of(digit: u8) -> u8
    ensures { result ≡ digit_value digit }
{
    digit % 16 + 9 * (digit / 64)
}

// Whether all octets are lower-case hexadecimal digits.
fn are_digits(octets: &[u8]) -> bool
    ensures { result ≡ list_all is_lower_digit octets.now }
{
    octets
        .iter()
        .all(|octet| matches!(octet, b'0'..=b'9' | b'a'..=b'f'))
}
