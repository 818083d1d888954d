// Numbers that are spelled in decimal, and SSRCs.
ghost use Rattle.std.specs.Prelude.{◌≡◌, ◌≤◌, ◌<◌, ◌^◌, IfSome};
ghost use Rattle.std.specs.List.{list_all};
ghost use Rattle.perc_word.specs.Word.{number_in, ssrc_in, payload_type_in, marker_in};
ghost use Rattle.perc_word.specs.Digits.{is_digit, is_numeral as is_numeral_text};

use super::Octets;
use byteorder::{BigEndian, ByteOrder};

/// The number, up to a greatest one below 2^60, that the word spells in decimal, without a sign or leading zeros. None
/// exactly where it spells none.
pub fn number(word: &[u8], greatest: u64) -> Option<u64>
    requires { greatest < 2 ^ 60 }
    ensures value { result ≡ number_in greatest word.now }
    ensures bound { IfSome result (λ n. n ≤ greatest) }
{
    if !is_numeral(word) {
        return None;
    }
    let mut number = 0;
    for digit in word {
        number = 10 * number + u64::from(*digit - b'0');
        if number > greatest {
            return None;
        }
    }
    Some(number)
}

// Whether the word is decimal digits without a zero in front of others.
#[tactic(auto, unfolding(crate::specs::Digits::is_numeral))]
fn is_numeral(word: &[u8]) -> bool
    ensures { result ≡ is_numeral_text word.now }
{
    are_digits(word) && !word.is_empty() && (word[0] != b'0' || word.len() == 1)
}

// Whether all octets are decimal digits.
fn are_digits(octets: &[u8]) -> bool
    ensures { result ≡ list_all is_digit octets.now }
{
    octets.iter().all(|octet| octet.is_ascii_digit())
}

/// The SSRC that eight hexadecimal digits spell, its highest octet first. None exactly where the word is none.
#[tactic(auto, unfolding(crate::specs::Word::ssrc_in))]
pub fn ssrc(word: &[u8]) -> Option<u32>
    ensures { result ≡ ssrc_in word.now }
{
    let octets = Octets::read(word)?;
    if octets.len() != 4 {
        return None;
    }
    let mut ssrc = [0; 4];
    octets.write(&mut ssrc);
    Some(BigEndian::read_u32(&ssrc))
}

/// A payload type that RTP doesn't leave to RTCP (RFC 5761 section 4): below 64, or 96 to 127. None exactly where the
/// word spells none.
pub fn payload_type(word: &[u8]) -> Option<u8>
    ensures { result ≡ payload_type_in word.now }
{
    let pt = number(word, 127)?;
    if pt < 64 || pt >= 96 {
        Some(pt as u8)
    } else {
        None
    }
}

/// A marker: `1` where it is set, else `0`. None exactly where the word is neither.
pub fn marker(word: &[u8]) -> Option<bool>
    ensures { result ≡ marker_in word.now }
{
    if word == b"1".as_slice() {
        Some(true)
    } else if word == b"0".as_slice() {
        Some(false)
    } else {
        None
    }
}
