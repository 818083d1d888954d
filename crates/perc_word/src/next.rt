// The next word of a line, as what it says.
ghost use Rattle.std.specs.Prelude.{◌≡◌};
ghost use Rattle.std.specs.Option.{option_map};
ghost use Rattle.perc_word.specs.Word.{next_in, end_of, number_in, most_of_two, most_of_four, ssrc_in, octets_in, payload_in, payload_type_in, marker_in};
ghost use Rattle.perc_word.specs.Left.{words_left, value_taken};

use super::numbers::ssrc;
use super::{Octets, marker, next_word, number, payload_type};

/// A number of two octets in decimal, and the words behind it.
pub fn next_u16(words: Option<&[u8]>) -> Option<(u16, Option<&[u8]>)>
    ensures { option_map value_taken result ≡ next_in (number_in most_of_two) (words_left words.entry) }
{
    let (word, words) = next_word(words)?;
    Some((number(word, 65535)? as u16, words))
}

/// A number of four octets in decimal, and the words behind it.
pub fn next_u32(words: Option<&[u8]>) -> Option<(u32, Option<&[u8]>)>
    ensures { option_map value_taken result ≡ next_in (number_in most_of_four) (words_left words.entry) }
{
    let (word, words) = next_word(words)?;
    Some((number(word, 4294967295)? as u32, words))
}

/// An SSRC, and the words behind it.
pub fn next_ssrc(words: Option<&[u8]>) -> Option<(u32, Option<&[u8]>)>
    ensures { option_map value_taken result ≡ next_in ssrc_in (words_left words.entry) }
{
    let (word, words) = next_word(words)?;
    Some((ssrc(word)?, words))
}

/// Octets, one or more, and the words behind them.
pub fn next_octets(words: Option<&[u8]>) -> Option<(Octets<'_>, Option<&[u8]>)>
    ensures { option_map value_taken result ≡ next_in octets_in (words_left words.entry) }
{
    let (word, words) = next_word(words)?;
    Some((Octets::read(word)?, words))
}

/// A payload, and the words behind it.
pub fn next_payload(words: Option<&[u8]>) -> Option<(Octets<'_>, Option<&[u8]>)>
    ensures { option_map value_taken result ≡ next_in payload_in (words_left words.entry) }
{
    let (word, words) = next_word(words)?;
    Some((Octets::read_payload(word)?, words))
}

/// A payload type, and the words behind it.
pub fn next_payload_type(words: Option<&[u8]>) -> Option<(u8, Option<&[u8]>)>
    ensures { option_map value_taken result ≡ next_in payload_type_in (words_left words.entry) }
{
    let (word, words) = next_word(words)?;
    Some((payload_type(word)?, words))
}

/// A marker, and the words behind it.
pub fn next_marker(words: Option<&[u8]>) -> Option<(bool, Option<&[u8]>)>
    ensures { option_map value_taken result ≡ next_in marker_in (words_left words.entry) }
{
    let (word, words) = next_word(words)?;
    Some((marker(word)?, words))
}

/// None where a word is left.
#[tactic(auto, using(crate::proofs::Taking::end_left))]
pub fn end(words: Option<&[u8]>) -> Option<()>
    ensures { result ≡ end_of (words_left words.entry) }
{
    if words.is_some() { None } else { Some(()) }
}
