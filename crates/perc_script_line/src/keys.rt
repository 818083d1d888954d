// Profiles, keys and packets, as words of a line.
ghost use Rattle.std.specs.Prelude.{◌≡◌, ◌≤◌, ◌==◌, ◌+◌, ◌||◌};
ghost use Rattle.std.specs.Option.{option_map};
ghost use Rattle.perc_word.specs.Word.{next_in};
ghost use Rattle.perc_word.specs.Left.{words_left, value_taken};
ghost use Rattle.perc_script_line.specs.Script as spec;

use perc_base::Profile;
use perc_rtp::LONGEST_RTCP;
use perc_word::{Octets, next_octets, next_word};

// How many octets a salt has.
const SALT: usize = 12;

// How many octets a datagram has at most.
const LONGEST_DATAGRAM: usize = 1500;

/// A profile, and the words behind it.
pub fn next_profile(words: Option<&[u8]>) -> Option<(Profile, Option<&[u8]>)>
    ensures { option_map value_taken result ≡ next_in spec.profile_in (words_left words.entry) }
{
    let (word, words) = next_word(words)?;
    Some((profile_in(word)?, words))
}

#[tactic(auto, unfolding(crate::specs::Script::profile_in))]
fn profile_in(word: &[u8]) -> Option<Profile>
    ensures { result ≡ spec.profile_in word.now }
{
    if word == b"0009".as_slice() {
        Some(Profile::Aes128)
    } else if word == b"000a".as_slice() {
        Some(Profile::Aes256)
    } else {
        None
    }
}

/// A key of either profile, and the words behind it.
pub fn next_key(words: Option<&[u8]>) -> Option<(Octets<'_>, Option<&[u8]>)>
    ensures { option_map value_taken result ≡ next_in spec.key_in (words_left words.entry) }
{
    let (key, words) = next_octets(words)?;
    if !fits_some(key.len(), 0) {
        return None;
    }
    Some((key, words))
}

/// A key of either profile with its salt behind it, and the words behind them.
pub fn next_pair(words: Option<&[u8]>) -> Option<(Octets<'_>, Option<&[u8]>)>
    ensures { option_map value_taken result ≡ next_in spec.pair_in (words_left words.entry) }
{
    let (pair, words) = next_octets(words)?;
    if !fits_some(pair.len(), SALT) {
        return None;
    }
    Some((pair, words))
}

// Whether a key of either profile and so many octets more have this length.
fn fits_some(len: usize, more: usize) -> bool
    requires { more ≤ 12 }
    ensures { result ≡ ((len == 16 + more) || (len == 32 + more)) }
{
    len == Profile::Aes128.key_len() + more || len == Profile::Aes256.key_len() + more
}

/// A salt, and the words behind it.
pub fn next_salt(words: Option<&[u8]>) -> Option<(Octets<'_>, Option<&[u8]>)>
    ensures { option_map value_taken result ≡ next_in spec.salt_in (words_left words.entry) }
{
    let (salt, words) = next_octets(words)?;
    if salt.len() != SALT {
        return None;
    }
    Some((salt, words))
}

/// An RTCP packet of 8 to 1200 octets, and the words behind it.
pub fn next_rtcp(words: Option<&[u8]>) -> Option<(Octets<'_>, Option<&[u8]>)>
    ensures { option_map value_taken result ≡ next_in spec.rtcp_octets_in (words_left words.entry) }
{
    let (octets, words) = next_octets(words)?;
    if !is_rtcp(&octets) {
        return None;
    }
    Some((octets, words))
}

// Whether the octets are an RTCP packet of version 2 with a type of 192 to 223.
fn is_rtcp(octets: &Octets<'_>) -> bool
    ensures { result ≡ spec.is_rtcp octets.now }
{
    let len = octets.len();
    if len < 8 || len > LONGEST_RTCP {
        return false;
    }
    let mut front = [0; 2];
    octets.write_front(&mut front);
    front[0] / 64 == 2 && front[1] >= 192 && front[1] <= 223
}

/// A datagram of at most 1500 octets, and the words behind it.
pub fn next_datagram(words: Option<&[u8]>) -> Option<(Octets<'_>, Option<&[u8]>)>
    ensures { option_map value_taken result ≡ next_in spec.datagram_in (words_left words.entry) }
{
    let (octets, words) = next_octets(words)?;
    if octets.len() > LONGEST_DATAGRAM {
        return None;
    }
    Some((octets, words))
}
