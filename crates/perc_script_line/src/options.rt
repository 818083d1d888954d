// The options of a send.
ghost use Rattle.std.specs.Prelude.{◌≡◌, codes};
ghost use Rattle.std.specs.Option.{option_map};
ghost use Rattle.perc_word.specs.Word.{option_in, ssrcs_in};
ghost use Rattle.perc_word.specs.Left.{words_left, value_taken};
ghost use Rattle.perc_script_line.specs.Script as spec;
ghost use Rattle.perc_script_line.specs.View.{options_taken};

use perc_word::{Octets, Ssrcs, next_option, number};

// How many CSRCs an RTP packet has at most (RFC 3550 section 5.1).
const MOST_CSRCS: usize = 15;

// How many octets an extension has at most: its profile, and 30 words.
const LONGEST_EXTENSION: usize = 122;

/// What a send has besides its payload, each where it is given.
#[derive(Drop)]
pub struct Options<'a> {
    /// 1 to 15 contributing sources.
    pub csrcs: Option<Ssrcs<'a>>,
    /// The two octets of a header extension's profile, followed by at most 30 words of four octets.
    pub extension: Option<Octets<'a>>,
    /// How many octets of padding there are, 1 to 255.
    pub pad: Option<u8>,
}

/// The options, and the words behind them.
#[tactic(auto, unfolding(crate::specs::Script::options_next))]
pub fn next_options(words: Option<&[u8]>) -> Option<(Options<'_>, Option<&[u8]>)>
    ensures { option_map options_taken result ≡ spec.options_next (words_left words.entry) }
{
    let (csrcs, words) = next_csrcs(words)?;
    let (extension, words) = next_extension(words)?;
    let (pad, words) = next_pad(words)?;
    Some((
        Options {
            csrcs,
            extension,
            pad,
        },
        words,
    ))
}

// `csrc=SSRC,SSRC,..`
fn next_csrcs(words: Option<&[u8]>) -> Option<(Option<Ssrcs<'_>>, Option<&[u8]>)>
    ensures { option_map value_taken result ≡ option_in (codes "csrc=") (ssrcs_in spec.most_csrcs) (words_left words.entry) }
{
    let (text, words) = next_option(words, b"csrc=");
    match text {
        Some(text) => Some((Some(Ssrcs::read(text, MOST_CSRCS)?), words)),
        None => Some((None, words)),
    }
}

// `ext=PROFILE AND WORDS`
fn next_extension(words: Option<&[u8]>) -> Option<(Option<Octets<'_>>, Option<&[u8]>)>
    ensures { option_map value_taken result ≡ option_in (codes "ext=") spec.extension_in (words_left words.entry) }
{
    let (text, words) = next_option(words, b"ext=");
    match text {
        Some(text) => Some((Some(extension(text)?), words)),
        None => Some((None, words)),
    }
}

// `pad=COUNT`
fn next_pad(words: Option<&[u8]>) -> Option<(Option<u8>, Option<&[u8]>)>
    ensures { option_map value_taken result ≡ option_in (codes "pad=") spec.pad_in (words_left words.entry) }
{
    let (text, words) = next_option(words, b"pad=");
    match text {
        Some(text) => Some((Some(pad(text)?), words)),
        None => Some((None, words)),
    }
}

/// The octets of an extension: its profile, and whole words.
pub fn extension(word: &[u8]) -> Option<Octets<'_>>
    ensures { result ≡ spec.extension_in word.now }
{
    let octets = Octets::read(word)?;
    if octets.len() % 4 != 2 || octets.len() > LONGEST_EXTENSION {
        return None;
    }
    Some(octets)
}

// How many octets of padding there are.
fn pad(word: &[u8]) -> Option<u8>
    ensures { result ≡ spec.pad_in word.now }
{
    let pad = number(word, 255)?;
    if pad < 1 {
        return None;
    }
    Some(pad as u8)
}
