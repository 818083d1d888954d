// The changes of a distributor.
ghost use Rattle.std.specs.Prelude.{◌≡◌, codes};
ghost use Rattle.std.specs.Option.{option_map};
ghost use Rattle.perc_word.specs.Word.{option_in, number_in, most_of_two, payload_type_in, marker_in};
ghost use Rattle.perc_word.specs.Left.{words_left, value_taken};
ghost use Rattle.perc_script_line.specs.Script as spec;
ghost use Rattle.perc_script_line.specs.View.{changes_taken, replaced_said, replaced_taken};

use super::options::extension;
use perc_word::{Octets, marker, next_option, number, payload_type};

/// What a distributor changes in a packet, each where it is given.
#[derive(Drop)]
pub struct Changes<'a> {
    /// The new payload type: below 64, or 96 to 127.
    pub pt: Option<u8>,
    /// What is added to the sequence number, modulo 2^16.
    pub shift: Option<u16>,
    /// The new marker.
    pub marker: Option<bool>,
    /// What becomes of the header extension.
    pub extension: Option<Replaced<'a>>,
}

/// What becomes of a header extension.
#[derive(Drop)]
pub enum Replaced<'a> {
    /// There is none from then on.
    Dropped,
    /// This one takes its place: its profile's two octets, followed by at most 30 words of four octets.
    By(Octets<'a>),
}

/// The changes, and the words behind them.
#[tactic(auto, unfolding(crate::specs::Script::changes_next))]
pub fn next_changes(words: Option<&[u8]>) -> Option<(Changes<'_>, Option<&[u8]>)>
    ensures { option_map changes_taken result ≡ spec.changes_next (words_left words.entry) }
{
    let (pt, words) = next_pt(words)?;
    let (shift, words) = next_shift(words)?;
    let (marker, words) = next_marker_change(words)?;
    let (extension, words) = next_replaced(words)?;
    Some((
        Changes {
            pt,
            shift,
            marker,
            extension,
        },
        words,
    ))
}

// `pt=PT`
fn next_pt(words: Option<&[u8]>) -> Option<(Option<u8>, Option<&[u8]>)>
    ensures { option_map value_taken result ≡ option_in (codes "pt=") payload_type_in (words_left words.entry) }
{
    let (text, words) = next_option(words, b"pt=");
    match text {
        Some(text) => Some((Some(payload_type(text)?), words)),
        None => Some((None, words)),
    }
}

// `shift=NUMBER`
fn next_shift(words: Option<&[u8]>) -> Option<(Option<u16>, Option<&[u8]>)>
    ensures { option_map value_taken result ≡ option_in (codes "shift=") (number_in most_of_two) (words_left words.entry) }
{
    let (text, words) = next_option(words, b"shift=");
    match text {
        Some(text) => Some((Some(number(text, 65535)? as u16), words)),
        None => Some((None, words)),
    }
}

// `marker=M`
fn next_marker_change(words: Option<&[u8]>) -> Option<(Option<bool>, Option<&[u8]>)>
    ensures { option_map value_taken result ≡ option_in (codes "marker=") marker_in (words_left words.entry) }
{
    let (text, words) = next_option(words, b"marker=");
    match text {
        Some(text) => Some((Some(marker(text)?), words)),
        None => Some((None, words)),
    }
}

// `ext=drop`, or `ext=PROFILE AND WORDS`
fn next_replaced(words: Option<&[u8]>) -> Option<(Option<Replaced<'_>>, Option<&[u8]>)>
    ensures { option_map replaced_taken result ≡ option_in (codes "ext=") spec.replaced_in (words_left words.entry) }
{
    let (text, words) = next_option(words, b"ext=");
    match text {
        Some(text) => Some((Some(replacement(text)?), words)),
        None => Some((None, words)),
    }
}

fn replacement(word: &[u8]) -> Option<Replaced<'_>>
    ensures { option_map replaced_said result ≡ spec.replaced_in word.now }
{
    if word == b"drop".as_slice() {
        return Some(Replaced::Dropped);
    }
    Some(Replaced::By(extension(word)?))
}
