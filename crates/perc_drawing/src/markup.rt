// Words of markup: numbers, and text whose octets can't be taken for markup.
ghost use Rattle.std.specs.Prelude.{◌≡◌, ◌++◌, OnOk};
ghost use Rattle.std.specs.Fmt.{decimal};
ghost use Rattle.perc_drawing.specs.Markup.{escaped, escaped_octet, word_text, words_text};

use itoa::Buffer;
use std::alloc::AllocError;

/// A word of a text or of an attribute's value.
#[derive(Clone, Copy)]
pub enum Word<'a> {
    /// A number, in decimal.
    Number(u64),
    /// Octets, escaped.
    Octets(&'a [u8]),
}

// Appends octets as they may stand in a text or in an attribute's value (XML 1.0 section 2.4): each that begins markup or
// ends a value is written as an entity, and each that isn't printable ASCII as a question mark.
fn escape(out: &mut Vec<u8>, octets: &[u8]) -> Result<(), AllocError>
    ensures { OnOk result (out.new.items ≡ out.old.items ++ escaped octets.now) }
{
    for octet in octets {
        escape_octet(out, *octet)?;
    }
    Ok(())
}

// Appends one octet.
fn escape_octet(out: &mut Vec<u8>, octet: u8) -> Result<(), AllocError>
    ensures { OnOk result (out.new.items ≡ out.old.items ++ escaped_octet octet) }
{
    match octet {
        b'"' => plain(out, b"&quot;"),
        b'&' => plain(out, b"&amp;"),
        b'<' => plain(out, b"&lt;"),
        b'>' => plain(out, b"&gt;"),
        b' '..=b'~' => plain(out, &[octet]),
        _ => plain(out, b"?"),
    }
}

/// Appends octets as they are.
pub(super) fn plain(out: &mut Vec<u8>, octets: &[u8]) -> Result<(), AllocError>
    ensures { OnOk result (out.new.items ≡ out.old.items ++ octets.now) }
{
    out.extend_from_slice(octets)
}

/// Appends a number in decimal.
pub(super) fn number(out: &mut Vec<u8>, number: u64) -> Result<(), AllocError>
    ensures { OnOk result (out.new.items ≡ out.old.items ++ decimal number) }
{
    let mut buffer = Buffer::new();
    plain(out, buffer.format(number).as_bytes())
}

/// Appends a word.
pub(super) fn append_word(out: &mut Vec<u8>, word: &Word<'_>) -> Result<(), AllocError>
    ensures { OnOk result (out.new.items ≡ out.old.items ++ word_text word.now) }
{
    match word {
        Word::Number(value) => number(out, *value),
        Word::Octets(octets) => escape(out, octets),
    }
}

/// Appends words, one after another.
pub(super) fn append_words(out: &mut Vec<u8>, words: &[Word<'_>]) -> Result<(), AllocError>
    ensures { OnOk result (out.new.items ≡ out.old.items ++ words_text words.now) }
{
    for each in words {
        append_word(out, each)?;
    }
    Ok(())
}

/// How many octets the words have, where none needs an entity.
pub(super) fn width(words: &[Word<'_>]) -> u64 {
    let mut width = 0u64;
    for each in words {
        let len = match each {
            Word::Number(value) => {
                let mut buffer = Buffer::new();
                buffer.format(*value).len()
            }
            Word::Octets(octets) => octets.len(),
        };
        width = width.saturating_add(len as u64);
    }
    width
}
