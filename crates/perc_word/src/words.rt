// The words of a line and the items of a list, one after another.
ghost use Rattle.std.specs.Prelude.{◌≡◌, ◌∷◌, ◌==◌, length, take, position};
ghost use Rattle.std.specs.Str.{bytes_eq};
ghost use Rattle.std.specs.Option.{option_map};
ghost use Rattle.perc_word.specs.Word.{parts_of, words_of, first_of, option_split};
ghost use Rattle.perc_word.specs.Left.{parts_left, words_left, items_left, word_taken, item_taken, option_told};

/// The first word of a text, and the text behind its space, where there is one.
pub fn split_word(text: &[u8]) -> (&[u8], Option<&[u8]>)
    ensures { words_of text.now ≡ result.0.now ∷ words_left result.1 }
{
    split_part(text, b' ')
}

/// The next word, and the text behind it. None where no text is left.
pub fn next_word(text: Option<&[u8]>) -> Option<(&[u8], Option<&[u8]>)>
    ensures { option_map word_taken result ≡ first_of (words_left text.entry) }
{
    Some(split_word(text?))
}

// Whether the text begins with the prefix.
fn begins_with(text: &[u8], prefix: &[u8]) -> bool
    ensures { result ≡ bytes_eq (take (length prefix.now) text.now) prefix.now }
{
    text.starts_with(prefix)
}

/// What stands behind the prefix in the next word, where it has that prefix, and the text that is left.
#[tactic(auto, using(crate::proofs::Taking::other_prefix))]
pub fn next_option<'a>(
    text: Option<&'a [u8]>,
    prefix: &[u8],
) -> (Option<&'a [u8]>, Option<&'a [u8]>)
    ensures { (option_told result.0, words_left result.1) ≡ option_split prefix.now (words_left text.entry) }
{
    let Some(line) = text else {
        return (None, None);
    };
    // A word that is no such option isn't walked to its end.
    if !begins_with(line, prefix) {
        return (None, text);
    }
    let (word, behind) = split_word(line);
    match word.strip_prefix(prefix) {
        Some(value) => (Some(value), behind),
        None => (None, text),
    }
}

/// The next item of a list, and the list behind its comma. None where no text is left.
pub fn next_item(text: Option<&[u8]>) -> Option<(&[u8], Option<&[u8]>)>
    ensures { option_map item_taken result ≡ first_of (items_left text.entry) }
{
    Some(split_part(text?, b','))
}

// The first part of a text, and the text behind its separator, where there is one.
fn split_part(text: &[u8], separator: u8) -> (&[u8], Option<&[u8]>)
    ensures { parts_of separator text.now ≡ result.0.now ∷ parts_left separator result.1 }
{
    match octet_in(text, separator) {
        Some(end) => (&text[..end], Some(&text[end + 1..])),
        None => (text, None),
    }
}

// Where the octet first stands in a text.
fn octet_in(text: &[u8], wanted: u8) -> Option<usize>
    ensures { result ≡ position (λ octet. octet == wanted) text.now }
{
    text.iter().position(|octet| *octet == wanted)
}
