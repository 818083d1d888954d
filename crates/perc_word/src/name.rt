// Names of members.
ghost use Rattle.std.specs.Prelude.{◌≡◌};
ghost use Rattle.std.specs.List.{list_all};
ghost use Rattle.std.specs.Str.{bytes_eq};
ghost use Rattle.perc_word.specs.Word.{name_in, is_name as is_name_text, is_alphanumeric};

use std::marker::Model;

/// A name: an upper-case ASCII letter, followed by at most 15 letters or digits.
#[derive(Clone, Copy)]
pub struct Name {
    /// The octets of the name, and zeros behind them.
    pub octets: [u8; 16],
    /// How many octets it has.
    pub len: u8,
}

impl Model for Name {
    ghost use Rattle.std.specs.Prelude.{ℕ, List, take};
    ghost use Rattle.perc_word.specs.Padded.{padded, IsPadded, padded_back};

    ghost Value = { List ℕ };

    ghost view = { λ n. take n.len n.octets };

    ghost invariant = { IsPadded };

    ghost inverse = { padded };

    ghost inverse_ok = { padded_back };
}

impl Name {
    /// The name that the word is. None exactly where it isn't one.
    pub fn read(word: &[u8]) -> Option<Name>
        ensures { result ≡ name_in word.now }
    {
        if !is_name(word) {
            return None;
        }
        let mut octets = [0; 16];
        octets[..word.len()].copy_from_slice(word);
        Some(Name {
            octets,
            len: word.len() as u8,
        })
    }

    /// The octets of the name.
    pub fn as_bytes(&self) -> &[u8]
        ensures { result.now ≡ self.now }
    {
        &self.octets[..self.len as usize]
    }

    /// Whether both are one name: their octets are the same.
    pub fn same(&self, other: &Name) -> bool
        ensures { result ≡ bytes_eq self.now other.now }
    {
        self.as_bytes() == other.as_bytes()
    }
}

// Whether the word is a name.
fn is_name(word: &[u8]) -> bool
    ensures { result ≡ is_name_text word.now }
{
    match word {
        [] => false,
        [first, others @ ..] => {
            first.is_ascii_uppercase() && are_alphanumeric(others) && others.len() <= 15
        }
    }
}

// Whether all octets are letters or digits.
fn are_alphanumeric(octets: &[u8]) -> bool
    ensures { result ≡ list_all is_alphanumeric octets.now }
{
    octets.iter().all(|octet| octet.is_ascii_alphanumeric())
}
