// Lists in one word, whose items are read again as they are asked for.
ghost use Rattle.std.specs.Prelude.{◌≡◌, is_some};
ghost use Rattle.std.specs.Iterator.{YieldsFirst, item_count};
ghost use Rattle.perc_word.specs.Word.{datagrams_in, ssrcs_in, names_in};

use super::numbers::ssrc;
use super::words::next_item;
use super::{Name, number};
use std::marker::Model;

// The greatest number of a datagram.
const GREATEST: u64 = 4294967295;

/// Numbers of datagrams, as a list in a line spells them.
#[derive(Drop)]
pub struct Datagrams<'a> {
    // The items that are left.
    left: Option<&'a [u8]>,
}

impl<'a> Model for Datagrams<'a> {
    ghost use Rattle.std.specs.Prelude.{◌≡◌, ℕ, List, Some};
    ghost use Rattle.perc_word.specs.Word.{all_in, number_in, most_of_four};
    ghost use Rattle.perc_word.specs.Left.{items_left, values_left};

    ghost Value = { List ℕ };

    ghost view = { λ d. values_left (number_in most_of_four) d.left };

    ghost invariant = { λ d. all_in (number_in most_of_four) (items_left d.left) ≡ Some (values_left (number_in most_of_four) d.left) };
}

impl<'a> Datagrams<'a> {
    /// The numbers that the word lists, at most so many. None exactly where it is no such list.
    pub fn read(word: &'a [u8], most: usize) -> Option<Datagrams<'a>>
        ensures { result ≡ datagrams_in most word.now }
    {
        if !are_datagrams(word, most) {
            return None;
        }
        Some(Datagrams { left: Some(word) })
    }
}

impl<'a> Iterator for Datagrams<'a> {
    type Item = u32;

    ghost next_gives = { YieldsFirst (λ d. d) };

    ghost remaining = { item_count (λ d. d) };

    fn next(&mut self) -> Option<u32> {
        let (item, behind) = next_item(self.left)?;
        self.left = behind;
        number(item, GREATEST).map(|number| number as u32)
    }
}

// Whether the word is a list of numbers, at most so many.
fn are_datagrams(word: &[u8], most: usize) -> bool
    ensures { result ≡ is_some (datagrams_in most word.now) }
{
    let mut left = Some(word);
    for _ in 0..most {
        let Some((item, behind)) = next_item(left) else {
            return true;
        };
        if number(item, GREATEST).is_none() {
            return false;
        }
        left = behind;
    }
    left.is_none()
}

/// SSRCs, as a list in a line spells them.
#[derive(Drop)]
pub struct Ssrcs<'a> {
    // The items that are left.
    left: Option<&'a [u8]>,
}

impl<'a> Model for Ssrcs<'a> {
    ghost use Rattle.std.specs.Prelude.{◌≡◌, ℕ, List, Some};
    ghost use Rattle.perc_word.specs.Word.{all_in, ssrc_in};
    ghost use Rattle.perc_word.specs.Left.{items_left, values_left};

    ghost Value = { List ℕ };

    ghost view = { λ s. values_left ssrc_in s.left };

    ghost invariant = { λ s. all_in ssrc_in (items_left s.left) ≡ Some (values_left ssrc_in s.left) };
}

impl<'a> Ssrcs<'a> {
    /// The SSRCs that the word lists, at most so many. None exactly where it is no such list.
    pub fn read(word: &'a [u8], most: usize) -> Option<Ssrcs<'a>>
        ensures { result ≡ ssrcs_in most word.now }
    {
        if !are_ssrcs(word, most) {
            return None;
        }
        Some(Ssrcs { left: Some(word) })
    }
}

impl<'a> Iterator for Ssrcs<'a> {
    type Item = u32;

    ghost next_gives = { YieldsFirst (λ s. s) };

    ghost remaining = { item_count (λ s. s) };

    fn next(&mut self) -> Option<u32> {
        let (item, behind) = next_item(self.left)?;
        self.left = behind;
        ssrc(item)
    }
}

// Whether the word is a list of SSRCs, at most so many.
fn are_ssrcs(word: &[u8], most: usize) -> bool
    ensures { result ≡ is_some (ssrcs_in most word.now) }
{
    let mut left = Some(word);
    for _ in 0..most {
        let Some((item, behind)) = next_item(left) else {
            return true;
        };
        if ssrc(item).is_none() {
            return false;
        }
        left = behind;
    }
    left.is_none()
}

/// Names, as a list in a line spells them.
#[derive(Drop)]
pub struct Names<'a> {
    // The items that are left.
    left: Option<&'a [u8]>,
}

impl<'a> Model for Names<'a> {
    ghost use Rattle.std.specs.Prelude.{◌≡◌, ℕ, List, Some};
    ghost use Rattle.perc_word.specs.Word.{all_in, name_in};
    ghost use Rattle.perc_word.specs.Left.{items_left, values_left};

    ghost Value = { List (List ℕ) };

    ghost view = { λ n. values_left name_in n.left };

    ghost invariant = { λ n. all_in name_in (items_left n.left) ≡ Some (values_left name_in n.left) };
}

impl<'a> Names<'a> {
    /// The names that the word lists, at most so many. None exactly where it is no such list.
    pub fn read(word: &'a [u8], most: usize) -> Option<Names<'a>>
        ensures { result ≡ names_in most word.now }
    {
        if !are_names(word, most) {
            return None;
        }
        Some(Names { left: Some(word) })
    }
}

impl<'a> Iterator for Names<'a> {
    type Item = Name;

    ghost next_gives = { YieldsFirst (λ n. n) };

    ghost remaining = { item_count (λ n. n) };

    fn next(&mut self) -> Option<Name> {
        let (item, behind) = next_item(self.left)?;
        self.left = behind;
        Name::read(item)
    }
}

// Whether the word is a list of names, at most so many.
fn are_names(word: &[u8], most: usize) -> bool
    ensures { result ≡ is_some (names_in most word.now) }
{
    let mut left = Some(word);
    for _ in 0..most {
        let Some((item, behind)) = next_item(left) else {
            return true;
        };
        if Name::read(item).is_none() {
            return false;
        }
        left = behind;
    }
    left.is_none()
}
