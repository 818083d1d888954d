// Key expansion (FIPS 197 section 5.2).
ghost use Rattle.std.specs.Prelude.{◌≡◌, ◌+◌, ◌*◌, ◌/◌, ◌<◌, ◌≤◌, length, take};
ghost use Rattle.perc_aes.specs.Cipher.{IsKeyLength, round_constant, schedule_core};
ghost use Rattle.perc_aes.specs.KeySchedule.{IsSchedule};
ghost use Rattle.perc_aes.specs.Words.{octets_of_word, octets_of_words, state_at};

use crate::cipher::sub_word;
use crate::state::{State, word_at};
use crate::tables::power_of_x;

/// The words of the longest schedule.
pub(crate) const SCHEDULE_WORDS: usize = 60;

// What word i is made of, from the word before it, beside the word as many places back as the key has words.
fn schedule_core(key_words: usize, i: usize, before: u32) -> u32
    requires words { 0 < key_words }
    requires after_key { key_words ≤ i }
    requires few { i / key_words ≤ 10 }
    ensures { octets_of_word result ≡ schedule_core key_words i (octets_of_word before) }
{
    if i % key_words == 0 {
        sub_word(before.rotate_left(8)) ^ round_constant(i / key_words)
    } else if key_words == 8 && i % 8 == 4 {
        sub_word(before)
    } else {
        before
    }
}

// The constant of a round, from 1 on.
fn round_constant(round: usize) -> u32
    requires some { 0 < round }
    requires few { round ≤ 10 }
    ensures { octets_of_word result ≡ round_constant round }
{
    u32::from(power_of_x(round - 1)) << 24
}

// Writes the words of a key.
pub(crate) fn copy_key(words: &mut [u32; SCHEDULE_WORDS], key: &[u8])
    requires { IsKeyLength (length key.now) }
    ensures { octets_of_words (take (length key.now / 4) words.new) ≡ key.now }
{
    for i in 0..key.len() / 4 {
        words[i] = word_at(key, i);
    }
}

// Writes the schedule of the key that is the first key_words words behind it. Where their number is a constant, nothing is divided.
pub(crate) fn expand(words: &mut [u32; SCHEDULE_WORDS], key_words: usize)
    requires { IsKeyLength (4 * key_words) }
    ensures schedule { IsSchedule words.new key_words }
    ensures key { take key_words words.new ≡ take key_words words.old }
{
    match key_words {
        4 => expand_by(words, 4),
        8 => expand_by(words, 8),
        _ => expand_by(words, key_words),
    }
}

// The same for any number of words.
#[inline(always)]
fn expand_by(words: &mut [u32; SCHEDULE_WORDS], key_words: usize)
    requires { IsKeyLength (4 * key_words) }
    ensures schedule { IsSchedule words.new key_words }
    ensures key { take key_words words.new ≡ take key_words words.old }
{
    for i in key_words..4 * key_words + 28 {
        words[i] = words[i - key_words] ^ schedule_core(key_words, i, words[i - 1]);
    }
}

// The state of the four words from a place on.
pub(crate) fn four_words(words: &[u32; SCHEDULE_WORDS], place: usize) -> State
    requires { place + 4 ≤ 60 }
    ensures { result ≡ state_at words.now place }
{
    State {
        a: words[place],
        b: words[place + 1],
        c: words[place + 2],
        d: words[place + 3],
    }
}
