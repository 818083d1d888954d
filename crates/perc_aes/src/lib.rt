//! The block cipher AES (FIPS 197).
#![tactic(auto)]

ghost use Rattle.std.specs.Prelude.{◌≡◌, ℕ, ◌≤◌, List, length, SomeIff};
ghost use Rattle.perc_aes.specs.Cipher.{IsBlock, IsKey, IsKeyLength, aes, round_key, rounds};
ghost use Rattle.perc_aes.specs.Words.{octets_of};

mod cipher;
mod expansion;
pub mod laws;
#[cfg(test)]
mod plain;
mod state;
mod tables;
#[cfg(test)]
mod tests;

use cipher::{inverse_last_round, inverse_round, last_round, whole_round};
use expansion::{SCHEDULE_WORDS, copy_key, expand, four_words};
use state::State;
use std::marker::Model;

/// A key of 128, 192 or 256 bits with its schedule (FIPS 197 section 5.2). Its value is the key's octets.
#[derive(Drop)]
pub struct AesKey {
    /// How many words the key has.
    key_words: usize,
    /// The words of the schedule, which begins with the key.
    words: [u32; SCHEDULE_WORDS],
}

impl Model for AesKey {
    ghost use Rattle.std.specs.Prelude.{List, ℕ, take};
    ghost use Rattle.perc_aes.specs.KeySchedule.{IsSchedule};
    ghost use Rattle.perc_aes.specs.Words.{octets_of_words};

    ghost Value = { List ℕ };

    ghost view = { λ a. octets_of_words (take a.key_words a.words) };

    ghost invariant = { λ a. IsSchedule a.words a.key_words };
}

impl AesKey {
    /// Expands a key of 16, 24 or 32 octets. None for any other length (FIPS 197 section 5.2).
    pub fn new(key: &[u8]) -> Option<AesKey>
        ensures { SomeIff result (IsKeyLength (length key.now)) key.now }
    {
        if !matches!(key.len(), 16 | 24 | 32) {
            return None;
        }
        let key_words = key.len() / 4;
        let mut words = [0; SCHEDULE_WORDS];
        copy_key(&mut words, key);
        expand(&mut words, key_words);
        Some(AesKey { key_words, words })
    }

    /// Encrypts a block of 16 octets in place: the cipher of FIPS 197 section 5.1.
    pub fn encrypt_block(&self, block: &mut [u8; 16])
        ensures value { block.new ≡ aes self.now block.old }
        ensures key { IsKey self.now }
    {
        let last = self.rounds();
        let mut state = State::of_block(block).add(self.round_key(0));
        for round in 1..last {
            state = whole_round(state, self.round_key(round));
        }
        let octets = last_round(state, self.round_key(last)).block();
        *block = octets;
    }

    /// Decrypts a block of 16 octets in place: the inverse cipher of FIPS 197 section 5.3. It leaves the one block
    /// that the cipher takes to the block given.
    pub fn decrypt_block(&self, block: &mut [u8; 16])
        ensures block { IsBlock block.new }
        ensures value { aes self.now block.new ≡ block.old }
        ensures only { (b : List ℕ) → IsBlock b → aes self.now b ≡ block.old → block.new ≡ b }
        ensures key { IsKey self.now }
    {
        let rounds = self.rounds();
        let mut state = State::of_block(block).add(self.round_key(rounds));
        for round in (1..rounds).rev() {
            state = inverse_round(state, self.round_key(round));
        }
        let octets = inverse_last_round(state, self.round_key(0)).block();
        *block = octets;
    }

    // How many rounds the key has: 10, 12 or 14.
    fn rounds(&self) -> usize
        ensures value { result ≡ rounds self.now }
        ensures key { IsKey self.now }
    {
        self.key_words + 6
    }

    // The key of a round.
    fn round_key(&self, round: usize) -> State
        requires { round ≤ rounds self.now }
        ensures { octets_of result ≡ round_key self.now round }
    {
        let words = &self.words;
        four_words(words, 4 * round)
    }
}
