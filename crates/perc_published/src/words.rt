// A key set in words of 64 bits, and back.
ghost use Rattle.std.specs.Prelude.{◌≡◌, ℕ, ◌+◌, ◌≤◌, List, ◌++◌, take, drop, length, slice_index};
ghost use Rattle.perc_kdf.specs.Derivation.{IsMasterLength};
ghost use Rattle.perc_keyset.specs.declared.Op.{Op};
ghost use Rattle.perc_keyset.specs.Set.{fold_ops};
ghost use Rattle.perc_published.specs.Words as spec;
ghost use Rattle.perc_published.specs.Words.{octets_at, octets_of, set_in};

use crate::board::WORDS;
use perc_kdf::Master;
use perc_keyset::{Entry, KeySet, Op};

// How many words an entry has.
const ENTRY: usize = 17;

// The words of a set, which so many adds and removals left.
pub(crate) fn spell(set: &KeySet, published: u64) -> [u64; WORDS]
    ensures count { slice_index result 0 ≡ published }
    ensures set { set_in result ≡ set.now }
{
    let mut words = [0; WORDS];
    words[0] = published;
    words[1] = set.len() as u64;
    for i in 0..set.len() {
        put(&mut words, 2 + ENTRY * i, entry_words(*set.at(i)));
    }
    words
}

// Makes the set that of the words.
pub(crate) fn fill(set: &mut KeySet, words: &[u64])
    requires size { length words.now ≡ 1090 }
    requires history { (history : List Op) × (set_in words.now ≡ fold_ops history) }
    ensures { set.new ≡ set_in words.now }
{
    *set = KeySet::empty();
    let count = words[1].min(64) as usize;
    for i in 0..count {
        let at = 2 + ENTRY * i;
        set.absorb(&Op::Add(entry_of(&words[at..at + ENTRY])));
    }
}

// Writes the words of an entry.
fn put(words: &mut [u64], at: usize, entry: [u64; ENTRY])
    requires { at + 17 ≤ length words.old }
    ensures { words.new ≡ take at words.old ++ (entry ++ drop (at + 17) words.old) }
{
    words[at..at + ENTRY].copy_from_slice(&entry);
}

fn entry_words(entry: Entry) -> [u64; ENTRY]
    ensures { spec.entry_of result ≡ entry }
{
    let c = pair_words(&entry.client);
    let s = pair_words(&entry.server);
    [
        word_at(&entry.association, 0),
        word_at(&entry.association, 8),
        u64::from(entry.serial),
        c[0],
        c[1],
        c[2],
        c[3],
        c[4],
        c[5],
        c[6],
        s[0],
        s[1],
        s[2],
        s[3],
        s[4],
        s[5],
        s[6],
    ]
}

fn pair_words(pair: &Master) -> [u64; 7]
    ensures { spec.pair_of result ≡ pair.now }
{
    let key = padded_key(pair.key());
    let salt = padded_salt(*pair.salt());
    [
        pair.key().len() as u64,
        word_at(&key, 0),
        word_at(&key, 8),
        word_at(&key, 16),
        word_at(&key, 24),
        word_at(&salt, 0),
        word_at(&salt, 8),
    ]
}

// A key with zeros behind it.
fn padded_key(key: &[u8]) -> [u8; 32]
    requires { length key.now ≤ 32 }
    ensures { take (length key.now) result ≡ key.now }
{
    let mut octets = [0; 32];
    octets[..key.len()].copy_from_slice(key);
    octets
}

// A salt with zeros behind it.
fn padded_salt(salt: [u8; 12]) -> [u8; 16]
    ensures { take 12 result ≡ salt }
{
    let mut octets = [0; 16];
    octets[..12].copy_from_slice(&salt);
    octets
}

// The word of eight octets, the high one first.
#[tactic(auto, unfolding(crate::specs::Words::octets_of))]
fn word_at(octets: &[u8], at: usize) -> u64
    requires { at + 8 ≤ length octets.now }
    ensures { octets_of result ≡ take 8 (drop at octets.now) }
{
    u64::from_be_bytes([
        octets[at],
        octets[at + 1],
        octets[at + 2],
        octets[at + 3],
        octets[at + 4],
        octets[at + 5],
        octets[at + 6],
        octets[at + 7],
    ])
}

fn entry_of(words: &[u64]) -> Entry
    requires { 17 ≤ length words.now }
    ensures { result ≡ spec.entry_of words.now }
{
    Entry {
        association: two_words(words, 0),
        serial: (words[2] % (1 << 32)) as u32,
        client: pair_of(&words[3..]),
        server: pair_of(&words[10..]),
    }
}

fn pair_of(words: &[u64]) -> Master
    requires { 7 ≤ length words.now }
    ensures { result ≡ spec.pair_of words.now }
{
    let key = key_octets(words);
    Master::new(&key[..key_size(words[0])], &salt_octets(words)).unwrap()
}

// How many octets a key has, by the word.
fn key_size(word: u64) -> usize
    ensures value { result ≡ spec.key_size word }
    ensures length { IsMasterLength result }
{
    if word == 16 { 16 } else { 32 }
}

// The octets of a key with those behind it.
fn key_octets(words: &[u64]) -> [u8; 32]
    requires { 7 ≤ length words.now }
    ensures { result ≡ (octets_at words.now 1 ++ octets_at words.now 2) ++ (octets_at words.now 3 ++ octets_at words.now 4) }
{
    joined(two_words(words, 1), two_words(words, 3))
}

fn joined(front: [u8; 16], back: [u8; 16]) -> [u8; 32]
    ensures { result ≡ front ++ back }
{
    let mut octets = [0; 32];
    octets[..16].copy_from_slice(&front);
    octets[16..].copy_from_slice(&back);
    octets
}

fn salt_octets(words: &[u64]) -> [u8; 12]
    requires { 7 ≤ length words.now }
    ensures { result ≡ take 12 (octets_at words.now 5 ++ octets_at words.now 6) }
{
    let mut octets = [0; 12];
    octets.copy_from_slice(&two_words(words, 5)[..12]);
    octets
}

// The octets of two words.
#[tactic(auto, unfolding(crate::specs::Words::octets_of))]
fn two_words(words: &[u64], at: usize) -> [u8; 16]
    requires { at + 2 ≤ length words.now }
    ensures { result ≡ octets_at words.now at ++ octets_at words.now (at + 1) }
{
    let mut octets = [0; 16];
    octets[..8].copy_from_slice(&words[at].to_be_bytes());
    octets[8..].copy_from_slice(&words[at + 1].to_be_bytes());
    octets
}
