//! Galois/Counter Mode with AES (NIST SP 800-38D), for an IV of 96 bits and a tag of 128.
#![tactic(auto)]

ghost use Rattle.std.specs.Prelude.{◌≡◌, ◌≤◌, ◌↔◌, ◌++◌, None, Some, length, OnOk, OnErr, IsOk, IsTrue, MatchResult};
ghost use Rattle.perc_aes.specs.Cipher.{IsKey};
ghost use Rattle.perc_gcm.specs.Gcm.{Verifies, ciphertext, sealed_text, tag, unsealed_text};

mod counter;
mod field;
mod hash;
pub mod laws;
mod table;

use counter::{add_key_stream, masked_counter};
use field::block_of;
use hash::{hash_octets, hash_table};
use perc_aes::AesKey;
pub use table::HTable;

/// How many octets a tag has.
pub const TAG_LEN: usize = 16;

/// The tag is wrong for the additional data and the cipher text.
#[derive(Clone, Copy, Debug, PartialEq, Eq)]
pub struct TagMismatch;

/// Encrypts a text in place, and returns its tag (SP 800-38D section 7.1). The tag covers the additional data and the
/// cipher text. The additional data and the text have at most 65536 octets each. The caller never takes an IV twice
/// under one key.
pub fn seal(key: &AesKey, iv: &[u8; 12], aad: &[u8], text: &mut [u8]) -> [u8; 16]
    requires aad_length { length aad.now ≤ 65536 }
    requires text_length { length text.old ≤ 65536 }
    ensures text { text.new ≡ ciphertext key.now iv.now text.old }
    ensures tag { result ≡ tag key.now iv.now aad.now text.new }
    ensures verifies { Verifies key.now iv.now aad.now text.new result }
    ensures sealed { text.new ++ result ≡ sealed_text key.now iv.now aad.now text.old }
    ensures key { IsKey key.now }
{
    add_key_stream(key, iv, text);
    tag_of(key, iv, aad, text)
}

/// Decrypts a text in place where the tag is right for it and the additional data (SP 800-38D section 7.2). Refuses it
/// where the tag is wrong, and then leaves it as it was: all octets of the tag are compared before any is decrypted.
/// The additional data and the text have at most 65536 octets each.
pub fn unseal(
    key: &AesKey,
    iv: &[u8; 12],
    aad: &[u8],
    text: &mut [u8],
    tag: &[u8; 16],
) -> Result<(), TagMismatch>
    requires aad_length { length aad.now ≤ 65536 }
    requires text_length { length text.old ≤ 65536 }
    ensures verdict { IsOk result ↔ Verifies key.now iv.now aad.now text.old tag.now }
    ensures opened { OnOk result (ciphertext key.now iv.now text.new ≡ text.old) }
    ensures text { OnOk result (text.new ≡ ciphertext key.now iv.now text.old) }
    ensures refused { OnErr result (text.new ≡ text.old) }
    ensures answer { MatchResult result (λ _. unsealed_text key.now iv.now aad.now (text.old ++ tag.now) ≡ Some text.new) (λ _. unsealed_text key.now iv.now aad.now (text.old ++ tag.now) ≡ None) }
    ensures key { IsKey key.now }
{
    if !are_same(tag, &tag_of(key, iv, aad, text)) {
        return Err(TagMismatch);
    }
    add_key_stream(key, iv, text);
    Ok(())
}

/// The tag that these 16 octets are.
pub fn tag_in(octets: &[u8]) -> [u8; 16]
    requires { length octets.now ≡ 16 }
    ensures { result ≡ octets.now }
{
    let mut tag = [0; TAG_LEN];
    tag.copy_from_slice(octets);
    tag
}

// The tag of additional data and a cipher text.
fn tag_of(key: &AesKey, iv: &[u8; 12], aad: &[u8], cipher: &[u8]) -> [u8; 16]
    requires aad_length { length aad.now ≤ 65536 }
    requires cipher_length { length cipher.now ≤ 65536 }
    ensures value { result ≡ tag key.now iv.now aad.now cipher.now }
    ensures key { IsKey key.now }
{
    let table = hash_table(key);
    let lengths = (8 * aad.len() as u128) << 64 | 8 * cipher.len() as u128;
    let aad_hash = hash_octets(&table, 0, aad);
    let text_hash = hash_octets(&table, aad_hash, cipher);
    let hash = table.product(text_hash ^ lengths);
    let mask = masked_counter(key, iv, 0);
    block_of(hash ^ u128::from_be_bytes(mask))
}

// Whether two tags are the same. It looks at all octets, whichever differ.
fn are_same(a: &[u8; 16], b: &[u8; 16]) -> bool
    ensures { IsTrue result ↔ (a.now ≡ b.now) }
{
    let mut differences = 0;
    for i in 0..16 {
        differences |= a[i] ^ b[i];
    }
    differences == 0
}
