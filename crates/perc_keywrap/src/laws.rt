//! What holds of key wrap for every key and plain text. The functions do nothing: their contracts are the laws.
ghost use Rattle.std.specs.Prelude.{◌≡◌, ℕ, ◌<◌, ◌↔◌, List, Some, None, length, slice_index};
ghost use Rattle.perc_aes.specs.Cipher.{IsKey};
ghost use Rattle.perc_keywrap.specs.Unwrap.{unwrapped};
ghost use Rattle.perc_keywrap.specs.Wrap.{IsWrapped, wrapped_length};

/// No two plain texts are wrapped to the same octets under a key.
pub fn one_plain_text()
    ensures { (key a b octets : List ℕ) → IsKey key → IsWrapped key a octets → IsWrapped key b octets → a ≡ b }
{}

/// What is wrapped has 8 octets more than the plain text padded to a multiple of 8.
pub fn wrapped_octets()
    ensures length { (key plain octets : List ℕ) → IsWrapped key plain octets → length octets ≡ wrapped_length (length plain) }
    ensures in_range { (key plain octets : List ℕ) → IsKey key → IsWrapped key plain octets → (k : ℕ) → slice_index octets k < 256 }
{}

/// Octets are unwrapped to the plain text that is wrapped to them, and to none exactly where none is.
pub fn unwrapping()
    ensures some { (key octets plain : List ℕ) → IsKey key → (unwrapped key octets ≡ Some plain) ↔ IsWrapped key plain octets }
    ensures none { (key octets : List ℕ) → (unwrapped key octets ≡ None) ↔ ((plain : List ℕ) → IsWrapped key plain octets → ⊥) }
{}
