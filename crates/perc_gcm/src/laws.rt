//! What holds of the mode for every key, IV and text, and of the field that it computes in.
ghost use Rattle.std.specs.Prelude.{◌≡◌, ◌↔◌, ℕ, ◌+◌, ◌^◌, ◌<◌, List, None, Some, IsTrue, length, slice_index};
ghost use Rattle.perc_aes.specs.Cipher.{IsKey};
ghost use Rattle.perc_gcm.specs.Field.{add, one, product};
ghost use Rattle.perc_gcm.specs.Gcm.{Verifies, ciphertext, sealed_text, tag, unsealed_text, verifies};

/// A text that was sealed can be opened: its tag verifies and no other does, to encrypt its cipher text gives it back,
/// and no other text has that cipher text under the key and the IV. It does nothing: its contract is the law.
pub fn opening()
    ensures verifies { (key iv aad text : List ℕ) → Verifies key iv aad (ciphertext key iv text) (tag key iv aad (ciphertext key iv text)) }
    ensures decides { (key iv aad cipher t : List ℕ) → IsTrue (verifies key iv aad cipher t) ↔ Verifies key iv aad cipher t }
    ensures one_tag { (key iv aad cipher t u : List ℕ) → Verifies key iv aad cipher t → Verifies key iv aad cipher u → t ≡ u }
    ensures back { (key iv text : List ℕ) → ciphertext key iv (ciphertext key iv text) ≡ text }
    ensures injective { (key iv a b : List ℕ) → ciphertext key iv a ≡ ciphertext key iv b → a ≡ b }
{}

/// What opens to a text is what was sealed of it, and nothing is in two ways; what doesn't open was sealed of no text. It
/// does nothing: its contract is the law.
pub fn unsealing()
    ensures opens { (key iv aad sealed text : List ℕ) → (unsealed_text key iv aad sealed ≡ Some text) ↔ (sealed ≡ sealed_text key iv aad text) }
    ensures refuses { (key iv aad sealed : List ℕ) → (unsealed_text key iv aad sealed ≡ None) ↔ ((text : List ℕ) → sealed ≡ sealed_text key iv aad text → ⊥) }
    ensures injective { (key iv aad a b : List ℕ) → sealed_text key iv aad a ≡ sealed_text key iv aad b → a ≡ b }
{}

/// A tag over additional data and a cipher text comes from one IV under a key. It does nothing: its contract is the law.
pub fn one_iv()
    ensures { (key iv other aad cipher : List ℕ) → IsKey key → length iv ≡ 12 → length other ≡ 12 → ((k : ℕ) → slice_index iv k < 256)
        → ((k : ℕ) → slice_index other k < 256) → tag key iv aad cipher ≡ tag key other aad cipher → iv ≡ other }
{}

/// A cipher text is as many octets as its text, and a tag is 16. It does nothing: its contract is the law.
pub fn octets()
    ensures text_length { (key iv text : List ℕ) → length (ciphertext key iv text) ≡ length text }
    ensures text_octets { (key iv text : List ℕ) → IsKey key → length iv ≡ 12 → ((k : ℕ) → slice_index iv k < 256)
        → ((k : ℕ) → slice_index text k < 256) → (k : ℕ) → slice_index (ciphertext key iv text) k < 256 }
    ensures tag_length { (key iv aad cipher : List ℕ) → length (tag key iv aad cipher) ≡ 16 }
    ensures tag_octets { (key iv aad cipher : List ℕ) (k : ℕ) → slice_index (tag key iv aad cipher) k < 256 }
    ensures sealed_length { (key iv aad text : List ℕ) → length (sealed_text key iv aad text) ≡ length text + 16 }
    ensures sealed_octets { (key iv aad text : List ℕ) → IsKey key → length iv ≡ 12 → ((k : ℕ) → slice_index iv k < 256)
        → ((k : ℕ) → slice_index text k < 256) → (k : ℕ) → slice_index (sealed_text key iv aad text) k < 256 }
{}

/// Products of elements are elements, associative and commutative, with 1 neutral, and linear. It does nothing: its
/// contract is the law.
pub fn field()
    ensures element { (a b : ℕ) → a < 2 ^ 128 → product a b < 2 ^ 128 }
    ensures associative { (a b c : ℕ) → a < 2 ^ 128 → b < 2 ^ 128 → c < 2 ^ 128 → product (product a b) c ≡ product a (product b c) }
    ensures commutative { (a b : ℕ) → a < 2 ^ 128 → b < 2 ^ 128 → product a b ≡ product b a }
    ensures neutral { (a : ℕ) → product a one ≡ a }
    ensures linear { (a b c : ℕ) → product (add a b) c ≡ add (product a c) (product b c) }
{}
