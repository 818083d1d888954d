//! What holds of the cipher for every key and block.
ghost use Rattle.std.specs.Prelude.{◌≡◌, ℕ, List};
ghost use Rattle.perc_aes.specs.Cipher.{IsBlock, IsKey, aes};

/// The cipher is a bijection of the blocks for every key. It does nothing: its contract is the law.
pub fn bijection()
    ensures blocks { (key b : List ℕ) → IsKey key → IsBlock b → IsBlock (aes key b) }
    ensures injective { (key a b : List ℕ) → IsKey key → IsBlock a → IsBlock b → aes key a ≡ aes key b → a ≡ b }
    ensures surjective { (key c : List ℕ) → IsKey key → IsBlock c → (b : List ℕ) × IsBlock b × (aes key b ≡ c) }
{}
