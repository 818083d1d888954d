// The counter blocks, and the key stream that the cipher makes of them (SP 800-38D sections 6.2 and 6.5).
ghost use Rattle.std.specs.Prelude.{◌≡◌, ℕ, ◌+◌, ◌*◌, ◌^◌, ◌<◌, ◌≤◌, length, slice_index, bit_xor};
ghost use Rattle.perc_aes.specs.Cipher.{aes};
ghost use Rattle.perc_gcm.specs.Gcm.{ciphertext, counter_block};

use crate::field::block_of;
use perc_aes::AesKey;

// The cipher of a counter block.
pub(crate) fn masked_counter(key: &AesKey, iv: &[u8; 12], count: u32) -> [u8; 16]
    requires { count + 1 < 2 ^ 32 }
    ensures { result ≡ aes key.now (counter_block iv.now count) }
{
    let mut block = [0; 16];
    block[..12].copy_from_slice(iv);
    block[12..].copy_from_slice(&(count + 1).to_be_bytes());
    key.encrypt_block(&mut block);
    block
}

// Adds a mask to a block.
fn add_mask(block: &mut [u8; 16], mask: &[u8; 16])
    ensures { (k : ℕ) → k < 16 → slice_index block.new k ≡ bit_xor (slice_index block.old k) (slice_index mask.now k) }
{
    *block = block_of(u128::from_be_bytes(*block) ^ u128::from_be_bytes(*mask));
}

// Adds the first octets of a mask to at most a block.
fn add_part(octets: &mut [u8], mask: &[u8; 16])
    requires { length octets.old ≤ 16 }
    ensures { (k : ℕ) → k < length octets.old → slice_index octets.new k ≡ bit_xor (slice_index octets.old k) (slice_index mask.now k) }
{
    if let Some(block) = octets.as_mut_array::<16>() {
        add_mask(block, mask);
        return;
    }
    for i in 0..octets.len() {
        octets[i] ^= mask[i];
    }
}

// Adds the key stream, block by block. It begins with counter block 1.
pub(crate) fn add_key_stream(key: &AesKey, iv: &[u8; 12], text: &mut [u8])
    requires { length text.old ≤ 65536 }
    ensures { text.new ≡ ciphertext key.now iv.now text.old }
{
    for i in 0..text.len().div_ceil(16) {
        let mask = masked_counter(key, iv, i as u32 + 1);
        let end = text.len().min(16 * i + 16);
        add_part(&mut text[16 * i..end], &mask);
    }
}
