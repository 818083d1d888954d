// The steps on the registers, which stand end to end, and what undoes them (RFC 3394 section 2.2).
ghost use Rattle.std.specs.Prelude.{◌≡◌, ℕ, ◌+◌, ◌*◌, ◌%◌, ◌<◌, ◌≤◌, length, slice_index};
ghost use Rattle.perc_aes.specs.Cipher.{IsKey, aes};
ghost use Rattle.perc_keywrap.specs.Wrap.{joined, put, numbered, step, wrapped_registers};

use perc_aes::AesKey;

// The block of the first register and register i.
fn joined(octets: &[u8], i: usize) -> [u8; 16]
    requires after_first { 1 ≤ i }
    requires within { 8 * i + 8 ≤ length octets.now }
    ensures { result ≡ joined octets.now i }
{
    let mut block = [0; 16];
    block[..8].copy_from_slice(&octets[..8]);
    block[8..].copy_from_slice(&octets[8 * i..8 * i + 8]);
    block
}

// Puts the halves of a block in place of those two.
fn put(octets: &mut [u8], i: usize, block: &[u8; 16])
    requires after_first { 1 ≤ i }
    requires within { 8 * i + 8 ≤ length octets.old }
    ensures { octets.new ≡ put octets.old i block.now }
{
    octets[..8].copy_from_slice(&block[..8]);
    octets[8 * i..8 * i + 8].copy_from_slice(&block[8..]);
}

// Adds a number to the first half of a block, which undoes itself.
fn numbered(block: [u8; 16], number: u64) -> [u8; 16]
    ensures { result ≡ numbered block number }
{
    let mut sum = block;
    let octets = number.to_be_bytes();
    for k in 0..8 {
        sum[k] ^= octets[k];
    }
    sum
}

fn wrap_step(key: &AesKey, octets: &mut [u8], i: usize, number: u64)
    requires after_first { 1 ≤ i }
    requires within { 8 * i + 8 ≤ length octets.old }
    ensures value { octets.new ≡ step key.now octets.old i number }
    ensures key { IsKey key.now }
{
    let mut pair = joined(octets, i);
    key.encrypt_block(&mut pair);
    put(octets, i, &numbered(pair, number));
}

fn unwrap_step(key: &AesKey, octets: &mut [u8], i: usize, number: u64)
    requires after_first { 1 ≤ i }
    requires within { 8 * i + 8 ≤ length octets.old }
    ensures value { step key.now octets.new i number ≡ octets.old }
    ensures octets { (k : ℕ) → slice_index octets.new k < 256 }
    ensures key { IsKey key.now }
{
    let mut pair = numbered(joined(octets, i), number);
    key.decrypt_block(&mut pair);
    put(octets, i, &pair);
}

fn copied(octets: &[u8]) -> [u8; 16]
    requires { length octets.now ≡ 16 }
    ensures { result ≡ octets.now }
{
    let mut block = [0; 16];
    block.copy_from_slice(octets);
    block
}

fn wrap_block(key: &AesKey, octets: &mut [u8])
    requires { length octets.old ≡ 16 }
    ensures value { octets.new ≡ aes key.now octets.old }
    ensures key { IsKey key.now }
{
    let mut block = copied(octets);
    key.encrypt_block(&mut block);
    octets.copy_from_slice(&block);
}

fn unwrap_block(key: &AesKey, octets: &mut [u8])
    requires { length octets.old ≡ 16 }
    ensures value { aes key.now octets.new ≡ octets.old }
    ensures octets { (k : ℕ) → slice_index octets.new k < 256 }
    ensures key { IsKey key.now }
{
    let mut block = copied(octets);
    key.decrypt_block(&mut block);
    octets.copy_from_slice(&block);
}

/// Takes the registers through the cipher, where there are two, or through six rounds of steps.
pub(crate) fn wrap_registers(key: &AesKey, octets: &mut [u8])
    requires some { 16 ≤ length octets.old }
    requires few { length octets.old ≤ 4104 }
    requires whole { length octets.old % 8 ≡ 0 }
    ensures value { octets.new ≡ wrapped_registers key.now octets.old }
    ensures key { IsKey key.now }
{
    if octets.len() == 16 {
        return wrap_block(key, octets);
    }
    let count = octets.len() / 8 - 1;
    for step in 0..6 * count {
        wrap_step(key, octets, step % count + 1, step as u64 + 1);
    }
}

/// Undoes wrap_registers.
pub(crate) fn unwrap_registers(key: &AesKey, octets: &mut [u8])
    requires some { 16 ≤ length octets.old }
    requires few { length octets.old ≤ 4104 }
    requires whole { length octets.old % 8 ≡ 0 }
    ensures value { wrapped_registers key.now octets.new ≡ octets.old }
    ensures octets { (k : ℕ) → slice_index octets.new k < 256 }
    ensures key { IsKey key.now }
{
    if octets.len() == 16 {
        return unwrap_block(key, octets);
    }
    let count = octets.len() / 8 - 1;
    for step in (0..6 * count).rev() {
        unwrap_step(key, octets, step % count + 1, step as u64 + 1);
    }
}
