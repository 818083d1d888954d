// The cipher octet by octet, as FIPS 197 writes it, which the words and tables are compared with.
ghost use Rattle.std.specs.Prelude.{◌<◌, ◌≤◌};

use crate::tables::{inverse_sub_octet, sub_octet};

// SubBytes and its inverse.
fn sub_bytes(block: &mut [u8; 16]) {
    for octet in block.iter_mut() {
        *octet = sub_octet(*octet);
    }
}

fn inverse_sub_bytes(block: &mut [u8; 16]) {
    for octet in block.iter_mut() {
        *octet = inverse_sub_octet(*octet);
    }
}

// Row r turned left by so many times r. Row r is the octets r, r + 4, r + 8 and r + 12.
fn turn_rows(block: &mut [u8; 16], by: usize)
    requires { by < 4 }
{
    let old = *block;
    for i in 0..16 {
        let row = i % 4;
        block[i] = old[(i + 4 * by * row) % 16];
    }
}

fn product(factor: u8, octet: u8) -> u8 {
    let mut sum = 0;
    let mut power = octet;
    let mut bits = factor;
    for _ in 0..8 {
        if bits & 1 == 1 {
            sum ^= power;
        }
        bits >>= 1;
        let doubled = power << 1;
        power = if power < 128 { doubled } else { doubled ^ 0x1b };
    }
    sum
}

// Each column times the matrix whose first row this is, each row the one above turned right.
fn mix_columns(block: &mut [u8; 16], row: [u8; 4]) {
    let old = *block;
    for i in 0..16 {
        let column = i / 4 * 4;
        let mut sum = 0;
        for k in 0..4 {
            sum ^= product(row[k], old[column + (i + k) % 4]);
        }
        block[i] = sum;
    }
}

fn add_round_key(block: &mut [u8; 16], schedule: &[u8; 240], round: usize)
    requires { round ≤ 14 }
{
    for i in 0..16 {
        block[i] ^= schedule[16 * round + i];
    }
}

// The schedule of the key that is the first key_size octets, octet by octet.
fn expand(key: &[u8; 32], key_size: usize) -> [u8; 240]
    requires least { 16 ≤ key_size }
    requires most { key_size ≤ 32 }
{
    let mut octets = [0; 240];
    octets[..32].copy_from_slice(key);
    let key_words = key_size / 4;
    let mut constant = 1;
    for i in key_words..60 {
        let first = i % key_words == 0;
        for k in 0..4 {
            let before = 4 * i - 4;
            let core = if first && k == 0 {
                sub_octet(octets[before + 1]) ^ constant
            } else if first {
                sub_octet(octets[before + (k + 1) % 4])
            } else if key_words == 8 && i % 8 == 4 {
                sub_octet(octets[before + k])
            } else {
                octets[before + k]
            };
            octets[4 * i + k] = octets[4 * (i - key_words) + k] ^ core;
        }
        if first {
            constant = product(2, constant);
        }
    }
    octets
}

/// Encrypts a block under the key that is the first key_size octets.
pub(crate) fn encrypt(key: &[u8; 32], key_size: usize, block: &mut [u8; 16])
    requires least { 16 ≤ key_size }
    requires most { key_size ≤ 32 }
{
    let schedule = expand(key, key_size);
    let last = key_size / 4 + 6;
    add_round_key(block, &schedule, 0);
    for round in 1..last {
        sub_bytes(block);
        turn_rows(block, 1);
        mix_columns(block, [2, 3, 1, 1]);
        add_round_key(block, &schedule, round);
    }
    sub_bytes(block);
    turn_rows(block, 1);
    add_round_key(block, &schedule, last);
}

/// Decrypts a block under the key that is the first key_size octets.
pub(crate) fn decrypt(key: &[u8; 32], key_size: usize, block: &mut [u8; 16])
    requires least { 16 ≤ key_size }
    requires most { key_size ≤ 32 }
{
    let schedule = expand(key, key_size);
    let last = key_size / 4 + 6;
    add_round_key(block, &schedule, last);
    turn_rows(block, 3);
    inverse_sub_bytes(block);
    for round in (1..last).rev() {
        add_round_key(block, &schedule, round);
        mix_columns(block, [14, 11, 13, 9]);
        turn_rows(block, 3);
        inverse_sub_bytes(block);
    }
    add_round_key(block, &schedule, 0);
}
