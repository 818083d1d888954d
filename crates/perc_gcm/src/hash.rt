// GHASH (SP 800-38D section 6.4) over lists of octets, and what it is keyed by.
ghost use Rattle.std.specs.Prelude.{◌≡◌, ℕ, ◌<◌, ◌≤◌, length};
ghost use Rattle.perc_aes.specs.Cipher.{IsKey};
ghost use Rattle.perc_gcm.specs.Gcm.{blocks, element, hash_subkey};
ghost use Rattle.perc_gcm.specs.Running.{running};
ghost use Rattle.perc_gcm.specs.Table.{square};

use crate::table::{OctetTable, products};
use perc_aes::AesKey;

// The element of a block, or of the first octets of one with zero octets behind them.
fn element(octets: &[u8]) -> u128
    requires { length octets.now ≤ 16 }
    ensures { result ≡ element octets.now }
{
    let mut block = [0; 16];
    block[..octets.len()].copy_from_slice(octets);
    u128::from_be_bytes(block)
}

// From how many octets on blocks are hashed in pairs: the tables of the square cost as much as the pairs save in six blocks.
const PAIRED: usize = 128;

// What becomes of a hash over the blocks of `octets`, the last one filled up with zero octets.
pub(crate) fn hash_octets(table: &OctetTable, hash: u128, octets: &[u8]) -> u128
    ensures { result ≡ running table.now.whole.h hash (blocks octets.now) }
{
    if octets.len() < PAIRED {
        return hash_singly(table, hash, octets);
    }
    hash_in_pairs(table, &table.squared(), hash, octets)
}

// The same, two blocks at once, by the tables of the element's square too.
fn hash_in_pairs(once: &OctetTable, twice: &OctetTable, hash: u128, octets: &[u8]) -> u128
    requires { twice.now.whole.h ≡ square once.now.whole.h }
    ensures { result ≡ running once.now.whole.h hash (blocks octets.now) }
{
    let mut hash = hash;
    let mut rest = octets;
    while let Some((pair, behind)) = rest.split_first_chunk::<32>() {
        hash = products(
            once,
            twice,
            hash ^ element(&pair[..16]),
            element(&pair[16..]),
        );
        rest = behind;
    }
    hash_singly(once, hash, rest)
}

// The same, one block after the other.
fn hash_singly(table: &OctetTable, hash: u128, octets: &[u8]) -> u128
    ensures { result ≡ running table.now.whole.h hash (blocks octets.now) }
{
    let mut hash = hash;
    let mut rest = octets;
    while let Some((block, behind)) = rest.split_first_chunk() {
        hash = table.product(hash ^ u128::from_be_bytes(*block));
        rest = behind;
    }
    if rest.is_empty() {
        return hash;
    }
    table.product(hash ^ element(rest))
}

// The tables of the hash subkey, the cipher of the zero block.
pub(crate) fn hash_table(key: &AesKey) -> OctetTable
    ensures value { result.whole.h ≡ hash_subkey key.now }
    ensures key { IsKey key.now }
{
    let mut block = [0; 16];
    key.encrypt_block(&mut block);
    OctetTable::of(u128::from_be_bytes(block))
}
