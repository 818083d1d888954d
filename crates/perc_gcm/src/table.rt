// Products by one element, by tables.
ghost use Rattle.std.specs.Prelude.{◌≡◌, ℕ, ◌*◌, ◌^◌, ◌<◌, slice_index};
ghost use Rattle.perc_gcm.specs.Field.{add, product, shifted};
ghost use Rattle.perc_gcm.specs.Gcm.{element};
ghost use Rattle.perc_gcm.specs.Table.{polynomial, square};

use crate::field::{block_of, times_x, times_x4, times_x8};
use std::marker::Model;

/// An element of the field of GHASH (SP 800-38D section 6.3), with its products by the sixteen polynomials of degree
/// below 4, by which it is multiplied four coefficients at a time. Its value is the element and these products.
#[derive(Drop)]
pub struct HTable {
    entries: [u128; 16],
}

impl Model for HTable {
    ghost use Rattle.std.specs.Prelude.{◌≡◌, slice_index};
    ghost use Rattle.perc_gcm.specs.Table.{Table, multiples};

    ghost Value = { Table };

    ghost view = { λ t. record { h = slice_index t.entries 8; entries = t.entries } };

    ghost invariant = { λ t. t.entries ≡ multiples (slice_index t.entries 8) };
}

impl HTable {
    /// The table of the element that the 16 octets of a block spell, the coefficient of 1 in the high bit of octet 0.
    pub fn new(h: &[u8; 16]) -> HTable
        ensures element { result.h ≡ element h.now }
        ensures entries { (i : ℕ) → i < 16 → slice_index result.entries i ≡ product (polynomial i) (element h.now) }
    {
        HTable::of(u128::from_be_bytes(*h))
    }

    // The table of an element.
    pub(crate) fn of(h: u128) -> HTable
        ensures element { result.h ≡ h }
        ensures entries { (i : ℕ) → i < 16 → slice_index result.entries i ≡ product (polynomial i) h }
    {
        let h_x = times_x(h);
        let h_x2 = times_x(h_x);
        let h_x3 = times_x(h_x2);
        let high = [0, h_x, h, h ^ h_x];
        let low = [0, h_x3, h_x2, h_x2 ^ h_x3];
        HTable {
            entries: [
                high[0] ^ low[0],
                high[0] ^ low[1],
                high[0] ^ low[2],
                high[0] ^ low[3],
                high[1] ^ low[0],
                high[1] ^ low[1],
                high[1] ^ low[2],
                high[1] ^ low[3],
                high[2] ^ low[0],
                high[2] ^ low[1],
                high[2] ^ low[2],
                high[2] ^ low[3],
                high[3] ^ low[0],
                high[3] ^ low[1],
                high[3] ^ low[2],
                high[3] ^ low[3],
            ],
        }
    }

    // The element of the table.
    fn element(&self) -> u128
        ensures { result ≡ self.now.h }
    {
        self.entries[8]
    }

    /// Multiplies the element that a block spells by the element of the table, in place.
    pub fn times(&self, block: &mut [u8; 16])
        ensures { element block.new ≡ product (element block.old) self.now.h }
    {
        *block = block_of(self.product(u128::from_be_bytes(*block)));
    }

    // The product of an element and that of the table, from the last four coefficients to the first.
    pub(crate) fn product(&self, element: u128) -> u128
        ensures { result ≡ product element self.now.h }
    {
        let mut rest = element;
        let mut sum = 0;
        for _i in 0..32u32 {
            sum = times_x4(sum) ^ self.entries[(rest & 15) as usize];
            rest >>= 4;
        }
        sum
    }

    // The product by the polynomial that a nibble spells.
    fn at(&self, nibble: u128) -> u128
        requires { nibble < 16 }
        ensures { result ≡ product (polynomial nibble) self.now.h }
    {
        self.entries[nibble as usize]
    }
}

// The tables of an element and of it times x to the power 4, by which it is multiplied eight coefficients at a time.
#[derive(Drop)]
pub(crate) struct OctetTable {
    pub(crate) whole: HTable,
    moved: HTable,
    pub(crate) ghost fits: { whole.h < 2 ^ 128 },
    ghost is_moved: { moved.h ≡ shifted whole.h 4 },
}

impl OctetTable {
    pub(crate) fn of(h: u128) -> OctetTable
        ensures { result.whole.h ≡ h }
    {
        OctetTable {
            whole: HTable::of(h),
            moved: HTable::of(times_x4(h)),
        }
    }

    // The tables of the square of the element.
    pub(crate) fn squared(&self) -> OctetTable
        ensures { result.whole.h ≡ square self.now.whole.h }
    {
        OctetTable::of(self.product(self.whole.element()))
    }

    // The product of an element and that of the tables, from the last eight coefficients to the first.
    pub(crate) fn product(&self, element: u128) -> u128
        ensures { result ≡ product element self.now.whole.h }
    {
        let mut rest = element;
        let mut sum = 0;
        for _i in 0..16u32 {
            sum = times_x8(sum) ^ self.at(rest & 255);
            rest >>= 8;
        }
        sum
    }

    // The product by the polynomial of degree below 8 that an octet spells.
    fn at(&self, octet: u128) -> u128
        requires { octet < 256 }
        ensures { result ≡ product (octet * 2 ^ 120) self.now.whole.h }
    {
        self.whole.at(octet >> 4) ^ self.moved.at(octet & 15)
    }
}

// The product of one element and the square, and that of another and the element, added. A block that comes one before
// another is multiplied once more than that one.
pub(crate) fn products(once: &OctetTable, twice: &OctetTable, first: u128, second: u128) -> u128
    requires { twice.now.whole.h ≡ square once.now.whole.h }
    ensures { result ≡ add (product first (square once.now.whole.h)) (product second once.now.whole.h) }
{
    let mut more = first;
    let mut rest = second;
    let mut sum = 0;
    for _i in 0..16u32 {
        sum = times_x8(sum) ^ twice.at(more & 255) ^ once.at(rest & 255);
        more >>= 8;
        rest >>= 8;
    }
    sum
}
