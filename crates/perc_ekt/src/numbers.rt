// Numbers at an offset among octets, the high octet first.
ghost use Rattle.std.specs.Prelude.{◌≡◌, ◌+◌, ◌≤◌, length, drop};
ghost use Rattle.byteorder.specs.Endian.{big_number};

use byteorder::{BigEndian, ByteOrder};

/// The number in the two octets from `offset`.
pub(crate) fn u16_at(octets: &[u8], offset: usize) -> u16
    requires { offset + 2 ≤ length octets.now }
    ensures { result ≡ big_number 2 (drop offset octets.now) }
{
    BigEndian::read_u16(&octets[offset..])
}

/// The number in the three octets from `offset`.
pub(crate) fn u24_at(octets: &[u8], offset: usize) -> u32
    requires { offset + 3 ≤ length octets.now }
    ensures { result ≡ big_number 3 (drop offset octets.now) }
{
    BigEndian::read_u24(&octets[offset..])
}

/// The number in the four octets from `offset`.
pub(crate) fn u32_at(octets: &[u8], offset: usize) -> u32
    requires { offset + 4 ≤ length octets.now }
    ensures { result ≡ big_number 4 (drop offset octets.now) }
{
    BigEndian::read_u32(&octets[offset..])
}
