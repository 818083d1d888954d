// What the test tables share: octets and keys, from hexadecimal digits.
ghost use Rattle.std.specs.Prelude.{◌≤◌};

use perc_kdf::{Kind, Master};
use perc_srtp::Keys;

mod rtcp;
mod rtp;

// How many octets a text in hexadecimal digits spells, at most `N`.
fn size<const N: usize>(digits: &str) -> usize
    ensures { result ≤ N }
{
    (digits.len() / 2).min(N)
}

// The octets that it spells, with zeros behind them.
fn octets<const N: usize>(digits: &str) -> [u8; N] {
    let mut octets = [0; N];
    let _ = hex::decode_to_slice(digits, &mut octets[..size::<N>(digits)]);
    octets
}

// The keys for packets of this kind that a master key and a master salt give.
fn keys_of(key: &str, salt: &str, kind: Kind) -> Option<Keys> {
    let master = Master::new(&octets::<32>(key)[..size::<32>(key)], &octets(salt))?;
    Some(Keys::new(&master, kind))
}
