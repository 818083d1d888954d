// Members of a conference, and what they send to its distributor.
ghost use Rattle.std.specs.Prelude.{IfOk};
ghost use Rattle.perc_distributor.specs.Inbound.{Packet};
ghost use Rattle.perc_distributor.specs.Kept.{IsPlain};

use perc_distributor::{Inbound, InboundFault, Plain};
use perc_kdf::Master;
use perc_keyset::{Entry, KeySet, Op};
use perc_ohb::{Change, ExtChange};
use std::alloc::Global;
use std::process::Abort;

pub(crate) const KEPT: Change<'static> = Change {
    pt: None,
    shift: 0,
    marker: None,
    extension: ExtChange::Keep,
};

// What Ann sends first.
pub(crate) const FIRST: &str =
    "80e003e8000000a011111111f2f3563309dd1044846eb835d57de8df942ab4c77ea1a3a1658a8e535dcf603b0e4b308c68d41866f136ad456652665196b934e253b5e7fc8dfbdab81c923b54034c60e99cc79d23165bf7a200010000002f02";

// Members by their numbers. Nobody is 0.
pub(crate) const ANN: u8 = 1;

pub(crate) const BOB: u8 = 2;

pub(crate) const CAT: u8 = 3;

pub(crate) fn association(number: u8) -> [u8; 16] {
    [number; 16]
}

// A key and a salt of one octet throughout.
fn pair(octet: u8) -> Master {
    Master::new(&[octet; 16], &[octet; 12]).unwrap()
}

// The entry of a member, from 1: Ann's pairs are of the octets c1 and c2, Bob's of c3 and c4, and so on.
pub(crate) fn entry(number: u8) -> Entry {
    let client = number.wrapping_mul(2).wrapping_add(0xbf);
    Entry {
        association: association(number),
        serial: u32::from(number).saturating_sub(1),
        client: pair(client),
        server: pair(client.wrapping_add(1)),
    }
}

// The set of so many members.
pub(crate) fn members(count: u8) -> KeySet {
    let mut set = KeySet::empty();
    for number in 0..count {
        set.absorb(&Op::Add(entry(number.wrapping_add(1))));
    }
    set
}

// The octets that a text in hexadecimal digits spells.
pub(crate) fn octets(rt: &impl Abort, alloc: Global, digits: &str) -> Vec<u8> {
    hex::decode(alloc, digits).expect(rt, "the text is hexadecimal")
}

// What the first 1500 octets of a datagram of a member are opened to.
pub(crate) fn opened(
    inbound: &mut Inbound,
    set: &KeySet,
    from: u8,
    datagram: &[u8],
) -> Result<Plain, InboundFault>
    ensures { IfOk result (λ plain. (packet : Packet) × IsPlain plain packet) }
{
    let mut plain = Plain {
        from: [0; 16],
        rtcp: false,
        octets: [0; 1500],
        len: 0,
        field: 0,
    };
    let datagram = &datagram[..datagram.len().min(1500)];
    match inbound.take(set, &association(from), datagram, &mut plain) {
        Ok(()) => Ok(plain),
        Err(fault) => Err(fault),
    }
}
