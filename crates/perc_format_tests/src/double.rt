// Double packets that were made outside, packets relayed and opened, and what is refused.
ghost use Rattle.std.specs.Prelude.{◌<◌, ◌≤◌, length, IfSome, IsTrue};
ghost use Rattle.perc_rtp.specs.Header.{IsExtension};
ghost use Rattle.perc_rtp.specs.Media.{is_payload_type};
ghost use Rattle.perc_ohb.specs.Rewriting.{IsExtensionSet, extension_set};

use perc_double::{InnerFault, RelayFault, inner_unseal, relay, relayed_len, seal_double};
use perc_kdf::{Kind, Master};
use perc_ohb::{Change, ExtChange, Ohb, restore};
use perc_rtp::RtpHead;
use perc_srtp::{Keys, RxStream, TxFault, TxStream};

// The change that changes nothing.
const IDLE: Change<'static> = Change {
    pt: None,
    shift: 0,
    marker: None,
    extension: ExtChange::Keep,
};

// One octet more in the block.
const TYPED: Change<'static> = Change {
    pt: Some(100),
    shift: 0,
    marker: None,
    extension: ExtChange::Keep,
};

const FORTH: Change<'static> = Change {
    pt: Some(100),
    shift: 5,
    marker: Some(false),
    extension: ExtChange::Keep,
};

const BACK: Change<'static> = Change {
    pt: Some(96),
    shift: 65531,
    marker: Some(true),
    extension: ExtChange::Keep,
};

const SET: Change<'static> = Change {
    pt: Some(0),
    shift: 0,
    marker: Some(true),
    extension: ExtChange::Set(0xabcd, b""),
};

const SET_ONE: Change<'static> = Change {
    pt: None,
    shift: 65535,
    marker: None,
    extension: ExtChange::Set(0xbede, b"\x10\xff\x00\x00"),
};

const DROP: Change<'static> = Change {
    pt: None,
    shift: 1,
    marker: None,
    extension: ExtChange::Drop,
};

// A packet, the packet sealed, a change, and the packet relayed, as they were made outside. Each has number 1000, which is
// its index.
const VECTORS: [(&str, &str, Change<'static>, &str); 2] = [
    (
        "80e003e8000000a011111111616263",
        "80e003e8000000a011111111f2f3563309dd1044846eb835d57de8df942ab4c77ea1a3a1658a8e535dcf603b0e4b308c",
        FORTH,
        "806403ed000000a01111111145833f981fab824f80de7e67aff265e6e7e0961010c87b33c83ae927fb94093836e1d860659269",
    ),
    (
        "b27f03e8ffffffff1111111100000001fffffffebede000101020304010200000000000007",
        "b27f03e8ffffffff1111111100000001fffffffebede0001010203049293358f9496eb109635cce99fabb578f7c240d46eb20bc2384dd4836fc679f881ac2ddb1bdabbbe0008",
        SET,
        "b28003e8ffffffff1111111100000001fffffffeabcd000092dd50ff18f5f7ddbba034df7adc6b48796e36c1cc39607ba90043c3ca7413284be17515ebf7751cd33cca",
    ),
];

// With P, X, two CSRCs and an extension of one word.
const WHOLE: &str = "b2e003e8000000a01111111100000001fffffffebede000101020304686900000003";

const PLAIN: &str = "80e003e8000000a011111111616263";

// A packet, two changes, and the header and the block after each.
const RELAYS: [(
    &str,
    Change<'static>,
    &str,
    &str,
    Change<'static>,
    &str,
    &str,
); 4] = [
    (
        PLAIN,
        FORTH,
        "806403ed000000a011111111",
        "6003e80f",
        BACK,
        "80e003e8000000a011111111",
        "00",
    ),
    (
        WHOLE,
        FORTH,
        "b26403ed000000a01111111100000001fffffffebede000101020304",
        "6003e80f",
        DROP,
        "a26403ee000000a01111111100000001fffffffe",
        "6003e80f",
    ),
    (
        WHOLE,
        SET,
        "b28003e8000000a01111111100000001fffffffeabcd0000",
        "6002",
        SET_ONE,
        "b28003e7000000a01111111100000001fffffffebede000110ff0000",
        "6003e803",
    ),
    (
        PLAIN,
        SET_ONE,
        "90e003e7000000a011111111bede000110ff0000",
        "03e801",
        DROP,
        "80e003e8000000a011111111",
        "00",
    ),
];

// The octets that a text in hexadecimal digits spells, and zeros behind them.
fn spelled(digits: &str) -> [u8; 1500] {
    let mut octets = [0; 1500];
    let _ = hex::decode_to_slice(digits, &mut octets[..size(digits)]);
    octets
}

// How many octets it spells, at most 1500.
fn size(digits: &str) -> usize
    ensures { result ≤ 1500 }
{
    (digits.len() / 2).min(1500)
}

// The keys of a master whose key and salt have the same octets throughout.
fn keys_of(key: u8, salt: u8) -> Keys {
    let master = Master::new(&[key; 16], &[salt; 12]).unwrap();
    Keys::new(&master, Kind::Srtp)
}

fn inner_keys() -> Keys {
    keys_of(0xd1, 0x02)
}

// Seals a packet at its number, where it is one of the stream and there is room.
fn seal(
    tx: &mut TxStream,
    outer: &Keys,
    packet: &mut [u8; 1500],
    len: usize,
) -> Option<Result<usize, TxFault>> {
    if len > 1467 {
        return None;
    }
    let head = RtpHead::read(&packet[..len]).ok()?;
    if head.ssrc != tx.ssrc() {
        return None;
    }
    let index = u64::from(head.seq);
    Some(seal_double(&inner_keys(), index, tx, outer, packet, len))
}

// Opens a packet hop by hop.
fn open_outer(outer: &Keys, packet: &mut [u8]) -> Option<usize>
    requires { length packet.old ≤ 1500 }
    ensures { IfSome result (λ n. n ≤ length packet.old) }
{
    let head = RtpHead::read(packet).ok()?;
    RxStream::new(head.ssrc).unseal(outer, packet).ok()
}

// Opens the inner octets of an opened packet at an index, and answers where the body begins and ends.
fn open_inner(index: u64, packet: &mut [u8]) -> Option<Result<(usize, usize), InnerFault>>
    requires { length packet.old ≤ 1500 }
{
    let Ok(head) = RtpHead::read(packet) else {
        return None;
    };
    let Ok((ohb, block)) = Ohb::read_end(&packet[head.len..]) else {
        return None;
    };
    let mut header = [0; 72];
    let cut = restore(packet, &ohb, &mut header);
    let last = packet.len() - block;
    let body = &mut packet[head.len..last];
    match inner_unseal(&inner_keys(), index % 65536, &header[..cut], body) {
        Ok(len) => Some(Ok((head.len, head.len + len))),
        Err(fault) => Some(Err(fault)),
    }
}

fn has_extension(extension: ExtChange<'_>) -> bool
    ensures { IsTrue result → IsExtensionSet (extension_set extension.entry) }
{
    match extension {
        ExtChange::Set(profile, words) => is_short_extension(profile, words),
        _ => true,
    }
}

// Whether there are at most 30 whole words. A profile of 16 bits and octets of 8 make an extension of them.
fn is_short_extension(profile: u16, words: &[u8]) -> bool
    ensures { IsTrue result → IsExtension (profile, words.now) × (length words.now ≤ 120) }
{
    words.len() % 4 == 0 && words.len() <= 120
}

fn may_be_set(pt: Option<u8>) -> bool
    ensures { IsTrue result → IfSome pt (λ pt. IsTrue (is_payload_type pt)) }
{
    match pt {
        Some(pt) => pt < 64 || (pt >= 96 && pt < 128),
        None => true,
    }
}

// Relays an opened packet, where it is one of the stream, and has the length then that was told before.
fn relay_next(
    tx: &mut TxStream,
    outer: &Keys,
    packet: &mut [u8; 1500],
    len: usize,
    change: &Change<'_>,
) -> Option<Result<usize, RelayFault>> {
    if len > 1500 || !may_be_set(change.pt) || !has_extension(change.extension) {
        return None;
    }
    let opened = &packet[..len];
    let Ok(head) = RtpHead::read(opened) else {
        return None;
    };
    let Ok(_) = Ohb::read_end(&opened[head.len..]) else {
        return None;
    };
    if head.ssrc != tx.ssrc() {
        return None;
    }
    let told = relayed_len(opened, change);
    let result = relay(tx, outer, packet, len, change);
    let fits = match result {
        Ok(len) => len == told,
        Err(RelayFault::Room) => told > 1500,
        Err(_) => told <= 1500,
    };
    fits.then_some(result)
}

// Seals a plain packet as the first of a stream, and answers its length.
fn seal_plain(outer: &Keys, plain: &str, packet: &mut [u8; 1500]) -> Option<usize>
    ensures { IfSome result (λ n. n ≤ 1500) }
{
    *packet = spelled(plain);
    let mut tx = TxStream::new(0x1111_1111);
    match seal(&mut tx, outer, packet, size(plain)) {
        Some(Ok(len)) => Some(len.min(1500)),
        _ => None,
    }
}

// Opens a packet hop by hop and relays it as the first of a stream, and answers its length.
fn relay_first(
    up: &Keys,
    down: &Keys,
    packet: &mut [u8; 1500],
    len: usize,
    change: &Change<'_>,
) -> Option<usize>
    requires { len ≤ 1500 }
    ensures { IfSome result (λ n. n ≤ 1500) }
{
    let opened = open_outer(up, &mut packet[..len])?;
    let mut tx = TxStream::new(0x1111_1111);
    match relay_next(&mut tx, down, packet, opened, change) {
        Some(Ok(len)) => Some(len.min(1500)),
        _ => None,
    }
}

// Whether a sealed packet has this header and this block, and opens from end to end to the body of the plain one.
fn gives_back(outer: &Keys, sealed: &[u8], plain: &str, header: &str, block: &str) -> bool
    requires { length sealed.now ≤ 1500 }
{
    let mut packet = [0; 1500];
    packet[..sealed.len()].copy_from_slice(sealed);
    let Some(opened) = open_outer(outer, &mut packet[..sealed.len()]) else {
        return false;
    };
    let len = size(plain);
    let want = spelled(plain);
    let Ok(head) = RtpHead::read(&want[..len]) else {
        return false;
    };
    packet.starts_with(&spelled(header)[..size(header)])
        && packet[..opened].ends_with(&spelled(block)[..size(block)])
        && opens_to(&mut packet[..opened], &want[head.len..len])
}

// Whether an opened packet of number 1000 opens from end to end to this body.
fn opens_to(packet: &mut [u8], body: &[u8]) -> bool
    requires { length packet.old ≤ 1500 }
{
    match open_inner(1000, packet) {
        Some(Ok((start, end))) => packet.get(start..end) == Some(body),
        _ => false,
    }
}

// Whether a packet is sealed and relayed as it was outside.
fn is_made_so(row: &(&str, &str, Change<'static>, &str)) -> bool {
    let (up, down) = (keys_of(0xc1, 0xc1), keys_of(0xc4, 0xc4));
    let mut packet = [0; 1500];
    let Some(len) = seal_plain(&up, row.0, &mut packet) else {
        return false;
    };
    if packet[..len] != spelled(row.1)[..size(row.1)] {
        return false;
    }
    let Some(len) = relay_first(&up, &down, &mut packet, len, &row.2) else {
        return false;
    };
    packet[..len] == spelled(row.3)[..size(row.3)]
}

#[test]
fn vectors(rt: HostRuntime) {
    for row in &VECTORS {
        assert!(rt; is_made_so(row), "{}", row.0);
    }
}

// Whether a packet relayed once and twice has the row's headers and blocks, and opens each time.
fn is_relayed_so(
    row: &(
        &str,
        Change<'static>,
        &str,
        &str,
        Change<'static>,
        &str,
        &str,
    ),
) -> bool {
    let (up, down) = (keys_of(0xc1, 0xc1), keys_of(0xc4, 0xc4));
    let mut packet = [0; 1500];
    let Some(len) = seal_plain(&up, row.0, &mut packet) else {
        return false;
    };
    let Some(len) = relay_first(&up, &down, &mut packet, len, &row.1) else {
        return false;
    };
    if !gives_back(&down, &packet[..len], row.0, row.2, row.3) {
        return false;
    }
    let Some(len) = relay_first(&down, &up, &mut packet, len, &row.4) else {
        return false;
    };
    gives_back(&up, &packet[..len], row.0, row.5, row.6)
}

#[test]
fn relays(rt: HostRuntime) {
    for row in &RELAYS {
        assert!(rt; is_relayed_so(row), "{} {}", row.2, row.5);
    }
}

// What a stream answers when a plain packet of so many octets, zeros behind its header, is sealed and then relayed by it
// twice.
fn relay_twice(len: usize, change: &Change<'_>) -> Option<[Result<usize, RelayFault>; 2]> {
    let (up, down) = (keys_of(0xc1, 0xc1), keys_of(0xc4, 0xc4));
    let mut packet = spelled(&PLAIN[..24]);
    let mut tx = TxStream::new(0x1111_1111);
    let Ok(end) = seal(&mut tx, &up, &mut packet, len)? else {
        return None;
    };
    let opened = open_outer(&up, &mut packet[..end.min(1500)])?;
    let mut again = packet;
    let mut tx = TxStream::new(0x1111_1111);
    let first = relay_next(&mut tx, &down, &mut packet, opened, change)?;
    let second = relay_next(&mut tx, &down, &mut again, opened, change)?;
    Some([first, second])
}

#[test]
fn limits(rt: HostRuntime) {
    let used = Err(RelayFault::NonceUsed(1000));
    let room = Err(RelayFault::Room);
    assert_eq!(rt; relay_twice(1467, &IDLE), Some([Ok(1500), used]));
    assert_eq!(rt; relay_twice(1467, &TYPED), Some([room, room]));
    assert_eq!(rt; relay_twice(1466, &TYPED), Some([Ok(1500), used]));
    assert_eq!(rt; relay_twice(1464, &SET), Some([room, room]));
    assert_eq!(rt; relay_twice(1463, &SET), Some([room, room]));
    assert_eq!(rt; relay_twice(1462, &SET), Some([Ok(1500), used]));
}

// The plain packet sealed, and then opened hop by hop.
fn opened_plain() -> Option<[u8; 32]> {
    let up = keys_of(0xc1, 0xc1);
    let mut packet = [0; 1500];
    let len = seal_plain(&up, PLAIN, &mut packet)?;
    if open_outer(&up, &mut packet[..len]) != Some(32) {
        return None;
    }
    Some(front_of(&packet))
}

fn front_of(packet: &[u8; 1500]) -> [u8; 32] {
    let mut front = [0; 32];
    front.copy_from_slice(&packet[..32]);
    front
}

#[test]
fn refusals(rt: HostRuntime) {
    let mut packet = opened_plain().expect(&rt, "it is sealed and opened");
    for offset in [1, 3, 4, 12, 14, 15, 30] {
        let mut altered = packet;
        altered[offset] ^= 1;
        let fault = Some(Err(InnerFault::Tag));
        assert_eq!(rt; open_inner(1000, &mut altered), fault, "{offset}");
    }
    let mut short = [0; 28];
    short[..12].copy_from_slice(&packet[..12]);
    assert_eq!(rt; open_inner(1000, &mut short), Some(Err(InnerFault::Short)));
    assert_eq!(rt; open_inner(1001, &mut packet), Some(Err(InnerFault::Tag)));
    assert_eq!(rt; open_inner(1000, &mut packet), Some(Ok((12, 15))));
}
