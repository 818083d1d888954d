// Datagrams made by hand, and what is answered for them.
ghost use Rattle.std.specs.Prelude.{◌≤◌};

use byteorder::{BigEndian, ByteOrder};
use perc_ekt::EktField;
use perc_kdf::{Kind, Master};
use perc_ohb::{Ohb, OhbFault};
use perc_outer::{OuterFault, OuterStreams, Reached, reach};
use perc_rtp::{RtpFault, RtpHead};
use perc_srtp::{Keys, seal_at};

// How many octets the longest datagram here has.
const LONGEST: usize = 80;

const OWN: Option<u32> = Some(0x2222_2222);

const KEPT_ALL: Ohb = Ohb {
    pt: Some(96),
    seq: Some(1000),
    marker: Some(true),
};

const KEPT_NONE: Ohb = Ohb {
    pt: None,
    seq: None,
    marker: None,
};

// A packet, the index at which it is sealed, if it is, the field behind it, and the refusal, or else the header's length and
// the block with its offset.
type Step = (
    &'static [u8],
    Option<u64>,
    &'static [u8],
    Result<(usize, usize, Ohb), OuterFault>,
);

const HELLO: &[u8] = b"\x80\x60\x03\xe8\x00\x00\x00\xa0\x11\x11\x11\x11hello\x00";

// The datagrams that come one after another.
const STEPS: [Step; 18] = [
    (b"", None, b"", Err(OuterFault::NoField)),
    (b"", None, b"\x01", Err(OuterFault::EktType)),
    (b"\x80", None, b"\x02", Err(OuterFault::EktLength)),
    (b"", None, b"\x00", Err(OuterFault::Rtp(RtpFault::Short))),
    (
        b"\x40\x60\x03\xe8\x00\x00\x00\xa0\x11\x11\x11\x11",
        None,
        b"\x00",
        Err(OuterFault::Rtp(RtpFault::Version)),
    ),
    (
        b"\x80\x60\x03\xe8\x00\x00\x00\xa0\x22\x22\x22\x22",
        None,
        b"\x00",
        Err(OuterFault::OwnStream),
    ),
    (
        b"\x80\x60\x03\xe8\x00\x00\x00\xa0\x11\x11\x11\x11fifteen octets.",
        None,
        b"\x00",
        Err(OuterFault::OuterShort),
    ),
    (
        b"\x80\x60\x03\xe8\x00\x00\x00\xa0\x11\x11\x11\x11sixteen octets..",
        None,
        b"\x00",
        Err(OuterFault::OuterTag),
    ),
    (HELLO, Some(1000), b"\x00", Ok((12, 17, KEPT_NONE))),
    (HELLO, Some(1000), b"\x00", Err(OuterFault::OuterRepeated)),
    (
        b"\x80\x60\x03\x68\x00\x00\x00\xa0\x11\x11\x11\x11hello\x00",
        Some(872),
        b"\x00",
        Err(OuterFault::OuterOld),
    ),
    (
        b"\x80\x60\x03\xe9\x00\x00\x00\xa0\x11\x11\x11\x11hello\x00",
        Some(1002),
        b"\x00",
        Err(OuterFault::OuterTag),
    ),
    (
        b"\x80\x60\x03\xe9\x00\x00\x00\xa0\x11\x11\x11\x11",
        Some(1001),
        b"\x00",
        Err(OuterFault::Ohb(OhbFault::Empty)),
    ),
    (
        b"\x80\x60\x03\xe9\x00\x00\x00\xa0\x11\x11\x11\x11hello\x00",
        Some(1001),
        b"\x00",
        Err(OuterFault::OuterRepeated),
    ),
    (
        b"\x80\x60\x03\xea\x00\x00\x00\xa0\x11\x11\x11\x11hello\x10",
        Some(1002),
        b"\x00",
        Err(OuterFault::Ohb(OhbFault::Reserved)),
    ),
    (
        b"\x80\x60\x03\xea\x00\x00\x00\xa0\x11\x11\x11\x12\x00",
        Some(1002),
        b"\x00",
        Ok((12, 12, KEPT_NONE)),
    ),
    (
        b"\x91\x61\x03\xed\x00\x00\x00\xa0\x11\x11\x11\x11\x00\x00\x00\x01\xbe\xde\x00\x00hello\x60\x03\xe8\x0f",
        Some(1005),
        b"sixteen octets..\x12\x34\x00\x01\x00\x17\x02",
        Ok((20, 25, KEPT_ALL)),
    ),
    (
        b"\x80\x60\x03\xee\x00\x00\x00\xa0\x11\x11\x11\x11hello\x00",
        Some(1006),
        b"\xaa\x00\x04\x07",
        Ok((12, 17, KEPT_NONE)),
    ),
];

fn session_keys() -> Keys {
    Keys::new(&Master::new(&[0xc1; 16], &[0xc2; 12]).unwrap(), Kind::Srtp)
}

// Seals the packet in the first `len` octets, where it is one and there is room for the tag, and answers where it ends.
fn sealed_end(keys: &Keys, index: u64, packet: &mut [u8; LONGEST], len: usize) -> usize
    requires { len ≤ 64 }
    ensures { result ≤ 80 }
{
    if index >= 1 << 48 || RtpHead::read(&packet[..len]).is_err() {
        return len;
    }
    seal_at(keys, index, packet, len)
}

// Puts a packet and a field into a datagram, and answers its length.
fn put_datagram(
    keys: &Keys,
    packet: &[u8],
    index: Option<u64>,
    field: &[u8],
    out: &mut [u8; LONGEST],
) -> usize
    ensures { result ≤ 80 }
{
    let len = packet.len().min(64);
    out[..len].copy_from_slice(&packet[..len]);
    let end = match index {
        Some(index) => sealed_end(keys, index, out, len),
        None => len,
    };
    let last = (end + field.len()).min(LONGEST);
    out[end..last].copy_from_slice(&field[..last - end]);
    last
}

// Whether what is told of the opened datagram of this packet is so: header's length, block's offset and block. A wrapped key
// has these octets.
fn is_told_so(
    told: &Reached,
    octets: &[u8; LONGEST],
    packet: &[u8],
    want: &(usize, usize, Ohb),
) -> bool {
    let key = match &told.field {
        EktField::Full { cipher, .. } => octets.get(cipher.start..cipher.end),
        _ => None,
    };
    (told.header, told.block, told.ohb) == *want
        && told.len == packet.len()
        && octets.starts_with(packet)
        && key.is_none_or(|key| key == b"sixteen octets..".as_slice())
}

// Whether a datagram is answered so.
fn is_answered_so(streams: &mut OuterStreams, keys: &Keys, step: &Step) -> bool {
    let (packet, index, field, want) = step;
    let mut octets = [0; LONGEST];
    let len = put_datagram(keys, packet, *index, field, &mut octets);
    let before = octets;
    match (reach(keys, OWN, streams, &mut octets[..len]), want) {
        (Ok(told), Ok(want)) => is_told_so(&told, &octets, packet, want),
        (Err(OuterFault::Ohb(fault)), Err(want)) => *want == OuterFault::Ohb(fault),
        (Err(fault), Err(want)) => fault == *want && octets == before,
        _ => false,
    }
}

#[test]
fn datagrams(rt: HostRuntime) {
    let keys = session_keys();
    let mut streams = OuterStreams::with_room(rt.alloc()).expect(&rt, "there is memory");
    for (i, step) in STEPS.iter().enumerate() {
        assert!(rt; is_answered_so(&mut streams, &keys, step), "datagram {i}");
    }
}

// What is answered for a packet of this stream.
fn next(
    streams: &mut OuterStreams,
    keys: &Keys,
    ssrc: u32,
    seq: u16,
) -> Result<EktField, OuterFault> {
    let mut packet = *b"\x80\x60\x00\x00\x00\x00\x00\xa0\x00\x00\x00\x00\x00";
    BigEndian::write_u16(&mut packet[2..], seq);
    BigEndian::write_u32(&mut packet[8..], ssrc);
    let mut octets = [0; LONGEST];
    let len = put_datagram(keys, &packet, Some(u64::from(seq)), b"\x00", &mut octets);
    Ok(reach(keys, None, streams, &mut octets[..len])?.field)
}

#[test]
fn many_streams(rt: HostRuntime) {
    let keys = session_keys();
    let mut streams = OuterStreams::with_room(rt.alloc()).expect(&rt, "there is memory");
    for k in 0..256 {
        assert_eq!(rt;
            next(&mut streams, &keys, k * 100 % 257, 7),
            Ok(EktField::Short),
            "stream {k}"
        );
    }
    for (ssrc, seq, want) in [
        (157, 7, Err(OuterFault::StreamLimit)),
        (156, 7, Err(OuterFault::OuterRepeated)),
        (156, 8, Ok(EktField::Short)),
        (158, 6, Ok(EktField::Short)),
    ] {
        assert_eq!(rt;
            next(&mut streams, &keys, ssrc, seq),
            want,
            "{seq} of {ssrc}"
        );
    }
    streams.clear();
    assert_eq!(rt; next(&mut streams, &keys, 157, 7), Ok(EktField::Short));
}
