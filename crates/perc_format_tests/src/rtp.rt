// Packets that were spelled out by hand from RFC 3550.
use perc_rtp::{
    Carried, Media, MediaFault, RtcpHead, RtcpShape, RtpFault, RtpHead, cut_header, kind,
    set_marker, set_pt, set_seq, without_padding, write_packet,
};

// P, X, two CSRCs, an extension of two words, the payload "hello" and 3 octets of padding.
const WHOLE: [u8; 40] = [
    0xb2, 0xe0, 0x12, 0x34, 0x00, 0x01, 0x02, 0x03, 0xde, 0xad, 0xbe, 0xef, 0x01, 0x02, 0x03, 0x04,
    0xa0, 0xb0, 0xc0, 0xd0, 0xbe, 0xde, 0x00, 0x02, 0x10, 0xaa, 0x00, 0x00, 0x22, 0x01, 0x02, 0x03,
    0x68, 0x65, 0x6c, 0x6c, 0x6f, 0x00, 0x00, 0x03,
];

// No payload.
const EMPTY: [u8; 12] = *b"\x80\x00\xff\xff\x00\x00\x00\x00\x11\x11\x11\x11";

// No payload, and the marker.
const MARKED: [u8; 12] = *b"\x80\xe0\x03\xe8\x00\x00\x00\xa0\x11\x11\x11\x11";

// A header of the fixed part alone.
fn plain(marker: bool, pt: u8, seq: u16, timestamp: u32, ssrc: u32) -> RtpHead {
    RtpHead {
        padding: false,
        extension: false,
        csrcs: 0,
        marker,
        pt,
        seq,
        timestamp,
        ssrc,
        cut: 12,
        len: 12,
    }
}

fn whole() -> RtpHead {
    RtpHead {
        padding: true,
        extension: true,
        csrcs: 2,
        marker: true,
        pt: 96,
        seq: 0x1234,
        timestamp: 0x0001_0203,
        ssrc: 0xdead_beef,
        cut: 20,
        len: 32,
    }
}

#[test]
fn reads_headers(rt: HostRuntime) {
    let abc = *b"\x80\xe0\x03\xe8\x00\x00\x00\xa0\x11\x11\x11\x11abc";
    assert_eq!(rt;
        RtpHead::read(&abc),
        Ok(plain(true, 96, 1000, 160, 0x1111_1111))
    );
    assert_eq!(rt;
        RtpHead::read(&EMPTY),
        Ok(plain(false, 0, 65535, 0, 0x1111_1111))
    );
    let first = *b"\x80\x00\x00\x00\x00\x00\x00\x01\x11\x11\x11\x11";
    assert_eq!(rt;
        RtpHead::read(&first),
        Ok(plain(false, 0, 0, 1, 0x1111_1111))
    );
    for n in 0..41 {
        let want = match n {
            0..20 => Err(RtpFault::Short),
            20..32 => Err(RtpFault::Extension),
            _ => Ok(whole()),
        };
        assert_eq!(rt; RtpHead::read(&WHOLE[..n]), want, "of {n} octets");
    }
}

#[test]
fn reads_version_2_alone(rt: HostRuntime) {
    for first in [0x00, 0x40, 0xc0, 0x3f, 0x7f, 0xff] {
        let mut packet = WHOLE;
        packet[0] = first;
        for n in [12, 13, 20, 40] {
            assert_eq!(rt;
                RtpHead::read(&packet[..n]),
                Err(RtpFault::Version),
                "{first} of {n} octets"
            );
        }
        assert_eq!(rt;
            RtpHead::read(&packet[..11]),
            Err(RtpFault::Short),
            "{first} of 11 octets"
        );
    }
}

// What is answered, and whether `out` is as it was behind the packet, or everywhere after a fault.
fn answer(media: Media<'_>) -> (Result<usize, MediaFault>, bool) {
    let mut out = [0xee; 1500];
    let result = write_packet(&media, 1, 2, &mut out);
    let len = match result {
        Ok(len) => len,
        Err(_) => 0,
    };
    (result, out[len..].iter().all(|x| *x == 0xee))
}

fn piece<'a>(
    pt: u8,
    csrcs: &'a [u32],
    extension: Option<(u16, &'a [u8])>,
    payload: &'a [u8],
    pad: u8,
) -> Media<'a> {
    Media {
        pt,
        marker: false,
        timestamp: 0,
        csrcs,
        extension,
        payload,
        pad,
    }
}

fn whole_media<'a>(csrcs: &'a [u32], words: &'a [u8], payload: &'a [u8]) -> Media<'a> {
    Media {
        pt: 96,
        marker: true,
        timestamp: 0x0001_0203,
        csrcs,
        extension: Some((0xbede, words)),
        payload,
        pad: 3,
    }
}

#[test]
fn writes_packets(rt: HostRuntime) {
    let mut out = [0xee; 1500];
    let csrcs = [0x0102_0304, 0xa0b0_c0d0];
    let words = [0x10, 0xaa, 0x00, 0x00, 0x22, 0x01, 0x02, 0x03];
    let media = whole_media(&csrcs, &words, b"hello");
    assert_eq!(rt; write_packet(&media, 0x1234, 0xdead_beef, &mut out), Ok(40));
    assert_eq!(rt; &out[..40], &WHOLE[..]);
    assert!(rt; out[40..].iter().all(|x| *x == 0xee));
    let media = piece(0, &[], None, &[], 0);
    assert_eq!(rt; write_packet(&media, 65535, 0x1111_1111, &mut out), Ok(12));
    assert_eq!(rt; &out[..12], &EMPTY[..]);
    assert_eq!(rt; &out[12..40], &WHOLE[12..]);
}

#[test]
fn refuses_media(rt: HostRuntime) {
    let csrcs = [7; 16];
    let octets = [9; 1201];
    let some = |n| Some((1, &octets[..n]));
    for (pt, ok) in [
        (0, true),
        (63, true),
        (64, false),
        (95, false),
        (96, true),
        (127, true),
        (128, false),
        (255, false),
    ] {
        let want = if ok { Ok(12) } else { Err(MediaFault::Pt) };
        assert_eq!(rt;
            answer(piece(pt, &[], None, &[], 0)),
            (want, true),
            "payload type {pt}"
        );
    }
    for (media, want) in [
        (piece(0, &csrcs[..15], None, &[], 0), Ok(72)),
        (piece(0, &csrcs, None, &[], 0), Err(MediaFault::Csrcs)),
        (piece(0, &[], some(0), &[], 0), Ok(16)),
        (piece(0, &[], some(120), &[], 0), Ok(136)),
        (piece(0, &[], some(121), &[], 0), Err(MediaFault::Extension)),
        (piece(0, &[], some(118), &[], 0), Err(MediaFault::Extension)),
        (piece(0, &[], some(124), &[], 0), Err(MediaFault::Extension)),
        (piece(0, &[], None, &octets[..1200], 0), Ok(1212)),
        (piece(0, &[], None, &octets, 0), Err(MediaFault::Payload)),
        (
            piece(0, &[], None, &octets[..1200], 1),
            Err(MediaFault::Padding),
        ),
        (piece(0, &[], None, &octets[..945], 255), Ok(1212)),
        (
            piece(0, &[], None, &octets[..946], 255),
            Err(MediaFault::Padding),
        ),
        (
            piece(0, &csrcs[..15], some(120), &octets[..1199], 1),
            Ok(1396),
        ),
        (piece(64, &csrcs, None, &[], 0), Err(MediaFault::Pt)),
        (piece(0, &csrcs, some(121), &[], 0), Err(MediaFault::Csrcs)),
        (
            piece(0, &[], some(121), &octets, 0),
            Err(MediaFault::Extension),
        ),
        (piece(0, &[], None, &octets, 1), Err(MediaFault::Payload)),
    ] {
        assert_eq!(rt; answer(media), (want, true));
    }
}

// Datagrams, and what they carry.
const CARRIED: [(&[u8], Carried); 14] = [
    (b"", Carried::Other),
    (b"\x13", Carried::Other),
    (b"\x14", Carried::Dtls),
    (b"\x3f", Carried::Dtls),
    (b"\x40", Carried::Other),
    (b"\x7f", Carried::Other),
    (b"\x80", Carried::Rtp),
    (b"\x80\xbf", Carried::Rtp),
    (b"\x80\xc0", Carried::Rtcp),
    (b"\x80\xdf", Carried::Rtcp),
    (b"\x80\xe0", Carried::Rtp),
    (b"\xbf\xc8", Carried::Rtcp),
    (b"\xc0", Carried::Other),
    (b"\xff", Carried::Other),
];

// RTCP packets, and what is read of their heads.
const RTCP_HEADS: [(&[u8], Result<RtcpHead, RtcpShape>); 4] = [
    (
        b"\x80\xc9\x00\x01\x11\x11\x11\x11",
        Ok(RtcpHead {
            pt: 201,
            ssrc: 0x1111_1111,
        }),
    ),
    (b"\x80\xc9\x00\x01\x11\x11\x11", Err(RtcpShape::Short)),
    (b"\x40\xc9\x00\x01\x11\x11\x11\x11", Err(RtcpShape::Version)),
    (b"\x40\xc9\x00\x01\x11\x11\x11", Err(RtcpShape::Short)),
];

#[test]
fn tells_what_is_carried(rt: HostRuntime) {
    for (datagram, want) in &CARRIED {
        assert_eq!(rt; kind(datagram), *want, "{datagram:?}");
    }
    for (packet, want) in &RTCP_HEADS {
        assert_eq!(rt; RtcpHead::read(packet), *want, "{packet:?}");
    }
}

// A field that is set.
#[derive(Clone, Copy, Debug)]
enum Change {
    Pt(u8),
    Seq(u16),
    Marker(bool),
}

// A change, and the first four octets of `MARKED` and of `WHOLE` after it.
const CHANGES: [(Change, [u8; 4], [u8; 4]); 6] = [
    (Change::Pt(100), *b"\x80\xe4\x03\xe8", *b"\xb2\xe4\x12\x34"),
    (Change::Pt(0), *b"\x80\x80\x03\xe8", *b"\xb2\x80\x12\x34"),
    (
        Change::Seq(1005),
        *b"\x80\xe0\x03\xed",
        *b"\xb2\xe0\x03\xed",
    ),
    (
        Change::Seq(65535),
        *b"\x80\xe0\xff\xff",
        *b"\xb2\xe0\xff\xff",
    ),
    (
        Change::Marker(false),
        *b"\x80\x60\x03\xe8",
        *b"\xb2\x60\x12\x34",
    ),
    (
        Change::Marker(true),
        *b"\x80\xe0\x03\xe8",
        *b"\xb2\xe0\x12\x34",
    ),
];

// Sets a field of a packet that reads, and answers whether it reads.
fn set(packet: &mut [u8], change: Change) -> bool {
    match (RtpHead::read(packet), change) {
        (Err(_), _) => return false,
        (Ok(_), Change::Pt(pt)) => set_pt(packet, pt % 128),
        (Ok(_), Change::Seq(seq)) => set_seq(packet, seq),
        (Ok(_), Change::Marker(marker)) => set_marker(packet, marker),
    }
    true
}

#[test]
fn sets_one_field(rt: HostRuntime) {
    for (change, marked, whole) in &CHANGES {
        let mut packet = MARKED;
        assert!(rt; set(&mut packet, *change));
        assert_eq!(rt; &packet[..4], &marked[..], "{change:?}");
        assert_eq!(rt; &packet[4..], &MARKED[4..], "{change:?}");
        let mut packet = WHOLE;
        assert!(rt; set(&mut packet, *change));
        assert_eq!(rt; &packet[..4], &whole[..], "{change:?}");
        assert_eq!(rt; &packet[4..], &WHOLE[4..], "{change:?}");
    }
}

// The length of the cut header of a packet that reads.
fn cut(packet: &[u8], out: &mut [u8; 72]) -> Option<usize> {
    match RtpHead::read(packet) {
        Ok(_) => Some(cut_header(packet, out)),
        Err(_) => None,
    }
}

#[test]
fn cuts_headers(rt: HostRuntime) {
    let mut out = [0xee; 72];
    assert_eq!(rt; cut(&WHOLE, &mut out), Some(20));
    assert_eq!(rt; out[0], 0xa2);
    assert_eq!(rt; &out[1..20], &WHOLE[1..20]);
    assert!(rt; out[20..].iter().all(|x| *x == 0xee));
    // 15 CSRCs, and an extension without words
    let mut packet = [7; 76];
    packet[0] = 0x9f;
    packet[74] = 0;
    packet[75] = 0;
    assert_eq!(rt; cut(&packet, &mut out), Some(72));
    assert_eq!(rt; out[0], 0x8f);
    assert_eq!(rt; &out[1..], &packet[1..72]);
}

// The bit P, a body, and how much of it is payload.
const BODIES: [(bool, &[u8], Option<usize>); 8] = [
    (false, b"", Some(0)),
    (true, b"", None),
    (true, b"\x03\x02\x00", None),
    (true, b"\x01", Some(0)),
    (true, b"\x00\x00\x03", Some(0)),
    (true, b"\x00\x00\x04", None),
    (true, b"hello\x00\x00\x03", Some(5)),
    (false, b"hello\x00\x00\x03", Some(8)),
];

#[test]
fn takes_padding_off(rt: HostRuntime) {
    for (padding, body, want) in &BODIES {
        assert_eq!(rt; without_padding(*padding, body), *want, "{body:?}");
    }
}
