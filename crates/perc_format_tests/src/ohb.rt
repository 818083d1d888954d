// Blocks, headers and changes that were worked out by hand from RFC 8723.
ghost use Rattle.std.specs.Prelude.{◌<◌, ◌≤◌, IfSome, IsTrue};
ghost use Rattle.perc_rtp.specs.Media.{is_payload_type};
ghost use Rattle.perc_ohb.specs.Rewriting.{IsRewrite, rewrite_of};

use perc_ohb::laws::rewrite_all;
use perc_ohb::{Change, ExtChange, Ohb, OhbFault, restore, rewrite};
use perc_rtp::RtpHead;

// A block of each kind, and its octets.
const BLOCKS: [(Option<u8>, Option<u16>, Option<bool>, &[u8]); 13] = [
    (None, None, None, b"\x00"),
    (None, None, Some(false), b"\x04"),
    (None, None, Some(true), b"\x0c"),
    (None, Some(1000), None, b"\x03\xe8\x01"),
    (None, Some(1000), Some(false), b"\x03\xe8\x05"),
    (None, Some(1000), Some(true), b"\x03\xe8\x0d"),
    (Some(96), None, None, b"\x60\x02"),
    (Some(96), None, Some(false), b"\x60\x06"),
    (Some(96), None, Some(true), b"\x60\x0e"),
    (Some(96), Some(1000), None, b"\x60\x03\xe8\x03"),
    (Some(96), Some(1000), Some(false), b"\x60\x03\xe8\x07"),
    (Some(96), Some(1000), Some(true), b"\x60\x03\xe8\x0f"),
    (Some(127), Some(65535), None, b"\x7f\xff\xff\x03"),
];

// Octets that end in no block.
const FAULTS: [(&[u8], OhbFault); 14] = [
    (b"", OhbFault::Empty),
    (b"\x10", OhbFault::Reserved),
    (b"\x80", OhbFault::Reserved),
    (b"\x18", OhbFault::Reserved),
    (b"\x60\x03\xe8\x2f", OhbFault::Reserved),
    (b"\x08", OhbFault::Marker),
    (b"\x0b", OhbFault::Marker),
    (b"\x01", OhbFault::Short),
    (b"\x02", OhbFault::Short),
    (b"\xe8\x01", OhbFault::Short),
    (b"\x60\x03", OhbFault::Short),
    (b"\x03\xe8\x03", OhbFault::Short),
    (b"\x80\x02", OhbFault::Pt),
    (b"\xff\x03\xe8\x0f", OhbFault::Pt),
];

// Payload type 96, number 1000 and the marker.
const HEADER: [u8; 12] = *b"\x80\xe0\x03\xe8\x00\x00\x00\xa0\x11\x11\x11\x11";

// P, X, two CSRCs and an extension of two words.
const WHOLE: [u8; 32] = [
    0xb2, 0xe0, 0x12, 0x34, 0x00, 0x01, 0x02, 0x03, 0xde, 0xad, 0xbe, 0xef, 0x01, 0x02, 0x03, 0x04,
    0xa0, 0xb0, 0xc0, 0xd0, 0xbe, 0xde, 0x00, 0x02, 0x10, 0xaa, 0x00, 0x00, 0x22, 0x01, 0x02, 0x03,
];

// One change after the other: what it sets, and the header's first four octets and the block after it.
const STEPS: [(Option<u8>, u16, Option<bool>, [u8; 4], &[u8]); 7] = [
    (None, 0, None, *b"\x80\xe0\x03\xe8", b"\x00"),
    (Some(96), 0, Some(true), *b"\x80\xe0\x03\xe8", b"\x00"),
    (
        Some(100),
        5,
        Some(false),
        *b"\x80\x64\x03\xed",
        b"\x60\x03\xe8\x0f",
    ),
    (Some(0), 1, None, *b"\x80\x00\x03\xee", b"\x60\x03\xe8\x0f"),
    (Some(96), 65535, None, *b"\x80\x60\x03\xed", b"\x03\xe8\x0d"),
    (None, 65531, Some(true), *b"\x80\xe0\x03\xe8", b"\x00"),
    (None, 64536, None, *b"\x80\xe0\x00\x00", b"\x03\xe8\x01"),
];

// A block that keeps nothing.
const NOTHING: Ohb = Ohb {
    pt: None,
    seq: None,
    marker: None,
};

// A change of these three fields.
fn change_to(pt: Option<u8>, shift: u16, marker: Option<bool>) -> Change<'static>
    requires { IfSome pt (λ pt. IsTrue (is_payload_type pt)) }
    ensures { IsRewrite (rewrite_of result) }
{
    Change {
        pt,
        shift,
        marker,
        extension: ExtChange::Keep,
    }
}

fn is_below_128(ohb: &Ohb) -> bool
    ensures { IsTrue result → IfSome ohb.now.pt (λ pt. pt < 128) }
{
    match ohb.pt {
        Some(pt) => pt < 128,
        None => true,
    }
}

fn may_be_set(pt: Option<u8>) -> bool
    ensures { IsTrue result → IfSome pt (λ pt. IsTrue (is_payload_type pt)) }
{
    match pt {
        Some(pt) => pt < 64 || (pt >= 96 && pt < 128),
        None => true,
    }
}

// Writes a block behind two octets, where its payload type fits, and answers how many octets there are.
fn write_behind(ohb: &Ohb, out: &mut [u8; 6]) -> usize
    ensures { (2 ≤ result) × (result ≤ 6) }
{
    if !is_below_128(ohb) {
        return 2;
    }
    let mut block = [0xee; 4];
    let len = ohb.write(&mut block);
    out[2..].copy_from_slice(&block);
    2 + len
}

// Whether a block is written as these octets, with what stands behind them unchanged, and read from them.
fn is_spelled(ohb: &Ohb, want: &[u8]) -> bool {
    let mut out = [0xee; 6];
    let len = write_behind(ohb, &mut out);
    let written = &out[2..len] == want && out[len..].iter().all(|x| *x == 0xee);
    let read = Ok((*ohb, len - 2));
    written && Ohb::read_end(&out[..len]) == read && Ohb::read_end(want) == read
}

#[test]
fn writes_blocks_and_reads_them(rt: HostRuntime) {
    for (pt, seq, marker, want) in &BLOCKS {
        let ohb = Ohb {
            pt: *pt,
            seq: *seq,
            marker: *marker,
        };
        assert!(rt; is_spelled(&ohb, want), "{want:?}");
    }
}

#[test]
fn refuses_what_is_no_block(rt: HostRuntime) {
    for (octets, want) in &FAULTS {
        assert_eq!(rt; Ohb::read_end(octets), Err(*want), "{octets:?}");
    }
}

// Rewrites a header that reads, where the change and the block fit.
fn rewrite_to(header: &mut [u8], ohb: &mut Ohb, pt: Option<u8>, shift: u16, marker: Option<bool>) {
    if RtpHead::read(header).is_ok() && is_below_128(ohb) && may_be_set(pt) {
        rewrite(header, ohb, &change_to(pt, shift, marker));
    }
}

// Whether of a header that reads these octets are put back, with what stands behind them unchanged.
fn gives_back(header: &[u8], ohb: &Ohb, want: &[u8]) -> bool {
    if RtpHead::read(header).is_err() || !is_below_128(ohb) {
        return false;
    }
    let mut out = [0xee; 72];
    let len = restore(header, ohb, &mut out);
    &out[..len] == want && out[len..].iter().all(|x| *x == 0xee)
}

#[test]
fn rewrites_and_restores(rt: HostRuntime) {
    let mut header = HEADER;
    let mut ohb = NOTHING;
    for (pt, shift, marker, want, block) in &STEPS {
        rewrite_to(&mut header, &mut ohb, *pt, *shift, *marker);
        assert_eq!(rt; &header[..4], &want[..], "{block:?}");
        assert_eq!(rt; &header[4..], &HEADER[4..], "{block:?}");
        assert!(rt; is_spelled(&ohb, block), "{block:?}");
        assert!(rt; gives_back(&header, &ohb, &HEADER), "{block:?}");
    }
}

#[test]
fn restores_cut_headers(rt: HostRuntime) {
    let mut want = [0; 20];
    want.copy_from_slice(&WHOLE[..20]);
    want[0] = 0xa2;
    assert!(rt; gives_back(&WHOLE, &NOTHING, &want));
    let ohb = Ohb {
        pt: Some(100),
        seq: Some(7),
        marker: Some(false),
    };
    want[..4].copy_from_slice(b"\xa2\x64\x00\x07");
    assert!(rt; gives_back(&WHOLE, &ohb, &want));
}

// Makes three changes of a header that reads: the last two set the payload type, the marker and the number back.
fn rewrite_thrice(header: &mut [u8], ohb: &mut Ohb) {
    let changes = [
        change_to(Some(100), 5, Some(false)),
        change_to(Some(96), 0, None),
        change_to(None, 65531, Some(true)),
    ];
    if RtpHead::read(header).is_ok() && is_below_128(ohb) {
        rewrite_all(header, ohb, &changes);
    }
}

#[test]
fn rewrites_by_all_changes(rt: HostRuntime) {
    let mut header = HEADER;
    let mut ohb = NOTHING;
    rewrite_thrice(&mut header, &mut ohb);
    assert_eq!(rt; header, HEADER);
    assert_eq!(rt; ohb, NOTHING);
}
