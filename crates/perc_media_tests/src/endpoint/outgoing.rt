// Datagrams that were made outside, and each refusal.
ghost use Rattle.std.specs.Prelude.{◌≡◌, ◌^◌, ◌<◌, IfSome};
ghost use Rattle.perc_base.specs.Profile.{key_length};
ghost use Rattle.perc_ekt.specs.Record.{IsRecord};

use perc_base::Profile;
use perc_ekt::EktKeyRecord;
use perc_kdf::Master;
use perc_outgoing::{Outgoing, RtcpSendFault, SendFault};
use perc_rtp::{Media, MediaFault};
use perc_sender::TakeFault;
use std::alloc::Global;

// A piece of media with three octets.
const HELLO: Media<'static> = Media {
    pt: 96,
    marker: true,
    timestamp: 160,
    csrcs: &[],
    extension: None,
    payload: b"abc",
    pad: 0,
};

// The first datagram of an endpoint, as it was made outside.
const FIRST: [(Profile, &str); 2] = [
    (
        Profile::Aes128,
        "80e003e8000000a011111111f2f3563309dd1044846eb835d57de8df942ab4c77ea1a3a1658a8e535dcf603b0e4b308c68d41866f136ad456652665196b934e253b5e7fc8dfbdab81c923b54034c60e99cc79d23165bf7a200010000002f02",
    ),
    (
        Profile::Aes256,
        "80e003e8000000a011111111f37bb3446ebab4a0f76754a391fca22c6860c9354f83eef8bc5359590cbcdc8d57301a07ff75fb647e381bb8390f0d73f1bb057fbcadfbffe2438bcf94e47691de93b9182ab8f7590d9bb4aa6fcb25552817407915a639083c81ff0c00010000003f02",
    ),
];

// The record of an EKT key under this SPI.
fn granted(profile: Profile, spi: u16) -> EktKeyRecord
    ensures right { IsRecord result }
    ensures spi { result.spi ≡ spi }
    ensures len { result.len ≡ key_length profile }
{
    let mut key = [0; 32];
    let len = profile.key_len();
    key[..len].fill(1);
    EktKeyRecord {
        key,
        len,
        salt: [2; 12],
        spi,
        life: 0,
    }
}

// An endpoint whose first packet has this index.
fn started(alloc: Global, profile: Profile, first: u64) -> Option<Outgoing>
    requires { first < 2 ^ 48 }
    ensures { IfSome result (λ outgoing. (outgoing.granted.spi ≡ 1) × (outgoing.granted.len ≡ key_length profile)) }
{
    let granted = granted(profile, 1);
    let client = Master::new(&[0xc1; 32][..granted.len], &[0xc1; 12])?;
    let key = &[0xd1; 32][..granted.len];
    Outgoing::start(alloc, 0x11111111, first, &client, &granted, key).ok()
}

// Whether the next datagram is sent so, with these octets where some are given.
fn is_next(outgoing: &mut Outgoing, index: u64, spi: u16, epoch: u16, digits: &str) -> bool
    ensures { outgoing.new.granted ≡ outgoing.old.granted }
{
    let mut out = [0; 1500];
    let Ok(sent) = outgoing.send(&HELLO, &mut out) else {
        return false;
    };
    let mut want = [0; 1500];
    let len = (digits.len() / 2).min(1500);
    let _ = hex::decode_to_slice(digits, &mut want[..len]);
    (sent.index, sent.spi, sent.epoch) == (index, spi, epoch)
        && (len == 0 || out[..sent.len] == want[..len])
}

#[test]
fn first_datagrams(rt: HostRuntime) {
    for (profile, digits) in &FIRST {
        let mut outgoing = started(rt.alloc(), *profile, 1000).expect(&rt, "there is memory");
        assert!(rt; is_next(&mut outgoing, 1000, 1, 0, digits));
    }
}

// Media that isn't sent, and why.
const REFUSED: [(Media<'static>, MediaFault); 5] = [
    (Media { pt: 64, ..HELLO }, MediaFault::Pt),
    (
        Media {
            csrcs: &[7; 16],
            ..HELLO
        },
        MediaFault::Csrcs,
    ),
    (
        Media {
            extension: Some((1, b"abc")),
            ..HELLO
        },
        MediaFault::Extension,
    ),
    (
        Media {
            payload: &[7; 1201],
            ..HELLO
        },
        MediaFault::Payload,
    ),
    (
        Media {
            payload: &[7; 1200],
            pad: 1,
            ..HELLO
        },
        MediaFault::Padding,
    ),
];

// Whether this media is refused so, with the buffer as it was.
fn is_refused(outgoing: &mut Outgoing, media: &Media<'_>, fault: SendFault) -> bool {
    let mut out = [7; 1500];
    outgoing.send(media, &mut out) == Err(fault) && out == [7; 1500]
}

// A refusal takes no index, and a fault of the media is told before the end of the indices.
#[test]
fn refused(rt: HostRuntime) {
    let mut outgoing = started(rt.alloc(), Profile::Aes128, 0xffffffffffff).expect(
        &rt,
        "there is memory",
    );
    for (media, fault) in &REFUSED {
        assert!(rt; is_refused(&mut outgoing, media, SendFault::Media(*fault)));
    }
    assert!(rt; is_next(&mut outgoing, 0xffffffffffff, 1, 0, ""));
    assert!(rt; is_refused(&mut outgoing, &HELLO, SendFault::IndexSpent));
    for (media, fault) in &REFUSED {
        assert!(rt; is_refused(&mut outgoing, media, SendFault::Media(*fault)));
    }
}

#[test]
fn keys(rt: HostRuntime) {
    let mut outgoing = started(rt.alloc(), Profile::Aes128, 7).expect(&rt, "there is memory");
    let next = granted(Profile::Aes128, 2);
    assert_eq!(rt; outgoing.rekey(&[0xd1; 16]), Err(TakeFault::Repeated));
    assert_eq!(rt; outgoing.rekey(&[0xd2; 16]), Ok(1));
    assert!(rt; is_next(&mut outgoing, 7, 1, 1, ""));
    assert_eq!(rt;
        outgoing.take_granted(&next, &[0xd2; 16]),
        Err(TakeFault::Repeated)
    );
    assert!(rt; is_next(&mut outgoing, 8, 1, 1, ""));
    assert_eq!(rt; outgoing.take_granted(&next, &[0xd3; 16]), Ok(0));
    assert!(rt; is_next(&mut outgoing, 9, 2, 0, ""));
}

// RTCP packets in turn, and what is answered: the index that is sealed, or the fault.
const PLAIN: [(&[u8], Result<u32, RtcpSendFault>); 7] = [
    (b"\x40\xc9\x00\x01\x11\x11\x11", Err(RtcpSendFault::Short)),
    (
        b"\x40\xc9\x00\x01\x11\x11\x11\x11",
        Err(RtcpSendFault::Version),
    ),
    (b"\x80\xc9\x00\x01\x11\x11\x11\x11", Ok(0)),
    (&[0x40; 1201], Err(RtcpSendFault::Version)),
    (&[0x80; 1201], Err(RtcpSendFault::Long)),
    (&[0x80; 1200], Ok(1)),
    (b"\x80\xc9\x00\x01\x11\x11\x11\x11", Ok(2)),
];

// Whether an RTCP packet is answered so.
fn is_sealed_so(outgoing: &mut Outgoing, plain: &[u8], answer: Result<u32, RtcpSendFault>) -> bool {
    let mut out = [7; 1500];
    match (outgoing.send_rtcp(plain, &mut out), answer) {
        (Ok(len), Ok(index)) => {
            let word = (0x80000000 + index % 0x80000000).to_be_bytes();
            len == plain.len() + 20 && out[..len].ends_with(&word)
        }
        (Err(fault), Err(want)) => fault == want && out == [7; 1500],
        _ => false,
    }
}

#[test]
fn rtcp(rt: HostRuntime) {
    let mut outgoing = started(rt.alloc(), Profile::Aes128, 7).expect(&rt, "there is memory");
    for (i, (plain, answer)) in PLAIN.iter().enumerate() {
        assert!(rt; is_sealed_so(&mut outgoing, plain, *answer), "packet {i}");
    }
    assert!(rt; is_next(&mut outgoing, 7, 1, 0, ""));
}
