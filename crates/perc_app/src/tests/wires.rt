// Datagrams that are made, and lines that make none. The octets are worked out by hand.
use perc_base::Memory;
use perc_conference_state::{Conference, Stop, Told};
use perc_script_line::Reason;
use perc_wire_lines::{Grafting, alter, graft, inject};
use perc_word::Octets;
use std::alloc::Global;

// The last octets of the two datagrams that are there.
const FIRST: &[u8] = b"\x01\x02\x03\x04";

const SECOND: &[u8] = b"\x11\x12\x13";

// Which octets of a datagram are altered, with what, and the octets of the new one: none where there is none.
type Altering = (u32, u32, &'static [u8], Option<&'static [u8]>);

const ALTERS: [Altering; 7] = [
    (1, 0, b"\xaa", Some(b"\xaa\x02\x03\x04")),
    (1, 1, b"\xaa\xbb", Some(b"\x01\xaa\xbb\x04")),
    (1, 2, b"\xaa\xbb", Some(b"\x01\x02\xaa\xbb")),
    (1, 3, b"\xaa\xbb", None),
    (2, 4294967295, b"\xaa", None),
    (0, 0, b"\xaa", None),
    (3, 0, b"\xaa", None),
];

// The counts of a graft of the first and the second, and the octets of the new datagram: none where there is none.
const GRAFTS: [(u32, u32, Option<&'static [u8]>); 7] = [
    (2, 1, Some(b"\x01\x02\x13")),
    (4, 3, Some(b"\x01\x02\x03\x04\x11\x12\x13")),
    (0, 2, Some(b"\x12\x13")),
    (1, 0, Some(b"\x01")),
    (0, 0, None),
    (5, 1, None),
    (1, 4294967295, None),
];

// A conference before its head, with two datagrams.
fn begun(alloc: Global, text: &mut Vec<u8>) -> Option<Conference> {
    let mut conference = Conference::new(alloc).ok()?;
    inject(&mut conference, alloc, &Octets::of(FIRST), text).ok()?;
    inject(&mut conference, alloc, &Octets::of(SECOND), text).ok()?;
    Some(conference)
}

// Whether the datagram behind the two is this one, or no line made it and there is none.
fn is_made(conference: &Conference, answer: Result<Told, Stop>, octets: Option<&[u8]>) -> bool {
    match (answer, octets) {
        (Ok(told), Some(octets)) => {
            told == Told::WIRE
                && conference.datagrams.last().is_some_and(|made| {
                    made.unsealed.is_none() && made.octets.as_slice() == octets
                })
        }
        (Err(Stop::Refused(reason)), None) => {
            reason == Reason::Datagram && conference.datagrams.len() == 2
        }
        _ => false,
    }
}

fn alters(alloc: Global, row: &Altering) -> bool {
    let mut text = Vec::new(alloc);
    let Some(mut conference) = begun(alloc, &mut text) else {
        return false;
    };
    let (number, offset, octets, made) = row;
    let answer = alter(
        &mut conference,
        alloc,
        *number,
        *offset,
        &Octets::of(octets),
        &mut text,
    );
    is_made(&conference, answer, *made)
}

fn grafts(alloc: Global, front: u32, back: u32, octets: Option<&[u8]>) -> bool {
    let mut text = Vec::new(alloc);
    let Some(mut conference) = begun(alloc, &mut text) else {
        return false;
    };
    let grafting = Grafting {
        first: 1,
        front,
        second: 2,
        back,
    };
    let answer = graft(&mut conference, alloc, &grafting, &mut text);
    is_made(&conference, answer, octets)
}

#[test]
fn alters_within(rt: HostRuntime) {
    for row in &ALTERS {
        assert!(rt; alters(rt.alloc(), row));
    }
}

#[test]
fn grafts_what_is_there(rt: HostRuntime) {
    for (front, back, octets) in &GRAFTS {
        assert!(rt; grafts(rt.alloc(), *front, *back, *octets));
    }
}

#[test]
fn reports_what_is_made(rt: HostRuntime) -> Result<(), Memory> {
    let mut text = Vec::new(rt.alloc());
    let made = begun(rt.alloc(), &mut text).is_some();
    assert!(rt; made);
    assert!(rt; text.as_slice() == b"wire 1 made 01020304\nwire 2 made 111213\n".as_slice());
    Ok(())
}

// A graft of the longest datagram that is one octet too long isn't made.
#[test]
fn grafts_nothing_too_long(rt: HostRuntime) -> Result<(), Memory> {
    let mut text = Vec::new(rt.alloc());
    let mut conference = Conference::new(rt.alloc())?;
    let longest = [7; 1500];
    let first = inject(
        &mut conference,
        rt.alloc(),
        &Octets::of(&longest),
        &mut text,
    );
    assert!(rt; first.is_ok());
    for (back, is_short) in &[(0, true), (1, false), (1500, false)] {
        let grafting = Grafting {
            first: 1,
            front: 1500,
            second: 1,
            back: *back,
        };
        let answer = graft(&mut conference, rt.alloc(), &grafting, &mut text);
        assert!(rt; answer.is_ok() == *is_short);
        assert!(rt; *is_short || matches!(&answer, Err(Stop::Refused(Reason::Limit))));
    }
    Ok(())
}
