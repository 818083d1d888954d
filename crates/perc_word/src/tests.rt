// Words as the grammar gives them, worked out by hand.
use super::numbers::ssrc;
use super::{
    Datagrams, Name, Names, Octets, Ssrcs, marker, next_option, next_word, number, payload_type,
    uuid,
};
use std::test::Fail;

const NUMBERS: [(&[u8], Option<u64>); 11] = [
    (b"0", Some(0)),
    (b"7", Some(7)),
    (b"281474976710655", Some(281474976710655)),
    (b"281474976710656", None),
    (b"00", None),
    (b"01", None),
    (b"+1", None),
    (b"-1", None),
    (b"1a", None),
    (b"", None),
    (b"99999999999999999999999999", None),
];

const PAYLOAD_TYPES: [(&[u8], Option<u8>); 7] = [
    (b"0", Some(0)),
    (b"63", Some(63)),
    (b"64", None),
    (b"95", None),
    (b"96", Some(96)),
    (b"127", Some(127)),
    (b"128", None),
];

const MARKERS: [(&[u8], Option<bool>); 5] = [
    (b"0", Some(false)),
    (b"1", Some(true)),
    (b"2", None),
    (b"01", None),
    (b"", None),
];

const SSRCS: [(&[u8], Option<u32>); 5] = [
    (b"deadbeef", Some(3735928559)),
    (b"00000000", Some(0)),
    (b"111111", None),
    (b"1111111111", None),
    (b"DEADBEEF", None),
];

#[test]
fn reads_numbers(rt: HostRuntime) {
    for (word, want) in &NUMBERS {
        assert_eq!(rt; number(word, 281474976710655), *want);
    }
    for (word, want) in &PAYLOAD_TYPES {
        assert_eq!(rt; payload_type(word), *want);
    }
    for (word, want) in &MARKERS {
        assert_eq!(rt; marker(word), *want);
    }
    for (word, want) in &SSRCS {
        assert_eq!(rt; ssrc(word), *want);
    }
}

const NAMES: [(&[u8], bool); 7] = [
    (b"A", true),
    (b"A0b1C2d3E4f5G6h7", true),
    (b"A0b1C2d3E4f5G6h7i", false),
    (b"ann", false),
    (b"An-n", false),
    (b"0A", false),
    (b"", false),
];

const OCTETS: [(&[u8], Option<&[u8]>); 9] = [
    (b"00ff", Some(b"\x00\xff")),
    (
        b"0123456789abcdef",
        Some(b"\x01\x23\x45\x67\x89\xab\xcd\xef"),
    ),
    (b"0f0", None),
    (b"0F", None),
    (b"0g", None),
    (b"0:", None),
    (b"/0", None),
    (b"-", None),
    (b"", None),
];

// Whether the word is read as these octets.
fn is_read(word: &[u8], want: Option<&[u8]>) -> bool {
    let Some(octets) = Octets::read(word) else {
        return want.is_none();
    };
    let mut room = [0; 16];
    if octets.len() > room.len() {
        return false;
    }
    let read = &mut room[..octets.len()];
    octets.write(read);
    want == Some(&*read)
}

#[test]
fn reads_octets(rt: HostRuntime) {
    for (word, want) in &NAMES {
        assert_eq!(rt; Name::read(word).is_some(), *want);
    }
    for (word, want) in &OCTETS {
        assert!(rt; is_read(word, *want));
    }
    assert_eq!(rt;
        Octets::read_payload(b"-").map(|octets| octets.len()),
        Some(0)
    );
    assert_eq!(rt;
        Octets::read_payload(b"5a").map(|octets| octets.len()),
        Some(1)
    );
    assert!(rt; Octets::read_payload(b"--").is_none());
}

const UUIDS: [(&[u8], bool); 6] = [
    (b"00112233-4455-6677-8899-aabbccddeeff", true),
    (b"00112233-4455-6677-8899-AABBCCDDEEFF", false),
    (b"00112233-4455-6677-8899-aabbccddeef", false),
    (b"0011223-4455-6677-8899-aabbccddeeff", false),
    (b"00112233445566778899aabbccddeeff", false),
    (b"{00112233-4455-6677-8899-aabbccddeeff}", false),
];

#[test]
fn reads_uuids(rt: HostRuntime) {
    let octets = *b"\x00\x11\x22\x33\x44\x55\x66\x77\x88\x99\xaa\xbb\xcc\xdd\xee\xff";
    for (word, want) in &UUIDS {
        assert_eq!(rt; uuid(word) == Some(octets), *want);
    }
}

// How many items lists have, where the words are lists of at most three.
const LISTS: [(&[u8], Option<usize>); 7] = [
    (b"0", Some(1)),
    (b"7,4294967295,7", Some(3)),
    (b"1,2,3,4", None),
    (b"1,,2", None),
    (b"1,", None),
    (b"4294967296", None),
    (b"", None),
];

#[test]
fn reads_lists(rt: HostRuntime) {
    for (word, want) in &LISTS {
        assert_eq!(rt; Datagrams::read(word, 3).map(|list| list.count()), *want);
    }
    let Some(mut ssrcs) = Ssrcs::read(b"00000001,ffffffff", 2) else {
        return;
    };
    assert_eq!(rt; ssrcs.next(), Some(1));
    assert_eq!(rt; ssrcs.next(), Some(4294967295));
    assert_eq!(rt; ssrcs.next(), None);
    assert!(rt; Ssrcs::read(b"00000001,ffffffff", 1).is_none());
    assert!(rt; Ssrcs::read(b"00000001,1", 2).is_none());
    assert_eq!(rt;
        Names::read(b"Ann,Bob", 2).map(|list| list.count()),
        Some(2)
    );
    assert!(rt; Names::read(b"Ann,bob", 2).is_none());
    assert!(rt; Names::read(b"Ann,Bob,Cat", 2).is_none());
}

#[test]
fn takes_words(rt: HostRuntime) {
    let Some((first, behind)) = next_word(Some(b"send  pad=7 x".as_slice())) else {
        return;
    };
    assert_eq!(rt; first, b"send".as_slice());
    let (none, behind) = next_option(behind, b"pad=");
    assert!(rt; none.is_none());
    let Some((empty, behind)) = next_word(behind) else {
        return;
    };
    assert!(rt; empty.is_empty());
    let (pad, behind) = next_option(behind, b"pad=");
    assert_eq!(rt; pad, Some(b"7".as_slice()));
    assert_eq!(rt; behind, Some(b"x".as_slice()));
}

#[test]
fn spells_octets(rt: HostRuntime) -> Result<(), Fail> {
    let alloc = rt.alloc();
    let mut out = Vec::from_slice(alloc, b"x ")?;
    Octets::of(b"\x00\xa5\xff").spell(&mut out)?;
    if let Some(octets) = Octets::read(b"0123456789abcdef") {
        octets.spell(&mut out)?;
    }
    assert_eq!(rt; out.as_slice(), b"x 00a5ff0123456789abcdef".as_slice());
    Ok(())
}
