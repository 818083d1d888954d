// Keys, and what went out under them.
use perc_member::{Key, TakenKey, pair_in, salt_of};
use perc_word::Octets;

// A key under which the packets from the last of a roll-over counter to the first of the next but one went out.
fn taken() -> TakenKey {
    let mut taken = TakenKey::new(1, Key::of(&Octets::of(&[7; 16])));
    taken.send(65535);
    taken.send(65536);
    taken.send(131072);
    taken
}

// Whether these packets and roll-over counters went out, and no others.
#[test]
fn sent(rt: HostRuntime) {
    let taken = taken();
    for (index, went) in &[
        (65534, false),
        (65535, true),
        (65536, true),
        (131072, true),
        (131073, false),
    ] {
        assert!(rt; taken.has_sent(*index) == *went);
    }
    for (roc, went) in &[(0, true), (1, true), (2, true), (3, false)] {
        assert!(rt; taken.has_wrapped(*roc) == *went);
    }
}

// Each is the same key under the same SPI, or not.
#[test]
fn same_keys(rt: HostRuntime) {
    let taken = taken();
    assert!(rt; taken.is(1, &[7; 16]));
    assert!(rt; !taken.is(2, &[7; 16]));
    assert!(rt; !taken.is(1, &[7; 32]));
    assert!(rt; !taken.is(1, &[8; 16]));
}

// What words of 16, 32, 28 and 44 octets spell.
#[test]
fn spelled(rt: HostRuntime) {
    let key = Key::of(&Octets::of(&[7; 32]));
    assert!(rt; key.octets() == [7; 32].as_slice());
    assert!(rt; key.padded().1 == 32);
    assert!(rt; salt_of(&Octets::of(&[9; 12])) == [9; 12]);
    let short = pair_in(&Octets::of(&[7; 28]));
    assert!(rt; short.key() == [7; 16].as_slice());
    let long = pair_in(&Octets::of(&[7; 44]));
    assert!(rt; long.key() == [7; 32].as_slice());
}
