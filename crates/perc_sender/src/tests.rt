// Epochs, refusals, indices and full fields of senders.
ghost use Rattle.std.specs.Prelude.{◌≡◌, ◌≤◌, ◌⊎◌, length, IfSome};
ghost use Rattle.perc_sender.specs.Schedule.{newest};

use super::*;
use std::process::Abort;

// A key of this length: its number in two octets, and zeros.
#[derive(Drop)]
struct SomeKey {
    number: u16,
    octets: [u8; 32],
    len: usize,
}

fn key_of(number: u16, len: usize) -> SomeKey {
    let mut octets = [0; 32];
    octets[..2].copy_from_slice(&number.to_be_bytes());
    SomeKey {
        number,
        octets,
        len,
    }
}

// An SPI that may be taken next.
fn least_spi(sender: &Sender) -> u16
    ensures { IfSome (newest sender.now.keys) (λ taken. taken.spi ≤ result) }
{
    match last_taken(sender.keys.as_slice()) {
        Some(taken) => taken.spi,
        None => 0,
    }
}

fn take(rt: &impl Abort, sender: &mut Sender, spi: u16, key: &SomeKey) -> Result<u16, TakeFault> {
    assert!(rt; least_spi(sender) <= spi);
    assert!(rt; key.len == 16 || key.len == 32);
    let octets = &key.octets[..key.len];
    let answer = sender.take_key(spi, octets);
    if answer.is_ok() {
        assert!(rt; sender.key() == Some(octets), "key {}", key.number);
    }
    answer
}

// Under an SPI, a key with this number and length, and what is answered.
const TAKES: [(u16, u16, usize, Result<u16, TakeFault>); 14] = [
    (1, 700, 16, Ok(0)),
    (1, 700, 16, Err(TakeFault::Repeated)),
    (1, 700, 32, Ok(1)),
    (1, 700, 32, Err(TakeFault::Repeated)),
    (1, 700, 16, Err(TakeFault::Repeated)),
    (3, 700, 16, Err(TakeFault::Repeated)),
    (3, 800, 32, Ok(0)),
    (3, 700, 32, Err(TakeFault::Repeated)),
    (3, 900, 32, Ok(1)),
    (3, 800, 16, Ok(2)),
    (4, 1000, 32, Ok(0)),
    (4, 900, 32, Err(TakeFault::Repeated)),
    (65535, 1001, 16, Ok(0)),
    (65535, 1002, 16, Ok(1)),
];

#[test]
fn epochs(rt: HostRuntime) {
    let mut sender = Sender::new(0xcafe, 0);
    assert_eq!(rt; sender.ssrc(), 0xcafe);
    assert!(rt; sender.key().is_none());
    for (spi, number, len, answer) in &TAKES {
        let taken = take(&rt, &mut sender, *spi, &key_of(*number, *len));
        assert_eq!(rt; taken, *answer, "key {number} of {len} octets");
    }
}

// 64 keys under an SPI, from this number on, and no more.
fn take_all_under(rt: &impl Abort, sender: &mut Sender, spi: u16, from: u16) {
    for epoch in 0..64u16 {
        let taken = take(rt, sender, spi, &key_of(from.wrapping_add(epoch), 16));
        assert_eq!(rt; taken, Ok(epoch), "SPI {spi}");
    }
    let another = take(rt, sender, spi, &key_of(60000, 16));
    assert_eq!(rt; another, Err(TakeFault::Limit), "SPI {spi}");
    let first = take(rt, sender, spi, &key_of(0, 16));
    assert_eq!(rt; first, Err(TakeFault::Repeated), "SPI {spi}");
}

#[test]
fn limits(rt: HostRuntime) {
    let mut sender = Sender::new(1, 0);
    for spi in 0..8u16 {
        take_all_under(&rt, &mut sender, spi, spi * 64);
    }
    let another = take(&rt, &mut sender, 8, &key_of(60000, 16));
    assert_eq!(rt; another, Err(TakeFault::Limit));
    let first = take(&rt, &mut sender, 8, &key_of(0, 16));
    assert_eq!(rt; first, Err(TakeFault::Repeated));
}

// A key taken, and the packets under it: the place of the first, how many they are, and the indices that are full.
struct Run {
    key: u16,
    spi: u16,
    epoch: u16,
    first: u64,
    count: u64,
    full: &'static [u64],
}

// A new key resets the count under the key, and not the index.
const FROM_0: [Run; 4] = [
    Run {
        key: 1,
        spi: 1,
        epoch: 0,
        first: 0,
        count: 201,
        full: &[0, 1, 2, 100, 200],
    },
    Run {
        key: 2,
        spi: 1,
        epoch: 1,
        first: 201,
        count: 99,
        full: &[201, 202, 203],
    },
    Run {
        key: 3,
        spi: 1,
        epoch: 2,
        first: 300,
        count: 1,
        full: &[300],
    },
    Run {
        key: 4,
        spi: 9,
        epoch: 0,
        first: 301,
        count: 102,
        full: &[301, 302, 303, 401],
    },
];

// A change of the roll-over counter makes a full field, also behind a new key.
const FROM_65530: [Run; 2] = [
    Run {
        key: 1,
        spi: 2,
        epoch: 0,
        first: 65530,
        count: 12,
        full: &[65530, 65531, 65532, 65536],
    },
    Run {
        key: 2,
        spi: 2,
        epoch: 1,
        first: 65542,
        count: 4,
        full: &[65542, 65543, 65544],
    },
];

const LAST: [Run; 1] = [Run {
    key: 1,
    spi: 5,
    epoch: 0,
    first: 281474976710655,
    count: 1,
    full: &[281474976710655],
}];

fn send_run(rt: &impl Abort, sender: &mut Sender, run: &Run) {
    let taken = take(rt, sender, run.spi, &key_of(run.key, 32));
    assert_eq!(rt; taken, Ok(run.epoch));
    for number in 0..run.count {
        let index = run.first.wrapping_add(number);
        assert_eq!(rt; sender.next_index(), index);
        let wanted = SendPlace {
            index,
            spi: run.spi,
            epoch: run.epoch,
            full: run.full.contains(&index),
        };
        assert_eq!(rt; sender.next(), Ok(wanted));
    }
}

fn send_all(rt: &impl Abort, runs: &[Run], sender: &mut Sender) {
    assert_eq!(rt; sender.next(), Err(NextFault::NoKey));
    for run in runs {
        send_run(rt, sender, run);
    }
}

#[test]
fn places(rt: HostRuntime) {
    send_all(&rt, &FROM_0, &mut Sender::new(1, 0));
    send_all(&rt, &FROM_65530, &mut Sender::new(2, 65530));
    let mut last = Sender::new(3, 281474976710655);
    send_all(&rt, &LAST, &mut last);
    assert_eq!(rt; last.next(), Err(NextFault::IndexSpent));
    assert_eq!(rt; take(&rt, &mut last, 5, &key_of(2, 16)), Ok(1));
    assert_eq!(rt; last.next(), Err(NextFault::IndexSpent));
}
