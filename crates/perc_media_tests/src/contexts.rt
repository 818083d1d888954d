// Which tries are made, which SPIs are live, and where there is no room.
ghost use Rattle.std.specs.Prelude.{◌≡◌};
ghost use Rattle.perc_contexts.specs.Receiving.{Receiving};
ghost use Rattle.perc_contexts.specs.Kept.{StandsFor};

use perc_contexts::{CarriedKey, Contexts, KeyLimit, SpiOld, Try, TryList, TryPlace};
use perc_window::Freshness;
use std::process::Abort;
use std::test::Fail;

// A carried key: 16 octets that begin with this number.
#[derive(Clone, Copy)]
struct Key {
    spi: u16,
    number: u16,
    roc: u32,
}

fn octets_of(number: u16) -> [u8; 16] {
    let mut octets = [0; 16];
    octets[..2].copy_from_slice(&number.to_be_bytes());
    octets
}

// Adds an SPI.
fn add(contexts: &mut Contexts, spi: u16) -> Result<Option<u16>, SpiOld>
    requires { (held : Receiving) × StandsFor contexts.old held }
    ensures { (held : Receiving) × StandsFor contexts.new held }
{
    contexts.spi_add(spi)
}

fn tries_of(
    rt: &impl Abort,
    contexts: &Contexts,
    ssrc: u32,
    seq: u16,
    key: Option<Key>,
) -> Result<TryList, KeyLimit> {
    let Some(key) = key else {
        return contexts.tries(ssrc, seq, None);
    };
    assert!(rt; contexts.is_live(key.spi));
    let octets = octets_of(key.number);
    contexts.tries(
        ssrc,
        seq,
        Some(&CarriedKey {
            spi: key.spi,
            key: &octets,
            roc: key.roc,
        }),
    )
}

// Accepts a packet by the first of its tries, under the key that it carries.
fn accept(
    rt: &impl Abort,
    contexts: &mut Contexts,
    ssrc: u32,
    seq: u16,
    key: Key,
) -> Result<Try, KeyLimit>
    requires { (held : Receiving) × StandsFor contexts.old held }
    ensures { (held : Receiving) × StandsFor contexts.new held }
{
    assert!(rt; contexts.is_live(key.spi));
    let octets = octets_of(key.number);
    let carried = CarriedKey {
        spi: key.spi,
        key: &octets,
        roc: key.roc,
    };
    let list = contexts.tries(ssrc, seq, Some(&carried))?;
    let Some(first) = list.as_slice().first() else {
        panic!(rt; "no try");
    };
    match contexts.fresh(first) {
        Freshness::Fresh => contexts.commit(ssrc, first, Some(&carried)),
        Freshness::Repeated | Freshness::TooOld => panic!(rt; "not fresh"),
    }
    Ok(*first)
}

// Accepts a packet with SEQ 10 under a key that has no context yet.
fn accept_new(rt: &impl Abort, contexts: &mut Contexts, ssrc: u32, spi: u16, number: u16)
    requires { (held : Receiving) × StandsFor contexts.old held }
    ensures { (held : Receiving) × StandsFor contexts.new held }
{
    let first = accept(
        rt,
        contexts,
        ssrc,
        10,
        Key {
            spi,
            number,
            roc: 0,
        },
    );
    let wanted = Try {
        place: TryPlace::New,
        index: 10,
    };
    assert_eq!(rt; first, Ok(wanted), "key {number} of {ssrc} under {spi}");
}

// The same under so many keys.
fn fill(rt: &impl Abort, contexts: &mut Contexts, ssrc: u32, keys: u16)
    requires { (held : Receiving) × StandsFor contexts.old held }
    ensures { (held : Receiving) × StandsFor contexts.new held }
{
    for number in 0..keys {
        accept_new(rt, contexts, ssrc, 1, number);
    }
}

// Adds SPIs, and checks what is answered.
fn add_all(rt: &impl Abort, contexts: &mut Contexts, rows: &[(u16, Result<Option<u16>, SpiOld>)])
    requires { (held : Receiving) × StandsFor contexts.old held }
    ensures { (held : Receiving) × StandsFor contexts.new held }
{
    for (spi, answer) in rows {
        let added = add(contexts, *spi);
        assert_eq!(rt; added, *answer, "SPI {spi}");
    }
}

// Under these keys there is no room, or there is.
fn check_room(rt: &impl Abort, contexts: &Contexts, rows: &[(u32, u16, u16, bool)]) {
    for (ssrc, spi, number, refused) in rows {
        let key = Key {
            spi: *spi,
            number: *number,
            roc: 0,
        };
        let answer = tries_of(rt, contexts, *ssrc, 11, Some(key));
        assert_eq!(rt;
            answer.is_err(),
            *refused,
            "key {number} of {ssrc} under {spi}"
        );
    }
}

fn held(place: usize, index: u64) -> Try {
    Try {
        place: TryPlace::Held(place),
        index,
    }
}

// The tries of a packet with SEQ 11.
fn check_tries(rt: &impl Abort, contexts: &Contexts, key: Option<Key>, wanted: &[Try]) {
    let Ok(list) = tries_of(rt, contexts, 5, 11, key) else {
        panic!(rt; "refused");
    };
    assert_eq!(rt; list.as_slice(), wanted);
}

#[test]
fn newest_first(rt: HostRuntime) -> Result<(), Fail> {
    let Ok(mut contexts) = Contexts::with_room(rt.alloc()) else {
        return Err("no memory".into());
    };
    add_all(&rt, &mut contexts, &[(1, Ok(None))]);
    fill(&rt, &mut contexts, 5, 5);
    let newest = [held(4, 11), held(3, 11), held(2, 11), held(1, 11)];
    check_tries(&rt, &contexts, None, &newest);
    let under = |first: Try| [first, held(4, 11), held(3, 11), held(2, 11), held(1, 11)];
    // A key that is held comes first, at the roll-over counter that came with it, and so does a new one.
    check_tries(
        &rt,
        &contexts,
        Some(Key {
            spi: 1,
            number: 0,
            roc: 7,
        }),
        &under(held(0, 458763)),
    );
    check_tries(
        &rt,
        &contexts,
        Some(Key {
            spi: 1,
            number: 4,
            roc: 0,
        }),
        &under(held(4, 11)),
    );
    let new = Try {
        place: TryPlace::New,
        index: 458763,
    };
    check_tries(
        &rt,
        &contexts,
        Some(Key {
            spi: 1,
            number: 5,
            roc: 7,
        }),
        &under(new),
    );
    Ok(())
}

#[test]
fn lowest_goes(rt: HostRuntime) -> Result<(), Fail> {
    let Ok(mut contexts) = Contexts::with_room(rt.alloc()) else {
        return Err("no memory".into());
    };
    add_all(
        &rt,
        &mut contexts,
        &[
            (7, Ok(None)),
            (7, Err(SpiOld(7))),
            (6, Err(SpiOld(7))),
            (8, Ok(None)),
            (9, Ok(None)),
            (12, Ok(None)),
            (12, Err(SpiOld(12))),
        ],
    );
    accept_new(&rt, &mut contexts, 5, 7, 1);
    accept_new(&rt, &mut contexts, 5, 8, 1);
    check_tries(&rt, &contexts, None, &[held(1, 11), held(0, 11)]);
    add_all(
        &rt,
        &mut contexts,
        &[(13, Ok(Some(7))), (7, Err(SpiOld(13)))],
    );
    check_tries(&rt, &contexts, None, &[held(0, 11)]);
    for (spi, live) in [(7, false), (8, true), (12, true), (13, true), (14, false)] {
        assert_eq!(rt; contexts.is_live(spi), live, "SPI {spi}");
    }
    Ok(())
}

#[test]
fn no_room(rt: HostRuntime) -> Result<(), Fail> {
    let Ok(mut contexts) = Contexts::with_room(rt.alloc()) else {
        return Err("no memory".into());
    };
    add_all(&rt, &mut contexts, &[(0, Ok(None)), (1, Ok(None))]);
    fill(&rt, &mut contexts, 0, 64);
    check_room(
        &rt,
        &contexts,
        &[
            (0, 1, 64, true),
            (0, 1, 63, false),
            (0, 0, 64, false),
            (9, 1, 64, false),
        ],
    );
    for ssrc in 1..8u32 {
        fill(&rt, &mut contexts, ssrc, 64);
    }
    check_room(
        &rt,
        &contexts,
        &[
            (9, 1, 64, true),
            (9, 0, 0, true),
            (7, 1, 63, false),
            (0, 1, 0, false),
        ],
    );
    Ok(())
}

// Ten thousand packets are tried where 512 contexts are held, under a key of the sender whose contexts are the oldest.
#[test]
fn tries_when_full(rt: HostRuntime) -> Result<(), Fail> {
    let Ok(mut contexts) = Contexts::with_room(rt.alloc()) else {
        return Err("no memory".into());
    };
    add_all(&rt, &mut contexts, &[(1, Ok(None))]);
    for ssrc in 5..13u32 {
        fill(&rt, &mut contexts, ssrc, 64);
    }
    let key = Key {
        spi: 1,
        number: 63,
        roc: 0,
    };
    let wanted = [
        held(63, 11),
        held(63, 11),
        held(62, 11),
        held(61, 11),
        held(60, 11),
    ];
    for _ in 0..10000 {
        check_tries(&rt, &contexts, Some(key), &wanted);
    }
    Ok(())
}
