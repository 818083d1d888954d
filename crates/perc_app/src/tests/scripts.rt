// Scripts, those that are refused above all. Each reason is worked out by hand from what the lines mean; the datagrams come from an
// independent implementation.
use perc_base::{MemSink, MemSource};
use perc_replay::{Counts, ReplayEnd, replay};
use perc_script_line::Reason;
use std::alloc::Global;
use std::process::Abort;
use std::test::Fail;

const HEAD: &str = "conference 0009\n";

const ISSUED: &str =
    "conference 0009\nekt 01010101010101010101010101010101 020202020202020202020202\n";

const ANN: &str =
    "join Ann 11111111 1000 c1c1c1c1c1c1c1c1c1c1c1c1c1c1c1c1c1c1c1c1c1c1c1c1c1c1c1c1 c2c2c2c2c2c2c2c2c2c2c2c2c2c2c2c2c2c2c2c2c2c2c2c2c2c2c2c2 d1d1d1d1d1d1d1d1d1d1d1d1d1d1d1d1\n";

const BOB: &str =
    "join Bob 22222222 2000 c3c3c3c3c3c3c3c3c3c3c3c3c3c3c3c3c3c3c3c3c3c3c3c3c3c3c3c3 c4c4c4c4c4c4c4c4c4c4c4c4c4c4c4c4c4c4c4c4c4c4c4c4c4c4c4c4 d2d2d2d2d2d2d2d2d2d2d2d2d2d2d2d2\n";

const SENT: &str = "send Ann 96 1 160 616263\nforward Ann 1 shift=5\n";

const PAIR_OF_ANN: &str = "c1c1c1c1c1c1c1c1c1c1c1c1c1c1c1c1c1c1c1c1c1c1c1c1c1c1c1c1";

const SERVER_OF_ANN: &str = "c2c2c2c2c2c2c2c2c2c2c2c2c2c2c2c2c2c2c2c2c2c2c2c2c2c2c2c2";

const ONE: &str = "e1e1e1e1e1e1e1e1e1e1e1e1e1e1e1e1e1e1e1e1e1e1e1e1e1e1e1e1";

const OTHER: &str = "e2e2e2e2e2e2e2e2e2e2e2e2e2e2e2e2e2e2e2e2e2e2e2e2e2e2e2e2";

const KEY: &str = "d3d3d3d3d3d3d3d3d3d3d3d3d3d3d3d3";

const LONG_KEY: &str = "d4d4d4d4d4d4d4d4d4d4d4d4d4d4d4d4d4d4d4d4d4d4d4d4d4d4d4d4d4d4d4d4";

const SALT: &str = "020202020202020202020202";

// At which line the script ends, and for which reason, where one is refused.
fn refused_at(alloc: Global, script: Vec<u8>) -> Option<(u32, Reason)> {
    let mut input = MemSource::new(script, 1000, Vec::new(alloc));
    let mut out = MemSink::new(alloc, 1 << 20, Vec::new(alloc));
    match replay(alloc, &mut input, &mut out) {
        ReplayEnd::Script { line, reason } => Some((line, reason)),
        _ => None,
    }
}

// How many lines these octets end.
fn lines_in(octets: &[u8]) -> u32 {
    let mut lines: u32 = 0;
    for octet in octets {
        if *octet == b'\n' {
            lines = lines.saturating_add(1);
        }
    }
    lines
}

// Appends these pieces.
fn append(script: &mut Vec<u8>, pieces: &[&str]) -> Result<(), Fail> {
    for piece in pieces {
        script.extend_from_slice(piece.as_bytes())?;
    }
    Ok(())
}

// Behind this opening the line of these words, the last one, is refused for this reason.
fn ends_for(
    rt: &impl Abort,
    alloc: Global,
    opening: &[&str],
    words: &[&str],
    reason: Reason,
) -> Result<(), Fail> {
    let mut script = Vec::new(alloc);
    append(&mut script, opening)?;
    let line = lines_in(&script).saturating_add(1);
    append(&mut script, words)?;
    assert_eq!(rt;
        refused_at(alloc, script),
        Some((line, reason)),
        "{words:?}"
    );
    Ok(())
}

// Each of these last lines is refused for its reason.
fn end_for(
    rt: &impl Abort,
    alloc: Global,
    opening: &[&str],
    lines: &[(&[&str], Reason)],
) -> Result<(), Fail> {
    for (words, reason) in lines {
        ends_for(rt, alloc, opening, words, *reason)?;
    }
    Ok(())
}

#[test]
fn before_the_head(rt: HostRuntime) -> Result<(), Fail> {
    let order = Reason::Order;
    end_for(
        &rt,
        rt.alloc(),
        &["# nothing yet\n\n"],
        &[
            (&["ekt ", KEY, " ", SALT], order),
            (&["ekt ", LONG_KEY, " ", SALT], order),
            (&["join Ann 11111111 1 ", ONE, " ", OTHER, " ", KEY], order),
            (
                &["join Ann 11111111 1 ", ONE, " ", ONE, " ", LONG_KEY],
                order,
            ),
            (&["leave Ann"], order),
            (&["grant Ann 0 ", KEY], order),
            (&["rekey Ann ", KEY], order),
            (&["send Ann 0 0 0 -"], order),
            (&["forward Ann 1"], order),
            (&["deliver 1 Ann"], order),
            (&["rtcp Ann 80c8000000000000"], order),
            (&["inject 00"], order),
            (&["alter 1 0 00"], order),
            (&["graft 1 0 1 0"], order),
            (&["reseal 1 Ann 0"], order),
            (&["conference 0008"], Reason::Form),
            (&["inject"], Reason::Form),
            (&["ekt ", KEY], Reason::Form),
            (&[" "], Reason::Form),
        ],
    )
}

#[test]
fn before_a_record(rt: HostRuntime) -> Result<(), Fail> {
    let name = Reason::Name;
    end_for(
        &rt,
        rt.alloc(),
        &[HEAD],
        &[
            (&["conference 0009"], Reason::Order),
            (&["conference 000a"], Reason::Order),
            (&["conference 000b"], Reason::Form),
            (&["ekt ", LONG_KEY, " ", SALT], Reason::Form),
            (
                &["join Ann 11111111 1 ", ONE, " ", OTHER, " ", KEY],
                Reason::Order,
            ),
            (
                &["join Ann 11111111 1 ", ONE, " ", ONE, " ", KEY],
                Reason::Order,
            ),
            (
                &["join Ann 11111111 1 ", ONE, " ", OTHER, " ", LONG_KEY],
                Reason::Form,
            ),
            (&["leave Ann"], name),
            (&["grant Ann 1 ", KEY], name),
            (&["grant Ann 1 ", LONG_KEY], Reason::Form),
            (&["rekey Ann ", KEY], name),
            (&["rekey Ann ", LONG_KEY], Reason::Form),
            (&["send Ann 0 0 0 -"], name),
            (&["send Ann 64 0 0 -"], Reason::Form),
            (&["forward Ann 1"], name),
            (&["forward Ann 0 to=Bob"], name),
            (&["deliver 0 Ann"], name),
            (&["rtcp Ann 80c8000000000000"], name),
            (&["rtcp Ann 80c80000000000"], Reason::Form),
            (&["rtcp Ann 40c8000000000000"], Reason::Form),
            (&["rtcp Ann 80bf000000000000"], Reason::Form),
            (&["alter 1 0 00"], Reason::Datagram),
            (&["graft 1 0 1 0"], Reason::Datagram),
            (&["reseal 1 Ann 0"], name),
        ],
    )
}

#[test]
fn names_pairs_and_keys(rt: HostRuntime) -> Result<(), Fail> {
    let name = Reason::Name;
    let key = Reason::Key;
    end_for(
        &rt,
        rt.alloc(),
        &[ISSUED, ANN, BOB],
        &[
            (
                &["ekt 01010101010101010101010101010101 020202020202020202020202"],
                key,
            ),
            (
                &["ekt 01010101010101010101010101010101 030303030303030303030303"],
                key,
            ),
            (&["join Ann 33333333 1 ", ONE, " ", OTHER, " ", KEY], name),
            (&["join Cat 11111111 1 ", ONE, " ", OTHER, " ", KEY], name),
            (&["join Cat 22222222 1 ", ONE, " ", OTHER, " ", KEY], name),
            (&["join Ann 33333333 1 ", ONE, " ", ONE, " ", KEY], name),
            (&["join Cat 33333333 1 ", ONE, " ", ONE, " ", KEY], key),
            (
                &["join Cat 33333333 1 ", PAIR_OF_ANN, " ", OTHER, " ", KEY],
                key,
            ),
            (
                &["join Cat 33333333 1 ", OTHER, " ", PAIR_OF_ANN, " ", KEY],
                key,
            ),
            (
                &["join Cat 33333333 1 ", SERVER_OF_ANN, " ", OTHER, " ", KEY],
                key,
            ),
            (
                &["join Cat 33333333 1 ", OTHER, " ", SERVER_OF_ANN, " ", KEY],
                key,
            ),
            (&["leave Cat"], name),
            (&["grant Ann 0 ", KEY], name),
            (&["grant Ann 2 ", KEY], name),
            (&["grant Cat 1 ", KEY], name),
            (&["rekey Cat ", KEY], name),
            (&["send Cat 0 0 0 -"], name),
        ],
    )
}

#[test]
fn datagrams(rt: HostRuntime) -> Result<(), Fail> {
    let name = Reason::Name;
    let datagram = Reason::Datagram;
    end_for(
        &rt,
        rt.alloc(),
        &[ISSUED, ANN, BOB, SENT],
        &[
            (&["forward Ann 0"], datagram),
            (&["forward Ann 3"], datagram),
            (&["forward Ann 1,2,3"], datagram),
            (&["forward Ann 3 to=Bob"], datagram),
            (&["forward Ann 1 to=Cat"], name),
            (&["forward Ann 3 to=Cat"], name),
            (&["forward Ann 1 to=Bob,Cat"], name),
            (&["forward Cat 3"], name),
            (&["deliver 0 Bob"], datagram),
            (&["deliver 3 Bob"], datagram),
            (&["deliver 1 Cat"], name),
            (&["deliver 3 Cat"], name),
            (&["forward Ann 1 pt=72"], Reason::Form),
            (&["forward Ann 1 to="], Reason::Form),
            (&["deliver 1"], Reason::Form),
        ],
    )
}

// Ann's datagram 1 has 97 octets, datagram 2 as many and 5 of the block, which the distributor made of it; 3 is a copy, and 4 no media.
const HOSTILE: &str = "alter 2 0 80\ninject 00\nrtcp Ann 80c8000111111111\n";

#[test]
fn hostile_lines(rt: HostRuntime) -> Result<(), Fail> {
    let name = Reason::Name;
    let datagram = Reason::Datagram;
    let long = format!(in rt.alloc(); "inject {0:03000}", 0)?;
    let longer = format!(in rt.alloc(); "inject {0:03002}", 0)?;
    let longest = format!(in rt.alloc(); "{long}\n")?;
    end_for(
        &rt,
        rt.alloc(),
        &[ISSUED, ANN, BOB, SENT, HOSTILE, &longest],
        &[
            (&["inject"], Reason::Form),
            (&["inject -"], Reason::Form),
            (&["inject 0"], Reason::Form),
            (&[&longer], Reason::Form),
            (&["alter 0 0 00"], datagram),
            (&["alter 7 0 00"], datagram),
            (&["alter 4 1 00"], datagram),
            (&["alter 4 0 0000"], datagram),
            (&["alter 4 4294967295 00"], datagram),
            (&["alter 4 4294967296 00"], Reason::Form),
            (&["graft 0 1 1 1"], datagram),
            (&["graft 1 1 0 1"], datagram),
            (&["graft 7 0 1 1"], datagram),
            (&["graft 1 1 7 0"], datagram),
            (&["graft 4 2 1 0"], datagram),
            (&["graft 1 0 4 2"], datagram),
            (&["graft 1 4294967295 4 4294967295"], datagram),
            (&["graft 1 0 4 0"], datagram),
            (&["graft 6 1500 4 1"], Reason::Limit),
            (&["graft 4 1 6 1500"], Reason::Limit),
            (&["graft 6 1501 4 0"], datagram),
            (&["reseal 1 Cat 0"], name),
            (&["reseal 9 Cat 0"], name),
            (&["reseal 0 Bob 0"], datagram),
            (&["reseal 7 Bob 0"], datagram),
            (&["reseal 3 Bob 0"], datagram),
            (&["reseal 4 Bob 0"], datagram),
            (&["reseal 5 Bob 0"], datagram),
            (&["reseal 1 Bob 0 marker=1 pt=1"], Reason::Form),
            (&["rtcp Cat 80c8000111111111"], name),
        ],
    )
}

#[test]
fn who_left(rt: HostRuntime) -> Result<(), Fail> {
    let name = Reason::Name;
    end_for(
        &rt,
        rt.alloc(),
        &[ISSUED, ANN, BOB, SENT, "leave Ann\n"],
        &[
            (&["leave Ann"], name),
            (&["send Ann 0 0 0 -"], name),
            (&["rekey Ann ", KEY], name),
            (&["grant Ann 1 ", KEY], name),
            (&["rtcp Ann 80c8000111111111"], name),
            (&["reseal 1 Ann 0"], name),
            (&["forward Ann 1"], name),
            (&["forward Bob 1 to=Ann"], name),
            (&["deliver 1 Ann"], name),
            (&["join Ann 33333333 1 ", ONE, " ", OTHER, " ", KEY], name),
            (&["join Cat 11111111 1 ", ONE, " ", OTHER, " ", KEY], name),
            (
                &["join Cat 33333333 1 ", PAIR_OF_ANN, " ", OTHER, " ", KEY],
                Reason::Key,
            ),
            (
                &["join Cat 33333333 1 ", ONE, " ", SERVER_OF_ANN, " ", KEY],
                Reason::Key,
            ),
        ],
    )
}

// A script in which so many join, each with pairs of its own; where only one is present at a time, each leaves at once. The last join
// is one too many.
fn joins(alloc: Global, count: usize, leaving: bool) -> Result<Vec<u8>, Fail> {
    let mut script = Vec::new(alloc);
    script.extend_from_slice(ISSUED.as_bytes())?;
    for i in 0..count {
        let line = format!(in alloc; "join N{i} {i:08x} 1 {i:056x} f{i:055x} {KEY}\n")?;
        script.extend_from_slice(line.as_bytes())?;
        if leaving && i + 1 < count {
            let line = format!(in alloc; "leave N{i}\n")?;
            script.extend_from_slice(line.as_bytes())?;
        }
    }
    Ok(script)
}

// The last line of the script is refused as past a limit.
fn ends_at_limit(rt: &impl Abort, alloc: Global, script: Vec<u8>) {
    let lines = lines_in(&script);
    assert_eq!(rt; refused_at(alloc, script), Some((lines, Reason::Limit)));
}

// A script in which so many keys are issued.
fn keys_issued(alloc: Global, count: usize) -> Result<Vec<u8>, Fail> {
    let mut script = Vec::new(alloc);
    script.extend_from_slice(HEAD.as_bytes())?;
    for i in 0..count {
        let line = format!(in alloc; "ekt {i:032x} {SALT}\n")?;
        script.extend_from_slice(line.as_bytes())?;
    }
    Ok(script)
}

// A script in which so many datagrams come to the wire before a last line.
fn injects(alloc: Global, count: usize, last: &str) -> Result<Vec<u8>, Fail> {
    let mut script = Vec::new(alloc);
    append(&mut script, &[ISSUED, ANN, BOB, SEND])?;
    for _ in 1..count {
        script.extend_from_slice(b"inject 00\n")?;
    }
    script.extend_from_slice(last.as_bytes())?;
    Ok(script)
}

#[test]
fn limits(rt: HostRuntime) -> Result<(), Fail> {
    let alloc = rt.alloc();
    ends_at_limit(&rt, alloc, joins(alloc, 65, false)?);
    ends_at_limit(&rt, alloc, joins(alloc, 257, true)?);
    ends_at_limit(&rt, alloc, keys_issued(alloc, 65536)?);
    Ok(())
}

// With as many datagrams as there may be, no line makes one more; and a forward counts each of its list for each that gets it.
#[test]
fn datagrams_at_most(rt: HostRuntime) -> Result<(), Fail> {
    let alloc = rt.alloc();
    let lasts = [
        "send Ann 0 0 0 -\n",
        "inject 00\n",
        "alter 2 0 00\n",
        "graft 2 1 2 0\n",
        "reseal 1 Bob 0\n",
        "rtcp Ann 80c8000111111111\n",
        "forward Ann 1\n",
    ];
    for last in lasts {
        ends_at_limit(&rt, alloc, injects(alloc, 131072, last)?);
    }
    ends_at_limit(&rt, alloc, injects(alloc, 131071, "forward Ann 1,2\n")?);
    Ok(())
}

const JOINED: &str =
    "ekt 1\njoined Ann 00000000-0000-0000-0000-000000000001\njoined Bob 00000000-0000-0000-0000-000000000002\n";

const SEND: &str = "send Ann 96 1 160 616263\n";

const UP: &str =
    "wire 1 up Ann 80e003e8000000a011111111f2f3563309dd1044846eb835d57de8df942ab4c77ea1a3a1658a8e535dcf603b0e4b308c68d41866f136ad456652665196b934e253b5e7fc8dfbdab81c923b54034c60e99cc79d23165bf7a200010000002f02\n";

const DOWN: &str =
    "wire 2 down Bob 806403ed000000a01111111145833f981fab824f80de7e67aff265e6e7e0961010c87b33c83ae927fb94093836e1d86065926968d41866f136ad456652665196b934e253b5e7fc8dfbdab81c923b54034c60e99cc79d23165bf7a200010000002f02\n";

// What these words report behind the joins of two members, and what is counted.
fn report(
    rt: &impl Abort,
    alloc: Global,
    words: &str,
    told: &str,
    wanted: Counts,
) -> Result<(), Fail> {
    let script = format!(in alloc; "{ISSUED}{ANN}{BOB}{SEND}{words}")?;
    let report = format!(in alloc; "{JOINED}{UP}{told}")?;
    let octets = Vec::from_slice(alloc, script.as_bytes())?;
    let mut input = MemSource::new(octets, 50, Vec::new(alloc));
    let mut out = MemSink::new(alloc, 100, Vec::new(alloc));
    let end = replay(alloc, &mut input, &mut out);
    let counts = match end {
        ReplayEnd::Done(counts) => Some(counts),
        _ => None,
    };
    assert_eq!(rt; out.octets(), report.as_bytes(), "{words}");
    assert_eq!(rt; counts, Some(wanted), "{words}");
    Ok(())
}

// Counts of a script of so many lines.
fn counts(lines: u32, datagrams: u32, accepted: u32, refused: u64) -> Counts {
    Counts {
        lines,
        datagrams,
        accepted,
        refused,
    }
}

#[test]
fn first_packet(rt: HostRuntime) -> Result<(), Fail> {
    let alloc = rt.alloc();
    let told = format!(in alloc;
        "{DOWN}accept 2 Bob Ann 1 96 1000 1 160 616263\nrefuse 2 Bob outer-repeated\nrefuse 1 Ann own-stream\n"
    )?;
    report(
        &rt,
        alloc,
        "forward Ann 1 pt=100 shift=5 marker=0\ndeliver 2 Bob\ndeliver 2 Bob\ndeliver 1 Ann\n",
        &told,
        counts(9, 2, 1, 2),
    )?;
    let told = format!(in alloc; "{DOWN}refuse 1 media outer-repeated\n")?;
    report(
        &rt,
        alloc,
        "forward Ann 1,1 pt=100 shift=5 marker=0 to=Ann,Bob,Bob\n",
        &told,
        counts(6, 2, 0, 1),
    )?;
    report(&rt, alloc, "forward Ann 1 to=Ann\n", "", counts(6, 1, 0, 0))?;
    report(
        &rt,
        alloc,
        "leave Bob\nforward Ann 1\nforward Ann 1\n",
        "left Bob\nrefuse 1 media outer-repeated\n",
        counts(8, 1, 0, 1),
    )
}

// A source whose sixth call fails, and a sink whose second call does.
#[test]
fn faults(rt: HostRuntime) -> Result<(), Fail> {
    let alloc = rt.alloc();
    let script = format!(in alloc; "{ISSUED}{ANN}{BOB}")?;
    let octets = Vec::from_slice(alloc, script.as_bytes())?;
    let mut input = MemSource::new(octets, 50, vec![in alloc; 5]?);
    let mut out = MemSink::new(alloc, 100, Vec::new(alloc));
    let end = replay(alloc, &mut input, &mut out);
    assert!(rt; matches!(end, ReplayEnd::ReadFault));
    assert_eq!(rt;
        out.octets(),
        b"ekt 1\njoined Ann 00000000-0000-0000-0000-000000000001\n".as_slice()
    );
    let octets = Vec::from_slice(alloc, script.as_bytes())?;
    let mut input = MemSource::new(octets, 50, Vec::new(alloc));
    let mut out = MemSink::new(alloc, 5, vec![in alloc; 1]?);
    let end = replay(alloc, &mut input, &mut out);
    assert!(rt; matches!(end, ReplayEnd::WriteFault));
    assert_eq!(rt; out.octets(), b"ekt 1".as_slice());
    Ok(())
}
