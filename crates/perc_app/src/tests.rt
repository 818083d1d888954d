// Scripts, words and faults through the top call. Each expected text is worked out by hand from the grammar, or comes from
// an independent implementation.
use super::*;
use perc_base::{MemSink, MemSource};
use std::alloc::{AllocError, Global};
use std::process::Abort;
use std::test::Fail;

mod generated;
mod keys;
mod scripts;
mod table;
mod takings;
mod wires;

const OPENING: &str =
    "conference 0009\nekt 01010101010101010101010101010101 020202020202020202020202\njoin Ann 11111111 1000 c1c1c1c1c1c1c1c1c1c1c1c1c1c1c1c1c1c1c1c1c1c1c1c1c1c1c1c1 c2c2c2c2c2c2c2c2c2c2c2c2c2c2c2c2c2c2c2c2c2c2c2c2c2c2c2c2 d1d1d1d1d1d1d1d1d1d1d1d1d1d1d1d1\njoin Bob 22222222 2000 c3c3c3c3c3c3c3c3c3c3c3c3c3c3c3c3c3c3c3c3c3c3c3c3c3c3c3c3 c4c4c4c4c4c4c4c4c4c4c4c4c4c4c4c4c4c4c4c4c4c4c4c4c4c4c4c4 d2d2d2d2d2d2d2d2d2d2d2d2d2d2d2d2\n";

const OPENED: &str =
    "ekt 1\njoined Ann 00000000-0000-0000-0000-000000000001\njoined Bob 00000000-0000-0000-0000-000000000002\n";

// What came of a run.
#[derive(Drop)]
struct Outcome {
    status: Status,
    out: Vec<u8>,
    err: Vec<u8>,
}

// Runs `replay` on a script that comes in pieces of that many octets, where these calls of the input, the output and the
// error sink fail.
fn replayed(
    alloc: Global,
    script: &[u8],
    piece: usize,
    failing: [&[u64]; 3],
) -> Result<Outcome, AllocError> {
    let [reads, writes, errors] = failing;
    let mut input = MemSource::new(script.to_vec(alloc)?, piece.max(1), reads.to_vec(alloc)?);
    let mut out = MemSink::new(alloc, 1 << 20, writes.to_vec(alloc)?);
    let mut err = MemSink::new(alloc, 1 << 20, errors.to_vec(alloc)?);
    let words = vec![in alloc; String::from_str(alloc, "replay")?]?;
    let status = run(alloc, &words, &mut input, &mut out, &mut err);
    Ok(Outcome {
        status,
        out: out.octets().to_vec(alloc)?,
        err: err.octets().to_vec(alloc)?,
    })
}

fn joined(alloc: Global, pieces: &[&str]) -> Result<Vec<u8>, AllocError> {
    let mut all = Vec::new(alloc);
    for piece in pieces {
        all.extend_from_slice(piece.as_bytes())?;
    }
    Ok(all)
}

const USAGE: &str = "perc: usage: replay, make, endpoint, distributor, keydist\n";

// These words are in no form: nothing is written but the usage.
fn are_refused(rt: &impl Abort, alloc: Global, words: &[&str]) -> Result<(), Fail> {
    let mut given = Vec::new(alloc);
    for word in words {
        given.push(String::from_str(alloc, word)?)?;
    }
    let mut input = MemSource::new(OPENING.as_bytes().to_vec(alloc)?, 100, Vec::new(alloc));
    let mut out = MemSink::new(alloc, 100, Vec::new(alloc));
    let mut err = MemSink::new(alloc, 100, Vec::new(alloc));
    let status = run(alloc, &given, &mut input, &mut out, &mut err);
    assert_eq!(rt; status, Status(1));
    assert_eq!(rt; out.octets(), b"".as_slice());
    assert_eq!(rt; err.octets(), USAGE.as_bytes());
    Ok(())
}

#[test]
fn words_in_no_form(rt: HostRuntime) -> Result<(), Fail> {
    let alloc = rt.alloc();
    are_refused(&rt, alloc, &[])?;
    are_refused(&rt, alloc, &["replay", "x"])?;
    are_refused(&rt, alloc, &["make"])?;
    are_refused(&rt, alloc, &["make", "0"])?;
    are_refused(&rt, alloc, &["make", "1001"])?;
    are_refused(&rt, alloc, &["make", "07"])?;
    are_refused(&rt, alloc, &["make", "+7"])?;
    are_refused(&rt, alloc, &["make", ""])?;
    are_refused(&rt, alloc, &["make", "7", "7"])?;
    are_refused(&rt, alloc, &["7", "make"])?;
    are_refused(&rt, alloc, &["Make", "7"])?;
    are_refused(&rt, alloc, &["--help"])?;
    are_refused(&rt, alloc, &[""])?;
    are_refused(&rt, alloc, &["replay "])?;
    are_refused(&rt, alloc, &["Replay"])
}

// Lines, each of which stands behind the four lines of the opening, with the error text.
const REFUSED: [(&str, &str); 40] = [
    ("conference 0009\n", "perc: line 5: order\n"),
    ("# a comment\n\nconference 0009\n", "perc: line 7: order\n"),
    ("conference 000a\n", "perc: line 5: order\n"),
    ("conference clear\n", "perc: line 5: form\n"),
    ("conference\n", "perc: line 5: form\n"),
    (
        "ekt 01010101010101010101010101010101 020202020202020202020202\n",
        "perc: line 5: key\n",
    ),
    (
        "ekt 010101010101010101010101010101 020202020202020202020202\n",
        "perc: line 5: form\n",
    ),
    ("leave Cat\n", "perc: line 5: name\n"),
    ("leave cat\n", "perc: line 5: form\n"),
    (
        "grant Ann 1 d3d3d3d3d3d3d3d3d3d3d3d3d3d3d3d3\nx\n",
        "perc: line 6: form\n",
    ),
    (
        "grant Ann 2 d3d3d3d3d3d3d3d3d3d3d3d3d3d3d3d3\n",
        "perc: line 5: name\n",
    ),
    (
        "rekey Cat d3d3d3d3d3d3d3d3d3d3d3d3d3d3d3d3\n",
        "perc: line 5: name\n",
    ),
    ("rekey Ann d3d3\n", "perc: line 5: form\n"),
    ("send Ann 096 1 160 616263\n", "perc: line 5: form\n"),
    ("send Ann 96 1 160  616263\n", "perc: line 5: form\n"),
    (" send Ann 96 1 160 616263\n", "perc: line 5: form\n"),
    ("send Ann 96\t1 160 616263\n", "perc: line 5: form\n"),
    ("send Ann 96 1 160 616263\r\n", "perc: line 5: form\n"),
    ("send Ann 64 0 0 -\n", "perc: line 5: form\n"),
    ("send Ann 96 1 4294967296 -\n", "perc: line 5: form\n"),
    ("send Ann 96 1 0 AA\n", "perc: line 5: form\n"),
    ("send Zed 0 0 0 -\n", "perc: line 5: name\n"),
    ("send Zed 72 0 0 -\n", "perc: line 5: form\n"),
    ("forward Ann 1\n", "perc: line 5: datagram\n"),
    ("forward Zed 1\n", "perc: line 5: name\n"),
    ("forward Ann 1 to=Zed\n", "perc: line 5: name\n"),
    ("deliver 1 Bob\n", "perc: line 5: datagram\n"),
    ("deliver 1 Bob", "perc: line 5: datagram\n"),
    ("deliver 0 Bob\n", "perc: line 5: datagram\n"),
    ("deliver 4294967295 Bob\n", "perc: line 5: datagram\n"),
    ("deliver 4294967296 Bob\n", "perc: line 5: form\n"),
    ("deliver 1 Zed\n", "perc: line 5: name\n"),
    ("deliver 01 Bob\n", "perc: line 5: form\n"),
    ("inject -\n", "perc: line 5: form\n"),
    ("alter 1 0 00\n", "perc: line 5: datagram\n"),
    ("rtcp Zed 80c8000000000000\n", "perc: line 5: name\n"),
    ("# caf\u{e9}\n", "perc: line 5: form\n"),
    ("#\r\n", "perc: line 5: form\n"),
    ("\0\n", "perc: line 5: form\n"),
    (" \n", "perc: line 5: form\n"),
];

// The lines end the script with this error text, and the opening is reported.
fn is_refused(rt: &impl Abort, alloc: Global, lines: &str, error: &str) -> Result<(), Fail> {
    let script = joined(alloc, &[OPENING, lines])?;
    let got = replayed(alloc, &script, 1000, [&[], &[], &[]])?;
    assert_eq!(rt; got.status, Status(2), "{lines}");
    assert_eq!(rt; got.err.as_slice(), error.as_bytes(), "{lines}");
    assert!(rt; got.out.starts_with(OPENED.as_bytes()), "{lines}");
    Ok(())
}

#[test]
fn one_reason_for_each_line(rt: HostRuntime) -> Result<(), Fail> {
    for (lines, error) in &REFUSED {
        is_refused(&rt, rt.alloc(), lines, error)?;
    }
    Ok(())
}

// Whole scripts with their status, report and error text.
const SCRIPTS: [(&str, u8, &str, &str); 7] = [
    ("", 0, "", ""),
    ("# nothing here\n\n#", 0, "", ""),
    ("conference 0009", 0, "", ""),
    ("conference 000a", 0, "", ""),
    ("send Ann 0 0 0 -\n", 2, "", "perc: line 1: order\n"),
    ("send Ann 72 0 0 -\n", 2, "", "perc: line 1: form\n"),
    (
        "# first\nconference 0009\nconference 0009\n",
        2,
        "",
        "perc: line 3: order\n",
    ),
];

// The script has this outcome, in whatever pieces it is read.
fn ends_so(
    rt: &impl Abort,
    alloc: Global,
    script: &str,
    status: u8,
    report: &str,
    error: &str,
) -> Result<(), Fail> {
    for piece in [1, 7, 10000] {
        let got = replayed(alloc, script.as_bytes(), piece, [&[], &[], &[]])?;
        assert_eq!(rt; got.status, Status(status), "{script}");
        assert_eq!(rt; got.out.as_slice(), report.as_bytes(), "{script}");
        assert_eq!(rt; got.err.as_slice(), error.as_bytes(), "{script}");
    }
    Ok(())
}

#[test]
fn whole_scripts(rt: HostRuntime) -> Result<(), Fail> {
    for (script, status, report, error) in &SCRIPTS {
        ends_so(&rt, rt.alloc(), script, *status, report, error)?;
    }
    Ok(())
}

// The script has this status and error text.
fn comes_to(
    rt: &impl Abort,
    alloc: Global,
    script: &[u8],
    status: u8,
    error: &str,
) -> Result<(), Fail> {
    let got = replayed(alloc, script, 5000, [&[], &[], &[]])?;
    assert_eq!(rt; got.status, Status(status));
    assert_eq!(rt; got.err.as_slice(), error.as_bytes());
    Ok(())
}

// A head, and a comment of that many octets.
fn with_comment(alloc: Global, length: usize) -> Result<Vec<u8>, AllocError> {
    let mut script = joined(alloc, &["conference 0009\n#"])?;
    for _ in 1..length {
        script.push(b'a')?;
    }
    Ok(script)
}

// A line at its greatest length and one octet past it.
#[test]
fn limits(rt: HostRuntime) -> Result<(), Fail> {
    let alloc = rt.alloc();
    comes_to(&rt, alloc, &with_comment(alloc, 8192)?, 0, "")?;
    let long = with_comment(alloc, 8193)?;
    comes_to(&rt, alloc, &long, 2, "perc: line 2: long\n")?;
    let longer = with_comment(alloc, 20000)?;
    comes_to(&rt, alloc, &longer, 2, "perc: line 2: long\n")
}

const SENT: &str =
    "send Ann 96 1 160 616263\nforward Ann 1 pt=100 shift=5 marker=0\ndeliver 2 Bob\ndeliver 2 Bob\ndeliver 1 Ann\n";

// What those lines report. The datagrams come from an independent implementation.
const TOLD: &str =
    "wire 1 up Ann 80e003e8000000a011111111f2f3563309dd1044846eb835d57de8df942ab4c77ea1a3a1658a8e535dcf603b0e4b308c68d41866f136ad456652665196b934e253b5e7fc8dfbdab81c923b54034c60e99cc79d23165bf7a200010000002f02\nwire 2 down Bob 806403ed000000a01111111145833f981fab824f80de7e67aff265e6e7e0961010c87b33c83ae927fb94093836e1d86065926968d41866f136ad456652665196b934e253b5e7fc8dfbdab81c923b54034c60e99cc79d23165bf7a200010000002f02\naccept 2 Bob Ann 1 96 1000 1 160 616263\nrefuse 2 Bob outer-repeated\nrefuse 1 Ann own-stream\n";

// With these failing calls the script has this status and error text, and what is written begins its report.
fn fails_so(
    rt: &impl Abort,
    alloc: Global,
    failing: [&[u64]; 3],
    status: u8,
    error: &str,
) -> Result<(), Fail> {
    let script = joined(alloc, &[OPENING, SENT])?;
    let report = joined(alloc, &[OPENED, TOLD])?;
    let got = replayed(alloc, &script, 16, failing)?;
    assert_eq!(rt; got.status, Status(status));
    assert!(rt; report.starts_with(got.out.as_slice()));
    assert_eq!(rt; got.err.as_slice(), error.as_bytes());
    Ok(())
}

// Each read and each write of a whole run fails in turn, and so does the error text.
#[test]
fn each_call_fails(rt: HostRuntime) -> Result<(), Fail> {
    let alloc = rt.alloc();
    let script = joined(alloc, &[OPENING, SENT])?;
    let report = joined(alloc, &[OPENED, TOLD])?;
    let whole = replayed(alloc, &script, 16, [&[], &[], &[]])?;
    assert_eq!(rt; whole.status, Status(0));
    assert_eq!(rt; whole.out, report);
    let reads = script.len() as u64 / 16 + 2;
    for call in 0..reads {
        fails_so(&rt, alloc, [&[call], &[], &[]], 3, "perc: read fault\n")?;
    }
    for call in 0..8 {
        fails_so(&rt, alloc, [&[], &[call], &[]], 4, "perc: write fault\n")?;
    }
    fails_so(&rt, alloc, [&[3], &[], &[0]], 3, "")
}

// Runs the generated script of so many rounds, where these calls of the output fail.
fn made(alloc: Global, rounds: &str, failing: &[u64]) -> Result<Outcome, AllocError> {
    let mut input = MemSource::new(Vec::new(alloc), 1, vec![in alloc; 0]?);
    let mut out = MemSink::new(alloc, 10, failing.to_vec(alloc)?);
    let mut err = MemSink::new(alloc, 100, Vec::new(alloc));
    let words = vec![in alloc;
        String::from_str(alloc, "make")?,
        String::from_str(alloc, rounds)?,
    ]?;
    let status = run(alloc, &words, &mut input, &mut out, &mut err);
    Ok(Outcome {
        status,
        out: out.octets().to_vec(alloc)?,
        err: err.octets().to_vec(alloc)?,
    })
}

// The counts are worked out by hand, and the sum comes from an independent implementation.
#[test]
fn generated_scripts(rt: HostRuntime) -> Result<(), Fail> {
    let alloc = rt.alloc();
    let summary = b"made 7 lines 34 datagrams 21 accepted 14 refused 1 sum 342740\n";
    let whole = made(alloc, "7", &[])?;
    assert_eq!(rt; whole.status, Status(0));
    assert_eq!(rt; whole.out.as_slice(), summary.as_slice());
    assert_eq!(rt; whole.err.as_slice(), b"".as_slice());
    for call in 0..7 {
        let broken = made(alloc, "7", &[call])?;
        assert_eq!(rt; broken.status, Status(4));
        assert!(rt; summary.starts_with(broken.out.as_slice()));
        assert_eq!(rt; broken.err.as_slice(), b"perc: write fault\n".as_slice());
    }
    Ok(())
}
