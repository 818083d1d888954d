// Reports and faults through the top call. What is wanted of a picture is worked out by hand from the layout.
use perc_base::{MemSink, MemSource};
use perc_drawing::{Status, run};
use std::alloc::{AllocError, Global};
use std::test::Fail;

// What came of a run.
#[derive(Drop)]
struct Outcome {
    status: u8,
    out: MemSink,
    err: MemSink,
}

// Draws a report that comes in pieces of that many octets, where these calls of the input and the output fail.
fn drawn(
    alloc: Global,
    report: &[u8],
    piece: usize,
    reads: &[u64],
    writes: &[u64],
) -> Result<Outcome, AllocError> {
    let mut input = MemSource::new(report.to_vec(alloc)?, piece.max(1), reads.to_vec(alloc)?);
    let mut out = MemSink::new(alloc, 1 << 20, writes.to_vec(alloc)?);
    let mut err = MemSink::new(alloc, 1 << 20, Vec::new(alloc));
    let Status(status) = run(alloc, &[], &mut input, &mut out, &mut err);
    Ok(Outcome { status, out, err })
}

// Whether the part stands in the text.
fn holds(text: &[u8], part: &[u8]) -> bool {
    for start in 0..text.len() {
        if text[start..].starts_with(part) {
            return true;
        }
    }
    false
}

const OPENING: &str =
    "ekt 1\njoined Ann 00000000-0000-0000-0000-000000000001\njoined Bob 00000000-0000-0000-0000-000000000002\n";

// Lines behind the opening, and a text of the picture.
const SHOWN: [(&str, &str); 14] = [
    ("", "y=\"72\">EKT key: SPI 1</text>"),
    ("", "x=\"300\" y=\"102\">joined</text>"),
    (
        "wire 1 up Ann 80e00064000000a00a0b0c01\n",
        "<text class=\"plain\" text-anchor=\"middle\" x=\"225\" y=\"162\">1: PT 96, seq 100</text>",
    ),
    (
        "wire 2 down Bob 806f006b000000a00a0b0c01\nwire 3 down Bob 80\naccept 2 Bob Ann 1 96 100 1 160 -\n",
        "<text class=\"accepted\" text-anchor=\"end\" x=\"440\" y=\"182\">accepted: Ann 1</text>",
    ),
    (
        "wire 2 down Bob 806f006b000000a00a0b0c01\naccept 2 Bob Ann 1 96 100 1 160 -\nrefuse 2 Bob outer-repeated\n",
        "<text class=\"refused\" text-anchor=\"end\" x=\"440\" y=\"198\">refused: outer-repeated</text>",
    ),
    (
        "wire 2 down Bob 806f006b000000a00a0b0c01\nrefuse 2 Ann spi-unknown 7\n",
        ">at Ann, refused: spi-unknown 7</text>",
    ),
    ("wire 2 down Bob 806f006b\n", ">not delivered</text>"),
    (
        "wire 1 up Ann 80e00064000000a00a0b0c01\ndrop 1 Bob no-index 3\n",
        "<text class=\"dropped\" text-anchor=\"start\" x=\"160\" y=\"182\">for Bob, dropped: no-index 3</text>",
    ),
    ("wire 1 up Ann 80c90001\n", ">1: RTCP, length 4</text>"),
    ("wire 1 made 16fefd\n", ">made 1: DTLS, length 3</text>"),
    ("wire 1 made 80e00064\n", ">made 1: other, length 4</text>"),
    (
        "wire 1 reseal Bob 806f006b000000a00a0b0c01\n",
        "stroke-dasharray=\"6 4\" x1=\"150\" y1=\"168\" x2=\"450\" y2=\"168\"",
    ),
    ("rtcp 9 Cat 80c9\n", ">9 accepted: RTCP of length 2</text>"),
    ("denied Bob spi-old 4\n", ">denied: spi-old 4</text>"),
];

// Whether the octets begin and end as a picture does.
fn is_picture(octets: &[u8]) -> bool {
    octets.starts_with(b"<svg xmlns=") && octets.ends_with(b"</svg>\n")
}

// Whether the lines show this text where they are read in such pieces.
fn is_shown(alloc: Global, lines: &str, text: &str, piece: usize) -> Result<bool, AllocError> {
    let mut report = OPENING.as_bytes().to_vec(alloc)?;
    report.extend_from_slice(lines.as_bytes())?;
    let got = drawn(alloc, report.as_slice(), piece, &[], &[])?;
    let octets = got.out.octets();
    Ok(got.status == 0 && is_picture(octets) && holds(octets, text.as_bytes()))
}

#[test]
fn shows_lines(rt: HostRuntime) -> Result<(), Fail> {
    let alloc = rt.alloc();
    for (lines, text) in &SHOWN {
        let is_so = is_shown(alloc, lines, text, 3)? && is_shown(alloc, lines, text, 9000)?;
        assert!(rt; is_so, "{lines}");
    }
    Ok(())
}

// Inputs that aren't reports, with the error text.
const OTHERS: [(&str, &str); 4] = [
    ("\n", "perc-picture: line 1: not a report line\n"),
    (
        "ekt 1\nsend Ann 96 1 160 -\n",
        "perc-picture: line 2: not a report line\n",
    ),
    ("ekt 1\r\n", "perc-picture: line 1: not a report line\n"),
    (
        "ekt 1\nekt 2\nleft ann",
        "perc-picture: line 3: not a report line\n",
    ),
];

// Whether the run ends so, with nothing written.
fn ends_so(got: &Outcome, status: u8, error: &[u8]) -> bool {
    got.status == status && got.err.octets() == error && got.out.octets().is_empty()
}

#[test]
fn refuses_other_lines(rt: HostRuntime) -> Result<(), Fail> {
    let alloc = rt.alloc();
    for (report, error) in &OTHERS {
        let got = drawn(alloc, report.as_bytes(), 5, &[], &[])?;
        assert!(rt; ends_so(&got, 1, error.as_bytes()), "{error}");
    }
    let long = vec![in alloc; b'a'; 9000]?;
    let got = drawn(alloc, long.as_slice(), 5000, &[], &[])?;
    assert!(rt; ends_so(&got, 1, b"perc-picture: line 1: not a report line\n"));
    Ok(())
}

#[test]
fn tells_faults(rt: HostRuntime) -> Result<(), Fail> {
    let alloc = rt.alloc();
    let got = drawn(alloc, OPENING.as_bytes(), 30, &[1], &[])?;
    assert!(rt; ends_so(&got, 3, b"perc-picture: read fault\n"));
    let got = drawn(alloc, OPENING.as_bytes(), 30, &[], &[0])?;
    assert!(rt; ends_so(&got, 4, b"perc-picture: write fault\n"));
    Ok(())
}

// Appends a line that many times.
fn append_times(report: &mut Vec<u8>, line: &[u8], times: u64) -> Result<(), AllocError> {
    for _ in 0..times {
        report.extend_from_slice(line)?;
    }
    Ok(())
}

#[test]
fn cuts_long_reports(rt: HostRuntime) -> Result<(), Fail> {
    let alloc = rt.alloc();
    let mut report = b"wire 1 up Ann 00\n".to_vec(alloc)?;
    append_times(&mut report, b"left Ann\n", 1004)?;
    append_times(&mut report, b"refuse 1 media not-media\n", 23)?;
    append_times(&mut report, b"refuse 2 media not-media\n", 1)?;
    let got = drawn(alloc, report.as_slice(), 8000, &[], &[])?;
    assert!(rt; got.status == 0);
    assert!(rt; holds(got.out.octets(), CUT) && holds(got.out.octets(), b">and 3 more</text>"));
    Ok(())
}

const CUT: &[u8] = b">Cut after 1000 rows: 6 more lines of the report aren't drawn.</text>";
