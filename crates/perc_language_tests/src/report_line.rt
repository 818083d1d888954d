// Lines as the grammar gives them, worked out by hand, and lines of whole reports that other code made.
use perc_report_line::ReportLine;
use perc_word::{Name, Octets};
use std::alloc::Global;
use std::test::Fail;

// Lines of reports.
const REPORTS: &[u8] = b"accept 4 Bob Ann 3 0 0 0 1 -\n\
    accept 2 Bob Ann 1 0 1000 0 0 aa\n\
    accept 8 Bob Ann 2 96 1001 1 320 aa\n\
    denied Ann key-limit\n\
    denied Ann key-repeated\n\
    denied Bob spi-old 5\n\
    drop 3 Bob no-index 65005\n\
    drop 2 Bob nonce-used 3\n\
    drop 1 Bob room\n\
    ekt 1\n\
    granted Bob 2\n\
    joined Ann 00000000-0000-0000-0000-000000000001\n\
    left Bob\n\
    refuse 3 Bob ekt-length\n\
    refuse 3 Bob ekt-type\n\
    refuse 261 Bob inner-old\n\
    refuse 3 Bob inner-repeated\n\
    refuse 1 Bob inner-short\n\
    refuse 8 Bob inner-tag\n\
    refuse 7 Bob no-context\n\
    refuse 3 Bob not-media\n\
    refuse 1 Bob ohb-empty\n\
    refuse 3 Bob ohb-marker\n\
    refuse 5 Bob ohb-pt\n\
    refuse 2 Bob ohb-reserved\n\
    refuse 4 Bob ohb-short\n\
    refuse 5 Bob outer-old\n\
    refuse 2 Bob outer-repeated\n\
    refuse 3 Bob outer-tag\n\
    refuse 2 Ann own-stream\n\
    refuse 262 Bob rtcp-clear\n\
    refuse 132 Bob rtcp-old\n\
    refuse 2 Bob rtcp-repeated\n\
    refuse 3 Bob rtp-short\n\
    refuse 1 Bob spi-unknown 2\n\
    refuse 257 Bob stream-limit\n\
    refuse 3 Bob unwrap\n\
    refuse 11 media ohb-empty\n\
    refuse 13 media ohb-marker\n\
    refuse 15 media ohb-pt\n\
    refuse 12 media ohb-reserved\n\
    refuse 14 media ohb-short\n\
    refuse 1 media outer-repeated\n\
    refuse 1 media outer-tag\n\
    refuse 1 media rtcp-old\n\
    refuse 3 media rtcp-repeated\n\
    refuse 515 media stream-limit\n\
    rekeyed Ann 1 1\n\
    rtcp 2 Bob 80c9000111111111\n\
    wire 2 down Bob 80c9000111111111e49e0214f22a4adbd1f9366773d2829c80000000\n\
    wire 1 made 80\n\
    wire 261 reseal Bob 800004b100000001111111111fdc5aa916b0a8c7cdea7f74383aa7dc840dde05fd7343758d60d6a3f17d9dc1ba1b6868d41866f136ad456652665196b934e253b5e7fc8dfbdab81c923b54034c60e99cc79d23165bf7a200010000002f02\n\
    wire 1 up Ann 80c900011111111111d2633090986b332435c6ed8d6cc14d80000000";

// Each form, with the smallest and the largest of each field, and each reason.
const GOOD: &[u8] = b"ekt 0\n\
    ekt 65535\n\
    joined A 00000000-0000-0000-0000-000000000000\n\
    joined A0b1C2d3E4f5G6h7 00112233-4455-6677-8899-aabbccddeeff\n\
    granted A 0\n\
    granted A 65535\n\
    denied A spi-old 0\n\
    denied A spi-old 65535\n\
    denied A key-repeated\n\
    denied A key-limit\n\
    rekeyed A 0 0\n\
    rekeyed A 65535 65535\n\
    wire 0 up A 00\n\
    wire 4294967295 up A ff\n\
    wire 0 made 00\n\
    wire 0 reseal A 00\n\
    wire 0 down A 00\n\
    drop 0 A stream-limit\n\
    drop 0 A room\n\
    drop 0 A no-index 65535\n\
    drop 0 A nonce-used 281474976710655\n\
    drop 0 A rtcp-spent\n\
    accept 0 A B 0 0 0 0 0 -\n\
    accept 4294967295 A B 4294967295 127 65535 1 4294967295 00ff\n\
    rtcp 0 A 00\n\
    refuse 1 A not-media\n\
    refuse 1 A no-field\n\
    refuse 1 A ekt-type\n\
    refuse 1 A ekt-length\n\
    refuse 1 A rtp-short\n\
    refuse 1 A rtp-version\n\
    refuse 1 A rtp-extension\n\
    refuse 1 A own-stream\n\
    refuse 1 A outer-short\n\
    refuse 1 A outer-old\n\
    refuse 1 A outer-repeated\n\
    refuse 1 A stream-limit\n\
    refuse 1 A outer-tag\n\
    refuse 1 A ohb-empty\n\
    refuse 1 A ohb-reserved\n\
    refuse 1 A ohb-marker\n\
    refuse 1 A ohb-short\n\
    refuse 1 A ohb-pt\n\
    refuse 1 A inner-short\n\
    refuse 1 A spi-unknown 65535\n\
    refuse 1 A unwrap\n\
    refuse 1 A ekt-plain\n\
    refuse 1 A key-limit\n\
    refuse 1 A no-context\n\
    refuse 1 A inner-old\n\
    refuse 1 A inner-repeated\n\
    refuse 1 A inner-tag\n\
    refuse 1 A padding\n\
    refuse 1 A rtcp-short\n\
    refuse 1 A rtcp-version\n\
    refuse 1 A rtcp-clear\n\
    refuse 1 A rtcp-old\n\
    refuse 1 A rtcp-repeated\n\
    refuse 1 A rtcp-tag\n\
    refuse 1 media outer-tag\n\
    refuse 1 media spi-unknown 0";

// Each form with something wrong.
const BAD: &[u8] = b"ekt\n\
    ekt 65536\n\
    ekt 01\n\
    ekt 1 1\n\
    ekt 1 \n\
    Ekt 1\n\
    joined A\n\
    joined A 00000000-0000-0000-0000-00000000000\n\
    joined A 0000000-0000-0000-0000-000000000001\n\
    joined A 00000000-0000-0000-0000-00000000000A\n\
    joined A 00000000000000000000000000000001\n\
    joined a 00000000-0000-0000-0000-000000000001\n\
    left\n\
    left a\n\
    left A A\n\
    granted A\n\
    granted A 65536\n\
    denied A\n\
    denied A spi-old\n\
    denied A spi-old 65536\n\
    denied A key-limit 1\n\
    denied A unwrap\n\
    rekeyed A 1\n\
    rekeyed A 65536 0\n\
    rekeyed A 0 65536\n\
    wire 1 up A\n\
    wire 1 up A 0\n\
    wire 1 up A 0A\n\
    wire 1 up A -\n\
    wire 4294967296 up A 00\n\
    wire 1 made A 00\n\
    wire 1 sent A 00\n\
    wire 1 down A 00 00\n\
    drop 1 A\n\
    drop 1 A no-index\n\
    drop 1 A no-index 65536\n\
    drop 1 A nonce-used 281474976710656\n\
    drop 1 A room 1\n\
    drop 1 A unwrap\n\
    refuse 1 media\n\
    refuse 1 media spi-old 1\n\
    refuse 1 A spi-unknown\n\
    refuse 1 A spi-unknown 65536\n\
    refuse 1 A unwrap 1\n\
    refuse 1 b unwrap\n\
    accept 1 A B 1 64 0 0 0 -\n\
    accept 1 A B 1 0 65536 0 0 -\n\
    accept 1 A B 1 0 0 2 0 -\n\
    accept 1 A B 1 0 0 0 4294967296 -\n\
    accept 1 A B 1 0 0 0 0\n\
    accept 1 A B 1 0 0 0 0 - -\n\
    accept 1 A B 1 0 0 0 0 0\n\
    rtcp 1 A\n\
    rtcp 1 A -\n\
    conference 0009\n\
    joined A 00000000-0000-0000-0000-000000000001 0\n\
    granted A 01\n\
    granted A 1 0\n\
    denied A spi-old 01\n\
    denied A spi-old 1 0\n\
    denied A key-repeated 0\n\
    rekeyed A 01 0\n\
    rekeyed A 0 01\n\
    rekeyed A 0 0 0\n\
    wire 01 up A 00\n\
    wire 1 up A 00 0\n\
    wire 4294967296 made 00\n\
    wire 01 made 00\n\
    wire 1 made 0\n\
    wire 1 made 0A\n\
    wire 1 made 00 0\n\
    wire 4294967296 reseal A 00\n\
    wire 01 reseal A 00\n\
    wire 1 reseal A 0\n\
    wire 1 reseal A 0A\n\
    wire 1 reseal A 00 0\n\
    wire 4294967296 down A 00\n\
    wire 01 down A 00\n\
    wire 1 down A 0\n\
    wire 1 down A 0A\n\
    drop 4294967296 A room\n\
    drop 01 A room\n\
    drop 1 A no-index 01\n\
    drop 1 A no-index 1 0\n\
    drop 1 A nonce-used 01\n\
    drop 1 A nonce-used 1 0\n\
    refuse 4294967296 media unwrap\n\
    refuse 01 media unwrap\n\
    refuse 1 media spi-unknown 65536\n\
    refuse 1 media spi-unknown 01\n\
    refuse 1 media unwrap 0\n\
    refuse 4294967296 A unwrap\n\
    refuse 01 A unwrap\n\
    refuse 1 A spi-unknown 01\n\
    refuse 1 A spi-unknown 1 0\n\
    refuse 1 A no-association\n\
    accept 4294967296 A B 1 0 0 0 0 -\n\
    accept 01 A B 1 0 0 0 0 -\n\
    accept 1 A B 4294967296 0 0 0 0 -\n\
    accept 1 A B 01 0 0 0 0 -\n\
    accept 1 A B 1 00 0 0 0 -\n\
    accept 1 A B 1 0 00 0 0 -\n\
    accept 1 A B 1 0 0 00 0 -\n\
    accept 1 A B 1 0 0 0 00 -\n\
    accept 1 A B 1 0 0 0 0 0A\n\
    rtcp 4294967296 A 00\n\
    rtcp 01 A 00\n\
    rtcp 1 A 0\n\
    rtcp 1 A 0A\n\
    rtcp 1 A 00 0\n\
    ekt 1\r\n";

// Whether the line is read, and written as it was.
fn is_kept(alloc: Global, line: &[u8]) -> bool {
    let Some(report) = ReportLine::read(line) else {
        return false;
    };
    let mut out = Vec::new(alloc);
    if report.write(alloc, &mut out).is_err() {
        return false;
    }
    match out.as_slice() {
        [front @ .., b'\n'] => front == line,
        _ => false,
    }
}

// The first of the lines for which this isn't so: each is read and written as it was, or none is read.
fn first_wrong(alloc: Global, lines: &[u8], kept: bool) -> Option<&[u8]> {
    for line in lines.split(|octet| *octet == b'\n') {
        if is_kept(alloc, line) != kept || ReportLine::read(line).is_some() != kept {
            return Some(line);
        }
    }
    None
}

#[test]
fn reads_lines(rt: HostRuntime) {
    assert_eq!(rt; first_wrong(rt.alloc(), REPORTS, true), None);
    assert_eq!(rt; first_wrong(rt.alloc(), GOOD, true), None);
    assert_eq!(rt; first_wrong(rt.alloc(), BAD, false), None);
}

fn name(word: &[u8]) -> Name {
    Name::read(word).unwrap_or(Name {
        octets: [0; 16],
        len: 0,
    })
}

#[test]
fn writes_lines(rt: HostRuntime) -> Result<(), Fail> {
    let alloc = rt.alloc();
    let mut out = Vec::from_slice(alloc, b"before\n")?;
    let made = ReportLine::WireMade {
        datagram: 7,
        octets: Octets::of(b"\x00\xa5\xff"),
    };
    let accepted = ReportLine::Accept {
        datagram: 2,
        name: name(b"Bob"),
        sender: name(b"Ann"),
        sent: 1,
        pt: 96,
        seq: 1000,
        marker: true,
        timestamp: 160,
        payload: Octets::of(b""),
    };
    assert!(rt; made.write(alloc, &mut out).is_ok());
    assert!(rt; accepted.write(alloc, &mut out).is_ok());
    let want = b"before\nwire 7 made 00a5ff\naccept 2 Bob Ann 1 96 1000 1 160 -\n";
    assert_eq!(rt; out.as_slice(), want.as_slice());
    Ok(())
}
