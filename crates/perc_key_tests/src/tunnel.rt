// Streams that were spelled out by hand.
ghost use Rattle.std.specs.Prelude.{◌<◌};

use perc_base::Profile;
use perc_kdf::Master;
use perc_tunnel::{Decoder, MediaKeys, Message, ProfileList, TunnelFault, TunnelReason, write};
use std::alloc::Global;
use std::process::Abort;
use std::test::Fail;

// Streams that go wrong with their last octet and not before, where, and why.
const FAULTS: [(&[u8], u64, TunnelReason); 12] = [
    (b"\x06", 0, TunnelReason::Kind),
    (b"\x00", 0, TunnelReason::Kind),
    (b"\x01\x00\x04", 0, TunnelReason::Length),
    (b"\x01\x00\x03", 0, TunnelReason::Length),
    (b"\x02\x01", 0, TunnelReason::Length),
    (b"\x03\x00\x50", 0, TunnelReason::Length),
    (b"\x04\x00\x12", 0, TunnelReason::Length),
    (b"\x01\x00\x05\x00\x00\x04", 0, TunnelReason::Body),
    (
        b"\x03\x00\x4faaaaaaaaaaaaaaaa\x00\x0a",
        0,
        TunnelReason::Body,
    ),
    (
        b"\x03\x00\x6faaaaaaaaaaaaaaaa\x00\x0a\x00\x20CCCCCCCCCCCCCCCCCCCCCCCCCCCCCCCC\x10",
        0,
        TunnelReason::Body,
    ),
    (
        b"\x02\x00\x01\x07\x01\x00\x05\x00\x00\x02\x00\x09\x06",
        12,
        TunnelReason::Kind,
    ),
    (
        b"\x02\x00\x01\x07\x04\x00\x13aaaaaaaaaaaaaaaa\x00\x00",
        4,
        TunnelReason::Body,
    ),
];

// Messages, and what they say.
const MESSAGES: [(&[u8], &str); 7] = [
    (
        b"\x01\x00\x07\x00\x00\x04\x00\x09\x00\x0a",
        "profiles 0 9 10\n",
    ),
    (b"\x01\x00\x05\x00\x00\x02\x00\x09", "profiles 0 9\n"),
    (b"\x02\x00\x01\x07", "version 7\n"),
    (
        b"\x03\x00\x4faaaaaaaaaaaaaaaa\x00\x09\x00\x10CCCCCCCCCCCCCCCC\x10SSSSSSSSSSSSSSSS\x0ccccccccccccc\x0cssssssssssss",
        "keys 97 9 67 16 99 83 16 115\n",
    ),
    (
        b"\x03\x00\x6faaaaaaaaaaaaaaaa\x00\x0a\x00\x20CCCCCCCCCCCCCCCCCCCCCCCCCCCCCCCC\x20SSSSSSSSSSSSSSSSSSSSSSSSSSSSSSSS\x0ccccccccccccc\x0cssssssssssss",
        "keys 97 10 67 32 99 83 32 115\n",
    ),
    (
        b"\x04\x00\x13aaaaaaaaaaaaaaaa\x00\x01\x16",
        "record 97 22 1\n",
    ),
    (b"\x05\x00\x10aaaaaaaaaaaaaaaa", "ended 97\n"),
];

fn first(octets: &[u8]) -> u8 {
    octets.first().copied().unwrap_or(0)
}

fn keys_text(alloc: Global, keys: &MediaKeys) -> Result<String, Fail> {
    let (client, server) = (&keys.client, &keys.server);
    Ok(format!(in alloc;
        "keys {} {} {} {} {} {} {} {}\n",
        first(&keys.association),
        keys.profile.number(),
        first(client.key()),
        client.key().len(),
        first(client.salt()),
        first(server.key()),
        server.key().len(),
        first(server.salt())
    )?)
}

fn profiles_text(alloc: Global, version: u8, profiles: &ProfileList<'_>) -> Result<String, Fail> {
    let mut text = format!(in alloc; "profiles {version}")?;
    for i in 0..profiles.len() {
        let one = format!(in alloc; " {}", profiles.at(i))?;
        text.push_str(&one)?;
    }
    text.push_str("\n")?;
    Ok(text)
}

// What a message says: of octets the first one, and of a key and a record the length.
fn text_of(alloc: Global, message: &Message<'_>) -> Result<String, Fail> {
    match message {
        Message::SupportedProfiles { version, profiles } => {
            profiles_text(alloc, *version, profiles)
        }
        Message::UnsupportedVersion { highest } => {
            Ok(format!(in alloc; "version {}\n", *highest)?)
        }
        Message::MediaKeys(keys) => keys_text(alloc, keys),
        Message::TunneledDtls {
            association,
            octets,
        } => {
            Ok(format!(in alloc;
                "record {} {} {}\n",
                first(association),
                first(octets),
                octets.len()
            )?)
        }
        Message::EndpointDisconnect { association } => {
            Ok(format!(in alloc; "ended {}\n", first(association))?)
        }
    }
}

// Appends what a message is written as, which takes just so much room, and no less.
fn append_written(
    rt: &impl Abort,
    message: &Message<'_>,
    written: &mut Vec<u8>,
) -> Result<(), Fail> {
    let mut out = [0xee; 200];
    let len = write(message, &mut out).expect(rt, "a message that fits");
    written.extend_from_slice(&out[..len])?;
    let short = len.saturating_sub(1);
    assert_eq!(rt; write(message, &mut out[..short]), None);
    Ok(())
}

// Adds what the messages say that the decoder gives now, and what they are written as.
fn read_all(
    rt: &impl Abort,
    alloc: Global,
    decoder: &mut Decoder,
    text: &mut String,
    written: &mut Vec<u8>,
) -> Result<Option<TunnelFault>, Fail> {
    for _ in 0..20 {
        match decoder.next() {
            Ok(Some(message)) => {
                append_written(rt, &message, written)?;
                text.push_str(&text_of(alloc, &message)?)?;
            }
            Ok(None) => return Ok(None),
            Err(fault) => return Ok(Some(fault)),
        }
    }
    Ok(None)
}

// Whether the decoder takes the piece, and finds no fault in it.
fn is_taken(
    rt: &impl Abort,
    alloc: Global,
    decoder: &mut Decoder,
    piece: &[u8],
    text: &mut String,
    written: &mut Vec<u8>,
) -> Result<bool, Fail> {
    let taken = decoder.feed(piece);
    let fault = read_all(rt, alloc, decoder, text, written)?;
    Ok(taken == piece.len() && fault.is_none())
}

// What the messages say of a stream in two pieces, each of which is written as it was read.
fn in_two(rt: &impl Abort, alloc: Global, stream: &[u8], cut: usize) -> Result<String, Fail> {
    let mut decoder = Decoder::new(alloc)?;
    let mut text = String::new(alloc);
    let mut written = Vec::new(alloc);
    let (front, back) = stream.split_at(cut.min(stream.len()));
    for piece in [front, back] {
        assert!(rt; is_taken(rt, alloc, &mut decoder, piece, &mut text, &mut written)?);
    }
    assert!(rt; written.as_slice() == stream);
    assert!(rt; decoder.given() == stream.len() as u64 && decoder.held() == 0);
    Ok(text)
}

// The fault of a decoder that takes this octet, where it has one.
fn fault_at(
    rt: &impl Abort,
    alloc: Global,
    decoder: &mut Decoder,
    octet: u8,
) -> Result<Option<TunnelFault>, Fail> {
    assert!(rt; decoder.feed(&[octet]) == 1);
    let mut text = String::new(alloc);
    let mut written = Vec::new(alloc);
    read_all(rt, alloc, decoder, &mut text, &mut written)
}

// Whether the decoder takes nothing more, and still tells this fault.
fn is_stopped(decoder: &mut Decoder, fault: TunnelFault) -> bool {
    decoder.feed(&[1]) == 0 && decoder.next().is_err_and(|told| told == fault)
}

// Of a stream that comes octet after octet: after how many it goes wrong, and how.
fn one_by_one(
    rt: &impl Abort,
    alloc: Global,
    stream: &[u8],
) -> Result<Option<(usize, TunnelFault)>, Fail> {
    let mut decoder = Decoder::new(alloc)?;
    for (i, octet) in stream.iter().enumerate() {
        if let Some(fault) = fault_at(rt, alloc, &mut decoder, *octet)? {
            assert!(rt; is_stopped(&mut decoder, fault));
            return Ok(Some((i, fault)));
        }
    }
    Ok(None)
}

#[test]
fn goes_wrong_at_once(rt: HostRuntime) -> Result<(), Fail> {
    for (stream, offset, reason) in &FAULTS {
        let fault = TunnelFault {
            offset: *offset,
            reason: *reason,
        };
        assert!(rt; one_by_one(&rt, rt.alloc(), stream)? == Some((stream.len() - 1, fault)));
    }
    Ok(())
}

#[test]
fn reads_and_writes(rt: HostRuntime) -> Result<(), Fail> {
    for (stream, text) in &MESSAGES {
        assert!(rt; one_by_one(&rt, rt.alloc(), stream)?.is_none());
        for cut in 0..stream.len() {
            assert!(rt; in_two(&rt, rt.alloc(), stream, cut)?.as_str() == *text);
        }
    }
    Ok(())
}

#[test]
fn reads_a_stream_in_two(rt: HostRuntime) -> Result<(), Fail> {
    let mut stream = Vec::new(rt.alloc());
    let mut texts = String::new(rt.alloc());
    for (octets, text) in &MESSAGES {
        stream.extend_from_slice(octets)?;
        texts.push_str(text)?;
    }
    for cut in 0..stream.len() {
        assert!(rt; in_two(&rt, rt.alloc(), &stream, cut)?.as_str() == texts.as_str());
    }
    Ok(())
}

// Whether the message is refused though there is room, and the room is as it was.
fn is_refused(message: &Message<'_>) -> bool {
    let mut out = [0xee; 65600];
    write(message, &mut out).is_none() && out.iter().all(|x| *x == 0xee)
}

fn keys_of(rt: &impl Abort, profile: Profile, client: usize, server: usize) -> MediaKeys {
    let key = [1; 32];
    MediaKeys {
        association: [0; 16],
        profile,
        client: Master::new(&key[..client.min(32)], &[2; 12]).expect(rt, "a length of a key"),
        server: Master::new(&key[..server.min(32)], &[3; 12]).expect(rt, "a length of a key"),
    }
}

#[test]
fn refuses_records(rt: HostRuntime) {
    let zeros = [0; 65536];
    for (len, refused) in &[(0, true), (1, false), (65517, false), (65518, true)] {
        let message = Message::TunneledDtls {
            association: [0; 16],
            octets: &zeros[..*len],
        };
        assert!(rt; is_refused(&message) == *refused, "a record of {len}");
    }
}

#[test]
fn refuses_lists(rt: HostRuntime) {
    let zeros = [0; 65536];
    for (len, refused) in &[(0, true), (2, false), (65532, false), (65534, true)] {
        let message = Message::SupportedProfiles {
            version: 0,
            profiles: ProfileList::new(&zeros[..*len]).expect(&rt, "an even count"),
        };
        assert!(rt; is_refused(&message) == *refused, "a list of {len}");
    }
    assert!(rt; ProfileList::new(&zeros[..3]).is_none());
}

#[test]
fn refuses_keys(rt: HostRuntime) {
    for (profile, client, server, refused) in &[
        (Profile::Aes128, 16, 16, false),
        (Profile::Aes128, 32, 16, true),
        (Profile::Aes256, 32, 16, true),
        (Profile::Aes256, 32, 32, false),
    ] {
        let keys = keys_of(&rt, *profile, *client, *server);
        let is_so = is_refused(&Message::MediaKeys(&keys)) == *refused;
        assert!(rt; is_so, "keys of {client} and {server}");
    }
}

// The next of a row of numbers that look drawn at random.
fn drawn(state: &mut u64, below: u64) -> usize
    requires { 0 < below }
    ensures { result < below }
{
    *state = state
        .wrapping_mul(6_364_136_223_846_793_005)
        .wrapping_add(1_442_695_040_888_963_407);
    ((*state >> 33) % below) as usize
}

// Appends a record of 1 to 1400 octets.
fn append_record(rt: &impl Abort, state: &mut u64, stream: &mut Vec<u8>) -> Result<(), Fail> {
    let record = [0x5a; 1400];
    let mut out = [0; 1500];
    let message = Message::TunneledDtls {
        association: [7; 16],
        octets: &record[..=drawn(state, 1400)],
    };
    let len = write(&message, &mut out).expect(rt, "a message that fits");
    stream.extend_from_slice(&out[..len])?;
    Ok(())
}

// How many messages the decoder gives now.
fn count_ready(rt: &impl Abort, decoder: &mut Decoder) -> usize {
    for count in 0..100 {
        match decoder.next() {
            Ok(Some(_)) => {}
            Ok(None) => return count,
            Err(_) => break,
        }
    }
    panic!(rt; "a fault, or too many messages in a piece")
}

// How many messages the decoder gives of a stream in pieces of 1 to 1500 octets.
fn count_in_pieces(
    rt: &impl Abort,
    state: &mut u64,
    decoder: &mut Decoder,
    stream: &[u8],
) -> usize {
    let mut count: usize = 0;
    let mut rest = stream;
    for _ in 0..=stream.len() {
        if rest.is_empty() {
            break;
        }
        let (piece, others) = rest.split_at((1 + drawn(state, 1500)).min(rest.len()));
        rest = others;
        assert_eq!(rt; decoder.feed(piece), piece.len());
        count = count.wrapping_add(count_ready(rt, decoder));
    }
    count
}

#[test]
fn megabyte_in_pieces(rt: HostRuntime) -> Result<(), Fail> {
    let mut state = 9185;
    let mut stream = Vec::new(rt.alloc());
    let mut made: usize = 0;
    for i in 0..1_000_000 {
        if stream.len() >= 1_000_000 {
            made = i;
            break;
        }
        append_record(&rt, &mut state, &mut stream)?;
    }
    let mut decoder = Decoder::new(rt.alloc())?;
    let given = count_in_pieces(&rt, &mut state, &mut decoder, &stream);
    println!(rt; "{given} messages")?;
    assert_eq!(rt; given, made);
    Ok(())
}
