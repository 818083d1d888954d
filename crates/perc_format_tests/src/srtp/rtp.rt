// Packets and IVs that were made outside, and what the ends of a stream refuse.
use super::{keys_of, octets, size};
use byteorder::{BigEndian, ByteOrder};
use perc_gcm::TagMismatch;
use perc_kdf::Kind;
use perc_rtp::RtpHead;
use perc_srtp::{Keys, RxFault, RxStream, TxFault, TxStream, iv, rtcp_iv, seal_at, unseal_at};

// How many octets the longest packet here has.
const LONGEST: usize = 100;

// Master key, master salt, index, packet and sealed packet.
const PACKETS: [(&str, &str, u64, &str, &str); 8] = [
    (
        "a8b05723b27714ea127f2e66cebc89b0",
        "ee58e64eddce68bb6dc232c0",
        233783082177522,
        "906053f2cd5b0131faa0b4e8a36f0000",
        "906053f2cd5b0131faa0b4e8a36f0000da7dbec22230c471c70a76987dac6a52",
    ),
    (
        "2fccbf53916ef37fc0a3678febf3eb1a19f091d9195e26ee5dd076f80004eaeb",
        "d530a29581660a7b7ebba5e7",
        5405,
        "81e0151db957a39dfb314a13ee4967db8b",
        "81e0151db957a39dfb314a13ee4967db95801c6e880eb58af89c1616263c890d4c",
    ),
    (
        "3c05a50ef2eb3ab1e9cac90cefda52e3",
        "f1215ce594eab636cb0c0229",
        65538,
        "a36000023e9e3aaf24f405570b2baf338be020e504287277b8c3cfb86b262277c060437e46c07801",
        "a36000023e9e3aaf24f405570b2baf338be020e504287277583030e02d8600de399181e318de645d6f3de42220f17c6956d83751bd3f5684",
    ),
    (
        "4f9cbec64c7b5372f35bc5d77d4404f6",
        "c152b76e5f9037de8fe1d2d5",
        43476,
        "807fa9d4b482b5c8e80e1370e709e1b4eb3203f5d88bf5ef6d20932a9e",
        "807fa9d4b482b5c8e80e13700d787367ea6b9d33dd60ca8a264b747d2e55aa499a6e7fdc024bb79bc3d330d32a",
    ),
    (
        "2d45db7178821f2dabb4a2a06007df2093a149895992597fe26d3e22ea0e3961",
        "9f4bc5142ec9914ea295374f",
        65541,
        "81ff0005cb012d2bfc087558eff59a0b63f9c1ef26193087b0365fc2e35bbeae1efccc0bc9120e5ee53ae525175d50ba57b391366925c3e2",
        "81ff0005cb012d2bfc087558eff59a0bc59ec1c814fb4c0edaeceaee2b657b71859b72f83dc7574a318049a6a2234bd0c630c847609a16e165505f5bd989d07135cf121b7a8fdf0e",
    ),
    (
        "234df2b5676916f2d4d7a2d9db62136b4a1fc84e64d70444a3140912c3a40bd3",
        "2e5907bfa6b4b9579031fe5d",
        29148,
        "afbf71dc1748186ee4d09169bfa341c0ea4b607b3f06347f3084cabf9d6ded91052f57f4d1915847a7883b04baf7bc774ad0e90cc06929b6a4acd487a6f4810237c4e952d2cf4a6b00000000000007",
        "afbf71dc1748186ee4d09169bfa341c0ea4b607b3f06347f3084cabf9d6ded91052f57f4d1915847a7883b04baf7bc774ad0e90cc06929b6a4acd487a6f4810237c4e952d2cf4a6b32155570248c3459c7fb9f6012a2e3563b26ccdb11c892",
    ),
    (
        "094af448e25cc7f762dab13200c19e8e",
        "208bd616cd322797376ab634",
        65544,
        "807f000803a1589e9fbafb9300",
        "807f000803a1589e9fbafb936c9ed0367c0e8f9152ae3bef0c71d5586b",
    ),
    (
        "3885e521bb700b4964d46ddaf8a2408f",
        "988ed51b688cdeedb117600c",
        14600,
        "a30039082156d0c9bd3d330ad7e2d1333b109122f29687790e05a05c77cb7eaeef8d75e83642917801",
        "a30039082156d0c9bd3d330ad7e2d1333b109122f29687796ab14e05500f1656981eb140ee697b1cbd734b6a9139027cb2630f7229791f0575",
    ),
];

// Salt, SSRC, index and IV.
const IVS: [(&str, u32, u64, &str); 6] = [
    (
        "517569642070726f2071756f",
        0x5501_a0b2,
        61819,
        "51753c6580c2726f20718414",
    ),
    (
        "b654ebfc58952baf381e1f73",
        0x6b6e_e555,
        2195399999894,
        "b6548092bdc02a5010179ee5",
    ),
    (
        "64fd197c2375b06988270d5b",
        0xcde9_6267,
        22077243730262,
        "64fdd4954112a47dca62240d",
    ),
    (
        "65deb9142c8a009326453d91",
        0x9d8e_d08e,
        20813690938491,
        "65de249afc04127d36e299ea",
    ),
    (
        "f86103ef12c6bab5d072f12f",
        0x2d8e_3602,
        85800351817384,
        "f8612e6124c4f4bd230f2f87",
    ),
    (
        "90718b8d5d80e3bdf9ecfc7f",
        0x7577_3baa,
        112603490123291,
        "9071fefa662a85d472eb8264",
    ),
];

const RTCP_IVS: [(&str, u32, u32, &str); 6] = [
    (
        "000000000000000000000000",
        0x1111_1111,
        1,
        "000011111111000000000001",
    ),
    (
        "b654ebfc58952baf381e1f73",
        0x6b6e_e555,
        671711638,
        "b6548092bdc02baf10179ee5",
    ),
    (
        "64fd197c2375b06988270d5b",
        0xcde9_6267,
        1111828822,
        "64fdd4954112b069ca62240d",
    ),
    (
        "65deb9142c8a009326453d91",
        0x9d8e_d08e,
        279422075,
        "65de249afc04009336e299ea",
    ),
    (
        "f86103ef12c6bab5d072f12f",
        0x2d8e_3602,
        1937628840,
        "f8612e6124c4bab5a30f2f87",
    ),
    (
        "90718b8d5d80e3bdf9ecfc7f",
        0x7577_3baa,
        185040411,
        "9071fefa662ae3bdf2eb8264",
    ),
];

const KEY: &str = "000102030405060708090a0b0c0d0e0f";

const SALT: &str = "202122232425262728292a2b";

// Whether a packet is sealed as it was outside, with what stands behind it kept, and opens again.
fn is_sealed_so(row: &(&str, &str, u64, &str, &str)) -> bool {
    let (master, salt, index, plain, sealed) = *row;
    let Some(keys) = keys_of(master, salt, Kind::Srtp) else {
        return false;
    };
    let (len, end) = (size::<LONGEST>(plain), size::<LONGEST>(sealed));
    let mut packet = octets::<LONGEST>(plain);
    let same_len = seal_whole(&keys, index, &mut packet, len) == Some(end);
    let same = packet == octets::<LONGEST>(sealed);
    let opens = unseal_whole(&keys, index, &mut packet[..end]) == Some(Ok(len));
    same_len && same && opens && packet[..len] == octets::<LONGEST>(plain)[..len]
}

// Seals the packet in the first `len` octets, where it is one and there is room for the tag.
fn seal_whole(keys: &Keys, index: u64, packet: &mut [u8; LONGEST], len: usize) -> Option<usize> {
    if index >= 1 << 48 || len > LONGEST - 16 {
        return None;
    }
    RtpHead::read(&packet[..len]).ok()?;
    Some(seal_at(keys, index, packet, len))
}

// Opens the packet, where it is one with octets for a tag.
fn unseal_whole(keys: &Keys, index: u64, packet: &mut [u8]) -> Option<Result<usize, TagMismatch>> {
    let head = RtpHead::read(packet).ok()?;
    if index >= 1 << 48 || packet.len() > 1500 || packet.len() - head.len < 16 {
        return None;
    }
    Some(unseal_at(keys, index, packet))
}

#[test]
fn packets(rt: HostRuntime) {
    for row in &PACKETS {
        assert!(rt; is_sealed_so(row), "index {}", row.2);
    }
}

#[test]
fn ivs(rt: HostRuntime) {
    for (salt, ssrc, index, want) in &IVS {
        let index = index % (1 << 48);
        assert_eq!(rt; iv(&octets::<12>(salt), *ssrc, index), octets::<12>(want));
    }
    for (salt, ssrc, index, want) in &RTCP_IVS {
        let index = index % (1 << 31);
        assert_eq!(rt;
            rtcp_iv(&octets::<12>(salt), *ssrc, index),
            octets::<12>(want)
        );
    }
}

// A packet of 17 octets with this sequence number, and room for a tag.
fn packet_of(seq: u16) -> [u8; 33] {
    let mut packet =
        *b"\x80\x60\x00\x00\x00\x00\x00\x01\x11\x11\x11\x11hello\xee\xee\xee\xee\xee\xee\xee\xee\xee\xee\xee\xee\xee\xee\xee\xee";
    BigEndian::write_u16(&mut packet[2..], seq);
    packet
}

// The packet with this index, sealed at it.
fn sealed_of(keys: &Keys, index: u64) -> [u8; 33] {
    let mut packet = packet_of((index % 65536) as u16);
    if index < 1 << 48 && RtpHead::read(&packet[..17]).is_ok() {
        seal_at(keys, index, &mut packet, 17);
    }
    packet
}

// What a sender answers, where the packet is one of its stream.
fn seal_next(
    stream: &mut TxStream,
    keys: &Keys,
    packet: &mut [u8],
    len: usize,
) -> Option<Result<usize, TxFault>> {
    if packet.len() > 1500 || packet.len() < len {
        return None;
    }
    let head = RtpHead::read(&packet[..len]).ok()?;
    if head.ssrc != stream.ssrc() {
        return None;
    }
    Some(stream.seal(keys, packet, len))
}

// What a sender answers to a packet with this sequence number, in so many octets; and whether it is then as it was, or
// sealed at that index.
fn send(
    stream: &mut TxStream,
    keys: &Keys,
    seq: u16,
    room: usize,
) -> Option<(Result<usize, TxFault>, bool)> {
    let before = packet_of(seq);
    let mut packet = before;
    let answer = seal_next(stream, keys, &mut packet[..room.min(33)], 17)?;
    let want = if answer.is_ok() {
        sealed_of(keys, u64::from(seq))
    } else {
        before
    };
    Some((answer, packet == want))
}

// What a receiver answers, where the packet is one of its stream.
fn unseal_next(
    stream: &mut RxStream,
    keys: &Keys,
    packet: &mut [u8],
) -> Option<Result<usize, RxFault>> {
    let head = RtpHead::read(packet).ok()?;
    if head.ssrc != stream.ssrc() || packet.len() > 1500 {
        return None;
    }
    Some(stream.unseal(keys, packet))
}

// What a receiver answers to the first octets of a packet, and whether they are then as they were, or begin with the
// packet of that sequence number.
fn receive(
    stream: &mut RxStream,
    keys: &Keys,
    sealed: &[u8; 33],
    len: usize,
) -> Option<(Result<usize, RxFault>, bool)> {
    let mut packet = *sealed;
    let answer = unseal_next(stream, keys, &mut packet[..len.min(33)])?;
    let seq = BigEndian::read_u16(&packet[2..]);
    let same = if answer.is_ok() {
        packet[..17] == packet_of(seq)[..17]
    } else {
        packet == *sealed
    };
    Some((answer, same))
}

#[test]
fn sends(rt: HostRuntime) {
    let keys = keys_of(KEY, SALT, Kind::Srtp).expect(&rt, "the key has 16 octets");
    let mut stream = TxStream::new(0x1111_1111);
    for (seq, room, want) in [
        (0, 32, Err(TxFault::Room)),
        (0, 17, Err(TxFault::Room)),
        (0, 33, Ok(33)),
        (200, 33, Ok(33)),
        (72, 33, Err(TxFault::NonceUsed(72))),
        (73, 33, Ok(33)),
        (200, 33, Err(TxFault::NonceUsed(200))),
        (73, 33, Err(TxFault::NonceUsed(73))),
        (73, 32, Err(TxFault::Room)),
        (32969, 33, Err(TxFault::NoIndex(32969))),
        (32968, 33, Ok(33)),
    ] {
        assert_eq!(rt;
            send(&mut stream, &keys, seq, room),
            Some((want, true)),
            "{seq} in {room} octets"
        );
    }
}

#[test]
fn receives(rt: HostRuntime) {
    let keys = keys_of(KEY, SALT, Kind::Srtp).expect(&rt, "the key has 16 octets");
    let mut stream = RxStream::new(0x1111_1111);
    for (index, len, want) in [
        (200, 27, Err(RxFault::Short)),
        (200, 28, Err(RxFault::Tag)),
        (200, 33, Ok(17)),
        (200, 33, Err(RxFault::Repeated)),
        (72, 33, Err(RxFault::TooOld)),
        (73, 33, Ok(17)),
        (73, 33, Err(RxFault::Repeated)),
        (32969, 33, Err(RxFault::TooOld)),
        (32968, 33, Ok(17)),
        (65700, 33, Ok(17)),
        (164, 33, Err(RxFault::Repeated)),
        (65536, 33, Err(RxFault::TooOld)),
        (327681, 33, Err(RxFault::TooOld)),
        (327845, 33, Err(RxFault::Tag)),
    ] {
        let packet = sealed_of(&keys, index);
        assert_eq!(rt;
            receive(&mut stream, &keys, &packet, len),
            Some((want, true)),
            "index {index} in {len} octets"
        );
    }
}

#[test]
fn refuses_changed_packets(rt: HostRuntime) {
    let keys = keys_of(KEY, SALT, Kind::Srtp).expect(&rt, "the key has 16 octets");
    let mut stream = RxStream::new(0x1111_1111);
    let sealed = sealed_of(&keys, 5);
    for octet in [1, 2, 3, 4, 7, 12, 16, 17, 32] {
        let mut packet = sealed;
        packet[octet] ^= 1;
        assert_eq!(rt;
            receive(&mut stream, &keys, &packet, 33),
            Some((Err(RxFault::Tag), true)),
            "octet {octet}"
        );
    }
    assert_eq!(rt;
        receive(&mut stream, &keys, &sealed, 33),
        Some((Ok(17), true))
    );
}
