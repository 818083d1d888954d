ghost use Rattle.std.specs.Prelude.{◌≤◌, length, IfOk};

use super::{keys_of, octets, size};
use perc_kdf::Kind;
use perc_rtp::RtcpHead;
use perc_srtp::{Keys, RtcpFault, RtcpRx, RtcpTx, RtcpTxFault};

// Master key, master salt, index, packet and sealed packet.
const VECTORS: [(&str, &str, u32, &str, &str); 10] = [
    (
        "9e7c0bcc182c64b8d49689bbfccdeb08",
        "1bd6efe22271a98b973588f2",
        0,
        "80c8d4649b09bb38",
        "80c8d4649b09bb38aa6e19183c10ee443f2f29f29e035bc580000000",
    ),
    (
        "535e17af4715f55dc07ac565a75fa94bb9a093ac26b9f8a9eb421021f9192d10",
        "29ce055712ce1ebeeda3e224",
        1,
        "81c9bde5aebad5c999",
        "81c9bde5aebad5c969ff1004221c5678d8274f3d11df63e26380000001",
    ),
    (
        "5cb38449d6bea8684cc802337dcafb12",
        "32bd3a41b39e9b3ddeb1aceb",
        2147483647,
        "82ca7fcde2f90a7e86b68f2064e35b64",
        "82ca7fcde2f90a7ed51cda3aaafda8e6916f27485382b1206d35eab7a71590abffffffff",
    ),
    (
        "0edf6534f7c0b208777bffa0c2015cac1d1f00cf304f3177d4e49a1f51ed34a2",
        "1c594648ba27a42ad819432b",
        1410374414,
        "83cb58108cedd77af8e13418428aa5ff11a99545012b984621a9c2c5",
        "83cb58108cedd77a99dfde1c260f8147b012e41536292724ae8106a0d4ee5ff1f7e67ed9954396aae27ebbb0d4109b0e",
    ),
    (
        "d74cb22e9f7ae6fb131f3392bc8b35c2",
        "ad86ff7cd233605a48f9d844",
        0,
        "80cca2361321461d586f1452207d65b94c2771911605f5760cf0879e4ce0121ada26d5cd99cc3e4422c57a9c78db45e6954612e7e7ff74eb92ad3cc3261f140448b2ad60b6f4d56173e62487966fb6a51d0498dea2a6e247e59ff3ac7032e251b76b29849deebf11394b2b66",
        "80cca2361321461dea531fc56c73ff360581f4aab05b2593d7afd41fb4e8fd87cbd7344e87a5b8693f2cc2b0ec4032d68c688c443661cf5d58e4a752192f8a6fbc8531b4a6318963708b04b6a132326c3a0f52cc362993eb0e5541da735dc3856824aa4b5e23700f2f5cc5ceac7cb9c91de6a4eeceae1674e182861f80000000",
    ),
    (
        "e07edbe3da0ea2791426eae678a7f78f06bbc27b594fcaeb417cd7438f345ca7",
        "8dfb70ba378bb603b27024ba",
        1,
        "81c86aa6d82ad0f9",
        "81c86aa6d82ad0f94cc1fad8cf61e6f51d100dc745cf4ff880000001",
    ),
    (
        "7fce5dbaf0f42118f846368afc2854b1",
        "61fe00caa37751cc75db08b1",
        2147483647,
        "82c95dff9a7926250e",
        "82c95dff9a7926259d22c251508cd4d59dc11028651fea19e5ffffffff",
    ),
    (
        "98bca3c5a46a18ffdf238cb0d3362085d8f32815d27c6a2cdced4177201f74f7",
        "8bd687095b9c71f55381fac1",
        799989310,
        "83cacfea1da60be22a12e933ad614d15",
        "83cacfea1da60be2a31d6fa26630931a3533d49a5992df2cbdc34e56f1196df1afaede3e",
    ),
    (
        "312feeef9a2fe63baabbf5c7ae2e49c4",
        "1a1b096b55616de452911083",
        0,
        "80cbe2a8120409f40ee1c4d3068fce2c9ab88df0b54624a7307faeea",
        "80cbe2a8120409f438d2e5623bd78719b48918fc7cdb625bad14a3a0dc4aab515383de41ef44896fc807da3a80000000",
    ),
    (
        "d59e506040e4d83b0e7eaf1dfe1f2ba623cefcbc3e026b8c8d49985eea0c3ff0",
        "82b2b7e37ce08c62a8c618d1",
        1,
        "81ccf32fe481cf68d0e86477e96fc1c771e262673741bf2203e383f28cfd6f650a703642c0479ac54f30f29ef55bc06e0a11b19b7d1dbf1142e5cdd37b202568a70c11a4a2722d28354b236bea69d58652837fbe3f7a8e784c4df9cedddcb3305e04a6168fd4c667720e6127",
        "81ccf32fe481cf6843eaaf930a3c20cbb7f94c45d23a6478e697c65e1f6771379e23995c103ea578d6b11001e041be26b788443f6d91865f730ceac669ecf2a63e688b2282e4b04f80719ad5d029e925be1e1bdf4e48f6f2c06591248d5e7bb277bf4e68af589b99c5084f0c4bdd91e95ac12caa11a76e916dfb5edd80000001",
    ),
];

// The end of the indices.
const END: u32 = 1 << 31;

// How many octets the longest sealed packet has.
const LONGEST: usize = 128;

const KEY: &str = "9e7c0bcc182c64b8d49689bbfccdeb08";

const SALT: &str = "1bd6efe22271a98b973588f2";

// Seals a packet whose head reads.
fn seal_at(
    keys: &Keys,
    tx: &mut RtcpTx,
    packet: &mut [u8],
    len: usize,
) -> Result<usize, RtcpTxFault>
    requires { length packet.old ≤ 65536 }
    ensures { IfOk result (λ n. n ≤ length packet.old) }
{
    if len > packet.len() || RtcpHead::read(&packet[..len]).is_err() {
        return Err(RtcpTxFault::Room);
    }
    tx.seal(keys, packet, len)
}

// Whether a packet is sealed as the row says, opens once, and to itself.
fn seals_and_opens(row: &(&str, &str, u32, &str, &str)) -> bool {
    let (key, salt, index, plain, sealed) = *row;
    let Some(keys) = keys_of(key, salt, Kind::Srtcp) else {
        return false;
    };
    let (len, end) = (size::<LONGEST>(plain), size::<LONGEST>(sealed));
    let mut packet = octets::<LONGEST>(plain);
    let mut tx = RtcpTx::new(index.min(END));
    let made = seal_at(&keys, &mut tx, &mut packet, len);
    let is_sealed = made == Ok(end) && packet == octets::<LONGEST>(sealed);
    let mut rx = RtcpRx::new();
    let opened = rx.unseal(&keys, &mut packet[..end]);
    let is_opened = opened == Ok(len) && packet[..len] == octets::<LONGEST>(plain)[..len];
    let mut again = octets::<LONGEST>(sealed);
    let repeated = rx.unseal(&keys, &mut again[..end]);
    is_sealed && is_opened && repeated == Err(RtcpFault::Repeated)
}

#[test]
fn vectors(rt: HostRuntime) {
    for row in &VECTORS {
        assert!(rt; seals_and_opens(row), "{}", row.4);
    }
}

// A packet without anything behind its head.
const PLAIN: [u8; 8] = *b"\x80\xc9\x00\x01\x11\x11\x11\x11";

// The packet with room for its end.
fn plain() -> [u8; 28] {
    let mut packet = [0; 28];
    packet[..8].copy_from_slice(&PLAIN);
    packet
}

// Seals the packet in so much room.
fn seal_in(keys: &Keys, tx: &mut RtcpTx, room: usize) -> (Result<usize, RtcpTxFault>, [u8; 28]) {
    let mut packet = plain();
    let answer = seal_at(keys, tx, &mut packet[..room.min(28)], 8);
    (answer, packet)
}

// The packet sealed at an index.
fn sealed_at(keys: &Keys, index: u32) -> Option<[u8; 28]> {
    let mut tx = RtcpTx::new(index.min(END));
    let (answer, packet) = seal_in(keys, &mut tx, 28);
    answer.ok()?;
    Some(packet)
}

// Opens the packet that was sealed at an index.
fn open_at(keys: &Keys, rx: &mut RtcpRx, index: u32) -> Option<Result<usize, RtcpFault>> {
    let mut packet = sealed_at(keys, index)?;
    Some(rx.unseal(keys, &mut packet))
}

// A place in the packet that was sealed at 0, what is changed there, how many octets are opened, and why they aren't.
const REFUSALS: [(usize, u8, usize, RtcpFault); 9] = [
    (0, 0, 27, RtcpFault::Short),
    (0, 0, 0, RtcpFault::Short),
    (0, 0xc0, 28, RtcpFault::Version),
    (24, 0x80, 28, RtcpFault::Clear),
    (1, 1, 28, RtcpFault::Tag),
    (7, 0x10, 28, RtcpFault::Tag),
    (8, 0x80, 28, RtcpFault::Tag),
    (23, 1, 28, RtcpFault::Tag),
    (27, 1, 28, RtcpFault::Tag),
];

// Whether the row's packet is refused, and stays, as the stream does.
fn refuses(keys: &Keys, row: &(usize, u8, usize, RtcpFault)) -> bool {
    let (place, change, len, fault) = *row;
    let Some(mut packet) = sealed_at(keys, 0) else {
        return false;
    };
    packet[place % 28] ^= change;
    let altered = packet;
    let mut rx = RtcpRx::new();
    let refused = rx.unseal(keys, &mut packet[..len.min(28)]) == Err(fault);
    refused && packet == altered && open_at(keys, &mut rx, 0) == Some(Ok(8))
}

#[test]
fn refusals(rt: HostRuntime) {
    let keys = keys_of(KEY, SALT, Kind::Srtcp).expect(&rt, "the key has 16 octets");
    let packet = sealed_at(&keys, 0).expect(&rt, "there is room");
    assert_eq!(rt; &packet[24..], b"\x80\x00\x00\x00".as_slice());
    for row in &REFUSALS {
        assert!(rt; refuses(&keys, row), "{row:?}");
    }
    let mut rx = RtcpRx::new();
    for (index, want) in [
        (200, Ok(8)),
        (73, Ok(8)),
        (72, Err(RtcpFault::TooOld)),
        (200, Err(RtcpFault::Repeated)),
        (END - 1, Ok(8)),
    ] {
        assert_eq!(rt; open_at(&keys, &mut rx, index), Some(want), "{index}");
    }
}

// Whether a packet that isn't sealed stays, and the answer is this.
fn answers(keys: &Keys, tx: &mut RtcpTx, room: usize, want: Result<usize, RtcpTxFault>) -> bool {
    let (answer, packet) = seal_in(keys, tx, room);
    answer == want && (answer.is_ok() || packet == plain())
}

#[test]
fn last_index(rt: HostRuntime) {
    let keys = keys_of(KEY, SALT, Kind::Srtcp).expect(&rt, "the key has 16 octets");
    let mut tx = RtcpTx::new(END - 1);
    for (room, want) in [
        (27, Err(RtcpTxFault::Room)),
        (28, Ok(28)),
        (28, Err(RtcpTxFault::Spent)),
        (27, Err(RtcpTxFault::Room)),
    ] {
        assert!(rt; answers(&keys, &mut tx, room, want), "{want:?}");
    }
    let mut spent = RtcpTx::new(END);
    assert!(rt; answers(&keys, &mut spent, 28, Err(RtcpTxFault::Spent)));
}
