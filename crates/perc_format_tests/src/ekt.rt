// Fields, wrapped keys and records, against octets spelled out by hand and outside vectors.
ghost use Rattle.std.specs.Prelude.{◌≤◌};

use perc_aes::AesKey;
use perc_base::Profile;
use perc_ekt::{
    EktField, EktKeyRecord, FieldFault, KeyFault, Wrapped, read_end, unwrap_key, wrap_key,
    write_full, write_short,
};
use std::alloc::Global;
use std::process::Abort;

// EKT key, inner key, SSRC, roll-over counter, SPI, epoch and the whole field.
const FIELDS: [(&str, &str, u32, u32, u16, u16, &str); 6] = [
    (
        "6a6190c50b050b5d2955b75635c50a61",
        "69274d06039b64908caf38f6113a6c65",
        0x56b9_0591,
        3_217_994_453,
        32203,
        18,
        "2979a457197df48b4bf66d52f1150c9384ecfffb23e51b399849677ce9b26334634ce7f6e5dca6c87dcb0012002f02",
    ),
    (
        "38d33251795a9e7536b01c4cbe7381236ecd53e0bcf586f1e25eeb627a9c57b4",
        "8af05932d6de4cc2a6eb0d508a17bff52c48c609ca842847373027e8afc9e18d",
        0x41ee_762d,
        0,
        35755,
        6,
        "07a4963362f0e86403c254569b624cca606b0ef8e90208fb19bed6ddc68d5798be8020a6b91dbd08ac868a9b1c1721acb6f5639692dc551f8bab0006003f02",
    ),
    (
        "e3568f7beae6d83167e88a6ed6fd9746",
        "e7dcd315110772dc6aadef50060e37da",
        0x36f5_4392,
        0,
        26699,
        18,
        "6246265f5847ee602e54299d587ad3b401b57bef7a26ee161be08119d18fddbfe621707b694cebde684b0012002f02",
    ),
    (
        "8a3bb93337f2b95a339131062f91bd4901c6e58c62ae584fb79d5858042f041a",
        "191313d9bcdfeae04a2cebcd74c0c4bb7885fb744eb042c2fc2996609466ec7d",
        0x7d4f_b8f5,
        0,
        10027,
        25,
        "2faf437fca1b22173b56b5b47c44b338904e2d10187837d443f9f667f9da93c3f8464bea908dde5f0a310d7d6a0271fef39f1dd10ef463cb272b0019003f02",
    ),
    (
        "aaf95fa4cf3f98c439b0fe4306f501cf",
        "0b277f6ddf93a340f15ecd0b11a04a4b",
        0xd12d_5310,
        1,
        5709,
        10,
        "118642cf6fec82143814f4db2c7faee5c8f7970031be8ccd0a8ca1b54659c46308e83adaa127beaf164d000a002f02",
    ),
    (
        "93bf479219698ba443eb02b4a810139163e5148ed3c434da884bb0c4e6561643",
        "66f6dd7935953436430a387e60486dcb63a742df0f3b3b2ef4ae11d0d5a2d8d8",
        0xaa3a_6563,
        3_794_517_907,
        64872,
        27,
        "c2ff63bee3f65ccbc6dbe1668c845def0a9b99cafa070c791dfc75d5e25e1e63fdb2e6f3e743a1d9d07f4df7f39f1dc44def66f71b8e2289fd68001b003f02",
    ),
];

// Ends of datagrams, and what is told: the field's length, its type and where its wrapped key starts.
const ENDS: [(&[u8], Result<(usize, u8, usize), FieldFault>); 15] = [
    (b"", Err(FieldFault::NoField)),
    (b"\x00", Ok((1, 0, 0))),
    (b"\x80\x07\x00", Ok((1, 0, 0))),
    (b"\x01", Err(FieldFault::Type01)),
    (b"\x00\x03\x01", Err(FieldFault::Type01)),
    (b"\x02", Err(FieldFault::Length)),
    (b"\x00\x02", Err(FieldFault::Length)),
    (b"\x03\x07", Err(FieldFault::Length)),
    (b"\x00\x03\x07", Ok((3, 7, 0))),
    (b"\x80\x90\x00\x03\x07", Ok((3, 7, 0))),
    (b"\x80\xaa\xbb\x00\x05\xff", Ok((5, 255, 0))),
    (b"\x80\x00\x02\x07", Err(FieldFault::Length)),
    (b"\x80\x00\x00\x03", Err(FieldFault::Length)),
    (b"\x80\x00\x05\x03", Err(FieldFault::Length)),
    (b"\x80\x01\x03\x03", Err(FieldFault::Length)),
];

// Lengths of a full field, and whether a wrapped key fits them.
const FULL_LENGTHS: [(u16, bool); 13] = [
    (0, false),
    (3, false),
    (7, false),
    (15, false),
    (22, false),
    (23, true),
    (30, false),
    (31, true),
    (46, false),
    (47, true),
    (4103, true),
    (4104, false),
    (4111, false),
];

// Records, their profile and the key in them.
const RECORDS: [(&[u8], Profile, &[u8]); 2] = [
    (
        b"\x00\x10sixteen octets..\x00\x0cmaster salt.\x01\x02\x0a\x0b\x0c",
        Profile::Aes128,
        b"sixteen octets..",
    ),
    (
        b"\x00\x20a key of thirty-two octets......\x00\x0cmaster salt.\x01\x02\x0a\x0b\x0c",
        Profile::Aes256,
        b"a key of thirty-two octets......",
    ),
];

// The octets that a text spells.
fn octets(rt: &impl Abort, alloc: Global, text: &str) -> Vec<u8> {
    hex::decode(alloc, text).expect(rt, "the text is hexadecimal")
}

// The key that a text spells, with zeros behind one of 16 octets.
fn key_of(rt: &impl Abort, text: &str) -> [u8; 32] {
    let mut key = [0; 32];
    let len = (text.len() / 2).min(32);
    hex::decode_to_slice(text, &mut key[..len]).expect(rt, "the text is hexadecimal");
    key
}

fn profile(len: usize) -> Profile {
    if len == 16 {
        Profile::Aes128
    } else {
        Profile::Aes256
    }
}

fn other(profile: Profile) -> Profile {
    match profile {
        Profile::Aes128 => Profile::Aes256,
        Profile::Aes256 => Profile::Aes128,
    }
}

// What is read of a field: its length, type and where the wrapped key starts.
fn told(datagram: &[u8]) -> Result<(usize, u8, usize), FieldFault> {
    match read_end(datagram) {
        Ok((EktField::Short, len)) => Ok((len, 0, 0)),
        Ok((EktField::Full { cipher, .. }, len)) => Ok((len, 2, cipher.start)),
        Ok((EktField::Extension { kind }, len)) => Ok((len, kind, 0)),
        Err(fault) => Err(fault),
    }
}

// A vector's key is wrapped, written, read and unwrapped as it should be.
fn is_as_in(rt: &impl Abort, alloc: Global, row: &(&str, &str, u32, u32, u16, u16, &str)) {
    let (ekt, key, ssrc, roc, spi, epoch, field) = *row;
    let ekt = AesKey::new(&octets(rt, alloc, ekt)).expect(rt, "the length is one of a key");
    let len = (key.len() / 2).min(32);
    let key = key_of(rt, key);
    let field = octets(rt, alloc, field);
    assert!(rt; len == 16 || len == 32, "{len} octets of a key");
    let end = len + 24;
    let mut cipher = [7; 56];
    assert_eq!(rt; wrap_key(&ekt, &key[..len], ssrc, roc, &mut cipher), end);
    assert!(rt; cipher[end..].iter().all(|x| *x == 7));
    let mut out = [7; 64];
    assert_eq!(rt;
        write_full(spi, epoch, &cipher[..end], &mut out[1..]),
        Some(end + 7)
    );
    assert_eq!(rt; field.len(), end + 7);
    assert!(rt; out[1..].starts_with(&field));
    let read = EktField::Full {
        spi,
        epoch,
        cipher: 1..end + 1,
    };
    assert_eq!(rt; read_end(&out[..end + 8]), Ok((read, end + 7)));
    let told = Wrapped {
        key,
        len,
        ssrc,
        roc,
    };
    assert!(rt; is_unwrapped_to(&ekt, &cipher, &told));
}

// Whether a wrapped key gives this, and neither with an octet altered nor under another profile.
fn is_unwrapped_to(ekt: &AesKey, cipher: &[u8; 56], told: &Wrapped) -> bool
    requires { (told.now.len ≤ 32) × (16 ≤ told.now.len) }
{
    let end = told.len + 24;
    let key_profile = profile(told.len);
    let mut altered = *cipher;
    altered[5] ^= 1;
    let mut again = *cipher;
    let mut right = *cipher;
    unwrap_key(ekt, key_profile, &mut altered[..end]) == Err(KeyFault::Unwrap)
        && unwrap_key(ekt, other(key_profile), &mut again[..end]) == Err(KeyFault::Plain)
        && unwrap_key(ekt, key_profile, &mut right[..end]) == Ok(*told)
}

#[test]
fn vectors(rt: HostRuntime) {
    for row in &FIELDS {
        is_as_in(&rt, rt.alloc(), row);
    }
}

#[test]
fn ends(rt: HostRuntime) {
    for (datagram, want) in &ENDS {
        assert_eq!(rt; told(datagram), *want, "{} octets", datagram.len());
    }
}

// What is told of a datagram of 4200 octets that ends in a full field of this length.
fn full_of(len: u16, datagram: &mut [u8]) -> Result<(usize, u8, usize), FieldFault> {
    if datagram.len() == 4200 {
        datagram[4197..4199].copy_from_slice(&len.to_be_bytes());
        datagram[4199] = 2;
    }
    told(datagram)
}

#[test]
fn full_lengths(rt: HostRuntime) {
    let mut datagram = vec![in rt.alloc(); 0; 4200].expect(&rt, "memory for a datagram");
    for (len, is_right) in &FULL_LENGTHS {
        let want = if *is_right {
            Ok((usize::from(*len), 2, 4200 - usize::from(*len)))
        } else {
            Err(FieldFault::Length)
        };
        assert_eq!(rt; full_of(*len, &mut datagram), want, "length {len}");
    }
}

// What is written of a field whose wrapped key has this length, where there is that much room.
fn written(len: usize, room: usize) -> (Option<usize>, bool) {
    let mut out = [7; 70];
    let result = write_full(1, 2, &[5; 70][..len.min(70)], &mut out[..room.min(70)]);
    (
        result,
        out[result.unwrap_or(0).min(70)..].iter().all(|x| *x == 7),
    )
}

#[test]
fn writes(rt: HostRuntime) {
    let mut out = [7; 70];
    assert_eq!(rt; write_full(1, 2, &[5; 40], &mut out), Some(47));
    assert!(rt; out.starts_with(&[5; 40]));
    assert!(rt; out[40..].starts_with(b"\x00\x01\x00\x02\x00\x2f\x02\x07"));
    assert_eq!(rt; write_full(1, 2, &[5; 56], &mut out), Some(63));
    assert!(rt; out[61..].starts_with(b"\x3f\x02\x07"));
    assert_eq!(rt; write_short(&mut out[..0]), None);
    assert_eq!(rt; write_short(&mut out), Some(1));
    assert!(rt; out.starts_with(&[0, 5]));
}

#[test]
fn writes_where_it_fits(rt: HostRuntime) {
    for len in 0..60 {
        let fits = 16 <= len && len % 8 == 0;
        for room in [len + 6, len + 7, len + 8] {
            let want = if fits && len + 7 <= room {
                Some(len + 7)
            } else {
                None
            };
            assert_eq!(rt; written(len, room), (want, true), "{len} in {room}");
        }
    }
}

#[test]
fn garbage(rt: HostRuntime) {
    let ekt = AesKey::new(&[1; 16]).expect(&rt, "the length is one of a key");
    for len in [0, 8, 15, 16, 24, 40, 41, 56] {
        let mut cipher = [9; 56];
        assert!(rt;
            unwrap_key(&ekt, Profile::Aes128, &mut cipher[..len]) == Err(KeyFault::Unwrap),
            "{len} octets"
        );
    }
}

// Whether a record is read with these octets as its key, and written as it was.
fn is_record(octets: &[u8], key_profile: Profile, key: &[u8]) -> bool {
    let Some(record) = EktKeyRecord::read(octets, key_profile) else {
        return false;
    };
    let mut out = [7; 53];
    let len = record.write(&mut out);
    len == octets.len()
        && out.starts_with(octets)
        && out.iter().skip(len).all(|x| *x == 7)
        && record.len == key.len()
        && record.key.starts_with(key)
        && record.key.iter().skip(key.len()).all(|x| *x == 0)
        && record.salt == *b"master salt."
        && record.spi == 0x0102
        && record.life == 0x0a_0b0c
}

// Whether a record isn't read as one of the other profile, cut short, longer, or with a length in it altered.
fn is_alone(octets: &[u8], key_profile: Profile) -> bool {
    let len = octets.len().min(53);
    let mut record = [0; 54];
    record[..len].copy_from_slice(&octets[..len]);
    EktKeyRecord::read(&record[..len], other(key_profile)).is_none()
        && (0..len).all(|n| EktKeyRecord::read(&record[..n], key_profile).is_none())
        && EktKeyRecord::read(&record[..len + 1], key_profile).is_none()
        && [0, 1, key_profile.key_len() + 2, key_profile.key_len() + 3]
            .iter()
            .all(|offset| is_altered(&record[..len], *offset, key_profile))
}

fn is_altered(octets: &[u8], offset: usize, key_profile: Profile) -> bool {
    let len = octets.len().min(53);
    let mut record = [0; 53];
    record[..len].copy_from_slice(&octets[..len]);
    record[offset.min(52)] ^= 1;
    EktKeyRecord::read(&record[..len], key_profile).is_none()
}

#[test]
fn records(rt: HostRuntime) {
    for (octets, key_profile, key) in &RECORDS {
        assert!(rt;
            is_record(octets, *key_profile, key),
            "{} octets",
            octets.len()
        );
        assert!(rt; is_alone(octets, *key_profile), "{} octets", octets.len());
    }
}
