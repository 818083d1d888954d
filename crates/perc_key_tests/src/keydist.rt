// Clear records that were spelled out by hand, and the handshake that makes them.
use perc_base::Profile;
use perc_ekt::EktKeyRecord;
use perc_kdf::Master;
use perc_keydist::{ClearHandshake, ClearRecord, Handshake, Hello};
use perc_tunnel::MediaKeys;
use std::process::Abort;
use std::test::Fail;

const HELLO: &[u8] = b"\x16PERC\x01\x00\x0a";

const LEAVE: &[u8] = b"\x15PERC";

const RENEW: &[u8] =
    b"\x16PERC\x03\x00\x10\x01\x01\x01\x01\x01\x01\x01\x01\x01\x01\x01\x01\x01\x01\x01\x01\x00\x0c\x02\x02\x02\x02\x02\x02\x02\x02\x02\x02\x02\x02\x00\x01\x01\x51\x80";

const WELCOME: &[u8] =
    b"\x16PERC\x02\x00\x09\xc1\xc1\xc1\xc1\xc1\xc1\xc1\xc1\xc1\xc1\xc1\xc1\xc1\xc1\xc1\xc1\xc1\xc1\xc1\xc1\xc1\xc1\xc1\xc1\xc1\xc1\xc1\xc1\xc2\xc2\xc2\xc2\xc2\xc2\xc2\xc2\xc2\xc2\xc2\xc2\xc2\xc2\xc2\xc2\xc2\xc2\xc2\xc2\xc2\xc2\xc2\xc2\xc2\xc2\xc2\xc2\x00\x10\x01\x01\x01\x01\x01\x01\x01\x01\x01\x01\x01\x01\x01\x01\x01\x01\x00\x0c\x02\x02\x02\x02\x02\x02\x02\x02\x02\x02\x02\x02\x00\x01\x01\x51\x80";

// A record is read of its octets and written as they are, and isn't read of one octet more or less, or in the other profile
// where it has keys.
fn there_and_back(rt: &impl Abort, octets: &[u8], has_keys: bool) {
    let read = ClearRecord::read(octets, Profile::Aes128).expect(rt, "a record");
    let mut out = [0xee; 150];
    let len = read.write(Profile::Aes128, &mut out);
    assert!(rt; &out[..len] == octets);
    assert!(rt; out[149] == 0xee);
    let short = octets.len().saturating_sub(1);
    assert!(rt; ClearRecord::read(&octets[..short], Profile::Aes128).is_none());
    assert!(rt; ClearRecord::read(octets, Profile::Aes256).is_none() == has_keys);
}

#[test]
fn reads_and_writes(rt: HostRuntime) -> Result<(), Fail> {
    there_and_back(&rt, HELLO, false);
    there_and_back(&rt, LEAVE, false);
    there_and_back(&rt, RENEW, true);
    there_and_back(&rt, WELCOME, true);
    assert!(rt; ClearRecord::read(b"\x15PERC\x00", Profile::Aes128).is_none());
    assert!(rt; ClearRecord::read(b"\x16PERC\x04\x00\x09", Profile::Aes128).is_none());
    Ok(())
}

#[test]
fn shakes_hands(rt: HostRuntime) -> Result<(), Fail> {
    let mut hand = ClearHandshake;
    assert!(rt; hand.take(HELLO) == Ok(Hello::Join(10)));
    assert!(rt; hand.take(LEAVE) == Ok(Hello::Other));
    let keys = MediaKeys {
        association: [7; 16],
        profile: Profile::Aes128,
        client: Master::new(&[0xc1; 16], &[0xc1; 12]).unwrap(),
        server: Master::new(&[0xc2; 16], &[0xc2; 12]).unwrap(),
    };
    let granted = EktKeyRecord::read(&RENEW[6..], Profile::Aes128).expect(&rt, "a record");
    let mut out = [0; 1500];
    assert!(rt; hand.welcome(&keys, &granted, &mut out) == Ok(101));
    assert!(rt; &out[..101] == WELCOME);
    assert!(rt; hand.renew(&granted, &mut out) == Ok(43));
    assert!(rt; &out[..43] == RENEW);
    assert_eq!(rt; hand.faults(), 0);
    Ok(())
}
