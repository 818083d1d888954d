// Datagrams that were made outside, one after another.
ghost use Rattle.std.specs.Prelude.{◌≡◌};
ghost use Rattle.perc_base.specs.Profile.{key_length};
ghost use Rattle.perc_ekt.specs.Record.{IsRecord};

use perc_base::Profile;
use perc_ekt::EktKeyRecord;
use perc_incoming::{Accepted, Incoming};
use perc_kdf::Master;
use perc_outer::OuterFault;
use perc_receiver::Refusal;
use std::alloc::Global;

// What an accepted packet says: SPI, index, payload type, sequence number, marker, timestamp and payload.
type Told = (u16, u64, u8, u16, bool, u32, &'static [u8]);

// A datagram, and what is answered.
type Step = (&'static str, Result<Told, Refusal>);

// The first datagram of an endpoint, as a distributor sent it on.
const FIRST: [(Profile, &str); 2] = [
    (
        Profile::Aes128,
        "806403ed000000a01111111145833f981fab824f80de7e67aff265e6e7e0961010c87b33c83ae927fb94093836e1d86065926968d41866f136ad456652665196b934e253b5e7fc8dfbdab81c923b54034c60e99cc79d23165bf7a200010000002f02",
    ),
    (
        Profile::Aes256,
        "806403ed000000a011111111c980d46650cef1432beda94d47938376927f43ab13a57fea28a4a35f1a451f4e266fddb96383d7ff75fb647e381bb8390f0d73f1bb057fbcadfbffe2438bcf94e47691de93b9182ab8f7590d9bb4aa6fcb25552817407915a639083c81ff0c00010000003f02",
    ),
];

const HELLO: Told = (1, 1000, 96, 1000, true, 160, b"abc");

// A packet with its key; one under the next key; and the first again under a new outer index, which resets no window.
const REKEYED: [Step; 4] = [
    (
        "800003e800000000111111113960f2a520294436d6f02364dbe06ef65a1944f76f486b9eb7786f5faaf19375982368d41866f136ad456652665196b934e253b5e7fc8dfbdab81c923b54034c60e99cc79d23165bf7a200010000002f02",
        Ok((1, 1000, 0, 1000, false, 0, b"\xaa")),
    ),
    (
        "800003e9000000011111111160fedcc66647dc7c5c297d0511e2b0be3bee7d7ca12835c6ec840481d6e3b6c8fc4a27085eec504d060f7e9eb1abdf1fc32a1c6026159d775ea1ba288fd68ad6ffe0bd918ae794bff39a00010001002f02",
        Ok((1, 1001, 0, 1001, false, 1, b"\xbb")),
    ),
    (
        "800003f2000000001111111117e6f2865e179951c47c507d1a1d82d085d21063974f3f6a2c0d86a654f898ca98212d0968d41866f136ad456652665196b934e253b5e7fc8dfbdab81c923b54034c60e99cc79d23165bf7a200010000002f02",
        Err(Refusal::InnerRepeated),
    ),
    (
        "800003e9000000011111111160fedcc66647dc7c5c297d0511e2b0be3bee7d7ca12835c6ec840481d6e3b6c8fc4a27085eec504d060f7e9eb1abdf1fc32a1c6026159d775ea1ba288fd68ad6ffe0bd918ae794bff39a00010001002f02",
        Err(Refusal::Outer(OuterFault::OuterRepeated)),
    ),
];

// The record of an EKT key under this SPI.
fn granted(profile: Profile, spi: u16) -> EktKeyRecord
    ensures right { IsRecord result }
    ensures len { result.len ≡ key_length profile }
{
    let mut key = [0; 32];
    let len = profile.key_len();
    key[..len].fill(1);
    EktKeyRecord {
        key,
        len,
        salt: [2; 12],
        spi,
        life: 0,
    }
}

// A receiver that received nothing.
fn started(alloc: Global, profile: Profile, ssrc: u32) -> Option<Incoming> {
    let granted = granted(profile, 1);
    let server = Master::new(&[0xc4; 32][..granted.len], &[0xc4; 12])?;
    Incoming::start(alloc, profile, ssrc, &server, &granted).ok()
}

// Whether an accepted packet says this.
fn says(accepted: &Accepted<'_>, told: &Told) -> bool {
    accepted.ssrc == 0x11111111
        && (accepted.spi, accepted.index) == (told.0, told.1)
        && (accepted.pt, accepted.seq) == (told.2, told.3)
        && (accepted.marker, accepted.timestamp) == (told.4, told.5)
        && accepted.payload == told.6
}

// Whether these octets are answered so.
fn is_answered(incoming: &mut Incoming, digits: &str, want: &Result<Told, Refusal>) -> bool {
    let mut octets = [0; 1500];
    let len = (digits.len() / 2).min(1500);
    let _ = hex::decode_to_slice(digits, &mut octets[..len]);
    match (incoming.receive(&mut octets[..len]), want) {
        (Ok(accepted), Ok(told)) => says(&accepted, told),
        (Err(refusal), Err(wanted)) => refusal == *wanted,
        _ => false,
    }
}

#[test]
fn first_datagrams(rt: HostRuntime) {
    for (profile, digits) in &FIRST {
        let mut incoming = started(rt.alloc(), *profile, 0x22222222).expect(&rt, "there is memory");
        assert!(rt; is_answered(&mut incoming, digits, &Ok(HELLO)));
    }
}

#[test]
fn rekeyed(rt: HostRuntime) {
    let mut incoming = started(rt.alloc(), Profile::Aes128, 0x22222222).expect(
        &rt,
        "there is memory",
    );
    for (i, (digits, want)) in REKEYED.iter().enumerate() {
        assert!(rt; is_answered(&mut incoming, digits, want), "datagram {i}");
    }
}
