// A key distributor over a keeper in memory, with clear records.
ghost use Rattle.std.specs.Prelude.{◌≡◌, ◌≤◌, None, OnErr};
ghost use Rattle.perc_base.specs.Outside.{HasRisen};

use perc_base::{Failed, FaultlessRandoms, MemRandoms, Profile, is_failing};
use perc_ekt::EktKeyRecord;
use perc_keeper::{Keeper, MemKeeper};
use perc_keydist::{ClearHandshake, Handshake, Hello, KdFault, KeyDist};
use perc_tunnel::{MediaKeys, TunnelFault, TunnelReason};
use std::alloc::Global;
use std::process::Abort;
use std::test::Fail;

// SupportedProfiles of version 0 with profile 0009 alone, and of version 1.
const PROFILES: &[u8] = b"\x01\x00\x05\x00\x00\x02\x00\x09";

const OTHER_VERSION: &[u8] = b"\x01\x00\x05\x01\x00\x02\x00\x09";

// A hello of profile 0009 in an association of fifteen zeros and 1, and the end of this association.
const HELLO: &[u8] = b"\x04\x00\x1a\0\0\0\0\0\0\0\0\0\0\0\0\0\0\0\x01\x00\x08\x16PERC\x01\x00\x09";

const OTHER_HELLO: &[u8] =
    b"\x04\x00\x1a\0\0\0\0\0\0\0\0\0\0\0\0\0\0\0\x01\x00\x08\x16PERC\x01\x00\x0a";

const END: &[u8] = b"\x05\x00\x10\0\0\0\0\0\0\0\0\0\0\0\0\0\0\0\x01";

// The replies to the first hello.
const WELCOMED: &[u8] =
    b"\x03\x00\x4f\0\0\0\0\0\0\0\0\0\0\0\0\0\0\0\x01\x00\x09\x00\x10\xc1\xc1\xc1\xc1\xc1\xc1\xc1\xc1\xc1\xc1\xc1\xc1\xc1\xc1\xc1\xc1\x10\xc2\xc2\xc2\xc2\xc2\xc2\xc2\xc2\xc2\xc2\xc2\xc2\xc2\xc2\xc2\xc2\x0c\xc1\xc1\xc1\xc1\xc1\xc1\xc1\xc1\xc1\xc1\xc1\xc1\x0c\xc2\xc2\xc2\xc2\xc2\xc2\xc2\xc2\xc2\xc2\xc2\xc2\x04\x00\x77\0\0\0\0\0\0\0\0\0\0\0\0\0\0\0\x01\x00\x65\x16PERC\x02\x00\x09\xc1\xc1\xc1\xc1\xc1\xc1\xc1\xc1\xc1\xc1\xc1\xc1\xc1\xc1\xc1\xc1\xc1\xc1\xc1\xc1\xc1\xc1\xc1\xc1\xc1\xc1\xc1\xc1\xc2\xc2\xc2\xc2\xc2\xc2\xc2\xc2\xc2\xc2\xc2\xc2\xc2\xc2\xc2\xc2\xc2\xc2\xc2\xc2\xc2\xc2\xc2\xc2\xc2\xc2\xc2\xc2\x00\x10\x01\x01\x01\x01\x01\x01\x01\x01\x01\x01\x01\x01\x01\x01\x01\x01\x00\x0c\x02\x02\x02\x02\x02\x02\x02\x02\x02\x02\x02\x02\x00\x01\x01\x51\x80";

// The octets that a first hello draws, and behind them a roll: an EKT key and its salt, two outer pairs, and another EKT key.
fn draws(alloc: Global) -> Result<Vec<u8>, Fail> {
    let mut octets = Vec::new(alloc);
    for (octet, count) in [(1, 16), (2, 12), (0xc1, 28), (0xc2, 28), (5, 16), (6, 12)] {
        append_times(octet, count, &mut octets)?;
    }
    Ok(octets)
}

fn append_times(octet: u8, count: usize, octets: &mut Vec<u8>) -> Result<(), Fail> {
    for _ in 0..count {
        octets.push(octet)?;
    }
    Ok(())
}

// These octets, one list behind the other.
fn joined(alloc: Global, lists: &[&[u8]]) -> Result<Vec<u8>, Fail> {
    let mut octets = Vec::new(alloc);
    for list in lists {
        octets.extend_from_slice(list)?;
    }
    Ok(octets)
}

// The replies to a stream that comes in two pieces.
fn in_two(rt: &impl Abort, alloc: Global, stream: &[u8], cut: usize) -> Result<Vec<u8>, Fail> {
    let mut keeper = MemKeeper::new(alloc)?;
    let mut hand = ClearHandshake;
    let mut randoms = FaultlessRandoms::new(draws(alloc)?);
    let mut keydist = KeyDist::new(alloc, Profile::Aes128)?;
    let mut out = Vec::new(alloc);
    let (front, back) = stream.split_at(cut.min(stream.len()));
    let first = keydist.feed(alloc, front, &mut keeper, &mut hand, &mut randoms, &mut out);
    let second = keydist.feed(alloc, back, &mut keeper, &mut hand, &mut randoms, &mut out);
    assert!(rt; first.is_ok() && second.is_ok());
    Ok(out)
}

#[test]
fn welcomes_in_any_two_pieces(rt: HostRuntime) -> Result<(), Fail> {
    let alloc = rt.alloc();
    let stream = joined(alloc, &[PROFILES, HELLO])?;
    for cut in 0..38 {
        assert!(&rt; in_two(&rt, alloc, &stream, cut)?.as_slice() == WELCOMED);
    }
    let other = joined(alloc, &[OTHER_VERSION, PROFILES, OTHER_HELLO])?;
    assert!(&rt; in_two(&rt, alloc, &other, 9)?.as_slice() == b"\x02\x00\x01\x00".as_slice());
    Ok(())
}

// Rolls over the draws.
fn roll(
    alloc: Global,
    keydist: &mut KeyDist,
    keeper: &mut MemKeeper,
    out: &mut Vec<u8>,
) -> Result<Result<EktKeyRecord, KdFault>, Fail>
    ensures { keydist.new.decoding ≡ keydist.old.decoding }
{
    let mut randoms = MemRandoms::new(draws(alloc)?, Vec::new(alloc));
    Ok(keydist.roll(alloc, keeper, &mut ClearHandshake, &mut randoms, out))
}

#[test]
fn rolls_and_repeats(rt: HostRuntime) -> Result<(), Fail> {
    let alloc = rt.alloc();
    let mut keeper = MemKeeper::new(alloc)?;
    let mut keydist = KeyDist::new(alloc, Profile::Aes128)?;
    let mut out = Vec::new(alloc);
    let rolled = roll(alloc, &mut keydist, &mut keeper, &mut out)?;
    assert!(rt; rolled.is_ok_and(|record| record.spi == 1 && record.life == 86400));
    let again = roll(alloc, &mut keydist, &mut keeper, &mut out)?;
    assert!(rt; again == Err(KdFault::KeyRepeated));
    let mut randoms = MemRandoms::new(draws(alloc)?, Vec::new(alloc));
    let mut hand = ClearHandshake;
    let later = keydist.feed(
        alloc,
        PROFILES,
        &mut keeper,
        &mut hand,
        &mut randoms,
        &mut out,
    );
    assert!(rt; later == Err(KdFault::KeyRepeated) && out.is_empty());
    Ok(())
}

// What a new key distributor answers to a stream.
fn answer_to(alloc: Global, stream: &[u8]) -> Result<Result<u64, KdFault>, Fail> {
    let mut keeper = MemKeeper::new(alloc)?;
    let mut hand = ClearHandshake;
    let mut randoms = FaultlessRandoms::new(draws(alloc)?);
    let mut keydist = KeyDist::new(alloc, Profile::Aes128)?;
    let mut out = Vec::new(alloc);
    Ok(keydist.feed(
        alloc,
        stream,
        &mut keeper,
        &mut hand,
        &mut randoms,
        &mut out,
    ))
}

// Whether a new key distributor answers so to these octets, one list behind the other.
fn is_answered(alloc: Global, lists: &[&[u8]], answer: Result<u64, KdFault>) -> Result<bool, Fail> {
    let stream = joined(alloc, lists)?;
    Ok(answer_to(alloc, &stream)? == answer)
}

#[test]
fn faults_of_the_stream(rt: HostRuntime) -> Result<(), Fail> {
    let alloc = rt.alloc();
    let fault = TunnelFault {
        offset: 0,
        reason: TunnelReason::Kind,
    };
    assert!(rt; is_answered(alloc, &[b"\x06\x00"], Err(KdFault::Tunnel(fault)))?);
    assert!(rt; is_answered(alloc, &[PROFILES, PROFILES], Err(KdFault::Order(1)))?);
    assert!(rt; is_answered(alloc, &[b"\x02\x00\x01\x00"], Err(KdFault::Order(2)))?);
    Ok(())
}

#[test]
fn messages_out_of_order(rt: HostRuntime) -> Result<(), Fail> {
    let alloc = rt.alloc();
    assert!(rt; is_answered(alloc, &[&WELCOMED[..82]], Err(KdFault::Order(3)))?);
    assert!(rt; is_answered(alloc, &[HELLO], Err(KdFault::Order(4)))?);
    assert!(rt; is_answered(alloc, &[END], Err(KdFault::Order(5)))?);
    assert!(rt; is_answered(alloc, &[PROFILES, HELLO, END, END], Ok(1))?);
    Ok(())
}

// A clear handshake of which one call fails.
#[derive(Drop)]
struct FailingHandshake {
    failing: u64,
    calls: u64,
    fault_count: u64,
}

impl FailingHandshake {
    fn make_call(&mut self) -> Result<(), Failed>
        ensures failed { OnErr result (HasRisen self.old.fault_count self.new.fault_count) }
        ensures never_falls { self.old.fault_count ≤ self.new.fault_count }
    {
        if is_failing(&mut self.calls, &[self.failing]) {
            self.fault_count = self.fault_count.saturating_add(1);
            return Err(Failed);
        }
        Ok(())
    }
}

impl Handshake for FailingHandshake {
    ghost answers = { λ _. None };

    ghost fault_count = { λ hand. hand.fault_count };

    fn faults(&self) -> u64 {
        self.fault_count
    }

    fn take(&mut self, octets: &[u8]) -> Result<Hello, Failed> {
        self.make_call()?;
        ClearHandshake.take(octets)
    }

    fn welcome(
        &mut self,
        keys: &MediaKeys,
        granted: &EktKeyRecord,
        out: &mut [u8; 1500],
    ) -> Result<usize, Failed> {
        self.make_call()?;
        ClearHandshake.welcome(keys, granted, out)
    }

    fn renew(&mut self, granted: &EktKeyRecord, out: &mut [u8; 1500]) -> Result<usize, Failed> {
        self.make_call()?;
        ClearHandshake.renew(granted, out)
    }
}

// What is to fail in a first join with a roll behind it, and what stands behind that.
#[derive(Clone, Copy)]
enum Call {
    Keeper(u64),
    Hand(u64),
    Randoms(u64),
}

// The newest SPI, or 0; how many members there are; and how many octets were appended.
type Standing = (u16, usize, usize);

// Each call of the keeper, the handshake and the randoms in a first join with a roll behind it, and what stands where it fails.
const CALLS: [(Call, Standing); 24] = [
    (Call::Keeper(0), (0, 0, 0)),
    (Call::Keeper(1), (0, 0, 0)),
    (Call::Keeper(2), (0, 0, 0)),
    (Call::Keeper(3), (0, 0, 0)),
    (Call::Keeper(4), (0, 0, 0)),
    (Call::Keeper(5), (0, 0, 0)),
    (Call::Keeper(6), (1, 0, 0)),
    (Call::Keeper(7), (1, 0, 0)),
    (Call::Keeper(8), (1, 0, 0)),
    (Call::Keeper(9), (1, 1, 204)),
    (Call::Keeper(10), (1, 1, 204)),
    (Call::Keeper(11), (1, 1, 204)),
    (Call::Keeper(12), (2, 1, 204)),
    (Call::Hand(0), (0, 0, 0)),
    (Call::Hand(1), (1, 1, 0)),
    (Call::Hand(2), (2, 1, 204)),
    (Call::Randoms(0), (0, 0, 0)),
    (Call::Randoms(1), (0, 0, 0)),
    (Call::Randoms(2), (1, 0, 0)),
    (Call::Randoms(3), (1, 0, 0)),
    (Call::Randoms(4), (1, 0, 0)),
    (Call::Randoms(5), (1, 0, 0)),
    (Call::Randoms(6), (1, 1, 204)),
    (Call::Randoms(7), (1, 1, 204)),
];

// The fault that names the object whose call fails.
fn fault_of(call: Call) -> KdFault {
    match call {
        Call::Keeper(_) => KdFault::Keeper,
        Call::Hand(_) => KdFault::Handshake,
        Call::Randoms(_) => KdFault::Random,
    }
}

// The number of the call that fails, of each of the three objects; 99 never comes.
fn numbers_of(call: Call) -> (u64, u64, u64) {
    match call {
        Call::Keeper(number) => (number, 99, 99),
        Call::Hand(number) => (99, number, 99),
        Call::Randoms(number) => (99, 99, number),
    }
}

// Joins and rolls while a call fails, and answers what stands then. The fault names the object, and each later call answers it.
fn stands_behind(rt: &impl Abort, alloc: Global, call: Call) -> Result<Standing, Fail> {
    let (keeper_fails, hand_fails, randoms_fail) = numbers_of(call);
    let mut keeper = MemKeeper::with_failing(alloc, vec![in alloc; keeper_fails]?)?;
    let mut hand = FailingHandshake {
        failing: hand_fails,
        calls: 0,
        fault_count: 0,
    };
    let mut randoms = MemRandoms::new(draws(alloc)?, vec![in alloc; randoms_fail]?);
    let mut keydist = KeyDist::new(alloc, Profile::Aes128)?;
    let mut out = Vec::new(alloc);
    let stream = joined(alloc, &[PROFILES, HELLO])?;
    let fed = keydist.feed(
        alloc,
        &stream,
        &mut keeper,
        &mut hand,
        &mut randoms,
        &mut out,
    );
    let rolled = keydist.roll(alloc, &mut keeper, &mut hand, &mut randoms, &mut out);
    assert!(rt; fed == Ok(0) || fed == Err(fault_of(call)));
    assert!(rt; rolled == Err(fault_of(call)));
    let spi = keeper.last(alloc)?.map_or(0, |record| record.spi);
    Ok((spi, keeper.members(alloc)?.len(), out.len()))
}

#[test]
fn each_call_fails_in_turn(rt: HostRuntime) -> Result<(), Fail> {
    for (call, standing) in &CALLS {
        assert!(rt; stands_behind(&rt, rt.alloc(), *call)? == *standing);
    }
    Ok(())
}

// A hello of the association of this octet.
fn hello_of(alloc: Global, octet: u8) -> Result<Vec<u8>, Fail> {
    let name = [octet; 16];
    joined(
        alloc,
        &[b"\x04\x00\x1a", &name, b"\x00\x08\x16PERC\x01\x00\x09"],
    )
}

#[test]
fn welcomes_sixty_four(rt: HostRuntime) -> Result<(), Fail> {
    let alloc = rt.alloc();
    let mut stream = joined(alloc, &[PROFILES])?;
    let mut octets = Vec::new(alloc);
    append_times(200, 28, &mut octets)?;
    for octet in 0..65 {
        stream.extend_from_slice(&hello_of(alloc, octet)?)?;
        append_times(octet, 28, &mut octets)?;
        append_times(octet + 100, 28, &mut octets)?;
    }
    let mut keeper = MemKeeper::new(alloc)?;
    let mut hand = ClearHandshake;
    let mut randoms = FaultlessRandoms::new(octets);
    let mut keydist = KeyDist::new(alloc, Profile::Aes128)?;
    let mut out = Vec::new(alloc);
    let fed = keydist.feed(
        alloc,
        &stream,
        &mut keeper,
        &mut hand,
        &mut randoms,
        &mut out,
    );
    assert!(rt; fed == Ok(0));
    assert_eq!(rt; keeper.members(alloc)?.len(), 64);
    assert_eq!(rt; out.len(), 64 * 204);
    let again = hello_of(alloc, 0)?;
    let fed = keydist.feed(
        alloc,
        &again,
        &mut keeper,
        &mut hand,
        &mut randoms,
        &mut out,
    );
    assert!(rt; fed == Ok(0));
    assert_eq!(rt; out.len(), 65 * 204);
    let (first, later) = out.split_at(204.min(out.len()));
    assert!(rt; later.ends_with(first));
    Ok(())
}
