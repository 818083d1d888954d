// Datagrams of other hands, and what becomes of them.
ghost use Rattle.std.specs.Prelude.{◌≡◌, ◌+◌, ◌<◌, ◌≤◌, IfOk, IfSome, IsTrue, length};
ghost use Rattle.perc_rtp.specs.Header.{IsExtension};
ghost use Rattle.perc_rtp.specs.Media.{is_payload_type};
ghost use Rattle.perc_ohb.specs.Rewriting.{IsExtensionSet, extension_set};
ghost use Rattle.perc_distributor.specs.Inbound.{Packet};
ghost use Rattle.perc_distributor.specs.Kept.{IsPlain, IsWhole};

use crate::members::{ANN, BOB, CAT, FIRST, KEPT, association, entry, members, octets, opened};
use byteorder::{BigEndian, ByteOrder};
use perc_base::Memory;
use perc_distributor::{ForwardFault, Inbound, InboundFault, Output, Outputs, Plain, Worker};
use perc_kdf::Kind;
use perc_keyset::{KeySet, Op};
use perc_ohb::{Change, ExtChange, OhbFault};
use perc_outer::OuterFault;
use perc_rtp::{RtpFault, RtpHead};
use perc_srtp::{Keys, RtcpFault, seal_at};
use std::alloc::Global;
use std::process::Abort;

const CLEARED: Change<'static> = Change {
    pt: Some(100),
    shift: 5,
    marker: Some(false),
    extension: ExtChange::Keep,
};

const ONE_BACK: Change<'static> = Change {
    pt: None,
    shift: 65535,
    marker: None,
    extension: ExtChange::Keep,
};

const FAR_ON: Change<'static> = Change {
    pt: None,
    shift: 65000,
    marker: None,
    extension: ExtChange::Keep,
};

const ONE_ON: Change<'static> = Change {
    pt: None,
    shift: 1,
    marker: None,
    extension: ExtChange::Keep,
};

const EXTENDED: Change<'static> = Change {
    pt: Some(0),
    shift: 0,
    marker: Some(true),
    extension: ExtChange::Set(0xabcd, &[]),
};

// What is sent on to a member, or why it isn't.
type Sent = (u8, Result<&'static str, ForwardFault>);

// Who a datagram is from, its octets, and who alone is named. It isn't opened; or with this change in it these are the outputs.
type Row = (
    u8,
    &'static str,
    u8,
    Result<(Change<'static>, &'static [Sent]), InboundFault>,
);

// What comes to a distributor of Ann and Bob.
const OPENED: [Row; 20] = [
    (ANN, "", 0, Err(InboundFault::NotMedia)),
    (ANN, "14fefd00", 0, Err(InboundFault::NotMedia)),
    (
        CAT,
        "80e003e8000000a011111111f2f3563309dd1044846eb835d57de8df942ab4c77ea1a3a1658a8e535dcf603b0e4b308c68d41866f136ad456652665196b934e253b5e7fc8dfbdab81c923b54034c60e99cc79d23165bf7a200010000002f02",
        0,
        Err(InboundFault::NoAssociation),
    ),
    (
        CAT,
        "80c900011111111111d2633090986b332435c6ed8d6cc14d80000000",
        0,
        Err(InboundFault::NoAssociation),
    ),
    (
        ANN,
        "806001",
        0,
        Err(InboundFault::Outer(OuterFault::EktType)),
    ),
    (
        ANN,
        "806002",
        0,
        Err(InboundFault::Outer(OuterFault::EktLength)),
    ),
    (
        ANN,
        "806000",
        0,
        Err(InboundFault::Outer(OuterFault::Rtp(RtpFault::Short))),
    ),
    (
        ANN,
        "80e003e8000000a01111111100000000000000000000000000000000",
        0,
        Err(InboundFault::Outer(OuterFault::OuterShort)),
    ),
    (
        ANN,
        "80e003e8000000a011111111f2f3563309dd1044856eb835d57de8df942ab4c77ea1a3a1658a8e535dcf603b0e4b308c68d41866f136ad456652665196b934e253b5e7fc8dfbdab81c923b54034c60e99cc79d23165bf7a200010000002f02",
        0,
        Err(InboundFault::Outer(OuterFault::OuterTag)),
    ),
    (
        BOB,
        "80e003e8000000a011111111f2f3563309dd1044846eb835d57de8df942ab4c77ea1a3a1658a8e535dcf603b0e4b308c68d41866f136ad456652665196b934e253b5e7fc8dfbdab81c923b54034c60e99cc79d23165bf7a200010000002f02",
        0,
        Err(InboundFault::Outer(OuterFault::OuterTag)),
    ),
    (
        ANN,
        "80e003e8000000a011111111f2f3563309dd1044846eb835d57de8df942ab4c77ea1a3a1658a8e535dcf603b0e4b308c68d41866f136ad456652665196b934e253b5e7fc8dfbdab81c923b54034c60e99cc79d23165bf7a200010000002f02",
        0,
        Ok((
            CLEARED,
            &[(
                BOB,
                Ok(
                    "806403ed000000a01111111145833f981fab824f80de7e67aff265e6e7e0961010c87b33c83ae927fb94093836e1d86065926968d41866f136ad456652665196b934e253b5e7fc8dfbdab81c923b54034c60e99cc79d23165bf7a200010000002f02",
                ),
            )],
        )),
    ),
    (
        ANN,
        "80e003e8000000a011111111f2f3563309dd1044846eb835d57de8df942ab4c77ea1a3a1658a8e535dcf603b0e4b308c68d41866f136ad456652665196b934e253b5e7fc8dfbdab81c923b54034c60e99cc79d23165bf7a200010000002f02",
        0,
        Err(InboundFault::Outer(OuterFault::OuterRepeated)),
    ),
    (
        ANN,
        "80e00368000000a011111111f2f3563309dd1044846eb835d57de8df942ab4c77ea1a3a1658a8e535dcf603b0e4b308c68d41866f136ad456652665196b934e253b5e7fc8dfbdab81c923b54034c60e99cc79d23165bf7a200010000002f02",
        0,
        Err(InboundFault::Outer(OuterFault::OuterOld)),
    ),
    (
        ANN,
        "80c90001",
        0,
        Err(InboundFault::Rtcp(RtcpFault::Short)),
    ),
    (
        ANN,
        "80c900011111111111d2633090986b332435c6ed8d6cc14d80000001",
        0,
        Err(InboundFault::Rtcp(RtcpFault::Tag)),
    ),
    (
        ANN,
        "80c900011111111111d2633090986b332435c6ed8d6cc14d00000001",
        0,
        Err(InboundFault::Rtcp(RtcpFault::Clear)),
    ),
    (
        ANN,
        "80c900011111111111d2633090986b332435c6ed8d6cc14d80000000",
        0,
        Ok((
            KEPT,
            &[(
                BOB,
                Ok("80c9000111111111e49e0214f22a4adbd1f9366773d2829c80000000"),
            )],
        )),
    ),
    (
        ANN,
        "80c900011111111111d2633090986b332435c6ed8d6cc14d80000000",
        0,
        Err(InboundFault::Rtcp(RtcpFault::Repeated)),
    ),
    (
        ANN,
        "80c90001111111110da29cdf419ac32ffb8873d1086d817880000080",
        0,
        Ok((
            KEPT,
            &[(
                BOB,
                Ok("80c9000111111111415a5627aa788ede05bdefd811a0fa7580000001"),
            )],
        )),
    ),
    (
        ANN,
        "80c900011111111111d2633090986b332435c6ed8d6cc14d80000000",
        0,
        Err(InboundFault::Rtcp(RtcpFault::TooOld)),
    ),
];

// What ends in no block, and then in one.
const BLOCKS: [Row; 6] = [
    (
        ANN,
        "8060000000000000111111113e19878ce591cd01203a611e547d766400",
        0,
        Err(InboundFault::Outer(OuterFault::Ohb(OhbFault::Empty))),
    ),
    (
        ANN,
        "80600001000000001111111127a13920d7c2e4444d4f85786b345e2bdf00",
        0,
        Err(InboundFault::Outer(OuterFault::Ohb(OhbFault::Reserved))),
    ),
    (
        ANN,
        "806000020000000011111111b12561bda6c3e9d68181c5b893a98b47e200",
        0,
        Err(InboundFault::Outer(OuterFault::Ohb(OhbFault::Marker))),
    ),
    (
        ANN,
        "806000030000000011111111e205bb8b428add1d0070f1db333337687800",
        0,
        Err(InboundFault::Outer(OuterFault::Ohb(OhbFault::Short))),
    ),
    (
        ANN,
        "80600004000000001111111158fcf16b328e864eab9c14b8074ee510a4edb53800",
        0,
        Err(InboundFault::Outer(OuterFault::Ohb(OhbFault::Pt))),
    ),
    (
        ANN,
        "806000050000000011111111ddb0080df29158c5138e2ff4ef829b469f00",
        0,
        Ok((
            KEPT,
            &[(
                BOB,
                Ok("806000050000000011111111d08bf4cb0df795cace5df3222eb29989d400"),
            )],
        )),
    ),
];

// What is dropped for its index.
const DROPPED: [Row; 3] = [
    (
        ANN,
        "8000000300000000111111117ffdef152a7d6fc73bed309bf1d9813d053d389b6b5ee6c4c73c77b351bfffec2068d41866f136ad456652665196b934e253b5e7fc8dfbdab81c923b54034c60e99cc79d23165bf7a200010000002f02",
        0,
        Ok((
            KEPT,
            &[(
                BOB,
                Ok(
                    "800000030000000011111111bad5205a72aac78f8aeeec4a93c1e55c33e1dbce60e0920e26618b2456a12a34f068d41866f136ad456652665196b934e253b5e7fc8dfbdab81c923b54034c60e99cc79d23165bf7a200010000002f02",
                ),
            )],
        )),
    ),
    (
        ANN,
        "80000004000000011111111196d2c25d05a193c03919f3ba197fa6cfdcd828439c3a0d710a3ce6fc5fccb2d41168d41866f136ad456652665196b934e253b5e7fc8dfbdab81c923b54034c60e99cc79d23165bf7a200010000002f02",
        0,
        Ok((ONE_BACK, &[(BOB, Err(ForwardFault::NonceUsed(3)))])),
    ),
    (
        ANN,
        "800000050000000211111111fde1a890ebb76a44497da211e9107ac544ddb15808735d7f793e0c9fa600c85d6168d41866f136ad456652665196b934e253b5e7fc8dfbdab81c923b54034c60e99cc79d23165bf7a200010000002f02",
        0,
        Ok((FAR_ON, &[(BOB, Err(ForwardFault::NoIndex(65005)))])),
    ),
];

// A packet with CSRCs, extension and padding.
const EXTENDED_ON: [Row; 1] = [(
    ANN,
    "b27f03e8ffffffff1111111100000001fffffffebede0001010203049293358f9496eb109635cce99fabb578f7c240d46eb20bc2384dd4836fc679f881ac2ddb1bdabbbe000868d41866f136ad456652665196b934e253b5e7fc8dfbdab81c923b54034c60e99cc79d23165bf7a200010000002f02",
    0,
    Ok((
        EXTENDED,
        &[(
            BOB,
            Ok(
                "b28003e8ffffffff1111111100000001fffffffeabcd000092dd50ff18f5f7ddbba034df7adc6b48796e36c1cc39607ba90043c3ca7413284be17515ebf7751cd33cca68d41866f136ad456652665196b934e253b5e7fc8dfbdab81c923b54034c60e99cc79d23165bf7a200010000002f02",
            ),
        )],
    )),
)];

// What goes to Cat alone of three.
const NAMED: [Row; 2] = [
    (
        ANN,
        "806003e90000014011111111b69924f99f03de9e7b3c63a9d07fceee7b7e5c2252bd637b77fff956d075ed3a6cb268d41866f136ad456652665196b934e253b5e7fc8dfbdab81c923b54034c60e99cc79d23165bf7a200010000002f02",
        CAT,
        Ok((
            KEPT,
            &[(
                CAT,
                Ok(
                    "806003e90000014011111111c0d874a9f8d516ca66f7c0743d1e1550150bd63cc849f2a16118f13aba3aa11a7bba68d41866f136ad456652665196b934e253b5e7fc8dfbdab81c923b54034c60e99cc79d23165bf7a200010000002f02",
                ),
            )],
        )),
    ),
    (
        ANN,
        "80e003e8000000a011111111f2f3563309dd1044846eb835d57de8df942ab4c77ea1a3a1658a8e535dcf603b0e4b308c68d41866f136ad456652665196b934e253b5e7fc8dfbdab81c923b54034c60e99cc79d23165bf7a200010000002f02",
        CAT,
        Ok((
            KEPT,
            &[(
                CAT,
                Ok(
                    "80e003e8000000a011111111776fe6a209cad30ac1975461d17bb2ba7e1b04487d80372cb2bb92977b54d16bda405ac068d41866f136ad456652665196b934e253b5e7fc8dfbdab81c923b54034c60e99cc79d23165bf7a200010000002f02",
                ),
            )],
        )),
    ),
];

// A distributor of so many members, with one worker.
#[derive(Drop)]
struct Site {
    set: KeySet,
    inbound: Inbound,
    worker: Worker,
    outputs: Outputs,
}

fn site_of(alloc: Global, count: u8) -> Result<Site, Memory> {
    Ok(Site {
        set: members(count),
        inbound: Inbound::new(alloc)?,
        worker: Worker::new(alloc, 0, 1)?,
        outputs: Outputs::new(alloc)?,
    })
}

// Whether a payload type may be set.
fn may_be_set(pt: Option<u8>) -> bool
    ensures { IsTrue result → IfSome pt (λ pt. IsTrue (is_payload_type pt)) }
{
    match pt {
        Some(pt) => pt < 64 || (pt >= 96 && pt < 128),
        None => true,
    }
}

// Whether an extension may be set.
fn may_extend(extension: ExtChange<'_>) -> bool
    ensures { IsTrue result → IsExtensionSet (extension_set extension.entry) }
{
    match extension {
        ExtChange::Set(profile, words) => is_extension(profile, words),
        _ => true,
    }
}

// Whether there are at most 30 whole words.
fn is_extension(profile: u16, words: &[u8]) -> bool
    ensures { IsTrue result → IsExtension (profile, words.now) × (length words.now ≤ 120) }
{
    words.len() % 4 == 0 && words.len() <= 120
}

// Forwards one packet with a change that may be made, and says whether it may.
fn forward(
    worker: &mut Worker,
    set: &KeySet,
    plain: &Plain,
    change: &Change<'_>,
    named: u8,
    outputs: &mut Outputs,
) -> bool
    requires { (packet : Packet) × IsPlain plain.now packet }
{
    if !may_be_set(change.pt) || !may_extend(change.extension) {
        return false;
    }
    let name = [association(named)];
    let only = if named == 0 { None } else { Some(&name[..]) };
    worker.forward(set, &[*plain], change, only, outputs);
    true
}

// Whether an output is this one.
fn is_sent(output: &Output, want: &Sent) -> bool
    requires { IsWhole output.now }
{
    match output {
        Output::Sealed {
            to,
            octets,
            len,
            ..
        } => *to == association(want.0) && is_octets(&octets[..*len], want.1),
        Output::Dropped { to, fault, .. } => { *to == association(want.0) && want.1 == Err(*fault) }
    }
}

fn is_octets(octets: &[u8], want: Result<&'static str, ForwardFault>) -> bool {
    match want {
        Ok(digits) => is_spelled(octets, digits),
        Err(_) => false,
    }
}

// Whether octets are what a text in hexadecimal digits spells, which are at most 1500.
fn is_spelled(octets: &[u8], digits: &str) -> bool {
    let mut spelled = [0; 1500];
    let spelled = &mut spelled[..octets.len().min(1500)];
    hex::decode_to_slice(digits, spelled).is_ok() && octets == spelled
}

fn are_sent(outputs: &Outputs, want: &[Sent]) -> bool {
    if outputs.len() != want.len() {
        return false;
    }
    for i in 0..want.len() {
        if !is_sent(outputs.at(i), &want[i]) {
            return false;
        }
    }
    true
}

// Whether a row's datagram has its answer.
fn is_answered_so(rt: &impl Abort, alloc: Global, site: &mut Site, row: &Row) -> bool {
    let (from, digits, named, want) = row;
    let datagram = octets(rt, alloc, digits);
    match (opened(&mut site.inbound, &site.set, *from, &datagram), want) {
        (Ok(plain), Ok((change, sent))) => {
            forward(
                &mut site.worker,
                &site.set,
                &plain,
                change,
                *named,
                &mut site.outputs,
            ) && are_sent(&site.outputs, sent)
        }
        (Err(fault), Err(want)) => fault == *want,
        _ => false,
    }
}

// Datagrams in turn are answered so, by a distributor of so many members.
fn are_answered_so(rt: &impl Abort, alloc: Global, count: u8, rows: &[Row]) -> Result<(), Memory> {
    let mut site = site_of(alloc, count)?;
    for (i, row) in rows.iter().enumerate() {
        assert!(rt; is_answered_so(rt, alloc, &mut site, row), "row {i}");
    }
    Ok(())
}

#[test]
fn opens(rt: HostRuntime) -> Result<(), Memory> {
    are_answered_so(&rt, rt.alloc(), 2, &OPENED)
}

#[test]
fn reads_blocks(rt: HostRuntime) -> Result<(), Memory> {
    are_answered_so(&rt, rt.alloc(), 2, &BLOCKS)
}

#[test]
fn drops(rt: HostRuntime) -> Result<(), Memory> {
    are_answered_so(&rt, rt.alloc(), 2, &DROPPED)
}

#[test]
fn sets_extensions(rt: HostRuntime) -> Result<(), Memory> {
    are_answered_so(&rt, rt.alloc(), 2, &EXTENDED_ON)
}

#[test]
fn sends_to_those_named(rt: HostRuntime) -> Result<(), Memory> {
    are_answered_so(&rt, rt.alloc(), 3, &NAMED)
}

// Whether an output is sealed for this member, and like the one among others.
fn is_alike(output: &Output, others: &Outputs, number: u8) -> bool
    requires { IsWhole output.now }
{
    let Output::Sealed {
        to,
        octets,
        len,
        ..
    } = output
    else {
        return false;
    };
    for i in 0..others.len() {
        if is_same(others.at(i), to, &octets[..*len]) {
            return *to == association(number);
        }
    }
    false
}

fn is_same(output: &Output, to: &[u8; 16], datagram: &[u8]) -> bool
    requires { IsWhole output.now }
{
    match output {
        Output::Sealed {
            to: other,
            octets,
            len,
            ..
        } => other == to && &octets[..*len] == datagram,
        Output::Dropped { .. } => false,
    }
}

pub(crate) fn are_alike(outputs: &Outputs, others: &Outputs, numbers: &[u8]) -> bool {
    if outputs.len() != numbers.len() {
        return false;
    }
    for i in 0..numbers.len() {
        if !is_alike(outputs.at(i), others, numbers[i]) {
            return false;
        }
    }
    true
}

// Whether a worker of so many gives these members what one alone gives them of a packet.
fn shares(
    alloc: Global,
    set: &KeySet,
    plain: &Plain,
    worker: (usize, usize),
    alone: &Outputs,
    want: &[u8],
) -> Result<bool, Memory>
    requires plain { (packet : Packet) × IsPlain plain.now packet }
    requires worker { worker.0 < worker.1 }
    requires few { worker.1 ≤ 16 }
{
    let mut worker = Worker::new(alloc, worker.0, worker.1)?;
    let mut outputs = Outputs::new(alloc)?;
    Ok(forward(&mut worker, set, plain, &KEPT, 0, &mut outputs) && are_alike(&outputs, alone, want))
}

#[test]
fn many_workers(rt: HostRuntime) -> Result<(), Memory> {
    let alloc = rt.alloc();
    let mut set = members(5);
    let mut inbound = Inbound::new(alloc)?;
    let mut worker = Worker::new(alloc, 0, 1)?;
    let mut alone = Outputs::new(alloc)?;
    let first = octets(&rt, alloc, FIRST);
    let Ok(plain) = opened(&mut inbound, &set, ANN, &first) else {
        panic!(&rt; "the first packet opens");
    };
    assert!(rt; forward(&mut worker, &set, &plain, &KEPT, 0, &mut alone));
    assert!(rt; are_alike(&alone, &alone, &[2, 3, 4, 5]));
    assert!(rt; shares(alloc, &set, &plain, (0, 3), &alone, &[4])?);
    assert!(rt; shares(alloc, &set, &plain, (1, 3), &alone, &[2, 5])?);
    assert!(rt; shares(alloc, &set, &plain, (2, 3), &alone, &[3])?);
    set.absorb(&Op::Remove(association(BOB)));
    assert!(rt; shares(alloc, &set, &plain, (0, 1), &alone, &[3, 4, 5])?);
    Ok(())
}

// Seals a packet of so many zeros in a stream of a member, with a short field behind it, and answers how many octets that are.
pub(crate) fn seal(number: u8, seq: u16, ssrc: u32, body: usize, octets: &mut [u8; 1500]) -> usize
    requires { body ≤ 1470 }
    ensures { result ≤ 1500 }
{
    let keys = Keys::new(&entry(number).client, Kind::Srtp);
    octets.fill(0);
    octets[..2].copy_from_slice(&[0x80, 96]);
    BigEndian::write_u16(&mut octets[2..], seq);
    BigEndian::write_u32(&mut octets[8..], ssrc);
    let len = body + 13;
    if RtpHead::read(&octets[..len]).is_err() {
        return 0;
    }
    seal_at(&keys, u64::from(seq), octets, len) + 1
}

// Opens a packet that a member sealed, and forwards it.
fn relay(
    site: &mut Site,
    number: u8,
    ssrc: u32,
    body: usize,
    change: &Change<'_>,
) -> Result<bool, InboundFault>
    requires { body ≤ 1470 }
{
    let mut octets = [0; 1500];
    let len = seal(number, 7, ssrc, body, &mut octets);
    let plain = opened(&mut site.inbound, &site.set, number, &octets[..len])?;
    Ok(forward(
        &mut site.worker,
        &site.set,
        &plain,
        change,
        0,
        &mut site.outputs,
    ))
}

// For whom an output is, and why it is dropped, if it is.
fn fate(output: &Output) -> ([u8; 16], Option<ForwardFault>) {
    match output {
        Output::Sealed { to, .. } => (*to, None),
        Output::Dropped { to, fault, .. } => (*to, Some(*fault)),
    }
}

fn are_fated(outputs: &Outputs, want: &[(u8, Option<ForwardFault>)]) -> bool {
    if outputs.len() != want.len() {
        return false;
    }
    for i in 0..want.len() {
        if fate(outputs.at(i)) != (association(want[i].0), want[i].1) {
            return false;
        }
    }
    true
}

// Whether the first packets of 256 streams of Ann go to Bob and Cat.
fn fills(site: &mut Site) -> bool {
    for ssrc in 0..256 {
        let sent = relay(site, ANN, ssrc, 0, &KEPT) == Ok(true)
            && are_fated(&site.outputs, &[(BOB, None), (CAT, None)]);
        if !sent {
            return false;
        }
    }
    true
}

#[test]
fn limits(rt: HostRuntime) -> Result<(), Memory> {
    let mut site = site_of(rt.alloc(), 3)?;
    assert!(rt; fills(&mut site));
    assert_eq!(rt;
        relay(&mut site, ANN, 256, 0, &KEPT),
        Err(InboundFault::Outer(OuterFault::StreamLimit))
    );
    assert_eq!(rt; relay(&mut site, CAT, 256, 0, &KEPT), Ok(true));
    assert!(rt;
        are_fated(
            &site.outputs,
            &[(ANN, None), (BOB, Some(ForwardFault::StreamLimit))]
        )
    );
    assert_eq!(rt; relay(&mut site, CAT, 257, 1470, &ONE_ON), Ok(true));
    assert!(rt;
        are_fated(
            &site.outputs,
            &[
                (ANN, Some(ForwardFault::Room)),
                (BOB, Some(ForwardFault::StreamLimit))
            ]
        )
    );
    Ok(())
}

// Whether all outputs of a packet to so many are sealed.
pub(crate) fn are_sealed(outputs: &Outputs, count: usize) -> bool {
    for i in 0..outputs.len() {
        if fate(outputs.at(i)).1.is_some() {
            return false;
        }
    }
    outputs.len() == count
}

// Whether a packet of 1200 octets goes to all the others, again and again, with another sequence number each time.
fn goes_on(site: &mut Site, times: u16, others: usize) -> bool {
    let mut octets = [0; 1500];
    let len = seal(ANN, 7, 1, 1170, &mut octets);
    let Ok(plain) = opened(&mut site.inbound, &site.set, ANN, &octets[..len]) else {
        return false;
    };
    for shift in 0..times {
        let change = Change { shift, ..KEPT };
        let sent = forward(
            &mut site.worker,
            &site.set,
            &plain,
            &change,
            0,
            &mut site.outputs,
        ) && are_sealed(&site.outputs, others);
        if !sent {
            return false;
        }
    }
    true
}

#[test]
fn to_eight(rt: HostRuntime) -> Result<(), Memory> {
    let mut site = site_of(rt.alloc(), 9)?;
    assert!(rt; goes_on(&mut site, 500, 8));
    Ok(())
}
