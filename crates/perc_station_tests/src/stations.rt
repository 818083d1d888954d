// Stations beside one another, over published key sets.
ghost use Rattle.std.specs.Prelude.{◌≡◌, ℕ, ◌<◌, ◌≤◌, IfOk, IsErr, length, replicate, slice_index_or};
ghost use Rattle.perc_distributor.specs.Inbound.{Packet};
ghost use Rattle.perc_distributor.specs.Kept.{IsPlain};
ghost use Rattle.perc_published.specs.Calls.{Call, new_reader};
ghost use Rattle.perc_station_tests.specs.Batches.{IsBatch, IsHall};

use crate::distributor::{are_alike, are_sealed, seal};
use crate::members::{ANN, BOB, FIRST, KEPT, association, entry, members, octets, opened};
use perc_base::{Memory, Profile};
use perc_distributor::{Inbound, Outputs, Plain, Worker};
use perc_keyset::Added;
use perc_ohb::Change;
use perc_published::{Note, Publisher, SetReader, key_sets};
use perc_stations::{Gate, OpenGate, Station, forward_batch};
use perc_tunnel::MediaKeys;
use std::alloc::Global;
use std::process::Abort;
use std::sync::Wait;
use std::sync::atomic::AtomicUsize;
use std::sync::atomic::Ordering::SeqCst;
use std::thread::{Threads, join};

// Stations with the readers of one call, and how many they are.
#[derive(Drop)]
struct Hall {
    count: usize,
    stations: Vec<Station>,
}

fn keys(number: u8) -> MediaKeys {
    let entry = entry(number);
    let association = entry.association;
    MediaKeys {
        association,
        profile: Profile::Aes128,
        client: entry.client,
        server: entry.server,
    }
}

fn add(rt: &impl Abort, publisher: &mut Publisher, number: u8)
    ensures { publisher.new.call ≡ publisher.old.call }
{
    assert_eq!(rt; publisher.add(&keys(number)), Ok(Added::New));
}

fn remove(rt: &impl Abort, publisher: &mut Publisher, number: u8)
    ensures { publisher.new.call ≡ publisher.old.call }
{
    assert_eq!(rt; publisher.remove(&association(number)), Ok(()));
}

// Publishes the keys of so many members.
fn publish_members<R: Wait + Abort>(rt: &R, publisher: &mut Publisher, count: u8)
    ensures { publisher.new.call ≡ publisher.old.call }
{
    for number in 0..count {
        add(rt, publisher, number.wrapping_add(1));
    }
    publisher.publish(rt);
}

// A station for each of so many readers of one call.
fn stations_of(alloc: Global, readers: Vec<SetReader>, count: usize) -> Result<Vec<Station>, Memory>
    requires few { count ≤ 16 }
    requires readers { (call : Call) × (readers.items ≡ replicate count (new_reader call)) }
    ensures { (call : Call) → readers.items ≡ replicate count (new_reader call) → IfOk result (λ v. IsHall count call v.items) }
{
    let mut stations = Vec::new(alloc);
    for reader in readers {
        let number = stations.len();
        if number >= count {
            return Err(Memory);
        }
        let worker = Worker::new(alloc, number, count)?;
        let out = Outputs::new(alloc)?;
        let station = Station {
            worker,
            reader,
            out,
        };
        let Ok(()) = stations.push(station) else {
            return Err(Memory);
        };
    }
    Ok(stations)
}

// A publisher of the keys of so many members, and so many stations that read them.
fn hall_of<R: Wait + Abort>(
    rt: &R,
    alloc: Global,
    count: usize,
    members: u8,
) -> Result<(Publisher, Hall), Memory>
    requires { (1 ≤ count) × (count ≤ 16) }
    ensures count { IfOk result (λ made. made.1.count ≡ count) }
    ensures hall { IfOk result (λ made. IsHall made.1.count made.0.call made.1.stations.items) }
{
    let (mut publisher, readers) = key_sets(alloc, count)?;
    publish_members(rt, &mut publisher, members);
    let stations = stations_of(alloc, readers, count)?;
    Ok((publisher, Hall { count, stations }))
}

// What Ann's first packet is to a distributor of so many members.
fn first(rt: &impl Abort, alloc: Global, count: u8) -> Result<Plain, Memory>
    ensures { IfOk result (λ plain. (packet : Packet) × IsPlain plain packet) }
{
    let mut inbound = Inbound::new(alloc)?;
    let datagram = octets(rt, alloc, FIRST);
    opened(&mut inbound, &members(count), ANN, &datagram).map_err(|_| Memory)
}

// All stations forward one packet.
fn forward<R: Threads + Wait + Sync, G: Gate>(rt: &R, hall: &mut Hall, plain: &Plain, gate: &G)
    requires plain { (packet : Packet) × IsPlain plain.now packet }
    requires hall { (call : Call) × IsHall hall.old.count call hall.old.stations.items }
    ensures count { hall.new.count ≡ hall.old.count }
    ensures hall { (call : Call) → IsHall hall.old.count call hall.old.stations.items → IsHall hall.new.count call hall.new.stations.items }
{
    forward_batch(rt, &mut hall.stations, &[*plain], &KEPT, gate);
}

// The one station learns of all that is published.
fn learn<R: Wait>(rt: &R, publisher: &mut Publisher, hall: &mut Hall)
    requires one { hall.old.count ≡ 1 }
    requires hall { IsHall hall.old.count publisher.old.call hall.old.stations.items }
    ensures count { hall.new.count ≡ hall.old.count }
    ensures hall { IsHall hall.new.count publisher.new.call hall.new.stations.items }
{
    publisher.publish(rt);
    let mut note = publisher.tell();
    hall.stations[0].reader.learn(&mut note);
}

#[test]
fn one_station(rt: HostRuntime) -> Result<(), Memory> {
    let plain = first(&rt, rt.alloc(), 2)?;
    let (mut publisher, mut hall) = hall_of(&rt, rt.alloc(), 1, 2)?;
    learn(&rt, &mut publisher, &mut hall);
    forward(&rt, &mut hall, &plain, &OpenGate);
    assert!(&rt; have_made(&hall, &hall, &[&[BOB]]));

    // What is told of a removal is seen.
    remove(&rt, &mut publisher, BOB);
    learn(&rt, &mut publisher, &mut hall);
    forward(&rt, &mut hall, &plain, &OpenGate);
    assert!(rt; have_made(&hall, &hall, &[&[]]));
    Ok(())
}

// Whether stations made these outputs, each like the one of the first station among others.
fn have_made(hall: &Hall, other: &Hall, shares: &[&[u8]]) -> bool {
    if hall.stations.len() != shares.len() || other.stations.is_empty() {
        return false;
    }
    let alone = &other.stations[0].out;
    for i in 0..shares.len() {
        if !are_alike(&hall.stations[i].out, alone, shares[i]) {
            return false;
        }
    }
    true
}

#[test]
fn three_stations(rt: HostRuntime) -> Result<(), Memory> {
    let plain = first(&rt, rt.alloc(), 5)?;
    let (_, mut one) = hall_of(&rt, rt.alloc(), 1, 5)?;
    let (_, mut three) = hall_of(&rt, rt.alloc(), 3, 5)?;
    forward(&rt, &mut one, &plain, &OpenGate);
    forward(&rt, &mut three, &plain, &OpenGate);
    assert!(rt; have_made(&one, &one, &[&[2, 3, 4, 5]]));
    assert!(rt; have_made(&three, &one, &[&[4], &[2, 5], &[3]]));
    Ok(())
}

// A gate where two stations meet. Each tells that it came, and looks for the other.
#[derive(Drop)]
struct Meeting {
    came: [AtomicUsize; 2],
    met: AtomicUsize,
}

impl Gate for Meeting {
    fn pass(&self, worker: usize) {
        if worker >= 2 {
            return;
        }
        self.came[worker].store(1, SeqCst);
        for _ in 0..100_000_000 {
            if self.came[1 - worker].load(SeqCst) == 1 {
                self.met.fetch_add(1, SeqCst);
                return;
            }
        }
    }
}

#[test]
fn two_stations_meet(rt: HostRuntime) -> Result<(), Memory> {
    let plain = first(&rt, rt.alloc(), 2)?;
    let (_, mut hall) = hall_of(&rt, rt.alloc(), 2, 2)?;
    let gate = Meeting {
        came: [AtomicUsize::new(0), AtomicUsize::new(0)],
        met: AtomicUsize::new(0),
    };
    forward(&rt, &mut hall, &plain, &gate);
    assert_eq!(rt; gate.met.load(SeqCst), 2);
    Ok(())
}

// Ann's 32 packets of 1200 octets from sequence number 0 on, as a distributor takes them.
fn video(alloc: Global) -> Result<Vec<Plain>, Memory>
    ensures { IfOk result (λ batch. IsBatch batch.items) }
{
    let set = members(33);
    let mut inbound = Inbound::new(alloc)?;
    let mut batch = Vec::new(alloc);
    for seq in 0..32 {
        let mut octets = [0; 1500];
        let len = seal(ANN, seq, 1, 1170, &mut octets);
        let Ok(plain) = opened(&mut inbound, &set, ANN, &octets[..len]) else {
            return Err(Memory);
        };
        let Ok(()) = batch.push(plain) else {
            return Err(Memory);
        };
    }
    Ok(batch)
}

// Stations send a batch on again and again, with other sequence numbers each time.
fn goes_on<R: Threads + Wait + Sync>(rt: &R, hall: &mut Hall, batch: &[Plain], times: u16)
    requires batch { IsBatch batch.now }
    requires hall { (call : Call) × IsHall hall.old.count call hall.old.stations.items }
{
    for i in 0..times {
        let change = Change {
            shift: i.wrapping_mul(32),
            ..KEPT
        };
        forward_batch(rt, &mut hall.stations, batch, &change, &OpenGate);
    }
}

// Whether stations sealed so many outputs in all, and dropped none.
fn have_sealed(stations: &[Station], count: usize) -> bool {
    let mut sealed = 0;
    for station in stations {
        let out = &station.out;
        if !are_sealed(out, out.len()) {
            return false;
        }
        sealed = out.len().saturating_add(sealed);
    }
    sealed == count
}

// So many stations send 32 packets on to 32 others, again and again.
fn to_all<R: Threads + Wait + Sync + Abort>(
    rt: &R,
    alloc: Global,
    count: usize,
    times: u16,
) -> Result<(), Memory>
    requires { (1 ≤ count) × (count ≤ 16) }
{
    let batch = video(alloc)?;
    let (_, mut hall) = hall_of(rt, alloc, count, 33)?;
    goes_on(rt, &mut hall, &batch, times);
    assert!(rt; have_sealed(&hall.stations, 1024));
    Ok(())
}

#[test]
fn once_by_one(rt: HostRuntime) -> Result<(), Memory> {
    to_all(&rt, rt.alloc(), 1, 1)
}

#[test]
fn once_by_two(rt: HostRuntime) -> Result<(), Memory> {
    to_all(&rt, rt.alloc(), 2, 1)
}

#[test]
fn once_by_three(rt: HostRuntime) -> Result<(), Memory> {
    to_all(&rt, rt.alloc(), 3, 1)
}

#[test]
fn once_by_four(rt: HostRuntime) -> Result<(), Memory> {
    to_all(&rt, rt.alloc(), 4, 1)
}

#[test]
fn often_by_one(rt: HostRuntime) -> Result<(), Memory> {
    to_all(&rt, rt.alloc(), 1, 4)
}

#[test]
fn often_by_two(rt: HostRuntime) -> Result<(), Memory> {
    to_all(&rt, rt.alloc(), 2, 4)
}

#[test]
fn often_by_three(rt: HostRuntime) -> Result<(), Memory> {
    to_all(&rt, rt.alloc(), 3, 4)
}

#[test]
fn often_by_four(rt: HostRuntime) -> Result<(), Memory> {
    to_all(&rt, rt.alloc(), 4, 4)
}

// Publishes again and again.
fn publish_on<R: Wait + Abort>(rt: &R, publisher: &mut Publisher, times: usize) {
    for _ in 0..times {
        publisher.publish(rt);
    }
}

#[test]
fn often_beside_a_publisher(rt: HostRuntime) -> Result<(), Memory> {
    let batch = video(rt.alloc())?;
    let (mut publisher, mut hall) = hall_of(&rt, rt.alloc(), 4, 33)?;
    join(
        &rt,
        ||
            requires { IsBatch batch.items × ((call : Call) × IsHall hall.count call hall.stations.items) }
        { goes_on(&rt, &mut hall, &batch, 4) },
        || publish_on(&rt, &mut publisher, 100),
    );
    assert!(rt; have_sealed(&hall.stations, 1024));
    Ok(())
}
