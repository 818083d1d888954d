// Workers that forward beside one another.
ghost use Rattle.std.specs.Prelude.{◌≤◌, List, length};
ghost use Rattle.perc_ohb.specs.Rewriting.{IsRewrite, rewrite_of};
ghost use Rattle.perc_distributor.specs.Inbound.{Packet};
ghost use Rattle.perc_distributor.specs.Kept.{ArePlain};
ghost use Rattle.perc_published.specs.Calls.{Call};
ghost use Rattle.perc_stations.specs.Stations.{AreStations, HasForwarded, HaveForwarded};

use crate::Gate;
use perc_distributor::{Outputs, Plain, Worker};
use perc_ohb::Change;
use perc_published::SetReader;
use std::sync::Wait;
use std::thread;
use std::thread::Threads;

/// A worker of a distributor, with a reader of the published key sets and room for its outputs.
#[derive(Drop)]
pub struct Station {
    /// Seals what goes to the entries that it owns.
    pub worker: Worker,
    /// Reads the set that the worker forwards with.
    pub reader: SetReader,
    /// What the worker made of the last batch.
    pub out: Outputs,
}

impl Station {
    // Enters its reader, passes the gate, and forwards with the set that it entered.
    fn forward<R: Wait, G: Gate>(
        &mut self,
        rt: &R,
        number: usize,
        batch: &[Plain],
        change: &Change<'_>,
        gate: &G,
    )
        requires few { length batch.now ≤ 32 }
        requires change { IsRewrite (rewrite_of change.now) }
        requires plain { (packets : List Packet) × ArePlain batch.now packets }
        ensures { HasForwarded batch.now (rewrite_of change.now) self.old self.new }
    {
        let Station {
            worker,
            reader,
            out,
        } = self;
        let entered = reader.enter(rt);
        gate.pass(number);
        worker.forward(entered.set(), batch, change, None, out);
    }
}

/// Forwards a batch by all stations beside one another, each in a thread of its own where one can be made. Each enters its reader
/// once, passes the gate with its worker's number, and forwards with the set that it entered what its worker owns, with the change.
/// The batch has at most 32 packets. The stations are the workers from 0 on of so many, and their readers are of one call of
/// `key_sets`. It takes no memory, and may wait for a publisher to end its step.
pub fn forward_batch<R: Threads + Wait + Sync, G: Gate>(
    rt: &R,
    stations: &mut [Station],
    batch: &[Plain],
    change: &Change<'_>,
    gate: &G,
)
    requires few { length batch.now ≤ 32 }
    requires change { IsRewrite (rewrite_of change.now) }
    requires plain { (packets : List Packet) × ArePlain batch.now packets }
    requires stations { (call : Call) × AreStations call stations.old }
    ensures forwarded { HaveForwarded batch.now (rewrite_of change.now) stations.old stations.new }
    ensures stations { (call : Call) → AreStations call stations.old → AreStations call stations.new }
{
    let threads = stations.len().max(1);
    let each = |number: usize, station: &mut Station|
        requires { (length batch.now ≤ 32) × IsRewrite (rewrite_of change.now) × ((packets : List Packet) × ArePlain batch.now packets) }
        ensures { HasForwarded batch.entry.now (rewrite_of change.entry.now) station.entry.now station.exit.now }
    { station.forward(rt, number, batch, change, gate) };
    thread::for_each_mut(rt, stations, threads, &each);
}
