// A worker of a distributor.
ghost use Rattle.std.specs.Prelude.{◌≡◌, ℕ, ◌+◌, ◌<◌, ◌≤◌, ◌&&◌, not, List, [], length, IfOk};
ghost use Rattle.std.specs.List.{list_any};
ghost use Rattle.std.specs.Str.{bytes_eq};
ghost use Rattle.perc_ohb.specs.Rewriting.{IsRewrite, rewrite_of};
ghost use Rattle.perc_keyset.specs.Set.{is_of};
ghost use Rattle.perc_distributor.specs.Inbound.{Packet};
ghost use Rattle.perc_distributor.specs.Forwarding as spec;
ghost use Rattle.perc_distributor.specs.Kept.{ArePlain, IsPlain, StandsFor};
ghost use Rattle.perc_distributor.specs.Tables.{Forwards, OnlyOf, SendsBatch, SendsPacket, names};

use crate::table::Table;
use crate::{Outputs, Plain};
use perc_base::Memory;
use perc_keyset::{Entry, KeySet};
use perc_ohb::Change;
use std::alloc::Global;
use std::marker::Model;

/// A worker of a distributor: of each batch it seals what goes to the entries that it owns, whose serial modulo the number of
/// workers is its own. It keeps the streams of 64 serials at most, 256 each, and their RTCP counters. Its value is its number, of
/// how many, and what it keeps.
#[derive(Drop)]
pub struct Worker {
    share: Share,
    table: Table,
}

// A worker's number, of how many.
#[derive(Clone, Copy)]
struct Share {
    number: usize,
    of: usize,
}

impl Model for Worker {
    ghost use Rattle.std.specs.Prelude.{◌<◌};
    ghost use Rattle.perc_distributor.specs.Kept.{Working};

    ghost Value = { Working };

    ghost view = { λ w. record { number = w.share.number; of = w.share.of; kept = w.table } };

    ghost invariant = { λ w. 0 < w.share.of };
}

impl Worker {
    /// Worker `number`, from 0, of so many, which has sealed nothing. It takes all its memory here, some 700 KiB, and no other call
    /// takes any: room for 256 outer streams of 40 octets for each of 64 serials, and for their session keys.
    pub fn new(alloc: Global, number: usize, of: usize) -> Result<Worker, Memory>
        requires number { number < of }
        requires few { of ≤ 16 }
        ensures share { IfOk result (λ worker. (worker.number ≡ number) × (worker.of ≡ of)) }
        ensures nothing { IfOk result (λ worker. StandsFor worker.kept []) }
    {
        let table = Table::with_room(alloc)?;
        Ok(Worker {
            share: Share { number, of },
            table,
        })
    }

    /// Seals the packets of a batch in turn, each for the entries of the set that the worker owns, in the set's order, but not for
    /// its source, and where `only` is given for these associations alone (RFC 8723 section 5.2). A media packet is changed, and
    /// its EKT field stands behind it as it came; a control packet is sealed unchanged. What was in `out` goes first. Where the
    /// batch isn't empty, what is kept of serials that aren't in the set goes too. An output that is dropped keeps nothing of a
    /// new SSRC.
    pub fn forward(
        &mut self,
        set: &KeySet,
        batch: &[Plain],
        change: &Change<'_>,
        only: Option<&[[u8; 16]]>,
        out: &mut Outputs,
    )
        requires few { length batch.now ≤ 32 }
        requires change { IsRewrite (rewrite_of change.now) }
        requires plain { (packets : List Packet) × ArePlain batch.now packets }
        ensures forwarded { Forwards self.old set.now batch.now (rewrite_of change.now) (names only.entry) out.new self.new.kept }
        ensures share { (self.new.number ≡ self.old.number) × (self.new.of ≡ self.old.of) }
    {
        out.clear();
        if batch.is_empty() {
            return;
        }
        self.table.keep_set(set);
        send_batch(&mut self.table, self.share, set, batch, change, only, out);
    }
}

// Appends the outputs of the packets of a batch.
fn send_batch(
    table: &mut Table,
    share: Share,
    set: &KeySet,
    batch: &[Plain],
    change: &Change<'_>,
    only: Option<&[[u8; 16]]>,
    out: &mut Outputs,
)
    requires few { length batch.now ≤ 32 }
    requires empty { out.old ≡ [] }
    requires share { 0 < share.of }
    requires change { IsRewrite (rewrite_of change.now) }
    requires plain { (packets : List Packet) × ArePlain batch.now packets }
    requires only { OnlyOf set.now table.old }
    ensures { SendsBatch table.old share.number share.of set.now batch.now (rewrite_of change.now) (names only.entry) out.old out.new table.new }
{
    for (place, plain) in batch.iter().enumerate() {
        send_packet(table, share, set, place, plain, change, only, out);
    }
}

// Appends the outputs of a packet.
fn send_packet(
    table: &mut Table,
    share: Share,
    set: &KeySet,
    place: usize,
    plain: &Plain,
    change: &Change<'_>,
    only: Option<&[[u8; 16]]>,
    out: &mut Outputs,
)
    requires room { length out.old + 64 ≤ 2048 }
    requires share { 0 < share.of }
    requires change { IsRewrite (rewrite_of change.now) }
    requires plain { (packet : Packet) × IsPlain plain.now packet }
    requires only { OnlyOf set.now table.old }
    ensures sent { SendsPacket table.old share.number share.of set.now place plain.now (rewrite_of change.now) (names only.entry) out.old out.new table.new }
    ensures only { OnlyOf set.now table.new }
    ensures few { length out.new ≤ length out.old + 64 }
{
    for i in 0..set.len() {
        let entry = set.at(i);
        if is_recipient(share, entry, plain, only) {
            out.push(table.send(entry, place, plain, change));
        }
    }
}

// Whether a packet goes to an entry.
fn is_recipient(share: Share, entry: &Entry, plain: &Plain, only: Option<&[[u8; 16]]>) -> bool
    requires { 0 < share.of }
    ensures { result ≡ (spec.is_owned share.number share.of entry.now && not (is_of plain.now.from entry.now) && spec.is_named (names only.entry) entry.now) }
{
    entry.serial as usize % share.of == share.number
        && entry.association != plain.from
        && is_named(only, entry)
}

// Whether an entry is among those that are named, where some are.
fn is_named(only: Option<&[[u8; 16]]>, entry: &Entry) -> bool
    ensures { result ≡ spec.is_named (names only.entry) entry.now }
{
    match only {
        Some(only) => is_among(only, entry),
        None => true,
    }
}

// Whether an entry is of one of these associations.
fn is_among(associations: &[[u8; 16]], entry: &Entry) -> bool
    ensures { result ≡ list_any (bytes_eq entry.now.association) associations.now }
{
    associations
        .iter()
        .any(|association| entry.association == *association)
}
