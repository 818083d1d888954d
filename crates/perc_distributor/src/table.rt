// What a worker keeps of all serials.
ghost use Rattle.std.specs.Prelude.{◌≡◌, ◌++◌, ◌∷◌, [], map, replicate, position, IfOk, OnOk, None, true};
ghost use Rattle.std.specs.List.{list_any};
ghost use Rattle.perc_ohb.specs.Rewriting.{IsRewrite, rewrite_of};
ghost use Rattle.perc_distributor.specs.Inbound.{Packet};
ghost use Rattle.perc_distributor.specs.Kept.{IsPlain, IsWhole, holds, kept_of};
ghost use Rattle.perc_distributor.specs.Rooms.{free_place, is_free, staying};
ghost use Rattle.perc_distributor.specs.Tables.{HasRoomFor, IsPlaceOf, OnlyOf, SendsOne, StandsStill, StaysOnlyOf, most_serials};

use crate::slot::Slot;
use crate::{Output, Plain};
use perc_base::Memory;
use perc_keyset::{Entry, KeySet};
use perc_ohb::Change;
use std::alloc::Global;
use std::marker::Model;

// How many serials have a place.
const MOST_SERIALS: usize = 64;

/// The places of 64 serials at most. All memory is taken when it is made.
#[derive(Drop)]
pub(crate) struct Table {
    slots: Vec<Slot>,
}

impl Model for Table {
    ghost use Rattle.std.specs.Prelude.{List};
    ghost use Rattle.perc_distributor.specs.Kept.{Kept};
    ghost use Rattle.perc_distributor.specs.Tables.{IsTable};

    ghost Value = { List Kept };

    ghost view = { λ t. t.slots.items };

    ghost invariant = { λ t. IsTable t.slots.items };
}

impl Table {
    /// All places are free.
    pub(crate) fn with_room(alloc: Global) -> Result<Table, Memory>
        ensures { IfOk result (λ table. table ≡ replicate most_serials free_place) }
    {
        let Ok(mut slots) = Vec::with_capacity(alloc, MOST_SERIALS) else {
            return Err(Memory);
        };
        for _ in 0..MOST_SERIALS {
            let slot = Slot::with_room(alloc)?;
            put(&mut slots, slot)?;
        }
        Ok(Table { slots })
    }

    /// Frees the places of serials that aren't in the set.
    pub(crate) fn keep_set(&mut self, set: &KeySet)
        ensures staying { self.new ≡ map (staying set.now) self.old }
        ensures only { OnlyOf set.now self.new }
    {
        stay(&mut self.slots, set);
    }

    /// Seals a packet for an entry, whose serial takes a free place where it has none.
    pub(crate) fn send(
        &mut self,
        entry: &Entry,
        place: usize,
        plain: &Plain,
        change: &Change<'_>,
    ) -> Output
        requires room { HasRoomFor entry.now.serial self.old }
        requires change { IsRewrite (rewrite_of change.now) }
        requires plain { (packet : Packet) × IsPlain plain.now packet }
        ensures sent { SendsOne self.old entry.now place plain.now (rewrite_of change.now) result self.new }
        ensures only { StaysOnlyOf entry.now.serial self.old self.new }
        ensures whole { IsWhole result }
    {
        let at = self.place_of(entry.serial);
        self.slots[at].send(entry, place, plain, change)
    }

    // The place of a serial. It takes a free one where it has none.
    fn place_of(&mut self, serial: u32) -> usize
        requires room { HasRoomFor serial self.old }
        ensures place { IsPlaceOf self.new serial result }
        ensures stands { StandsStill self.old self.new }
        ensures only { StaysOnlyOf serial self.old self.new }
    {
        match held_at(&self.slots, serial) {
            Some(at) => at,
            None => self.take_free(serial),
        }
    }

    // Makes a free place that of a serial, and answers it.
    fn take_free(&mut self, serial: u32) -> usize
        requires new { kept_of self.old serial ≡ None }
        requires free { list_any is_free self.old ≡ true }
        ensures place { IsPlaceOf self.new serial result }
        ensures stands { StandsStill self.old self.new }
        ensures only { StaysOnlyOf serial self.old self.new }
    {
        let at = free_at(&self.slots).unwrap();
        self.slots[at].begin(serial);
        at
    }
}

// Appends a place.
fn put(slots: &mut Vec<Slot>, slot: Slot) -> Result<(), Memory>
    ensures { OnOk result (slots.new.items ≡ slots.old.items ++ slot ∷ []) }
{
    if slots.push(slot).is_err() {
        return Err(Memory);
    }
    Ok(())
}

// Frees the places of serials that aren't in the set.
fn stay(slots: &mut Vec<Slot>, set: &KeySet)
    ensures { slots.new.items ≡ map (staying set.now) slots.old.items }
{
    for i in 0..slots.len() {
        slots[i].stay(set);
    }
}

// The first place of a serial.
fn held_at(slots: &[Slot], serial: u32) -> Option<usize>
    ensures { result ≡ position (holds serial) slots.now }
{
    slots.iter().position(|slot| slot.holds(serial))
}

// The first place that is free.
fn free_at(slots: &[Slot]) -> Option<usize>
    ensures { result ≡ position is_free slots.now }
{
    slots.iter().position(|slot| slot.is_free())
}
