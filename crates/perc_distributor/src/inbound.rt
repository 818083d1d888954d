// The opening side of a distributor.
ghost use Rattle.std.specs.Prelude.{◌≡◌, ◌≤◌, ◌++◌, ◌∷◌, [], map, length, position, None, true, IfOk, OnOk};
ghost use Rattle.std.specs.Option.{option_map};
ghost use Rattle.perc_rtp.specs.Carried.{kind_of};
ghost use Rattle.perc_keyset.specs.Set as sets;
ghost use Rattle.perc_distributor.specs.Inbound.{in_set};
ghost use Rattle.perc_distributor.specs.Kept.{holds, kept_of};
ghost use Rattle.perc_distributor.specs.Rooms.{is_free, staying};
ghost use Rattle.perc_distributor.specs.Hearing as spec;
ghost use Rattle.perc_distributor.specs.Hearing.{HasHeardAt, Hears, HearsStill, IsFreeFor, IsPlaceFor, IsSettled, IsSomePlain, Takes, TakesFrom};

use crate::origin::Origin;
use crate::{InboundFault, Plain};
use perc_base::Memory;
use perc_keyset::{Entry, KeySet};
use perc_outer::OuterFault;
use perc_rtp::{Carried, kind};
use std::alloc::Global;
use std::marker::Model;

// How many places there are: one for each serial of a set, and one in which a packet of another serial is tried.
const PLACES: usize = 65;

/// The opening side of a distributor. It keeps the streams of 64 serials at most, 256 each, and their RTCP indices. Its value is
/// what it keeps.
#[derive(Drop)]
pub struct Inbound {
    origins: Vec<Origin>,
}

impl Model for Inbound {
    ghost use Rattle.std.specs.Prelude.{List};
    ghost use Rattle.perc_distributor.specs.Hearing.{AreOrigins, Origin};

    ghost Value = { List Origin };

    ghost view = { λ s. s.origins.items };

    ghost invariant = { λ s. AreOrigins s.origins.items };
}

impl Inbound {
    /// Has opened nothing. It takes all its memory here, some 690 KiB, and no other call takes any: room for 256 outer streams of 40
    /// octets for each of 65 serials, one more than a set has, and for their session keys.
    pub fn new(alloc: Global) -> Result<Inbound, Memory>
        ensures { IfOk result (λ inbound. Hears inbound []) }
    {
        let Ok(mut origins) = Vec::with_capacity(alloc, PLACES) else {
            return Err(Memory);
        };
        for _ in 0..PLACES {
            let origin = Origin::with_room(alloc)?;
            put(&mut origins, origin)?;
        }
        Ok(Inbound { origins })
    }

    /// Opens a datagram of at most 1500 octets that came from an association, under the client pair of its entry in the set and in
    /// the streams of its serial, into `out`: RTP hop by hop, up to its block of originals (RFC 8723 section 5.3) and with its EKT
    /// field (RFC 8870 section 4.3) behind it, or RTCP (RFC 7714 section 9). Once a tag has verified, what is kept of serials that
    /// aren't in the set goes, and the index is accepted; after `Ohb` too. After any other refusal all is as it was. What `out`
    /// holds after a refusal isn't specified.
    pub fn take(
        &mut self,
        set: &KeySet,
        from: &[u8; 16],
        datagram: &[u8],
        out: &mut Plain,
    ) -> Result<(), InboundFault>
        requires few { length datagram.now ≤ 1500 }
        ensures plain { IsSomePlain result out.new }
        ensures taken { Takes self.old set.now from.now datagram.now result out.new self.new }
    {
        let Some(rtcp) = is_control(datagram) else {
            return Err(InboundFault::NotMedia);
        };
        let Some(entry) = entry_of(set, from) else {
            return Err(InboundFault::NoAssociation);
        };
        self.take_from(set, entry, rtcp, datagram, out)
    }

    // Opens an RTP or RTCP packet of an entry of the set.
    fn take_from(
        &mut self,
        set: &KeySet,
        entry: &Entry,
        rtcp: bool,
        datagram: &[u8],
        out: &mut Plain,
    ) -> Result<(), InboundFault>
        requires few { length datagram.now ≤ 1500 }
        requires set { length set.now ≤ 64 }
        requires member { in_set set.now entry.now.serial ≡ true }
        ensures plain { IsSomePlain result out.new }
        ensures taken { TakesFrom self.old set.now entry.now rtcp datagram.now result out.new self.new }
    {
        let at = self.place_for(entry.serial);
        let taken = self.origins[at].take(entry, rtcp, datagram, out);
        if is_verified(&taken) {
            self.settle(set, at, entry.serial);
        }
        taken
    }

    // The place for a serial.
    fn place_for(&mut self, serial: u32) -> usize
        ensures place { IsPlaceFor self.new serial result }
        ensures stands { HearsStill self.old self.new }
        ensures heard { HasHeardAt self.new serial result }
    {
        match held_at(&self.origins, serial) {
            Some(at) => at,
            None => self.clear_free(serial),
        }
    }

    // Clears a free place, and answers it.
    fn clear_free(&mut self, serial: u32) -> usize
        requires none { kept_of self.old serial ≡ None }
        ensures place { IsFreeFor self.new serial result }
        ensures stands { HearsStill self.old self.new }
        ensures heard { HasHeardAt self.new serial result }
    {
        let at = free_at(&self.origins).unwrap();
        self.origins[at].clear();
        at
    }

    // Makes what is in a place what came from a serial of the set, and lets go what is kept of serials that aren't in it.
    fn settle(&mut self, set: &KeySet, at: usize, serial: u32)
        requires set { length set.now ≤ 64 }
        requires member { in_set set.now serial ≡ true }
        requires place { IsPlaceFor self.old serial at }
        ensures settled { IsSettled set.now serial self.old at self.new }
    {
        self.origins[at].hold(serial);
        stay(&mut self.origins, set);
    }
}

// Appends a place.
fn put(origins: &mut Vec<Origin>, origin: Origin) -> Result<(), Memory>
    ensures { OnOk result (origins.new.items ≡ origins.old.items ++ origin ∷ []) }
{
    if origins.push(origin).is_err() {
        return Err(Memory);
    }
    Ok(())
}

// Frees the places of serials that aren't in the set.
fn stay(origins: &mut Vec<Origin>, set: &KeySet)
    ensures { origins.new.items ≡ map (staying set.now) origins.old.items }
{
    for i in 0..origins.len() {
        origins[i].stay(set);
    }
}

// The first place of a serial.
fn held_at(origins: &[Origin], serial: u32) -> Option<usize>
    ensures { result ≡ position (holds serial) origins.now }
{
    origins.iter().position(|origin| origin.holds(serial))
}

// The first place that is free.
fn free_at(origins: &[Origin]) -> Option<usize>
    ensures { result ≡ position is_free origins.now }
{
    origins.iter().position(|origin| origin.is_free())
}

// Whether a datagram is RTCP, where it is RTP or RTCP.
fn is_control(datagram: &[u8]) -> Option<bool>
    ensures { result ≡ spec.is_control (kind_of datagram.now) }
{
    match kind(datagram) {
        Carried::Rtp => Some(false),
        Carried::Rtcp => Some(true),
        Carried::Dtls | Carried::Other => None,
    }
}

// The entry of an association.
fn entry_of<'a>(set: &'a KeySet, association: &[u8; 16]) -> Option<&'a Entry>
    ensures entry { option_map (λ e. e.now) result ≡ sets.entry_of set.now association.now }
    ensures few { length set.now ≤ 64 }
{
    for i in 0..set.len() {
        let entry = set.at(i);
        if entry.association == *association {
            return Some(entry);
        }
    }
    None
}

// Whether a tag has verified, by the answer.
fn is_verified(taken: &Result<(), InboundFault>) -> bool
    ensures { result ≡ spec.is_verified taken.now }
{
    matches!(taken, Ok(()) | Err(InboundFault::Outer(OuterFault::Ohb(_))))
}
