// The associations held, with their outer keys.
ghost use Rattle.std.specs.Prelude.{◌≡◌, ◌<◌, ◌≤◌, [], length, nat_le};
ghost use Rattle.std.specs.List.{slice_get};
ghost use Rattle.std.specs.Option.{option_map};
ghost use Rattle.perc_keyset.specs.Set.{absorbed, entry_of, holds, most_entries, without};

use crate::{Entry, Op};
use arrayvec::ArrayVec;
use perc_kdf::Master;
use std::marker::Model;

// How many associations are held at most.
const MOST_ENTRIES: usize = 64;

/// The associations that a distributor forwards to, each once with its outer keys, in the order of adding. It has room
/// for 64 and takes no memory.
#[derive(Drop)]
pub struct KeySet {
    slots: ArrayVec<Slot, MOST_ENTRIES>,
}

impl Model for KeySet {
    ghost use Rattle.std.specs.Prelude.{List};
    ghost use Rattle.perc_keyset.specs.declared.Entry.{Entry};

    ghost Value = { List Entry };

    ghost view = { λ s. s.slots.items };
}

impl KeySet {
    /// The set before anything was added.
    pub fn empty() -> KeySet
        ensures { result ≡ [] }
    {
        KeySet {
            slots: ArrayVec::new(),
        }
    }

    /// Adds the entry, in place of an older one of its association, or takes the association's entry out. The entry that
    /// is added stands last. Nothing changes where 64 other associations are held, or where the one to be taken out isn't.
    #[tactic(auto, using(crate::proofs::SetLaws::absorbed_removal))]
    pub fn absorb(&mut self, op: &Op)
        ensures { self.new ≡ absorbed self.old op.now }
    {
        match op {
            Op::Add(entry) => self.put(entry),
            Op::Remove(association) => self.take_out(association),
        }
    }

    /// How many associations are held: at most 64.
    pub fn len(&self) -> usize
        ensures value { result ≡ length self.now }
        ensures few { result ≤ most_entries }
    {
        self.slots.len()
    }

    /// Entry `i`, from 0, in the order of adding.
    pub fn at(&self, i: usize) -> &Entry
        requires { i < length self.now }
        ensures { slice_get self.now i ≡ Some result.now }
    {
        let slot = &self.slots[i];
        &slot.entry
    }

    // Whether 64 others are held beside this association.
    #[tactic(auto, using(crate::proofs::SetLaws::full_beside, crate::proofs::SetLaws::room_beside))]
    pub(crate) fn is_full_beside(&self, association: &[u8; 16]) -> bool
        ensures { result ≡ nat_le most_entries (length (without association.now self.now)) }
    {
        self.slots.is_full() && !self.holds(association)
    }

    pub(crate) fn holds(&self, association: &[u8; 16]) -> bool
        ensures { result ≡ holds self.now association.now }
    {
        self.slots
            .iter()
            .any(|slot| slot.entry.association == *association)
    }

    // The entry of this association.
    pub(crate) fn entry_of(&self, association: &[u8; 16]) -> Option<&Entry>
        ensures { option_map (λ e. e.now) result ≡ entry_of self.now association.now }
    {
        let slot = self.slot_of(association)?;
        Some(&slot.entry)
    }

    fn slot_of(&self, association: &[u8; 16]) -> Option<&Slot>
        ensures { option_map (λ slot. slot.now) result ≡ entry_of self.now association.now }
    {
        self.slots
            .iter()
            .find(|slot| slot.entry.association == *association)
    }

    #[tactic(auto, using(crate::proofs::SetLaws::absorbed_fits, crate::proofs::SetLaws::absorbed_full))]
    fn put(&mut self, entry: &Entry)
        ensures { self.new ≡ absorbed self.old (Op.Add entry.now) }
    {
        if !self.is_full_beside(&entry.association) {
            self.take_out(&entry.association);
            self.slots.push(Slot { entry: *entry });
        }
    }

    fn take_out(&mut self, association: &[u8; 16])
        ensures { self.new ≡ without association.now self.old }
    {
        self.slots
            .retain(|slot| slot.entry.association != *association);
    }
}

// A place of the set.
#[derive(Clone, Copy)]
struct Slot {
    entry: Entry,
}

impl Model for Slot {
    ghost use Rattle.perc_keyset.specs.declared.Entry.{Entry};

    ghost Value = { Entry };

    ghost view = { λ s. s.entry };

    ghost inverse = { λ e. record { entry = e } };
}

// What stands in the places that hold no entry yet.
impl Default for Slot {
    fn default() -> Slot {
        let no_keys = Master::new(&[0; 16], &[0; 12]).unwrap();
        Slot {
            entry: Entry {
                association: [0; 16],
                serial: 0,
                client: no_keys,
                server: no_keys,
            },
        }
    }
}
