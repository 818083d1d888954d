// What is accepted of the adds and removals of a key set.
ghost use Rattle.std.specs.Prelude.{◌≡◌, ◌≢◌, ◌↔◌, ◌++◌, [], ◌∷◌, true, false, IfOk, IsErr, OnOk, OnErr};
ghost use Rattle.perc_keyset.specs.Set.{fold_ops, holds};
ghost use Rattle.perc_keyset.specs.History.{IsHistory, adds};
ghost use Rattle.perc_keyset.specs.Kept.{given_by};
ghost use Rattle.perc_keyset.specs.Accepting as spec;
ghost use Rattle.perc_keyset.specs.Accepting.{add_answer, after_add, is_same, new_entry};

use crate::given::{Gift, earlier, give, take_back};
use crate::set::KeySet;
use crate::{AddFault, Added, Entry, Op, RemoveFault};
use perc_base::Memory;
use perc_kdf::Master;
use perc_tunnel::MediaKeys;
use std::alloc::Global;
use std::collections::BTreeMap;
use std::marker::Model;

// How many adds are accepted in all.
const MOST_ADDS: u32 = 65536;

/// Decides which adds and removals are accepted. No outer pair is given twice, whatever was removed in between. Its value
/// is the accepted adds and removals, the oldest first.
#[derive(Drop)]
pub struct Accepted {
    ops: Vec<Op>,
    /// What they leave.
    set: Box<KeySet>,
    /// How many of them are adds.
    added: u32,
    /// Each pair of those adds, so that whether a pair was given costs one look-up.
    given: BTreeMap<Master, Gift>,
}

impl Model for Accepted {
    ghost use Rattle.std.specs.Prelude.{List};
    ghost use Rattle.perc_keyset.specs.declared.Op.{Op};
    ghost use Rattle.perc_keyset.specs.Kept.{IsKept};

    ghost Value = { List Op };

    ghost view = { λ p. p.ops.items };

    ghost invariant = { λ p. IsKept p.set.value p.ops.items p.added p.given };
}

impl Accepted {
    /// Nothing accepted yet.
    pub fn new(alloc: Global) -> Result<Accepted, Memory>
        ensures { IfOk result (λ p. p ≡ []) }
    {
        Ok(Accepted {
            ops: Vec::new(alloc),
            set: Box::new(alloc, KeySet::empty()).map_err(|_| Memory)?,
            added: 0,
            given: BTreeMap::new(alloc),
        })
    }

    /// The set that the accepted adds and removals leave.
    pub fn held(&self) -> &KeySet
        ensures value { result.now ≡ fold_ops self.now }
        ensures history { IsHistory self.now }
    {
        &*self.set
    }

    /// The accepted adds and removals, the oldest first.
    pub fn ops(&self) -> &[Op]
        ensures { result.now ≡ self.now }
    {
        self.ops.as_slice()
    }

    /// Adds an association with its outer pairs. `Same` where it is held with these very pairs. It is refused where one of
    /// the pairs was given before or both are one, where 64 others are held, behind 65536 adds, and where memory is out;
    /// then all is as it was.
    pub fn add(&mut self, keys: &MediaKeys) -> Result<Added, AddFault>
        ensures answer { result ≢ Err AddFault.Memory → result ≡ add_answer self.old keys.now.association keys.now.client keys.now.server }
        ensures same { is_same self.old keys.now.association keys.now.client keys.now.server ≡ true → result ≡ Ok Added.Same }
        ensures refused { let answer = add_answer self.old keys.now.association keys.now.client keys.now.server in IsErr answer → result ≡ answer }
        ensures after { self.new ≡ after_add self.old keys.now.association keys.now.client keys.now.server result }
    {
        match self.judge(keys)? {
            Added::Same => Ok(Added::Same),
            Added::New => {
                self.accept(keys).map_err(|_| AddFault::Memory)?;
                Ok(Added::New)
            }
        }
    }

    /// Takes an association out. It is refused where it isn't held, and where memory is out; then all is as it was.
    pub fn remove(&mut self, association: &[u8; 16]) -> Result<(), RemoveFault>
        ensures unknown { (result ≡ Err RemoveFault.Unknown) ↔ (holds (fold_ops self.old) association.now ≡ false) }
        ensures removed { OnOk result (self.new ≡ self.old ++ Op.Remove association.now ∷ []) }
        ensures refused { OnErr result (self.new ≡ self.old) }
    {
        if !self.set.holds(association) {
            return Err(RemoveFault::Unknown);
        }
        let op = Op::Remove(*association);
        if append(&mut self.ops, op).is_err() {
            return Err(RemoveFault::Memory);
        }
        self.set.absorb(&op);
        Ok(())
    }

    // What is answered, but for want of memory.
    fn judge(&self, keys: &MediaKeys) -> Result<Added, AddFault>
        ensures { result ≡ add_answer self.now keys.now.association keys.now.client keys.now.server }
    {
        if self.is_same(keys) {
            return Ok(Added::Same);
        }
        if let Some(association) = self.reused_by(keys) {
            return Err(AddFault::KeyReused(association));
        }
        if self.set.is_full_beside(&keys.association) {
            return Err(AddFault::SetFull);
        }
        if self.added >= MOST_ADDS {
            return Err(AddFault::AddsSpent);
        }
        Ok(Added::New)
    }

    // Whether the association is held with these very pairs.
    fn is_same(&self, keys: &MediaKeys) -> bool
        ensures { result ≡ is_same self.now keys.now.association keys.now.client keys.now.server }
    {
        match self.set.entry_of(&keys.association) {
            Some(entry) => entry.client == keys.client && entry.server == keys.server,
            None => false,
        }
    }

    // The association whose pair would be used again.
    #[tactic(auto, using(crate::proofs::KeptLaws::reused_by_gifts))]
    fn reused_by(&self, keys: &MediaKeys) -> Option<[u8; 16]>
        ensures { result ≡ spec.reused_by (adds self.now) keys.now.association keys.now.client keys.now.server }
    {
        if let Some(gift) = earlier(self.gift(&keys.client), self.gift(&keys.server)) {
            return Some(gift.association);
        }
        if keys.client == keys.server {
            return Some(keys.association);
        }
        None
    }

    // The add that gave this pair.
    fn gift(&self, pair: &Master) -> Option<Gift>
        ensures value { result ≡ given_by (adds self.now) pair.now }
        ensures history { IsHistory self.now }
    {
        self.given.get(pair).copied()
    }

    // The entry that an accepted add makes.
    fn new_entry(&self, keys: &MediaKeys) -> Entry
        ensures { result ≡ new_entry self.now keys.now.association keys.now.client keys.now.server }
    {
        Entry {
            association: keys.association,
            serial: self.added,
            client: keys.client,
            server: keys.server,
        }
    }

    // Takes up an add that may be accepted.
    fn accept(&mut self, keys: &MediaKeys) -> Result<(), Memory>
        requires { add_answer self.old keys.now.association keys.now.client keys.now.server ≡ Ok Added.New }
        ensures added { OnOk result (self.new ≡ after_add self.old keys.now.association keys.now.client keys.now.server (Ok Added.New)) }
        ensures refused { OnErr result (self.new ≡ self.old) }
    {
        let entry = self.new_entry(keys);
        give(&mut self.given, &entry)?;
        if append(&mut self.ops, Op::Add(entry)).is_err() {
            take_back(&mut self.given, &entry);
            return Err(Memory);
        }
        self.set.absorb(&Op::Add(entry));
        self.added += 1;
        Ok(())
    }
}

fn append(ops: &mut Vec<Op>, op: Op) -> Result<(), Memory>
    ensures appended { OnOk result (ops.new.items ≡ ops.old.items ++ op ∷ []) }
    ensures refused { OnErr result (ops.new.items ≡ ops.old.items) }
{
    ops.push(op).map_err(|_| Memory)
}
