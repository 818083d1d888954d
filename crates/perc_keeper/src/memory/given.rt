// The outer pairs that were ever given.
ghost use Rattle.std.specs.Prelude.{◌≡◌, false, [], ◌∷◌, ◌++◌, OnOk, OnErr};
ghost use Rattle.std.specs.BTreeSet as set;
ghost use Rattle.perc_kdf.specs.Order.{same_pair};
ghost use Rattle.perc_keeper.specs.Lists.{was_given};

use perc_base::Memory;
use perc_kdf::Master;
use std::alloc::Global;
use std::collections::BTreeSet;
use std::marker::Model;

// Outer pairs, in the order of giving.
#[derive(Drop)]
pub struct Given {
    pairs: Vec<Master>,
    /// The same, so that whether a pair was given costs one look-up.
    found: BTreeSet<Master>,
}

impl Model for Given {
    ghost use Rattle.std.specs.Prelude.{List};
    ghost use Rattle.perc_kdf.specs.Derivation.{KeyAndSalt};
    ghost use Rattle.perc_keeper.specs.Kept.{AreIn};

    ghost Value = { List KeyAndSalt };

    ghost view = { λ g. g.pairs.items };

    ghost invariant = { λ g. AreIn g.pairs.items g.found };
}

impl Given {
    pub fn new(alloc: Global) -> Given
        ensures { result ≡ [] }
    {
        Given {
            pairs: Vec::new(alloc),
            found: BTreeSet::new(alloc),
        }
    }

    pub fn has(&self, pair: &Master) -> bool
        ensures { result ≡ was_given self.now pair.now }
    {
        self.found.contains(pair)
    }

    // Gives two pairs, of which the client's wasn't given before.
    pub fn give(&mut self, client: &Master, server: &Master) -> Result<(), Memory>
        requires { was_given self.old client.now ≡ false }
        ensures given { OnOk result (self.new ≡ self.old ++ client.now ∷ server.now ∷ []) }
        ensures refused { OnErr result (self.new ≡ self.old) }
    {
        if self.pairs.reserve(2).is_err() {
            return Err(Memory);
        }
        if self.found.insert(*client).is_err() {
            return Err(Memory);
        }
        if self.found.insert(*server).is_err() {
            self.found.remove(client);
            return Err(Memory);
        }
        self.pairs.push_reserved(*client);
        self.pairs.push_reserved(*server);
        Ok(())
    }
}
