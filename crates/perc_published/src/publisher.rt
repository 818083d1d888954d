// The one that accepts adds and removals, and publishes them.
ghost use Rattle.std.specs.Prelude.{◌≡◌, ◌≢◌, ◌↔◌, ◌≤◌, ◌++◌, [], ◌∷◌, true, false, replicate, IfOk, IsErr, OnOk, OnErr};
ghost use mathlib.Core.List.{IsPrefix};
ghost use Rattle.perc_keyset.specs.declared.Op.TheVariants.{Remove};
ghost use Rattle.perc_keyset.specs.History.{IsHistory};
ghost use Rattle.perc_keyset.specs.Set.{fold_ops, holds};
ghost use Rattle.perc_published.specs.Calls.{accepting, answer_to, behind_add, holds_so, new_reader};

use crate::board::{Board, Comes, Passes, Tells};
use crate::{Note, SetReader};
use perc_base::Memory;
use perc_keyset::{Accepted, AddFault, Added, KeySet, RemoveFault};
use perc_tunnel::MediaKeys;
use std::alloc::Global;
use std::marker::{Brand, Model};
use std::sync::{Arc, Wait};

/// Accepts adds and removals, and publishes all that it accepted, in one step. What it accepted and hasn't published is
/// pending. Its value is the call of `key_sets` that made it, and both lists, the oldest first.
#[derive(Drop)]
pub struct Publisher {
    accepts: Accepted,
    board: Arc<Board>,
    passes: Passes,
}

impl Model for Publisher {
    ghost use Rattle.std.specs.Arc.{arc_value};
    ghost use Rattle.perc_published.specs.Calls.{Publishing};
    ghost use Rattle.perc_published.specs.Kept.{IsPublisher, publishing_of};

    ghost Value = { Publishing };

    ghost view = { λ p. publishing_of (arc_value p.board) p.passes p.accepts };

    ghost invariant = { λ p. IsPublisher (arc_value p.board) p.passes p.accepts };
}

/// A publisher that has accepted nothing, and so many readers of what it will publish, 1 to 17.
pub fn key_sets(alloc: Global, readers: usize) -> Result<(Publisher, Vec<SetReader>), Memory>
    requires { (1 ≤ readers) × (readers ≤ 17) }
    ensures publisher { IfOk result (λ made. (made.0.accepted ≡ []) × (made.0.published ≡ [])) }
    ensures readers { IfOk result (λ made. made.1.items ≡ replicate readers (new_reader made.0.call)) }
{
    let mut publisher = Publisher::new(alloc)?;
    let mut made = Vec::new(alloc);
    for _ in 0..readers {
        let reader = publisher.reader(alloc)?;
        made.push(reader).map_err(|_| Memory)?;
    }
    Ok((publisher, made))
}

impl Publisher {
    fn new(alloc: Global) -> Result<Publisher, Memory>
        ensures { IfOk result (λ p. (p.accepted ≡ []) × (p.published ≡ [])) }
    {
        let accepts = Accepted::new(alloc)?;
        let (board, passes) = Board::new(alloc)?;
        let board = Arc::new(alloc, board).map_err(|_| Memory)?;
        Ok(Publisher {
            accepts,
            board,
            passes,
        })
    }

    // One more reader of what it publishes.
    fn reader(&mut self, alloc: Global) -> Result<SetReader, Memory>
        ensures same { self.new ≡ self.old }
        ensures reader { IfOk result (λ r. r ≡ new_reader self.old.call) }
    {
        let passes = self.board.split::<Comes>(&mut self.passes);
        let board = Arc::try_clone(&self.board).map_err(|_| Memory)?;
        SetReader::new(alloc, board, passes)
    }

    /// The set that the accepted adds and removals leave, those that are pending with them.
    pub fn held(&self) -> &KeySet
        ensures value { result.now ≡ fold_ops self.now.accepted }
        ensures history { IsHistory self.now.accepted }
        ensures published { IsPrefix self.now.published self.now.accepted }
    {
        self.accepts.held()
    }

    /// Adds an association with its outer pairs. `Same` where it is held with these very pairs. It is refused where one of
    /// the pairs was given before or both are one, where 64 others are held, behind 65536 adds, and where memory is out;
    /// then all is as it was. What is accepted is pending.
    pub fn add(&mut self, keys: &MediaKeys) -> Result<Added, AddFault>
        ensures answer { result ≢ Err AddFault.Memory → result ≡ answer_to self.old keys.now }
        ensures same { holds_so self.old keys.now ≡ true → result ≡ Ok Added.Same }
        ensures refused { IsErr (answer_to self.old keys.now) → result ≡ answer_to self.old keys.now }
        ensures after { self.new ≡ behind_add self.old keys.now result }
    {
        self.accepts.add(keys)
    }

    /// Takes an association out. It is refused where it isn't held, what is pending with the rest, and where memory is out;
    /// then all is as it was. What is accepted is pending.
    pub fn remove(&mut self, association: &[u8; 16]) -> Result<(), RemoveFault>
        ensures unknown { (result ≡ Err RemoveFault.Unknown) ↔ (holds (fold_ops self.old.accepted) association.now ≡ false) }
        ensures removed { OnOk result (self.new ≡ accepting self.old (self.old.accepted ++ Remove association.now ∷ [])) }
        ensures refused { OnErr result (self.new ≡ self.old) }
    {
        self.accepts.remove(association)
    }

    /// Publishes all that is pending, in one step. It takes no memory, and may wait for another to end its step.
    pub fn publish<R: Wait>(&mut self, rt: &R)
        ensures { self.new ≡ record { call = self.old.call; accepted = self.old.accepted; published = self.old.accepted } }
    {
        self.board.publish::<Brand, R>(
            rt,
            &mut self.passes,
            self.accepts.ops(),
            self.accepts.held(),
        );
    }

    /// A note of what is published.
    pub fn tell(&mut self) -> Note
        ensures same { self.new ≡ self.old }
        ensures note { result ≡ record { call = self.old.call; tells = self.old.published } }
    {
        Note {
            passes: self.board.split::<Tells>(&mut self.passes),
        }
    }
}
