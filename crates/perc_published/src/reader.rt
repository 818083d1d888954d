// Readers of published key sets.
ghost use Rattle.std.specs.Prelude.{◌≡◌, IfOk};
ghost use Rattle.std.specs.Arc.{arc_value};
ghost use Rattle.std.specs.Borrow.{sem};
ghost use Rattle.std.specs.Io.BufRead.{Rests};
ghost use Rattle.perc_published.specs.Calls.{HasEntered, HasLearnt, LendsSeen, new_reader};
ghost use Rattle.perc_published.specs.Kept.{IsBoard, call_by, call_of, known, tallied};
ghost use Rattle.perc_published.specs.Views.{newcomer};

use crate::Note;
use crate::board::{Board, Passes};
use crate::words::fill;
use perc_base::Memory;
use perc_keyset::KeySet;
use std::alloc::Global;
use std::marker::Model;
use std::sync::{Arc, Wait};

/// Reads what its publisher published. Its value is the call of `key_sets` that made it, the list that it saw when it entered
/// last, the longest list that it was told of, and how often it has entered.
#[derive(Drop)]
pub struct SetReader {
    board: Arc<Board>,
    passes: Passes,
    /// The set of the list that it saw last, and how long that list is.
    set: Box<KeySet>,
    count: u64,
}

impl Model for SetReader {
    ghost use Rattle.std.specs.Arc.{arc_value};
    ghost use Rattle.perc_published.specs.Calls.{Reading};
    ghost use Rattle.perc_published.specs.Kept.{IsReader, reading_of};

    ghost Value = { Reading };

    ghost view = { λ r. reading_of (arc_value r.board) r.passes };

    ghost invariant = { λ r. IsReader (arc_value r.board) r.passes r.set.value r.count };
}

/// Lends the set that its reader saw when it entered.
#[derive(Drop)]
pub struct SetGuard<'a> {
    set: &'a KeySet,
}

impl<'a> SetGuard<'a> {
    /// The set of the list that the reader has seen.
    pub fn set(&self) -> &KeySet
        ensures { result.now ≡ self.now.set.now }
    {
        self.set
    }
}

impl SetReader {
    ghost use Rattle.perc_published.specs.contracts.reader.SetReader.{the_row};

    // A reader of this board that knows nothing.
    pub(crate) fn new(alloc: Global, board: Arc<Board>, passes: Passes) -> Result<SetReader, Memory>
        requires board { IsBoard (arc_value board) }
        requires call { call_by passes ≡ call_of (arc_value board) }
        requires passes { (known passes ≡ newcomer) × (tallied passes ≡ newcomer) }
        ensures { IfOk result (λ r. r ≡ new_reader (call_of (arc_value board))) }
    {
        let set = Box::new(alloc, KeySet::empty()).map_err(|_| Memory)?;
        Ok(SetReader {
            board,
            passes,
            set,
            count: 0,
        })
    }

    /// Learns what a note tells. From the next entering on it sees no less. The note goes on telling the same.
    pub fn learn(&mut self, note: &mut Note)
        requires { note.old.call ≡ self.old.call }
        ensures reader { HasLearnt self.old note.old.tells self.new }
        ensures note { note.new ≡ note.old }
    {
        self.board.learn(&mut self.passes, &mut note.passes);
    }

    /// Reads the set of what is published. The list that it then has seen begins with the list that it had seen and with that
    /// which it was told of. It takes no memory, and may wait for another to end its step.
    pub fn enter<R: Wait>(&mut self, rt: &R) -> SetGuard<'_>
        ensures* { sem 𝓛 (Rests the_row self.entry (λ new. LendsSeen self.old result.set.now new)) }
    {
        self.read(rt);
        SetGuard { set: &*self.set }
    }

    fn read<R: Wait>(&mut self, rt: &R)
        ensures { HasEntered self.old self.new }
    {
        let words = self.board.read(rt, &mut self.passes);
        if words[0] != self.count {
            fill(&mut self.set, &words);
            self.count = words[0];
        }
    }
}
