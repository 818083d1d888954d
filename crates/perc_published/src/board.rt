// What the publisher and the readers share, and the rule of it.
ghost use Rattle.std.specs.Prelude.{◌≡◌, ◌++◌, List, true, false, IfOk, slice_index};
ghost use mathlib.Core.List.{IsPrefix};
ghost use Rattle.perc_keyset.specs.declared.Op.{Op};
ghost use Rattle.perc_keyset.specs.History.{IsHistory};
ghost use Rattle.perc_keyset.specs.Set.{fold_ops};
ghost use Rattle.perc_published.specs.Views.{CanSplit, Entered, published};
ghost use Rattle.perc_published.specs.Kept.{HasBoth, HasTaken, IsBoard, IsNote, IsOpening, IsSplit, StaysSo, call_by, call_of, known, tallied};

use crate::words::spell;
use atomic_table::{Join, Play, Seat, Split, Table, TableRule};
use crossbeam_utils::atomic::seq_cell::{Pass, RuledSeqCell};
use crossbeam_utils::rule::{Outcome, Protocol};
use perc_base::Memory;
use perc_keyset::{KeySet, Op};
use std::alloc::Global;
use std::collections::LinkedList;
use std::marker::{Brand, PhantomData};
use std::sync::Wait;

/// How many words the cell has: how many adds and removals were published, how many entries are held, and 17 words for each
/// of 64 entries.
pub(crate) const WORDS: usize = 1090;

/// What the holder of a pass knows of the history: whether it is the one that publishes, the list that it has seen, the list
/// that it was told of, and how often it entered. No value of it is made.
pub struct View {
    pub publishes: bool,
    pub seen: LinkedList<Op>,
    pub told: LinkedList<Op>,
    pub enters: u64,
}

/// There is one history. The cell's words are its set, and each view's lists begin it.
pub struct OneHistory;

impl Protocol<[u64; WORDS], View> for OneHistory {
    ghost use Rattle.perc_published.specs.Views.{KeepsSet, first_view};

    ghost holds = { KeepsSet };

    ghost first = { first_view };
}

/// There is one history. The one word is its length, and each view's lists begin it.
pub struct OneTally;

impl TableRule<(), View, ()> for OneTally {
    ghost use Rattle.perc_published.specs.Views.{KeepsTally, first_view};

    ghost holds = { λ _. KeepsTally };

    ghost first = { λ _. first_view };
}

/// Names the history that a publication leaves.
pub trait Named {
    ghost history: { List Op };
}

impl Named for Brand {
    ghost use Rattle.std.specs.Prelude.{[]};

    ghost history = { [] };
}

/// A publication in the cell.
pub(crate) struct Publishes<K> {
    of: PhantomData<K>,
}

impl<K: Named> Outcome<[u64; WORDS], View> for Publishes<K> {
    ghost use Rattle.perc_published.specs.Views.{published};

    ghost then = { λ v _ _ w. w ≡ published v K.history };
}

/// A publication in the tally.
pub(crate) struct Counts<K> {
    of: PhantomData<K>,
}

impl<K: Named> Play<(), View> for Counts<K> {
    ghost use Rattle.perc_published.specs.Views.{published};

    ghost then = { λ _ m _ n. n ≡ (published m.0 K.history, m.1) };
}

/// A reader enters.
pub(crate) struct Enters;

impl Outcome<[u64; WORDS], View> for Enters {
    ghost use Rattle.perc_published.specs.Views.{Entered};

    ghost then = { λ v _ words w. Entered v words w };
}

/// A reader that comes in knows nothing.
pub(crate) struct Comes;

impl Split<View> for Comes {
    ghost use Rattle.perc_published.specs.Views.{newcomer};

    ghost left = { λ v. v };

    ghost right = { λ _. newcomer };
}

/// A note tells what the publisher has published.
pub(crate) struct Tells;

impl Split<View> for Tells {
    ghost use Rattle.perc_published.specs.Views.{note_of};

    ghost left = { λ v. v };

    ghost right = { note_of };
}

/// A part of a note tells the same.
pub(crate) struct Parts;

impl Split<View> for Parts {
    ghost left = { λ v. v };

    ghost right = { λ v. v };
}

/// A reader learns what a note tells.
pub(crate) struct Learns;

impl Join<View> for Learns {
    ghost use Rattle.perc_published.specs.Views.{learnt, newcomer};

    ghost both = { learnt };

    ghost spent = { newcomer };
}

/// What a note tells is put beside what a reader was told of before.
pub(crate) struct Brings;

impl Join<View> for Brings {
    ghost use Rattle.perc_published.specs.Views.{brought, newcomer};

    ghost both = { brought };

    ghost spent = { newcomer };
}

/// The longer of the two is taken, which begins with the other.
pub(crate) struct Compares;

impl Play<(), View> for Compares {
    ghost use Rattle.perc_published.specs.Views.{Compared};

    ghost then = { λ _ m _ n. Compared m.0 n.0 };
}

pub(crate) type Cell = RuledSeqCell<[u64; WORDS], View, OneHistory, WORDS>;

pub(crate) type Tally = Table<(), View, (), OneTally, Global>;

/// The cell that the readers read, and beside it a word of how many adds and removals were published: at a step on it two
/// lists are compared without waiting.
#[derive(Drop)]
pub(crate) struct Board {
    pub(crate) cell: Cell,
    pub(crate) tally: Tally,
}

/// The right to step on a board, with what is known of it.
#[derive(Drop)]
pub(crate) struct Passes {
    pub(crate) cell: Pass<[u64; WORDS], View>,
    pub(crate) tally: Seat<(), View>,
}

impl Board {
    /// A board with nothing published, and the passes of the one that publishes.
    pub(crate) fn new(alloc: Global) -> Result<(Board, Passes), Memory>
        ensures { IfOk result (λ made. IsOpening made.0 made.1) }
    {
        let (cell, cell_pass) = Cell::ruled(alloc, [0; WORDS]).map_err(|_| Memory)?;
        let (tally, tally_pass) = Tally::of_words(alloc, &[0], &()).map_err(|_| Memory)?;
        let passes = Passes {
            cell: cell_pass,
            tally: tally_pass,
        };
        Ok((Board { cell, tally }, passes))
    }

    /// Cuts passes off from others, which know the same as before.
    pub(crate) fn split<M: Split<View>>(&self, passes: &mut Passes) -> Passes
        requires board { IsBoard self.now }
        requires call { call_by passes.old ≡ call_of self.now }
        requires cell { CanSplit M.left M.right (known passes.old) }
        requires tally { CanSplit M.left M.right (tallied passes.old) }
        ensures same { StaysSo passes.old passes.new }
        ensures new { IsSplit M.right passes.old result }
    {
        let cell = self.cell.split_pass::<M>(&mut passes.cell);
        let tally = self.tally.shared.split_seat::<M>(&mut passes.tally);
        Passes { cell, tally }
    }

    /// Publishes all of these adds and removals, of which some are published already.
    pub(crate) fn publish<K: Named, R: Wait>(
        &self,
        rt: &R,
        passes: &mut Passes,
        ops: &[Op],
        set: &KeySet,
    )
        requires board { IsBoard self.now }
        requires call { call_by passes.old ≡ call_of self.now }
        requires history { K.history ≡ ops.now }
        requires legal { IsHistory ops.now }
        requires set { set.now ≡ fold_ops ops.now }
        requires publishes { HasBoth (λ v. v.publishes ≡ true) passes.old }
        requires begins { HasBoth (λ v. IsPrefix v.seen ops.now) passes.old }
        ensures call { call_by passes.new ≡ call_by passes.old }
        ensures cell { known passes.new ≡ published (known passes.old) ops.now }
        ensures tally { tallied passes.new ≡ published (tallied passes.old) ops.now }
    {
        let count = ops.len() as u64;
        self.cell
            .swap_as::<Publishes<K>, R>(rt, &mut passes.cell, spell(set, count));
        self.tally
            .shared
            .store::<Counts<K>>(&mut passes.tally, 0, count);
    }

    /// The words of the set of what is published, which a reader then has seen.
    pub(crate) fn read<R: Wait>(&self, rt: &R, passes: &mut Passes) -> [u64; WORDS]
        requires { call_by passes.old ≡ call_of self.now }
        ensures call { call_by passes.new ≡ call_by passes.old }
        ensures cell { Entered (known passes.old) result (known passes.new) }
        ensures tally { tallied passes.new ≡ tallied passes.old }
    {
        self.cell.load_as::<Enters, R>(rt, &mut passes.cell)
    }

    /// A reader learns what a note tells.
    pub(crate) fn learn(&self, passes: &mut Passes, note: &mut Passes)
        requires board { IsBoard self.now }
        requires call { call_by passes.old ≡ call_of self.now }
        requires note { call_by note.old ≡ call_of self.now }
        requires passes { IsNote passes.old }
        requires tells { IsNote note.old }
        ensures call { call_by passes.new ≡ call_by passes.old }
        ensures learnt { HasTaken (known passes.old) (known note.old).told (known passes.new) }
        ensures passes { IsNote passes.new }
        ensures note { StaysSo note.old note.new }
    {
        let told = self.split::<Parts>(note);
        self.cell.join_pass::<Learns>(&mut passes.cell, told.cell);
        self.tally
            .shared
            .join_seat::<Brings>(&mut passes.tally, told.tally);
        self.tally.shared.load::<Compares>(&mut passes.tally, 0);
    }
}
