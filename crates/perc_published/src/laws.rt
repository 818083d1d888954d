//! What holds under any schedule. The function does nothing: its contract is the law.
ghost use Rattle.std.specs.Prelude.{ℕ, List};
ghost use Rattle.atomic_table.specs.Table.{State};
ghost use Rattle.perc_published.specs.declared.board.View.{View};
ghost use Rattle.perc_published.specs.Views.{KeepsSet, KeepsTally, SaysOfSet, SaysOfTally};

/// What the publisher, the readers and the notes of one call of `key_sets` know is kept, between any two steps of theirs and in
/// any order, as the rule of the words that they share, and this is what the rule says. There is one history of published adds
/// and removals, in which no outer pair stands twice. The words are its set. Each list that a reader has seen or was told of,
/// and each that a note tells, begins it; so of any two such lists one begins the other. The publisher alone has seen all of it
/// and adds to it.
pub fn one_history()
    ensures set { (words : List ℕ) (views : List View) → KeepsSet words views → SaysOfSet words views }
    ensures tally { (table : State (Unit {0}) View) → KeepsTally table → SaysOfTally table }
{}
