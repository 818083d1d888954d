//! What holds of every history of adds and removals. The functions do nothing: their contracts are the laws.
ghost use Rattle.std.specs.Prelude.{◌≡◌, ◌≢◌, List, [], ◌++◌};
ghost use Rattle.perc_keyset.specs.Set.{fold_ops};
ghost use Rattle.perc_keyset.specs.History.{AreHeldInTurn, IsHistory, IsSetOf, NeverAgain};
ghost use Rattle.perc_keyset.specs.Calls.{Call, after_call, after_calls};
ghost use Rattle.perc_keyset.specs.declared.Entry.{Entry};
ghost use Rattle.perc_keyset.specs.declared.Op.{Op};

/// Whatever is asked, from the start on: what is accepted is a history, in which no outer pair stands twice, and its set is
/// that of the history.
pub fn any_calls()
    ensures { (calls : List Call) → let ops = after_calls [] calls in IsHistory ops × IsSetOf (fold_ops ops) ops }
{}

/// What is accepted behind a history leaves a history.
pub fn each_call()
    ensures { (ops : List Op) (call : Call) → IsHistory ops → IsHistory (after_call ops call) }
{}

/// The beginning of a history is one.
pub fn prefixes()
    ensures { (ops more : List Op) → IsHistory (ops ++ more) → IsHistory ops }
{}

/// The set of a history has each association once, few entries, and only such as were added.
pub fn set_of()
    ensures { (ops : List Op) → IsHistory ops → IsSetOf (fold_ops ops) ops }
{}

/// An entry that left the set doesn't come back.
pub fn never_again()
    ensures { (ops more later : List Op) → NeverAgain ops more later }
{}

/// Over the sets of a history and of its beginnings, a serial belongs to one entry, and so does an outer pair, and to one
/// side of it.
pub fn one_serial()
    ensures serial { (ops more : List Op) (e d : Entry) → AreHeldInTurn ops more e d → e.serial ≡ d.serial → e ≡ d }
    ensures client { (ops more : List Op) (e d : Entry) → AreHeldInTurn ops more e d → e.client ≡ d.client → e ≡ d }
    ensures server { (ops more : List Op) (e d : Entry) → AreHeldInTurn ops more e d → e.server ≡ d.server → e ≡ d }
    ensures apart { (ops more : List Op) (e d : Entry) → AreHeldInTurn ops more e d → (e.client ≢ d.server) × (e.server ≢ d.client) }
{}
