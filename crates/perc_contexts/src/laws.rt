//! What holds over any list of calls of a receiver. The functions do nothing: their contracts are the laws.
ghost use Rattle.std.specs.Prelude.{List, [], ◌∷◌};
ghost use Rattle.std.specs.List.Sorted.{IsStrictlyIncreasing};
ghost use Rattle.perc_contexts.specs.Receiving.{Receiving, nothing_held};
ghost use Rattle.perc_contexts.specs.History.{Acceptance, AreCalls, Call, IsCall, IsHistory, NeverAgain, accepted_by, after_call, after_calls};

/// Whatever calls are made of a receiver that held nothing: its live SPIs rise, and a context goes only with its SPI; no
/// context is installed twice, and what it accepted is what was accepted under it since it was installed; and no index was
/// ever accepted twice under one key of one sender under one SPI.
pub fn any_calls()
    ensures { (calls : List Call) → AreCalls nothing_held calls → IsHistory (after_calls nothing_held calls) (accepted_by calls []) }
{}

/// Each call keeps all of that, whatever came before.
pub fn each_call()
    ensures { (held : Receiving) (done : List Acceptance) (call : Call) → IsHistory held done → IsCall held call → IsHistory (after_call held call) (accepted_by (call ∷ []) done) }
{}

/// An SPI that is live after some calls was live before them, or was above the latest then. So one that went never comes
/// back.
pub fn never_again()
    ensures { (held : Receiving) (calls : List Call) → IsStrictlyIncreasing held.live → AreCalls held calls → NeverAgain held calls }
{}
