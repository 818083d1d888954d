//! What holds over any list of calls of a sender. The functions do nothing: their contracts are the laws.
ghost use Rattle.std.specs.Prelude.{ℕ, ◌^◌, ◌<◌, List, []};
ghost use Rattle.perc_sender.specs.Schedule.{started};
ghost use Rattle.perc_sender.specs.History.{Call, EachIsDone, IsHistory, events};

/// Whatever calls are made of a new sender: its indices rise by one from the first, no key resets them and no key is taken
/// twice, each packet goes out under the newest key, and its field is full exactly by its number under that key and by a
/// change of the ROC.
pub fn any_calls()
    ensures { (ssrc first : ℕ) (calls : List Call) → first < 2 ^ 48 → IsHistory first (events (started ssrc first) calls []) }
{}

/// Each of those calls does what it asks for, once, or is refused: a key that was taken before, or behind 64 under its SPI
/// or 512 in all; a packet with no key taken, or with the index 2^48.
pub fn each_call()
    ensures { (ssrc first : ℕ) (calls : List Call) → first < 2 ^ 48 → EachIsDone first (started ssrc first) calls [] }
{}
