// The indices that one receiver accepted of one sender.
ghost use Rattle.std.specs.Prelude.{◌≡◌, ℕ, ◌-◌, ◌^◌, ◌<◌, if◌then◌else◌, nat_lt, false, List, [], ◌∷◌, length, slice_index_or, IfSome, IfNone};
ghost use Rattle.perc_window.specs.Index.{nearest, IsNearest};
ghost use Rattle.perc_window.specs.Replay.{freshness, freshness_at, greatest, StandsFor};

use crate::marks::{Marked, PLACES};
use std::marker::Model;

/// The end of the indices: the roll-over counter has 32 bits and the sequence number 16.
const INDEX_END: u64 = 1 << 48;

/// How many sequence numbers there are before they begin again.
const TURN: u64 = 1 << 16;

/// Half of them: as far from the highest index as the nearest one may be.
const HALF_TURN: u64 = 1 << 15;

/// What a window says to an index.
#[derive(Clone, Copy, Debug, PartialEq, Eq)]
pub enum Freshness {
    /// It was not accepted, and is less than 128 behind the highest.
    Fresh,
    /// It was accepted before.
    Repeated,
    /// It is 128 or more behind the highest.
    TooOld,
}

/// A replay window. It keeps the highest accepted index, and which of the 128 indices that end with it were
/// accepted (RFC 3711 section 3.3.2).
#[derive(Drop)]
pub struct Window {
    highest: Option<u64>,
    /// Place k is for the index k behind the highest.
    behind: Marked,
}

impl Model for Window {
    ghost use Rattle.std.specs.Prelude.{◌^◌, ◌<◌, IfSome};
    ghost use Rattle.perc_window.specs.Replay.{Marks};

    ghost Value = { Marks };

    ghost view = { λ w. record { highest = w.highest; behind = w.behind } };

    ghost invariant = { λ w. IfSome w.highest (λ h. h < 2 ^ 48) };
}

impl Window {
    /// A window of a receiver that accepted nothing.
    pub fn new() -> Window
        ensures { StandsFor result [] }
    {
        Window {
            highest: None,
            behind: Marked::new(),
        }
    }

    /// The index of a packet with this sequence number: the one nearest to the highest accepted index, and the
    /// number itself where nothing was accepted. None where that would be below 0 or from 2^48 on
    /// (RFC 3711 section 3.3.1).
    pub fn nearest(&self, seq: u16) -> Option<u64>
        ensures value { (accepted : List ℕ) → StandsFor self.now accepted → result ≡ nearest (greatest accepted) seq }
        // Of all indices it is the one in the half range around the highest.
        ensures found { IfSome result (IsNearest self.now.highest seq) }
        ensures none { IfNone result ((index : ℕ) → IsNearest self.now.highest seq index → ⊥) }
    {
        match self.highest {
            Some(highest) => nearest_to(highest, seq),
            None => Some(u64::from(seq)),
        }
    }

    /// Whether an index is fresh: not accepted before, and less than 128 behind the highest.
    pub fn fresh(&self, index: u64) -> Freshness
        ensures value { result ≡ freshness_at self.now index }
        ensures accepted { (accepted : List ℕ) → StandsFor self.now accepted → result ≡ freshness accepted index }
    {
        let Some(highest) = self.highest else {
            return Freshness::Fresh;
        };
        if index > highest {
            return Freshness::Fresh;
        }
        let place = highest - index;
        if place >= PLACES {
            Freshness::TooOld
        } else if self.behind.has(place) {
            Freshness::Repeated
        } else {
            Freshness::Fresh
        }
    }

    /// Accepts an index.
    pub fn mark(&mut self, index: u64)
        requires fresh { freshness_at self.old index ≡ Freshness.Fresh }
        requires in_range { index < 2 ^ 48 }
        ensures { (accepted : List ℕ) → StandsFor self.old accepted → StandsFor self.new (index ∷ accepted) }
    {
        let ahead = match self.highest {
            Some(highest) if index <= highest => {
                self.behind.set(highest - index);
                return;
            }
            Some(highest) => index - highest,
            // Nothing was accepted, so no place is kept.
            None => PLACES,
        };
        self.behind.move_up(ahead);
        self.behind.set(0);
        self.highest = Some(index);
    }
}

// The sequence number is compared with that of the highest index, half the numbers away from it: where it is more
// than half above, it is of the turn before, and where it is more than half below, of the next.
fn nearest_to(highest: u64, seq: u16) -> Option<u64>
    requires { highest < 2 ^ 48 }
    ensures { result ≡ nearest (Some highest) seq }
{
    let roll_over = highest / TURN;
    let last = highest % TURN;
    let seq = u64::from(seq);
    let turn = if seq > last + HALF_TURN {
        roll_over.checked_sub(1)?
    } else if last > seq + HALF_TURN {
        roll_over + 1
    } else {
        roll_over
    };
    let index = turn * TURN + seq;
    (index < INDEX_END).then_some(index)
}

#[cfg(test)]
mod tests {
    use super::*;
    use std::process::Abort;
    use std::test::Fail;

    // Accepts each index that is fresh, in turn.
    fn window_of(indices: &[u64]) -> Window {
        let mut window = Window::new();
        for index in indices {
            if *index < INDEX_END && window.fresh(*index) == Freshness::Fresh {
                window.mark(*index);
            }
        }
        window
    }

    // Takes a packet of this index as a receiver does. Whether it was accepted.
    fn receive(rt: &impl Abort, window: &mut Window, index: u64) -> bool {
        let index = index % INDEX_END;
        assert_eq!(rt; window.nearest((index % TURN) as u16), Some(index));
        if window.fresh(index) != Freshness::Fresh {
            return false;
        }
        window.mark(index);
        true
    }

    #[test]
    fn nearest_index(rt: HostRuntime) {
        let last = INDEX_END - 1;
        assert_eq!(rt; Window::new().nearest(65535), Some(65535));
        for (highest, seq, want) in [
            (100, 32868, Some(32868)),
            (100, 32869, None),
            (32767, 65535, Some(65535)),
            (32768, 0, Some(0)),
            (32769, 0, Some(65536)),
            (65546, 65000, Some(65000)),
            (65546, 32778, Some(98314)),
            (65546, 32779, Some(32779)),
            (98304, 32767, Some(98303)),
            (10, 65000, None),
            (last, 0, None),
            (last, 32766, None),
            (last, 32767, Some(281474976677887)),
            (last, 65535, Some(last)),
        ] {
            let window = window_of(&[highest]);
            assert_eq!(rt; window.nearest(seq), want, "{seq} after {highest}");
        }
    }

    #[test]
    fn freshness_by_distance(rt: HostRuntime) {
        assert_eq!(rt; Window::new().fresh(0), Freshness::Fresh);
        let window = window_of(&[1000, 873]);
        for (index, want) in [
            (1001, Freshness::Fresh),
            (1000, Freshness::Repeated),
            (999, Freshness::Fresh),
            (874, Freshness::Fresh),
            (873, Freshness::Repeated),
            (872, Freshness::TooOld),
            (0, Freshness::TooOld),
            (u64::MAX, Freshness::Fresh),
        ] {
            assert_eq!(rt; window.fresh(index), want, "at {index}");
        }
    }

    #[test]
    fn freshness_after_a_jump(rt: HostRuntime) {
        for (next, index, want) in [
            (1001, 1002, Freshness::Fresh),
            (1001, 1001, Freshness::Repeated),
            (1001, 1000, Freshness::Repeated),
            (1001, 999, Freshness::Repeated),
            (1001, 998, Freshness::Fresh),
            (1001, 874, Freshness::Fresh),
            (1001, 873, Freshness::TooOld),
            (1127, 1127, Freshness::Repeated),
            (1127, 1126, Freshness::Fresh),
            (1127, 1000, Freshness::Repeated),
            (1127, 999, Freshness::TooOld),
            (1128, 1128, Freshness::Repeated),
            (1128, 1127, Freshness::Fresh),
            (1128, 1001, Freshness::Fresh),
            (1128, 1000, Freshness::TooOld),
            (1129, 1129, Freshness::Repeated),
            (1129, 1002, Freshness::Fresh),
            (1129, 1001, Freshness::TooOld),
            (71000, 71001, Freshness::Fresh),
            (71000, 71000, Freshness::Repeated),
            (71000, 70999, Freshness::Fresh),
            (71000, 70873, Freshness::Fresh),
            (71000, 70872, Freshness::TooOld),
            (71000, 1000, Freshness::TooOld),
        ] {
            let window = window_of(&[1000, 999, next]);
            assert_eq!(rt; window.fresh(index), want, "{index} after {next}");
        }
    }

    // One packet in four comes late, by up to 140 indices, and each thousandth leaps by 201. How many are accepted
    // was counted apart, over the set of the accepted indices.
    #[test]
    fn late_ones_and_leaps(rt: HostRuntime) -> Result<(), Fail> {
        const PACKETS: u64 = 1_000_000;
        let mut window = Window::new();
        let mut accepted: u64 = 0;
        let mut state: u64 = 7741;
        for sent in 0..PACKETS {
            state = state
                .wrapping_mul(6364136223846793005)
                .wrapping_add(1442695040888963407);
            let ahead = 1000 + sent + sent / 1000 * 200;
            let late = if (state >> 62) == 0 {
                (state >> 33) % 141
            } else {
                0
            };
            if receive(&rt, &mut window, ahead - late) {
                accepted = accepted.wrapping_add(1);
            }
        }
        println!(rt; "{accepted} of {PACKETS} packets")?;
        assert_eq!(rt; accepted, 813_151);
        Ok(())
    }
}
