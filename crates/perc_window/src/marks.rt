// The marks of a window: which of the indices behind the highest were accepted.
ghost use Rattle.std.specs.Prelude.{◌≡◌, ℕ, ◌-◌, ◌<◌, if◌then◌else◌, nat_lt, nat_eq, Bool, true, false, slice_index_or};
ghost use Rattle.perc_window.specs.Replay.{window_size};
ghost use Rattle.perc_window.specs.Words.{IsMarkedAt, IsMovedUp, marks_of};
ghost use Rattle.std.specs.Int.{bit_at};

use std::marker::Model;

/// How many indices the window looks back, the highest among them.
pub(crate) const PLACES: u64 = 128;

/// How many places a word has.
const WORD: u64 = 64;

/// The places of a window, as two words. Its value is the list of the 128 marks.
#[derive(Drop)]
pub(crate) struct Marked {
    /// The places below 64, the lowest bit first.
    low: u64,
    /// The places from 64 on.
    high: u64,
}

impl Model for Marked {
    ghost use Rattle.std.specs.Prelude.{Bool, List};
    ghost use Rattle.perc_window.specs.Words.{marks_of};

    ghost Value = { List Bool };

    ghost view = { λ a. marks_of a.low a.high };
}

impl Marked {
    // No place is marked.
    #[tactic(auto, using(crate::proofs::MarkLaws::none_marked))]
    pub(crate) fn new() -> Marked
        ensures { (k : ℕ) → k < window_size → slice_index_or result k false ≡ false }
    {
        Marked { low: 0, high: 0 }
    }

    // Whether a place is marked.
    pub(crate) fn has(&self, place: u64) -> bool
        requires { place < window_size }
        ensures { result ≡ slice_index_or self.now place false }
    {
        if place < WORD {
            has_bit(self.low, place)
        } else {
            has_bit(self.high, place - WORD)
        }
    }

    // Marks a place.
    pub(crate) fn set(&mut self, place: u64)
        requires { place < window_size }
        ensures { IsMarkedAt self.old place self.new }
    {
        if place < WORD {
            self.low |= 1 << place;
        } else {
            self.high |= 1 << (place - WORD);
        }
    }

    // Moves each mark that many places up. The lowest places are then clear, and the marks past the end are gone.
    pub(crate) fn move_up(&mut self, by: u64)
        requires { 0 < by }
        ensures { IsMovedUp self.old by self.new }
    {
        let (low, high) = moved_up(self.low, self.high, by);
        self.low = low;
        self.high = high;
    }
}

// Whether a bit of a word is set.
fn has_bit(word: u64, bit: u64) -> bool
    requires { bit < WORD }
    ensures { result ≡ nat_eq (bit_at word bit) 1 }
{
    (word >> bit) & 1 == 1
}

// The two words, with each mark that many places up.
#[tactic(auto, using(crate::proofs::MarkLaws::moved_within, crate::proofs::MarkLaws::moved_across, crate::proofs::MarkLaws::moved_past))]
fn moved_up(low: u64, high: u64, by: u64) -> (u64, u64)
    requires { 0 < by }
    ensures { IsMovedUp (marks_of low high) by (marks_of result.0 result.1) }
{
    if by < WORD {
        (low << by, high << by | low >> (WORD - by))
    } else if by < PLACES {
        (0, low << (by - WORD))
    } else {
        (0, 0)
    }
}

#[cfg(test)]
mod tests {
    use super::*;
    use std::process::Abort;

    // The next of the numbers below 2^31 that a linear congruence draws.
    fn draw(state: &mut u64) -> u64 {
        *state = state
            .wrapping_mul(6364136223846793005)
            .wrapping_add(1442695040888963407);
        *state >> 33
    }

    // The same moves, place by place.
    fn move_places(places: &mut [bool], by: usize) {
        let by = by.min(places.len());
        let kept = places.len() - by;
        places.copy_within(..kept, by);
        places[..by].fill(false);
    }

    // Marks a place in both, moves both up, and compares them.
    fn move_both(
        rt: &impl Abort,
        marked: &mut Marked,
        places: &mut [bool; 128],
        place: u64,
        by: u64,
    ) {
        let place = place % PLACES;
        marked.set(place);
        places[place as usize] = true;
        let by = by.max(1);
        marked.move_up(by);
        move_places(places, by as usize);
        for k in 0..PLACES {
            assert_eq!(rt;
                marked.has(k),
                places[k as usize],
                "place {k}, moved by {by}"
            );
        }
    }

    #[test]
    fn words_move_as_places_do(rt: HostRuntime) {
        let mut state = 4127;
        let mut marked = Marked::new();
        let mut places = [false; 128];
        for by in [1, 2, 31, 63, 64, 65, 1, 127, 1, 128, 1, 129, 5, u64::MAX, 7] {
            move_both(&rt, &mut marked, &mut places, draw(&mut state), by);
        }
        for _ in 0..300 {
            let by = 1 + draw(&mut state) % 24;
            move_both(&rt, &mut marked, &mut places, draw(&mut state), by);
        }
        for _ in 0..100 {
            let by = 1 + draw(&mut state) % 140;
            move_both(&rt, &mut marked, &mut places, draw(&mut state), by);
        }
    }
}
