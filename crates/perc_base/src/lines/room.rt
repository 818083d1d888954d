// The room in which a reader of lines holds octets.
ghost use Rattle.std.specs.Prelude.{◌≡◌, ◌+◌, ◌-◌, ◌<◌, ◌≤◌, ◌==◌, ◌⊎◌, [], true, false, length, take, position, slice_range, IfOk, IfSome, OnOk, OnErr, MatchOption, vec_len};
ghost use Rattle.perc_base.specs.Outside.{HasRisen, Reads};
ghost use Rattle.perc_base.specs.Lines.{longest, IsDecided, Step};

use crate::{Failed, Memory, Source};
use std::alloc::Global;

// The longest line and its line feed.
const SIZE: usize = 8193;

const LINE_FEED: u8 = 10;

/// What came of a step of a reader of lines.
#[derive(Clone, Copy)]
pub enum Turn {
    /// A line, which the room keeps until the next step.
    Line,
    /// A line that is too long.
    Long,
    /// The end of the source.
    End,
}

/// Room for the longest line and its line feed.
#[derive(Drop)]
pub struct Room {
    octets: Vec<u8>,
    /// Where the line begins that was given last.
    line_start: usize,
    /// Where it ends.
    line_end: usize,
    /// Where the octets begin that are held.
    start: usize,
    /// Where they end.
    end: usize,
    /// The source has answered that it has no more.
    ended: bool,
    ghost full: { vec_len octets ≡ 8193 },
    ghost line_ordered: { line_start ≤ line_end },
    ghost line_within: { line_end ≤ 8193 },
    ghost ordered: { start ≤ end },
    ghost within: { end ≤ 8193 },
}

impl Room {
    ghost use Rattle.perc_base.specs.Room.{held_in, line_in, turned, turned_result, Decides, ReadsOn};

    pub(super) fn new(alloc: Global) -> Result<Room, Memory>
        ensures { IfOk result (λ room. held_in room ≡ record { octets = []; ended = false }) }
    {
        let Ok(octets) = vec![in alloc; 0; SIZE] else {
            return Err(Memory);
        };
        Ok(Room {
            octets,
            line_start: 0,
            line_end: 0,
            start: 0,
            end: 0,
            ended: false,
        })
    }

    /// The line that was given last.
    pub(super) fn line(&self) -> &[u8]
        ensures { result.now ≡ line_in self.now }
    {
        let (start, end) = (self.line_start, self.line_end);
        let all = self.octets.as_slice();
        &all[start..end]
    }

    /// The next answer. What is held is used first, and then what is read.
    pub(super) fn advance<S: Source>(&mut self, from: &mut S) -> Result<Turn, Failed>
        ensures step { Step (held_in self.old) (S.left from.old) (turned_result (line_in self.new) result)
            (held_in self.new) (S.left from.new) }
        ensures failed { OnErr result (HasRisen (S.fault_count from.old) (S.fault_count from.new)) }
        ensures never_falls { S.fault_count from.old ≤ S.fault_count from.new }
    {
        'turns: loop {
            if let Some(turn) = self.decide() {
                return Ok(turn);
            }
            self.read_on(from)?;
        }
    }

    /// The answer that what is held decides.
    fn decide(&mut self) -> Option<Turn>
        ensures { MatchOption result
            ((IsDecided (held_in self.old) → ⊥) × (held_in self.new ≡ held_in self.old))
            (λ turn. Decides (held_in self.old) (turned (line_in self.new) turn) (held_in self.new)) }
    {
        if let Some(length) = line_length(&self.octets.as_slice()[self.start..self.end]) {
            self.line_start = self.start;
            self.line_end = self.start + length;
            self.start = self.line_end + 1;
            return Some(Turn::Line);
        }
        let held = self.end - self.start;
        if held == SIZE {
            return Some(Turn::Long);
        }
        if !self.ended {
            return None;
        }
        if held == 0 {
            return Some(Turn::End);
        }
        self.line_start = self.start;
        self.line_end = self.end;
        self.start = self.end;
        Some(Turn::Line)
    }

    /// Reads once into the room behind what is held.
    fn read_on<S: Source>(&mut self, from: &mut S) -> Result<(), Failed>
        requires { IsDecided (held_in self.old) → ⊥ }
        ensures reads { ReadsOn (held_in self.old) (S.left from.old) (held_in self.new) (S.left from.new) }
        ensures progress { OnOk result
            ((self.new.ended ≡ true) ⊎ (length (held_in self.old).octets < length (held_in self.new).octets)) }
        ensures kept { OnErr result (held_in self.new ≡ held_in self.old) }
        ensures failed { OnErr result (HasRisen (S.fault_count from.old) (S.fault_count from.new)) }
        ensures never_falls { S.fault_count from.old ≤ S.fault_count from.new }
    {
        self.make_room();
        let n = read_behind(&mut self.octets, self.end, from)?;
        self.end += n;
        self.ended = n == 0;
        Ok(())
    }

    /// Moves what is held to the front of the room, where there is no room behind it.
    fn make_room(&mut self)
        requires { IsDecided (held_in self.old) → ⊥ }
        ensures held { held_in self.new ≡ held_in self.old }
        ensures room { self.new.end < 8193 }
    {
        if self.end == SIZE {
            let (start, end) = (self.start, self.end);
            self.octets.as_mut_slice().copy_within(start..end, 0);
            self.start = 0;
            self.end = end - start;
        }
    }
}

/// How many octets stand before the first line feed.
fn line_length(octets: &[u8]) -> Option<usize>
    ensures { result ≡ position (λ x. x == 10) octets.now }
{
    octets.iter().position(|x| *x == LINE_FEED)
}

/// Reads once into the octets from there on.
fn read_behind<S: Source>(octets: &mut Vec<u8>, at: usize, from: &mut S) -> Result<usize, Failed>
    requires { at < vec_len octets.old }
    ensures len { vec_len octets.new ≡ vec_len octets.old }
    ensures front { take at octets.new.items ≡ take at octets.old.items }
    ensures within { IfOk result (λ n. at + n ≤ vec_len octets.new) }
    ensures reads { IfOk result
        (λ n. Reads (S.left from.old) (S.left from.new) (slice_range octets.new.items at (at + n))) }
    ensures end { IfOk result (λ n. n ≡ 0 → IfSome (S.left from.new) (λ rest. rest ≡ [])) }
    ensures kept { OnErr result (S.left from.new ≡ S.left from.old) }
    ensures failed { OnErr result (HasRisen (S.fault_count from.old) (S.fault_count from.new)) }
    ensures never_falls { S.fault_count from.old ≤ S.fault_count from.new }
{
    from.read(&mut octets.as_mut_slice()[at..])
}
