// Lines of octets from a source.
ghost use Rattle.std.specs.Prelude.{◌≡◌, ◌≤◌, [], false, IfOk, OnErr};
ghost use Rattle.std.specs.Borrow.{sem};
ghost use Rattle.std.specs.Io.BufRead.{Rests};
ghost use Rattle.perc_base.specs.Outside.{HasRisen};
ghost use Rattle.perc_base.specs.Lines.{answered, Step};

use super::{Failed, Memory, Source};
use room::{Room, Turn};
use std::alloc::Global;
use std::marker::Model;

mod room;
#[cfg(test)]
mod tests;

/// What a reader of lines answers.
#[derive(Clone, Copy)]
pub enum LineRead<'a> {
    /// A line without its line feed, of at most 8192 octets.
    Line(&'a [u8]),
    /// 8193 octets came without a line feed. This is the answer from then on.
    Long,
    /// The source has ended, and all its octets stood in lines. This is the answer from then on.
    End,
}

/// Reads lines of octets from a source. A line ends with a line feed; the last one may lack it.
#[derive(Drop)]
pub struct Lines {
    room: Room,
}

impl Model for Lines {
    ghost use Rattle.perc_base.specs.Lines.{Held};
    ghost use Rattle.perc_base.specs.Room.{held_in};

    ghost Value = { Held };

    ghost view = { λ a. held_in a.room };
}

impl Lines {
    ghost use Rattle.perc_base.specs.contracts.lines.Lines.{the_row};

    /// A reader that holds nothing. It takes all its memory here: room for the longest line and its line feed.
    pub fn new(alloc: Global) -> Result<Lines, Memory>
        ensures { IfOk result (λ lines. lines ≡ record { octets = []; ended = false }) }
    {
        let room = Room::new(alloc)?;
        Ok(Lines { room })
    }

    /// The next line, read from the source as far as what is held doesn't decide it. After a failed read what was
    /// read stays held, and the next call goes on from there.
    pub fn next<S: Source>(&mut self, from: &mut S) -> Result<LineRead<'_>, Failed>
        ensures* after { sem 𝓛 (Rests the_row self.entry
            (λ new. Step self.old (S.left from.old) (answered result) new (S.left from.new))) }
        ensures failed { OnErr result (HasRisen (S.fault_count from.old) (S.fault_count from.new)) }
        ensures never_falls { S.fault_count from.old ≤ S.fault_count from.new }
    {
        match self.room.advance(from)? {
            Turn::Line => Ok(LineRead::Line(self.room.line())),
            Turn::Long => Ok(LineRead::Long),
            Turn::End => Ok(LineRead::End),
        }
    }
}
