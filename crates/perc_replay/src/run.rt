// A conference script read from a source, and its report written to a sink.
ghost use Rattle.std.specs.Prelude.{◌≡◌, ◌≢◌, ◌≤◌, ◌<◌, ◌^◌, ◌-◌, ◌+◌, ℕ, List, Some, Err, IfOk, IfSome};
ghost use Rattle.perc_base.specs.Lines.{lines_before};
ghost use Rattle.perc_base.specs.Outside.{HasRisen};
ghost use Rattle.perc_run.specs.Sound.{IsOrderly};
ghost use Rattle.perc_run.specs.State.{State};
ghost use Rattle.perc_conference_state.specs.Mirror.{IsRunning, Mirrors};
ghost use Rattle.perc_replay.specs.Running.{BreaksOff, Grows, IsTidy, NextStep, NextTurn, PastAll, counted, halted};
ghost use Rattle.perc_replay.specs.Replay.{Ends};

use crate::turn::turn;
use perc_base::{Failed, LineRead, Lines, Sink, Source, write_all};
use perc_conference_state::{Conference, Stop, Told};
use perc_headline::laws::always_orderly;
use perc_script_line::Reason;
use perc_script_line::laws::one_spelling;
use perc_word::Name;
use std::alloc::Global;

/// How much a script did.
#[derive(Clone, Copy, Debug, PartialEq, Eq)]
pub struct Counts {
    /// The lines of the script.
    pub lines: u32,
    /// The datagrams, one for each wire line.
    pub datagrams: u32,
    /// The accept lines.
    pub accepted: u32,
    /// The refuse lines.
    pub refused: u64,
}

/// How a script ends.
#[derive(Clone, Copy)]
pub enum ReplayEnd {
    /// The input was read to its end, and each line was done.
    Done(Counts),
    /// A line, numbered from 1, is refused.
    Script { line: u32, reason: Reason },
    /// A read failed.
    ReadFault,
    /// A write failed.
    WriteFault,
    /// At a line a datagram was foreign at the member of this name: something in it opens that nobody made.
    Foreign { line: u32, endpoint: Name },
    /// No memory was found.
    Memory,
}

// Why a line isn't done, or its report isn't written.
#[derive(Clone, Copy)]
enum Halt {
    Stop(Stop),
    ReadFault,
    WriteFault,
}

impl Counts {
    // Counts a line that was done.
    fn count(&mut self, told: Told)
        requires lines { self.old.lines < 2 ^ 32 - 1 }
        requires datagrams { self.old.datagrams + told.datagrams < 2 ^ 32 }
        requires accepted { self.old.accepted + told.accepted < 2 ^ 32 }
        requires refused { self.old.refused + told.refused < 2 ^ 64 }
        ensures { self.new ≡ counted told self.old }
    {
        self.lines += 1;
        self.datagrams += told.datagrams;
        self.accepted += told.accepted;
        self.refused += u64::from(told.refused);
    }
}

/// Reads a conference script and writes its report, that of each line when the line is done.
pub fn replay<I: Source, O: Sink>(alloc: Global, input: &mut I, out: &mut O) -> ReplayEnd
    // What is written is the report of the octets that the source has; after a failed read or want of memory that of the lines done
    // before, and after a failed write a beginning of it.
    ensures report { IfSome (I.left input.old) (λ octets. IfSome (O.written out.old) (λ before.
        (after : List ℕ) × (O.written out.new ≡ Some after) × Ends octets before result (I.left input.new) after)) }
    // A fault comes only where a call failed.
    ensures read_fault { result ≡ ReplayEnd.ReadFault → HasRisen (I.fault_count input.old) (I.fault_count input.new) }
    ensures write_fault { result ≡ ReplayEnd.WriteFault → HasRisen (O.fault_count out.old) (O.fault_count out.new) }
    ensures reads_never_fall { I.fault_count input.old ≤ I.fault_count input.new }
    ensures writes_never_fall { O.fault_count out.old ≤ O.fault_count out.new }
{
    // Before the first line all is in order.
    always_orderly();
    let Ok(mut lines) = Lines::new(alloc) else {
        return ReplayEnd::Memory;
    };
    let Ok(mut conference) = Conference::new(alloc) else {
        return ReplayEnd::Memory;
    };
    let mut text = Vec::new(alloc);
    let mut counts = Counts {
        lines: 0,
        datagrams: 0,
        accepted: 0,
        refused: 0,
    };
    for number in 1..u32::MAX {
        match step(alloc, &mut lines, &mut conference, &mut text, input, out) {
            Ok(Some(told)) => counts.count(told),
            Ok(None) => return ReplayEnd::Done(counts),
            Err(halt) => return end_of(number, halt),
        }
    }
    past_all(&mut lines, input, counts)
}

// How a script ends that halts at a line.
fn end_of(line: u32, halt: Halt) -> ReplayEnd
    ensures { result ≡ halted line halt }
{
    match halt {
        Halt::Stop(stop) => stopped_at(line, stop),
        Halt::ReadFault => ReplayEnd::ReadFault,
        Halt::WriteFault => ReplayEnd::WriteFault,
    }
}

// How a script ends whose line isn't done.
fn stopped_at(line: u32, stop: Stop) -> ReplayEnd
    ensures { result ≡ halted line (Halt.Stop stop) }
{
    match stop {
        Stop::Refused(reason) => ReplayEnd::Script { line, reason },
        Stop::Foreign(endpoint) => ReplayEnd::Foreign { line, endpoint },
        Stop::Memory => ReplayEnd::Memory,
    }
}

// How a script ends whose next line is the last that a number is for: that line is refused.
fn past_all<S: Source>(lines: &mut Lines, input: &mut S, counts: Counts) -> ReplayEnd
    ensures end { IfSome (S.left input.old) (λ all. IsTidy lines.old all
        → PastAll (lines_before lines.old all) counts result (S.left input.new)) }
    ensures broken { result ≡ ReplayEnd.ReadFault → IfSome (S.left input.old) (λ all.
        (later : List ℕ) × (S.left input.new ≡ Some later) × BreaksOff lines.old all lines.new later) }
    ensures failed { result ≡ ReplayEnd.ReadFault → HasRisen (S.fault_count input.old) (S.fault_count input.new) }
    ensures wrote { result ≢ ReplayEnd.WriteFault }
    ensures never_falls { S.fault_count input.old ≤ S.fault_count input.new }
{
    match lines.next(input) {
        Ok(LineRead::End) => ReplayEnd::Done(counts),
        Ok(LineRead::Line(_)) => at_limit(),
        Ok(LineRead::Long) => at_limit(),
        Err(Failed) => ReplayEnd::ReadFault,
    }
}

// The last line that a number is for is refused, whatever it holds.
fn at_limit() -> ReplayEnd
    ensures { result ≡ ReplayEnd.Script u32.MAX Reason.Limit }
{
    ReplayEnd::Script {
        line: u32::MAX,
        reason: Reason::Limit,
    }
}

// Does the next line, and writes what it reports. None where there is no line.
fn step<I: Source, O: Sink>(
    alloc: Global,
    lines: &mut Lines,
    conference: &mut Conference,
    text: &mut Vec<u8>,
    input: &mut I,
    out: &mut O,
) -> Result<Option<Told>, Halt>
    requires running { IsRunning conference.old }
    ensures step { (s : State) → IsOrderly s → Mirrors conference.old s → NextStep s (I.left input.old) (I.left input.new)
        (O.written out.old) (O.written out.new) lines.old lines.new result conference.new }
    ensures grows { IfOk result (λ o. IfSome o (λ told. Grows conference.old told conference.new)) }
    ensures read_fault { result ≡ Err Halt.ReadFault → HasRisen (I.fault_count input.old) (I.fault_count input.new) }
    ensures write_fault { result ≡ Err Halt.WriteFault → HasRisen (O.fault_count out.old) (O.fault_count out.new) }
    ensures reads_never_fall { I.fault_count input.old ≤ I.fault_count input.new }
    ensures writes_never_fall { O.fault_count out.old ≤ O.fault_count out.new }
{
    text.clear();
    let Some(told) = turn_next(alloc, lines, conference, text, input)? else {
        return Ok(None);
    };
    if write_all(out, text.as_slice()).is_err() {
        return Err(Halt::WriteFault);
    }
    Ok(Some(told))
}

// Does the next line, and appends what it reports to the text. None where there is no line.
fn turn_next<S: Source>(
    alloc: Global,
    lines: &mut Lines,
    conference: &mut Conference,
    text: &mut Vec<u8>,
    input: &mut S,
) -> Result<Option<Told>, Halt>
    requires running { IsRunning conference.old }
    ensures turn { (s : State) → IsOrderly s → Mirrors conference.old s → NextTurn s (S.left input.old) (S.left input.new)
        lines.old lines.new result text.old.items text.new.items conference.new }
    ensures grows { IfOk result (λ o. IfSome o (λ told. Grows conference.old told conference.new)) }
    ensures read_fault { result ≡ Err Halt.ReadFault → HasRisen (S.fault_count input.old) (S.fault_count input.new) }
    ensures wrote { result ≢ Err Halt.WriteFault }
    ensures never_falls { S.fault_count input.old ≤ S.fault_count input.new }
{
    // What a line leaves is in order again, and its words have their bounds.
    always_orderly();
    one_spelling();
    match lines.next(input) {
        Ok(LineRead::Line(line)) => match turn(conference, alloc, line, text) {
            Ok(told) => Ok(Some(told)),
            Err(stop) => Err(Halt::Stop(stop)),
        },
        Ok(LineRead::Long) => Err(Halt::Stop(Stop::Refused(Reason::Long))),
        Ok(LineRead::End) => Ok(None),
        Err(Failed) => Err(Halt::ReadFault),
    }
}
