// A report read line by line, and its picture written.
ghost use Rattle.std.specs.Prelude.{◌≡◌, ◌≢◌, ◌≤◌, ◌++◌, ℕ, List, Some, None, IfSome, IfOk, IfErr, OnOk};
ghost use Rattle.perc_base.specs.Lines.{lines_before, lines_of};
ghost use Rattle.perc_base.specs.Outside.{HasRisen};
ghost use Rattle.perc_drawing.specs.Element.{IsPicture};
ghost use Rattle.perc_drawing.specs.Reading.{Tells, TellsLine, TellsStop, TellsTurn, first_other};

use super::picture::Picture;
use perc_base::{Failed, LineRead, Lines, Sink, Source, write_all};
use perc_report_line::ReportLine;
use std::alloc::Global;

/// Why a report isn't drawn.
#[derive(Clone, Copy)]
pub enum Stop {
    /// The line of this number, counted from 1, is no line of a report.
    NotReport(u64),
    /// A read failed.
    ReadFault,
    /// No memory was found.
    Memory,
}

/// How the drawing of a report ends.
#[derive(Clone, Copy)]
pub enum DrawEnd {
    /// The whole report was read, and its picture written.
    Done,
    /// The whole report was read, and a write failed.
    WriteFault,
    /// Nothing was written.
    Stopped(Stop),
}

/// Reads a report, and writes its picture. Nothing is written before the whole report is read. The end tells the first line that is
/// none of a report, or has more than 8192 octets, where there is one.
pub(super) fn draw_report<I: Source, O: Sink>(alloc: Global, input: &mut I, out: &mut O) -> DrawEnd
    // Where the source tells what it has: no line but the one that is told is none of a report.
    ensures told { IfSome (I.left input.old) (λ octets. Tells (lines_of octets) result) }
    // A whole picture is written, or nothing, but where a write fails.
    ensures picture { result ≡ DrawEnd.Done → IfSome (O.written out.old) (λ before.
        (picture : List ℕ) × (O.written out.new ≡ Some (before ++ picture)) × IsPicture picture) }
    ensures nothing { result ≢ DrawEnd.Done → result ≢ DrawEnd.WriteFault → O.written out.new ≡ O.written out.old }
    // A fault comes only where a call failed.
    ensures read_fault { result ≡ DrawEnd.Stopped Stop.ReadFault → HasRisen (I.fault_count input.old) (I.fault_count input.new) }
    ensures write_fault { result ≡ DrawEnd.WriteFault → HasRisen (O.fault_count out.old) (O.fault_count out.new) }
{
    match picture_of(alloc, input) {
        Ok(picture) => match write_all(out, picture.as_slice()) {
            Ok(()) => DrawEnd::Done,
            Err(Failed) => DrawEnd::WriteFault,
        },
        Err(stop) => DrawEnd::Stopped(stop),
    }
}

// Reads a report, and answers its picture.
fn picture_of<I: Source>(alloc: Global, input: &mut I) -> Result<Vec<u8>, Stop>
    ensures ok { OnOk result (IfSome (I.left input.old) (λ octets. first_other 1 (lines_of octets) ≡ None)) }
    ensures told { IfErr result (λ stop. IfSome (I.left input.old) (λ octets. TellsStop (lines_of octets) stop)) }
    ensures picture { IfOk result (λ picture. IsPicture picture.items) }
    ensures read_fault { IfErr result (λ stop. stop ≡ Stop.ReadFault → HasRisen (I.fault_count input.old) (I.fault_count input.new)) }
{
    let Ok(mut lines) = Lines::new(alloc) else {
        return Err(Stop::Memory);
    };
    let mut picture = Picture::new(alloc);
    note_all(&mut lines, &mut picture, input)?;
    match picture.drawn() {
        Ok(text) => Ok(text),
        Err(_) => Err(Stop::Memory),
    }
}

// Notes the lines of a report up to its end. No number is left for a line past 2^64 - 2, so that one is told as want of memory.
fn note_all<I: Source>(lines: &mut Lines, picture: &mut Picture, input: &mut I) -> Result<(), Stop>
    ensures ok { OnOk result (IfSome (I.left input.old) (λ octets. first_other 1 (lines_before lines.old octets) ≡ None)) }
    ensures told { IfErr result (λ stop. IfSome (I.left input.old) (λ octets. TellsStop (lines_before lines.old octets) stop)) }
    ensures read_fault { IfErr result (λ stop. stop ≡ Stop.ReadFault → HasRisen (I.fault_count input.old) (I.fault_count input.new)) }
{
    for number in 1..u64::MAX {
        if !note_next(lines, picture, input, number)? {
            return Ok(());
        }
    }
    Err(Stop::Memory)
}

// Notes the next line, and answers whether there was one.
fn note_next<I: Source>(
    lines: &mut Lines,
    picture: &mut Picture,
    input: &mut I,
    number: u64,
) -> Result<bool, Stop>
    ensures told { TellsTurn number (I.left input.old) (I.left input.new) lines.old lines.new result }
    ensures read_fault { IfErr result (λ stop. stop ≡ Stop.ReadFault → HasRisen (I.fault_count input.old) (I.fault_count input.new)) }
    ensures never_falls { I.fault_count input.old ≤ I.fault_count input.new }
{
    match lines.next(input) {
        Ok(LineRead::Line(line)) => note_line(picture, number, line),
        Ok(LineRead::Long) => Err(Stop::NotReport(number)),
        Ok(LineRead::End) => Ok(false),
        Err(Failed) => Err(Stop::ReadFault),
    }
}

// Notes a line.
fn note_line(picture: &mut Picture, number: u64, line: &[u8]) -> Result<bool, Stop>
    ensures { TellsLine number line.now result }
{
    match ReportLine::read(line) {
        Some(report) => {
            picture.note(number, report);
            Ok(true)
        }
        None => Err(Stop::NotReport(number)),
    }
}
