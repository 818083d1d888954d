// The top call: what the program does with its words, its input and its outputs.
ghost use Rattle.std.specs.Prelude.{◌≡◌, ◌≢◌, ◌++◌, ℕ, List, None, Some, IfSome};
ghost use Rattle.perc_base.specs.Lines.{lines_of};
ghost use Rattle.perc_base.specs.Outside.{HasRisen};
ghost use Rattle.perc_drawing.specs.Element.{IsPicture};
ghost use Rattle.perc_drawing.specs.Reading.{first_other};
ghost use Rattle.perc_drawing.specs.Status as spec;

use super::report::{DrawEnd, Stop, draw_report};
use itoa::Buffer;
use perc_base::{Failed, Sink, Source, write_all};
use std::alloc::Global;

/// The exit status of the program: 0 where the picture is written, 1 for a line that is no line of a report, 2 for words, 3 and 4
/// for a failed read or write, 6 where no memory was found.
#[derive(Clone, Copy)]
pub struct Status(pub u8);

/// Reads a report from the input and writes its picture to the output, where no words are given.
pub fn run<I: Source, O: Sink, E: Sink>(
    alloc: Global,
    words: &[String],
    input: &mut I,
    out: &mut O,
    err: &mut E,
) -> Status
    // Status 0 comes only where each line is one of a report, and status 1 only where one isn't, if the source tells what it has.
    ensures reports { result.0 ≡ 0 → IfSome (I.left input.old) (λ octets. first_other 1 (lines_of octets) ≡ None) }
    ensures other { result.0 ≡ 1 → IfSome (I.left input.old) (λ octets. (number : ℕ) × (first_other 1 (lines_of octets) ≡ Some number)) }
    // With status 0 a whole picture is written; else nothing is, but where a write fails.
    ensures picture { result.0 ≡ 0 → IfSome (O.written out.old) (λ before.
        (picture : List ℕ) × (O.written out.new ≡ Some (before ++ picture)) × IsPicture picture) }
    ensures nothing { result.0 ≢ 0 → result.0 ≢ 4 → O.written out.new ≡ O.written out.old }
    // A fault comes only where a call failed.
    ensures read_fault { result.0 ≡ 3 → HasRisen (I.fault_count input.old) (I.fault_count input.new) }
    ensures write_fault { result.0 ≡ 4 → HasRisen (O.fault_count out.old) (O.fault_count out.new) }
{
    if !words.is_empty() {
        let _ = write_all(err, USAGE);
        return Status(2);
    }
    let end = draw_report(alloc, input, out);
    let _ = tell(err, end);
    Status(status_of(end))
}

const USAGE: &[u8] =
    b"perc-picture: usage: no words; a report on standard input gives a picture on standard output\n";

// The number of an end.
fn status_of(end: DrawEnd) -> u8
    ensures { result ≡ spec.status_of end }
{
    match end {
        DrawEnd::Done => 0,
        DrawEnd::Stopped(Stop::NotReport(_)) => 1,
        DrawEnd::Stopped(Stop::ReadFault) => 3,
        DrawEnd::WriteFault => 4,
        DrawEnd::Stopped(Stop::Memory) => 6,
    }
}

// Tells an end that isn't the picture. A fault of the error sink changes nothing.
fn tell<E: Sink>(err: &mut E, end: DrawEnd) -> Result<(), Failed> {
    match end {
        DrawEnd::Done => Ok(()),
        DrawEnd::Stopped(Stop::NotReport(line)) => tell_line(err, line),
        DrawEnd::Stopped(Stop::ReadFault) => write_all(err, b"perc-picture: read fault\n"),
        DrawEnd::WriteFault => write_all(err, b"perc-picture: write fault\n"),
        DrawEnd::Stopped(Stop::Memory) => write_all(err, b"perc-picture: memory\n"),
    }
}

// Tells of a line that is no line of a report.
fn tell_line<E: Sink>(err: &mut E, line: u64) -> Result<(), Failed> {
    let mut digits = Buffer::new();
    write_all(err, b"perc-picture: line ")?;
    write_all(err, digits.format(line).as_bytes())?;
    write_all(err, b": not a report line\n")
}
