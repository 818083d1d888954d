// The top call.
ghost use Rattle.std.specs.Prelude.{◌≡◌, ◌≢◌, ◌≤◌, ◌⊎◌, ◌↔◌, ℕ, IsTrue, List, map, Some, IfSome, string_bytes};
ghost use Rattle.perc_base.specs.Outside.{HasRisen};
ghost use Rattle.perc_replay.specs.Replay.{Ends};
ghost use Rattle.perc_replay.specs.declared.run.ReplayEnd.{ReplayEnd as End};
ghost use Rattle.perc_app.specs.Status.{end_text, foreign_text, status_of, usage_status, usage_text};
ghost use Rattle.perc_base.specs.Written.{Tells};
ghost use Rattle.perc_app.specs.Made.{IsMake, IsMakeEnd, MakeEnds, Summed};
ghost use Rattle.perc_app.specs.Run.{Ended, HasNoFault, IsReplay, IsTrueReport};

use super::made::{rounds_in, run_made};
use super::write::write_pieces;
use perc_base::{Failed, Sink, Source};
use perc_headline::laws;
use perc_replay::{ReplayEnd, replay};
use std::alloc::Global;

/// The exit status of the program: 0 where all was done, 1 for words in no form, 2 for a script that is refused, 3 and 4 for a failed read
/// or write, 5 where something opens that nobody in the script made, 6 where no memory was found.
#[derive(Clone, Copy, Debug, PartialEq, Eq)]
pub struct Status(pub u8);

/// Does what the words say, with an input, an output and a sink for error texts. The words `replay` read a conference script from the
/// input and write its report to the output; `make N`, N from 1 to 1000, run the generated script of N rounds and write a summary.
pub fn run<I: Source, O: Sink, E: Sink>(
    alloc: Global,
    words: &[String],
    input: &mut I,
    out: &mut O,
    err: &mut E,
) -> Status
    // Words in no form: the input and the output aren't called, and nothing is written but the usage.
    ensures usage { (IsReplay (map string_bytes words.now) → ⊥) → ((rounds : ℕ) → IsMake (map string_bytes words.now) rounds → ⊥) → (result.0 ≡ usage_status)
        × (I.left input.new ≡ I.left input.old) × (O.written out.new ≡ O.written out.old)
        × (I.fault_count input.new ≡ I.fault_count input.old) × (O.fault_count out.new ≡ O.fault_count out.old)
        × Tells (E.written err.old) (E.written err.new) usage_text (E.fault_count err.old) (E.fault_count err.new) }

    // `replay` ends as its script and the outside say, with the status and the text of that end.
    ensures replay { IsReplay (map string_bytes words.now) → (end : End) × (result.0 ≡ status_of end)
        × IfSome (I.left input.old) (λ octets. IfSome (O.written out.old) (λ before. (after : List ℕ) × (O.written out.new ≡ Some after) × Ends octets before end (I.left input.new) after))
        × Tells (E.written err.old) (E.written err.new) (end_text end) (E.fault_count err.old) (E.fault_count err.new) }

    // What was written begins the report of the input, in which each accept line names one earlier send, as it was sent,
    // at most once for each member, and each genuine fresh packet is accepted; up to the first delivery in which something
    // opens that nobody made, where the report ends.
    ensures headline { IsReplay (map string_bytes words.now) → IfSome (I.left input.old) (λ octets. IfSome (O.written out.old) (λ before.
        (after : List ℕ) × (O.written out.new ≡ Some after) × IsTrueReport octets before after)) }

    // `make` calls the input never, and ends as its script and the output say. No line of the script is refused.
    ensures make { (rounds : ℕ) → IsMake (map string_bytes words.now) rounds → (end : End) × (result.0 ≡ status_of end) × IsMakeEnd end
        × (I.left input.new ≡ I.left input.old) × (I.fault_count input.new ≡ I.fault_count input.old)
        × IfSome (O.written out.old) (λ before. (after : List ℕ) × (O.written out.new ≡ Some after) × MakeEnds rounds before end after)
        × Tells (E.written err.old) (E.written err.new) (end_text end) (E.fault_count err.old) (E.fault_count err.new) }

    // Where no call on the output fails, the summary is written, or a datagram is foreign, or memory runs out.
    ensures summed { (rounds : ℕ) → IsMake (map string_bytes words.now) rounds → HasNoFault (O.fault_count out.old) (O.fault_count out.new)
        → IfSome (O.written out.old) (λ before. (after : List ℕ) × (O.written out.new ≡ Some after) × Summed rounds before result.0 after) }

    // A fault comes only where a call failed.
    ensures read_fault { result.0 ≡ 3 → HasRisen (I.fault_count input.old) (I.fault_count input.new) }
    ensures write_fault { result.0 ≡ 4 → HasRisen (O.fault_count out.old) (O.fault_count out.new) }

    // Where no call on input and output fails, the script is run to its end, or to the line that is refused or at which
    // a datagram is foreign, unless memory runs out.
    ensures complete { IsReplay (map string_bytes words.now) → HasNoFault (I.fault_count input.old) (I.fault_count input.new)
        → HasNoFault (O.fault_count out.old) (O.fault_count out.new)
        → IfSome (I.left input.old) (λ octets. IfSome (O.written out.old) (λ before. (after : List ℕ) × (O.written out.new ≡ Some after)
        × (Ended octets before result.0 (I.left input.new) after ⊎ (result.0 ≡ 6)))) }
{
    if let Some(rounds) = rounds_in(words) {
        let end = run_made(alloc, rounds, out);
        return ended(err, &end);
    }
    if !is_replay(words) {
        let _ = write_pieces(err, &[USAGE]);
        return Status(1);
    }
    // What every report is worth.
    laws::accepted_once_as_sent();
    laws::one_run();
    laws::ends_at_foreign();
    laws::each_nonce_once();
    laws::turn_by_turn();
    let end = replay(alloc, input, out);
    ended(err, &end)
}

const USAGE: &[u8] = b"perc: usage: replay, make, endpoint, distributor, keydist\n";

// Whether the words are `replay` alone.
fn is_replay(words: &[String]) -> bool
    ensures { IsTrue result ↔ IsReplay (map string_bytes words.now) }
{
    match words {
        [word] => word.as_str() == "replay",
        _ => false,
    }
}

// Tells how a script ended, and answers the status.
fn ended<E: Sink>(err: &mut E, end: &ReplayEnd) -> Status
    ensures status { result.0 ≡ status_of end.now }
    ensures told { Tells (E.written err.old) (E.written err.new) (end_text end.now) (E.fault_count err.old) (E.fault_count err.new) }
{
    tell(err, end);
    Status(status_number(end))
}

// The number of an end.
fn status_number(end: &ReplayEnd) -> u8
    ensures { result ≡ status_of end.now }
{
    match end {
        ReplayEnd::Done(_) => 0,
        ReplayEnd::Script { line: _, reason: _ } => 2,
        ReplayEnd::ReadFault => 3,
        ReplayEnd::WriteFault => 4,
        ReplayEnd::Foreign {
            line: _,
            endpoint: _,
        } => 5,
        ReplayEnd::Memory => 6,
    }
}

// A fault of the error sink changes nothing.
fn tell<E: Sink>(err: &mut E, end: &ReplayEnd)
    ensures { Tells (E.written err.old) (E.written err.new) (end_text end.now) (E.fault_count err.old) (E.fault_count err.new) }
{
    let _ = match end {
        ReplayEnd::Done(_) => Ok(()),
        ReplayEnd::Script { line, reason } => {
            let mut digits = itoa::Buffer::new();
            write_pieces(
                err,
                &[
                    b"perc: line ",
                    digits.format(*line).as_bytes(),
                    b": ",
                    reason.text(),
                    b"\n",
                ],
            )
        }
        ReplayEnd::Foreign { line, endpoint } => tell_foreign(err, *line, endpoint.as_bytes()),
        ReplayEnd::ReadFault => write_pieces(err, &[b"perc: read fault\n"]),
        ReplayEnd::WriteFault => write_pieces(err, &[b"perc: write fault\n"]),
        ReplayEnd::Memory => write_pieces(err, &[b"perc: memory\n"]),
    };
}

// Tells of a line at which a datagram is foreign at the member of this name.
fn tell_foreign<E: Sink>(err: &mut E, line: u32, name: &[u8]) -> Result<(), Failed>
    ensures { Tells (E.written err.old) (E.written err.new) (foreign_text line name.now) (E.fault_count err.old) (E.fault_count err.new) }
{
    let mut digits = itoa::Buffer::new();
    write_pieces(
        err,
        &[
            b"perc: line ",
            digits.format(line).as_bytes(),
            b": foreign tag or key at ",
            name,
            b"\n",
        ],
    )
}
