// A generated script, run and summed up.
ghost use Rattle.std.specs.Prelude.{◌≡◌, ◌≤◌, ◌∷◌, ◌++◌, ℕ, List, [], OnErr, OnOk, Some, None, IfSome, map, string_bytes};
ghost use Rattle.perc_base.specs.Outside.{HasRisen};
ghost use Rattle.perc_base.specs.Written.{Tells};
ghost use Rattle.perc_word.specs.Word.{number_in};
ghost use Rattle.perc_replay.specs.declared.run.ReplayEnd.{ReplayEnd as End};
ghost use Rattle.perc_app.specs.Made.{IsMake, IsMakeEnd, MakeEnds, sum_of, summary_text};

use super::write::write_pieces;
use itoa::Buffer;
use perc_base::{Failed, FaultlessSource, MemSink, Sink};
use perc_generated::laws::never_refused;
use perc_generator::make;
use perc_replay::{Counts, ReplayEnd, replay};
use perc_word::number;
use std::alloc::Global;

// How many rounds a script has at most.
const MOST_ROUNDS: u64 = 1000;

/// How many rounds the words `make N` ask for, from 1 to 1000. None for any other words.
pub fn rounds_in(words: &[String]) -> Option<u32>
    ensures is { IfSome result (λ rounds. IsMake (map string_bytes words.now) rounds) }
    ensures isnt { result ≡ None → (rounds : ℕ) → IsMake (map string_bytes words.now) rounds → ⊥ }
    ensures few { IfSome result (λ rounds. rounds ≤ 1000) }
{
    match words {
        [word, count] => rounds_behind(word.as_bytes(), count.as_bytes()),
        _ => None,
    }
}

// The number of rounds behind the word `make`.
fn rounds_behind(word: &[u8], count: &[u8]) -> Option<u32>
    ensures is { IfSome result (λ rounds. IsMake (word.now ∷ count.now ∷ []) rounds) }
    ensures isnt { result ≡ None → (rounds : ℕ) → IsMake (word.now ∷ count.now ∷ []) rounds → ⊥ }
    ensures few { IfSome result (λ rounds. rounds ≤ 1000) }
{
    if word != b"make".as_slice() {
        return None;
    }
    rounds_of(count)
}

// The number that a word spells, from 1 to 1000.
fn rounds_of(word: &[u8]) -> Option<u32>
    ensures is { IfSome result (λ rounds. (number_in 1000 word.now ≡ Some rounds) × (1 ≤ rounds) × (rounds ≤ 1000)) }
    ensures isnt { result ≡ None → (rounds : ℕ) → number_in 1000 word.now ≡ Some rounds → 1 ≤ rounds → ⊥ }
{
    let rounds = number(word, MOST_ROUNDS)?;
    if rounds == 0 {
        return None;
    }
    Some(rounds as u32)
}

/// Runs the script of so many rounds, at most 1000, over a source and a sink in memory, and writes the summary: how many lines and datagrams
/// it had, how many of these were accepted and refused, and the sum of its report's octets.
pub fn run_made<O: Sink>(alloc: Global, rounds: u32, out: &mut O) -> ReplayEnd
    requires few { rounds ≤ 1000 }
    ensures ends { IfSome (O.written out.old) (λ before. (after : List ℕ) × (O.written out.new ≡ Some after) × MakeEnds rounds before result after) }
    ensures kind { IsMakeEnd result }
    ensures write_fault { result ≡ End.WriteFault → HasRisen (O.fault_count out.old) (O.fault_count out.new) }
    ensures never_falls { O.fault_count out.old ≤ O.fault_count out.new }
{
    let mut script = Vec::new(alloc);
    if make(alloc, rounds, &mut script).is_err() {
        return ReplayEnd::Memory;
    }
    // No line of it is refused.
    never_refused();
    let mut input = FaultlessSource::new(script);
    let mut report = MemSink::new(alloc, usize::MAX, Vec::new(alloc));
    match replay(alloc, &mut input, &mut report) {
        ReplayEnd::Done(counts) => {
            let sum = sum(report.octets());
            match write_summary(out, rounds, &counts, sum) {
                Ok(()) => ReplayEnd::Done(counts),
                Err(Failed) => ReplayEnd::WriteFault,
            }
        }
        // The sink in memory fails for want of memory alone.
        ReplayEnd::WriteFault => ReplayEnd::Memory,
        end => end,
    }
}

// The sum of octets, in four octets.
fn sum(octets: &[u8]) -> u32
    ensures { result ≡ sum_of octets.now }
{
    let mut sum: u32 = 0;
    for octet in octets {
        sum = sum.wrapping_add(u32::from(*octet));
    }
    sum
}

fn write_summary<O: Sink>(out: &mut O, rounds: u32, counts: &Counts, sum: u32) -> Result<(), Failed>
    ensures told { Tells (O.written out.old) (O.written out.new) (summary_text rounds counts.now sum) (O.fault_count out.old) (O.fault_count out.new) }
    ensures whole { OnOk result (IfSome (O.written out.old) (λ before. O.written out.new ≡ Some (before ++ summary_text rounds counts.now sum))) }
    ensures failed { OnErr result (HasRisen (O.fault_count out.old) (O.fault_count out.new)) }
    ensures never_falls { O.fault_count out.old ≤ O.fault_count out.new }
{
    let mut made = Buffer::new();
    let mut lines = Buffer::new();
    let mut datagrams = Buffer::new();
    let mut accepted = Buffer::new();
    let mut refused = Buffer::new();
    let mut total = Buffer::new();
    write_pieces(
        out,
        &[
            b"made ",
            made.format(rounds).as_bytes(),
            b" lines ",
            lines.format(counts.lines).as_bytes(),
            b" datagrams ",
            datagrams.format(counts.datagrams).as_bytes(),
            b" accepted ",
            accepted.format(counts.accepted).as_bytes(),
            b" refused ",
            refused.format(counts.refused).as_bytes(),
            b" sum ",
            total.format(sum).as_bytes(),
            b"\n",
        ],
    )
}
