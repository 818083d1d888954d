// The program `perc-picture`: the top call over the real input and outputs. It exits with the status of the call.
#![tactic(auto)]

use perc_base::{StdSink, StdSource};
use perc_drawing::{Status, run};
use std::process::ExitCode;
use std::{env, io};

// The words after the program's name.
fn words(rt: &HostRuntime) -> io::Result<Vec<String>> {
    Ok(env::args(rt)?.skip(1).collect(rt.alloc())?)
}

fn main(rt: HostRuntime) -> ExitCode {
    let words = match words(&rt) {
        Ok(words) => words,
        Err(error) if error.kind() == io::ErrorKind::OutOfMemory => return ExitCode::from(6),
        // A word that is no text is a word.
        Err(_) => return ExitCode::from(2),
    };
    let mut input = StdSource::new(rt.stdin());
    let mut out = StdSink::new(rt.stdout());
    let mut err = StdSink::new(rt.stderr());
    let Status(status) = run(rt.alloc(), &words, &mut input, &mut out, &mut err);
    ExitCode::from(status)
}
