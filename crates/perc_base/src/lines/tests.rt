// Tests of the reader of lines.
ghost use Rattle.std.specs.Prelude.{◌≡◌, IfSome, length};
ghost use Rattle.perc_base.specs.Lines.{lines_before};

use super::{LineRead, Lines};
use crate::{Failed, FaultlessSource, MemSource, Source};
use std::alloc::Global;
use std::test::Fail;

#[derive(Clone, Copy, Debug, PartialEq, Eq)]
enum Answer {
    /// The line's first octet, or 0, and how many it has.
    Line(u8, usize),
    Long,
    End,
    Failed,
}

fn next_answer(lines: &mut Lines, from: &mut MemSource) -> Answer {
    match lines.next(from) {
        Ok(LineRead::Line(line)) => { Answer::Line(line.first().copied().unwrap_or(0), line.len()) }
        Ok(LineRead::Long) => Answer::Long,
        Ok(LineRead::End) => Answer::End,
        Err(Failed) => Answer::Failed,
    }
}

// How many lines come, where none is too long and no read fails.
fn count_lines<S: Source>(lines: &mut Lines, from: &mut S) -> Option<u64>
    ensures { IfSome result (λ n. IfSome (S.left from.old) (λ all. n ≡ length (lines_before lines.old all))) }
{
    for count in 0..u64::MAX {
        match lines.next(from) {
            Ok(LineRead::Line(_)) => {}
            Ok(LineRead::End) => return Some(count),
            Ok(LineRead::Long) | Err(_) => return None,
        }
    }
    None
}

// Each octet as often as its number says.
fn text(alloc: Global, runs: &[(u8, usize)]) -> Result<Vec<u8>, Fail> {
    let mut octets = Vec::new(alloc);
    for (octet, count) in runs {
        for _ in 0..*count {
            octets.push(*octet)?;
        }
    }
    Ok(octets)
}

#[test]
fn reads_lines(rt: HostRuntime) -> Result<(), Fail> {
    use Answer::{End, Line, Long};
    let cases: [(&[(u8, usize)], &[Answer]); 9] = [
        (&[], &[End, End]),
        (&[(b'\n', 1)], &[Line(0, 0), End, End]),
        (
            &[(b'a', 1), (b'\n', 1), (b'b', 1)],
            &[Line(b'a', 1), Line(b'b', 1), End, End],
        ),
        (&[(b'a', 1), (b'\n', 1)], &[Line(b'a', 1), End, End]),
        (&[(b'a', 8192)], &[Line(b'a', 8192), End, End]),
        (&[(b'a', 8192), (b'\n', 1)], &[Line(b'a', 8192), End, End]),
        (&[(b'a', 8193)], &[Long, Long]),
        (
            &[(b'a', 8192), (b'\n', 1), (b'b', 2)],
            &[Line(b'a', 8192), Line(b'b', 2), End],
        ),
        (&[(b'\n', 2)], &[Line(0, 0), Line(0, 0), End, End]),
    ];
    for most in [1, 2, 3, 7, 8192, 8193, 20000] {
        for (runs, wants) in cases {
            let octets = text(rt.alloc(), runs)?;
            let mut source = MemSource::new(octets, most, Vec::new(rt.alloc()));
            let mut lines = Lines::new(rt.alloc()).map_err(|_| "no memory")?;
            for want in wants {
                assert_eq!(rt;
                    next_answer(&mut lines, &mut source),
                    *want,
                    "{most} of {runs:?}"
                );
            }
        }
    }
    Ok(())
}

#[test]
fn goes_on_after_a_failed_read(rt: HostRuntime) -> Result<(), Fail> {
    for failing in 0..4 {
        let octets = b"aa\ncc".to_vec(rt.alloc())?;
        let mut source = MemSource::new(octets, 2, vec![in rt.alloc(); failing]?);
        let mut lines = Lines::new(rt.alloc()).map_err(|_| "no memory")?;
        for want in [Answer::Line(b'a', 2), Answer::Line(b'c', 2), Answer::End] {
            let mut got = next_answer(&mut lines, &mut source);
            if got == Answer::Failed {
                got = next_answer(&mut lines, &mut source);
            }
            assert_eq!(rt; got, want, "where read {failing} fails");
        }
        assert_eq!(rt; source.faults(), 1);
    }
    Ok(())
}

#[test]
fn counts_lines(rt: HostRuntime) -> Result<(), Fail> {
    let mut source = FaultlessSource::new(b"a\n\nb".to_vec(rt.alloc())?);
    let mut lines = Lines::new(rt.alloc()).map_err(|_| "no memory")?;
    assert_eq!(rt; count_lines(&mut lines, &mut source), Some(3));
    Ok(())
}
