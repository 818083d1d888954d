// Sources and sinks over std's readers and writers.
ghost use Rattle.std.specs.Prelude.{◌≡◌, ◌<◌, ◌≤◌, if◌then◌else◌, None, IfOk, OnErr, length};
ghost use Rattle.std.specs.Result.{is_ok};
ghost use Rattle.std.specs.Io.KnownBytes.{ReadConsumes, WriteAppends};
ghost use Rattle.perc_base.specs.Outside.{one_more, HasRisen};
ghost use Rattle.perc_base.specs.Standard.{source_reader, source_faults, sink_writer, sink_faults};

use super::{Failed, Sink, Source};
use std::io::{Read, Write};

/// A reader of std as a source.
#[derive(Drop)]
pub struct StdSource<R> {
    reader: R,
    fault_count: u64,
}

impl<R: Read> StdSource<R> {
    /// A source that reads from this reader.
    pub fn new(reader: R) -> StdSource<R>
        ensures reader { source_reader result ≡ reader }
        ensures faults { source_faults result ≡ 0 }
    {
        StdSource {
            reader,
            fault_count: 0,
        }
    }
}

impl<R: Read> Source for StdSource<R> {
    ghost left = { λ _. None };

    ghost fault_count = { source_faults };

    fn faults(&self) -> u64 {
        self.fault_count
    }

    fn read(&mut self, into: &mut [u8]) -> Result<usize, Failed>
        ensures within { IfOk result (λ n. n ≤ length into.old) }
        ensures failed { OnErr result (HasRisen (source_faults self.old) (source_faults self.new)) }
        ensures never_falls { source_faults self.old ≤ source_faults self.new }
        ensures counted { source_faults self.new ≡
            (if is_ok result then source_faults self.old else one_more (source_faults self.old)) }
        ensures bytes { ReadConsumes (R.remaining (source_reader self.old))
            (R.remaining (source_reader self.new)) result into.new }
    {
        match self.reader.read(into) {
            Ok(n) => Ok(n),
            Err(_) => {
                self.fault_count = self.fault_count.saturating_add(1);
                Err(Failed)
            }
        }
    }
}

/// A writer of std as a sink. A write that takes nothing of a piece is a failure.
#[derive(Drop)]
pub struct StdSink<W> {
    writer: W,
    fault_count: u64,
}

impl<W: Write> StdSink<W> {
    /// A sink that writes to this writer.
    pub fn new(writer: W) -> StdSink<W>
        ensures writer { sink_writer result ≡ writer }
        ensures faults { sink_faults result ≡ 0 }
    {
        StdSink {
            writer,
            fault_count: 0,
        }
    }
}

impl<W: Write> Sink for StdSink<W> {
    ghost written = { λ _. None };

    ghost fault_count = { sink_faults };

    fn faults(&self) -> u64 {
        self.fault_count
    }

    fn write(&mut self, piece: &[u8]) -> Result<usize, Failed>
        ensures within { IfOk result (λ n. n ≤ length piece.now) }
        ensures progress { IfOk result (λ n. 0 < length piece.now → 0 < n) }
        ensures failed { OnErr result (HasRisen (sink_faults self.old) (sink_faults self.new)) }
        ensures never_falls { sink_faults self.old ≤ sink_faults self.new }
        ensures counted { sink_faults self.new ≡
            (if is_ok result then sink_faults self.old else one_more (sink_faults self.old)) }
        ensures bytes { WriteAppends (W.contents (sink_writer self.old))
            (W.contents (sink_writer self.new)) result piece.now }
    {
        match self.writer.write(piece) {
            Ok(n) if n > 0 || piece.is_empty() => Ok(n),
            _ => {
                self.fault_count = self.fault_count.saturating_add(1);
                Err(Failed)
            }
        }
    }
}

#[cfg(test)]
mod tests {
    use super::*;
    use std::test::Fail;

    #[test]
    fn reads_a_slice(rt: HostRuntime) {
        let mut source = StdSource::new(b"abc".as_slice());
        let mut into = [0; 2];
        for (want, octets) in [(2, b"ab"), (1, b"cb"), (0, b"cb")] {
            assert_eq!(rt; source.read(&mut into), Ok(want));
            assert_eq!(rt; into.as_slice(), octets.as_slice());
        }
        assert_eq!(rt; source.faults(), 0);
    }

    #[test]
    fn writes_to_a_vec(rt: HostRuntime) -> Result<(), Fail> {
        let mut sink = StdSink::new(Vec::new(rt.alloc()));
        assert_eq!(rt; sink.write(b"abc"), Ok(3));
        assert_eq!(rt; sink.write(b""), Ok(0));
        assert_eq!(rt; sink.faults(), 0);
        Ok(())
    }

    #[test]
    fn fails_where_nothing_is_taken(rt: HostRuntime) {
        let mut room = [0; 2];
        let mut sink = StdSink::new(room.as_mut_slice());
        assert_eq!(rt; sink.write(b"abc"), Ok(2));
        assert_eq!(rt; sink.write(b"c"), Err(Failed));
        assert_eq!(rt; sink.faults(), 1);
    }
}
