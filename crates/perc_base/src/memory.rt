// Sources and sinks in memory.
ghost use Rattle.std.specs.Prelude.{◌≡◌, ◌==◌, ◌+◌, ◌-◌, ◌^◌, ◌<◌, ◌≤◌, ◌++◌, [], false, if◌then◌else◌, Some, Ok, IfOk, OnErr, drop, length, min, take, vec_len};
ghost use Rattle.std.specs.List.{list_any};
ghost use Rattle.std.specs.Result.{is_ok};
ghost use Rattle.perc_base.specs.Outside.{one_more, AppendsFront, HasRisen, TakesFront};

use super::{Failed, Sink, Source};
use std::alloc::Global;

/// A source of octets in memory. It gives at most a set number of octets to a read, and the reads with the given
/// numbers fail, counted from 0.
#[derive(Drop)]
pub struct MemSource {
    octets: Vec<u8>,
    /// How many octets were read.
    place: usize,
    /// How many octets a read gives at most.
    most: usize,
    /// How often `read` was called.
    calls: u64,
    failing: Vec<u64>,
    fault_count: u64,
    ghost some: { 0 < most },
    ghost within: { place ≤ vec_len octets },
}

impl MemSource {
    ghost use Rattle.perc_base.specs.Memory.{mem_left, mem_source_plan, mem_source_faults};

    /// A source of these octets, at most `most` of them a read.
    pub fn new(octets: Vec<u8>, most: usize, failing: Vec<u64>) -> MemSource
        requires { 0 < most }
        ensures left { mem_left result ≡ octets.items }
        ensures plan { mem_source_plan result ≡ record { most = most; calls = 0; failing = failing.items } }
        ensures faults { mem_source_faults result ≡ 0 }
    {
        MemSource {
            octets,
            place: 0,
            most,
            calls: 0,
            failing,
            fault_count: 0,
        }
    }
}

impl Source for MemSource {
    ghost use Rattle.perc_base.specs.Memory.{mem_left, mem_source_plan, mem_source_faults, after_call, is_to_fail, planned};

    ghost left = { λ source. Some (mem_left source) };

    ghost fault_count = { mem_source_faults };

    fn faults(&self) -> u64 {
        self.fault_count
    }

    fn read(&mut self, into: &mut [u8]) -> Result<usize, Failed>
        ensures within { IfOk result (λ n. n ≤ length into.old) }
        ensures octets { IfOk result
            (λ n. TakesFront (Some (mem_left self.old)) (Some (mem_left self.new)) into.old into.new n) }
        ensures failed { OnErr result (HasRisen (mem_source_faults self.old) (mem_source_faults self.new)) }
        ensures kept { OnErr result (Some (mem_left self.new) ≡ Some (mem_left self.old)) }
        ensures never_falls { mem_source_faults self.old ≤ mem_source_faults self.new }
        ensures answer { result ≡ planned (mem_source_plan self.old)
            (min (length (mem_left self.old)) (length into.old)) }
        ensures plan { mem_source_plan self.new ≡ after_call (mem_source_plan self.old) }
        ensures counted { mem_source_faults self.new ≡
            (if is_to_fail (mem_source_plan self.old) then one_more
            (mem_source_faults self.old) else mem_source_faults self.old) }
        ensures unchanged { OnErr result (into.new ≡ into.old) }
    {
        if is_failing(&mut self.calls, self.failing.as_slice()) {
            self.fault_count = self.fault_count.saturating_add(1);
            return Err(Failed);
        }
        let n = copy_front(&self.octets.as_slice()[self.place..], into, self.most);
        self.place += n;
        Ok(n)
    }
}

/// A source of octets in memory that never fails.
#[derive(Drop)]
pub struct FaultlessSource {
    octets: Vec<u8>,
    /// How many octets were read.
    place: usize,
    ghost within: { place ≤ vec_len octets },
}

impl FaultlessSource {
    ghost use Rattle.perc_base.specs.Memory.{faultless_left};

    /// A source of these octets.
    pub fn new(octets: Vec<u8>) -> FaultlessSource
        ensures { faultless_left result ≡ octets.items }
    {
        FaultlessSource { octets, place: 0 }
    }
}

impl Source for FaultlessSource {
    ghost use Rattle.perc_base.specs.Memory.{faultless_left};

    ghost left = { λ source. Some (faultless_left source) };

    ghost fault_count = { λ _. 0 };

    fn faults(&self) -> u64 {
        0
    }

    fn read(&mut self, into: &mut [u8]) -> Result<usize, Failed>
        ensures within { IfOk result (λ n. n ≤ length into.old) }
        ensures octets { IfOk result
            (λ n. TakesFront (Some (faultless_left self.old)) (Some (faultless_left self.new)) into.old into.new n) }
        ensures answer { result ≡ Ok (min (length (faultless_left self.old)) (length into.old)) }
    {
        let n = copy_front(&self.octets.as_slice()[self.place..], into, usize::MAX);
        self.place += n;
        Ok(n)
    }
}

/// A sink in memory, which keeps all octets that are written. It takes at most a set number of octets of a write, and
/// the writes with the given numbers fail, counted from 0.
#[derive(Drop)]
pub struct MemSink {
    octets: Vec<u8>,
    /// How many octets a write takes at most.
    most: usize,
    /// How often `write` was called.
    calls: u64,
    failing: Vec<u64>,
    fault_count: u64,
    ghost some: { 0 < most },
}

impl MemSink {
    ghost use Rattle.perc_base.specs.Memory.{mem_written, mem_sink_plan, mem_sink_faults};

    /// A sink that holds nothing. It takes at most `most` octets a write.
    pub fn new(alloc: Global, most: usize, failing: Vec<u64>) -> MemSink
        requires { 0 < most }
        ensures written { mem_written result ≡ [] }
        ensures plan { mem_sink_plan result ≡ record { most = most; calls = 0; failing = failing.items } }
        ensures faults { mem_sink_faults result ≡ 0 }
    {
        MemSink {
            octets: Vec::new(alloc),
            most,
            calls: 0,
            failing,
            fault_count: 0,
        }
    }

    /// All octets that were written.
    pub fn octets(&self) -> &[u8]
        ensures { result.now ≡ mem_written self.now }
    {
        self.octets.as_slice()
    }
}

impl Sink for MemSink {
    ghost use Rattle.perc_base.specs.Memory.{mem_written, mem_sink_plan, mem_sink_faults, after_call, is_to_fail};

    ghost written = { λ sink. Some (mem_written sink) };

    ghost fault_count = { mem_sink_faults };

    fn faults(&self) -> u64 {
        self.fault_count
    }

    fn write(&mut self, piece: &[u8]) -> Result<usize, Failed>
        ensures within { IfOk result (λ n. n ≤ length piece.now) }
        ensures progress { IfOk result (λ n. 0 < length piece.now → 0 < n) }
        ensures octets { IfOk result
            (λ n. AppendsFront (Some (mem_written self.old)) (Some (mem_written self.new)) piece.now n) }
        ensures failed { OnErr result (HasRisen (mem_sink_faults self.old) (mem_sink_faults self.new)) }
        ensures kept { OnErr result (Some (mem_written self.new) ≡ Some (mem_written self.old)) }
        ensures never_falls { mem_sink_faults self.old ≤ mem_sink_faults self.new }
        ensures answer { IfOk result
            (λ n. (is_to_fail (mem_sink_plan self.old) ≡ false) ×
            (n ≡ min (length piece.now) (mem_sink_plan self.old).most)) }
        ensures plan { mem_sink_plan self.new ≡ after_call (mem_sink_plan self.old) }
        ensures counted { mem_sink_faults self.new ≡
            (if is_ok result then mem_sink_faults self.old else one_more (mem_sink_faults self.old)) }
    {
        let n = piece.len().min(self.most);
        if is_failing(&mut self.calls, self.failing.as_slice())
            || self.octets.extend_from_slice(&piece[..n]).is_err()
        {
            self.fault_count = self.fault_count.saturating_add(1);
            return Err(Failed);
        }
        Ok(n)
    }
}

/// Counts a call of an object in memory, and answers whether it is to fail: whether the number of the calls before it is
/// among these.
pub fn is_failing(calls: &mut u64, failing: &[u64]) -> bool
    ensures answer { result ≡ list_any (λ call. call == calls.old) failing.now }
    ensures counted { calls.new ≡ min (calls.old + 1) (2 ^ 64 - 1) }
{
    let call = *calls;
    *calls = call.saturating_add(1);
    failing.contains(&call)
}

/// Copies octets into the front of the room, at most `most` of them, and answers how many.
fn copy_front(octets: &[u8], into: &mut [u8], most: usize) -> usize
    ensures count { result ≡ min (min (length octets.now) (length into.old)) most }
    ensures copied { into.new ≡ take result octets.now ++ drop result into.old }
{
    let n = octets.len().min(into.len()).min(most);
    into[..n].copy_from_slice(&octets[..n]);
    n
}

#[cfg(test)]
mod tests {
    use super::*;
    use std::test::Fail;

    #[test]
    fn keeps_what_is_written(rt: HostRuntime) -> Result<(), Fail> {
        let mut sink = MemSink::new(rt.alloc(), 3, vec![in rt.alloc(); 1]?);
        assert_eq!(rt; sink.write(b"abcde"), Ok(3));
        assert_eq!(rt; sink.write(b"de"), Err(Failed));
        assert_eq!(rt; sink.octets(), b"abc".as_slice());
        assert_eq!(rt; sink.write(b"de"), Ok(2));
        assert_eq!(rt; sink.octets(), b"abcde".as_slice());
        assert_eq!(rt; sink.faults(), 1);
        Ok(())
    }
}
