// The outside, as the product sees it.
ghost use Rattle.std.specs.Prelude.{◌≡◌, ◌≤◌, ◌<◌, ℕ, List, Option, length, IfOk, OnOk, OnErr};
ghost use Rattle.perc_base.specs.Outside.{AppendsFront, Fills, HasRisen, TakesFront};

/// The answer of a failed call on the outside.
#[derive(Clone, Copy, Debug, PartialEq, Eq)]
pub struct Failed;

/// The answer of a call that found no memory, where nothing else can go wrong.
#[derive(Clone, Copy, Debug, PartialEq, Eq)]
pub struct Memory;

/// Where octets come from.
pub trait Source {
    /// The octets that are still to be read, where that is told.
    ghost left: { Self → Option (List ℕ) };

    /// How often a call has failed.
    ghost fault_count: { Self → ℕ };

    /// How often a call has failed; the count stands still at 2^64 - 1.
    fn faults(&self) -> u64
        ensures { result ≡ fault_count self.now };

    /// Reads octets into the front of the buffer, and answers how many. 0 for a buffer with room is the end.
    fn read(&mut self, into: &mut [u8]) -> Result<usize, Failed>
        ensures within { IfOk result (λ n. n ≤ length into.old) }
        ensures octets { IfOk result (λ n. TakesFront (left self.old) (left self.new) into.old into.new n) }
        ensures failed { OnErr result (HasRisen (fault_count self.old) (fault_count self.new)) }
        ensures kept { OnErr result (left self.new ≡ left self.old) }
        ensures never_falls { fault_count self.old ≤ fault_count self.new };
}

/// Where octets go.
pub trait Sink {
    /// All octets that were written, where that is told.
    ghost written: { Self → Option (List ℕ) };

    /// How often a call has failed.
    ghost fault_count: { Self → ℕ };

    /// How often a call has failed; the count stands still at 2^64 - 1.
    fn faults(&self) -> u64
        ensures { result ≡ fault_count self.now };

    /// Writes octets from the front of the piece, and answers how many: at least one, where the piece has any.
    fn write(&mut self, piece: &[u8]) -> Result<usize, Failed>
        ensures within { IfOk result (λ n. n ≤ length piece.now) }
        ensures progress { IfOk result (λ n. 0 < length piece.now → 0 < n) }
        ensures octets { IfOk result (λ n. AppendsFront (written self.old) (written self.new) piece.now n) }
        ensures failed { OnErr result (HasRisen (fault_count self.old) (fault_count self.new)) }
        ensures kept { OnErr result (written self.new ≡ written self.old) }
        ensures never_falls { fault_count self.old ≤ fault_count self.new };
}

/// Where random octets come from.
pub trait Randoms {
    /// The octets that are still to be drawn, where that is told.
    ghost left: { Self → Option (List ℕ) };

    /// How often a call has failed.
    ghost fault_count: { Self → ℕ };

    /// How often a call has failed; the count stands still at 2^64 - 1.
    fn faults(&self) -> u64
        ensures { result ≡ fault_count self.now };

    /// Fills the whole buffer with the next octets. After a failed call the buffer holds nothing stated.
    fn fill(&mut self, into: &mut [u8]) -> Result<(), Failed>
        ensures octets { OnOk result (Fills (left self.old) (left self.new) into.old into.new) }
        ensures failed { OnErr result (HasRisen (fault_count self.old) (fault_count self.new)) }
        ensures kept { OnErr result (left self.new ≡ left self.old) }
        ensures never_falls { fault_count self.old ≤ fault_count self.new };
}
