// Random octets in memory.
ghost use Rattle.std.specs.Prelude.{◌≡◌, ◌≢◌, ◌+◌, ◌-◌, ◌<◌, ◌≤◌, ◌++◌, ◌||◌, if◌then◌else◌, nat_lt, Some, Ok, Err, IsErr, OnOk, OnErr, IsTrue, drop, length, min, replicate, take, vec_len};
ghost use Rattle.std.specs.Result.{is_ok};
ghost use Rattle.perc_base.specs.Outside.{one_more, drawn, Fills, HasRisen};

use super::memory::is_failing;
use super::{Failed, Randoms};

/// Random octets in memory, which are drawn in order. The calls with the given numbers fail, counted from 0, and so does
/// one that asks for more octets than are left.
#[derive(Drop)]
pub struct MemRandoms {
    octets: Vec<u8>,
    /// How many octets were drawn.
    place: usize,
    /// How often `fill` was called.
    calls: u64,
    failing: Vec<u64>,
    fault_count: u64,
    ghost within: { place ≤ vec_len octets },
}

impl MemRandoms {
    ghost use Rattle.perc_base.specs.Memory.{mem_randoms_left, mem_randoms_calls, mem_randoms_faults};

    /// These octets, from the first on.
    pub fn new(octets: Vec<u8>, failing: Vec<u64>) -> MemRandoms
        ensures left { mem_randoms_left result ≡ octets.items }
        ensures calls { mem_randoms_calls result ≡ record { made = 0; failing = failing.items } }
        ensures faults { mem_randoms_faults result ≡ 0 }
    {
        MemRandoms {
            octets,
            place: 0,
            calls: 0,
            failing,
            fault_count: 0,
        }
    }
}

impl Randoms for MemRandoms {
    ghost use Rattle.perc_base.specs.Memory.{mem_randoms_left, mem_randoms_calls, mem_randoms_faults, next_fails, one_made};

    ghost left = { λ randoms. Some (mem_randoms_left randoms) };

    ghost fault_count = { mem_randoms_faults };

    fn faults(&self) -> u64 {
        self.fault_count
    }

    fn fill(&mut self, into: &mut [u8]) -> Result<(), Failed>
        ensures octets { OnOk result
            (Fills (Some (mem_randoms_left self.old)) (Some (mem_randoms_left self.new)) into.old into.new) }
        ensures failed { OnErr result (HasRisen (mem_randoms_faults self.old) (mem_randoms_faults self.new)) }
        ensures kept { OnErr result (Some (mem_randoms_left self.new) ≡ Some (mem_randoms_left self.old)) }
        ensures never_falls { mem_randoms_faults self.old ≤ mem_randoms_faults self.new }
        ensures answer { result ≡ (if next_fails (mem_randoms_calls self.old) ||
            nat_lt (length (mem_randoms_left self.old)) (length into.old) then Err (record {}) else Ok (record {})) }
        ensures calls { mem_randoms_calls self.new ≡ one_made (mem_randoms_calls self.old) }
        ensures counted { mem_randoms_faults self.new ≡
            (if is_ok result then mem_randoms_faults self.old else one_more (mem_randoms_faults self.old)) }
        ensures unchanged { OnErr result (into.new ≡ into.old) }
    {
        let fails = is_failing(&mut self.calls, self.failing.as_slice());
        if fails || self.octets.len() - self.place < into.len() {
            self.fault_count = self.fault_count.saturating_add(1);
            return Err(Failed);
        }
        draw(self.octets.as_slice(), &mut self.place, into);
        Ok(())
    }
}

/// Random octets in memory, which are drawn in order. Past their end it gives zero octets, and it never fails.
#[derive(Drop)]
pub struct FaultlessRandoms {
    octets: Vec<u8>,
    /// How many octets were drawn.
    place: usize,
    ghost within: { place ≤ vec_len octets },
}

impl FaultlessRandoms {
    ghost use Rattle.perc_base.specs.Memory.{faultless_randoms_left};

    /// These octets, from the first on.
    pub fn new(octets: Vec<u8>) -> FaultlessRandoms
        ensures { faultless_randoms_left result ≡ octets.items }
    {
        FaultlessRandoms { octets, place: 0 }
    }
}

impl Randoms for FaultlessRandoms {
    ghost use Rattle.perc_base.specs.Memory.{faultless_randoms_left};

    ghost left = { λ randoms. Some (faultless_randoms_left randoms) };

    ghost fault_count = { λ _. 0 };

    fn faults(&self) -> u64 {
        0
    }

    fn fill(&mut self, into: &mut [u8]) -> Result<(), Failed>
        ensures octets { OnOk result
            (Fills (Some (faultless_randoms_left self.old)) (Some (faultless_randoms_left self.new)) into.old into.new) }
        ensures answer { result ≡ Ok (record {}) }
    {
        draw(self.octets.as_slice(), &mut self.place, into);
        Ok(())
    }
}

/// Fills the buffer with the octets from this place on, with zeros past their end, and moves the place behind them.
fn draw(octets: &[u8], place: &mut usize, into: &mut [u8])
    requires { place.old ≤ length octets.now }
    ensures octets { into.new ≡ drawn (length into.old) (drop place.old octets.now) }
    ensures moved { drop place.new octets.now ≡ drop (length into.old) (drop place.old octets.now) }
    ensures within { place.new ≤ length octets.now }
{
    let left = &octets[*place..];
    let n = left.len().min(into.len());
    into[..n].copy_from_slice(&left[..n]);
    into[n..].fill(0);
    *place += n;
}

#[cfg(test)]
mod tests {
    use super::*;
    use std::test::Fail;

    #[test]
    fn draws_in_order(rt: HostRuntime) -> Result<(), Fail> {
        let octets = vec![in rt.alloc(); 1, 2, 3, 4, 5]?;
        let mut randoms = MemRandoms::new(octets, vec![in rt.alloc(); 1]?);
        let mut two = [0; 2];
        assert_eq!(rt; randoms.fill(&mut two), Ok(()));
        assert_eq!(rt; two, [1, 2]);
        assert_eq!(rt; randoms.fill(&mut two), Err(Failed));
        assert_eq!(rt; randoms.fill(&mut [0; 4]), Err(Failed));
        assert_eq!(rt; randoms.faults(), 2);
        assert_eq!(rt; randoms.fill(&mut two), Ok(()));
        assert_eq!(rt; two, [3, 4]);
        let mut endless = FaultlessRandoms::new(vec![in rt.alloc(); 7]?);
        assert_eq!(rt; endless.fill(&mut two), Ok(()));
        assert_eq!(rt; two, [7, 0]);
        assert_eq!(rt; endless.fill(&mut two), Ok(()));
        assert_eq!(rt; two, [0, 0]);
        assert_eq!(rt; endless.faults(), 0);
        Ok(())
    }
}
