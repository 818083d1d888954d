// The keeper of a script.
ghost use Rattle.std.specs.Prelude.{◌≡◌, [], Some, IfOk};
ghost use Rattle.perc_keeper.specs.Lists.{nothing};
ghost use Rattle.perc_keeper.specs.Memory.{mem_calls};

use perc_base::Memory;
use perc_ekt::EktKeyRecord;
use perc_kdf::Master;
use perc_keeper::{KeepFault, Keeper, MemKeeper};
use perc_tunnel::MediaKeys;
use std::alloc::Global;

// A keeper in memory of which no call fails: each is refused for want of memory alone.
#[derive(Drop)]
pub struct FaultlessKeeper {
    inner: MemKeeper,
    ghost faultless: { (mem_calls inner).failing ≡ [] },
}

impl FaultlessKeeper {
    ghost use Rattle.perc_key_service.specs.Keeper.{faultless_lists};

    // One that has kept nothing.
    pub fn new(alloc: Global) -> Result<FaultlessKeeper, Memory>
        ensures { IfOk result (λ keeper. faultless_lists keeper ≡ nothing) }
    {
        Ok(FaultlessKeeper {
            inner: MemKeeper::new(alloc)?,
        })
    }
}

impl Keeper for FaultlessKeeper {
    ghost use Rattle.perc_key_service.specs.Keeper.{faultless_lists};

    ghost lists = { λ keeper. Some (faultless_lists keeper) };

    ghost fault_count = { λ _. 0 };

    fn faults(&self) -> u64 {
        0
    }

    fn last(&mut self, alloc: Global) -> Result<Option<EktKeyRecord>, KeepFault> {
        self.inner.last(alloc)
    }

    fn spi_of(&mut self, alloc: Global, key: &[u8]) -> Result<Option<u16>, KeepFault> {
        self.inner.spi_of(alloc, key)
    }

    fn issue(&mut self, alloc: Global, issued: &EktKeyRecord) -> Result<(), KeepFault> {
        self.inner.issue(alloc, issued)
    }

    fn member(
        &mut self,
        alloc: Global,
        association: &[u8; 16],
    ) -> Result<Option<MediaKeys>, KeepFault> {
        self.inner.member(alloc, association)
    }

    fn pair_used(&mut self, alloc: Global, pair: &Master) -> Result<bool, KeepFault> {
        self.inner.pair_used(alloc, pair)
    }

    fn join(&mut self, alloc: Global, keys: &MediaKeys) -> Result<(), KeepFault> {
        self.inner.join(alloc, keys)
    }

    fn leave(&mut self, alloc: Global, association: &[u8; 16]) -> Result<bool, KeepFault> {
        self.inner.leave(alloc, association)
    }

    fn members(&mut self, alloc: Global) -> Result<Vec<[u8; 16]>, KeepFault> {
        self.inner.members(alloc)
    }
}
