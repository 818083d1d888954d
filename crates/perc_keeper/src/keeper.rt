// The keeper, as a key distributor sees it.
ghost use Rattle.std.specs.Prelude.{◌≡◌, ℕ, Option, IfOk, IfSome};
ghost use Rattle.perc_ekt.specs.Record.{IsRecord};
ghost use Rattle.perc_keeper.specs.Lists as spec;
ghost use Rattle.perc_keeper.specs.Lists.{Answers, Changes, Counts, HasKeys, Lists, MayIssue, MayJoin};

use perc_ekt::EktKeyRecord;
use perc_kdf::Master;
use perc_tunnel::MediaKeys;
use std::alloc::Global;
use thiserror::Error;

/// Why a call of a keeper did nothing.
#[derive(Clone, Copy, Debug, PartialEq, Eq, Error)]
pub enum KeepFault {
    /// The call failed, and was counted.
    #[error("the keeper failed")]
    Failed,
    /// There is no memory.
    #[error("out of memory")]
    Memory,
}

/// What is kept of one conference. A call that is refused changes nothing of it.
pub trait Keeper {
    /// The issued records, the outer pairs ever given, and the members, where that is told.
    ghost lists: { Self → Option Lists };

    /// How often a call has failed.
    ghost fault_count: { Self → ℕ };

    /// How often a call has failed; the count stands still at 2^64 - 1.
    fn faults(&self) -> u64
        ensures { result ≡ fault_count self.now };

    /// The issued record with the highest SPI.
    fn last(&mut self, alloc: Global) -> Result<Option<EktKeyRecord>, KeepFault>
        ensures answer { Answers (lists self.old) (λ l. spec.newest l.issued) result }
        ensures right { IfOk result (λ r. IfSome r IsRecord) }
        ensures kept { lists self.new ≡ lists self.old }
        ensures counted { Counts (fault_count self.old) result (fault_count self.new) };

    /// The SPI under which a key was issued.
    fn spi_of(&mut self, alloc: Global, key: &[u8]) -> Result<Option<u16>, KeepFault>
        ensures answer { Answers (lists self.old) (λ l. spec.spi_of l.issued key.now) result }
        ensures kept { lists self.new ≡ lists self.old }
        ensures counted { Counts (fault_count self.old) result (fault_count self.new) };

    /// Keeps an issued record. Its SPI is above all those issued, and its key is new.
    fn issue(&mut self, alloc: Global, issued: &EktKeyRecord) -> Result<(), KeepFault>
        requires right { IsRecord issued.now }
        requires may { IfSome (lists self.old) (MayIssue issued.now) }
        ensures lists { Changes (lists self.old) (spec.with_issued issued.now) result (lists self.new) }
        ensures counted { Counts (fault_count self.old) result (fault_count self.new) };

    /// The keys of a member.
    fn member(
        &mut self,
        alloc: Global,
        association: &[u8; 16],
    ) -> Result<Option<MediaKeys>, KeepFault>
        ensures answer { Answers (lists self.old) (λ l. spec.member_of l.members association.now) result }
        ensures right { IfOk result (λ keys. IfSome keys HasKeys) }
        ensures kept { lists self.new ≡ lists self.old }
        ensures counted { Counts (fault_count self.old) result (fault_count self.new) };

    /// Whether an outer pair was ever given, to a member that has left, too.
    fn pair_used(&mut self, alloc: Global, pair: &Master) -> Result<bool, KeepFault>
        ensures answer { Answers (lists self.old) (λ l. spec.was_given l.given pair.now) result }
        ensures kept { lists self.new ≡ lists self.old }
        ensures counted { Counts (fault_count self.old) result (fault_count self.new) };

    /// Keeps a new member with its two pairs, which differ and were never given. Both have keys of the profile's length.
    fn join(&mut self, alloc: Global, keys: &MediaKeys) -> Result<(), KeepFault>
        requires right { HasKeys keys.now }
        requires may { IfSome (lists self.old) (MayJoin keys.now) }
        ensures lists { Changes (lists self.old) (spec.with_member keys.now) result (lists self.new) }
        ensures counted { Counts (fault_count self.old) result (fault_count self.new) };

    /// Lets a member go, and answers whether there was one. Its pairs stay given.
    fn leave(&mut self, alloc: Global, association: &[u8; 16]) -> Result<bool, KeepFault>
        ensures answer { Answers (lists self.old) (λ l. spec.is_member l.members association.now) result }
        ensures lists { Changes (lists self.old) (spec.without_member association.now) result (lists self.new) }
        ensures counted { Counts (fault_count self.old) result (fault_count self.new) };

    /// The names of the members, in order of joining.
    fn members(&mut self, alloc: Global) -> Result<Vec<[u8; 16]>, KeepFault>
        ensures answer { IfOk result (λ names. IfSome (lists self.old) (λ l. names.items ≡ spec.names_of l.members)) }
        ensures kept { lists self.new ≡ lists self.old }
        ensures counted { Counts (fault_count self.old) result (fault_count self.new) };
}
