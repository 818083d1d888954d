// A keeper in memory.
ghost use Rattle.std.specs.Prelude.{◌≡◌, not, if◌then◌else◌, [], All, Some, None, Ok, Err, IfOk, IfSome, OnOk, OnErr, length, take};
ghost use Rattle.std.specs.Option.{option_map};
ghost use Rattle.perc_base.specs.Memory.{next_fails};
ghost use Rattle.perc_ekt.specs.Record.{IsRecord};
ghost use Rattle.perc_keeper.specs.Lists as spec;
ghost use Rattle.perc_keeper.specs.Lists.{Answers, Changes, Counts, HasKeys, MayIssue, MayJoin};

use crate::{KeepFault, Keeper};
use given::Given;
use issued::Issued;
use perc_base::{Memory, is_failing};
use perc_ekt::EktKeyRecord;
use perc_kdf::Master;
use perc_tunnel::MediaKeys;
use std::alloc::{AllocError, Global};
use std::marker::Model;

mod given;
mod issued;

/// A keeper in memory, which tells what it keeps. The calls with the given numbers fail, counted from 0 over all calls but
/// `faults`. Keys and pairs are looked up in maps.
#[derive(Drop)]
pub struct MemKeeper {
    issued: Issued,
    given: Given,
    members: Vec<Member>,
    /// How many calls were made.
    calls: u64,
    failing: Vec<u64>,
    fault_count: u64,
    ghost right: { All HasKeys members.items },
}

impl MemKeeper {
    ghost use Rattle.perc_keeper.specs.Memory.{mem_calls, mem_faults, mem_lists};

    /// A keeper that has kept nothing, of which no call fails.
    pub fn new(alloc: Global) -> Result<MemKeeper, Memory>
        ensures lists { IfOk result (λ keeper. mem_lists keeper ≡ spec.nothing) }
        ensures calls { IfOk result (λ keeper. mem_calls keeper ≡ record { made = 0; failing = [] }) }
        ensures faults { IfOk result (λ keeper. mem_faults keeper ≡ 0) }
    {
        MemKeeper::with_failing(alloc, Vec::new(alloc))
    }

    /// A keeper that has kept nothing, of which these calls fail.
    pub fn with_failing(alloc: Global, failing: Vec<u64>) -> Result<MemKeeper, Memory>
        ensures lists { IfOk result (λ keeper. mem_lists keeper ≡ spec.nothing) }
        ensures calls { IfOk result (λ keeper. mem_calls keeper ≡ record { made = 0; failing = failing.items }) }
        ensures faults { IfOk result (λ keeper. mem_faults keeper ≡ 0) }
    {
        Ok(MemKeeper {
            issued: Issued::new(alloc),
            given: Given::new(alloc),
            members: Vec::new(alloc),
            calls: 0,
            failing,
            fault_count: 0,
        })
    }
}

impl MemKeeper {
    ghost use Rattle.perc_keeper.specs.Memory.{IsCall, mem_calls, mem_faults, mem_lists};

    // Counts a call, and fails where it is to.
    fn make_call(&mut self) -> Result<(), KeepFault>
        ensures answer { result ≡ (if next_fails (mem_calls self.old) then Err KeepFault.Failed else Ok (record {})) }
        ensures kept { mem_lists self.new ≡ mem_lists self.old }
        ensures counted { Counts (mem_faults self.old) result (mem_faults self.new) }
        ensures call { IsCall self.old result self.new }
    {
        if is_failing(&mut self.calls, self.failing.as_slice()) {
            self.fault_count = self.fault_count.saturating_add(1);
            return Err(KeepFault::Failed);
        }
        Ok(())
    }
}

impl Keeper for MemKeeper {
    ghost use Rattle.perc_keeper.specs.Memory.{IsCall, mem_faults, mem_lists};

    ghost lists = { λ keeper. Some (mem_lists keeper) };

    ghost fault_count = { mem_faults };

    fn faults(&self) -> u64 {
        self.fault_count
    }

    fn last(&mut self, alloc: Global) -> Result<Option<EktKeyRecord>, KeepFault>
        ensures answer { Answers (Some (mem_lists self.old)) (λ l. spec.newest l.issued) result }
        ensures right { IfOk result (λ r. IfSome r IsRecord) }
        ensures kept { Some (mem_lists self.new) ≡ Some (mem_lists self.old) }
        ensures counted { Counts (mem_faults self.old) result (mem_faults self.new) }
        ensures call { IsCall self.old result self.new }
    {
        self.make_call()?;
        Ok(self.issued.newest())
    }

    fn spi_of(&mut self, alloc: Global, key: &[u8]) -> Result<Option<u16>, KeepFault>
        ensures answer { Answers (Some (mem_lists self.old)) (λ l. spec.spi_of l.issued key.now) result }
        ensures kept { Some (mem_lists self.new) ≡ Some (mem_lists self.old) }
        ensures counted { Counts (mem_faults self.old) result (mem_faults self.new) }
        ensures call { IsCall self.old result self.new }
    {
        self.make_call()?;
        Ok(self.issued.spi_of(key))
    }

    fn issue(&mut self, alloc: Global, issued: &EktKeyRecord) -> Result<(), KeepFault>
        requires right { IsRecord issued.now }
        requires may { IfSome (Some (mem_lists self.old)) (MayIssue issued.now) }
        ensures lists { Changes (Some (mem_lists self.old)) (spec.with_issued issued.now) result (Some (mem_lists self.new)) }
        ensures counted { Counts (mem_faults self.old) result (mem_faults self.new) }
        ensures call { IsCall self.old result self.new }
    {
        self.make_call()?;
        self.issued.issue(issued).map_err(|_| KeepFault::Memory)
    }

    fn member(
        &mut self,
        alloc: Global,
        association: &[u8; 16],
    ) -> Result<Option<MediaKeys>, KeepFault>
        ensures answer { Answers (Some (mem_lists self.old)) (λ l. spec.member_of l.members association.now) result }
        ensures right { IfOk result (λ keys. IfSome keys HasKeys) }
        ensures kept { Some (mem_lists self.new) ≡ Some (mem_lists self.old) }
        ensures counted { Counts (mem_faults self.old) result (mem_faults self.new) }
        ensures call { IsCall self.old result self.new }
    {
        self.make_call()?;
        Ok(keys_of(self.members.as_slice(), association))
    }

    fn pair_used(&mut self, alloc: Global, pair: &Master) -> Result<bool, KeepFault>
        ensures answer { Answers (Some (mem_lists self.old)) (λ l. spec.was_given l.given pair.now) result }
        ensures kept { Some (mem_lists self.new) ≡ Some (mem_lists self.old) }
        ensures counted { Counts (mem_faults self.old) result (mem_faults self.new) }
        ensures call { IsCall self.old result self.new }
    {
        self.make_call()?;
        Ok(self.given.has(pair))
    }

    fn join(&mut self, alloc: Global, keys: &MediaKeys) -> Result<(), KeepFault>
        requires right { HasKeys keys.now }
        requires may { IfSome (Some (mem_lists self.old)) (MayJoin keys.now) }
        ensures lists { Changes (Some (mem_lists self.old)) (spec.with_member keys.now) result (Some (mem_lists self.new)) }
        ensures counted { Counts (mem_faults self.old) result (mem_faults self.new) }
        ensures call { IsCall self.old result self.new }
    {
        self.make_call()?;
        if self.members.reserve(1).is_err() {
            return Err(KeepFault::Memory);
        }
        if self.given.give(&keys.client, &keys.server).is_err() {
            return Err(KeepFault::Memory);
        }
        self.members.push_reserved(Member { keys: *keys });
        Ok(())
    }

    fn leave(&mut self, alloc: Global, association: &[u8; 16]) -> Result<bool, KeepFault>
        ensures answer { Answers (Some (mem_lists self.old)) (λ l. spec.is_member l.members association.now) result }
        ensures lists { Changes (Some (mem_lists self.old)) (spec.without_member association.now) result (Some (mem_lists self.new)) }
        ensures counted { Counts (mem_faults self.old) result (mem_faults self.new) }
        ensures call { IsCall self.old result self.new }
    {
        self.make_call()?;
        let held = is_member(self.members.as_slice(), association);
        remove(&mut self.members, association);
        Ok(held)
    }

    fn members(&mut self, alloc: Global) -> Result<Vec<[u8; 16]>, KeepFault>
        ensures answer { IfOk result (λ names. IfSome (Some (mem_lists self.old)) (λ l. names.items ≡ spec.names_of l.members)) }
        ensures kept { Some (mem_lists self.new) ≡ Some (mem_lists self.old) }
        ensures counted { Counts (mem_faults self.old) result (mem_faults self.new) }
        ensures call { IsCall self.old result self.new }
    {
        self.make_call()?;
        names_of(alloc, self.members.as_slice()).map_err(|_| KeepFault::Memory)
    }
}

// The member of this association.
fn member_of<'a>(members: &'a [Member], association: &[u8; 16]) -> Option<&'a Member>
    ensures { option_map (λ member. member.now) result ≡ spec.member_of members.now association.now }
{
    members
        .iter()
        .find(|member| member.keys.association == *association)
}

// The keys of this member.
fn keys_of(members: &[Member], association: &[u8; 16]) -> Option<MediaKeys>
    ensures { result ≡ spec.member_of members.now association.now }
{
    match member_of(members, association) {
        Some(member) => Some(member.keys),
        None => None,
    }
}

// Whether this is a member.
fn is_member(members: &[Member], association: &[u8; 16]) -> bool
    ensures { result ≡ spec.is_member members.now association.now }
{
    members
        .iter()
        .any(|member| member.keys.association == *association)
}

// The names of the members.
fn names_of(alloc: Global, members: &[Member]) -> Result<Vec<[u8; 16]>, AllocError>
    ensures { IfOk result (λ names. names.items ≡ spec.names_of members.now) }
{
    members.iter().map(name_of).collect(alloc)
}

fn name_of(member: &Member) -> [u8; 16]
    ensures { result ≡ member.now.association }
{
    member.keys.association
}

// Takes a member out.
fn remove(members: &mut Vec<Member>, association: &[u8; 16])
    ensures { members.new.items ≡ spec.without association.now members.old.items }
{
    members.retain(|member| is_other(member, association));
}

fn is_other(member: &Member, association: &[u8; 16]) -> bool
    ensures { result ≡ not (spec.is_of association.now member.now) }
{
    member.keys.association != *association
}

// A place of the members.
#[derive(Clone, Copy)]
struct Member {
    keys: MediaKeys,
}

impl Model for Member {
    ghost use Rattle.perc_tunnel.specs.declared.message.MediaKeys.{MediaKeys};

    ghost Value = { MediaKeys };

    ghost view = { λ member. member.keys };

    ghost inverse = { λ keys. record { keys = keys } };
}
