// A keeper in memory, called through its trait.
ghost use Rattle.std.specs.Prelude.{◌≡◌, length};
ghost use Rattle.perc_ekt.specs.Record.{IsRecord};
ghost use Rattle.perc_keeper.specs.Lists.{HasKeys};

use perc_base::Profile;
use perc_ekt::EktKeyRecord;
use perc_kdf::Master;
use perc_keeper::{KeepFault, Keeper, MemKeeper};
use perc_tunnel::MediaKeys;
use std::alloc::Global;
use std::process::Abort;
use std::test::Fail;

const ASSOCIATION: [u8; 16] = [7; 16];

// The record of a key of this octet.
fn record_of(rt: &impl Abort, octet: u8, spi: u8) -> EktKeyRecord
    ensures { IsRecord result }
{
    let mut octets = [2; 37];
    octets[..2].copy_from_slice(&[0, 16]);
    octets[2..18].copy_from_slice(&[octet; 16]);
    octets[18..20].copy_from_slice(&[0, 12]);
    octets[32..].copy_from_slice(&[0, spi, 1, 0x51, 0x80]);
    EktKeyRecord::read(&octets, Profile::Aes128).expect(rt, "a record")
}

fn pair_of(octet: u8) -> Master
    ensures { length result.key ≡ 16 }
{
    Master::new(&[octet; 16], &[octet; 12]).unwrap()
}

fn keys() -> MediaKeys
    ensures { HasKeys result }
{
    MediaKeys {
        association: ASSOCIATION,
        profile: Profile::Aes128,
        client: pair_of(3),
        server: pair_of(4),
    }
}

// Joins a stranger whose pairs are new: the fourth call of these. Whoever may not join is taken for want of memory.
fn join(alloc: Global, keeper: &mut MemKeeper, keys: &MediaKeys) -> Result<(), KeepFault>
    requires { HasKeys keys.now }
{
    let found = keeper.member(alloc, &keys.association)?;
    let client_used = keeper.pair_used(alloc, &keys.client)?;
    let server_used = keeper.pair_used(alloc, &keys.server)?;
    if found.is_some() || client_used || server_used || keys.client == keys.server {
        return Err(KeepFault::Memory);
    }
    keeper.join(alloc, keys)
}

#[test]
fn keeps_what_it_is_given(rt: HostRuntime) -> Result<(), Fail> {
    let alloc = rt.alloc();
    let mut keeper = MemKeeper::new(alloc)?;
    let record = record_of(&rt, 1, 1);
    assert!(rt; keeper.last(alloc)?.is_none());
    assert!(rt; keeper.issue(alloc, &record).is_ok());
    assert!(rt; keeper.last(alloc)? == Some(record));
    assert_eq!(rt; keeper.spi_of(alloc, &[1; 16])?, Some(1));
    assert_eq!(rt; keeper.spi_of(alloc, &[2; 16])?, None);
    assert_eq!(rt; keeper.spi_of(alloc, &[1; 17])?, None);
    join(alloc, &mut keeper, &keys())?;
    assert!(rt; keeper.members(alloc)?.as_slice() == [ASSOCIATION].as_slice());
    let found = keeper.member(alloc, &ASSOCIATION)?;
    assert!(rt; found.is_some_and(|keys| keys.client == pair_of(3) && keys.server == pair_of(4)));
    assert!(rt; keeper.leave(alloc, &ASSOCIATION)?);
    assert!(rt; !keeper.leave(alloc, &ASSOCIATION)?);
    assert!(rt; keeper.pair_used(alloc, &pair_of(3))?);
    assert!(rt; keeper.pair_used(alloc, &pair_of(4))?);
    assert_eq!(rt; keeper.faults(), 0);
    Ok(())
}

// A keeper with a record and a member, which five calls make, where these later calls fail.
fn with_member(rt: &impl Abort, alloc: Global, failing: Vec<u64>) -> Result<MemKeeper, Fail> {
    let mut keeper = MemKeeper::with_failing(alloc, failing)?;
    assert!(rt; keeper.issue(alloc, &record_of(rt, 1, 1)).is_ok());
    join(alloc, &mut keeper, &keys())?;
    Ok(keeper)
}

#[test]
fn fails_to_issue_and_to_join(rt: HostRuntime) -> Result<(), Fail> {
    let alloc = rt.alloc();
    let mut keeper = MemKeeper::with_failing(alloc, vec![in alloc; 0, 5]?)?;
    let record = record_of(&rt, 1, 1);
    assert!(rt; keeper.issue(alloc, &record) == Err(KeepFault::Failed));
    assert!(rt; keeper.issue(alloc, &record).is_ok());
    assert!(rt; join(alloc, &mut keeper, &keys()) == Err(KeepFault::Failed));
    assert!(rt; join(alloc, &mut keeper, &keys()).is_ok());
    assert!(rt; keeper.faults() == 2);
    Ok(())
}

#[test]
fn fails_to_leave_and_to_list(rt: HostRuntime) -> Result<(), Fail> {
    let alloc = rt.alloc();
    let mut keeper = with_member(&rt, alloc, vec![in alloc; 5, 6, 8]?)?;
    assert!(rt; keeper.leave(alloc, &ASSOCIATION) == Err(KeepFault::Failed));
    assert!(rt; keeper.members(alloc).is_err());
    assert!(rt; keeper.members(alloc)?.len() == 1);
    assert!(rt; keeper.last(alloc).is_err());
    assert!(rt; keeper.last(alloc)?.is_some());
    assert!(rt; keeper.faults() == 3);
    Ok(())
}

#[test]
fn fails_to_find(rt: HostRuntime) -> Result<(), Fail> {
    let alloc = rt.alloc();
    let mut keeper = with_member(&rt, alloc, vec![in alloc; 5, 6, 7]?)?;
    assert!(rt; keeper.pair_used(alloc, &pair_of(3)).is_err());
    assert!(rt; keeper.spi_of(alloc, &[1; 16]).is_err());
    assert!(rt; keeper.member(alloc, &ASSOCIATION).is_err());
    assert!(rt; keeper.faults() == 3);
    Ok(())
}
