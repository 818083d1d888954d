// What is answered behind 64 adds, and behind 65536.
use perc_base::{Memory, Profile};
use perc_kdf::Master;
use perc_keyset::{Accepted, AddFault, Added, KeySet, RemoveFault};
use perc_tunnel::MediaKeys;
use std::alloc::Global;
use std::process::Abort;

// The association with this number.
fn association(number: u16) -> [u8; 16] {
    let mut name = [0; 16];
    name[..2].copy_from_slice(&number.to_be_bytes());
    name
}

// The pair with this number.
fn pair(number: u32) -> Master {
    let mut key = [0; 32];
    key[..4].copy_from_slice(&number.to_be_bytes());
    Master::new(&key, &[0; 12]).unwrap()
}

fn keys(name: u16, client: u32, server: u32) -> MediaKeys {
    MediaKeys {
        association: association(name),
        profile: Profile::Aes256,
        client: pair(client),
        server: pair(server),
    }
}

// A call with what is answered: an add by the numbers of the association and of its pairs, or a removal. What is held
// behind it: how many, and the last with its serial.
#[derive(Clone, Copy)]
enum Step {
    Add(u16, u32, u32, Result<Added, AddFault>),
    Remove(u16, Result<(), RemoveFault>),
    Holds(usize, u16, u32),
}

fn reused(number: u16) -> Result<Added, AddFault> {
    Err(AddFault::KeyReused(association(number)))
}

fn check_last(rt: &impl Abort, set: &KeySet, len: usize, name: u16, serial: u32) {
    assert_eq!(rt; set.len(), len);
    let last = len.saturating_sub(1);
    assert!(rt; last < set.len());
    let entry = set.at(last);
    assert_eq!(rt; entry.association, association(name));
    assert_eq!(rt; entry.serial, serial);
}

fn take(rt: &impl Abort, accepted: &mut Accepted, step: &Step) {
    match step {
        Step::Add(name, client, server, answer) => {
            let added = accepted.add(&keys(*name, *client, *server));
            assert_eq!(rt; added, *answer, "add of {name} with {client} and {server}");
        }
        Step::Remove(name, answer) => {
            let removed = accepted.remove(&association(*name));
            assert_eq!(rt; removed, *answer, "removal of {name}");
        }
        Step::Holds(len, name, serial) => { check_last(rt, accepted.held(), *len, *name, *serial) }
    }
}

// One that holds the associations 0 to 63, each with the pairs of twice its number and of one more.
fn full(rt: &impl Abort, alloc: Global) -> Result<Accepted, Memory> {
    let mut accepted = Accepted::new(alloc)?;
    for number in 0..64u16 {
        let first = 2 * u32::from(number);
        let added = accepted.add(&keys(number, first, first + 1));
        assert_eq!(rt; added, Ok(Added::New));
    }
    check_last(rt, accepted.held(), 64, 63, 63);
    Ok(accepted)
}

#[test]
fn behind_64_adds(rt: HostRuntime) -> Result<(), Memory> {
    let rows: [&[Step]; 8] = [
        // Another association.
        &[
            Step::Add(64, 128, 129, Err(AddFault::SetFull)),
            Step::Holds(64, 63, 63),
        ],
        // The first again, with its pairs in their places, and changed over.
        &[
            Step::Add(0, 0, 1, Ok(Added::Same)),
            Step::Add(0, 1, 0, reused(0)),
            Step::Holds(64, 63, 63),
        ],
        // A pair of the first, on either side.
        &[
            Step::Add(64, 0, 200, reused(0)),
            Step::Add(64, 200, 0, reused(0)),
            Step::Add(64, 1, 200, reused(0)),
            Step::Add(64, 200, 1, reused(0)),
        ],
        // Pairs of two adds: the earlier is named.
        &[
            Step::Add(64, 7, 4, reused(2)),
            Step::Add(64, 4, 7, reused(2)),
        ],
        // Pairs that are equal.
        &[
            Step::Add(0, 200, 200, reused(0)),
            Step::Add(64, 200, 200, reused(64)),
            Step::Add(64, 9, 9, reused(4)),
        ],
        &[Step::Remove(64, Err(RemoveFault::Unknown))],
        // What a removed association gave stays given, to itself too.
        &[
            Step::Remove(0, Ok(())),
            Step::Remove(0, Err(RemoveFault::Unknown)),
            Step::Holds(63, 63, 63),
            Step::Add(64, 0, 1, reused(0)),
            Step::Add(0, 0, 1, reused(0)),
            Step::Add(64, 128, 129, Ok(Added::New)),
            Step::Holds(64, 64, 64),
            Step::Add(0, 130, 131, Err(AddFault::SetFull)),
        ],
        // New pairs for one that is held, which then stands last.
        &[
            Step::Add(0, 128, 129, Ok(Added::New)),
            Step::Holds(64, 0, 64),
            Step::Add(0, 128, 129, Ok(Added::Same)),
            Step::Add(0, 0, 1, reused(0)),
        ],
    ];
    for row in rows {
        let mut accepted = full(&rt, rt.alloc())?;
        for step in row {
            take(&rt, &mut accepted, step);
        }
    }
    Ok(())
}

#[test]
fn all_adds(rt: HostRuntime) -> Result<(), Memory> {
    let mut accepted = full(&rt, rt.alloc())?;
    for serial in 64..65536u32 {
        let added = accepted.add(&keys((serial % 64) as u16, 2 * serial, 2 * serial + 1));
        assert_eq!(rt; added, Ok(Added::New));
    }
    let steps = [
        Step::Holds(64, 63, 65535),
        Step::Add(63, 200000, 200001, Err(AddFault::AddsSpent)),
        Step::Add(63, 131070, 131071, Ok(Added::Same)),
        Step::Add(63, 131070, 200001, reused(63)),
        Step::Add(64, 200000, 200001, Err(AddFault::SetFull)),
        Step::Remove(63, Ok(())),
        Step::Holds(63, 62, 65534),
        Step::Add(63, 200000, 200001, Err(AddFault::AddsSpent)),
    ];
    for step in &steps {
        take(&rt, &mut accepted, step);
    }
    Ok(())
}
