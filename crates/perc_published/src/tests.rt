// What readers see of what is published, and when.
ghost use Rattle.std.specs.Prelude.{◌≡◌, IfOk, length};
ghost use Rattle.perc_keyset.specs.Set.{fold_ops};
ghost use Rattle.perc_published.specs.Calls.{HasEntered};

use super::*;
use perc_base::{Memory, Profile};
use perc_kdf::Master;
use perc_keyset::{Added, RemoveFault};
use perc_tunnel::MediaKeys;
use std::alloc::Global;
use std::process::Abort;
use std::sync::Wait;
use std::thread::join;

// The association with this number.
fn association(number: u8) -> [u8; 16] {
    let mut name = [0; 16];
    name[15] = number;
    name
}

// The pair with this number. The key has 16 octets or 32.
fn pair(number: u16) -> Master {
    let octets = number.to_be_bytes();
    let mut key = [octets[1]; 32];
    key[..2].copy_from_slice(&octets);
    let mut salt = [7; 12];
    salt[10..].copy_from_slice(&octets);
    let len = if number % 3 == 0 { 16 } else { 32 };
    Master::new(&key[..len], &salt).unwrap()
}

// An association of this number with the pairs of twice it and of one more.
fn keys(number: u8) -> MediaKeys {
    MediaKeys {
        association: association(number),
        profile: Profile::Aes256,
        client: pair(2 * u16::from(number)),
        server: pair(2 * u16::from(number) + 1),
    }
}

fn add(rt: &impl Abort, publisher: &mut Publisher, number: u8)
    ensures { publisher.new.call ≡ publisher.old.call }
{
    assert_eq!(rt; publisher.add(&keys(number)), Ok(Added::New));
}

// The reader enters, and its set has these associations, in order, with their pairs.
fn check<R: Wait + Abort>(rt: &R, reader: &mut SetReader, numbers: &[u8])
    ensures { reader.new.call ≡ reader.old.call }
{
    let guard = reader.enter(rt);
    let set = guard.set();
    assert_eq!(rt; set.len(), numbers.len());
    for i in 0..set.len().min(numbers.len()) {
        let entry = set.at(i);
        let keys = keys(numbers[i]);
        assert_eq!(rt; entry.association, keys.association);
        assert!(rt; entry.client == keys.client);
        assert!(rt; entry.server == keys.server);
    }
}

// A publisher and two readers.
fn three(alloc: Global) -> Result<(Publisher, SetReader, SetReader), Memory>
    ensures { IfOk result (λ made. (made.1.call ≡ made.0.call) × (made.2.call ≡ made.0.call)) }
{
    let (publisher, mut readers) = key_sets(alloc, 2)?;
    let second = readers.pop().ok_or(Memory)?;
    let first = readers.pop().ok_or(Memory)?;
    Ok((publisher, first, second))
}

#[test]
fn what_is_published(rt: HostRuntime) -> Result<(), Memory> {
    let (mut publisher, mut reader, _) = three(rt.alloc())?;
    check(&rt, &mut reader, &[]);

    // What is accepted is held by the publisher, and by readers once it is published.
    add(&rt, &mut publisher, 5);
    add(&rt, &mut publisher, 3);
    assert_eq!(rt; publisher.held().len(), 2);
    check(&rt, &mut reader, &[]);
    publisher.publish(&rt);
    let mut note = publisher.tell();
    reader.learn(&mut note);
    check(&rt, &mut reader, &[5, 3]);

    // A removal.
    assert_eq!(rt; publisher.remove(&association(3)), Ok(()));
    let again = publisher.remove(&association(3));
    assert_eq!(rt; again, Err(RemoveFault::Unknown));
    check(&rt, &mut reader, &[5, 3]);
    publisher.publish(&rt);
    let mut later = publisher.tell();
    reader.learn(&mut later);
    check(&rt, &mut reader, &[5]);

    // An older note says nothing more.
    reader.learn(&mut note);
    check(&rt, &mut reader, &[5]);
    Ok(())
}

#[test]
fn notes_of_two_readers(rt: HostRuntime) -> Result<(), Memory> {
    let (mut publisher, mut reader, mut other) = three(rt.alloc())?;
    add(&rt, &mut publisher, 5);
    publisher.publish(&rt);

    // One learns, and the other sees it too.
    let mut note = publisher.tell();
    reader.learn(&mut note);
    check(&rt, &mut reader, &[5]);
    check(&rt, &mut other, &[5]);

    // Both learn one note.
    add(&rt, &mut publisher, 9);
    publisher.publish(&rt);
    let mut note = publisher.tell();
    reader.learn(&mut note);
    other.learn(&mut note);
    check(&rt, &mut reader, &[5, 9]);
    check(&rt, &mut other, &[5, 9]);

    // What is published is seen without a note.
    add(&rt, &mut publisher, 4);
    publisher.publish(&rt);
    check(&rt, &mut reader, &[5, 9, 4]);
    Ok(())
}

#[test]
fn a_full_set(rt: HostRuntime) -> Result<(), Memory> {
    let (mut publisher, mut reader, _) = three(rt.alloc())?;
    let mut numbers = [0; 64];
    for i in 0..64u8 {
        numbers[usize::from(i)] = i;
        add(&rt, &mut publisher, i);
    }
    publisher.publish(&rt);
    check(&rt, &mut reader, &numbers);
    Ok(())
}

// Publishes one add after another.
fn publish_each<R: Wait + Abort>(rt: &R, publisher: &mut Publisher) {
    for i in 0..64 {
        add(rt, publisher, i);
        publisher.publish(rt);
    }
}

// Enters, and tells how many entries it then has seen.
fn seen_len<R: Wait>(rt: &R, reader: &mut SetReader) -> usize
    ensures entered { HasEntered reader.old reader.new }
    ensures len { result ≡ length (fold_ops reader.new.seen) }
{
    reader.enter(rt).set().len()
}

// Enters until all are seen. No set is smaller than the one before.
fn see_all<R: Wait + Abort>(rt: &R, reader: &mut SetReader) {
    let mut seen = 0;
    for _ in rt.forever() {
        let len = seen_len(rt, reader);
        assert!(rt; seen <= len);
        if len == 64 {
            return;
        }
        seen = len;
    }
}

#[test]
fn in_three_threads(rt: HostRuntime) -> Result<(), Memory> {
    let (mut publisher, mut reader, mut other) = three(rt.alloc())?;
    join(
        &rt,
        || publish_each(&rt, &mut publisher),
        || join(
            &rt,
            || see_all(&rt, &mut reader),
            || see_all(&rt, &mut other),
        ),
    );
    Ok(())
}
