// The outer pairs that were ever given, each with the add that gave it.
ghost use Rattle.std.specs.BTreeMap as tree;
ghost use Rattle.std.specs.Prelude.{◌≡◌, OnOk, OnErr};
ghost use Rattle.perc_kdf.specs.Order.{pair_cmp};
ghost use Rattle.perc_keyset.specs.Kept.{HasAtPairs, HaveSame, earlier, gift_of};

use crate::Entry;
use perc_base::Memory;
use perc_kdf::Master;
use std::collections::BTreeMap;

// The add that gave a pair.
#[derive(Clone, Copy)]
pub struct Gift {
    pub serial: u32,
    pub association: [u8; 16],
}

// The earlier of two adds.
pub fn earlier(gift: Option<Gift>, other: Option<Gift>) -> Option<Gift>
    ensures { result ≡ earlier gift other }
{
    match (gift, other) {
        (Some(gift), Some(other)) if other.serial < gift.serial => Some(other),
        (Some(gift), _) => Some(gift),
        (None, other) => other,
    }
}

// Puts in the pairs of an entry, of which the client's isn't in. Neither stays in where there is no memory for both.
pub fn give(given: &mut BTreeMap<Master, Gift>, entry: &Entry) -> Result<(), Memory>
    requires { tree.get pair_cmp given.old entry.now.client ≡ None }
    ensures given { OnOk result (HasAtPairs entry.now (Some (gift_of entry.now)) given.old given.new) }
    ensures refused { OnErr result (HaveSame given.old given.new) }
{
    let gift = Gift {
        serial: entry.serial,
        association: entry.association,
    };
    if given.insert(entry.client, gift).is_err() {
        return Err(Memory);
    }
    if given.insert(entry.server, gift).is_err() {
        given.remove(&entry.client);
        return Err(Memory);
    }
    Ok(())
}

// Takes out the pairs of an entry.
pub fn take_back(given: &mut BTreeMap<Master, Gift>, entry: &Entry)
    ensures { HasAtPairs entry.now None given.old given.new }
{
    given.remove(&entry.client);
    given.remove(&entry.server);
}
