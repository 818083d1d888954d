// Messages, fed to the key distributor one at a time.
ghost use Rattle.std.specs.Prelude.{◌≡◌, ◌+◌, ◌^◌, ◌<◌, ◌≤◌, None, Some, IfSome, OnOk, OnErr, length, take};
ghost use Rattle.perc_base.specs.Memory.{faultless_randoms_left};
ghost use Rattle.perc_tunnel.specs.Message.{Fits, IsMessage, TunnelMessage, message_length, spelling};
ghost use Rattle.perc_tunnel.specs.Told.{content_of};
ghost use Rattle.perc_keydist.specs.KeyDistributor.{octets_taken};
ghost use Rattle.perc_key_service.specs.Hearing.{IsHeard, IsIdle, turn_at};
ghost use Rattle.perc_key_service.specs.Keeper.{faultless_lists};

use crate::keeper::FaultlessKeeper;
use perc_base::{FaultlessRandoms, Memory};
use perc_keydist::{ClearHandshake, KdFault, KeyDist};
use perc_tunnel::{Message, write};
use std::alloc::Global;

// Lets the key distributor hear a message of 32 octets at most, whose turn brings no fault, and appends its replies. Where memory is out,
// it hears nothing from then on.
pub fn hear(
    alloc: Global,
    keydist: &mut KeyDist,
    message: &Message<'_>,
    keeper: &mut FaultlessKeeper,
    randoms: &mut FaultlessRandoms,
    out: &mut Vec<u8>,
) -> Result<(), Memory>
    requires fits { Fits (content_of message.now) 32 }
    requires idle { IsIdle keydist.old.fault keydist.old.decoding.held }
    requires few { octets_taken keydist.old + 32 < 2 ^ 64 }
    requires calm { keydist.old.fault ≡ None
        → (turn_at keydist.old (faultless_lists keeper.old) (content_of message.now) (faultless_randoms_left randoms.old)).fault ≡ None }
    ensures message { IsMessage (content_of message.now) }
    ensures heard { OnOk result (IsHeard (turn_at keydist.old (faultless_lists keeper.old) (content_of message.now) (faultless_randoms_left randoms.old))
        keydist.old keydist.new (faultless_lists keeper.new) out.old.items out.new.items) }
    ensures refused { OnErr result (keydist.new.fault ≡ Some KdFault.Memory) }
    ensures octets { octets_taken keydist.new ≤ octets_taken keydist.old + message_length (content_of message.now) }
    ensures stays { IfSome keydist.old.fault (λ _. keydist.new ≡ keydist.old) }
    ensures profile { keydist.new.profile ≡ keydist.old.profile }
{
    let mut room = [0; 32];
    let len = spell(message, &mut room);
    feed(alloc, keydist, &room, len, keeper, randoms, out)
}

// Writes a message that fits, and answers its length.
fn spell(message: &Message<'_>, room: &mut [u8; 32]) -> usize
    requires { Fits (content_of message.now) 32 }
    ensures message { IsMessage (content_of message.now) }
    ensures length { result ≡ message_length (content_of message.now) }
    ensures few { result ≤ 32 }
    ensures value { take result room.new ≡ spelling (content_of message.now) }
{
    write(message, room).unwrap()
}

// Feeds the front of the octets, which is a message.
fn feed(
    alloc: Global,
    keydist: &mut KeyDist,
    octets: &[u8],
    len: usize,
    keeper: &mut FaultlessKeeper,
    randoms: &mut FaultlessRandoms,
    out: &mut Vec<u8>,
) -> Result<(), Memory>
    requires within { len ≤ length octets.now }
    requires idle { IsIdle keydist.old.fault keydist.old.decoding.held }
    requires few { octets_taken keydist.old + len < 2 ^ 64 }
    requires calm { (m : TunnelMessage) × IsMessage m × (take len octets.now ≡ spelling m) × (keydist.old.fault ≡ None
        → (turn_at keydist.old (faultless_lists keeper.old) m (faultless_randoms_left randoms.old)).fault ≡ None) }
    ensures heard { (m : TunnelMessage) → IsMessage m → take len octets.now ≡ spelling m
        → OnOk result (IsHeard (turn_at keydist.old (faultless_lists keeper.old) m (faultless_randoms_left randoms.old))
        keydist.old keydist.new (faultless_lists keeper.new) out.old.items out.new.items) }
    ensures refused { OnErr result (keydist.new.fault ≡ Some KdFault.Memory) }
    ensures octets { octets_taken keydist.new ≤ octets_taken keydist.old + len }
    ensures stays { IfSome keydist.old.fault (λ _. keydist.new ≡ keydist.old) }
    ensures profile { keydist.new.profile ≡ keydist.old.profile }
{
    let heard = keydist.feed(
        alloc,
        &octets[..len],
        keeper,
        &mut ClearHandshake,
        randoms,
        out,
    );
    match heard {
        Ok(_) => Ok(()),
        Err(fault) => Err(only_memory(fault)),
    }
}

// Want of memory, which no other fault is.
pub fn only_memory(fault: KdFault) -> Memory
    requires { fault ≡ KdFault.Memory }
{
    Memory
}
