// Replies, written behind those before.
ghost use Rattle.std.specs.Prelude.{◌≡◌, ◌+◌, ◌<◌, ◌≤◌, ◌++◌, Some, IfErr, IfOk, IsTrue, OnErr, OnOk, drop, length, take};
ghost use Rattle.std.specs.List.{flat_map};
ghost use Rattle.perc_ekt.specs.Record.{IsRecord};
ghost use Rattle.perc_keeper.specs.Lists.{HasKeys};
ghost use Rattle.perc_tunnel.specs.Message as tunnel;
ghost use Rattle.perc_tunnel.specs.Told.{keys_message};
ghost use Rattle.perc_keydist.specs.Answers.{Answers};
ghost use Rattle.perc_keydist.specs.Causes.{Blames, is_of_replies};
ghost use Rattle.perc_keydist.specs.Distributing.{welcomed};
ghost use Rattle.perc_keydist.specs.Gives.{both_spelled};

use crate::{Handshake, KdFault};
use perc_ekt::EktKeyRecord;
use perc_tunnel::{MediaKeys, Message, write};

// How many octets a message with a record of a handshake has at most.
const RECORD_ROOM: usize = 1521;

// How many octets the message has at most that gives outer keys.
const KEYS_ROOM: usize = 114;

// Says that a version isn't known, and that 0 is the highest that is.
pub fn append_unsupported(out: &mut Vec<u8>) -> Result<(), KdFault>
    ensures out { OnOk result (out.new.items ≡ out.old.items ++ tunnel.spelling (tunnel.UnsupportedVersion 0)) }
    ensures refused { OnErr result (out.new.items ≡ out.old.items) }
    ensures kinds { IfErr result (λ e. e ≡ KdFault.Memory) }
{
    let mut octets = [0; 4];
    let len = write(&Message::UnsupportedVersion { highest: 0 }, &mut octets).unwrap();
    append(&octets[..len], out)
}

// Gives a member its outer keys, and welcomes it. Nothing is appended where the handshake fails or memory is out.
pub fn append_welcome<H: Handshake>(
    keys: &MediaKeys,
    granted: &EktKeyRecord,
    hand: &mut H,
    out: &mut Vec<u8>,
) -> Result<(), KdFault>
    requires keys { HasKeys keys.now }
    requires right { IsRecord granted.now }
    ensures told { (a : Answers) → H.answers hand.old ≡ Some a → OnOk result
        (out.new.items ≡ out.old.items ++ flat_map tunnel.spelling (welcomed a keys.now granted.now)) }
    ensures refused { OnErr result (out.new.items ≡ out.old.items) }
    ensures kept { H.answers hand.new ≡ H.answers hand.old }
    ensures hand { Blames KdFault.Handshake (H.fault_count hand.old) result (H.fault_count hand.new) }
    ensures kinds { IfErr result (λ e. IsTrue (is_of_replies e)) }
{
    let mut record = [0; 1500];
    let len = welcome(keys, granted, hand, &mut record)?;
    let mut octets = [0; KEYS_ROOM + RECORD_ROOM];
    let written = write_welcome(keys, &record[..len], &mut octets);
    append(&octets[..written], out)
}

// Sends a member a new EKT key.
pub fn append_renewal<H: Handshake>(
    association: &[u8; 16],
    granted: &EktKeyRecord,
    hand: &mut H,
    out: &mut Vec<u8>,
) -> Result<(), KdFault>
    requires right { IsRecord granted.now }
    ensures told { (a : Answers) → H.answers hand.old ≡ Some a → OnOk result
        (out.new.items ≡ out.old.items ++ tunnel.spelling (tunnel.TunneledDtls association.now (a.renewal granted.now))) }
    ensures refused { OnErr result (out.new.items ≡ out.old.items) }
    ensures front { take (length out.old.items) out.new.items ≡ out.old.items }
    ensures kept { H.answers hand.new ≡ H.answers hand.old }
    ensures hand { Blames KdFault.Handshake (H.fault_count hand.old) result (H.fault_count hand.new) }
    ensures kinds { IfErr result (λ e. IsTrue (is_of_replies e)) }
{
    let mut record = [0; 1500];
    let len = renew(granted, hand, &mut record)?;
    let mut octets = [0; RECORD_ROOM];
    let written = write_record(association, &record[..len], &mut octets);
    append(&octets[..written], out)
}

// Asks the handshake for a welcome, and answers how many octets it has.
fn welcome<H: Handshake>(
    keys: &MediaKeys,
    granted: &EktKeyRecord,
    hand: &mut H,
    record: &mut [u8; 1500],
) -> Result<usize, KdFault>
    requires keys { HasKeys keys.now }
    requires right { IsRecord granted.now }
    ensures told { (a : Answers) → H.answers hand.old ≡ Some a → IfOk result (λ n. take n record.new ≡ a.welcome keys.now granted.now) }
    ensures some { IfOk result (λ n. 1 ≤ n) }
    ensures within { IfOk result (λ n. n ≤ 1500) }
    ensures kept { H.answers hand.new ≡ H.answers hand.old }
    ensures hand { Blames KdFault.Handshake (H.fault_count hand.old) result (H.fault_count hand.new) }
    ensures kinds { IfErr result (λ e. e ≡ KdFault.Handshake) }
{
    match hand.welcome(keys, granted, record) {
        Ok(len) => Ok(len),
        Err(_) => Err(KdFault::Handshake),
    }
}

// Asks the handshake for a renewal, and answers how many octets it has.
fn renew<H: Handshake>(
    granted: &EktKeyRecord,
    hand: &mut H,
    record: &mut [u8; 1500],
) -> Result<usize, KdFault>
    requires right { IsRecord granted.now }
    ensures told { (a : Answers) → H.answers hand.old ≡ Some a → IfOk result (λ n. take n record.new ≡ a.renewal granted.now) }
    ensures some { IfOk result (λ n. 1 ≤ n) }
    ensures within { IfOk result (λ n. n ≤ 1500) }
    ensures kept { H.answers hand.new ≡ H.answers hand.old }
    ensures hand { Blames KdFault.Handshake (H.fault_count hand.old) result (H.fault_count hand.new) }
    ensures kinds { IfErr result (λ e. e ≡ KdFault.Handshake) }
{
    match hand.renew(granted, record) {
        Ok(len) => Ok(len),
        Err(_) => Err(KdFault::Handshake),
    }
}

// Writes the message that gives outer keys, and behind it the one that brings a record, and answers their length.
fn write_welcome(keys: &MediaKeys, octets: &[u8], out: &mut [u8]) -> usize
    requires keys { HasKeys keys.now }
    requires some { 1 ≤ length octets.now }
    requires few { length octets.now ≤ 1500 }
    requires room { 1635 ≤ length out.old }
    ensures value { out.new ≡ both_spelled keys.now octets.now ++ drop result out.old }
    ensures length { result ≡ length (both_spelled keys.now octets.now) }
    ensures few { result ≤ 1635 }
{
    let len = write_keys(keys, out);
    len + write_record(&keys.association, octets, &mut out[len..])
}

// Writes the message that gives outer keys, and answers its length.
fn write_keys(keys: &MediaKeys, out: &mut [u8]) -> usize
    requires keys { HasKeys keys.now }
    requires room { 114 ≤ length out.old }
    ensures value { out.new ≡ tunnel.spelling (keys_message keys.now) ++ drop result out.old }
    ensures length { result ≡ length (tunnel.spelling (keys_message keys.now)) }
    ensures few { result ≤ 114 }
{
    write(&Message::MediaKeys(keys), out).unwrap()
}

// Writes the message that brings a record of an association, and answers its length.
fn write_record(association: &[u8; 16], octets: &[u8], out: &mut [u8]) -> usize
    requires some { 1 ≤ length octets.now }
    requires few { length octets.now ≤ 1500 }
    requires room { 1521 ≤ length out.old }
    ensures value { out.new ≡ tunnel.spelling (tunnel.TunneledDtls association.now octets.now) ++ drop result out.old }
    ensures length { result ≡ length (tunnel.spelling (tunnel.TunneledDtls association.now octets.now)) }
    ensures few { result ≤ 1521 }
{
    let message = Message::TunneledDtls {
        association: *association,
        octets,
    };
    write(&message, out).unwrap()
}

fn append(octets: &[u8], out: &mut Vec<u8>) -> Result<(), KdFault>
    ensures out { OnOk result (out.new.items ≡ out.old.items ++ octets.now) }
    ensures refused { OnErr result (out.new.items ≡ out.old.items) }
    ensures kinds { IfErr result (λ e. e ≡ KdFault.Memory) }
{
    if out.extend_from_slice(octets).is_err() {
        return Err(KdFault::Memory);
    }
    Ok(())
}
