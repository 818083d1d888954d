// The lines `inject`, `alter` and `graft`.
ghost use Rattle.std.specs.Prelude.{◌≡◌, ◌≤◌, length, IfOk, IfErr};
ghost use Rattle.perc_run.specs.Hostile as spec;
ghost use Rattle.perc_run.specs.Hostile.{alter_turn, graft_turn, inject_turn};
ghost use Rattle.perc_run.specs.State.{State};
ghost use Rattle.perc_conference_state.specs.Mirror.{Does, Mirrors};
ghost use Rattle.perc_wire_lines.specs.Made as made_spec;
ghost use Rattle.perc_wire_lines.specs.Made.{IsDatagramOf, IsNoDatagram, Makes, alteration};

use crate::putting::{Wire, put};
use perc_conference_state::{Conference, Stop, Told};
use perc_member::Datagram;
use perc_script_line::Reason;
use perc_word::Octets;
use std::alloc::{AllocError, Global};

// How many octets a datagram has at most.
const LONGEST: usize = 1500;

/// What a graft takes: the first `front` octets of one datagram, and the last `back` of another.
#[derive(Clone, Copy)]
pub struct Grafting {
    pub first: u32,
    pub front: u32,
    pub second: u32,
    pub back: u32,
}

/// Puts these octets, at most 1500, on the wire.
pub fn inject(
    conference: &mut Conference,
    alloc: Global,
    octets: &Octets<'_>,
    text: &mut Vec<u8>,
) -> Result<Told, Stop>
    requires few { length octets.now ≤ 1500 }
    ensures { (s : State) → Mirrors conference.old s
        → Does (inject_turn s octets.now) result text.old.items text.new.items conference.new }
{
    let made = owned(alloc, octets)?;
    make(conference, alloc, made, text)
}

/// Puts a copy of a datagram on the wire, with other octets in the place of its own from an offset on.
pub fn alter(
    conference: &mut Conference,
    alloc: Global,
    number: u32,
    offset: u32,
    octets: &Octets<'_>,
    text: &mut Vec<u8>,
) -> Result<Told, Stop>
    ensures { (s : State) → Mirrors conference.old s
        → Does (alter_turn s number offset octets.now) result text.old.items text.new.items conference.new }
{
    let datagram = octets_of(conference, number)?;
    let made = altered(alloc, datagram, offset, octets)?;
    make(conference, alloc, made, text)
}

/// Puts a datagram on the wire that is made of the front of one and the back of another.
pub fn graft(
    conference: &mut Conference,
    alloc: Global,
    grafting: &Grafting,
    text: &mut Vec<u8>,
) -> Result<Told, Stop>
    ensures { (s : State) → Mirrors conference.old s
        → Does (graft_turn s grafting.now.first grafting.now.front grafting.now.second grafting.now.back) result text.old.items text.new.items conference.new }
{
    let first = octets_of(conference, grafting.first)?;
    let second = octets_of(conference, grafting.second)?;
    let made = grafted(alloc, first, grafting.front, second, grafting.back)?;
    make(conference, alloc, made, text)
}

// Puts a datagram of these octets on the wire, which nobody sealed.
fn make(
    conference: &mut Conference,
    alloc: Global,
    octets: Vec<u8>,
    text: &mut Vec<u8>,
) -> Result<Told, Stop>
    ensures { (s : State) → Mirrors conference.old s → length octets.items ≤ 1500
        → Does (spec.made s octets.items) result text.old.items text.new.items conference.new }
{
    let datagram = Datagram {
        octets,
        unsealed: None,
    };
    put(conference, alloc, &Wire::Made, datagram, text)
}

// The octets of the datagram of a number, from 1.
fn octets_of(conference: &Conference, number: u32) -> Result<&[u8], Stop>
    ensures found { (s : State) → Mirrors conference.now s → IfOk result (λ octets. IsDatagramOf s number octets.now) }
    ensures none { (s : State) → Mirrors conference.now s → IfErr result (IsNoDatagram s number) }
{
    let Some(place) = number.checked_sub(1) else {
        return Err(Stop::Refused(Reason::Datagram));
    };
    match conference.datagrams.get(place as usize) {
        Some(datagram) => Ok(&datagram.octets),
        None => Err(Stop::Refused(Reason::Datagram)),
    }
}

// The octets, in memory of their own.
fn owned(alloc: Global, octets: &Octets<'_>) -> Result<Vec<u8>, AllocError>
    ensures { IfOk result (λ made. made.items ≡ octets.now) }
{
    let mut made = Vec::new(alloc);
    made.resize(octets.len(), 0)?;
    octets.write(&mut made);
    Ok(made)
}

// The octets of a datagram, with others in the place of those from an offset on.
fn altered(
    alloc: Global,
    datagram: &[u8],
    offset: u32,
    octets: &Octets<'_>,
) -> Result<Vec<u8>, Stop>
    ensures { Makes (alteration datagram.now offset octets.now) result }
{
    let offset = offset as usize;
    let len = octets.len();
    if offset > datagram.len() || len > datagram.len() - offset {
        return Err(Stop::Refused(Reason::Datagram));
    }
    let mut made = Vec::from_slice(alloc, datagram)?;
    octets.write(&mut made[offset..offset + len]);
    Ok(made)
}

// The first octets of a datagram, and the last of another.
fn grafted(
    alloc: Global,
    first: &[u8],
    front: u32,
    second: &[u8],
    back: u32,
) -> Result<Vec<u8>, Stop>
    ensures { Makes (made_spec.graft first.now front second.now back) result }
{
    let front = front as usize;
    let back = back as usize;
    if front > first.len() || back > second.len() || front + back == 0 {
        return Err(Stop::Refused(Reason::Datagram));
    }
    if front + back > LONGEST {
        return Err(Stop::Refused(Reason::Limit));
    }
    let mut made = Vec::with_capacity(alloc, front + back)?;
    made.extend_from_slice(&first[..front])?;
    made.extend_from_slice(&second[second.len() - back..])?;
    Ok(made)
}
