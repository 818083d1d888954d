// The line `forward`.
ghost use Rattle.std.specs.Prelude.{◌≡◌, ◌≢◌, ℕ, ◌≤◌, ◌&&◌, not, List, [], Option, Some, None, length, map, filter, count_by, IfOk, OnOk};
ghost use Rattle.std.specs.List.{list_any};
ghost use Rattle.std.specs.Str.{bytes_eq};
ghost use Rattle.perc_ohb.specs.Rewriting.{IsRewrite, rewrite_of};
ghost use Rattle.perc_script_line.specs.Script.{AreChanges};
ghost use Rattle.perc_script_line.specs.View.{changes_said};
ghost use Rattle.perc_run.specs.Sound.{IsOrderly};
ghost use Rattle.perc_run.specs.State as spec;
ghost use Rattle.perc_run.specs.State.{State, datagram_at};
ghost use Rattle.perc_run.specs.Forwarding as forwarding;
ghost use Rattle.perc_run.specs.Forwarding.{forward_turn, numbered};
ghost use Rattle.perc_forwarder.specs.Mirror.{HasTakings, MirrorsDistributor, MirrorsTakings, TakesMore};
ghost use Rattle.perc_member.specs.Each.{MirrorEach, MirrorsDatagram};
ghost use Rattle.perc_conference_state.specs.Mirror.{Does, IsRunning, Mirrors};
ghost use Rattle.perc_forward_line.specs.Telling.{AreNumbers, AreRecipients, AreThere, IsSealed, is_named_in, TakesAll, SealsAll, TellsAll, names_in};

use crate::outputs::Telling;
use perc_conference_state::{Conference, MOST_DATAGRAMS, Stop, Told};
use perc_forwarder::{Distributor, change_in};
use perc_member::{Datagram, Member};
use perc_ohb::Change;
use perc_script_line::{Changes, Reason};
use perc_word::{Datagrams, Name, Names};
use std::alloc::{AllocError, Global};

/// Lets the distributor take datagrams from a member, and send what opens on to the others, or to those that are named.
pub fn forward(
    conference: &mut Conference,
    alloc: Global,
    name: &Name,
    datagrams: Datagrams<'_>,
    changes: &Changes<'_>,
    recipients: Option<Names<'_>>,
    text: &mut Vec<u8>,
) -> Result<Told, Stop>
    requires running { IsRunning conference.old }
    requires few { length datagrams ≤ 32 }
    requires changes { AreChanges (changes_said changes.now) }
    ensures { (s : State) → IsOrderly s → Mirrors conference.old s
        → Does (forward_turn s name.now datagrams.entry (changes_said changes.now) recipients.entry) result text.old.items text.new.items conference.new }
{
    let place = conference.place_of(name)?;
    let to = recipients_in(conference, alloc, recipients)?;
    let numbers = numbers_in(conference, alloc, datagrams)?;
    let count = count_recipients(&conference.members, name, &to);
    if conference.datagrams.len() + numbers.len() * count > MOST_DATAGRAMS {
        return Err(Stop::Refused(Reason::Limit));
    }
    let mut room = [0; 122];
    let change = change_in(changes, &mut room);
    let from = conference.members[place].association;
    take_all(conference, &from, &numbers)?;
    send_on(conference, alloc, &change, &to)?;
    tell(conference, alloc, &change, text)
}

// The names of the recipients, where they are named; each is present.
fn recipients_in(
    conference: &Conference,
    alloc: Global,
    names: Option<Names<'_>>,
) -> Result<Option<Vec<Name>>, Stop>
    ensures { (s : State) → Mirrors conference.now s → AreRecipients s names.entry result }
{
    let Some(names) = names else {
        return Ok(None);
    };
    let mut to = Vec::new(alloc);
    for name in names {
        conference.place_of(&name)?;
        to.push(name)?;
    }
    Ok(Some(to))
}

// The numbers of a list; each has a datagram.
fn numbers_in(conference: &Conference, alloc: Global, list: Datagrams<'_>) -> Result<Vec<u32>, Stop>
    ensures { (s : State) → Mirrors conference.now s → AreNumbers s list.entry result }
{
    let mut numbers = Vec::new(alloc);
    for number in list {
        conference.datagram_place(number)?;
        numbers.push(number)?;
    }
    Ok(numbers)
}

// To how many members a datagram of this one goes.
fn count_recipients(members: &[Member], name: &Name, to: &Option<Vec<Name>>) -> usize
    ensures { result ≡ count_by (λ m. m.present && not (bytes_eq name.now m.name) && is_named_in (names_in to.now) m) members.now }
{
    members
        .iter()
        .filter(|member| is_recipient(member, name, to))
        .count()
}

// Whether a datagram of this member goes to that one.
fn is_recipient(member: &Member, name: &Name, to: &Option<Vec<Name>>) -> bool
    ensures { result ≡ (member.now.present && not (bytes_eq name.now member.now.name) && is_named_in (names_in to.now) member.now) }
{
    member.present && !name.same(&member.name) && is_named(member, to)
}

// Opens the datagrams of these numbers in turn, which came from an association. Each is there.
fn take_all(conference: &mut Conference, from: &[u8; 16], numbers: &[u32]) -> Result<(), AllocError>
    requires { (s : State) × Mirrors conference.old s × AreThere s numbers.now }
    ensures { (s : State) → Mirrors conference.old s → AreThere s numbers.now → OnOk result (TakesAll s from.now numbers.now conference.new) }
{
    take_each(
        &mut conference.distributor,
        &conference.datagrams,
        from,
        numbers,
    )
}

// The same over the datagrams.
fn take_each(
    distributor: &mut Distributor,
    datagrams: &[Datagram],
    from: &[u8; 16],
    numbers: &[u32],
) -> Result<(), AllocError>
    requires { (s : State) × MirrorEach MirrorsDatagram datagrams.now s.datagrams × AreThere s numbers.now }
    ensures { (s : State) → MirrorsDistributor distributor.old s → MirrorEach MirrorsDatagram datagrams.now s.datagrams → AreThere s numbers.now
        → OnOk result (TakesMore s [] from.now (numbered s.datagrams numbers.now) distributor.new) }
{
    distributor.begin();
    for number in numbers {
        let datagram = &datagrams[*number as usize - 1];
        distributor.take(from, *number, &datagram.octets)?;
    }
    Ok(())
}

// Seals what opened.
fn send_on(
    conference: &mut Conference,
    alloc: Global,
    change: &Change<'_>,
    to: &Option<Vec<Name>>,
) -> Result<(), AllocError>
    requires change { IsRewrite (rewrite_of change.now) }
    requires taken { HasTakings conference.old.distributor }
    ensures { (s : State) (taken : List forwarding.Taking) → Mirrors conference.old s → MirrorsTakings conference.old.distributor taken
        → OnOk result (SealsAll s taken (rewrite_of change.now) (names_in to.now) conference.new) }
{
    match to {
        None => conference.distributor.forward(change, None),
        Some(_) => {
            let only = associations_in(alloc, &conference.members, to)?;
            conference
                .distributor
                .forward(change, Some(only.as_slice()));
        }
    }
    Ok(())
}

// The associations of the present members that are named, in the order of joining.
fn associations_in(
    alloc: Global,
    members: &[Member],
    to: &Option<Vec<Name>>,
) -> Result<Vec<[u8; 16]>, AllocError>
    ensures { IfOk result (λ associations. associations.items ≡ map (λ m. m.association) (filter (λ m. m.present && is_named_in (names_in to.now) m) members.now)) }
{
    members
        .iter()
        .filter(|member| member.present && is_named(member, to))
        .map(association_of)
        .collect(alloc)
}

fn association_of(member: &Member) -> [u8; 16]
    ensures { result ≡ member.now.association }
{
    member.association
}

// Reports what became of the list, and keeps the new datagrams.
fn tell(
    conference: &mut Conference,
    alloc: Global,
    change: &Change<'_>,
    text: &mut Vec<u8>,
) -> Result<Told, Stop>
    requires change { IsRewrite (rewrite_of change.now) }
    requires sealed { (s : State) × (takings : List forwarding.Taking) × IsSealed s takings (rewrite_of change.now) conference.old }
    ensures { (s : State) (takings : List forwarding.Taking) → IsSealed s takings (rewrite_of change.now) conference.old
        → TellsAll s takings (rewrite_of change.now) conference.old result text.old.items text.new.items conference.new }
{
    let telling = Telling {
        members: &conference.members,
        distributor: &conference.distributor,
        change,
    };
    telling.takings(alloc, &mut conference.datagrams, text)
}

// Whether a member is named, where some are.
fn is_named(member: &Member, to: &Option<Vec<Name>>) -> bool
    ensures { result ≡ is_named_in (names_in to.now) member.now }
{
    match to {
        Some(names) => is_one_of(member, names),
        None => true,
    }
}

// Whether its name is one of these.
fn is_one_of(member: &Member, names: &[Name]) -> bool
    ensures { result ≡ list_any (λ name. bytes_eq name member.now.name) names.now }
{
    names.iter().any(|name| name.same(&member.name))
}
