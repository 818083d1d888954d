// The line `deliver`.
ghost use Rattle.std.specs.Prelude.{◌≡◌, ◌<◌, ◌≤◌, length, Some, vec_len};
ghost use Rattle.perc_run.specs.Sound.{IsOrderly};
ghost use Rattle.perc_run.specs.State as spec;
ghost use Rattle.perc_run.specs.State.{State};
ghost use Rattle.perc_run.specs.Delivering.{by_cipher, deliver_turn, delivered};
ghost use Rattle.perc_rtp.specs.declared.carried.Carried.TheVariants as carried;
ghost use Rattle.perc_conference_state.specs.Mirror.{Does, IsRunning, Mirrors};
ghost use Rattle.perc_outer.specs.Datagram.{Opened};
ghost use Rattle.perc_receiver.specs.Receiver.{OpenTry, receiving};
ghost use Rattle.perc_incoming.specs.Outcome.{IsReached, IsTakenAs, IsToldOf, padding_answer};
ghost use Rattle.perc_report_line.specs.Report.{Refuse};
ghost use Rattle.perc_deliver_line.specs.Hearing.{Hears, IsTakenAt, Reports, Settles, StandsAt, Tells, WasSent};

use perc_base::Profile;
use perc_conference_state::{Conference, Stop, Told};
use perc_forwarder::{control_refusal, media_refusal, outer_refusal};
use perc_incoming::{Accepted, Decided};
use perc_outer::Reached;
use perc_report_line::{Refusal, ReportLine};
use perc_rtp::{Carried, kind};
use perc_word::{Name, Octets};
use std::alloc::Global;

/// A datagram by its number, from 1, and the name of the member that it reaches.
#[derive(Clone, Copy)]
pub struct Delivery {
    pub datagram: u32,
    pub name: Name,
}

// What a member makes of a datagram of media.
#[derive(Clone, Copy)]
enum Heard<'b> {
    Accepted(Accepted<'b>),
    Refused(Refusal),
    // Something in it opens that nobody made.
    Foreign,
}

/// Delivers a datagram to a member (RFC 8723 section 5.3, RFC 8870 section 4.3), and appends the line of what it makes of it to the
/// text: it accepts a packet, or refuses the datagram. The line of the script is refused where no member that is present has the name,
/// or there is no datagram of the number. Where something in the datagram opens that nobody made, `Foreign` is answered; then, and where
/// no memory is found, nothing is said of the conference.
pub fn deliver(
    conference: &mut Conference,
    alloc: Global,
    profile: Profile,
    delivery: &Delivery,
    text: &mut Vec<u8>,
) -> Result<Told, Stop>
    requires running { IsRunning conference.old }
    requires profile { conference.old.profile ≡ Some profile }
    ensures { (s : State) → IsOrderly s → Mirrors conference.old s
        → Does (deliver_turn by_cipher s delivery.now.datagram delivery.now.name) result text.old.items text.new.items conference.new }
{
    let place = conference.place_of(&delivery.name)?;
    let at = conference.datagram_place(delivery.datagram)?;
    let mut room = [0; 1500];
    let octets = copied(&conference.datagrams[at].octets, &mut room);
    match kind(octets) {
        Carried::Dtls | Carried::Other => refuse(alloc, delivery, Refusal::NotMedia, text),
        Carried::Rtcp => deliver_control(conference, alloc, delivery, place, octets, text),
        Carried::Rtp => deliver_media(conference, alloc, profile, delivery, place, octets, text),
    }
}

// Copies a datagram to the front of the room, and lends it from there: who opens it writes to its octets.
fn copied<'b>(datagram: &[u8], room: &'b mut [u8; 1500]) -> &'b mut [u8]
    requires { length datagram.now ≤ 1500 }
    ensures value { result.now ≡ datagram.now }
    ensures few { length result.now ≤ 1500 }
{
    let octets = &mut room[..datagram.len()];
    octets.copy_from_slice(datagram);
    octets
}

// Delivers an RTCP packet to the member at a place.
fn deliver_control(
    conference: &mut Conference,
    alloc: Global,
    delivery: &Delivery,
    place: usize,
    octets: &mut [u8],
    text: &mut Vec<u8>,
) -> Result<Told, Stop>
    requires running { IsRunning conference.old }
    requires few { length octets.old ≤ 1500 }
    requires place { place < vec_len conference.old.members }
    ensures { (s : State) (m : spec.Member) → StandsAt conference.old place s m → m.name ≡ delivery.now.name
        → Does (delivered by_cipher s delivery.now.datagram m octets.old carried.Rtcp)
        result text.old.items text.new.items conference.new }
{
    match conference.members[place].endpoint.receive_rtcp(octets) {
        Ok(plain) => {
            let line = ReportLine::Rtcp {
                datagram: delivery.datagram,
                name: delivery.name,
                octets: Octets::of(plain),
            };
            line.write(alloc, text)?;
            Ok(Told::NONE)
        }
        Err(fault) => refuse(alloc, delivery, control_refusal(fault), text),
    }
}

// Delivers an RTP packet to the member at a place.
fn deliver_media(
    conference: &mut Conference,
    alloc: Global,
    profile: Profile,
    delivery: &Delivery,
    place: usize,
    octets: &mut [u8],
    text: &mut Vec<u8>,
) -> Result<Told, Stop>
    requires running { IsRunning conference.old }
    requires profile { conference.old.profile ≡ Some profile }
    requires few { length octets.old ≤ 1500 }
    requires place { place < vec_len conference.old.members }
    ensures { (s : State) (m : spec.Member) → StandsAt conference.old place s m → m.name ≡ delivery.now.name
        → Does (delivered by_cipher s delivery.now.datagram m octets.old carried.Rtp)
        result text.old.items text.new.items conference.new }
{
    match hear(conference, profile, place, octets) {
        Heard::Accepted(accepted) => accept(conference, alloc, profile, delivery, &accepted, text),
        Heard::Refused(reason) => refuse(alloc, delivery, reason, text),
        Heard::Foreign => Err(Stop::Foreign(delivery.name)),
    }
}

// Lets the member at a place hear an RTP packet. After a foreign one nothing is said of the conference.
fn hear<'b>(
    conference: &mut Conference,
    profile: Profile,
    place: usize,
    octets: &'b mut [u8],
) -> Heard<'b>
    requires running { IsRunning conference.old }
    requires profile { conference.old.profile ≡ Some profile }
    requires few { length octets.old ≤ 1500 }
    requires place { place < vec_len conference.old.members }
    ensures { (s : State) (m : spec.Member) → StandsAt conference.old place s m → Hears s m octets.old result conference.new }
{
    let reached = match conference.members[place].endpoint.reach(octets) {
        Ok(reached) => reached,
        Err(fault) => return Heard::Refused(outer_refusal(fault)),
    };
    let mut room = [0; 1500];
    let endpoint = &conference.members[place].endpoint;
    let inquiry = endpoint.ask(octets, &reached, &mut room);
    if conference
        .table(profile)
        .is_foreign(&inquiry, octets, &reached)
    {
        return Heard::Foreign;
    }
    match inquiry.decision {
        Ok(decided) => settle(conference, place, octets, &reached, &decided, &room),
        Err(refusal) => Heard::Refused(media_refusal(refusal)),
    }
}

// Lets the member at a place accept an opened packet by the try that was decided on.
fn settle<'b>(
    conference: &mut Conference,
    place: usize,
    octets: &'b mut [u8],
    reached: &Reached,
    decided: &Decided,
    room: &[u8; 1500],
) -> Heard<'b>
    requires running { IsRunning conference.old }
    requires place { place < vec_len conference.old.members }
    requires reached { IsReached octets.old reached.now }
    requires taken { IsTakenAt conference.old place octets.old reached.now decided.now room.now }
    ensures { (s : State) (m : spec.Member) (o : Opened) (t : OpenTry) → StandsAt conference.old place s m
        → IsToldOf o octets.old reached.now → IsTakenAs (receiving m.endpoint.receiving) o.header.ssrc t decided.now room.now
        → Settles s m (padding_answer o t) result conference.new }
{
    let endpoint = &mut conference.members[place].endpoint;
    match endpoint.settle(octets, reached, decided, room) {
        Ok(accepted) => Heard::Accepted(accepted),
        Err(refusal) => Heard::Refused(media_refusal(refusal)),
    }
}

// Reports an accepted packet.
fn accept(
    conference: &Conference,
    alloc: Global,
    profile: Profile,
    delivery: &Delivery,
    accepted: &Accepted<'_>,
    text: &mut Vec<u8>,
) -> Result<Told, Stop>
    requires profile { conference.now.profile ≡ Some profile }
    requires sent { WasSent conference.now accepted.now }
    ensures { (s : State) → IsOrderly s → Mirrors conference.now s
        → Tells s delivery.now accepted.now result text.old.items text.new.items }
{
    // It isn't foreign, so somebody sent it.
    let Some(sent) = conference
        .table(profile)
        .sent_as(accepted.ssrc, accepted.index)
    else {
        unreachable!()
    };
    let line = ReportLine::Accept {
        datagram: delivery.datagram,
        name: delivery.name,
        sender: sent.sender,
        sent: sent.datagram,
        pt: accepted.pt,
        seq: accepted.seq,
        marker: accepted.marker,
        timestamp: accepted.timestamp,
        payload: Octets::of(accepted.payload),
    };
    line.write(alloc, text)?;
    Ok(Told::ACCEPT)
}

// Reports a refusal.
fn refuse(
    alloc: Global,
    delivery: &Delivery,
    reason: Refusal,
    text: &mut Vec<u8>,
) -> Result<Told, Stop>
    ensures { Reports (Refuse delivery.now.datagram delivery.now.name reason) result text.old.items text.new.items }
{
    let line = ReportLine::Refuse {
        datagram: delivery.datagram,
        name: delivery.name,
        reason,
    };
    line.write(alloc, text)?;
    Ok(Told::REFUSE)
}
