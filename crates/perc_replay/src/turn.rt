// A line of a script, done.
ghost use Rattle.std.specs.Prelude.{◌≡◌, ℕ, List, true, false, Some, None};
ghost use Rattle.perc_script_line.specs.Script.{IsScript, fits, script_of};
ghost use Rattle.perc_script_line.specs.View.{script_said};
ghost use Rattle.perc_run.specs.Sound.{IsOrderly};
ghost use Rattle.perc_run.specs.State.{State};
ghost use Rattle.perc_run.specs.Delivering.{by_cipher};
ghost use Rattle.perc_run.specs.Report.{turn_at};
ghost use Rattle.perc_run.specs.Turn.{first_turn, form_turn};
ghost use Rattle.perc_conference_state.specs.Mirror.{Does, IsRunning, Mirrors};
ghost use Rattle.perc_replay.specs.Steps.{IsOfDatagrams, IsOfWire};

use perc_base::Profile;
use perc_conference_state::{Conference, Sending, Stop, Told};
use perc_deliver_line::{Delivery, deliver};
use perc_forward_line::forward;
use perc_member::{Key, Newcomer, pair_in};
use perc_reseal_line::{Resealing, reseal};
use perc_script_line::laws::one_spelling;
use perc_script_line::{Reason, ScriptLine};
use perc_wire_lines::{Grafting, alter, graft, inject, rtcp};
use std::alloc::Global;

/// Does what a line of a script says, and appends what it reports to the text.
pub fn turn(
    conference: &mut Conference,
    alloc: Global,
    line: &[u8],
    text: &mut Vec<u8>,
) -> Result<Told, Stop>
    requires running { IsRunning conference.old }
    ensures { (s : State) → IsOrderly s → Mirrors conference.old s
        → Does (turn_at by_cipher s (script_of line.now)) result text.old.items text.new.items conference.new }
{
    let Some(said) = ScriptLine::read(line) else {
        return Err(Stop::Refused(Reason::Form));
    };
    let Some(profile) = conference.profile else {
        return first_turn(conference, alloc, &said);
    };
    if !said.fits(profile) {
        return Err(Stop::Refused(Reason::Form));
    }
    // The words of a line that is read have their bounds.
    one_spelling();
    form_turn(conference, alloc, profile, said, text)
}

// Does a line before the head, which reports nothing.
fn first_turn(
    conference: &mut Conference,
    alloc: Global,
    said: &ScriptLine<'_>,
) -> Result<Told, Stop>
    requires running { IsRunning conference.old }
    requires head { conference.old.profile ≡ None }
    ensures { (s : State) (text : List ℕ) → IsOrderly s → Mirrors conference.old s
        → Does (first_turn s (script_said said.now)) result text text conference.new }
{
    match said {
        ScriptLine::Nothing => Ok(Told::NONE),
        ScriptLine::Conference { profile } => conference.open(alloc, *profile),
        _ => Err(Stop::Refused(Reason::Order)),
    }
}

// Does a line behind the head.
fn form_turn(
    conference: &mut Conference,
    alloc: Global,
    profile: Profile,
    said: ScriptLine<'_>,
    text: &mut Vec<u8>,
) -> Result<Told, Stop>
    requires running { IsRunning conference.old }
    requires profile { conference.old.profile ≡ Some profile }
    requires script { IsScript (script_said said) }
    requires fits { fits profile (script_said said) ≡ true }
    ensures { (s : State) → IsOrderly s → Mirrors conference.old s
        → Does (form_turn by_cipher s profile (script_said said.entry)) result text.old.items text.new.items conference.new }
{
    match said {
        ScriptLine::Nothing => Ok(Told::NONE),
        ScriptLine::Conference { .. } => Err(Stop::Refused(Reason::Order)),
        ScriptLine::Ekt { key, salt } => conference.ekt(alloc, &key, &salt, text),
        ScriptLine::Join {
            name,
            ssrc,
            seq,
            client,
            server,
            key,
        } => {
            let newcomer = Newcomer {
                name,
                ssrc,
                seq,
                client: pair_in(&client),
                server: pair_in(&server),
                key: Key::of(&key),
            };
            conference.join(alloc, profile, &newcomer, text)
        }
        ScriptLine::Leave { name } => conference.leave(alloc, name, text),
        ScriptLine::Grant { name, spi, key } => conference.grant(alloc, name, spi, &key, text),
        ScriptLine::Rekey { name, key } => conference.rekey(alloc, name, &key, text),
        said => datagram_turn(conference, alloc, profile, said, text),
    }
}

// Does a line behind the head that makes or moves datagrams.
fn datagram_turn(
    conference: &mut Conference,
    alloc: Global,
    profile: Profile,
    said: ScriptLine<'_>,
    text: &mut Vec<u8>,
) -> Result<Told, Stop>
    requires running { IsRunning conference.old }
    requires profile { conference.old.profile ≡ Some profile }
    requires script { IsScript (script_said said) }
    requires datagrams { IsOfDatagrams (script_said said) }
    ensures { (s : State) → IsOrderly s → Mirrors conference.old s
        → Does (form_turn by_cipher s profile (script_said said.entry)) result text.old.items text.new.items conference.new }
{
    match said {
        ScriptLine::Send {
            name,
            pt,
            marker,
            timestamp,
            payload,
            options,
        } => {
            let said = Sending {
                name,
                pt,
                marker,
                timestamp,
            };
            conference.send_said(alloc, &said, &payload, options, text)
        }
        ScriptLine::Forward {
            name,
            datagrams,
            changes,
            recipients,
        } => forward(
            conference, alloc, &name, datagrams, &changes, recipients, text,
        ),
        ScriptLine::Deliver { datagram, name } => {
            deliver(
                conference,
                alloc,
                profile,
                &Delivery { datagram, name },
                text,
            )
        }
        said => wire_turn(conference, alloc, profile, said, text),
    }
}

// Does a line behind the head that puts one datagram on the wire, but for a send.
fn wire_turn(
    conference: &mut Conference,
    alloc: Global,
    profile: Profile,
    said: ScriptLine<'_>,
    text: &mut Vec<u8>,
) -> Result<Told, Stop>
    requires running { IsRunning conference.old }
    requires profile { conference.old.profile ≡ Some profile }
    requires script { IsScript (script_said said) }
    requires wire { IsOfWire (script_said said) }
    ensures { (s : State) → IsOrderly s → Mirrors conference.old s
        → Does (form_turn by_cipher s profile (script_said said.entry)) result text.old.items text.new.items conference.new }
{
    match said {
        ScriptLine::Rtcp { name, octets } => rtcp(conference, alloc, name, &octets, text),
        ScriptLine::Inject { octets } => inject(conference, alloc, &octets, text),
        ScriptLine::Alter {
            datagram,
            offset,
            octets,
        } => alter(conference, alloc, datagram, offset, &octets, text),
        ScriptLine::Graft {
            first,
            front,
            second,
            back,
        } => {
            let grafting = Grafting {
                first,
                front,
                second,
                back,
            };
            graft(conference, alloc, &grafting, text)
        }
        ScriptLine::Reseal {
            datagram,
            name,
            roc,
            changes,
        } => {
            let resealing = Resealing {
                datagram,
                name,
                roc,
            };
            reseal(conference, alloc, &resealing, &changes, text)
        }
        _ => unreachable!(),
    }
}
