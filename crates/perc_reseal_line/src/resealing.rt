// The line `reseal`.
ghost use Rattle.std.specs.Prelude.{◌≡◌, ◌≤◌, Some, length};
ghost use Rattle.perc_kdf.specs.Derivation.{session_keys};
ghost use Rattle.perc_kdf.specs.declared.Kind.TheVariants.{Srtp};
ghost use Rattle.perc_ohb.specs.Rewriting.{IsRewrite, rewrite_of};
ghost use Rattle.perc_script_line.specs.Script.{AreChanges};
ghost use Rattle.perc_script_line.specs.View.{changes_said};
ghost use Rattle.perc_run.specs.Sound.{IsOrderly};
ghost use Rattle.perc_run.specs.Hostile.{reseal_turn, unsealed_anew};
ghost use Rattle.perc_run.specs.State as spec;
ghost use Rattle.perc_run.specs.State.{State};
ghost use Rattle.perc_member.specs.Each.{MirrorsDatagram, MirrorsUnsealed};
ghost use Rattle.perc_conference_state.specs.Mirror.{Does, IsRunning, Mirrors};
ghost use Rattle.perc_reseal_line.specs.Anew.{IsResealed, IsSealedAnew};

use crate::sealing::write_sealed;
use perc_conference_state::{Conference, Stop, Told};
use perc_forwarder::change_in;
use perc_kdf::Kind;
use perc_member::{Datagram, Member, Unsealed, relayed};
use perc_ohb::Change;
use perc_script_line::{Changes, Reason};
use perc_srtp::Keys;
use perc_wire_lines::{Wire, put};
use perc_word::Name;
use std::alloc::Global;

/// Which datagram is sealed again, for whom, and with which roll-over counter.
#[derive(Clone, Copy)]
pub struct Resealing {
    pub datagram: u32,
    pub name: Name,
    pub roc: u32,
}

/// Makes the changes in a media packet, as it was before its outer seal, and seals it under the server pair of a member, at the index
/// that the roll-over counter and its sequence number make, whatever was sealed before. Its field stands behind it as before.
pub fn reseal(
    conference: &mut Conference,
    alloc: Global,
    resealing: &Resealing,
    changes: &Changes<'_>,
    text: &mut Vec<u8>,
) -> Result<Told, Stop>
    requires running { IsRunning conference.old }
    requires changes { AreChanges (changes_said changes.now) }
    ensures { (s : State) → IsOrderly s → Mirrors conference.old s
        → Does (reseal_turn s resealing.now.datagram resealing.now.name resealing.now.roc (changes_said changes.now))
        result text.old.items text.new.items conference.new }
{
    let place = conference.place_of(&resealing.name)?;
    let at = conference.datagram_place(resealing.datagram)?;
    let mut room = [0; 122];
    let change = change_in(changes, &mut room);
    let keys = keys_to(&conference.members[place]);
    let resealed = seal_datagram(
        alloc,
        &conference.datagrams[at],
        &change,
        &keys,
        resealing.roc,
    )?;
    put(
        conference,
        alloc,
        &Wire::Reseal(resealing.name),
        resealed,
        text,
    )
}

// The keys of the media that a member gets.
fn keys_to(member: &Member) -> Keys
    ensures { result ≡ session_keys member.now.server Srtp }
{
    Keys::new(&member.server, Kind::Srtp)
}

// Seals a datagram anew, with a change. Only media that was sealed is.
fn seal_datagram(
    alloc: Global,
    datagram: &Datagram,
    change: &Change<'_>,
    keys: &Keys,
    roc: u32,
) -> Result<Datagram, Stop>
    requires change { IsRewrite (rewrite_of change.now) }
    requires datagram { (d : spec.Datagram) × MirrorsDatagram datagram.now d }
    ensures { (d : spec.Datagram) → MirrorsDatagram datagram.now d → IsResealed keys.now roc (rewrite_of change.now) d.unsealed result }
{
    match &datagram.unsealed {
        Some(unsealed) => seal_media(alloc, &datagram.octets, unsealed, change, keys, roc),
        None => Err(Stop::Refused(Reason::Datagram)),
    }
}

// Seals what a datagram was before its outer seal, with a change. Its field stands at the datagram's end.
fn seal_media(
    alloc: Global,
    datagram: &[u8],
    unsealed: &Unsealed,
    change: &Change<'_>,
    keys: &Keys,
    roc: u32,
) -> Result<Datagram, Stop>
    requires few { length datagram.now ≤ 1500 }
    requires change { IsRewrite (rewrite_of change.now) }
    requires unsealed { (u : spec.Unsealed) × MirrorsUnsealed datagram.now unsealed.now u }
    ensures { (u : spec.Unsealed) → MirrorsUnsealed datagram.now unsealed.now u
        → IsSealedAnew keys.now roc (unsealed_anew u (rewrite_of change.now)) result }
{
    let field = &datagram[datagram.len() - unsealed.field..];
    let mut room = [0; 1500];
    let Some(len) = write_sealed(&unsealed.packet, change, field, keys, roc, &mut room) else {
        return Err(Stop::Refused(Reason::Limit));
    };
    let kept = relayed(alloc, &unsealed.packet, change, &room[..len], field.len())?;
    Ok(Datagram {
        octets: Vec::from_slice(alloc, &room[..len])?,
        unsealed: Some(kept),
    })
}
