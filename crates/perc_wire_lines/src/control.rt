// The line `rtcp`.
ghost use Rattle.std.specs.Prelude.{◌≡◌, true, IfOk};
ghost use Rattle.perc_endpoint.specs.Endpoint as spec;
ghost use Rattle.perc_endpoint.specs.Kept.{StandsFor};
ghost use Rattle.perc_script_line.specs.Script.{is_rtcp};
ghost use Rattle.perc_run.specs.Sound.{IsOrderly};
ghost use Rattle.perc_run.specs.Control.{rtcp_turn};
ghost use Rattle.perc_run.specs.State.{State};
ghost use Rattle.perc_conference_state.specs.Mirror.{Does, IsRunning, Mirrors};
ghost use Rattle.perc_wire_lines.specs.Made.{MaySeal, Seals};

use crate::putting::{Wire, is_full, put};
use perc_conference_state::{Conference, Stop, Told};
use perc_endpoint::Endpoint;
use perc_member::Datagram;
use perc_rtp::LONGEST_RTCP;
use perc_script_line::Reason;
use perc_word::{Name, Octets};
use std::alloc::{AllocError, Global};

/// Sends a member's next control packet: 8 to 1200 octets, of version 2.
pub fn rtcp(
    conference: &mut Conference,
    alloc: Global,
    name: Name,
    plain: &Octets<'_>,
    text: &mut Vec<u8>,
) -> Result<Told, Stop>
    requires running { IsRunning conference.old }
    requires rtcp { is_rtcp plain.now ≡ true }
    ensures { (s : State) → IsOrderly s → Mirrors conference.old s
        → Does (rtcp_turn s name plain.now) result text.old.items text.new.items conference.new }
{
    let place = conference.place_of(&name)?;
    if is_full(conference) {
        return Err(Stop::Refused(Reason::Limit));
    }
    let endpoint = &mut conference.members[place].endpoint;
    let datagram = sealed(alloc, endpoint, plain)?;
    put(conference, alloc, &Wire::Up(name), datagram, text)
}

// An endpoint's next control packet, as a datagram. Where no memory is found, nothing is said of the endpoint.
fn sealed(
    alloc: Global,
    endpoint: &mut Endpoint,
    plain: &Octets<'_>,
) -> Result<Datagram, AllocError>
    requires rtcp { is_rtcp plain.now ≡ true }
    requires index { MaySeal endpoint.old }
    ensures { (e : spec.Endpoint) → StandsFor endpoint.old e → IfOk result (Seals e plain.now endpoint.new) }
{
    let mut room = [0; LONGEST_RTCP];
    let packet = &mut room[..plain.len()];
    plain.write(packet);
    let mut octets = [0; 1500];
    // The packet has no fault, and indices are left.
    let Ok(len) = endpoint.send_rtcp(packet, &mut octets) else {
        unreachable!()
    };
    Ok(Datagram {
        octets: Vec::from_slice(alloc, &octets[..len])?,
        unsealed: None,
    })
}
