// A datagram put on the wire.
ghost use Rattle.std.specs.Prelude.{◌≡◌, ◌+◌, length, nat_le};
ghost use Rattle.perc_report_line.specs.View.{report_told};
ghost use Rattle.perc_run.specs.Hostile.{added};
ghost use Rattle.perc_run.specs.State as spec;
ghost use Rattle.perc_run.specs.State.{State};
ghost use Rattle.perc_member.specs.Each.{MirrorsDatagram};
ghost use Rattle.perc_conference_state.specs.Mirror.{Does, Mirrors};
ghost use Rattle.perc_wire_lines.specs.Wires.{wire_line};

use perc_conference_state::{Conference, MOST_DATAGRAMS, Stop, Told};
use perc_member::Datagram;
use perc_report_line::ReportLine;
use perc_script_line::Reason;
use perc_word::{Name, Octets};
use std::alloc::Global;

/// Whose datagram it is.
#[derive(Clone, Copy)]
pub enum Wire {
    /// The member of this name sent it.
    Up(Name),
    /// It was put together.
    Made,
    /// It was sealed for the member of this name.
    Reseal(Name),
}

/// Puts a datagram on the wire, and reports it. It is refused as `limit` where there are as many datagrams as there may be.
pub fn put(
    conference: &mut Conference,
    alloc: Global,
    wire: &Wire,
    datagram: Datagram,
    text: &mut Vec<u8>,
) -> Result<Told, Stop>
    ensures { (s : State) (d : spec.Datagram) → Mirrors conference.old s → MirrorsDatagram datagram d
        → Does (added s (wire_line wire.now (length s.datagrams + 1) d.octets) d) result text.old.items text.new.items conference.new }
{
    if is_full(conference) {
        return Err(Stop::Refused(Reason::Limit));
    }
    let line = line_of(wire, conference.next_number(), &datagram.octets);
    line.write(alloc, text)?;
    conference.datagrams.push(datagram)?;
    Ok(Told::WIRE)
}

/// Whether there are as many datagrams as there may be.
pub fn is_full(conference: &Conference) -> bool
    ensures { result ≡ nat_le 131072 (length conference.now.datagrams.items) }
{
    conference.datagrams.len() >= MOST_DATAGRAMS
}

// The line of a datagram of this number and these octets.
fn line_of<'a>(wire: &Wire, number: u32, octets: &'a [u8]) -> ReportLine<'a>
    ensures { report_told result ≡ wire_line wire.now number octets.now }
{
    let octets = Octets::of(octets);
    match wire {
        Wire::Up(name) => ReportLine::WireUp {
            datagram: number,
            name: *name,
            octets,
        },
        Wire::Made => ReportLine::WireMade {
            datagram: number,
            octets,
        },
        Wire::Reseal(name) => ReportLine::WireReseal {
            datagram: number,
            name: *name,
            octets,
        },
    }
}
