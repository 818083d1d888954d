// The line `send`.
ghost use Rattle.std.specs.Prelude.{◌≡◌, None, unwrap_or};
ghost use Rattle.perc_rtp.specs.Media as media_spec;
ghost use Rattle.perc_rtp.specs.Media.{media_fault};
ghost use Rattle.perc_script_line.specs.Script.{AreOptions};
ghost use Rattle.perc_script_line.specs.View.{options_said};
ghost use Rattle.perc_run.specs.Sound.{IsOrderly};
ghost use Rattle.perc_run.specs.State.{State};
ghost use Rattle.perc_run.specs.Sending.{content_of, send_turn};
ghost use Rattle.perc_conference_state.specs.Mirror.{Does, IsRunning, Mirrors};
ghost use Rattle.perc_conference_state.specs.Steps.{content_said};

use crate::conference::{Conference, MOST_DATAGRAMS, Stop, Told};
use perc_forwarder::{csrcs_in, extension_in};
use perc_report_line::ReportLine;
use perc_rtp::{LONGEST_PAYLOAD, Media};
use perc_script_line::{Options, Reason};
use perc_word::{Name, Octets};
use std::alloc::Global;

/// What the first words of a send say.
#[derive(Clone, Copy)]
pub struct Sending {
    pub name: Name,
    pub pt: u8,
    pub marker: bool,
    pub timestamp: u32,
}

impl Conference {
    /// Sends the media that the words say.
    pub fn send_said(
        &mut self,
        alloc: Global,
        said: &Sending,
        payload: &Octets<'_>,
        options: Options<'_>,
        text: &mut Vec<u8>,
    ) -> Result<Told, Stop>
        requires running { IsRunning self.old }
        requires options { AreOptions (options_said options) }
        requires media { media_fault (content_said said.now payload.now (options_said options)) ≡ None }
        ensures { (s : State) → IsOrderly s → Mirrors self.old s
            → Does (send_turn s said.now.name (content_said said.now payload.now (options_said options.entry)))
            result text.old.items text.new.items self.new }
    {
        let mut octets = [0; LONGEST_PAYLOAD];
        let len = payload.len();
        payload.write(&mut octets[..len]);
        let mut csrcs = [0; 15];
        let count = csrcs_in(options.csrcs, &mut csrcs);
        let mut words = [0; 122];
        let media = Media {
            pt: said.pt,
            marker: said.marker,
            timestamp: said.timestamp,
            csrcs: &csrcs[..count],
            extension: extension_in(&options.extension, &mut words),
            payload: &octets[..len],
            pad: options.pad.unwrap_or(0),
        };
        self.send(alloc, said.name, &media, text)
    }

    /// Sends a member's next packet.
    pub fn send(
        &mut self,
        alloc: Global,
        name: Name,
        media: &Media<'_>,
        text: &mut Vec<u8>,
    ) -> Result<Told, Stop>
        requires running { IsRunning self.old }
        requires media { media_fault (media_spec.content_of media.now) ≡ None }
        ensures { (s : State) → IsOrderly s → Mirrors self.old s
            → Does (send_turn s name (media_spec.content_of media.now)) result text.old.items text.new.items self.new }
    {
        let place = self.place_of(&name)?;
        if self.datagrams.len() >= MOST_DATAGRAMS {
            return Err(Stop::Refused(Reason::Limit));
        }
        let number = self.next_number();
        let datagram = self.members[place].send(alloc, number, media)?;
        let line = ReportLine::WireUp {
            datagram: number,
            name,
            octets: Octets::of(&datagram.octets),
        };
        line.write(alloc, text)?;
        self.datagrams.push(datagram)?;
        Ok(Told::WIRE)
    }
}
