// The lines of reports.
ghost use Rattle.std.specs.Prelude.{◌≡◌, ◌++◌, OnOk, OnErr};
ghost use Rattle.std.specs.Option.{option_map};
ghost use Rattle.perc_word.specs.Left.{words_left};
ghost use Rattle.perc_report_line.specs.Growth.{StartsWith};
ghost use Rattle.perc_report_line.specs.Report as spec;
ghost use Rattle.perc_report_line.specs.Report.{report_text, report_line, report_of};
ghost use Rattle.perc_report_line.specs.View.{report_told};

use super::append::text;
use super::read::{
    accept_in, denied_in, drop_in, ekt_in, granted_in, joined_in, left_in, refuse_in, rekeyed_in,
    rtcp_in, wire_in,
};
use super::verb::{Verb, verb_in};
use super::{Denial, Loss, Refusal, write};
use perc_base::Memory;
use perc_word::{Name, Octets, next_word};
use std::alloc::{AllocError, Global};

/// A line of a report.
#[derive(Drop)]
pub enum ReportLine<'a> {
    /// `ekt SPI`
    Ekt {
        spi: u16,
    },
    /// `joined NAME UUID`
    Joined {
        name: Name,
        association: [u8; 16],
    },
    /// `left NAME`
    Left {
        name: Name,
    },
    /// `granted NAME SPI`
    Granted {
        name: Name,
        spi: u16,
    },
    /// `denied NAME REASON`
    Denied {
        name: Name,
        reason: Denial,
    },
    /// `rekeyed NAME SPI EPOCH`
    Rekeyed {
        name: Name,
        spi: u16,
        epoch: u16,
    },
    /// `wire N up NAME HEX`: a datagram that NAME sent.
    WireUp {
        datagram: u32,
        name: Name,
        octets: Octets<'a>,
    },
    /// `wire N made HEX`: a datagram that was put together.
    WireMade {
        datagram: u32,
        octets: Octets<'a>,
    },
    /// `wire N reseal NAME HEX`: a datagram that was sealed for NAME.
    WireReseal {
        datagram: u32,
        name: Name,
        octets: Octets<'a>,
    },
    /// `wire N down NAME HEX`: a datagram that was forwarded to NAME.
    WireDown {
        datagram: u32,
        name: Name,
        octets: Octets<'a>,
    },
    /// `drop N NAME REASON`: what became of a forwarded datagram for NAME.
    Dropped {
        datagram: u32,
        name: Name,
        reason: Loss,
    },
    /// `refuse N media REASON`: the distributor's refusal.
    RefuseMedia {
        datagram: u32,
        reason: Refusal,
    },
    /// `accept N NAME SENDER S PT SEQ M TS PAYLOAD`: S is the number of the sender's own datagram.
    Accept {
        datagram: u32,
        name: Name,
        sender: Name,
        sent: u32,
        pt: u8,
        seq: u16,
        marker: bool,
        timestamp: u32,
        payload: Octets<'a>,
    },
    /// `rtcp N NAME HEX`
    Rtcp {
        datagram: u32,
        name: Name,
        octets: Octets<'a>,
    },
    /// `refuse N NAME REASON`
    Refuse {
        datagram: u32,
        name: Name,
        reason: Refusal,
    },
}

impl<'a> ReportLine<'a> {
    /// Appends the one spelling of the line, with its line feed. Where no memory is found, `out` is as it was.
    pub fn write(&self, _alloc: Global, out: &mut Vec<u8>) -> Result<(), Memory>
        ensures ok { OnOk result (out.new.items ≡ out.old.items ++ report_text (report_told self.now)) }
        ensures err { OnErr result (out.new.items ≡ out.old.items) }
    {
        let before = out.len();
        if self.append(out).is_err() {
            out.truncate(before);
            return Err(Memory);
        }
        Ok(())
    }

    /// What the line says, without its line feed. None exactly where it is none of these lines. It takes no memory.
    #[tactic(auto, unfolding(crate::specs::Report::report_of))]
    pub fn read(line: &'a [u8]) -> Option<ReportLine<'a>>
        ensures { option_map report_told result ≡ report_of line.now }
    {
        let (verb, words) = next_word(Some(line))?;
        said_by(verb_in(verb)?, words)
    }

    // Appends the line, or a part of it where no memory is found.
    #[tactic(auto, using(crate::proofs::Appended::starts_again), unfolding(crate::specs::Report::report_text))]
    fn append(&self, out: &mut Vec<u8>) -> Result<(), AllocError>
        ensures ok { OnOk result (out.new.items ≡ out.old.items ++ report_text (report_told self.now)) }
        ensures kept { StartsWith out.new.items out.old.items }
    {
        self.append_words(out)?;
        text(out, b"\n")
    }

    // Appends the words of the line, or a part of them where no memory is found.
    fn append_words(&self, out: &mut Vec<u8>) -> Result<(), AllocError>
        ensures ok { OnOk result (out.new.items ≡ out.old.items ++ report_line (report_told self.now)) }
        ensures kept { StartsWith out.new.items out.old.items }
    {
        match self {
            ReportLine::Ekt { spi } => write::ekt(out, *spi),
            ReportLine::Joined { name, association } => write::joined(out, name, *association),
            ReportLine::Left { name } => write::left(out, name),
            ReportLine::Granted { name, spi } => write::granted(out, name, *spi),
            ReportLine::Denied { name, reason } => write::denied(out, name, *reason),
            ReportLine::Rekeyed { name, spi, epoch } => write::rekeyed(out, name, *spi, *epoch),
            ReportLine::WireUp {
                datagram,
                name,
                octets,
            } => write::wire_up(out, *datagram, name, octets),
            ReportLine::WireMade { datagram, octets } => write::wire_made(out, *datagram, octets),
            ReportLine::WireReseal {
                datagram,
                name,
                octets,
            } => write::wire_reseal(out, *datagram, name, octets),
            ReportLine::WireDown {
                datagram,
                name,
                octets,
            } => write::wire_down(out, *datagram, name, octets),
            ReportLine::Dropped {
                datagram,
                name,
                reason,
            } => write::dropped(out, *datagram, name, *reason),
            ReportLine::RefuseMedia { datagram, reason } => {
                write::refuse_media(out, *datagram, *reason)
            }
            ReportLine::Accept {
                datagram,
                name,
                sender,
                sent,
                pt,
                seq,
                marker,
                timestamp,
                payload,
            } => {
                write::accept(out, *datagram, name, sender, *sent)?;
                write::packet(out, *pt, *seq, *marker, *timestamp, payload)
            }
            ReportLine::Rtcp {
                datagram,
                name,
                octets,
            } => write::rtcp(out, *datagram, name, octets),
            ReportLine::Refuse {
                datagram,
                name,
                reason,
            } => write::refuse(out, *datagram, name, *reason),
        }
    }
}

// What the words behind a verb say.
fn said_by(verb: Verb, words: Option<&[u8]>) -> Option<ReportLine<'_>>
    ensures { option_map report_told result ≡ spec.said_by verb (words_left words.entry) }
{
    match verb {
        Verb::Ekt => ekt_in(words),
        Verb::Joined => joined_in(words),
        Verb::Left => left_in(words),
        Verb::Granted => granted_in(words),
        Verb::Denied => denied_in(words),
        Verb::Rekeyed => rekeyed_in(words),
        Verb::Wire => wire_in(words),
        Verb::Drop => drop_in(words),
        Verb::Refuse => refuse_in(words),
        Verb::Accept => accept_in(words),
        Verb::Rtcp => rtcp_in(words),
    }
}
