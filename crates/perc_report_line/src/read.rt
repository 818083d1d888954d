// The forms of lines: what stands behind their first words.
ghost use Rattle.std.specs.Prelude.{◌≡◌};
ghost use Rattle.std.specs.Option.{option_map};
ghost use Rattle.perc_word.specs.Left.{words_left};
ghost use Rattle.perc_report_line.specs.Report as spec;
ghost use Rattle.perc_report_line.specs.declared.verb.Way.TheVariants as spec_way;
ghost use Rattle.perc_report_line.specs.View.{report_told};

use super::ReportLine;
use super::reason_words::{denial_in, loss_in, refusal_in};
use super::verb::{Way, way_in};
use perc_word::{
    Name, end, next_marker, next_octets, next_payload, next_payload_type, next_u16, next_u32,
    next_word, uuid,
};

/// `SPI`
#[tactic(auto, unfolding(crate::specs::Report::ekt_in))]
pub fn ekt_in(words: Option<&[u8]>) -> Option<ReportLine<'_>>
    ensures { option_map report_told result ≡ spec.ekt_in (words_left words.entry) }
{
    let (spi, words) = next_u16(words)?;
    end(words)?;
    Some(ReportLine::Ekt { spi })
}

/// `NAME UUID`
#[tactic(auto, unfolding(crate::specs::Report::joined_in))]
pub fn joined_in(words: Option<&[u8]>) -> Option<ReportLine<'_>>
    ensures { option_map report_told result ≡ spec.joined_in (words_left words.entry) }
{
    let (name, words) = next_word(words)?;
    let name = Name::read(name)?;
    let (association, words) = next_word(words)?;
    let association = uuid(association)?;
    end(words)?;
    Some(ReportLine::Joined { name, association })
}

/// `NAME`
#[tactic(auto, unfolding(crate::specs::Report::left_in))]
pub fn left_in(words: Option<&[u8]>) -> Option<ReportLine<'_>>
    ensures { option_map report_told result ≡ spec.left_in (words_left words.entry) }
{
    let (name, words) = next_word(words)?;
    let name = Name::read(name)?;
    end(words)?;
    Some(ReportLine::Left { name })
}

/// `NAME SPI`
#[tactic(auto, unfolding(crate::specs::Report::granted_in))]
pub fn granted_in(words: Option<&[u8]>) -> Option<ReportLine<'_>>
    ensures { option_map report_told result ≡ spec.granted_in (words_left words.entry) }
{
    let (name, words) = next_word(words)?;
    let name = Name::read(name)?;
    let (spi, words) = next_u16(words)?;
    end(words)?;
    Some(ReportLine::Granted { name, spi })
}

/// `NAME REASON`
#[tactic(auto, unfolding(crate::specs::Report::denied_in))]
pub fn denied_in(words: Option<&[u8]>) -> Option<ReportLine<'_>>
    ensures { option_map report_told result ≡ spec.denied_in (words_left words.entry) }
{
    let (name, words) = next_word(words)?;
    let name = Name::read(name)?;
    let reason = denial_in(words)?;
    Some(ReportLine::Denied { name, reason })
}

/// `NAME SPI EPOCH`
#[tactic(auto, unfolding(crate::specs::Report::rekeyed_in))]
pub fn rekeyed_in(words: Option<&[u8]>) -> Option<ReportLine<'_>>
    ensures { option_map report_told result ≡ spec.rekeyed_in (words_left words.entry) }
{
    let (name, words) = next_word(words)?;
    let name = Name::read(name)?;
    let (spi, words) = next_u16(words)?;
    let (epoch, words) = next_u16(words)?;
    end(words)?;
    Some(ReportLine::Rekeyed { name, spi, epoch })
}

/// `DATAGRAM WAY ..`
#[tactic(auto, unfolding(crate::specs::Report::wire_in))]
pub fn wire_in(words: Option<&[u8]>) -> Option<ReportLine<'_>>
    ensures { option_map report_told result ≡ spec.wire_in (words_left words.entry) }
{
    let (datagram, words) = next_u32(words)?;
    let (way, words) = next_word(words)?;
    wired(datagram, way_in(way)?, words)
}

// What came to the wire on this way.
fn wired(datagram: u32, way: Way, words: Option<&[u8]>) -> Option<ReportLine<'_>>
    ensures { option_map report_told result ≡ spec.wired datagram way (words_left words.entry) }
{
    match way {
        Way::Up => wire_up(datagram, words),
        Way::Made => wire_made(datagram, words),
        Way::Reseal => wire_reseal(datagram, words),
        Way::Down => wire_down(datagram, words),
    }
}

// `NAME HEX`
fn wire_up(datagram: u32, words: Option<&[u8]>) -> Option<ReportLine<'_>>
    ensures { option_map report_told result ≡ spec.wired datagram spec_way.Up (words_left words.entry) }
{
    let (name, words) = next_word(words)?;
    let name = Name::read(name)?;
    let (octets, words) = next_octets(words)?;
    end(words)?;
    Some(ReportLine::WireUp {
        datagram,
        name,
        octets,
    })
}

// `NAME HEX`
fn wire_reseal(datagram: u32, words: Option<&[u8]>) -> Option<ReportLine<'_>>
    ensures { option_map report_told result ≡ spec.wired datagram spec_way.Reseal (words_left words.entry) }
{
    let (name, words) = next_word(words)?;
    let name = Name::read(name)?;
    let (octets, words) = next_octets(words)?;
    end(words)?;
    Some(ReportLine::WireReseal {
        datagram,
        name,
        octets,
    })
}

// `NAME HEX`
fn wire_down(datagram: u32, words: Option<&[u8]>) -> Option<ReportLine<'_>>
    ensures { option_map report_told result ≡ spec.wired datagram spec_way.Down (words_left words.entry) }
{
    let (name, words) = next_word(words)?;
    let name = Name::read(name)?;
    let (octets, words) = next_octets(words)?;
    end(words)?;
    Some(ReportLine::WireDown {
        datagram,
        name,
        octets,
    })
}

// `HEX`
fn wire_made(datagram: u32, words: Option<&[u8]>) -> Option<ReportLine<'_>>
    ensures { option_map report_told result ≡ spec.wired datagram spec_way.Made (words_left words.entry) }
{
    let (octets, words) = next_octets(words)?;
    end(words)?;
    Some(ReportLine::WireMade { datagram, octets })
}

/// `DATAGRAM NAME REASON`
#[tactic(auto, unfolding(crate::specs::Report::drop_in))]
pub fn drop_in(words: Option<&[u8]>) -> Option<ReportLine<'_>>
    ensures { option_map report_told result ≡ spec.drop_in (words_left words.entry) }
{
    let (datagram, words) = next_u32(words)?;
    let (name, words) = next_word(words)?;
    let name = Name::read(name)?;
    let reason = loss_in(words)?;
    Some(ReportLine::Dropped {
        datagram,
        name,
        reason,
    })
}

/// `DATAGRAM media REASON`, or `DATAGRAM NAME REASON`
#[tactic(auto, unfolding(crate::specs::Report::refuse_in))]
pub fn refuse_in(words: Option<&[u8]>) -> Option<ReportLine<'_>>
    ensures { option_map report_told result ≡ spec.refuse_in (words_left words.entry) }
{
    let (datagram, words) = next_u32(words)?;
    let (by, words) = next_word(words)?;
    if by == b"media".as_slice() {
        let reason = refusal_in(words)?;
        return Some(ReportLine::RefuseMedia { datagram, reason });
    }
    let name = Name::read(by)?;
    let reason = refusal_in(words)?;
    Some(ReportLine::Refuse {
        datagram,
        name,
        reason,
    })
}

/// `DATAGRAM NAME SENDER SENT PT SEQ M TS PAYLOAD`
#[tactic(auto, unfolding(crate::specs::Report::accept_in))]
pub fn accept_in(words: Option<&[u8]>) -> Option<ReportLine<'_>>
    ensures { option_map report_told result ≡ spec.accept_in (words_left words.entry) }
{
    let (datagram, words) = next_u32(words)?;
    let (name, words) = next_word(words)?;
    let name = Name::read(name)?;
    let (sender, words) = next_word(words)?;
    let sender = Name::read(sender)?;
    let (sent, words) = next_u32(words)?;
    let (pt, words) = next_payload_type(words)?;
    let (seq, words) = next_u16(words)?;
    let (marker, words) = next_marker(words)?;
    let (timestamp, words) = next_u32(words)?;
    let (payload, words) = next_payload(words)?;
    end(words)?;
    Some(ReportLine::Accept {
        datagram,
        name,
        sender,
        sent,
        pt,
        seq,
        marker,
        timestamp,
        payload,
    })
}

/// `DATAGRAM NAME HEX`
#[tactic(auto, unfolding(crate::specs::Report::rtcp_in))]
pub fn rtcp_in(words: Option<&[u8]>) -> Option<ReportLine<'_>>
    ensures { option_map report_told result ≡ spec.rtcp_in (words_left words.entry) }
{
    let (datagram, words) = next_u32(words)?;
    let (name, words) = next_word(words)?;
    let name = Name::read(name)?;
    let (octets, words) = next_octets(words)?;
    end(words)?;
    Some(ReportLine::Rtcp {
        datagram,
        name,
        octets,
    })
}
