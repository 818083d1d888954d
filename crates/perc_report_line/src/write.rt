// The words of lines, appended.
ghost use Rattle.std.specs.Prelude.{◌≡◌, [], ◌∷◌, ◌++◌, codes, OnOk};
ghost use Rattle.std.specs.Fmt.{decimal};
ghost use Rattle.std.specs.List.{join_with_byte};
ghost use Rattle.perc_word.specs.Word.{marker_text, payload_text};
ghost use Rattle.perc_report_line.specs.Growth.{StartsWith};
ghost use Rattle.perc_report_line.specs.Report.{report_line, Ekt, Joined, Left, Granted, Denied, Rekeyed, WireUp, WireMade, WireReseal, WireDown, Dropped, RefuseMedia, Rtcp, Refuse};

use super::append::{
    denial, hexadecimal, loss, marker_word, name_word, number8, number16, number32, payload_word,
    refusal, text, uuid, word,
};
use super::{Denial, Loss, Refusal};
use perc_word::{Name, Octets};
use std::alloc::AllocError;

/// `ekt SPI`
#[tactic(auto, using(crate::proofs::Appended::starts_again))]
pub fn ekt(out: &mut Vec<u8>, spi: u16) -> Result<(), AllocError>
    ensures ok { OnOk result (out.new.items ≡ out.old.items ++ report_line (Ekt spi)) }
    ensures kept { StartsWith out.new.items out.old.items }
{
    text(out, b"ekt")?;
    number16(out, spi)
}

/// `joined NAME UUID`
#[tactic(auto, using(crate::proofs::Appended::starts_again))]
pub fn joined(out: &mut Vec<u8>, name: &Name, association: [u8; 16]) -> Result<(), AllocError>
    ensures ok { OnOk result (out.new.items ≡ out.old.items ++ report_line (Joined name.now association)) }
    ensures kept { StartsWith out.new.items out.old.items }
{
    text(out, b"joined")?;
    name_word(out, name)?;
    uuid(out, association)
}

/// `left NAME`
#[tactic(auto, using(crate::proofs::Appended::starts_again))]
pub fn left(out: &mut Vec<u8>, name: &Name) -> Result<(), AllocError>
    ensures ok { OnOk result (out.new.items ≡ out.old.items ++ report_line (Left name.now)) }
    ensures kept { StartsWith out.new.items out.old.items }
{
    text(out, b"left")?;
    name_word(out, name)
}

/// `granted NAME SPI`
#[tactic(auto, using(crate::proofs::Appended::starts_again))]
pub fn granted(out: &mut Vec<u8>, name: &Name, spi: u16) -> Result<(), AllocError>
    ensures ok { OnOk result (out.new.items ≡ out.old.items ++ report_line (Granted name.now spi)) }
    ensures kept { StartsWith out.new.items out.old.items }
{
    text(out, b"granted")?;
    name_word(out, name)?;
    number16(out, spi)
}

/// `denied NAME REASON`
#[tactic(auto, using(crate::proofs::Appended::starts_again))]
pub fn denied(out: &mut Vec<u8>, name: &Name, reason: Denial) -> Result<(), AllocError>
    ensures ok { OnOk result (out.new.items ≡ out.old.items ++ report_line (Denied name.now reason)) }
    ensures kept { StartsWith out.new.items out.old.items }
{
    text(out, b"denied")?;
    name_word(out, name)?;
    denial(out, reason)
}

/// `rekeyed NAME SPI EPOCH`
#[tactic(auto, using(crate::proofs::Appended::starts_again))]
pub fn rekeyed(out: &mut Vec<u8>, name: &Name, spi: u16, epoch: u16) -> Result<(), AllocError>
    ensures ok { OnOk result (out.new.items ≡ out.old.items ++ report_line (Rekeyed name.now spi epoch)) }
    ensures kept { StartsWith out.new.items out.old.items }
{
    text(out, b"rekeyed")?;
    name_word(out, name)?;
    number16(out, spi)?;
    number16(out, epoch)
}

/// `wire DATAGRAM up NAME HEX`
#[tactic(auto, using(crate::proofs::Appended::starts_again))]
pub fn wire_up(
    out: &mut Vec<u8>,
    datagram: u32,
    name: &Name,
    octets: &Octets<'_>,
) -> Result<(), AllocError>
    ensures ok { OnOk result (out.new.items ≡ out.old.items ++ report_line (WireUp datagram name.now octets.now)) }
    ensures kept { StartsWith out.new.items out.old.items }
{
    text(out, b"wire")?;
    number32(out, datagram)?;
    word(out, b"up")?;
    name_word(out, name)?;
    hexadecimal(out, octets)
}

/// `wire DATAGRAM reseal NAME HEX`
#[tactic(auto, using(crate::proofs::Appended::starts_again))]
pub fn wire_reseal(
    out: &mut Vec<u8>,
    datagram: u32,
    name: &Name,
    octets: &Octets<'_>,
) -> Result<(), AllocError>
    ensures ok { OnOk result (out.new.items ≡ out.old.items ++ report_line (WireReseal datagram name.now octets.now)) }
    ensures kept { StartsWith out.new.items out.old.items }
{
    text(out, b"wire")?;
    number32(out, datagram)?;
    word(out, b"reseal")?;
    name_word(out, name)?;
    hexadecimal(out, octets)
}

/// `wire DATAGRAM down NAME HEX`
#[tactic(auto, using(crate::proofs::Appended::starts_again))]
pub fn wire_down(
    out: &mut Vec<u8>,
    datagram: u32,
    name: &Name,
    octets: &Octets<'_>,
) -> Result<(), AllocError>
    ensures ok { OnOk result (out.new.items ≡ out.old.items ++ report_line (WireDown datagram name.now octets.now)) }
    ensures kept { StartsWith out.new.items out.old.items }
{
    text(out, b"wire")?;
    number32(out, datagram)?;
    word(out, b"down")?;
    name_word(out, name)?;
    hexadecimal(out, octets)
}

/// `wire DATAGRAM made HEX`
#[tactic(auto, using(crate::proofs::Appended::starts_again))]
pub fn wire_made(out: &mut Vec<u8>, datagram: u32, octets: &Octets<'_>) -> Result<(), AllocError>
    ensures ok { OnOk result (out.new.items ≡ out.old.items ++ report_line (WireMade datagram octets.now)) }
    ensures kept { StartsWith out.new.items out.old.items }
{
    text(out, b"wire")?;
    number32(out, datagram)?;
    word(out, b"made")?;
    hexadecimal(out, octets)
}

/// `drop DATAGRAM NAME REASON`
#[tactic(auto, using(crate::proofs::Appended::starts_again))]
pub fn dropped(
    out: &mut Vec<u8>,
    datagram: u32,
    name: &Name,
    reason: Loss,
) -> Result<(), AllocError>
    ensures ok { OnOk result (out.new.items ≡ out.old.items ++ report_line (Dropped datagram name.now reason)) }
    ensures kept { StartsWith out.new.items out.old.items }
{
    text(out, b"drop")?;
    number32(out, datagram)?;
    name_word(out, name)?;
    loss(out, reason)
}

/// `refuse DATAGRAM media REASON`
#[tactic(auto, using(crate::proofs::Appended::starts_again))]
pub fn refuse_media(out: &mut Vec<u8>, datagram: u32, reason: Refusal) -> Result<(), AllocError>
    ensures ok { OnOk result (out.new.items ≡ out.old.items ++ report_line (RefuseMedia datagram reason)) }
    ensures kept { StartsWith out.new.items out.old.items }
{
    text(out, b"refuse")?;
    number32(out, datagram)?;
    word(out, b"media")?;
    refusal(out, reason)
}

/// `rtcp DATAGRAM NAME HEX`
#[tactic(auto, using(crate::proofs::Appended::starts_again))]
pub fn rtcp(
    out: &mut Vec<u8>,
    datagram: u32,
    name: &Name,
    octets: &Octets<'_>,
) -> Result<(), AllocError>
    ensures ok { OnOk result (out.new.items ≡ out.old.items ++ report_line (Rtcp datagram name.now octets.now)) }
    ensures kept { StartsWith out.new.items out.old.items }
{
    text(out, b"rtcp")?;
    number32(out, datagram)?;
    name_word(out, name)?;
    hexadecimal(out, octets)
}

/// `refuse DATAGRAM NAME REASON`
#[tactic(auto, using(crate::proofs::Appended::starts_again))]
pub fn refuse(
    out: &mut Vec<u8>,
    datagram: u32,
    name: &Name,
    reason: Refusal,
) -> Result<(), AllocError>
    ensures ok { OnOk result (out.new.items ≡ out.old.items ++ report_line (Refuse datagram name.now reason)) }
    ensures kept { StartsWith out.new.items out.old.items }
{
    text(out, b"refuse")?;
    number32(out, datagram)?;
    name_word(out, name)?;
    refusal(out, reason)
}

/// `accept DATAGRAM NAME SENDER SENT`
#[tactic(auto, using(crate::proofs::Appended::starts_again))]
pub fn accept(
    out: &mut Vec<u8>,
    datagram: u32,
    name: &Name,
    sender: &Name,
    sent: u32,
) -> Result<(), AllocError>
    ensures ok { OnOk result (out.new.items ≡ out.old.items ++ join_with_byte 32 (codes "accept" ∷ decimal datagram ∷ name.now ∷ sender.now ∷ decimal sent ∷ [])) }
    ensures kept { StartsWith out.new.items out.old.items }
{
    text(out, b"accept")?;
    number32(out, datagram)?;
    name_word(out, name)?;
    name_word(out, sender)?;
    number32(out, sent)
}

/// ` PT SEQ M TS PAYLOAD`
#[tactic(auto, using(crate::proofs::Appended::starts_again))]
pub fn packet(
    out: &mut Vec<u8>,
    pt: u8,
    seq: u16,
    marker: bool,
    timestamp: u32,
    payload: &Octets<'_>,
) -> Result<(), AllocError>
    ensures ok { OnOk result (out.new.items ≡ out.old.items ++ 32 ∷ join_with_byte 32 (decimal pt ∷ decimal seq ∷ marker_text marker ∷ decimal timestamp ∷ payload_text payload.now ∷ [])) }
    ensures kept { StartsWith out.new.items out.old.items }
{
    number8(out, pt)?;
    number16(out, seq)?;
    marker_word(out, marker)?;
    number32(out, timestamp)?;
    payload_word(out, payload)
}
