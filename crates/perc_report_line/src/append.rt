// Words that are appended to a line.
ghost use Rattle.std.specs.Prelude.{◌≡◌, ◌∷◌, ◌++◌, OnOk};
ghost use Rattle.std.specs.Fmt.{decimal};
ghost use Rattle.std.specs.List.{join_with_byte};
ghost use Rattle.hex.specs.Hex.{encode_lower};
ghost use Rattle.uuid.specs.Text.{hyphenated_text, lower};
ghost use Rattle.perc_word.specs.Word.{marker_text, payload_text};
ghost use Rattle.perc_report_line.specs.Growth.{StartsWith};
ghost use Rattle.perc_report_line.specs.Reasons.{number_words, refusal_words, denial_words, loss_words};

use super::{Denial, Loss, Refusal};
use itoa::Buffer;
use perc_word::{Name, Octets};
use std::alloc::AllocError;
use uuid::Uuid;

/// Appends octets.
#[tactic(auto, using(crate::proofs::Appended::starts_same, crate::proofs::Appended::starts_with))]
pub fn text(out: &mut Vec<u8>, octets: &[u8]) -> Result<(), AllocError>
    ensures ok { OnOk result (out.new.items ≡ out.old.items ++ octets.now) }
    ensures kept { StartsWith out.new.items out.old.items }
{
    out.extend_from_slice(octets)
}

/// Appends a space and a word.
#[tactic(auto, using(crate::proofs::Appended::starts_same, crate::proofs::Appended::starts_with, crate::proofs::Appended::starts_again))]
pub fn word(out: &mut Vec<u8>, word: &[u8]) -> Result<(), AllocError>
    ensures ok { OnOk result (out.new.items ≡ out.old.items ++ 32 ∷ word.now) }
    ensures kept { StartsWith out.new.items out.old.items }
{
    text(out, b" ")?;
    text(out, word)
}

/// Appends a space and a name.
pub fn name_word(out: &mut Vec<u8>, name: &Name) -> Result<(), AllocError>
    ensures ok { OnOk result (out.new.items ≡ out.old.items ++ 32 ∷ name.now) }
    ensures kept { StartsWith out.new.items out.old.items }
{
    word(out, name.as_bytes())
}

/// Appends a space and a number in decimal.
pub fn number(out: &mut Vec<u8>, number: u64) -> Result<(), AllocError>
    ensures ok { OnOk result (out.new.items ≡ out.old.items ++ 32 ∷ decimal number) }
    ensures kept { StartsWith out.new.items out.old.items }
{
    let mut buffer = Buffer::new();
    word(out, buffer.format(number).as_bytes())
}

/// Appends a space and a number of four octets in decimal.
pub fn number32(out: &mut Vec<u8>, value: u32) -> Result<(), AllocError>
    ensures ok { OnOk result (out.new.items ≡ out.old.items ++ 32 ∷ decimal value) }
    ensures kept { StartsWith out.new.items out.old.items }
{
    number(out, u64::from(value))
}

/// Appends a space and a number of two octets in decimal.
pub fn number16(out: &mut Vec<u8>, value: u16) -> Result<(), AllocError>
    ensures ok { OnOk result (out.new.items ≡ out.old.items ++ 32 ∷ decimal value) }
    ensures kept { StartsWith out.new.items out.old.items }
{
    number(out, u64::from(value))
}

/// Appends a space and a number of one octet in decimal.
pub fn number8(out: &mut Vec<u8>, value: u8) -> Result<(), AllocError>
    ensures ok { OnOk result (out.new.items ≡ out.old.items ++ 32 ∷ decimal value) }
    ensures kept { StartsWith out.new.items out.old.items }
{
    number(out, u64::from(value))
}

/// Appends a space and a marker: `1` where it is set, else `0`.
pub fn marker_word(out: &mut Vec<u8>, marker: bool) -> Result<(), AllocError>
    ensures ok { OnOk result (out.new.items ≡ out.old.items ++ 32 ∷ marker_text marker) }
    ensures kept { StartsWith out.new.items out.old.items }
{
    word(out, if marker { b"1" } else { b"0" })
}

/// Appends a space and octets in lower-case hexadecimal.
#[tactic(auto, using(crate::proofs::Appended::starts_same, crate::proofs::Appended::starts_with, crate::proofs::Appended::starts_again))]
pub fn hexadecimal(out: &mut Vec<u8>, octets: &Octets<'_>) -> Result<(), AllocError>
    ensures ok { OnOk result (out.new.items ≡ out.old.items ++ 32 ∷ encode_lower octets.now) }
    ensures kept { StartsWith out.new.items out.old.items }
{
    text(out, b" ")?;
    digits(out, octets)
}

// Appends octets in lower-case hexadecimal.
#[tactic(auto, using(crate::proofs::Appended::starts_same, crate::proofs::Appended::starts_with))]
fn digits(out: &mut Vec<u8>, octets: &Octets<'_>) -> Result<(), AllocError>
    ensures ok { OnOk result (out.new.items ≡ out.old.items ++ encode_lower octets.now) }
    ensures kept { StartsWith out.new.items out.old.items }
{
    octets.spell(out)
}

/// Appends a space and a payload, and `-` in the place of an empty one.
pub fn payload_word(out: &mut Vec<u8>, octets: &Octets<'_>) -> Result<(), AllocError>
    ensures ok { OnOk result (out.new.items ≡ out.old.items ++ 32 ∷ payload_text octets.now) }
    ensures kept { StartsWith out.new.items out.old.items }
{
    if octets.len() == 0 {
        word(out, b"-")
    } else {
        hexadecimal(out, octets)
    }
}

/// Appends a space and the 16 octets of a UUID, hyphenated and in lower case.
pub fn uuid(out: &mut Vec<u8>, octets: [u8; 16]) -> Result<(), AllocError>
    ensures ok { OnOk result (out.new.items ≡ out.old.items ++ 32 ∷ hyphenated_text lower octets) }
    ensures kept { StartsWith out.new.items out.old.items }
{
    let mut buffer = Uuid::encode_buffer();
    let digits = Uuid::from_bytes(octets)
        .hyphenated()
        .encode_lower(&mut buffer);
    word(out, digits.as_bytes())
}

// Appends a space and the word of a reason, and its number where it has one.
#[tactic(auto, using(crate::proofs::Appended::starts_again))]
fn reason(out: &mut Vec<u8>, text: &[u8], behind: Option<u64>) -> Result<(), AllocError>
    ensures ok { OnOk result (out.new.items ≡ out.old.items ++ 32 ∷ join_with_byte 32 (text.now ∷ number_words behind)) }
    ensures kept { StartsWith out.new.items out.old.items }
{
    word(out, text)?;
    match behind {
        Some(behind) => number(out, behind),
        None => Ok(()),
    }
}

/// Appends a space and why a datagram was refused.
pub fn refusal(out: &mut Vec<u8>, refusal: Refusal) -> Result<(), AllocError>
    ensures ok { OnOk result (out.new.items ≡ out.old.items ++ 32 ∷ join_with_byte 32 (refusal_words refusal)) }
    ensures kept { StartsWith out.new.items out.old.items }
{
    reason(out, refusal.text(), refusal.number())
}

/// Appends a space and why a key was denied.
pub fn denial(out: &mut Vec<u8>, denial: Denial) -> Result<(), AllocError>
    ensures ok { OnOk result (out.new.items ≡ out.old.items ++ 32 ∷ join_with_byte 32 (denial_words denial)) }
    ensures kept { StartsWith out.new.items out.old.items }
{
    reason(out, denial.text(), denial.number())
}

/// Appends a space and why an output was dropped.
pub fn loss(out: &mut Vec<u8>, loss: Loss) -> Result<(), AllocError>
    ensures ok { OnOk result (out.new.items ≡ out.old.items ++ 32 ∷ join_with_byte 32 (loss_words loss)) }
    ensures kept { StartsWith out.new.items out.old.items }
{
    reason(out, loss.text(), loss.number())
}
