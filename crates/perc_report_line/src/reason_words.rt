// The words of reasons, read.
ghost use Rattle.std.specs.Prelude.{◌≡◌};
ghost use Rattle.perc_word.specs.Left.{words_left};
ghost use Rattle.perc_report_line.specs.Reasons as spec;

use super::{Denial, Loss, Refusal};
use perc_word::{end, next_u16, next_word, number};

// The greatest index of a packet: 2^48 - 1.
const GREATEST_INDEX: u64 = 281474976710655;

// The refusals without a number.
const REFUSALS: [Refusal; 33] = [
    Refusal::NotMedia,
    Refusal::NoField,
    Refusal::EktType,
    Refusal::EktLength,
    Refusal::RtpShort,
    Refusal::RtpVersion,
    Refusal::RtpExtension,
    Refusal::OwnStream,
    Refusal::OuterShort,
    Refusal::OuterOld,
    Refusal::OuterRepeated,
    Refusal::StreamLimit,
    Refusal::OuterTag,
    Refusal::OhbEmpty,
    Refusal::OhbReserved,
    Refusal::OhbMarker,
    Refusal::OhbShort,
    Refusal::OhbPt,
    Refusal::InnerShort,
    Refusal::Unwrap,
    Refusal::EktPlain,
    Refusal::KeyLimit,
    Refusal::NoContext,
    Refusal::InnerOld,
    Refusal::InnerRepeated,
    Refusal::InnerTag,
    Refusal::Padding,
    Refusal::RtcpShort,
    Refusal::RtcpVersion,
    Refusal::RtcpClear,
    Refusal::RtcpOld,
    Refusal::RtcpRepeated,
    Refusal::RtcpTag,
];

// The denials without a number.
const DENIALS: [Denial; 2] = [Denial::KeyRepeated, Denial::KeyLimit];

// The losses without a number.
const LOSSES: [Loss; 3] = [Loss::StreamLimit, Loss::Room, Loss::RtcpSpent];

/// Why a datagram was refused, by the words that are left of a line.
#[tactic(auto, unfolding(crate::specs::Reasons::refusal_in))]
pub fn refusal_in(words: Option<&[u8]>) -> Option<Refusal>
    ensures { result ≡ spec.refusal_in (words_left words.entry) }
{
    let (word, words) = next_word(words)?;
    if word == b"spi-unknown".as_slice() {
        let (spi, words) = next_u16(words)?;
        end(words)?;
        return Some(Refusal::SpiUnknown(spi));
    }
    let refusal = plain_refusal(word)?;
    end(words)?;
    Some(refusal)
}

#[tactic(auto, unfolding(crate::specs::Reasons::plain_refusal_in))]
fn plain_refusal(word: &[u8]) -> Option<Refusal>
    ensures { result ≡ spec.plain_refusal_in word.now }
{
    REFUSALS
        .iter()
        .copied()
        .find(|refusal| refusal.text() == word)
}

/// Why a key was denied, by the words that are left of a line.
#[tactic(auto, unfolding(crate::specs::Reasons::denial_in))]
pub fn denial_in(words: Option<&[u8]>) -> Option<Denial>
    ensures { result ≡ spec.denial_in (words_left words.entry) }
{
    let (word, words) = next_word(words)?;
    if word == b"spi-old".as_slice() {
        let (latest, words) = next_u16(words)?;
        end(words)?;
        return Some(Denial::SpiOld(latest));
    }
    let denial = plain_denial(word)?;
    end(words)?;
    Some(denial)
}

#[tactic(auto, unfolding(crate::specs::Reasons::plain_denial_in))]
fn plain_denial(word: &[u8]) -> Option<Denial>
    ensures { result ≡ spec.plain_denial_in word.now }
{
    DENIALS.iter().copied().find(|denial| denial.text() == word)
}

/// Why an output was dropped, by the words that are left of a line.
#[tactic(auto, unfolding(crate::specs::Reasons::loss_in))]
pub fn loss_in(words: Option<&[u8]>) -> Option<Loss>
    ensures { result ≡ spec.loss_in (words_left words.entry) }
{
    let (word, words) = next_word(words)?;
    if word == b"no-index".as_slice() {
        let (seq, words) = next_u16(words)?;
        end(words)?;
        return Some(Loss::NoIndex(seq));
    }
    if word == b"nonce-used".as_slice() {
        let (index, words) = next_word(words)?;
        let index = number(index, GREATEST_INDEX)?;
        end(words)?;
        return Some(Loss::NonceUsed(index));
    }
    let loss = plain_loss(word)?;
    end(words)?;
    Some(loss)
}

#[tactic(auto, unfolding(crate::specs::Reasons::plain_loss_in))]
fn plain_loss(word: &[u8]) -> Option<Loss>
    ensures { result ≡ spec.plain_loss_in word.now }
{
    LOSSES.iter().copied().find(|loss| loss.text() == word)
}
