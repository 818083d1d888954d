// The forms of lines: what stands behind their first words.
ghost use Rattle.std.specs.Prelude.{◌≡◌, ◌+◌, codes, length, nat_le, unwrap_or};
ghost use Rattle.std.specs.Option.{option_map};
ghost use Rattle.perc_rtp.specs.Media.{longest_payload};
ghost use Rattle.perc_word.specs.Word.{next_in, option_in, datagrams_in, names_in};
ghost use Rattle.perc_word.specs.Left.{words_left, value_taken};
ghost use Rattle.perc_script_line.specs.Script as spec;
ghost use Rattle.perc_script_line.specs.View.{script_said};

use super::ScriptLine;
use super::changes::next_changes;
use super::keys::{next_datagram, next_key, next_pair, next_profile, next_rtcp, next_salt};
use super::options::next_options;
use perc_rtp::LONGEST_PAYLOAD;
use perc_word::{
    Datagrams, Name, Names, Octets, end, next_marker, next_octets, next_option, next_payload,
    next_payload_type, next_ssrc, next_u16, next_u32, next_word,
};

// How many datagrams a forward takes at most.
const MOST_DATAGRAMS: usize = 32;

// How many recipients a forward names at most.
const MOST_RECIPIENTS: usize = 64;

/// `PROFILE`
#[tactic(auto, unfolding(crate::specs::Script::conference_in))]
pub fn conference_in(words: Option<&[u8]>) -> Option<ScriptLine<'_>>
    ensures { option_map script_said result ≡ spec.conference_in (words_left words.entry) }
{
    let (profile, words) = next_profile(words)?;
    end(words)?;
    Some(ScriptLine::Conference { profile })
}

/// `KEY SALT`
#[tactic(auto, unfolding(crate::specs::Script::ekt_in))]
pub fn ekt_in(words: Option<&[u8]>) -> Option<ScriptLine<'_>>
    ensures { option_map script_said result ≡ spec.ekt_in (words_left words.entry) }
{
    let (key, words) = next_key(words)?;
    let (salt, words) = next_salt(words)?;
    end(words)?;
    Some(ScriptLine::Ekt { key, salt })
}

/// `NAME SSRC SEQ PAIR PAIR KEY`
#[tactic(auto, unfolding(crate::specs::Script::join_in))]
pub fn join_in(words: Option<&[u8]>) -> Option<ScriptLine<'_>>
    ensures { option_map script_said result ≡ spec.join_in (words_left words.entry) }
{
    let (name, words) = next_word(words)?;
    let name = Name::read(name)?;
    let (ssrc, words) = next_ssrc(words)?;
    let (seq, words) = next_u16(words)?;
    let (client, words) = next_pair(words)?;
    let (server, words) = next_pair(words)?;
    let (key, words) = next_key(words)?;
    end(words)?;
    Some(ScriptLine::Join {
        name,
        ssrc,
        seq,
        client,
        server,
        key,
    })
}

/// `NAME`
#[tactic(auto, unfolding(crate::specs::Script::leave_in))]
pub fn leave_in(words: Option<&[u8]>) -> Option<ScriptLine<'_>>
    ensures { option_map script_said result ≡ spec.leave_in (words_left words.entry) }
{
    let (name, words) = next_word(words)?;
    let name = Name::read(name)?;
    end(words)?;
    Some(ScriptLine::Leave { name })
}

/// `NAME SPI KEY`
#[tactic(auto, unfolding(crate::specs::Script::grant_in))]
pub fn grant_in(words: Option<&[u8]>) -> Option<ScriptLine<'_>>
    ensures { option_map script_said result ≡ spec.grant_in (words_left words.entry) }
{
    let (name, words) = next_word(words)?;
    let name = Name::read(name)?;
    let (spi, words) = next_u16(words)?;
    let (key, words) = next_key(words)?;
    end(words)?;
    Some(ScriptLine::Grant { name, spi, key })
}

/// `NAME KEY`
#[tactic(auto, unfolding(crate::specs::Script::rekey_in))]
pub fn rekey_in(words: Option<&[u8]>) -> Option<ScriptLine<'_>>
    ensures { option_map script_said result ≡ spec.rekey_in (words_left words.entry) }
{
    let (name, words) = next_word(words)?;
    let name = Name::read(name)?;
    let (key, words) = next_key(words)?;
    end(words)?;
    Some(ScriptLine::Rekey { name, key })
}

/// `NAME PT M TS PAYLOAD OPTIONS`
#[tactic(auto, unfolding(crate::specs::Script::send_in))]
pub fn send_in(words: Option<&[u8]>) -> Option<ScriptLine<'_>>
    ensures { option_map script_said result ≡ spec.send_in (words_left words.entry) }
{
    let (name, words) = next_word(words)?;
    let name = Name::read(name)?;
    let (pt, words) = next_payload_type(words)?;
    let (marker, words) = next_marker(words)?;
    let (timestamp, words) = next_u32(words)?;
    let (payload, words) = next_payload(words)?;
    let (options, words) = next_options(words)?;
    if !is_short(&payload, options.pad) {
        return None;
    }
    end(words)?;
    Some(ScriptLine::Send {
        name,
        pt,
        marker,
        timestamp,
        payload,
        options,
    })
}

// Whether payload and padding aren't too long together.
fn is_short(payload: &Octets<'_>, pad: Option<u8>) -> bool
    ensures { result ≡ nat_le (length payload.now + unwrap_or pad 0) longest_payload }
{
    let pad = usize::from(pad.unwrap_or(0));
    payload.len() <= LONGEST_PAYLOAD && payload.len() + pad <= LONGEST_PAYLOAD
}

/// `NAME HEX`
#[tactic(auto, unfolding(crate::specs::Script::rtcp_in))]
pub fn rtcp_in(words: Option<&[u8]>) -> Option<ScriptLine<'_>>
    ensures { option_map script_said result ≡ spec.rtcp_in (words_left words.entry) }
{
    let (name, words) = next_word(words)?;
    let name = Name::read(name)?;
    let (octets, words) = next_rtcp(words)?;
    end(words)?;
    Some(ScriptLine::Rtcp { name, octets })
}

/// `HEX`
#[tactic(auto, unfolding(crate::specs::Script::inject_in))]
pub fn inject_in(words: Option<&[u8]>) -> Option<ScriptLine<'_>>
    ensures { option_map script_said result ≡ spec.inject_in (words_left words.entry) }
{
    let (octets, words) = next_datagram(words)?;
    end(words)?;
    Some(ScriptLine::Inject { octets })
}

/// `DATAGRAM OFFSET HEX`
#[tactic(auto, unfolding(crate::specs::Script::alter_in))]
pub fn alter_in(words: Option<&[u8]>) -> Option<ScriptLine<'_>>
    ensures { option_map script_said result ≡ spec.alter_in (words_left words.entry) }
{
    let (datagram, words) = next_u32(words)?;
    let (offset, words) = next_u32(words)?;
    let (octets, words) = next_octets(words)?;
    end(words)?;
    Some(ScriptLine::Alter {
        datagram,
        offset,
        octets,
    })
}

/// `DATAGRAM A DATAGRAM B`
#[tactic(auto, unfolding(crate::specs::Script::graft_in))]
pub fn graft_in(words: Option<&[u8]>) -> Option<ScriptLine<'_>>
    ensures { option_map script_said result ≡ spec.graft_in (words_left words.entry) }
{
    let (first, words) = next_u32(words)?;
    let (front, words) = next_u32(words)?;
    let (second, words) = next_u32(words)?;
    let (back, words) = next_u32(words)?;
    end(words)?;
    Some(ScriptLine::Graft {
        first,
        front,
        second,
        back,
    })
}

/// `DATAGRAM NAME ROC CHANGES`
#[tactic(auto, unfolding(crate::specs::Script::reseal_in))]
pub fn reseal_in(words: Option<&[u8]>) -> Option<ScriptLine<'_>>
    ensures { option_map script_said result ≡ spec.reseal_in (words_left words.entry) }
{
    let (datagram, words) = next_u32(words)?;
    let (name, words) = next_word(words)?;
    let name = Name::read(name)?;
    let (roc, words) = next_u32(words)?;
    let (changes, words) = next_changes(words)?;
    end(words)?;
    Some(ScriptLine::Reseal {
        datagram,
        name,
        roc,
        changes,
    })
}

/// `NAME LIST CHANGES to=NAMES`
#[tactic(auto, unfolding(crate::specs::Script::forward_in))]
pub fn forward_in(words: Option<&[u8]>) -> Option<ScriptLine<'_>>
    ensures { option_map script_said result ≡ spec.forward_in (words_left words.entry) }
{
    let (name, words) = next_word(words)?;
    let name = Name::read(name)?;
    let (datagrams, words) = next_datagrams(words)?;
    let (changes, words) = next_changes(words)?;
    let (recipients, words) = next_recipients(words)?;
    end(words)?;
    Some(ScriptLine::Forward {
        name,
        datagrams,
        changes,
        recipients,
    })
}

/// `DATAGRAM NAME`
#[tactic(auto, unfolding(crate::specs::Script::deliver_in))]
pub fn deliver_in(words: Option<&[u8]>) -> Option<ScriptLine<'_>>
    ensures { option_map script_said result ≡ spec.deliver_in (words_left words.entry) }
{
    let (datagram, words) = next_u32(words)?;
    let (name, words) = next_word(words)?;
    let name = Name::read(name)?;
    end(words)?;
    Some(ScriptLine::Deliver { datagram, name })
}

// `NUMBER,NUMBER,..`
fn next_datagrams(words: Option<&[u8]>) -> Option<(Datagrams<'_>, Option<&[u8]>)>
    ensures { option_map value_taken result ≡ next_in (datagrams_in spec.most_datagrams) (words_left words.entry) }
{
    let (word, words) = next_word(words)?;
    Some((Datagrams::read(word, MOST_DATAGRAMS)?, words))
}

// `to=NAME,NAME,..`
fn next_recipients(words: Option<&[u8]>) -> Option<(Option<Names<'_>>, Option<&[u8]>)>
    ensures { option_map value_taken result ≡ option_in (codes "to=") (names_in spec.most_recipients) (words_left words.entry) }
{
    let (text, words) = next_option(words, b"to=");
    match text {
        Some(text) => Some((Some(Names::read(text, MOST_RECIPIENTS)?), words)),
        None => Some((None, words)),
    }
}
