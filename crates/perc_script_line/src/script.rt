// The lines of conference scripts.
ghost use Rattle.std.specs.Prelude.{◌≡◌};
ghost use Rattle.std.specs.List.{list_all};
ghost use Rattle.std.specs.Option.{option_map};
ghost use Rattle.perc_word.specs.Left.{words_left};
ghost use Rattle.perc_script_line.specs.Script as spec;
ghost use Rattle.perc_script_line.specs.Script.{script_of};
ghost use Rattle.perc_script_line.specs.View.{script_said};

use super::forms::{
    alter_in, conference_in, deliver_in, ekt_in, forward_in, graft_in, grant_in, inject_in,
    join_in, leave_in, rekey_in, reseal_in, rtcp_in, send_in,
};
use super::verb::{Verb, verb_in};
use super::{Changes, Options};
use perc_base::Profile;
use perc_word::{Datagrams, Name, Names, Octets, next_word};

// How many octets a salt has.
const SALT: usize = 12;

/// A line of a conference script.
#[derive(Drop)]
pub enum ScriptLine<'a> {
    /// It means nothing: it is empty, or begins with `#`.
    Nothing,
    /// `conference PROFILE`: the head of a script.
    Conference {
        profile: Profile,
    },
    /// `ekt KEY SALT`: a key of 16 or 32 octets and a salt of 12.
    Ekt {
        key: Octets<'a>,
        salt: Octets<'a>,
    },
    /// `join NAME SSRC SEQ PAIR PAIR KEY`: the sequence number is that of the first packet; a pair is a key and its
    /// salt.
    Join {
        name: Name,
        ssrc: u32,
        seq: u16,
        client: Octets<'a>,
        server: Octets<'a>,
        key: Octets<'a>,
    },
    /// `leave NAME`
    Leave {
        name: Name,
    },
    /// `grant NAME SPI KEY`
    Grant {
        name: Name,
        spi: u16,
        key: Octets<'a>,
    },
    /// `rekey NAME KEY`
    Rekey {
        name: Name,
        key: Octets<'a>,
    },
    /// `send NAME PT M TS PAYLOAD` and options: payload and padding have at most 1200 octets together.
    Send {
        name: Name,
        pt: u8,
        marker: bool,
        timestamp: u32,
        payload: Octets<'a>,
        options: Options<'a>,
    },
    /// `rtcp NAME HEX`: 8 to 1200 octets, of version 2 and with a type of 192 to 223.
    Rtcp {
        name: Name,
        octets: Octets<'a>,
    },
    /// `inject HEX`: 1 to 1500 octets.
    Inject {
        octets: Octets<'a>,
    },
    /// `alter DATAGRAM OFFSET HEX`
    Alter {
        datagram: u32,
        offset: u32,
        octets: Octets<'a>,
    },
    /// `graft DATAGRAM A DATAGRAM B`: the first A octets of the one, and the last B of the other.
    Graft {
        first: u32,
        front: u32,
        second: u32,
        back: u32,
    },
    /// `reseal DATAGRAM NAME ROC` and changes.
    Reseal {
        datagram: u32,
        name: Name,
        roc: u32,
        changes: Changes<'a>,
    },
    /// `forward NAME LIST` and changes, then `to=NAMES`: 1 to 32 datagrams, and 1 to 64 recipients where they are named.
    Forward {
        name: Name,
        datagrams: Datagrams<'a>,
        changes: Changes<'a>,
        recipients: Option<Names<'a>>,
    },
    /// `deliver DATAGRAM NAME`
    Deliver {
        datagram: u32,
        name: Name,
    },
}

impl<'a> ScriptLine<'a> {
    /// What the line says, without its line feed. None exactly where it is none of these lines. Each key is of either
    /// profile's length by itself. It takes no memory.
    #[tactic(auto, unfolding(crate::specs::Script::script_of))]
    pub fn read(line: &'a [u8]) -> Option<ScriptLine<'a>>
        ensures { option_map script_said result ≡ script_of line.now }
    {
        if means_nothing(line) {
            return Some(ScriptLine::Nothing);
        }
        let (verb, words) = next_word(Some(line))?;
        said_by(verb_in(verb)?, words)
    }

    /// Whether each key of the line has the profile's length. So it is where the line has no key.
    pub fn fits(&self, profile: Profile) -> bool
        ensures { result ≡ spec.fits profile (script_said self.now) }
    {
        match self {
            ScriptLine::Ekt { key, .. } => key_fits(profile, key),
            ScriptLine::Join {
                client,
                server,
                key,
                ..
            } => pair_fits(profile, client) && pair_fits(profile, server) && key_fits(profile, key),
            ScriptLine::Grant { key, .. } => key_fits(profile, key),
            ScriptLine::Rekey { key, .. } => key_fits(profile, key),
            _ => true,
        }
    }
}

// Whether a line is empty, or a comment.
fn means_nothing(line: &[u8]) -> bool
    ensures { result ≡ spec.means_nothing line.now }
{
    match line {
        [] => true,
        [first, others @ ..] => *first == b'#' && are_printable(others),
    }
}

// Whether all octets are printable ASCII.
fn are_printable(octets: &[u8]) -> bool
    ensures { result ≡ list_all spec.is_printable octets.now }
{
    octets.iter().all(|octet| matches!(octet, b' '..=b'~'))
}

// What the words behind a verb say.
fn said_by(verb: Verb, words: Option<&[u8]>) -> Option<ScriptLine<'_>>
    ensures { option_map script_said result ≡ spec.said_by verb (words_left words.entry) }
{
    match verb {
        Verb::Conference => conference_in(words),
        Verb::Ekt => ekt_in(words),
        Verb::Join => join_in(words),
        Verb::Leave => leave_in(words),
        Verb::Grant => grant_in(words),
        Verb::Rekey => rekey_in(words),
        Verb::Send => send_in(words),
        Verb::Rtcp => rtcp_in(words),
        Verb::Inject => inject_in(words),
        Verb::Alter => alter_in(words),
        Verb::Graft => graft_in(words),
        Verb::Reseal => reseal_in(words),
        Verb::Forward => forward_in(words),
        Verb::Deliver => deliver_in(words),
    }
}

// Whether a key has the profile's length.
fn key_fits(profile: Profile, key: &Octets<'_>) -> bool
    ensures { result ≡ spec.key_fits profile key.now }
{
    key.len() == profile.key_len()
}

// Whether a key and its salt have the profile's length.
fn pair_fits(profile: Profile, pair: &Octets<'_>) -> bool
    ensures { result ≡ spec.pair_fits profile pair.now }
{
    pair.len() == profile.key_len() + SALT
}
