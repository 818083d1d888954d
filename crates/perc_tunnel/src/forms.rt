// The forms of messages, and what octets are: a whole message, a part of one, or neither.
ghost use Rattle.std.specs.Prelude.{◌≡◌, ◌+◌, ◌*◌, ◌<◌, ◌↔◌, [], length, slice_index, IsTrue};
ghost use Rattle.perc_tunnel.specs.Stream.{IsKind};
ghost use Rattle.perc_tunnel.specs.Forms.{fixed_in_body, form_at, number_at, HasLength, HoldEach, Holds, IsShortKind, IsStanding};

use crate::TunnelReason;
use byteorder::{BigEndian, ByteOrder};
use perc_base::Profile;

/// The form of a message, which its type and its length tell.
#[derive(Clone, Copy)]
pub enum Form {
    /// Type 1, a list of profiles.
    Profiles,
    /// Type 2, a version.
    Version,
    /// Type 3, keys of the length that the profile has.
    Keys(Profile),
    /// Type 4, a record.
    Record,
    /// Type 5, an association alone.
    Ended,
}

/// What octets are.
#[derive(Clone, Copy)]
pub enum Standing {
    /// They begin with a message of this form and of this many octets.
    Whole(Form, usize),
    /// They are a part of a message.
    Part,
    /// They are neither.
    Fault(TunnelReason),
}

/// What octets are, by the octets that are fixed in a message and the length. No other octet is read.
pub(crate) fn judge(octets: &[u8]) -> Standing
    ensures { IsStanding octets.now result }
{
    if octets.is_empty() {
        return Standing::Part;
    }
    if !is_kind(octets[0]) {
        return Standing::Fault(TunnelReason::Kind);
    }
    if octets.len() < 3 {
        return judge_short(octets);
    }
    let len = BigEndian::read_u16(&octets[1..]);
    let Some(form) = form_of(octets[0], len) else {
        return Standing::Fault(TunnelReason::Length);
    };
    if !has_fixed(form, len, octets) {
        return Standing::Fault(TunnelReason::Body);
    }
    let end = 3 + usize::from(len);
    if octets.len() < end {
        Standing::Part
    } else {
        Standing::Whole(form, end)
    }
}

// Whether it is the type of a message.
fn is_kind(octet: u8) -> bool
    ensures { IsTrue result ↔ IsKind octet }
{
    matches!(octet, 1..=5)
}

// What a type is, with at most one octet of its length.
fn judge_short(octets: &[u8]) -> Standing
    requires some { 0 < length octets.now }
    requires short { length octets.now < 3 }
    requires kind { IsKind (slice_index octets.now 0) }
    ensures { IsStanding octets.now result }
{
    if octets.len() == 2 && octets[1] != 0 && is_short(octets[0]) {
        Standing::Fault(TunnelReason::Length)
    } else {
        Standing::Part
    }
}

// Whether all messages of this type have less than 256 octets.
fn is_short(kind: u8) -> bool
    ensures { IsTrue result ↔ IsShortKind kind }
{
    matches!(kind, 2 | 3 | 5)
}

// The form of the messages of this type whose body has this length.
fn form_of(kind: u8, len: u16) -> Option<Form>
    ensures { result ≡ form_at kind len }
{
    match kind {
        1 if len % 2 == 1 && len >= 5 => Some(Form::Profiles),
        2 if len == 1 => Some(Form::Version),
        3 if len == 79 => Some(Form::Keys(Profile::Aes128)),
        3 if len == 111 => Some(Form::Keys(Profile::Aes256)),
        4 if len >= 19 => Some(Form::Record),
        5 if len == 16 => Some(Form::Ended),
        _ => None,
    }
}

// Whether each octet of a body of this form and length that is fixed and held is right.
fn has_fixed(form: Form, len: u16, octets: &[u8]) -> bool
    requires { HasLength form len }
    ensures { IsTrue result ↔ HoldEach (fixed_in_body form len) octets.now }
{
    match form {
        Form::Profiles => holds_number(octets, 4, len - 3),
        Form::Keys(profile) => has_fixed_in_keys(profile, octets),
        Form::Record => holds_number(octets, 19, len - 18),
        Form::Version | Form::Ended => true,
    }
}

// The same for keys: the profile, no MKI, and the lengths of keys and salts.
fn has_fixed_in_keys(profile: Profile, octets: &[u8]) -> bool
    ensures { IsTrue result ↔ HoldEach (fixed_in_body (Form.Keys profile) 0) octets.now }
{
    let key_len = profile.key_len();
    let octet = key_len as u8;
    holds_number(octets, 19, profile.number())
        && holds(octets, 21, 0)
        && holds(octets, 22, octet)
        && holds(octets, 23 + key_len, octet)
        && holds(octets, 24 + 2 * key_len, 12)
        && holds(octets, 37 + 2 * key_len, 12)
}

// Whether the number stands at the offset, as far as its octets are held.
fn holds_number(octets: &[u8], offset: usize, number: u16) -> bool
    requires { offset < 100 }
    ensures { IsTrue result ↔ HoldEach (number_at offset number []) octets.now }
{
    holds(octets, offset, (number / 256) as u8) && holds(octets, offset + 1, (number % 256) as u8)
}

// Whether the octet stands at the offset, if that is held.
fn holds(octets: &[u8], offset: usize, octet: u8) -> bool
    ensures { IsTrue result ↔ Holds octets.now offset octet }
{
    offset >= octets.len() || octets[offset] == octet
}
