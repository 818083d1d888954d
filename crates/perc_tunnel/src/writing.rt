// Messages written.
ghost use Rattle.std.specs.Prelude.{◌≡◌, ◌+◌, ◌*◌, ◌^◌, ◌<◌, ◌≤◌, ◌++◌, ◌∷◌, ◌↔◌, length, drop, SomeIff, IfSome, IfNone, OnSome, IsTrue};
ghost use Rattle.byteorder.specs.Endian.{big_bytes};
ghost use Rattle.perc_base.specs.Profile.{key_length};
ghost use Rattle.perc_octets.specs.Octets.{AreOctets};
ghost use Rattle.perc_tunnel.specs.Message.{body, body_length, counted, Fits, HasLengths, IsAssociation, IsHalf, IsMessage, IsSpelled, message_length, spelling, type_of};
ghost use Rattle.perc_tunnel.specs.Message as spec;
ghost use Rattle.perc_tunnel.specs.Told.{content_of, keys_message, numbers_of};

use super::Message;
use crate::{MediaKeys, ProfileList};
use byteorder::{BigEndian, ByteOrder};
use perc_base::Profile;
use perc_kdf::Master;

/// Writes a message to the front of `out`, and answers its length: 3 octets and its body's. What stands behind it in `out`
/// stays. None exactly where `out` is too short, or the message has no spelling: a list of no profile or of more than 32766, a
/// key that hasn't the profile's length, a record of no octet or of more than 65517. Then `out` is as it was.
pub fn write(message: &Message<'_>, out: &mut [u8]) -> Option<usize>
    ensures length { SomeIff result (Fits (content_of message.now) (length out.old)) (message_length (content_of message.now)) }
    ensures message { OnSome result (IsSpelled (content_of message.now)) }
    ensures value { IfSome result (λ n. out.new ≡ spelling (content_of message.now) ++ drop n out.old) }
    ensures none { IfNone result (out.new ≡ out.old) }
{
    let len = body_len(message)?;
    if out.len() < 3 + len {
        return None;
    }
    write_head(message, len, out);
    write_body(message, &mut out[3..]);
    Some(3 + len)
}

// How many octets the body has, where the message has a spelling.
fn body_len(message: &Message<'_>) -> Option<usize>
    ensures length { SomeIff result (HasLengths (content_of message.now)) (body_length (content_of message.now)) }
    ensures message { OnSome result (IsMessage (content_of message.now)) }
{
    match message {
        Message::SupportedProfiles { version, profiles } => profiles_len(*version, profiles),
        Message::UnsupportedVersion { highest } => version_len(*highest),
        Message::MediaKeys(keys) => keys_len(keys),
        Message::TunneledDtls {
            association,
            octets,
        } => record_len(association, octets),
        Message::EndpointDisconnect { association } => ended_len(association),
    }
}

fn profiles_len(version: u8, profiles: &ProfileList<'_>) -> Option<usize>
    ensures length { SomeIff result (HasLengths (spec.SupportedProfiles version (numbers_of profiles.now))) (3 + 2 * length (numbers_of profiles.now)) }
    ensures message { OnSome result (IsMessage (spec.SupportedProfiles version (numbers_of profiles.now))) }
{
    let octets = profiles.octets();
    if matches!(octets.len(), 1..=65532) {
        Some(3 + octets.len())
    } else {
        None
    }
}

fn version_len(highest: u8) -> Option<usize>
    ensures length { SomeIff result (HasLengths (spec.UnsupportedVersion highest)) 1 }
    ensures message { OnSome result (IsMessage (spec.UnsupportedVersion highest)) }
{
    Some(1)
}

fn keys_len(keys: &MediaKeys) -> Option<usize>
    ensures length { SomeIff result (HasLengths (keys_message keys.now)) (47 + 2 * key_length keys.now.profile) }
    ensures message { OnSome result (IsMessage (keys_message keys.now)) }
{
    let association = association_len(&keys.association);
    if is_half(keys.profile, &keys.client) && is_half(keys.profile, &keys.server) {
        Some(association + 31 + 2 * keys.profile.key_len())
    } else {
        None
    }
}

fn record_len(association: &[u8], octets: &[u8]) -> Option<usize>
    requires { length association.now ≡ 16 }
    ensures length { SomeIff result (HasLengths (spec.TunneledDtls association.now octets.now)) (18 + length octets.now) }
    ensures message { OnSome result (IsMessage (spec.TunneledDtls association.now octets.now)) }
{
    if matches!(octets.len(), 1..=65517) {
        Some(association_len(association) + 2 + octets.len())
    } else {
        None
    }
}

fn ended_len(association: &[u8]) -> Option<usize>
    requires { length association.now ≡ 16 }
    ensures length { SomeIff result (HasLengths (spec.EndpointDisconnect association.now)) 16 }
    ensures message { OnSome result (IsMessage (spec.EndpointDisconnect association.now)) }
{
    Some(association_len(association))
}

// How many octets the name of an association has.
fn association_len(association: &[u8]) -> usize
    requires { length association.now ≡ 16 }
    ensures is { IsAssociation association.now }
    ensures length { result ≡ 16 }
{
    association.len()
}

// Whether the key has the profile's length.
fn is_half(profile: Profile, half: &Master) -> bool
    ensures length { IsTrue result ↔ (length half.now.key ≡ key_length profile) }
    ensures is { IsTrue result → IsHalf profile half.now }
{
    has_len(half.key(), profile.key_len()) && has_len(half.salt(), 12)
}

// Whether there are as many octets.
fn has_len(octets: &[u8], len: usize) -> bool
    ensures octets { AreOctets octets.now }
    ensures length { IsTrue result ↔ (length octets.now ≡ len) }
{
    octets.len() == len
}

// Writes the type of a message, and the length of its body.
fn write_head(message: &Message<'_>, len: usize, out: &mut [u8])
    requires len { len < 2 ^ 16 }
    requires room { 3 ≤ length out.old }
    ensures { out.new ≡ (type_of (content_of message.now) ∷ big_bytes 2 len) ++ drop 3 out.old }
{
    out[0] = match message {
        Message::SupportedProfiles { .. } => 1,
        Message::UnsupportedVersion { .. } => 2,
        Message::MediaKeys(_) => 3,
        Message::TunneledDtls { .. } => 4,
        Message::EndpointDisconnect { .. } => 5,
    };
    BigEndian::write_u16(&mut out[1..], len as u16);
}

// Writes the body of a message.
fn write_body(message: &Message<'_>, out: &mut [u8])
    requires message { IsMessage (content_of message.now) }
    requires room { body_length (content_of message.now) ≤ length out.old }
    ensures { out.new ≡ body (content_of message.now) ++ drop (body_length (content_of message.now)) out.old }
{
    match message {
        Message::SupportedProfiles { version, profiles } => write_profiles(*version, profiles, out),
        Message::UnsupportedVersion { highest } => out[0] = *highest,
        Message::MediaKeys(keys) => write_keys(keys, out),
        Message::TunneledDtls {
            association,
            octets,
        } => write_record(association, octets, out),
        Message::EndpointDisconnect { association } => write_octets(association, out),
    }
}

fn write_profiles(version: u8, profiles: &ProfileList<'_>, out: &mut [u8])
    requires short { length (numbers_of profiles.now) < 2 ^ 15 }
    requires room { 3 + 2 * length (numbers_of profiles.now) ≤ length out.old }
    ensures { out.new ≡ body (spec.SupportedProfiles version (numbers_of profiles.now)) ++ drop (3 + 2 * length (numbers_of profiles.now)) out.old }
{
    let octets = profiles.octets();
    out[0] = version;
    BigEndian::write_u16(&mut out[1..], octets.len() as u16);
    write_octets(octets, &mut out[3..]);
}

fn write_record(association: &[u8], octets: &[u8], out: &mut [u8])
    requires association { length association.now ≡ 16 }
    requires short { length octets.now < 2 ^ 16 }
    requires room { 18 + length octets.now ≤ length out.old }
    ensures { out.new ≡ body (spec.TunneledDtls association.now octets.now) ++ drop (18 + length octets.now) out.old }
{
    write_named(association, octets.len() as u16, out);
    write_octets(octets, &mut out[18..]);
}

fn write_keys(keys: &MediaKeys, out: &mut [u8])
    requires message { IsMessage (keys_message keys.now) }
    requires room { 47 + 2 * key_length keys.now.profile ≤ length out.old }
    ensures { out.new ≡ body (keys_message keys.now) ++ drop (47 + 2 * key_length keys.now.profile) out.old }
{
    let key_len = keys.profile.key_len();
    write_named(&keys.association, keys.profile.number(), out);
    out[18] = 0;
    write_counted(keys.client.key(), &mut out[19..]);
    write_counted(keys.server.key(), &mut out[20 + key_len..]);
    write_counted(keys.client.salt(), &mut out[21 + 2 * key_len..]);
    write_counted(keys.server.salt(), &mut out[34 + 2 * key_len..]);
}

// Writes the name of an association, and a number.
fn write_named(association: &[u8], number: u16, out: &mut [u8])
    requires association { length association.now ≡ 16 }
    requires room { 18 ≤ length out.old }
    ensures { out.new ≡ (association.now ++ big_bytes 2 number) ++ drop 18 out.old }
{
    write_octets(association, out);
    BigEndian::write_u16(&mut out[16..], number);
}

// Writes octets behind their count.
fn write_counted(octets: &[u8], out: &mut [u8])
    requires count { length octets.now < 256 }
    requires room { 1 + length octets.now ≤ length out.old }
    ensures { out.new ≡ counted octets.now ++ drop (1 + length octets.now) out.old }
{
    out[0] = octets.len() as u8;
    write_octets(octets, &mut out[1..]);
}

// Writes octets as they are.
fn write_octets(octets: &[u8], out: &mut [u8])
    requires { length octets.now ≤ length out.old }
    ensures { out.new ≡ octets.now ++ drop (length octets.now) out.old }
{
    out[..octets.len()].copy_from_slice(octets);
}
