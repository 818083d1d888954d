// The replies to a hello, read again.
ghost use Rattle.std.specs.Option.{option_map};
ghost use Rattle.std.specs.Prelude.{◌≡◌, ◌++◌, ℕ, List, None, Some, IfOk, length};
ghost use Rattle.perc_ekt.specs.declared.record.EktKeyRecord.{EktKeyRecord as Granted};
ghost use Rattle.perc_kdf.specs.Derivation.{KeyAndSalt};
ghost use Rattle.perc_tunnel.specs.Decoding.{fed, fresh};
ghost use Rattle.perc_tunnel.specs.Message.{TunnelMessage};
ghost use Rattle.perc_tunnel.specs.Told.{content_of};
ghost use Rattle.perc_tunnel.specs.declared.message.MediaKeys.{MediaKeys as Keys};
ghost use Rattle.perc_keydist.specs.ClearRecord.{Welcome};
ghost use Rattle.perc_keydist.specs.Told as told;
ghost use Rattle.perc_key_service.specs.Replies.{AreReplies, Holds, keys_told, record_told};

use crate::service::Joined;
use perc_base::{Memory, Profile};
use perc_keydist::ClearRecord;
use perc_tunnel::{Decoder, MediaKeys, Message};
use std::alloc::Global;

// Reads the replies to a hello: the member's outer keys, and behind them its welcome.
pub fn read_replies(alloc: Global, octets: &[u8], profile: Profile) -> Result<Joined, Memory>
    requires { (keys : Keys) × (granted : Granted) × AreReplies profile keys granted octets.now }
    ensures { (keys : Keys) (granted : Granted) → AreReplies profile keys granted octets.now
        → IfOk result (λ joined. joined ≡ record { keys = keys; client = keys.client; server = keys.server; granted = granted }) }
{
    let mut decoder = decoder_of(alloc, octets)?;
    let keys = next_keys(&mut decoder).unwrap();
    let welcome = next_record(&mut decoder, profile).unwrap();
    Ok(joined_by(&keys, &welcome))
}

// A decoder that holds these octets.
fn decoder_of(alloc: Global, octets: &[u8]) -> Result<Decoder, Memory>
    ensures { IfOk result (λ decoder. decoder ≡ fed fresh octets.now) }
{
    let mut decoder = Decoder::new(alloc)?;
    decoder.feed(octets);
    Ok(decoder)
}

// The outer keys of the next message, if it gives any.
fn next_keys(decoder: &mut Decoder) -> Option<MediaKeys>
    ensures keys { (m : TunnelMessage) (rest : List ℕ) → Holds m rest decoder.old → result ≡ keys_told m }
    ensures rest { (m : TunnelMessage) (rest : List ℕ) → Holds m rest decoder.old → decoder.new.held ≡ rest }
    ensures no_fault { (m : TunnelMessage) (rest : List ℕ) → Holds m rest decoder.old → decoder.new.fault ≡ None }
{
    match decoder.next() {
        Ok(Some(message)) => keys_in(&message),
        Ok(None) => None,
        Err(_) => None,
    }
}

// The outer keys of a message, if it gives any.
fn keys_in(message: &Message<'_>) -> Option<MediaKeys>
    ensures { result ≡ keys_told (content_of message.now) }
{
    match message {
        Message::MediaKeys(keys) => Some(**keys),
        _ => None,
    }
}

// The record of the next message, if it carries one.
fn next_record(decoder: &mut Decoder, profile: Profile) -> Option<ClearRecord>
    ensures { (m : TunnelMessage) (rest : List ℕ) → Holds m rest decoder.old → option_map told.content_of result ≡ record_told profile m }
{
    match decoder.next() {
        Ok(Some(message)) => record_in(&message, profile),
        Ok(None) => None,
        Err(_) => None,
    }
}

// The record of a message, if it carries one.
fn record_in(message: &Message<'_>, profile: Profile) -> Option<ClearRecord>
    ensures { option_map told.content_of result ≡ record_told profile (content_of message.now) }
{
    match message {
        Message::TunneledDtls { octets, .. } => ClearRecord::read(octets, profile),
        _ => None,
    }
}

// What a member is told by its outer keys and its welcome.
fn joined_by(keys: &MediaKeys, welcome: &ClearRecord) -> Joined
    requires { (client : KeyAndSalt) × (server : KeyAndSalt) × (granted : Granted) × (told.content_of welcome.now ≡ Welcome client server granted) }
    ensures { (client server : KeyAndSalt) (granted : Granted) → told.content_of welcome.now ≡ Welcome client server granted
        → result ≡ record { keys = keys.now; client = client; server = server; granted = granted } }
{
    match welcome {
        ClearRecord::Welcome {
            client,
            server,
            granted,
        } => Joined {
            keys: *keys,
            client: *client,
            server: *server,
            granted: *granted,
        },
        _ => unreachable!(),
    }
}
