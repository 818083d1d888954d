// What the key distributor of a script hears, and the EKT keys that it issues.
ghost use Rattle.std.specs.Prelude.{◌≡◌, [], ◌∷◌, ◌++◌, None, IfOk, OnOk, true, length};
ghost use Rattle.perc_base.specs.Memory.{faultless_randoms_left};
ghost use Rattle.perc_base.specs.Profile.{profile_number};
ghost use Rattle.perc_ekt.specs.declared.record.EktKeyRecord.{EktKeyRecord as Granted};
ghost use Rattle.perc_tunnel.specs.Message as tunnel;
ghost use Rattle.perc_tunnel.specs.Told.{content_of};
ghost use Rattle.perc_keeper.specs.Lists.{is_member, nothing, with_issued, with_member, without_member};
ghost use Rattle.perc_keydist.specs.ClearRecord as clear;
ghost use Rattle.perc_keydist.specs.KeyDistributor.{anew};
ghost use Rattle.perc_key_service.specs.Keeper.{faultless_lists};
ghost use Rattle.perc_key_service.specs.Replies.{AreReplies};
ghost use Rattle.perc_key_service.specs.Service.{MayIssue, MayJoin, issued_as, keys_as};
ghost use Rattle.perc_key_service.specs.Serving.{IsServing, both, octets_of, service_of};

use crate::hearing::{hear, only_memory};
use crate::keeper::FaultlessKeeper;
use perc_base::{FaultlessRandoms, Memory, Profile};
use perc_ekt::EktKeyRecord;
use perc_kdf::Master;
use perc_keydist::{ClearHandshake, ClearRecord, KeyDist};
use perc_tunnel::{Message, ProfileList};
use std::alloc::Global;

// Offers both profiles to a new key distributor.
pub fn offer(
    alloc: Global,
    keydist: &mut KeyDist,
    keeper: &mut FaultlessKeeper,
) -> Result<(), Memory>
    requires anew { keydist.old ≡ anew keydist.old.profile }
    requires nothing { faultless_lists keeper.old ≡ nothing }
    ensures serving { OnOk result (IsServing keydist.new.fault (faultless_lists keeper.new) keydist.new) }
    ensures kept { OnOk result (faultless_lists keeper.new ≡ nothing) }
    ensures profile { keydist.new.profile ≡ keydist.old.profile }
{
    let mut randoms = FaultlessRandoms::new(Vec::new(alloc));
    let mut out = Vec::new(alloc);
    hear(alloc, keydist, &offered(), keeper, &mut randoms, &mut out)
}

// The message that offers both profiles.
fn offered() -> Message<'static>
    ensures { content_of result ≡ tunnel.SupportedProfiles 0 both }
{
    Message::SupportedProfiles {
        version: 0,
        profiles: ProfileList::new(&[0, 9, 0, 10]).unwrap(),
    }
}

// Lets an association in, whose pairs are drawn to be these, and answers the octets of the replies.
pub fn let_in(
    alloc: Global,
    keydist: &mut KeyDist,
    profile: Profile,
    association: &[u8; 16],
    client: &Master,
    server: &Master,
    keeper: &mut FaultlessKeeper,
) -> Result<Vec<u8>, Memory>
    requires profile { keydist.old.profile ≡ profile }
    requires serving { IsServing keydist.old.fault (faultless_lists keeper.old) keydist.old }
    requires may { (granted : Granted) × MayJoin (service_of keydist.old (faultless_lists keeper.old)) association.now client.now server.now granted }
    ensures serving { IsServing keydist.new.fault (faultless_lists keeper.new) keydist.new }
    ensures joined { OnOk result (faultless_lists keeper.new
        ≡ with_member (keys_as (service_of keydist.old (faultless_lists keeper.old)) association.now client.now server.now) (faultless_lists keeper.old)) }
    ensures replies { (granted : Granted) → MayJoin (service_of keydist.old (faultless_lists keeper.old)) association.now client.now server.now granted
        → IfOk result (λ out. AreReplies profile (keys_as (service_of keydist.old (faultless_lists keeper.old)) association.now client.now server.now) granted out.items) }
    ensures profile { keydist.new.profile ≡ keydist.old.profile }
{
    let mut randoms = draws(alloc, client, server)?;
    let octets = hello(profile);
    let message = Message::TunneledDtls {
        association: *association,
        octets: &octets,
    };
    let mut out = Vec::new(alloc);
    hear(alloc, keydist, &message, keeper, &mut randoms, &mut out)?;
    Ok(out)
}

// The record of a hello with this profile.
fn hello(profile: Profile) -> [u8; 8]
    ensures { result ≡ clear.spelling profile (clear.Hello (profile_number profile)) }
{
    let mut room = [0; 149];
    ClearRecord::Hello(profile.number()).write(profile, &mut room);
    let mut octets = [0; 8];
    octets.copy_from_slice(&room[..8]);
    octets
}

// Randoms of which the client's pair is drawn, and then the server's.
fn draws(alloc: Global, client: &Master, server: &Master) -> Result<FaultlessRandoms, Memory>
    ensures drawn { IfOk result (λ randoms. faultless_randoms_left randoms ≡ octets_of client.now ++ octets_of server.now) }
    ensures client { OnOk result (length client.now.salt ≡ 12) }
    ensures server { OnOk result (length server.now.salt ≡ 12) }
{
    let mut octets = Vec::new(alloc);
    append_pair(client.key(), client.salt(), &mut octets)?;
    append_pair(server.key(), server.salt(), &mut octets)?;
    Ok(FaultlessRandoms::new(octets))
}

// Appends a key, and behind it a salt.
fn append_pair(key: &[u8], salt: &[u8; 12], octets: &mut Vec<u8>) -> Result<(), Memory>
    ensures appended { OnOk result (octets.new.items ≡ octets.old.items ++ (key.now ++ salt.now)) }
    ensures size { length salt.now ≡ 12 }
{
    if octets.extend_from_slice(key).is_err() || octets.extend_from_slice(salt).is_err() {
        return Err(Memory);
    }
    Ok(())
}

// Lets a member go.
pub fn let_go(
    alloc: Global,
    keydist: &mut KeyDist,
    association: &[u8; 16],
    keeper: &mut FaultlessKeeper,
) -> Result<(), Memory>
    requires serving { IsServing keydist.old.fault (faultless_lists keeper.old) keydist.old }
    requires member { is_member (faultless_lists keeper.old).members association.now ≡ true }
    ensures serving { IsServing keydist.new.fault (faultless_lists keeper.new) keydist.new }
    ensures left { OnOk result (faultless_lists keeper.new ≡ without_member association.now (faultless_lists keeper.old)) }
    ensures profile { keydist.new.profile ≡ keydist.old.profile }
{
    let message = Message::EndpointDisconnect {
        association: *association,
    };
    let mut randoms = FaultlessRandoms::new(Vec::new(alloc));
    let mut out = Vec::new(alloc);
    hear(alloc, keydist, &message, keeper, &mut randoms, &mut out)
}

// Issues the key with this salt under the next SPI. The renewals go nowhere.
pub fn issue(
    alloc: Global,
    keydist: &mut KeyDist,
    key: &[u8],
    salt: &[u8; 12],
    keeper: &mut FaultlessKeeper,
) -> Result<EktKeyRecord, Memory>
    requires serving { IsServing keydist.old.fault (faultless_lists keeper.old) keydist.old }
    requires may { MayIssue (service_of keydist.old (faultless_lists keeper.old)) key.now }
    ensures serving { IsServing keydist.new.fault (faultless_lists keeper.new) keydist.new }
    ensures answer { IfOk result (λ issued. issued ≡ issued_as (service_of keydist.old (faultless_lists keeper.old)) key.now salt.now) }
    ensures issued { OnOk result (faultless_lists keeper.new
        ≡ with_issued (issued_as (service_of keydist.old (faultless_lists keeper.old)) key.now salt.now) (faultless_lists keeper.old)) }
    ensures profile { keydist.new.profile ≡ keydist.old.profile }
{
    let mut octets = Vec::new(alloc);
    append_pair(key, salt, &mut octets)?;
    let mut randoms = FaultlessRandoms::new(octets);
    let mut renewals = Vec::new(alloc);
    match keydist.roll(
        alloc,
        keeper,
        &mut ClearHandshake,
        &mut randoms,
        &mut renewals,
    ) {
        Ok(issued) => Ok(issued),
        Err(fault) => Err(only_memory(fault)),
    }
}
