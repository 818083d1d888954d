// The key distributor of a script.
ghost use Rattle.std.specs.Prelude.{◌≡◌, true, IfOk, OnOk};
ghost use Rattle.perc_ekt.specs.declared.record.EktKeyRecord.{EktKeyRecord as Granted};
ghost use Rattle.perc_keeper.specs.Lists.{is_member, nothing, with_issued, with_member, without_member};
ghost use Rattle.perc_key_service.specs.Service.{MayIssue, MayJoin, issued_as, keys_as};

use crate::events;
use crate::keeper::FaultlessKeeper;
use crate::replies::read_replies;
use perc_base::{Memory, Profile};
use perc_ekt::EktKeyRecord;
use perc_kdf::Master;
use perc_keydist::KeyDist;
use perc_tunnel::MediaKeys;
use std::alloc::Global;
use std::marker::Model;

/// The key distributor of a script. Both double profiles were offered to it.
#[derive(Drop)]
pub struct KeyService {
    profile: Profile,
    keydist: KeyDist,
    keeper: FaultlessKeeper,
}

/// What comes back when a member joins.
#[derive(Clone, Copy)]
pub struct Joined {
    /// To the distributor: the member's outer keys.
    pub keys: MediaKeys,
    /// To the member, by its welcome: its outer pairs, and the record of the newest EKT key.
    pub client: Master,
    pub server: Master,
    pub granted: EktKeyRecord,
}

impl Model for KeyService {
    ghost use Rattle.std.specs.Prelude.{◌≡◌};
    ghost use Rattle.perc_key_service.specs.Keeper.{faultless_lists};
    ghost use Rattle.perc_key_service.specs.Service.{Service};
    ghost use Rattle.perc_key_service.specs.Serving.{IsServing};

    ghost Value = { Service };

    ghost view = { λ s. record { profile = s.profile; lists = faultless_lists s.keeper } };

    ghost invariant = { λ s. (s.keydist.profile ≡ s.profile) × IsServing s.keydist.fault (faultless_lists s.keeper) s.keydist };
}

impl KeyService {
    /// A key distributor that issued nothing, for a conference of this profile.
    pub fn new(alloc: Global, profile: Profile) -> Result<KeyService, Memory>
        ensures { IfOk result (λ service. service ≡ record { profile = profile; lists = nothing }) }
    {
        let mut keydist = KeyDist::new(alloc, profile)?;
        let mut keeper = FaultlessKeeper::new(alloc)?;
        events::offer(alloc, &mut keydist, &mut keeper)?;
        Ok(KeyService {
            profile,
            keydist,
            keeper,
        })
    }

    /// Issues the key with this salt under the next SPI, from 1 on. The members' renewals go nowhere: a script says whom a record reaches.
    pub fn issue(
        &mut self,
        alloc: Global,
        key: &[u8],
        salt: &[u8; 12],
    ) -> Result<EktKeyRecord, Memory>
        requires may { MayIssue self.old key.now }
        ensures answer { IfOk result (λ issued. issued ≡ issued_as self.old key.now salt.now) }
        ensures issued { OnOk result (self.new ≡ record self.old { lists = with_issued (issued_as self.old key.now salt.now) self.old.lists }) }
    {
        events::issue(alloc, &mut self.keydist, key, salt, &mut self.keeper)
    }

    /// Lets an association in, whose pairs are drawn to be these: a hello goes in, and both replies are read.
    pub fn join(
        &mut self,
        alloc: Global,
        association: &[u8; 16],
        client: &Master,
        server: &Master,
    ) -> Result<Joined, Memory>
        requires may { (granted : Granted) × MayJoin self.old association.now client.now server.now granted }
        ensures answer { (granted : Granted) → MayJoin self.old association.now client.now server.now granted
            → IfOk result (λ joined. joined ≡ record { keys = keys_as self.old association.now client.now server.now; client = client.now; server = server.now; granted = granted }) }
        ensures joined { OnOk result (self.new ≡ record self.old { lists = with_member (keys_as self.old association.now client.now server.now) self.old.lists }) }
    {
        let replies = events::let_in(
            alloc,
            &mut self.keydist,
            self.profile,
            association,
            client,
            server,
            &mut self.keeper,
        )?;
        read_replies(alloc, replies.as_slice(), self.profile)
    }

    /// Lets a member go. No key is rolled.
    pub fn leave(&mut self, alloc: Global, association: &[u8; 16]) -> Result<(), Memory>
        requires member { is_member self.old.lists.members association.now ≡ true }
        ensures { OnOk result (self.new ≡ record self.old { lists = without_member association.now self.old.lists }) }
    {
        events::let_go(alloc, &mut self.keydist, association, &mut self.keeper)
    }
}
