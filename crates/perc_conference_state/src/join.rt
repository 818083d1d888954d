// The line `join`.
ghost use Rattle.std.specs.Prelude.{◌≡◌, ◌-◌, ◌||◌, Some, None, count_by, length, slice_get};
ghost use Rattle.std.specs.List.{list_any};
ghost use Rattle.perc_incoming.specs.Kept.{IsRecordFor};
ghost use Rattle.perc_receiver.specs.Table.{secret_in};
ghost use Rattle.perc_run.specs.Sound.{IsOrderly};
ghost use Rattle.perc_run.specs.State.{State};
ghost use Rattle.perc_run.specs.Joining as spec;
ghost use Rattle.perc_run.specs.Joining.{are_used, is_crowded, is_known, joined, newest};
ghost use Rattle.perc_conference_state.specs.Mirror.{Does, IsRunning, Mirrors};
ghost use Rattle.perc_member.specs.Making.{IsNewcomer};
ghost use Rattle.perc_conference_state.specs.Lookups.{brought, is_known_as};
ghost use Rattle.perc_conference_state.specs.Steps.{join_as, join_fault, newcomer_as, welcomed};

use crate::conference::{Conference, Stop, Told};
use perc_base::Profile;
use perc_ekt::EktKeyRecord;
use perc_kdf::Master;
use perc_key_service::Joined;
use perc_keyset::{Entry, Op};
use perc_member::{Member, Newcomer};
use perc_report_line::ReportLine;
use perc_script_line::Reason;
use perc_word::Name;
use std::alloc::Global;

// How many members there are at once, and how many join in all.
const MOST_MEMBERS: usize = 64;

const MOST_JOINS: usize = 256;

impl Conference {
    /// Lets a member in, which begins with the newest record.
    pub fn join(
        &mut self,
        alloc: Global,
        profile: Profile,
        newcomer: &Newcomer,
        text: &mut Vec<u8>,
    ) -> Result<Told, Stop>
        requires running { IsRunning self.old }
        requires profile { self.old.profile ≡ Some profile }
        requires newcomer { IsNewcomer profile newcomer.now }
        ensures { (s : State) → IsOrderly s → Mirrors self.old s
            → Does (join_as s profile newcomer.now (newest s.secrets)) result text.old.items text.new.items self.new }
    {
        let Some(newest) = self.records.last().copied() else {
            return Err(Stop::Refused(Reason::Order));
        };
        if let Some(reason) = self.join_fault(newcomer) {
            return Err(Stop::Refused(reason));
        }
        self.let_in(alloc, profile, newcomer, &newest, text)
    }

    // Why the newcomer can't join, where there is a record.
    fn join_fault(&self, newcomer: &Newcomer) -> Option<Reason>
        ensures { (s : State) → Mirrors self.now s → result ≡ join_fault s newcomer.now }
    {
        if self.is_known(&newcomer.name, newcomer.ssrc) {
            return Some(Reason::Name);
        }
        if self.are_used(&newcomer.client, &newcomer.server) {
            return Some(Reason::Key);
        }
        if self.is_crowded() {
            return Some(Reason::Limit);
        }
        None
    }

    // Whether somebody had the name or the SSRC.
    fn is_known(&self, name: &Name, ssrc: u32) -> bool
        ensures { (s : State) → Mirrors self.now s → result ≡ is_known s name.now ssrc }
    {
        has_anyone(&self.members, name, ssrc)
    }

    // Whether both pairs are one, or one was brought before.
    fn are_used(&self, client: &Master, server: &Master) -> bool
        ensures { (s : State) → Mirrors self.now s → result ≡ are_used s client.now server.now }
    {
        client == server || has_either(&self.members, client, server)
    }

    // Whether nobody can join any more.
    fn is_crowded(&self) -> bool
        ensures { (s : State) → Mirrors self.now s → result ≡ is_crowded s }
    {
        count_present(&self.members) >= MOST_MEMBERS || self.members.len() >= MOST_JOINS
    }

    // Makes the newcomer a member.
    fn let_in(
        &mut self,
        alloc: Global,
        profile: Profile,
        newcomer: &Newcomer,
        newest: &EktKeyRecord,
        text: &mut Vec<u8>,
    ) -> Result<Told, Stop>
        requires running { IsRunning self.old }
        requires profile { self.old.profile ≡ Some profile }
        requires newcomer { IsNewcomer profile newcomer.now }
        requires newest { IsRecordFor profile newest.now }
        requires last { slice_get self.old.records.items (length self.old.records.items - 1) ≡ Some newest.now }
        requires free { (s : State) → Mirrors self.old s → join_fault s newcomer.now ≡ None }
        ensures { (s : State) → IsOrderly s → Mirrors self.old s
            → spec.newest s.secrets ≡ Some (secret_in newest.now) → join_fault s newcomer.now ≡ None
            → Does (joined s (newcomer_as s profile newcomer.now (secret_in newest.now))) result text.old.items text.new.items self.new }
    {
        let serial = self.members.len() as u32;
        let association = (u128::from(serial) + 1).to_be_bytes();
        let service = self.keys.as_mut().unwrap();
        let joined = service.join(alloc, &association, &newcomer.client, &newcomer.server)?;
        // What the member holds comes by its welcome, and what the distributor holds by the tunnel.
        let member = Member::start(
            alloc,
            profile,
            &welcomed(newcomer, &joined),
            association,
            &joined.granted,
        )?;
        self.members.push(member)?;
        self.distributor.absorb(&Op::Add(Entry {
            association: joined.keys.association,
            serial,
            client: joined.keys.client,
            server: joined.keys.server,
        }));
        let line = ReportLine::Joined {
            name: newcomer.name,
            association,
        };
        line.write(alloc, text)?;
        Ok(Told::NONE)
    }
}

// The newcomer with the pairs that its welcome brought.
fn welcomed(newcomer: &Newcomer, told: &Joined) -> Newcomer
    ensures { result ≡ welcomed newcomer.now told.now }
{
    Newcomer {
        client: told.client,
        server: told.server,
        ..*newcomer
    }
}

// Whether somebody has the name or the SSRC.
fn has_anyone(members: &[Member], name: &Name, ssrc: u32) -> bool
    ensures { result ≡ list_any (is_known_as name.now ssrc) members.now }
{
    members
        .iter()
        .any(|member| name.same(&member.name) || member.ssrc == ssrc)
}

// Whether somebody brought one of the pairs.
fn has_either(members: &[Member], client: &Master, server: &Master) -> bool
    ensures { result ≡ list_any (λ m. brought client.now m || brought server.now m) members.now }
{
    members.iter().any(|member| has_pair(member, client) || has_pair(member, server))
}

// Whether a member brought this pair.
fn has_pair(member: &Member, pair: &Master) -> bool
    ensures { result ≡ brought pair.now member.now }
{
    member.client == *pair || member.server == *pair
}

// How many are present.
fn count_present(members: &[Member]) -> usize
    ensures { result ≡ count_by (λ m. m.present) members.now }
{
    members.iter().filter(|member| member.present).count()
}
