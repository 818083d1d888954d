// A conference: who is in it, what was sent, and where a line's words are looked up.
ghost use Rattle.std.specs.Prelude.{◌≡◌, ◌+◌, ◌<◌, ◌^◌, ℕ, List, [], IfOk, None, Some, length};
ghost use Rattle.std.specs.List.{position};
ghost use Rattle.perc_run.specs.Sound.{IsOrderly};
ghost use Rattle.perc_run.specs.State.{Goes, State, nobody};
ghost use Rattle.perc_conference_state.specs.Mirror.{Does, IsRunning, Mirrors, all_told};
ghost use Rattle.perc_conference_state.specs.Lookups.{IsDatagramPlace, IsPlaceOf, is_here};
ghost use Rattle.perc_sent.specs.Sent.{MirrorsTable};

use perc_base::{Memory, Profile};
use perc_ekt::EktKeyRecord;
use perc_forwarder::Distributor;
use perc_key_service::KeyService;
use perc_member::{Datagram, Member};
use perc_script_line::Reason;
use perc_sent::Table;
use perc_word::Name;
use std::alloc::{AllocError, AllocFailed, Global};
use std::collections::BTreeMap;

/// How many datagrams there are at most.
pub const MOST_DATAGRAMS: usize = 131072;

/// Why a line isn't done.
#[derive(Clone, Copy)]
pub enum Stop {
    /// The script refuses it.
    Refused(Reason),
    /// A datagram is foreign at the member of this name.
    Foreign(Name),
    /// No memory was found.
    Memory,
}

impl From<Memory> for Stop {
    ghost use Rattle.perc_conference_state.specs.declared.conference.Stop.TheVariants as stop;

    ghost from_gives = { λ _ e. e ≡ stop.Memory };

    fn from(_memory: Memory) -> Stop {
        Stop::Memory
    }
}

impl From<AllocError> for Stop {
    ghost use Rattle.perc_conference_state.specs.declared.conference.Stop.TheVariants as stop;

    ghost from_gives = { λ _ e. e ≡ stop.Memory };

    fn from(_error: AllocError) -> Stop {
        Stop::Memory
    }
}

impl<T: Drop> From<AllocFailed<T>> for Stop {
    ghost use Rattle.perc_conference_state.specs.declared.conference.Stop.TheVariants as stop;

    ghost from_gives = { λ _ e. e ≡ stop.Memory };

    fn from(_error: AllocFailed<T>) -> Stop {
        Stop::Memory
    }
}

/// How many lines of these kinds a line of the script reported.
#[derive(Clone, Copy, Debug, PartialEq, Eq)]
pub struct Told {
    /// Wire lines.
    pub datagrams: u32,
    /// Accept lines.
    pub accepted: u32,
    /// Refuse lines.
    pub refused: u32,
}

impl Told {
    /// None of them.
    pub const NONE: Told = Told {
        datagrams: 0,
        accepted: 0,
        refused: 0,
    };

    pub const WIRE: Told = Told {
        datagrams: 1,
        accepted: 0,
        refused: 0,
    };

    pub const ACCEPT: Told = Told {
        datagrams: 0,
        accepted: 1,
        refused: 0,
    };

    pub const REFUSE: Told = Told {
        datagrams: 0,
        accepted: 0,
        refused: 1,
    };

    /// These and others.
    pub fn and(self, others: Told) -> Told
        requires datagrams { self.datagrams + others.datagrams < 2 ^ 32 }
        requires accepted { self.accepted + others.accepted < 2 ^ 32 }
        requires refused { self.refused + others.refused < 2 ^ 32 }
        ensures { result ≡ all_told self others }
    {
        Told {
            datagrams: self.datagrams + others.datagrams,
            accepted: self.accepted + others.accepted,
            refused: self.refused + others.refused,
        }
    }
}

/// A conference.
#[derive(Drop)]
pub struct Conference {
    /// None before the head.
    pub profile: Option<Profile>,
    /// The records of EKT keys that were issued, the n-th with SPI n, and their keys.
    pub records: Vec<EktKeyRecord>,
    pub issued: BTreeMap<[u8; 32], u16>,
    /// All that ever joined, in the order of joining.
    pub members: Vec<Member>,
    pub distributor: Distributor,
    /// The key distributor, behind the head.
    pub keys: Option<KeyService>,
    /// The n-th is datagram n.
    pub datagrams: Vec<Datagram>,
}

impl Conference {
    /// A conference before its head.
    pub fn new(alloc: Global) -> Result<Conference, Memory>
        ensures { IfOk result (λ conference. Mirrors conference nobody) }
    {
        Ok(Conference {
            profile: None,
            records: Vec::new(alloc),
            issued: BTreeMap::new(alloc),
            members: Vec::new(alloc),
            distributor: Distributor::new(alloc)?,
            keys: None,
            datagrams: Vec::new(alloc),
        })
    }

    /// Takes the head: from then on there is a key distributor, to which both profiles were offered.
    pub fn open(&mut self, alloc: Global, profile: Profile) -> Result<Told, Stop>
        requires running { IsRunning self.old }
        requires head { self.old.profile ≡ None }
        ensures { (s : State) (text : List ℕ) → IsOrderly s → Mirrors self.old s
            → Does (Goes [] (record s { profile = Some profile })) result text text self.new }
    {
        self.keys = Some(KeyService::new(alloc, profile)?);
        self.profile = Some(profile);
        Ok(Told::NONE)
    }

    /// The place of the member of this name that is present.
    pub fn place_of(&self, name: &Name) -> Result<usize, Stop>
        ensures { (s : State) → Mirrors self.now s → IsPlaceOf s name.now result }
    {
        match place_named(&self.members, name) {
            Some(place) => Ok(place),
            None => Err(Stop::Refused(Reason::Name)),
        }
    }

    /// What was sent, under the head's profile.
    pub fn table(&self, profile: Profile) -> Table<'_>
        requires { self.now.profile ≡ Some profile }
        ensures { (s : State) → IsOrderly s → Mirrors self.now s → MirrorsTable result s }
    {
        Table {
            profile,
            records: &self.records,
            members: &self.members,
            datagrams: &self.datagrams,
        }
    }

    /// The place of the datagram of a number, from 1.
    pub fn datagram_place(&self, number: u32) -> Result<usize, Stop>
        ensures { (s : State) → Mirrors self.now s → IsDatagramPlace s number result }
    {
        if number == 0 || number as usize > self.datagrams.len() {
            return Err(Stop::Refused(Reason::Datagram));
        }
        Ok(number as usize - 1)
    }

    /// The number of the next datagram.
    pub fn next_number(&self) -> u32
        requires { length self.now.datagrams.items < 131072 }
        ensures { (s : State) → Mirrors self.now s → result ≡ length s.datagrams + 1 }
    {
        self.datagrams.len() as u32 + 1
    }
}

// The place of the member of a name that is present.
fn place_named(members: &[Member], name: &Name) -> Option<usize>
    ensures { result ≡ position (is_here name.now) members.now }
{
    members
        .iter()
        .position(|member| member.present && name.same(&member.name))
}
