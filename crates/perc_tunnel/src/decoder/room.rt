// The room in which a decoder holds octets.
ghost use Rattle.std.specs.Prelude.{◌≡◌, ◌+◌, ◌-◌, ◌^◌, ◌<◌, ◌≤◌, length, take, drop, IfOk, vec_len};
ghost use Rattle.perc_tunnel.specs.Forms.{HasLength, message_at};
ghost use Rattle.perc_tunnel.specs.Told.{content_of};
ghost use Rattle.perc_tunnel.specs.Decoding.{fed, fresh, taken};

use super::TunnelFault;
use crate::forms::{Form, Standing, judge};
use crate::parts::{association_of, keys_of};
use crate::{MediaKeys, Message, ProfileList};
use perc_base::{Memory, Profile};
use perc_kdf::Master;
use std::alloc::Global;

// The longest message.
const SIZE: usize = 65538;

/// What came of a step of a decoder.
#[derive(Clone, Copy)]
pub enum Turn {
    /// A message of this form, which the room keeps until it takes octets.
    Message(Form),
    /// The octets held are a part of a message.
    Part,
    /// They are neither, now or at an earlier step.
    Fault(TunnelFault),
}

/// Room for the longest message.
#[derive(Drop)]
pub struct Room {
    octets: Vec<u8>,
    /// Where the message begins that was given last. It ends where the octets begin that are held.
    last: usize,
    /// Where the octets begin that are held.
    start: usize,
    /// Where they end.
    end: usize,
    /// How many octets the messages had that were given.
    given: u64,
    fault: Option<TunnelFault>,
    /// The keys of the last message that had any.
    keys: MediaKeys,
    ghost full: { vec_len octets ≡ 65538 },
    ghost behind: { last ≤ start },
    ghost ordered: { start ≤ end },
    ghost within: { end ≤ 65538 },
    ghost counted: { given + (end - start) < 2 ^ 64 },
}

impl Room {
    ghost use Rattle.perc_tunnel.specs.Room.{decoding_in, message_in, Advances, KeepsKeys, KnowsKeys};

    pub(super) fn new(alloc: Global) -> Result<Room, Memory>
        ensures { IfOk result (λ room. decoding_in room ≡ fresh) }
    {
        let Ok(octets) = vec![in alloc; 0; SIZE] else {
            return Err(Memory);
        };
        Ok(Room {
            octets,
            last: 0,
            start: 0,
            end: 0,
            given: 0,
            fault: None,
            keys: no_keys(),
        })
    }

    /// The octets of the message that was given last.
    fn last_message(&self) -> &[u8]
        ensures { result.now ≡ message_in self.now }
    {
        let (start, end) = (self.last, self.start);
        let all = self.octets.as_slice();
        &all[start..end]
    }

    /// The message that was given last, of this form. A list of profiles and a record stay where they are.
    pub(super) fn message(&self, form: Form) -> Message<'_>
        requires size { HasLength form (length (message_in self.now) - 3) }
        requires keys { KnowsKeys self.now.keys form (message_in self.now) }
        ensures { content_of result ≡ message_at form (message_in self.now) }
    {
        let octets = self.last_message();
        match form {
            Form::Profiles => Message::SupportedProfiles {
                version: octets[3],
                profiles: ProfileList::new(&octets[6..]).unwrap(),
            },
            Form::Version => Message::UnsupportedVersion { highest: octets[3] },
            Form::Keys(_) => Message::MediaKeys(&self.keys),
            Form::Record => Message::TunneledDtls {
                association: association_of(octets),
                octets: &octets[21..],
            },
            Form::Ended => Message::EndpointDisconnect {
                association: association_of(octets),
            },
        }
    }

    /// How many octets the messages had that were given.
    pub(super) fn count_given(&self) -> u64
        ensures { result ≡ (decoding_in self.now).given }
    {
        self.given
    }

    /// How many octets are held.
    pub(super) fn count_held(&self) -> usize
        ensures { result ≡ length (decoding_in self.now).held }
    {
        self.end - self.start
    }

    /// Takes octets from the front of the piece, and answers how many.
    pub(super) fn take_from(&mut self, piece: &[u8]) -> usize
        ensures count { result ≡ taken (decoding_in self.old) (length piece.now) }
        ensures held { decoding_in self.new ≡ fed (decoding_in self.old) piece.now }
    {
        let count = self.count_taken(piece.len());
        self.make_room(count);
        let (start, end) = (self.end, self.end + count);
        self.octets.as_mut_slice()[start..end].copy_from_slice(&piece[..count]);
        self.end = end;
        count
    }

    /// How many of n octets are taken.
    fn count_taken(&self, n: usize) -> usize
        ensures { result ≡ taken (decoding_in self.now) n }
    {
        if self.fault.is_some() {
            return 0;
        }
        let held = self.count_held();
        let left = u64::MAX - (self.given + held as u64);
        n.min((SIZE - held).min(left as usize))
    }

    /// Moves the octets that are held to the front of the room, where there is no room for `count` behind them.
    fn make_room(&mut self, count: usize)
        requires { length (decoding_in self.old).held + count ≤ 65538 }
        ensures held { decoding_in self.new ≡ decoding_in self.old }
        ensures room { self.new.end + count ≤ 65538 }
        ensures counted { self.new.end - self.new.start ≡ self.old.end - self.old.start }
    {
        if SIZE - self.end < count {
            let (start, end) = (self.start, self.end);
            self.octets.as_mut_slice().copy_within(start..end, 0);
            self.last = 0;
            self.start = 0;
            self.end = end - start;
        }
    }

    /// The next answer.
    pub(super) fn advance(&mut self) -> Turn
        ensures step { Advances (decoding_in self.old) (message_in self.new) result (decoding_in self.new) }
        ensures keys { KeepsKeys result self.new.keys (message_in self.new) }
    {
        if let Some(fault) = self.fault {
            return Turn::Fault(fault);
        }
        match judge(&self.octets.as_slice()[self.start..self.end]) {
            Standing::Whole(form, len) => {
                self.give(len);
                self.keep_keys(form);
                Turn::Message(form)
            }
            Standing::Part => Turn::Part,
            Standing::Fault(reason) => {
                let fault = TunnelFault {
                    offset: self.given,
                    reason,
                };
                self.fault = Some(fault);
                Turn::Fault(fault)
            }
        }
    }

    /// Gives the message in the first `len` octets of those that are held.
    fn give(&mut self, len: usize)
        requires { len ≤ length (decoding_in self.old).held }
        ensures message { message_in self.new ≡ take len (decoding_in self.old).held }
        ensures held { (decoding_in self.new).held ≡ drop len (decoding_in self.old).held }
        ensures given { self.new.given ≡ self.old.given + len }
        ensures fault { self.new.fault ≡ self.old.fault }
    {
        self.last = self.start;
        self.start += len;
        self.given += len as u64;
    }

    /// Keeps the keys of the message that was given last, where it has any.
    fn keep_keys(&mut self, form: Form)
        requires size { HasLength form (length (message_in self.old) - 3) }
        ensures keys { KnowsKeys self.new.keys form (message_in self.old) }
        ensures message { message_in self.new ≡ message_in self.old }
        ensures decoding { decoding_in self.new ≡ decoding_in self.old }
    {
        if let Form::Keys(profile) = form {
            self.keys = keys_of(profile, self.last_message());
        }
    }
}

// What stands for the keys where no message had any yet.
fn no_keys() -> MediaKeys {
    let zero = Master::new(&[0; 16], &[0; 12]).unwrap();
    MediaKeys {
        association: [0; 16],
        profile: Profile::Aes128,
        client: zero,
        server: zero,
    }
}
