// The handshake with an endpoint, as a key distributor sees it, and its clear stand-in.
ghost use Rattle.std.specs.Prelude.{◌≡◌, ℕ, ◌≤◌, Option, Some, Ok, IfOk, IfSome, OnErr, length, take};
ghost use Rattle.perc_base.specs.Outside.{HasRisen};
ghost use Rattle.perc_ekt.specs.Record.{IsRecord};
ghost use Rattle.perc_keeper.specs.Lists.{HasKeys};
ghost use Rattle.perc_keydist.specs.Answers.{Answers, clear_answers};

use crate::ClearRecord;
use perc_base::{Failed, Profile};
use perc_ekt::EktKeyRecord;
use perc_tunnel::MediaKeys;

/// What a record of an endpoint brings.
#[derive(Clone, Copy, Debug, PartialEq, Eq)]
pub enum Hello {
    /// The endpoint wants to join with the double profile of this number (RFC 8723 section 10.1).
    Join(u16),
    /// Nothing that a key distributor acts on.
    Other,
}

/// The handshake with the endpoints of a conference.
pub trait Handshake {
    /// What it makes of records, and which records it makes, where that is told.
    ghost answers: { Self → Option Answers };

    /// How often a call has failed.
    ghost fault_count: { Self → ℕ };

    /// How often a call has failed; the count stands still at 2^64 - 1.
    fn faults(&self) -> u64
        ensures { result ≡ fault_count self.now };

    /// Takes a record of an endpoint.
    fn take(&mut self, octets: &[u8]) -> Result<Hello, Failed>
        ensures answer { IfOk result (λ hello. IfSome (answers self.old) (λ a. hello ≡ a.taken octets.now)) }
        ensures kept { answers self.new ≡ answers self.old }
        ensures failed { OnErr result (HasRisen (fault_count self.old) (fault_count self.new)) }
        ensures never_falls { fault_count self.old ≤ fault_count self.new };

    /// Writes the record that tells a new member its outer keys and the EKT key to the front of `out`, and answers its length:
    /// 1 to 1500. The keys have the length of their profile, and the EKT key's record is right.
    fn welcome(
        &mut self,
        keys: &MediaKeys,
        granted: &EktKeyRecord,
        out: &mut [u8; 1500],
    ) -> Result<usize, Failed>
        requires keys { HasKeys keys.now }
        requires right { IsRecord granted.now }
        ensures some { IfOk result (λ n. 1 ≤ n) }
        ensures within { IfOk result (λ n. n ≤ 1500) }
        ensures answer { IfOk result (λ n. IfSome (answers self.old) (λ a. take n out.new ≡ a.welcome keys.now granted.now)) }
        ensures kept { answers self.new ≡ answers self.old }
        ensures failed { OnErr result (HasRisen (fault_count self.old) (fault_count self.new)) }
        ensures never_falls { fault_count self.old ≤ fault_count self.new };

    /// Writes the record that tells a member a new EKT key to the front of `out`, and answers its length: 1 to 1500. The EKT
    /// key's record is right.
    fn renew(&mut self, granted: &EktKeyRecord, out: &mut [u8; 1500]) -> Result<usize, Failed>
        requires right { IsRecord granted.now }
        ensures some { IfOk result (λ n. 1 ≤ n) }
        ensures within { IfOk result (λ n. n ≤ 1500) }
        ensures answer { IfOk result (λ n. IfSome (answers self.old) (λ a. take n out.new ≡ a.renewal granted.now)) }
        ensures kept { answers self.new ≡ answers self.old }
        ensures failed { OnErr result (HasRisen (fault_count self.old) (fault_count self.new)) }
        ensures never_falls { fault_count self.old ≤ fault_count self.new };
}

/// The handshake's stand-in, whose records are clear and protect nothing. It never fails and takes no memory.
#[derive(Clone, Copy, Drop)]
pub struct ClearHandshake;

impl Handshake for ClearHandshake {
    ghost answers = { λ _. Some clear_answers };

    ghost fault_count = { λ _. 0 };

    fn faults(&self) -> u64 {
        0
    }

    fn take(&mut self, octets: &[u8]) -> Result<Hello, Failed>
        ensures answer { result ≡ Ok (clear_answers.taken octets.now) }
    {
        match ClearRecord::read(octets, Profile::Aes128) {
            Some(ClearRecord::Hello(number)) => Ok(Hello::Join(number)),
            _ => Ok(Hello::Other),
        }
    }

    fn welcome(
        &mut self,
        keys: &MediaKeys,
        granted: &EktKeyRecord,
        out: &mut [u8; 1500],
    ) -> Result<usize, Failed>
        requires keys { HasKeys keys.now }
        requires right { IsRecord granted.now }
        ensures answer { result ≡ Ok (length (clear_answers.welcome keys.now granted.now)) }
        ensures value { take (length (clear_answers.welcome keys.now granted.now)) out.new ≡ clear_answers.welcome keys.now granted.now }
        ensures some { 1 ≤ length (clear_answers.welcome keys.now granted.now) }
        ensures within { length (clear_answers.welcome keys.now granted.now) ≤ 1500 }
    {
        let record = ClearRecord::Welcome {
            client: keys.client,
            server: keys.server,
            granted: *granted,
        };
        Ok(record.write(keys.profile, out))
    }

    fn renew(&mut self, granted: &EktKeyRecord, out: &mut [u8; 1500]) -> Result<usize, Failed>
        requires right { IsRecord granted.now }
        ensures answer { result ≡ Ok (length (clear_answers.renewal granted.now)) }
        ensures value { take (length (clear_answers.renewal granted.now)) out.new ≡ clear_answers.renewal granted.now }
        ensures some { 1 ≤ length (clear_answers.renewal granted.now) }
        ensures within { length (clear_answers.renewal granted.now) ≤ 1500 }
    {
        Ok(ClearRecord::Renew(*granted).write(Profile::Aes128, out))
    }
}
