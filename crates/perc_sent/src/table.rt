// The table of what was sent: rows are found by their SSRC and index, and wraps by what they open to.
ghost use Rattle.std.specs.Prelude.{◌≡◌, ℕ, List, ◌-◌, ◌≤◌, ◌<◌, ◌==◌, Err, IfOk, IfSome, MatchResult, Ok, [], length, drop, find, is_none, is_some, take};
ghost use Rattle.std.specs.List.{AllByRecursion, list_any};
ghost use Rattle.std.specs.Option.{option_map};
ghost use Rattle.perc_receiver.specs.Table.{secret_in, secret_of};
ghost use Rattle.perc_rtp.specs.Header.{Header, IsPacket};
ghost use Rattle.perc_base.specs.Profile.{key_length};
ghost use Rattle.perc_ekt.specs.Key.{IsUnwrapped, opened_key, unwrapped_as};
ghost use Rattle.perc_ekt.specs.Field.{Field, spelling, told_of};
ghost use Rattle.perc_outer.specs.Datagram.{Opened};
ghost use Rattle.perc_contexts.specs.Receiving.{Attempt};
ghost use Rattle.perc_receiver.specs.Receiver.{Receiver};
ghost use Rattle.perc_receiver.specs.Opener.{row_of, wrap_of};
ghost use Rattle.perc_incoming.specs.Opening.{AreOpenKeys, IsOpenKey, key_opens, lacks_row, lacks_wrap, open_tries, opens_unmade};
ghost use Rattle.perc_run.specs.State as spec;
ghost use Rattle.perc_run.specs.State.{State, datagram_at};
ghost use Rattle.perc_double.specs.Double.{IsOpened};
ghost use Rattle.perc_run.specs.Delivering.{row_at};
ghost use Rattle.perc_incoming.specs.Kept.{IsRecordFor};
ghost use Rattle.perc_incoming.specs.Outcome.{IsReached, IsToldOf};
ghost use Rattle.perc_sent.specs.Sent.{IsSentAs};
ghost use Rattle.perc_sent.specs.Sent.{IsTable, MirrorsTable, is_packet, is_packet_of};

use perc_aes::AesKey;
use perc_base::Profile;
use perc_ekt::{EktField, EktKeyRecord, KeyFault, Wrapped, unwrap_key};
use perc_incoming::{Inquiry, OpenKey};
use perc_member::{Datagram, Member, Unsealed};
use perc_ohb::restore;
use perc_outer::Reached;
use perc_word::Name;

/// What was sent, under the records that were issued: the n-th record has the SPI n, and the n-th datagram the number n. Rows and wraps
/// are read from the members and the datagrams.
#[derive(Clone, Copy)]
pub struct Table<'a> {
    pub profile: Profile,
    pub records: &'a [EktKeyRecord],
    pub members: &'a [Member],
    pub datagrams: &'a [Datagram],
}

/// An inner packet, as it is asked for: its sender's SSRC, its header with the originals put back, and its inner octets.
#[derive(Clone, Copy)]
pub struct Question<'a> {
    pub ssrc: u32,
    pub header: &'a [u8],
    pub octets: &'a [u8],
}

/// Whose packet a row is, and which datagram.
#[derive(Clone, Copy)]
pub struct Sent {
    pub sender: Name,
    pub datagram: u32,
}

impl<'a> Table<'a> {
    /// The record of an SPI that was issued.
    pub fn record_of(&self, spi: u16) -> Option<&'a EktKeyRecord>
        ensures secret { (s : State) → MirrorsTable self.now s → option_map (λ r. secret_in r.now) result ≡ secret_of s.secrets spi }
        ensures right { (s : State) → MirrorsTable self.now s → IfSome result (λ r. IsRecordFor self.now.profile r.now) }
    {
        let place = usize::from(spi).checked_sub(1)?;
        self.records.get(place)
    }

    /// The member that ever joined with this SSRC.
    pub fn member_of(&self, ssrc: u32) -> Option<&'a Member>
        ensures { option_map (λ m. m.now) result ≡ find (λ m. m.ssrc == ssrc) self.now.members.now }
    {
        self.members.iter().find(|member| member.ssrc == ssrc)
    }

    /// Whether something in an opened datagram opens that nobody made: the key that it carries, or its inner octets by one of the
    /// tries.
    pub fn is_foreign(&self, inquiry: &Inquiry, datagram: &[u8], reached: &Reached) -> bool
        requires table { IsTable self.now }
        requires reached { IsReached datagram.now reached.now }
        ensures { (s : State) (r : Receiver) (o : Opened) → MirrorsTable self.now s → IsToldOf o datagram.now reached.now
            → inquiry.now.ssrc ≡ o.header.ssrc → inquiry.now.key_opens ≡ key_opens r.secrets o.field
            → AreOpenKeys (open_tries r o) inquiry.now.open_keys.items
            → result ≡ opens_unmade s.table r o }
    {
        (inquiry.key_opens && self.lacks_wrap(&reached.field, datagram))
            || self.opens_unsent(inquiry, datagram, reached)
    }

    // Whether the inner packet of an opened datagram opens by a try by which nobody sent it.
    fn opens_unsent(&self, inquiry: &Inquiry, datagram: &[u8], reached: &Reached) -> bool
        requires table { IsTable self.now }
        requires reached { IsReached datagram.now reached.now }
        ensures { (s : State) (r : Receiver) (o : Opened) → MirrorsTable self.now s → IsToldOf o datagram.now reached.now
            → inquiry.now.ssrc ≡ o.header.ssrc → AreOpenKeys (open_tries r o) inquiry.now.open_keys.items
            → result ≡ list_any (lacks_row s.table o) (open_tries r o) }
    {
        let mut room = [0; 72];
        let len = restore(&datagram[..reached.header], &reached.ohb, &mut room);
        let question = Question {
            ssrc: inquiry.ssrc,
            header: &room[..len],
            octets: octets_at(datagram, reached.header, reached.block),
        };
        self.lacks_row(inquiry.open_keys.as_slice(), &question)
    }

    // Whether one of these keys, which are told of tries that open, is one under which nobody sent the packet.
    fn lacks_row(&self, keys: &[OpenKey], question: &Question<'_>) -> bool
        requires { IsTable self.now }
        ensures { (s : State) (attempts : List Attempt) (h : Header) → MirrorsTable self.now s → AreOpenKeys attempts keys.now
            → AllByRecursion (λ a. a.context.ssrc ≡ question.now.ssrc) attempts → IsPacket h [] question.now.header.now
            → result ≡ list_any (λ a. is_none (row_of s.table a.context a.index h question.now.octets.now)) attempts }
    {
        for key in keys {
            if !self.is_row(key, question) {
                return true;
            }
        }
        false
    }

    // Whether a field carries a key that nobody wrapped.
    fn lacks_wrap(&self, field: &EktField, datagram: &[u8]) -> bool
        requires table { IsTable self.now }
        requires few { length datagram.now ≤ 1500 }
        requires told { (f : Field) × (n : ℕ) × (field.now ≡ told_of f n) × (drop n datagram.now ≡ spelling f) }
        ensures { (s : State) (f : Field) (n : ℕ) → MirrorsTable self.now s → field.now ≡ told_of f n
            → drop n datagram.now ≡ spelling f → result ≡ lacks_wrap s.table f }
    {
        let EktField::Full { spi, cipher, .. } = field else {
            return false;
        };
        !self.is_wrap(*spi, octets_at(datagram, cipher.start, cipher.end))
    }

    // Whether somebody wrapped a key as these octets, at most 1500, under an SPI. A wrap is told by what it opens to.
    fn is_wrap(&self, spi: u16, octets: &[u8]) -> bool
        requires table { IsTable self.now }
        requires few { length octets.now ≤ 1500 }
        ensures { (s : State) → MirrorsTable self.now s → result ≡ is_some (wrap_of s.table spi octets.now) }
    {
        let Some(granted) = self.record_of(spi) else {
            return false;
        };
        let Ok(wrapped) = unwrap_copy(granted, self.profile, octets) else {
            return false;
        };
        match self.member_of(wrapped.ssrc) {
            Some(member) => member.has_wrapped(spi, &wrapped.key[..wrapped.len], wrapped.roc),
            None => false,
        }
    }

    // Whether a packet that opens was sent: under that key, at that index, with that header and those inner octets.
    fn is_row(&self, key: &OpenKey, question: &Question<'_>) -> bool
        requires { IsTable self.now }
        ensures { (s : State) (a : Attempt) (h : Header) → MirrorsTable self.now s → IsPacket h [] question.now.header.now
            → a.context.ssrc ≡ question.now.ssrc → IsOpenKey a key.now
            → result ≡ is_some (row_of s.table a.context a.index h question.now.octets.now) }
    {
        let Some(member) = self.member_of(question.ssrc) else {
            return false;
        };
        if !member.has_sent(key.spi, octets_of(key), key.index) {
            return false;
        }
        match member.number_of(key.index) {
            Some(number) => self.is_packet(number, question),
            None => false,
        }
    }

    // Whether a datagram was sent with this header and these inner octets.
    fn is_packet(&self, number: u32, question: &Question<'_>) -> bool
        requires table { IsTable self.now }
        requires above { 0 < number }
        requires within { number ≤ length self.now.datagrams.now }
        ensures { (s : State) (h : Header) → MirrorsTable self.now s → IsPacket h [] question.now.header.now
            → result ≡ is_packet_of (datagram_at s.datagrams number) h question.now.octets.now }
    {
        match &self.datagrams[number as usize - 1].unsealed {
            Some(unsealed) => was_sealed(unsealed, question),
            None => false,
        }
    }

    /// Who sent the packet with this SSRC and index, and as which datagram.
    pub fn sent_as(&self, ssrc: u32, index: u64) -> Option<Sent>
        ensures { (s : State) → MirrorsTable self.now s → IsSentAs (row_at s.table ssrc index) result }
    {
        let member = self.member_of(ssrc)?;
        let datagram = member.number_of(index)?;
        Some(Sent {
            sender: member.name,
            datagram,
        })
    }
}

// Whether this is what was sealed: its header, as the inner seal takes it, and its inner octets are those that are asked for.
fn was_sealed(unsealed: &Unsealed, question: &Question<'_>) -> bool
    requires { (u : spec.Unsealed) × IsOpened u.header u.inner u.block unsealed.now.packet.items }
    ensures { (u : spec.Unsealed) (h : Header) → IsOpened u.header u.inner u.block unsealed.now.packet.items
        → IsPacket h [] question.now.header.now → result ≡ is_packet h question.now.octets.now u }
{
    let mut room = [0; 72];
    let len = unsealed.cut_header(&mut room);
    let parts = unsealed.parts();
    &room[..len] == question.header
        && &unsealed.packet[parts.header..parts.inner] == question.octets
}

// The octets of a key under which a packet opens.
fn octets_of(key: &OpenKey) -> &[u8]
    ensures { result.now ≡ take key.now.len key.now.key }
{
    &key.key[..key.len.min(key.key.len())]
}

// The octets between two offsets.
fn octets_at(octets: &[u8], start: usize, end: usize) -> &[u8]
    requires rising { start ≤ end }
    requires within { end ≤ length octets.now }
    ensures { result.now ≡ take (end - start) (drop start octets.now) }
{
    &octets[start..end]
}

// What at most 1500 octets unwrap to under a record.
fn unwrap_copy(granted: &EktKeyRecord, profile: Profile, octets: &[u8]) -> Result<Wrapped, KeyFault>
    requires right { IsRecordFor profile granted.now }
    requires few { length octets.now ≤ 1500 }
    ensures answer { MatchResult (opened_key (secret_in granted.now).key (length (secret_in granted.now).key) octets.now)
        (λ k. result ≡ Ok (unwrapped_as k.key k.ssrc k.roc))
        (λ fault. result ≡ Err fault) }
    ensures fits { IfOk result (λ w. IsUnwrapped (key_length profile) w) }
{
    // unwrapping takes the octets' place
    let mut room = [0; 1500];
    let copy = &mut room[..octets.len()];
    copy.copy_from_slice(octets);
    let key = AesKey::new(&granted.key[..granted.len]).unwrap();
    unwrap_key(&key, profile, copy)
}
