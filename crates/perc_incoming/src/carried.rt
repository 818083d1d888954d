// The keys that datagrams carry.
ghost use Rattle.std.specs.Prelude.{◌≡◌, ℕ, ◌-◌, ◌≤◌, Ok, Err, length, take, map, drop, All, IfOk, IfSome, MatchResult};
ghost use Rattle.perc_base.specs.Profile.{key_length};
ghost use Rattle.perc_ekt.specs.Field.{Field, spelling, told_of};
ghost use Rattle.perc_ekt.specs.Key.{IsUnwrapped, opened_key, unwrapped_as};
ghost use Rattle.perc_contexts.specs.Kept as contexts;
ghost use Rattle.perc_receiver.specs.Table.{secret_in};
ghost use Rattle.perc_receiver.specs.Opener.{by_cipher};
ghost use Rattle.perc_receiver.specs.Receiver.{carried_by};
ghost use Rattle.perc_incoming.specs.Kept.{IsRecordFor};
ghost use Rattle.perc_incoming.specs.Asking.{IsCarriedBy, carried_under, key_of, key_refusal};

use crate::records::record_of;
use perc_aes::AesKey;
use perc_base::Profile;
use perc_contexts::CarriedKey;
use perc_ekt::{EktField, EktKeyRecord, KeyFault, Wrapped, unwrap_key};
use perc_receiver::Refusal;

/// A key that was unwrapped under a live SPI.
#[derive(Clone, Copy)]
pub struct UnwrappedKey {
    /// The SPI.
    pub spi: u16,
    /// The key, with its sender's SSRC and roll-over counter.
    pub wrapped: Wrapped,
}

impl UnwrappedKey {
    /// What the contexts are told of it.
    pub(super) fn carried(&self) -> CarriedKey<'_>
        requires { self.now.wrapped.len ≤ 32 }
        ensures told { contexts.told_of result ≡ key_of self.now }
        ensures length { length result.key.now ≡ self.now.wrapped.len }
    {
        CarriedKey {
            spi: self.spi,
            key: &self.wrapped.key[..self.wrapped.len],
            roc: self.wrapped.roc,
        }
    }
}

/// The key that a field at the end of a datagram carries for a packet with this SSRC (RFC 8870 section 4.3); one for another SSRC
/// is dropped once it was unwrapped.
pub(super) fn carried_key(
    records: &[EktKeyRecord],
    profile: Profile,
    ssrc: u32,
    field: &EktField,
    datagram: &[u8],
) -> Result<Option<UnwrappedKey>, Refusal>
    requires right { All (IsRecordFor profile) records.now }
    requires few { length datagram.now ≤ 1500 }
    requires told { (f : Field) × (n : ℕ) × (field.now ≡ told_of f n) × (drop n datagram.now ≡ spelling f) }
    ensures answer { (f : Field) (n : ℕ) → field.now ≡ told_of f n → drop n datagram.now ≡ spelling f
        → IsCarriedBy (carried_by (by_cipher (map secret_in records.now)) (map secret_in records.now) ssrc f) result }
    ensures fits { IfOk result (λ key. IfSome key (λ k. k.wrapped.len ≡ key_length profile)) }
{
    match field {
        EktField::Short | EktField::Extension { .. } => Ok(None),
        EktField::Full { spi, cipher, .. } => unwrap_carried(
            records,
            profile,
            ssrc,
            *spi,
            octets_at(datagram, cipher.start, cipher.end),
        ),
    }
}

// The octets between two offsets.
fn octets_at(octets: &[u8], start: usize, end: usize) -> &[u8]
    requires rising { start ≤ end }
    requires within { end ≤ length octets.now }
    ensures { result.now ≡ take (end - start) (drop start octets.now) }
{
    &octets[start..end]
}

// The same of a wrapped key of at most 1500 octets under an SPI.
fn unwrap_carried(
    records: &[EktKeyRecord],
    profile: Profile,
    ssrc: u32,
    spi: u16,
    cipher: &[u8],
) -> Result<Option<UnwrappedKey>, Refusal>
    requires right { All (IsRecordFor profile) records.now }
    requires few { length cipher.now ≤ 1500 }
    ensures answer { IsCarriedBy (carried_under (map secret_in records.now) ssrc spi cipher.now) result }
    ensures fits { IfOk result (λ key. IfSome key (λ k. k.wrapped.len ≡ key_length profile)) }
{
    let Some(granted) = record_of(records, spi) else {
        return Err(Refusal::SpiUnknown(spi));
    };
    let wrapped = unwrap_copy(&granted, profile, cipher)?;
    if wrapped.ssrc == ssrc {
        Ok(Some(UnwrappedKey { spi, wrapped }))
    } else {
        Ok(None)
    }
}

// Unwraps a key of at most 1500 octets under a record.
fn unwrap_copy(granted: &EktKeyRecord, profile: Profile, cipher: &[u8]) -> Result<Wrapped, Refusal>
    requires right { IsRecordFor profile granted.now }
    requires few { length cipher.now ≤ 1500 }
    ensures answer { MatchResult (opened_key (secret_in granted.now).key (length (secret_in granted.now).key) cipher.now)
        (λ k. result ≡ Ok (unwrapped_as k.key k.ssrc k.roc))
        (λ fault. result ≡ Err (key_refusal fault)) }
    ensures fits { IfOk result (λ w. IsUnwrapped (key_length profile) w) }
{
    // unwrapping takes the octets' place
    let mut room = [0; 1500];
    let copy = &mut room[..cipher.len()];
    copy.copy_from_slice(cipher);
    unwrap_under(granted, profile, copy)
}

// The same in place.
fn unwrap_under(
    granted: &EktKeyRecord,
    profile: Profile,
    cipher: &mut [u8],
) -> Result<Wrapped, Refusal>
    requires { IsRecordFor profile granted.now }
    ensures answer { MatchResult (opened_key (secret_in granted.now).key (length (secret_in granted.now).key) cipher.old)
        (λ k. result ≡ Ok (unwrapped_as k.key k.ssrc k.roc))
        (λ fault. result ≡ Err (key_refusal fault)) }
    ensures fits { IfOk result (λ w. IsUnwrapped (key_length profile) w) }
{
    let key = AesKey::new(&granted.key[..granted.len]).unwrap();
    match unwrap_key(&key, profile, cipher) {
        Ok(wrapped) => Ok(wrapped),
        Err(fault) => Err(refusal_of(fault)),
    }
}

// Why the datagram is refused that carries such a key.
fn refusal_of(fault: KeyFault) -> Refusal
    ensures { result ≡ key_refusal fault }
{
    match fault {
        KeyFault::Unwrap => Refusal::Unwrap,
        KeyFault::Plain => Refusal::EktPlain,
    }
}
