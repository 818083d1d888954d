// The records that stand in for those of a DTLS handshake.
ghost use Rattle.std.specs.Option.{option_map};
ghost use Rattle.std.specs.Prelude.{◌≡◌, ◌==◌, ◌+◌, ◌*◌, ◌≤◌, ◌++◌, ◌&&◌, length, drop, take, IfSome};
ghost use Rattle.byteorder.specs.Endian.{big_bytes, big_number};
ghost use Rattle.perc_base.specs.Profile.{key_length, profile_number};
ghost use Rattle.perc_ekt.specs.Record.{IsRecord, record_octets, record_of};
ghost use Rattle.perc_kdf.specs.Derivation.{IsMasterLength};
ghost use Rattle.perc_keydist.specs.ClearRecord as spec;
ghost use Rattle.perc_keydist.specs.Told.{content_of, IsWritable};

use byteorder::{BigEndian, ByteOrder};
use perc_base::Profile;
use perc_ekt::EktKeyRecord;
use perc_kdf::Master;

// The record that ends an association.
const ALERT: [u8; 5] = [0x15, 0x50, 0x45, 0x52, 0x43];

/// A record that stands in for one of a DTLS handshake. It protects nothing.
#[derive(Clone, Copy)]
pub enum ClearRecord {
    /// An endpoint wants to join with the double profile of this number (RFC 8723 section 10.1): 8 octets.
    Hello(u16),
    /// The endpoint is a member: 101 octets, or 149 in profile 000a.
    Welcome {
        /// The outer key and salt of what the endpoint sends.
        client: Master,
        /// The outer key and salt of what it receives.
        server: Master,
        /// The conference's EKT key.
        granted: EktKeyRecord,
    },
    /// A new EKT key: 43 octets, or 59 in profile 000a.
    Renew(EktKeyRecord),
    /// The endpoint leaves: 5 octets.
    Leave,
}

impl ClearRecord {
    /// The record that these octets are in a conference of this profile, whose keys are so long. None exactly where they are
    /// none: with an octet more or less they aren't.
    #[tactic(auto, unfolding(crate::specs::ClearRecord::record_in))]
    pub fn read(octets: &[u8], profile: Profile) -> Option<ClearRecord>
        ensures value { option_map content_of result ≡ spec.record_in profile octets.now }
        ensures right { IfSome result (λ r. IsWritable (content_of r)) }
    {
        if octets == ALERT.as_slice() {
            return Some(ClearRecord::Leave);
        }
        if is_kind(1, octets) {
            return hello_in(octets);
        }
        if is_kind(2, octets) {
            return welcome_in(octets, profile);
        }
        if is_kind(3, octets) {
            return renewal_in(octets, profile);
        }
        None
    }

    /// Writes the record to the front of `out`, and answers its length: at most 149 octets. What stands behind it in `out`
    /// stays. The record of an EKT key in it is right.
    #[tactic(auto, unfolding(crate::specs::ClearRecord::spelling))]
    pub fn write(&self, profile: Profile, out: &mut [u8]) -> usize
        requires right { IsWritable (content_of self.now) }
        requires room { 149 ≤ length out.old }
        ensures length { result ≡ length (spec.spelling profile (content_of self.now)) }
        ensures some { 1 ≤ result }
        ensures few { result ≤ 149 }
        ensures value { out.new ≡ spec.spelling profile (content_of self.now) ++ drop result out.old }
    {
        match self {
            ClearRecord::Hello(number) => write_hello(*number, out),
            ClearRecord::Welcome {
                client,
                server,
                granted,
            } => write_welcome(profile, client, server, granted, out),
            ClearRecord::Renew(granted) => write_renewal(granted, out),
            ClearRecord::Leave => write_octets(&ALERT, out),
        }
    }
}

// What a handshake record of this kind begins with: its content type, PERC in ASCII, and the kind.
fn front(kind: u8) -> [u8; 6]
    ensures { result ≡ spec.handshake kind }
{
    [0x16, 0x50, 0x45, 0x52, 0x43, kind]
}

// Whether the octets are a handshake record of this kind.
fn is_kind(kind: u8, octets: &[u8]) -> bool
    ensures { result ≡ spec.is_kind kind octets.now }
{
    let head = &octets[..octets.len().min(6)];
    head == front(kind).as_slice()
}

// What a hello says behind its front.
fn hello_in(octets: &[u8]) -> Option<ClearRecord>
    ensures value { option_map content_of result ≡ spec.hello_in octets.now }
    ensures right { IfSome result (λ r. IsWritable (content_of r)) }
{
    if octets.len() != 8 {
        return None;
    }
    Some(ClearRecord::Hello(BigEndian::read_u16(&octets[6..])))
}

// What a welcome says behind its front.
fn welcome_in(octets: &[u8], profile: Profile) -> Option<ClearRecord>
    ensures value { option_map content_of result ≡ spec.welcome_in (key_length profile) (profile_number profile) octets.now }
    ensures right { IfSome result (λ r. IsWritable (content_of r)) }
{
    let len = profile.key_len();
    if octets.len() != 3 * len + 53 || BigEndian::read_u16(&octets[6..]) != profile.number() {
        return None;
    }
    let granted = EktKeyRecord::read(&octets[2 * len + 32..], profile)?;
    Some(ClearRecord::Welcome {
        client: half_at(len, &octets[8..]),
        server: half_at(len, &octets[len + 20..]),
        granted,
    })
}

// What a renewal says behind its front.
fn renewal_in(octets: &[u8], profile: Profile) -> Option<ClearRecord>
    ensures value { option_map content_of result ≡ spec.renewal_in (key_length profile) octets.now }
    ensures right { IfSome result (λ r. IsWritable (content_of r)) }
{
    if octets.len() != profile.key_len() + 27 {
        return None;
    }
    let granted = EktKeyRecord::read(&octets[6..], profile)?;
    Some(ClearRecord::Renew(granted))
}

// A key of so many octets and its salt, at the front of the octets.
fn half_at(len: usize, octets: &[u8]) -> Master
    requires size { IsMasterLength len }
    requires room { len + 12 ≤ length octets.now }
    ensures { result ≡ spec.half_at len octets.now }
{
    let mut salt = [0; 12];
    salt.copy_from_slice(&octets[len..len + 12]);
    Master::new(&octets[..len], &salt).unwrap()
}

// Writes a hello with this profile's number.
fn write_hello(number: u16, out: &mut [u8]) -> usize
    requires room { 149 ≤ length out.old }
    ensures length { result ≡ 8 }
    ensures value { out.new ≡ (spec.handshake 1 ++ big_bytes 2 number) ++ drop 8 out.old }
{
    write_named(1, number, out);
    8
}

// Writes the front of a handshake record of this kind, and a profile's number.
fn write_named(kind: u8, number: u16, out: &mut [u8])
    requires room { 8 ≤ length out.old }
    ensures { out.new ≡ (spec.handshake kind ++ big_bytes 2 number) ++ drop 8 out.old }
{
    write_head(kind, out);
    BigEndian::write_u16(&mut out[6..], number);
}

#[tactic(auto, unfolding(crate::specs::ClearRecord::spelling))]
fn write_welcome(
    profile: Profile,
    client: &Master,
    server: &Master,
    granted: &EktKeyRecord,
    out: &mut [u8],
) -> usize
    requires right { IsRecord granted.now }
    requires room { 149 ≤ length out.old }
    ensures length { result ≡ length (spec.spelling profile (spec.Welcome client.now server.now granted.now)) }
    ensures some { 8 ≤ result }
    ensures few { result ≤ 149 }
    ensures value { out.new ≡ spec.spelling profile (spec.Welcome client.now server.now granted.now) ++ drop result out.old }
{
    write_named(2, profile.number(), out);
    8 + write_keys(client, server, granted, &mut out[8..])
}

// Writes both halves, and the record of an EKT key.
fn write_keys(client: &Master, server: &Master, granted: &EktKeyRecord, out: &mut [u8]) -> usize
    requires right { IsRecord granted.now }
    requires room { 141 ≤ length out.old }
    ensures length { result ≡ length ((spec.half_octets client.now ++ spec.half_octets server.now) ++ record_octets granted.now) }
    ensures few { result ≤ 141 }
    ensures value { out.new ≡ ((spec.half_octets client.now ++ spec.half_octets server.now) ++ record_octets granted.now) ++ drop result out.old }
{
    let len = write_halves(client, server, out);
    len + write_granted(granted, &mut out[len..])
}

fn write_halves(client: &Master, server: &Master, out: &mut [u8]) -> usize
    requires room { 88 ≤ length out.old }
    ensures length { result ≡ length (spec.half_octets client.now ++ spec.half_octets server.now) }
    ensures few { result ≤ 88 }
    ensures value { out.new ≡ (spec.half_octets client.now ++ spec.half_octets server.now) ++ drop result out.old }
{
    let len = write_half(client, out);
    len + write_half(server, &mut out[len..])
}

fn write_renewal(granted: &EktKeyRecord, out: &mut [u8]) -> usize
    requires right { IsRecord granted.now }
    requires room { 149 ≤ length out.old }
    ensures length { result ≡ 6 + length (record_octets granted.now) }
    ensures few { result ≤ 149 }
    ensures value { out.new ≡ (spec.handshake 3 ++ record_octets granted.now) ++ drop result out.old }
{
    write_head(3, out);
    6 + write_granted(granted, &mut out[6..])
}

// Writes the front of a handshake record of this kind.
fn write_head(kind: u8, out: &mut [u8])
    requires room { 6 ≤ length out.old }
    ensures { out.new ≡ spec.handshake kind ++ drop 6 out.old }
{
    out[..6].copy_from_slice(&front(kind));
}

// Writes a key and its salt.
fn write_half(half: &Master, out: &mut [u8]) -> usize
    requires room { 44 ≤ length out.old }
    ensures length { result ≡ length (spec.half_octets half.now) }
    ensures few { result ≤ 44 }
    ensures value { out.new ≡ spec.half_octets half.now ++ drop result out.old }
{
    let len = write_octets(half.key(), out);
    len + write_octets(half.salt(), &mut out[len..])
}

// Writes the record of an EKT key.
fn write_granted(granted: &EktKeyRecord, out: &mut [u8]) -> usize
    requires right { IsRecord granted.now }
    requires room { 53 ≤ length out.old }
    ensures length { result ≡ length (record_octets granted.now) }
    ensures few { result ≤ 53 }
    ensures value { out.new ≡ record_octets granted.now ++ drop result out.old }
{
    let mut octets = [0; 53];
    let len = granted.write(&mut octets);
    write_octets(&octets[..len], out)
}

// Writes octets as they are, and answers how many.
fn write_octets(octets: &[u8], out: &mut [u8]) -> usize
    requires { length octets.now ≤ length out.old }
    ensures length { result ≡ length octets.now }
    ensures value { out.new ≡ octets.now ++ drop (length octets.now) out.old }
{
    out[..octets.len()].copy_from_slice(octets);
    octets.len()
}
