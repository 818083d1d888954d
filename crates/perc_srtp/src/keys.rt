// The keys of a session, and the IVs that packets take.
ghost use Rattle.std.specs.Prelude.{◌≡◌, ◌^◌, ◌<◌, ◌∷◌, ◌++◌, length};
ghost use Rattle.byteorder.specs.Endian.{big_bytes};
ghost use Rattle.perc_kdf.specs.Derivation.{session_keys};
ghost use Rattle.perc_srtp.specs.Sealed as spec;

use byteorder::{BigEndian, ByteOrder};
use perc_aes::AesKey;
use perc_kdf::{Kind, Master, session};
use std::marker::Model;

/// The keys of a session (RFC 3711 section 4.3), for packets of one kind. Its value is the session's key and its salt.
#[derive(Drop)]
pub struct Keys {
    pub(crate) cipher: AesKey,
    pub(crate) salt: [u8; 12],
}

impl Model for Keys {
    ghost use Rattle.perc_kdf.specs.Derivation.{KeyAndSalt};

    ghost Value = { KeyAndSalt };

    ghost view = { λ k. record { key = k.cipher; salt = k.salt } };
}

impl Keys {
    /// The keys that a master gives for packets of this kind.
    pub fn new(master: &Master, kind: Kind) -> Keys
        ensures { result ≡ session_keys master.now kind }
    {
        let keys = session(master, kind);
        Keys {
            cipher: AesKey::new(&keys.key[..keys.len]).unwrap(),
            salt: keys.salt,
        }
    }
}

/// The IV of an RTP packet with this SSRC and this index, below 2^48 (RFC 7714 section 8.1).
#[tactic(auto, unfolding(crate::specs::Sealed::iv))]
pub fn iv(salt: &[u8; 12], ssrc: u32, index: u64) -> [u8; 12]
    requires { index < 2 ^ 48 }
    ensures { result ≡ spec.iv salt.now ssrc index }
{
    let mut octets = [0; 12];
    let (roll_over, seq) = ((index / 65536) as u32, (index % 65536) as u16);
    write_unsalted(ssrc, roll_over, seq, &mut octets[2..]);
    salted(salt, octets)
}

/// The IV of an RTCP packet with this SSRC and this index, below 2^31 (RFC 7714 section 9.1).
#[tactic(auto, unfolding(crate::specs::Sealed::rtcp_iv))]
pub fn rtcp_iv(salt: &[u8; 12], ssrc: u32, index: u32) -> [u8; 12]
    requires { index < 2 ^ 31 }
    ensures { result ≡ spec.rtcp_iv salt.now ssrc index }
{
    let mut octets = [0; 12];
    write_unsalted_rtcp(ssrc, index, &mut octets[2..]);
    salted(salt, octets)
}

// Writes the SSRC, the roll-over counter and the sequence number.
fn write_unsalted(ssrc: u32, roll_over: u32, seq: u16, out: &mut [u8])
    requires { length out.old ≡ 10 }
    ensures { out.new ≡ big_bytes 4 ssrc ++ big_bytes 4 roll_over ++ big_bytes 2 seq }
{
    BigEndian::write_u32(out, ssrc);
    BigEndian::write_u32(&mut out[4..], roll_over);
    BigEndian::write_u16(&mut out[8..], seq);
}

// Writes the SSRC, two zero octets and an RTCP index.
fn write_unsalted_rtcp(ssrc: u32, index: u32, out: &mut [u8])
    requires { length out.old ≡ 10 }
    ensures { out.new ≡ big_bytes 4 ssrc ++ 0 ∷ 0 ∷ big_bytes 4 index }
{
    BigEndian::write_u32(out, ssrc);
    BigEndian::write_u16(&mut out[4..], 0);
    BigEndian::write_u32(&mut out[6..], index);
}

// The octets with those of the salt added.
fn salted(salt: &[u8; 12], octets: [u8; 12]) -> [u8; 12]
    ensures { result ≡ spec.salted salt.now octets }
{
    let mut sum = octets;
    for k in 0..12 {
        sum[k] = salt[k] ^ octets[k];
    }
    sum
}
