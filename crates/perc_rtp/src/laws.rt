//! What holds of packets for every payload. The functions do nothing: their contracts are the laws.
ghost use Rattle.std.specs.Prelude.{◌≡◌, ◌≢◌, ◌↔◌, ℕ, ◌<◌, ◌≤◌, nat_lt, List, ◌++◌, length, Some, Ok, Err};
ghost use Rattle.std.specs.List.{All};
ghost use Rattle.perc_rtp.specs.Header.{Header, IsOctet, IsPacket, IsShort, LacksExtension, version};
ghost use Rattle.perc_rtp.specs.Media.{padding_octets};
ghost use Rattle.perc_rtp.specs.Padding.{payload_of};
ghost use Rattle.perc_rtp.specs.Reading.{packet_of};

use crate::RtpFault;

/// Octets are read as the packet that they are, and as nothing else; each packet is read, whatever its rest. They are refused
/// as short exactly where they end inside the fixed part or the CSRCs, for their version exactly where it isn't 2, and for
/// their extension exactly where one is announced that isn't there whole.
pub fn one_reading()
    ensures packet { (h : Header) (rest octets : List ℕ) → All IsOctet octets → (packet_of octets ≡ Ok (h, rest)) ↔ IsPacket h rest octets }
    ensures read { (h : Header) (rest octets : List ℕ) → IsPacket h rest octets → packet_of octets ≡ Ok (h, rest) }
    ensures short { (octets : List ℕ) → (packet_of octets ≡ Err RtpFault.Short) ↔ IsShort octets }
    ensures version { (octets : List ℕ) → (packet_of octets ≡ Err RtpFault.Version) ↔ ((12 ≤ length octets) × (version octets ≢ 2)) }
    ensures extension { (octets : List ℕ) → (packet_of octets ≡ Err RtpFault.Extension) ↔ LacksExtension octets }
{}

/// The padding that a sender writes behind a payload comes off, and leaves the payload (RFC 3550 section 5.1). A padding of 0
/// octets is none, with the bit P clear.
pub fn padding_comes_off()
    ensures { (payload : List ℕ) (pad : ℕ) → pad < 256 → payload_of (nat_lt 0 pad) (payload ++ padding_octets pad) ≡ Some payload }
{}
