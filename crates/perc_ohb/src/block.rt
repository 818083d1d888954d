// The Original Header Block.
ghost use Rattle.std.specs.Prelude.{◌≡◌, ℕ, ◌+◌, ◌<◌, ◌≤◌, List, ◌++◌, length, drop, Ok, Err, IfOk, IfSome, MatchResult};
ghost use Rattle.perc_ohb.specs.Block.{EndsIn, IsOhb, block_length, config, last_config, marker_bits, pt_octets, seq_octets, spelling};
ghost use Rattle.perc_ohb.specs.Reading.{block_of, config_at, marker_in, pt_at, seq_at};

use byteorder::{BigEndian, ByteOrder};
use perc_rtp::is_set;

/// The original values of what a distributor changed in a header; None where a field is as its sender made it.
#[derive(Clone, Copy, Debug, PartialEq, Eq)]
pub struct Ohb {
    /// The payload type, below 128.
    pub pt: Option<u8>,
    /// The sequence number.
    pub seq: Option<u16>,
    /// The marker.
    pub marker: Option<bool>,
}

/// Why octets don't end in a block.
#[derive(Clone, Copy, Debug, PartialEq, Eq)]
pub enum OhbFault {
    /// There are none.
    Empty,
    /// One of the four high bits of the Config octet is set.
    Reserved,
    /// The Config octet has the original marker, but doesn't say that it is kept.
    Marker,
    /// The octets are fewer than the fields that the Config octet announces.
    Short,
    /// The payload type is 128 or more.
    Pt,
}

// The Config octet's bits, counted from the lowest.
const KEEPS_SEQ: u8 = 0;

const KEEPS_PT: u8 = 1;

const KEEPS_MARKER: u8 = 2;

const MARKER: u8 = 3;

impl Ohb {
    /// Reads the block at the end of octets, and answers its length, 1 to 4 (RFC 8723 section 4).
    pub fn read_end(bytes: &[u8]) -> Result<(Ohb, usize), OhbFault>
        // The octets end in the block that is read.
        ensures ok { IfOk result (λ read. (before : List ℕ) × EndsIn read.0 before bytes.now × (read.1 ≡ length (spelling read.0))) }
        ensures pt { IfOk result (λ read. IfSome read.0.pt (λ pt. pt < 128)) }
        ensures within { IfOk result (λ read. (1 ≤ read.1) × (read.1 ≤ 4) × (read.1 ≤ length bytes.now)) }
        // A block that they end in is read.
        ensures only { (o : Ohb) (before : List ℕ) → EndsIn o before bytes.now → result ≡ Ok (o, length (spelling o)) }
        // And what is answered for any octets, the first fault first.
        ensures answer { MatchResult (block_of bytes.now) (λ read. result ≡ Ok (read.1, length (spelling read.1))) (λ fault. result ≡ Err fault) }
    {
        let config = read_config(bytes)?;
        let len = len_by(config);
        if bytes.len() < len {
            return Err(OhbFault::Short);
        }
        let pt = read_pt(bytes, config)?;
        let seq = read_seq(bytes, config);
        let marker = read_marker(config);
        Ok((Ohb { pt, seq, marker }, len))
    }

    /// Writes the block to the front of `out`, and answers its length: the payload type in one octet and the sequence number
    /// in two, where they are kept, and the Config octet. What stands behind it in `out` stays.
    pub fn write(&self, out: &mut [u8; 4]) -> usize
        requires { IfSome self.now.pt (λ pt. pt < 128) }
        ensures within { (1 ≤ result) × (result ≤ 4) }
        ensures len { result ≡ length (spelling self.now) }
        ensures value { out.new ≡ spelling self.now ++ drop result out.old }
    {
        let pt = write_pt(self.pt, out);
        let seq = write_seq(self.seq, &mut out[pt..]);
        let last = pt + seq;
        out[last] = config_octet(self);
        last + 1
    }
}

// The Config octet, where it is one.
fn read_config(bytes: &[u8]) -> Result<u8, OhbFault>
    ensures { result ≡ config_at bytes.now }
{
    let Some(last) = bytes.last() else {
        return Err(OhbFault::Empty);
    };
    let config = *last;
    if config >> 4 != 0 {
        return Err(OhbFault::Reserved);
    }
    if is_set(config, MARKER) && !is_set(config, KEEPS_MARKER) {
        return Err(OhbFault::Marker);
    }
    Ok(config)
}

// How many octets a block with this Config octet has.
fn len_by(config: u8) -> usize
    ensures within { result ≤ 4 }
    ensures value { result ≡ block_length config }
{
    let pt = usize::from(is_set(config, KEEPS_PT));
    let seq = usize::from(is_set(config, KEEPS_SEQ));
    1 + pt + 2 * seq
}

// The payload type, at the front of the block.
fn read_pt(bytes: &[u8], config: u8) -> Result<Option<u8>, OhbFault>
    requires config { config ≡ last_config bytes.now }
    requires fits { block_length config ≤ length bytes.now }
    ensures { result ≡ pt_at bytes.now }
{
    if !is_set(config, KEEPS_PT) {
        return Ok(None);
    }
    let pt = bytes[bytes.len() - len_by(config)];
    if pt >= 128 {
        return Err(OhbFault::Pt);
    }
    Ok(Some(pt))
}

// The sequence number, in the two octets before the Config octet.
fn read_seq(bytes: &[u8], config: u8) -> Option<u16>
    requires config { config ≡ last_config bytes.now }
    requires fits { block_length config ≤ length bytes.now }
    ensures { result ≡ seq_at bytes.now }
{
    if !is_set(config, KEEPS_SEQ) {
        return None;
    }
    let seq = BigEndian::read_u16(&bytes[bytes.len() - 3..]);
    Some(seq)
}

// The marker, in the Config octet.
fn read_marker(config: u8) -> Option<bool>
    ensures { result ≡ marker_in config }
{
    if !is_set(config, KEEPS_MARKER) {
        return None;
    }
    Some(is_set(config, MARKER))
}

// Writes the payload type to the front, where it is kept, and answers how many octets that took.
fn write_pt(pt: Option<u8>, out: &mut [u8]) -> usize
    requires { 1 ≤ length out.old }
    ensures len { result ≡ length (pt_octets pt) }
    ensures value { out.new ≡ pt_octets pt ++ drop result out.old }
{
    let Some(pt) = pt else {
        return 0;
    };
    out[0] = pt;
    1
}

// The same for the sequence number.
fn write_seq(seq: Option<u16>, out: &mut [u8]) -> usize
    requires { 2 ≤ length out.old }
    ensures len { result ≡ length (seq_octets seq) }
    ensures value { out.new ≡ seq_octets seq ++ drop result out.old }
{
    let Some(seq) = seq else {
        return 0;
    };
    BigEndian::write_u16(out, seq);
    2
}

// The Config octet of a block.
fn config_octet(ohb: &Ohb) -> u8
    ensures { result ≡ config ohb.now }
{
    marker_octet(ohb.marker) + 2 * u8::from(ohb.pt.is_some()) + u8::from(ohb.seq.is_some())
}

// The Config octet of a block that has the marker at most.
fn marker_octet(marker: Option<bool>) -> u8
    ensures within { result ≤ 12 }
    ensures value { result ≡ marker_bits marker }
{
    match marker {
        None => 0x00,
        Some(false) => 0x04,
        Some(true) => 0x0c,
    }
}
